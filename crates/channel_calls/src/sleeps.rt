//! What a call that blocks its thread sleeps on. Only the thread itself sleeps there; any thread may wake it.

use crate::cells::ChannelCells;

/// Cells of a channel on which a thread may sleep until a task of its own is woken.
///
/// As for the operations of the cells, nothing is known of what these two do: a function that promises that they were done in some order,
/// among the cells' operations, has called them in that order.
pub trait Sleeps<T, W>: ChannelCells<T, W> {
    ghost use Rattle.std.specs.Prelude.{Option};
    ghost use Rattle.concurrent_queue.specs.declared.cells.QueueForm.{QueueForm};
    ghost use Rattle.channel_calls.specs.Stands.{AllowsAll};

    /// Whether a task was asked for between these two, with this answer.
    ghost parked: { Option W → Self → Self → Type 0 } = { λ _ _ _. Unit {0} };

    /// Whether the thread slept between these two.
    ghost slept: { Self → Self → Type 0 } = { λ _ _. Unit {0} };

    /// A task whose waking ends this thread's sleep; `None` if there is no memory for it.
    fn park(&mut self) -> Option<W>
        ensures asked { parked result self.old self.new }
        ensures form { (f : QueueForm) → Self.has_form self.old f → Self.has_form self.new f };

    /// Sleeps until such a task is woken.
    fn sleep(&mut self)
        ensures slept { slept self.old self.new }
        ensures form { (f : QueueForm) → Self.has_form self.old f → Self.has_form self.new f };

    /// These cells allow every operation: a call that blocks is several calls of the machine one after another, and no stage of one call
    /// says where it is.
    ghost free: { AllowsAll Self.stands Self.may };
}
