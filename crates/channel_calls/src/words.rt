//! What the questions of a channel work on: words alone, without locks and without the runtime, so a question never waits.

use crate::stage::Side;
use concurrent_queue::call::QueueReply;
use concurrent_queue::queue_call::QueueCall;

/// The words of a channel's cells: each method is one step that never waits.
///
/// As of [`ChannelCells`](crate::cells::ChannelCells), nothing is known of the contents but the form of the queue. The contract of a method
/// says which operation it did, and requires that the operation may be done.
pub trait ChannelWords<T, W> {
    ghost use Rattle.std.specs.Prelude.{ℕ, Option};
    ghost use Rattle.concurrent_queue.specs.Replies.{Follows};
    ghost use Rattle.concurrent_queue.specs.SharedQueue.{IsWordsAlone};
    ghost use Rattle.concurrent_queue.specs.declared.cells.QueueForm.{QueueForm};
    ghost use Rattle.concurrent_queue.specs.declared.call.QueueReply.{QueueReply as QueueAnswer};
    ghost use Rattle.concurrent_queue.specs.declared.queue_call.QueueCall.{QueueCall as Call};
    ghost use Rattle.channel_calls.specs.Deeds.{Deed, stepped, counted};
    ghost use Rattle.channel_calls.specs.Stands.{MayGoOn, GoesOn, StaysOn};
    ghost use Rattle.channel_calls.specs.declared.stage.Stage.{Stage};

    /// Which form the queue is said to have; no step changes it.
    ghost has_form: { Self → QueueForm → Type 0 } = { λ _ _. ⊥ };

    /// Whether this operation, with this answer, was done between these two.
    ghost did: { Deed T W → Self → Self → Type 0 } = { λ _ _ _. Unit {0} };

    /// Whether this operation may be done and be answered so.
    ghost may: { Deed T W → Self → Type 0 } = { λ _ _. Unit {0} };

    /// Whether the call whose words these are is at this stage of its machine.
    ghost stands: { Stage (Call T) T W → Self → Type 0 } = { λ _ _. Unit {0} };

    /// One step of a call of the queue that is a question other than the length.
    fn step_words(&mut self, call: &mut QueueCall<T>) -> Option<QueueReply<T>>
        requires alone { IsWordsAlone call.old }
        requires may { (after : Call T) (o : Option (QueueAnswer T)) → may (stepped call.old after o) self.old }
        ensures deed { did (stepped call.old call.new result) self.old self.new }
        ensures answers { (f : QueueForm) → has_form self.old f → Follows f call.old call.new result }
        ensures form { (f : QueueForm) → has_form self.old f → has_form self.new f };

    /// The number of handles of this kind.
    fn count(&mut self, side: Side) -> usize
        requires may { (n : ℕ) → may (counted side n) self.old }
        ensures deed { did (counted side result) self.old self.new }
        ensures form { (f : QueueForm) → has_form self.old f → has_form self.new f };

    /// A call may do the next operation of its machine, whatever it is answered.
    ghost ready: { MayGoOn stands may };

    /// Such an operation leads the call to where its machine goes by the answer.
    ghost leads: { GoesOn stands did };

    /// A step of the machine that does no operation leads it on over the same words.
    ghost rests: { StaysOn stands };
}
