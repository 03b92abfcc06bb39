//! The pending operations and streams, and those of them that were woken, by wait queue; and what calls under way have taken.

ghost use Rattle.std.specs.Prelude.{◌≡◌};
ghost use Rattle.channel_world.specs.Kinds.{is_pending_on, operation_stance, stream_stance};

use super::world::World;
use channel_calls::stage::WaitList;
use channel_world_model::name::HandleKind;
use channel_world_runs::names::{HandleEntry, OperationEntry};

/// Whether an operation is pending on this wait queue.
fn pends_on<T>(line: WaitList, operation: &Option<OperationEntry<T>>) -> bool
    ensures { result ≡ is_pending_on line (operation_stance operation.now) }
{
    matches!(operation, Some(entry)
        if entry.poll_state.is_pending() && entry.operation.is_on(line))
}

/// Whether a receiver's stream is pending on this wait queue.
fn streams_on(line: WaitList, handle_entry: &Option<HandleEntry>) -> bool
    ensures { result ≡ is_pending_on line (stream_stance handle_entry.now) }
{
    matches!((line, handle_entry), (WaitList::Streams, Some(entry))
        if matches!(entry.handle.kind, HandleKind::Receiver)
            && entry.poll_state.is_pending())
}

impl<T: Drop> World<T> {
    ghost use Rattle.std.specs.Prelude.{◌≡◌, ◌<◌, ◌^◌, IfSome, IsSome};
    ghost use Rattle.channel_world_runs.specs.Owed.{woken_on};
    ghost use Rattle.channel_world.specs.Kinds.{pending_on_line};
    ghost use Rattle.channel_world.specs.View.{names_in, taken_in, woken_in};

    /// How many are pending on this wait queue: they live, their last poll ended so, and no poll of them is under way. It walks over all
    /// names.
    pub fn pending_of(&self, line: WaitList) -> usize
        ensures { result ≡ pending_on_line line (names_in self.now) }
    {
        self.keeps_names();
        let operations = self.world_state.name_table.operations.iter();
        let operations = operations.filter(|(_, x)| pends_on(line, *x)).count();
        let streams = self.world_state.name_table.handles.iter();
        let streams = streams.filter(|(_, x)| streams_on(line, *x)).count();
        operations + streams
    }

    /// How many of those that are pending on this wait queue were woken since their last poll. It walks over all names that are polled or
    /// pending.
    pub fn woken_of(&self, line: WaitList) -> usize
        ensures { result ≡ woken_on line (names_in self.now) (woken_in self.now) }
    {
        self.world_state
            .order
            .count_woken_on(&self.world_state.name_table, line)
    }

    /// How many messages the calls under way have taken; the places that they have freed and not announced yet are among these. `None` if
    /// the number doesn't fit. It walks over the calls under way.
    pub fn taken(&self) -> Option<u64>
        ensures told { IfSome result (λ n. n ≡ taken_in self.now) }
        ensures known { taken_in self.now < 2 ^ 64 → IsSome result }
    {
        let calls = &self.world_state.calls;
        let mut taken = 0u64;
        for k in 0..calls.len() {
            taken = taken.checked_add(calls[k].activity.taken)?;
        }
        Some(taken)
    }
}
