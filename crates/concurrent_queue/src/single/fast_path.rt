//! The fast path of a push and of a pop of one slot: the operations of the machine in straight code.
//!
//! `push_fast` makes `Push`, `PushPut` and `PushUnlock`, `pop_fast` makes `Pop`, `PopTake` and `PopUnlock`. After each operation that does
//! not succeed the call goes on in the machine at that action, so that it can't be made twice.

ghost use Rattle.std.specs.Prelude.{true, MatchResult};
ghost use Rattle.concurrent_queue.specs.machine.FastPath.{PushesOnEnd, PopsOnEnd};
ghost use Rattle.concurrent_queue.specs.machine.Single.{SingleMakes};
ghost use Rattle.concurrent_queue.specs.Replies.{MaySingle, MayPush, MayPop};
ghost use Rattle.concurrent_queue.specs.declared.call.QueueReply.{QueueReply};
ghost use Rattle.concurrent_queue.specs.declared.call.QueueReply.TheVariants as reply;
ghost use Rattle.concurrent_queue.specs.declared.queue_call.CallState.TheVariants as state;

use crate::cells::{Cells, Word};
use crate::error::{PopError, PushError};
use crate::single::{CLOSED, FILLING, LOCKED, NOT_LOCKED, PUSHED, SLOT, SingleAction};

/// Pushes or is refused; or returns the action at which the machine has to go on: its first if another call holds the slot.
#[inline(always)]
pub(crate) fn push_fast<T: Drop, C: Cells<T>>(
    value: T,
    cells: &mut C,
) -> Result<Result<(), PushError<T>>, SingleAction<T>>
    requires stands { C.stands (state.Single (SingleAction.Push value)) cells.old }
    ensures deeds { PushesOnEnd (SingleMakes C.did) cells.old (SingleAction.Push value) result cells.new }
    ensures answers { MatchResult result (λ r. MayPush true value (reply.Push r))
        (λ a. (r : QueueReply T) → MaySingle a r → MayPush true value r) }
{
    // Commit. Expecting 0 tests that the queue is open, the slot empty and unlocked, so a refusal read off `found` is true at this step.
    if let Err(found) = cells.compare_exchange(Word::State, 0, FILLING) {
        return if found & CLOSED != 0 {
            Ok(Err(PushError::Closed(value)))
        } else if found & PUSHED != 0 {
            Ok(Err(PushError::Full(value)))
        } else {
            Err(SingleAction::Push(value))
        };
    }
    // Put before the lock bit is cleared: a pop takes the message as soon as it finds the bit clear.
    if let Err(value) = cells.put(SLOT, value) {
        return Err(SingleAction::PushPut(value));
    }
    // Last: from here on a pop can take the message. An `and` keeps the closed bit, which a store would erase.
    cells.fetch_and(Word::State, NOT_LOCKED);
    Ok(Ok(()))
}

/// Pops or is refused; or returns the action at which the machine has to go on: its first if another call holds the slot, or if the queue
/// is closed and not empty.
#[inline(always)]
pub(crate) fn pop_fast<T: Drop, C: Cells<T>>(
    cells: &mut C,
) -> Result<Result<T, PopError>, SingleAction<T>>
    requires stands { C.stands (state.Single (SingleAction.Pop 2)) cells.old }
    ensures deeds { PopsOnEnd (SingleMakes C.did) cells.old (SingleAction.Pop 2) result cells.new }
    ensures answers { MatchResult result (λ _. Unit {0})
        (λ a. (r : QueueReply T) → MaySingle a r → MayPop r) }
{
    // Commit. It locks the slot against pushes. Expecting an open queue, it can't lose the closed bit; of a closed one the machine pops.
    if let Err(found) = cells.compare_exchange(Word::State, PUSHED, LOCKED) {
        return if found & PUSHED != 0 {
            Err(SingleAction::Pop(found & NOT_LOCKED))
        } else if found & CLOSED != 0 {
            Ok(Err(PopError::Closed))
        } else {
            Ok(Err(PopError::Empty))
        };
    }
    // Take before the lock bit is cleared: from then on a push can win the slot and put its message.
    match cells.take(SLOT) {
        Some(value) => {
            // Last: from here on a push can win the slot. An `and` keeps the closed bit.
            cells.fetch_and(Word::State, NOT_LOCKED);
            Ok(Ok(value))
        }
        None => Err(SingleAction::PopTake),
    }
}
