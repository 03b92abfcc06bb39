//! The fast path of a push and of a pop of a ring: the operations of the machine in straight code, which saves choosing the next action at
//! each one. Over cells of any kind it is proved that they are the machine's steps, up to the answer or to the action at which the machine
//! goes on, and which answers they may give.
//!
//! `push_fast` makes `Push`, `PushStamp`, `PushSwap`, `PushPut` and `PushStore`, or `PushHead` for a full ring; `pop_fast` makes `Pop`,
//! `PopStamp`, `PopSwap`, `PopTake` and `PopStore`, or `PopTail` for an empty one. `bounded` has the whole reason for each order.

ghost use Rattle.std.specs.Prelude.{ℕ, true, MatchResult};
ghost use Rattle.concurrent_queue.specs.machine.FastPath.{PushesOnEnd, PopsOnEnd};
ghost use Rattle.concurrent_queue.specs.machine.RingMoves.{RingMakes};
ghost use Rattle.concurrent_queue.specs.Replies.{MayRing, MayPush, MayPop};
ghost use Rattle.concurrent_queue.specs.Stands.{IsMeasured};
ghost use Rattle.concurrent_queue.specs.declared.call.QueueReply.{QueueReply};
ghost use Rattle.concurrent_queue.specs.declared.call.QueueReply.TheVariants as reply;
ghost use Rattle.concurrent_queue.specs.declared.queue_call.CallState.TheVariants as state;

use crate::bounded::{RingAction, Shape, WhenFull};
use crate::cells::{Cells, Slot, Word};
use crate::error::{PopError, PushError};

/// Pushes or is refused; or returns the action at which the machine has to go on: its first if another call was faster or is under way, or
/// if positions end.
#[inline(always)]
pub(crate) fn push_fast<T: Drop, C: Cells<T>>(
    shape: Shape,
    value: T,
    cells: &mut C,
) -> Result<Result<(), PushError<T>>, RingAction<T>>
    requires stands { C.stands (state.Ring (RingAction.Push WhenFull.Refuse value)) cells.old }
    requires measures { IsMeasured shape.cap shape.mark (C.form_of cells.old) }
    ensures deeds { PushesOnEnd (RingMakes shape.cap shape.mark C.did) cells.old (RingAction.Push WhenFull.Refuse value) result cells.new }
    ensures answers { MatchResult result (λ r. MayPush true value (reply.Push r))
        (λ a. (cap : ℕ) (r : QueueReply T) → MayRing cap a r → MayPush true value r) }
{
    // The tail first: the stamp below is that of this position, and the exchange expects this word. It also shows a closed queue.
    let tail = cells.load(Word::Tail);
    if shape.is_marked(tail) {
        return Ok(Err(PushError::Closed(value)));
    }
    if u64::MAX - shape.lap() < tail {
        return Err(RingAction::PushShut(WhenFull::Refuse, value));
    }
    // After the tail. A stamp equal to the position can't change until a push moves the tail from here.
    let stamp = cells.load(shape.stamp(tail));
    if stamp != tail {
        let lap = shape.lap();
        // The head last: if it still is one lap behind, the queue is full at this load. If not, a pop has won the old message and `Full`
        // would be false.
        if lap <= tail && stamp == tail - lap + 1 && cells.load(Word::Head) == tail - lap {
            return Ok(Err(PushError::Full(value)));
        }
        return Err(RingAction::Push(WhenFull::Refuse, value));
    }
    // Commit. An exchange: an add would take a position of a closed queue, or one whose slot isn't free.
    if cells
        .compare_exchange(Word::Tail, tail, shape.next(tail))
        .is_err()
    {
        return Err(RingAction::Push(WhenFull::Refuse, value));
    }
    // Put before the stamp is stored: a pop takes the message as soon as it finds that stamp.
    if let Err(value) = cells.put(Slot::At(shape.index(tail)), value) {
        return Err(RingAction::PushPut(WhenFull::Refuse, value, tail));
    }
    // Last: this publishes the message to pops.
    cells.store(shape.stamp(tail), tail.wrapping_add(1));
    Ok(Ok(()))
}

/// Pops or is refused; or returns the action at which the machine has to go on: its first if another call was faster or is under way.
#[inline(always)]
pub(crate) fn pop_fast<T: Drop, C: Cells<T>>(
    shape: Shape,
    cells: &mut C,
) -> Result<Result<T, PopError>, RingAction<T>>
    requires stands { C.stands (state.Ring RingAction.Pop) cells.old }
    requires measures { IsMeasured shape.cap shape.mark (C.form_of cells.old) }
    ensures deeds { PopsOnEnd (RingMakes shape.cap shape.mark C.did) cells.old RingAction.Pop result cells.new }
    ensures answers { MatchResult result (λ _. Unit {0})
        (λ a. (cap : ℕ) (r : QueueReply T) → MayRing cap a r → MayPop r) }
{
    // The head first: the stamp below is that of this position, and the exchange expects this word.
    let head = cells.load(Word::Head);
    // After the head. A stamp that announces the message can't change until a call moves the head from here.
    let stamp = cells.load(shape.stamp(head));
    if stamp != head.wrapping_add(1) {
        if stamp == head {
            return pop_empty(shape, head, cells);
        }
        return Err(RingAction::Pop);
    }
    // Commit. An exchange, since another pop or a displacing push may have won this message.
    if cells
        .compare_exchange(Word::Head, head, shape.next(head))
        .is_err()
    {
        return Err(RingAction::Pop);
    }
    // Take before the stamp is stored: the push of the next lap puts its message as soon as it finds that stamp.
    match cells.take(Slot::At(shape.index(head))) {
        Some(value) => {
            // Last: this frees the slot for the next lap.
            cells.store(shape.stamp(head), head.wrapping_add(shape.lap()));
            Ok(Ok(value))
        }
        None => Err(RingAction::PopTake(head)),
    }
}

/// The last step of a pop that found no message at the head: the queue is empty if the tail is there too.
#[inline(always)]
fn pop_empty<T: Drop, C: Cells<T>>(
    shape: Shape,
    head: u64,
    cells: &mut C,
) -> Result<Result<T, PopError>, RingAction<T>>
    requires stands { C.stands (state.Ring (RingAction.PopTail head)) cells.old }
    requires measures { IsMeasured shape.cap shape.mark (C.form_of cells.old) }
    ensures deeds { PopsOnEnd (RingMakes shape.cap shape.mark C.did) cells.old (RingAction.PopTail head) result cells.new }
    ensures answers { MatchResult result (λ _. Unit {0})
        (λ a. (cap : ℕ) (r : QueueReply T) → MayRing cap a r → MayPop r) }
{
    // The tail after the head. In the other order a push and a pop in between could make them equal while there was a message all the time.
    let tail = cells.load(Word::Tail);
    if shape.unmarked(tail) != head {
        Err(RingAction::Pop)
    } else if shape.is_marked(tail) {
        Ok(Err(PopError::Closed))
    } else {
        Ok(Err(PopError::Empty))
    }
}
