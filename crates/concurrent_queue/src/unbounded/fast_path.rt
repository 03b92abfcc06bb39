//! The fast path of a push and of a pop of an unbounded queue: the operations of the machine in straight code.
//!
//! `push_fast` makes `Push`, `PushLook`, `PushSwap`, `PushPut` and `PushStore`, and at the last slot of a block also `PushMore`,
//! `PushTurn`, `PushAdd` and `PushLink`. `pop_fast` makes `Pop`, `PopLook`, `PopTail`, `PopSwap`, `PopWait`, `PopTake`, `PopCount` and
//! `PopRetire`, and at the last slot also `PopNext`, `PopBlock` and `PopHead`. `push.rt` and `pop.rt` have the whole reason for each order.

ghost use Rattle.std.specs.Prelude.{◌≡◌, ◌/◌, ◌%◌, ◌==◌, if◌then◌else◌, false, true, None, MatchResult};
ghost use Rattle.concurrent_queue.specs.machine.FastPath.{PushesOnEnd, PopsOnEnd, plainly};
ghost use Rattle.concurrent_queue.specs.machine.BlocksMakes.{ActionMakes};
ghost use Rattle.concurrent_queue.specs.Replies.{MayEnd, MayPush, Sends, Tells};
ghost use Rattle.concurrent_queue.specs.declared.call.QueueAsk.TheVariants as ask;
ghost use Rattle.concurrent_queue.specs.declared.call.QueueReply.TheVariants as reply;
ghost use Rattle.concurrent_queue.specs.declared.queue_call.CallState.TheVariants as state;
ghost use Rattle.concurrent_queue.specs.declared.unbounded.ending.Ending.{Ending};

use crate::cells::{Cells, Slot, Word};
use crate::error::{PopError, PushError};
use crate::unbounded::action::UnboundedAction;
use crate::unbounded::pop::number_of;

/// Pushes or is refused; or returns the action at which the machine has to go on: its first if another call was faster or is under way, a
/// later one if there is no block yet or positions end.
#[inline(always)]
pub(crate) fn push_fast<T: Drop, C: Cells<T>>(
    value: T,
    cells: &mut C,
) -> Result<Result<(), PushError<T>>, UnboundedAction<T>>
    requires stands { C.stands (state.Blocks (plainly (UnboundedAction.Push value None))) cells.old }
    ensures deeds { PushesOnEnd (ActionMakes C.did) cells.old (UnboundedAction.Push value None) result cells.new }
    ensures answers { MatchResult result (λ r. MayPush false value (reply.Push r)) (λ a. (e : Ending T) → MayEnd a e → Sends value e) }
{
    // The tail first: the block below is that of this position, and the exchange expects this word. It also shows a closed queue.
    let tail = cells.load(Word::Tail);
    let offset = tail / 2 % 32;
    if tail % 2 == 1 {
        return Ok(Err(PushError::Closed(value)));
    }
    if tail / 2 >= 9223372036854775744 {
        return Err(UnboundedAction::PushShut(value, None));
    }
    if offset == 31 {
        return Err(UnboundedAction::Push(value, None));
    }
    // After the tail, and stored before the tail moves into it: it is this position's block, or the exchange fails.
    let block = cells.load(Word::TailBlock);
    if block == 0 {
        return Err(UnboundedAction::PushMake(value, tail));
    }
    if offset == 30 {
        return push_last(value, tail, block - 1, cells);
    }
    // Commit. The low bit of the tail is the closed mark, so the exchange fails after a close as well.
    if cells
        .compare_exchange(Word::Tail, tail, tail.wrapping_add(2))
        .is_err()
    {
        return Err(UnboundedAction::Push(value, None));
    }
    // Put before the flag is stored: a pop takes the message as soon as it finds the flag.
    if let Err(value) = cells.put(Slot::In(block - 1, offset), value) {
        return Err(UnboundedAction::PushPut(value, tail, block - 1, None));
    }
    // Last: this publishes the message.
    cells.store(Word::Written(block - 1, offset), 1);
    Ok(Ok(()))
}

/// Pushes into the last slot of a block, for which it gets the next block first.
#[inline(always)]
fn push_last<T: Drop, C: Cells<T>>(
    value: T,
    tail: u64,
    block: u64,
    cells: &mut C,
) -> Result<Result<(), PushError<T>>, UnboundedAction<T>>
    requires stands { C.stands (state.Blocks (plainly (UnboundedAction.PushMore value tail block))) cells.old }
    requires last { tail / 2 % 32 ≡ 30 }
    ensures deeds { PushesOnEnd (ActionMakes C.did) cells.old (UnboundedAction.PushMore value tail block) result cells.new }
    ensures answers { MatchResult result (λ r. MayPush false value (reply.Push r)) (λ a. (e : Ending T) → MayEnd a e → Sends value e) }
{
    // Before the slot is won: refused memory changes nothing, and no other push waits for an allocation.
    let Ok(next) = cells.spare() else {
        return Ok(Err(PushError::NoMemory(value)));
    };
    // Commit, as in `push_fast`. From here on all pushes wait for this one to move the tail into the next block.
    if cells
        .compare_exchange(Word::Tail, tail, tail.wrapping_add(2))
        .is_err()
    {
        return Err(UnboundedAction::Push(value, Some(next)));
    }
    // Before the tail moves on: a push that loads a position in the next block has to find that block.
    cells.store(Word::TailBlock, next.wrapping_add(1));
    // An add, not a store: a store could erase the closed mark.
    cells.fetch_add(Word::Tail, 2);
    // After the tail, for which all pushes wait. Only the pop of this block's last message needs the link.
    cells.store(Word::Next(block), next.wrapping_add(1));
    // Put, then store the flag, as in `push_fast`.
    if let Err(value) = cells.put(Slot::In(block, 30), value) {
        return Err(UnboundedAction::PushPut(value, tail, block, None));
    }
    cells.store(Word::Written(block, 30), 1);
    Ok(Ok(()))
}

/// Pops or is refused; or returns the action at which the machine has to go on: its first if another call was faster or is under way, a
/// later one if the message is not written yet or was the last of its block.
#[inline(always)]
pub(crate) fn pop_fast<T: Drop, C: Cells<T>>(
    cells: &mut C,
) -> Result<Result<T, PopError>, UnboundedAction<T>>
    requires stands { C.stands (state.Blocks (plainly UnboundedAction.Pop)) cells.old }
    ensures deeds { PopsOnEnd (ActionMakes C.did) cells.old UnboundedAction.Pop result cells.new }
    ensures answers { MatchResult result (λ _. Unit {0}) (λ a. (e : Ending T) → MayEnd a e → Tells ask.Pop e) }
{
    // The head first: the block below is that of this position, and the exchange expects this word.
    let head = cells.load(Word::Head);
    let offset = head % 32;
    if offset == 31 {
        return Err(UnboundedAction::Pop);
    }
    // After the head, and stored before the head moves into it: it is this position's block, or the exchange fails.
    let block = cells.load(Word::HeadBlock);
    // The tail after the head. In the other order a push and a pop in between could make them equal while there was a message all the time.
    let tail = cells.load(Word::Tail);
    if number_of(tail / 2) == number_of(head) {
        return Ok(Err(refusal(tail)));
    }
    if block == 0 {
        return Err(UnboundedAction::Pop);
    }
    // Commit. An exchange, since another pop may have won this message.
    if cells
        .compare_exchange(Word::Head, head, head.wrapping_add(1))
        .is_err()
    {
        return Err(UnboundedAction::Pop);
    }
    if offset == 30 {
        // The push into the last slot links the next block after it has moved the tail, so the link may be missing still.
        let next = cells.load(Word::Next(block - 1));
        if next == 0 {
            return Err(UnboundedAction::PopNext(head, block - 1));
        }
        // Before the head moves on: a pop that loads a position in the next block has to find that block.
        cells.store(Word::HeadBlock, next);
        // A store suffices: nobody else moves the head from between two blocks, and it has no mark to lose.
        cells.store(Word::Head, head.wrapping_add(2));
    }
    pop_written(head, block - 1, cells)
}

/// What a pop from an empty queue answers by this tail.
#[inline(always)]
fn refusal(tail: u64) -> PopError
    ensures { result ≡ (if tail % 2 == 1 then PopError.Closed else PopError.Empty) }
{
    if tail % 2 == 1 {
        PopError::Closed
    } else {
        PopError::Empty
    }
}

/// Takes the message at this position of a block, which the call has won.
#[inline(always)]
fn pop_written<T: Drop, C: Cells<T>>(
    head: u64,
    block: u64,
    cells: &mut C,
) -> Result<Result<T, PopError>, UnboundedAction<T>>
    requires stands { C.stands (state.Blocks (plainly (UnboundedAction.PopWait head block))) cells.old }
    ensures deeds { PopsOnEnd (ActionMakes C.did) cells.old (UnboundedAction.PopWait head block) result cells.new }
    ensures answers { MatchResult result (λ _. Unit {0}) (λ a. (e : Ending T) → MayEnd a e → Tells ask.Pop e) }
{
    // The push of this position may not have put its message yet; then the machine waits for it.
    if cells.load(Word::Written(block, head % 32)) != 1 {
        return Err(UnboundedAction::PopWait(head, block));
    }
    // Take before the read is counted: once all reads of a block are counted, the block is used again.
    match cells.take(Slot::In(block, head % 32)) {
        Some(value) => {
            // Adds and reads in one operation: of the 31 pops of a block one alone finds 30, and retires the block.
            if cells.fetch_add(Word::Reads(block), 1) == 30 {
                cells.retire(block);
            }
            Ok(Ok(value))
        }
        None => Err(UnboundedAction::PopTake(head, block)),
    }
}
