//! The steps of a pop from an unbounded queue. A pop is the only call that moves the head, and it alone touches the slot of the position
//! that it has won, from the push's flag until it counts the read.

ghost use Rattle.std.specs.Prelude.{◌≡◌, ℕ};
ghost use Rattle.concurrent_queue.specs.machine.BlocksState.{number};
ghost use Rattle.concurrent_queue.specs.Deeds.{Ready, retired};
ghost use Rattle.concurrent_queue.specs.machine.BlocksMakes.{ProgressMakes, blocks_moves};
ghost use Rattle.concurrent_queue.specs.Replies.{EndFollows};

use crate::call::{QueueMark, QueueReply};
use crate::cells::{Cells, Slot, Word};
use crate::error::PopError;
use crate::unbounded::action::{Progress, UnboundedAction, finish, marked, stay};
use crate::unbounded::ending::Ending;

/// How many items come before a position.
pub(crate) fn number_of(p: u64) -> u64
    ensures { result ≡ number p }
{
    31 * (p / 32) + p % 32
}

pub(crate) fn pop_load<T: Drop, C: Cells<T>>(cells: &mut C) -> Progress<T>
    requires ready { Ready C.may (blocks_moves UnboundedAction.Pop) cells.old }
    ensures ends { EndFollows UnboundedAction.Pop result }
    ensures deed { ProgressMakes C.did cells.old UnboundedAction.Pop cells.new result }
{
    // Load the head first: the next steps load the block of this position, compare the tail with it and exchange this word.
    let head = cells.load(Word::Head);
    if head % 32 == 31 {
        // Between two blocks: only the call that won the last message moves the head on from here.
        stay(UnboundedAction::Pop)
    } else {
        stay(UnboundedAction::PopLook(head))
    }
}

pub(crate) fn pop_look<T: Drop, C: Cells<T>>(head: u64, cells: &mut C) -> Progress<T>
    requires ready { Ready C.may (blocks_moves (UnboundedAction.PopLook head)) cells.old }
    ensures ends { EndFollows (UnboundedAction.PopLook head) result }
    ensures deed { ProgressMakes C.did cells.old (UnboundedAction.PopLook head) cells.new result }
{
    // Load the block after the head. It is stored before the head moves into it, so it is the block of this position unless the head
    // has moved since, and then `pop_swap` fails.
    let block = cells.load(Word::HeadBlock);
    stay(UnboundedAction::PopTail(head, block))
}

pub(crate) fn pop_tail<T: Drop, C: Cells<T>>(head: u64, block: u64, cells: &mut C) -> Progress<T>
    requires ready { Ready C.may (blocks_moves (UnboundedAction.PopTail head block)) cells.old }
    ensures ends { EndFollows (UnboundedAction.PopTail head block) result }
    ensures deed { ProgressMakes C.did cells.old (UnboundedAction.PopTail head block) cells.new result }
{
    // Load the tail after the head, as in a ring: in the other order a push and a pop in between could make them equal while there was
    // a message all the time.
    let tail = cells.load(Word::Tail);
    if number_of(tail / 2) == number_of(head) {
        if tail % 2 == 1 {
            finish(Ending::Replied(QueueReply::Pop(Err(PopError::Closed))))
        } else {
            finish(Ending::Replied(QueueReply::Pop(Err(PopError::Empty))))
        }
    } else if block == 0 {
        // The push that stored the first block at the tail has not stored it at the head yet.
        stay(UnboundedAction::Pop)
    } else {
        stay(UnboundedAction::PopSwap(head, block - 1))
    }
}

pub(crate) fn pop_swap<T: Drop, C: Cells<T>>(head: u64, block: u64, cells: &mut C) -> Progress<T>
    requires ready { Ready C.may (blocks_moves (UnboundedAction.PopSwap head block)) cells.old }
    ensures ends { EndFollows (UnboundedAction.PopSwap head block) result }
    ensures deed { ProgressMakes C.did cells.old (UnboundedAction.PopSwap head block) cells.new result }
{
    // Commit. An exchange, since another pop may have won this message.
    match cells.compare_exchange(Word::Head, head, head.wrapping_add(1)) {
        Ok(_) => {
            if head % 32 == 30 {
                marked(UnboundedAction::PopNext(head, block), QueueMark::Take)
            } else {
                marked(UnboundedAction::PopWait(head, block), QueueMark::Take)
            }
        }
        Err(_) => stay(UnboundedAction::Pop),
    }
}

pub(crate) fn pop_next<T: Drop, C: Cells<T>>(head: u64, block: u64, cells: &mut C) -> Progress<T>
    requires ready { Ready C.may (blocks_moves (UnboundedAction.PopNext head block)) cells.old }
    ensures ends { EndFollows (UnboundedAction.PopNext head block) result }
    ensures deed { ProgressMakes C.did cells.old (UnboundedAction.PopNext head block) cells.new result }
{
    // The push into the last slot links the next block after it has moved the tail. Only this pop waits for the link.
    let next = cells.load(Word::Next(block));
    if next == 0 {
        stay(UnboundedAction::PopNext(head, block))
    } else {
        stay(UnboundedAction::PopBlock(head, block, next))
    }
}

pub(crate) fn pop_block<T: Drop, C: Cells<T>>(
    head: u64,
    block: u64,
    next: u64,
    cells: &mut C,
) -> Progress<T>
    requires ready { Ready C.may (blocks_moves (UnboundedAction.PopBlock head block next)) cells.old }
    ensures ends { EndFollows (UnboundedAction.PopBlock head block next) result }
    ensures deed { ProgressMakes C.did cells.old (UnboundedAction.PopBlock head block next) cells.new result }
{
    // Before the head moves into the next block: a pop that loads a position there has to find that block.
    cells.store(Word::HeadBlock, next);
    stay(UnboundedAction::PopHead(head, block))
}

pub(crate) fn pop_head<T: Drop, C: Cells<T>>(head: u64, block: u64, cells: &mut C) -> Progress<T>
    requires ready { Ready C.may (blocks_moves (UnboundedAction.PopHead head block)) cells.old }
    ensures ends { EndFollows (UnboundedAction.PopHead head block) result }
    ensures deed { ProgressMakes C.did cells.old (UnboundedAction.PopHead head block) cells.new result }
{
    // A store suffices: nobody else moves the head from between two blocks, and the head has no mark to lose.
    cells.store(Word::Head, head.wrapping_add(2));
    stay(UnboundedAction::PopWait(head, block))
}

pub(crate) fn pop_wait<T: Drop, C: Cells<T>>(head: u64, block: u64, cells: &mut C) -> Progress<T>
    requires ready { Ready C.may (blocks_moves (UnboundedAction.PopWait head block)) cells.old }
    ensures ends { EndFollows (UnboundedAction.PopWait head block) result }
    ensures deed { ProgressMakes C.did cells.old (UnboundedAction.PopWait head block) cells.new result }
{
    // The push of this position may not have put its message yet. The message is already this call's, so it can only wait.
    if cells.load(Word::Written(block, head % 32)) == 1 {
        stay(UnboundedAction::PopTake(head, block))
    } else {
        stay(UnboundedAction::PopWait(head, block))
    }
}

pub(crate) fn pop_take<T: Drop, C: Cells<T>>(head: u64, block: u64, cells: &mut C) -> Progress<T>
    requires ready { Ready C.may (blocks_moves (UnboundedAction.PopTake head block)) cells.old }
    ensures ends { EndFollows (UnboundedAction.PopTake head block) result }
    ensures deed { ProgressMakes C.did cells.old (UnboundedAction.PopTake head block) cells.new result }
{
    // Take before the read is counted: once all reads of a block are counted, the block is used again.
    match cells.take(Slot::In(block, head % 32)) {
        Some(value) => stay(UnboundedAction::PopCount(head, block, value)),
        None => stay(UnboundedAction::PopTake(head, block)),
    }
}

pub(crate) fn pop_count<T: Drop, C: Cells<T>>(
    head: u64,
    block: u64,
    value: T,
    cells: &mut C,
) -> Progress<T>
    requires ready { Ready C.may (blocks_moves (UnboundedAction.PopCount head block value)) cells.old }
    ensures ends { EndFollows (UnboundedAction.PopCount head block value) result }
    ensures deed { ProgressMakes C.did cells.old (UnboundedAction.PopCount head block value) cells.new result }
{
    // One step adds and returns the old number: of the 31 pops of a block only one finds 30, and it alone gives the block back.
    if cells.fetch_add(Word::Reads(block), 1) == 30 {
        stay(UnboundedAction::PopRetire(head, block, value))
    } else {
        finish(Ending::Replied(QueueReply::Pop(Ok(value))))
    }
}

pub(crate) fn pop_retire<T: Drop, C: Cells<T>>(block: u64, value: T, cells: &mut C) -> Progress<T>
    requires ready { C.may (retired block) cells.old }
    ensures ends { (h : ℕ) → EndFollows (UnboundedAction.PopRetire h block value) result }
    ensures deed { (h : ℕ) → ProgressMakes C.did cells.old (UnboundedAction.PopRetire h block value) cells.new result }
{
    // Used again and not freed: no word, however old, leads a call to memory that is gone.
    cells.retire(block);
    finish(Ending::Replied(QueueReply::Pop(Ok(value))))
}
