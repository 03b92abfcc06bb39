//! The steps of an unbounded queue: a chain of blocks of 31 slots each, by their numbers.
//!
//! Head and tail count positions; every 32nd position lies between two blocks. The low bit of the tail is the closed mark. The invariants:
//! the call that moves the tail (a push) or the head (a pop) from a position owns the slot of that position; the call that wins a block's
//! last slot alone moves that end to the next block; the pop that counts a block's last read alone retires the block, which is then used
//! again and never freed while the queue lives.

ghost use Rattle.std.specs.Prelude.{◌≡◌, None};
ghost use Rattle.concurrent_queue.specs.machine.BlocksMoves.{answer_as};
ghost use Rattle.concurrent_queue.specs.Deeds.{Ready};
ghost use Rattle.concurrent_queue.specs.machine.BlocksMakes.{BlocksMakes, ProgressMakes, blocks_moves};
ghost use Rattle.concurrent_queue.specs.machine.BlocksWords.{begin, reply_of};
ghost use Rattle.concurrent_queue.specs.Replies.{EndFollows, BlocksFollows};
ghost use Rattle.concurrent_queue.specs.declared.call.QueueAsk.TheVariants as ask;

pub(crate) mod action;
mod ask;
pub(crate) mod ending;
pub(crate) mod fast_path;
mod pop;
mod push;

use crate::call::{QueueAsk, QueueMark, QueueReply, Stepped};
use crate::cells::Cells;
use crate::error::{ForcePushError, PushError};
use crate::seen::Trace;
use crate::unbounded::action::{Progress, UnboundedAction, UnboundedCall, stay};
use crate::unbounded::ask::{
    ask_closed, ask_empty, ask_len, close_load, empty_tail, len_head, len_tail, tell,
};
use crate::unbounded::ending::Ending;
use crate::unbounded::pop::{
    pop_block, pop_count, pop_head, pop_load, pop_look, pop_next, pop_retire, pop_swap, pop_tail,
    pop_take, pop_wait,
};
use crate::unbounded::push::{
    push_add, push_first, push_give, push_link, push_load, push_look, push_make, push_more,
    push_put, push_return, push_shut, push_start, push_store, push_swap, push_turn,
};

/// The call that asks this, before its first step.
pub(crate) fn first<T>(ask: QueueAsk<T>) -> UnboundedCall<T>
    ensures { result ≡ begin ask }
{
    match ask {
        QueueAsk::Push(value) => UnboundedCall {
            displacing: false,
            action: UnboundedAction::Push(value, None),
        },
        QueueAsk::ForcePush(value) => UnboundedCall {
            displacing: true,
            action: UnboundedAction::Push(value, None),
        },
        QueueAsk::Pop => UnboundedCall {
            displacing: false,
            action: UnboundedAction::Pop,
        },
        QueueAsk::Close => UnboundedCall {
            displacing: false,
            action: UnboundedAction::Close,
        },
        QueueAsk::IsClosed => UnboundedCall {
            displacing: false,
            action: UnboundedAction::AskClosed,
        },
        QueueAsk::IsEmpty => UnboundedCall {
            displacing: false,
            action: UnboundedAction::AskEmpty,
        },
        QueueAsk::IsFull => UnboundedCall {
            displacing: false,
            action: UnboundedAction::AskFull,
        },
        QueueAsk::Len => UnboundedCall {
            displacing: false,
            action: UnboundedAction::AskLen,
        },
        QueueAsk::Capacity => UnboundedCall {
            displacing: false,
            action: UnboundedAction::AskCapacity,
        },
    }
}

/// The one step of the question how many messages it can hold, which touches no cell.
#[inline(always)]
pub(crate) fn capacity<T: Drop, S: Trace<T>>(trace: &S) -> Stepped<UnboundedCall<T>, T>
    ensures answers { BlocksFollows (begin ask.Capacity) result }
    ensures deed { BlocksMakes S.did trace.now (begin ask.Capacity) trace.now result }
{
    Stepped {
        action: UnboundedCall {
            displacing: false,
            action: UnboundedAction::Finished,
        },
        mark: QueueMark::Nothing,
        reply: Some(QueueReply::Cap(None)),
    }
}

/// One step of a call: one operation on one word or slot, or one section of the spare list.
pub(crate) fn step<T: Drop, C: Cells<T>>(
    call: UnboundedCall<T>,
    cells: &mut C,
) -> Stepped<UnboundedCall<T>, T>
    requires ready { Ready C.may (blocks_moves call.action) cells.old }
    ensures answers { BlocksFollows call result }
    ensures deed { BlocksMakes C.did cells.old call cells.new result }
{
    let displacing = call.displacing;
    let progress = step_unbounded(call.action, cells);
    Stepped {
        action: UnboundedCall {
            displacing,
            action: progress.action,
        },
        mark: progress.mark,
        reply: answer(displacing, progress.ending),
    }
}

/// What a step answers, if it ended the call.
fn answer<T: Drop>(displacing: bool, ending: Option<Ending<T>>) -> Option<QueueReply<T>>
    ensures { result ≡ reply_of displacing ending }
{
    match ending {
        Some(ending) => Some(reply_to(displacing, ending)),
        None => None,
    }
}

/// One step of the machine that a push and a displacing push share, and of all others.
fn step_unbounded<T: Drop, C: Cells<T>>(action: UnboundedAction<T>, cells: &mut C) -> Progress<T>
    requires ready { Ready C.may (blocks_moves action) cells.old }
    ensures ends { EndFollows action result }
    ensures deed { ProgressMakes C.did cells.old action cells.new result }
{
    match action {
        UnboundedAction::Push(value, held) => push_load(value, held, cells),
        UnboundedAction::PushShut(value, held) => push_shut(value, held, cells),
        UnboundedAction::PushReturn(value, held) => push_return(value, held, cells),
        UnboundedAction::PushLook(value, tail, held) => push_look(value, tail, held, cells),
        UnboundedAction::PushMake(value, tail) => push_make(value, tail, cells),
        UnboundedAction::PushFirst(value, tail, held) => push_first(value, tail, held, cells),
        UnboundedAction::PushStart(value, tail, block) => push_start(value, tail, block, cells),
        UnboundedAction::PushMore(value, tail, block) => push_more(value, tail, block, cells),
        UnboundedAction::PushSwap(value, tail, block, held) => push_swap(
            value, tail, block, held, cells,
        ),
        UnboundedAction::PushTurn(value, tail, block, next) => push_turn(
            value, tail, block, next, cells,
        ),
        UnboundedAction::PushAdd(value, tail, block, next) => push_add(
            value, tail, block, next, cells,
        ),
        UnboundedAction::PushLink(value, tail, block, next) => push_link(
            value, tail, block, next, cells,
        ),
        UnboundedAction::PushPut(value, tail, block, held) => push_put(
            value, tail, block, held, cells,
        ),
        UnboundedAction::PushStore(tail, block, held) => push_store(tail, block, held, cells),
        UnboundedAction::PushGive(held) => push_give(held, cells),
        UnboundedAction::Pop => pop_load(cells),
        UnboundedAction::PopLook(head) => pop_look(head, cells),
        UnboundedAction::PopTail(head, block) => pop_tail(head, block, cells),
        UnboundedAction::PopSwap(head, block) => pop_swap(head, block, cells),
        UnboundedAction::PopNext(head, block) => pop_next(head, block, cells),
        UnboundedAction::PopBlock(head, block, next) => pop_block(head, block, next, cells),
        UnboundedAction::PopHead(head, block) => pop_head(head, block, cells),
        UnboundedAction::PopWait(head, block) => pop_wait(head, block, cells),
        UnboundedAction::PopTake(head, block) => pop_take(head, block, cells),
        UnboundedAction::PopCount(head, block, value) => pop_count(head, block, value, cells),
        UnboundedAction::PopRetire(_, block, value) => pop_retire(block, value, cells),
        UnboundedAction::Close => close_load(cells),
        UnboundedAction::AskClosed => ask_closed(cells),
        UnboundedAction::AskEmpty => ask_empty(cells),
        UnboundedAction::EmptyTail(head) => empty_tail(head, cells),
        UnboundedAction::AskFull => tell(QueueReply::Flag(false)),
        UnboundedAction::AskLen => ask_len(cells),
        UnboundedAction::LenHead(tail) => len_head(tail, cells),
        UnboundedAction::LenTail(tail, head) => len_tail(tail, head, cells),
        UnboundedAction::AskCapacity => tell(QueueReply::Cap(None)),
        UnboundedAction::Finished => stay(UnboundedAction::Finished),
    }
}

/// What a call answers that ends so; `displacing` tells a displacing push, which never displaces here, from a push.
fn reply_to<T: Drop>(displacing: bool, ending: Ending<T>) -> QueueReply<T>
    ensures { result ≡ answer_as displacing ending }
{
    match ending {
        Ending::Sent => {
            if displacing {
                QueueReply::Force(Ok(None))
            } else {
                QueueReply::Push(Ok(()))
            }
        }
        Ending::Closed(value) => {
            if displacing {
                QueueReply::Force(Err(ForcePushError::Closed(value)))
            } else {
                QueueReply::Push(Err(PushError::Closed(value)))
            }
        }
        Ending::NoMemory(value) => {
            if displacing {
                QueueReply::Force(Err(ForcePushError::NoMemory(value)))
            } else {
                QueueReply::Push(Err(PushError::NoMemory(value)))
            }
        }
        Ending::Replied(reply) => reply,
    }
}
