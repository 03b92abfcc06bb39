//! The steps of a queue of one slot.
//!
//! The word `State` has three bits: a call holds the slot (`LOCKED`), there is a message (`PUSHED`), the queue is closed (`CLOSED`). The
//! invariant: the call whose exchange set the first bit owns the slot until it clears that bit, and no other call touches the slot. So a
//! push that finds a slot whose message is taken but still being read tries again, since `Full` would be false.

ghost use Rattle.std.specs.Prelude.{◌≡◌, ℕ};
ghost use Rattle.concurrent_queue.specs.machine.Single.{stays, marks, finishes, start};
ghost use Rattle.concurrent_queue.specs.Replies.{SingleFollows};
ghost use Rattle.concurrent_queue.specs.Deeds.{Ready};
ghost use Rattle.concurrent_queue.specs.machine.Single.{SingleMakes, single_moves};

pub(crate) mod fast_path;

use crate::call::{QueueAsk, QueueMark, QueueReply, Stepped};
use crate::cells::{Cells, Slot, Word};
use crate::error::{ForcePushError, PopError, PushError};
use crate::seen::Trace;

/// A call holds the slot.
const LOCKED: u64 = 1;

/// There is a message.
const PUSHED: u64 = 2;

/// The queue is closed.
pub(crate) const CLOSED: u64 = 4;

/// The word of a call that holds the slot and brings a message.
const FILLING: u64 = 3;

const NOT_LOCKED: u64 = 0xffff_ffff_ffff_fffe;

const NOT_PUSHED: u64 = 0xffff_ffff_ffff_fffd;

/// The slot.
const SLOT: Slot = Slot::At(0);

/// The next action of a call.
#[derive(Drop)]
pub(crate) enum SingleAction<T> {
    /// Win the empty slot for this message.
    Push(T),
    PushPut(T),
    PushUnlock,
    /// Win the slot for this message, if the state is this.
    Force(T, u64),
    ForceTake(T),
    ForcePut(T, Option<T>),
    ForceUnlock(Option<T>),
    /// Win the message, if the state is this.
    Pop(u64),
    PopTake,
    PopUnlock(T),
    Close,
    IsClosed,
    IsEmpty,
    IsFull,
    Len,
    Capacity,
    Finished,
}

/// The first action of a call that asks this.
pub(crate) fn first<T>(ask: QueueAsk<T>) -> SingleAction<T>
    ensures { result ≡ start ask }
{
    match ask {
        QueueAsk::Push(value) => SingleAction::Push(value),
        QueueAsk::ForcePush(value) => SingleAction::Force(value, 0),
        QueueAsk::Pop => SingleAction::Pop(PUSHED),
        QueueAsk::Close => SingleAction::Close,
        QueueAsk::IsClosed => SingleAction::IsClosed,
        QueueAsk::IsEmpty => SingleAction::IsEmpty,
        QueueAsk::IsFull => SingleAction::IsFull,
        QueueAsk::Len => SingleAction::Len,
        QueueAsk::Capacity => SingleAction::Capacity,
    }
}

fn stay<T>(action: SingleAction<T>) -> Stepped<SingleAction<T>, T>
    ensures { result ≡ stays action }
{
    mark(action, QueueMark::Nothing)
}

fn mark<T>(action: SingleAction<T>, mark: QueueMark) -> Stepped<SingleAction<T>, T>
    ensures { result ≡ marks action mark }
{
    Stepped {
        action,
        mark,
        reply: None,
    }
}

fn finish<T>(reply: QueueReply<T>) -> Stepped<SingleAction<T>, T>
    ensures { result ≡ finishes reply }
{
    Stepped {
        action: SingleAction::Finished,
        mark: QueueMark::Nothing,
        reply: Some(reply),
    }
}

/// The one step of the question how many messages it can hold, which touches no cell.
#[inline(always)]
pub(crate) fn capacity<T: Drop, S: Trace<T>>(trace: &S) -> Stepped<SingleAction<T>, T>
    ensures answers { SingleFollows SingleAction.Capacity result }
    ensures deed { SingleMakes S.did trace.now SingleAction.Capacity trace.now result }
{
    finish(QueueReply::Cap(Some(1)))
}

/// One step of a call, which is one operation on the word or the slot.
pub(crate) fn step<T: Drop, C: Cells<T>>(
    action: SingleAction<T>,
    cells: &mut C,
) -> Stepped<SingleAction<T>, T>
    requires ready { Ready C.may (single_moves action) cells.old }
    ensures answers { SingleFollows action result }
    ensures deed { SingleMakes C.did cells.old action cells.new result }
{
    match action {
        SingleAction::Push(value) => push(value, cells),
        // Put before the lock bit is cleared: a pop takes the message as soon as it finds the bit clear.
        SingleAction::PushPut(value) => match cells.put(SLOT, value) {
            Ok(()) => stay(SingleAction::PushUnlock),
            Err(value) => stay(SingleAction::PushPut(value)),
        },
        SingleAction::PushUnlock => {
            // An `and`, not a store: a store would erase the closed bit of a close that came in between.
            cells.fetch_and(Word::State, NOT_LOCKED);
            finish(QueueReply::Push(Ok(())))
        }
        SingleAction::Force(value, expected) => force_push(value, expected, cells),
        // Take the old message before putting the new one: the slot holds one message.
        SingleAction::ForceTake(value) => match cells.take(SLOT) {
            Some(old) => stay(SingleAction::ForcePut(value, Some(old))),
            None => stay(SingleAction::ForceTake(value)),
        },
        // Put before the lock bit is cleared, as for a push.
        SingleAction::ForcePut(value, old) => match cells.put(SLOT, value) {
            Ok(()) => stay(SingleAction::ForceUnlock(old)),
            Err(value) => stay(SingleAction::ForcePut(value, old)),
        },
        SingleAction::ForceUnlock(old) => {
            // Last: from here on a pop can take the new message. An `and` keeps the closed bit, as for a push.
            cells.fetch_and(Word::State, NOT_LOCKED);
            finish(QueueReply::Force(Ok(old)))
        }
        SingleAction::Pop(expected) => pop(expected, cells),
        // Take before the lock bit is cleared: from then on a push can win the slot and put its message.
        SingleAction::PopTake => match cells.take(SLOT) {
            Some(value) => stay(SingleAction::PopUnlock(value)),
            None => stay(SingleAction::PopTake),
        },
        SingleAction::PopUnlock(value) => {
            // Last: from here on a push can win the slot. An `and` keeps the closed bit.
            cells.fetch_and(Word::State, NOT_LOCKED);
            finish(QueueReply::Pop(Ok(value)))
        }
        SingleAction::Close => close(cells),
        // One load answers each of the next four questions: all three bits are in one word, so the answer holds at this load.
        SingleAction::IsClosed => {
            let found = cells.load(Word::State);
            finish(QueueReply::Flag(found & CLOSED != 0))
        }
        SingleAction::IsEmpty => {
            let found = cells.load(Word::State);
            finish(QueueReply::Flag(found & PUSHED == 0))
        }
        SingleAction::IsFull => {
            let found = cells.load(Word::State);
            finish(QueueReply::Flag(found & PUSHED != 0))
        }
        SingleAction::Len => {
            let found = cells.load(Word::State);
            finish(QueueReply::Count(if found & PUSHED != 0 { 1 } else { 0 }))
        }
        SingleAction::Capacity => finish(QueueReply::Cap(Some(1))),
        SingleAction::Finished => stay(SingleAction::Finished),
    }
}

/// Wins the empty slot. A refusal is read off the word that was found, so that it holds at this step.
fn push<T: Drop, C: Cells<T>>(value: T, cells: &mut C) -> Stepped<SingleAction<T>, T>
    requires ready { Ready C.may (single_moves (SingleAction.Push value)) cells.old }
    ensures answers { SingleFollows (SingleAction.Push value) result }
    ensures deed { SingleMakes C.did cells.old (SingleAction.Push value) cells.new result }
{
    // Commit. Expecting 0 tests in one step that the queue is open, the slot is empty and no call holds it.
    match cells.compare_exchange(Word::State, 0, FILLING) {
        Ok(_) => mark(SingleAction::PushPut(value), QueueMark::Append),
        Err(found) => {
            if found & CLOSED != 0 {
                finish(QueueReply::Push(Err(PushError::Closed(value))))
            } else if found & PUSHED != 0 {
                finish(QueueReply::Push(Err(PushError::Full(value))))
            } else {
                // Locked but without a message: a pop is still reading. `Full` would be false here, so the push tries again.
                stay(SingleAction::Push(value))
            }
        }
    }
}

/// Wins the slot, empty or full, of an open queue. The exchange fails if the closed bit is set, so it cannot lose it.
fn force_push<T: Drop, C: Cells<T>>(
    value: T,
    expected: u64,
    cells: &mut C,
) -> Stepped<SingleAction<T>, T>
    requires ready { Ready C.may (single_moves (SingleAction.Force value expected)) cells.old }
    ensures answers { SingleFollows (SingleAction.Force value expected) result }
    ensures deed { SingleMakes C.did cells.old (SingleAction.Force value expected) cells.new result }
{
    // Commit. One exchange removes the old message, if there is one, and adds the new one, so no other call comes in between.
    match cells.compare_exchange(Word::State, expected, FILLING) {
        Ok(_) => {
            if expected == 0 {
                mark(SingleAction::ForcePut(value, None), QueueMark::Append)
            } else {
                mark(SingleAction::ForceTake(value), QueueMark::Replace)
            }
        }
        Err(found) => {
            if found & CLOSED != 0 {
                finish(QueueReply::Force(Err(ForcePushError::Closed(value))))
            } else if found & LOCKED == 0 {
                stay(SingleAction::Force(value, found))
            } else {
                // Never expect a word with the lock bit: the exchange would take the slot from the call that holds it.
                stay(SingleAction::Force(value, expected))
            }
        }
    }
}

/// Wins the message. The closed bit is kept. A refusal is read off the word that was found, as in `push`.
fn pop<T: Drop, C: Cells<T>>(expected: u64, cells: &mut C) -> Stepped<SingleAction<T>, T>
    requires ready { Ready C.may (single_moves (SingleAction.Pop expected)) cells.old }
    ensures answers { SingleFollows (SingleAction.Pop expected) result }
    ensures deed { SingleMakes C.did cells.old (SingleAction.Pop expected) cells.new result }
{
    // Commit. The new word keeps the closed bit, since a closed queue is still emptied, and locks the slot against pushes.
    match cells.compare_exchange(Word::State, expected, (expected | LOCKED) & NOT_PUSHED) {
        Ok(_) => mark(SingleAction::PopTake, QueueMark::Take),
        Err(found) => {
            if found & PUSHED != 0 {
                // Expect the word without the lock bit: the exchange fails, and the pop tries again, while a push is putting its message.
                stay(SingleAction::Pop(found & NOT_LOCKED))
            } else if found & CLOSED != 0 {
                finish(QueueReply::Pop(Err(PopError::Closed)))
            } else {
                finish(QueueReply::Pop(Err(PopError::Empty)))
            }
        }
    }
}

/// Sets the closed bit.
fn close<T: Drop, C: Cells<T>>(cells: &mut C) -> Stepped<SingleAction<T>, T>
    requires ready { Ready C.may (single_moves SingleAction.Close) cells.old }
    ensures answers { SingleFollows SingleAction.Close result }
    ensures deed { SingleMakes C.did cells.old SingleAction.Close cells.new result }
{
    // An `or` keeps the bits of a call in flight, and of two closes only one finds the bit clear.
    let found = cells.fetch_or(Word::State, CLOSED);
    if found & CLOSED == 0 {
        Stepped {
            action: SingleAction::Finished,
            mark: QueueMark::Close,
            reply: Some(QueueReply::Close(true)),
        }
    } else {
        finish(QueueReply::Close(false))
    }
}
