//! Closing an unbounded queue, and the questions: whether it is closed or empty, and how many messages it holds.

ghost use Rattle.std.specs.Prelude.{◌≡◌, ℕ, None};
ghost use Rattle.concurrent_queue.specs.machine.BlocksWords.{tells};
ghost use Rattle.concurrent_queue.specs.Deeds.{Ready};
ghost use Rattle.concurrent_queue.specs.machine.BlocksMakes.{ProgressMakes, blocks_moves};
ghost use Rattle.concurrent_queue.specs.Replies.{EndFollows};

use crate::call::{QueueMark, QueueReply};
use crate::cells::{Cells, Word};
use crate::unbounded::action::{Progress, UnboundedAction, finish, stay};
use crate::unbounded::ending::Ending;
use crate::unbounded::pop::number_of;

pub(crate) fn tell<T>(reply: QueueReply<T>) -> Progress<T>
    ensures { result ≡ tells reply }
{
    finish(Ending::Replied(reply))
}

pub(crate) fn close_load<T: Drop, C: Cells<T>>(cells: &mut C) -> Progress<T>
    requires ready { Ready C.may (blocks_moves UnboundedAction.Close) cells.old }
    ensures ends { EndFollows UnboundedAction.Close result }
    ensures deed { ProgressMakes C.did cells.old UnboundedAction.Close cells.new result }
{
    // An `or`, as in a ring: pops still need the position, pushes expect a tail without the mark, and only one close finds the mark clear.
    let tail = cells.fetch_or(Word::Tail, 1);
    if tail % 2 == 1 {
        tell(QueueReply::Close(false))
    } else {
        Progress {
            action: UnboundedAction::Finished,
            mark: QueueMark::Close,
            ending: Some(Ending::Replied(QueueReply::Close(true))),
        }
    }
}

pub(crate) fn ask_closed<T: Drop, C: Cells<T>>(cells: &mut C) -> Progress<T>
    requires ready { Ready C.may (blocks_moves UnboundedAction.AskClosed) cells.old }
    ensures ends { EndFollows UnboundedAction.AskClosed result }
    ensures deed { ProgressMakes C.did cells.old UnboundedAction.AskClosed cells.new result }
{
    // One load decides: the mark is in the tail, and no step clears it.
    let tail = cells.load(Word::Tail);
    tell(QueueReply::Flag(tail % 2 == 1))
}

pub(crate) fn ask_empty<T: Drop, C: Cells<T>>(cells: &mut C) -> Progress<T>
    requires ready { Ready C.may (blocks_moves UnboundedAction.AskEmpty) cells.old }
    ensures ends { EndFollows UnboundedAction.AskEmpty result }
    ensures deed { ProgressMakes C.did cells.old UnboundedAction.AskEmpty cells.new result }
{
    // Load the head before the tail: `empty_tail` says why.
    let head = cells.load(Word::Head);
    stay(UnboundedAction::EmptyTail(head))
}

pub(crate) fn empty_tail<T: Drop, C: Cells<T>>(head: u64, cells: &mut C) -> Progress<T>
    requires ready { Ready C.may (blocks_moves (UnboundedAction.EmptyTail head)) cells.old }
    ensures ends { EndFollows (UnboundedAction.EmptyTail head) result }
    ensures deed { ProgressMakes C.did cells.old (UnboundedAction.EmptyTail head) cells.new result }
{
    // Load the tail after the head: if they are equal, the queue is empty at this load. In the other order a push and a pop in between
    // could make them equal.
    let tail = cells.load(Word::Tail);
    tell(QueueReply::Flag(number_of(tail / 2) == number_of(head)))
}

pub(crate) fn ask_len<T: Drop, C: Cells<T>>(cells: &mut C) -> Progress<T>
    requires ready { Ready C.may (blocks_moves UnboundedAction.AskLen) cells.old }
    ensures ends { EndFollows UnboundedAction.AskLen result }
    ensures deed { ProgressMakes C.did cells.old UnboundedAction.AskLen cells.new result }
{
    // The first of two loads of the tail, with the head in between.
    let tail = cells.load(Word::Tail);
    stay(UnboundedAction::LenHead(tail))
}

pub(crate) fn len_head<T: Drop, C: Cells<T>>(tail: u64, cells: &mut C) -> Progress<T>
    requires ready { Ready C.may (blocks_moves (UnboundedAction.LenHead tail)) cells.old }
    ensures ends { EndFollows (UnboundedAction.LenHead tail) result }
    ensures deed { ProgressMakes C.did cells.old (UnboundedAction.LenHead tail) cells.new result }
{
    // Load the head between two loads of the tail, which have to agree.
    let head = cells.load(Word::Head);
    stay(UnboundedAction::LenTail(tail, head))
}

pub(crate) fn len_tail<T: Drop, C: Cells<T>>(tail: u64, head: u64, cells: &mut C) -> Progress<T>
    requires ready { Ready C.may (blocks_moves (UnboundedAction.LenTail tail head)) cells.old }
    ensures ends { EndFollows (UnboundedAction.LenTail tail head) result }
    ensures deed { ProgressMakes C.did cells.old (UnboundedAction.LenTail tail head) cells.new result }
{
    // Positions never repeat, so an equal word means that the tail stood still: when the head was loaded, the queue held this many.
    if cells.load(Word::Tail) == tail {
        tell(QueueReply::Count(number_of(tail / 2).saturating_sub(number_of(head)) as usize))
    } else {
        stay(UnboundedAction::AskLen)
    }
}
