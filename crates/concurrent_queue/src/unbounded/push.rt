//! The steps of a push into an unbounded queue. A push is the only call that moves the tail, and it alone writes the slot and the flag of
//! the position that it has won. A block that it holds is named by no word until it is stored, so the call stores it or retires it.

ghost use Rattle.std.specs.Prelude.{◌≡◌, ℕ};
ghost use Rattle.concurrent_queue.specs.machine.BlocksWords.{look_with, look_first, when_shut, after_swap};
ghost use Rattle.concurrent_queue.specs.Deeds.{Ready};
ghost use Rattle.concurrent_queue.specs.machine.BlocksMakes.{ProgressMakes, blocks_moves};
ghost use Rattle.concurrent_queue.specs.Replies.{EndFollows, MayEnd, Sends};

use crate::call::QueueMark;
use crate::cells::{Cells, Slot, Word};
use crate::error::NoMemory;
use crate::unbounded::action::{Progress, UnboundedAction, finish, marked, stay};
use crate::unbounded::ending::Ending;

pub(crate) fn refuse_shut<T>(value: T, held: Option<u64>) -> Progress<T>
    ensures steps { result ≡ when_shut value held }
    ensures ends { EndFollows (UnboundedAction.Push value held) result }
{
    match held {
        Some(h) => stay(UnboundedAction::PushReturn(value, h)),
        None => finish(Ending::Closed(value)),
    }
}

pub(crate) fn ready<T>(value: T, tail: u64, block: u64, held: Option<u64>) -> Progress<T>
    ensures steps { result ≡ look_with value tail block held }
    ensures ends { EndFollows (UnboundedAction.PushLook value tail held) result }
{
    match held {
        Some(h) => stay(UnboundedAction::PushSwap(value, tail, block, Some(h))),
        None => {
            if tail / 2 % 32 == 30 {
                stay(UnboundedAction::PushMore(value, tail, block))
            } else {
                stay(UnboundedAction::PushSwap(value, tail, block, None))
            }
        }
    }
}

pub(crate) fn unready<T>(value: T, tail: u64, held: Option<u64>) -> Progress<T>
    ensures steps { result ≡ look_first value tail held }
    ensures ends { EndFollows (UnboundedAction.PushLook value tail held) result }
{
    match held {
        Some(h) => stay(UnboundedAction::PushFirst(value, tail, h)),
        None => stay(UnboundedAction::PushMake(value, tail)),
    }
}

pub(crate) fn won<T>(value: T, tail: u64, block: u64, held: Option<u64>) -> UnboundedAction<T>
    ensures action { result ≡ after_swap value tail block held }
    ensures ends { (e : Ending T) → MayEnd result e → Sends value e }
{
    match held {
        Some(h) => {
            if tail / 2 % 32 == 30 {
                UnboundedAction::PushTurn(value, tail, block, h)
            } else {
                UnboundedAction::PushPut(value, tail, block, Some(h))
            }
        }
        None => UnboundedAction::PushPut(value, tail, block, None),
    }
}

pub(crate) fn push_load<T: Drop, C: Cells<T>>(
    value: T,
    held: Option<u64>,
    cells: &mut C,
) -> Progress<T>
    requires ready { Ready C.may (blocks_moves (UnboundedAction.Push value held)) cells.old }
    ensures ends { EndFollows (UnboundedAction.Push value held) result }
    ensures deed { ProgressMakes C.did cells.old (UnboundedAction.Push value held) cells.new result }
{
    // Load the tail first: the next steps load the block of this position and exchange this word. Its low bit is the closed mark.
    let tail = cells.load(Word::Tail);
    if tail % 2 == 1 {
        refuse_shut(value, held)
    } else if tail / 2 >= 9223372036854775744 {
        // Positions end here: a position that was given twice would name two messages.
        stay(UnboundedAction::PushShut(value, held))
    } else if tail / 2 % 32 == 31 {
        // Between two blocks: only the call that won the last slot moves the tail on from here.
        stay(UnboundedAction::Push(value, held))
    } else {
        stay(UnboundedAction::PushLook(value, tail, held))
    }
}

pub(crate) fn push_shut<T: Drop, C: Cells<T>>(
    value: T,
    held: Option<u64>,
    cells: &mut C,
) -> Progress<T>
    requires ready { Ready C.may (blocks_moves (UnboundedAction.PushShut value held)) cells.old }
    ensures ends { EndFollows (UnboundedAction.PushShut value held) result }
    ensures deed { ProgressMakes C.did cells.old (UnboundedAction.PushShut value held) cells.new result }
{
    // An `or`, as in `close_load`: of all calls that set the mark only one finds it clear, and that call closed the queue.
    let tail = cells.fetch_or(Word::Tail, 1);
    let refused = refuse_shut(value, held);
    if tail % 2 == 1 {
        refused
    } else {
        Progress {
            action: refused.action,
            mark: QueueMark::Close,
            ending: refused.ending,
        }
    }
}

pub(crate) fn push_return<T: Drop, C: Cells<T>>(value: T, held: u64, cells: &mut C) -> Progress<T>
    requires ready { Ready C.may (blocks_moves (UnboundedAction.PushReturn value held)) cells.old }
    ensures ends { EndFollows (UnboundedAction.PushReturn value held) result }
    ensures deed { ProgressMakes C.did cells.old (UnboundedAction.PushReturn value held) cells.new result }
{
    // Retire the unused block before the refusal: no word names it, so nobody else could.
    cells.retire(held);
    finish(Ending::Closed(value))
}

pub(crate) fn push_look<T: Drop, C: Cells<T>>(
    value: T,
    tail: u64,
    held: Option<u64>,
    cells: &mut C,
) -> Progress<T>
    requires ready { Ready C.may (blocks_moves (UnboundedAction.PushLook value tail held)) cells.old }
    ensures ends { EndFollows (UnboundedAction.PushLook value tail held) result }
    ensures deed { ProgressMakes C.did cells.old (UnboundedAction.PushLook value tail held) cells.new result }
{
    // Load the block after the tail. It is stored before the tail moves into it, so it is the block of this position unless the tail
    // has moved since, and then `push_swap` fails.
    let block = cells.load(Word::TailBlock);
    if block == 0 {
        unready(value, tail, held)
    } else {
        ready(value, tail, block - 1, held)
    }
}

pub(crate) fn push_make<T: Drop, C: Cells<T>>(value: T, tail: u64, cells: &mut C) -> Progress<T>
    requires ready { Ready C.may (blocks_moves (UnboundedAction.PushMake value tail)) cells.old }
    ensures ends { EndFollows (UnboundedAction.PushMake value tail) result }
    ensures deed { ProgressMakes C.did cells.old (UnboundedAction.PushMake value tail) cells.new result }
{
    // Get the block before anything is won: a refusal of memory changes nothing, and no other call waits for an allocation.
    match cells.spare() {
        Ok(h) => stay(UnboundedAction::PushFirst(value, tail, h)),
        Err(_) => finish(Ending::NoMemory(value)),
    }
}

pub(crate) fn push_more<T: Drop, C: Cells<T>>(
    value: T,
    tail: u64,
    block: u64,
    cells: &mut C,
) -> Progress<T>
    requires ready { Ready C.may (blocks_moves (UnboundedAction.PushMore value tail block)) cells.old }
    ensures ends { EndFollows (UnboundedAction.PushMore value tail block) result }
    ensures deed { ProgressMakes C.did cells.old (UnboundedAction.PushMore value tail block) cells.new result }
{
    // Get the next block before the last slot of this one is won: once it is won, all pushes wait for that block.
    match cells.spare() {
        Ok(h) => stay(UnboundedAction::PushSwap(value, tail, block, Some(h))),
        Err(_) => finish(Ending::NoMemory(value)),
    }
}

pub(crate) fn push_first<T: Drop, C: Cells<T>>(
    value: T,
    tail: u64,
    held: u64,
    cells: &mut C,
) -> Progress<T>
    requires ready { Ready C.may (blocks_moves (UnboundedAction.PushFirst value tail held)) cells.old }
    ensures ends { EndFollows (UnboundedAction.PushFirst value tail held) result }
    ensures deed { ProgressMakes C.did cells.old (UnboundedAction.PushFirst value tail held) cells.new result }
{
    // An exchange: of several first pushes one stores its block, and each other one keeps its own for later.
    match cells.compare_exchange(Word::TailBlock, 0, held.wrapping_add(1)) {
        Ok(_) => stay(UnboundedAction::PushStart(value, tail, held)),
        Err(_) => stay(UnboundedAction::Push(value, Some(held))),
    }
}

pub(crate) fn push_start<T: Drop, C: Cells<T>>(
    value: T,
    tail: u64,
    block: u64,
    cells: &mut C,
) -> Progress<T>
    requires ready { Ready C.may (blocks_moves (UnboundedAction.PushStart value tail block)) cells.old }
    ensures ends { EndFollows (UnboundedAction.PushStart value tail block) result }
    ensures deed { ProgressMakes C.did cells.old (UnboundedAction.PushStart value tail block) cells.new result }
{
    // A store suffices, since only the call that stored the first block at the tail gets here. Until then a pop that finds messages waits.
    cells.store(Word::HeadBlock, block.wrapping_add(1));
    ready(value, tail, block, None)
}

pub(crate) fn push_swap<T: Drop, C: Cells<T>>(
    value: T,
    tail: u64,
    block: u64,
    held: Option<u64>,
    cells: &mut C,
) -> Progress<T>
    requires ready { Ready C.may (blocks_moves (UnboundedAction.PushSwap value tail block held)) cells.old }
    ensures ends { EndFollows (UnboundedAction.PushSwap value tail block held) result }
    ensures deed { ProgressMakes C.did cells.old (UnboundedAction.PushSwap value tail block held) cells.new result }
{
    // Commit. An exchange fails after a close as well, since the closed mark is the low bit of the tail.
    match cells.compare_exchange(Word::Tail, tail, tail.wrapping_add(2)) {
        Ok(_) => marked(won(value, tail, block, held), QueueMark::Append),
        Err(_) => stay(UnboundedAction::Push(value, held)),
    }
}

pub(crate) fn push_turn<T: Drop, C: Cells<T>>(
    value: T,
    tail: u64,
    block: u64,
    next: u64,
    cells: &mut C,
) -> Progress<T>
    requires ready { Ready C.may (blocks_moves (UnboundedAction.PushTurn value tail block next)) cells.old }
    ensures ends { EndFollows (UnboundedAction.PushTurn value tail block next) result }
    ensures deed { ProgressMakes C.did cells.old (UnboundedAction.PushTurn value tail block next) cells.new result }
{
    // Before the tail moves into the next block: a push that loads a position there has to find that block.
    cells.store(Word::TailBlock, next.wrapping_add(1));
    stay(UnboundedAction::PushAdd(value, tail, block, next))
}

pub(crate) fn push_add<T: Drop, C: Cells<T>>(
    value: T,
    tail: u64,
    block: u64,
    next: u64,
    cells: &mut C,
) -> Progress<T>
    requires ready { Ready C.may (blocks_moves (UnboundedAction.PushAdd value tail block next)) cells.old }
    ensures ends { EndFollows (UnboundedAction.PushAdd value tail block next) result }
    ensures deed { ProgressMakes C.did cells.old (UnboundedAction.PushAdd value tail block next) cells.new result }
{
    // An add, not a store: a store could erase the closed mark. Nobody else moves the tail from between two blocks.
    cells.fetch_add(Word::Tail, 2);
    stay(UnboundedAction::PushLink(value, tail, block, next))
}

pub(crate) fn push_link<T: Drop, C: Cells<T>>(
    value: T,
    tail: u64,
    block: u64,
    next: u64,
    cells: &mut C,
) -> Progress<T>
    requires ready { Ready C.may (blocks_moves (UnboundedAction.PushLink value tail block next)) cells.old }
    ensures ends { EndFollows (UnboundedAction.PushLink value tail block next) result }
    ensures deed { ProgressMakes C.did cells.old (UnboundedAction.PushLink value tail block next) cells.new result }
{
    // After the tail, for which all pushes wait. Only the pop of this block's last message needs the link, and waits for it.
    cells.store(Word::Next(block), next.wrapping_add(1));
    stay(UnboundedAction::PushPut(value, tail, block, None))
}

pub(crate) fn push_put<T: Drop, C: Cells<T>>(
    value: T,
    tail: u64,
    block: u64,
    held: Option<u64>,
    cells: &mut C,
) -> Progress<T>
    requires ready { Ready C.may (blocks_moves (UnboundedAction.PushPut value tail block held)) cells.old }
    ensures ends { EndFollows (UnboundedAction.PushPut value tail block held) result }
    ensures deed { ProgressMakes C.did cells.old (UnboundedAction.PushPut value tail block held) cells.new result }
{
    // Put before the flag is stored: a pop takes the message as soon as it finds the flag.
    match cells.put(Slot::In(block, tail / 2 % 32), value) {
        Ok(()) => stay(UnboundedAction::PushStore(tail, block, held)),
        Err(value) => stay(UnboundedAction::PushPut(value, tail, block, held)),
    }
}

pub(crate) fn push_store<T: Drop, C: Cells<T>>(
    tail: u64,
    block: u64,
    held: Option<u64>,
    cells: &mut C,
) -> Progress<T>
    requires ready { Ready C.may (blocks_moves (UnboundedAction.PushStore tail block held)) cells.old }
    ensures ends { EndFollows (UnboundedAction.PushStore tail block held) result }
    ensures deed { ProgressMakes C.did cells.old (UnboundedAction.PushStore tail block held) cells.new result }
{
    // After the put, since this publishes the message. Only the pop that wins this position waits for it.
    cells.store(Word::Written(block, tail / 2 % 32), 1);
    match held {
        Some(h) => stay(UnboundedAction::PushGive(h)),
        None => finish(Ending::Sent),
    }
}

pub(crate) fn push_give<T: Drop, C: Cells<T>>(held: u64, cells: &mut C) -> Progress<T>
    requires ready { Ready C.may (blocks_moves (UnboundedAction.PushGive held)) cells.old }
    ensures ends { EndFollows (UnboundedAction.PushGive held) result }
    ensures deed { ProgressMakes C.did cells.old (UnboundedAction.PushGive held) cells.new result }
{
    // Retire the unused block only now, so that no pop waits for this message while the call takes the lock of the spare list.
    cells.retire(held);
    finish(Ending::Sent)
}
