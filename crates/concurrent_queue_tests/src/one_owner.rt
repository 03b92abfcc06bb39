//! Cells of one owner ask nothing of whoever operates on them: any operation may come next, and steps of any calls, and no function
//! here has a `requires`.

use crate::checks::expect_equal;
use crate::said::{Said, replied};
use concurrent_queue::call::QueueAsk;
use concurrent_queue::cells::{Cells, QueueForm, Slot, Word};
use concurrent_queue::plain::PlainCells;
use concurrent_queue::queue_call::{QueueCall, whole};
use std::alloc::AllocGlobal;
use std::process::Abort;
use std::sync::Wait;

/// The cells of a new queue of one slot.
fn one_slot<R: Abort + AllocGlobal>(rt: &R) -> PlainCells<u64> {
    PlainCells::new(rt.alloc(), QueueForm::Bounded(1)).expect(rt, "memory")
}

/// Operations that are no call's next one: what the word held at last, and what the slot held.
fn operate(cells: &mut PlainCells<u64>) -> (u64, Option<u64>) {
    cells.store(Word::State, 1);
    let _ = cells.compare_exchange(Word::State, 1, 2);
    let _ = cells.fetch_add(Word::State, 4);
    let _ = cells.fetch_or(Word::State, 8);
    let _ = cells.fetch_and(Word::State, 14);
    let _ = cells.put(Slot::At(0), 7);
    let found = cells.take(Slot::At(0));
    if let Ok(block) = cells.spare() {
        cells.retire(block);
    }
    (cells.load(Word::State), found)
}

/// Makes a step of a call: whether it goes on.
fn goes_on(call: &mut QueueCall<u64>, cells: &mut PlainCells<u64>) -> bool {
    call.step(cells).is_none()
}

/// A step of a push, an operation that is no call's, and two steps more: whether each of these left it under way, and what the word held
/// after the first one.
fn push_among(cells: &mut PlainCells<u64>) -> ([bool; 3], u64) {
    let mut push = QueueCall::push(5);
    let first = goes_on(&mut push, cells);
    let word = cells.load(Word::State);
    let second = goes_on(&mut push, cells);
    ([first, second, goes_on(&mut push, cells)], word)
}

/// What the steps of a pop answer.
fn pop_whole<R: Wait>(rt: &R, cells: &mut PlainCells<u64>) -> Said {
    replied(whole::complete(rt, QueueCall::new(QueueAsk::Pop), cells))
}

#[test]
fn any_operation_may_come_next(rt: HostRuntime) {
    let mut cells = one_slot(&rt);
    expect_equal(&rt, &operate(&mut cells), &(14, Some(7)));
}

#[test]
fn steps_of_a_call_may_come_among_other_operations(rt: HostRuntime) {
    let mut cells = one_slot(&rt);
    expect_equal(&rt, &push_among(&mut cells), &([true, true, false], 3));
    expect_equal(&rt, &pop_whole(&rt, &mut cells), &("popped", 5));
}
