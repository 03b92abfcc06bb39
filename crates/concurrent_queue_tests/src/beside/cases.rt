//! Each call of each form beside each two others, at each of its operations.

use crate::beside::plain::{CHANGES, KINDS, Kind, Plain};
use crate::beside::{ALL, Beside, Events, Other};
use crate::checks::expect_equal;
use crate::said::{Said, replied};
use crate::scarce::{Scarce, asked, cells_with};
use crate::turns::form_of;
use concurrent_queue::call::QueueAsk;
use concurrent_queue::queue_call::{QueueCall, whole};
use std::alloc::{AllocError, Global};
use std::cell::Cell;
use std::process::Abort;
use std::sync::Wait;

/// More blocks than these tests need.
const BLOCKS: u32 = 8;

/// A queue, and what is in it when the calls begin.
#[derive(Clone, Copy)]
struct Start {
    /// 0 for a queue without a bound.
    capacity: usize,
    bound: usize,
    passed: u64,
    messages: u64,
    closed: bool,
}

/// What is made of it: the call, the others, the operation before which they come, and after how many steps of the first of them
/// the second one is made.
#[derive(Clone, Copy)]
struct Case {
    kind: Kind,
    first: Kind,
    second: Kind,
    turn: u32,
    steps: u32,
}

/// What no list explains: the calls, the operation and the steps of the case, and what they said.
type Wrong = ([&'static str; 3], [u32; 2], [Said; 3]);

impl Case {
    /// That this came of it is explained by no list.
    fn wrong(self, outcome: &Outcome) -> Wrong {
        let names = [self.kind.name, self.first.name, self.second.name];
        let [first, second] = outcome.others;
        (
            names,
            [self.turn, self.steps],
            [outcome.said, first, second],
        )
    }
}

/// What came of it.
#[derive(Clone, Copy)]
struct Outcome {
    said: Said,
    others: [Said; 2],
    events: Events,
    left: Plain,
    made: u32,
    came_whole: bool,
}

impl Start {
    /// The cells of the queue, and the list that they stand for. So many messages have passed through it before.
    fn begin(self, alloc: Global) -> Result<(Scarce, Plain), AllocError> {
        let mut cells = cells_with(alloc, self.capacity, BLOCKS)?;
        pass(&mut cells, self.passed);
        let plain = self.fill(&mut cells);
        Ok((cells, plain))
    }

    /// Brings its messages in, and closes the queue if it is to be closed: the list then.
    fn fill(self, cells: &mut Scarce) -> Plain {
        let mut plain = Plain::new(self.bound);
        for message in 1..self.messages.saturating_add(1) {
            asked(cells, QueueAsk::Push(message));
            plain.append(message);
        }
        if self.closed {
            asked(cells, QueueAsk::Close);
        }
        plain.closed = self.closed;
        plain
    }
}

/// So many messages come in and leave.
fn pass(cells: &mut Scarce, messages: u64) {
    for message in 0..messages {
        asked(cells, QueueAsk::Push(message));
        asked(cells, QueueAsk::Pop);
    }
}

/// What is left in the queue.
fn left_in(cells: &mut Scarce, bound: usize) -> Plain {
    let mut plain = Plain::new(bound);
    for _ in 0..8 {
        match asked(cells, QueueAsk::Pop) {
            ("popped", message) => plain.append(message),
            _ => break,
        }
    }
    plain
}

/// Makes the calls.
fn make<R: Wait>(rt: &R, start: Start, cells: Scarce, case: Case) -> Outcome {
    let mut beside = Beside {
        form: form_of(start.capacity),
        is_refused: case.kind.is_refused,
        cells,
        made: 0,
        turn: case.turn,
        ways: Cell::new(0),
        first: Other::new(case.first, 8, case.steps),
        second: Other::new(case.second, 9, ALL),
        events: Events::new(),
        came_whole: false,
    };
    let call = QueueCall::new(case.kind.ask(7));
    let said = replied(whole::complete(rt, call, &mut beside));
    let made = beside.made;
    beside.let_on(ALL, ALL);
    beside.let_on(ALL, ALL);
    let closed = asked(&mut beside.cells, QueueAsk::Close) == ("was closed", 0);
    let mut left = left_in(&mut beside.cells, start.bound);
    left.closed = closed;
    let others = [
        beside.first.said.unwrap_or(("nothing", 0)),
        beside.second.said.unwrap_or(("nothing", 0)),
    ];
    let (events, came_whole) = (beside.events, beside.came_whole);
    drop(beside);
    Outcome {
        said,
        others,
        events,
        left,
        made,
        came_whole,
    }
}

/// The message that a call says it took, or 0.
fn taken(said: Said) -> u64 {
    match said {
        ("popped", message) | ("displaced", message) => message,
        _ => 0,
    }
}

impl Outcome {
    /// Whether a list explains it, to which the others' steps did what they did: the call had its moment before the step of
    /// this place among them, and the message of a displacing push came before another, not earlier.
    fn is_so(&self, kind: Kind, start: Plain, moment: usize, comes: usize) -> bool {
        let mut plain = start;
        let mut took = [0; 2];
        let mut said = ("nothing", 0);
        let mut is_to_come = false;
        for place in 0..self.events.count.saturating_add(1) {
            if place == moment {
                (said, is_to_come) = plain.answer(kind, 7, self.said);
            }
            if place == comes && is_to_come {
                plain.append(7);
            }
            if let Some(event) = self.events.events.get(place) {
                let message = plain.do_event(event);
                if message != 0 && event.by < 2 {
                    took[event.by] = message;
                }
            }
        }
        said == self.said
            && plain == self.left
            && took == [taken(self.others[0]), taken(self.others[1])]
    }

    /// Whether there are such moments.
    fn is_explained(&self, kind: Kind, start: Plain) -> bool {
        let end = self.events.count.saturating_add(1);
        for moment in 0..end {
            for comes in moment..end {
                if self.is_so(kind, start, moment, comes) {
                    return true;
                }
            }
        }
        false
    }
}

/// What no list explains, of a call beside two others that come before this operation of it: the second one after one step of
/// the first, after two, and so on up to its end. `None` where each is explained; and whether the call had such an operation.
fn wrong_at<R: Wait + Abort>(
    rt: &R,
    alloc: Global,
    start: Start,
    mut case: Case,
) -> (Option<Wrong>, bool) {
    for steps in 1..ALL {
        case.steps = steps;
        let (cells, plain) = start.begin(alloc).expect(rt, "memory");
        let outcome = make(rt, start, cells, case);
        if !outcome.is_explained(case.kind, plain) {
            return (Some(case.wrong(&outcome)), true);
        }
        let came = outcome.made >= case.turn;
        if !came || outcome.came_whole {
            return (None, came);
        }
    }
    (None, true)
}

/// The same at each of its operations.
fn wrong_beside<R: Wait + Abort>(
    rt: &R,
    alloc: Global,
    start: Start,
    [kind, first, second]: [Kind; 3],
) -> Option<Wrong> {
    for turn in 1..ALL {
        let case = Case {
            kind,
            first,
            second,
            turn,
            steps: 1,
        };
        let (wrong, came) = wrong_at(rt, alloc, start, case);
        if wrong.is_some() || !came {
            return wrong;
        }
    }
    None
}

/// The same of each call beside each two others.
fn wrong_in<R: Wait + Abort>(rt: &R, alloc: Global, start: Start) -> Option<Wrong> {
    for kind in &KINDS {
        for first in &KINDS {
            for second in &CHANGES {
                let wrong = wrong_beside(rt, alloc, start, [*kind, *first, *second]);
                if wrong.is_some() {
                    return wrong;
                }
            }
        }
    }
    None
}

/// Each call beside each two others, on a queue of this capacity with so many messages, open and closed.
fn check<R: Wait + Abort>(
    rt: &R,
    alloc: Global,
    capacity: usize,
    bound: usize,
    passed: u64,
    messages: u64,
) {
    for closed in [false, true] {
        let start = Start {
            capacity,
            bound,
            passed,
            messages,
            closed,
        };
        let wrong = wrong_in(rt, alloc, start);
        let place = (bound, passed, messages, closed);
        expect_equal(rt, &(place, wrong), &(place, None));
    }
}

#[test]
fn one_slot_beside_others(rt: HostRuntime) {
    for messages in 0..2 {
        check(&rt, rt.alloc(), 1, 1, 0, messages);
    }
}

#[test]
fn a_ring_beside_others(rt: HostRuntime) {
    for messages in 0..3 {
        check(&rt, rt.alloc(), 2, 2, 1, messages);
    }
}

#[test]
fn blocks_beside_others(rt: HostRuntime) {
    for (passed, messages) in [(0, 0), (0, 1), (29, 1)] {
        check(&rt, rt.alloc(), 0, 9, passed, messages);
    }
}

/// How many operations a pop makes beside a push that stood still after so many steps, and has to write its message yet.
fn made_beside<R: Wait>(rt: &R, alloc: Global, capacity: usize, steps: u32) -> Option<u32> {
    let [push, _, pop, close] = CHANGES;
    let start = Start {
        capacity,
        bound: 9,
        passed: 0,
        messages: 0,
        closed: false,
    };
    let case = Case {
        kind: pop,
        first: push,
        second: close,
        turn: 1,
        steps,
    };
    let (cells, _) = start.begin(alloc).ok()?;
    Some(make(rt, start, cells, case).made)
}

/// The push makes a step each time that the pop gives way, so one that gave way less often would make more operations.
#[test]
fn a_call_that_waits_gives_way(rt: HostRuntime) {
    let made = [
        made_beside(&rt, rt.alloc(), 1, 1),
        made_beside(&rt, rt.alloc(), 2, 3),
        made_beside(&rt, rt.alloc(), 0, 6),
    ];
    expect_equal(&rt, &made, &[Some(5), Some(11), Some(9)]);
}
