//! Two pushes whose messages lie side by side, written in either order, with a pop between.

use crate::checks::expect_equal;
use crate::log::{Did, Line, Lines, Log, blank};
use crate::said::{Said, replied};
use crate::shared::opened;
use crate::shared::standing::answer_within;
use concurrent_queue::queue_call::QueueCall;
use concurrent_queue::shared::queue::ConcurrentQueue;
use std::alloc::Global;
use std::sync::Wait;

/// So many steps of a first push, and of one after it, win a place of a ring, or of a new queue without a bound; two more write the
/// message.
const TO_WIN: [[u32; 2]; 2] = [[3, 3], [6, 3]];

/// What a pop answers within so many steps, seen by a log.
fn pop_within<R: Wait>(
    rt: &R,
    queue: &ConcurrentQueue<u64>,
    pop: &mut QueueCall<u64>,
    lines: &Lines,
) -> Said {
    let mut said = None;
    for _ in 0..16 {
        let (reply, _) = queue.step_seen(rt, pop, Log { lines });
        said = reply.map(replied);
        if said.is_some() {
            break;
        }
    }
    said.unwrap_or(("", 0))
}

/// How often a log has that a slot was emptied, or was to be.
fn takes(lines: &Lines) -> usize {
    let mut count = 0usize;
    let found: Option<Vec<Line>> = lines.take();
    if let Some(found) = &found {
        for line in found {
            count = count.wrapping_add(usize::from(line.0 == Did::Take));
        }
    }
    count
}

/// What the calls say where the first push is written before the other one, or after it: that push, a pop and how often it touched a
/// slot, the push that is written then, and what is left for the same pop and for one more.
type Outcome = ([Said; 5], usize);

/// Two pushes win their places, and then one is written, and then the other.
fn written_in_turn<R: Wait>(
    rt: &R,
    alloc: Global,
    queue: &ConcurrentQueue<u64>,
    [first, second]: [u32; 2],
    in_order: bool,
) -> Outcome {
    let mut one = QueueCall::push(1u64);
    let mut other = QueueCall::push(2u64);
    let mut pop = QueueCall::pop();
    answer_within(rt, queue, &mut one, first);
    answer_within(rt, queue, &mut other, second);
    if !in_order {
        std::mem::swap(&mut one, &mut other);
    }
    let lines = blank(alloc);
    let written = answer_within(rt, queue, &mut one, 2);
    let between = pop_within(rt, queue, &mut pop, &lines);
    let later = answer_within(rt, queue, &mut other, 2);
    let rest = [
        answer_within(rt, queue, &mut pop, 16),
        answer_within(rt, queue, &mut QueueCall::pop(), 16),
    ];
    ([written, between, later, rest[0], rest[1]], takes(&lines))
}

/// The same in both orders, in a ring of two places or without a bound.
fn in_both_orders<R: Wait>(rt: &R, alloc: Global, capacity: usize) -> Option<(Outcome, Outcome)> {
    let steps = TO_WIN[usize::from(capacity == 0)];
    Some((
        written_in_turn(rt, alloc, &opened(alloc, capacity)?, steps, true),
        written_in_turn(rt, alloc, &opened(alloc, capacity)?, steps, false),
    ))
}

/// A message is taken once it is written itself: not where its neighbour is, and whether or not its neighbour is.
#[test]
fn neighbours_are_written_apart(rt: HostRuntime) {
    let pushed = ("pushed", 0);
    let (one, two) = (("popped", 1), ("popped", 2));
    let in_order = ([pushed, one, pushed, ("", 0), two], 1);
    let turned = ([pushed, ("", 0), pushed, one, two], 0);
    for capacity in [0, 2] {
        let found = in_both_orders(&rt, rt.alloc(), capacity);
        expect_equal(&rt, &found, &Some((in_order, turned)));
    }
}
