//! What calls of a shared queue do to its cells, as a trace of the caller's sees it.

use crate::checks::{expect_equal, expect_true};
use crate::log::{Did, Line, Log, To, blank};
use crate::said::{Said, popped, pushed, replied};
use crate::shared::{Working, opened, wrong_at_once};
use concurrent_queue::call::QueueAsk;
use concurrent_queue::queue_call::QueueCall;
use concurrent_queue::shared::queue::ConcurrentQueue;
use std::alloc::Global;
use std::sync::Wait;
use std::thread::Threads;

/// Whether a call answered so, and these are the lines of its log, which begins anew.
fn is_logged(log: Log<'_>, alloc: Global, wanted: &[Line], [said, answer]: [Said; 2]) -> bool {
    match log.lines.replace(Some(Vec::new(alloc))) {
        Some(lines) => said == answer && lines.as_slice() == wanted,
        None => false,
    }
}

/// The lines of a push of 5 into one slot, of a pop of it, and of a pop of none.
static OF_A_SLOT: [&[Line]; 3] = [
    &[
        (Did::Exchange, To::State, 1),
        (Did::Put, To::Slot, 1),
        (Did::And, To::State, 3),
    ],
    &[
        (Did::Exchange, To::State, 1),
        (Did::Take, To::Slot, 5),
        (Did::And, To::State, 1),
    ],
    &[(Did::Exchange, To::State, 0)],
];

/// The same of a ring.
static OF_A_RING: [&[Line]; 3] = [
    &[
        (Did::Load, To::Tail, 0),
        (Did::Load, To::Stamp, 0),
        (Did::Exchange, To::Tail, 1),
        (Did::Put, To::Slot, 1),
        (Did::Store, To::Stamp, 0),
    ],
    &[
        (Did::Load, To::Head, 0),
        (Did::Load, To::Stamp, 1),
        (Did::Exchange, To::Head, 1),
        (Did::Take, To::Slot, 5),
        (Did::Store, To::Stamp, 0),
    ],
    &[
        (Did::Load, To::Head, 1),
        (Did::Load, To::Stamp, 1),
        (Did::Load, To::Tail, 1),
    ],
];

/// A push and a pop, whole, and then a pop of the empty queue by steps: whether the logs have these lines.
fn logs_are<R: Wait>(
    rt: &R,
    alloc: Global,
    queue: &ConcurrentQueue<u64>,
    wanted: &[&[Line]; 3],
) -> bool {
    let lines = blank(alloc);
    let log = Log { lines: &lines };
    let (answer, log) = queue.push_seen(rt, 5, log);
    let push = is_logged(log, alloc, wanted[0], [pushed(&answer), ("pushed", 0)]);
    let (answer, log) = queue.pop_seen(rt, log);
    let pop = is_logged(log, alloc, wanted[1], [popped(&answer), ("popped", 5)]);
    let (reply, log) = queue.complete_seen(rt, QueueCall::new(QueueAsk::Pop), log);
    let none = is_logged(log, alloc, wanted[2], [replied(reply), ("empty", 0)]);
    push && pop && none
}

/// The same of a queue with so many places.
fn are_logged<R: Wait>(rt: &R, alloc: Global, capacity: usize, wanted: &[&[Line]; 3]) -> bool {
    let Some(queue) = opened(alloc, capacity) else {
        return false;
    };
    logs_are(rt, alloc, &queue, wanted)
}

#[test]
fn logs_of_calls_alone(rt: HostRuntime) {
    let alloc = rt.alloc();
    let right = [
        are_logged(&rt, alloc, 1, &OF_A_SLOT),
        are_logged(&rt, alloc, 2, &OF_A_RING),
    ];
    expect_equal(&rt, &right, &[true, true]);
}

/// How many lines of a log are of this operation and answered more than 0.
fn count(lines: &[Line], operation: Did) -> usize {
    let mut count = 0usize;
    for line in lines {
        if line.0 == operation && line.2 > 0 {
            count = count.wrapping_add(1);
        }
    }
    count
}

/// What was done to which cell.
type Operation = (Did, To);

/// The first and the last operation of a call of a ring that answered so, and how many places it won.
fn of_a_call(said: &str) -> Option<(Operation, Operation, usize)> {
    match said {
        "pushed" => Some(((Did::Load, To::Tail), (Did::Store, To::Stamp), 1)),
        "popped" => Some(((Did::Load, To::Head), (Did::Store, To::Stamp), 1)),
        "full" => Some(((Did::Load, To::Tail), (Did::Load, To::Head), 0)),
        "empty" => Some(((Did::Load, To::Head), (Did::Load, To::Tail), 0)),
        _ => None,
    }
}

/// Whether there is a line, and it is of this operation.
fn is_of(line: Option<&Line>, operation: Operation) -> bool {
    match line {
        Some((done, to, _)) => *done == operation.0 && *to == operation.1,
        None => false,
    }
}

/// Whether a log is of one call of a ring that answered so: it begins with the first operation of its machine, an answered
/// call ends with the last one, and one place was won where a message came or went, and none where none did.
fn is_of_one_call(lines: &[Line], said: Said) -> bool {
    let Some((first, last, places)) = of_a_call(said.0) else {
        return false;
    };
    let ends = is_of(lines.first(), first) && is_of(lines.last(), last);
    let went = count(lines, Did::Put).wrapping_add(count(lines, Did::Take));
    ends && count(lines, Did::Exchange) == places && went == places
}

/// How many logs these are that are not of one call that answered so, 0 or 1. The log begins anew. One without memory isn't looked at.
fn wrong(log: Log<'_>, alloc: Global, said: Said) -> u64 {
    match log.lines.replace(Some(Vec::new(alloc))) {
        Some(lines) => u64::from(!is_of_one_call(lines.as_slice(), said)),
        None => 0,
    }
}

/// How many calls each of two threads makes.
const CALLS: u64 = 2_000;

/// How many logs of a push are not of one call, 0 or 1.
fn wrong_push<R: Wait>(
    rt: &R,
    alloc: Global,
    queue: &ConcurrentQueue<u64>,
    message: u64,
    log: Log<'_>,
) -> u64 {
    let (answer, log) = queue.push_seen(rt, message, log);
    wrong(log, alloc, pushed(&answer))
}

/// The same of a pop.
fn wrong_pop<R: Wait>(rt: &R, alloc: Global, queue: &ConcurrentQueue<u64>, log: Log<'_>) -> u64 {
    let (answer, log) = queue.pop_seen(rt, log);
    wrong(log, alloc, popped(&answer))
}

/// Pushes and pops in turn: how many logs are not of one call.
pub(crate) fn wrong_logs<R: Wait>(rt: &R, alloc: Global, queue: &ConcurrentQueue<u64>) -> u64 {
    let lines = blank(alloc);
    let log = Log { lines: &lines };
    let mut found = 0u64;
    for message in 1..CALLS {
        found = found.wrapping_add(wrong_push(rt, alloc, queue, message, log));
        found = found.wrapping_add(wrong_pop(rt, alloc, queue, log));
    }
    found
}

/// Two threads at once on a ring of two places: whether each log by itself is one of a call.
fn two_at_once<R: Threads + Wait + Sync>(
    rt: &R,
    alloc: Global,
    queue: &ConcurrentQueue<u64>,
) -> bool {
    wrong_at_once(rt, alloc, queue, (Working::Logged, 2), 2) == Some(0)
}

#[test]
fn logs_of_calls_at_once(rt: HostRuntime) {
    let queue = opened(rt.alloc(), 2).expect(&rt, "memory");
    let right = two_at_once(&rt, rt.alloc(), &queue);
    drop(queue);
    expect_true(&rt, right);
}
