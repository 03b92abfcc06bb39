//! A queue that is watched: each of its calls shows what it does to the trace that the queue was made with.

use crate::checks::expect_equal;
use crate::log::{Line, Lines, Log, blank};
use crate::said::{Said, popped, pushed};
use concurrent_queue::shared::queue::ConcurrentQueue;
use std::alloc::Global;
use std::sync::Wait;

/// How many lines there are; 0 where one is missing.
fn count(lines: &Lines) -> usize {
    let found: Option<Vec<Line>> = lines.take();
    let count = match &found {
        Some(found) => found.len(),
        None => 0,
    };
    lines.set(found);
    count
}

/// What a call answered, and how many operations were seen up to its end.
type Seen = (Said, usize);

/// What came of a push of 5 into one slot, of a pop of it and of a pop of none; then of a close, whether it was the first.
fn seen_of_each<R: Wait>(rt: &R, alloc: Global) -> Option<([Seen; 3], (bool, usize))> {
    let lines = blank(alloc);
    let queue = ConcurrentQueue::bounded_watched(alloc, 1, Log { lines: &lines }).ok()?;
    let calls = [
        (pushed(&queue.push(rt, 5)), count(&lines)),
        (popped(&queue.pop(rt)), count(&lines)),
        (popped(&queue.pop(rt)), count(&lines)),
    ];
    let close = (queue.close(), count(&lines));
    drop(queue);
    Some((calls, close))
}

#[test]
fn a_watch_is_shown_each_call(rt: HostRuntime) {
    let calls = [(("pushed", 0), 3), (("popped", 5), 6), (("empty", 0), 7)];
    expect_equal(
        &rt,
        &seen_of_each(&rt, rt.alloc()),
        &Some((calls, (true, 8))),
    );
}
