//! A queue between two threads.

use async_channel::Runtime;
use concurrent_queue::{ConcurrentQueue, PopError, PushError};
use std::alloc::Global;
use std::sync::Wait;
use std::thread;

/// Pushes a message as soon as there is room for it.
fn push<R: Wait + Copy>(rt: R, queue: &ConcurrentQueue<u64>, message: u64) -> Option<()> {
    for _ in rt.forever() {
        match queue.push(&rt, message) {
            Ok(()) => return Some(()),
            Err(PushError::Full(_)) => thread::yield_now(),
            Err(_) => break,
        }
    }
    None
}

/// Pushes the numbers 1 to 4, and closes the queue.
fn push_all<R: Wait + Copy>(rt: R, queue: &ConcurrentQueue<u64>) -> Option<u64> {
    for number in 1..5 {
        push(rt, queue, number)?;
    }
    queue.close();
    Some(4)
}

/// Pops until the queue is closed and empty: what came, as one number, a digit each.
fn pop_all<R: Wait + Copy>(rt: R, queue: &ConcurrentQueue<u64>) -> Option<u64> {
    let mut came = 0u64;
    for _ in rt.forever() {
        match queue.pop(&rt) {
            Ok(number) => came = came.wrapping_mul(10).wrapping_add(number),
            Err(PopError::Empty) => thread::yield_now(),
            Err(PopError::Closed) => break,
        }
    }
    Some(came)
}

/// That number for four messages through two places.
pub(crate) fn came<R: Runtime>(rt: R, alloc: Global) -> Option<u64> {
    let queue = ConcurrentQueue::bounded(alloc, 2).ok()?;
    let (pushed, came) = thread::join(&rt, || push_all(rt, &queue), || pop_all(rt, &queue));
    pushed?;
    came
}
