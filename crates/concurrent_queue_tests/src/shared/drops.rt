//! Messages that count how often they are dropped.

use crate::checks::expect_equal;
use crate::shared::opened;
use concurrent_queue::shared::queue::ConcurrentQueue;
use std::alloc::{AllocError, Global};
use std::sync::Wait;
use std::sync::atomic::{AtomicUsize, Ordering};
use std::thread;
use std::thread::Threads;

/// How many calls each thread makes.
const CALLS: u64 = 500;

/// How many rounds there are for each queue.
const ROUNDS: u64 = 10;

/// A message that counts its drop.
struct Counted<'a> {
    drops: &'a AtomicUsize,
}

impl<'a> Drop for Counted<'a> {
    fn drop(self) {
        let Counted { drops } = self;
        drops.fetch_add(1, Ordering::SeqCst);
    }
}

/// The number after this one, of which the upper half looks like drawn.
fn next_draw(number: u64) -> u64 {
    number
        .wrapping_mul(6_364_136_223_846_793_005)
        .wrapping_add(1_442_695_040_888_963_407)
}

/// Pushes, displaces or pops: whether a message came back, which was refused, displaced or popped, and dropped.
fn comes_back<'a, R: Wait>(
    rt: &R,
    queue: &ConcurrentQueue<Counted<'a>>,
    drops: &'a AtomicUsize,
    kind: u64,
) -> bool {
    match kind {
        0 => queue.push(rt, Counted { drops }).is_err(),
        1 => !matches!(queue.force_push(rt, Counted { drops }), Ok(None)),
        _ => queue.pop(rt).is_ok(),
    }
}

/// Makes calls as drawn from this number on: how many messages it made, and how many came back to it.
fn draw_calls<'a, R: Wait>(
    rt: &R,
    queue: &ConcurrentQueue<Counted<'a>>,
    drops: &'a AtomicUsize,
    seed: u64,
) -> [usize; 2] {
    let mut drawn = seed;
    let mut made = 0usize;
    let mut back = 0usize;
    for _ in 0..CALLS {
        drawn = next_draw(drawn);
        let kind = (drawn >> 33) % 3;
        made = made.wrapping_add(usize::from(kind < 2));
        back = back.wrapping_add(usize::from(comes_back(rt, queue, drops, kind)));
    }
    [made, back]
}

/// The same by three threads at once: how many messages were made, and how many came back.
fn draw_at_once<'a, R: Threads + Wait + Sync>(
    rt: &R,
    alloc: Global,
    queue: &ConcurrentQueue<Counted<'a>>,
    drops: &'a AtomicUsize,
    seed: u64,
) -> Result<[usize; 2], AllocError> {
    let done = thread::map_indices(
        rt,
        alloc,
        3,
        &|thread| { draw_calls(rt, queue, drops, seed.wrapping_add(thread as u64)) },
    )?;
    let mut sums = [0usize; 2];
    for [made, back] in &done {
        sums = [sums[0].wrapping_add(*made), sums[1].wrapping_add(*back)];
    }
    Ok(sums)
}

/// Whether in a queue with so many places, or without a bound, each message was dropped that came back to a thread, and no other; and
/// each other one when the queue was dropped.
fn each_is_dropped<R: Threads + Wait + Sync>(
    rt: &R,
    alloc: Global,
    capacity: usize,
    seed: u64,
) -> Option<[bool; 3]> {
    let drops = AtomicUsize::new(0);
    let queue = opened(alloc, capacity)?;
    let drawn = draw_at_once(rt, alloc, &queue, &drops, seed);
    let [made, back] = drawn.unwrap_or([0, usize::MAX]);
    let before = drops.load(Ordering::SeqCst);
    let held = queue.len(rt);
    drop(queue);
    let after = drops.load(Ordering::SeqCst);
    Some([
        before == back,
        held == made.wrapping_sub(back),
        after == made,
    ])
}

#[test]
fn each_message_is_dropped_once(rt: HostRuntime) {
    for capacity in [0, 1, 50] {
        for round in 0..ROUNDS {
            let right = each_is_dropped(&rt, rt.alloc(), capacity, round.wrapping_mul(1_000));
            expect_equal(&rt, &right, &Some([true, true, true]));
        }
    }
}
