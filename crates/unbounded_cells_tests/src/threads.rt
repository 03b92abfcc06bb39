//! What threads make of one queue of numbers at once.

use crate::numbers::Numbers;
use concurrent_queue::PopError;
use std::sync::Wait;
use std::thread;
use std::thread::Threads;

/// By so much the numbers of one pusher lie above those of the other.
const APART: u64 = 1_000_000;

/// What a popper has found.
#[derive(Clone, Copy)]
pub struct Found {
    /// How many numbers.
    pub count: u64,
    /// Their sum.
    pub sum: u64,
    /// Whether those of each pusher came in its order.
    pub in_order: bool,
}

/// Pushes so many numbers, one after another, the first of which is this. How many are in.
pub fn push_all<R: Wait>(rt: &R, queue: &Numbers, first: u64, count: u64) -> u64 {
    let mut accepted: u64 = 0;
    'numbers: for offset in 0..count {
        if queue.push(rt, first.wrapping_add(offset)) {
            accepted = accepted.wrapping_add(1);
        }
    }
    accepted
}

/// Pops until the queue is closed and empty.
pub fn pop_all<R: Wait>(rt: &R, queue: &Numbers) -> Found {
    let mut found = Found {
        count: 0,
        sum: 0,
        in_order: true,
    };
    let mut next = [0, APART];
    'numbers: for _ in rt.forever() {
        match queue.pop(rt) {
            Ok(number) => {
                let pusher = if number < APART { 0 } else { 1 };
                found.in_order = found.in_order && next[pusher] <= number;
                next[pusher] = number.wrapping_add(1);
                found.count = found.count.wrapping_add(1);
                found.sum = found.sum.wrapping_add(number);
            }
            Err(PopError::Closed) => break,
            Err(PopError::Empty) => thread::yield_now(),
        }
    }
    found
}

/// Two threads push so many numbers each, and the queue is closed then. How many are in.
pub fn push_at_once<R: Threads + Wait + Sync>(rt: &R, queue: &Numbers, count: u64) -> u64 {
    let (first, second) = thread::join(
        rt,
        move || push_all(rt, queue, 0, count),
        move || push_all(rt, queue, APART, count),
    );
    queue.close(rt);
    first.wrapping_add(second)
}

/// Two threads pop until the queue is closed and empty.
pub fn pop_at_once<R: Threads + Wait + Sync>(rt: &R, queue: &Numbers) -> (Found, Found) {
    thread::join(rt, move || pop_all(rt, queue), move || pop_all(rt, queue))
}

/// Two threads push so many numbers each, and two pop them. Whether each number came once, and those of each pusher in its order.
pub fn nothing_is_lost<R: Threads + Wait + Sync>(rt: &R, queue: &Numbers, count: u64) -> bool {
    let (accepted, (one, other)) = thread::join(
        rt,
        move || push_at_once(rt, queue, count),
        move || pop_at_once(rt, queue),
    );
    let popped = one.count.wrapping_add(other.count);
    let sum = one.sum.wrapping_add(other.sum);
    let each = count.wrapping_mul(count.wrapping_sub(1)) / 2;
    let all = each.wrapping_mul(2).wrapping_add(count.wrapping_mul(APART));
    accepted == count.wrapping_mul(2)
        && popped == accepted
        && sum == all
        && one.in_order
        && other.in_order
}

/// So many rounds, in each of which so many numbers go in and come out in order. Whether they did.
pub fn goes_round<R: Wait>(rt: &R, queue: &Numbers, rounds: u64, count: u64) -> bool {
    let mut right = true;
    'rounds: for round in 0..rounds {
        let first = round.wrapping_mul(count);
        right = right && push_all(rt, queue, first, count) == count;
        right = right && comes_out(rt, queue, first, count);
    }
    right && queue.count(rt) == 0
}

/// Whether these numbers come out next, in order.
fn comes_out<R: Wait>(rt: &R, queue: &Numbers, first: u64, count: u64) -> bool {
    let mut right = true;
    'numbers: for offset in 0..count {
        right = right && queue.pop(rt) == Ok(first.wrapping_add(offset));
    }
    right
}
