//! Numbers behind locks, which threads increment.

ghost use Rattle.std.specs.Prelude.{◌≡◌, ◌<◌, IfOk};

use keyed_lock::{Keeps, KeyedLocks};
use std::alloc::{AllocError, Global};
use std::sync::atomic::{AtomicBool, Ordering};
use std::sync::{Arc, Wait};
use std::thread;
use std::thread::Threads;
use std::time::{Clock, Duration};

/// How many locks there are.
const LOCKS: usize = 4;

/// How many threads increment.
pub const THREADS: usize = 4;

/// How many increments each thread makes.
pub const ROUNDS: usize = 400;

/// In one round of so many a thread holds the lock for so long that those who wait for it sleep.
const LONG: usize = 16;

const PAUSES: u32 = 60;

/// A number, whose it is, and behind which lock it lies. It can't be copied.
#[derive(Drop)]
pub struct Counter {
    owner: u64,
    lock: usize,
    count: u64,
}

/// Each number is of the owner that the locks were made for, and lies behind its own lock.
pub struct InItsPlace;

impl Keeps<Counter, u64> for InItsPlace {
    ghost keeps = { λ k i c. (c.owner ≡ k) × (c.lock ≡ i) };
}

/// Four numbers, each behind a lock.
pub type Counters = KeyedLocks<Counter, u64, InItsPlace, 4>;

/// Numbers of this owner, each of which is 0. Err where there is no memory.
pub fn counters(alloc: Global, owner: u64) -> Result<Counters, AllocError>
    ensures { IfOk result (λ l. l ≡ owner) }
{
    let zero = |lock| Counter {
        owner,
        lock,
        count: 0,
    };
    KeyedLocks::new(alloc, [zero(0), zero(1), zero(2), zero(3)], &owner)
}

/// Adds to the number behind a lock, and has other threads run meanwhile, so many times. Answers whose it was, and which.
pub fn add<R: Wait>(rt: &R, counters: &Counters, which: usize, pauses: u32) -> (u64, usize)
    requires { which < 4 }
    ensures { result ≡ (counters.now, which) }
{
    let (counter, taken) = counters.take(rt, which);
    for _ in 0..pauses {
        thread::yield_now();
    }
    let Counter { owner, lock, count } = counter;
    taken.give(Counter {
        owner,
        lock,
        count: count.wrapping_add(1),
    });
    (owner, lock)
}

/// What is behind a lock.
pub fn count<R: Wait>(rt: &R, counters: &Counters, which: usize) -> u64
    requires { which < 4 }
{
    let (counter, taken) = counters.take(rt, which);
    let count = counter.count;
    taken.give(counter);
    count
}

/// What is behind two locks at one moment: neither waits for the other.
pub fn counts_at_once<R: Wait>(rt: &R, counters: &Counters) -> (u64, u64) {
    let (first, of_first) = counters.take(rt, 0);
    let (second, of_second) = counters.take(rt, 1);
    let found = (first.count, second.count);
    of_first.give(first);
    of_second.give(second);
    found
}

/// Increments behind each lock in turn.
fn increment<R: Wait>(rt: &R, counters: &Counters, thread: usize) {
    for round in 0..ROUNDS {
        let pauses = if round % LONG == 0 { PAUSES } else { 0 };
        let _ = add(rt, counters, thread.wrapping_add(round) % LOCKS, pauses);
    }
}

/// Threads increment at once. What is behind each lock then.
pub fn increment_at_once<R: Threads + Wait + Sync>(
    rt: &R,
    alloc: Global,
) -> Result<[u64; 4], AllocError> {
    let counters = counters(alloc, 7)?;
    let done = thread::map_indices(
        rt,
        alloc,
        THREADS,
        &|thread| increment(rt, &counters, thread),
    )?;
    drop(done);
    Ok([
        count(rt, &counters, 0),
        count(rt, &counters, 1),
        count(rt, &counters, 2),
        count(rt, &counters, 3),
    ])
}

/// Numbers, and what a thread that waits for one of them says.
#[derive(Drop)]
struct Awaited {
    counters: Counters,
    comes: AtomicBool,
    got_it: AtomicBool,
}

/// Looks each millisecond, for ten seconds at most, whether the flag is set.
fn is_soon_set<R: Clock>(rt: &R, flag: &AtomicBool) -> bool {
    for _ in 0..10_000 {
        if flag.load(Ordering::SeqCst) {
            return true;
        }
        rt.sleep(Duration::from_millis(1));
    }
    false
}

fn add_and_say<R: Wait>(rt: &R, awaited: &Awaited) {
    awaited.comes.store(true, Ordering::SeqCst);
    let _ = add(rt, &awaited.counters, 0, 0);
    awaited.got_it.store(true, Ordering::SeqCst);
}

/// One thread has a lock for a while, and another sleeps until it gives the value back. Whether the other one got it then. None where
/// there is no memory, or no thread.
pub fn wakes<R: Threads + Wait + Clock + Copy + Send + 'static>(
    rt: R,
    alloc: Global,
) -> Option<bool> {
    let awaited = Awaited {
        counters: counters(alloc, 7).ok()?,
        comes: AtomicBool::new(false),
        got_it: AtomicBool::new(false),
    };
    let awaited = Arc::new(alloc, awaited).ok()?;
    let theirs = Arc::try_clone(&awaited).ok()?;
    let (counter, taken) = awaited.counters.take(&rt, 0);
    let started = thread::spawn(&rt, move || add_and_say(&rt, &theirs)).ok();
    let comes = started.is_some() && is_soon_set(&rt, &awaited.comes);
    rt.sleep(Duration::from_millis(50));
    taken.give(counter);
    if !comes {
        return None;
    }
    // The thread isn't joined where it doesn't come: then it sleeps for ever.
    Some(is_soon_set(&rt, &awaited.got_it))
}
