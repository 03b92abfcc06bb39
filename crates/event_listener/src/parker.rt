//! What a thread sleeps on until its listener is told. The invariant: a ring stays until the one thread that sleeps has heard it, so a ring
//! before the sleep is not lost.
//!
//! # Extensions
//!
//! All of this module.

use futures::task::Source;
use std::sync::atomic::{AtomicBool, Ordering};
use std::sync::{Condvar, Mutex, Wait};
use std::time::{Clock, Duration};
use std::{io, thread};

/// How often a thread looks, and yields, before it sleeps: most notifications come sooner than a sleep would begin.
const LOOKS: usize = 16;

/// A bell that stays rung until the one thread that sleeps on it has heard it: the parker of the crate `parking`, over std's lock and
/// condition variable.
#[derive(Drop)]
pub struct Parker {
    seal: Source,
    has_rung: AtomicBool,
    is_rung: Mutex<bool>,
    rung: Condvar,
}

/// One value with the right to wait and a clock, as the timed wait of a condition variable wants it.
#[derive(Drop)]
struct Timed<'a, R: Wait, K: Clock> {
    _rt: &'a R,
    clock: &'a K,
}

impl<'a, R: Wait, K: Clock> Wait for Timed<'a, R, K> {}

impl<'a, R: Wait, K: Clock> Clock for Timed<'a, R, K> {
    fn monotonic(&self) -> io::Result<Duration> {
        self.clock.monotonic()
    }

    fn since_1970(&self) -> io::Result<Duration> {
        self.clock.since_1970()
    }

    fn sleep(&self, duration: Duration) {
        self.clock.sleep(duration)
    }
}

impl Parker {
    /// A bell that hasn't rung. It takes no memory.
    pub fn new() -> Parker {
        Parker {
            seal: Source::new(),
            has_rung: AtomicBool::new(false),
            is_rung: Mutex::new(false),
            rung: Condvar::new(),
        }
    }

    /// Sleeps until the bell rings. It may wait for ever.
    pub fn sleep<R: Wait>(&self, rt: &R) {
        for _ in 0..LOOKS {
            // A hint, read without the lock: `is_rung` below decides, so a late value costs a sleep and loses no ring.
            if self.has_rung.load(Ordering::SeqCst) {
                break;
            }
            thread::yield_now();
        }
        // Tests and sleeps under one lock, so a ring between the test and the sleep isn't lost.
        let mut is_rung = self
            .rung
            .wait_while(rt, self.is_rung.lock(rt), |is_rung| !*is_rung);
        // The ring has been heard; the next sleep waits for the next one.
        *is_rung = false;
    }

    /// Sleeps until the bell rings or the time is up. A clock that can't be read ends the sleep.
    pub fn sleep_for<R: Wait, K: Clock>(&self, rt: &R, clock: &K, limit: Duration) {
        let timed = Timed { _rt: rt, clock };
        let guard = self.is_rung.lock(rt);
        // As in `sleep`.
        let (mut is_rung, _) = self
            .rung
            .wait_timeout_while(&timed, guard, limit, |is_rung| !*is_rung);
        *is_rung = false;
    }

    /// Rings the bell, which ends the thread's sleep, or its next one. It may wait for the bell's lock.
    pub fn ring<R: Wait>(&self, rt: &R) {
        // Before the lock, so that a thread that still looks stops looking. It is never cleared, since each wait makes a parker of its own.
        self.has_rung.store(true, Ordering::SeqCst);
        // Set under the lock and before the notification: a thread that has found it false is asleep when this thread gets the lock.
        *self.is_rung.lock(rt) = true;
        // One: no other thread sleeps here.
        self.rung.notify_one();
    }
}
