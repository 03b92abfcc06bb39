//! What is counted while threads are at work, and the watchdog that ends a run which stands still.

use std::rt::Clock;
use std::sync::Wait;
use std::sync::atomic::{AtomicU64, Ordering};
use std::thread;
use std::time::Duration;

/// How many milliseconds the watchdog sleeps between two looks, and at how many looks in a row nothing may have moved.
const PAUSE: u64 = 5;

const STILL: u64 = 3_000;

/// A number that threads share.
#[derive(Drop)]
pub struct Count {
    number: AtomicU64,
}

impl Count {
    fn new() -> Count {
        Count {
            number: AtomicU64::new(0),
        }
    }

    /// One more.
    pub fn raise(&self) {
        self.number.fetch_add(1, Ordering::SeqCst);
    }

    /// The number.
    pub fn get(&self) -> u64 {
        self.number.load(Ordering::SeqCst)
    }
}

/// What is counted: messages made, taken out and let go, sends and receives begun and ended, threads that have ended.
#[derive(Drop)]
pub struct Watch {
    pub made: Count,
    pub taken: Count,
    pub gone: Count,
    pub sends_begun: Count,
    pub sends_ended: Count,
    pub receives_begun: Count,
    pub receives_ended: Count,
    pub threads_ended: Count,
}

impl Watch {
    /// In which nothing has moved yet.
    pub fn new() -> Watch {
        Watch {
            made: Count::new(),
            taken: Count::new(),
            gone: Count::new(),
            sends_begun: Count::new(),
            sends_ended: Count::new(),
            receives_begun: Count::new(),
            receives_ended: Count::new(),
            threads_ended: Count::new(),
        }
    }

    /// A number that grows as long as anything moves.
    fn moved(&self) -> u64 {
        self.sends_ended
            .get()
            .wrapping_add(self.receives_ended.get())
            .wrapping_add(self.threads_ended.get())
    }

    /// Waits until one of the counts is this: true; false once nothing has moved for fifteen seconds.
    pub fn wait_for<R: Wait + Clock>(&self, rt: &R, count: &Count, end: u64) -> bool {
        let mut last = 0;
        let mut still = 0u64;
        for _ in rt.forever() {
            if count.get() == end {
                return true;
            }
            if still == STILL {
                return false;
            }
            let moved = self.moved();
            still = if moved == last {
                still.wrapping_add(1)
            } else {
                0
            };
            last = moved;
            thread::sleep(rt, Duration::from_millis(PAUSE));
        }
        unreachable!()
    }

    /// How many sends are under way.
    pub fn sending(&self) -> u64 {
        self.sends_begun.get().wrapping_sub(self.sends_ended.get())
    }

    /// How many receives are under way.
    pub fn receiving(&self) -> u64 {
        self.receives_begun
            .get()
            .wrapping_sub(self.receives_ended.get())
    }
}
