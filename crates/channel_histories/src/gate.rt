//! Where the threads of a history wait for each other.

use std::hint;
use std::sync::atomic::{AtomicU64, Ordering};
use std::sync::{Condvar, Mutex, Wait};

/// How often a thread that may go on looks whether all others go on too, so that they begin together. More looks would only take
/// time where other programs keep threads off the processors.
const LOOKS: usize = 2_000;

/// How often a thread came here, and how often one went on.
#[derive(Drop)]
pub struct Gate {
    came: Mutex<u64>,
    all: Condvar,
    gone_on: AtomicU64,
}

impl Gate {
    /// To which no thread has come.
    pub fn new() -> Gate {
        Gate {
            came: Mutex::new(0),
            all: Condvar::new(),
            gone_on: AtomicU64::new(0),
        }
    }

    /// Comes here, and sleeps until there were so many comings.
    fn sleep<R: Wait>(&self, rt: &R, comings: u64) {
        let mut came = self.came.lock(rt);
        *came = came.wrapping_add(1);
        if *came >= comings {
            self.all.notify_all();
        }
        let _guard = self.all.wait_while(rt, came, |came| *came < comings);
    }

    /// Waits until there were so many comings.
    pub fn pass<R: Wait>(&self, rt: &R, comings: u64) {
        self.sleep(rt, comings);
        self.gone_on.fetch_add(1, Ordering::SeqCst);
        for _ in 0..LOOKS {
            if self.gone_on.load(Ordering::SeqCst) >= comings {
                return;
            }
            hint::spin_loop();
        }
    }
}
