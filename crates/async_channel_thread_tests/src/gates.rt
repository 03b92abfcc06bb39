//! Gates between threads, in the place of the sleeps that the same tests of `async-channel` 2.5.0 have.

use std::sync::{Condvar, Mutex, Wait};

/// A row of gates, numbered from 1, of which the first ones are open.
#[derive(Drop)]
pub(crate) struct Gates {
    open: Mutex<u32>,
    more: Condvar,
}

impl Gates {
    /// Gates that are all shut.
    pub(crate) fn new() -> Gates {
        Gates {
            open: Mutex::new(0),
            more: Condvar::new(),
        }
    }

    /// Opens this gate, and those before it.
    pub(crate) fn open<R: Wait>(&self, rt: &R, gate: u32) {
        self.widen(rt, gate, 0);
        self.more.notify_all();
    }

    /// Opens the next gate, and waits until this one is open.
    pub(crate) fn meet<R: Wait>(&self, rt: &R, gate: u32) {
        self.widen(rt, 0, 1);
        self.more.notify_all();
        self.pass(rt, gate);
    }

    /// The gates up to this one are open, if they weren't, and so many more.
    fn widen<R: Wait>(&self, rt: &R, gate: u32, more: u32) {
        let mut open = self.open.lock(rt);
        if *open < gate {
            *open = gate;
        }
        *open = open.saturating_add(more);
    }

    /// Waits until this gate is open.
    pub(crate) fn pass<R: Wait>(&self, rt: &R, gate: u32) {
        let _guard = self
            .more
            .wait_while(rt, self.open.lock(rt), |open| *open < gate);
    }
}
