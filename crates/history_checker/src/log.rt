//! What the calls of one thread did, with the stamps between which they did it.

use crate::point::{Did, Point, Sight};
use std::alloc::Global;
use std::sync::atomic::{AtomicU64, Ordering};

/// One counter for all threads. A call that ended before another one began has the lesser stamps.
#[derive(Drop)]
pub struct Stamps {
    next: AtomicU64,
}

impl Stamps {
    /// Whose first stamp is 0.
    pub fn new() -> Stamps {
        Stamps {
            next: AtomicU64::new(0),
        }
    }

    /// How many were taken.
    pub fn taken(&self) -> u64 {
        self.next.load(Ordering::SeqCst)
    }

    /// The next stamp.
    pub fn stamp(&self) -> u64 {
        self.next.fetch_add(1, Ordering::SeqCst)
    }
}

/// What happened between these stamps.
#[derive(Clone, Copy, PartialEq, Eq, Debug)]
pub struct Moment {
    /// The stamp of the call's begin.
    pub begin: u64,
    /// The stamp of its end.
    pub end: u64,
    /// What happened.
    pub point: Point,
}

/// What the calls of one thread did, in their order.
#[derive(Drop)]
pub struct Log {
    /// The moments of all calls.
    pub moments: Vec<Moment>,
    /// Whether a call answered what none may, or memory was refused.
    pub spoiled: bool,
}

impl Log {
    /// Of a thread that has made no call.
    pub fn new(alloc: Global) -> Log {
        Log {
            moments: Vec::new(alloc),
            spoiled: false,
        }
    }

    fn add(&mut self, begin: u64, end: u64, point: Point) {
        let moment = Moment { begin, end, point };
        if self.moments.push(moment).is_err() {
            self.spoiled = true;
        }
    }

    /// A call did this between these stamps.
    pub fn note(&mut self, begin: u64, end: u64, did: Did) {
        match did {
            Did::Nothing => {}
            Did::Once(point) => self.add(begin, end, point),
            Did::Twice(first, second) => {
                self.add(begin, end, first);
                self.add(begin, end, second);
            }
            Did::Thrice(first, second, third) => {
                self.add(begin, end, first);
                self.add(begin, end, second);
                self.add(begin, end, third);
            }
            Did::Never => self.spoiled = true,
        }
    }

    /// A call that may take so many messages took these between these stamps, in this order. It took each at a moment of its
    /// own, so others may come between; where it took fewer than it may, it found nothing there after the last one, and nothing
    /// on its way. No call takes more, or none where it may take some.
    pub fn note_taken(&mut self, begin: u64, end: u64, limit: usize, taken: &[u64]) {
        let count = taken.len();
        if count > limit || (count == 0 && limit > 0) {
            self.spoiled = true;
        }
        for message in taken {
            self.add(begin, end, Point::Take(*message));
        }
        if count < limit {
            self.add(begin, end, Point::Sees(Sight::Over));
        }
    }
}
