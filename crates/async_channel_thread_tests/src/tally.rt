//! How often each number came, counted by all threads together.

use std::alloc::Global;
use std::sync::atomic::{AtomicU32, Ordering};

/// A count for each number below a limit.
#[derive(Drop)]
pub(crate) struct Tally {
    seen: Vec<AtomicU32>,
}

impl Tally {
    /// Nothing has come yet. `None` where memory was refused.
    pub(crate) fn new(alloc: Global, limit: u64) -> Option<Tally> {
        let mut seen = Vec::new(alloc);
        for _ in 0..limit {
            seen.push(AtomicU32::new(0)).ok()?;
        }
        Some(Tally { seen })
    }

    /// Notes this number; false where it is past the limit.
    pub(crate) fn note(&self, number: u64) -> bool {
        match self.seen.get(number as usize) {
            Some(seen) => {
                seen.fetch_add(1, Ordering::SeqCst);
                true
            }
            None => false,
        }
    }

    /// Whether each number came so often.
    pub(crate) fn all_are(&self, times: u32) -> bool {
        let mut right = true;
        for seen in self.seen.iter() {
            right = right & (seen.load(Ordering::SeqCst) == times);
        }
        right
    }

    /// Whether the first `first` numbers and the first `second` ones from `from` on came once each, and no other came.
    pub(crate) fn are_once(&self, first: u64, from: u64, second: u64) -> bool {
        let mut right = true;
        let mut number = 0u64;
        for seen in self.seen.iter() {
            let is_first = number < first;
            let is_second = number >= from && number.wrapping_sub(from) < second;
            right = right & (seen.load(Ordering::SeqCst) == u32::from(is_first || is_second));
            number = number.wrapping_add(1);
        }
        right
    }
}
