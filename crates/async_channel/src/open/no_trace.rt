//! A trace that keeps nothing.
//!
//! # Extensions
//!
//! All of this module.

use crate::seen::{Shown, Sight, Trace};
use crate::with_bound::Witness;
use concurrent_queue::cells::Slot;
use concurrent_queue::seen as queue;

/// The trace of a channel that was opened without one: it keeps nothing. It has no size, and reporting to it takes no instruction. Only the
/// opening of a channel makes one.
#[derive(Clone, Copy, Debug)]
pub struct NoTrace {
    nothing: (),
}

impl NoTrace {
    #[inline(always)]
    pub(super) fn new() -> NoTrace {
        NoTrace { nothing: () }
    }
}

impl<T> queue::Trace<T> for NoTrace {
    ghost did = { λ _ _ _. Unit {0} };

    ghost brought = { λ _ _ _ _. Unit {0} };

    #[inline(always)]
    fn operated(&mut self, _sight: &queue::Sight<NoTrace>, _it: queue::Shown) {}

    #[inline(always)]
    fn bring(&mut self, _sight: &queue::Sight<NoTrace>, _at: Slot, _message: &T) {}

    #[inline(always)]
    fn taken(&mut self, _sight: &queue::Sight<NoTrace>, _at: Slot, _found: &Option<T>) {}
}

impl<T: Drop> Trace<T> for NoTrace {
    ghost entered = { λ _ _ _. Unit {0} };

    ghost shown = { λ _ _ _. Unit {0} };

    ghost offering = { λ _ _ _ _ _. Unit {0} };

    ghost parked = { λ _ _ _. Unit {0} };

    ghost slept = { λ _ _. Unit {0} };

    ghost called = { λ _. Unit {0} };

    #[inline(always)]
    fn saw(&mut self, _sight: &Sight<NoTrace>, _it: Shown<'_>) {}

    #[inline(always)]
    fn heard(&self, _sight: &Sight<NoTrace>, _call: Witness<T>)
        ensures { Unit {0} }
    {}
}
