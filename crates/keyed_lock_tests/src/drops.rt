//! Values that are dropped with their locks, or where there is no memory for the locks.

use keyed_lock::{Keeps, KeyedLocks};
use std::alloc::Global;
use std::sync::atomic::{AtomicUsize, Ordering};

/// Says when it is dropped.
struct Heard<'a> {
    drops: &'a AtomicUsize,
}

impl<'a> Drop for Heard<'a> {
    fn drop(self) {
        let Heard { drops } = self;
        drops.fetch_add(1, Ordering::SeqCst);
    }
}

/// Any value will do.
struct Anything;

impl<X> Keeps<X, ()> for Anything {
    ghost keeps = { λ _ _ _. Unit {0} };
}

/// Three values behind locks, or refused for memory. How many are dropped with them.
pub fn drops_of_three(alloc: Global) -> usize {
    let drops = AtomicUsize::new(0);
    let heard = || Heard { drops: &drops };
    let made = KeyedLocks::<_, _, Anything, 3>::new(alloc, [heard(), heard(), heard()], &());
    drop(made);
    drops.load(Ordering::SeqCst)
}
