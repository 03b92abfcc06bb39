//! The rule of a table of words and slots: a slot is out exactly while its guard is won, by the one seat whose view says so.
//! Of all other words nothing is said. These types are for the proofs alone.

use atomic_table::{Play, TableRule};

/// The rule. Word i is the guard of slot i, and a seat's view is the slot that it holds.
pub(crate) struct GuardRule;

impl<T> TableRule<Option<T>, Option<u64>, ()> for GuardRule {
    ghost use Rattle.std.specs.Prelude.{None};
    ghost use Rattle.concurrent_queue.specs.machine.Guarded.{IsGuarded};

    ghost holds = { λ _. IsGuarded };

    ghost first = { λ _. None };
}

/// A new seat, which holds no slot.
pub(crate) struct Sit;

impl<T> Play<Option<T>, Option<u64>> for Sit {
    ghost use Rattle.concurrent_queue.specs.machine.Guarded.{sat};

    ghost then = { sat };
}

/// A step on a word that is no guard. Nothing is said of the word.
pub(crate) struct Look;

impl<T> Play<Option<T>, Option<u64>> for Look {
    ghost use Rattle.concurrent_queue.specs.machine.Guarded.{looked};

    ghost then = { looked };
}

/// The guard is won if it was 0, and its slot with it.
pub(crate) struct Win;

impl<T> Play<Option<T>, Option<u64>> for Win {
    ghost use Rattle.concurrent_queue.specs.machine.Guarded.{won};

    ghost then = { won };
}

/// The slot is put back and its guard is released.
pub(crate) struct Give;

impl<T> Play<Option<T>, Option<u64>> for Give {
    ghost use Rattle.concurrent_queue.specs.machine.Guarded.{gave};

    ghost then = { gave };
}
