//! The rule of the table in which the locks lie, and what each step on it tells. All of this is for the proofs alone.

ghost use Rattle.std.specs.Prelude.{None};
ghost use Rattle.keyed_lock.specs.Locked.{turn};

use atomic_table::{Play, Seat, Shared, Table, TableRule};
use std::alloc::Global;
use std::marker::PhantomData;

/// The fact that the value of a lock keeps.
pub trait Keeps<X, K> {
    ghost use Rattle.std.specs.Prelude.{ℕ};

    // Of the key of the locks, the number of the lock and the value.
    ghost keeps: { K → ℕ → X → Type 0 };
}

/// What a seat knows: the key, and which lock's value it has. No value is made.
pub(crate) struct Turn<K> {
    pub about: K,
    pub has: Option<u64>,
}

/// The rule: a value is in its slot, and keeps the fact, exactly while its lock's word is 0. While it is 1 or 2 one seat has the value.
pub(crate) struct Ruled<I> {
    of: PhantomData<I>,
}

impl<X, K, I: Keeps<X, K>> TableRule<Option<X>, Turn<K>, K> for Ruled<I> {
    ghost use Rattle.keyed_lock.specs.Locked.{AreLocks};

    ghost holds = { λ k s. AreLocks I.keeps k s };

    ghost first = { λ k. turn k None };
}

/// A thread takes a seat.
pub(crate) struct Sits;

impl<X, K> Play<Option<X>, Turn<K>> for Sits {
    ghost use Rattle.keyed_lock.specs.Locked.{sits};

    ghost then = { sits };
}

/// The seat has the value of the lock, if the word was 0.
pub(crate) struct Takes<I> {
    of: PhantomData<I>,
}

impl<X, K, I: Keeps<X, K>> Play<Option<X>, Turn<K>> for Takes<I> {
    ghost use Rattle.keyed_lock.specs.Locked.{takes_it};

    ghost then = { takes_it I.keeps };
}

/// The seat has given it back.
pub(crate) struct Gives;

impl<X, K> Play<Option<X>, Turn<K>> for Gives {
    ghost use Rattle.keyed_lock.specs.Locked.{gives_it};

    ghost then = { gives_it };
}

pub(crate) type LockTable<X, K, I> = Table<Option<X>, Turn<K>, K, Ruled<I>, Global>;

pub(crate) type SharedLocks<X, K, I> = Shared<Option<X>, Turn<K>, K, Ruled<I>>;

pub(crate) type LockSeat<X, K> = Seat<Option<X>, Turn<K>>;
