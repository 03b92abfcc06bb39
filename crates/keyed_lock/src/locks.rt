//! The locks, and the right to give a value back. The table owns the values; a thread owns one only between `take` and [`Taken::give`].

ghost use Rattle.std.specs.Prelude.{◌≡◌, ◌*◌, ◌^◌, ◌<◌, ◌≤◌, ℕ, None, Some, length, map, IfOk};
ghost use Rattle.keyed_lock.specs.Locked.{HasLock, KeepsFrom, holds};

use crate::rule::{Keeps, LockSeat, LockTable};
use crate::word::{FREE, STRIDE, put_back, wait};
use atomic_table::Table;
use std::alloc::{AllocError, Global};
use std::marker::Model;
use std::sync::Wait;

/// N values that threads share, each of them one thread at a time. Contracts see the locks as their key.
#[derive(Drop)]
pub struct KeyedLocks<X, K, I: Keeps<X, K>, const N: usize> {
    table: LockTable<X, K, I>,
}

impl<X, K, I: Keeps<X, K>, const N: usize> Model for KeyedLocks<X, K, I, N> {
    ghost Value = { K };

    ghost view = { λ l. l.table.shared.key };

    ghost invariant = { λ l. (l.table.shared.table_id.slots ≡ N) × (16 * N ≤ l.table.shared.table_id.words) × (16 * N < 2 ^ 64) };
}

/// The value of a lock was taken, and has to be given back: a `Taken` can't be dropped. Contracts see it as the key of the locks and
/// the number of the lock.
pub struct Taken<'a, X, K, I: Keeps<X, K>> {
    table: &'a LockTable<X, K, I>,
    seat: LockSeat<X, K>,
    which: usize,
    ghost lock: { HasLock table.now.shared.table_id which },
    ghost here: { seat.table_id ≡ table.now.shared.table_id },
    ghost has: { seat.me ≡ holds table.now.shared.key which None },
}

impl<'a, X, K, I: Keeps<X, K>> Model for Taken<'a, X, K, I> {
    ghost Value = { K × ℕ };

    ghost view = { λ t. (t.table.now.shared.key, t.which) };

    ghost invariant = { λ t. Unit {0} };
}

impl<X, K, I: Keeps<X, K>, const N: usize> KeyedLocks<X, K, I, N> {
    /// Locks with these values, each of which keeps the fact about this key and its number. `Err` for want of memory; the values are then
    /// dropped.
    pub fn new(
        alloc: Global,
        values: [X; N],
        about: &K,
    ) -> Result<KeyedLocks<X, K, I, N>, AllocError>
    where
        X: Drop,
        requires { KeepsFrom (I.keeps about.now) 0 values }
        ensures { IfOk result (λ l. l ≡ about.now) }
    {
        let Some(count) = N.checked_mul(STRIDE) else {
            return Err(AllocError);
        };
        let mut words = Vec::new(alloc);
        words.resize(count, FREE)?;
        let slots = at_home(alloc, values)?;
        match Table::new(alloc, &words, slots, about) {
            Ok((table, _seat)) => Ok(KeyedLocks { table }),
            Err(refused) => {
                drop(refused);
                Err(AllocError)
            }
        }
    }

    /// Takes the value of lock `which`. It may wait until no other thread has that value. A thread that already has it waits for ever.
    pub fn take<R: Wait>(&self, rt: &R, which: usize) -> (X, Taken<'_, X, K, I>)
        requires { which < N }
        ensures keeps { I.keeps self.now which result.0 }
        ensures lock { result.1 ≡ (self.now, which) }
    {
        let (value, seat) = wait(rt, &self.table.shared, which);
        (
            value,
            Taken {
                table: &self.table,
                seat,
                which,
            },
        )
    }
}

/// A row of slots, each with its value.
fn at_home<X: Drop, const N: usize>(
    alloc: Global,
    values: [X; N],
) -> Result<Vec<Option<X>>, AllocError>
    ensures items { IfOk result (λ v. v.items ≡ map Some values) }
    ensures count { IfOk result (λ v. length v.items ≡ N) }
{
    let values = Vec::from_array(alloc, values)?;
    let mut slots = Vec::with_capacity(alloc, N)?;
    for value in values {
        slots.push_reserved(Some(value));
    }
    Ok(slots)
}

impl<'a, X, K, I: Keeps<X, K>> Taken<'a, X, K, I> {
    /// Returns a value that keeps the fact too: the one that was taken, or another one. If a thread sleeps until the lock is free, this
    /// wakes it. It never waits.
    pub fn give(self, value: X)
        requires { I.keeps self.0 self.1 value }
    {
        let Taken {
            table,
            mut seat,
            which,
        } = self;
        put_back(&table.shared, &mut seat, which, value);
    }
}
