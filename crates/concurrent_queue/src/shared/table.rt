//! Words and slots that threads share, by their indices, for unbounded queues. The invariant: a slot is out of the table only while its
//! guard is 1, and then with the seat that set it; of all other words nothing is known. The machine (`unbounded`) has the reason for each
//! operation on a word.

ghost use Rattle.std.specs.Prelude.{◌≡◌, ◌<◌, ◌≤◌, ◌+◌, ◌*◌, [], None, IfSome, IfErr, IfOk, length};
ghost use Rattle.concurrent_queue.specs.machine.Guarded.{AreFree};

use crate::shared::guard::{Give, GuardRule, Look, Sit, Win};
use atomic_table::{Seat, Table};
use std::alloc::{AllocError, Global};

/// A place from which a thread steps on a table. It knows which slot it holds.
type GuardSeat<T> = Seat<Option<T>, Option<u64>>;

type GuardTable<T> = Table<Option<T>, Option<u64>, (), GuardRule, Global>;

/// Words that lie so far apart share no cache line.
pub(crate) const APART: usize = 16;

/// How many words each table has at least, so that the first of them are found with no test.
const LEAST: usize = 18;

/// Words and slots of a queue or of one of its blocks. In front of the words the table has a guard for each slot, which is 1 while some
/// seat holds the slot.
#[derive(Drop)]
pub(crate) struct SharedTable<T> {
    table: GuardTable<T>,
    ghost wide: { table.shared.table_id.slots + 18 ≤ table.shared.table_id.words },
}

/// The same, with a seat that holds no slot.
#[derive(Drop)]
pub(crate) struct SeatedTable<'a, T> {
    table: &'a GuardTable<T>,
    seat: GuardSeat<T>,
    ghost wide: { table.now.shared.table_id.slots + 18 ≤ table.now.shared.table_id.words },
    ghost seated: { (seat.table_id ≡ table.now.shared.table_id) × (seat.me ≡ (None, [])) },
}

/// All words of a new table: the guards, then so many words, and more if they are few. All are 0.
fn first_words(alloc: Global, slots: usize, words: usize) -> Result<Vec<u64>, AllocError>
    ensures { IfOk result (λ v. (slots + 18 ≤ length v.items) × AreFree slots v.items) }
{
    let Some(all) = slots.checked_add(words.max(LEAST)) else {
        return Err(AllocError);
    };
    let mut first = Vec::with_capacity(alloc, all)?;
    for place in 0..all {
        first.push(0)?;
    }
    Ok(first)
}

impl<T> SharedTable<T> {
    /// A table of so many words, which hold 0, and of so many empty slots.
    pub(crate) fn new(
        alloc: Global,
        slots: usize,
        words: usize,
    ) -> Result<SharedTable<T>, AllocError> {
        let first = first_words(alloc, slots, words)?;
        let (table, _seat) = Table::vacant(alloc, first.as_slice(), slots, &())?;
        Ok(SharedTable { table })
    }

    /// A new seat. It costs one load.
    #[inline(always)]
    pub(crate) fn seat(&self) -> SeatedTable<'_, T> {
        let slots = self.table.slot_count();
        SeatedTable {
            table: &self.table,
            // The load makes the seat; what it finds isn't used.
            seat: self.table.shared.load_new_seat::<Sit>(slots).1,
        }
    }
}

impl<'a, T> SeatedTable<'a, T> {
    /// The index of a word in the table, if it is there.
    #[inline(always)]
    fn place(&self, word: usize) -> Option<usize>
        ensures { IfSome result
            (λ i. (self.now.table.now.shared.table_id.slots ≤ i) × (i < self.now.table.now.shared.table_id.words) × (i ≡ self.now.table.now.shared.table_id.slots + word)) }
    {
        let first = self.table.slot_count();
        let end = self.table.word_count();
        if word < LEAST {
            return Some(first + word);
        }
        if word < end - first {
            Some(first + word)
        } else {
            None
        }
    }

    /// What the word holds; 0 if there is none.
    #[inline(always)]
    pub(crate) fn load(&mut self, word: usize) -> u64 {
        match self.place(word) {
            Some(at) => self.table.shared.load::<Look>(&mut self.seat, at),
            None => 0,
        }
    }

    /// Writes the word, if there is one.
    #[inline(always)]
    pub(crate) fn store(&mut self, word: usize, value: u64) {
        if let Some(at) = self.place(word) {
            self.table.shared.store::<Look>(&mut self.seat, at, value);
        }
    }

    /// Writes `next` if the word holds `expected`; otherwise `Err` with what it holds.
    #[inline(always)]
    pub(crate) fn compare_exchange(
        &mut self,
        word: usize,
        expected: u64,
        next: u64,
    ) -> Result<u64, u64> {
        let found = match self.place(word) {
            Some(at) => self
                .table
                .shared
                .compare_exchange::<Look>(&mut self.seat, at, expected, next),
            None => 0,
        };
        if found == expected {
            Ok(found)
        } else {
            Err(found)
        }
    }

    /// Adds to the word, and answers what it held.
    #[inline(always)]
    pub(crate) fn fetch_add(&mut self, word: usize, by: u64) -> u64 {
        match self.place(word) {
            Some(at) => self.table.shared.fetch_add::<Look>(&mut self.seat, at, by),
            None => 0,
        }
    }

    /// Sets these bits of the word, and answers what it held.
    #[inline(always)]
    pub(crate) fn fetch_or(&mut self, word: usize, bits: u64) -> u64 {
        match self.place(word) {
            Some(at) => self.table.shared.fetch_or::<Look>(&mut self.seat, at, bits),
            None => 0,
        }
    }

    /// Keeps these bits of the word and clears all others, and answers what it held.
    #[inline(always)]
    pub(crate) fn fetch_and(&mut self, word: usize, bits: u64) -> u64 {
        match self.place(word) {
            Some(at) => self
                .table
                .shared
                .fetch_and::<Look>(&mut self.seat, at, bits),
            None => 0,
        }
    }

    /// Fills an empty slot. `Err` returns the message: the slot is full, another seat holds it, or it isn't there.
    #[inline(always)]
    pub(crate) fn put(&mut self, slot: usize, value: T) -> Result<(), T>
        ensures { IfErr result (λ back. back ≡ value) }
    {
        if slot >= self.table.slot_count() {
            return Err(value);
        }
        let shared = &self.table.shared;
        // An exchange from 0: only one seat wins the guard. Without a guard, a call that was begun on another queue could touch a slot together
        // with its owner.
        if shared.compare_exchange::<Win>(&mut self.seat, slot, 0, 1) != 0 {
            return Err(value);
        }
        // The guard is won, so this access to the slot races with none.
        match shared.exchange(&mut self.seat, slot, Some(value)) {
            None => {
                // After the access: the next winner of the guard finds the slot as it is left.
                shared.store::<Give>(&mut self.seat, slot, 0);
                Ok(())
            }
            full => {
                // The slot was full: put the old message back before the guard is released, so that nobody sees it missing.
                let back = shared.exchange(&mut self.seat, slot, full);
                shared.store::<Give>(&mut self.seat, slot, 0);
                match back {
                    Some(value) => Err(value),
                    None => unreachable!(),
                }
            }
        }
    }

    /// Empties a slot. `None`: it is empty, another seat holds it, or it isn't there.
    #[inline(always)]
    pub(crate) fn take(&mut self, slot: usize) -> Option<T> {
        if slot >= self.table.slot_count() {
            return None;
        }
        let shared = &self.table.shared;
        // As in `put`.
        if shared.compare_exchange::<Win>(&mut self.seat, slot, 0, 1) != 0 {
            return None;
        }
        let found = shared.exchange(&mut self.seat, slot, None);
        // After the access, as in `put`.
        shared.store::<Give>(&mut self.seat, slot, 0);
        found
    }
}
