//! Calls that may be no calls of this queue. A `QueueCall` is a plain value that may have been begun on another queue, so its step may be
//! any operation on any cell. The first such call sets a flag, once; from then on the rule covers the guards alone, and no history.

ghost use Rattle.std.specs.Prelude.{true, false, ◌≡◌, ◌<◌, ◌+◌, [], None, IfErr};
ghost use Rattle.concurrent_queue.specs.history.Shared.{slots_of, words_of};
ghost use Rattle.concurrent_queue.specs.declared.cells.QueueForm.TheVariants.{Bounded};

use crate::cells::{Cells, Slot, Word};
use crate::history::party::{OfQueue, Standing};
use crate::history::rule::{Comes, Gives, Passes, TurnsForeign, View, Wins};
use crate::history::table::{KitTable, RuledTable, flag_index, slot_index, word_index};
use crate::{NoMemory, QueueForm};
use atomic_table::Seat;

/// A seat of the table for foreign calls, used as the cells of such a call: every operation may be made, and nothing is known of the
/// contents. It holds no slot.
#[derive(Drop)]
pub struct ForeignSeat<'a, T> {
    pub(crate) table: &'a KitTable<T, Standing<T>, OfQueue>,
    pub(crate) seat: Seat<Option<T>, View<T, Standing<T>>>,
    ghost bounded: { table.now.shared.key ≡ Bounded table.now.shared.table_id.slots },
    ghost slots: { table.now.shared.table_id.slots ≡ slots_of table.now.shared.key },
    ghost words: { table.now.shared.table_id.words ≡ slots_of table.now.shared.key + words_of table.now.shared.key },
    ghost seated: { (seat.table_id ≡ table.now.shared.table_id) × (seat.me.0.form ≡ table.now.shared.key) },
    ghost free: { (seat.me.0.held ≡ None) × (seat.me.1 ≡ []) },
    ghost live: { seat.me.0.spent ≡ false },
    ghost foreign: { seat.me.0.foreign ≡ true },
}

impl<T> RuledTable<T, Standing<T>, OfQueue> {
    /// A seat for a foreign call. The first one of a table costs a load and a store, each later one a load.
    #[inline(always)]
    pub fn admit(&self) -> ForeignSeat<'_, T>
        ensures form { result.seat.me.0.form ≡ self.now.table.shared.key }
    {
        let at = flag_index(&self.table);
        // The load makes the seat and reads the flag.
        let (found, seat) = self.table.shared.load_new_seat::<Comes<OfQueue>>(at);
        let mut seat = seat;
        if found == 0 {
            // Before the first foreign operation: a look that still loads 0 must find the cells as the machines left them. A store
            // suffices: the flag is never cleared, and all write 1.
            self.table.shared.store::<TurnsForeign>(&mut seat, at, 1);
        }
        ForeignSeat {
            table: &self.table,
            seat,
        }
    }
}

impl<'a, T> ForeignSeat<'a, T> {
    /// Empties a slot that is there.
    #[inline(always)]
    fn take_from(&mut self, index: usize) -> Option<T>
        requires there { index < self.old.table.now.shared.table_id.slots }
        ensures form { self.new.seat.me.0.form ≡ self.old.seat.me.0.form }
    {
        let shared = &self.table.shared;
        // The guard is kept for foreign calls too: only its winner touches the slot, whatever the words hold.
        if shared.compare_exchange::<Wins>(&mut self.seat, index, 0, 1) != 0 {
            return None;
        }
        // The guard is won, so this access to the slot races with none.
        let found = shared.exchange(&mut self.seat, index, None);
        // After the access: the next winner of the guard finds the slot as it is left.
        shared.store::<Gives>(&mut self.seat, index, 0);
        found
    }

    /// Fills a slot that is there, if it is empty.
    #[inline(always)]
    fn put_into(&mut self, index: usize, value: T) -> Result<(), T>
        requires there { index < self.old.table.now.shared.table_id.slots }
        ensures back { IfErr result (λ back. back ≡ value) }
        ensures form { self.new.seat.me.0.form ≡ self.old.seat.me.0.form }
    {
        let shared = &self.table.shared;
        // As in `take_from`.
        if shared.compare_exchange::<Wins>(&mut self.seat, index, 0, 1) != 0 {
            return Err(value);
        }
        // The old content shows whether the slot was empty.
        match shared.exchange(&mut self.seat, index, Some(value)) {
            None => {
                shared.store::<Gives>(&mut self.seat, index, 0);
                Ok(())
            }
            Some(old) => {
                // The slot was full: put the old message back before the guard is released, so that nobody sees it missing.
                let back = shared.exchange(&mut self.seat, index, Some(old));
                shared.store::<Gives>(&mut self.seat, index, 0);
                match back {
                    Some(value) => Err(value),
                    None => unreachable!(),
                }
            }
        }
    }
}

impl<'a, T: Drop> Cells<T> for ForeignSeat<'a, T> {
    ghost use Rattle.std.specs.Prelude.{◌≡◌};
    ghost use Rattle.concurrent_queue.specs.Contents.{no_contents};

    ghost known = { ⊥ };

    ghost contents = { λ c. no_contents c.seat.me.0.form };

    ghost form_of = { λ c. c.seat.me.0.form };

    ghost did = { λ _ a b. b.seat.me.0.form ≡ a.seat.me.0.form };

    ghost may = { λ _ _. Unit {0} };

    ghost stands = { λ _ _. Unit {0} };

    ghost ready = { λ at s d r stands next. tt };

    ghost leads = { λ at s t d r stands done next. tt };

    ghost keeps_form = { λ _ a b kept. kept };

    ghost exact_form = { λ known. absurd known };

    ghost exact = { λ known. absurd known };

    #[inline(always)]
    fn form(&self) -> QueueForm {
        QueueForm::Bounded(self.table.slot_count())
    }

    #[inline(always)]
    fn load(&mut self, at: Word) -> u64 {
        match word_index(self.table, self.table.slot_count(), at) {
            // On words a foreign call may make any operation. It is one operation of the table, and no event of the history.
            Some(index) => self.table.shared.load::<Passes>(&mut self.seat, index),
            None => 0,
        }
    }

    #[inline(always)]
    fn store(&mut self, at: Word, value: u64) {
        if let Some(index) = word_index(self.table, self.table.slot_count(), at) {
            self.table
                .shared
                .store::<Passes>(&mut self.seat, index, value);
        }
    }

    #[inline(always)]
    fn compare_exchange(&mut self, at: Word, expected: u64, next: u64) -> Result<u64, u64> {
        let found = match word_index(self.table, self.table.slot_count(), at) {
            Some(index) => self
                .table
                .shared
                .compare_exchange::<Passes>(&mut self.seat, index, expected, next),
            None => 0,
        };
        if found == expected {
            Ok(found)
        } else {
            Err(found)
        }
    }

    #[inline(always)]
    fn fetch_add(&mut self, at: Word, by: u64) -> u64 {
        match word_index(self.table, self.table.slot_count(), at) {
            Some(index) => self
                .table
                .shared
                .fetch_add::<Passes>(&mut self.seat, index, by),
            None => 0,
        }
    }

    #[inline(always)]
    fn fetch_or(&mut self, at: Word, bits: u64) -> u64 {
        match word_index(self.table, self.table.slot_count(), at) {
            Some(index) => self
                .table
                .shared
                .fetch_or::<Passes>(&mut self.seat, index, bits),
            None => 0,
        }
    }

    #[inline(always)]
    fn fetch_and(&mut self, at: Word, bits: u64) -> u64 {
        match word_index(self.table, self.table.slot_count(), at) {
            Some(index) => self
                .table
                .shared
                .fetch_and::<Passes>(&mut self.seat, index, bits),
            None => 0,
        }
    }

    #[inline(always)]
    fn take(&mut self, at: Slot) -> Option<T> {
        match slot_index(self.table, self.table.slot_count(), at) {
            Some(index) => self.take_from(index),
            None => None,
        }
    }

    #[inline(always)]
    fn put(&mut self, at: Slot, value: T) -> Result<(), T> {
        match slot_index(self.table, self.table.slot_count(), at) {
            Some(index) => self.put_into(index, value),
            None => Err(value),
        }
    }

    /// There are no blocks.
    fn spare(&mut self) -> Result<u64, NoMemory> {
        Err(NoMemory)
    }

    /// There are no blocks.
    fn retire(&mut self, _block: u64) {}
}
