//! Steps on a block's words.
ghost use Rattle.std.specs.Prelude.{◌≡◌, ◌+◌, ◌%◌, ◌^◌, ◌<◌, ◌==◌, bit_and, bit_or};
ghost use prog.Atomic.{either};
ghost use Rattle.growing_table.specs.State.{Allows, step, within};
ghost use Rattle.growing_table.specs.Seats.{about, me_of, number_of, Sits, Follows, Finds};

use crate::bits;
use crate::plays::OnBlock;
use crate::rule::{GrowingRule, Play};
use crate::seat::{GrowingSeat, Place};
use crate::table::GrowingTable;
use std::alloc::Allocator;

impl<T, V, K, P: GrowingRule<T, V, K>, A: Allocator> GrowingTable<T, V, K, P, A> {
    /// Reads a word of a block.
    pub fn load_in<M: Play<Option<T>, V>>(
        &self,
        seat: &mut GrowingSeat<T, V, A>,
        place: Place<T>,
        word: usize,
    ) -> u64
        requires seat { Sits self.now seat.old × Finds seat.old place × (word < self.now.cells) }
        requires rule { Allows (P.holds (about self.now)) (number_of seat.old) (me_of seat.old) (within place.number word) (λ n. n) (M.then (step (within place.number word) 0 0) (me_of seat.old)) }
        ensures same { Follows seat.old seat.new }
        ensures told { M.then (step (within place.number word) 0 0) (me_of seat.old) result (me_of seat.new) }
    {
        self.rows
            .load::<OnBlock<M>>(&mut seat.seat, place.number + 2, place.link, word)
    }

    /// Writes a word of a block.
    pub fn store_in<M: Play<Option<T>, V>>(
        &self,
        seat: &mut GrowingSeat<T, V, A>,
        place: Place<T>,
        word: usize,
        new: u64,
    )
        requires seat { Sits self.now seat.old × Finds seat.old place × (word < self.now.cells) }
        requires rule { Allows (P.holds (about self.now)) (number_of seat.old) (me_of seat.old) (within place.number word) (λ _. new) (λ _. M.then (step (within place.number word) new 0) (me_of seat.old) new) }
        ensures same { Follows seat.old seat.new }
        ensures told { M.then (step (within place.number word) new 0) (me_of seat.old) new (me_of seat.new) }
    {
        self.rows
            .store::<OnBlock<M>>(&mut seat.seat, place.number + 2, place.link, word, new);
    }

    /// Writes a word of a block where `old` is found there. Returns what was found.
    pub fn compare_exchange_in<M: Play<Option<T>, V>>(
        &self,
        seat: &mut GrowingSeat<T, V, A>,
        place: Place<T>,
        word: usize,
        old: u64,
        new: u64,
    ) -> u64
        requires seat { Sits self.now seat.old × Finds seat.old place × (word < self.now.cells) }
        requires rule { Allows (P.holds (about self.now)) (number_of seat.old) (me_of seat.old) (within place.number word) (λ n. either (n == old) new n) (M.then (step (within place.number word) old new) (me_of seat.old)) }
        ensures same { Follows seat.old seat.new }
        ensures told { M.then (step (within place.number word) old new) (me_of seat.old) result (me_of seat.new) }
    {
        self.rows.compare_exchange::<OnBlock<M>>(
            &mut seat.seat,
            place.number + 2,
            place.link,
            word,
            old,
            new,
        )
    }

    /// Adds to a word of a block; the sum wraps. Returns what was found.
    pub fn fetch_add_in<M: Play<Option<T>, V>>(
        &self,
        seat: &mut GrowingSeat<T, V, A>,
        place: Place<T>,
        word: usize,
        by: u64,
    ) -> u64
        requires seat { Sits self.now seat.old × Finds seat.old place × (word < self.now.cells) }
        requires rule { Allows (P.holds (about self.now)) (number_of seat.old) (me_of seat.old) (within place.number word) (λ n. (n + by) % 2 ^ 64) (M.then (step (within place.number word) by 0) (me_of seat.old)) }
        ensures same { Follows seat.old seat.new }
        ensures told { M.then (step (within place.number word) by 0) (me_of seat.old) result (me_of seat.new) }
    {
        self.rows
            .fetch_add::<OnBlock<M>>(&mut seat.seat, place.number + 2, place.link, word, by)
    }

    /// Sets bits of a word of a block. Returns what was found.
    pub fn fetch_or_in<M: Play<Option<T>, V>>(
        &self,
        seat: &mut GrowingSeat<T, V, A>,
        place: Place<T>,
        word: usize,
        bits: u64,
    ) -> u64
        requires seat { Sits self.now seat.old × Finds seat.old place × (word < self.now.cells) }
        requires rule { Allows (P.holds (about self.now)) (number_of seat.old) (me_of seat.old) (within place.number word) (λ n. bit_or n bits) (M.then (step (within place.number word) bits 0) (me_of seat.old)) }
        ensures same { Follows seat.old seat.new }
        ensures told { M.then (step (within place.number word) bits 0) (me_of seat.old) result (me_of seat.new) }
    {
        bits::fetch_or::<_, _, _, _, _, OnBlock<M>>(
            &self.rows,
            &mut seat.seat,
            place.number + 2,
            place.link,
            word,
            bits,
        )
    }

    /// Keeps these bits of a word of a block and clears all others. Returns what was found.
    pub fn fetch_and_in<M: Play<Option<T>, V>>(
        &self,
        seat: &mut GrowingSeat<T, V, A>,
        place: Place<T>,
        word: usize,
        bits: u64,
    ) -> u64
        requires seat { Sits self.now seat.old × Finds seat.old place × (word < self.now.cells) }
        requires rule { Allows (P.holds (about self.now)) (number_of seat.old) (me_of seat.old) (within place.number word) (λ n. bit_and n bits) (M.then (step (within place.number word) bits 0) (me_of seat.old)) }
        ensures same { Follows seat.old seat.new }
        ensures told { M.then (step (within place.number word) bits 0) (me_of seat.old) result (me_of seat.new) }
    {
        bits::fetch_and::<_, _, _, _, _, OnBlock<M>>(
            &self.rows,
            &mut seat.seat,
            place.number + 2,
            place.link,
            word,
            bits,
        )
    }
}
