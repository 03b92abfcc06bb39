//! Steps on the table's own words.
ghost use Rattle.std.specs.Prelude.{◌≡◌, ◌+◌, ◌%◌, ◌^◌, ◌<◌, ◌==◌, bit_and, bit_or};
ghost use prog.Atomic.{either};
ghost use Rattle.growing_table.specs.State.{Allows, step, own};
ghost use Rattle.growing_table.specs.Seats.{about, me_of, number_of, Sits, Follows};

use crate::bits;
use crate::plays::OnOwn;
use crate::rule::{GrowingRule, Play};
use crate::seat::GrowingSeat;
use crate::table::GrowingTable;
use std::alloc::Allocator;

// The row of the table's own words.
const ROOT: u64 = 0;

impl<T, V, K, P: GrowingRule<T, V, K>, A: Allocator> GrowingTable<T, V, K, P, A> {
    /// Reads a word of the table's own.
    pub fn load<M: Play<Option<T>, V>>(&self, seat: &mut GrowingSeat<T, V, A>, word: usize) -> u64
        requires seat { Sits self.now seat.old × (word < self.now.words) }
        requires rule { Allows (P.holds (about self.now)) (number_of seat.old) (me_of seat.old) (own word) (λ n. n) (M.then (step (own word) 0 0) (me_of seat.old)) }
        ensures same { Follows seat.old seat.new }
        ensures told { M.then (step (own word) 0 0) (me_of seat.old) result (me_of seat.new) }
    {
        self.rows
            .load::<OnOwn<M>>(&mut seat.seat, ROOT, self.root, word)
    }

    /// Writes a word of the table's own.
    pub fn store<M: Play<Option<T>, V>>(
        &self,
        seat: &mut GrowingSeat<T, V, A>,
        word: usize,
        new: u64,
    )
        requires seat { Sits self.now seat.old × (word < self.now.words) }
        requires rule { Allows (P.holds (about self.now)) (number_of seat.old) (me_of seat.old) (own word) (λ _. new) (λ _. M.then (step (own word) new 0) (me_of seat.old) new) }
        ensures same { Follows seat.old seat.new }
        ensures told { M.then (step (own word) new 0) (me_of seat.old) new (me_of seat.new) }
    {
        self.rows
            .store::<OnOwn<M>>(&mut seat.seat, ROOT, self.root, word, new);
    }

    /// Writes a word of the table's own where `old` is found there. Returns what was found.
    pub fn compare_exchange<M: Play<Option<T>, V>>(
        &self,
        seat: &mut GrowingSeat<T, V, A>,
        word: usize,
        old: u64,
        new: u64,
    ) -> u64
        requires seat { Sits self.now seat.old × (word < self.now.words) }
        requires rule { Allows (P.holds (about self.now)) (number_of seat.old) (me_of seat.old) (own word) (λ n. either (n == old) new n) (M.then (step (own word) old new) (me_of seat.old)) }
        ensures same { Follows seat.old seat.new }
        ensures told { M.then (step (own word) old new) (me_of seat.old) result (me_of seat.new) }
    {
        self.rows
            .compare_exchange::<OnOwn<M>>(&mut seat.seat, ROOT, self.root, word, old, new)
    }

    /// Adds to a word of the table's own; the sum wraps. Returns what was found.
    pub fn fetch_add<M: Play<Option<T>, V>>(
        &self,
        seat: &mut GrowingSeat<T, V, A>,
        word: usize,
        by: u64,
    ) -> u64
        requires seat { Sits self.now seat.old × (word < self.now.words) }
        requires rule { Allows (P.holds (about self.now)) (number_of seat.old) (me_of seat.old) (own word) (λ n. (n + by) % 2 ^ 64) (M.then (step (own word) by 0) (me_of seat.old)) }
        ensures same { Follows seat.old seat.new }
        ensures told { M.then (step (own word) by 0) (me_of seat.old) result (me_of seat.new) }
    {
        self.rows
            .fetch_add::<OnOwn<M>>(&mut seat.seat, ROOT, self.root, word, by)
    }

    /// Sets bits of a word of the table's own. Returns what was found.
    pub fn fetch_or<M: Play<Option<T>, V>>(
        &self,
        seat: &mut GrowingSeat<T, V, A>,
        word: usize,
        bits: u64,
    ) -> u64
        requires seat { Sits self.now seat.old × (word < self.now.words) }
        requires rule { Allows (P.holds (about self.now)) (number_of seat.old) (me_of seat.old) (own word) (λ n. bit_or n bits) (M.then (step (own word) bits 0) (me_of seat.old)) }
        ensures same { Follows seat.old seat.new }
        ensures told { M.then (step (own word) bits 0) (me_of seat.old) result (me_of seat.new) }
    {
        bits::fetch_or::<_, _, _, _, _, OnOwn<M>>(
            &self.rows,
            &mut seat.seat,
            ROOT,
            self.root,
            word,
            bits,
        )
    }

    /// Keeps these bits of a word of the table's own and clears all others. Returns what was found.
    pub fn fetch_and<M: Play<Option<T>, V>>(
        &self,
        seat: &mut GrowingSeat<T, V, A>,
        word: usize,
        bits: u64,
    ) -> u64
        requires seat { Sits self.now seat.old × (word < self.now.words) }
        requires rule { Allows (P.holds (about self.now)) (number_of seat.old) (me_of seat.old) (own word) (λ n. bit_and n bits) (M.then (step (own word) bits 0) (me_of seat.old)) }
        ensures same { Follows seat.old seat.new }
        ensures told { M.then (step (own word) bits 0) (me_of seat.old) result (me_of seat.new) }
    {
        bits::fetch_and::<_, _, _, _, _, OnOwn<M>>(
            &self.rows,
            &mut seat.seat,
            ROOT,
            self.root,
            word,
            bits,
        )
    }
}
