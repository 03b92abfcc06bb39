//! How seats come, part and join, and how a slot that is out is read and written.
ghost use Rattle.std.specs.Prelude.{◌≡◌, ◌<◌, ◌||◌, false, Option, Some, None};
ghost use Rattle.growing_table.specs.State.{Enters, Splits, Joins, step, own, me};
ghost use Rattle.growing_table.specs.Seats.{about, me_of, number_of, makes_blocks, Sits, Recognizes, IsSame, Follows, Finds};

use crate::plays::{Apart, Both, Handed, OnEntry};
use crate::rule::{GrowingRule, Play};
use crate::seat::{GrowingSeat, Place};
use crate::table::GrowingTable;
use atomic_table::{Join, Split};
use std::alloc::Allocator;

// The rows of the table's own words, and of the number of blocks.
const ROOT: u64 = 0;

const TOP: u64 = 1;

impl<T, V, K, P: GrowingRule<T, V, K>, A: Allocator> GrowingTable<T, V, K, P, A> {
    /// Reads a word of the table's own, and makes a new seat.
    pub fn load_new_seat<M: Play<Option<T>, V>>(&self, word: usize) -> (u64, GrowingSeat<T, V, A>)
        requires word { word < self.now.words }
        requires rule { Enters (P.holds (about self.now)) word (λ r w. M.then (step (own word) 0 0) (me (P.first (about self.now)) None) r (me w None)) }
        ensures seat { Sits self.now (result.1) × (makes_blocks (result.1) ≡ false) × ((me_of (result.1)).hand ≡ None) }
        ensures told { M.then (step (own word) 0 0) (me (P.first (about self.now)) None) (result.0) (me_of (result.1)) }
    {
        let (found, seat) = self.rows.load_new_seat::<OnEntry<M>>(ROOT, self.root, word);
        (found, GrowingSeat { seat })
    }

    /// Cuts a view in two, for a new seat, which makes no blocks. It costs one load.
    pub fn split_seat<M: Split<V>>(&self, seat: &mut GrowingSeat<T, V, A>) -> GrowingSeat<T, V, A>
        requires seat { Sits self.now seat.old }
        requires rule { Splits (P.holds (about self.now)) (number_of seat.old) (me_of seat.old).view (M.left (me_of seat.old).view) (M.right (me_of seat.old).view) }
        ensures old { Follows seat.old seat.new × (me_of seat.new ≡ me (M.left (me_of seat.old).view) (me_of seat.old).hand) }
        ensures new { Sits self.now result × Recognizes seat.old result × (makes_blocks result ≡ false) × (me_of result ≡ me (M.right (me_of seat.old).view) None) }
    {
        let new = self
            .rows
            .split_seat::<Apart<M>>(&mut seat.seat, TOP, self.top);
        GrowingSeat { seat: new }
    }

    /// The same, and the new seat makes the blocks if the old one did.
    pub fn split_maker<M: Split<V>>(&self, seat: &mut GrowingSeat<T, V, A>) -> GrowingSeat<T, V, A>
        requires seat { Sits self.now seat.old }
        requires rule { Splits (P.holds (about self.now)) (number_of seat.old) (me_of seat.old).view (M.left (me_of seat.old).view) (M.right (me_of seat.old).view) }
        ensures old { IsSame seat.old seat.new × (makes_blocks seat.new ≡ false) × (me_of seat.new ≡ me (M.left (me_of seat.old).view) (me_of seat.old).hand) }
        ensures new { Sits self.now result × Recognizes seat.old result × (makes_blocks result ≡ makes_blocks seat.old) × (me_of result ≡ me (M.right (me_of seat.old).view) None) }
    {
        let new = self
            .rows
            .split_seat::<Handed<M>>(&mut seat.seat, TOP, self.top);
        GrowingSeat { seat: new }
    }

    /// Takes another seat into this one, which makes the blocks if either did. It costs one load.
    pub fn join_seat<M: Join<V>>(
        &self,
        seat: &mut GrowingSeat<T, V, A>,
        other: GrowingSeat<T, V, A>,
    )
        requires seats { Sits self.now seat.old × Sits self.now other × ((me_of other).hand ≡ None) }
        requires rule { Joins (P.holds (about self.now)) (number_of seat.old) (me_of seat.old).view (number_of other) (me_of other).view (M.both (me_of seat.old).view (me_of other).view) M.spent }
        ensures same { IsSame seat.old seat.new × (makes_blocks seat.new ≡ (makes_blocks seat.old || makes_blocks other)) }
        ensures joined { me_of seat.new ≡ me (M.both (me_of seat.old).view (me_of other).view) (me_of seat.old).hand }
    {
        let GrowingSeat { seat: other } = other;
        self.rows
            .join_seat::<Both<M>>(&mut seat.seat, other, TOP, self.top);
    }

    /// Reads and writes the slot that is out with the seat.
    pub fn exchange(
        &self,
        seat: &mut GrowingSeat<T, V, A>,
        place: Place<T>,
        slot: usize,
        new: Option<T>,
    ) -> Option<T>
        requires seat { Sits self.now seat.old × Finds seat.old place }
        requires slot { (old : Option T) × ((me_of seat.old).hand ≡ Some (place.number, slot, old)) }
        ensures same { Follows seat.old seat.new }
        ensures slot { ((me_of seat.old).hand ≡ Some (place.number, slot, result)) × (me_of seat.new ≡ me (me_of seat.old).view (Some (place.number, slot, new))) }
    {
        self.rows.exchange(&mut seat.seat, place.link, slot, new)
    }
}
