//! How blocks are found and made.
ghost use Rattle.std.specs.Prelude.{◌≡◌, ℕ, suc, ◌+◌, ◌-◌, ◌^◌, ◌<◌, ◌≤◌, true, [], ◌∷◌, length, None, MatchResult, MatchOption};
ghost use denote.RawPtr.{InBlock};
ghost use lib.ListN.{get_elem?};
ghost use mathlib.Core.Option.{some};
ghost use Rattle.growing_table.specs.State.{Allows, Makes, step, count};
ghost use Rattle.growing_table.specs.Laid.{Holding, IsNext, Reaches, plain_me, in_block_prop};
ghost use Rattle.growing_table.specs.Told.{Recalls};
ghost use Rattle.growing_table.specs.Seats.{about, me_of, number_of, makes_blocks, Sits, Follows, Finds};

use crate::fresh::zeros;
use crate::plays::{OnCount, OnMaking, SeesLink, Still, WritesLink};
use crate::rule::{GrowingRule, Play};
use crate::seat::{GrowingSeat, Place};
use crate::sight::Sight;
use crate::table::GrowingTable;
use atomic_blocks::rows::{Link, Loose, Seat};
use std::alloc::{AllocError, Allocator};

// The row of the number of blocks and of links.
const TOP: u64 = 1;

// The cell of that row whose word is the number of blocks.
const COUNT: usize = 0;

// There are at most so many blocks.
const MOST: u64 = (1 << 39) - 3;

// The cell that has the link to a block.
#[derive(Drop)]
struct Entry<T> {
    row: u64,
    link: Link<Option<T>>,
    index: usize,
    ghost placed: { InBlock link.ptr } by { in_block_prop link.ptr },
}

impl<T, V, K, P: GrowingRule<T, V, K>, A: Allocator> GrowingTable<T, V, K, P, A> {
    // Block `number` is the `offset`-th from that of the power of two which is no greater.
    fn entry(&self, seat: &mut GrowingSeat<T, V, A>, number: u64) -> Entry<T>
        requires { Sits self.now seat.old × (number + 1 < length seat.old.seat.me.view.chart.places) × (number < 2 ^ 39) }
        ensures same { (seat.new.seat.rows ≡ seat.old.seat.rows) × (seat.new.seat.heap ≡ seat.old.seat.heap) × (seat.new.seat.id ≡ seat.old.seat.id) × (seat.new.seat.me ≡ seat.old.seat.me) }
        ensures entry { Reaches self.now.cells self.now.top.ptr seat.old.seat.me.view.chart.places number result.row result.link.ptr result.index × (result.index < 2 ^ 40) }
    {
        let power = (number + 1).ilog2();
        let span = 1u64 << power;
        let offset = number + 1 - span;
        if offset == 0 {
            return Entry {
                row: TOP,
                link: self.top,
                index: power as usize,
            };
        }
        let first = self
            .rows
            .load_link::<SeesLink>(&mut seat.seat, TOP, self.top, power as usize);
        Entry {
            row: span + 1,
            link: first,
            index: self.cells + offset as usize,
        }
    }

    /// Where the block of this number lies; `None` where there is none. Reads the number of blocks, which the step tells.
    pub fn find<M: Play<Option<T>, V>>(
        &self,
        seat: &mut GrowingSeat<T, V, A>,
        number: u64,
    ) -> Option<Place<T>>
        requires seat { Sits self.now seat.old }
        requires rule { Allows (P.holds (about self.now)) (number_of seat.old) (me_of seat.old) count (λ n. n) (M.then (step count 0 0) (me_of seat.old)) }
        ensures same { Follows seat.old seat.new }
        ensures told { (n : ℕ) × M.then (step count 0 0) (me_of seat.old) n (me_of seat.new) × MatchOption result (n ≤ number) (λ p. (number < n) × (p.number ≡ number) × Finds seat.new p) }
    {
        let found = self
            .rows
            .load::<OnCount<M>>(&mut seat.seat, TOP, self.top, COUNT);
        if number >= found {
            return None;
        }
        let at = self.entry(seat, number);
        let link = self
            .rows
            .load_link::<SeesLink>(&mut seat.seat, at.row, at.link, at.index);
        Some(Place { number, link })
    }

    // The carried block joins as the one of this number, and the seat is told.
    fn lay<M: Play<Option<T>, V>>(
        &self,
        seat: &mut Seat<Option<T>, Sight<V>, A>,
        block: Loose<Option<T>, A>,
        number: u64,
    )
        requires seat { (seat.old.rows ≡ self.now.rows.id) × (seat.old.heap ≡ self.now.rows.heap) × (seat.old.me.view.cells ≡ self.now.cells) × Holding seat.old.me × (seat.old.me.spare ≡ None) }
        requires next { (seat.old.me.view.maker ≡ true) × (seat.old.me.view.made ≡ number) × (number + 3 ≤ 2 ^ 39) }
        requires block { (block.heap ≡ self.now.rows.heap) × (block.left ≡ 0) × InBlock block.at × (seat.old.me.view.plan.places ≡ block.at ∷ []) × IsNext self.now.cells number block.at block.cells }
        requires rule { Makes (P.holds (about self.now)) self.now.cells None seat.old.id (plain_me seat.old.me) (M.then (step count 0 0) (plain_me seat.old.me)) }
        ensures same { (seat.new.rows ≡ seat.old.rows) × (seat.new.heap ≡ seat.old.heap) × (seat.new.id ≡ seat.old.id) × Recalls seat.old.me seat.new.me × (seat.new.me.spare ≡ None) }
        ensures there { get_elem? seat.new.me.view.chart.places (suc (suc number)) ≡ some block.at }
        ensures told { M.then (step count 0 0) (plain_me seat.old.me) number (plain_me seat.new.me) }
    {
        seat.hold(block);
        self.rows
            .store::<OnMaking<M>>(seat, TOP, self.top, COUNT, number + 1);
    }

    /// Makes a block whose words are 0 and whose slots are empty. The step that counts it is the one at which it joins. `Err`, and
    /// nothing is changed, where there is no memory for it. Only the seat that makes the blocks can call it.
    pub fn make<M: Play<Option<T>, V>>(
        &self,
        seat: &mut GrowingSeat<T, V, A>,
    ) -> Result<Place<T>, AllocError>
        requires seat { Sits self.now seat.old × (makes_blocks seat.old ≡ true) }
        requires rule { Makes (P.holds (about self.now)) self.now.cells None (number_of seat.old) (me_of seat.old) (M.then (step count 0 0) (me_of seat.old)) }
        ensures same { Follows seat.old seat.new }
        ensures told { MatchResult result (λ p. M.then (step count 0 0) (me_of seat.old) p.number (me_of seat.new) × Finds seat.new p) (λ _. me_of seat.new ≡ me_of seat.old) }
    {
        let number = self
            .rows
            .load::<OnCount<Still>>(&mut seat.seat, TOP, self.top, COUNT);
        if number >= MOST {
            return Err(AllocError);
        }
        let at = self.entry(seat, number);
        // Every block of a power of two less one has the links to the blocks up to the next such block, its own among them in the top row.
        let more = if at.row == TOP { number + 1 } else { 0 };
        let (link, block) = zeros(&self.alloc, self.cells + more as usize)?;
        self.rows
            .store_link::<WritesLink>(&mut seat.seat, at.row, at.link, at.index, link);
        self.lay::<M>(&mut seat.seat, block, number);
        Ok(Place { number, link })
    }
}
