//! Operations on the slots of an unbounded queue, from the seat of a call. Each slot of a block has a guard. A slot is out of the table only
//! while its guard is 1, and then with the seat that set it. So two threads never touch a slot at once, whatever the words hold.

ghost use Rattle.std.specs.Prelude.{◌≡◌, ℕ, ◌<◌, false, Option, None, Some, Ok, Err, Result, MatchOption, MatchResult, MatchBool};
ghost use Rattle.growing_table.specs.Seats.{me_of, number_of, Sits, Follows, Finds};
ghost use Rattle.concurrent_queue.specs.Bridge.{does};
ghost use Rattle.concurrent_queue.specs.Deeds.{did_put, did_take};
ghost use Rattle.concurrent_queue.specs.declared.cells.QueueForm.TheVariants.{Unbounded};
ghost use Rattle.concurrent_queue.specs.declared.cells.Slot.TheVariants.{In};
ghost use Rattle.unbounded_cells.specs.Laws.{deed_block, slot_block};
ghost use Rattle.unbounded_cells.specs.Seated.{party_of, IsSameParty};
ghost use Rattle.unbounded_cells.specs.Slots.{PutsAt};
ghost use Rattle.unbounded_cells.specs.Words.{IsNoSlot, LeavesAll};

use crate::plays::{Brings, Gives, Puts, Takes};
use crate::rule::BlockMachine;
use crate::table::{BlockCall, KitSeat, KitTable};
use crate::words::SLOTS;
use concurrent_queue::cells::Slot;
use concurrent_queue::history::rule::Happens;
use growing_table::Place;
use std::marker::Brand;

impl<'a, T: Drop, A, P: BlockMachine<T, A>, R> BlockCall<'a, T, A, P, R> {
    /// Where a slot lies. `None`: there is no such slot, and the operation on it was made, which finds nothing there.
    #[inline(always)]
    fn reach_slot<E: Happens<T>, X>(&mut self, at: Slot, _about: &X) -> Option<(Place<T>, usize)>
        requires on { deed_block E.deed ≡ slot_block at }
        requires leaves { IsNoSlot at → LeavesAll E.deed }
        requires next { (a : A) × P.moves (party_of self.old.seat).form (party_of self.old.seat).state (does (Some E.deed)) a }
        ensures reached { MatchOption result (P.moves (party_of self.old.seat).form (party_of self.old.seat).state (does (Some E.deed)) (party_of self.new.seat).state)
            (λ r. (at ≡ In r.0.number r.1) × (r.1 < 31) × Finds self.new.seat r.0 × (me_of self.new.seat ≡ me_of self.old.seat)) }
        ensures same { IsSameParty self.old.seat self.new.seat }
    {
        match at {
            Slot::In(block, offset) if offset < SLOTS => match self.locate::<E>(block) {
                Some(place) => Some((place, offset as usize)),
                None => None,
            },
            Slot::In(_, _) | Slot::At(_) => {
                self.happen::<E>();
                None
            }
        }
    }

    /// Takes the message out of a slot. `None`: another seat holds the slot, and nothing was done. A slot that isn't there holds nothing.
    #[inline(always)]
    pub fn try_take(&mut self, at: Slot) -> Option<Option<T>>
        requires next { (o : Option T) → (a : A) × P.moves (party_of self.old.seat).form (party_of self.old.seat).state (does (Some (did_take at o))) a }
        ensures made { MatchOption result (me_of self.new.seat ≡ me_of self.old.seat)
            (λ o. P.moves (party_of self.old.seat).form (party_of self.old.seat).state (does (Some (did_take at o))) (party_of self.new.seat).state) }
        ensures same { IsSameParty self.old.seat self.new.seat }
    {
        match self.reach_slot::<Brand, ()>(at, &()) {
            Some((place, offset)) => self.take_from(place, offset),
            None => Some(None),
        }
    }

    /// Puts a message into an empty slot. `Err` returns the message: with `true` the slot was full or isn't there; with `false` another
    /// seat holds it, and nothing was done.
    #[inline(always)]
    pub fn try_put(&mut self, at: Slot, value: T) -> Result<(), (T, bool)>
        requires next { (o : Result Unit T) → (a : A) × P.moves (party_of self.old.seat).form (party_of self.old.seat).state (does (Some (did_put at value o))) a }
        ensures made { MatchResult result (λ u. P.moves (party_of self.old.seat).form (party_of self.old.seat).state (does (Some (did_put at value (Ok tt)))) (party_of self.new.seat).state)
            (λ e. (e.0 ≡ value) × MatchBool e.1 (P.moves (party_of self.old.seat).form (party_of self.old.seat).state (does (Some (did_put at value (Err value)))) (party_of self.new.seat).state) (me_of self.new.seat ≡ me_of self.old.seat)) }
        ensures same { IsSameParty self.old.seat self.new.seat }
    {
        match self.reach_slot::<Brand, T>(at, &value) {
            Some((place, offset)) => self.put_into(place, offset, value),
            None => Err((value, true)),
        }
    }

    /// Takes the message out of a slot that is there.
    #[inline(always)]
    fn take_from(&mut self, place: Place<T>, offset: usize) -> Option<Option<T>>
        requires there { Finds self.old.seat place × (offset < 31) }
        requires next { (o : Option T) → (a : A) × P.moves (party_of self.old.seat).form (party_of self.old.seat).state (does (Some (did_take (In place.number offset) o))) a }
        ensures made { MatchOption result (me_of self.new.seat ≡ me_of self.old.seat)
            (λ o. P.moves (party_of self.old.seat).form (party_of self.old.seat).state (does (Some (did_take (In place.number offset) o))) (party_of self.new.seat).state) }
        ensures same { IsSameParty self.old.seat self.new.seat }
    {
        let table = &self.table.table;
        // An exchange from 0: only one seat wins the guard, and until it stores 0 nobody else touches the slot. This is the event of the
        // history.
        if table.compare_exchange_in::<Takes<P>>(&mut self.seat, place, offset, 0, 1) != 0 {
            return None;
        }
        // The guard is won, so this access to the slot races with none.
        let found = table.exchange(&mut self.seat, place, offset, None);
        // After the access: the next winner of the guard finds the slot as it is left. A store suffices, since only its holder writes a
        // guard of 1.
        table.store_in::<Gives>(&mut self.seat, place, offset, 0);
        Some(found)
    }

    /// Puts a message into a slot that is there.
    #[inline(always)]
    fn put_into(&mut self, place: Place<T>, offset: usize, value: T) -> Result<(), (T, bool)>
        requires there { Finds self.old.seat place × (offset < 31) }
        requires next { (o : Result Unit T) → (a : A) × P.moves (party_of self.old.seat).form (party_of self.old.seat).state (does (Some (did_put (In place.number offset) value o))) a }
        ensures made { MatchResult result (λ u. P.moves (party_of self.old.seat).form (party_of self.old.seat).state (does (Some (did_put (In place.number offset) value (Ok tt)))) (party_of self.new.seat).state)
            (λ e. (e.0 ≡ value) × MatchBool e.1 (P.moves (party_of self.old.seat).form (party_of self.old.seat).state (does (Some (did_put (In place.number offset) value (Err value)))) (party_of self.new.seat).state) (me_of self.new.seat ≡ me_of self.old.seat)) }
        ensures same { IsSameParty self.old.seat self.new.seat }
    {
        let table = &self.table.table;
        let brought = Some(value);
        if win_to_put::<T, A, P, Brand>(table, &mut self.seat, place, offset, &brought) != 0 {
            return match brought {
                Some(value) => Err((value, false)),
                None => unreachable!(),
            };
        }
        // The old content shows whether the slot was empty.
        match table.exchange(&mut self.seat, place, offset, brought) {
            None => {
                table.store_in::<Gives>(&mut self.seat, place, offset, 0);
                Ok(())
            }
            Some(old) => {
                // The slot was full: put the old message back before the guard is released, so that nobody sees it missing.
                let back = table.exchange(&mut self.seat, place, offset, Some(old));
                table.store_in::<Gives>(&mut self.seat, place, offset, 0);
                match back {
                    Some(value) => Err((value, true)),
                    None => unreachable!(),
                }
            }
        }
    }
}

/// Wins the guard of a slot, to put this message in: 0, or another seat has it and nothing was done. The message is lent, since the event of
/// the history names it.
#[inline(always)]
fn win_to_put<T, A, P: BlockMachine<T, A>, E: Brings<T>>(
    table: &KitTable<T, A, P>,
    seat: &mut KitSeat<T, A>,
    place: Place<T>,
    offset: usize,
    _brought: &Option<T>,
) -> u64
    requires seat { Sits table.now seat.old × Finds seat.old place × (offset < 31) × (table.now.cells ≡ 35) }
    requires free { ((me_of seat.old).view.held ≡ None) × ((me_of seat.old).view.party.spent ≡ false) × ((me_of seat.old).view.party.form ≡ Unbounded) }
    requires brought { (v : T) × (_brought.now ≡ Some v) × (E.brought ≡ Some v)
        × ((o : Result Unit T) → (a : A) × P.moves Unbounded (party_of seat.old).state (does (Some (did_put (In place.number offset) v o))) a) }
    ensures same { Follows seat.old seat.new }
    ensures told { (v : T) → _brought.now ≡ Some v → PutsAt P.moves place.number offset v (me_of seat.old) result (me_of seat.new) }
{
    // As in `take_from`: an exchange from 0, which only one seat wins.
    table.compare_exchange_in::<Puts<P, E>>(seat, place, offset, 0, 1)
}
