//! The list of spare blocks: how a block is taken off it, or made, and how one is put on it. Its lock has a seat of the table that makes the
//! blocks and alone may change the list. Who takes the lock joins that seat into its own, so that each step on the list is one of its party's
//! machine, and splits it off again before it gives the lock back. Whoever finds the lock taken waits.

ghost use Rattle.std.specs.Prelude.{◌≡◌, ℕ, ◌+◌, true, false, Result, Some, None};
ghost use Rattle.concurrent_queue.specs.Bridge.{does};
ghost use Rattle.concurrent_queue.specs.Deeds.{spared, retired};
ghost use Rattle.concurrent_queue.specs.declared.cells.QueueForm.TheVariants.{Unbounded};
ghost use Rattle.concurrent_queue.specs.declared.error.NoMemory as none;
ghost use Rattle.growing_table.specs.Seats.{me_of, makes_blocks, Sits, IsSame, Follows, Finds};
ghost use Rattle.growing_table.specs.State.{me};
ghost use Rattle.unbounded_cells.specs.SeatTold.{with_lock, without_lock, left_as};
ghost use Rattle.unbounded_cells.specs.Seated.{party_of, IsSameParty, IsKeeper};
ghost use Rattle.unbounded_cells.specs.SpareTold.{GoesOn, IsLocked, by_hand};

use crate::rule::{BlockMachine, BlockView};
use crate::seat_plays::{Locks, Unlocks};
use crate::spare_plays::{
    Clears, FindsSpare, GivesBack, MakesSpare, ReadsLink, ReadsTop, RefusesSpare, TakesSpare,
    WritesLink,
};
use crate::table::{BlockCall, BlockTable, Keeper, KeepsSpareList, KitSeat, KitTable};
use concurrent_queue::NoMemory;
use concurrent_queue::history::rule::Picks;
use growing_table::Place;
use keyed_lock::Taken;
use std::marker::Brand;
use std::sync::Wait;

/// Where the word lies that names the first spare block: its number and one, or 0 where none is spare.
const FIRST_SPARE: usize = 25;

/// Where the words lie in a block that have to be cleared before it is used again: the link to the next block, the number of reads, the flags.
const NEXT: usize = 31;

const READS: usize = 32;

const FLAGS: usize = 33;

/// Where the word lies in a block that names the next spare one.
const NEXT_SPARE: usize = 34;

/// The lock of the spare list was taken, and has to be given back.
type Locked<'a, T, A, P> = Taken<'a, Keeper<T, A>, KitTable<T, A, P>, KeepsSpareList>;

/// Takes the lock, and with it the right to the list. It waits while another call has it.
fn lock<'a, T: Drop, A, P: BlockMachine<T, A>, R: Wait>(
    table: &'a BlockTable<T, A, P>,
    rt: &R,
    seat: &mut KitSeat<T, A>,
) -> Locked<'a, T, A, P>
    requires seat { Sits table.now.table seat.old × ((party_of seat.old).spent ≡ false) }
    ensures lock { result ≡ (table.now.table, 0) }
    ensures same { IsSame seat.old seat.new × (makes_blocks seat.new ≡ true) }
    ensures locked { IsLocked (me_of seat.old) (me_of seat.new) }
{
    let (keeper, taken) = table.spares.take(rt, 0);
    let Keeper { seat: other } = keeper;
    join_keeper::<Brand, T, A, P>(&table.table, seat, other);
    taken
}

/// Joins the seat that lay behind the lock into one that acts, with what is left to it.
fn join_keeper<E: Picks<BlockView<T, A>>, T: Drop, A, P: BlockMachine<T, A>>(
    table: &KitTable<T, A, P>,
    seat: &mut KitSeat<T, A>,
    other: KitSeat<T, A>,
)
    requires seat { Sits table.now seat.old × ((party_of seat.old).spent ≡ false) }
    requires keeper { Sits table.now other × (makes_blocks other ≡ true) × ((me_of other).hand ≡ None) × ((me_of other).view.keeper ≡ true) × ((party_of other).spent ≡ false) }
    requires spent { left_as P.first E.to ≡ without_lock (me_of other).view }
    ensures same { IsSame seat.old seat.new × (makes_blocks seat.new ≡ true) }
    ensures locked { IsLocked (me_of seat.old) (me_of seat.new) }
{
    // One atomic operation changes both views, so at each moment just one seat has the right to the list.
    table.join_seat::<Locks<P, E>>(seat, other);
}

/// Gives the lock back, with a new seat that has the right to the list.
fn unlock<T: Drop, A, P: BlockMachine<T, A>>(
    table: &KitTable<T, A, P>,
    seat: &mut KitSeat<T, A>,
    taken: Locked<'_, T, A, P>,
)
    requires lock { taken ≡ (table.now, 0) }
    requires seat { Sits table.now seat.old × (makes_blocks seat.old ≡ true) × ((me_of seat.old).view.keeper ≡ true) × ((party_of seat.old).spent ≡ false) }
    ensures same { IsSame seat.old seat.new × (makes_blocks seat.new ≡ false) }
    ensures unlocked { me_of seat.new ≡ me (without_lock (me_of seat.old).view) (me_of seat.old).hand }
{
    // The split comes before the lock's own word is written: who takes the lock next finds a seat with the right to the list.
    let keeper = Keeper {
        seat: table.split_maker::<Unlocks<P>>(seat),
    };
    taken.give(keeper);
}

/// Makes a block, since none is spare.
fn make_block<T: Drop, A, P: BlockMachine<T, A>>(
    table: &KitTable<T, A, P>,
    seat: &mut KitSeat<T, A>,
) -> Result<u64, NoMemory>
    requires table { (table.now.words ≡ 32) × (table.now.cells ≡ 35) }
    requires seat { Sits table.now seat.old × (makes_blocks seat.old ≡ true) × ((me_of seat.old).view.keeper ≡ true) × ((party_of seat.old).spent ≡ false) }
    requires top { (me_of seat.old).view.top ≡ 0 }
    requires next { (o : Result ℕ none.NoMemory) → (a : A) × P.moves Unbounded (party_of seat.old).state (does (Some (spared o))) a }
    ensures same { Follows seat.old seat.new }
    ensures made { P.moves Unbounded (party_of seat.old).state (does (Some (spared result))) (party_of seat.new).state }
    ensures goes { GoesOn (me_of seat.old) (me_of seat.new) }
{
    // The step that counts the block is the event: from then on its number is one of a block in use.
    match table.make::<MakesSpare<P>>(seat) {
        Ok(place) => Ok(place.number()),
        Err(_) => {
            // A load is the event that answers for want of memory: the list is empty at that moment, since only this seat could change it.
            table.load::<RefusesSpare<P>>(seat, FIRST_SPARE);
            Err(NoMemory)
        }
    }
}

/// Clears the words of the first spare block.
fn clear<T: Drop, A, P: BlockMachine<T, A>>(
    table: &KitTable<T, A, P>,
    seat: &mut KitSeat<T, A>,
    place: Place<T>,
)
    requires table { (table.now.words ≡ 32) × (table.now.cells ≡ 35) }
    requires seat { Sits table.now seat.old × Finds seat.old place × ((me_of seat.old).view.keeper ≡ true) × ((party_of seat.old).spent ≡ false) }
    requires first { ((me_of seat.old).view.top ≡ place.number + 1) × ((me_of seat.old).view.cleared ≡ 0) }
    ensures same { Follows seat.old seat.new }
    ensures cleared { me_of seat.new ≡ me (by_hand (me_of seat.old).view (me_of seat.old).view.link 3) (me_of seat.old).hand }
{
    // While the block is on the list nobody reads these words. Cleared after it is taken, they could be those of a block in use, with the
    // link and the flags of its last use.
    table.store_in::<Clears>(seat, place, NEXT, 0);
    table.store_in::<Clears>(seat, place, READS, 0);
    table.store_in::<Clears>(seat, place, FLAGS, 0);
}

/// Takes the first spare block, of this number, off the list.
fn take_first<T: Drop, A, P: BlockMachine<T, A>>(
    table: &KitTable<T, A, P>,
    seat: &mut KitSeat<T, A>,
    number: u64,
) -> Result<u64, NoMemory>
    requires table { (table.now.words ≡ 32) × (table.now.cells ≡ 35) }
    requires seat { Sits table.now seat.old × ((me_of seat.old).view.keeper ≡ true) × ((party_of seat.old).spent ≡ false) }
    requires first { ((me_of seat.old).view.top ≡ number + 1) × ((me_of seat.old).view.cleared ≡ 0) }
    requires next { (o : Result ℕ none.NoMemory) → (a : A) × P.moves Unbounded (party_of seat.old).state (does (Some (spared o))) a }
    ensures same { Follows seat.old seat.new }
    ensures made { P.moves Unbounded (party_of seat.old).state (does (Some (spared result))) (party_of seat.new).state }
    ensures goes { GoesOn (me_of seat.old) (me_of seat.new) }
{
    // It is there, unless there was once a history as long as there are positions.
    let Some(place) = table.find::<FindsSpare<P>>(seat, number) else {
        return Err(NoMemory);
    };
    let link = table.load_in::<ReadsLink>(seat, place, NEXT_SPARE);
    clear(table, seat, place);
    // The event: the list begins with the next spare block from here on, or is empty.
    table.store::<TakesSpare<P>>(seat, FIRST_SPARE, link);
    Ok(number)
}

/// A block for the party of a seat that has the lock.
fn spare_one<T: Drop, A, P: BlockMachine<T, A>>(
    table: &KitTable<T, A, P>,
    seat: &mut KitSeat<T, A>,
) -> Result<u64, NoMemory>
    requires table { (table.now.words ≡ 32) × (table.now.cells ≡ 35) }
    requires seat { Sits table.now seat.old × (makes_blocks seat.old ≡ true) × ((me_of seat.old).view.keeper ≡ true) × ((party_of seat.old).spent ≡ false) }
    requires first { (me_of seat.old).view.cleared ≡ 0 }
    requires next { (o : Result ℕ none.NoMemory) → (a : A) × P.moves Unbounded (party_of seat.old).state (does (Some (spared o))) a }
    ensures same { Follows seat.old seat.new }
    ensures made { P.moves Unbounded (party_of seat.old).state (does (Some (spared result))) (party_of seat.new).state }
    ensures goes { GoesOn (me_of seat.old) (me_of seat.new) }
{
    // Only the seat with the lock writes this word, so it stays what is read here.
    let top = table.load::<ReadsTop>(seat, FIRST_SPARE);
    if top == 0 {
        make_block(table, seat)
    } else {
        take_first(table, seat, top - 1)
    }
}

/// Puts a block on the list that the party of a seat with the lock gives back.
fn retire_one<T: Drop, A, P: BlockMachine<T, A>>(
    table: &KitTable<T, A, P>,
    seat: &mut KitSeat<T, A>,
    place: Place<T>,
)
    requires table { (table.now.words ≡ 32) × (table.now.cells ≡ 35) }
    requires seat { Sits table.now seat.old × Finds seat.old place × ((me_of seat.old).view.keeper ≡ true) × ((party_of seat.old).spent ≡ false) }
    requires next { (a : A) × P.moves Unbounded (party_of seat.old).state (does (Some (retired place.number))) a }
    ensures same { Follows seat.old seat.new }
    ensures made { P.moves Unbounded (party_of seat.old).state (does (Some (retired place.number))) (party_of seat.new).state }
    ensures goes { GoesOn (me_of seat.old) (me_of seat.new) }
{
    let top = table.load::<ReadsTop>(seat, FIRST_SPARE);
    // The link before the word of the first block: were it the other way round, the next one who takes a block could lose the rest of the
    // list.
    table.store_in::<WritesLink>(seat, place, NEXT_SPARE, top);
    // The event.
    table.store::<GivesBack<P>>(seat, FIRST_SPARE, place.number() + 1);
}

impl<'a, T: Drop, A, P: BlockMachine<T, A>, R: Wait> BlockCall<'a, T, A, P, R> {
    /// A block for the queue: the first spare one, or a new one where none is spare. It waits while another call has the lock of the list.
    pub fn spare(&mut self) -> Result<u64, NoMemory>
        requires next { (o : Result ℕ none.NoMemory) → (a : A) × P.moves (party_of self.old.seat).form (party_of self.old.seat).state (does (Some (spared o))) a }
        ensures made { P.moves (party_of self.old.seat).form (party_of self.old.seat).state (does (Some (spared result))) (party_of self.new.seat).state }
        ensures same { IsSameParty self.old.seat self.new.seat }
    {
        let taken = lock(self.table, self.rt, &mut self.seat);
        let result = spare_one(&self.table.table, &mut self.seat);
        unlock(&self.table.table, &mut self.seat, taken);
        result
    }

    /// Gives a block back, for another use. It waits likewise.
    pub fn retire(&mut self, block: u64)
        requires next { (a : A) × P.moves (party_of self.old.seat).form (party_of self.old.seat).state (does (Some (retired block))) a }
        ensures made { P.moves (party_of self.old.seat).form (party_of self.old.seat).state (does (Some (retired block))) (party_of self.new.seat).state }
        ensures same { IsSameParty self.old.seat self.new.seat }
    {
        let Some(place) = self.locate::<Brand>(block) else {
            // No such block was ever made: the operation was made when it was looked for.
            return;
        };
        let taken = lock(self.table, self.rt, &mut self.seat);
        retire_one(&self.table.table, &mut self.seat, place);
        unlock(&self.table.table, &mut self.seat, taken);
    }
}
