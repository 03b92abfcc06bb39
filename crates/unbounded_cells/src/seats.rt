//! Seats of parties: how a party enters, rests and goes on, how it looks at the history, and how one seat's part goes to another. No call
//! here waits. Each costs one load, except `go_on`, `rest` and `forget_name`, which make no atomic operation.
//!
//! A view of the table changes only in an atomic operation. So a step of a machine that touches no cell and no count is a load whose answer
//! nobody needs: without it no view could say that the step was made.

ghost use Rattle.std.specs.Prelude.{true, ◌≡◌, [], None};
ghost use Rattle.concurrent_queue.specs.history.Shared.{both_views};
ghost use Rattle.concurrent_queue.specs.declared.cells.QueueForm.TheVariants.{Unbounded};
ghost use Rattle.growing_table.specs.Seats.{me_of, Sits};
ghost use Rattle.unbounded_cells.specs.Seated.{party_of, SameTable, IsSameParty};
ghost use Rattle.unbounded_cells.specs.SeatTold.{ShownOrLong, joined_away, taken, left_as};

use crate::rule::{BlockMachine, BlockView};
use crate::seat_plays::{Enters, Joined, Led, Looks, Names, Parted, TakesIn, Turns};
use crate::table::{BlockCall, BlockTable, IdleBlockSeat, NamelessBlockSeat};
use concurrent_queue::history::led::LeadsTo;
use concurrent_queue::history::rule::{Picks, PicksTwo};
use std::marker::Brand;

/// Where the word lies that is 0, and that nobody writes.
const FLAG: usize = 24;

impl<T, A> IdleBlockSeat<T, A> {
    /// The same seat, as one that can be taken in.
    #[inline(always)]
    pub fn forget_name(self) -> NamelessBlockSeat<T, A>
        ensures { result.seat ≡ self.seat }
    {
        let IdleBlockSeat { seat } = self;
        NamelessBlockSeat { seat }
    }
}

impl<T: Drop, A, P: BlockMachine<T, A>> BlockTable<T, A, P> {
    /// Adds a new party, at the state that the caller's proof picks.
    #[inline(always)]
    pub fn enter<'a, E: Picks<A>, X, R>(
        &'a self,
        rt: &'a R,
        _about: &X,
    ) -> BlockCall<'a, T, A, P, R>
        requires enters { P.enters Unbounded (E.to P.first) }
        ensures state { (party_of result.seat).state ≡ E.to P.first }
        ensures same { Sits self.now.table result.seat × ((party_of result.seat).form ≡ Unbounded) }
        ensures alone { (party_of result.seat).over ≡ [] }
    {
        // The load makes the seat. It reads a word that nobody writes.
        let (_, seat) = self.table.load_new_seat::<Enters<P, E>>(FLAG);
        BlockCall {
            table: self,
            rt,
            seat,
            last: None,
        }
    }

    /// The party of this seat goes on, at the state where it rested.
    #[inline(always)]
    pub fn go_on<'a, R>(&'a self, rt: &'a R, idle: IdleBlockSeat<T, A>) -> BlockCall<'a, T, A, P, R>
        requires same { Sits self.now.table idle.seat }
        ensures same { result.seat ≡ idle.seat }
        ensures form { (party_of result.seat).form ≡ Unbounded }
    {
        let IdleBlockSeat { seat } = idle;
        BlockCall {
            table: self,
            rt,
            seat,
            last: None,
        }
    }

    /// The seat gets to know its number, so that its party can make calls, and look.
    #[inline(always)]
    pub fn name(&self, nameless: NamelessBlockSeat<T, A>) -> IdleBlockSeat<T, A>
        requires same { Sits self.now.table nameless.seat }
        ensures same { SameTable nameless.seat result.seat × ((party_of result.seat).state ≡ (party_of nameless.seat).state) × ((party_of result.seat).form ≡ (party_of nameless.seat).form) × ((party_of result.seat).over ≡ (party_of nameless.seat).over) }
    {
        let NamelessBlockSeat { seat } = nameless;
        let mut seat = seat;
        // Its view says the number from this load on; a look finds a party by the number that its view says.
        self.table.load::<Names>(&mut seat, FLAG);
        IdleBlockSeat { seat }
    }

    /// At any moment, whatever other threads are doing: there is one history of what all parties did, in which the party of this seat is
    /// where its view says, and so is each party that was joined into it; or there was a history as long as there are positions. `false`: a
    /// foreign call was admitted, and nothing is known. For a machine that admits none this is known whatever the answer.
    pub fn look(&self, idle: &mut IdleBlockSeat<T, A>) -> bool
        requires same { Sits self.now.table idle.old.seat }
        ensures history { (P.admits → result ≡ true) → ShownOrLong P.moves P.history P.sized (party_of idle.old.seat) }
        ensures kept { (me_of idle.new.seat ≡ me_of idle.old.seat) × SameTable idle.old.seat idle.new.seat }
    {
        // It has to read this word: were it set, a foreign operation might have changed the cells as no machine does.
        let found = self.table.load::<Looks<P>>(&mut idle.seat, FLAG);
        found == 0
    }

    /// Joins another party into the view of this one, so that one look says of both that they are in one history.
    pub fn join(&self, one: &mut IdleBlockSeat<T, A>, other: IdleBlockSeat<T, A>)
        requires one { Sits self.now.table one.old.seat }
        requires other { Sits self.now.table other.seat }
        ensures joined { party_of one.new.seat ≡ both_views (party_of one.old.seat) (party_of other.seat) }
        ensures same { SameTable one.old.seat one.new.seat }
    {
        self.join_as::<Brand>(one, other);
    }

    /// The same, with what is left to the other's seat.
    fn join_as<E: Picks<BlockView<T, A>>>(
        &self,
        one: &mut IdleBlockSeat<T, A>,
        other: IdleBlockSeat<T, A>,
    )
        requires one { Sits self.now.table one.old.seat }
        requires other { Sits self.now.table other.seat }
        requires spent { left_as P.first E.to ≡ joined_away (me_of other.seat).view }
        ensures joined { party_of one.new.seat ≡ both_views (party_of one.old.seat) (party_of other.seat) }
        ensures same { SameTable one.old.seat one.new.seat }
    {
        let IdleBlockSeat { seat } = other;
        // One atomic operation changes both views, so at no moment the other party is in neither.
        self.table.join_seat::<Joined<P, E>>(&mut one.seat, seat);
    }
}

impl<'a, T: Drop, A, P: BlockMachine<T, A>, R> BlockCall<'a, T, A, P, R> {
    /// Ends the party's acting; it has no call under way.
    #[inline(always)]
    pub fn rest(self) -> IdleBlockSeat<T, A>
        requires rests { P.rests (party_of self.seat).state }
        ensures { result.seat ≡ self.entry.seat }
    {
        let BlockCall {
            table: _,
            rt: _,
            seat,
            last: _,
        } = self;
        IdleBlockSeat { seat }
    }

    /// Makes a step that touches no cell and no count, such as the beginning of a call, to a state that the caller's proof picks.
    #[inline(always)]
    pub fn turn<E: Picks<A>, X>(&mut self, _about: &X)
        requires next { P.turns (party_of self.old.seat).form (party_of self.old.seat).state (E.to (party_of self.old.seat).state) }
        ensures made { (party_of self.new.seat).state ≡ E.to (party_of self.old.seat).state }
        ensures same { IsSameParty self.old.seat self.new.seat }
    {
        // A load whose answer nobody needs: only an atomic operation can change the view. Nobody writes this word.
        self.table.table.load::<Turns<E>>(&mut self.seat, FLAG);
    }

    /// Makes such a step, to a state to which the relation leads that the caller's proof picks.
    #[inline(always)]
    pub fn turn_by<E: LeadsTo<A>, X, Y>(&mut self, _about: &X, _and: &Y)
        requires next { (a : A) × P.turns (party_of self.old.seat).form (party_of self.old.seat).state a × E.to (party_of self.old.seat).state a }
        ensures made { E.to (party_of self.old.seat).state (party_of self.new.seat).state }
        ensures same { IsSameParty self.old.seat self.new.seat }
    {
        // A load whose answer nobody needs: only an atomic operation can change the view.
        self.table.table.load::<Led<E>>(&mut self.seat, FLAG);
    }

    /// As `look` of the table, for a party that acts.
    #[inline(always)]
    pub fn look(&mut self) -> bool
        ensures history { (P.admits → result ≡ true) → ShownOrLong P.moves P.history P.sized (party_of self.old.seat) }
        ensures kept { (me_of self.new.seat ≡ me_of self.old.seat) × SameTable self.old.seat self.new.seat }
    {
        // That word, as in `look` of the table.
        let found = self.table.table.load::<Looks<P>>(&mut self.seat, FLAG);
        found == 0
    }

    /// Takes in what lies with another seat of the table, which is used up. Parties that were joined into the other's view are not joined
    /// into this one's.
    #[inline(always)]
    pub fn take_in(&mut self, other: NamelessBlockSeat<T, A>)
        requires other { SameTable self.old.seat other.seat }
        ensures made { (party_of self.new.seat).state ≡ P.both (party_of self.old.seat).state (party_of other.seat).state }
        ensures same { IsSameParty self.old.seat self.new.seat }
    {
        self.take_in_as::<Brand>(other);
    }

    /// The same, with what is left to the other's seat.
    #[inline(always)]
    fn take_in_as<E: Picks<BlockView<T, A>>>(&mut self, other: NamelessBlockSeat<T, A>)
        requires other { SameTable self.old.seat other.seat }
        requires spent { left_as P.first E.to ≡ taken P.left (me_of other.seat).view }
        ensures made { (party_of self.new.seat).state ≡ P.both (party_of self.old.seat).state (party_of other.seat).state }
        ensures same { IsSameParty self.old.seat self.new.seat }
    {
        let NamelessBlockSeat { seat } = other;
        // One atomic operation changes both views, so what passes is with one of them at each moment.
        self.table
            .table
            .join_seat::<TakesIn<P, E>>(&mut self.seat, seat);
    }

    /// Splits off some of what lies with the party, to a new party that has no call under way. The caller's proof picks what stays and what
    /// goes.
    #[inline(always)]
    pub fn part<E: PicksTwo<A>, X>(&mut self, _about: &X) -> NamelessBlockSeat<T, A>
        requires parts { P.parts (party_of self.old.seat).form (party_of self.old.seat).state (E.stays (party_of self.old.seat).state) (E.goes (party_of self.old.seat).state) }
        requires rests { P.rests (E.goes (party_of self.old.seat).state) }
        ensures stays { (party_of self.new.seat).state ≡ E.stays (party_of self.old.seat).state }
        ensures goes { ((party_of result.seat).state ≡ E.goes (party_of self.old.seat).state) × ((party_of result.seat).over ≡ []) × ((party_of result.seat).form ≡ (party_of self.old.seat).form) × SameTable self.old.seat result.seat }
        ensures same { IsSameParty self.old.seat self.new.seat }
    {
        // One atomic operation changes both views, so nothing is with both of them.
        let seat = self.table.table.split_seat::<Parted<E>>(&mut self.seat);
        NamelessBlockSeat { seat }
    }
}
