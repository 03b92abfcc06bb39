//! Seats of parties: how a party enters, rests and goes on, how it looks at the history, and how one seat's part goes to another. Nothing
//! else makes or drops the seat of a party that acts, so a body that stops in the middle of a call does not type-check. No call here waits.
//! Each costs one load, except `go_on`, `rest` and `forget_name`, which make no atomic operation.
//!
//! A view of the table changes only in an atomic operation. So a step of a machine that touches no cell and no count is a load whose answer
//! nobody needs: without it no view could say that the step was made.

ghost use Rattle.std.specs.Prelude.{true, false, ◌≡◌, ℕ, [], None};
ghost use Rattle.concurrent_queue.specs.history.Shared.{Shown, both_views, left_view, spent_as, spent_view};
ghost use Rattle.concurrent_queue.specs.declared.cells.QueueForm.TheVariants.{Bounded};

use crate::history::rule::{
    Enters, Joined, Looks, Machine, Names, Parted, Picks, PicksTwo, TakesIn, Turns, View,
};
use crate::history::table::{CallSeat, RuledTable, flag_index};
use atomic_table::Seat;
use std::marker::Brand;

/// The seat of a party that has no call under way and knows its number: a value of no bytes. It has no reference to the table, so it can
/// lie in a struct, and in a slot of another table. The keeper of the seat knows at which state the party rests.
#[derive(Drop)]
pub struct IdleSeat<T, A> {
    pub(crate) seat: Seat<Option<T>, View<T, A>>,
    ghost formed: { seat.me.0.form ≡ Bounded seat.table_id.slots },
    ghost free: { (seat.me.0.held ≡ None) × (seat.me.1 ≡ []) },
    ghost live: { seat.me.0.spent ≡ false },
    ghost named: { seat.me.0.nameless ≡ false },
}

/// The seat of a party that may not know its number, as one that `part` made. It can be taken in, and it can't look.
#[derive(Drop)]
pub struct NamelessSeat<T, A> {
    pub(crate) seat: Seat<Option<T>, View<T, A>>,
    ghost formed: { seat.me.0.form ≡ Bounded seat.table_id.slots },
    ghost free: { (seat.me.0.held ≡ None) × (seat.me.1 ≡ []) },
    ghost live: { seat.me.0.spent ≡ false },
}

impl<T, A> IdleSeat<T, A> {
    /// The same seat, as one that can be taken in.
    #[inline(always)]
    pub fn forget_name(self) -> NamelessSeat<T, A>
        ensures { result.seat ≡ self.seat }
    {
        let IdleSeat { seat } = self;
        NamelessSeat { seat }
    }
}

impl<T, A, P: Machine<T, A>> RuledTable<T, A, P> {
    /// Adds a new party, at the state that the caller's proof picks.
    #[inline(always)]
    pub fn enter<E: Picks<A>, X>(&self, _about: &X) -> CallSeat<'_, T, A, P>
        requires enters { P.enters self.now.table.shared.key (E.to P.first) }
        ensures state { result.seat.me.0.state ≡ E.to P.first }
        ensures same { (result.seat.table_id ≡ self.now.table.shared.table_id) × (result.seat.me.0.form ≡ self.now.table.shared.key) }
        ensures alone { result.seat.me.0.over ≡ [] }
    {
        let at = flag_index(&self.table);
        // The load makes the seat. It reads the flag, which nobody writes but the first foreign call.
        let (_, seat) = self.table.shared.load_new_seat::<Enters<P, E>>(at);
        CallSeat {
            table: &self.table,
            count: self.table.slot_count(),
            seat,
        }
    }

    /// The party of this seat goes on, at the state where it rested.
    #[inline(always)]
    pub fn go_on(&self, idle: IdleSeat<T, A>) -> CallSeat<'_, T, A, P>
        requires same { idle.seat.table_id ≡ self.now.table.shared.table_id }
        ensures same { result.seat ≡ idle.seat }
        ensures form { result.seat.me.0.form ≡ self.now.table.shared.key }
    {
        let IdleSeat { seat } = idle;
        CallSeat {
            table: &self.table,
            count: self.table.slot_count(),
            seat,
        }
    }

    /// The seat gets to know its number, so that its party can make calls, and look.
    #[inline(always)]
    pub fn name(&self, nameless: NamelessSeat<T, A>) -> IdleSeat<T, A>
        requires same { nameless.seat.table_id ≡ self.now.table.shared.table_id }
        ensures same { (result.seat.table_id ≡ nameless.seat.table_id) × (result.seat.me.0.state ≡ nameless.seat.me.0.state) × (result.seat.me.0.form ≡ nameless.seat.me.0.form) × (result.seat.me.0.over ≡ nameless.seat.me.0.over) }
    {
        let NamelessSeat { seat } = nameless;
        let mut seat = seat;
        let at = flag_index(&self.table);
        // Its view says the number from this load on; a look finds a party by the number that its view says.
        self.table.shared.load::<Names>(&mut seat, at);
        IdleSeat { seat }
    }

    /// At any moment, whatever other threads are doing: there is one history of what all parties did, in which the party of this seat is
    /// where its view says, and so is each party that was joined into it. `false`: a foreign call was admitted, and nothing is known. For a
    /// machine that admits none the history is known whatever the answer.
    pub fn look(&self, idle: &mut IdleSeat<T, A>) -> bool
        requires same { idle.old.seat.table_id ≡ self.now.table.shared.table_id }
        ensures history { (P.admits → result ≡ true) → Shown P.history idle.old.seat.me.0 }
        ensures kept { (idle.new.seat.me ≡ idle.old.seat.me) × (idle.new.seat.table_id ≡ idle.old.seat.table_id) }
    {
        let at = flag_index(&self.table);
        // It has to read the flag: once the flag is set, a foreign operation may have changed the cells as no machine does.
        let found = self.table.shared.load::<Looks<P>>(&mut idle.seat, at);
        found == 0
    }

    /// Joins another party into the view of this one, so that one look says of both that they are in one history.
    pub fn join(&self, one: &mut IdleSeat<T, A>, other: IdleSeat<T, A>)
        requires one { one.old.seat.table_id ≡ self.now.table.shared.table_id }
        requires other { other.seat.table_id ≡ self.now.table.shared.table_id }
        ensures joined { one.new.seat.me.0 ≡ both_views one.old.seat.me.0 other.seat.me.0 }
        ensures same { one.new.seat.table_id ≡ one.old.seat.table_id }
    {
        self.join_as::<Brand>(one, other);
    }

    /// The same, with what is left to the other's seat.
    fn join_as<E: Picks<View<T, A>>>(&self, one: &mut IdleSeat<T, A>, other: IdleSeat<T, A>)
        requires one { one.old.seat.table_id ≡ self.now.table.shared.table_id }
        requires other { other.seat.table_id ≡ self.now.table.shared.table_id }
        requires spent { spent_as P.first E.to ≡ spent_view other.seat.me.0 }
        ensures joined { one.new.seat.me.0 ≡ both_views one.old.seat.me.0 other.seat.me.0 }
        ensures same { one.new.seat.table_id ≡ one.old.seat.table_id }
    {
        let IdleSeat { seat } = other;
        self.table
            .shared
            // One atomic operation changes both views, so at no moment the other party is in neither.
            .join_seat::<Joined<P, E>>(&mut one.seat, seat);
    }
}

impl<'a, T, A, P: Machine<T, A>> CallSeat<'a, T, A, P> {
    /// Ends the party's acting; it has no call under way.
    #[inline(always)]
    pub fn rest(self) -> IdleSeat<T, A>
        requires rests { P.rests self.seat.me.0.state }
        ensures { result.seat ≡ self.entry.seat }
    {
        let CallSeat {
            table: _,
            count: _,
            seat,
        } = self;
        IdleSeat { seat }
    }

    /// Makes a step that touches no cell and no count, such as the beginning of a call, to a state that the caller's proof picks.
    #[inline(always)]
    pub fn turn<E: Picks<A>, X>(&mut self, _about: &X)
        requires next { P.turns self.old.seat.me.0.form self.old.seat.me.0.state (E.to self.old.seat.me.0.state) }
        ensures made { self.new.seat.me.0.state ≡ E.to self.old.seat.me.0.state }
        ensures same { (self.new.seat.table_id ≡ self.old.seat.table_id) × (self.new.seat.me.0.who ≡ self.old.seat.me.0.who) × (self.new.seat.me.0.form ≡ self.old.seat.me.0.form) × (self.new.seat.me.0.over ≡ self.old.seat.me.0.over) }
    {
        let at = flag_index(self.table);
        // A load whose answer nobody needs: only an atomic operation can change the view. The flag is the word that is written least.
        self.table.shared.load::<Turns<E>>(&mut self.seat, at);
    }

    /// As `look` of the table, for a party that acts.
    #[inline(always)]
    pub fn look(&mut self) -> bool
        ensures history { (P.admits → result ≡ true) → Shown P.history self.old.seat.me.0 }
        ensures kept { (self.new.seat.me ≡ self.old.seat.me) × (self.new.seat.table_id ≡ self.old.seat.table_id) }
    {
        let at = flag_index(self.table);
        // The flag, as in `look` of the table.
        let found = self.table.shared.load::<Looks<P>>(&mut self.seat, at);
        found == 0
    }

    /// Takes in what lies with another seat of the table, which is used up. Parties that were joined into the other's view are not joined
    /// into this one's.
    #[inline(always)]
    pub fn take_in(&mut self, other: NamelessSeat<T, A>)
        requires other { other.seat.table_id ≡ self.old.seat.table_id }
        ensures made { self.new.seat.me.0.state ≡ P.both self.old.seat.me.0.state other.seat.me.0.state }
        ensures same { (self.new.seat.table_id ≡ self.old.seat.table_id) × (self.new.seat.me.0.who ≡ self.old.seat.me.0.who) × (self.new.seat.me.0.form ≡ self.old.seat.me.0.form) × (self.new.seat.me.0.over ≡ self.old.seat.me.0.over) }
    {
        self.take_in_as::<Brand>(other);
    }

    /// The same, with what is left to the other's seat.
    #[inline(always)]
    fn take_in_as<E: Picks<View<T, A>>>(&mut self, other: NamelessSeat<T, A>)
        requires other { other.seat.table_id ≡ self.old.seat.table_id }
        requires spent { spent_as P.first E.to ≡ left_view P.left other.seat.me.0 }
        ensures made { self.new.seat.me.0.state ≡ P.both self.old.seat.me.0.state other.seat.me.0.state }
        ensures same { (self.new.seat.table_id ≡ self.old.seat.table_id) × (self.new.seat.me.0.who ≡ self.old.seat.me.0.who) × (self.new.seat.me.0.form ≡ self.old.seat.me.0.form) × (self.new.seat.me.0.over ≡ self.old.seat.me.0.over) }
    {
        let NamelessSeat { seat } = other;
        self.table
            .shared
            // One atomic operation changes both views, so what passes is with one of them at each moment.
            .join_seat::<TakesIn<P, E>>(&mut self.seat, seat);
    }

    /// Splits off some of what lies with the party, to a new party that has no call under way. The caller's proof picks what stays and what
    /// goes.
    #[inline(always)]
    pub fn part<E: PicksTwo<A>, X>(&mut self, _about: &X) -> NamelessSeat<T, A>
        requires parts { P.parts self.old.seat.me.0.form self.old.seat.me.0.state (E.stays self.old.seat.me.0.state) (E.goes self.old.seat.me.0.state) }
        requires rests { P.rests (E.goes self.old.seat.me.0.state) }
        ensures stays { self.new.seat.me.0.state ≡ E.stays self.old.seat.me.0.state }
        ensures goes { (result.seat.me.0.state ≡ E.goes self.old.seat.me.0.state) × (result.seat.me.0.over ≡ []) × (result.seat.me.0.form ≡ self.old.seat.me.0.form) × (result.seat.table_id ≡ self.old.seat.table_id) }
        ensures same { (self.new.seat.table_id ≡ self.old.seat.table_id) × (self.new.seat.me.0.who ≡ self.old.seat.me.0.who) × (self.new.seat.me.0.form ≡ self.old.seat.me.0.form) × (self.new.seat.me.0.over ≡ self.old.seat.me.0.over) }
    {
        // One atomic operation changes both views, so nothing is with both of them.
        let seat = self.table.shared.split_seat::<Parted<E>>(&mut self.seat);
        NamelessSeat { seat }
    }
}
