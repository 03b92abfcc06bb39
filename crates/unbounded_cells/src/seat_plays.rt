//! What the steps tell by which seats of parties come, turn, look, are named, join and part, and by which the lock of the spare list goes
//! from seat to seat. All are for the proofs alone: no value of these types is made.

use crate::rule::{BlockMachine, BlockView};
use concurrent_queue::history::led::LeadsTo;
use concurrent_queue::history::rule::{Picks, PicksTwo};
use growing_table::{Join, Play, Split};
use std::marker::PhantomData;

/// A new seat, whose party is at the state that was picked.
pub struct Enters<P, E> {
    of: PhantomData<(P, E)>,
}

impl<T, A, P: BlockMachine<T, A>, E: Picks<A>> Play<Option<T>, BlockView<T, A>> for Enters<P, E> {
    ghost use Rattle.unbounded_cells.specs.SeatTold.{enters};

    ghost then = { enters (E.to P.first) };
}

/// The party of a seat goes to the state that was picked, and touches nothing.
pub struct Turns<E> {
    of: PhantomData<E>,
}

impl<T, A, E: Picks<A>> Play<Option<T>, BlockView<T, A>> for Turns<E> {
    ghost use Rattle.unbounded_cells.specs.SeatTold.{turns};

    ghost then = { turns E.to };
}

/// The party of a seat goes to a state to which the relation leads, and touches nothing.
pub struct Led<E> {
    of: PhantomData<E>,
}

impl<T, A, E: LeadsTo<A>> Play<Option<T>, BlockView<T, A>> for Led<E> {
    ghost use Rattle.unbounded_cells.specs.SeatTold.{led_by};

    ghost then = { led_by E.to };
}

/// A seat is told its number.
pub struct Names;

impl<T, A> Play<Option<T>, BlockView<T, A>> for Names {
    ghost use Rattle.unbounded_cells.specs.SeatTold.{names};

    ghost then = { names };
}

/// The rule is read, and nothing is done.
pub struct Looks<P> {
    of: PhantomData<P>,
}

impl<T, A, P: BlockMachine<T, A>> Play<Option<T>, BlockView<T, A>> for Looks<P> {
    ghost use Rattle.unbounded_cells.specs.SeatTold.{looks};

    ghost then = { looks P.moves P.history P.sized P.admits };
}

/// One party is joined into another's view. What is left to the other's seat the proof of the join picks.
pub struct Joined<P, E> {
    of: PhantomData<(P, E)>,
}

impl<T, A, P: BlockMachine<T, A>, E: Picks<BlockView<T, A>>> Join<BlockView<T, A>>
    for Joined<P, E> {
    ghost use Rattle.unbounded_cells.specs.SeatTold.{joining, left_as};

    ghost both = { joining };

    ghost spent = { left_as P.first E.to };
}

/// One party takes in what another has, likewise.
pub struct TakesIn<P, E> {
    of: PhantomData<(P, E)>,
}

impl<T, A, P: BlockMachine<T, A>, E: Picks<BlockView<T, A>>> Join<BlockView<T, A>>
    for TakesIn<P, E> {
    ghost use Rattle.unbounded_cells.specs.SeatTold.{taking, left_as};

    ghost both = { taking P.both };

    ghost spent = { left_as P.first E.to };
}

/// Some of what a party has goes to a new one.
pub struct Parted<E> {
    of: PhantomData<E>,
}

impl<T, A, E: PicksTwo<A>> Split<BlockView<T, A>> for Parted<E> {
    ghost use Rattle.unbounded_cells.specs.SeatTold.{parting};
    ghost use Rattle.unbounded_cells.specs.Told.{on_with};

    ghost left = { λ v. on_with v (E.stays v.party.state) };

    ghost right = { λ v. parting v (E.goes v.party.state) };
}

/// The right to the spare list goes to the seat that has taken the lock. What is left to the other seat the proof picks.
pub struct Locks<P, E> {
    of: PhantomData<(P, E)>,
}

impl<T, A, P: BlockMachine<T, A>, E: Picks<BlockView<T, A>>> Join<BlockView<T, A>> for Locks<P, E> {
    ghost use Rattle.unbounded_cells.specs.SeatTold.{with_lock, left_as};

    ghost both = { with_lock };

    ghost spent = { left_as P.first E.to };
}

/// It goes to a new seat, which lies behind the lock from then on.
pub struct Unlocks<P> {
    of: PhantomData<P>,
}

impl<T, A, P: BlockMachine<T, A>> Split<BlockView<T, A>> for Unlocks<P> {
    ghost use Rattle.unbounded_cells.specs.SeatTold.{lock_seat, without_lock};

    ghost left = { without_lock };

    ghost right = { lock_seat P.idle };
}
