//! What a seat knows (`View`), the machine whose history the table has, the rule that the cells are what this history made of them, and the
//! kinds of steps that keep the rule. All but `Counter` is for the proofs alone: no value of these types is made.

use crate::QueueForm;
use crate::history::led::LeadsTo;
use atomic_table::{Join, Play, Split, TableRule};
use std::collections::LinkedList;
use std::marker::{Brand, PhantomData};

/// What a seat knows of its party. A party has one seat, and makes calls one after another.
pub struct View<T, A> {
    /// The party's number, which is its seat's, if the seat knows it.
    pub who: u64,
    /// Whether it doesn't know it, as a seat that was split off another one.
    pub nameless: bool,
    /// Which kind of queue the table is of.
    pub form: QueueForm,
    /// The state of the party's machine.
    pub state: A,
    /// The slot that is out with the seat, and what the history has there meanwhile.
    pub held: Option<(u64, Option<T>)>,
    /// Whether its party makes operations that may be no machine's.
    pub foreign: bool,
    /// The parties that have ended and were joined into this view, with the state of each.
    pub over: LinkedList<(u64, A)>,
    /// Whether the party was joined into another's view, and acts no more.
    pub spent: bool,
}

/// One of the words of a table with which a machine counts.
#[derive(Clone, Copy)]
pub enum Counter {
    /// The first, which begins at the machine's number.
    First,
    /// The second, which begins there too.
    Second,
    /// The third, which begins at 0, as the others do.
    Third,
    /// The fourth.
    Fourth,
    /// The fifth.
    Fifth,
    /// The sixth.
    Sixth,
}

/// An operation on such a word.
pub enum CountStep {
    /// It is read.
    Read,
    /// It is lowered by one.
    Lower,
    /// It is raised by one, if it is this number.
    Raise(u64),
    /// It is set to this number.
    Set(u64),
}

/// The machine of every party: which steps lead it from which state to which, and the history that these steps keep.
pub trait Machine<T, A> {
    ghost use Rattle.std.specs.Prelude.{ℕ, List};
    ghost use Rattle.concurrent_queue.specs.Bridge.{Event};
    ghost use Rattle.concurrent_queue.specs.Contents.{Contents};
    ghost use Rattle.concurrent_queue.specs.history.Keeps.{KeepsHistory, Tally};
    ghost use Rattle.concurrent_queue.specs.declared.cells.QueueForm.{QueueForm};
    ghost use Rattle.concurrent_queue.specs.declared.history.rule.View.{View};
    ghost use Rattle.concurrent_queue.specs.declared.history.rule.Counter.{Counter};
    ghost use Rattle.concurrent_queue.specs.declared.history.rule.CountStep.{CountStep};

    /// The state of a party that has done nothing.
    ghost first: { A };

    /// The state of a table's first party.
    ghost opened: { A };

    /// What the first two counting words hold at first; the others hold 0.
    ghost counted: { ℕ };

    /// On a queue of this form, this event leads a party from the one state to the other.
    ghost moves: { QueueForm → A → Event T → A → Type 0 };

    /// A new party may be at this state.
    ghost enters: { QueueForm → A → Type 0 };

    /// A step that touches no cell and no count leads a party from the one state to the other, as the beginning of a call.
    ghost turns: { QueueForm → A → A → Type 0 };

    /// This operation on this counting word, which found this number, leads a party from the one state to the other.
    ghost counts: { QueueForm → A → A → Counter → CountStep → ℕ → Type 0 };

    /// The state of a party that has taken in what lies with another, by the states of both.
    ghost both: { A → A → A };

    /// What is left to the other, by its state.
    ghost left: { A → A };

    /// Of what lies with a party at the first state, the second is with it after some went to a new party, and the third with that.
    ghost parts: { QueueForm → A → A → A → Type 0 };

    /// A party at this state has no call under way.
    ghost rests: { A → Type 0 };

    /// Whether calls are admitted that may be no call of the machine.
    ghost admits: { Type 0 };

    /// There is a history in which the parties of these views are where these say, and which has made of a new queue's cells these cells,
    /// and of its counts these numbers.
    ghost history: { QueueForm → List (View T A) → Contents T → Tally → Type 0 };

    /// Each kind of step keeps it.
    ghost keeps: { KeepsHistory moves enters turns counts both left parts opened counted history };
}

/// The rule: a slot is out with one seat, which has won its guard; and while no foreign call was admitted there is the machine's history of
/// what all parties did, which leads to the cells and counts as they are. The table's key is the queue's form.
pub struct OneHistory<P> {
    of: PhantomData<P>,
}

impl<T, A, P: Machine<T, A>> TableRule<Option<T>, View<T, A>, QueueForm> for OneHistory<P> {
    ghost use Rattle.concurrent_queue.specs.history.Shared.{IsRuled, first_view};

    ghost holds = { λ form s. IsRuled P.history P.admits form s };

    ghost first = { λ form. first_view P.opened form };
}

/// A load of one of the queue's own words.
pub struct Loads<P> {
    of: PhantomData<P>,
}

impl<T, A, P: Machine<T, A>> Play<Option<T>, View<T, A>> for Loads<P> {
    ghost use Rattle.concurrent_queue.specs.history.Shared.{loads};

    ghost then = { loads P.moves };
}

/// A store to one of them.
pub struct Stores<P> {
    of: PhantomData<P>,
}

impl<T, A, P: Machine<T, A>> Play<Option<T>, View<T, A>> for Stores<P> {
    ghost use Rattle.concurrent_queue.specs.history.Shared.{stores};

    ghost then = { stores P.moves };
}

/// A compare-and-exchange of one of them.
pub struct Exchanges<P> {
    of: PhantomData<P>,
}

impl<T, A, P: Machine<T, A>> Play<Option<T>, View<T, A>> for Exchanges<P> {
    ghost use Rattle.concurrent_queue.specs.history.Shared.{exchanges};

    ghost then = { exchanges P.moves };
}

/// Something is added to one of them.
pub struct Adds<P> {
    of: PhantomData<P>,
}

impl<T, A, P: Machine<T, A>> Play<Option<T>, View<T, A>> for Adds<P> {
    ghost use Rattle.concurrent_queue.specs.history.Shared.{adds};

    ghost then = { adds P.moves };
}

/// Bits of one of them are set.
pub struct SetsBits<P> {
    of: PhantomData<P>,
}

impl<T, A, P: Machine<T, A>> Play<Option<T>, View<T, A>> for SetsBits<P> {
    ghost use Rattle.concurrent_queue.specs.history.Shared.{sets_bits};

    ghost then = { sets_bits P.moves };
}

/// Bits of one of them are kept, and all others cleared.
pub struct KeepsBits<P> {
    of: PhantomData<P>,
}

impl<T, A, P: Machine<T, A>> Play<Option<T>, View<T, A>> for KeepsBits<P> {
    ghost use Rattle.concurrent_queue.specs.history.Shared.{keeps_bits};

    ghost then = { keeps_bits P.moves };
}

/// A slot's guard is won, to take a message out.
pub struct Takes<P> {
    of: PhantomData<P>,
}

impl<T, A, P: Machine<T, A>> Play<Option<T>, View<T, A>> for Takes<P> {
    ghost use Rattle.concurrent_queue.specs.history.Shared.{takes};

    ghost then = { takes P.moves };
}

/// A slot's guard is won, to put a message in.
pub struct Puts<P> {
    of: PhantomData<P>,
}

impl<T, A, P: Machine<T, A>> Play<Option<T>, View<T, A>> for Puts<P> {
    ghost use Rattle.concurrent_queue.specs.history.Shared.{puts};

    ghost then = { puts P.moves };
}

/// A slot is put back and its guard is released.
pub struct Gives;

impl<T, A> Play<Option<T>, View<T, A>> for Gives {
    ghost use Rattle.concurrent_queue.specs.history.Shared.{gives};

    ghost then = { gives };
}

/// The rule is read, and nothing is done.
pub struct Looks<P> {
    of: PhantomData<P>,
}

impl<T, A, P: Machine<T, A>> Play<Option<T>, View<T, A>> for Looks<P> {
    ghost use Rattle.concurrent_queue.specs.history.Shared.{looks};

    ghost then = { looks P.history P.admits };
}

/// An operation, which the proof of a call picks where the call passes `Brand`.
pub trait Happens<T> {
    ghost use Rattle.concurrent_queue.specs.Deeds.{Deed};

    ghost deed: { Deed T };
}

impl<T> Happens<T> for Brand {
    ghost use Rattle.concurrent_queue.specs.Deeds.{retired};

    ghost deed = { retired 0 };
}

/// An operation that leaves all cells as they are.
pub struct Happened<P, E> {
    of: PhantomData<(P, E)>,
}

impl<T, A, P: Machine<T, A>, E: Happens<T>> Play<Option<T>, View<T, A>> for Happened<P, E> {
    ghost use Rattle.concurrent_queue.specs.history.Shared.{makes};

    ghost then = { makes P.moves E.deed };
}

/// Where one goes, by where one is, which the proof of a call picks where the call passes `Brand`.
pub trait Picks<A> {
    ghost to: { A → A };
}

impl<A> Picks<A> for Brand {
    ghost to = { λ a. a };
}

/// A new seat, whose party is at the state that was picked.
pub struct Enters<P, E> {
    of: PhantomData<(P, E)>,
}

impl<T, A, P: Machine<T, A>, E: Picks<A>> Play<Option<T>, View<T, A>> for Enters<P, E> {
    ghost use Rattle.concurrent_queue.specs.history.Shared.{enters};

    ghost then = { enters (E.to P.first) };
}

/// The party of a seat goes to the state that was picked, and touches nothing.
pub struct Turns<E> {
    of: PhantomData<E>,
}

impl<T, A, E: Picks<A>> Play<Option<T>, View<T, A>> for Turns<E> {
    ghost use Rattle.concurrent_queue.specs.history.Shared.{turns};

    ghost then = { turns E.to };
}

/// A counting word is read.
pub struct CountReads<P> {
    of: PhantomData<P>,
}

impl<T, A, P: Machine<T, A>> Play<Option<T>, View<T, A>> for CountReads<P> {
    ghost use Rattle.concurrent_queue.specs.history.Shared.{count_reads};

    ghost then = { count_reads P.counts };
}

/// A counting word is lowered by one.
pub struct CountLowers<P> {
    of: PhantomData<P>,
}

impl<T, A, P: Machine<T, A>> Play<Option<T>, View<T, A>> for CountLowers<P> {
    ghost use Rattle.concurrent_queue.specs.history.Shared.{count_lowers};

    ghost then = { count_lowers P.counts };
}

/// A counting word is raised by one, if it is what was expected.
pub struct CountRaises<P> {
    of: PhantomData<P>,
}

impl<T, A, P: Machine<T, A>> Play<Option<T>, View<T, A>> for CountRaises<P> {
    ghost use Rattle.concurrent_queue.specs.history.Shared.{count_raises};

    ghost then = { count_raises P.counts };
}

/// A counting word is set, in a step that leads the party as a relation says that the proof of the call picks.
pub struct CountSets<E> {
    of: PhantomData<E>,
}

impl<T, A, E: LeadsTo<A>> Play<Option<T>, View<T, A>> for CountSets<E> {
    ghost use Rattle.concurrent_queue.specs.history.Shared.{count_sets};

    ghost then = { count_sets E.to };
}

/// A counting word is read; if it is 0 the step leads the party so, and otherwise nowhere.
pub struct CountPasses<E> {
    of: PhantomData<E>,
}

impl<T, A, E: LeadsTo<A>> Play<Option<T>, View<T, A>> for CountPasses<E> {
    ghost use Rattle.concurrent_queue.specs.history.Shared.{count_passes};

    ghost then = { count_passes E.to };
}

/// A seat is told its number.
pub struct Names;

impl<T, A> Play<Option<T>, View<T, A>> for Names {
    ghost use Rattle.concurrent_queue.specs.history.Shared.{names};

    ghost then = { names };
}

/// A new seat of no call, which is foreign if a foreign call was admitted before.
pub struct Comes<P> {
    of: PhantomData<P>,
}

impl<T, A, P: Machine<T, A>> Play<Option<T>, View<T, A>> for Comes<P> {
    ghost use Rattle.concurrent_queue.specs.history.Shared.{comes};

    ghost then = { comes P.first };
}

/// A seat's foreign call is admitted.
pub struct TurnsForeign;

impl<T, A> Play<Option<T>, View<T, A>> for TurnsForeign {
    ghost use Rattle.concurrent_queue.specs.history.Shared.{turns_foreign};

    ghost then = { turns_foreign };
}

/// A foreign operation on a word.
pub struct Passes;

impl<T, A> Play<Option<T>, View<T, A>> for Passes {
    ghost use Rattle.concurrent_queue.specs.history.Shared.{passes};

    ghost then = { passes };
}

/// A slot's guard is won by a foreign call.
pub struct Wins;

impl<T, A> Play<Option<T>, View<T, A>> for Wins {
    ghost use Rattle.concurrent_queue.specs.history.Shared.{wins};

    ghost then = { wins };
}

/// One party is joined into another's view. What is left to the other's seat the proof of the join picks.
pub struct Joined<P, E> {
    of: PhantomData<(P, E)>,
}

impl<T, A, P: Machine<T, A>, E: Picks<View<T, A>>> Join<View<T, A>> for Joined<P, E> {
    ghost use Rattle.concurrent_queue.specs.history.Shared.{both_views, spent_as};

    ghost both = { both_views };

    ghost spent = { spent_as P.first E.to };
}

/// One party takes in what another has, likewise.
pub struct TakesIn<P, E> {
    of: PhantomData<(P, E)>,
}

impl<T, A, P: Machine<T, A>, E: Picks<View<T, A>>> Join<View<T, A>> for TakesIn<P, E> {
    ghost use Rattle.concurrent_queue.specs.history.Shared.{taking_in, spent_as};

    ghost both = { taking_in P.both };

    ghost spent = { spent_as P.first E.to };
}

/// What a party keeps and what a new one gets, by what the party has, which the proof of a call picks where the call passes `Brand`.
pub trait PicksTwo<A> {
    ghost stays: { A → A };

    ghost goes: { A → A };
}

impl<A> PicksTwo<A> for Brand {
    ghost stays = { λ a. a };

    ghost goes = { λ a. a };
}

/// Some of what a party has goes to a new one.
pub struct Parted<E> {
    of: PhantomData<E>,
}

impl<T, A, E: PicksTwo<A>> Split<View<T, A>> for Parted<E> {
    ghost use Rattle.concurrent_queue.specs.history.Shared.{going_on, parted_view};

    ghost left = { λ v. going_on v (E.stays v.state) };

    ghost right = { λ v. parted_view v (E.goes v.state) };
}
