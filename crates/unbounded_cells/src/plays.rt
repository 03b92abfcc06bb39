//! The rule of a growing table whose words and slots a history has made, and what its steps tell.

use crate::rule::{BlockMachine, BlockView};
use concurrent_queue::history::led::LeadsTo;
use concurrent_queue::history::rule::Happens;
use growing_table::{GrowingRule, Play};
use std::marker::{Brand, PhantomData};

/// The rule.
pub struct BlockHistory<P> {
    of: PhantomData<P>,
}

impl<T, A, P: BlockMachine<T, A>> GrowingRule<T, BlockView<T, A>, ()> for BlockHistory<P> {
    ghost use Rattle.unbounded_cells.specs.Rule.{IsRuled};
    ghost use Rattle.unbounded_cells.specs.Told.{first_seat};

    ghost holds = { λ _ s. IsRuled P.moves P.history P.sized P.admits s };

    ghost first = { λ _. first_seat P.opened };
}

/// An operation by what was found, which the proof of a call picks where the call passes `Brand`.
pub trait Deeds<T> {
    ghost use Rattle.std.specs.Prelude.{ℕ};
    ghost use Rattle.concurrent_queue.specs.Deeds.{Deed};

    ghost deed: { ℕ → Deed T };
}

impl<T> Deeds<T> for Brand {
    ghost use Rattle.concurrent_queue.specs.Deeds.{retired};

    ghost deed = { λ _. retired 0 };
}

/// The party's machine makes that operation.
pub struct Makes<P, E> {
    of: PhantomData<(P, E)>,
}

impl<T, A, P: BlockMachine<T, A>, E: Deeds<T>> Play<Option<T>, BlockView<T, A>> for Makes<P, E> {
    ghost use Rattle.unbounded_cells.specs.Told.{makes};

    ghost then = { makes P.moves E.deed };
}

/// A load of a word.
pub struct Loads<P> {
    of: PhantomData<P>,
}

impl<T, A, P: BlockMachine<T, A>> Play<Option<T>, BlockView<T, A>> for Loads<P> {
    ghost use Rattle.unbounded_cells.specs.Words.{loads};

    ghost then = { loads P.moves };
}

/// A store to one.
pub struct Stores<P> {
    of: PhantomData<P>,
}

impl<T, A, P: BlockMachine<T, A>> Play<Option<T>, BlockView<T, A>> for Stores<P> {
    ghost use Rattle.unbounded_cells.specs.Words.{stores};

    ghost then = { stores P.moves };
}

/// A compare-and-exchange of one.
pub struct Exchanges<P> {
    of: PhantomData<P>,
}

impl<T, A, P: BlockMachine<T, A>> Play<Option<T>, BlockView<T, A>> for Exchanges<P> {
    ghost use Rattle.unbounded_cells.specs.Words.{exchanges};

    ghost then = { exchanges P.moves };
}

/// Something is added to one.
pub struct Adds<P> {
    of: PhantomData<P>,
}

impl<T, A, P: BlockMachine<T, A>> Play<Option<T>, BlockView<T, A>> for Adds<P> {
    ghost use Rattle.unbounded_cells.specs.Words.{adds};

    ghost then = { adds P.moves };
}

/// Bits of one are set.
pub struct SetsBits<P> {
    of: PhantomData<P>,
}

impl<T, A, P: BlockMachine<T, A>> Play<Option<T>, BlockView<T, A>> for SetsBits<P> {
    ghost use Rattle.unbounded_cells.specs.Words.{sets_bits};

    ghost then = { sets_bits P.moves };
}

/// Bits of one are kept, and all others cleared.
pub struct KeepsBits<P> {
    of: PhantomData<P>,
}

impl<T, A, P: BlockMachine<T, A>> Play<Option<T>, BlockView<T, A>> for KeepsBits<P> {
    ghost use Rattle.unbounded_cells.specs.Words.{keeps_bits};

    ghost then = { keeps_bits P.moves };
}

/// The slot whose flag is meant, which the proof of a call picks where the call passes `Brand`.
pub trait Offset {
    ghost use Rattle.std.specs.Prelude.{ℕ};

    ghost offset: { ℕ };
}

impl Offset for Brand {
    ghost offset = { 0 };
}

/// The flag of a slot is read.
pub struct ReadsFlag<P, F> {
    of: PhantomData<(P, F)>,
}

impl<T, A, P: BlockMachine<T, A>, F: Offset> Play<Option<T>, BlockView<T, A>> for ReadsFlag<P, F> {
    ghost use Rattle.unbounded_cells.specs.Words.{reads_flag};

    ghost then = { reads_flag P.moves F.offset };
}

/// The flag of a slot is set.
pub struct SetsFlag<P, F> {
    of: PhantomData<(P, F)>,
}

impl<T, A, P: BlockMachine<T, A>, F: Offset> Play<Option<T>, BlockView<T, A>> for SetsFlag<P, F> {
    ghost use Rattle.unbounded_cells.specs.Words.{sets_flag};

    ghost then = { sets_flag P.moves F.offset };
}

/// An operation that leaves all cells as they are.
pub struct Happened<P, E> {
    of: PhantomData<(P, E)>,
}

impl<T, A, P: BlockMachine<T, A>, E: Happens<T>> Play<Option<T>, BlockView<T, A>>
    for Happened<P, E> {
    ghost use Rattle.unbounded_cells.specs.Words.{happens};

    ghost then = { happens P.moves E.deed };
}

/// The number of blocks is read: where there is no block of this number, the operation on it is made.
pub struct Misses<P, E> {
    of: PhantomData<(P, E)>,
}

impl<T, A, P: BlockMachine<T, A>, E: Happens<T>> Play<Option<T>, BlockView<T, A>> for Misses<P, E> {
    ghost use Rattle.unbounded_cells.specs.Words.{misses};

    ghost then = { misses P.moves E.deed };
}

/// A slot's guard is won, to take a message out.
pub struct Takes<P> {
    of: PhantomData<P>,
}

impl<T, A, P: BlockMachine<T, A>> Play<Option<T>, BlockView<T, A>> for Takes<P> {
    ghost use Rattle.unbounded_cells.specs.Slots.{takes};

    ghost then = { takes P.moves };
}

/// The message that is put into a slot, which the proof of a call picks where the call passes `Brand`.
pub trait Brings<T> {
    ghost use Rattle.std.specs.Prelude.{Option};

    ghost brought: { Option T };
}

impl<T> Brings<T> for Brand {
    ghost use Rattle.std.specs.Prelude.{None};

    ghost brought = { None };
}

/// A slot's guard is won, to put a message in.
pub struct Puts<P, E> {
    of: PhantomData<(P, E)>,
}

impl<T, A, P: BlockMachine<T, A>, E: Brings<T>> Play<Option<T>, BlockView<T, A>> for Puts<P, E> {
    ghost use Rattle.unbounded_cells.specs.Slots.{puts};

    ghost then = { puts P.moves E.brought };
}

/// A slot is put back and its guard is released.
pub struct Gives;

impl<T, A> Play<Option<T>, BlockView<T, A>> for Gives {
    ghost use Rattle.unbounded_cells.specs.Slots.{gives};

    ghost then = { gives };
}

/// A counting word is read.
pub struct CountReads<P> {
    of: PhantomData<P>,
}

impl<T, A, P: BlockMachine<T, A>> Play<Option<T>, BlockView<T, A>> for CountReads<P> {
    ghost use Rattle.unbounded_cells.specs.Counts.{count_reads};

    ghost then = { count_reads P.counts };
}

/// A counting word is lowered by one.
pub struct CountLowers<P> {
    of: PhantomData<P>,
}

impl<T, A, P: BlockMachine<T, A>> Play<Option<T>, BlockView<T, A>> for CountLowers<P> {
    ghost use Rattle.unbounded_cells.specs.Counts.{count_lowers};

    ghost then = { count_lowers P.counts };
}

/// A counting word is raised by one, if it is what was expected.
pub struct CountRaises<P> {
    of: PhantomData<P>,
}

impl<T, A, P: BlockMachine<T, A>> Play<Option<T>, BlockView<T, A>> for CountRaises<P> {
    ghost use Rattle.unbounded_cells.specs.Counts.{count_raises};

    ghost then = { count_raises P.counts };
}

/// A counting word is set, in a step that leads the party as a relation says that the proof of the call picks.
pub struct CountSets<E> {
    of: PhantomData<E>,
}

impl<T, A, E: LeadsTo<A>> Play<Option<T>, BlockView<T, A>> for CountSets<E> {
    ghost use Rattle.unbounded_cells.specs.Counts.{count_sets};

    ghost then = { count_sets E.to };
}

/// A counting word is read; if it is 0 the step leads the party so, and otherwise nowhere.
pub struct CountPasses<E> {
    of: PhantomData<E>,
}

impl<T, A, E: LeadsTo<A>> Play<Option<T>, BlockView<T, A>> for CountPasses<E> {
    ghost use Rattle.unbounded_cells.specs.Counts.{count_passes};

    ghost then = { count_passes E.to };
}
