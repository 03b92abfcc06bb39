//! Traces: values that see each operation on the cells of a shared queue, with its answer. Only `Seen`, which joins cells to their trace,
//! can report to a trace, since only this module makes a [`Sight`].
//!
//! # Extensions
//!
//! All of this module.

ghost use Rattle.std.specs.Prelude.{◌≡◌};
ghost use Rattle.concurrent_queue.specs.Deeds.{Deed, did_take};
ghost use Rattle.concurrent_queue.specs.Shown.{Sees};

use crate::cells::{Cells, QueueForm, Slot, Word};
use crate::error::NoMemory;
use crate::history::foreign::ForeignSeat;
use crate::history::party::QueueCells;
use crate::shared::cells::{SharedCells, WordCells};
use std::marker::PhantomData;
use std::sync::Wait;

/// The right to report to a trace of type `S`: only the functions of this module that join cells to their trace make one, and they lend it
/// to that trace alone. It has no size.
pub struct Sight<S> {
    of: PhantomData<S>,
}

/// What a trace is shown of an operation on a queue, after it was done, with its answer. Messages are shown by methods of their own.
#[derive(Drop)]
pub enum Shown {
    /// A word was loaded, and held this.
    Loaded(Word, u64),
    /// A word was written.
    Stored(Word, u64),
    /// The first number was to be replaced by the second; `Err` has what the word held instead.
    Exchanged(Word, u64, u64, Result<u64, u64>),
    /// The first was added to a word that held the second.
    Added(Word, u64, u64),
    /// Bits of a word that held the second were set.
    BitsSet(Word, u64, u64),
    /// All other bits of a word that held the second were cleared.
    BitsKept(Word, u64, u64),
    /// A message was put into the slot, or was returned.
    Put(Slot, bool),
    /// A blank block was asked for.
    Spared(Result<u64, NoMemory>),
    /// A block was retired.
    Retired(u64),
}

/// What sees the operations on the cells of a queue, each after it was made, with its answer. The contract of a method says that this
/// operation was seen, and no other. So if nothing is known of a trace but this trait, it can be led from one value to another by these
/// operations alone. Each method takes a sight of this very trace, so no code but the cells' own can report to it, not even another trace.
pub trait Trace<T> {
    ghost use Rattle.concurrent_queue.specs.declared.cells.Slot.{Slot};

    /// Whether this operation, with this answer, was seen between the two.
    ghost did: { Deed T → Self → Self → Type 0 };

    /// Whether this message was seen on its way to this slot between the two.
    ghost brought: { Slot → T → Self → Self → Type 0 };

    /// This was done to a cell.
    fn operated(&mut self, sight: &Sight<Self>, it: Shown)
        ensures { Sees did brought it self.old self.new };

    /// This message is about to be put into a slot. [`Shown::Put`] then shows what came of it.
    fn bring(&mut self, sight: &Sight<Self>, at: Slot, message: &T)
        ensures { brought at message.now self.old self.new };

    /// A slot was emptied, and held this.
    fn taken(&mut self, sight: &Sight<Self>, at: Slot, found: &Option<T>)
        ensures { did (did_take at found.now) self.old self.new };
}

/// A trace that keeps nothing. It has no size, and reporting to it takes no instruction.
#[derive(Clone, Copy, Debug)]
pub struct NoTrace;

impl<T> Trace<T> for NoTrace {
    ghost did = { λ _ _ _. Unit {0} };

    ghost brought = { λ _ _ _ _. Unit {0} };

    #[inline(always)]
    fn operated(&mut self, _sight: &Sight<NoTrace>, _it: Shown) {}

    #[inline(always)]
    fn bring(&mut self, _sight: &Sight<NoTrace>, _at: Slot, _message: &T) {}

    #[inline(always)]
    fn taken(&mut self, _sight: &Sight<NoTrace>, _at: Slot, _found: &Option<T>) {}
}

/// A trace that is lent for one call.
#[derive(Drop)]
pub(crate) struct Lent<'a, S> {
    trace: &'a mut S,
}

impl<'a, S> Lent<'a, S> {
    /// This very trace.
    #[inline(always)]
    pub(crate) fn new(trace: &'a mut S) -> Lent<'a, S>
        ensures same_reference { result.trace.ghost_name ≡ trace.entry.ghost_name }
        ensures unchanged { result.trace.now ≡ trace.old }
    {
        Lent { trace }
    }

    /// The trace that was lent.
    #[inline(always)]
    pub(crate) fn into_trace(self) -> &'a mut S
        ensures same_reference { result.ghost_name ≡ self.entry.trace.ghost_name }
        ensures unchanged { result.now ≡ self.entry.trace.now }
    {
        let Lent { trace } = self;
        trace
    }
}

impl<T, S: Trace<T>> Trace<T> for Lent<'_, S> {
    ghost use Rattle.std.specs.Prelude.{◌≡◌};

    ghost did = { λ d a b. (b.trace.ghost_name ≡ a.trace.ghost_name) × S.did d a.trace.now b.trace.now };

    ghost brought = { λ at m a b. (b.trace.ghost_name ≡ a.trace.ghost_name) × S.brought at m a.trace.now b.trace.now };

    #[inline(always)]
    fn operated(&mut self, _sight: &Sight<Self>, it: Shown) {
        self.trace.operated(&Sight { of: PhantomData }, it);
    }

    #[inline(always)]
    fn bring(&mut self, _sight: &Sight<Self>, at: Slot, message: &T) {
        self.trace.bring(&Sight { of: PhantomData }, at, message);
    }

    #[inline(always)]
    fn taken(&mut self, _sight: &Sight<Self>, at: Slot, found: &Option<T>) {
        self.trace.taken(&Sight { of: PhantomData }, at, found);
    }
}

/// Cells of a shared queue, and a trace that sees each operation on them. Nobody else can see them or report to the trace.
pub(crate) struct Seen<C, S> {
    cells: C,
    trace: S,
    sight: Sight<S>,
}

/// The cells of words of a shared queue, seen by this trace.
#[inline(always)]
pub(crate) fn see_words<T: Drop, S>(cells: WordCells<'_, T>, trace: S) -> Seen<WordCells<'_, T>, S>
    ensures trace { result.trace ≡ trace }
{
    Seen {
        cells,
        trace,
        sight: Sight { of: PhantomData },
    }
}

/// The same with the runtime value.
#[inline(always)]
pub(crate) fn see_cells<'a, T: Drop, R: Wait, S>(
    cells: SharedCells<'a, T, R>,
    trace: S,
) -> Seen<SharedCells<'a, T, R>, S>
    ensures trace { result.trace ≡ trace }
{
    Seen {
        cells,
        trace,
        sight: Sight { of: PhantomData },
    }
}

/// The cells of a call of a queue with a bound, seen by this trace.
#[inline(always)]
pub(crate) fn see_call<T: Drop, S>(cells: QueueCells<'_, T>, trace: S) -> Seen<QueueCells<'_, T>, S>
    ensures cells { result.cells ≡ cells.entry }
    ensures trace { result.trace ≡ trace }
{
    Seen {
        cells,
        trace,
        sight: Sight { of: PhantomData },
    }
}

/// The same of a call that may have been begun on another queue.
#[inline(always)]
pub(crate) fn see_foreign<T: Drop, S>(
    cells: ForeignSeat<'_, T>,
    trace: S,
) -> Seen<ForeignSeat<'_, T>, S>
    ensures cells { result.cells ≡ cells.entry }
    ensures trace { result.trace ≡ trace }
{
    Seen {
        cells,
        trace,
        sight: Sight { of: PhantomData },
    }
}

impl<C, S> Seen<C, S> {
    /// The cells and what saw them.
    #[inline(always)]
    pub(crate) fn into_parts(self) -> (C, S)
        ensures cells { result.0 ≡ self.cells }
        ensures trace { result.1 ≡ self.trace }
    {
        let Seen {
            cells,
            trace,
            sight,
        } = self;
        let Sight { of: _ } = sight;
        (cells, trace)
    }
}

impl<C: Drop, S> Seen<C, S> {
    /// What saw them.
    #[inline(always)]
    pub(crate) fn into_trace(self) -> S
        ensures { result ≡ self.trace }
    {
        let Seen {
            cells,
            trace,
            sight,
        } = self;
        let Sight { of: _ } = sight;
        drop(cells);
        trace
    }
}

impl<T, C: Cells<T>, S: Trace<T>> Cells<T> for Seen<C, S> {
    ghost use Rattle.std.specs.Prelude.{◌≡◌};

    ghost known = { C.known };

    ghost contents = { λ s. C.contents s.cells };

    ghost form_of = { λ s. C.form_of s.cells };

    ghost did = { λ d a b. C.did d a.cells b.cells × S.did d a.trace b.trace };

    ghost may = { λ d s. C.may d s.cells };

    ghost stands = { λ at s. C.stands at s.cells };

    ghost ready = { λ at s d r stands next. C.ready at s.cells d r stands next };

    ghost leads = { λ at s t d r stands done next. C.leads at s.cells t.cells d r stands (done.0) next };

    ghost keeps_form = { λ d a b done. C.keeps_form d a.cells b.cells (done.0) };

    ghost exact_form = { λ known a. C.exact_form known a.cells };

    ghost exact = { λ known d a b done. C.exact known d a.cells b.cells (done.0) };

    #[inline(always)]
    fn form(&self) -> QueueForm {
        self.cells.form()
    }

    #[inline(always)]
    fn load(&mut self, at: Word) -> u64 {
        let found = self.cells.load(at);
        self.trace.operated(&self.sight, Shown::Loaded(at, found));
        found
    }

    #[inline(always)]
    fn store(&mut self, at: Word, value: u64) {
        self.cells.store(at, value);
        self.trace.operated(&self.sight, Shown::Stored(at, value));
    }

    #[inline(always)]
    fn compare_exchange(&mut self, at: Word, expected: u64, next: u64) -> Result<u64, u64> {
        let answer = self.cells.compare_exchange(at, expected, next);
        self.trace
            .operated(&self.sight, Shown::Exchanged(at, expected, next, answer));
        answer
    }

    #[inline(always)]
    fn fetch_add(&mut self, at: Word, by: u64) -> u64 {
        let found = self.cells.fetch_add(at, by);
        self.trace
            .operated(&self.sight, Shown::Added(at, by, found));
        found
    }

    #[inline(always)]
    fn fetch_or(&mut self, at: Word, bits: u64) -> u64 {
        let found = self.cells.fetch_or(at, bits);
        self.trace
            .operated(&self.sight, Shown::BitsSet(at, bits, found));
        found
    }

    #[inline(always)]
    fn fetch_and(&mut self, at: Word, bits: u64) -> u64 {
        let found = self.cells.fetch_and(at, bits);
        self.trace
            .operated(&self.sight, Shown::BitsKept(at, bits, found));
        found
    }

    #[inline(always)]
    fn put(&mut self, at: Slot, value: T) -> Result<(), T> {
        self.trace.bring(&self.sight, at, &value);
        let answer = self.cells.put(at, value);
        self.trace
            .operated(&self.sight, Shown::Put(at, answer.is_ok()));
        answer
    }

    #[inline(always)]
    fn take(&mut self, at: Slot) -> Option<T> {
        let found = self.cells.take(at);
        self.trace.taken(&self.sight, at, &found);
        found
    }

    #[inline(always)]
    fn spare(&mut self) -> Result<u64, NoMemory> {
        let answer = self.cells.spare();
        self.trace.operated(&self.sight, Shown::Spared(answer));
        answer
    }

    #[inline(always)]
    fn retire(&mut self, block: u64) {
        self.cells.retire(block);
        self.trace.operated(&self.sight, Shown::Retired(block));
    }
}
