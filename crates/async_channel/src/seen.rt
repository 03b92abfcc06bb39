//! Traces: values that see each operation on the cells of a channel, with its answer. Only `Seen`, which joins cells to their trace, can
//! report to a trace, since only this module makes a [`Sight`]. An operation is made first and reported then, with its answer.
//!
//! # Extensions
//!
//! All of this module.

ghost use Rattle.std.specs.Prelude.{◌≡◌, Option};
ghost use Rattle.event_listener.specs.declared.key.Key.{Key as Name};
ghost use Rattle.event_listener.specs.declared.waking.Task.{Task as Waiter};
ghost use Rattle.async_channel.specs.Handles.{channel_of, form_of, no_parts};
ghost use Rattle.async_channel.specs.Saw.{Saw, DidBeside};
ghost use Rattle.channel_calls.specs.Deeds.{Deed};

use crate::cells::{Beds, Places, SharedCells, SharedWords, Words};
use crate::shared::Shared;
use crate::with_bound::Witness;
use channel_calls::cells::ChannelCells;
use channel_calls::sleeps::Sleeps;
use channel_calls::stage::{Side, Telling, WaitList};
use channel_calls::words::ChannelWords;
use concurrent_queue::call::QueueReply;
use concurrent_queue::queue_call::QueueCall;
use concurrent_queue::seen as queue;
use event_listener::error::ListenError;
use event_listener::key::Key;
use event_listener::wakes::Wakes;
use event_listener::waking::Task;
use futures::task::Source;
use std::alloc::AllocError;
use std::marker::PhantomData;
use std::sync::Wait;

/// The right to report to a trace of type `S`. Only this module makes one, where an operation is done, so no other body can report to that
/// trace, not even another trace. It takes no bytes.
#[derive(Drop)]
pub struct Sight<S> {
    of: PhantomData<S>,
}

/// What a trace is shown of a channel, after it was done, with its answer. A notification and a removal are shown without the tasks that
/// they woke, which stay with the sink.
#[derive(Copy)]
pub enum Shown<'a> {
    /// A call begins on the channel with this seal: all that is seen up to the next beginning is done to that channel. So a body that makes
    /// its call on another channel, or on a fresh one, is refused.
    Enters(&'a Source),
    /// A listener was added, or refused.
    Inserted(WaitList, Result<Key, ListenError>),
    /// This task is offered to a listener. `Registered` then shows what came of it.
    Offers(WaitList, Key, &'a Task),
    /// The task that was offered to the listener is kept, or was returned.
    Registered(WaitList, Key, &'a Option<Task>),
    /// A listener was removed.
    TakenOff(WaitList, Key),
    /// These of the waiting listeners were notified.
    Told(WaitList, Telling),
    /// So many handles of this kind were counted.
    Counted(Side, usize),
    /// The count of handles of this kind was lowered, and was this before.
    Lowered(Side, usize),
    /// The count of handles of this kind was raised if it was this, or was not.
    Raised(Side, usize, bool),
    /// A task of the thread's own was asked for, and given or refused.
    Parked(&'a Option<Task>),
    /// The thread slept.
    Slept,
}

// Written by hand, since a derived copy of so many variants is long to prove.
impl Clone for Shown<'_> {
    ghost is_clone = { λ x y. y ≡ x };

    ghost is_infallible = { λ _. Unit {0} };

    #[inline(always)]
    fn clone(&self) -> Result<Self, AllocError> {
        Ok(*self)
    }
}

/// What sees the operations on the cells of a channel, each after it was done, with its answer; and that a call which blocks its thread
/// asked for a task of its own, and slept. Of the steps of a queue's call it sees the queue's own operations, as a queue's trace does. The
/// contract of its method says that this was seen, and nothing else. So if nothing is known of a trace but this trait, it can be led from
/// one value to another by these very operations alone.
///
/// This holds of channels without a bound. With a bound the trace is told of each call once it is over, by what the call left
/// ([`Witness`]), whose view says which call that was and what it answered.
///
/// The methods are lent a [`Sight`] of this very trace, which only the cells that do these operations have.
pub trait Trace<T>: queue::Trace<T> {
    ghost use Rattle.std.specs.Prelude.{ℕ};
    ghost use Rattle.async_channel.specs.Parties.{Seat};
    ghost use Rattle.channel_calls.specs.declared.stage.WaitList.{WaitList as Waits};
    ghost use Rattle.async_channel.specs.Shown.{Sees};

    /// Whether a call was seen to begin, between the two, on the channel with this seal.
    ghost entered: { ℕ → Self → Self → Type 0 };

    /// Whether this operation, with this answer, was seen between the two; no operation that is a step of a queue's call is.
    ghost shown: { Deed T Waiter → Self → Self → Type 0 };

    /// Whether a task was seen offered to this listener between the two.
    ghost offering: { Waits → Name → Waiter → Self → Self → Type 0 };

    /// Whether it was seen, between the two, that a task was asked for, with this answer.
    ghost parked: { Option Waiter → Self → Self → Type 0 };

    /// Whether the thread was seen to sleep between the two.
    ghost slept: { Self → Self → Type 0 };

    /// Whether it was told of a call that left this seat.
    ghost called: { Seat T → Type 0 };

    /// This was seen.
    fn saw(&mut self, sight: &Sight<Self>, it: Shown<'_>)
        ensures { Sees entered shown offering parked slept it.entry self.old self.new };

    /// A call was made on a channel with a bound, and left this. A clone or an upgrade without memory makes none, and leaves a party that has
    /// asked nothing.
    fn heard(&self, sight: &Sight<Self>, call: Witness<T>)
        ensures { called call };
}

/// Tells the trace of a channel with a bound of a call, by the seat that the call left.
#[inline(always)]
pub(crate) fn tell<T: Drop, S: Trace<T>>(watch: &S, call: Witness<T>)
    ensures { S.called call }
{
    watch.heard(&Sight { of: PhantomData }, call);
}

/// The answer of a call, of which the channel's trace is told.
#[inline(always)]
pub(crate) fn answer<T: Drop, A, S: Trace<T>>(watch: &S, made: (A, Witness<T>)) -> A
    ensures answer { result ≡ made.0 }
    ensures told { S.called made.1 }
{
    let (answer, call) = made;
    tell(watch, call);
    answer
}

/// Cells that the threads of a channel share, and a trace that sees each operation on them. Only this module makes one.
pub(crate) struct Seen<C, S> {
    cells: C,
    trace: S,
}

impl<'a, T: Drop, R: Wait, B: Drop, S: Trace<T>> Seen<SharedCells<'a, T, R, B>, S> {
    /// The cells of this channel, for a thread that may wait, with this bed or none, seen by this trace, which is shown whose they are.
    #[inline(always)]
    pub(crate) fn cells(
        shared: &'a Shared<T>,
        rt: &'a R,
        bed: B,
        trace: S,
    ) -> Seen<SharedCells<'a, T, R, B>, S>
        ensures form { form_of result.cells.shared.now ≡ form_of shared.now }
        ensures trace { S.entered (channel_of shared.now).seal trace result.trace }
    {
        let mut trace = trace;
        trace.saw(&Sight { of: PhantomData }, Shown::Enters(&shared.seal));
        let cells = SharedCells { shared, rt, bed };
        Seen { cells, trace }
    }
}

impl<'a, T: Drop, S: Trace<T>> Seen<SharedWords<'a, T>, S> {
    /// The words of this channel, seen by this trace, which is shown whose they are.
    #[inline(always)]
    pub(crate) fn words(shared: &'a Shared<T>, trace: S) -> Seen<SharedWords<'a, T>, S>
        ensures form { form_of result.cells.shared.now ≡ form_of shared.now }
        ensures trace { S.entered (channel_of shared.now).seal trace result.trace }
    {
        let mut trace = trace;
        trace.saw(&Sight { of: PhantomData }, Shown::Enters(&shared.seal));
        let cells = SharedWords { shared };
        Seen { cells, trace }
    }
}

impl<C: Drop, S> Seen<C, S> {
    /// The trace.
    #[inline(always)]
    pub(crate) fn into_trace(self) -> S
        ensures { result ≡ self.trace }
    {
        let Seen { cells, trace } = self;
        drop(cells);
        trace
    }
}

impl<T, C: Places<T>, S: Trace<T>> ChannelCells<T, Task> for Seen<C, S> {
    ghost known = { ⊥ };

    ghost parts = { λ s. no_parts (C.form_of s.cells) };

    ghost has_form = { λ s f. f ≡ C.form_of s.cells };

    ghost did = { λ d a b. (C.form_of b.cells ≡ C.form_of a.cells) × DidBeside C.did d a.cells b.cells × Saw S.did S.shown (C.form_of a.cells) d a.trace b.trace };

    ghost exact = { λ unknown. absurd unknown };

    ghost ready = { λ at next s d stands does. tt };

    ghost leads = { λ at next s t d stands done does. tt };

    ghost rests = { λ at next s stands idles. tt };

    #[inline(always)]
    fn step_queue(&mut self, call: &mut QueueCall<T>) -> Option<QueueReply<T>> {
        self.cells.step_told(call, &mut self.trace)
    }

    #[inline(always)]
    fn insert(&mut self, line: WaitList) -> Result<Key, ListenError> {
        let answer = self.cells.insert(line);
        self.trace
            .saw(&Sight { of: PhantomData }, Shown::Inserted(line, answer));
        answer
    }

    #[inline(always)]
    fn register(&mut self, line: WaitList, key: Key, task: Task) -> Option<Task> {
        self.trace.saw(&Sight { of: PhantomData }, Shown::Offers(line, key, &task));
        let answer = self.cells.register(line, key, task);
        self.trace.saw(
            &Sight { of: PhantomData },
            Shown::Registered(line, key, &answer),
        );
        answer
    }

    #[inline(always)]
    fn remove<K: Wakes<Task>>(&mut self, line: WaitList, key: Key, sink: &mut K) {
        self.cells.remove(line, key, sink);
        self.trace
            .saw(&Sight { of: PhantomData }, Shown::TakenOff(line, key));
    }

    #[inline(always)]
    fn tell<K: Wakes<Task>>(&mut self, line: WaitList, telling: Telling, sink: &mut K) {
        self.cells.tell(line, telling, sink);
        self.trace
            .saw(&Sight { of: PhantomData }, Shown::Told(line, telling));
    }

    #[inline(always)]
    fn count(&mut self, side: Side) -> usize {
        let found = self.cells.count(side);
        self.trace
            .saw(&Sight { of: PhantomData }, Shown::Counted(side, found));
        found
    }

    #[inline(always)]
    fn lower(&mut self, side: Side) -> usize {
        let found = self.cells.lower(side);
        self.trace
            .saw(&Sight { of: PhantomData }, Shown::Lowered(side, found));
        found
    }

    #[inline(always)]
    fn raise(&mut self, side: Side, from: usize) -> bool {
        let done = self.cells.raise(side, from);
        self.trace.saw(&Sight { of: PhantomData }, Shown::Raised(side, from, done));
        done
    }
}

impl<T, C: Beds<T>, S: Trace<T>> Sleeps<T, Task> for Seen<C, S> {
    ghost parked = { λ o a b. (C.form_of b.cells ≡ C.form_of a.cells) × C.parked o a.cells b.cells × S.parked o a.trace b.trace };

    ghost slept = { λ a b. (C.form_of b.cells ≡ C.form_of a.cells) × C.slept a.cells b.cells × S.slept a.trace b.trace };

    ghost free = { (λ at s. tt, λ d s. tt) };

    #[inline(always)]
    fn park(&mut self) -> Option<Task> {
        let answer = self.cells.park();
        self.trace
            .saw(&Sight { of: PhantomData }, Shown::Parked(&answer));
        answer
    }

    #[inline(always)]
    fn sleep(&mut self) {
        self.cells.sleep();
        self.trace.saw(&Sight { of: PhantomData }, Shown::Slept);
    }
}

impl<T, C: Words<T>, S: Trace<T>> ChannelWords<T, Task> for Seen<C, S> {
    ghost has_form = { λ s f. f ≡ C.form_of s.cells };

    ghost did = { λ d a b. (C.form_of b.cells ≡ C.form_of a.cells) × DidBeside C.did d a.cells b.cells × Saw S.did S.shown (C.form_of a.cells) d a.trace b.trace };

    ghost ready = { λ at next s d stands does. tt };

    ghost leads = { λ at next s t d stands done does. tt };

    ghost rests = { λ at next s stands idles. tt };

    #[inline(always)]
    fn step_words(&mut self, call: &mut QueueCall<T>) -> Option<QueueReply<T>> {
        self.cells.step_told(call, &mut self.trace)
    }

    #[inline(always)]
    fn count(&mut self, side: Side) -> usize {
        let found = self.cells.count(side);
        self.trace
            .saw(&Sight { of: PhantomData }, Shown::Counted(side, found));
        found
    }
}
