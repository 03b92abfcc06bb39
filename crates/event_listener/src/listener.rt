//! Listeners of events. A listener owns its place on the event's list, and gives it up when it is dropped.
//!
//! Every method that takes the list's lock may wait for it: polls, waits, `discard`, and drops.
ghost use Rattle.std.specs.Prelude.{◌≡◌, ⊤, Result, ℕ, Bool, Option, Some, None, true, false, ◌↔◌, IsTrue, IfOk, IfErr, Ok, Err, is_none};
ghost use Rattle.std.specs.declared.time.Duration.{Duration as Span};
ghost use Rattle.std.specs.declared.time.Instant.{Instant as Moment};
ghost use Rattle.futures.specs.Poll.{OnPending, IfReady};
ghost use Rattle.futures.specs.Task.{Covers, IsArmed, Keeps};
ghost use Rattle.futures.specs.declared.task.waker.Waker.{Waker as OfTask};
ghost use Rattle.event_listener.specs.Listening.{Listening, Listened, RefusesToListen, Armed, GivesTag, LeftSo};
ghost use Rattle.event_listener.specs.Waits.{listener_of};

use crate::error::ListenError;
use crate::event::Event;
use crate::homes::Begun;
use crate::list::List;
use crate::place::Place;
use crate::steps::Steps;
use crate::waking::{Task, WakerCell};
use futures::future::Future;
use futures::task::{Context, Poll, Waker};
use std::alloc::Global;
use std::error::Error;
use std::fmt;
use std::marker::Model;
use std::sync::{Arc, Wait};
use std::time::{Clock, Duration, Instant};

/// Why a poll of a listener can neither return a tag nor pend.
#[derive(Clone, Copy, PartialEq, Eq, Debug)]
pub enum PollFault {
    /// The listener has taken its tag already, so it is on no list. Nothing was changed.
    NeverInserted,
}

impl fmt::Display for PollFault {
    fn fmt<W: fmt::Write>(&self, f: &mut fmt::Formatter<W>) -> fmt::Result {
        write!(f, "the listener has given its tag")
    }
}

impl Error for PollFault {}

/// Why a wait didn't begin. It returns the listener unchanged.
#[derive(Drop)]
pub enum WaitError<L> {
    /// There was no memory for what the thread sleeps on.
    NoMemory(L),
    /// The listener has taken its tag already, so it is on no list. This is checked first.
    NeverInserted(L),
}

impl<L> WaitError<L> {
    /// The listener that was to wait.
    pub fn into_inner(self) -> L
        ensures { result ≡ listener_of self }
    {
        match self {
            WaitError::NoMemory(listener) => listener,
            WaitError::NeverInserted(listener) => listener,
        }
    }
}

impl<L: Drop> Error for WaitError<L> {}

impl<L> fmt::Display for WaitError<L> {
    fn fmt<W: fmt::Write>(&self, f: &mut fmt::Formatter<W>) -> fmt::Result {
        f.pad(match self {
            WaitError::NoMemory(_) => "want of memory",
            WaitError::NeverInserted(_) => "the listener has given its tag",
        })
    }
}

/// The listener isn't shown: reading it takes the runtime value.
impl<L> fmt::Debug for WaitError<L> {
    fn fmt<W: fmt::Write>(&self, f: &mut fmt::Formatter<W>) -> fmt::Result {
        f.pad(match self {
            WaitError::NoMemory(_) => "NoMemory(..)",
            WaitError::NeverInserted(_) => "NeverInserted(..)",
        })
    }
}

/// A listener, which is told once and then has a tag to take.
///
/// It is finished once it has given its tag. One that is dropped unfinished leaves its event; if it was told, its notification is passed
/// on. As `event-listener` 5.4.2, with a poll by hand beside its futures.
pub trait Listener<T>: Sized {
    /// The identity of its event.
    ghost identity: { Self → ℕ };

    /// Whether it has given its tag.
    ghost is_finished: { Self → Bool };

    /// Whether a poll with this waker looked at it, in a critical section on its list, and found this: its tag, or that it waits.
    ghost polled: { Self → OfTask → Option T → Type 0 };

    /// Whether a wait on it registered and slept so that it got this tag.
    ghost waited: { Self → T → Type 0 };

    /// Whether a wait with this limit did, and left so, with its tag or without.
    ghost waited_for: { Self → Span → Option T → Type 0 };

    /// Whether a wait up to this moment did.
    ghost waited_until: { Self → Moment → Option T → Type 0 };

    /// Whether memory for what a thread sleeps on was refused.
    ghost refused: { Self → Type 0 };

    /// Whether one critical section removed it from its list without passing a notification on, and it was told; or it was finished before.
    ghost discarded: { Self → Bool → Type 0 };

    /// Takes the tag of a told listener; one that waits keeps the waker, which a notification wakes.
    ///
    /// `NeverInserted` exactly if it was finished; nothing is changed then.
    ///
    /// A waker wakes its task when it is dropped. So a second poll of a waiting listener wakes the task of the first one's waker, and a
    /// poll that doesn't pend wakes its own task. Polling a listener as a `Future` of `futures` wakes nobody.
    fn poll(&mut self, waker: Waker) -> Poll<Result<T, PollFault>>
        ensures fault { (result ≡ Poll.Ready (Err PollFault.NeverInserted)) ↔ (is_finished self.old ≡ true) }
        ensures ready { (tag : T) → result ≡ Poll.Ready (Ok tag) → polled self.old waker (Some tag) }
        ensures waits { OnPending result (polled self.old waker None) }
        ensures finished { IfReady result (λ _. is_finished self.new ≡ true) }
        ensures pending { OnPending result (self.new ≡ self.old) }
        ensures event { identity self.new ≡ identity self.old };

    /// Blocks the thread until the listener is told, and returns its tag. It may wait for ever.
    ///
    /// `NoMemory` if there is none for the lock and condition variable that the thread sleeps on.
    fn wait(self) -> Result<T, WaitError<Self>>
        ensures never_inserted { (result ≡ Err (WaitError.NeverInserted self)) ↔ (is_finished self ≡ true) }
        ensures handed_back { IfErr result (λ e. listener_of e ≡ self) }
        ensures no_memory { (l : _) → result ≡ Err (WaitError.NoMemory l) → refused self }
        ensures waited { IfOk result (waited self) };

    /// Blocks the thread until the listener is told or the time is up: its tag, or `None` once it has left.
    ///
    /// A listener that was told never gives `None`: when the time is up it leaves the list in the very critical section that finds it not
    /// told, and passes nothing on. So each listener that a notification counts as told by it takes its tag.
    ///
    /// The time counts from the call, waiting for the list's lock included; a timeout of zero doesn't sleep. A clock that can't be read
    /// ends the wait as a timeout.
    fn wait_timeout<K: Clock>(
        self,
        clock: &K,
        timeout: Duration,
    ) -> Result<Option<T>, WaitError<Self>>
        ensures never_inserted { (result ≡ Err (WaitError.NeverInserted self)) ↔ (is_finished self ≡ true) }
        ensures handed_back { IfErr result (λ e. listener_of e ≡ self) }
        ensures no_memory { (l : _) → result ≡ Err (WaitError.NoMemory l) → refused self }
        ensures waited { IfOk result (waited_for self timeout) };

    /// As [`wait_timeout`](Listener::wait_timeout), until the clock reads `deadline`; one that has passed doesn't sleep.
    fn wait_deadline<K: Clock>(
        self,
        clock: &K,
        deadline: Instant,
    ) -> Result<Option<T>, WaitError<Self>>
        ensures never_inserted { (result ≡ Err (WaitError.NeverInserted self)) ↔ (is_finished self ≡ true) }
        ensures handed_back { IfErr result (λ e. listener_of e ≡ self) }
        ensures no_memory { (l : _) → result ≡ Err (WaitError.NoMemory l) → refused self }
        ensures waited { IfOk result (waited_until self deadline) };

    /// Leaves the event without passing a notification on, and answers whether it was told and had not given its tag.
    fn discard(self) -> bool
        ensures finished { is_finished self ≡ true → result ≡ false }
        ensures discarded { discarded self result };

    /// Whether this is the event that it listens to: whether the identities are equal. It never waits.
    ///
    /// This tells apart events whose identities came from one `EventIds`. Each source begins with the same number, so it may be true of
    /// another event from another source.
    fn listens_to(&self, event: &Event<T>) -> bool
        ensures { IsTrue result ↔ (identity self.now ≡ event.now.number) };

    /// Whether both listen to one event: whether the identities are equal. It never waits.
    ///
    /// This tells apart events whose identities came from one `EventIds`. Of events from two sources it may be true though they are two.
    fn same_event(&self, other: &Self) -> bool
        ensures { IsTrue result ↔ (identity self.now ≡ identity other.now) };
}

/// A listener of its own, apart from its event's lifetime.
///
/// It keeps the runtime, since its drop takes the list's lock. Contracts see its event's identity and whether it is finished. As
/// `event-listener` 5.4.2, but its node is in the list's own memory.
pub struct EventListener<T: Drop, R: Wait + Copy, L: Steps<T> = List<T, Task>> {
    place: Place<T, L>,
    rt: R,
}

impl<T: Drop, R: Wait + Copy, L: Steps<T>> Model for EventListener<T, R, L> {
    ghost use Rattle.event_listener.specs.Listening.{Listening};
    ghost use Rattle.event_listener.specs.Places.{seen};

    ghost Value = { Listening };

    ghost view = { λ l. seen l.place };
}

impl<T: Drop, R: Wait + Copy, L: Steps<T>> EventListener<T, R, L> {
    pub(crate) fn new(
        rt: R,
        begun: Begun<'_, T, L>,
        event: u64,
        alloc: Global,
        cell: Arc<WakerCell>,
    ) -> Result<Self, ListenError>
        ensures event { IfOk result (λ listener. listener.event ≡ event) }
        ensures list { IfOk result (λ listener. L.holds begun.entry.homes.now.once.id listener.list) }
        ensures listens { IfOk result (Listened L.did) }
        ensures refused { IfErr result (RefusesToListen L.did L.holds L.refused begun.entry.homes.now.once.id) }
    {
        match Place::open(&rt, begun, event, alloc, cell) {
            Ok(place) => Ok(EventListener { place, rt }),
            Err(error) => Err(error),
        }
    }
}

impl<T: Drop, R: Wait + Copy, L: Steps<T>> Listener<T> for EventListener<T, R, L> {
    ghost use Rattle.event_listener.specs.Listening.{Polled, Waited, WaitedFor, WaitedUntil, LeftSo};

    ghost identity = { λ l. l.event };

    ghost is_finished = { λ l. is_none l.key };

    ghost polled = { Polled L.did };

    ghost waited = { Waited L.did L.slept };

    ghost waited_for = { WaitedFor L.did L.read L.read_again L.slept };

    ghost waited_until = { WaitedUntil L.did L.read L.read_again L.slept };

    ghost refused = { λ _. L.refused };

    ghost discarded = { λ l told. LeftSo L.did l false told };

    fn poll(&mut self, waker: Waker) -> Poll<Result<T, PollFault>> {
        let rt = self.rt;
        self.place.poll(&rt, waker)
    }

    fn wait(mut self) -> Result<T, WaitError<Self>> {
        if self.place.is_finished() {
            return Err(WaitError::NeverInserted(self));
        }
        let Ok((task, parker)) = self.place.new_parker() else {
            return Err(WaitError::NoMemory(self));
        };
        let rt = self.rt;
        Ok(self.place.wait(&rt, task, &parker))
    }

    fn wait_timeout<K: Clock>(
        mut self,
        clock: &K,
        timeout: Duration,
    ) -> Result<Option<T>, WaitError<Self>> {
        if self.place.is_finished() {
            return Err(WaitError::NeverInserted(self));
        }
        let Ok((task, parker)) = self.place.new_parker() else {
            return Err(WaitError::NoMemory(self));
        };
        let rt = self.rt;
        Ok(self.place.wait_for(&rt, task, &parker, clock, timeout))
    }

    fn wait_deadline<K: Clock>(
        self,
        clock: &K,
        deadline: Instant,
    ) -> Result<Option<T>, WaitError<Self>> {
        let timeout = match L::now(clock) {
            Some(now) => deadline.duration_since(now),
            None => Duration::ZERO,
        };
        self.wait_timeout(clock, timeout)
    }

    fn discard(self) -> bool {
        let Self { place, rt } = self;
        place.leave(&rt, false)
    }

    fn listens_to(&self, event: &Event<T>) -> bool {
        self.place.listens_to(event)
    }

    fn same_event(&self, other: &Self) -> bool {
        self.place.same_event(&other.place)
    }
}

impl<T: Drop, R: Wait + Copy, L: Steps<T>> Future for EventListener<T, R, L> {
    type Output = Result<T, PollFault>;

    ghost use Rattle.event_listener.specs.Listening.{GivesTag};

    // A poll or wait refuses a listener that has given its tag, and no other.
    ghost gives = { GivesTag };

    /// As [`Listener::poll`], with the waker of the task that is polled. A second poll wakes nobody.
    // The trait's clauses say nothing of a critical section, so those of the method itself do.
    fn poll(&mut self, cx: &mut Context<'_>) -> Poll<Result<T, PollFault>>
        ensures value { IfReady result (GivesTag self.old) }
        ensures again { OnPending result ⊤ }
        ensures same { OnPending result ((given : Result T PollFault) → GivesTag self.new given → GivesTag self.old given) }
        ensures registered { OnPending result (Covers cx.new (λ _. ⊥)) }
        ensures kept { Keeps cx.old cx.new }
        ensures ready { (tag : T) → result ≡ Poll.Ready (Ok tag) → Armed L.did self.old (Some tag) }
        ensures waits { OnPending result (Armed L.did self.old None) }
        ensures finished { IfReady result (λ _. is_none self.new.key ≡ true) }
        ensures pending { OnPending result (self.new ≡ self.old) }
        ensures event { self.new.event ≡ self.old.event }
        ensures armed { OnPending result (IsArmed cx.new) }
    {
        let rt = self.rt;
        self.place.poll_in(&rt, cx)
    }
}

impl<T: Drop, R: Wait + Copy, L: Steps<T>> Drop for EventListener<T, R, L> {
    fn drop(self)
        ensures { (told : Bool) × LeftSo L.did self true told }
    {
        let Self { place, rt } = self;
        place.leave(&rt, true);
    }
}
