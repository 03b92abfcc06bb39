//! Listeners that live no longer than their event, and the macro that makes one. A listener owns its place on the list, as an
//! `EventListener` does, and borrows the event.
ghost use Rattle.std.specs.Prelude.{◌≡◌, ⊤, Result, ◌↔◌, Some, None, true, false, is_none, IfOk, IfErr, OnErr, Ok, Err};
ghost use Rattle.futures.specs.Poll.{OnPending, IfReady};
ghost use Rattle.futures.specs.Task.{Covers, IsArmed, Keeps};
ghost use Rattle.event_listener.specs.Listening.{Listening, Listened, RefusesToListen, Armed, GivesTag};

use crate::error::{ListenError, NoMemory};
use crate::event::Event;
use crate::list::List;
use crate::listener::{EventListener, Listener, PollFault, WaitError};
use crate::steps::Steps;
use crate::waking::{Task, WakerCell};
use futures::future::Future;
use futures::task::{Context, Poll, Waker};
use std::alloc::Global;
use std::marker::Model;
use std::sync::{Arc, Wait};
use std::time::{Clock, Duration, Instant};

/// The place of a listener that lives no longer than its event.
///
/// It keeps the runtime for its listeners. As `event-listener` 5.4.2, but the node itself is in the list's memory, so nothing is pinned.
#[derive(Drop)]
pub struct StackSlot<'ev, T, R: Wait + Copy, L = List<T, Task>> {
    rt: R,
    alloc: Global,
    event: &'ev Event<T, L>,
    cell: Option<Arc<WakerCell>>,
}

impl<'ev, T, R: Wait + Copy, L> Model for StackSlot<'ev, T, R, L> {
    ghost use Rattle.event_listener.specs.Listening.{EventView};

    ghost Value = { EventView };

    ghost view = { λ slot. slot.event.now };
}

impl<'ev, T: Drop, R: Wait + Copy, L: Steps<T>> StackSlot<'ev, T, R, L> {
    /// A slot for listeners of this event, with what the first of them needs to be woken. `Err` if there is no memory for that.
    pub fn new(rt: R, alloc: Global, event: &'ev Event<T, L>) -> Result<Self, NoMemory>
        ensures slot { IfOk result (λ slot. slot ≡ event.now) }
        ensures refused { OnErr result L.refused }
    {
        Ok(StackSlot {
            rt,
            alloc,
            event,
            cell: Some(L::share(alloc, WakerCell::new())?),
        })
    }

    /// Adds a listener, as [`Event::listen`] does, and refused as there. It may wait for the list's lock.
    pub fn listen(&mut self) -> Result<StackListener<'ev, T, R, L>, ListenError>
        ensures event { IfOk result (λ listener. listener.event ≡ self.old.number) }
        ensures list { IfOk result (λ listener. L.holds self.old.lock listener.list) }
        ensures listens { IfOk result (Listened L.did) }
        ensures refused { IfErr result (RefusesToListen L.did L.holds L.refused self.old.lock) }
        ensures slot { self.new ≡ self.old }
    {
        let cell = match self.cell.take() {
            Some(cell) => cell,
            None => match L::share(self.alloc, WakerCell::new()) {
                Ok(cell) => cell,
                Err(_) => return Err(ListenError::NoMemory),
            },
        };
        let event = self.event;
        match EventListener::new(self.rt, event.begin(), event.number(), event.alloc(), cell) {
            Ok(inner) => Ok(StackListener { event, inner }),
            Err(error) => Err(error),
        }
    }
}

/// A listener in a slot. It is dropped as an [`EventListener`] is.
#[derive(Drop)]
pub struct StackListener<'ev, T: Drop, R: Wait + Copy, L: Steps<T> = List<T, Task>> {
    event: &'ev Event<T, L>,
    inner: EventListener<T, R, L>,
}

impl<'ev, T: Drop, R: Wait + Copy, L: Steps<T>> Model for StackListener<'ev, T, R, L> {
    ghost use Rattle.event_listener.specs.Listening.{Listening};

    ghost Value = { Listening };

    ghost view = { λ l. l.inner };
}

impl<'ev, T: Drop, R: Wait + Copy, L: Steps<T>> Listener<T> for StackListener<'ev, T, R, L> {
    ghost use Rattle.event_listener.specs.Listening.{Polled, Waited, WaitedFor, WaitedUntil, LeftSo};

    ghost identity = { λ l. l.event };

    ghost is_finished = { λ l. is_none l.key };

    ghost polled = { Polled L.did };

    ghost waited = { Waited L.did L.slept };

    ghost waited_for = { WaitedFor L.did L.read L.read_again L.slept };

    ghost waited_until = { WaitedUntil L.did L.read L.read_again L.slept };

    ghost refused = { λ _. L.refused };

    ghost discarded = { λ l told. LeftSo L.did l false told };

    fn poll(&mut self, waker: Waker) -> Poll<Result<T, PollFault>> {
        Listener::poll(&mut self.inner, waker)
    }

    fn wait(self) -> Result<T, WaitError<Self>> {
        let Self { event, inner } = self;
        match inner.wait() {
            Ok(tag) => Ok(tag),
            Err(error) => Err(in_slot(event, error)),
        }
    }

    fn wait_timeout<K: Clock>(
        self,
        clock: &K,
        timeout: Duration,
    ) -> Result<Option<T>, WaitError<Self>> {
        let Self { event, inner } = self;
        match inner.wait_timeout(clock, timeout) {
            Ok(tag) => Ok(tag),
            Err(error) => Err(in_slot(event, error)),
        }
    }

    fn wait_deadline<K: Clock>(
        self,
        clock: &K,
        deadline: Instant,
    ) -> Result<Option<T>, WaitError<Self>> {
        let Self { event, inner } = self;
        match inner.wait_deadline(clock, deadline) {
            Ok(tag) => Ok(tag),
            Err(error) => Err(in_slot(event, error)),
        }
    }

    fn discard(self) -> bool {
        let Self { event: _, inner } = self;
        inner.discard()
    }

    fn listens_to(&self, event: &Event<T>) -> bool {
        self.inner.listens_to(event)
    }

    fn same_event(&self, other: &Self) -> bool {
        self.inner.same_event(&other.inner)
    }
}

impl<'ev, T: Drop, R: Wait + Copy, L: Steps<T>> Future for StackListener<'ev, T, R, L> {
    type Output = Result<T, PollFault>;

    ghost use Rattle.event_listener.specs.Listening.{GivesTag};

    ghost gives = { GivesTag };

    /// As [`Listener::poll`], with the waker of the task that is polled. A second poll wakes nobody.
    // The trait's clauses say nothing of a critical section, so those of the method itself do.
    fn poll(&mut self, cx: &mut Context<'_>) -> Poll<Result<T, PollFault>>
        ensures value { IfReady result (GivesTag self.old) }
        ensures again { OnPending result ⊤ }
        ensures same { OnPending result ((given : Result T PollFault) → GivesTag self.new given → GivesTag self.old given) }
        ensures registered { OnPending result (Covers cx.new (λ _. ⊥)) }
        ensures kept { Keeps cx.old cx.new }
        ensures ready { (tag : T) → result ≡ Poll.Ready (Ok tag) → Armed L.did self.old (Some tag) }
        ensures waits { OnPending result (Armed L.did self.old None) }
        ensures finished { IfReady result (λ _. is_none self.new.key ≡ true) }
        ensures pending { OnPending result (self.new ≡ self.old) }
        ensures event { self.new.event ≡ self.old.event }
        ensures armed { OnPending result (IsArmed cx.new) }
    {
        Future::poll(&mut self.inner, cx)
    }
}

// The listener that a wait returns, in its slot again.
fn in_slot<'ev, T: Drop, R: Wait + Copy, L: Steps<T>>(
    event: &'ev Event<T, L>,
    error: WaitError<EventListener<T, R, L>>,
) -> WaitError<StackListener<'ev, T, R, L>>
    ensures no_memory { (l : _) → error ≡ WaitError.NoMemory l → result ≡ WaitError.NoMemory l }
    ensures never_inserted { (l : _) → error ≡ WaitError.NeverInserted l → result ≡ WaitError.NeverInserted l }
{
    match error {
        WaitError::NoMemory(inner) => WaitError::NoMemory(StackListener { event, inner }),
        WaitError::NeverInserted(inner) => WaitError::NeverInserted(StackListener { event, inner }),
    }
}

/// A listener of the event under the name: `listener!(rt, alloc, event => name)`, where `event` is the event itself and not a reference to
/// it. The name is bound `mut`, so that it can be polled, and dropped by name.
///
/// It writes `let` statements that end in `?`, so it is used in a function whose error is made of [`NoMemory`] and of [`ListenError`]. As
/// `event-listener` 5.4.2, but for the runtime and the refusals.
#[macro_export]
macro_rules! listener {
    ($rt:expr, $alloc:expr, $event:expr => $name:ident) => {
        let mut slot = $crate::stack::StackSlot::new($rt, $alloc, &$event)?;
        let mut $name = slot.listen()?;
    };
}
