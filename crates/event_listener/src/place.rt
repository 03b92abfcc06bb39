//! A listener's place in the list of its event. `Place` owns the listener: it is on the list until its tag is taken or it leaves, and each
//! access is one critical section.
ghost use Rattle.std.specs.Prelude.{◌≡◌, ◌↔◌, IsTrue, IfOk, IfErr, OnErr, Ok, Err, Some, None, is_none, true, false};
ghost use Rattle.std.specs.Arc.{arc_value};
ghost use Rattle.std.specs.Duration.{as_nanos};
ghost use Rattle.futures.specs.Poll.{OnPending, IfReady};
ghost use Rattle.futures.specs.Task.{IsArmed, Keeps};
ghost use Rattle.event_listener.specs.Homes.{seal_of};
ghost use Rattle.event_listener.specs.Listening.{Listened, RefusesToListen, Polled, Armed, LeftSo, Waited, WaitedFor, Lapsed, time_left as left_of};
ghost use Rattle.event_listener.specs.Places.{seen};
ghost use Rattle.event_listener.specs.Sections.{OnSome, parker_of, parks, looks};
ghost use Rattle.event_listener.specs.declared.key.Key.{Key};

use crate::error::{ListenError, NoMemory};
use crate::event::Event;
use crate::home::Home;
use crate::homes::Begun;
use crate::listener::PollFault;
use crate::parker::Parker;
use crate::steps::Steps;
use crate::turn::Listed;
use crate::waking::WakerCell;
use futures::task::{Context, Poll, Waker};
use std::alloc::Global;
use std::sync::{Arc, Wait};
use std::time::{Clock, Duration, Instant};

/// A listener's place: its event's list, its key there until it is finished, and the cell of its task.
///
/// It is without the runtime, so its questions can't wait. It has no drop, so a listener can't be dropped without leaving the list.
pub(crate) struct Place<T, L> {
    home: Arc<Home<T, L>>,
    // Kept here and not read in the list, which is in a `OnceLock`: of what is there a proof knows the type alone.
    pub(crate) event: u64,
    cell: Arc<WakerCell>,
    listed: Listed,
    alloc: Global,
}

impl<T: Drop, L: Steps<T>> Place<T, L> {
    /// A new place at the end of the list of the event with this number, with the cell as its task. If it is refused, the list is as
    /// before.
    pub(crate) fn open<R: Wait>(
        rt: &R,
        begun: Begun<'_, T, L>,
        event: u64,
        alloc: Global,
        cell: Arc<WakerCell>,
    ) -> Result<Place<T, L>, ListenError>
        ensures event { IfOk result (λ made. made.event ≡ event) }
        ensures list { IfOk result (λ made. L.holds begun.entry.homes.now.once.id (seen made).list) }
        ensures listens { IfOk result (λ made. Listened L.did (seen made)) }
        ensures refused { IfErr result (RefusesToListen L.did L.holds L.refused begun.entry.homes.now.once.id) }
    {
        // Before the list is touched: a refusal then leaves no listener behind.
        let Ok(task) = L::share_again(&cell) else {
            return Err(ListenError::NoMemory);
        };
        let Ok((home, turn)) = begun.open(rt) else {
            return Err(ListenError::NoMemory);
        };
        let listed = turn.listen(rt, task)?;
        Ok(Place {
            home,
            event,
            cell,
            listed,
            alloc,
        })
    }

    /// Whether it has given its tag.
    pub(crate) fn is_finished(&self) -> bool
        ensures { result ≡ is_none self.now.listed.key }
    {
        self.listed.is_off()
    }

    /// Takes the tag of a told listener, or keeps the waker for its notification.
    pub(crate) fn poll<R: Wait>(&mut self, rt: &R, waker: Waker) -> Poll<Result<T, PollFault>>
        ensures fault { (result ≡ Poll.Ready (Err PollFault.NeverInserted)) ↔ (is_none self.old.listed.key ≡ true) }
        ensures ready { (tag : T) → result ≡ Poll.Ready (Ok tag) → Polled L.did (seen self.old) waker (Some tag) }
        ensures waits { OnPending result (Polled L.did (seen self.old) waker None) }
        ensures finished { IfReady result (λ _. is_none self.new.listed.key ≡ true) }
        ensures pending { OnPending result (self.new ≡ self.old) }
        ensures event { self.new.event ≡ self.old.event }
    {
        if self.listed.is_off() {
            return Poll::Ready(Err(PollFault::NeverInserted));
        }
        let turn = self.home.turn();
        match turn.poll(rt, &mut self.listed, &self.cell, waker) {
            Some(tag) => Poll::Ready(Ok(tag)),
            None => Poll::Pending,
        }
    }

    /// The same with the waker of the task that is polled.
    pub(crate) fn poll_in<R: Wait>(
        &mut self,
        rt: &R,
        cx: &mut Context<'_>,
    ) -> Poll<Result<T, PollFault>>
        ensures fault { (result ≡ Poll.Ready (Err PollFault.NeverInserted)) ↔ (is_none self.old.listed.key ≡ true) }
        ensures ready { (tag : T) → result ≡ Poll.Ready (Ok tag) → Armed L.did (seen self.old) (Some tag) }
        ensures waits { OnPending result (Armed L.did (seen self.old) None) }
        ensures finished { IfReady result (λ _. is_none self.new.listed.key ≡ true) }
        ensures pending { OnPending result (self.new ≡ self.old) }
        ensures event { self.new.event ≡ self.old.event }
        ensures armed { OnPending result (IsArmed cx.new) }
        ensures kept { Keeps cx.old cx.new }
    {
        if self.listed.is_off() {
            return Poll::Ready(Err(PollFault::NeverInserted));
        }
        let turn = self.home.turn();
        match turn.poll_in(rt, &mut self.listed, &self.cell, cx) {
            Some(tag) => Poll::Ready(Ok(tag)),
            None => Poll::Pending,
        }
    }

    /// What a thread sleeps on until the listener is told, once for the list and once for the thread.
    pub(crate) fn new_parker(&self) -> Result<(Arc<Parker>, Arc<Parker>), NoMemory>
        ensures same { IfOk result (λ both. arc_value both.0 ≡ arc_value both.1) }
        ensures refused { OnErr result L.refused }
    {
        let parker = L::share(self.alloc, Parker::new())?;
        Ok((L::share_again(&parker)?, parker))
    }

    /// Sleeps until the listener is told, and takes its tag.
    pub(crate) fn wait<R: Wait>(&mut self, rt: &R, task: Arc<Parker>, parker: &Parker) -> T
        requires listed { is_none self.old.listed.key ≡ false }
        requires same { arc_value task ≡ parker.now }
        ensures waited { Waited L.did L.slept (seen self.old) result }
    {
        // Register before the sleep: a notification from here on rings the parker.
        match self.home.turn().park(rt, &mut self.listed, task) {
            Some(tag) => tag,
            None => self.sleep_until_told(rt, parker),
        }
    }

    // Sleeps, and looks, until the listener is found told.
    fn sleep_until_told<R: Wait>(&mut self, rt: &R, parker: &Parker) -> T
        requires { (key : Key) × (self.old.listed.key ≡ Some key) × OnSome L.did (seen self.old).list (parks key (parker_of parker.now) None) }
        ensures slept { L.slept (parker_of parker.now) None }
        ensures looked { (key : Key) × (self.old.listed.key ≡ Some key) × OnSome L.did (seen self.old).list (looks key (parker_of parker.now) (Some result)) }
    {
        for _ in rt.forever() {
            // The parker stays rung until it is slept on, so a ring since the registration ends this sleep at once.
            L::sleep(rt, self.home.seal(), self.listed.key(), parker);
            // Look again: the list alone says whether the listener was told.
            if let Some(tag) = self.home.turn().look(rt, &mut self.listed, parker) {
                return tag;
            }
        }
        unreachable!()
    }

    /// Sleeps until the listener is told or the time is up, and leaves the list, with its tag if it was told. The time counts from here, so
    /// waiting for the lock is part of it.
    pub(crate) fn wait_for<R: Wait, K: Clock>(
        &mut self,
        rt: &R,
        task: Arc<Parker>,
        parker: &Parker,
        clock: &K,
        timeout: Duration,
    ) -> Option<T>
        requires listed { is_none self.old.listed.key ≡ false }
        requires same { arc_value task ≡ parker.now }
        ensures waited { WaitedFor L.did L.read L.read_again L.slept (seen self.old) timeout result }
        ensures left { is_none self.new.listed.key ≡ true }
    {
        let begun = L::now(clock);
        // Register before the sleep, as in `wait`.
        if let Some(tag) = self.home.turn().park(rt, &mut self.listed, task) {
            return Some(tag);
        }
        self.sleep_out(rt, parker, clock, begun, timeout);
        // The look and the removal are one critical section: a notification that reaches the listener before it leaves is in the answer,
        // and none reaches it afterwards.
        let turn = self.home.turn();
        turn.leave(rt, &mut self.listed, parker, timeout)
    }

    // Sleeps for what is left of the time, if anything is.
    fn sleep_out<R: Wait, K: Clock>(
        &self,
        rt: &R,
        parker: &Parker,
        clock: &K,
        begun: Option<Instant>,
        timeout: Duration,
    )
        requires parked { (key : Key) × (self.now.listed.key ≡ Some key) × OnSome L.did (seen self.now).list (parks key (parker_of parker.now) None) }
        requires begun { L.read begun }
        ensures { Lapsed L.read L.read_again L.slept (parker_of parker.now) timeout }
    {
        let later = L::now_again(clock, begun);
        let left = time_left(begun, later, timeout);
        if !left.is_zero() {
            L::sleep_for(rt, self.home.seal(), self.listed.key(), parker, clock, left);
        }
    }

    /// Leaves the list, if it is on it, and answers whether it was told. A told one may pass its notification on.
    pub(crate) fn leave<R: Wait>(self, rt: &R, pass_on: bool) -> bool
        ensures { LeftSo L.did (seen self) pass_on result }
    {
        let Place {
            home,
            event: _,
            cell: _,
            listed,
            alloc: _,
        } = self;
        // A listener that gave its tag has left already, and passes nothing on.
        if listed.is_off() {
            listed.end();
            return false;
        }
        home.turn().remove(rt, listed, pass_on)
    }

    /// Whether this is the event of the list.
    pub(crate) fn listens_to(&self, event: &Event<T>) -> bool
        ensures { IsTrue result ↔ (self.now.event ≡ event.now.number) }
    {
        self.event == event.number()
    }

    /// Whether both are in the list of one event.
    pub(crate) fn same_event(&self, other: &Place<T, L>) -> bool
        ensures { IsTrue result ↔ (self.now.event ≡ other.now.event) }
    {
        self.event == other.event
    }
}

// What is left of the time, by two readings of the clock; nothing if it couldn't be read.
fn time_left(begun: Option<Instant>, later: Option<Instant>, timeout: Duration) -> Duration
    ensures { as_nanos result ≡ left_of begun later timeout }
{
    match (begun, later) {
        (Some(begun), Some(later)) => timeout.saturating_sub(later.duration_since(begun)),
        _ => Duration::ZERO,
    }
}
