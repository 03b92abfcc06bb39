//! Events, on which threads and tasks listen for notifications. An event owns its identity and its list; every call on it begins with
//! `begin`, which gives the right to one critical section on the list.
//!
//! # Extensions
//!
//! `Event::with_lists`. `is_notified` has a meaning of its own: `event-listener` compares a count that it reads outside the lock.
ghost use Rattle.std.specs.Prelude.{◌≡◌, ◌≤◌, true, false, nat_lt, IfOk, IfErr};
ghost use Rattle.event_listener.specs.Listening.{Listened, RefusesToListen};
ghost use Rattle.event_listener.specs.Notifying.{NotifiesEvent, TellsEvent, CountsEvent};
ghost use Rattle.event_listener.specs.Sections.{counts_told, counts_all};

use crate::error::{ListenError, NotifyError};
use crate::homes::{Begun, Homes};
use crate::id::EventId;
use crate::into_notification::IntoNotification;
use crate::list::List;
use crate::listener::EventListener;
use crate::notify::{Additional, Notify};
use crate::steps::Steps;
use crate::waking::{Task, WakerCell};
use std::alloc::Global;
use std::marker::Model;
use std::sync::Wait;

/// An event. A waiter listens on it first and then checks its condition again; a notifier makes the condition true and then notifies. In
/// this order no notification falls between.
///
/// It takes no memory until the first `listen`. Contracts see it as its identity. As `event-listener` 5.4.2, but for the identity, the
/// refusals, and the runtime and allocator that are passed in.
#[derive(Drop)]
pub struct Event<T, L = List<T, Task>> {
    id: EventId,
    homes: Homes<T, L>,
}

/// What a call of an event is given once, when it begins: no critical section of the event's calls is made without one, and making the
/// section uses it up. It can't be copied, and only [`Event::begin`] makes one.
#[derive(Drop)]
pub(crate) struct OneCall {
    made: (),
}

impl<T, L> Model for Event<T, L> {
    ghost use Rattle.event_listener.specs.Listening.{EventView};

    ghost Value = { EventView };

    ghost view = { λ event. record { number = event.id; lock = event.homes.once.id } };
}

impl<T: Drop> Event<T> {
    /// An event of this identity without listeners, whose notifications carry tags. It takes no memory.
    pub fn with_tag(alloc: Global, id: EventId) -> Event<T>
        ensures { result.number ≡ id }
    {
        Event::with_lists(alloc, id)
    }
}

impl<T: Drop, L: Steps<T>> Event<T, L> {
    /// An event over lists of another type, such as one that a test counts with. It takes no memory.
    pub fn with_lists(alloc: Global, id: EventId) -> Event<T, L>
        ensures { result.number ≡ id }
    {
        Event {
            id,
            homes: Homes::new(alloc),
        }
    }

    /// Adds a listener, which the next notification that reaches it tells. When dropped it leaves the list, for which it keeps a copy of
    /// the runtime.
    ///
    /// `Err` for want of memory, or if all serials of the event's list were given; the listeners are then as before. It may wait for the
    /// list's lock, and the first time for another thread that listens first.
    pub fn listen<R: Wait + Copy>(&self, rt: &R) -> Result<EventListener<T, R, L>, ListenError>
        ensures event { IfOk result (λ listener. listener.event ≡ self.now.number) }
        ensures list { IfOk result (λ listener. L.holds self.now.lock listener.list) }
        ensures listens { IfOk result (Listened L.did) }
        ensures refused { IfErr result (RefusesToListen L.did L.holds L.refused self.now.lock) }
    {
        // Before the list is touched: if memory is refused, nobody was listed.
        match L::share(self.alloc(), WakerCell::new()) {
            Ok(cell) => EventListener::new(*rt, self.begin(), self.number(), self.alloc(), cell),
            Err(_) => Err(ListenError::NoMemory),
        }
    }

    pub(crate) fn number(&self) -> u64
        ensures { result ≡ self.now.number }
    {
        self.id.number()
    }

    pub(crate) fn alloc(&self) -> Global {
        self.homes.alloc()
    }

    /// Begins a call. Each public call of an event is this, once, and what it does with the right.
    #[inline(always)]
    pub(crate) fn begin(&self) -> Begun<'_, T, L>
        ensures { result.homes.now.once.id ≡ self.now.lock }
    {
        self.homes.begin(OneCall { made: () })
    }

    /// Tells listeners, the longest listening first: with the default kind so many that at least the notification's number are told, those
    /// told before included; with an additional one its number more. Each gets one tag and is woken at once. The answer is how many were
    /// told now. A notification for nobody isn't kept.
    ///
    /// `Err` if a tag was refused; those told before it stay told. A notification of plain counts takes no memory and is never refused. It
    /// may wait for the list's lock, and for the lock of a task or thread that it wakes.
    pub fn notify<N: IntoNotification<Tag = T>, R: Wait>(
        &self,
        rt: &R,
        notice: N,
    ) -> Result<usize, NotifyError>
        requires { (n : N.Notify) → N.becomes notice n → N.Notify.can_give n }
        ensures tells { (n : N.Notify) × N.becomes notice n × NotifiesEvent N.Notify.size N.Notify.additional N.Notify.gives L.did L.holds L.lacks self.now.lock n result }
    {
        // The notification is taken by value, so no clause says what became of it: only a test shows that one for nobody makes no tag.
        let notice = notice.into_notification();
        match self.begin().turn() {
            Some(turn) => turn.notify(rt, notice),
            // Nobody has listened yet: this one look is the whole call, and a listener that comes later isn't told by it.
            None => Ok(0),
        }
    }

    /// Whether some listener was told and has not taken its tag yet; never on an event without listeners. It may wait for the list's lock.
    pub fn is_notified<R: Wait>(&self, rt: &R) -> bool
        ensures counted { CountsEvent L.did L.holds L.lacks self.now.lock counts_told (λ told. result ≡ nat_lt 0 told) }
    {
        match self.begin().turn() {
            Some(turn) => turn.told(rt) > 0,
            None => false,
        }
    }

    /// How many listeners there are, told and waiting. It may wait for the list's lock. As `event-listener` 5.4.2.
    pub fn total_listeners<R: Wait>(&self, rt: &R) -> usize
        ensures counted { CountsEvent L.did L.holds L.lacks self.now.lock counts_all (λ all. result ≡ all) }
    {
        match self.begin().turn() {
            Some(turn) => turn.total(rt),
            None => 0,
        }
    }
}

impl Event<()> {
    /// An event of this identity without listeners. It takes no memory. As `event-listener` 5.4.2.
    pub fn new(alloc: Global, id: EventId) -> Event<()>
        ensures { result.number ≡ id }
    {
        Event::with_tag(alloc, id)
    }
}

impl<L: Steps<()>> Event<(), L> {
    /// A default notification for so many listeners that promises no order among other steps; here it is a plain one.
    ///
    /// It takes no memory. It may wait for the list's lock.
    pub fn notify_relaxed<R: Wait>(&self, rt: &R, count: usize) -> usize
        ensures at_most { result ≤ count }
        ensures told { TellsEvent L.did L.holds L.lacks self.now.lock false count result }
    {
        match self.begin().turn() {
            Some(turn) => match turn.notify(rt, Notify { count }) {
                Ok(told) => told,
                Err(_) => unreachable!(),
            },
            None => 0,
        }
    }

    /// A notification that tells so many more listeners, however many are told already; answers how many were told now.
    ///
    /// It takes no memory. It may wait for the list's lock.
    pub fn notify_additional<R: Wait>(&self, rt: &R, count: usize) -> usize
        ensures at_most { result ≤ count }
        ensures told { TellsEvent L.did L.holds L.lacks self.now.lock true count result }
    {
        let inner = Notify { count };
        match self.begin().turn() {
            Some(turn) => match turn.notify(rt, Additional { inner }) {
                Ok(told) => told,
                Err(_) => unreachable!(),
            },
            None => 0,
        }
    }

    /// As [`notify_additional`](Event::notify_additional).
    pub fn notify_additional_relaxed<R: Wait>(&self, rt: &R, count: usize) -> usize
        ensures at_most { result ≤ count }
        ensures told { TellsEvent L.did L.holds L.lacks self.now.lock true count result }
    {
        self.notify_additional(rt, count)
    }
}
