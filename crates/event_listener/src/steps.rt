//! The steps that the calls of an event and of its listeners are made of: critical sections on its list, and what a wait does between them.
//!
//! The calls are written over any type of lists that has these steps. Each method's contract says that this very step was made, with this
//! answer, by relations of which nothing else is known. So a call whose contract names its steps can meet it only by making them.
//!
//! # Extensions
//!
//! All of this module.
ghost use Rattle.std.specs.Prelude.{◌≡◌, ℕ, Option, Some, None, IfOk, OnErr, IfSome, IfNone};
ghost use Rattle.std.specs.Arc.{arc_value};
ghost use Rattle.std.specs.declared.time.Duration.{Duration as Span};
ghost use Rattle.std.specs.declared.time.Instant.{Instant as Moment};
ghost use Rattle.futures.specs.Task.{IsArmed, Keeps};
ghost use Rattle.event_listener.specs.Homes.{seal_of};
ghost use Rattle.event_listener.specs.Listening.{Lapsed};
ghost use Rattle.event_listener.specs.Telling.{TellsIn};
ghost use Rattle.event_listener.specs.Sections.{Section, OnSome, tag_given as given, cell_of, parker_of, listens, polls, arms, parks, looks, leaves, removes, notifies, counts_told, counts_all};

use crate::calls::Registered;
use crate::error::{ListenError, NoMemory, NotifyError, UnknownListener};
use crate::home::{Home, Step};
use crate::key::Key;
use crate::list::List;
use crate::notify::Notification;
use crate::parker::Parker;
use crate::waking::{Task, WakeNow, WakerCell};
use futures::task::{Context, Source, Waker};
use std::alloc::Global;
use std::sync::{Arc, OnceLock, OnceToken, Wait};
use std::time::{Clock, Duration, Instant};

/// A list of the listeners of one event, by the steps that are made on it and for it. [`List`] implements it, and an ordinary event has a
/// [`List`].
///
/// A section is given the right to one step on its list, which names the list by its seal. So a body with two steps is no section.
pub trait Steps<T>: Drop {
    /// Whether this was done to the list with this seal, so that the one became the other.
    ghost did: { ℕ → Section T → Self → Self → Type 0 };

    /// Whether the list of an event may begin so.
    ghost begins: { Self → Type 0 };

    /// Whether the place of this name was seen to have the list with this seal.
    ghost holds: { ℕ → ℕ → Type 0 };

    /// Whether the place of this name was seen to have no list yet.
    ghost lacks: { ℕ → Type 0 };

    /// Whether a clock was read so, or couldn't be read.
    ghost read: { Option Moment → Type 0 };

    /// Whether a clock that had read so first was read again.
    ghost read_again: { Option Moment → Option Moment → Type 0 };

    /// Whether the thread slept on the parker of this name, without a limit or for so long at most.
    ghost slept: { ℕ → Option Span → Type 0 };

    /// Whether memory was refused. Only `share` and `share_again` give this relation, since no contract can say that an allocator refused.
    ghost refused: { Type 0 };

    /// Allocates a value that is shared.
    fn share<X: Drop>(alloc: Global, value: X) -> Result<Arc<X>, NoMemory>
        ensures shared { IfOk result (λ shared. arc_value shared ≡ value) }
        ensures refused { OnErr result refused };

    /// One more owner of a shared value.
    fn share_again<X: Drop>(shared: &Arc<X>) -> Result<Arc<X>, NoMemory>
        ensures same { IfOk result (λ again. arc_value again ≡ arc_value shared.now) }
        ensures refused { OnErr result refused };

    /// A list without listeners.
    fn empty(alloc: Global) -> Self
        ensures { begins result };

    /// Looks whether an event has a list.
    fn find<'a>(lock: &'a OnceLock<Arc<Home<T, Self>>>) -> Option<OnceToken<'a, Arc<Home<T, Self>>>>
        ensures of { IfSome result (λ token. token.of ≡ lock.now.id) }
        ensures lacks { IfNone result (lacks lock.now.id) };

    /// Sees which list an event has.
    fn see(token: &OnceToken<'_, Arc<Home<T, Self>>>)
        ensures { holds token.now.of (seal_of (arc_value token.now.value)) };

    /// Adds a listener, with the task whose waker is in this cell.
    fn listen(&mut self, step: Step<'_>, cell: Arc<WakerCell>) -> Result<Key, ListenError>
        ensures { did step.entry.seal.now.id (listens (cell_of (arc_value cell)) result) self.old self.new };

    /// Removes a told listener and returns its tag. For one that waits it keeps the waker in its cell.
    fn poll<R: Wait>(
        &mut self,
        step: Step<'_>,
        rt: &R,
        key: Key,
        cell: &WakerCell,
        waker: Waker,
    ) -> Option<T>
        ensures { did step.entry.seal.now.id (polls key (cell_of cell.now) waker result) self.old self.new };

    /// The same with the waker of the task that is polled.
    fn poll_in<R: Wait>(
        &mut self,
        step: Step<'_>,
        rt: &R,
        key: Key,
        cell: &WakerCell,
        cx: &mut Context<'_>,
    ) -> Option<T>
        ensures did { did step.entry.seal.now.id (arms key (cell_of cell.now) result) self.old self.new }
        ensures armed { result ≡ None → IsArmed cx.new }
        ensures kept { Keeps cx.old cx.new };

    /// Removes a told listener and returns its tag. One that waits gets the thread that sleeps on this parker as its task.
    fn park(&mut self, step: Step<'_>, key: Key, parker: Arc<Parker>) -> Option<T>
        ensures { did step.entry.seal.now.id (parks key (parker_of (arc_value parker)) result) self.old self.new };

    /// Removes a told listener and returns its tag, once the thread has slept on this parker.
    fn look(&mut self, step: Step<'_>, key: Key, parker: &Parker) -> Option<T>
        requires { slept (parker_of parker.now) None }
        ensures { did step.entry.seal.now.id (looks key (parker_of parker.now) result) self.old self.new };

    /// Removes a listener, told or not, and returns the tag of a told one, once the thread has slept on this parker for as long as was
    /// left. It passes nothing on.
    fn leave(&mut self, step: Step<'_>, key: Key, parker: &Parker, timeout: Duration) -> Option<T>
        requires { Lapsed read read_again slept (parker_of parker.now) timeout }
        ensures { did step.entry.seal.now.id (leaves key timeout result) self.old self.new };

    /// Removes a listener, and answers whether it was told. A told one may pass its notification on.
    fn remove<R: Wait>(&mut self, step: Step<'_>, rt: &R, key: Key, pass_on: bool) -> bool
        ensures { did step.entry.seal.now.id (removes key pass_on result) self.old self.new };

    /// Tells listeners, and wakes them at once.
    fn notify<N: Notification<Tag = T> + Drop, R: Wait>(
        &mut self,
        step: Step<'_>,
        rt: &R,
        notice: N,
    ) -> Result<usize, NotifyError>
        requires { N.can_give notice }
        ensures { TellsIn N.size N.gives notice result (λ tags. did step.entry.seal.now.id (notifies (N.additional notice) (N.size notice) tags result) self.old self.new) };

    /// How many are told.
    fn told(&self, step: Step<'_>) -> usize
        ensures { did step.entry.seal.now.id (counts_told result) self.now self.now };

    /// How many there are.
    fn total(&self, step: Step<'_>) -> usize
        ensures { did step.entry.seal.now.id (counts_all result) self.now self.now };

    /// Sleeps on the parker that a listener registered with in this list, until it rings. Clauses that name two steps give them no order,
    /// so the registration is a condition here, and this sleep is a condition of `look` and `leave`.
    fn sleep<R: Wait>(rt: &R, seal: &Source, key: Key, parker: &Parker)
        requires { OnSome did seal.now.id (parks key (parker_of parker.now) None) }
        ensures { slept (parker_of parker.now) None };

    /// The same for so long at most.
    fn sleep_for<R: Wait, K: Clock>(
        rt: &R,
        seal: &Source,
        key: Key,
        parker: &Parker,
        clock: &K,
        limit: Duration,
    )
        requires { OnSome did seal.now.id (parks key (parker_of parker.now) None) }
        ensures { slept (parker_of parker.now) (Some limit) };

    /// Reads the clock.
    fn now<K: Clock>(clock: &K) -> Option<Instant>
        ensures { read result };

    /// Reads it again.
    fn now_again<K: Clock>(clock: &K, begun: Option<Instant>) -> Option<Instant>
        ensures { read_again begun result };
}

impl<T: Drop> Steps<T> for List<T, Task> {
    ghost use Rattle.std.specs.Prelude.{◌≡◌};
    ghost use Rattle.event_listener.specs.Replay.{nobody};
    ghost use Rattle.event_listener.specs.Sections.{OnList};

    ghost did = { λ _ section before after. OnList section before after };

    ghost begins = { λ list. (list.lists ≡ nobody) × (list.serials ≡ 0) };

    ghost holds = { λ _ _. Unit {0} };

    ghost lacks = { λ _. Unit {0} };

    ghost read = { λ _. Unit {0} };

    ghost read_again = { λ _ _. Unit {0} };

    ghost slept = { λ _ _. Unit {0} };

    ghost refused = { Unit {0} };

    #[inline(always)]
    fn share<X: Drop>(alloc: Global, value: X) -> Result<Arc<X>, NoMemory> {
        match Arc::new(alloc, value) {
            Ok(shared) => Ok(shared),
            Err(_) => Err(NoMemory),
        }
    }

    #[inline(always)]
    fn share_again<X: Drop>(shared: &Arc<X>) -> Result<Arc<X>, NoMemory> {
        match Arc::try_clone(shared) {
            Ok(again) => Ok(again),
            Err(_) => Err(NoMemory),
        }
    }

    fn empty(alloc: Global) -> Self {
        List::new(alloc)
    }

    #[inline(always)]
    fn find<'a>(
        lock: &'a OnceLock<Arc<Home<T, Self>>>,
    ) -> Option<OnceToken<'a, Arc<Home<T, Self>>>> {
        // The contract of `witness` says nothing of `None`, so no proof excludes a body that misses a list: only a test does.
        lock.witness()
    }

    #[inline(always)]
    fn see(_token: &OnceToken<'_, Arc<Home<T, Self>>>) {}

    #[inline(always)]
    fn listen(&mut self, _step: Step<'_>, cell: Arc<WakerCell>) -> Result<Key, ListenError> {
        // With its task from the beginning: a notification between an insertion and a registration would tell a listener without a task, and
        // wake nobody.
        self.insert_with(Some(Task::Polled(cell)))
    }

    #[inline(always)]
    fn poll<R: Wait>(
        &mut self,
        _step: Step<'_>,
        rt: &R,
        key: Key,
        cell: &WakerCell,
        waker: Waker,
    ) -> Option<T> {
        match List::poll(self, key) {
            Ok(Some(tag)) => Some(tag),
            Ok(None) | Err(_) => {
                // Under the list's lock. Kept after it is released, a notification in between would find no waker, and the task might never
                // be polled.
                cell.keep(rt, waker);
                None
            }
        }
    }

    #[inline(always)]
    fn poll_in<R: Wait>(
        &mut self,
        _step: Step<'_>,
        rt: &R,
        key: Key,
        cell: &WakerCell,
        cx: &mut Context<'_>,
    ) -> Option<T> {
        match List::poll(self, key) {
            Ok(Some(tag)) => Some(tag),
            Ok(None) | Err(_) => {
                // Under the list's lock, as in `poll`.
                let _armed = cell.arm(rt, cx);
                None
            }
        }
    }

    #[inline(always)]
    fn park(&mut self, _step: Step<'_>, key: Key, parker: Arc<Parker>) -> Option<T> {
        // One step looks and registers: a notification is either found here, or it rings the parker.
        tag_given(self.register(key, Task::Parked(parker)))
    }

    #[inline(always)]
    fn look(&mut self, _step: Step<'_>, key: Key, _parker: &Parker) -> Option<T> {
        match List::poll(self, key) {
            Ok(tag) => tag,
            Err(_) => None,
        }
    }

    #[inline(always)]
    fn leave(
        &mut self,
        _step: Step<'_>,
        key: Key,
        _parker: &Parker,
        _timeout: Duration,
    ) -> Option<T> {
        // One step looks and removes: a notification can't reach a listener that has been found not told.
        self.take_off(key)
    }

    #[inline(always)]
    fn remove<R: Wait>(&mut self, _step: Step<'_>, rt: &R, key: Key, pass_on: bool) -> bool {
        // One step removes the listener and tells the next one, so at no moment the notification has reached nobody.
        match List::remove(self, key, pass_on, &mut WakeNow { rt }) {
            Ok(told) => told,
            Err(_) => false,
        }
    }

    #[inline(always)]
    fn notify<N: Notification<Tag = T> + Drop, R: Wait>(
        &mut self,
        _step: Step<'_>,
        rt: &R,
        notice: N,
    ) -> Result<usize, NotifyError> {
        // Wakers run under the list's lock, in the order of listening.
        List::notify(self, notice, &mut WakeNow { rt })
    }

    #[inline(always)]
    fn told(&self, _step: Step<'_>) -> usize {
        List::told(self)
    }

    #[inline(always)]
    fn total(&self, _step: Step<'_>) -> usize {
        List::total(self)
    }

    #[inline(always)]
    fn sleep<R: Wait>(rt: &R, _seal: &Source, _key: Key, parker: &Parker) {
        parker.sleep(rt);
    }

    #[inline(always)]
    fn sleep_for<R: Wait, K: Clock>(
        rt: &R,
        _seal: &Source,
        _key: Key,
        parker: &Parker,
        clock: &K,
        limit: Duration,
    ) {
        parker.sleep_for(rt, clock, limit);
    }

    #[inline(always)]
    fn now<K: Clock>(clock: &K) -> Option<Instant> {
        Instant::now(clock).ok()
    }

    #[inline(always)]
    fn now_again<K: Clock>(clock: &K, _begun: Option<Instant>) -> Option<Instant> {
        Instant::now(clock).ok()
    }
}

// The tag that a registration gives. A listener that isn't on the list is never told.
fn tag_given<T>(found: Result<Registered<T>, UnknownListener>) -> Option<T>
    ensures { result ≡ given found }
{
    match found {
        Ok(Registered::Told(tag)) => Some(tag),
        Ok(Registered::Waiting) => None,
        Err(_) => None,
    }
}
