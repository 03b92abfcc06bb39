//! Listeners of one event on one thread, as rows call them. A call names a listener by the place of its making in the row, the first
//! at 0. A wait names for how many milliseconds it is, and says `nothing` only once they have passed.

use crate::made::{NOTHING, Tag, poll, said_by_poll, wait, wait_deadline, wait_timeout};
use event_listener::error::ListenError;
use event_listener::event::Event;
use event_listener::id::EventIds;
use event_listener::listener::{EventListener, Listener};
use futures::test::MockTask;
use std::alloc::Global;
use std::sync::Wait;
use std::time::{Clock, Duration, Instant};
use worked_rows::{Said, Words};

/// An event, which each row has anew; its listeners, and the task that polls them.
#[derive(Drop)]
pub(crate) struct Listening<T: Drop, R: Wait + Copy> {
    pub(crate) rt: R,
    alloc: Global,
    pub(crate) event: Event<T>,
    listeners: Vec<Option<EventListener<T, R>>>,
    task: MockTask,
}

const NO_LISTENER: Said = Said::Word("no listener");

const NO_CLOCK: Said = Said::Word("no clock");

/// What a wait says that began then, unless it said nothing before so long had passed.
fn said_in_time<R: Clock>(rt: &R, start: Instant, timeout: Duration, said: Said) -> Said {
    match start.elapsed(rt) {
        Ok(passed) if said == NOTHING && passed < timeout => Said::Word("too early"),
        Ok(_) => said,
        Err(_) => NO_CLOCK,
    }
}

/// What a wait says that begins then: for so long, or up to a deadline so far off.
fn wait_from<T: Tag + Drop, R: Wait + Clock + Copy>(
    rt: &R,
    verb: &str,
    listener: EventListener<T, R>,
    start: Instant,
    timeout: Duration,
) -> Said {
    let deadline = start.checked_add(timeout).unwrap_or(start);
    let said = match verb {
        "wait_timeout" => wait_timeout(listener, rt, timeout),
        "wait_deadline" => wait_deadline(listener, rt, deadline),
        _ => Said::NoSuchCall,
    };
    said_in_time(rt, start, timeout, said)
}

/// What a wait for so long says, or one up to a deadline so far off.
fn wait_for<T: Tag + Drop, R: Wait + Clock + Copy>(
    rt: &R,
    verb: &str,
    listener: EventListener<T, R>,
    timeout: Duration,
) -> Said {
    match Instant::now(rt) {
        Ok(start) => wait_from(rt, verb, listener, start, timeout),
        Err(_) => NO_CLOCK,
    }
}

/// Ends a listener: drops it, discards it, or waits by it.
fn end<T: Tag + Drop, R: Wait + Clock + Copy>(
    rt: &R,
    verb: &str,
    listener: EventListener<T, R>,
    words: &mut Words<'_>,
) -> Said {
    match verb {
        "drop" => {
            drop(listener);
            Said::Ok
        }
        "discard" => Said::flag(listener.discard()),
        "wait" => wait(listener),
        _ => wait_for(rt, verb, listener, Duration::from_millis(words.number())),
    }
}

impl<T: Tag + Drop, R: Wait + Clock + Copy> Listening<T, R> {
    /// A player's listeners that are got from this event, before there are any.
    pub(crate) fn of(rt: R, alloc: Global, event: Event<T>, task: MockTask) -> Self {
        Listening {
            rt,
            alloc,
            event,
            listeners: Vec::new(alloc),
            task,
        }
    }

    /// Lets all listeners go, and begins anew.
    pub(crate) fn begin(&mut self) {
        self.listeners.clear();
        if let Ok(id) = EventIds::new().next() {
            drop(std::mem::replace(&mut self.event, Event::with_tag(self.alloc, id)));
        }
    }

    /// One more listener.
    fn listen(&mut self) -> Said {
        match self.event.listen(&self.rt) {
            Ok(listener) => self.keep(listener),
            Err(ListenError::NoMemory) => Said::Word("memory"),
            Err(ListenError::SerialsUsedUp) => Said::Word("serials"),
        }
    }

    fn keep(&mut self, listener: EventListener<T, R>) -> Said {
        if self.listeners.push(Some(listener)).is_ok() {
            Said::Ok
        } else {
            Said::Word("memory")
        }
    }

    /// The listener at this place.
    fn listener(&self, place: usize) -> Option<&EventListener<T, R>> {
        match self.listeners.get(place) {
            Some(Some(listener)) => Some(listener),
            _ => None,
        }
    }

    /// Whether both listeners are of this event, and of one.
    fn same_event(&self, first: usize, second: usize) -> Said {
        let (Some(first), Some(second)) = (self.listener(first), self.listener(second)) else {
            return NO_LISTENER;
        };
        Said::flag(first.same_event(second) && first.listens_to(&self.event))
    }

    fn poll(&mut self, verb: &str, place: usize) -> Said {
        match self.listeners.get_mut(place) {
            Some(Some(listener)) => match verb {
                "poll" => poll(listener, &self.task),
                _ => said_by_poll(self.task.poll(listener)),
            },
            _ => NO_LISTENER,
        }
    }

    fn end(&mut self, verb: &str, place: usize, words: &mut Words<'_>) -> Said {
        let Some(slot) = self.listeners.get_mut(place) else {
            return NO_LISTENER;
        };
        match slot.take() {
            Some(listener) => end(&self.rt, verb, listener, words),
            None => NO_LISTENER,
        }
    }

    /// A call of the listener at this place.
    fn call_of(&mut self, verb: &str, place: usize, words: &mut Words<'_>) -> Said {
        match verb {
            "same_event" => self.same_event(place, words.size()),
            "poll" | "poll_future" => self.poll(verb, place),
            _ => self.end(verb, place, words),
        }
    }

    /// A call that is the same whatever the tags.
    pub(crate) fn call(&mut self, verb: &str, words: &mut Words<'_>) -> Said {
        match verb {
            "listen" => self.listen(),
            "total" => Said::count(self.event.total_listeners(&self.rt)),
            "is_notified" => Said::flag(self.event.is_notified(&self.rt)),
            "is_woken" => Said::flag(self.task.is_woken()),
            _ => self.call_of(verb, words.size(), words),
        }
    }
}
