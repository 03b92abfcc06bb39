//! What threads of these tests do at once. All of them go through the same calls, since each closure that is handed to a thread is dear to
//! prove.

use crate::timed::{notifies_each, waits_briefly};
use event_listener::event::Event;
use event_listener::listener::EventListener;
use event_listener::prelude::{IntoNotification, Listener};
use std::sync::Wait;
use std::sync::atomic::AtomicUsize;
use std::thread;
use std::thread::Threads;
use std::time::{Clock, Duration};

/// What one thread does.
#[derive(Drop)]
pub(crate) enum Job<'a, R: Wait + Copy> {
    /// Notifies the event, if there is one, and waits by the listener.
    Wait(Option<&'a Event<()>>, EventListener<(), R>),
    /// Waits by the listener, if there is one, and notifies the event.
    Notify(Option<EventListener<(), R>>, &'a Event<()>),
    /// Waits briefly, again and again, and counts the rounds.
    WaitBriefly(&'a Event<()>, &'a AtomicUsize),
    /// Notifies one in each of these rounds.
    NotifyEach(&'a Event<()>, &'a AtomicUsize),
    /// Waits by the listener for up to half a minute.
    WaitForTag(EventListener<u32, R>),
    /// Tells one, soon.
    SendTag(&'a Event<u32>),
    /// Drops the listener, if there is one.
    Drop(Option<EventListener<u32, R>>),
}

/// What came of it: how many it told, or how many waits went on, and the tag that it got.
pub(crate) type Done = (usize, Option<u32>);

/// Waits by a listener: whether it went on.
fn goes_on<R: Wait + Copy>(listener: EventListener<(), R>) -> bool {
    listener.wait().is_ok()
}

/// Tells one, in 20 milliseconds.
fn send_tag<R: Wait + Clock + Copy>(rt: R, event: &Event<u32>) -> usize {
    thread::sleep(&rt, Duration::from_millis(20));
    event.notify(&rt, 1u8.tag(8u32)).unwrap_or(9)
}

/// Notifies the gate, if there is one, and waits by the listener: how many waits went on.
fn open_and_wait<R: Wait + Copy>(
    rt: R,
    gate: Option<&Event<()>>,
    listener: EventListener<(), R>,
) -> usize {
    if let Some(gate) = gate {
        gate.notify_additional(&rt, 1);
    }
    usize::from(goes_on(listener))
}

/// Waits by the listener, if there is one, and tells one.
fn wait_and_notify<R: Wait + Copy>(
    rt: R,
    listener: Option<EventListener<(), R>>,
    event: &Event<()>,
) -> usize {
    if let Some(listener) = listener {
        goes_on(listener);
    }
    event.notify_additional(&rt, 1)
}

/// Waits for up to half a minute: the tag that it got.
fn wait_for_tag<R: Wait + Clock + Copy>(rt: R, listener: EventListener<u32, R>) -> Option<u32> {
    listener
        .wait_timeout(&rt, Duration::from_secs(30))
        .unwrap_or(None)
}

/// Does it.
fn done<R: Wait + Clock + Copy>(rt: R, job: Job<'_, R>) -> Done {
    match job {
        Job::Wait(gate, listener) => (open_and_wait(rt, gate, listener), None),
        Job::Notify(listener, event) => (wait_and_notify(rt, listener, event), None),
        Job::WaitBriefly(event, rounds) => (waits_briefly(rt, event, rounds), None),
        Job::NotifyEach(event, rounds) => (notifies_each(rt, event, rounds), None),
        Job::WaitForTag(listener) => (0, wait_for_tag(rt, listener)),
        Job::SendTag(event) => (send_tag(rt, event), None),
        Job::Drop(_listener) => (0, None),
    }
}

/// Does both at once, the first one in a thread of its own: what came of each.
pub(crate) fn both<R: Wait + Threads + Clock + Copy + Send + Sync>(
    rt: R,
    first: Job<'_, R>,
    second: Job<'_, R>,
) -> (Done, Done) {
    thread::join(&rt, move || done(rt, first), move || done(rt, second))
}

/// The same with two pairs at once.
pub(crate) fn both_pairs<R: Wait + Threads + Clock + Copy + Send + Sync>(
    rt: R,
    (first, second): (Job<'_, R>, Job<'_, R>),
    (third, fourth): (Job<'_, R>, Job<'_, R>),
) -> ((Done, Done), (Done, Done)) {
    thread::join(
        &rt,
        move || both(rt, first, second),
        move || both(rt, third, fourth),
    )
}
