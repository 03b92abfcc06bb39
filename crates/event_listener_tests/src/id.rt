use crate::checks::expect_equal;
use event_listener::event::Event;
use event_listener::id::{EventId, EventIds};
use event_listener::listener::{EventListener, Listener};
use std::alloc::Global;
use std::process::Abort;
use std::sync::Wait;

/// Six identities of one supply: one, four at once, and one more.
fn six_identities() -> Option<[EventId; 6]> {
    let mut ids = EventIds::new();
    let first = ids.next().ok()?;
    let [second, third, fourth, fifth] = ids.next_four().ok()?;
    let last = ids.next().ok()?;
    Some([first, second, third, fourth, fifth, last])
}

/// Whether a listener listens to the event at this place alone.
fn listens_alone<R: Wait + Copy>(
    listener: &EventListener<u8, R>,
    events: &[Event<u8>],
    place: usize,
) -> bool {
    let mut apart = true;
    for (at, event) in events.iter().enumerate() {
        apart = apart & (listener.listens_to(event) == (at == place));
    }
    apart
}

/// How many of these events have a listener that listens to it alone.
fn apart<R: Wait + Copy>(rt: R, events: &[Event<u8>]) -> usize {
    let mut apart = 0usize;
    for (place, event) in events.iter().enumerate() {
        if let Ok(listener) = event.listen(&rt) {
            apart = apart.wrapping_add(usize::from(listens_alone(&listener, events, place)));
        }
    }
    apart
}

#[test]
fn identities_tell_events_apart(rt: HostRuntime) {
    let ids = six_identities().expect(&rt, "identities");
    let events = ids.map(|id| Event::with_tag(rt.alloc(), id));
    expect_equal(&rt, &apart(rt, events.as_slice()), &6);
}
