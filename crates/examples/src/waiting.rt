//! An event on which a thread waits.

use async_channel::Runtime;
use event_listener::{Event, EventIds, Listener};
use std::alloc::Global;
use std::sync::{Mutex, Wait};
use std::thread;

/// Waits until there is a value, and takes it. It listens before it looks, so no notice falls between.
fn take<R: Wait>(rt: &R, event: &Event<()>, place: &Mutex<Option<u64>>) -> Option<u64> {
    for _ in rt.forever() {
        let listener = event.listen(&rt).ok()?;
        if let Some(value) = place.lock(rt).take() {
            return Some(value);
        }
        listener.wait().ok()?;
    }
    None
}

/// Puts the value there, and tells one that waits: how many were told.
fn put<R: Wait>(rt: &R, event: &Event<()>, place: &Mutex<Option<u64>>, value: u64) -> u64 {
    *place.lock(rt) = Some(value);
    event.notify_additional(rt, 1) as u64
}

/// What the thread that waited got.
pub(crate) fn taken<R: Runtime>(rt: R, alloc: Global, ids: &mut EventIds) -> Option<u64> {
    let event = Event::new(alloc, ids.next().ok()?);
    let place = Mutex::new(None);
    let (_told, taken) = thread::join(
        &rt,
        || put(&rt, &event, &place, 7),
        || take(&rt, &event, &place),
    );
    taken
}
