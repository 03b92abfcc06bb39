//! The latest value: a channel of one place, into which a sender puts each new reading in the place of the one before. Who receives gets
//! the newest one that there is, and misses those between.

use async_channel::{EventIds, Receiver, Runtime, Sender, bounded};
use std::alloc::Global;
use std::sync::Wait;
use std::thread;

/// Puts a hundred readings in, and never waits for a place.
fn publish<R: Wait + Copy>(readings: Sender<u64, R>) -> Option<u64> {
    for reading in 1..101 {
        let _displaced = readings.force_send(reading).ok()?;
    }
    Some(100)
}

/// The last of the readings that came. `None` where one came that isn't newer than the one before it.
fn follow<R: Wait + Copy>(readings: Receiver<u64, R>) -> Option<u64> {
    let mut latest = 0;
    for reading in &readings {
        let reading = reading.ok()?;
        if reading <= latest {
            return None;
        }
        latest = reading;
        thread::yield_now();
    }
    Some(latest)
}

/// The last reading of a hundred.
pub(crate) fn last<R: Runtime>(rt: R, alloc: Global, ids: &mut EventIds) -> Option<u64> {
    let (sender, receiver) = bounded(rt, alloc, 1, ids).ok()?;
    let (published, latest) = thread::join(&rt, move || publish(sender), move || follow(receiver));
    published?;
    latest
}
