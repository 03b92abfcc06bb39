//! Back-pressure: a channel of one place makes a fast sender wait for a slow receiver.

use crate::two_threads::send_all;
use async_channel::{EventIds, Receiver, Runtime, bounded};
use std::alloc::Global;
use std::sync::Wait;
use std::thread;

/// How many messages came; `None` where the channel ever held more than one, or a wait was refused.
fn receive_slowly<R: Wait + Copy>(receiver: Receiver<u64, R>) -> Option<u64> {
    let mut count = 0u64;
    for message in &receiver {
        if message.is_err() || receiver.len() > 1 {
            return None;
        }
        count = count.wrapping_add(1);
        thread::yield_now();
    }
    Some(count)
}

/// That number for a hundred messages, each of which is sent as soon as there is a place.
pub(crate) fn count<R: Runtime>(rt: R, alloc: Global, ids: &mut EventIds) -> Option<u64> {
    let (sender, receiver) = bounded(rt, alloc, 1, ids).ok()?;
    let ((), count) = thread::join(
        &rt,
        move || send_all(sender),
        move || receive_slowly(receiver),
    );
    count
}
