//! Two threads and a channel: one sends, the other receives until the sender is dropped.

use async_channel::{EventIds, ListenError, Receiver, Runtime, Sender, bounded};
use std::alloc::Global;
use std::sync::Wait;
use std::thread;

pub(crate) fn send_all<R: Wait + Copy>(sender: Sender<u64, R>) {
    for number in 1..101 {
        if sender.send_blocking(number).is_err() {
            return;
        }
    }
}

/// The sum of what is received until the channel is closed and empty. Refused where a wait was refused memory or a serial.
fn receive_all<R: Wait + Copy>(receiver: Receiver<u64, R>) -> Result<u64, ListenError> {
    let mut sum = 0u64;
    for number in receiver.iter() {
        sum = sum.wrapping_add(number?);
    }
    Ok(sum)
}

/// The sum of a hundred numbers that go through three places.
pub(crate) fn sum<R: Runtime>(rt: R, alloc: Global, ids: &mut EventIds) -> Option<u64> {
    let (sender, receiver) = bounded(rt, alloc, 3, ids).ok()?;
    let ((), sum) = thread::join(&rt, move || send_all(sender), move || receive_all(receiver));
    sum.ok()
}
