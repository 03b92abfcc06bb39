//! A consumer that works in batches: it waits for the first message, and takes the rest that is there in one call, into room that
//! it has asked for once.

use crate::two_threads::send_all;
use async_channel::{EventIds, Receiver, Runtime, bounded};
use std::alloc::Global;
use std::sync::Wait;
use std::thread;

/// The sum of what is received until the channel is closed and empty. Refused where there is no memory for a batch, or where a
/// wait was refused memory or a serial.
fn receive_batches<R: Wait + Copy>(alloc: Global, receiver: Receiver<u64, R>) -> Option<u64> {
    let mut batch = Vec::with_capacity(alloc, 15).ok()?;
    let mut sum = 0u64;
    for first in &receiver {
        sum = sum.wrapping_add(first.ok()?);
        if receiver.recv_many_into(&mut batch).is_ok() {
            for number in batch.drain(..) {
                sum = sum.wrapping_add(number);
            }
        }
    }
    Some(sum)
}

/// The sum of a hundred numbers that go through sixteen places.
pub(crate) fn sum<R: Runtime>(rt: R, alloc: Global, ids: &mut EventIds) -> Option<u64> {
    let (sender, receiver) = bounded(rt, alloc, 16, ids).ok()?;
    let ((), sum) = thread::join(
        &rt,
        move || send_all(sender),
        move || receive_batches(alloc, receiver),
    );
    sum
}
