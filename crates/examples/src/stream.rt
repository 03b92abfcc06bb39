//! A receiver as a stream: its items are the messages, and it ends once the channel is closed and empty.

use async_channel::{EventIds, Receiver, Runtime, unbounded};
use futures::StreamExt;
use futures::executor::block_on;
use std::alloc::Global;

fn sum_of<R: Runtime>(rt: R, mut receiver: Receiver<u64, R>) -> u64 {
    let mut sum = 0u64;
    for _ in rt.forever() {
        match block_on(&rt, receiver.next()) {
            Ok(Some(Ok(number))) => sum = sum.wrapping_add(number),
            _ => return sum,
        }
    }
    sum
}

/// The sum of the stream's items.
pub(crate) fn sum<R: Runtime>(rt: R, alloc: Global, ids: &mut EventIds) -> Option<u64> {
    let (sender, receiver) = unbounded(rt, alloc, ids).ok()?;
    for number in 1..11 {
        sender.try_send(number).ok()?;
    }
    drop(sender);
    Some(sum_of(rt, receiver))
}
