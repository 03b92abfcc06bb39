//! Everybody is told of the closing: who waits for it, and who waits for a message that won't come.

use crate::three::join_three;
use async_channel::{EventIds, Receiver, Runtime, Sender, unbounded};
use futures::executor::block_on;
use std::alloc::{AllocGlobal, Global};
use std::random::RandomSource;
use std::sync::Wait;

/// 1 where this call closed the channel.
fn close<R: Wait + Copy>(receiver: &Receiver<u64, R>) -> u64 {
    u64::from(receiver.close())
}

/// 1 once the channel is closed.
fn wait_for_closing<R>(rt: R, sender: &Sender<u64, R>) -> Option<u64>
where
    R: Wait + Copy + RandomSource + AllocGlobal,
{
    match block_on(&rt, sender.closed()) {
        Ok(Ok(())) => Some(1),
        _ => None,
    }
}

/// 1 where no message comes any more.
fn wait_for_message<R: Wait + Copy>(receiver: &Receiver<u64, R>) -> Option<u64> {
    match receiver.recv_blocking() {
        Err(refused) if refused.is_closed() => Some(1),
        _ => None,
    }
}

/// How many were told, the one who closed it among them.
pub(crate) fn told<R: Runtime>(rt: R, alloc: Global, ids: &mut EventIds) -> Option<u64> {
    let (sender, receiver) = unbounded(rt, alloc, ids).ok()?;
    let (closer, at_sender, at_receiver) = join_three(
        &rt,
        || close(&receiver),
        || wait_for_closing(rt, &sender),
        || wait_for_message(&receiver),
    );
    Some(closer.wrapping_add(at_sender?).wrapping_add(at_receiver?))
}
