//! What the tests of a channel's handles share: the channels that they open, and what polls and calls say, in short.
#![tactic(auto)]

pub mod calls;
pub mod log;

ghost use Rattle.std.specs.Prelude.{◌<◌};

use async_channel::{
    Closed, Receiver, Recv, RecvError, Refused, Send, SendError, Sender, TrySendError, bounded,
    unbounded,
};
use event_listener::error::ListenError;
use event_listener::id::EventIds;
use futures::executor::block_on;
use futures::task::Poll;
use futures::test::MockTask;
use futures::{Stream, StreamExt};
use std::alloc::{AllocGlobal, Global};
use std::random::RandomSource;
use std::sync::Wait;

/// The first two handles of a channel.
pub type Ends<R> = (Sender<u64, R>, Receiver<u64, R>);

/// A channel that holds so many messages at most, or any number where that is 0.
pub fn opened<R: Wait + Copy>(rt: R, alloc: Global, capacity: usize) -> Option<Ends<R>> {
    let mut ids = EventIds::new();
    if capacity == 0 {
        unbounded(rt, alloc, &mut ids).ok()
    } else {
        bounded(rt, alloc, capacity, &mut ids).ok()
    }
}

/// The capacity of the channel that a line of a row opens, `bounded N` or `unbounded`, 0 where that is without a bound.
pub fn capacity_of(line: &str) -> Option<usize> {
    if line == "unbounded" {
        return Some(0);
    }
    match line.strip_prefix("bounded ") {
        Some(capacity) => capacity.parse::<usize>().ok(),
        None => None,
    }
}

/// What a poll says.
#[derive(Clone, Copy, PartialEq, Eq, Debug)]
pub enum Said {
    /// It is pending.
    Pending,
    /// It is done.
    Done,
    /// This message was received.
    Got(u64),
    /// The channel is closed, and this message is handed back.
    Back(u64),
    /// The channel is closed.
    Over,
    /// Memory or a serial was refused.
    Wanted,
}

/// A poll of a send.
pub fn sends<R: Wait + Copy>(task: &MockTask, send: &mut Send<'_, u64, R>) -> Said {
    match &task.poll(send) {
        Poll::Pending => Said::Pending,
        Poll::Ready(Ok(())) => Said::Done,
        Poll::Ready(Err(Refused::Plain(SendError(back)))) => Said::Back(*back),
        Poll::Ready(Err(_)) => Said::Wanted,
    }
}

/// A poll of a receive.
pub fn receives<R: Wait + Copy>(task: &MockTask, recv: &mut Recv<'_, u64, R>) -> Said {
    match &task.poll(recv) {
        Poll::Pending => Said::Pending,
        Poll::Ready(Ok(message)) => Said::Got(*message),
        Poll::Ready(Err(Refused::Plain(RecvError))) => Said::Over,
        Poll::Ready(Err(_)) => Said::Wanted,
    }
}

/// A poll of a wait for the closing.
pub fn closes<R: Wait + Copy>(task: &MockTask, closed: &mut Closed<'_, u64, R>) -> Said {
    match task.poll(closed) {
        Poll::Pending => Said::Pending,
        Poll::Ready(Ok(())) => Said::Over,
        Poll::Ready(Err(_)) => Said::Wanted,
    }
}

/// A poll of a receiver as a stream.
pub fn streams<R: Wait + Copy>(task: &MockTask, stream: &mut Receiver<u64, R>) -> Said {
    let polled: Poll<Option<Result<u64, ListenError>>> = task.enter(|cx| stream.poll_next(cx));
    match polled {
        Poll::Pending => Said::Pending,
        Poll::Ready(Some(Ok(message))) => Said::Got(message),
        Poll::Ready(None) => Said::Over,
        Poll::Ready(Some(Err(_))) => Said::Wanted,
    }
}

/// Whether a send that doesn't wait is done.
pub fn goes<R: Wait + Copy>(s: &Sender<u64, R>, message: u64) -> bool {
    s.try_send(message).is_ok()
}

/// Whether a send that blocks is done.
pub fn sends_blocking<R: Wait + Copy>(s: &Sender<u64, R>, message: u64) -> bool {
    s.send_blocking(message).is_ok()
}

/// Whether a send run to its end is done.
pub fn sent<R>(rt: R, s: &Sender<u64, R>, message: u64) -> bool
where
    R: Wait + Copy + RandomSource + AllocGlobal,
{
    matches!(&block_on(&rt, s.send(message)), Ok(Ok(())))
}

/// What a receive run to its end gives.
pub fn next_message<R>(rt: R, r: &Receiver<u64, R>) -> Option<u64>
where
    R: Wait + Copy + RandomSource + AllocGlobal,
{
    match &block_on(&rt, r.recv()) {
        Ok(Ok(message)) => Some(*message),
        _ => None,
    }
}

/// Whether a receive run to its end gives this message.
pub fn received<R>(rt: R, r: &Receiver<u64, R>, message: u64) -> bool
where
    R: Wait + Copy + RandomSource + AllocGlobal,
{
    next_message(rt, r) == Some(message)
}

/// What the stream of a receiver, run to its next message, gives.
pub fn next_of_stream<R>(rt: R, stream: &mut Receiver<u64, R>) -> Option<u64>
where
    R: Wait + Copy + RandomSource + AllocGlobal,
{
    match &block_on(&rt, stream.next()) {
        Ok(Some(Ok(message))) => Some(*message),
        _ => None,
    }
}

/// Whether a wait for the closing, run to its end, is told of it.
pub fn told_of_closing<R>(rt: R, s: &Sender<u64, R>) -> bool
where
    R: Wait + Copy + RandomSource + AllocGlobal,
{
    matches!(&block_on(&rt, s.closed()), Ok(Ok(())))
}
