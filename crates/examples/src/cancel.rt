//! Giving up: a send that finds no place hands its message back, and a receive that was told of a message passes the notice on, so
//! that nobody sleeps beside it.

use async_channel::{Receiver, Sender, bounded};
use event_listener::id::EventIds;
use futures::task::Poll;
use futures::test::MockTask;
use std::alloc::{AllocGlobal, Global};
use std::random::RandomSource;
use std::sync::Wait;

/// Whether a send that finds no place gives its message back.
fn hands_back<R: Wait + Copy>(task: &MockTask, sender: &Sender<u64, R>) -> Option<bool> {
    sender.try_send(1).ok()?; // the only place is taken
    let mut send = sender.send(2);
    let waits = task.poll(&mut send).is_pending();
    Some(waits && send.give_up() == Some(2))
}

/// Whether the second of two who wait gets the message of which the first was told before it gave up.
fn passes_on<R: Wait + Copy>(
    task: &MockTask,
    sender: &Sender<u64, R>,
    receiver: &Receiver<u64, R>,
) -> Option<bool> {
    receiver.try_recv().ok()?; // now it is empty
    let mut first = receiver.recv();
    let mut second = receiver.recv();
    let wait = task.poll(&mut first).is_pending() && task.poll(&mut second).is_pending();
    sender.try_send(3).ok()?; // tells the first
    first.give_up(); // which passes it on
    let got = matches!(task.poll(&mut second), Poll::Ready(Ok(3)));
    Some(wait && got)
}

/// How many of the two are so.
pub(crate) fn right<R>(rt: R, alloc: Global, ids: &mut EventIds) -> Option<u64>
where
    R: Wait + Copy + RandomSource + AllocGlobal,
{
    let (sender, receiver) = bounded(rt, alloc, 1, ids).ok()?;
    let task = MockTask::new(&rt).ok()?;
    let back = hands_back(&task, &sender)?;
    let passed = passes_on(&task, &sender, &receiver)?;
    Some(u64::from(back).wrapping_add(u64::from(passed)))
}
