//! The calls that are used most, one small function each: the documentation of each of them shows what stands here.

use async_channel::{Receiver, Sender, bounded, unbounded};
use event_listener::id::EventIds;
use futures::executor::block_on;
use std::alloc::{AllocGlobal, Global};
use std::random::RandomSource;
use std::sync::Wait;

/// Both ends of a channel.
type Ends<R> = (Sender<u64, R>, Receiver<u64, R>);

fn opens<R: Wait + Copy>(rt: R, alloc: Global, ids: &mut EventIds) -> Option<bool> {
    let (sender, receiver) = bounded(rt, alloc, 2, ids).ok()?;
    sender.try_send(1).ok()?;
    Some(receiver.capacity() == Some(2) && receiver.len() == 1)
}

fn opens_unbounded<R: Wait + Copy>(rt: R, alloc: Global, ids: &mut EventIds) -> Option<bool> {
    let (sender, receiver) = unbounded(rt, alloc, ids).ok()?;
    sender.try_send(1).ok()?;
    Some(receiver.capacity().is_none() && !sender.is_full())
}

fn tries_to_send<R: Wait + Copy>(ends: &Ends<R>) -> Option<bool> {
    let (sender, _) = ends; // of a channel of one place
    sender.try_send(1).ok()?;
    let refused = sender.try_send(2).err()?;
    Some(refused.is_full() && refused.into_inner() == 2)
}

fn displaces<R: Wait + Copy>(ends: &Ends<R>) -> Option<bool> {
    let (sender, receiver) = ends; // of a channel of one place
    sender.try_send(1).ok()?;
    let oldest = sender.force_send(2).ok()?;
    Some(oldest == Some(1) && receiver.try_recv().ok() == Some(2))
}

fn sends<R>(rt: R, ends: &Ends<R>) -> Option<bool>
where
    R: Wait + Copy + RandomSource + AllocGlobal,
{
    let (sender, receiver) = ends;
    let message = 1;
    let mut send = sender.send(message);
    if !matches!(block_on(&rt, &mut send), Ok(Ok(()))) {
        let unsent = send.give_up();
        return Some(unsent.is_none());
    }
    Some(receiver.try_recv().ok() == Some(message))
}

fn tries_to_receive<R: Wait + Copy>(ends: &Ends<R>) -> Option<bool> {
    let (sender, receiver) = ends;
    let none_yet = receiver.try_recv().err()?.is_empty();
    sender.try_send(1).ok()?;
    sender.close();
    let message = receiver.try_recv().ok()?; // what was sent before is still received
    let over = receiver.try_recv().err()?.is_closed();
    Some(none_yet && message == 1 && over)
}

fn receives<R>(rt: R, ends: &Ends<R>) -> Option<bool>
where
    R: Wait + Copy + RandomSource + AllocGlobal,
{
    let (sender, receiver) = ends;
    sender.try_send(1).ok()?;
    let received = block_on(&rt, receiver.recv()).ok()?;
    Some(received.ok() == Some(1))
}

fn receives_several<R: Wait + Copy>(ends: &Ends<R>) -> Option<bool> {
    let (sender, receiver) = ends; // of a channel without a bound
    sender.try_send(1).ok()?;
    sender.try_send(2).ok()?;
    sender.try_send(3).ok()?;
    let batch = receiver.recv_many(2).ok()?;
    Some(batch.len() == 2 && batch.first() == Some(&1) && receiver.len() == 1)
}

fn closes<R: Wait + Copy>(ends: &Ends<R>) -> Option<bool> {
    let (sender, receiver) = ends;
    let first = receiver.close();
    let second = sender.close();
    Some(first && !second && sender.try_send(1).err()?.is_closed())
}

fn clones<R: Wait + Copy>(ends: Ends<R>) -> Option<bool> {
    let (sender, receiver) = ends;
    let weak = sender.downgrade().ok()?;
    let second = sender.try_clone().ok()?;
    drop(sender);
    let open = !receiver.is_closed(); // the second one lives
    drop(second);
    Some(open && receiver.is_closed() && weak.upgrade().ok()?.is_none())
}

/// Those that take a channel of one place.
#[derive(Drop)]
enum OnOnePlace {
    TriesToSend,
    Displaces,
    Sends,
    TriesToReceive,
    Receives,
    Closes,
}

/// Whether this one answers as it is told to.
fn is_right<R>(rt: R, ends: &Ends<R>, call: OnOnePlace) -> Option<bool>
where
    R: Wait + Copy + RandomSource + AllocGlobal,
{
    match call {
        OnOnePlace::TriesToSend => tries_to_send(ends),
        OnOnePlace::Displaces => displaces(ends),
        OnOnePlace::Sends => sends(rt, ends),
        OnOnePlace::TriesToReceive => tries_to_receive(ends),
        OnOnePlace::Receives => receives(rt, ends),
        OnOnePlace::Closes => closes(ends),
    }
}

/// How many of those are right, each on a channel of its own.
fn right_on_one_place<R>(rt: R, alloc: Global, ids: &mut EventIds) -> Option<u64>
where
    R: Wait + Copy + RandomSource + AllocGlobal,
{
    let mut right = 0u64;
    for call in [
        OnOnePlace::TriesToSend,
        OnOnePlace::Displaces,
        OnOnePlace::Sends,
        OnOnePlace::TriesToReceive,
        OnOnePlace::Receives,
        OnOnePlace::Closes,
    ] {
        let ends = bounded(rt, alloc, 1, ids).ok()?;
        let answer = is_right(rt, &ends, call)?;
        right = right.wrapping_add(u64::from(answer));
    }
    Some(right)
}

/// How many of all answer as they are told to.
pub(crate) fn right<R>(rt: R, alloc: Global, ids: &mut EventIds) -> Option<u64>
where
    R: Wait + Copy + RandomSource + AllocGlobal,
{
    let right = right_on_one_place(rt, alloc, ids)?
        .wrapping_add(u64::from(opens(rt, alloc, ids)?))
        .wrapping_add(u64::from(opens_unbounded(rt, alloc, ids)?))
        .wrapping_add(u64::from(clones(bounded(rt, alloc, 1, ids).ok()?)?));
    let ends = unbounded(rt, alloc, ids).ok()?;
    let several = receives_several(&ends)?;
    Some(right.wrapping_add(u64::from(several)))
}
