//! The calls of a channel that don't wait for a message or a place, each made up to its answer over any cells.
//!
//! Whatever the cells hold, each does what the machine of its call does from its first step to this answer (clauses `deeds`). That the
//! answer is of the call's own kind follows from the form that the queue is said to have.

ghost use Rattle.std.specs.Prelude.{◌≡◌, None, Ok, Err, IfOk, IfErr, MatchResult};
ghost use Rattle.concurrent_queue.specs.Replies.{is_bounded, room_of};
ghost use Rattle.concurrent_queue.specs.declared.cells.QueueForm.{QueueForm};
ghost use Rattle.channel_calls.specs.Asks.{first};
ghost use Rattle.channel_calls.specs.Deeds.{Done};
ghost use Rattle.channel_calls.specs.Replies.{GivesUpTo, ReplyAllowed, RefusesTrySend, RefusesForceSend};
ghost use Rattle.channel_calls.specs.Stands.{BeginsHere};
ghost use Rattle.channel_calls.specs.Walks.{WalkedTo};
ghost use Rattle.channel_calls.specs.declared.ask.ChannelAsk.TheVariants as ask;
ghost use Rattle.channel_calls.specs.declared.reply.Reply.TheVariants as reply;

use crate::ask::ChannelAsk;
use crate::cells::ChannelCells;
use crate::error::{Refused, SendError, TryRecvError, TrySendError};
use crate::fast_path::{displace_fast, length_fast, receive_fast, send_fast};
use crate::filling::recv_many_into;
use crate::reply::Reply;
use crate::whole::{complete, make};
use event_listener::wakes::Wakes;
use std::alloc::Global;
use std::sync::Wait;

/// The answer of a send that doesn't wait: the fast path as far as it goes, and the other steps after it.
#[inline(always)]
fn sent<T: Drop, W: Drop, R: Wait, C: ChannelCells<T, W>, S: Wakes<W>>(
    rt: &R,
    message: T,
    cells: &mut C,
    sink: &mut S,
) -> Reply<T>
    requires stands { BeginsHere C.stands (first (ask.TrySend message)) cells.old }
    ensures deeds { WalkedTo (Done C.did S.wakes) (first (ask.TrySend message)) (cells.old, sink.old) result (cells.new, sink.new) }
    ensures answers { (f : QueueForm) → C.has_form cells.old f → ReplyAllowed {W = W} f (ask.TrySend message) result None }
    ensures form { (f : QueueForm) → C.has_form cells.old f → C.has_form cells.new f }
{
    match send_fast(message, cells, sink) {
        Ok(reply) => reply,
        Err(call) => complete(rt, call, cells, sink).reply,
    }
}

/// The answer of a send that displaces, likewise.
#[inline(always)]
fn displaced<T: Drop, W: Drop, R: Wait, C: ChannelCells<T, W>, S: Wakes<W>>(
    rt: &R,
    message: T,
    cells: &mut C,
    sink: &mut S,
) -> Reply<T>
    requires stands { BeginsHere C.stands (first (ask.ForceSend message)) cells.old }
    ensures deeds { WalkedTo (Done C.did S.wakes) (first (ask.ForceSend message)) (cells.old, sink.old) result (cells.new, sink.new) }
    ensures answers { (f : QueueForm) → C.has_form cells.old f → ReplyAllowed {W = W} f (ask.ForceSend message) result None }
    ensures form { (f : QueueForm) → C.has_form cells.old f → C.has_form cells.new f }
{
    match displace_fast(message, cells, sink) {
        Ok(reply) => reply,
        Err(call) => complete(rt, call, cells, sink).reply,
    }
}

/// The answer of a receive that doesn't wait, likewise.
#[inline(always)]
fn received<T: Drop, W: Drop, R: Wait, C: ChannelCells<T, W>, S: Wakes<W>>(
    rt: &R,
    cells: &mut C,
    sink: &mut S,
) -> Reply<T>
    requires stands { BeginsHere C.stands (first ask.TryRecv) cells.old }
    ensures deeds { WalkedTo (Done C.did S.wakes) (first ask.TryRecv) (cells.old, sink.old) result (cells.new, sink.new) }
    ensures answers { (f : QueueForm) → C.has_form cells.old f → ReplyAllowed {W = W} f ask.TryRecv result None }
    ensures form { (f : QueueForm) → C.has_form cells.old f → C.has_form cells.new f }
{
    match receive_fast(cells, sink) {
        Ok(reply) => reply,
        Err(call) => complete(rt, call, cells, sink).reply,
    }
}

/// The answer of the question for the length, likewise.
#[inline(always)]
fn counted<T: Drop, W: Drop, R: Wait, C: ChannelCells<T, W>, S: Wakes<W>>(
    rt: &R,
    cells: &mut C,
    sink: &mut S,
) -> Reply<T>
    requires stands { BeginsHere C.stands (first ask.Len) cells.old }
    ensures deeds { WalkedTo (Done C.did S.wakes) (first ask.Len) (cells.old, sink.old) result (cells.new, sink.new) }
    ensures answers { (f : QueueForm) → C.has_form cells.old f → ReplyAllowed {W = W} f ask.Len result None }
    ensures form { (f : QueueForm) → C.has_form cells.old f → C.has_form cells.new f }
{
    match length_fast(cells, sink) {
        Ok(reply) => reply,
        Err(call) => complete(rt, call, cells, sink).reply,
    }
}

/// A send that doesn't wait for a place.
#[inline(always)]
pub fn try_send<T: Drop, W: Drop, R: Wait, C: ChannelCells<T, W>, S: Wakes<W>>(
    rt: &R,
    message: T,
    cells: &mut C,
    sink: &mut S,
) -> Result<(), Refused<TrySendError<T>, T>>
    requires form { (f : QueueForm) × C.has_form cells.old f }
    requires stands { BeginsHere C.stands (first (ask.TrySend message)) cells.old }
    ensures deeds { WalkedTo (Done C.did S.wakes) (first (ask.TrySend message)) (cells.old, sink.old) (reply.TrySend result) (cells.new, sink.new) }
    ensures refused { (f : QueueForm) → C.has_form cells.old f → IfErr result (λ e. RefusesTrySend (is_bounded f) message e) }
    ensures form { (f : QueueForm) → C.has_form cells.old f → C.has_form cells.new f }
{
    match sent(rt, message, cells, sink) {
        Reply::TrySend(result) => result,
        _ => unreachable!(),
    }
}

/// A send that displaces the oldest message of a full channel and returns it.
pub fn force_send<T: Drop, W: Drop, R: Wait, C: ChannelCells<T, W>, S: Wakes<W>>(
    rt: &R,
    message: T,
    cells: &mut C,
    sink: &mut S,
) -> Result<Option<T>, Refused<SendError<T>, T>>
    requires form { (f : QueueForm) × C.has_form cells.old f }
    requires stands { BeginsHere C.stands (first (ask.ForceSend message)) cells.old }
    ensures deeds { WalkedTo (Done C.did S.wakes) (first (ask.ForceSend message)) (cells.old, sink.old) (reply.ForceSend result) (cells.new, sink.new) }
    ensures refused { (f : QueueForm) → C.has_form cells.old f → IfErr result (λ e. RefusesForceSend (is_bounded f) message e) }
    ensures displaced { (f : QueueForm) → C.has_form cells.old f → room_of f ≡ None → IfOk result (λ o. o ≡ None) }
    ensures form { (f : QueueForm) → C.has_form cells.old f → C.has_form cells.new f }
{
    match displaced(rt, message, cells, sink) {
        Reply::ForceSend(result) => result,
        _ => unreachable!(),
    }
}

/// A receive that doesn't wait for a message.
#[inline(always)]
pub fn try_recv<T: Drop, W: Drop, R: Wait, C: ChannelCells<T, W>, S: Wakes<W>>(
    rt: &R,
    cells: &mut C,
    sink: &mut S,
) -> Result<T, TryRecvError>
    requires form { (f : QueueForm) × C.has_form cells.old f }
    requires stands { BeginsHere C.stands (first ask.TryRecv) cells.old }
    ensures deeds { WalkedTo (Done C.did S.wakes) (first ask.TryRecv) (cells.old, sink.old) (reply.TryRecv result) (cells.new, sink.new) }
    ensures form { (f : QueueForm) → C.has_form cells.old f → C.has_form cells.new f }
{
    match received(rt, cells, sink) {
        Reply::TryRecv(result) => result,
        _ => unreachable!(),
    }
}

/// A receive of several messages, at most so many, that waits for none. It reserves room for all of them first, so that no message that was
/// taken is lost for want of memory; then it receives into that room.
pub fn recv_many<T: Drop, W: Drop, R: Wait, C: ChannelCells<T, W>, S: Wakes<W>>(
    rt: &R,
    limit: usize,
    alloc: Global,
    cells: &mut C,
    sink: &mut S,
) -> Result<Vec<T>, Refused<TryRecvError>>
    requires form { (f : QueueForm) × C.has_form cells.old f }
    requires stands { BeginsHere C.stands (first (ask.RecvMany limit)) cells.old }
    ensures deeds { MatchResult result (λ messages. WalkedTo (Done C.did S.wakes) (first (ask.RecvMany limit)) (cells.old, sink.old) (reply.RecvMany (Ok messages.items)) (cells.new, sink.new))
        (λ e. WalkedTo (Done C.did S.wakes) (first (ask.RecvMany limit)) (cells.old, sink.old) (reply.RecvMany (Err e)) (cells.new, sink.new)) }
    ensures most { MatchResult result (λ messages. GivesUpTo limit (reply.RecvMany (Ok messages.items))) (λ e. GivesUpTo {T = T} limit (reply.RecvMany (Err e))) }
    ensures form { (f : QueueForm) → C.has_form cells.old f → C.has_form cells.new f }
{
    let Ok(mut messages) = Vec::with_capacity(alloc, limit) else {
        return Err(Refused::NoMemory(()));
    };
    match recv_many_into(rt, &mut messages, cells, sink) {
        Ok(_) => Ok(messages),
        Err(error) => {
            drop(messages);
            Err(Refused::Plain(error))
        }
    }
}

/// Closes the channel, and answers whether this call did.
pub fn close<T: Drop, W: Drop, R: Wait, C: ChannelCells<T, W>, S: Wakes<W>>(
    rt: &R,
    cells: &mut C,
    sink: &mut S,
) -> bool
    requires form { (f : QueueForm) × C.has_form cells.old f }
    requires stands { BeginsHere C.stands (first ask.Close) cells.old }
    ensures deeds { WalkedTo (Done C.did S.wakes) (first ask.Close) (cells.old, sink.old) (reply.Closed result) (cells.new, sink.new) }
    ensures form { (f : QueueForm) → C.has_form cells.old f → C.has_form cells.new f }
{
    let given = make(rt, ChannelAsk::Close, cells, sink);
    let closed = match &given.reply {
        Reply::Closed(closed) => *closed,
        _ => unreachable!(),
    };
    drop(given);
    closed
}

/// How many messages the channel holds.
pub fn len<T: Drop, W: Drop, R: Wait, C: ChannelCells<T, W>, S: Wakes<W>>(
    rt: &R,
    cells: &mut C,
    sink: &mut S,
) -> usize
    requires form { (f : QueueForm) × C.has_form cells.old f }
    requires stands { BeginsHere C.stands (first ask.Len) cells.old }
    ensures deeds { WalkedTo (Done C.did S.wakes) (first ask.Len) (cells.old, sink.old) (reply.Count result) (cells.new, sink.new) }
    ensures form { (f : QueueForm) → C.has_form cells.old f → C.has_form cells.new f }
{
    match counted(rt, cells, sink) {
        Reply::Count(count) => count,
        _ => unreachable!(),
    }
}
