//! The calls that wait for no message and no place, over cells of any kind that a trace sees. Each is that of `channel_calls`, and returns
//! the trace with its answer: what is said there of the cells is said here of what the trace saw.
//!
//! Over cells of any kind no `Sight` is at hand, so a body here can lead the trace on only by operations. It is also cheaper to prove than
//! over the shared cells.

pub(crate) mod blocking;
pub(crate) mod counts;
pub(crate) mod polls;

ghost use Rattle.std.specs.Prelude.{◌≡◌, ◌≤◌, ◌<◌, None, Ok, Err, IfOk, IfErr, MatchResult};
ghost use Rattle.std.specs.Vec.{vec_capacity, vec_ptr};
ghost use Rattle.concurrent_queue.specs.Replies.{is_bounded, room_of};
ghost use Rattle.channel_calls.specs.Asks.{first};
ghost use Rattle.channel_calls.specs.Filling.{Fills, room_in};
ghost use Rattle.channel_calls.specs.Replies.{RefusesTrySend, RefusesForceSend, GivesUpTo};
ghost use Rattle.channel_calls.specs.Walks.{WalkedTo};
ghost use Rattle.channel_calls.specs.declared.ask.ChannelAsk.TheVariants as ask;
ghost use Rattle.channel_calls.specs.declared.reply.Reply.TheVariants as reply;
ghost use Rattle.async_channel.specs.Saw.{Saw};
ghost use Rattle.async_channel.specs.Several.{ReceivesMany};

use crate::cells::Places;
use crate::seen::{Seen, Trace};
use channel_calls::error::{Refused, SendError, TryRecvError, TrySendError};
use channel_calls::{calls, filling};
use event_listener::waking::WakeNow;
use std::alloc::Global;
use std::sync::Wait;

/// Closes the channel.
#[inline(always)]
pub(crate) fn close<T: Drop, R: Wait, C: Places<T>, S: Trace<T>>(
    rt: &R,
    seen: Seen<C, S>,
) -> (bool, S)
    ensures walked { WalkedTo (Saw S.did S.shown (C.form_of seen.cells)) (first ask.Close) seen.trace (reply.Closed (result.0)) (result.1) }
{
    let mut seen = seen;
    let closed = calls::close(rt, &mut seen, &mut WakeNow { rt });
    (closed, seen.into_trace())
}

/// How many messages the channel held at a moment of the call.
#[inline(always)]
pub(crate) fn len<T: Drop, R: Wait, C: Places<T>, S: Trace<T>>(
    rt: &R,
    seen: Seen<C, S>,
) -> (usize, S)
    ensures walked { WalkedTo (Saw S.did S.shown (C.form_of seen.cells)) (first ask.Len) seen.trace (reply.Count (result.0)) (result.1) }
{
    let mut seen = seen;
    let count = calls::len(rt, &mut seen, &mut WakeNow { rt });
    (count, seen.into_trace())
}

/// Sends the message if there is a place for it.
#[inline(always)]
pub(crate) fn try_send<T: Drop, R: Wait, C: Places<T>, S: Trace<T>>(
    rt: &R,
    message: T,
    seen: Seen<C, S>,
) -> (Result<(), Refused<TrySendError<T>, T>>, S)
    ensures walked { WalkedTo (Saw S.did S.shown (C.form_of seen.cells)) (first (ask.TrySend message)) seen.trace (reply.TrySend (result.0)) (result.1) }
    ensures refused { IfErr (result.0) (λ e. RefusesTrySend (is_bounded (C.form_of seen.cells)) message e) }
{
    let mut seen = seen;
    let sent = calls::try_send(rt, message, &mut seen, &mut WakeNow { rt });
    (sent, seen.into_trace())
}

/// Sends the message; if the channel is full, removes and returns its oldest message.
#[inline(always)]
pub(crate) fn force_send<T: Drop, R: Wait, C: Places<T>, S: Trace<T>>(
    rt: &R,
    message: T,
    seen: Seen<C, S>,
) -> (Result<Option<T>, Refused<SendError<T>, T>>, S)
    ensures walked { WalkedTo (Saw S.did S.shown (C.form_of seen.cells)) (first (ask.ForceSend message)) seen.trace (reply.ForceSend (result.0)) (result.1) }
    ensures refused { IfErr (result.0) (λ e. RefusesForceSend (is_bounded (C.form_of seen.cells)) message e) }
    ensures displaced { room_of (C.form_of seen.cells) ≡ None → IfOk (result.0) (λ oldest. oldest ≡ None) }
{
    let mut seen = seen;
    let sent = calls::force_send(rt, message, &mut seen, &mut WakeNow { rt });
    (sent, seen.into_trace())
}

/// Removes the oldest message.
#[inline(always)]
pub(crate) fn try_recv<T: Drop, R: Wait, C: Places<T>, S: Trace<T>>(
    rt: &R,
    seen: Seen<C, S>,
) -> (Result<T, TryRecvError>, S)
    ensures walked { WalkedTo (Saw S.did S.shown (C.form_of seen.cells)) (first ask.TryRecv) seen.trace (reply.TryRecv (result.0)) (result.1) }
{
    let mut seen = seen;
    let received = calls::try_recv(rt, &mut seen, &mut WakeNow { rt });
    (received, seen.into_trace())
}

/// Removes the oldest messages, at most `limit`, in order.
#[inline(always)]
pub(crate) fn recv_many<T: Drop, R: Wait, C: Places<T>, S: Trace<T>>(
    rt: &R,
    limit: usize,
    alloc: Global,
    seen: Seen<C, S>,
) -> (Result<Vec<T>, Refused<TryRecvError>>, S)
    ensures walked { ReceivesMany (Saw S.did S.shown (C.form_of seen.cells)) limit seen.trace (result.0) (result.1) }
    ensures most { MatchResult (result.0) (λ messages. GivesUpTo limit (reply.RecvMany (Ok messages.items))) (λ e. GivesUpTo {T = T} limit (reply.RecvMany (Err e))) }
{
    let mut seen = seen;
    let received = calls::recv_many(rt, limit, alloc, &mut seen, &mut WakeNow { rt });
    (received, seen.into_trace())
}

/// Moves the oldest messages into the room that is there, behind what is in it, in order.
#[inline(always)]
pub(crate) fn recv_many_into<T: Drop, R: Wait, C: Places<T>, S: Trace<T>>(
    rt: &R,
    into: &mut Vec<T>,
    seen: Seen<C, S>,
) -> (Result<usize, TryRecvError>, S)
    ensures walked { Fills (Saw S.did S.shown (C.form_of seen.cells)) (room_in into.old) into.old.items seen.trace (result.0) into.new.items (result.1) }
    ensures most { MatchResult (result.0) (λ n. (n ≤ room_in into.old) × (n ≡ 0 → room_in into.old ≡ 0)) (λ _. 0 < room_in into.old) }
    ensures room { vec_capacity into.new ≡ vec_capacity into.old }
    ensures in_place { vec_ptr into.new ≡ vec_ptr into.old }
{
    let mut seen = seen;
    let received = filling::recv_many_into(rt, into, &mut seen, &mut WakeNow { rt });
    (received, seen.into_trace())
}
