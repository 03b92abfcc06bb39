//! One poll of each kind of operation, and giving up, over cells of any kind that a trace sees.

ghost use Rattle.std.specs.Prelude.{◌≡◌, is_some};
ghost use Rattle.channel_calls.specs.Asks.{first};
ghost use Rattle.channel_calls.specs.Calls.{SendsOn, send_ask, recv_ask, closed_ask, next_ask};
ghost use Rattle.channel_calls.specs.Listed.{SendLists, is_pending};
ghost use Rattle.channel_calls.specs.Walks.{WalkedFrom, WalkedTo};
ghost use Rattle.channel_calls.specs.declared.ask.ChannelAsk.TheVariants as ask;
ghost use Rattle.channel_calls.specs.declared.reply.Reply.TheVariants as reply;
ghost use Rattle.async_channel.specs.Saw.{Saw};

use crate::cells::Places;
use crate::seen::{Seen, Trace};
use channel_calls::error::{RecvError, Refused, SendError};
use channel_calls::polls;
use channel_calls::stage::{Returned, WaitList};
use event_listener::error::ListenError;
use event_listener::key::Key;
use event_listener::waking::{Task, WakeNow};
use futures::task::Poll;
use std::sync::Wait;

/// A poll of a send with this message; of a finished one with none.
pub(crate) fn poll_send<T: Drop, R: Wait, C: Places<T>, S: Trace<T>>(
    rt: &R,
    message: Option<T>,
    key: Option<Key>,
    task: Option<Task>,
    seen: Seen<C, S>,
) -> (Poll<Result<(), Refused<SendError<T>>>>, Returned<T>, S)
    ensures walked { WalkedFrom (Saw S.did S.shown (C.form_of seen.cells)) (first (send_ask message key task)) seen.trace (reply.SendPoll (result.0)) (result.1) (result.2) }
    ensures message { SendsOn message (result.0) (result.1).message }
    ensures listed { SendLists message (result.0) (result.1).key }
{
    let mut seen = seen;
    let (polled, left) = polls::poll_send(rt, message, key, task, &mut seen, &mut WakeNow { rt });
    (polled, left, seen.into_trace())
}

/// A poll of a receive.
pub(crate) fn poll_recv<T: Drop, R: Wait, C: Places<T>, S: Trace<T>>(
    rt: &R,
    key: Option<Key>,
    task: Option<Task>,
    seen: Seen<C, S>,
) -> (Poll<Result<T, Refused<RecvError>>>, Returned<T>, S)
    ensures walked { WalkedFrom (Saw S.did S.shown (C.form_of seen.cells)) (first (recv_ask key task)) seen.trace (reply.RecvPoll (result.0)) (result.1) (result.2) }
    ensures listed { is_some (result.1).key ≡ is_pending (result.0) }
{
    let mut seen = seen;
    let (polled, left) = polls::poll_recv(rt, key, task, &mut seen, &mut WakeNow { rt });
    (polled, left, seen.into_trace())
}

/// A poll of a wait for the closing.
pub(crate) fn poll_closed<T: Drop, R: Wait, C: Places<T>, S: Trace<T>>(
    rt: &R,
    key: Option<Key>,
    task: Option<Task>,
    seen: Seen<C, S>,
) -> (Poll<Result<(), ListenError>>, Returned<T>, S)
    ensures walked { WalkedFrom (Saw S.did S.shown (C.form_of seen.cells)) (first (closed_ask key task)) seen.trace (reply.ClosedPoll (result.0)) (result.1) (result.2) }
    ensures listed { is_some (result.1).key ≡ is_pending (result.0) }
{
    let mut seen = seen;
    let (polled, left) = polls::poll_closed(rt, key, task, &mut seen, &mut WakeNow { rt });
    (polled, left, seen.into_trace())
}

/// A poll of a receiver as a stream.
pub(crate) fn poll_next<T: Drop, R: Wait, C: Places<T>, S: Trace<T>>(
    rt: &R,
    key: Option<Key>,
    task: Option<Task>,
    seen: Seen<C, S>,
) -> (Poll<Option<Result<T, ListenError>>>, Returned<T>, S)
    ensures walked { WalkedFrom (Saw S.did S.shown (C.form_of seen.cells)) (first (next_ask key task)) seen.trace (reply.Next (result.0)) (result.1) (result.2) }
    ensures listed { is_some (result.1).key ≡ is_pending (result.0) }
{
    let mut seen = seen;
    let (polled, left) = polls::poll_next(rt, key, task, &mut seen, &mut WakeNow { rt });
    (polled, left, seen.into_trace())
}

/// Gives up an operation of this kind, and returns the message of an unfinished send.
pub(crate) fn give_up<T: Drop, R: Wait, C: Places<T>, S: Trace<T>>(
    rt: &R,
    line: WaitList,
    message: Option<T>,
    key: Option<Key>,
    seen: Seen<C, S>,
) -> (Option<T>, S)
    ensures walked { WalkedTo (Saw S.did S.shown (C.form_of seen.cells)) (first (ask.GiveUp line message key)) seen.trace (reply.GivenUp (result.0)) (result.1) }
    ensures message { result.0 ≡ message }
{
    let mut seen = seen;
    let back = polls::give_up(rt, line, message, key, &mut seen, &mut WakeNow { rt });
    (back, seen.into_trace())
}
