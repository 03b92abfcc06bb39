//! The calls that block their thread, over cells of any kind with a bed, which a trace sees. The bed is the thread's own.

ghost use Rattle.std.specs.Prelude.{◌≡◌, IfErr};
ghost use Rattle.channel_calls.specs.Blocks.{Blocks};
ghost use Rattle.channel_calls.specs.Errors.{handed_back};
ghost use Rattle.channel_calls.specs.Taking.{IsNext, WaitsForNext};
ghost use Rattle.channel_calls.specs.Tried.{sent_reply, sent_left};
ghost use Rattle.channel_calls.specs.Turns.{nothing_kept};
ghost use Rattle.channel_calls.specs.declared.blocked.Blocked.TheVariants as blocking;
ghost use Rattle.channel_calls.specs.declared.reply.Reply.TheVariants as reply;
ghost use Rattle.futures.specs.declared.task.Poll.TheVariants as poll;
ghost use Rattle.async_channel.specs.Saw.{Saw};

use crate::cells::Beds;
use crate::seen::{Seen, Trace};
use channel_calls::error::{RecvError, Refused, SendError};
use channel_calls::{blocking, taking};
use event_listener::error::ListenError;
use event_listener::waking::WakeNow;
use std::sync::Wait;

/// Sends the message, and blocks the thread while there is no place for it.
#[inline(always)]
pub(crate) fn send_blocking<T: Drop, R: Wait, C: Beds<T>, S: Trace<T>>(
    rt: &R,
    message: T,
    seen: Seen<C, S>,
) -> (Result<(), Refused<SendError<T>, T>>, S)
    ensures walked { Blocks (Saw S.did S.shown (C.form_of seen.cells)) S.parked S.slept (blocking.Send message) seen.trace (sent_reply (result.0)) (sent_left (result.0)) (result.1) }
    ensures message { IfErr (result.0) (λ e. handed_back e ≡ message) }
{
    let mut seen = seen;
    let sent = blocking::send_blocking(rt, message, &mut seen, &mut WakeNow { rt });
    (sent, seen.into_trace())
}

/// Removes the oldest message, and blocks the thread while there is none.
#[inline(always)]
pub(crate) fn recv_blocking<T: Drop, R: Wait, C: Beds<T>, S: Trace<T>>(
    rt: &R,
    seen: Seen<C, S>,
) -> (Result<T, Refused<RecvError>>, S)
    ensures walked { Blocks (Saw S.did S.shown (C.form_of seen.cells)) S.parked S.slept blocking.Receive seen.trace (reply.RecvPoll (poll.Ready (result.0))) nothing_kept (result.1) }
{
    let mut seen = seen;
    let received = blocking::recv_blocking(rt, &mut seen, &mut WakeNow { rt });
    (received, seen.into_trace())
}

/// The next message of a walk that waits for it.
#[inline(always)]
pub(crate) fn next_blocking<T: Drop, R: Wait, C: Beds<T>, S: Trace<T>>(
    rt: &R,
    ended: &mut bool,
    seen: Seen<C, S>,
) -> (Option<Result<T, ListenError>>, S)
    ensures walked { WaitsForNext (Saw S.did S.shown (C.form_of seen.cells)) S.parked S.slept ended.old seen.trace (result.0) (result.1) }
    ensures end { IsNext ended.old (result.0) ended.new }
{
    let mut seen = seen;
    let next = taking::next_blocking(rt, ended, &mut seen, &mut WakeNow { rt });
    (next, seen.into_trace())
}
