//! The calls of a sender that send, with a trace of the caller's.

ghost use Rattle.std.specs.Prelude.{◌≡◌, None, IfOk, IfErr};
ghost use Rattle.concurrent_queue.specs.Replies.{is_bounded, room_of};
ghost use Rattle.channel_calls.specs.Asks.{first};
ghost use Rattle.channel_calls.specs.Blocks.{Blocks};
ghost use Rattle.channel_calls.specs.Replies.{RefusesTrySend, RefusesForceSend};
ghost use Rattle.channel_calls.specs.Tried.{sent_reply, sent_left};
ghost use Rattle.channel_calls.specs.Walks.{WalkedTo};
ghost use Rattle.channel_calls.specs.declared.ask.ChannelAsk.TheVariants as ask;
ghost use Rattle.channel_calls.specs.declared.blocked.Blocked.TheVariants as blocking;
ghost use Rattle.channel_calls.specs.declared.reply.Reply.TheVariants as reply;
ghost use Rattle.async_channel.specs.Handles.{Unsent};
ghost use Rattle.async_channel.specs.Saw.{SeenOn};

use crate::calls::{self, blocking};
use crate::seen::Trace;
use crate::traced::Traced;
use channel_calls::error::{Refused, SendError, TrySendError};
use channel_calls::kind::OfSenders;
use std::sync::Wait;

impl<'a, T: Drop, R: Wait + Copy> Traced<'a, T, R, OfSenders> {
    /// Sends the message if there is a place for it.
    #[inline(always)]
    pub fn try_send<S: Trace<T>>(
        &self,
        message: T,
        trace: S,
    ) -> (Result<(), Refused<TrySendError<T>, T>>, S)
        ensures walked { SeenOn S.did S.shown S.entered self.now (λ saw. WalkedTo saw (first (ask.TrySend message))) trace (reply.TrySend (result.0)) (result.1) }
        ensures refused { IfErr (result.0) (λ e. RefusesTrySend (is_bounded self.now.form) message e) }
    {
        calls::try_send(self.rt, message, self.cells(trace))
    }

    /// Sends the message; if the channel is full, removes and returns its oldest message.
    #[inline(always)]
    pub fn force_send<S: Trace<T>>(
        &self,
        message: T,
        trace: S,
    ) -> (Result<Option<T>, Refused<SendError<T>, T>>, S)
        ensures walked { SeenOn S.did S.shown S.entered self.now (λ saw. WalkedTo saw (first (ask.ForceSend message))) trace (reply.ForceSend (result.0)) (result.1) }
        ensures refused { IfErr (result.0) (λ e. RefusesForceSend (is_bounded self.now.form) message e) }
        ensures displaced { room_of self.now.form ≡ None → IfOk (result.0) (λ oldest. oldest ≡ None) }
    {
        calls::force_send(self.rt, message, self.cells(trace))
    }

    /// Sends the message, and blocks the thread while there is no place for it.
    #[inline(always)]
    pub fn send_blocking<S: Trace<T>>(
        &self,
        message: T,
        trace: S,
    ) -> (Result<(), Refused<SendError<T>, T>>, S)
        ensures walked { SeenOn S.did S.shown S.entered self.now (λ saw begin r end. Blocks saw S.parked S.slept (blocking.Send message) begin r (sent_left (result.0)) end) trace (sent_reply (result.0)) (result.1) }
        ensures refused { IfErr (result.0) (λ e. Unsent e ≡ message) }
    {
        blocking::send_blocking(self.rt, message, self.cells_and_bed(trace))
    }
}
