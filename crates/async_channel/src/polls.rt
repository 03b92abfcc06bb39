//! One poll of each kind of operation, and giving up, on shared cells without a bound, with whatever trace. A poll first takes a copy of
//! its task's waker, and the operation keeps the listener that the poll leaves.

pub(crate) mod line;
pub(crate) mod waits;

ghost use Rattle.std.specs.Prelude.{◌≡◌, None, IsSome, is_some};
ghost use Rattle.futures.specs.Poll.{OnPending};
ghost use Rattle.futures.specs.Task.{IsArmed, Keeps};
ghost use Rattle.channel_calls.specs.Asks.{first};
ghost use Rattle.channel_calls.specs.Calls.{SendsOn, send_ask, recv_ask, closed_ask, next_ask};
ghost use Rattle.channel_calls.specs.Listed.{SendLists, is_pending};
ghost use Rattle.channel_calls.specs.Walks.{WalkedTo};
ghost use Rattle.channel_calls.specs.declared.ask.ChannelAsk.TheVariants as ask;
ghost use Rattle.channel_calls.specs.declared.reply.Reply.TheVariants as reply;
ghost use Rattle.async_channel.specs.Counts.{Drops};
ghost use Rattle.async_channel.specs.Handles.{channel_of};
ghost use Rattle.async_channel.specs.Polls.{Polls, PollsSend};
ghost use Rattle.async_channel.specs.Saw.{SeenOn};

use crate::calls::{counts, polls};
use crate::polls::line::{Line, OfClosings, OfReceives, OfSends, OfStreams};
use crate::polls::waits::Waits;
use crate::seen::{Seen, Trace};
use crate::shared::Shared;
use channel_calls::error::{RecvError, Refused, SendError};
use channel_calls::kind::OfReceivers;
use channel_calls::raised::Raised;
use event_listener::error::ListenError;
use futures::task::{Context, Poll};
use std::sync::Wait;

impl<T: Drop> Shared<T> {
    /// A poll of a send with this message; of a finished one with none. It returns the message that stays with the send.
    pub(crate) fn poll_send<R: Wait, S: Trace<T>>(
        &self,
        rt: &R,
        message: Option<T>,
        waits: &mut Waits<T, OfSends>,
        cx: &mut Context<'_>,
        trace: S,
    ) -> (Poll<Result<(), Refused<SendError<T>>>>, Option<T>, S)
        requires unbounded { waits.old.seat ≡ None }
        ensures unbounded { waits.new.seat ≡ None }
        ensures walked { SeenOn S.did S.shown S.entered (channel_of self.now) (λ saw begin r end. PollsSend saw (send_ask message waits.old.key) begin r waits.new.key (result.1) end) trace (reply.SendPoll (result.0)) (result.2) }
        ensures message { SendsOn message (result.0) (result.1) }
        ensures listed { SendLists message (result.0) waits.new.key }
        ensures armed { OnPending (result.0) (IsArmed cx.new) }
        ensures kept { Keeps cx.old cx.new }
    {
        let key = waits.key();
        // The waker before the first try: if it is refused nothing has been done, and the operation keeps its message.
        let task = waits.arm(rt, self.alloc, cx);
        let seen = Seen::cells(self, rt, (), trace);
        let (polled, left, trace) = polls::poll_send(rt, message, key, task, seen);
        waits.keep(left.key);
        (polled, left.message, trace)
    }

    /// A poll of a receive.
    pub(crate) fn poll_recv<R: Wait, S: Trace<T>>(
        &self,
        rt: &R,
        waits: &mut Waits<T, OfReceives>,
        cx: &mut Context<'_>,
        trace: S,
    ) -> (Poll<Result<T, Refused<RecvError>>>, S)
        requires unbounded { waits.old.seat ≡ None }
        ensures unbounded { waits.new.seat ≡ None }
        ensures walked { SeenOn S.did S.shown S.entered (channel_of self.now) (λ saw begin r end. Polls saw (recv_ask waits.old.key) begin r waits.new.key end) trace (reply.RecvPoll (result.0)) (result.1) }
        ensures listed { is_some waits.new.key ≡ is_pending (result.0) }
        ensures armed { OnPending (result.0) (IsArmed cx.new) }
        ensures kept { Keeps cx.old cx.new }
    {
        let key = waits.key();
        let task = waits.arm(rt, self.alloc, cx);
        let seen = Seen::cells(self, rt, (), trace);
        let (polled, left, trace) = polls::poll_recv(rt, key, task, seen);
        waits.keep(left.key);
        (polled, trace)
    }

    /// A poll of a wait for the closing.
    pub(crate) fn poll_closed<R: Wait, S: Trace<T>>(
        &self,
        rt: &R,
        waits: &mut Waits<T, OfClosings>,
        cx: &mut Context<'_>,
        trace: S,
    ) -> (Poll<Result<(), ListenError>>, S)
        requires unbounded { waits.old.seat ≡ None }
        ensures unbounded { waits.new.seat ≡ None }
        ensures walked { SeenOn S.did S.shown S.entered (channel_of self.now) (λ saw begin r end. Polls saw (closed_ask waits.old.key) begin r waits.new.key end) trace (reply.ClosedPoll (result.0)) (result.1) }
        ensures listed { is_some waits.new.key ≡ is_pending (result.0) }
        ensures armed { OnPending (result.0) (IsArmed cx.new) }
        ensures kept { Keeps cx.old cx.new }
    {
        let key = waits.key();
        let task = waits.arm(rt, self.alloc, cx);
        let seen = Seen::cells(self, rt, (), trace);
        let (polled, left, trace) = polls::poll_closed(rt, key, task, seen);
        waits.keep(left.key);
        (polled, trace)
    }

    /// A poll of a receiver as a stream.
    pub(crate) fn poll_next<R: Wait, S: Trace<T>>(
        &self,
        rt: &R,
        waits: &mut Waits<T, OfStreams>,
        cx: &mut Context<'_>,
        trace: S,
    ) -> (Poll<Option<Result<T, ListenError>>>, S)
        requires unbounded { waits.old.seat ≡ None }
        ensures unbounded { waits.new.seat ≡ None }
        ensures walked { SeenOn S.did S.shown S.entered (channel_of self.now) (λ saw begin r end. Polls saw (next_ask waits.old.key) begin r waits.new.key end) trace (reply.Next (result.0)) (result.1) }
        ensures listed { is_some waits.new.key ≡ is_pending (result.0) }
        ensures armed { OnPending (result.0) (IsArmed cx.new) }
        ensures kept { Keeps cx.old cx.new }
    {
        let key = waits.key();
        let task = waits.arm(rt, self.alloc, cx);
        let seen = Seen::cells(self, rt, (), trace);
        let (polled, left, trace) = polls::poll_next(rt, key, task, seen);
        waits.keep(left.key);
        (polled, trace)
    }

    /// Gives an operation up: its listener leaves its wait queue, and the message of an unfinished send is returned.
    pub(crate) fn give_up<L: Line, R: Wait, S: Trace<T>>(
        &self,
        rt: &R,
        message: Option<T>,
        waits: Waits<T, L>,
        trace: S,
    ) -> (Option<T>, S)
        ensures walked { SeenOn S.did S.shown S.entered (channel_of self.now) (λ saw. WalkedTo saw (first (ask.GiveUp L.line message waits.key))) trace (reply.GivenUp (result.0)) (result.1) }
        ensures message { result.0 ≡ message }
    {
        let seen = Seen::cells(self, rt, (), trace);
        polls::give_up(rt, L::line(), message, waits.end(), seen)
    }

    /// The same of an operation that has no message.
    pub(crate) fn leave<L: Line, R: Wait, S: Trace<T>>(
        &self,
        rt: &R,
        waits: Waits<T, L>,
        trace: S,
    ) -> S
        ensures walked { SeenOn S.did S.shown S.entered (channel_of self.now) (λ saw. WalkedTo saw (first (ask.GiveUp L.line None waits.key))) trace (reply.GivenUp None) result }
    {
        let (none, trace) = self.give_up(rt, None, waits, trace);
        drop(none);
        trace
    }

    /// What the drop of an operation does: it removes the listener, if there is one. Otherwise nothing is done, and nothing is reported.
    pub(crate) fn let_go<L: Line, R: Wait, S: Trace<T>>(
        &self,
        rt: &R,
        waits: Waits<T, L>,
        trace: S,
    ) -> S
        ensures walked { IsSome waits.key → SeenOn S.did S.shown S.entered (channel_of self.now) (λ saw. WalkedTo saw (first (ask.GiveUp L.line None waits.key))) trace (reply.GivenUp None) result }
        ensures nothing { waits.key ≡ None → result ≡ trace }
    {
        // A listener that was told must pass its notification on, so it leaves by a call of its own.
        if waits.key().is_some() {
            return self.leave(rt, waits, trace);
        }
        let _ = waits.end();
        trace
    }

    /// Drops a receiver: lowers the count, and then removes the listener that it may have as a stream; the last one closes.
    pub(crate) fn drop_receiver<R: Wait, S: Trace<T>>(
        &self,
        rt: &R,
        raised: Raised<OfReceivers>,
        waits: Waits<T, OfStreams>,
        trace: S,
    ) -> S
        ensures walked { SeenOn S.did S.shown S.entered (channel_of self.now) (λ saw. Drops saw (ask.DropReceiver waits.key)) trace tt result }
    {
        let seen = Seen::cells(self, rt, (), trace);
        counts::drop_receiver(rt, raised, waits.end(), seen)
    }
}
