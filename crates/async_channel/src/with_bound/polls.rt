//! The polls of operations on a channel with a bound, and what ends an operation. Each is a call of the operation's party. A poll first
//! takes a copy of its task's waker, and the operation keeps the seat and the listener that the poll leaves.

ghost use Rattle.std.specs.Prelude.{◌≡◌, Option, None, Some, IsSome, is_some};
ghost use Rattle.futures.specs.Poll.{OnPending};
ghost use Rattle.futures.specs.Task.{IsArmed, Keeps};
ghost use Rattle.channel_calls.specs.Calls.{SendsOn, send_ask, recv_ask, closed_ask, next_ask};
ghost use Rattle.channel_calls.specs.Listed.{SendLists, is_pending};
ghost use Rattle.channel_calls.specs.declared.ask.ChannelAsk.TheVariants as ask;
ghost use Rattle.channel_calls.specs.declared.reply.Reply.TheVariants as reply;
ghost use Rattle.channel_cells.specs.Calls.{HasCalled};
ghost use Rattle.channel_cells.specs.Channel.{id_of};
ghost use Rattle.async_channel.specs.Called.{PolledWith, WasCalledFrom};
ghost use Rattle.async_channel.specs.Parties.{IsPartyOf, party_of};

use crate::polls::line::{Line, OfClosings, OfReceives, OfSends, OfStreams};
use crate::polls::waits::Waits;
use crate::seen::{self, Trace};
use crate::with_bound::{Bounded, Witness};
use channel_calls::error::{RecvError, Refused, SendError};
use event_listener::error::ListenError;
use event_listener::waking::WakeNow;
use futures::task::{Context, Poll};
use std::sync::Wait;

impl<T: Drop> Bounded<T> {
    /// A poll of a send with this message; of a finished one with none. It returns the message that stays with the send.
    pub(crate) fn poll_send<R: Wait>(
        &self,
        rt: &R,
        message: Option<T>,
        waits: &mut Waits<T, OfSends>,
        cx: &mut Context<'_>,
    ) -> (Poll<Result<(), Refused<SendError<T>>>>, Option<T>)
        requires finished { message ≡ None → waits.old.key ≡ None }
        requires here { IsPartyOf (Some (id_of self.now.table)) waits.old.seat waits.old.key }
        ensures called { PolledWith (party_of waits.old.seat) (send_ask message waits.old.key) (reply.SendPoll result.0) waits.new.key result.1 (party_of waits.new.seat) }
        ensures here { IsPartyOf (Some (id_of self.now.table)) waits.new.seat waits.new.key }
        ensures message { SendsOn message result.0 result.1 }
        ensures listed { SendLists message result.0 waits.new.key }
        ensures armed { OnPending result.0 (IsArmed cx.new) }
        ensures kept { Keeps cx.old cx.new }
    {
        // The waker before the first try: if it is refused nothing has been done, and the operation keeps its message.
        let task = waits.arm(rt, self.alloc, cx);
        let (seat, key) = waits.take(&self.table);
        let (polled, left, seat) = self
            .table
            .poll_send(rt, seat, message, key, task, &mut WakeNow { rt });
        waits.rest(seat, left.key);
        (polled, left.message)
    }

    /// A poll of a receive.
    pub(crate) fn poll_recv<R: Wait>(
        &self,
        rt: &R,
        waits: &mut Waits<T, OfReceives>,
        cx: &mut Context<'_>,
    ) -> Poll<Result<T, Refused<RecvError>>>
        requires here { IsPartyOf (Some (id_of self.now.table)) waits.old.seat waits.old.key }
        ensures called { (m : Option T) × PolledWith (party_of waits.old.seat) (recv_ask waits.old.key) (reply.RecvPoll result) waits.new.key m (party_of waits.new.seat) }
        ensures here { IsPartyOf (Some (id_of self.now.table)) waits.new.seat waits.new.key }
        ensures listed { is_some waits.new.key ≡ is_pending result }
        ensures armed { OnPending result (IsArmed cx.new) }
        ensures kept { Keeps cx.old cx.new }
    {
        let task = waits.arm(rt, self.alloc, cx);
        let (seat, key) = waits.take(&self.table);
        let (polled, left, seat) = self
            .table
            .poll_recv(rt, seat, key, task, &mut WakeNow { rt });
        waits.rest(seat, left.key);
        polled
    }

    /// A poll of a wait for the closing.
    pub(crate) fn poll_closed<R: Wait>(
        &self,
        rt: &R,
        waits: &mut Waits<T, OfClosings>,
        cx: &mut Context<'_>,
    ) -> Poll<Result<(), ListenError>>
        requires here { IsPartyOf (Some (id_of self.now.table)) waits.old.seat waits.old.key }
        ensures called { (m : Option T) × PolledWith (party_of waits.old.seat) (closed_ask waits.old.key) (reply.ClosedPoll result) waits.new.key m (party_of waits.new.seat) }
        ensures here { IsPartyOf (Some (id_of self.now.table)) waits.new.seat waits.new.key }
        ensures listed { is_some waits.new.key ≡ is_pending result }
        ensures armed { OnPending result (IsArmed cx.new) }
        ensures kept { Keeps cx.old cx.new }
    {
        let task = waits.arm(rt, self.alloc, cx);
        let (seat, key) = waits.take(&self.table);
        let (polled, left, seat) = self
            .table
            .poll_closed(rt, seat, key, task, &mut WakeNow { rt });
        waits.rest(seat, left.key);
        polled
    }

    /// A poll of a receiver as a stream.
    pub(crate) fn poll_next<R: Wait>(
        &self,
        rt: &R,
        waits: &mut Waits<T, OfStreams>,
        cx: &mut Context<'_>,
    ) -> Poll<Option<Result<T, ListenError>>>
        requires here { IsPartyOf (Some (id_of self.now.table)) waits.old.seat waits.old.key }
        ensures called { (m : Option T) × PolledWith (party_of waits.old.seat) (next_ask waits.old.key) (reply.Next result) waits.new.key m (party_of waits.new.seat) }
        ensures here { IsPartyOf (Some (id_of self.now.table)) waits.new.seat waits.new.key }
        ensures listed { is_some waits.new.key ≡ is_pending result }
        ensures armed { OnPending result (IsArmed cx.new) }
        ensures kept { Keeps cx.old cx.new }
    {
        let task = waits.arm(rt, self.alloc, cx);
        let (seat, key) = waits.take(&self.table);
        let (polled, left, seat) = self
            .table
            .poll_next(rt, seat, key, task, &mut WakeNow { rt });
        waits.rest(seat, left.key);
        polled
    }

    /// Gives an operation up: its listener leaves its wait queue, and the message of an unfinished send is returned.
    pub(crate) fn give_up<L: Line, R: Wait>(
        &self,
        rt: &R,
        message: Option<T>,
        waits: Waits<T, L>,
    ) -> (Option<T>, Witness<T>)
        requires here { IsPartyOf (Some (id_of self.now.table)) waits.seat waits.key }
        ensures called { HasCalled (id_of self.now.table) (party_of waits.seat) (ask.GiveUp L.line message waits.key) (reply.GivenUp result.0) result.1 }
        ensures message { result.0 ≡ message }
    {
        let mut waits = waits;
        let (seat, key) = waits.take(&self.table);
        let _ = waits.end();
        self.table
            .give_up(rt, seat, L::line(), message, key, &mut WakeNow { rt })
    }

    /// What the drop of an operation does: it removes the listener, if there is one. Otherwise no call is made.
    pub(crate) fn let_go<L: Line, R: Wait, S: Trace<T> + Copy>(
        &self,
        rt: &R,
        waits: Waits<T, L>,
        watch: S,
    )
        requires here { IsPartyOf (Some (id_of self.now.table)) waits.seat waits.key }
        ensures { IsSome waits.key → WasCalledFrom S.called (id_of self.now.table) (party_of waits.seat) (ask.GiveUp L.line None waits.key) (reply.GivenUp None) }
    {
        // A listener that was told must pass its notification on, so it leaves by a call of its own.
        if waits.key().is_some() {
            let (none, left) = self.give_up(rt, None, waits);
            drop(none);
            seen::tell(&watch, left);
            return;
        }
        let _ = waits.end();
    }
}
