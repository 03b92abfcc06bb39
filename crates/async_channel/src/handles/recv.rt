//! The polled receive. The operation owns its listener: it is listed while the operation is pending, and leaves when it is dropped.
//!
//! # Extensions
//!
//! `give_up`.

ghost use Rattle.std.specs.Prelude.{◌≡◌, None, is_some, ⊤};
ghost use Rattle.futures.specs.Poll.{IfReady, OnPending};
ghost use Rattle.futures.specs.Task.{Covers, IsArmed, Keeps};
ghost use Rattle.channel_calls.specs.Calls.{recv_ask};
ghost use Rattle.channel_calls.specs.Listed.{is_pending};
ghost use Rattle.channel_calls.specs.declared.ask.ChannelAsk.TheVariants as ask;
ghost use Rattle.channel_calls.specs.declared.reply.Reply.TheVariants as reply;
ghost use Rattle.channel_calls.specs.declared.stage.WaitList.TheVariants as line;
ghost use Rattle.async_channel.specs.Handles.{new_listening};
ghost use Rattle.async_channel.specs.Called.{WasMadeBy, WasPolled};
ghost use Rattle.async_channel.specs.Parties.{IsPartyOf};
ghost use Rattle.async_channel.specs.Polls.{MayStillGive};

use crate::handles::receiver::Receiver;
use crate::link::Link;
use crate::open::no_trace::NoTrace;
use crate::polls::line::OfReceives;
use crate::polls::waits::Waits;
use crate::seen::{self, Trace};
use channel_calls::error::{RecvError, Refused};
use futures::Future;
use futures::task::{Context, Poll};
use std::marker::Model;
use std::mem;
use std::sync::Wait;

/// A receive of one message, which waits for it. One that has received a message receives another when it is polled again.
///
/// A poll may wait for another call's next steps and for the locks of the wait queues. Dropping it gives it up. Contracts see the listener
/// that is listed for it. As `async-channel` 2.5.0.
pub struct Recv<'a, T: Drop, R: Wait + Copy, S: Trace<T> + Copy = NoTrace> {
    pub(crate) receiver: &'a Receiver<T, R, S>,
    pub(crate) waits: Waits<T, OfReceives>,
    ghost party: { IsPartyOf receiver.now.channel.table waits.seat waits.key },
}

impl<'a, T: Drop, R: Wait + Copy, S: Trace<T> + Copy> Model for Recv<'a, T, R, S> {
    ghost use Rattle.async_channel.specs.Handles.{Listening};
    ghost use Rattle.async_channel.specs.Parties.{party_of};

    ghost Value = { Listening T };

    // The listener itself, and not only whether there is one, so a body that polls with another listener is refused.
    ghost view = { λ o. record { channel = o.receiver.now.channel; key = o.waits.key; party = party_of o.waits.seat } };
}

impl<'a, T: Drop, R: Wait + Copy, S: Trace<T> + Copy> Recv<'a, T, R, S> {
    pub(crate) fn new(receiver: &'a Receiver<T, R, S>) -> Recv<'a, T, R, S>
        ensures { result ≡ new_listening receiver.now.channel }
    {
        Recv {
            receiver,
            waits: Waits::new(),
        }
    }

    /// One poll. A listener is listed for it afterwards if it is pending, and otherwise none.
    ///
    /// `Err` if the channel is closed and empty, or if a listener was refused memory or a serial. It takes a copy of the waker first; if
    /// there is none, nothing is tried, and the answer is want of memory.
    pub fn poll(&mut self, cx: &mut Context<'_>) -> Poll<Result<T, Refused<RecvError>>>
        ensures made { WasPolled S.did S.shown S.entered self.old.channel self.old.party (recv_ask self.old.key) (reply.RecvPoll result) self.new.key self.new.party }
        ensures listed { is_some self.new.key ≡ is_pending result }
        ensures channel { self.new.channel ≡ self.old.channel }
        ensures armed { OnPending result (IsArmed cx.new) }
        ensures kept { Keeps cx.old cx.new }
    {
        let receiver = self.receiver;
        match &receiver.counted.link {
            Link::Bounded(channel) => channel.poll_recv(&receiver.rt, &mut self.waits, cx),
            Link::Unbounded(shared) => {
                shared
                    .poll_recv(&receiver.rt, &mut self.waits, cx, receiver.watch)
                    .0
            }
        }
    }

    /// Gives it up, as its drop does. It may wait for the locks of the wait queues.
    pub fn give_up(mut self)
        ensures made { WasMadeBy S.did S.shown S.entered S.called self.entry.channel self.entry.party (ask.GiveUp line.Receives None self.entry.key) (reply.GivenUp None) }
    {
        let receiver = self.receiver;
        let waits = mem::replace(&mut self.waits, Waits::new());
        match &receiver.counted.link {
            Link::Bounded(channel) => {
                let left = channel.give_up(&receiver.rt, None, waits);
                let _ = seen::answer(&receiver.watch, left);
            }
            Link::Unbounded(shared) => {
                let _ = shared.leave(&receiver.rt, waits, receiver.watch);
            }
        }
    }
}

impl<T: Drop, R: Wait + Copy, S: Trace<T> + Copy> Future for Recv<'_, T, R, S> {
    type Output = Result<T, Refused<RecvError>>;

    // The trait's clauses say nothing of the answer, so those of the method itself do.
    fn poll(&mut self, cx: &mut Context<'_>) -> Poll<Result<T, Refused<RecvError>>>
        ensures value { IfReady result (λ _. ⊤) }
        ensures polled_on { OnPending result ⊤ }
        ensures same { MayStillGive result }
        ensures registered { OnPending result (Covers cx.new (λ _. ⊥)) }
        ensures made { WasPolled S.did S.shown S.entered self.old.channel self.old.party (recv_ask self.old.key) (reply.RecvPoll result) self.new.key self.new.party }
        ensures listed { is_some self.new.key ≡ is_pending result }
        ensures channel { self.new.channel ≡ self.old.channel }
        ensures armed { OnPending result (IsArmed cx.new) }
        ensures kept { Keeps cx.old cx.new }
    {
        Recv::poll(self, cx)
    }
}

impl<T: Drop, R: Wait + Copy, S: Trace<T> + Copy> Drop for Recv<'_, T, R, S> {
    fn drop(self) {
        let Recv { receiver, waits } = self;
        match &receiver.counted.link {
            Link::Bounded(channel) => channel.let_go(&receiver.rt, waits, receiver.watch),
            Link::Unbounded(shared) => {
                let _ = shared.let_go(&receiver.rt, waits, receiver.watch);
            }
        }
    }
}
