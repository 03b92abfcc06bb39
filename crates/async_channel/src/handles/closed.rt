//! The polled wait for a channel's closing. The operation owns its listener: it is listed while the operation is pending, and leaves when
//! it is dropped.
//!
//! # Extensions
//!
//! `give_up`.

ghost use Rattle.std.specs.Prelude.{◌≡◌, None, is_some, ⊤};
ghost use Rattle.futures.specs.Poll.{IfReady, OnPending};
ghost use Rattle.futures.specs.Task.{Covers, IsArmed, Keeps};
ghost use Rattle.channel_calls.specs.Calls.{closed_ask};
ghost use Rattle.channel_calls.specs.Listed.{is_pending};
ghost use Rattle.channel_calls.specs.declared.ask.ChannelAsk.TheVariants as ask;
ghost use Rattle.channel_calls.specs.declared.reply.Reply.TheVariants as reply;
ghost use Rattle.channel_calls.specs.declared.stage.WaitList.TheVariants as line;
ghost use Rattle.async_channel.specs.Handles.{new_listening};
ghost use Rattle.async_channel.specs.Called.{WasMadeBy, WasPolled};
ghost use Rattle.async_channel.specs.Parties.{IsPartyOf};
ghost use Rattle.async_channel.specs.Polls.{MayStillGive};

use crate::handles::sender::Sender;
use crate::link::Link;
use crate::open::no_trace::NoTrace;
use crate::polls::line::OfClosings;
use crate::polls::waits::Waits;
use crate::seen::{self, Trace};
use event_listener::error::ListenError;
use futures::Future;
use futures::task::{Context, Poll};
use std::marker::Model;
use std::mem;
use std::sync::Wait;

/// A wait for the channel's closing, whichever call or drop closes it.
///
/// A poll may wait for the locks of the wait queues. Dropping it gives it up. Contracts see the listener that is listed for it. As
/// `async-channel` 2.5.0.
pub struct Closed<'a, T: Drop, R: Wait + Copy, S: Trace<T> + Copy = NoTrace> {
    pub(crate) sender: &'a Sender<T, R, S>,
    pub(crate) waits: Waits<T, OfClosings>,
    ghost party: { IsPartyOf sender.now.table waits.seat waits.key },
}

impl<'a, T: Drop, R: Wait + Copy, S: Trace<T> + Copy> Model for Closed<'a, T, R, S> {
    ghost use Rattle.async_channel.specs.Handles.{Listening};
    ghost use Rattle.async_channel.specs.Parties.{party_of};

    ghost Value = { Listening T };

    ghost view = { λ o. record { channel = o.sender.now; key = o.waits.key; party = party_of o.waits.seat } };
}

impl<'a, T: Drop, R: Wait + Copy, S: Trace<T> + Copy> Closed<'a, T, R, S> {
    pub(crate) fn new(sender: &'a Sender<T, R, S>) -> Closed<'a, T, R, S>
        ensures { result ≡ new_listening sender.now }
    {
        Closed {
            sender,
            waits: Waits::new(),
        }
    }

    /// One poll. A listener is listed for it afterwards if it is pending, and otherwise none.
    ///
    /// `Err` if a listener was refused memory or a serial. It takes a copy of the waker first; if there is none, nothing is tried, and the
    /// answer is want of memory.
    pub fn poll(&mut self, cx: &mut Context<'_>) -> Poll<Result<(), ListenError>>
        ensures made { WasPolled S.did S.shown S.entered self.old.channel self.old.party (closed_ask self.old.key) (reply.ClosedPoll result) self.new.key self.new.party }
        ensures listed { is_some self.new.key ≡ is_pending result }
        ensures channel { self.new.channel ≡ self.old.channel }
        ensures armed { OnPending result (IsArmed cx.new) }
        ensures kept { Keeps cx.old cx.new }
    {
        let sender = self.sender;
        match &sender.counted.link {
            Link::Bounded(channel) => channel.poll_closed(&sender.rt, &mut self.waits, cx),
            Link::Unbounded(shared) => {
                shared
                    .poll_closed(&sender.rt, &mut self.waits, cx, sender.watch)
                    .0
            }
        }
    }

    /// Gives it up, as its drop does. It may wait for the lock of its wait queue.
    pub fn give_up(mut self)
        ensures made { WasMadeBy S.did S.shown S.entered S.called self.entry.channel self.entry.party (ask.GiveUp line.Closings None self.entry.key) (reply.GivenUp None) }
    {
        let sender = self.sender;
        let waits = mem::replace(&mut self.waits, Waits::new());
        match &sender.counted.link {
            Link::Bounded(channel) => {
                let left = channel.give_up(&sender.rt, None, waits);
                let _ = seen::answer(&sender.watch, left);
            }
            Link::Unbounded(shared) => {
                let _ = shared.leave(&sender.rt, waits, sender.watch);
            }
        }
    }
}

impl<T: Drop, R: Wait + Copy, S: Trace<T> + Copy> Future for Closed<'_, T, R, S> {
    type Output = Result<(), ListenError>;

    // The trait's clauses say nothing of the answer, so those of the method itself do.
    fn poll(&mut self, cx: &mut Context<'_>) -> Poll<Result<(), ListenError>>
        ensures value { IfReady result (λ _. ⊤) }
        ensures polled_on { OnPending result ⊤ }
        ensures same { MayStillGive result }
        ensures registered { OnPending result (Covers cx.new (λ _. ⊥)) }
        ensures made { WasPolled S.did S.shown S.entered self.old.channel self.old.party (closed_ask self.old.key) (reply.ClosedPoll result) self.new.key self.new.party }
        ensures listed { is_some self.new.key ≡ is_pending result }
        ensures channel { self.new.channel ≡ self.old.channel }
        ensures armed { OnPending result (IsArmed cx.new) }
        ensures kept { Keeps cx.old cx.new }
    {
        Closed::poll(self, cx)
    }
}

impl<T: Drop, R: Wait + Copy, S: Trace<T> + Copy> Drop for Closed<'_, T, R, S> {
    fn drop(self) {
        let Closed { sender, waits } = self;
        match &sender.counted.link {
            Link::Bounded(channel) => channel.let_go(&sender.rt, waits, sender.watch),
            Link::Unbounded(shared) => {
                let _ = shared.let_go(&sender.rt, waits, sender.watch);
            }
        }
    }
}
