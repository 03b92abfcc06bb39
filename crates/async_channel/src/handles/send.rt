//! The polled send. The operation owns its message until it is sent or given up, and its listener, which is listed while the operation is
//! pending and leaves when it is dropped.
//!
//! # Extensions
//!
//! `give_up` and `is_terminated`.

ghost use Rattle.std.specs.Prelude.{◌≡◌, Some, None, is_none, is_some, ⊤};
ghost use Rattle.futures.specs.Poll.{IfReady, OnPending};
ghost use Rattle.futures.specs.Task.{Covers, IsArmed, Keeps};
ghost use Rattle.channel_calls.specs.Calls.{SendsOn, send_ask};
ghost use Rattle.channel_calls.specs.declared.ask.ChannelAsk.TheVariants as ask;
ghost use Rattle.channel_calls.specs.declared.reply.Reply.TheVariants as reply;
ghost use Rattle.channel_calls.specs.declared.stage.WaitList.TheVariants as line;
ghost use Rattle.async_channel.specs.Handles.{new_sending, waits_on};
ghost use Rattle.async_channel.specs.Called.{WasMadeBy, WasPolledWith};
ghost use Rattle.async_channel.specs.Parties.{IsPartyOf};

use crate::handles::sender::Sender;
use crate::link::Link;
use crate::open::no_trace::NoTrace;
use crate::polls::line::OfSends;
use crate::polls::waits::Waits;
use crate::seen::{self, Trace};
use channel_calls::error::{Refused, SendError};
use futures::Future;
use futures::task::{Context, Poll};
use std::marker::Model;
use std::mem;
use std::sync::Wait;

/// A send of one message, which waits for a place. It has finished once it has no message. Contracts see its message and the listener that
/// is listed for it.
///
/// A poll may wait for another call's next steps and for the locks of the wait queues. Dropping it gives it up. As `async-channel` 2.5.0.
pub struct Send<'a, T: Drop, R: Wait + Copy, S: Trace<T> + Copy = NoTrace> {
    pub(crate) sender: &'a Sender<T, R, S>,
    pub(crate) message: Option<T>,
    pub(crate) waits: Waits<T, OfSends>,
    ghost party: { IsPartyOf sender.now.table waits.seat waits.key },
    ghost finished: { message ≡ None → waits.key ≡ None },
}

impl<'a, T: Drop, R: Wait + Copy, S: Trace<T> + Copy> Model for Send<'a, T, R, S> {
    ghost use Rattle.async_channel.specs.Handles.{Sending};
    ghost use Rattle.async_channel.specs.Parties.{party_of};

    ghost Value = { Sending T };

    ghost view = { λ s. record { channel = s.sender.now; message = s.message; key = s.waits.key; party = party_of s.waits.seat } };
}

impl<'a, T: Drop, R: Wait + Copy, S: Trace<T> + Copy> Send<'a, T, R, S> {
    pub(crate) fn new(sender: &'a Sender<T, R, S>, message: T) -> Send<'a, T, R, S>
        ensures { result ≡ new_sending sender.now message }
    {
        Send {
            sender,
            message: Some(message),
            waits: Waits::new(),
        }
    }

    /// One poll. An unfinished send keeps its message while it is pending and if memory or a serial was refused; a closed channel returns
    /// it. A finished one is pending, and nothing is changed.
    ///
    /// It takes a copy of the waker first; if there is none, nothing is tried, and the answer is want of memory.
    pub fn poll(&mut self, cx: &mut Context<'_>) -> Poll<Result<(), Refused<SendError<T>>>>
        ensures made { WasPolledWith S.did S.shown S.entered self.old.channel self.old.party (send_ask self.old.message self.old.key) (reply.SendPoll result) self.new.key self.new.message self.new.party }
        ensures message { SendsOn self.old.message result self.new.message }
        ensures listed { is_some self.new.key ≡ waits_on self.old.message result }
        ensures channel { self.new.channel ≡ self.old.channel }
        ensures armed { OnPending result (IsArmed cx.new) }
        ensures kept { Keeps cx.old cx.new }
    {
        let sender = self.sender;
        let message = self.message.take();
        match &sender.counted.link {
            Link::Bounded(channel) => {
                let (polled, left) = channel.poll_send(&sender.rt, message, &mut self.waits, cx);
                drop(mem::replace(&mut self.message, left));
                polled
            }
            Link::Unbounded(shared) => {
                let watch = sender.watch;
                let (polled, left, _) = shared.poll_send(
                    &sender.rt,
                    message,
                    &mut self.waits,
                    cx,
                    watch,
                );
                drop(mem::replace(&mut self.message, left));
                polled
            }
        }
    }

    /// Whether it has finished. It never waits.
    pub fn is_terminated(&self) -> bool
        ensures { result ≡ is_none self.now.message }
    {
        self.message.is_none()
    }

    /// Gives it up, as its drop does, and returns the message of one that hasn't finished. It may wait for the locks of the wait queues.
    pub fn give_up(mut self) -> Option<T>
        ensures made { WasMadeBy S.did S.shown S.entered S.called self.entry.channel self.entry.party (ask.GiveUp line.Sends self.entry.message self.entry.key) (reply.GivenUp result) }
        ensures message { result ≡ self.entry.message }
    {
        let sender = self.sender;
        let message = self.message.take();
        let waits = mem::replace(&mut self.waits, Waits::new());
        match &sender.counted.link {
            Link::Bounded(channel) => {
                let left = channel.give_up(&sender.rt, message, waits);
                seen::answer(&sender.watch, left)
            }
            Link::Unbounded(shared) => {
                shared.give_up(&sender.rt, message, waits, sender.watch).0
            }
        }
    }
}

impl<T: Drop, R: Wait + Copy, S: Trace<T> + Copy> Future for Send<'_, T, R, S> {
    type Output = Result<(), Refused<SendError<T>>>;

    ghost use Rattle.async_channel.specs.Handles.{Gives};

    // What a closed channel returns is its message.
    ghost gives = { λ s r. Gives s.message r };

    // A send that is always pending would meet the trait's clauses, so those of the method itself stand here too.
    fn poll(&mut self, cx: &mut Context<'_>) -> Poll<Result<(), Refused<SendError<T>>>>
        ensures value { IfReady result (Gives self.old.message) }
        ensures polled_on { OnPending result ⊤ }
        ensures same { OnPending result ((r : _) → Gives self.new.message r → Gives self.old.message r) }
        ensures registered { OnPending result (Covers cx.new (λ _. ⊥)) }
        ensures made { WasPolledWith S.did S.shown S.entered self.old.channel self.old.party (send_ask self.old.message self.old.key) (reply.SendPoll result) self.new.key self.new.message self.new.party }
        ensures message { SendsOn self.old.message result self.new.message }
        ensures listed { is_some self.new.key ≡ waits_on self.old.message result }
        ensures channel { self.new.channel ≡ self.old.channel }
        ensures armed { OnPending result (IsArmed cx.new) }
        ensures kept { Keeps cx.old cx.new }
    {
        Send::poll(self, cx)
    }
}

impl<T: Drop, R: Wait + Copy, S: Trace<T> + Copy> Drop for Send<'_, T, R, S> {
    fn drop(self) {
        let Send {
            sender,
            message,
            waits,
        } = self;
        match &sender.counted.link {
            Link::Bounded(channel) => channel.let_go(&sender.rt, waits, sender.watch),
            Link::Unbounded(shared) => {
                let _ = shared.let_go(&sender.rt, waits, sender.watch);
            }
        }
        drop(message);
    }
}
