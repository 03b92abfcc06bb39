//! The sending side of a channel. A sender owns one count of the channel, which only its drop lowers.
//!
//! # Extensions
//!
//! `calls`; and the answers for want of memory, serials or counts, which the methods name. All else is as in `async-channel` 2.5.0.

ghost use Rattle.channel_calls.specs.Asks.{first};
ghost use Rattle.channel_calls.specs.Blocks.{Blocks};
ghost use Rattle.channel_calls.specs.Tried.{sent_reply, sent_left};
ghost use Rattle.channel_calls.specs.Walks.{WalkedTo};
ghost use Rattle.channel_calls.specs.declared.ask.ChannelAsk.TheVariants as ask;
ghost use Rattle.channel_calls.specs.declared.blocked.Blocked.TheVariants as ways;
ghost use Rattle.channel_calls.specs.declared.reply.Reply.TheVariants as reply;
ghost use Rattle.channel_calls.specs.declared.stage.Side.TheVariants as side;
ghost use Rattle.async_channel.specs.Counts.{Clones};
ghost use Rattle.async_channel.specs.Called.{ClonedSo, HasSent, WasMade, WasTold};
ghost use Rattle.channel_history.specs.Party.{fresh};
ghost use Rattle.async_channel.specs.Forms.{AreCallsOf};
ghost use Rattle.async_channel.specs.Watched.{WasSeen};

use crate::bed::Bed;
use crate::by_form::Calls;
use crate::calls::{self, blocking};
use crate::counted::Counted;
use crate::handles::closed::Closed;
use crate::handles::send::Send;
use crate::handles::weak::WeakSender;
use crate::link::Link;
use crate::open::no_trace::NoTrace;
use crate::seen::{self, Seen, Trace};
use channel_calls::error::{HandleError, Refused, SendError, TrySendError};
use channel_calls::kind::OfSenders;
use channel_calls::stage::Side;
use event_listener::waking::WakeNow;
use std::fmt;
use std::marker::Model;
use std::sync::Wait;

/// The sending side of a channel, which any number of threads may share and clone. The channel is closed once its last sender is dropped.
///
/// Contracts see a sender as its channel: how many messages it holds at most, its identity, and the memory that its handles share. It keeps
/// the runtime.
///
/// # Waiting
///
/// `is_closed`, `is_empty`, `is_full`, `capacity`, the counts, `same_channel`, `downgrade`, `calls`, and making an operation by `send` or
/// `closed` never wait. All other calls, and the drop, may wait for another call's next steps and for the locks of the wait queues;
/// `send_blocking` may wait for a place for ever.
pub struct Sender<T: Drop, R: Wait + Copy, S: Trace<T> + Copy = NoTrace> {
    pub(crate) counted: Counted<T, OfSenders>,
    pub(crate) rt: R,
    pub(crate) watch: S,
}

impl<T: Drop, R: Wait + Copy, S: Trace<T> + Copy> Model for Sender<T, R, S> {
    ghost use Rattle.async_channel.specs.Handles.{Handle, handle_of};

    ghost Value = { Handle };

    ghost view = { λ h. handle_of h.counted.link };
}

impl<T: Drop, R: Wait + Copy, S: Trace<T> + Copy> Sender<T, R, S> {
    ghost use Rattle.std.specs.Prelude.{◌≡◌, false, None, IfOk, IfErr, MatchOption};
    ghost use Rattle.concurrent_queue.specs.Replies.{room_of};
    ghost use Rattle.concurrent_queue.specs.Replies.{is_bounded};
    ghost use Rattle.channel_calls.specs.Replies.{RefusesTrySend, RefusesForceSend};
    ghost use Rattle.async_channel.specs.Handles.{handle_of, new_listening, new_sending, Unsent};

    pub(crate) fn new(rt: R, watch: S, counted: Counted<T, OfSenders>) -> Sender<T, R, S>
        ensures { result ≡ handle_of counted.link }
    {
        Sender { counted, rt, watch }
    }

    /// The calls of this sender together with what proves that they were made: with a bound a witness that each call returns, and without
    /// one a trace of the caller's.
    #[inline(always)]
    pub fn calls(&self) -> Calls<'_, T, R, OfSenders>
        ensures { AreCallsOf self.now result }
    {
        self.counted.calls(&self.rt)
    }

    /// Sends the message if there is a place for it.
    ///
    /// `Err` returns it: the channel was closed, a bounded one was full, or for one without a bound memory was refused.
    ///
    /// ```rust
    /// // of a channel of one place
    /// sender.try_send(1).ok()?;
    /// let refused = sender.try_send(2).err()?;
    /// refused.is_full() && refused.into_inner() == 2 // true
    /// ```
    pub fn try_send(&self, message: T) -> Result<(), Refused<TrySendError<T>, T>>
        ensures made { WasMade S.did S.shown S.entered S.called self.now (ask.TrySend message) (reply.TrySend result) }
        ensures refused { IfErr result (λ e. RefusesTrySend (is_bounded self.now.form) message e) }
    {
        let rt = &self.rt;
        match &self.counted.link {
            Link::Bounded(channel) => seen::answer(
                &self.watch,
                channel
                    .table
                    .try_send(rt, channel.table.new_seat(), message, &mut WakeNow { rt }),
            ),
            Link::Unbounded(shared) => calls::try_send(
                rt,
                message,
                Seen::cells(shared, rt, (), self.watch),
            ).0,
        }
    }

    /// Sends the message; if the channel is full, removes and returns its oldest message.
    ///
    /// `Err` returns the message: the channel was closed, or for one without a bound memory was refused.
    ///
    /// ```rust
    /// // of a channel of one place
    /// sender.try_send(1).ok()?;
    /// let oldest = sender.force_send(2).ok()?;
    /// oldest == Some(1) && receiver.try_recv().ok() == Some(2) // true
    /// ```
    pub fn force_send(&self, message: T) -> Result<Option<T>, Refused<SendError<T>, T>>
        ensures made { WasMade S.did S.shown S.entered S.called self.now (ask.ForceSend message) (reply.ForceSend result) }
        ensures refused { IfErr result (λ e. RefusesForceSend (is_bounded self.now.form) message e) }
        ensures displaced { room_of self.now.form ≡ None → IfOk result (λ oldest. oldest ≡ None) }
    {
        let rt = &self.rt;
        match &self.counted.link {
            Link::Bounded(channel) => seen::answer(
                &self.watch,
                channel
                    .table
                    .force_send(rt, channel.table.new_seat(), message, &mut WakeNow { rt }),
            ),
            Link::Unbounded(shared) => calls::force_send(
                rt,
                message,
                Seen::cells(shared, rt, (), self.watch),
            ).0,
        }
    }

    /// A send of this message that waits for a place: nothing is done until it is polled.
    ///
    /// A send that is polled by value is gone once `block_on` has refused it, and its message with it. A send that is lent to it keeps its
    /// message if memory or a serial was refused, to it or to `block_on` itself, and returns it:
    ///
    /// ```text
    /// let mut send = sender.send(message);
    /// if !matches!(block_on(&rt, &mut send), Ok(Ok(()))) {
    ///     let unsent = send.give_up();
    /// }
    /// ```
    ///
    /// A closed channel returns the message in its error, and the send has none then: [`into_message`](Refused::into_message).
    pub fn send(&self, message: T) -> Send<'_, T, R, S>
        ensures { result ≡ new_sending self.now message }
    {
        Send::new(self, message)
    }

    /// A wait for the channel's closing: nothing is done until it is polled. It may be refused for memory or serials, after which another
    /// poll tries again.
    pub fn closed(&self) -> Closed<'_, T, R, S>
        ensures { result ≡ new_listening self.now }
    {
        Closed::new(self)
    }

    /// Sends the message, and blocks the thread while there is no place for it.
    ///
    /// `Err` returns the message: the channel was closed, or what a send or a wait needs was refused, memory or a serial of a listener.
    pub fn send_blocking(&self, message: T) -> Result<(), Refused<SendError<T>, T>>
        ensures made { MatchOption self.now.table (WasSeen S.did S.shown S.entered self.now (λ saw begin r end. Blocks saw S.parked S.slept (ways.Send message) begin r (sent_left result) end) (sent_reply result)) (λ table. WasTold S.called (HasSent table fresh message result)) }
        ensures refused { IfErr result (λ e. Unsent e ≡ message) }
    {
        let rt = &self.rt;
        match &self.counted.link {
            Link::Bounded(channel) => seen::answer(
                &self.watch,
                channel.send_blocking(rt, channel.table.new_seat(), message),
            ),
            Link::Unbounded(shared) => blocking::send_blocking(
                rt,
                message,
                Seen::cells(shared, rt, Bed::new(), self.watch),
            ).0,
        }
    }

    /// Closes the channel: nothing more is sent, and what was sent can still be received. True in the one call that closed it; that call
    /// wakes all waiters.
    ///
    /// ```rust
    /// let first = receiver.close();
    /// let second = sender.close();
    /// first && !second && sender.try_send(1).err()?.is_closed() // true
    /// ```
    pub fn close(&self) -> bool
        ensures made { WasMade S.did S.shown S.entered S.called self.now ask.Close (reply.Closed result) }
    {
        self.counted.close(&self.rt, self.watch)
    }

    /// How many messages the channel held at a moment of the call. It repeats its loads if the queue changed in between.
    pub fn len(&self) -> usize
        ensures made { WasMade S.did S.shown S.entered S.called self.now ask.Len (reply.Count result) }
    {
        self.counted.len(&self.rt, self.watch)
    }
}

// Questions, which never wait.
impl<T: Drop, R: Wait + Copy, S: Trace<T> + Copy> Sender<T, R, S> {
    ghost use Rattle.std.specs.Prelude.{◌≡◌, ◌↔◌, IsTrue, None, false, MatchOption};
    ghost use Rattle.concurrent_queue.specs.Replies.{room_of};

    /// Whether the channel is closed.
    pub fn is_closed(&self) -> bool
        ensures made { WasMade S.did S.shown S.entered S.called self.now ask.IsClosed (reply.Flag result) }
    {
        self.counted.is_closed(self.watch)
    }

    /// Whether the channel holds no message.
    pub fn is_empty(&self) -> bool
        ensures made { WasMade S.did S.shown S.entered S.called self.now ask.IsEmpty (reply.Flag result) }
    {
        self.counted.is_empty(self.watch)
    }

    /// Whether the channel holds as many messages as it can; one without a bound never does.
    pub fn is_full(&self) -> bool
        ensures made { WasMade S.did S.shown S.entered S.called self.now ask.IsFull (reply.Flag result) }
        ensures bound { room_of self.now.form ≡ None → result ≡ false }
    {
        self.counted.is_full(self.watch)
    }

    /// How many messages the channel can hold, if there is a bound.
    pub fn capacity(&self) -> Option<usize>
        ensures made { MatchOption self.now.table (WasSeen S.did S.shown S.entered self.now (λ saw. WalkedTo saw (first ask.Capacity)) (reply.Cap result)) (λ _. Unit {0}) }
        ensures room { result ≡ room_of self.now.form }
    {
        self.counted.capacity(self.watch)
    }

    /// How many senders live.
    pub fn sender_count(&self) -> usize
        ensures made { WasMade S.did S.shown S.entered S.called self.now (ask.HandleCount side.Senders) (reply.Count result) }
    {
        self.counted.handle_count(Side::Senders, self.watch)
    }

    /// How many receivers live.
    pub fn receiver_count(&self) -> usize
        ensures made { WasMade S.did S.shown S.entered S.called self.now (ask.HandleCount side.Receivers) (reply.Count result) }
    {
        self.counted.handle_count(Side::Receivers, self.watch)
    }

    /// Whether both are handles of one channel: whether the identities are equal, where `async-channel` compares addresses.
    ///
    /// This tells apart channels whose identities came from one `EventIds`. Each source begins with the same number, so of channels from
    /// two sources it may be true though they are two.
    pub fn same_channel(&self, other: &Sender<T, R, S>) -> bool
        ensures { IsTrue result ↔ (self.now.id ≡ other.now.id) }
    {
        self.counted.link.is_same(&other.counted.link)
    }
}

// More handles.
impl<T: Drop, R: Wait + Copy, S: Trace<T> + Copy> Sender<T, R, S> {
    ghost use Rattle.std.specs.Prelude.{◌≡◌, IfOk, IfErr, MatchOption};

    /// One more sender of this channel. `Clone` of `async-channel` 2.5.0, which ends the program if this is refused.
    ///
    /// `Err`, with nothing changed, if more than half of `usize::MAX` senders live, or if there is no further shared reference: no step of
    /// a call that is refused raises the count, and only a handle's drop lowers it.
    ///
    /// ```rust
    /// let second = sender.try_clone().ok()?;
    /// drop(sender);
    /// let open = !receiver.is_closed(); // true: the second one lives
    /// drop(second); // the last one, which closes the channel
    /// ```
    pub fn try_clone(&self) -> Result<Sender<T, R, S>, HandleError>
        ensures walked { MatchOption self.now.table (WasSeen S.did S.shown S.entered self.now (λ saw. Clones saw side.Senders) result) (λ table. ClonedSo S.called table side.Senders result) }
        ensures made { IfOk result (λ more. more ≡ self.now) }
    {
        match Counted::one_more(&self.counted.link, &self.rt, self.watch) {
            Ok(counted) => Ok(Sender::new(self.rt, self.watch, counted)),
            Err(error) => Err(error),
        }
    }

    /// A handle that doesn't keep the channel open. It is never refused for too many handles.
    pub fn downgrade(&self) -> Result<WeakSender<T, R, S>, HandleError>
        ensures channel { IfOk result (λ weak. weak ≡ self.now) }
        ensures reason { IfErr result (λ e. e ≡ HandleError.NoMemory) }
    {
        match self.counted.link.try_clone() {
            Some(link) => Ok(WeakSender::new(self.rt, self.watch, link)),
            None => Err(HandleError::NoMemory),
        }
    }
}

impl<T: Drop, R: Wait + Copy, S: Trace<T> + Copy> fmt::Debug for Sender<T, R, S> {
    fn fmt<W: fmt::Write>(&self, f: &mut fmt::Formatter<W>) -> fmt::Result {
        write!(f, "Sender {{ .. }}")
    }
}

impl<T: Drop, R: Wait + Copy, S: Trace<T> + Copy> Drop for Sender<T, R, S> {
    fn drop(self) {
        let Self { counted, rt, watch } = self;
        counted.lower(&rt, watch);
    }
}
