//! The receiving side of a channel. A receiver owns one count of the channel, which only its drop lowers, and the listener that is listed
//! for it as a stream.
//!
//! # Extensions
//!
//! `recv_many`, `recv_many_into`, `iter`, `try_iter` and `calls`; and the answers for want of memory, serials or counts, which the methods
//! name. All else is as in `async-channel` 2.5.0.

ghost use Rattle.channel_calls.specs.Asks.{first};
ghost use Rattle.channel_calls.specs.Blocks.{Blocks};
ghost use Rattle.channel_calls.specs.Turns.{nothing_kept};
ghost use Rattle.channel_calls.specs.Walks.{WalkedTo};
ghost use Rattle.channel_calls.specs.declared.ask.ChannelAsk.TheVariants as ask;
ghost use Rattle.channel_calls.specs.declared.blocked.Blocked.TheVariants as ways;
ghost use Rattle.channel_calls.specs.declared.reply.Reply.TheVariants as reply;
ghost use Rattle.channel_calls.specs.declared.stage.Side.TheVariants as side;
ghost use Rattle.futures.specs.declared.task.Poll.TheVariants as poll;
ghost use Rattle.async_channel.specs.Counts.{Clones};
ghost use Rattle.channel_cells.specs.Calls.{many_reply, filled_reply};
ghost use Rattle.async_channel.specs.Called.{ClonedSo, HasReceived, WasCalled, WasMade, WasPolled, WasTold};
ghost use Rattle.channel_history.specs.Party.{fresh};
ghost use Rattle.async_channel.specs.Forms.{AreCallsOf};
ghost use Rattle.async_channel.specs.Handles.{handle_of};
ghost use Rattle.async_channel.specs.Parties.{IsPartyOf};
ghost use Rattle.async_channel.specs.Several.{ReceivesMany};
ghost use Rattle.async_channel.specs.Watched.{WasSeen};

use crate::bed::Bed;
use crate::by_form::Calls;
use crate::calls::{self, blocking};
use crate::counted::Counted;
use crate::handles::iter::{Iter, TryIter};
use crate::handles::recv::Recv;
use crate::handles::weak::WeakReceiver;
use crate::link::Link;
use crate::open::no_trace::NoTrace;
use crate::polls::line::OfStreams;
use crate::polls::waits::Waits;
use crate::seen::{self, Seen, Trace};
use channel_calls::error::{HandleError, RecvError, Refused, TryRecvError};
use channel_calls::kind::OfReceivers;
use channel_calls::stage::Side;
use event_listener::error::ListenError;
use event_listener::waking::WakeNow;
use futures::task::{Context, Poll};
use std::fmt;
use std::marker::Model;
use std::sync::Wait;

/// The receiving side of a channel, which any number of threads may share and clone. Each message goes to one receiver. It is also a stream
/// of messages.
///
/// The channel is closed once its last receiver is dropped; the messages left are dropped with the channel. Contracts see a receiver as its
/// channel: how many messages it holds at most, its identity, and the memory that its handles share; and the listener that is listed for it
/// as a stream. It keeps the runtime.
///
/// # Waiting
///
/// `is_closed`, `is_empty`, `is_full`, `is_terminated`, `capacity`, the counts, `same_channel`, `downgrade`, `calls`, and making an
/// operation or a walk by `recv`, `iter` or `try_iter` never wait. All other calls, and the drop, may wait for another call's next steps
/// and for the locks of the wait queues; `recv_blocking` and items of `iter` may wait for a message for ever.
pub struct Receiver<T: Drop, R: Wait + Copy, S: Trace<T> + Copy = NoTrace> {
    pub(crate) counted: Counted<T, OfReceivers>,
    pub(crate) rt: R,
    pub(crate) watch: S,
    pub(crate) waits: Waits<T, OfStreams>,
    ghost party: { IsPartyOf (handle_of counted.link).table waits.seat waits.key },
}

impl<T: Drop, R: Wait + Copy, S: Trace<T> + Copy> Model for Receiver<T, R, S> {
    ghost use Rattle.async_channel.specs.Handles.{Receiving, handle_of};
    ghost use Rattle.async_channel.specs.Parties.{party_of};

    ghost Value = { Receiving T };

    ghost view = { λ h. record { channel = handle_of h.counted.link; key = h.waits.key; party = party_of h.waits.seat } };
}

impl<T: Drop, R: Wait + Copy, S: Trace<T> + Copy> Receiver<T, R, S> {
    ghost use Rattle.std.specs.Prelude.{◌≡◌, ◌<◌, ◌≤◌, [], false, length, Err, IfOk, IfErr, OnErr, MatchOption};
    ghost use Rattle.std.specs.Vec.{vec_capacity, vec_ptr};
    ghost use Rattle.channel_calls.specs.Filling.{Fills, room_in, StandsBehind};
    ghost use Rattle.async_channel.specs.Handles.{handle_of, new_receiving, new_listening};

    pub(crate) fn new(rt: R, watch: S, counted: Counted<T, OfReceivers>) -> Receiver<T, R, S>
        ensures { result ≡ new_receiving (handle_of counted.link) }
    {
        Receiver {
            counted,
            rt,
            watch,
            waits: Waits::new(),
        }
    }

    /// The calls of this receiver together with what proves that they were made: with a bound a witness that each call returns, and without
    /// one a trace of the caller's.
    #[inline(always)]
    pub fn calls(&self) -> Calls<'_, T, R, OfReceivers>
        ensures { AreCallsOf self.now.channel result }
    {
        self.counted.calls(&self.rt)
    }

    /// Removes and returns the oldest message. `Err` if there is none: `Empty` while the channel is open, `Closed` afterwards.
    ///
    /// ```rust
    /// let none_yet = receiver.try_recv().err()?.is_empty(); // true
    /// sender.try_send(1).ok()?;
    /// sender.close();
    /// let message = receiver.try_recv().ok()?; // what was sent before is still received
    /// let over = receiver.try_recv().err()?.is_closed(); // true
    /// ```
    pub fn try_recv(&self) -> Result<T, TryRecvError>
        ensures made { WasMade S.did S.shown S.entered S.called self.now.channel ask.TryRecv (reply.TryRecv result) }
    {
        let rt = &self.rt;
        match &self.counted.link {
            Link::Bounded(channel) => seen::answer(
                &self.watch,
                channel
                    .table
                    .try_recv(rt, channel.table.new_seat(), &mut WakeNow { rt }),
            ),
            Link::Unbounded(shared) => calls::try_recv(
                rt,
                Seen::cells(shared, rt, (), self.watch),
            ).0,
        }
    }

    /// Removes and returns the oldest messages, at most `limit`, in order. It notifies as many waiting sends as it took messages.
    ///
    /// `Err` if there is none, as by [`try_recv`](Receiver::try_recv), or if there is no memory for `limit` messages. Memory is asked for
    /// first, so nothing is taken then: a large limit costs its memory at each call, however few messages are there
    /// ([`recv_many_into`](Receiver::recv_many_into) asks for none). A limit of 0 asks for no memory and returns an empty list. It never
    /// waits for a message; to wait for the first one, receive that by [`recv`](Receiver::recv) or
    /// [`recv_blocking`](Receiver::recv_blocking), and then the rest:
    ///
    /// ```text
    /// let first = receiver.recv_blocking()?;
    /// let rest = receiver.recv_many(15);
    /// ```
    ///
    /// ```rust
    /// sender.try_send(1).ok()?;
    /// sender.try_send(2).ok()?;
    /// sender.try_send(3).ok()?;
    /// let batch = receiver.recv_many(2).ok()?;
    /// batch.len() == 2 && batch.first() == Some(&1) && receiver.len() == 1 // true
    /// ```
    pub fn recv_many(&self, limit: usize) -> Result<Vec<T>, Refused<TryRecvError>>
        ensures made { MatchOption self.now.channel.table (WasSeen S.did S.shown S.entered self.now.channel (λ saw. ReceivesMany saw limit) result) (λ table. WasCalled S.called table (ask.RecvMany limit) (many_reply result)) }
        ensures most { IfOk result (λ messages. length messages.items ≤ limit) }
        ensures none { IfOk result (λ messages. messages.items ≡ [] → limit ≡ 0) }
        ensures wanted { OnErr result (0 < limit) }
        ensures reason { result ≡ Err (Refused.SerialsUsedUp tt) → ⊥ }
    {
        let rt = &self.rt;
        match &self.counted.link {
            Link::Bounded(channel) => seen::answer(
                &self.watch,
                channel.table.recv_many(
                    rt,
                    channel.table.new_seat(),
                    limit,
                    channel.alloc,
                    &mut WakeNow { rt },
                ),
            ),
            Link::Unbounded(shared) => calls::recv_many(
                rt,
                limit,
                shared.alloc,
                Seen::cells(shared, rt, (), self.watch),
            )
            .0,
        }
    }

    /// Moves the oldest messages into the room that is there, behind what is in it, in order: as many as there are, or as fit. It answers
    /// their number, and takes no memory.
    ///
    /// `Err` if there is no message, as by [`try_recv`](Receiver::try_recv). If there is no room nothing is tried, and the answer is
    /// `Ok(0)`, on a closed channel too: so a loop that only a refusal ends never ends with a list that is not emptied within it. It does
    /// what [`recv_many`](Receiver::recv_many) does with that room as its limit, once that has its memory. It never waits for a message.
    ///
    /// ```text
    /// let mut batch = Vec::with_capacity(alloc, 15)?;
    /// for first in jobs.iter() {
    ///     work_on(first?);
    ///     let _ = jobs.recv_many_into(&mut batch);
    ///     batch.drain(..).for_each(work_on);
    /// }
    /// ```
    pub fn recv_many_into(&self, into: &mut Vec<T>) -> Result<usize, TryRecvError>
        ensures made { MatchOption self.now.channel.table (WasSeen S.did S.shown S.entered self.now.channel (λ saw begin r end. Fills saw (room_in into.old) into.old.items begin r into.new.items end) result) (λ table. WasCalled S.called table (ask.RecvMany (room_in into.old)) (filled_reply result into.new.items)) }
        ensures taken { StandsBehind into.old.items result into.new.items }
        ensures most { IfOk result (λ n. n ≤ room_in into.old) }
        ensures none { IfOk result (λ n. n ≡ 0 → room_in into.old ≡ 0) }
        ensures wanted { IfErr result (λ _. 0 < room_in into.old) }
        ensures room { vec_capacity into.new ≡ vec_capacity into.old }
        ensures in_place { vec_ptr into.new ≡ vec_ptr into.old }
    {
        let rt = &self.rt;
        match &self.counted.link {
            Link::Bounded(channel) => seen::answer(
                &self.watch,
                channel
                    .table
                    .recv_many_into(rt, channel.table.new_seat(), into, &mut WakeNow { rt }),
            ),
            Link::Unbounded(shared) => calls::recv_many_into(
                rt,
                into,
                Seen::cells(shared, rt, (), self.watch),
            ).0,
        }
    }

    /// A receive that waits for a message: nothing is done until it is polled. It is refused if the channel is closed and empty; and for
    /// memory or serials, after which another poll tries again.
    ///
    /// ```rust
    /// sender.try_send(1).ok()?;
    /// let received = block_on(&rt, receiver.recv()).ok()?;
    /// received.ok() == Some(1) // true
    /// ```
    pub fn recv(&self) -> Recv<'_, T, R, S>
        ensures { result ≡ new_listening self.now.channel }
    {
        Recv::new(self)
    }

    /// Removes and returns the oldest message, and blocks the thread while there is none.
    ///
    /// `Err` if the channel is closed and empty, or if what a wait needs was refused, memory or a serial of a listener.
    pub fn recv_blocking(&self) -> Result<T, Refused<RecvError>>
        ensures made { MatchOption self.now.channel.table (WasSeen S.did S.shown S.entered self.now.channel (λ saw begin r end. Blocks saw S.parked S.slept ways.Receive begin r nothing_kept end) (reply.RecvPoll (poll.Ready result))) (λ table. WasTold S.called (HasReceived table fresh result)) }
    {
        let rt = &self.rt;
        match &self.counted.link {
            Link::Bounded(channel) => seen::answer(
                &self.watch,
                channel.recv_blocking(rt, channel.table.new_seat()),
            ),
            Link::Unbounded(shared) => blocking::recv_blocking(
                rt,
                Seen::cells(shared, rt, Bed::new(), self.watch),
            ).0,
        }
    }

    /// The messages one after another, each of which is waited for as by [`recv_blocking`](Receiver::recv_blocking). It ends when the
    /// channel is closed and empty, and stays ended.
    ///
    /// An item is `Err` if what a wait needs was refused, memory or a serial of a listener. The walk isn't over then, and its next item is
    /// tried for as before; to stop trying, leave the loop.
    ///
    /// ```text
    /// for job in jobs.iter() {
    ///     work_on(job?);
    /// }
    /// ```
    ///
    /// A `for` over `&jobs` does the same, and one over `jobs` owns its receiver: [`IntoIter`].
    pub fn iter(&self) -> Iter<'_, T, R, S>
        ensures channel { result.receiver.now.channel ≡ self.now.channel }
        ensures new { result.ended ≡ false }
    {
        Iter::new(self)
    }

    /// The messages that are there, one after another, each received as by [`try_recv`](Receiver::try_recv). An item is `None` if there is
    /// none, whether the channel is open or closed, which ends a `for`. The walk keeps no end: asked again, it returns what was sent since.
    /// It never waits for a message.
    ///
    /// ```text
    /// let mut there = receiver.try_iter();
    /// let none_yet = there.next(); // None
    /// sender.try_send(1).ok()?;
    /// none_yet.is_none() && there.next() == Some(1) // true
    /// ```
    pub fn try_iter(&self) -> TryIter<'_, T, R, S>
        ensures { result.receiver.now.channel ≡ self.now.channel }
    {
        TryIter::new(self)
    }

    /// Closes the channel: nothing more is sent, and what was sent can still be received. True in the one call that closed it; that call
    /// wakes all waiters.
    pub fn close(&self) -> bool
        ensures made { WasMade S.did S.shown S.entered S.called self.now.channel ask.Close (reply.Closed result) }
    {
        self.counted.close(&self.rt, self.watch)
    }

    /// How many messages the channel held at a moment of the call. It repeats its loads if the queue changed in between.
    pub fn len(&self) -> usize
        ensures made { WasMade S.did S.shown S.entered S.called self.now.channel ask.Len (reply.Count result) }
    {
        self.counted.len(&self.rt, self.watch)
    }
}

// Questions, which never wait.
impl<T: Drop, R: Wait + Copy, S: Trace<T> + Copy> Receiver<T, R, S> {
    ghost use Rattle.std.specs.Prelude.{◌≡◌, ◌↔◌, IsTrue, None, false, MatchOption};
    ghost use Rattle.concurrent_queue.specs.Replies.{room_of};

    /// Whether the channel is closed.
    pub fn is_closed(&self) -> bool
        ensures made { WasMade S.did S.shown S.entered S.called self.now.channel ask.IsClosed (reply.Flag result) }
    {
        self.counted.is_closed(self.watch)
    }

    /// Whether the channel holds no message.
    pub fn is_empty(&self) -> bool
        ensures made { WasMade S.did S.shown S.entered S.called self.now.channel ask.IsEmpty (reply.Flag result) }
    {
        self.counted.is_empty(self.watch)
    }

    /// Whether the channel holds as many messages as it can; one without a bound never does.
    pub fn is_full(&self) -> bool
        ensures made { WasMade S.did S.shown S.entered S.called self.now.channel ask.IsFull (reply.Flag result) }
        ensures bound { room_of self.now.channel.form ≡ None → result ≡ false }
    {
        self.counted.is_full(self.watch)
    }

    /// How many messages the channel can hold, if there is a bound.
    pub fn capacity(&self) -> Option<usize>
        ensures made { MatchOption self.now.channel.table (WasSeen S.did S.shown S.entered self.now.channel (λ saw. WalkedTo saw (first ask.Capacity)) (reply.Cap result)) (λ _. Unit {0}) }
        ensures room { result ≡ room_of self.now.channel.form }
    {
        self.counted.capacity(self.watch)
    }

    /// How many senders live.
    pub fn sender_count(&self) -> usize
        ensures made { WasMade S.did S.shown S.entered S.called self.now.channel (ask.HandleCount side.Senders) (reply.Count result) }
    {
        self.counted.handle_count(Side::Senders, self.watch)
    }

    /// How many receivers live.
    pub fn receiver_count(&self) -> usize
        ensures made { WasMade S.did S.shown S.entered S.called self.now.channel (ask.HandleCount side.Receivers) (reply.Count result) }
    {
        self.counted.handle_count(Side::Receivers, self.watch)
    }

    /// Whether both are handles of one channel: whether the identities are equal, where `async-channel` compares addresses.
    ///
    /// This tells apart channels whose identities came from one `EventIds`. Each source begins with the same number, so of channels from
    /// two sources it may be true though they are two.
    pub fn same_channel(&self, other: &Receiver<T, R, S>) -> bool
        ensures { IsTrue result ↔ (self.now.channel.id ≡ other.now.channel.id) }
    {
        self.counted.link.is_same(&other.counted.link)
    }

    /// Whether this stream has ended: whether the channel is closed, and then whether it is empty. As `FusedStream` of `async-channel`
    /// 2.5.0.
    pub fn is_terminated(&self) -> bool
        ensures made { WasMade S.did S.shown S.entered S.called self.now.channel ask.IsTerminated (reply.Flag result) }
    {
        self.counted.is_terminated(self.watch)
    }
}

// As a stream.
impl<T: Drop, R: Wait + Copy, S: Trace<T> + Copy> Receiver<T, R, S> {
    ghost use Rattle.std.specs.Prelude.{◌≡◌, is_some};
    ghost use Rattle.futures.specs.Poll.{OnPending};
    ghost use Rattle.futures.specs.Task.{IsArmed, Keeps};
    ghost use Rattle.channel_calls.specs.Calls.{next_ask};
    ghost use Rattle.channel_calls.specs.Listed.{is_pending};
    ghost use Rattle.async_channel.specs.Polls.{Polls};

    /// One poll of this receiver as a stream. A listener is listed for it afterwards if it is pending, and otherwise none.
    ///
    /// It ends once the channel is closed and empty. It takes a copy of the waker first; if there is none, nothing is tried, and its next
    /// item is want of memory. A listener that is refused memory or a serial is such an item too.
    pub fn poll_next(&mut self, cx: &mut Context<'_>) -> Poll<Option<Result<T, ListenError>>>
        ensures made { WasPolled S.did S.shown S.entered self.old.channel self.old.party (next_ask self.old.key) (reply.Next result) self.new.key self.new.party }
        ensures listed { is_some self.new.key ≡ is_pending result }
        ensures channel { self.new.channel ≡ self.old.channel }
        ensures armed { OnPending result (IsArmed cx.new) }
        ensures kept { Keeps cx.old cx.new }
    {
        let (rt, watch) = (self.rt, self.watch);
        let counted = &self.counted;
        match &counted.link {
            Link::Bounded(channel) => channel.poll_next(&rt, &mut self.waits, cx),
            Link::Unbounded(shared) => shared.poll_next(&rt, &mut self.waits, cx, watch).0,
        }
    }
}

// More handles.
impl<T: Drop, R: Wait + Copy, S: Trace<T> + Copy> Receiver<T, R, S> {
    ghost use Rattle.std.specs.Prelude.{◌≡◌, IfOk, IfErr, MatchOption};
    ghost use Rattle.async_channel.specs.Handles.{new_receiving};

    /// One more receiver of this channel. `Clone` of `async-channel` 2.5.0, which ends the program if this is refused.
    ///
    /// `Err`, with nothing changed, if more than half of `usize::MAX` receivers live, or if there is no further shared reference: no step
    /// of a call that is refused raises the count, and only a handle's drop lowers it.
    pub fn try_clone(&self) -> Result<Receiver<T, R, S>, HandleError>
        ensures walked { MatchOption self.now.channel.table (WasSeen S.did S.shown S.entered self.now.channel (λ saw. Clones saw side.Receivers) result) (λ table. ClonedSo S.called table side.Receivers result) }
        ensures made { IfOk result (λ more. more ≡ new_receiving self.now.channel) }
    {
        match Counted::one_more(&self.counted.link, &self.rt, self.watch) {
            Ok(counted) => Ok(Receiver::new(self.rt, self.watch, counted)),
            Err(error) => Err(error),
        }
    }

    /// A handle that doesn't keep the channel open. It is never refused for too many handles.
    pub fn downgrade(&self) -> Result<WeakReceiver<T, R, S>, HandleError>
        ensures channel { IfOk result (λ weak. weak ≡ self.now.channel) }
        ensures reason { IfErr result (λ e. e ≡ HandleError.NoMemory) }
    {
        match self.counted.link.try_clone() {
            Some(link) => Ok(WeakReceiver::new(self.rt, self.watch, link)),
            None => Err(HandleError::NoMemory),
        }
    }
}

impl<T: Drop, R: Wait + Copy, S: Trace<T> + Copy> fmt::Debug for Receiver<T, R, S> {
    fn fmt<W: fmt::Write>(&self, f: &mut fmt::Formatter<W>) -> fmt::Result {
        write!(f, "Receiver {{ .. }}")
    }
}

impl<T: Drop, R: Wait + Copy, S: Trace<T> + Copy> Drop for Receiver<T, R, S> {
    fn drop(self) {
        let Self {
            counted,
            rt,
            watch,
            waits,
        } = self;
        counted.lower(&rt, waits, watch);
    }
}
