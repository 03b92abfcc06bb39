//! The calls of a channel without a bound with a trace of the caller's, which sees each operation that a call does to its channel, and no
//! other.
//!
//! Each is one body for whatever trace, and makes its call on cells that report each operation to the trace that it was given. So its
//! clause `walked` says what was done between the trace before and after: the operations of the call's machine, from its first step to the
//! very answer that came out. The body itself can report nothing. That it does nothing which the trace isn't shown, on this channel or on
//! another, has to be read here. The calls of handles and operations are these with a copy of the channel's trace.
//!
//! # Extensions
//!
//! All of this module.

mod receives;
mod sends;

ghost use Rattle.std.specs.Prelude.{◌≡◌, None, false};
ghost use Rattle.concurrent_queue.specs.Replies.{room_of};
ghost use Rattle.channel_calls.specs.Asks.{first};
ghost use Rattle.channel_calls.specs.Walks.{WalkedTo};
ghost use Rattle.channel_calls.specs.declared.ask.ChannelAsk.TheVariants as ask;
ghost use Rattle.channel_calls.specs.declared.reply.Reply.TheVariants as reply;
ghost use Rattle.channel_calls.specs.declared.stage.Side.TheVariants as side;
ghost use Rattle.async_channel.specs.Handles.{channel_of, form_of};
ghost use Rattle.async_channel.specs.Saw.{SeenOn};

use crate::bed::Bed;
use crate::calls;
use crate::cells::SharedCells;
use crate::seen::{Seen, Trace};
use crate::shared::Shared;
use channel_calls::kind::Kind;
use channel_calls::stage::Side;
use std::marker::{Model, PhantomData};
use std::sync::Wait;

/// The calls of a sender or of a receiver of a channel without a bound, with a trace of the caller's, which each call takes and returns
/// with its answer.
///
/// `walked` of a call says what the call did to its channel, whatever other threads do; what else it says, and whether it may wait, is said
/// at the handle's own call of that name. Contracts see the channel.
///
/// ```text
/// if let Calls::Traced(channel) = sender.calls() {
///     let (sent, log) = channel.try_send(1, Log::new(alloc));
/// }
/// ```
#[derive(Drop)]
pub struct Traced<'a, T: Drop, R: Wait + Copy, K: Kind> {
    shared: &'a Shared<T>,
    rt: &'a R,
    kind: PhantomData<K>,
}

impl<'a, T: Drop, R: Wait + Copy, K: Kind> Model for Traced<'a, T, R, K> {
    ghost use Rattle.async_channel.specs.Handles.{Handle, channel_of};

    ghost Value = { Handle };

    ghost view = { λ c. channel_of c.shared.now };
}

impl<'a, T: Drop, R: Wait + Copy, K: Kind> Traced<'a, T, R, K> {
    #[inline(always)]
    pub(crate) fn new(shared: &'a Shared<T>, rt: &'a R) -> Traced<'a, T, R, K>
        ensures { result ≡ channel_of shared.now }
    {
        Traced {
            shared,
            rt,
            kind: PhantomData,
        }
    }

    /// The cells of the channel, seen by this trace.
    #[inline(always)]
    fn cells<S: Trace<T>>(&self, trace: S) -> Seen<SharedCells<'a, T, R, ()>, S>
        ensures form { form_of result.cells.shared.now ≡ self.now.form }
        ensures trace { S.entered self.now.seal trace result.trace }
    {
        Seen::cells(self.shared, self.rt, (), trace)
    }

    /// The same for a call that blocks its thread.
    #[inline(always)]
    fn cells_and_bed<S: Trace<T>>(&self, trace: S) -> Seen<SharedCells<'a, T, R, Bed>, S>
        ensures form { form_of result.cells.shared.now ≡ self.now.form }
        ensures trace { S.entered self.now.seal trace result.trace }
    {
        Seen::cells(self.shared, self.rt, Bed::new(), trace)
    }

    /// Closes the channel.
    #[inline(always)]
    pub fn close<S: Trace<T>>(&self, trace: S) -> (bool, S)
        ensures walked { SeenOn S.did S.shown S.entered self.now (λ saw. WalkedTo saw (first ask.Close)) trace (reply.Closed (result.0)) (result.1) }
    {
        calls::close(self.rt, self.cells(trace))
    }

    /// How many messages the channel held at a moment of the call.
    #[inline(always)]
    pub fn len<S: Trace<T>>(&self, trace: S) -> (usize, S)
        ensures walked { SeenOn S.did S.shown S.entered self.now (λ saw. WalkedTo saw (first ask.Len)) trace (reply.Count (result.0)) (result.1) }
    {
        calls::len(self.rt, self.cells(trace))
    }
}

// Questions, which never wait: those of the shared part, which has no runtime.
impl<'a, T: Drop, R: Wait + Copy, K: Kind> Traced<'a, T, R, K> {
    /// Whether the channel is closed.
    #[inline(always)]
    pub fn is_closed<S: Trace<T>>(&self, trace: S) -> (bool, S)
        ensures walked { SeenOn S.did S.shown S.entered self.now (λ saw. WalkedTo saw (first ask.IsClosed)) trace (reply.Flag (result.0)) (result.1) }
    {
        self.shared.is_closed(trace)
    }

    /// Whether it holds no message.
    #[inline(always)]
    pub fn is_empty<S: Trace<T>>(&self, trace: S) -> (bool, S)
        ensures walked { SeenOn S.did S.shown S.entered self.now (λ saw. WalkedTo saw (first ask.IsEmpty)) trace (reply.Flag (result.0)) (result.1) }
    {
        self.shared.is_empty(trace)
    }

    /// Whether it holds as many messages as it can; one without a bound never does.
    #[inline(always)]
    pub fn is_full<S: Trace<T>>(&self, trace: S) -> (bool, S)
        ensures walked { SeenOn S.did S.shown S.entered self.now (λ saw. WalkedTo saw (first ask.IsFull)) trace (reply.Flag (result.0)) (result.1) }
        ensures bound { room_of self.now.form ≡ None → result.0 ≡ false }
    {
        self.shared.is_full(trace)
    }

    /// How many messages it can hold, if there is a bound.
    #[inline(always)]
    pub fn capacity<S: Trace<T>>(&self, trace: S) -> (Option<usize>, S)
        ensures walked { SeenOn S.did S.shown S.entered self.now (λ saw. WalkedTo saw (first ask.Capacity)) trace (reply.Cap (result.0)) (result.1) }
        ensures room { result.0 ≡ room_of self.now.form }
    {
        self.shared.capacity(trace)
    }

    /// How many senders live.
    #[inline(always)]
    pub fn sender_count<S: Trace<T>>(&self, trace: S) -> (usize, S)
        ensures walked { SeenOn S.did S.shown S.entered self.now (λ saw. WalkedTo saw (first (ask.HandleCount side.Senders))) trace (reply.Count (result.0)) (result.1) }
    {
        self.shared.handle_count(Side::Senders, trace)
    }

    /// How many receivers live.
    #[inline(always)]
    pub fn receiver_count<S: Trace<T>>(&self, trace: S) -> (usize, S)
        ensures walked { SeenOn S.did S.shown S.entered self.now (λ saw. WalkedTo saw (first (ask.HandleCount side.Receivers))) trace (reply.Count (result.0)) (result.1) }
    {
        self.shared.handle_count(Side::Receivers, trace)
    }
}
