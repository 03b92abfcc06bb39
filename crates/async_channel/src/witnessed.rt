//! The calls on a channel with a bound, each made with a witness.
//!
//! A witness is one party of the channel's history: its view says, in order, what it asked of this channel and what it was answered. A call
//! takes it and returns it, and nothing else makes or changes one. [`look`](Witnessed::look) says that this stands in the one history of
//! all that was done to the channel. The calls of handles are these, each with a witness of its own, which they pass to the channel's
//! trace.
//!
//! # Extensions
//!
//! All of this module.

mod receives;
mod sends;

ghost use Rattle.std.specs.Prelude.{◌≡◌, [], Some};
ghost use Rattle.channel_calls.specs.declared.ask.ChannelAsk.TheVariants as ask;
ghost use Rattle.channel_calls.specs.declared.reply.Reply.TheVariants as reply;
ghost use Rattle.channel_calls.specs.declared.stage.Side.TheVariants as side;
ghost use Rattle.channel_cells.specs.Calls.{HasCalled};
ghost use Rattle.channel_cells.specs.Channel.{seat_table, standing_of, view_in};
ghost use Rattle.channel_history.specs.CallEnds.{Rests};
ghost use Rattle.channel_cells.specs.Look.{IsTold};
ghost use Rattle.channel_history.specs.Party.{fresh};
ghost use Rattle.concurrent_queue.specs.history.Shared.{both_views};
ghost use Rattle.async_channel.specs.Handles.{bounded_channel};

use crate::with_bound::{Bounded, Witness};
use channel_calls::kind::Kind;
use channel_calls::stage::Side;
use event_listener::waking::WakeNow;
use std::marker::{Model, PhantomData};
use std::sync::Wait;

/// The calls of a sender or of a receiver of a channel with a bound, each made with a witness.
///
/// What a call does, what it is refused and whether it may wait is said at the handle's own call of that name. Contracts see the channel.
///
/// ```text
/// if let Calls::Witnessed(channel) = sender.calls() {
///     let (first, witness) = channel.try_send(channel.witness(), 1);
///     let (second, mut witness) = channel.try_send(witness, 2);
///     channel.look(&mut witness); // in one history, both calls, in this order
/// }
/// ```
#[derive(Drop)]
pub struct Witnessed<'a, T: Drop, R, K: Kind> {
    channel: &'a Bounded<T>,
    rt: &'a R,
    kind: PhantomData<K>,
}

impl<'a, T: Drop, R, K: Kind> Model for Witnessed<'a, T, R, K> {
    ghost use Rattle.async_channel.specs.Handles.{Handle, bounded_channel};

    ghost Value = { Handle };

    ghost view = { λ c. bounded_channel c.channel.now };
}

// None of these takes the runtime, so none waits.
impl<'a, T: Drop, R, K: Kind> Witnessed<'a, T, R, K> {
    #[inline(always)]
    pub(crate) fn new(channel: &'a Bounded<T>, rt: &'a R) -> Witnessed<'a, T, R, K>
        ensures { result ≡ bounded_channel channel.now }
    {
        Witnessed {
            channel,
            rt,
            kind: PhantomData,
        }
    }

    /// A new witness, of a party that has made no call. It costs one load.
    #[inline(always)]
    pub fn witness(&self) -> Witness<T>
        ensures here { self.now.table ≡ Some (seat_table result) }
        ensures new { standing_of result ≡ fresh }
        ensures rests { Rests [] [] (standing_of result) }
    {
        self.channel.table.new_seat()
    }

    /// At any moment, whatever other threads are doing: there is one history of all that was done to this channel, in which the party of
    /// this witness is where its view says, with all that it asked and was answered, and so is each that was joined in. As long as
    /// positions last it is a run of the channel: each message came once and in order, each answer is that of its call at moments of it,
    /// each count is the number of handles, and no pending waiter was missed. It costs one load.
    pub fn look(&self, witness: &mut Witness<T>)
        requires here { self.now.table ≡ Some (seat_table witness.old) }
        ensures told { IsTold (view_in witness.old) }
        ensures kept { (view_in witness.new ≡ view_in witness.old) × (seat_table witness.new ≡ seat_table witness.old) }
    {
        self.channel.table.look(witness);
    }

    /// Joins another witness into this one, so that one look says of both that they are in one history. It costs one load.
    pub fn join(&self, one: &mut Witness<T>, other: Witness<T>)
        requires one { self.now.table ≡ Some (seat_table one.old) }
        requires other { self.now.table ≡ Some (seat_table other) }
        ensures joined { view_in one.new ≡ both_views (view_in one.old) (view_in other) }
        ensures kept { seat_table one.new ≡ seat_table one.old }
    {
        self.channel.table.join(one, other);
    }
}

impl<'a, T: Drop, R: Wait + Copy, K: Kind> Witnessed<'a, T, R, K> {
    /// Closes the channel.
    #[inline(always)]
    pub fn close(&self, witness: Witness<T>) -> (bool, Witness<T>)
        requires here { self.now.table ≡ Some (seat_table witness) }
        requires rests { Rests [] [] (standing_of witness) }
        ensures called { HasCalled (seat_table witness) (standing_of witness) ask.Close (reply.Closed result.0) result.1 }
        ensures rests { Rests [] [] (standing_of result.1) }
    {
        self.channel
            .table
            .close(self.rt, witness, &mut WakeNow { rt: self.rt })
    }

    /// How many messages the channel held at a moment of the call.
    #[inline(always)]
    pub fn len(&self, witness: Witness<T>) -> (usize, Witness<T>)
        requires here { self.now.table ≡ Some (seat_table witness) }
        requires rests { Rests [] [] (standing_of witness) }
        ensures called { HasCalled (seat_table witness) (standing_of witness) ask.Len (reply.Count result.0) result.1 }
        ensures rests { Rests [] [] (standing_of result.1) }
    {
        self.channel
            .table
            .len(self.rt, witness, &mut WakeNow { rt: self.rt })
    }
}

// Questions, which never wait: those of the table, which take no runtime.
impl<'a, T: Drop, R, K: Kind> Witnessed<'a, T, R, K> {
    /// Whether the channel is closed.
    #[inline(always)]
    pub fn is_closed(&self, witness: Witness<T>) -> (bool, Witness<T>)
        requires here { self.now.table ≡ Some (seat_table witness) }
        requires rests { Rests [] [] (standing_of witness) }
        ensures called { HasCalled (seat_table witness) (standing_of witness) ask.IsClosed (reply.Flag result.0) result.1 }
        ensures rests { Rests [] [] (standing_of result.1) }
    {
        self.channel.table.is_closed(witness)
    }

    /// Whether it holds no message.
    #[inline(always)]
    pub fn is_empty(&self, witness: Witness<T>) -> (bool, Witness<T>)
        requires here { self.now.table ≡ Some (seat_table witness) }
        requires rests { Rests [] [] (standing_of witness) }
        ensures called { HasCalled (seat_table witness) (standing_of witness) ask.IsEmpty (reply.Flag result.0) result.1 }
        ensures rests { Rests [] [] (standing_of result.1) }
    {
        self.channel.table.is_empty(witness)
    }

    /// Whether it holds as many messages as it can.
    #[inline(always)]
    pub fn is_full(&self, witness: Witness<T>) -> (bool, Witness<T>)
        requires here { self.now.table ≡ Some (seat_table witness) }
        requires rests { Rests [] [] (standing_of witness) }
        ensures called { HasCalled (seat_table witness) (standing_of witness) ask.IsFull (reply.Flag result.0) result.1 }
        ensures rests { Rests [] [] (standing_of result.1) }
    {
        self.channel.table.is_full(witness)
    }

    /// How many senders live.
    #[inline(always)]
    pub fn sender_count(&self, witness: Witness<T>) -> (usize, Witness<T>)
        requires here { self.now.table ≡ Some (seat_table witness) }
        requires rests { Rests [] [] (standing_of witness) }
        ensures called { HasCalled (seat_table witness) (standing_of witness) (ask.HandleCount side.Senders) (reply.Count result.0) result.1 }
        ensures rests { Rests [] [] (standing_of result.1) }
    {
        self.channel.table.handle_count(witness, Side::Senders)
    }

    /// How many receivers live.
    #[inline(always)]
    pub fn receiver_count(&self, witness: Witness<T>) -> (usize, Witness<T>)
        requires here { self.now.table ≡ Some (seat_table witness) }
        requires rests { Rests [] [] (standing_of witness) }
        ensures called { HasCalled (seat_table witness) (standing_of witness) (ask.HandleCount side.Receivers) (reply.Count result.0) result.1 }
        ensures rests { Rests [] [] (standing_of result.1) }
    {
        self.channel.table.handle_count(witness, Side::Receivers)
    }
}
