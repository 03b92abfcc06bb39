//! Strong handles. Each is a party of its own, whose seat has the handle that its count has: the invariant is that a count equals the
//! number of seats with a handle. A clone's and an upgrade's party is that of the handle that it made; the drop of a handle is a call of
//! its party.

ghost use Rattle.std.specs.Prelude.{◌≡◌, [], ◌∷◌, None, IfOk, IfErr, IfSome};
ghost use Rattle.channel_calls.specs.Calls.{made_answer, upgraded_answer};
ghost use Rattle.channel_calls.specs.declared.ask.ChannelAsk.TheVariants as ask;
ghost use Rattle.channel_calls.specs.declared.reply.Reply.{Reply as Answer};
ghost use Rattle.channel_calls.specs.declared.reply.Reply.TheVariants as reply;
ghost use Rattle.channel_calls.specs.declared.stage.Side.TheVariants.{Senders, Receivers};
ghost use Rattle.channel_calls.specs.declared.stage.WaitList.TheVariants.{Streams};
ghost use Rattle.channel_history.specs.InHand.{listed_on};
ghost use Rattle.channel_history.specs.Machine.{both, left};
ghost use Rattle.channel_cells.specs.Calls.{HasCalled};
ghost use Rattle.channel_history.specs.CallEnds.{Rests};
ghost use Rattle.channel_cells.specs.Channel.{id_of, seat_table, standing_of};
ghost use Rattle.channel_cells.specs.Lists.{with_handles};

use crate::channel::{ChannelTable, Seat};
use channel_calls::error::HandleError;
use channel_calls::kind::{Kind, OfReceivers, OfSenders};
use channel_calls::raised::{self, Raised};
use channel_calls::stage::Side;
use event_listener::key::Key;
use event_listener::wakes::Wakes;
use std::marker::Brand;
use std::sync::Wait;

impl<T: Drop, W: Drop> ChannelTable<T, W> {
    /// Counts one more strong handle of this kind: the party of this seat is the handle's from then on. `Err` if more than half of
    /// `usize::MAX` live. It retries while other clones or upgrades come in between.
    pub fn clone_handle<K: Kind, R: Wait, S: Wakes<W>>(
        &self,
        rt: &R,
        seat: Seat<T, W>,
        sink: &mut S,
    ) -> (Result<Raised<K>, HandleError>, Seat<T, W>)
        requires here { seat_table seat ≡ id_of self.now }
        requires rests { Rests [] [] (standing_of seat) }
        ensures called { (r : Answer T) × HasCalled (id_of self.now) (standing_of seat) (ask.CloneHandle K.side) r result.1 × (result.0 ≡ made_answer r) }
        ensures handle { IfOk result.0 (λ _. Rests (K.side ∷ []) [] (standing_of result.1)) }
        ensures reason { IfErr result.0 (λ e. e ≡ HandleError.TooMany) }
    {
        let side = K::side();
        let mut cells = self.begin_on::<Brand, R, Side>(rt, seat, &side);
        let made = raised::clone_handle(rt, &mut cells, sink);
        let seat = cells.end::<Brand, Result<Raised<K>, HandleError>, ()>(&made, &());
        (made, seat)
    }

    /// The same if the channel is open and one lives; otherwise `None`.
    pub fn upgrade<K: Kind, R: Wait, S: Wakes<W>>(
        &self,
        rt: &R,
        seat: Seat<T, W>,
        sink: &mut S,
    ) -> (Result<Option<Raised<K>>, HandleError>, Seat<T, W>)
        requires here { seat_table seat ≡ id_of self.now }
        requires rests { Rests [] [] (standing_of seat) }
        ensures called { (r : Answer T) × HasCalled (id_of self.now) (standing_of seat) (ask.Upgrade K.side) r result.1 × (result.0 ≡ upgraded_answer r) }
        ensures handle { IfOk result.0 (λ made. IfSome made (λ _. Rests (K.side ∷ []) [] (standing_of result.1))) }
        ensures reason { IfErr result.0 (λ e. e ≡ HandleError.TooMany) }
    {
        let side = K::side();
        let mut cells = self.begin_on::<Brand, R, Side>(rt, seat, &side);
        let made = raised::upgrade(rt, &mut cells, sink);
        let seat = cells.end::<Brand, Result<Option<Raised<K>>, HandleError>, ()>(&made, &());
        (made, seat)
    }

    /// Drops a sender: its count is lowered, and the last one closes the channel. It may wait for the locks of the wait queues.
    pub fn drop_sender<R: Wait, S: Wakes<W>>(
        &self,
        rt: &R,
        raised: Raised<OfSenders>,
        seat: Seat<T, W>,
        sink: &mut S,
    ) -> Seat<T, W>
        requires here { seat_table seat ≡ id_of self.now }
        requires handle { Rests (Senders ∷ []) [] (standing_of seat) }
        ensures called { HasCalled (id_of self.now) (standing_of seat) ask.DropSender reply.Unit result }
        ensures nothing { Rests [] [] (standing_of result) }
    {
        let mut cells = self.begin_on::<Brand, R, ()>(rt, seat, &());
        raised::drop_sender(rt, raised, &mut cells, sink);
        cells.end::<Brand, (), ()>(&(), &())
    }

    /// Drops a receiver, with the listener that it may have as a stream: its count is lowered, and the last one closes the channel, before
    /// the listener leaves. It may wait for the locks of the wait queues.
    pub fn drop_receiver<R: Wait, S: Wakes<W>>(
        &self,
        rt: &R,
        raised: Raised<OfReceivers>,
        key: Option<Key>,
        seat: Seat<T, W>,
        sink: &mut S,
    ) -> Seat<T, W>
        requires here { seat_table seat ≡ id_of self.now }
        requires handle { Rests (Receivers ∷ []) (listed_on Streams key) (standing_of seat) }
        ensures called { HasCalled (id_of self.now) (standing_of seat) (ask.DropReceiver key) reply.Unit result }
        ensures nothing { Rests [] [] (standing_of result) }
    {
        let mut cells = self.begin_on::<Brand, R, Option<Key>>(rt, seat, &key);
        raised::drop_receiver(rt, raised, key, &mut cells, sink);
        cells.end::<Brand, (), ()>(&(), &())
    }

    /// The handle that lies with this seat goes to a new seat, of a party that has made no call. What this party asked and was answered stays
    /// with it. It costs two loads.
    pub fn part_handle<K: Kind>(&self, seat: Seat<T, W>) -> (Seat<T, W>, Seat<T, W>)
        requires here { seat_table seat ≡ id_of self.now }
        requires handle { Rests (K.side ∷ []) [] (standing_of seat) }
        ensures stays { standing_of result.0 ≡ left (standing_of seat) }
        ensures goes { standing_of result.1 ≡ with_handles (K.side ∷ []) }
        ensures here { (seat_table result.0 ≡ id_of self.now) × (seat_table result.1 ≡ id_of self.now) }
    {
        let mut seat = self.table.go_on(seat);
        let handle = seat.part::<Brand, Side>(&K::side());
        (seat.rest(), self.table.name(handle))
    }

    /// The seat of a receiver takes in that of its stream, with the listener that the stream may have. It costs one load.
    pub fn gather(&self, seat: Seat<T, W>, stream: Seat<T, W>) -> Seat<T, W>
        requires here { (seat_table seat ≡ id_of self.now) × (seat_table stream ≡ id_of self.now) }
        requires idle { (standing_of seat).stage ≡ None }
        ensures both { standing_of result ≡ both (standing_of seat) (standing_of stream) }
        ensures here { seat_table result ≡ id_of self.now }
    {
        let mut seat = self.table.go_on(seat);
        seat.take_in(stream.forget_name());
        seat.rest()
    }
}
