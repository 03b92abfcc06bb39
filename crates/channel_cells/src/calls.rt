//! How a call begins and ends on a channel's cells, and the calls that wait for no message and no place. Each is that of `channel_calls`,
//! made by the party of a seat that has no call under way and nothing lent to it, and returns the seat. The seat's view says what the party
//! asked and what it was answered.

ghost use Rattle.std.specs.Prelude.{◌≡◌, ◌≤◌, ◌<◌, [], IfErr, MatchResult, Ok, Err};
ghost use Rattle.std.specs.Vec.{vec_capacity, vec_ptr};
ghost use Rattle.concurrent_queue.specs.Replies.{is_bounded};
ghost use Rattle.channel_calls.specs.Filling.{room_in, StandsBehind};
ghost use Rattle.channel_calls.specs.Replies.{RefusesTrySend, RefusesForceSend, GivesUpTo};
ghost use Rattle.channel_calls.specs.declared.ask.ChannelAsk.TheVariants as ask;
ghost use Rattle.channel_calls.specs.declared.reply.Reply.TheVariants as reply;
ghost use Rattle.channel_history.specs.WholeCalls.{MayAsk};
ghost use Rattle.channel_cells.specs.Calls.{HasBegun, HasCalled, many_reply, filled_reply};
ghost use Rattle.channel_history.specs.CallEnds.{HasEnded, EndsSo, Rests};
ghost use Rattle.channel_cells.specs.Cells.{view_of, form_in, table_in};
ghost use Rattle.channel_cells.specs.Channel.{form_of, id_of, seat_table, standing_of};

use crate::cells::CallCells;
use crate::channel::{ChannelTable, Seat};
use channel_calls::error::{Refused, SendError, TryRecvError, TrySendError};
use channel_calls::{calls, filling};
use concurrent_queue::history::cells::HistoryCells;
use event_listener::wakes::Wakes;
use std::alloc::Global;
use std::marker::Brand;
use std::sync::Wait;

/// What a call asks, which the proof of its beginning picks where it passes `Brand`.
pub trait Asks<T, W> {
    ghost use Rattle.channel_calls.specs.declared.ask.ChannelAsk.{ChannelAsk};

    ghost ask: { ChannelAsk T W };
}

impl<T, W> Asks<T, W> for Brand {
    ghost use Rattle.channel_calls.specs.declared.ask.ChannelAsk.TheVariants.{Close};

    ghost ask = { Close };
}

/// What a call answered and left, which the proof of its end picks where it passes `Brand`.
pub trait Answers<T> {
    ghost use Rattle.channel_calls.specs.declared.whole.Completed.{Completed};

    ghost gave: { Completed T → Type 0 };
}

impl<T> Answers<T> for Brand {
    ghost gave = { λ _. Unit {0} };
}

impl<T: Drop, W: Drop> ChannelTable<T, W> {
    /// Begins a call of the party of this seat. It costs one load.
    #[inline(always)]
    pub(crate) fn begin_on<'a, E: Asks<T, W>, R: Wait, X>(
        &'a self,
        rt: &'a R,
        seat: Seat<T, W>,
        about: &X,
    ) -> CallCells<'a, T, W, R>
        requires same { seat_table seat ≡ id_of self.now }
        requires asks { MayAsk (form_of self.now) (standing_of seat) E.ask }
        ensures begun { HasBegun self.now (standing_of seat) E.ask (form_in result) (table_in result) (view_of result) }
    {
        let mut seat = self.table.go_on(seat);
        // From this step on the history has the call, and the seat can't rest before the machine has answered.
        seat.turn::<Brand, X>(about);
        CallCells {
            channel: self,
            rt,
            queue: HistoryCells { seat },
        }
    }
}

impl<'a, T: Drop, W: Drop, R: Wait> CallCells<'a, T, W, R> {
    /// Ends a call that its machine has answered. It costs one load.
    #[inline(always)]
    pub(crate) fn end<E: Answers<T>, X, Y>(self, about: &X, and: &Y) -> Seat<T, W>
        requires ended { HasEnded (form_in self) E.gave (view_of self) }
        ensures ended { EndsSo (form_in self.entry) E.gave (view_of self.entry) (standing_of result) }
        ensures table { seat_table result ≡ table_in self.entry }
    {
        let CallCells {
            channel: _,
            rt: _,
            queue: HistoryCells { seat },
        } = self;
        let mut seat = seat;
        // From this step on the history has the answer. It touches no cell, so it is a load whose answer nobody needs.
        seat.turn_by::<Brand, X, Y>(about, and);
        seat.rest()
    }
}

impl<T: Drop, W: Drop> ChannelTable<T, W> {
    /// Sends the message if there is a place for it.
    #[inline(always)]
    pub fn try_send<R: Wait, S: Wakes<W>>(
        &self,
        rt: &R,
        seat: Seat<T, W>,
        message: T,
        sink: &mut S,
    ) -> (Result<(), Refused<TrySendError<T>, T>>, Seat<T, W>)
        requires here { seat_table seat ≡ id_of self.now }
        requires rests { Rests [] [] (standing_of seat) }
        ensures called { HasCalled (id_of self.now) (standing_of seat) (ask.TrySend message) (reply.TrySend result.0) result.1 }
        ensures rests { Rests [] [] (standing_of result.1) }
        ensures refused { IfErr result.0 (λ e. RefusesTrySend (is_bounded (form_of self.now)) message e) }
    {
        let mut cells = self.begin_on::<Brand, R, T>(rt, seat, &message);
        let sent = calls::try_send(rt, message, &mut cells, sink);
        let seat = cells.end::<Brand, Result<(), Refused<TrySendError<T>, T>>, ()>(&sent, &());
        (sent, seat)
    }

    /// Removes the oldest message.
    #[inline(always)]
    pub fn try_recv<R: Wait, S: Wakes<W>>(
        &self,
        rt: &R,
        seat: Seat<T, W>,
        sink: &mut S,
    ) -> (Result<T, TryRecvError>, Seat<T, W>)
        requires here { seat_table seat ≡ id_of self.now }
        requires rests { Rests [] [] (standing_of seat) }
        ensures called { HasCalled (id_of self.now) (standing_of seat) ask.TryRecv (reply.TryRecv result.0) result.1 }
        ensures rests { Rests [] [] (standing_of result.1) }
    {
        let mut cells = self.begin_on::<Brand, R, ()>(rt, seat, &());
        let received = calls::try_recv(rt, &mut cells, sink);
        let seat = cells.end::<Brand, Result<T, TryRecvError>, ()>(&received, &());
        (received, seat)
    }

    /// Sends the message; if the channel is full, its oldest message leaves for it and is returned.
    #[inline(always)]
    pub fn force_send<R: Wait, S: Wakes<W>>(
        &self,
        rt: &R,
        seat: Seat<T, W>,
        message: T,
        sink: &mut S,
    ) -> (Result<Option<T>, Refused<SendError<T>, T>>, Seat<T, W>)
        requires here { seat_table seat ≡ id_of self.now }
        requires rests { Rests [] [] (standing_of seat) }
        ensures called { HasCalled (id_of self.now) (standing_of seat) (ask.ForceSend message) (reply.ForceSend result.0) result.1 }
        ensures rests { Rests [] [] (standing_of result.1) }
        ensures refused { IfErr result.0 (λ e. RefusesForceSend (is_bounded (form_of self.now)) message e) }
    {
        let mut cells = self.begin_on::<Brand, R, T>(rt, seat, &message);
        let sent = calls::force_send(rt, message, &mut cells, sink);
        let seat = cells.end::<Brand, Result<Option<T>, Refused<SendError<T>, T>>, ()>(&sent, &());
        (sent, seat)
    }

    /// Removes the oldest messages, at most `limit`, in order.
    pub fn recv_many<R: Wait, S: Wakes<W>>(
        &self,
        rt: &R,
        seat: Seat<T, W>,
        limit: usize,
        alloc: Global,
        sink: &mut S,
    ) -> (Result<Vec<T>, Refused<TryRecvError>>, Seat<T, W>)
        requires here { seat_table seat ≡ id_of self.now }
        requires rests { Rests [] [] (standing_of seat) }
        ensures called { HasCalled (id_of self.now) (standing_of seat) (ask.RecvMany limit) (many_reply result.0) result.1 }
        ensures rests { Rests [] [] (standing_of result.1) }
        ensures most { MatchResult result.0 (λ messages. GivesUpTo limit (reply.RecvMany (Ok messages.items))) (λ e. GivesUpTo {T = T} limit (reply.RecvMany (Err e))) }
    {
        let mut cells = self.begin_on::<Brand, R, usize>(rt, seat, &limit);
        let received = calls::recv_many(rt, limit, alloc, &mut cells, sink);
        let seat = cells.end::<Brand, Result<Vec<T>, Refused<TryRecvError>>, ()>(&received, &());
        (received, seat)
    }

    /// Moves the oldest messages into the room that is there, behind what is in it, in order, until it is full or no further message is
    /// there, and answers how many. `Err` if there is none; if there is no room, nothing is tried. It takes no memory.
    pub fn recv_many_into<R: Wait, S: Wakes<W>>(
        &self,
        rt: &R,
        seat: Seat<T, W>,
        into: &mut Vec<T>,
        sink: &mut S,
    ) -> (Result<usize, TryRecvError>, Seat<T, W>)
        requires here { seat_table seat ≡ id_of self.now }
        requires rests { Rests [] [] (standing_of seat) }
        ensures called { HasCalled (id_of self.now) (standing_of seat) (ask.RecvMany (room_in into.old)) (filled_reply result.0 into.new.items) result.1 }
        ensures rests { Rests [] [] (standing_of result.1) }
        ensures taken { StandsBehind into.old.items result.0 into.new.items }
        ensures most { MatchResult result.0 (λ n. (n ≤ room_in into.old) × (n ≡ 0 → room_in into.old ≡ 0)) (λ _. 0 < room_in into.old) }
        ensures room { vec_capacity into.new ≡ vec_capacity into.old }
        ensures in_place { vec_ptr into.new ≡ vec_ptr into.old }
    {
        let mut cells = self.begin_on::<Brand, R, Vec<T>>(rt, seat, into);
        let received = filling::recv_many_into(rt, into, &mut cells, sink);
        let seat = cells.end::<Brand, Result<usize, TryRecvError>, Vec<T>>(&received, into);
        (received, seat)
    }

    /// Closes the channel.
    #[inline(always)]
    pub fn close<R: Wait, S: Wakes<W>>(
        &self,
        rt: &R,
        seat: Seat<T, W>,
        sink: &mut S,
    ) -> (bool, Seat<T, W>)
        requires here { seat_table seat ≡ id_of self.now }
        requires rests { Rests [] [] (standing_of seat) }
        ensures called { HasCalled (id_of self.now) (standing_of seat) ask.Close (reply.Closed result.0) result.1 }
        ensures rests { Rests [] [] (standing_of result.1) }
    {
        let mut cells = self.begin_on::<Brand, R, ()>(rt, seat, &());
        let closed = calls::close(rt, &mut cells, sink);
        let seat = cells.end::<Brand, bool, ()>(&closed, &());
        (closed, seat)
    }

    /// How many messages the channel held at a moment of the call.
    #[inline(always)]
    pub fn len<R: Wait, S: Wakes<W>>(
        &self,
        rt: &R,
        seat: Seat<T, W>,
        sink: &mut S,
    ) -> (usize, Seat<T, W>)
        requires here { seat_table seat ≡ id_of self.now }
        requires rests { Rests [] [] (standing_of seat) }
        ensures called { HasCalled (id_of self.now) (standing_of seat) ask.Len (reply.Count result.0) result.1 }
        ensures rests { Rests [] [] (standing_of result.1) }
    {
        let mut cells = self.begin_on::<Brand, R, ()>(rt, seat, &());
        let count = calls::len(rt, &mut cells, sink);
        let seat = cells.end::<Brand, usize, ()>(&count, &());
        (count, seat)
    }
}
