//! Polled operations. Each is a party of its own from its first poll on, and its seat has the listener that is listed for it. A receiver
//! that is polled as a stream has a seat of this kind beside that of its handle. A poll is a call of this party, and so is giving up, which
//! the drop of an operation does.
//!
//! Without a task a poll tries nothing: the listener leaves, passing its notification on, and the poll is refused for memory. Every call
//! here may wait for the locks of the wait queues.

ghost use Rattle.std.specs.Prelude.{◌≡◌, [], None, is_some};
ghost use Rattle.channel_calls.specs.Calls.{SendsOn, send_ask, recv_ask, closed_ask, next_ask};
ghost use Rattle.channel_calls.specs.Listed.{SendLists, is_pending};
ghost use Rattle.channel_calls.specs.declared.ask.ChannelAsk.TheVariants as ask;
ghost use Rattle.channel_calls.specs.declared.reply.Reply.TheVariants as reply;
ghost use Rattle.channel_calls.specs.declared.stage.WaitList.TheVariants.{Sends, Receives, Streams, Closings};
ghost use Rattle.channel_history.specs.InHand.{listed_on};
ghost use Rattle.channel_history.specs.Party.{fresh};
ghost use Rattle.channel_cells.specs.Calls.{HasCalled, HasPolled};
ghost use Rattle.channel_history.specs.CallEnds.{Rests};
ghost use Rattle.channel_cells.specs.Channel.{id_of, seat_table, standing_of};

use crate::channel::{ChannelTable, Seat};
use channel_calls::error::{RecvError, Refused, SendError};
use channel_calls::polls;
use channel_calls::stage::{Returned, WaitList};
use event_listener::error::ListenError;
use event_listener::key::Key;
use event_listener::wakes::Wakes;
use futures::task::Poll;
use std::marker::Brand;
use std::sync::Wait;

impl<T: Drop, W: Drop> ChannelTable<T, W> {
    /// The seat of a new party, which has made no call: that of an operation before its first poll. It costs one load.
    pub fn new_seat(&self) -> Seat<T, W>
        ensures here { seat_table result ≡ id_of self.now }
        ensures new { standing_of result ≡ fresh }
        ensures rests { Rests [] [] (standing_of result) }
    {
        self.table.enter::<Brand, ()>(&()).rest()
    }

    /// A poll of a receive, which may hold this listener.
    pub fn poll_recv<R: Wait, S: Wakes<W>>(
        &self,
        rt: &R,
        seat: Seat<T, W>,
        key: Option<Key>,
        task: Option<W>,
        sink: &mut S,
    ) -> (Poll<Result<T, Refused<RecvError>>>, Returned<T>, Seat<T, W>)
        requires here { seat_table seat ≡ id_of self.now }
        requires listener { Rests [] (listed_on Receives key) (standing_of seat) }
        ensures called { HasPolled (id_of self.now) (standing_of seat) (recv_ask key task) (reply.RecvPoll result.0) result.1 result.2 }
        ensures listed { is_some result.1.key ≡ is_pending result.0 }
        ensures listener { Rests [] (listed_on Receives result.1.key) (standing_of result.2) }
    {
        let mut cells = self.begin_on::<Brand, R, (Option<Key>, &Option<W>)>(
            rt,
            seat,
            &(key, &task),
        );
        let (polled, left) = polls::poll_recv(rt, key, task, &mut cells, sink);
        let seat = cells.end::<Brand, Poll<Result<T, Refused<RecvError>>>, Returned<T>>(
            &polled, &left,
        );
        (polled, left, seat)
    }

    /// A poll of a send with this message, or of a finished one without, which may hold this listener; a finished one holds none. The
    /// message of a send that goes on waiting, or was refused memory or a serial, is left to the operation.
    pub fn poll_send<R: Wait, S: Wakes<W>>(
        &self,
        rt: &R,
        seat: Seat<T, W>,
        message: Option<T>,
        key: Option<Key>,
        task: Option<W>,
        sink: &mut S,
    ) -> (
        Poll<Result<(), Refused<SendError<T>>>>,
        Returned<T>,
        Seat<T, W>,
    )
        requires here { seat_table seat ≡ id_of self.now }
        requires finished { message ≡ None → key ≡ None }
        requires listener { Rests [] (listed_on Sends key) (standing_of seat) }
        ensures called { HasPolled (id_of self.now) (standing_of seat) (send_ask message key task) (reply.SendPoll result.0) result.1 result.2 }
        ensures message { SendsOn message result.0 result.1.message }
        ensures listed { SendLists message result.0 result.1.key }
        ensures listener { Rests [] (listed_on Sends result.1.key) (standing_of result.2) }
    {
        let mut cells = self.begin_on::<Brand, R, (&Option<T>, Option<Key>, &Option<W>)>(
            rt,
            seat,
            &(&message, key, &task),
        );
        let (polled, left) = polls::poll_send(rt, message, key, task, &mut cells, sink);
        let seat = cells.end::<Brand, Poll<Result<(), Refused<SendError<T>>>>, Returned<T>>(
            &polled, &left,
        );
        (polled, left, seat)
    }

    /// A poll of a wait for the closing, which may hold this listener.
    pub fn poll_closed<R: Wait, S: Wakes<W>>(
        &self,
        rt: &R,
        seat: Seat<T, W>,
        key: Option<Key>,
        task: Option<W>,
        sink: &mut S,
    ) -> (Poll<Result<(), ListenError>>, Returned<T>, Seat<T, W>)
        requires here { seat_table seat ≡ id_of self.now }
        requires listener { Rests [] (listed_on Closings key) (standing_of seat) }
        ensures called { HasPolled (id_of self.now) (standing_of seat) (closed_ask key task) (reply.ClosedPoll result.0) result.1 result.2 }
        ensures listed { is_some result.1.key ≡ is_pending result.0 }
        ensures listener { Rests [] (listed_on Closings result.1.key) (standing_of result.2) }
    {
        let mut cells = self.begin_on::<Brand, R, (Option<Key>, &Option<W>)>(
            rt,
            seat,
            &(key, &task),
        );
        let (polled, left) = polls::poll_closed(rt, key, task, &mut cells, sink);
        let seat = cells.end::<Brand, Poll<Result<(), ListenError>>, Returned<T>>(&polled, &left);
        (polled, left, seat)
    }

    /// A poll of a receiver as a stream, which may hold this listener.
    pub fn poll_next<R: Wait, S: Wakes<W>>(
        &self,
        rt: &R,
        seat: Seat<T, W>,
        key: Option<Key>,
        task: Option<W>,
        sink: &mut S,
    ) -> (
        Poll<Option<Result<T, ListenError>>>,
        Returned<T>,
        Seat<T, W>,
    )
        requires here { seat_table seat ≡ id_of self.now }
        requires listener { Rests [] (listed_on Streams key) (standing_of seat) }
        ensures called { HasPolled (id_of self.now) (standing_of seat) (next_ask key task) (reply.Next result.0) result.1 result.2 }
        ensures listed { is_some result.1.key ≡ is_pending result.0 }
        ensures listener { Rests [] (listed_on Streams result.1.key) (standing_of result.2) }
    {
        let mut cells = self.begin_on::<Brand, R, (Option<Key>, &Option<W>)>(
            rt,
            seat,
            &(key, &task),
        );
        let (polled, left) = polls::poll_next(rt, key, task, &mut cells, sink);
        let seat = cells.end::<Brand, Poll<Option<Result<T, ListenError>>>, Returned<T>>(
            &polled, &left,
        );
        (polled, left, seat)
    }

    /// Gives an operation up: its listener leaves, passing its notification on, and the message of an unfinished send is returned.
    pub fn give_up<R: Wait, S: Wakes<W>>(
        &self,
        rt: &R,
        seat: Seat<T, W>,
        line: WaitList,
        message: Option<T>,
        key: Option<Key>,
        sink: &mut S,
    ) -> (Option<T>, Seat<T, W>)
        requires here { seat_table seat ≡ id_of self.now }
        requires listener { Rests [] (listed_on line key) (standing_of seat) }
        ensures called { HasCalled (id_of self.now) (standing_of seat) (ask.GiveUp line message key) (reply.GivenUp result.0) result.1 }
        ensures message { result.0 ≡ message }
        ensures listener { Rests [] [] (standing_of result.1) }
    {
        let mut cells = self.begin_on::<Brand, R, (WaitList, Option<Key>, &Option<T>)>(
            rt,
            seat,
            &(line, key, &message),
        );
        let back = polls::give_up(rt, line, message, key, &mut cells, sink);
        let seat = cells.end::<Brand, Option<T>, ()>(&back, &());
        (back, seat)
    }
}
