//! A polled operation: a party of its own, with the listener that it may have.

ghost use Rattle.std.specs.Prelude.{◌≡◌, [], None};
ghost use Rattle.channel_calls.specs.declared.stage.WaitList.TheVariants.{Sends};
ghost use Rattle.channel_cells.specs.Channel.{id_of, seat_table, standing_of};
ghost use Rattle.channel_history.specs.CallEnds.{Rests};
ghost use Rattle.channel_history.specs.InHand.{listed_on};

use crate::fixture::Channel;
use channel_calls::error::{RecvError, Refused, SendError};
use channel_calls::stage::WaitList;
use channel_cells::channel::Seat;
use event_listener::error::ListenError;
use event_listener::key::Key;
use event_listener::wakes::Wakes;
use futures::task::Poll;
use std::sync::Wait;

/// A send of a message, a receive, a stream's next message, or a wait for the closing.
#[derive(Drop)]
pub(crate) struct Operation<'a> {
    channel: &'a Channel,
    line: WaitList,
    seat: Seat<u64, u64>,
    key: Option<Key>,
    message: Option<u64>,
    ghost here: { seat_table seat ≡ id_of channel.now },
    ghost listener: { Rests [] (listed_on line key) (standing_of seat) },
    ghost finished: { line ≡ Sends → message ≡ None → key ≡ None },
}

/// What a poll answers.
#[derive(Clone, Copy, PartialEq, Eq, Debug)]
pub(crate) enum Polled {
    /// It waits.
    Waits,
    /// A send is done, or the channel is closed that a wait was for.
    Done,
    /// This message came.
    Came(u64),
    /// The channel is closed.
    Closed,
    /// Memory is wanted.
    WantsMemory,
}

fn of_recv(polled: Poll<Result<u64, Refused<RecvError>>>) -> Polled {
    match polled {
        Poll::Pending => Polled::Waits,
        Poll::Ready(Ok(message)) => Polled::Came(message),
        Poll::Ready(Err(Refused::Plain(RecvError))) => Polled::Closed,
        Poll::Ready(Err(_)) => Polled::WantsMemory,
    }
}

fn of_send(polled: Poll<Result<(), Refused<SendError<u64>>>>) -> Polled {
    match polled {
        Poll::Pending => Polled::Waits,
        Poll::Ready(Ok(())) => Polled::Done,
        Poll::Ready(Err(Refused::Plain(_))) => Polled::Closed,
        Poll::Ready(Err(_)) => Polled::WantsMemory,
    }
}

fn of_closed(polled: Poll<Result<(), ListenError>>) -> Polled {
    match polled {
        Poll::Pending => Polled::Waits,
        Poll::Ready(Ok(())) => Polled::Done,
        Poll::Ready(Err(_)) => Polled::WantsMemory,
    }
}

pub(crate) fn of_next(polled: Poll<Option<Result<u64, ListenError>>>) -> Polled {
    match polled {
        Poll::Pending => Polled::Waits,
        Poll::Ready(None) => Polled::Closed,
        Poll::Ready(Some(Ok(message))) => Polled::Came(message),
        Poll::Ready(Some(Err(_))) => Polled::WantsMemory,
    }
}

impl<'a> Operation<'a> {
    /// A send of this message.
    pub(crate) fn send(channel: &'a Channel, message: u64) -> Operation<'a> {
        Operation {
            channel,
            line: WaitList::Sends,
            seat: channel.new_seat(),
            key: None,
            message: Some(message),
        }
    }

    /// A receive, a stream's next message, or a wait for the closing.
    pub(crate) fn on(channel: &'a Channel, line: WaitList) -> Operation<'a> {
        Operation {
            channel,
            line,
            seat: channel.new_seat(),
            key: None,
            message: None,
        }
    }

    /// Whether it has a listener.
    pub(crate) fn is_listed(&self) -> bool {
        self.key.is_some()
    }

    /// A poll with a task of this name, or without one.
    pub(crate) fn poll<R: Wait, S: Wakes<u64>>(
        self,
        rt: &R,
        task: Option<u64>,
        sink: &mut S,
    ) -> (Polled, Operation<'a>) {
        let Operation {
            channel,
            line,
            seat,
            key,
            message,
        } = self;
        let (polled, left, seat) = match line {
            WaitList::Sends => {
                let (polled, left, seat) = channel.poll_send(rt, seat, message, key, task, sink);
                (of_send(polled), left, seat)
            }
            WaitList::Receives => {
                let (polled, left, seat) = channel.poll_recv(rt, seat, key, task, sink);
                (of_recv(polled), left, seat)
            }
            WaitList::Streams => {
                let (polled, left, seat) = channel.poll_next(rt, seat, key, task, sink);
                (of_next(polled), left, seat)
            }
            WaitList::Closings => {
                let (polled, left, seat) = channel.poll_closed(rt, seat, key, task, sink);
                (of_closed(polled), left, seat)
            }
        };
        let operation = Operation {
            channel,
            line,
            seat,
            key: left.key,
            message: left.message,
        };
        (polled, operation)
    }

    /// A poll with a task of this name, made once more where memory was refused.
    pub(crate) fn polled<R: Wait, S: Wakes<u64>>(
        self,
        rt: &R,
        task: u64,
        sink: &mut S,
    ) -> (Polled, Operation<'a>) {
        match self.poll(rt, Some(task), sink) {
            (Polled::WantsMemory, operation) => operation.poll(rt, Some(task), sink),
            polled => polled,
        }
    }

    /// The operation is given up: the message that it has yet to send.
    pub(crate) fn give_up<R: Wait, S: Wakes<u64>>(self, rt: &R, sink: &mut S) -> Option<u64> {
        let Operation {
            channel,
            line,
            seat,
            key,
            message,
        } = self;
        let (back, _) = channel.give_up(rt, seat, line, message, key, sink);
        back
    }
}
