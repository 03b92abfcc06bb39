//! What a call of a channel answers.

use crate::error::{RecvError, Refused, SendError, TryRecvError, TrySendError};
use crate::several::Messages;
use event_listener::error::ListenError;
use futures::task::Poll;

/// What a call answers.
#[derive(Debug, Drop, PartialEq, Eq)]
pub enum Reply<T> {
    /// Of a send that doesn't wait.
    TrySend(Result<(), Refused<TrySendError<T>, T>>),
    /// Of a send that displaces the oldest message of a full channel, which it returns.
    ForceSend(Result<Option<T>, Refused<SendError<T>, T>>),
    /// Of a receive that doesn't wait.
    TryRecv(Result<T, TryRecvError>),
    /// Of a receive of several messages that doesn't wait.
    RecvMany(Result<Messages<T>, Refused<TryRecvError>>),
    /// Of a poll of a send. Unless it was sent, or is in the error, the message stays with the send.
    SendPoll(Poll<Result<(), Refused<SendError<T>>>>),
    /// Of a poll of a receive.
    RecvPoll(Poll<Result<T, Refused<RecvError>>>),
    /// Of a poll for the channel's closing.
    ClosedPoll(Poll<Result<(), ListenError>>),
    /// Of a poll of the stream of messages.
    Next(Poll<Option<Result<T, ListenError>>>),
    /// Of `close`: whether this call closed the channel.
    Closed(bool),
    /// Of a question with two answers.
    Flag(bool),
    /// A number of messages or handles.
    Count(usize),
    /// The capacity, if there is one.
    Cap(Option<usize>),
    /// A handle or an operation was made.
    Made,
    /// The channel is closed or the last handle of its kind is gone.
    NotMade,
    /// More than half of `usize::MAX` handles of this kind live.
    TooMany,
    /// An operation was given up; the message of an unfinished send.
    GivenUp(Option<T>),
    /// Of a drop.
    Unit,
}
