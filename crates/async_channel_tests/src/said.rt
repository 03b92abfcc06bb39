//! What a call answered, as a value that can be copied, so that a test notes all answers and compares them at its end.

use channel_calls::error::{Refused, SendError, TryRecvError, TrySendError};
use channel_calls::reply::Reply;
use channel_calls::several::Messages;
use futures::task::Poll;

/// What a call answered, in short.
#[derive(Clone, Copy, PartialEq, Eq, Debug)]
pub(crate) enum Said {
    /// There is no entry.
    Missing,
    /// The call goes on.
    GoesOn,
    /// The message was sent, and this one displaced.
    Sent(Option<u64>),
    /// The channel is full, and the message comes back.
    Full(u64),
    /// The channel is closed, and the message of a send comes back.
    Closed(Option<u64>),
    /// This message was received.
    Received(u64),
    /// These two messages were received at once.
    Several(u64, u64),
    /// The channel is empty.
    Empty,
    /// The poll is pending.
    Pending,
    /// The closing was told.
    Ended,
    /// The operation was given up, and handed this back.
    GivenUp(Option<u64>),
    /// Memory or a serial was refused.
    Refused,
    /// Whether a closing closed, or what a question answered.
    Flag(bool),
    /// A number of messages or handles.
    Count(usize),
    /// The capacity.
    Cap(Option<usize>),
    /// A handle was made, or not.
    Made(bool),
    /// A drop has ended.
    Dropped,
    /// Something else.
    Else,
}

impl Said {
    /// The messages that were handed out before, as the digits of a number, and then by this.
    pub(crate) fn after(self, before: u64) -> u64 {
        match self {
            Said::Received(message) | Said::Sent(Some(message)) => with(before, message),
            Said::Several(first, second) => with(with(before, first), second),
            _ => before,
        }
    }
}

/// One more digit; messages of these tests are less than 10.
pub(crate) fn with(digits: u64, message: u64) -> u64 {
    digits.wrapping_mul(10).wrapping_add(message)
}

fn sent(reply: Result<(), Refused<TrySendError<u64>, u64>>) -> Said {
    match reply {
        Ok(()) => Said::Sent(None),
        Err(Refused::Plain(TrySendError::Full(message))) => Said::Full(message),
        Err(Refused::Plain(TrySendError::Closed(message))) => Said::Closed(Some(message)),
        Err(_) => Said::Refused,
    }
}

fn received(reply: Result<u64, TryRecvError>) -> Said {
    match reply {
        Ok(message) => Said::Received(message),
        Err(TryRecvError::Empty) => Said::Empty,
        Err(TryRecvError::Closed) => Said::Closed(None),
    }
}

fn received_many(messages: &Messages<u64>) -> Said {
    match messages.as_slice() {
        [message] => Said::Received(*message),
        [first, second] => Said::Several(*first, *second),
        _ => Said::Else,
    }
}

/// What a send is in short that blocks its thread.
pub(crate) fn sent_blocking(reply: Result<(), Refused<SendError<u64>, u64>>) -> Said {
    match reply {
        Ok(()) => Said::Sent(None),
        Err(Refused::Plain(refused)) => Said::Closed(Some(refused.0)),
        Err(_) => Said::Refused,
    }
}

/// What this reply is in short.
pub(crate) fn answer_of(reply: Reply<u64>) -> Said {
    match reply {
        Reply::TrySend(reply) => sent(reply),
        Reply::ForceSend(Ok(displaced)) => Said::Sent(displaced),
        Reply::ForceSend(Err(Refused::Plain(refused))) => Said::Closed(Some(refused.0)),
        Reply::TryRecv(reply) => received(reply),
        Reply::RecvMany(Ok(messages)) => received_many(&messages),
        Reply::RecvMany(Err(Refused::Plain(refused))) => received(Err(refused)),
        Reply::SendPoll(Poll::Ready(Ok(()))) => Said::Sent(None),
        Reply::SendPoll(Poll::Ready(Err(Refused::Plain(refused)))) => {
            Said::Closed(Some(refused.0))
        }
        Reply::SendPoll(Poll::Ready(Err(_))) => Said::Refused,
        Reply::RecvPoll(Poll::Ready(Ok(message))) => Said::Received(message),
        Reply::RecvPoll(Poll::Ready(Err(Refused::Plain(_)))) => Said::Closed(None),
        Reply::RecvPoll(Poll::Ready(Err(_))) => Said::Refused,
        Reply::Next(Poll::Ready(Some(Ok(message)))) => Said::Received(message),
        Reply::Next(Poll::Ready(Some(Err(_)))) => Said::Refused,
        Reply::Next(Poll::Ready(None)) => Said::Closed(None),
        Reply::ClosedPoll(Poll::Ready(Ok(()))) => Said::Ended,
        Reply::ClosedPoll(Poll::Ready(Err(_))) => Said::Refused,
        Reply::SendPoll(Poll::Pending)
        | Reply::RecvPoll(Poll::Pending)
        | Reply::Next(Poll::Pending)
        | Reply::ClosedPoll(Poll::Pending) => Said::Pending,
        Reply::Closed(answer) | Reply::Flag(answer) => Said::Flag(answer),
        Reply::Count(number) => Said::Count(number),
        Reply::Cap(capacity) => Said::Cap(capacity),
        Reply::Made => Said::Made(true),
        Reply::NotMade => Said::Made(false),
        Reply::GivenUp(message) => Said::GivenUp(message),
        Reply::Unit => Said::Dropped,
        _ => Said::Else,
    }
}
