//! Replies, in short.

use crate::plan::Kind;
use channel_calls::error::{RecvError, Refused, SendError, TryRecvError, TrySendError};
use channel_calls::several::Messages;
use channel_calls::stage::WaitList;
use channel_world::call::Reply;
use event_listener::error::ListenError;
use futures::task::Poll;

/// The kinds of replies, each of calls of its own.
#[derive(Clone, Copy, PartialEq, Eq)]
pub enum Form {
    TrySend,
    ForceSend,
    TryRecv,
    /// A receive of several.
    Several,
    /// A poll of an operation, or of a stream, on this line.
    Poll(WaitList),
    Closed,
    Flag,
    Count,
    Capacity,
    Made,
    GivenUp,
    Unit,
}

/// What a reply says.
#[derive(Clone, Copy, PartialEq, Eq)]
pub enum Answer {
    /// The message is in.
    Sent,
    /// The message is in, and this one out for it.
    Displaced(u64),
    /// The channel is full; this message comes back.
    Full(u64),
    /// The channel is closed; this message comes back.
    SendClosed(u64),
    /// This message was received.
    Received(u64),
    /// So many messages were received by one call.
    Several(usize),
    /// The channel is empty.
    Empty,
    /// The channel is closed and empty.
    ReceiveClosed,
    /// The poll is pending.
    Pending,
    /// The closing has come.
    HasClosed,
    /// Memory was refused.
    NoMemory,
    /// Whether this call closed the channel.
    Closed(bool),
    /// Yes or no.
    Flag(bool),
    /// A number.
    Count(usize),
    /// The capacity.
    Capacity(Option<usize>),
    /// It was made.
    Made,
    /// It wasn't made.
    NotMade,
    /// The operation is gone, and hands this back.
    GivenUp(Option<u64>),
    /// There is nothing to say.
    Unit,
    /// What no call of a trial answers.
    Other,
}

/// The kind of the replies of a call of this kind, whose operation waits on this line.
pub fn form_of(kind: Kind, line: WaitList) -> Form {
    match kind {
        Kind::TrySend => Form::TrySend,
        Kind::ForceSend => Form::ForceSend,
        Kind::TryRecv => Form::TryRecv,
        Kind::RecvMany => Form::Several,
        Kind::Poll | Kind::PollRefused | Kind::PollNext => Form::Poll(line),
        Kind::Close => Form::Closed,
        Kind::SendIsTerminated | Kind::StreamIsTerminated | Kind::SameChannel => Form::Flag,
        Kind::IsClosed | Kind::IsEmpty | Kind::IsFull => Form::Flag,
        Kind::Len | Kind::SenderCount | Kind::ReceiverCount => Form::Count,
        Kind::Capacity => Form::Capacity,
        Kind::GiveUp => Form::GivenUp,
        Kind::Drop => Form::Unit,
        _ => Form::Made,
    }
}

fn try_send(answer: &Result<(), Refused<TrySendError<u64>, u64>>) -> Answer {
    match answer {
        Ok(()) => Answer::Sent,
        Err(Refused::Plain(TrySendError::Full(message))) => Answer::Full(*message),
        Err(Refused::Plain(TrySendError::Closed(message))) => Answer::SendClosed(*message),
        Err(_) => Answer::Other,
    }
}

fn force_send(answer: &Result<Option<u64>, Refused<SendError<u64>, u64>>) -> Answer {
    match answer {
        Ok(None) => Answer::Sent,
        Ok(Some(message)) => Answer::Displaced(*message),
        Err(Refused::Plain(SendError(message))) => Answer::SendClosed(*message),
        Err(_) => Answer::Other,
    }
}

fn try_recv(answer: &Result<u64, TryRecvError>) -> Answer {
    match answer {
        Ok(message) => Answer::Received(*message),
        Err(TryRecvError::Empty) => Answer::Empty,
        Err(TryRecvError::Closed) => Answer::ReceiveClosed,
    }
}

fn recv_many(answer: &Result<Messages<u64>, Refused<TryRecvError>>) -> Answer {
    match answer {
        Ok(messages) => Answer::Several(messages.as_slice().len()),
        Err(Refused::Plain(TryRecvError::Empty)) => Answer::Empty,
        Err(Refused::Plain(TryRecvError::Closed)) => Answer::ReceiveClosed,
        Err(Refused::NoMemory(())) => Answer::NoMemory,
        Err(_) => Answer::Other,
    }
}

fn send_poll(poll: &Poll<Result<(), Refused<SendError<u64>>>>) -> Answer {
    match poll {
        Poll::Ready(Ok(())) => Answer::Sent,
        Poll::Ready(Err(Refused::Plain(SendError(message)))) => Answer::SendClosed(*message),
        Poll::Ready(Err(Refused::NoMemory(()))) => Answer::NoMemory,
        Poll::Ready(Err(_)) => Answer::Other,
        Poll::Pending => Answer::Pending,
    }
}

fn recv_poll(poll: &Poll<Result<u64, Refused<RecvError>>>) -> Answer {
    match poll {
        Poll::Ready(Ok(message)) => Answer::Received(*message),
        Poll::Ready(Err(Refused::Plain(_))) => Answer::ReceiveClosed,
        Poll::Ready(Err(Refused::NoMemory(()))) => Answer::NoMemory,
        Poll::Ready(Err(_)) => Answer::Other,
        Poll::Pending => Answer::Pending,
    }
}

fn closed_poll(poll: &Poll<Result<(), ListenError>>) -> Answer {
    match poll {
        Poll::Ready(Ok(())) => Answer::HasClosed,
        Poll::Ready(Err(ListenError::NoMemory)) => Answer::NoMemory,
        Poll::Ready(Err(_)) => Answer::Other,
        Poll::Pending => Answer::Pending,
    }
}

fn next(poll: &Poll<Option<Result<u64, ListenError>>>) -> Answer {
    match poll {
        Poll::Ready(Some(Ok(message))) => Answer::Received(*message),
        Poll::Ready(Some(Err(_))) => Answer::Other,
        Poll::Ready(None) => Answer::ReceiveClosed,
        Poll::Pending => Answer::Pending,
    }
}

/// What kind of reply it is, and what it says.
pub fn read(reply: &Reply<u64>) -> (Form, Answer) {
    match reply {
        Reply::TrySend(answer) => (Form::TrySend, try_send(answer)),
        Reply::ForceSend(answer) => (Form::ForceSend, force_send(answer)),
        Reply::TryRecv(answer) => (Form::TryRecv, try_recv(answer)),
        Reply::RecvMany(answer) => (Form::Several, recv_many(answer)),
        Reply::SendPoll(poll) => (Form::Poll(WaitList::Sends), send_poll(poll)),
        Reply::RecvPoll(poll) => (Form::Poll(WaitList::Receives), recv_poll(poll)),
        Reply::ClosedPoll(poll) => (Form::Poll(WaitList::Closings), closed_poll(poll)),
        Reply::Next(poll) => (Form::Poll(WaitList::Streams), next(poll)),
        Reply::Closed(closed) => (Form::Closed, Answer::Closed(*closed)),
        Reply::Flag(flag) => (Form::Flag, Answer::Flag(*flag)),
        Reply::Count(count) => (Form::Count, Answer::Count(*count)),
        Reply::Cap(capacity) => (Form::Capacity, Answer::Capacity(*capacity)),
        Reply::Made => (Form::Made, Answer::Made),
        Reply::NotMade => (Form::Made, Answer::NotMade),
        Reply::TooMany => (Form::Made, Answer::Other),
        Reply::GivenUp(message) => (Form::GivenUp, Answer::GivenUp(*message)),
        Reply::Unit => (Form::Unit, Answer::Unit),
    }
}
