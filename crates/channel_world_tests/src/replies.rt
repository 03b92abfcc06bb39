//! Replies, names and refusals, as lines say them.

use channel_calls::error::{Refused, SendError, TryRecvError, TrySendError};
use channel_world::call::{Reply, Stopped, WorldRefusal};
use channel_world::name::Waiter;
use event_listener::error::ListenError;
use futures::task::Poll;
use std::alloc::AllocError;
use worked_rows::Said;

/// The words that tell what calls answer.
pub(crate) struct Wording {
    /// A message was sent.
    sent: &'static str,
    /// It was, and displaced this one.
    displaced: &'static str,
    /// This one was received.
    received: &'static str,
    /// A stream gave this one.
    next: &'static str,
    /// There is nothing to receive any more.
    over: &'static str,
    /// A stream has ended.
    ended: &'static str,
    /// Memory was refused.
    memory: &'static str,
    /// No serial was left.
    serials: &'static str,
    /// A handle or an operation was made.
    made: &'static str,
    /// There are too many handles.
    too_many: &'static str,
    /// A handle was dropped.
    done: &'static str,
    /// An operation was given up.
    given_up: &'static str,
    /// Whether the message is told that it gives back.
    tells_given_back: bool,
    /// What stands before the number of a stream.
    stream: Option<&'static str>,
}

/// As rows are worded.
pub(crate) static OF_ROWS: Wording = Wording {
    sent: "sent",
    displaced: "displaced",
    received: "received",
    next: "next",
    over: "over",
    ended: "over",
    memory: "memory",
    serials: "serials",
    made: "made",
    too_many: "too_many",
    done: "done",
    given_up: "given_up",
    tells_given_back: true,
    stream: Some("stream"),
};

/// As the answers of scripts are worded (docs/SCRIPT.md), which end where memory or serials are refused.
pub(crate) static OF_SCRIPTS: Wording = Wording {
    sent: "ok",
    displaced: "ok displaced",
    received: "ok",
    next: "some",
    over: "closed",
    ended: "none",
    memory: "want of memory",
    serials: "want of memory",
    made: "ok",
    too_many: "too many",
    done: "ok",
    given_up: "ok",
    tells_given_back: false,
    stream: None,
};

fn listening(wording: &Wording, error: ListenError) -> Said {
    match error {
        ListenError::NoMemory => Said::Word(wording.memory),
        ListenError::SerialsUsedUp => Said::Word(wording.serials),
    }
}

/// What a poll says.
fn poll_said(wording: &Wording, reply: &Reply<u64>) -> Said {
    match reply {
        Reply::SendPoll(Poll::Ready(Ok(()))) => Said::Word(wording.sent),
        Reply::SendPoll(Poll::Ready(Err(Refused::Plain(SendError(msg))))) => {
            Said::Both("closed", *msg)
        }
        Reply::SendPoll(Poll::Ready(Err(_))) => Said::Word(wording.memory),
        Reply::RecvPoll(Poll::Ready(Ok(msg))) => Said::Both(wording.received, *msg),
        Reply::RecvPoll(Poll::Ready(Err(Refused::Plain(_)))) => Said::Word(wording.over),
        Reply::RecvPoll(Poll::Ready(Err(_))) => Said::Word(wording.memory),
        Reply::ClosedPoll(Poll::Ready(Ok(()))) => Said::Word("ready"),
        Reply::ClosedPoll(Poll::Ready(Err(error))) => listening(wording, *error),
        Reply::Next(Poll::Ready(Some(Ok(msg)))) => Said::Both(wording.next, *msg),
        Reply::Next(Poll::Ready(Some(Err(error)))) => listening(wording, *error),
        Reply::Next(Poll::Ready(None)) => Said::Word(wording.ended),
        _ => Said::Word("pending"),
    }
}

/// What a call of messages says, or a poll.
fn message_said(wording: &Wording, reply: &Reply<u64>) -> Said {
    match reply {
        Reply::TrySend(Ok(())) => Said::Word(wording.sent),
        Reply::TrySend(Err(Refused::Plain(TrySendError::Full(msg)))) => Said::Both("full", *msg),
        Reply::TrySend(Err(Refused::Plain(TrySendError::Closed(msg)))) => {
            Said::Both("closed", *msg)
        }
        Reply::TrySend(Err(_)) => Said::Word(wording.memory),
        Reply::ForceSend(Ok(None)) => Said::Word(wording.sent),
        Reply::ForceSend(Ok(Some(msg))) => Said::Both(wording.displaced, *msg),
        Reply::ForceSend(Err(Refused::Plain(SendError(msg)))) => Said::Both("closed", *msg),
        Reply::ForceSend(Err(_)) => Said::Word(wording.memory),
        Reply::TryRecv(Ok(msg)) => Said::Both(wording.received, *msg),
        Reply::TryRecv(Err(TryRecvError::Empty)) => Said::Word("empty"),
        Reply::TryRecv(Err(TryRecvError::Closed)) => Said::Word(wording.over),
        reply => poll_said(wording, reply),
    }
}

/// What giving up says, which gives back this message.
fn given_up(wording: &Wording, back: Option<u64>) -> Said {
    match back {
        Some(msg) if wording.tells_given_back => Said::Both(wording.given_up, msg),
        _ => Said::Word(wording.given_up),
    }
}

/// What a reply says that has one message at most.
fn reply_said(wording: &Wording, reply: &Reply<u64>) -> Said {
    match reply {
        Reply::Made => Said::Word(wording.made),
        Reply::NotMade => Said::Word("none"),
        Reply::TooMany => Said::Word(wording.too_many),
        Reply::Closed(flag) => Said::flag(*flag),
        Reply::Flag(flag) => Said::flag(*flag),
        Reply::Count(count) => Said::count(*count),
        Reply::Cap(None) => Said::Word("none"),
        Reply::Cap(Some(capacity)) => Said::count(*capacity),
        Reply::GivenUp(back) => given_up(wording, *back),
        Reply::Unit => Said::Word(wording.done),
        Reply::RecvMany(Err(Refused::Plain(TryRecvError::Empty))) => Said::Word("empty"),
        Reply::RecvMany(Err(Refused::Plain(TryRecvError::Closed))) => Said::Word(wording.over),
        Reply::RecvMany(Err(_)) => Said::Word(wording.memory),
        reply => message_said(wording, reply),
    }
}

/// Writes what a reply says.
pub(crate) fn write_reply(
    wording: &Wording,
    reply: &Reply<u64>,
    answer: &mut String,
) -> Result<(), AllocError> {
    match reply {
        Reply::RecvMany(Ok(messages)) => {
            Said::Word(wording.received).write(answer)?;
            for message in messages.as_slice().iter() {
                Said::Number(*message).write(answer)?;
            }
            Ok(())
        }
        reply => reply_said(wording, reply).write(answer),
    }
}

/// The name of whoever waits.
pub(crate) fn waiter_said(wording: &Wording, waiter: Waiter) -> Said {
    match waiter {
        Waiter::Op(op) => Said::Number(u64::from(op.0)),
        Waiter::Stream(receiver) => match wording.stream {
            Some(word) => Said::Both(word, u64::from(receiver.0)),
            None => Said::Number(u64::from(receiver.0)),
        },
    }
}

/// Writes those who were woken, if somebody was.
pub(crate) fn write_woken(
    wording: &Wording,
    woken: &[Waiter],
    answer: &mut String,
) -> Result<(), AllocError> {
    if !woken.is_empty() {
        Said::Word("wakes").write(answer)?;
    }
    for waiter in woken.iter() {
        waiter_said(wording, *waiter).write(answer)?;
    }
    Ok(())
}

fn refusal_name(why: WorldRefusal) -> &'static str {
    match why {
        WorldRefusal::Busy => "busy",
        WorldRefusal::Idle => "idle",
        WorldRefusal::UnknownName => "unknown_name",
        WorldRefusal::NameTaken => "name_taken",
        WorldRefusal::OpUnderWay => "op_under_way",
        WorldRefusal::Borrowed => "borrowed",
        WorldRefusal::WrongKind => "wrong_kind",
        WorldRefusal::NoMemory => "memory",
    }
}

/// Writes how a list stopped of which so many entries were made and so many are left, if it did.
pub(crate) fn write_stop(
    stopped: Option<Stopped>,
    made: usize,
    left: usize,
    answer: &mut String,
) -> Result<(), AllocError> {
    match stopped {
        Some(Stopped { place, why }) => {
            Said::Word("stopped").write(answer)?;
            Said::Both(refusal_name(why), place as u64).write(answer)?;
            Said::Both("after", made as u64).write(answer)?;
            Said::Both("left", left as u64).write(answer)
        }
        None if left != 0 => Said::Both("left", left as u64).write(answer),
        None => Ok(()),
    }
}
