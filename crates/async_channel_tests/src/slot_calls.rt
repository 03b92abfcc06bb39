//! Calls of a channel as lines name them, and their replies as lines say them.

use channel_calls::ask::{ChannelAsk, lent};
use channel_calls::error::{Refused, TrySendError};
use channel_calls::reply::Reply;
use channel_calls::stage;
use channel_calls::stage::{Side, WaitList};
use event_listener::key::Key;
use futures::task::Poll;
use worked_rows::{Said, Words};

/// What operations keep, by their numbers: listeners, and the messages of unfinished sends.
#[derive(Clone, Copy)]
pub(crate) struct Kept {
    keys: [Option<Key>; 8],
    messages: [Option<u64>; 8],
}

impl Kept {
    pub(crate) fn nothing() -> Kept {
        Kept {
            keys: [None; 8],
            messages: [None; 8],
        }
    }

    fn key(&self, op: u32) -> Option<Key> {
        self.keys[op as usize % 8]
    }

    fn message(&self, op: u32) -> Option<u64> {
        self.messages[op as usize % 8]
    }

    /// What a call leaves to this operation: whether that is a listener.
    pub(crate) fn keep(&mut self, op: u32, kept: stage::Returned<u64>) -> bool {
        self.keys[op as usize % 8] = kept.key;
        self.messages[op as usize % 8] = kept.message;
        kept.key.is_some()
    }
}

/// A call of an operation, which is named first; none is 0.
fn ask_of_operation(
    verb: &str,
    words: &mut Words<'_>,
    kept: &Kept,
) -> Option<(u32, ChannelAsk<u64, u32>)> {
    let op = words.small();
    let key = kept.key(op);
    let ask = match verb {
        "poll_send" => ChannelAsk::PollSend(words.number(), lent(key), op),
        "poll_recv" => ChannelAsk::PollRecv(lent(key), op),
        "poll_next" => ChannelAsk::PollNext(key, op),
        "poll_closed" => ChannelAsk::PollClosed(key, op),
        "refuse_recv" => ChannelAsk::RefusePoll(WaitList::Receives, None, key),
        "give_up_send" => ChannelAsk::GiveUp(WaitList::Sends, kept.message(op), key),
        _ => return None,
    };
    Some((op, ask))
}

/// The call that a line names, with its operation.
pub(crate) fn ask_of(
    verb: &str,
    words: &mut Words<'_>,
    kept: &Kept,
) -> Option<(u32, ChannelAsk<u64, u32>)> {
    let ask = match verb {
        "try_send" => ChannelAsk::TrySend(words.number()),
        "force_send" => ChannelAsk::ForceSend(words.number()),
        "try_recv" => ChannelAsk::TryRecv,
        "clone_receiver" => ChannelAsk::CloneHandle(Side::Receivers),
        "count_receivers" => ChannelAsk::HandleCount(Side::Receivers),
        "drop_sender" => ChannelAsk::DropSender,
        "upgrade_receiver" => ChannelAsk::Upgrade(Side::Receivers),
        "is_terminated" => ChannelAsk::IsTerminated,
        _ => return ask_of_operation(verb, words, kept),
    };
    Some((0, ask))
}

/// What a poll says.
fn poll_said(reply: &Reply<u64>) -> Said {
    match reply {
        Reply::SendPoll(Poll::Ready(Ok(()))) => Said::Word("sent"),
        Reply::RecvPoll(Poll::Ready(Ok(message))) => Said::Both("received", *message),
        Reply::RecvPoll(Poll::Ready(Err(Refused::NoMemory(())))) => Said::Word("memory"),
        Reply::ClosedPoll(Poll::Ready(Ok(()))) => Said::Word("ready"),
        Reply::Next(Poll::Ready(Some(Ok(message)))) => Said::Both("received", *message),
        Reply::SendPoll(Poll::Pending) => Said::Word("pending"),
        Reply::RecvPoll(Poll::Pending) => Said::Word("pending"),
        Reply::ClosedPoll(Poll::Pending) => Said::Word("pending"),
        Reply::Next(Poll::Pending) => Said::Word("pending"),
        _ => Said::Word("something else"),
    }
}

/// What a reply says.
pub(crate) fn said_of(reply: &Reply<u64>) -> Said {
    match reply {
        Reply::TrySend(Ok(())) => Said::Word("sent"),
        Reply::TrySend(Err(Refused::Plain(TrySendError::Closed(message)))) => {
            Said::Both("closed", *message)
        }
        Reply::ForceSend(Ok(None)) => Said::Word("sent"),
        Reply::TryRecv(Ok(message)) => Said::Both("received", *message),
        Reply::GivenUp(Some(message)) => Said::Both("given_up", *message),
        Reply::Made => Said::Word("made"),
        Reply::NotMade => Said::Word("none"),
        Reply::Count(count) => Said::count(*count),
        Reply::Flag(flag) => Said::flag(*flag),
        Reply::Unit => Said::Word("done"),
        _ => poll_said(reply),
    }
}
