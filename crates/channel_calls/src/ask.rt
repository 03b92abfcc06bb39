//! What a call of a channel is asked for, and its first step. An operation lends its call what it has, a listener's key or a message, and
//! the call returns it with its answer, so it is never in two places.

ghost use Rattle.std.specs.Prelude.{◌≡◌};
ghost use Rattle.channel_calls.specs.Asks.{asks_listener, begins, first, gives_up, is_refused, lent, woken};
ghost use Rattle.channel_calls.specs.Turns.{says};

use crate::reply::Reply;
use crate::several::Limit;
use crate::stage::{Closer, Ending, ListStep, Making, NextStep, Purpose, Side, WaitList, Waiting};
use crate::turn::{again, held_on, refused_reply, says};
use concurrent_queue::call::QueueAsk;
use event_listener::error::ListenError;
use event_listener::key::Key;
use futures::task::Poll;

/// What an unfinished send or receive lends to its poll: its listener, until the call answers and returns what the operation keeps. So an
/// operation is not polled twice at once.
#[derive(Clone, Copy)]
pub struct Loan {
    /// The listener that it holds.
    pub key: Option<Key>,
    /// Whether the poll asks this listener before it tries, as that of a stream does.
    pub asks_first: bool,
}

/// For a poll of an operation, which tries first.
pub fn lent(key: Option<Key>) -> Loan
    ensures { result ≡ lent key }
{
    Loan {
        key,
        asks_first: false,
    }
}

/// For a poll of a call that blocks its thread, which slept and has woken: it asks its listener first.
pub fn woken(key: Key) -> Loan
    ensures { result ≡ woken key }
{
    Loan {
        key: Some(key),
        asks_first: true,
    }
}

/// A call of a channel. A polled operation lends its call what it has: the key of the listener that it holds, a task to wake once it may go
/// on, the message of a send.
#[derive(Drop)]
pub enum ChannelAsk<T, W> {
    /// A send that doesn't wait.
    TrySend(T),
    /// A send that displaces the oldest message of a full channel.
    ForceSend(T),
    /// A receive that doesn't wait.
    TryRecv,
    /// A receive of several messages, at most so many, that doesn't wait for any.
    RecvMany(Limit),
    /// A call of `close`.
    Close,
    /// A poll of an unfinished send.
    PollSend(T, Loan, W),
    /// A poll of a send that has finished. It is pending, and nothing is changed.
    PollFinishedSend,
    /// A poll of an unfinished receive.
    PollRecv(Loan, W),
    /// A poll for the closing.
    PollClosed(Option<Key>, W),
    /// A poll of a receiver as a stream. It asks a listener that it holds before it tries the queue.
    PollNext(Option<Key>, W),
    /// A poll of an operation of this kind for which there was no copy of the waker: it drops the listener that it holds and is refused for
    /// memory. A send keeps its message.
    RefusePoll(WaitList, Option<T>, Option<Key>),
    /// Giving up an operation of this kind: it drops the listener that it holds and returns the message of an unfinished send.
    GiveUp(WaitList, Option<T>, Option<Key>),
    /// The drop of a sender. The last one closes.
    DropSender,
    /// The drop of a receiver, which may hold a listener as a stream. The last one closes, before that listener leaves.
    DropReceiver(Option<Key>),
    /// One more handle of this kind.
    CloneHandle(Side),
    /// A strong handle of this kind from a weak one.
    Upgrade(Side),
    /// How many strong handles of this kind live.
    HandleCount(Side),
    /// Whether the channel is closed.
    IsClosed,
    /// Whether it holds no message.
    IsEmpty,
    /// Whether it holds as many messages as its capacity.
    IsFull,
    /// How many messages it holds.
    Len,
    /// How many it can hold at most.
    Capacity,
    /// Whether a receiver got its last message: whether the channel is closed, and then whether it is empty.
    IsTerminated,
    /// Whether a send has finished, as its operation says. Nothing is touched.
    SendIsTerminated(bool),
    /// Whether two handles are of one channel, as their identities say. Nothing is touched.
    SameChannel(bool),
    /// Making an operation or a weak handle. Nothing is touched.
    Make,
    /// The drop of a weak handle. Nothing is touched.
    DropWeak,
}

/// A poll that asks its listener before it tries; without one it tries.
fn asks_listener<T, W>(waiting: Waiting<T>, key: Option<Key>, task: W) -> NextStep<T, W>
    ensures { result ≡ asks_listener waiting key task }
{
    match key {
        Some(key) => NextStep::Works(ListStep::Register(waiting, key, task)),
        None => again(waiting, None, task),
    }
}

/// A poll of a send or a receive.
fn begins<T, W>(waiting: Waiting<T>, loan: Loan, task: W) -> NextStep<T, W>
    ensures { result ≡ begins waiting loan task }
{
    if loan.asks_first {
        asks_listener(waiting, loan.key, task)
    } else {
        again(waiting, loan.key, task)
    }
}

/// A call that only answers: nothing is touched.
fn only_says<T, W>(reply: Reply<T>) -> NextStep<T, W>
    ensures { result ≡ NextStep.Works (ListStep.Leave (says reply)) }
{
    NextStep::Works(ListStep::Leave(says(reply)))
}

/// An operation is given up.
fn gives_up<T, W>(line: WaitList, message: Option<T>, key: Option<Key>) -> NextStep<T, W>
    ensures { result ≡ NextStep.Works (ListStep.Leave (gives_up line message key)) }
{
    NextStep::Works(ListStep::Leave(Ending {
        reply: Reply::GivenUp(message),
        message: None,
        held: held_on(line, key),
    }))
}

/// A poll is refused the copy of its waker.
fn is_refused<T, W>(line: WaitList, message: Option<T>, key: Option<Key>) -> NextStep<T, W>
    ensures { result ≡ NextStep.Works (ListStep.Leave (is_refused line message key)) }
{
    NextStep::Works(ListStep::Leave(Ending {
        reply: refused_reply(line, ListenError::NoMemory),
        message,
        held: held_on(line, key),
    }))
}

impl<T, W> ChannelAsk<T, W> {
    /// The call's first step. Only the call itself asks for it.
    #[inline(always)]
    pub(crate) fn first(self) -> NextStep<T, W>
        ensures { result ≡ first self }
    {
        match self {
            ChannelAsk::TrySend(message) => NextStep::Tries(
                QueueAsk::Push(message),
                Purpose::TrySend,
            ),
            ChannelAsk::ForceSend(message) => {
                NextStep::Tries(QueueAsk::ForcePush(message), Purpose::ForceSend)
            }
            ChannelAsk::TryRecv => NextStep::Tries(QueueAsk::Pop, Purpose::TryRecv),
            ChannelAsk::RecvMany(limit) => NextStep::Works(ListStep::TakeRoom(limit)),
            ChannelAsk::Close => NextStep::Tries(QueueAsk::Close, Purpose::Close(Closer::Call)),
            ChannelAsk::PollSend(message, loan, task) => begins(Waiting::Send(message), loan, task),
            ChannelAsk::PollFinishedSend => only_says(Reply::SendPoll(Poll::Pending)),
            ChannelAsk::PollRecv(loan, task) => begins(Waiting::Receive, loan, task),
            ChannelAsk::PollClosed(key, task) => again(Waiting::Closing, key, task),
            ChannelAsk::PollNext(key, task) => asks_listener(Waiting::Stream, key, task),
            ChannelAsk::RefusePoll(line, message, key) => is_refused(line, message, key),
            ChannelAsk::GiveUp(line, message, key) => gives_up(line, message, key),
            ChannelAsk::DropSender => NextStep::Works(ListStep::Lower(Side::Senders, None)),
            ChannelAsk::DropReceiver(key) => NextStep::Works(ListStep::Lower(Side::Receivers, key)),
            ChannelAsk::CloneHandle(side) => NextStep::Works(ListStep::Load(side, Making::Clone)),
            ChannelAsk::Upgrade(side) => NextStep::Tries(
                QueueAsk::IsClosed,
                Purpose::Upgrade(side),
            ),
            ChannelAsk::HandleCount(side) => NextStep::Works(ListStep::Count(side)),
            ChannelAsk::IsClosed => NextStep::Tries(QueueAsk::IsClosed, Purpose::Ask),
            ChannelAsk::IsEmpty => NextStep::Tries(QueueAsk::IsEmpty, Purpose::Ask),
            ChannelAsk::IsFull => NextStep::Tries(QueueAsk::IsFull, Purpose::Ask),
            ChannelAsk::Len => NextStep::Tries(QueueAsk::Len, Purpose::Ask),
            ChannelAsk::Capacity => NextStep::Tries(QueueAsk::Capacity, Purpose::Ask),
            ChannelAsk::IsTerminated => NextStep::Tries(QueueAsk::IsClosed, Purpose::IsTerminated),
            ChannelAsk::SendIsTerminated(finished) => only_says(Reply::Flag(finished)),
            ChannelAsk::SameChannel(same) => only_says(Reply::Flag(same)),
            ChannelAsk::Make => only_says(Reply::Made),
            ChannelAsk::DropWeak => only_says(Reply::Unit),
        }
    }
}
