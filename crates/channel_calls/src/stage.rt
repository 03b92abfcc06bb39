//! The program counter of a call of a channel (`Stage`), with what the call holds: its call of the queue, a message, a listener's key, a task.

use crate::reply::Reply;
use crate::several::{Gathering, Limit};
use concurrent_queue::call::QueueAsk;
use event_listener::key::Key;

/// One of a channel's four wait queues, and so one of the four kinds of waiting operations.
#[derive(Clone, Copy, PartialEq, Eq, Debug)]
pub enum WaitList {
    /// Sends, which wait for a free place.
    Sends,
    /// Receives, which wait for a message.
    Receives,
    /// Receivers polled as streams, which wait for a message.
    Streams,
    /// Operations that wait for the channel's closing.
    Closings,
}

/// Which of the listeners that wait on a list, and were not told before, a notification tells.
#[derive(Clone, Copy, PartialEq, Eq, Debug)]
pub enum Telling {
    /// The one that has waited longest.
    One,
    /// So many of them, those that have waited longest first.
    More(usize),
    /// All of them.
    All,
}

/// One of the two kinds of strong handles, each with its count.
#[derive(Clone, Copy, PartialEq, Eq, Debug)]
pub enum Side {
    /// Senders.
    Senders,
    /// Receivers.
    Receivers,
}

/// A listener that an operation holds.
#[derive(Clone, Copy, PartialEq, Eq, Debug)]
pub struct ListenerRef {
    /// The list that it is on.
    pub line: WaitList,
    /// Its name there.
    pub key: Key,
}

/// How a call ends once it has notified: it drops the listener that it still holds, and answers.
#[derive(Drop)]
pub struct Ending<T> {
    /// What it answers.
    pub reply: Reply<T>,
    /// The message that stays with a send.
    pub message: Option<T>,
    /// The listener to be dropped.
    pub held: Option<ListenerRef>,
}

/// What a call that has answered leaves to its operation.
#[derive(Drop)]
pub struct Returned<T> {
    /// The listener of an operation that is pending.
    pub key: Option<Key>,
    /// The message of a send that isn't finished.
    pub message: Option<T>,
}

/// Which call closes, and so what is answered and dropped at the end.
#[derive(Clone, Copy, PartialEq, Eq, Debug)]
pub enum Closer {
    /// A call of `close`.
    Call,
    /// The drop of the last sender.
    Sender,
    /// The drop of the last receiver, which may hold a listener as a stream.
    Receiver(Option<Key>),
}

/// A waiting operation, with the message that a send brings.
#[derive(Drop)]
pub enum Waiting<T> {
    /// A send of this message.
    Send(T),
    /// A receive.
    Receive,
    /// A receiver polled as a stream.
    Stream,
    /// A wait for the closing.
    Closing,
}

/// Why a count is raised.
#[derive(Clone, Copy, PartialEq, Eq, Debug)]
pub enum Making {
    /// A strong handle is cloned.
    Clone,
    /// A weak handle is upgraded.
    Upgrade,
}

/// What a call of the queue is made for.
#[derive(Drop)]
pub enum Purpose<T, W> {
    /// A send that doesn't wait.
    TrySend,
    /// A send that displaces.
    ForceSend,
    /// A receive that doesn't wait.
    TryRecv,
    /// A receive of several messages that doesn't wait: those that it has, and how many more it may take.
    RecvMany(Gathering<T>),
    /// A try of a polled operation of this kind, which may hold a listener, and its task.
    Poll(WaitList, Option<Key>, W),
    /// A closing.
    Close(Closer),
    /// A question that the queue's answer answers.
    Ask,
    /// Whether a receiver has got its last message: it asks for closed first, then for empty.
    IsTerminated,
    /// Whether a weak handle of this kind may still be upgraded.
    Upgrade(Side),
}

/// A step on a list or on a count that is made next, and why.
#[derive(Drop)]
pub enum ListStep<T, W> {
    /// A message is in: notify one more receive; the streams come next.
    TellReceive(Ending<T>),
    /// Notify all streams.
    TellStreams(Ending<T>),
    /// A message is taken: notify one more send.
    TellSend(Ending<T>),
    /// So many messages are taken: notify as many more sends.
    TellSends(usize, Ending<T>),
    /// Reserve room for as many messages as are wanted at most.
    TakeRoom(Limit),
    /// The channel is closed: notify all of this list, then those of the later lists.
    TellAll(WaitList, Closer),
    /// An operation that was refused listens, and tries again.
    Insert(Waiting<T>, W),
    /// An operation that was refused asks its listener: if that was told, it tries again; otherwise its poll ends pending.
    Register(Waiting<T>, Key, W),
    /// Drop the listener that is still held, and answer.
    Leave(Ending<T>),
    /// Drop a strong handle of this kind; a receiver may hold a listener as a stream.
    Lower(Side, Option<Key>),
    /// Load a count, for a question.
    Count(Side),
    /// Load a count that is to be raised.
    Load(Side, Making),
    /// Raise a count by one, if it is still this one.
    Raise(Side, usize, Making),
}

/// The program counter of a call. `Q` is its call of the queue that is under way.
#[derive(Drop)]
pub enum Stage<Q, T, W> {
    /// The next step is one of the queue's call.
    Trying(Q, Purpose<T, W>),
    /// The next step is one on a list or a count.
    Working(ListStep<T, W>),
    /// The call has answered.
    Finished(Returned<T>),
}

/// What comes after a step on a list or a count, or after an answer of the queue.
#[derive(Drop)]
pub enum NextStep<T, W> {
    /// A new call of the queue.
    Tries(QueueAsk<T>, Purpose<T, W>),
    /// A step on a list or a count.
    Works(ListStep<T, W>),
    /// The answer.
    Ends(Reply<T>, Returned<T>),
}
