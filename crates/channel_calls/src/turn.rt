//! What comes after each step of a call on a list or on a count. These functions touch no cell.

ghost use Rattle.std.specs.Prelude.{◌≡◌, nat_lt};
ghost use Rattle.channel_calls.specs.Turns.{most, line_of, message_of, ask_of, nothing_kept, says, held_on, ends_by, again, refused_next, pending_reply, pends_by, want, refused_reply, unlistened, closer_ending, dropper, told_all_next, TakesRoom, lowered_next, loaded_next, raised_next};

use crate::error::Refused;
use crate::reply::Reply;
use crate::several::Limit;
use crate::stage::{
    Closer, Ending, ListStep, ListenerRef, Making, NextStep, Purpose, Returned, Side, WaitList,
    Waiting,
};
use concurrent_queue::call::QueueAsk;
use event_listener::error::ListenError;
use event_listener::key::Key;
use futures::task::Poll;

/// A count greater than this isn't raised.
const MOST: usize = usize::MAX / 2;

impl<T> Waiting<T> {
    /// The list on which the operation waits.
    pub(crate) fn line(&self) -> WaitList
        ensures { result ≡ line_of self.now }
    {
        match self {
            Waiting::Send(_) => WaitList::Sends,
            Waiting::Receive => WaitList::Receives,
            Waiting::Stream => WaitList::Streams,
            Waiting::Closing => WaitList::Closings,
        }
    }

    /// The message of a send.
    pub(crate) fn message(self) -> Option<T>
        ensures { result ≡ message_of self }
    {
        match self {
            Waiting::Send(message) => Some(message),
            Waiting::Receive => None,
            Waiting::Stream => None,
            Waiting::Closing => None,
        }
    }

    /// What a try asks of the queue.
    pub(crate) fn ask(self) -> QueueAsk<T>
        ensures { result ≡ ask_of self }
    {
        match self {
            Waiting::Send(message) => QueueAsk::Push(message),
            Waiting::Receive => QueueAsk::Pop,
            Waiting::Stream => QueueAsk::Pop,
            Waiting::Closing => QueueAsk::IsClosed,
        }
    }
}

impl<T> Returned<T> {
    /// A call that leaves nothing to its operation.
    pub(crate) fn nothing() -> Returned<T>
        ensures { result ≡ nothing_kept }
    {
        Returned {
            key: None,
            message: None,
        }
    }
}

/// The end of a call that holds no listener and keeps no message.
#[inline(always)]
pub(crate) fn says<T>(reply: Reply<T>) -> Ending<T>
    ensures { result ≡ says reply }
{
    Ending {
        reply,
        message: None,
        held: None,
    }
}

/// The listener under this key on this list, if there is one.
pub(crate) fn held_on(line: WaitList, key: Option<Key>) -> Option<ListenerRef>
    ensures { result ≡ held_on line key }
{
    match key {
        None => None,
        Some(key) => Some(ListenerRef { line, key }),
    }
}

/// The call answers; if it holds a listener it drops that first.
#[inline(always)]
pub(crate) fn ends_by<T, W>(ending: Ending<T>) -> NextStep<T, W>
    ensures { result ≡ ends_by ending }
{
    match ending.held {
        None => NextStep::Ends(
            ending.reply,
            Returned {
                key: None,
                message: ending.message,
            },
        ),
        Some(_) => NextStep::Works(ListStep::Leave(ending)),
    }
}

/// A poll tries once more.
pub(crate) fn again<T, W>(waiting: Waiting<T>, key: Option<Key>, task: W) -> NextStep<T, W>
    ensures { result ≡ again waiting key task }
{
    let line = waiting.line();
    NextStep::Tries(waiting.ask(), Purpose::Poll(line, key, task))
}

/// A poll was refused by the channel: it listens, or asks the listener that it holds.
pub(crate) fn refused_next<T, W>(waiting: Waiting<T>, key: Option<Key>, task: W) -> NextStep<T, W>
    ensures { result ≡ refused_next waiting key task }
{
    match key {
        None => NextStep::Works(ListStep::Insert(waiting, task)),
        Some(key) => NextStep::Works(ListStep::Register(waiting, key, task)),
    }
}

/// What a poll of this kind answers while it waits.
fn pending_reply<T>(line: WaitList) -> Reply<T>
    ensures { result ≡ pending_reply line }
{
    match line {
        WaitList::Sends => Reply::SendPoll(Poll::Pending),
        WaitList::Receives => Reply::RecvPoll(Poll::Pending),
        WaitList::Streams => Reply::Next(Poll::Pending),
        WaitList::Closings => Reply::ClosedPoll(Poll::Pending),
    }
}

/// A poll ends pending: its operation keeps its listener, and its message.
pub(crate) fn pends_by<T, W>(waiting: Waiting<T>, key: Key) -> NextStep<T, W>
    ensures { result ≡ pends_by waiting key }
{
    let reply = pending_reply(waiting.line());
    NextStep::Ends(
        reply,
        Returned {
            key: Some(key),
            message: waiting.message(),
        },
    )
}

/// A refusal for want of memory or of serials, which returns nothing.
fn want<E>(error: ListenError) -> Refused<E>
    ensures { result ≡ want error }
{
    match error {
        ListenError::NoMemory => Refused::NoMemory(()),
        ListenError::SerialsUsedUp => Refused::SerialsUsedUp(()),
    }
}

/// What a poll of this kind answers if memory or a serial was refused.
pub(crate) fn refused_reply<T>(line: WaitList, error: ListenError) -> Reply<T>
    ensures { result ≡ refused_reply line error }
{
    match line {
        WaitList::Sends => Reply::SendPoll(Poll::Ready(Err(want(error)))),
        WaitList::Receives => Reply::RecvPoll(Poll::Ready(Err(want(error)))),
        WaitList::Streams => Reply::Next(Poll::Ready(Some(Err(error)))),
        WaitList::Closings => Reply::ClosedPoll(Poll::Ready(Err(error))),
    }
}

/// A poll that couldn't listen ends: its operation is not pending, and keeps its message.
pub(crate) fn unlistened<T, W>(waiting: Waiting<T>, error: ListenError) -> NextStep<T, W>
    ensures { result ≡ unlistened waiting error }
{
    let reply = refused_reply(waiting.line(), error);
    NextStep::Ends(
        reply,
        Returned {
            key: None,
            message: waiting.message(),
        },
    )
}

/// How a closing ends; `closed` is whether this call closed the channel.
pub(crate) fn closer_ending<T>(closer: Closer, closed: bool) -> Ending<T>
    ensures { result ≡ closer_ending closer closed }
{
    match closer {
        Closer::Call => says(Reply::Closed(closed)),
        Closer::Sender => says(Reply::Unit),
        Closer::Receiver(key) => Ending {
            reply: Reply::Unit,
            message: None,
            held: held_on(WaitList::Streams, key),
        },
    }
}

/// A closing notifies sends, receives, streams and closings, in this order.
pub(crate) fn told_all_next<T, W>(line: WaitList, closer: Closer) -> NextStep<T, W>
    ensures { result ≡ told_all_next line closer }
{
    match line {
        WaitList::Sends => NextStep::Works(ListStep::TellAll(WaitList::Receives, closer)),
        WaitList::Receives => NextStep::Works(ListStep::TellAll(WaitList::Streams, closer)),
        WaitList::Streams => NextStep::Works(ListStep::TellAll(WaitList::Closings, closer)),
        WaitList::Closings => ends_by(closer_ending(closer, true)),
    }
}

/// Which call closes if the last handle of this kind is dropped.
pub(crate) fn dropper(side: Side, key: Option<Key>) -> Closer
    ensures { result ≡ dropper side key }
{
    match side {
        Side::Senders => Closer::Sender,
        Side::Receivers => Closer::Receiver(key),
    }
}

/// A handle was dropped; `before` is the count that the drop found. The last one closes.
pub(crate) fn lowered_next<T, W>(side: Side, key: Option<Key>, before: usize) -> NextStep<T, W>
    ensures { result ≡ lowered_next side key before }
{
    let closer = dropper(side, key);
    // Only one drop finds 1, and no count is raised from 0: the last handle closes, once.
    if before == 1 {
        NextStep::Tries(QueueAsk::Close, Purpose::Close(closer))
    } else {
        ends_by(closer_ending(closer, false))
    }
}

/// Room is reserved for as many messages as are wanted at most, and the first one is tried for. If none is wanted, none is taken.
pub(crate) fn room_next<T: Drop, W>(limit: Limit) -> NextStep<T, W>
    ensures { TakesRoom limit result }
{
    if limit.is_zero() {
        return ends_by(says(Reply::RecvMany(Ok(limit.nothing()))));
    }
    // Room before the first message: what was taken must not be lost for want of memory.
    match limit.room() {
        Some(gathering) => NextStep::Tries(QueueAsk::Pop, Purpose::RecvMany(gathering)),
        None => ends_by(says(Reply::RecvMany(Err(Refused::NoMemory(()))))),
    }
}

/// Whether the count is above the limit of half of `usize::MAX`, so that no handle may be added.
#[inline(always)]
pub(crate) fn is_too_many(count: usize) -> bool
    ensures { result ≡ nat_lt most count }
{
    count > MOST
}

/// A count was read that is to be raised.
pub(crate) fn loaded_next<T, W>(side: Side, making: Making, count: usize) -> NextStep<T, W>
    ensures { result ≡ loaded_next side making count }
{
    // An upgrade raises no count from 0: the last handle is gone, and its drop closes the channel.
    if making == Making::Upgrade && count == 0 {
        return NextStep::Ends(Reply::NotMade, Returned::nothing());
    }
    if is_too_many(count) {
        return NextStep::Ends(Reply::TooMany, Returned::nothing());
    }
    NextStep::Works(ListStep::Raise(side, count, making))
}

/// A count was raised; or another call came between, and the count is read again.
pub(crate) fn raised_next<T, W>(side: Side, making: Making, raised: bool) -> NextStep<T, W>
    ensures { result ≡ raised_next side making raised }
{
    if raised {
        NextStep::Ends(Reply::Made, Returned::nothing())
    } else {
        NextStep::Works(ListStep::Load(side, making))
    }
}
