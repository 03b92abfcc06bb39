//! What comes after each answer of a channel's queue. These functions touch no cell. The order that they keep: whatever a call changed in
//! the queue comes first, then its notifications, and last the removal of its own listener.

ghost use Rattle.std.specs.Prelude.{◌≡◌};
ghost use Rattle.channel_calls.specs.Several.{with_one};
ghost use Rattle.channel_calls.specs.Answered.{lost, sent_next, forced_next, received_next, hands_out, gathered_next, short_next, several_next, send_next, receive_next, stream_next, closing_next, polled_next, closed_next, asked_next, terminated_next, upgraded_next, answered_next};

use crate::error::{RecvError, Refused, SendError, TryRecvError, TrySendError};
use crate::reply::Reply;
use crate::several::{Gathering, Messages};
use crate::stage::{
    Closer, Ending, ListStep, Making, NextStep, Purpose, Returned, Side, WaitList, Waiting,
};
use crate::turn::{closer_ending, ends_by, held_on, refused_next, says};
use concurrent_queue::call::{QueueAsk, QueueReply};
use concurrent_queue::error::{ForcePushError, PopError, PushError};
use event_listener::key::Key;
use futures::task::Poll;

/// The queue answers each call in its own kind, so this is never reached if its contents are known.
fn lost<T, W>() -> NextStep<T, W>
    ensures { result ≡ lost }
{
    NextStep::Ends(Reply::Unit, Returned::nothing())
}

/// A send that doesn't wait.
#[inline(always)]
pub(crate) fn sent_next<T: Drop, W>(answer: QueueReply<T>) -> NextStep<T, W>
    ensures { result ≡ sent_next answer }
{
    match answer {
        // The message is in: only now a receive is notified.
        QueueReply::Push(Ok(())) => NextStep::Works(ListStep::TellReceive(says(Reply::TrySend(Ok(
            (),
        ))))),
        QueueReply::Push(Err(PushError::Full(message))) => {
            let error = Refused::Plain(TrySendError::Full(message));
            ends_by(says(Reply::TrySend(Err(error))))
        }
        QueueReply::Push(Err(PushError::Closed(message))) => {
            let error = Refused::Plain(TrySendError::Closed(message));
            ends_by(says(Reply::TrySend(Err(error))))
        }
        QueueReply::Push(Err(PushError::NoMemory(message))) => {
            ends_by(says(Reply::TrySend(Err(Refused::NoMemory(message)))))
        }
        _ => lost(),
    }
}

/// A send that displaces. It notifies no send, since it frees no place.
#[inline(always)]
pub(crate) fn forced_next<T: Drop, W>(answer: QueueReply<T>) -> NextStep<T, W>
    ensures { result ≡ forced_next answer }
{
    match answer {
        QueueReply::Force(Ok(displaced)) => {
            NextStep::Works(ListStep::TellReceive(says(Reply::ForceSend(Ok(displaced)))))
        }
        QueueReply::Force(Err(ForcePushError::Closed(message))) => {
            let error = Refused::Plain(SendError(message));
            ends_by(says(Reply::ForceSend(Err(error))))
        }
        QueueReply::Force(Err(ForcePushError::NoMemory(message))) => {
            ends_by(says(Reply::ForceSend(Err(Refused::NoMemory(message)))))
        }
        _ => lost(),
    }
}

/// A receive that doesn't wait.
#[inline(always)]
pub(crate) fn received_next<T: Drop, W>(answer: QueueReply<T>) -> NextStep<T, W>
    ensures { result ≡ received_next answer }
{
    match answer {
        // The place is free: only now a send is notified.
        QueueReply::Pop(Ok(message)) => {
            NextStep::Works(ListStep::TellSend(says(Reply::TryRecv(Ok(message)))))
        }
        QueueReply::Pop(Err(PopError::Empty)) => {
            ends_by(says(Reply::TryRecv(Err(TryRecvError::Empty))))
        }
        QueueReply::Pop(Err(PopError::Closed)) => {
            ends_by(says(Reply::TryRecv(Err(TryRecvError::Closed))))
        }
        _ => lost(),
    }
}

/// Returns several messages, and notifies as many more sends.
fn hands_out<T: Drop, W>(messages: Messages<T>) -> NextStep<T, W>
    ensures { result ≡ hands_out messages }
{
    let count = messages.as_slice().len();
    NextStep::Works(ListStep::TellSends(count, says(Reply::RecvMany(Ok(messages)))))
}

/// One more of several messages was taken: try for the next one, or return all.
fn gathered_next<T: Drop, W>(gathering: Gathering<T>, message: T) -> NextStep<T, W>
    ensures { result ≡ gathered_next (with_one gathering message) }
{
    match gathering.with(message) {
        Ok(gathering) => NextStep::Tries(QueueAsk::Pop, Purpose::RecvMany(gathering)),
        Err(messages) => hands_out(messages),
    }
}

/// There is no further message: return those that were taken, or this answer.
fn short_next<T: Drop, W>(gathering: Gathering<T>, error: TryRecvError) -> NextStep<T, W>
    ensures { result ≡ short_next gathering.taken error }
{
    if gathering.is_empty() {
        drop(gathering);
        return ends_by(says(Reply::RecvMany(Err(Refused::Plain(error)))));
    }
    hands_out(gathering.into_messages())
}

/// A receive of several messages that doesn't wait.
fn several_next<T: Drop, W>(answer: QueueReply<T>, gathering: Gathering<T>) -> NextStep<T, W>
    ensures { result ≡ several_next answer gathering }
{
    match answer {
        QueueReply::Pop(Ok(message)) => gathered_next(gathering, message),
        QueueReply::Pop(Err(PopError::Empty)) => short_next(gathering, TryRecvError::Empty),
        QueueReply::Pop(Err(PopError::Closed)) => short_next(gathering, TryRecvError::Closed),
        _ => lost(),
    }
}

/// A try of a polled send. A message that a closed channel refused is in the error; one for which there was no memory stays with the send.
///
/// A poll that ends drops its listener as the last step, behind its own notifications.
pub(crate) fn send_next<T: Drop, W: Drop>(
    answer: QueueReply<T>,
    key: Option<Key>,
    task: W,
) -> NextStep<T, W>
    ensures { result ≡ send_next answer key task }
{
    let held = held_on(WaitList::Sends, key);
    match answer {
        QueueReply::Push(Ok(())) => NextStep::Works(ListStep::TellReceive(Ending {
            reply: Reply::SendPoll(Poll::Ready(Ok(()))),
            message: None,
            held,
        })),
        QueueReply::Push(Err(PushError::Full(message))) => {
            refused_next(Waiting::Send(message), key, task)
        }
        QueueReply::Push(Err(PushError::Closed(message))) => ends_by(Ending {
            reply: Reply::SendPoll(Poll::Ready(Err(Refused::Plain(SendError(message))))),
            message: None,
            held,
        }),
        QueueReply::Push(Err(PushError::NoMemory(message))) => ends_by(Ending {
            reply: Reply::SendPoll(Poll::Ready(Err(Refused::NoMemory(())))),
            message: Some(message),
            held,
        }),
        _ => lost(),
    }
}

/// A try of a polled receive.
pub(crate) fn receive_next<T: Drop, W: Drop>(
    answer: QueueReply<T>,
    key: Option<Key>,
    task: W,
) -> NextStep<T, W>
    ensures { result ≡ receive_next answer key task }
{
    let held = held_on(WaitList::Receives, key);
    match answer {
        QueueReply::Pop(Ok(message)) => NextStep::Works(ListStep::TellSend(Ending {
            reply: Reply::RecvPoll(Poll::Ready(Ok(message))),
            message: None,
            held,
        })),
        QueueReply::Pop(Err(PopError::Empty)) => refused_next(Waiting::Receive, key, task),
        QueueReply::Pop(Err(PopError::Closed)) => ends_by(Ending {
            reply: Reply::RecvPoll(Poll::Ready(Err(Refused::Plain(RecvError)))),
            message: None,
            held,
        }),
        _ => lost(),
    }
}

/// A try of a polled stream.
pub(crate) fn stream_next<T: Drop, W: Drop>(
    answer: QueueReply<T>,
    key: Option<Key>,
    task: W,
) -> NextStep<T, W>
    ensures { result ≡ stream_next answer key task }
{
    let held = held_on(WaitList::Streams, key);
    match answer {
        QueueReply::Pop(Ok(message)) => NextStep::Works(ListStep::TellSend(Ending {
            reply: Reply::Next(Poll::Ready(Some(Ok(message)))),
            message: None,
            held,
        })),
        QueueReply::Pop(Err(PopError::Empty)) => refused_next(Waiting::Stream, key, task),
        QueueReply::Pop(Err(PopError::Closed)) => ends_by(Ending {
            reply: Reply::Next(Poll::Ready(None)),
            message: None,
            held,
        }),
        _ => lost(),
    }
}

/// A try of a polled wait for the closing.
fn closing_next<T: Drop, W: Drop>(
    answer: QueueReply<T>,
    key: Option<Key>,
    task: W,
) -> NextStep<T, W>
    ensures { result ≡ closing_next answer key task }
{
    match answer {
        QueueReply::Flag(true) => ends_by(Ending {
            reply: Reply::ClosedPoll(Poll::Ready(Ok(()))),
            message: None,
            held: held_on(WaitList::Closings, key),
        }),
        QueueReply::Flag(false) => refused_next(Waiting::Closing, key, task),
        _ => lost(),
    }
}

/// A try of a polled operation of this kind.
#[inline(always)]
fn polled_next<T: Drop, W: Drop>(
    line: WaitList,
    answer: QueueReply<T>,
    key: Option<Key>,
    task: W,
) -> NextStep<T, W>
    ensures { result ≡ polled_next line answer key task }
{
    match line {
        WaitList::Sends => send_next(answer, key, task),
        WaitList::Receives => receive_next(answer, key, task),
        WaitList::Streams => stream_next(answer, key, task),
        WaitList::Closings => closing_next(answer, key, task),
    }
}

/// A closing: it notifies all only if this call closed the channel.
fn closed_next<T: Drop, W>(answer: QueueReply<T>, closer: Closer) -> NextStep<T, W>
    ensures { result ≡ closed_next answer closer }
{
    match answer {
        // Only the call that set the mark notifies; until it has, it is the one in flight that owes the waiters their wake-up.
        QueueReply::Close(true) => NextStep::Works(ListStep::TellAll(WaitList::Sends, closer)),
        QueueReply::Close(false) => ends_by(closer_ending(closer, false)),
        _ => lost(),
    }
}

/// A question.
#[inline(always)]
pub(crate) fn asked_next<T: Drop, W>(answer: QueueReply<T>) -> NextStep<T, W>
    ensures { result ≡ asked_next answer }
{
    match answer {
        QueueReply::Flag(flag) => ends_by(says(Reply::Flag(flag))),
        QueueReply::Count(count) => ends_by(says(Reply::Count(count))),
        QueueReply::Cap(capacity) => ends_by(says(Reply::Cap(capacity))),
        _ => lost(),
    }
}

/// Whether a receiver has got its last message: an open channel may get more, a closed one is asked whether it is empty.
fn terminated_next<T: Drop, W>(answer: QueueReply<T>) -> NextStep<T, W>
    ensures { result ≡ terminated_next answer }
{
    match answer {
        // Closed first: nothing comes in after that, so an empty channel stays empty. In the other order a message could come in between.
        QueueReply::Flag(true) => NextStep::Tries(QueueAsk::IsEmpty, Purpose::Ask),
        QueueReply::Flag(false) => ends_by(says(Reply::Flag(false))),
        _ => lost(),
    }
}

/// An upgrade: none on a closed channel.
fn upgraded_next<T: Drop, W>(answer: QueueReply<T>, side: Side) -> NextStep<T, W>
    ensures { result ≡ upgraded_next answer side }
{
    match answer {
        QueueReply::Flag(true) => ends_by(says(Reply::NotMade)),
        QueueReply::Flag(false) => NextStep::Works(ListStep::Load(side, Making::Upgrade)),
        _ => lost(),
    }
}

/// What comes after the queue's answer to a call with this purpose.
#[inline(always)]
pub(crate) fn answered_next<T: Drop, W: Drop>(
    purpose: Purpose<T, W>,
    answer: QueueReply<T>,
) -> NextStep<T, W>
    ensures { result ≡ answered_next purpose answer }
{
    match purpose {
        Purpose::TrySend => sent_next(answer),
        Purpose::ForceSend => forced_next(answer),
        Purpose::TryRecv => received_next(answer),
        Purpose::RecvMany(gathering) => several_next(answer, gathering),
        Purpose::Poll(line, key, task) => polled_next(line, answer, key, task),
        Purpose::Close(closer) => closed_next(answer, closer),
        Purpose::Ask => asked_next(answer),
        Purpose::IsTerminated => terminated_next(answer),
        Purpose::Upgrade(side) => upgraded_next(answer, side),
    }
}
