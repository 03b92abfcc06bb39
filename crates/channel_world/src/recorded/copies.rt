//! Copies of replies whose messages are copied.
//!
//! A poll's answer of the kit is not `Copy`, and a list of messages wants room, so a reply is taken apart here.

ghost use Rattle.std.specs.Prelude.{◌≡◌, ◌≤◌, [], length, vec_capacity};
ghost use Rattle.channel_world.specs.Listed.{listed, most_listed};

use crate::call::{Call, Reply};
use channel_calls::several::Messages;
use futures::task::Poll;

/// A copy of a poll's answer.
fn polled<X: Copy>(poll: &Poll<X>) -> Poll<X>
    ensures { result ≡ poll.now }
{
    match poll {
        Poll::Ready(answer) => Poll::Ready(*answer),
        Poll::Pending => Poll::Pending,
    }
}

/// Copies of these, in the room that was reserved for them.
pub(crate) fn filled<T: Copy>(mut room: Vec<T>, items: &[T]) -> Vec<T>
    requires empty { room.items ≡ [] }
    requires room { length items.now ≤ vec_capacity room }
    ensures { result.items ≡ items.now }
{
    room.extend_from_slice(items).unwrap();
    room
}

/// How many messages the reply of a call lists at most.
pub(crate) fn most_listed<T: Copy>(call: &Call<T>) -> usize
    ensures { result ≡ most_listed call.now }
{
    match call {
        Call::RecvMany { limit, .. } => *limit,
        _ => 0,
    }
}

/// A copy of a reply, whose list lies in the room that was reserved for it.
pub(crate) fn copied_reply<T: Copy>(reply: &Reply<T>, room: Vec<T>) -> Reply<T>
    requires empty { room.items ≡ [] }
    requires room { length (listed reply.now) ≤ vec_capacity room }
    ensures { result ≡ reply.now }
{
    match reply {
        Reply::TrySend(answer) => Reply::TrySend(*answer),
        Reply::ForceSend(answer) => Reply::ForceSend(*answer),
        Reply::TryRecv(answer) => Reply::TryRecv(*answer),
        Reply::RecvMany(Ok(messages)) => {
            Reply::RecvMany(Ok(Messages::new(filled(room, messages.as_slice()))))
        }
        Reply::RecvMany(Err(error)) => Reply::RecvMany(Err(*error)),
        Reply::SendPoll(poll) => Reply::SendPoll(polled(poll)),
        Reply::RecvPoll(poll) => Reply::RecvPoll(polled(poll)),
        Reply::ClosedPoll(poll) => Reply::ClosedPoll(polled(poll)),
        Reply::Next(poll) => Reply::Next(polled(poll)),
        Reply::Closed(closed) => Reply::Closed(*closed),
        Reply::Flag(flag) => Reply::Flag(*flag),
        Reply::Count(count) => Reply::Count(*count),
        Reply::Cap(capacity) => Reply::Cap(*capacity),
        Reply::Made => Reply::Made,
        Reply::NotMade => Reply::NotMade,
        Reply::TooMany => Reply::TooMany,
        Reply::GivenUp(message) => Reply::GivenUp(*message),
        Reply::Unit => Reply::Unit,
    }
}
