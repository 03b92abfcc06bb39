//! How a call of an unbounded queue ends.

use crate::call::QueueReply;

/// How a call ends. A push and a displacing push, which never displaces here, are one machine; their answers are told apart at the end.
#[derive(Drop)]
pub(crate) enum Ending<T> {
    Sent,
    Closed(T),
    NoMemory(T),
    Replied(QueueReply<T>),
}
