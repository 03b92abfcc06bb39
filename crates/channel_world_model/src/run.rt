//! What lists of calls answer.

use super::name::Waiter;
use super::refusal::WorldRefusal;
use channel_calls::reply::Reply;

/// What a call answered, and the names that it woke, in order.
#[derive(Debug, Drop, PartialEq, Eq)]
pub struct Done<T> {
    /// The reply.
    pub reply: Reply<T>,
    /// The names that the call woke, in order.
    pub woken: Vec<Waiter>,
}

/// Where a list of calls stopped, counted from 0, and why.
#[derive(Clone, Copy, Debug, PartialEq, Eq)]
pub struct Stopped {
    /// The place of the refused call in the list.
    pub place: usize,
    /// Why it was refused.
    pub why: WorldRefusal,
}

/// What the calls of a list answered, in order, and where the list stopped.
#[derive(Debug, Drop, PartialEq, Eq)]
pub struct CallRun<T> {
    /// What the accepted calls answered, in order.
    pub done: Vec<Done<T>>,
    /// Where the list stopped; `None` if every call was accepted.
    pub stopped: Option<Stopped>,
}
