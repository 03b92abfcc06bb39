//! What the view of a seat says of its party. These types are for the proofs alone: no value of them is made.

use channel_calls::ask::ChannelAsk;
use channel_calls::stage::{ListenerRef, Side, Stage, WaitList};
use channel_calls::whole::Completed;
use concurrent_queue::QueueCall;
use event_listener::List;
use std::collections::LinkedList;

/// What a seat has, and what goes from seat to seat.
pub struct Belongings<W> {
    /// Wait queues. A call's seat has one within a critical section, and no other.
    pub lists: LinkedList<(WaitList, List<(), W>)>,
    /// Strong handles: a count was raised for each, or it is one of the first two, and it wasn't lowered for any yet.
    pub handles: LinkedList<Side>,
    /// Listeners that are on the lists: a call's, and those of pending operations.
    pub listeners: LinkedList<ListenerRef>,
}

/// The state of a party. A party has one seat, and makes calls one after another; or its seat lies with a wait queue behind the list's
/// lock, with a handle or with an operation, and it makes none.
pub struct Standing<T, W> {
    /// What its calls asked, in order.
    pub asked: LinkedList<ChannelAsk<T, W>>,
    /// The stage of its call under way.
    pub stage: Option<Stage<QueueCall<T>, T, W>>,
    /// What its calls answered and left, in order.
    pub given: LinkedList<Completed<T>>,
    /// What its seat has.
    pub own: Belongings<W>,
}
