//! What the handles of a channel without a bound share. It owns the queue, the wait queues behind their locks, and the counts; they are
//! reached only by the cells.

ghost use Rattle.std.specs.Prelude.{◌≡◌, None, false};
ghost use Rattle.concurrent_queue.specs.Replies.{room_of};
ghost use Rattle.channel_calls.specs.Asks.{first};
ghost use Rattle.channel_calls.specs.Walks.{WalkedTo};
ghost use Rattle.channel_calls.specs.declared.ask.ChannelAsk.TheVariants as ask;
ghost use Rattle.channel_calls.specs.declared.reply.Reply.TheVariants as reply;
ghost use Rattle.async_channel.specs.Handles.{channel_of, form_of};
ghost use Rattle.async_channel.specs.Saw.{SeenOn};

use crate::cells::Counts;
use crate::listeners::Listeners;
use crate::seen::{Seen, Trace};
use crate::waiters::{Turn, Waiters};
use channel_calls::questions;
use channel_calls::raised::Counters;
use channel_calls::stage::{Side, WaitList};
use concurrent_queue::shared::queue::ConcurrentQueue;
use event_listener::list::List;
use event_listener::waking::Task;
use futures::task::Source;
use std::alloc::Global;

/// A queue, four wait queues and two counts of handles.
///
/// The channel's identity is here and nowhere else. The seal takes no bytes and can't be copied, and nobody can show that a new one equals
/// another, so a clause can say of which channel's memory it speaks.
///
/// The lists are a parameter, though there is one kind, so that the cells over them show each critical section by the very call that makes
/// it.
#[derive(Drop)]
pub(crate) struct Shared<T: Drop, L: Drop = List<(), Task>> {
    pub(crate) seal: Source,
    pub(crate) id: u64,
    pub(crate) alloc: Global,
    pub(crate) queue: ConcurrentQueue<T>,
    sends: Waiters<L>,
    receives: Waiters<L>,
    streams: Waiters<L>,
    closings: Waiters<L>,
    pub(crate) counts: Counts,
}

impl<T: Drop> Shared<T> {
    /// A channel over this queue, with these counts, of this identity and without listeners.
    pub(crate) fn new(
        alloc: Global,
        queue: ConcurrentQueue<T>,
        counters: Counters,
        id: u64,
    ) -> Shared<T>
        ensures form { form_of result ≡ queue.form }
        ensures id { result.id ≡ id }
    {
        Shared {
            seal: Source::new(),
            id,
            alloc,
            queue,
            sends: Waiters::new(List::new(alloc)),
            receives: Waiters::new(List::new(alloc)),
            streams: Waiters::new(List::new(alloc)),
            closings: Waiters::new(List::new(alloc)),
            counts: Counts::new(counters),
        }
    }
}

impl<T: Drop, L: Listeners> Shared<T, L> {
    /// The right to one critical section on this wait queue.
    #[inline(always)]
    pub(crate) fn waiters(&self, line: WaitList) -> Turn<'_, L> {
        match line {
            WaitList::Sends => self.sends.turn(),
            WaitList::Receives => self.receives.turn(),
            WaitList::Streams => self.streams.turn(),
            WaitList::Closings => self.closings.turn(),
        }
    }
}

// Questions, with whatever trace: none of them takes the runtime or a lock, so none waits. They are those of `channel_calls`, on the shared
// words.
impl<T: Drop> Shared<T> {
    #[inline(always)]
    pub(crate) fn handle_count<S: Trace<T>>(&self, side: Side, trace: S) -> (usize, S)
        ensures walked { SeenOn S.did S.shown S.entered (channel_of self.now) (λ saw. WalkedTo saw (first (ask.HandleCount side))) trace (reply.Count (result.0)) (result.1) }
    {
        let mut seen = Seen::words(self, trace);
        let count = questions::handle_count(side, &mut seen);
        (count, seen.into_trace())
    }

    #[inline(always)]
    pub(crate) fn is_closed<S: Trace<T>>(&self, trace: S) -> (bool, S)
        ensures walked { SeenOn S.did S.shown S.entered (channel_of self.now) (λ saw. WalkedTo saw (first ask.IsClosed)) trace (reply.Flag (result.0)) (result.1) }
    {
        let mut seen = Seen::words(self, trace);
        let closed = questions::is_closed(&mut seen);
        (closed, seen.into_trace())
    }

    #[inline(always)]
    pub(crate) fn is_empty<S: Trace<T>>(&self, trace: S) -> (bool, S)
        ensures walked { SeenOn S.did S.shown S.entered (channel_of self.now) (λ saw. WalkedTo saw (first ask.IsEmpty)) trace (reply.Flag (result.0)) (result.1) }
    {
        let mut seen = Seen::words(self, trace);
        let empty = questions::is_empty(&mut seen);
        (empty, seen.into_trace())
    }

    #[inline(always)]
    pub(crate) fn is_full<S: Trace<T>>(&self, trace: S) -> (bool, S)
        ensures walked { SeenOn S.did S.shown S.entered (channel_of self.now) (λ saw. WalkedTo saw (first ask.IsFull)) trace (reply.Flag (result.0)) (result.1) }
        ensures bound { room_of (form_of self.now) ≡ None → result.0 ≡ false }
    {
        let mut seen = Seen::words(self, trace);
        let full = questions::is_full(&mut seen);
        (full, seen.into_trace())
    }

    #[inline(always)]
    pub(crate) fn capacity<S: Trace<T>>(&self, trace: S) -> (Option<usize>, S)
        ensures walked { SeenOn S.did S.shown S.entered (channel_of self.now) (λ saw. WalkedTo saw (first ask.Capacity)) trace (reply.Cap (result.0)) (result.1) }
        ensures room { result.0 ≡ room_of (form_of self.now) }
    {
        let mut seen = Seen::words(self, trace);
        let capacity = questions::capacity(&mut seen);
        (capacity, seen.into_trace())
    }

    #[inline(always)]
    pub(crate) fn is_terminated<S: Trace<T>>(&self, trace: S) -> (bool, S)
        ensures walked { SeenOn S.did S.shown S.entered (channel_of self.now) (λ saw. WalkedTo saw (first ask.IsTerminated)) trace (reply.Flag (result.0)) (result.1) }
    {
        let mut seen = Seen::words(self, trace);
        let ended = questions::is_terminated(&mut seen);
        (ended, seen.into_trace())
    }
}
