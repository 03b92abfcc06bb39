//! A channel that is watched: the calls of all its handles, on whatever thread, are told to one log.

use crate::checks::expect_equal;
use crate::jobs::{Job, both};
use async_channel::{
    EventIds, Receiver, Sender, Shown, Sight, Trace, Witness, bounded_watched, unbounded_watched,
};
use concurrent_queue::cells::Slot;
use concurrent_queue::seen as queue;
use std::alloc::AllocGlobal;
use std::sync::Wait;
use std::sync::atomic::{AtomicUsize, Ordering};
use std::thread::Threads;

/// How many calls began, how many operations were made on cells of the queue, how many sections were made on lists, and how often a count
/// was read or changed; and of a channel with a bound, how many calls were over.
pub(crate) struct Tallies {
    beginnings: AtomicUsize,
    operations: AtomicUsize,
    sections: AtomicUsize,
    counts: AtomicUsize,
    calls: AtomicUsize,
}

impl Tallies {
    fn new() -> Tallies {
        Tallies {
            beginnings: AtomicUsize::new(0),
            operations: AtomicUsize::new(0),
            sections: AtomicUsize::new(0),
            counts: AtomicUsize::new(0),
            calls: AtomicUsize::new(0),
        }
    }

    /// The numbers, in that order.
    fn into_numbers(self) -> [usize; 5] {
        let Tallies {
            beginnings,
            operations,
            sections,
            counts,
            calls,
        } = self;
        [
            beginnings.into_inner(),
            operations.into_inner(),
            sections.into_inner(),
            counts.into_inner(),
            calls.into_inner(),
        ]
    }
}

/// What each call takes a copy of.
#[derive(Clone, Copy)]
pub(crate) struct Watcher<'a> {
    tallies: &'a Tallies,
}

/// One more.
fn note(tally: &AtomicUsize) {
    let _ = tally.fetch_add(1, Ordering::SeqCst);
}

impl queue::Trace<u64> for Watcher<'_> {
    ghost did = { λ _ _ _. Unit {0} };

    ghost brought = { λ _ _ _ _. Unit {0} };

    fn operated(&mut self, _sight: &queue::Sight<Self>, _it: queue::Shown) {
        note(&self.tallies.operations);
    }

    fn bring(&mut self, _sight: &queue::Sight<Self>, _at: Slot, _message: &u64) {}

    fn taken(&mut self, _sight: &queue::Sight<Self>, _at: Slot, _found: &Option<u64>) {
        note(&self.tallies.operations);
    }
}

impl Trace<u64> for Watcher<'_> {
    ghost entered = { λ _ _ _. Unit {0} };

    ghost shown = { λ _ _ _. Unit {0} };

    ghost offering = { λ _ _ _ _ _. Unit {0} };

    ghost parked = { λ _ _ _. Unit {0} };

    ghost slept = { λ _ _. Unit {0} };

    ghost called = { λ _. Unit {0} };

    fn saw(&mut self, _sight: &Sight<Self>, it: Shown<'_>) {
        match it {
            Shown::Enters(_) => note(&self.tallies.beginnings),
            Shown::Counted(..) | Shown::Lowered(..) | Shown::Raised(..) => note(
                &self.tallies.counts,
            ),
            Shown::Offers(..) | Shown::Parked(_) | Shown::Slept => {}
            _ => note(&self.tallies.sections),
        }
    }

    fn heard(&self, _sight: &Sight<Self>, _call: Witness<u64>)
        ensures { Unit {0} }
    {
        note(&self.tallies.calls);
    }
}

/// The first two handles of a channel that is watched.
type Ends<'a, R> = (Sender<u64, R, Watcher<'a>>, Receiver<u64, R, Watcher<'a>>);

/// A call that is made beside another one: a send, or a question for the count of senders.
#[derive(Drop)]
enum Call<'b, 'a, R: Wait + Copy> {
    Send(&'b Sender<u64, R, Watcher<'a>>),
    Count(&'b Receiver<u64, R, Watcher<'a>>),
}

impl<R: Wait + Copy> Job<R> for Call<'_, '_, R> {
    type Done = usize;

    /// The count, or 1 of a send that was accepted.
    fn run(self, _rt: R) -> usize {
        match self {
            Call::Send(s) => usize::from(s.try_send(7).is_ok()),
            Call::Count(r) => r.sender_count(),
        }
    }
}

/// What the calls answered: a send and a question at once, a send that was given up, a receive, and a closing.
type Answers = (Option<(usize, usize)>, Option<u64>, Option<u64>, bool);

/// What they answer: what was sent was received, one sender was counted, what was given up came back, and the channel was open.
const ANSWERS: Answers = (Some((1, 1)), Some(9), Some(7), true);

/// Makes seven calls on a channel: a send that nobody polled is given up, a message is sent while the senders are counted, it is received,
/// the channel is closed, and both handles are dropped. A receive that nobody polled is dropped too, which is no call: it has no listener.
fn seven_calls<R>(rt: R, ends: Ends<'_, R>) -> Answers
where
    R: Wait + Threads + Copy + AllocGlobal + Send + Sync,
{
    let (s, r) = ends;
    let unsent = s.send(9).give_up();
    drop(r.recv());
    let at_once = both(rt, Call::Send(&s), Call::Count(&r));
    let (got, closed) = (r.try_recv().ok(), s.close());
    drop((s, r));
    (at_once, unsent, got, closed)
}

/// Without a bound the watch sees all that the calls do.
#[test]
fn one_log_of_all_calls(rt: HostRuntime) {
    let tallies = Tallies::new();
    let mut ids = EventIds::new();
    let watch = Watcher { tallies: &tallies };
    let ends = unbounded_watched(rt, rt.alloc(), &mut ids, watch).expect(&rt, "memory");
    let answers = seven_calls(rt, ends);
    expect_equal(&rt, &answers, &ANSWERS);
    // Eight operations put the message: two loads, a block asked for, its number exchanged for none and stored, the tail exchanged, the
    // message put, and its word written. Seven take it: three loads, the head exchanged, its word loaded, the message taken, and the read
    // counted. Each of the three closings is one. The send tells two lists, the receive one, and the first closing four. One question and
    // two drops touch a count. No call is told of once it is over.
    expect_equal(&rt, &tallies.into_numbers(), &[7, 18, 7, 3, 0]);
}

/// With a bound the watch is told of each call once it is over, and sees nothing in its midst.
#[test]
fn one_log_of_all_calls_with_a_bound(rt: HostRuntime) {
    let tallies = Tallies::new();
    let mut ids = EventIds::new();
    let watch = Watcher { tallies: &tallies };
    let ends = bounded_watched(rt, rt.alloc(), 1, &mut ids, watch).expect(&rt, "memory");
    let answers = seven_calls(rt, ends);
    expect_equal(&rt, &answers, &ANSWERS);
    expect_equal(&rt, &tallies.into_numbers(), &[0, 0, 0, 0, 7]);
}
