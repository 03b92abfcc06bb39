//! What threads find in a shared queue.

use crate::checks::expect_true;
use crate::shared::logged::wrong_logs;
use crate::shared::witnesses::untold_looks;
use concurrent_queue::error::{PopError, PushError};
use concurrent_queue::shared::queue::ConcurrentQueue;
use std::alloc::{AllocError, Global};
use std::sync::Wait;
use std::sync::atomic::{AtomicUsize, Ordering};
use std::thread;
use std::thread::Threads;

mod drops;
mod examples;
mod logged;
mod neighbours;
mod standing;
mod watched;
mod witnesses;

/// How many messages all threads push.
const TOTAL: u64 = 10_000;

/// How many each of two threads pushes.
const EACH: u64 = TOTAL / 2;

/// How often a thread pushes a message and pops one then.
const TURNS: u64 = 2_500;

/// After so many messages one of two threads closes the queue.
const BEFORE: u64 = 300;

/// A queue with so many places, or without a bound where that is 0. None where there is no memory.
pub(crate) fn opened<T: Drop>(alloc: Global, capacity: usize) -> Option<ConcurrentQueue<T>> {
    if capacity == 0 {
        ConcurrentQueue::unbounded(alloc).ok()
    } else {
        ConcurrentQueue::bounded(alloc, capacity).ok()
    }
}

/// What threads do at once.
#[derive(Clone, Copy)]
enum Working {
    /// Half of them push all messages, the last one closes the queue then, and the others pop.
    All,
    /// The same, but where there is no place the oldest message leaves.
    Displacing,
    /// Two push what goes in until one of them closes the queue, after so many, and two pop.
    UntilClosed,
    /// Each pushes a message and then pops one, again and again; half of them displace another, where there is no place, and
    /// pop none then.
    InTurn,
    /// Each pushes and pops in turn, and looks at the logs.
    Logged,
    /// One pushes with a witness, and looks after each push; the others displace and pop.
    Looked,
}

/// Pushes messages, beginning with this one, each until it is in, until so many are in or the queue is closed: how many are in.
fn push_from<R: Wait>(rt: &R, queue: &ConcurrentQueue<u64>, first: u64, most: u64) -> u64 {
    let mut accepted = 0u64;
    for _ in rt.forever() {
        if accepted == most {
            break;
        }
        match queue.push(rt, first.wrapping_add(accepted)) {
            Ok(()) => accepted = accepted.wrapping_add(1),
            Err(PushError::Closed(_)) => break,
            Err(_) => thread::yield_now(),
        }
    }
    accepted
}

/// Pushes so many messages, closes the queue, and pushes until it finds it closed: how many are in.
fn push_and_close<R: Wait>(rt: &R, queue: &ConcurrentQueue<u64>) -> u64 {
    let accepted = push_from(rt, queue, 0, BEFORE);
    queue.close();
    accepted.wrapping_add(push_from(rt, queue, 0, u64::MAX))
}

/// Pops until the queue is closed and empty.
fn pop_all<R: Wait>(rt: &R, alloc: Global, queue: &ConcurrentQueue<u64>) -> Vec<u64> {
    let mut messages = Vec::new(alloc);
    for _ in rt.forever() {
        match queue.pop(rt) {
            Ok(message) => {
                let _ = messages.push(message);
            }
            Err(PopError::Empty) => thread::yield_now(),
            Err(PopError::Closed) => break,
        }
    }
    messages
}

/// Pushes so many messages, beginning with this one, where there is no place for one in the place of the oldest: those that left.
fn displace_from<R: Wait>(
    rt: &R,
    alloc: Global,
    queue: &ConcurrentQueue<u64>,
    first: u64,
    most: u64,
) -> Vec<u64> {
    let mut messages = Vec::new(alloc);
    for number in 0..most {
        let left = queue.force_push(rt, first.wrapping_add(number));
        if let Some(message) = left.unwrap_or(None) {
            let _ = messages.push(message);
        }
    }
    messages
}

/// Pushes a message, or displaces one, and pops one where it displaced none, again and again: how often there was none to pop.
fn push_and_pop<R: Wait>(rt: &R, queue: &ConcurrentQueue<u64>, displaces: bool) -> u64 {
    let mut missed = 0u64;
    for message in 0..TURNS {
        let owed = if displaces {
            queue.force_push(rt, message) == Ok(None)
        } else {
            push_from(rt, queue, message, 1) == 1
        };
        if owed && queue.pop(rt).is_err() {
            missed = missed.wrapping_add(1);
        }
    }
    missed
}

/// One of so many threads, and what they do.
#[derive(Clone, Copy)]
struct Job {
    working: Working,
    threads: usize,
    thread: usize,
}

impl Job {
    /// Whether it is one of those that push.
    fn pushes(self) -> bool {
        self.thread < self.threads / 2
    }

    /// Pushes this thread's share of all messages, and closes the queue after the last thread's: how many are in, and those that
    /// left for them.
    fn push_share<R: Wait>(
        self,
        rt: &R,
        alloc: Global,
        queue: &ConcurrentQueue<u64>,
        ended: &AtomicUsize,
    ) -> (u64, Vec<u64>) {
        let most = if self.threads < 4 { TOTAL } else { EACH };
        let first = most.wrapping_mul(self.thread as u64);
        let done = match self.working {
            Working::Displacing => (most, displace_from(rt, alloc, queue, first, most)),
            _ => (push_from(rt, queue, first, most), Vec::new(alloc)),
        };
        if ended.fetch_add(1, Ordering::SeqCst).saturating_add(1) == self.threads / 2 {
            queue.close();
        }
        done
    }
}

/// What one of the threads does: how many messages it pushed, or how often something was wrong, and the messages that it got.
fn work<R: Wait>(
    rt: &R,
    alloc: Global,
    queue: &ConcurrentQueue<u64>,
    job: Job,
    ended: &AtomicUsize,
) -> (u64, Vec<u64>) {
    let count = match (job.working, job.thread) {
        (Working::All | Working::Displacing, _) if job.pushes() => {
            return job.push_share(rt, alloc, queue, ended);
        }
        (Working::UntilClosed, 0) => push_and_close(rt, queue),
        (Working::UntilClosed, 1) => push_from(rt, queue, 0, u64::MAX),
        (Working::InTurn, _) => push_and_pop(rt, queue, job.pushes()),
        (Working::Logged, _) => wrong_logs(rt, alloc, queue),
        (Working::Looked, 0) => untold_looks(rt, queue),
        (Working::Looked, _) => push_and_pop(rt, queue, true),
        _ => return (0, pop_all(rt, alloc, queue)),
    };
    (count, Vec::new(alloc))
}

/// What so many threads do at once.
fn at_once<R: Threads + Wait + Sync>(
    rt: &R,
    alloc: Global,
    queue: &ConcurrentQueue<u64>,
    (working, threads): (Working, usize),
) -> Result<Vec<(u64, Vec<u64>)>, AllocError> {
    let ended = AtomicUsize::new(0);
    thread::map_indices(
        rt,
        alloc,
        threads,
        &|thread| {
            let job = Job {
                working,
                threads,
                thread,
            };
            work(rt, alloc, queue, job, &ended)
        },
    )
}

/// So many threads at once: how often something was wrong by the first of them, so many. None where there is no memory.
fn wrong_at_once<R: Threads + Wait + Sync>(
    rt: &R,
    alloc: Global,
    queue: &ConcurrentQueue<u64>,
    work: (Working, usize),
    counting: usize,
) -> Option<u64> {
    let done = at_once(rt, alloc, queue, work).ok()?;
    let mut wrong = 0u64;
    for (count, _) in done.iter().take(counting) {
        wrong = wrong.saturating_add(*count);
    }
    Some(wrong)
}

/// Whether the messages of each pushing thread stand in order, and none twice.
fn is_in_order(messages: &[u64]) -> bool {
    let mut next = [0, EACH];
    for message in messages {
        let pusher = if *message < EACH { 0 } else { 1 };
        if *message < next[pusher] {
            return false;
        }
        next[pusher] = message.wrapping_add(1);
    }
    true
}

/// Counts the messages of a list.
fn count(found: &mut [u8], messages: &[u64]) {
    for message in messages {
        if let Some(times) = found.get_mut(*message as usize) {
            *times = times.wrapping_add(1);
        }
    }
}

/// Whether the threads got just what was pushed: as many, and but for those that push until the queue is closed each message once,
/// and each thread those of one pusher in order.
fn got_all(working: Working, done: &[(u64, Vec<u64>)]) -> bool {
    let mut found = [0u8; 10_000];
    let (mut pushed, mut got, mut is_right) = (0u64, 0u64, true);
    for (accepted, messages) in done {
        pushed = pushed.wrapping_add(*accepted);
        got = got.wrapping_add(messages.len() as u64);
        count(&mut found, messages.as_slice());
        is_right = is_right & is_in_order(messages.as_slice());
    }
    pushed == got
        && match (working, done.first()) {
            (Working::UntilClosed, Some(first)) => first.0 == BEFORE,
            _ => is_right && found == [1; 10_000],
        }
}

/// So many threads push and pop: whether these get what the others push, and then find the queue closed.
fn cross<R: Threads + Wait + Sync>(
    rt: &R,
    alloc: Global,
    queue: &ConcurrentQueue<u64>,
    work: (Working, usize),
) -> bool {
    let got = match &at_once(rt, alloc, queue, work) {
        Ok(done) => got_all(work.0, done.as_slice()),
        Err(AllocError) => false,
    };
    got && queue.pop(rt) == Err(PopError::Closed) && queue.push(rt, 7) == Err(PushError::Closed(7))
}

fn crosses<X: Send + Sync>(_queue: &X) -> bool {
    true
}

/// A queue crosses threads where its messages do.
fn queue_crosses<T: Drop + Send>(queue: &ConcurrentQueue<T>) -> bool {
    crosses(queue)
}

/// The same in a queue with so many places, or without a bound where that is 0.
fn passes<R: Threads + Wait + Sync>(
    rt: &R,
    alloc: Global,
    capacity: usize,
    work: (Working, usize),
) -> bool {
    let Some(queue) = opened(alloc, capacity) else {
        return false;
    };
    queue_crosses(&queue) && cross(rt, alloc, &queue, work)
}

#[test]
fn each_message_is_found_once_and_in_order(rt: HostRuntime) {
    for capacity in 1..5 {
        expect_true(&rt, passes(&rt, rt.alloc(), capacity, (Working::All, 4)));
    }
}

#[test]
fn the_same_in_an_unbounded_queue(rt: HostRuntime) {
    expect_true(&rt, passes(&rt, rt.alloc(), 0, (Working::All, 4)));
}

/// In queues with one place, with two, with three and without a bound.
#[test]
fn a_closed_queue_gives_the_rest_and_then_closed(rt: HostRuntime) {
    for capacity in 0..4 {
        let work = (Working::UntilClosed, 4);
        expect_true(&rt, passes(&rt, rt.alloc(), capacity, work));
    }
}

/// Of a thread that pushes beside one that pops, and of two beside two, in queues with one place, with three and without a bound.
#[test]
fn each_message_is_popped_or_displaced_once(rt: HostRuntime) {
    for threads in [2, 4] {
        for capacity in [0, 1, 3] {
            let work = (Working::Displacing, threads);
            expect_true(&rt, passes(&rt, rt.alloc(), capacity, work));
        }
    }
}

/// Whether four threads each of which pops as many as it pushed never find the queue empty.
fn all_find_one<R: Threads + Wait + Sync>(rt: &R, alloc: Global, capacity: usize) -> bool {
    let Some(queue) = opened(alloc, capacity) else {
        return false;
    };
    let missed = wrong_at_once(rt, alloc, &queue, (Working::InTurn, 4), 4);
    missed == Some(0) && queue.is_empty()
}

/// Whoever has a message in the queue finds one to pop, whatever three others push, displace and pop.
#[test]
fn who_pushed_has_one_to_pop(rt: HostRuntime) {
    for capacity in [1, 4] {
        expect_true(&rt, all_find_one(&rt, rt.alloc(), capacity));
    }
}
