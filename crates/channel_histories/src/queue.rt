//! A history over a queue that threads share.

use crate::answers::{closed, forced_push, is_closed, popped, pushed};
use crate::crew::{Ended, Failure, Job, Outcome, join_all, log_with_room, start};
use crate::form::Form;
use crate::gate::Gate;
use crate::random::Random;
use async_channel::Runtime;
use concurrent_queue::shared::queue::ConcurrentQueue;
use history_checker::history::History;
use history_checker::log::{Log, Stamps};
use history_checker::plain::Plain;
use history_checker::point::{Did, Sight};
use std::alloc::Global;
use std::sync::{Arc, Wait};
use std::thread;
use std::thread::JoinHandle;

/// How many calls each thread makes.
const CALLS: u64 = 10;

/// How many moments they have at most: room for them is there from the start.
const MOMENTS: usize = 30;

/// How far apart the first messages of two threads are.
const MESSAGES: u64 = 1_000;

/// The calls of a queue.
#[derive(Clone, Copy)]
enum Act {
    Push,
    ForcePush,
    Pop,
    Close,
    IsClosed,
    IsEmpty,
    IsFull,
    Len,
    Capacity,
}

/// How often each is drawn, of all drawn.
static WEIGHTS: [(Act, usize); 9] = [
    (Act::Push, 20),
    (Act::ForcePush, 20),
    (Act::Pop, 28),
    (Act::Close, 2),
    (Act::IsClosed, 3),
    (Act::IsEmpty, 6),
    (Act::IsFull, 6),
    (Act::Len, 6),
    (Act::Capacity, 1),
];

/// The sum of all weights.
const ALL: usize = 92;

/// What the threads share.
#[derive(Drop)]
struct Shared {
    queue: ConcurrentQueue<u64>,
    stamps: Stamps,
    gate: Gate,
    ended: Ended,
    threads: u64,
    /// Whether calls may be refused memory.
    scarce: bool,
}

/// One call: what it did.
fn call<R: Wait>(rt: &R, shared: &Shared, act: Act, message: u64) -> Did {
    let queue = &shared.queue;
    let grows = shared.scarce && queue.capacity().is_none();
    match act {
        Act::Push => pushed(grows, message, &queue.push(rt, message)),
        Act::ForcePush => {
            let answer = queue.force_push(rt, message);
            forced_push(grows, queue.capacity(), message, &answer)
        }
        Act::Pop => popped(&queue.pop(rt)),
        Act::Close => closed(queue.close()),
        Act::IsClosed => is_closed(queue.is_closed()),
        Act::IsEmpty => Did::saw(Sight::Empty(queue.is_empty())),
        Act::IsFull => Did::saw(Sight::Full(queue.is_full())),
        Act::Len => Did::saw(Sight::Len(queue.len(rt))),
        Act::Capacity => Did::nothing_if(queue.capacity() != Some(0)),
    }
}

/// The calls of one thread.
fn make_calls<R: Wait>(rt: &R, shared: &Shared, log: Log, thread: usize, seed: u64) -> Log {
    let mut random = Random::new(seed, thread);
    let mut log = log;
    let mut message = (thread as u64).wrapping_mul(MESSAGES);
    shared.gate.pass(rt, shared.threads);
    for _ in 0..CALLS {
        if random.once_in(3) {
            thread::yield_now();
        }
        message = message.wrapping_add(1);
        let act = random.pick(&WEIGHTS, ALL).unwrap_or(Act::Pop);
        let begin = shared.stamps.stamp();
        let did = call(rt, shared, act, message);
        log.note(begin, shared.stamps.stamp(), did);
    }
    shared.ended.note();
    log
}

fn open(alloc: Global, form: Form) -> Option<ConcurrentQueue<u64>> {
    match form {
        Form::OneSlot => ConcurrentQueue::bounded(alloc, 1).ok(),
        Form::RingOfThree => ConcurrentQueue::bounded(alloc, 3).ok(),
        Form::Unbounded => ConcurrentQueue::unbounded(alloc).ok(),
    }
}

/// What one thread is given.
#[derive(Drop)]
struct Calls {
    shared: Arc<Shared>,
    log: Log,
    thread: usize,
    seed: u64,
}

impl<R: Wait + Copy> Job<R> for Calls {
    type Done = Log;

    fn run(self, rt: R) -> Log {
        let Calls {
            shared,
            log,
            thread,
            seed,
        } = self;
        make_calls(&rt, &shared, log, thread, seed)
    }
}

/// What the thread of this number is given. `None` where memory was refused.
fn new_calls(alloc: Global, shared: &Arc<Shared>, thread: usize, seed: u64) -> Option<Calls> {
    Some(Calls {
        shared: Arc::try_clone(shared).ok()?,
        log: log_with_room(alloc, MOMENTS).ok()?,
        thread,
        seed,
    })
}

/// Starts so many threads.
fn start_all<R>(
    rt: R,
    alloc: Global,
    shared: &Arc<Shared>,
    seed: u64,
    started: &mut Vec<JoinHandle<Log>>,
) -> Result<(), Failure>
where
    R: Runtime + 'static,
{
    for thread in 0..shared.threads {
        let calls = new_calls(alloc, shared, thread as usize, seed).ok_or(Failure::Memory)?;
        start(rt, calls, started)?;
    }
    Ok(())
}

/// A queue of this form and what threads share beside it; none where memory was refused.
fn share(alloc: Global, form: Form, threads: usize, scarce: bool) -> Option<Arc<Shared>> {
    let shared = Shared {
        queue: open(alloc, form)?,
        stamps: Stamps::new(),
        gate: Gate::new(),
        ended: Ended::new(),
        threads: threads as u64,
        scarce,
    };
    Arc::new(alloc, shared).ok()
}

/// A history over a queue of this form.
pub fn over_queue<R>(
    rt: R,
    alloc: Global,
    form: Form,
    threads: usize,
    seed: u64,
    scarce: bool,
) -> Outcome
where
    R: Runtime + 'static,
{
    let mut history = History {
        plain: Plain::new(form.capacity(), 1, 1, alloc),
        logs: Vec::new(alloc),
        rests: Vec::new(alloc),
    };
    let shared = share(alloc, form, threads, scarce).ok_or(Failure::Memory)?;
    let mut started = Vec::new(alloc);
    start_all(rt, alloc, &shared, seed, &mut started)?;
    if !shared.ended.wait_for(&rt, shared.threads) {
        return Err(Failure::Still(Vec::new(alloc)));
    }
    join_all(&rt, started, &mut history.logs)?;
    Ok(history)
}
