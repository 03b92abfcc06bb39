//! A history over one event: threads listen, wait with a timeout or leave, and tell. Whoever a telling counts takes its notice, so
//! as many are taken as were counted.

use crate::crew::{Ended, Failure, Job, start};
use crate::gate::Gate;
use crate::random::Random;
use async_channel::Runtime;
use event_listener::event::Event;
use event_listener::id::EventIds;
use event_listener::listener::Listener;
use std::alloc::Global;
use std::rt::Clock;
use std::sync::{Arc, Wait};
use std::thread;
use std::thread::JoinHandle;
use std::time::Duration;

/// How many calls each thread makes.
const CALLS: u64 = 10;

/// The longest timeout, in nanoseconds, and the most that one telling tells.
const LONGEST: usize = 30_000;

const MOST_TOLD: usize = 3;

/// What threads did: how many notices were counted as told, how many were taken, and how many calls were refused memory.
#[derive(Clone, Copy, PartialEq, Eq, Debug)]
pub struct Tally {
    pub told: usize,
    pub taken: usize,
    pub refused: usize,
}

impl Tally {
    fn nothing() -> Tally {
        Tally {
            told: 0,
            taken: 0,
            refused: 0,
        }
    }

    fn plus(self, other: Tally) -> Tally {
        Tally {
            told: self.told.wrapping_add(other.told),
            taken: self.taken.wrapping_add(other.taken),
            refused: self.refused.wrapping_add(other.refused),
        }
    }

    /// Whether each notice that was counted was taken, and memory was refused only where it may be. A wait that is refused lets its
    /// listener go, and with it a notice that nobody else waits for.
    pub fn is_right(self, scarce: bool) -> bool {
        let lost = self.told.wrapping_sub(self.taken);
        lost <= self.refused && (scarce || self.refused == 0)
    }
}

/// What the threads share.
#[derive(Drop)]
struct Shared {
    event: Event<()>,
    gate: Gate,
    ended: Ended,
    threads: u64,
}

/// The calls that a thread draws.
#[derive(Clone, Copy)]
enum Act {
    Wait,
    Discard,
    Tell,
}

/// How often each is drawn, of all drawn.
static WEIGHTS: [(Act, usize); 3] = [(Act::Wait, 5), (Act::Discard, 1), (Act::Tell, 4)];

/// The sum of all weights.
const ALL: usize = 10;

/// Listens, and waits for no longer than this: whether a notice was taken. None where memory was refused.
fn wait<R>(rt: R, event: &Event<()>, timeout: Duration) -> Option<bool>
where
    R: Wait + Clock + Copy,
{
    let listener = event.listen(&rt).ok()?;
    let taken = listener.wait_timeout(&rt, timeout).ok()?;
    Some(taken.is_some())
}

/// Listens, and leaves without passing a notice on: whether one was taken. None where memory was refused.
fn discard<R: Wait + Copy>(rt: R, event: &Event<()>) -> Option<bool> {
    let listener = event.listen(&rt).ok()?;
    thread::yield_now();
    Some(listener.discard())
}

/// What a call did that took a notice or none, or was refused.
fn took(answer: Option<bool>) -> Tally {
    Tally {
        told: 0,
        taken: usize::from(answer == Some(true)),
        refused: usize::from(answer.is_none()),
    }
}

/// One call.
fn call<R>(rt: R, event: &Event<()>, random: &mut Random) -> Tally
where
    R: Wait + Clock + Copy,
{
    match random.pick(&WEIGHTS, ALL).unwrap_or(Act::Tell) {
        Act::Wait => {
            let nanos = random.below(LONGEST) as u64;
            took(wait(rt, event, Duration::from_nanos(nanos)))
        }
        Act::Discard => took(discard(rt, event)),
        Act::Tell => Tally {
            told: event.notify_additional(&rt, random.below(MOST_TOLD)),
            ..Tally::nothing()
        },
    }
}

/// The calls of one thread.
fn make_calls<R>(rt: R, shared: &Shared, thread: usize, seed: u64) -> Tally
where
    R: Wait + Clock + Copy,
{
    let mut random = Random::new(seed, thread);
    let mut tally = Tally::nothing();
    shared.gate.pass(&rt, shared.threads);
    for _ in 0..CALLS {
        tally = tally.plus(call(rt, &shared.event, &mut random));
    }
    shared.ended.note();
    tally
}

/// What one thread is given.
#[derive(Drop)]
struct Calls {
    shared: Arc<Shared>,
    thread: usize,
    seed: u64,
}

impl<R: Wait + Clock + Copy> Job<R> for Calls {
    type Done = Tally;

    fn run(self, rt: R) -> Tally {
        make_calls(rt, &self.shared, self.thread, self.seed)
    }
}

/// Starts so many threads.
fn start_all<R>(
    rt: R,
    shared: &Arc<Shared>,
    seed: u64,
    started: &mut Vec<JoinHandle<Tally>>,
) -> Result<(), Failure>
where
    R: Runtime + 'static,
{
    for thread in 0..shared.threads {
        let Ok(shared) = Arc::try_clone(shared) else {
            return Err(Failure::Memory);
        };
        let thread = thread as usize;
        start(
            rt,
            Calls {
                shared,
                thread,
                seed,
            },
            started,
        )?;
    }
    Ok(())
}

/// An event and what threads share beside it; none where memory was refused.
fn share(alloc: Global, threads: usize) -> Option<Arc<Shared>> {
    let shared = Shared {
        event: Event::new(alloc, EventIds::new().next().ok()?),
        gate: Gate::new(),
        ended: Ended::new(),
        threads: threads as u64,
    };
    Arc::new(alloc, shared).ok()
}

/// What so many threads did to an event.
pub fn over_event<R>(rt: R, alloc: Global, threads: usize, seed: u64) -> Result<Tally, Failure>
where
    R: Runtime + 'static,
{
    let shared = share(alloc, threads).ok_or(Failure::Memory)?;
    let mut started = Vec::new(alloc);
    start_all(rt, &shared, seed, &mut started)?;
    if !shared.ended.wait_for(&rt, shared.threads) {
        return Err(Failure::Still(Vec::new(alloc)));
    }
    let mut all = Tally::nothing();
    for one in started {
        all = all.plus(one.join(&rt));
    }
    Ok(all)
}
