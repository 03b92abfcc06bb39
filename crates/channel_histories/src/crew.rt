//! The threads of a history, and the watchdog that ends a run which stands still.

use crate::place::Standing;
use history_checker::history::History;
use history_checker::log::Log;
use std::alloc::{AllocError, Global};
use std::rt::Clock;
use std::sync::atomic::{AtomicU64, Ordering};
use std::thread;
use std::thread::{JoinHandle, Threads};
use std::time::Duration;

/// How often the watchdog looks, which takes some twenty seconds: it sleeps so many microseconds after each of the first looks, since
/// a history mostly ends soon, and so many after each later one.
pub const LOOKS: u64 = 4_000;

const FIRST_LOOKS: u64 = 100;

const SOON: u64 = 50;

const LATER: u64 = 5_000;

/// Why there is no history.
#[derive(Drop)]
pub enum Failure {
    /// Memory was refused.
    Memory,
    /// A thread was refused.
    Thread,
    /// Nothing moves any more, and the threads stand so, as far as they say it.
    Still(Vec<Standing>),
}

/// The log of a thread that has made no call, with room for so many moments: so the thread asks for no memory but by its calls.
pub fn log_with_room(alloc: Global, moments: usize) -> Result<Log, AllocError> {
    Ok(Log {
        moments: Vec::with_capacity(alloc, moments)?,
        spoiled: false,
    })
}

/// A history, unless there is none.
pub type Outcome = Result<History, Failure>;

/// Sleeps a little after the look of this number.
pub fn pause<R: Clock>(rt: &R, look: u64) {
    let micros = if look < FIRST_LOOKS { SOON } else { LATER };
    thread::sleep(rt, Duration::from_micros(micros));
}

/// How many threads have ended.
#[derive(Drop)]
pub struct Ended {
    threads: AtomicU64,
}

impl Ended {
    /// None.
    pub fn new() -> Ended {
        Ended {
            threads: AtomicU64::new(0),
        }
    }

    /// One more.
    pub fn note(&self) {
        self.threads.fetch_add(1, Ordering::SeqCst);
    }

    /// Waits until so many have: whether they do.
    pub fn wait_for<R: Clock>(&self, rt: &R, threads: u64) -> bool {
        for look in 0..LOOKS {
            if self.threads.load(Ordering::SeqCst) == threads {
                return true;
            }
            pause(rt, look);
        }
        false
    }
}

/// What one thread does.
pub trait Job<R> {
    /// What comes of it.
    type Done;

    /// Does it.
    fn run(self, rt: R) -> Self::Done;
}

/// Starts a thread with this job, and keeps its handle.
pub fn start<R, J>(rt: R, job: J, started: &mut Vec<JoinHandle<J::Done>>) -> Result<(), Failure>
where
    R: Threads + Copy + Send + 'static,
    J: Job<R> + Send + Drop + 'static,
    J::Done: Send + Drop + 'static,
{
    match thread::spawn(&rt, move || job.run(rt)) {
        Ok(one) => started.push(one).ok().ok_or(Failure::Memory),
        Err(_) => Err(Failure::Thread),
    }
}

/// Waits for threads to end, and adds what came of them to this.
pub fn join_all<R: Threads, D: Drop>(
    rt: &R,
    threads: Vec<JoinHandle<D>>,
    done: &mut Vec<D>,
) -> Result<(), Failure> {
    for thread in threads {
        if done.push(thread.join(rt)).is_err() {
            return Err(Failure::Memory);
        }
    }
    Ok(())
}
