//! Random histories of calls that threads make on the handles of one channel, and on one shared queue: each is checked for
//! being one of a plain channel that can be closed, in some order in which no call that had ended comes after one that began
//! later. Others are made on one event, with timed waits: each notice that was counted as told is taken. A run in which nothing
//! moves any more is ended, and says how its threads stand.

use crate::crew::{Failure, Outcome};
use crate::events::{Tally, over_event};
use crate::form::Form;
use crate::handles::over_handles;
use crate::queue::over_queue;
use async_channel::Runtime;
use history_checker::history::History;
use std::alloc::Global;
use std::io;

/// How many histories each form has, and the seed of the first one; each later one has the next seed.
const HISTORIES: u64 = 1_000;

const SEED: u64 = 20_261_123;

/// How many histories of each form are asked for, of how many threads, and the seed of the first.
#[derive(Clone, Copy)]
pub struct Amount {
    histories: u64,
    threads: Option<u64>,
    seed: u64,
    scarce: bool,
}

impl Amount {
    /// So many of each form, of so many threads, the first of this seed. Where memory is scarce calls may be refused it.
    pub fn new(
        histories: Option<u64>,
        threads: Option<u64>,
        seed: Option<u64>,
        scarce: bool,
    ) -> Amount {
        Amount {
            histories: histories.unwrap_or(HISTORIES),
            threads,
            seed: seed.unwrap_or(SEED),
            scarce,
        }
    }

    /// How many threads the history of this number has: three or four, unless a number was asked for.
    fn threads(self, number: u64) -> usize {
        match self.threads {
            Some(threads) => threads as usize,
            None if number % 2 == 0 => 3,
            None => 4,
        }
    }
}

/// What the histories are over.
#[derive(Clone, Copy)]
enum Over {
    Handles(Form),
    Queue(Form),
    Event,
}

/// Each kind of history, with its name, and what its histories are called.
static KINDS: [(Over, &str, &str); 7] = [
    (
        Over::Handles(Form::OneSlot),
        "handles, one slot",
        "histories",
    ),
    (
        Over::Handles(Form::RingOfThree),
        "handles, ring of 3",
        "histories",
    ),
    (
        Over::Handles(Form::Unbounded),
        "handles, unbounded",
        "histories",
    ),
    (
        Over::Queue(Form::OneSlot),
        "shared queue, one slot",
        "histories",
    ),
    (
        Over::Queue(Form::RingOfThree),
        "shared queue, ring of 3",
        "histories",
    ),
    (
        Over::Queue(Form::Unbounded),
        "shared queue, unbounded",
        "histories",
    ),
    (Over::Event, "event", "histories of timed waits"),
];

/// Whether this history fits; what is wrong with it is printed.
fn fits<R: Print>(rt: &R, alloc: Global, history: &History) -> io::Result<bool> {
    match history.fault(alloc) {
        None => Ok(true),
        Some(fault) => {
            println!(rt; "{fault:?}:")?;
            history.print(rt)?;
            Ok(false)
        }
    }
}

/// Says why there is no history.
fn print_failure<R: Print>(rt: &R, failure: Failure) -> io::Result<()> {
    match failure {
        Failure::Memory => println!(rt; "want of memory"),
        Failure::Thread => println!(rt; "want of threads"),
        Failure::Still(standings) => {
            println!(rt; "nothing moves any more")?;
            for (thread, standing) in standings.iter().enumerate() {
                println!(rt; "thread {thread}: {standing:?}")?;
            }
            Ok(())
        }
    }
}

/// Whether this history of calls fits. What is wrong with it, or why there is none, is printed.
fn fits_outcome<R: Print>(rt: &R, alloc: Global, outcome: Outcome) -> io::Result<bool> {
    match outcome {
        Ok(history) => fits(rt, alloc, &history),
        Err(failure) => {
            print_failure(rt, failure)?;
            Ok(false)
        }
    }
}

/// Whether each notice of this history was taken. What is wrong with it, or why there is none, is printed.
fn took_all<R: Print>(rt: &R, outcome: Result<Tally, Failure>, scarce: bool) -> io::Result<bool> {
    match outcome {
        Ok(tally) if tally.is_right(scarce) => Ok(true),
        Ok(tally) => {
            println!(rt; "{tally:?}")?;
            Ok(false)
        }
        Err(failure) => {
            print_failure(rt, failure)?;
            Ok(false)
        }
    }
}

/// The history of this seed. Whether it fits.
fn check_one<R>(
    rt: R,
    alloc: Global,
    over: Over,
    threads: usize,
    seed: u64,
    scarce: bool,
) -> io::Result<bool>
where
    R: Runtime + Print + 'static,
{
    match over {
        Over::Handles(form) => {
            let outcome = over_handles(rt, alloc, form, threads, seed, scarce);
            fits_outcome(&rt, alloc, outcome)
        }
        Over::Queue(form) => {
            let outcome = over_queue(rt, alloc, form, threads, seed, scarce);
            fits_outcome(&rt, alloc, outcome)
        }
        Over::Event => took_all(&rt, over_event(rt, alloc, threads, seed), scarce),
    }
}

/// All histories over this. Whether each fits; the first that doesn't is printed.
fn check<R>(rt: R, alloc: Global, over: Over, name: &str, amount: Amount) -> io::Result<bool>
where
    R: Runtime + Print + 'static,
{
    for number in 0..amount.histories {
        let seed = amount.seed.wrapping_add(number);
        let threads = amount.threads(number);
        if !check_one(rt, alloc, over, threads, seed, amount.scarce)? {
            println!(&rt; "{name}: seed {seed}, {threads} threads")?;
            return Ok(false);
        }
    }
    Ok(true)
}

/// All histories of each kind. Whether each fits; what was found is printed.
pub fn fit<R: Runtime + Print + 'static>(rt: R, alloc: Global, amount: Amount) -> io::Result<bool> {
    for (over, name, what) in &KINDS {
        if !check(rt, alloc, *over, name, amount)? {
            return Ok(false);
        }
        let histories = amount.histories;
        println!(&rt; "{name}: {histories} {what} fit")?;
    }
    Ok(true)
}
