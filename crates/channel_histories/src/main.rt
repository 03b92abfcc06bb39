//! Handles under attack by threads: random histories of calls, each checked for being one of a plain channel (`histories`), and
//! crowds of threads whose messages are counted (`crowds`).
//!
//! Without words a thousand histories of each form are made, of three and four threads, and then the crowds.
//! `channel_histories HISTORIES THREADS SEED` makes so many histories alone; with a fourth word, `scarce`, one in which calls may be
//! refused memory is right too. `channel_histories crowds MESSAGES THREADS` makes the
//! crowds alone, where each sender has so many messages, and which are of so many threads; `channel_histories times` says how long it
//! takes to wake one of many.
#![tactic(auto)]

mod acts;
mod answers;
mod clones;
mod crew;
mod crowds;
mod events;
mod form;
mod gate;
mod handles;
mod histories;
mod job;
mod leaving;
mod operations;
mod party;
mod place;
mod questions;
mod queue;
mod random;
mod referee;
mod tries;

use crate::crowds::crowd::Size;
use crate::crowds::{crowd_size, hold, print_times};
use crate::histories::{Amount, fit};
use async_channel::Runtime;
use std::alloc::Global;
use std::env::Env;
use std::process::ExitCode;
use std::{env, io};

/// What the program is asked for.
#[derive(Clone, Copy)]
enum Asked {
    /// All, as the gate has it.
    All,
    /// Histories.
    Histories(Amount),
    /// Crowds of this size.
    Crowds(Size),
    /// How long it takes to wake one of many.
    Times,
}

/// The number that a word says, if it says one.
fn number(word: &Option<String>) -> Option<u64> {
    word.as_ref()?.as_str().parse::<u64>().ok()
}

/// What these words ask for.
fn read(
    first: Option<String>,
    second: Option<String>,
    third: Option<String>,
    scarce: bool,
) -> Asked {
    let Some(word) = &first else {
        return Asked::All;
    };
    match word.as_str() {
        "crowds" => Asked::Crowds(crowd_size(number(&second), number(&third))),
        "times" => Asked::Times,
        _ => {
            let (histories, threads, seed) = (number(&first), number(&second), number(&third));
            Asked::Histories(Amount::new(histories, threads, seed, scarce))
        }
    }
}

/// What the words of the command line ask for.
fn read_words<R: Env + Alloc<A = Global>>(rt: &R) -> io::Result<Asked> {
    let mut words = env::args(rt)?.skip(1);
    let (first, second, third) = (words.next(), words.next(), words.next());
    let scarce = words.next().is_some();
    drop(words);
    Ok(read(first, second, third, scarce))
}

/// Makes all that the gate makes. Whether nothing is wrong.
fn run_all<R: Runtime + Print + 'static>(rt: R, alloc: Global) -> io::Result<bool> {
    if fit(rt, alloc, Amount::new(None, None, None, false))? {
        hold(rt, alloc, crowd_size(None, None))
    } else {
        Ok(false)
    }
}

fn main(rt: HostRuntime) -> io::Result<ExitCode> {
    let is_well = match read_words(&rt)? {
        Asked::All => run_all(rt, rt.alloc())?,
        Asked::Histories(amount) => fit(rt, rt.alloc(), amount)?,
        Asked::Crowds(size) => hold(rt, rt.alloc(), size)?,
        Asked::Times => {
            print_times(rt, rt.alloc())?;
            true
        }
    };
    Ok(if is_well {
        ExitCode::SUCCESS
    } else {
        ExitCode::FAILURE
    })
}
