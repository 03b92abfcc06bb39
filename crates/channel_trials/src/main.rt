//! Random calls of a channel, beside a plain account of it and beside none.
//!
//! Random interleavings of the calls of up to four parties in a world of each form. Where no call is under way, every other
//! call is made alone, and later ones go on by steps. After each step, and after each call made alone, the world is compared
//! with a plain count of it. Random worlds that are settled, each beside a plain channel. And hostile input: random bytes and
//! changed texts as scripts, and random steps on a world.
//!
//! `channel_trials` shows first that the plain count refuses what is wrong, and makes all of these then, so many as the gate does.
//! `channel_trials interleavings` makes the interleavings and the settlings alone. `channel_trials ROUNDS SEED` tries so many
//! inputs of each kind alone, each of its own seed, the first one's that; `channel_trials for SECONDS SEED` for so long each kind.
#![tactic(auto)]

mod agreement;
mod alone;
mod answer;
mod book;
mod count;
mod differs;
mod draw;
mod due;
mod form;
mod inputs;
mod interleaving;
mod made;
mod named;
mod names;
mod numbers;
mod owed;
mod plain;
mod plan;
mod random;
mod refusals;
mod saw;
mod settling;
mod several;
mod takings;
mod trial;
mod under_way;
mod waiting;
mod weights;

use crate::agreement::agree;
use crate::inputs::{Amount, find_nothing};
use crate::refusals::refuse;
use std::alloc::Global;
use std::env::Env;
use std::process::ExitCode;
use std::rt::Clock;
use std::{env, io};

/// How many inputs of each kind there are, and the seed of the first, unless others are asked for.
const ROUNDS: u64 = 5_000;

const SEED: u64 = 20_261_123;

/// What the program is asked for.
#[derive(Clone, Copy)]
enum Asked {
    /// All, as the gate has it.
    All,
    /// Interleavings and settlings.
    Interleavings,
    /// Inputs, so many.
    Inputs(Amount),
}

/// So many inputs of each kind, or for so many seconds each, as the words say.
fn read_amount(count: Option<u64>, seed: Option<u64>, for_seconds: bool) -> Amount {
    let seed = seed.unwrap_or(SEED);
    if for_seconds {
        Amount {
            rounds: u64::MAX,
            seconds: count.unwrap_or(1),
            seed,
        }
    } else {
        Amount {
            rounds: count.unwrap_or(ROUNDS),
            seconds: u64::MAX,
            seed,
        }
    }
}

/// The number that a word says, if it says one.
fn number(word: &Option<String>) -> Option<u64> {
    word.as_ref()?.as_str().parse::<u64>().ok()
}

/// What these words ask for.
fn read(first: Option<String>, second: Option<String>, third: Option<String>) -> Asked {
    let Some(word) = &first else {
        return Asked::All;
    };
    match word.as_str() {
        "interleavings" => Asked::Interleavings,
        "for" => Asked::Inputs(read_amount(number(&second), number(&third), true)),
        _ => Asked::Inputs(read_amount(number(&first), number(&second), false)),
    }
}

/// What the words of the command line ask for.
fn read_words<R: Env + Alloc<A = Global>>(rt: &R) -> io::Result<Asked> {
    let mut words = env::args(rt)?.skip(1);
    let (first, second, third) = (words.next(), words.next(), words.next());
    drop(words);
    Ok(read(first, second, third))
}

/// Makes all that the gate makes. Whether nothing is wrong.
fn run_all<R: Print + Clock>(rt: &R, alloc: Global) -> io::Result<bool> {
    if refuse(rt, alloc)? && agree(rt, alloc)? {
        find_nothing(rt, alloc, read_amount(None, None, false))
    } else {
        Ok(false)
    }
}

fn main(rt: HostRuntime) -> io::Result<ExitCode> {
    let is_well = match read_words(&rt)? {
        Asked::All => run_all(&rt, rt.alloc())?,
        Asked::Interleavings => agree(&rt, rt.alloc())?,
        Asked::Inputs(amount) => find_nothing(&rt, rt.alloc(), amount)?,
    };
    Ok(if is_well {
        ExitCode::SUCCESS
    } else {
        ExitCode::FAILURE
    })
}
