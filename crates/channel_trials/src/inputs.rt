//! Looks for hostile input that is answered wrongly: random bytes and changed texts as scripts, and random steps on a world, beside
//! no second account of the channel. It says how much was tried, and that nothing was found; or the seed and the shortest input that
//! is at fault too.

mod decode;
mod grammar;
mod kind;
mod messages;
mod mutate;
mod pieces;
mod script;
mod shortest;
mod steps;

use crate::inputs::kind::Kind;
use crate::inputs::shortest::shorten;
use std::alloc::Global;
use std::io;
use std::rt::Clock;
use std::time::Instant;

/// What is wrong with an answer.
pub type Fault = &'static str;

/// How many inputs of each kind there are, or for how many seconds those of each kind begin; and the seed of the first.
#[derive(Clone, Copy)]
pub struct Amount {
    /// At most so many of each kind.
    pub rounds: u64,
    /// None of a kind begins after so many seconds of it.
    pub seconds: u64,
    /// The seed of the first.
    pub seed: u64,
}

/// Draws an input and runs it: how many lines or steps it comes to. None where it is at fault; then the shortest such input is
/// printed.
fn try_one<R: Print>(rt: &R, alloc: Global, kind: Kind, seed: u64) -> io::Result<Option<u64>> {
    let input = kind.draw(seed, alloc)?;
    let fault = match kind.check(input.as_slice(), seed, alloc) {
        Ok(count) => return Ok(Some(count)),
        Err(fault) => fault,
    };
    let (name, _) = kind.names();
    println!(rt; "seed {seed}, {name}: {fault}")?;
    let (shortest, fault) = shorten(kind, input, fault, seed, alloc);
    let bytes = shortest.as_slice().escape_ascii();
    println!(rt; "shortest: {bytes}: {fault}")?;
    Ok(None)
}

/// All rounds of one kind. Whether nothing was found.
fn run<R: Print + Clock>(rt: &R, alloc: Global, amount: Amount, kind: Kind) -> io::Result<bool> {
    let start = Instant::now(rt)?;
    let (mut rounds, mut all) = (0u64, 0u64);
    for number in 0..amount.rounds {
        if amount.seconds <= start.elapsed(rt)?.as_secs() {
            break;
        }
        match try_one(rt, alloc, kind, amount.seed.wrapping_add(number))? {
            Some(count) => all = all.wrapping_add(count),
            None => return Ok(false),
        }
        rounds = rounds.wrapping_add(1);
    }
    let (name, unit) = kind.names();
    println!(rt; "{name}: {rounds} times, {all} {unit}")?;
    Ok(true)
}

/// All rounds of all kinds. Whether nothing was found.
pub fn find_nothing<R: Print + Clock>(rt: &R, alloc: Global, amount: Amount) -> io::Result<bool> {
    for kind in [Kind::Bytes, Kind::Script, Kind::Steps] {
        if !run(rt, alloc, amount, kind)? {
            return Ok(false);
        }
    }
    println!(rt; "found nothing")?;
    Ok(true)
}
