//! Ten thousand random interleavings over a world of each form, beside a plain count. Two lines for each form, of which the second
//! says how many of them came to a moment at which one free place for each call under way, and for each send that was woken, were
//! not all; or one line that says which interleaving differs, at which step and after how many calls made alone. Then random worlds
//! of each form that are settled, each beside a plain channel, with a line for each form.

use crate::form::{FORMS, Form};
use crate::interleaving::interleave;
use crate::made::Made;
use crate::settling::settle;
use std::alloc::Global;
use std::io;

/// How many interleavings a world of each form has.
const INTERLEAVINGS: u64 = 10_000;

/// How many random worlds of each form are settled.
const SETTLED: u64 = 300;

/// The seed of the first one; each later one has the next seed.
const SEED: u64 = 20_260_000;

/// All interleavings over a world of this form. Whether they agree.
fn compare<R: Print>(rt: &R, form: Form, alloc: Global) -> io::Result<bool> {
    let name = form.name();
    let mut all = Made::nothing();
    let mut done = 0u64;
    for number in 0..INTERLEAVINGS {
        let seed = SEED + number;
        let shown = interleave(form, seed, alloc);
        let Made { steps, alone, .. } = shown.made;
        if let Some(differs) = shown.differs {
            println!(rt; "{name}: seed {seed}, step {steps}, {alone} calls alone: {differs}")?;
            return Ok(false);
        }
        all = all.with(shown.made);
        done = done.wrapping_add(1);
    }
    let Made {
        steps,
        begun,
        alone,
        several_free,
    } = all;
    println!(rt;
        "{name}: {done} interleavings, {steps} steps of {begun} calls, {alone} calls alone, agree"
    )?;
    println!(rt;
        "{name}: in {several_free} of these more places were free beside a sleeping send than calls under way"
    )?;
    Ok(true)
}

/// Settles random worlds of this form. Whether they agree.
fn settle_all<R: Print>(rt: &R, form: Form, alloc: Global) -> io::Result<bool> {
    let name = form.name();
    let mut polls = 0u64;
    let mut most = 0usize;
    for number in 0..SETTLED {
        let seed = SEED + number;
        match settle(form, seed, alloc) {
            Ok(made) => {
                polls = polls.wrapping_add(made.polls);
                most = most.max(made.most);
            }
            Err(differs) => {
                println!(rt; "{name}: settling, seed {seed}: {differs}")?;
                return Ok(false);
            }
        }
    }
    println!(rt;
        "{name}: {SETTLED} worlds settled by {polls} polls, {most} pending at most, agree"
    )?;
    Ok(true)
}

/// All interleavings and all settlings. Whether they agree.
pub fn agree<R: Print>(rt: &R, alloc: Global) -> io::Result<bool> {
    for form in FORMS {
        if !compare(rt, form, alloc)? {
            return Ok(false);
        }
    }
    for form in FORMS {
        if !settle_all(rt, form, alloc)? {
            return Ok(false);
        }
    }
    Ok(true)
}
