//! What the plain count refuses, and what a trial refuses whose plain count is wrong: tables of rows, each with what is to come of it.
//! The trials after it say no more than their count can see, so this comes first.

mod count;
mod several;
mod tally;
mod trial;

use crate::refusals::tally::Tally;
use std::alloc::Global;
use std::io;

/// Plays all rows. Whether each of them comes out as it is to; or it says which one doesn't.
pub fn refuse<R: Print>(rt: &R, alloc: Global) -> io::Result<bool> {
    let mut tally = Tally::new();
    count::play(&mut tally, alloc);
    several::play(&mut tally, alloc);
    trial::play(&mut tally, alloc);
    let rows = tally.rows;
    match tally.wrong {
        Some((table, row)) => println!(rt;
            "the plain count: {table}, row {row}: comes out wrongly"
        )?,
        None => println!(rt; "the plain count: {rows} rows of refusals, as they are to be")?,
    }
    Ok(tally.wrong.is_none())
}
