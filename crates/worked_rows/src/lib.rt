//! Worked examples as text, so that one more of them costs no proof: a [`Player`] makes the calls that its lines name, and
//! [`play_rows`] says which line first answers another thing than stands there.
//!
//! A line `row NAME` begins a row. Any other line is a call, with what it is to answer behind ` = `; where nothing is behind it, it is to
//! answer `ok`. Empty lines, and those that begin with `#`, say nothing.
#![tactic(auto)]

mod rows;
mod said;
mod words;

pub use rows::{Differs, Played, Player, answers_of, play_rows};
pub use said::Said;
pub use words::Words;
