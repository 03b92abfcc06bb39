//! A part of `channel_world`: the language of its scripts: words, names and numbers, what a line says, the names that a script gave, the
//! call that a command makes, and the text of what it answers.
//!
//! There is no channel here: `channel_world::script` reads a script, makes its calls and writes the answers.
//!
//! # Extensions
//!
//! All of this crate.
#![tactic(auto)]

pub mod call;
pub mod command;
pub mod table;
pub mod text;
pub mod words;
