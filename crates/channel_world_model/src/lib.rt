//! A part of `channel_world`: what a channel does if its calls are made one at a time: its state, its calls, and what each of them answers,
//! as functions; and laws that hold of all runs of calls.
//!
//! There is no channel here: the crates above prove that theirs does this.
//!
//! # Extensions
//!
//! All of this crate; each call does what the method of this name does in `async-channel` 2.5.0, if there is one.
#![tactic(auto)]

pub mod call;
pub mod directory;
pub mod laws;
pub mod name;
pub mod news;
pub mod plan;
pub mod refusal;
pub mod run;
pub mod space;
