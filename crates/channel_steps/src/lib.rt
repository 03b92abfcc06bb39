//! A part of `channel_world`: a channel of one owner with the calls of many parties under way, in any interleaving of their steps.
//!
//! `specs/Configuration` and `specs/Run` say what one step of one call and a run of them are. `laws` has what holds of all runs, in
//! whatever order the calls are stepped (`specs/every_run`). `alone` makes one call from its beginning to its end, with no other call under
//! way (`specs/solo`).
//!
//! # Extensions
//!
//! All of this crate.
#![tactic(auto)]

pub mod alone;
pub mod count;
mod fast_path;
pub mod laws;
pub mod party;
pub mod run;
pub mod start;
