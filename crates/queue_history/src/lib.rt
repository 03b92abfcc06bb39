//! What clients of a queue with a bound can conclude from the witnesses of their calls: which messages were accepted, which have left and
//! which are held, whatever other threads do. The laws hold of every history of a queue.
//!
//! # Extensions
//!
//! All of this crate.
#![tactic(auto)]

pub mod accounts;
pub mod conclusions;
