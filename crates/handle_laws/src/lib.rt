//! Laws that tie what the contract of a handle's call says to what `channel_steps` asks of a party whose calls are merged with those of
//! others.
//!
//! There is no channel here. `async_channel` knows nothing of these laws, and `channel_steps` nothing of handles.
//!
//! # Extensions
//!
//! All of this crate.
#![tactic(auto)]

pub mod laws;
