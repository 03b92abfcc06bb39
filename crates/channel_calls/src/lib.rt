//! A part of `async_channel`: the calls of a channel, cut into atomic steps, and what one step of each does, whatever other calls are under
//! way. Its tests are in `async_channel_tests`.
//!
//! A call is a state machine over [`ChannelCells`](cells::ChannelCells): it makes a call of the queue, then critical sections on wait
//! queues, and operations on the counts of handles. `turn` and `answered` decide what comes next, `step` makes one step, and the fast paths
//! make several in straight code.
//!
//! # Extensions
//!
//! `async-channel` 2.5.0 has [`error`]'s `SendError`, `TrySendError`, `RecvError` and `TryRecvError`. All else of this crate is an
//! extension.
#![tactic(auto)]

mod answered;
pub mod ask;
pub mod blocked;
pub mod blocking;
pub mod call;
pub mod calls;
pub mod cells;
pub mod error;
pub mod fast_path;
mod fast_polls;
pub mod filling;
pub mod kind;
pub mod laws;
pub mod mark;
pub mod notices;
pub mod plain;
pub mod polls;
pub mod questions;
pub mod raised;
pub mod reply;
pub mod several;
pub mod sleeps;
pub mod stage;
mod step;
pub mod taking;
mod turn;
pub mod whole;
pub mod words;
