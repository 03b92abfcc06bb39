//! A channel between threads that keeps a record of its calls.
//!
//! Handles and operations are called by their names, as on a `World`, but through a shared reference: each call is made whole under one
//! lock. So threads keep what is proved of calls made one at a time: the finished record replays, call by call and reply by reply, by the
//! definitions of `channel_world_model`.

mod channel;
mod copies;
mod error;
pub mod laws;
mod names;
mod receipt;
mod record;
mod recording;
mod seat;

pub use channel::{HeldChannel, MissingSeat, RecordedChannel};
pub use error::{RecordError, SeatsUsedUp};
pub use names::Names;
pub use receipt::Receipt;
pub use record::Record;
pub use seat::RecordSeat;
