//! Messages that travel with a waybill: a token of no bytes that proves to the receiver of a message that it was sent, and that it comes
//! once. A message may go through any queue or channel, since everything is said by its type.
#![tactic(auto)]

pub mod bill;
pub mod inbox;
pub mod laws;
pub mod line;
pub mod numbered;
pub mod office;
pub mod rule;
pub mod several;
pub mod sink;
mod sizes;
pub mod source;
pub mod tokens;

pub use inbox::Inbox;
pub use line::Line;
pub use numbered::{Numbered, NumbersUsedUp, OutOfTurn, Stopped};
pub use rule::Room;
pub use sink::Sink;
pub use source::Source;
pub use tokens::{Office, Opened, Parcel, Pass};
