//! A channel whose handles and operations are called by names: one call at a time, with every reply and every wake-up stated exactly, or
//! any interleaving of the steps of several parties.
//!
//! A [`World`] is such a channel. [`World::run_calls`] takes a list of [`Call`]s and returns the [`Reply`] of each with the names that it
//! woke; [`World::run_steps`] takes a list of [`Step`]s of parties. A call or a step that is refused stays in front of its list, for a
//! reason that [`WorldRefusal`] names. [`script::run_script`] runs a script over a world, from bytes to bytes.
//!
//! `channel_world_model` says what calls made one at a time do. One record, in `specs/Headline`, says what runs of steps do;
//! `specs/Sentences` has what it says of each moment and of each step, in the words of `channel_steps` and `channel_world_runs`.
//!
//! # Extensions
//!
//! All of this crate; what the calls answer is as in `async-channel` 2.5.0.
#![tactic(auto)]

pub mod account;
pub mod call;
mod kinds;
pub mod laws;
pub mod name;
mod party;
pub mod recorded;
mod run;
pub mod script;
pub mod settle;
pub mod step;
pub mod under_way;
pub mod world;

pub use account::Account;
pub use call::{Call, CallRun, Done, Reply, Stopped, WorldRefusal};
pub use channel_calls::error::{
    OpenError, RecvError, Refused, SendError, TryRecvError, TrySendError,
};
pub use channel_calls::mark::Mark;
pub use channel_calls::several::Messages;
pub use event_listener::id::EventIds;
pub use name::{Handle, HandleId, HandleKind, OpId, Waiter};
pub use recorded::{
    HeldChannel, MissingSeat, Names, Receipt, Record, RecordError, RecordSeat, RecordedChannel,
    SeatsUsedUp,
};
pub use script::{ScriptEnd, run_script};
pub use settle::Settled;
pub use step::{Entry, PartyId, Run, Step};
pub use under_way::UnderWay;
pub use world::World;
