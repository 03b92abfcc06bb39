//! Whether what threads did to a channel together is what a plain closable channel does: a list of messages, a flag, two
//! counts of handles.
//!
//! Each thread keeps a [`Log`](log::Log): for each call two stamps of one counter, taken before and after it, and what happened
//! to the channel at moments between, as the call's answer says. [`judge`](order::judge) looks for an order of all moments in
//! which the plain channel does just that, and in which a call that had ended comes before one that began later.
//! A displacing send has two moments: between them the oldest message has left and the new one is on its way, nothing else comes
//! in, and nobody is told that the channel is empty. A receive of several has a moment for each message that it took, and other
//! calls may come between them; where it took fewer than it might, it has one more, after the last, at which nothing was there.
//!
//! Its tests are rows, in `channel_world_tests` (`history_rows`): what it must refuse, and what it must not.
#![tactic(auto)]

pub mod history;
pub mod log;
pub mod order;
pub mod plain;
pub mod point;
pub mod rest;
mod told;
