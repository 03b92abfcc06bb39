//! A channel with a bound as threads share it: one table of words and slots, and four wait queues behind locks. The rule of the table is
//! that there is one history of what all threads did: it leads from a new channel to this one, and each party's part of it is what the
//! machine of its calls does. So what is proved of every such history holds at every moment of every schedule.
//!
//! A call is made by the party of a seat, a new one or that of a handle or an operation, and returns the seat. It can't be dropped before
//! its machine has answered. Each operation of the call's cells is required to be the machine's next. Contracts of the calls say what this
//! party asked and what it was answered, behind all that it had asked earlier; [`look`](ChannelTable::look) says that this stands in the
//! one history.
//!
//! The calls themselves are those of `channel_calls`, over these cells.
#![tactic(auto)]

pub mod calls;
pub mod cells;
pub mod channel;
pub mod counts;
pub mod lists;
pub mod machine;
pub mod polls;
pub mod questions;
