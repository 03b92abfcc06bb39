//! Closable first-in-first-out queues with and without a bound, as `concurrent-queue` 2.5.0 has them.
//!
//! [`ConcurrentQueue`] is shared by threads. Each of its calls makes the atomic steps of a [`QueueCall`]; what a step does to the queue is
//! proved whatever other calls are under way. [`run_queue_steps`] runs any interleaving of such steps over the cells of one owner.
//! [`Exclusive`] is a queue of one owner, a deque, whose contracts state every reply and every content exactly.
//!
//! # Extensions
//!
//! The Rust crate has [`ConcurrentQueue`], [`TryIter`], and the errors. Extensions are [`Exclusive`]; calls by steps ([`QueueCall`],
//! [`run_queue_steps`], [`cells`], [`run`]); traces ([`seen`]), witnesses ([`Witnessed`], [`history`]) and [`laws`]; and the answer for
//! want of memory. Each module with items of both kinds says which are which.
#![tactic(auto)]

mod bounded;
pub mod call;
pub mod cells;
pub mod error;
pub mod exclusive;
pub mod history;
pub mod laws;
pub mod plain;
mod pool;
pub mod queue_call;
pub mod run;
pub mod seen;
pub mod shared;
mod single;
mod unbounded;

pub use call::{QueueAsk, QueueEntry, QueueMark, QueueReply};
pub use cells::QueueForm;
pub use error::{ForcePushError, NoMemory, PopError, PushError};
pub use exclusive::{Exclusive, ExclusiveIter};
pub use queue_call::QueueCall;
pub use run::{QueueRefusal, QueueRun, QueueStep, Stopped, run_queue_steps};
pub use shared::iter::TryIter;
pub use shared::queue::ConcurrentQueue;
pub use shared::witnessed::Witnessed;
