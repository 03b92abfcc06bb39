//! The queue that threads share, and what it is made of: tables of words and slots, blocks by their numbers, and cells over both, on which
//! the steps of a call run.

pub(crate) mod blocks;
pub mod calls;
pub(crate) mod cells;
pub(crate) mod endless;
pub(crate) mod guard;
pub mod iter;
pub mod queue;
pub(crate) mod ruled;
pub(crate) mod table;
pub mod witnessed;
