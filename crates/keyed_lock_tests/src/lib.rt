//! What threads find behind the locks of `keyed_lock`, and a client whose fact names a table beside the locks.
#![tactic(auto)]

pub mod counters;
pub mod drops;
pub mod lists;
#[cfg(test)]
mod tests;
