//! What threads find in a queue over the cells of an unbounded queue's table.
#![tactic(auto)]

pub mod numbers;
#[cfg(test)]
mod tests;
pub mod threads;
