//! Tests of `concurrent_queue`: of what no contract says, and of what it says in concrete values. A crate of their own, so that
//! what they prove is proved once. `walks` and `by_steps` are callers that prove what they say by its contracts alone.
#![tactic(auto)]

#[cfg(test)]
mod beside;
#[cfg(test)]
mod by_steps;
#[cfg(test)]
mod checks;
#[cfg(test)]
mod errors;
#[cfg(test)]
mod exclusive;
#[cfg(test)]
mod log;
#[cfg(test)]
mod one_owner;
#[cfg(test)]
mod queue_rows;
#[cfg(test)]
mod queues;
#[cfg(test)]
mod rows;
#[cfg(test)]
mod said;
#[cfg(test)]
mod scarce;
#[cfg(test)]
mod scarce_rows;
#[cfg(test)]
mod shared;
#[cfg(test)]
mod turn_rows;
#[cfg(test)]
mod turns;
#[cfg(test)]
mod walks;
