//! Tests of `channel_world`, of what no contract says: that calls are answered while there is memory, what worked rows come to,
//! worked interleavings with the steps that each call takes, and the texts of refusals. Those of recorded channels are in `recorded`,
//! between threads too. A crate of their own, so that what they prove is proved once.
#![tactic(auto)]

#[cfg(test)]
mod call_rows;
#[cfg(test)]
mod calls;
#[cfg(test)]
mod checks;
#[cfg(test)]
mod clients;
#[cfg(test)]
mod crowds;
#[cfg(test)]
mod giving_up;
#[cfg(test)]
mod histories;
#[cfg(test)]
mod history_rows;
#[cfg(test)]
mod many;
#[cfg(test)]
mod many_rows;
#[cfg(test)]
mod openings;
#[cfg(test)]
mod printed;
#[cfg(test)]
mod recorded;
#[cfg(test)]
mod refusals;
#[cfg(test)]
mod replies;
#[cfg(test)]
mod rows;
#[cfg(test)]
mod script_rows;
#[cfg(test)]
mod scripts;
#[cfg(test)]
mod step_counts;
#[cfg(test)]
mod step_rows;
#[cfg(test)]
mod steps;
#[cfg(test)]
mod unaided;
#[cfg(test)]
mod worlds;
