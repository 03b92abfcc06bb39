//! Tests of `channel_cells`: that each call succeeds on a channel that is new, whom it notifies, and that no message and no notice is lost
//! between threads. No contract says these.
#![tactic(auto)]

#[cfg(test)]
mod calls;
#[cfg(test)]
mod checks;
#[cfg(test)]
mod crowd;
#[cfg(test)]
mod fixture;
#[cfg(test)]
mod given_up;
#[cfg(test)]
mod handles;
#[cfg(test)]
mod notices;
#[cfg(test)]
mod operation;
