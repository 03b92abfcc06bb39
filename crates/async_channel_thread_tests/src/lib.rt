//! Tests of the handles of `async_channel` between threads: of what no contract says, such as that no message and no wake is lost.
//! What is called on one thread is tested in `async_channel_tests`.
#![tactic(auto)]

#[cfg(test)]
mod checks;
#[cfg(test)]
mod crowd;
#[cfg(test)]
mod drops;
#[cfg(test)]
mod executor;
#[cfg(test)]
mod gates;
#[cfg(test)]
mod jobs;
#[cfg(test)]
mod logged;
#[cfg(test)]
mod pair_rows;
#[cfg(test)]
mod pairs;
#[cfg(test)]
mod rest;
#[cfg(test)]
mod tally;
#[cfg(test)]
mod unshared;
#[cfg(test)]
mod watched;
#[cfg(test)]
mod words;
