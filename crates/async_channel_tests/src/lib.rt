//! Tests of `async_channel`, and of the calls by steps under it: of what no contract says, and of what it says in concrete values,
//! polled by hand and called on one thread. Under it each call of `channel_calls` stands beside others, at each of its operations
//! (`beside`), and a call of `channel_steps` is made alone and step by step (`alone`, `steps`). A caller over the cells of one owner
//! proves what it says by the contracts of `channel_calls` alone (`owned_cells`). What threads do to each other is tested in
//! `async_channel_thread_tests`, and what stands where growths are refused in `refused_growths_tests`. Crates of their own, so that what
//! they prove is proved once.
#![tactic(auto)]

#[cfg(test)]
mod alone;
#[cfg(test)]
mod asking;
#[cfg(test)]
mod beside;
#[cfg(test)]
mod blocked;
#[cfg(test)]
mod checks;
#[cfg(test)]
mod counting;
#[cfg(test)]
mod errors;
#[cfg(test)]
mod handle_rows;
#[cfg(test)]
mod lent;
#[cfg(test)]
mod meanwhile;
#[cfg(test)]
mod names;
#[cfg(test)]
mod order;
#[cfg(test)]
mod owned;
pub mod owned_cells;
#[cfg(test)]
mod rows;
#[cfg(test)]
mod said;
#[cfg(test)]
mod scarce;
#[cfg(test)]
mod slot_calls;
#[cfg(test)]
mod slot_rows;
#[cfg(test)]
mod slots;
#[cfg(test)]
mod standing;
#[cfg(test)]
mod standing_rows;
#[cfg(test)]
mod steps;
#[cfg(test)]
mod unsent;
#[cfg(test)]
mod walks;
#[cfg(test)]
mod woken;
