//! Tests of `event_listener`: of what no contract says, and of what it says in concrete values. A crate of their own, so that
//! what they prove is proved once.
#![tactic(auto)]

#[cfg(test)]
mod checks;
#[cfg(test)]
mod counted;
#[cfg(test)]
mod counting;
#[cfg(test)]
mod crowds;
#[cfg(test)]
mod event;
#[cfg(test)]
mod event_rows;
#[cfg(test)]
mod id;
#[cfg(test)]
mod integers;
#[cfg(test)]
mod jobs;
#[cfg(test)]
mod list;
#[cfg(test)]
mod list_rows;
#[cfg(test)]
mod listener;
#[cfg(test)]
mod listening;
#[cfg(test)]
mod lists;
#[cfg(test)]
mod made;
#[cfg(test)]
mod many;
#[cfg(test)]
mod notices;
#[cfg(test)]
mod recorded;
#[cfg(test)]
mod records;
#[cfg(test)]
mod stack;
#[cfg(test)]
mod tags;
#[cfg(test)]
mod texts;
#[cfg(test)]
mod timed;
#[cfg(test)]
mod units;
