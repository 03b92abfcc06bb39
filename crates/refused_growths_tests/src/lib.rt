//! What stands where a growth is refused: of queues, events and a channel's handles, of worlds, recorded channels and scripts. Each
//! test takes all memory that the process can get, and makes each call with none at hand, then with a little, then with a little more,
//! until it is refused no more ([`scarcity`]). Under `rt try`, whose allocator doesn't run out so, these tests fail at once.
#![tactic(auto)]

#[cfg(test)]
mod checks;
#[cfg(test)]
mod events;
#[cfg(test)]
mod handles;
#[cfg(test)]
mod listening;
#[cfg(test)]
mod parties;
#[cfg(test)]
mod queues;
#[cfg(test)]
mod records;
#[cfg(test)]
mod rows;
#[cfg(test)]
mod scarcity;
#[cfg(test)]
mod scripts;
#[cfg(test)]
mod settling;
#[cfg(test)]
mod steps;
#[cfg(test)]
mod worlds;
