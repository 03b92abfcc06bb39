//! A part of `channel_world`: a channel with its handles and operations by name, and the calls of several parties under way, in any
//! interleaving. If no call is under way, a call may also be made alone, from its beginning to its end.
//!
//! The contracts say what it does, in the words of `specs/`: `NameTable` (what lives under which name), `Apart` (no name stands twice),
//! `Pending` (how many are pending), `Refusal` (which steps are refused), `Bookkeeping` (what a call asks when it begins, and what it
//! writes back at its end), `Order` (which names may be woken, and which were, in order), `Run` (one step), `Runs` (steps one after
//! another, and what holds at each moment of them), `Lone` (calls made alone), `Owners` (which operation or call has each listener),
//! `OwnerWoken` (those that were woken are told), `OwnerPolled` (which names are polled, by which calls), `WorldInvariant` (all that every
//! step keeps of those that wait), `Calls` (the calls under way by name), `Activity` (what each of them is to those that wait, and has
//! done), `Owed` (the wake-ups owed to those that are pending), `WorldState` (the configurations in which a channel by names stands, and
//! how what is done leads from one to another).
//!
//! A call that goes through a receiver whose stream is being polled is refused as under way, its drop too. The positions of a queue end
//! with the 2^61st message: a send that might bring it is refused for want of memory when it begins. Nothing else is refused for a number,
//! neither of steps nor of calls.
//!
//! Proved, for every message type and every list of steps: the opening of a channel and what it refuses; that no step is made that one of
//! the seven reasons refuses; that each step of a run is a step of the channel, with that step's mark, woken names and reply; that each
//! call asks what it asks given the names and the listeners held when it begins; that the names and the order of waking after it are what
//! the bookkeeping makes of it; why and where a run stops, and that a refused step is left in front with nothing of it done; that what left
//! the channel, followed by what it holds, is what it held followed by what came; that at every moment of a run each listener on a list
//! belongs to exactly one pending operation, stream or call under way, each that is pending and was woken is told, and nobody pending stays
//! unwoken beside a message, free place or closing unless a woken one or a call under way is responsible. However it came about, the
//! channel stands in such a configuration, and whatever is done next leads on from each configuration in which it stands. The number of
//! messages, the number of calls under way and whether there is any are the channel's. The number `pending` is that of the operations and
//! streams that are pending.
//!
//! Of a call made alone: that it asks so too; that its steps, its answer, those that it wakes, in order, and the channel after it are those
//! of a call with no other under way; that the names and the order of waking after it are what the bookkeeping makes of it; that it leaves
//! no call under way and all that every step keeps of those that wait; and that a call that found no room is returned with nothing changed.
//!
//! A channel with no call under way is a world of the model, however it came about (`rest_laws`). Calls made alone do what the model of one
//! call at a time says of them (`refinement_laws`).
//!
//! # Extensions
//!
//! All of this crate.
#![tactic(auto)]

pub mod activity;
mod beginning;
pub mod calls;
mod ending;
mod lone;
pub mod name_table;
pub mod names;
pub mod order;
mod position;
pub mod refinement_laws;
mod refusal;
pub mod rest_laws;
mod run;
pub mod settle;
pub mod step;
mod woken;
pub mod world_state;
