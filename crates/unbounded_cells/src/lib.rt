//! The cells of an unbounded queue that threads share, over memory that grows, under the rule of one history: at every moment of every
//! schedule there is a history of the queue's machine that led to what the words and slots hold, or there was one as long as there are
//! positions (2^61 events). What a bounded queue's table is in `concurrent_queue::history`, [`table::BlockTable`] is here:
//! [`cells::BlockCells`] are the cells of a call, each of whose operations is required to be its machine's next, and a look says what
//! follows for all parties (`run_so_far` in [`party`]).
//!
//! A block has a guard for each of its slots, then the number of the next block, how many of its messages were read, the flags of its slots
//! as bits of one word, and the number of the next spare block. Of the words of a spare block the rule says nothing. Whoever takes one
//! clears its words while it is on the list, and takes it off last. Only `spare` and `retire` wait, for the lock of that list.
//!
//! The rule is in `specs/Rule`. That each kind of step keeps it is proved in `proofs/WordSteps`, `SlotSteps`, `CountSteps`, `SeatSteps`,
//! `SpareList` and `Parties`; that it applies to the queue's own machine, in `specs/OfQueue`.
#![tactic(auto)]

pub mod cells;
pub mod counts;
mod opening;
pub mod party;
pub mod plays;
pub mod queue;
pub mod rule;
pub mod seat_plays;
pub mod seats;
pub mod slots;
pub mod spare_plays;
mod spares;
pub mod table;
pub mod words;
