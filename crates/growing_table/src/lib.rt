//! Memory that threads share through a `&` and that grows, under one rule: words of its own, and blocks of words and slots, which are
//! numbered from 0 in the order in which they were made. What `atomic_table` is to memory of a fixed size, this is to blocks.
//!
//! A user states a fact of plain data ([`GrowingRule`]): the words, what lies in the slots, and the view of each seat. Each step is one
//! atomic operation on one word. It requires that the rule is kept and the step's [`Play`] holds, whatever the table is when the word
//! changes and as far as the seat's view says, and may take one slot out or give it back. No pointer, row or directory stands in a rule.
//!
//! # Blocks
//! One seat makes the blocks: the first one, until [`GrowingTable::split_maker`] gives this to another. A block's words begin at 0 and
//! its slots empty. It joins at one step of that seat, and stays until the table is dropped, so a [`Place`] stays good for as long.
//! [`GrowingTable::find`] gives the place of a number by three loads, or by two where the number is one less than a power of two.
//! Nothing here waits.
//!
//! # What is proved
//! The rule holds between any two steps, and each step ensures its play. No slot is read or written by two threads at once. A block
//! for which there is no memory changes nothing. A table that is dropped frees every row of it: with one left it would not type-check.
//!
//! # Limits
//! A table has at most 2^39 - 3 blocks, and at most 2^39 words, as has a block; `make` and `new` refuse more as if there were no
//! memory. The view of a seat that is dropped stays among the views, and the slot that is out with it stays out. A seat has one slot
//! at most: one that takes a second leaves the first out. Each cell has a word, a link and room for a slot, also where it serves as a
//! word of the table's own.
#![tactic(auto)]

mod bits;
mod blocks;
mod closing;
mod fresh;
mod making;
mod open;
mod plays;
mod rule;
mod seat;
mod seats;
mod sight;
mod table;
mod words;

pub use atomic_table::{Join, Split};
pub use rule::{GrowingRule, Play};
pub use seat::{GrowingSeat, Place};
pub use table::GrowingTable;
