//! Locks whose values keep a fact about a key. The key is a value that is given when the locks are made, so a fact may name what lies
//! beside the locks, such as the table that a token in a value belongs to. Several locks lie in one table.
//!
//! Take std's `Mutex` unless the fact has to name a value: a `Mutex` keeps the ghost fields of its value's type, which can only speak of
//! what that type and its parameters have. It also returns its value by itself, when its guard is dropped. Here the holder returns the
//! value by [`Taken::give`], and a `Taken` can't be dropped.
//!
//! # What is proved
//!
//! A thread that takes the value of a lock has one that keeps the fact about the key and the number of that lock. At any moment at most one
//! thread has it. A value that doesn't keep the fact can't be returned, and returning one can't be forgotten.
//!
//! # What is not
//!
//! A thread that waits looks a few times, and then sleeps until the lock's holder wakes it. No contract says that the wake arrives, or that
//! a thread gets the value at all: the locks are not fair, and a thread that takes a lock which it already has waits for ever.
//!
//! The word of each lock lies 128 bytes from the next one, so the words of two locks of one table share no cache line. Their values lie
//! side by side.
#![tactic(auto)]

mod locks;
mod rule;
mod word;

pub use locks::{KeyedLocks, Taken};
pub use rule::Keeps;
