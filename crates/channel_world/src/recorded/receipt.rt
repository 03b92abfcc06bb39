//! Entries of a record.

use super::names::Names;
use crate::call::{Call, Reply};

/// A recorded call: its place in the record, the seat that made it, what it asked, what it answered and which names it woke.
///
/// The record is the list of these, and the caller of a call gets a copy of its entry.
#[derive(Drop, PartialEq, Eq)]
pub struct Receipt<T> {
    /// The entry's place in the record, counted from 0.
    pub place: usize,
    /// The number of the seat that made the call.
    pub seat: u32,
    /// What was asked.
    pub call: Call<T>,
    /// What was answered.
    pub reply: Reply<T>,
    /// The names that the call woke, in order.
    pub woken: Names,
}
