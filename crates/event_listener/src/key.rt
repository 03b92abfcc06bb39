//! The names of listeners. A key is a plain value and gives no access by itself: only its list turns it into a listener, and checks its
//! serial number.
//!
//! # Extensions
//!
//! All of this module: `event-listener` keeps pointers to its nodes.

/// A listener of one list: the index of its node, and a serial number that is never given twice.
///
/// An index is used again once its listener has left. So no two listeners of a list ever have equal keys, and
/// [`UnknownListener`](crate::error::UnknownListener) refuses the key of one that has left. Keys of two lists may be equal: a key means
/// nothing to any list but its own.
#[derive(Clone, Copy, PartialEq, Eq, Debug)]
pub struct Key {
    pub(crate) slot: usize,
    pub(crate) serial: u64,
}
