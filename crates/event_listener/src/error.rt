//! What a list refuses, and why.
//!
//! # Extensions
//!
//! All of this module: in the Rust crate growth never fails.

use std::alloc::AllocError;
use std::error::Error;
use std::fmt;

/// A growth was refused by the allocator. The call that says so changed nothing.
#[derive(Clone, Copy, PartialEq, Eq, Debug)]
pub struct NoMemory;

impl fmt::Display for NoMemory {
    fn fmt<W: fmt::Write>(&self, f: &mut fmt::Formatter<W>) -> fmt::Result {
        write!(f, "want of memory")
    }
}

impl Error for NoMemory {}

/// One `?` serves a function that fails by memory alone, whichever crate was refused.
impl From<NoMemory> for AllocError {
    fn from(_: NoMemory) -> AllocError {
        AllocError
    }
}

/// The key names no listener of the list: it never did, or that listener has left. Nothing was changed.
#[derive(Clone, Copy, PartialEq, Eq, Debug)]
pub struct UnknownListener;

impl fmt::Display for UnknownListener {
    fn fmt<W: fmt::Write>(&self, f: &mut fmt::Formatter<W>) -> fmt::Result {
        write!(f, "no such listener")
    }
}

impl Error for UnknownListener {}

/// Why a listener was not added to a list. The listeners of the list are as before.
#[derive(Clone, Copy, PartialEq, Eq, Debug)]
pub enum ListenError {
    /// The list had no room left, and the allocator refused more.
    NoMemory,
    /// All 2^64 - 1 serials of the list were given, and none is given twice.
    SerialsUsedUp,
}

impl fmt::Display for ListenError {
    fn fmt<W: fmt::Write>(&self, f: &mut fmt::Formatter<W>) -> fmt::Result {
        match self {
            ListenError::NoMemory => write!(f, "want of memory"),
            ListenError::SerialsUsedUp => write!(f, "all serials were given"),
        }
    }
}

impl Error for ListenError {}

/// A notification could not make the tag of its next listener. Those before it were told and stay so.
#[derive(Clone, Copy, PartialEq, Eq, Debug)]
pub struct NotifyError {
    /// How many listeners were told before the refusal: the first ones that waited.
    pub told: usize,
}

impl fmt::Display for NotifyError {
    fn fmt<W: fmt::Write>(&self, f: &mut fmt::Formatter<W>) -> fmt::Result {
        let told = self.told;
        write!(f, "a tag was refused after {told} were told")
    }
}

impl Error for NotifyError {}
