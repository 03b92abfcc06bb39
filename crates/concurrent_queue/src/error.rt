//! Why a call of a queue is refused. The names and predicates are those of `concurrent-queue` 2.5.0.
//!
//! # Extensions
//!
//! The cases `NoMemory` of [`PushError`] and [`ForcePushError`], the type [`NoMemory`], its conversion to `AllocError`, and the texts.

ghost use Rattle.std.specs.Prelude.{◌≡◌};
ghost use Rattle.concurrent_queue.specs.Errors.{push_message, says_full, says_closed, force_message, says_empty, says_shut};

use std::alloc::AllocError;
use std::error::Error;
use std::fmt::{Debug, Display, Formatter, Result, Write};

/// A push that was refused, with its message.
#[derive(Clone, Drop, PartialEq, Eq)]
pub enum PushError<T> {
    /// The queue was full.
    Full(T),
    /// The queue was closed.
    Closed(T),
    /// There was no memory for the message; only an unbounded queue answers this.
    NoMemory(T),
}

/// A displacing push that was refused, with its message.
#[derive(Clone, Drop, PartialEq, Eq)]
pub enum ForcePushError<T> {
    /// The queue was closed.
    Closed(T),
    /// There was no memory for the message; only an unbounded queue answers this.
    NoMemory(T),
}

/// A pop that was refused.
#[derive(Clone, Copy, PartialEq, Eq)]
pub enum PopError {
    /// The queue was open and held no message.
    Empty,
    /// The queue was closed and held no message.
    Closed,
}

/// There was no memory for another block, or for the words and slots of a new queue, or for its places.
#[derive(Clone, Copy, PartialEq, Eq, Debug)]
pub struct NoMemory;

impl<T> PushError<T> {
    /// The message that was not pushed.
    pub fn into_inner(self) -> T
        ensures { result ≡ push_message self }
    {
        match self {
            PushError::Full(message) => message,
            PushError::Closed(message) => message,
            PushError::NoMemory(message) => message,
        }
    }

    /// Whether the queue was full.
    pub fn is_full(&self) -> bool
        ensures { result ≡ says_full self.now }
    {
        matches!(self, PushError::Full(_))
    }

    /// Whether the queue was closed.
    pub fn is_closed(&self) -> bool
        ensures { result ≡ says_closed self.now }
    {
        matches!(self, PushError::Closed(_))
    }
}

impl<T> ForcePushError<T> {
    /// The message that was not pushed.
    pub fn into_inner(self) -> T
        ensures { result ≡ force_message self }
    {
        match self {
            ForcePushError::Closed(message) => message,
            ForcePushError::NoMemory(message) => message,
        }
    }
}

impl PopError {
    /// Whether the queue was open and held no message.
    pub fn is_empty(&self) -> bool
        ensures { result ≡ says_empty self.now }
    {
        matches!(self, PopError::Empty)
    }

    /// Whether the queue was closed and held no message.
    pub fn is_closed(&self) -> bool
        ensures { result ≡ says_shut self.now }
    {
        matches!(self, PopError::Closed)
    }
}

impl<T: Copy> Copy for PushError<T> {}

impl<T: Copy> Copy for ForcePushError<T> {}

impl<T: Drop> Error for PushError<T> {}

impl<T: Drop> Error for ForcePushError<T> {}

impl Error for PopError {}

impl Error for NoMemory {}

/// One `?` serves a function that asks for memory of other kinds too and answers `AllocError`.
impl From<NoMemory> for AllocError {
    fn from(_refusal: NoMemory) -> AllocError {
        AllocError
    }
}

impl<T> Display for PushError<T> {
    fn fmt<W: Write>(&self, f: &mut Formatter<W>) -> Result {
        f.pad(match self {
            PushError::Full(_) => "Full",
            PushError::Closed(_) => "Closed",
            PushError::NoMemory(_) => "NoMemory",
        })
    }
}

impl<T> Debug for PushError<T> {
    fn fmt<W: Write>(&self, f: &mut Formatter<W>) -> Result {
        f.pad(match self {
            PushError::Full(_) => "Full(..)",
            PushError::Closed(_) => "Closed(..)",
            PushError::NoMemory(_) => "NoMemory(..)",
        })
    }
}

impl<T> Display for ForcePushError<T> {
    fn fmt<W: Write>(&self, f: &mut Formatter<W>) -> Result {
        f.pad(match self {
            ForcePushError::Closed(_) => "Closed",
            ForcePushError::NoMemory(_) => "NoMemory",
        })
    }
}

impl<T> Debug for ForcePushError<T> {
    fn fmt<W: Write>(&self, f: &mut Formatter<W>) -> Result {
        f.pad(match self {
            ForcePushError::Closed(_) => "Closed(..)",
            ForcePushError::NoMemory(_) => "NoMemory(..)",
        })
    }
}

impl Display for PopError {
    fn fmt<W: Write>(&self, f: &mut Formatter<W>) -> Result {
        f.pad(match self {
            PopError::Empty => "Empty",
            PopError::Closed => "Closed",
        })
    }
}

impl Debug for PopError {
    fn fmt<W: Write>(&self, f: &mut Formatter<W>) -> Result {
        f.pad(match self {
            PopError::Empty => "Empty",
            PopError::Closed => "Closed",
        })
    }
}

impl Display for NoMemory {
    fn fmt<W: Write>(&self, f: &mut Formatter<W>) -> Result {
        f.pad("want of memory")
    }
}
