//! What a recorded channel refuses.

use crate::call::{Call, WorldRefusal};
use std::error::Error;
use std::fmt;

/// A recorded call was not made. Nothing was changed, nothing was recorded, and the call is returned.
#[derive(Drop, PartialEq, Eq)]
pub enum RecordError<T> {
    /// The world refuses the call.
    World {
        /// Why.
        why: WorldRefusal,
        /// The call.
        call: Call<T>,
    },
    /// There is no room for the call's entry or for its receipt.
    NoRoom {
        /// The call.
        call: Call<T>,
    },
}

/// No seat was made: no part of the ledger but the last is left, or 2^32 seats were made.
#[derive(Clone, Copy, Debug, PartialEq, Eq)]
pub struct SeatsUsedUp;

impl<T> RecordError<T> {
    ghost use Rattle.std.specs.Prelude.{◌≡◌};
    ghost use Rattle.channel_world.specs.Recording.{call_in};

    /// The call that was not made.
    pub fn into_call(self) -> Call<T>
        ensures { result ≡ call_in self }
    {
        match self {
            RecordError::World { call, .. } | RecordError::NoRoom { call } => call,
        }
    }
}

impl<T> fmt::Display for RecordError<T> {
    fn fmt<W: fmt::Write>(&self, f: &mut fmt::Formatter<W>) -> fmt::Result {
        match self {
            RecordError::World { why, .. } => why.fmt(f),
            RecordError::NoRoom { .. } => f.pad("no room for the record"),
        }
    }
}

/// Why, without the call.
impl<T> fmt::Debug for RecordError<T> {
    fn fmt<W: fmt::Write>(&self, f: &mut fmt::Formatter<W>) -> fmt::Result {
        match self {
            RecordError::World { why, .. } => write!(f, "World({why:?}, ..)"),
            RecordError::NoRoom { .. } => write!(f, "NoRoom(..)"),
        }
    }
}

impl<T: Drop> Error for RecordError<T> {}

impl fmt::Display for SeatsUsedUp {
    fn fmt<W: fmt::Write>(&self, f: &mut fmt::Formatter<W>) -> fmt::Result {
        f.pad("seats used up")
    }
}

impl Error for SeatsUsedUp {}
