//! Why a call by names is not begun.

use std::error::Error;
use std::fmt;

/// Why a world refuses a call. Nothing is changed then.
///
/// The numbers are those by which a script names them.
#[derive(Clone, Copy, Debug, PartialEq, Eq)]
pub enum WorldRefusal {
    /// 1: the party has a call under way.
    Busy = 1,
    /// 2: the party has no call under way.
    Idle,
    /// 3: a used name is not live.
    UnknownName,
    /// 4: a new name was taken before.
    NameTaken,
    /// 5: the operation, or the stream, is being polled.
    OpUnderWay,
    /// 6: the handle is in use, by a live operation or by a call under way.
    Borrowed,
    /// 7: what lives under a used name is of another kind.
    WrongKind,
    /// 8: there is no room for the answer.
    NoMemory,
}

impl WorldRefusal {
    ghost use Rattle.std.specs.Prelude.{◌≡◌};
    ghost use Rattle.channel_world_model.specs.Refusal.{refusal_number};

    /// The number by which a script names it, from 1 to 8.
    pub fn number(self) -> u8
        ensures { result ≡ refusal_number self }
    {
        self as u8
    }
}

impl fmt::Display for WorldRefusal {
    fn fmt<W: fmt::Write>(&self, f: &mut fmt::Formatter<W>) -> fmt::Result {
        f.pad(match self {
            WorldRefusal::Busy => "the party has a call under way",
            WorldRefusal::Idle => "the party has no call under way",
            WorldRefusal::UnknownName => "a used name is not live",
            WorldRefusal::NameTaken => "a new name was taken before",
            WorldRefusal::OpUnderWay => "the operation is being polled",
            WorldRefusal::Borrowed => "a live operation borrows the handle",
            WorldRefusal::WrongKind => "a used name is of another kind",
            WorldRefusal::NoMemory => "want of memory",
        })
    }
}

impl Error for WorldRefusal {}
