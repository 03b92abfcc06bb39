//! Identities of events. Only a source makes them, and an event owns its own. The invariant: a source gives no number twice.
//!
//! # Extensions
//!
//! All of this module: `event-listener` tells events apart by their addresses.
ghost use Rattle.std.specs.Prelude.{◌≡◌, ◌+◌, ◌-◌, ◌^◌, ◌<◌, ◌∷◌, [], IfOk, OnOk, OnErr};

use std::error::Error;
use std::fmt;
use std::marker::Model;

/// The identity of one event.
///
/// [`EventIds`] alone makes identities, no two that come from one source are equal, and none can be copied: the event that it is moved into
/// is the only one of its name. Comparing identities never waits.
#[derive(Drop)]
pub struct EventId {
    number: u64,
}

impl Model for EventId {
    ghost use Rattle.std.specs.Prelude.{ℕ};

    ghost Value = { ℕ };

    ghost view = { λ id. id.number };
}

// Two identities are equal exactly if their numbers are: the model above is the number.
impl PartialEq for EventId {
    ghost use Rattle.std.specs.Prelude.{nat_eq};
    ghost use Rattle.std.specs.Cmp.Rules.{comparing};
    ghost use Rattle.std.proofs.Common.{rules};

    ghost eq = { nat_eq };

    ghost laws = { Prim.search (comparing, rules) };

    fn eq(&self, other: &EventId) -> bool {
        self.number == other.number
    }
}

impl Eq for EventId {
    ghost use Rattle.std.specs.Cmp.Rules.{comparing};
    ghost use Rattle.std.proofs.Common.{rules};

    ghost laws = { Prim.search (comparing, rules) };
}

impl EventId {
    /// Its number, by which a name of the event tells it from others while the identity itself stays with the event.
    pub fn number(&self) -> u64
        ensures { result ≡ self.now }
    {
        self.number
    }
}

/// A source of identities: the numbers from 0 on, each below 2^64 - 1, none of them twice.
///
/// It takes no memory and never waits. A contract sees it as the number of identities given so far, which is the next one's number too.
#[derive(Drop)]
pub struct EventIds {
    given: u64,
}

impl Model for EventIds {
    ghost use Rattle.std.specs.Prelude.{ℕ};

    ghost Value = { ℕ };

    ghost view = { λ ids. ids.given };

    ghost use Rattle.std.specs.Prelude.{◌<◌, ◌^◌};

    ghost invariant = { λ ids. ids.given < 2 ^ 64 };
}

/// Fewer identities were left than were asked for. None was taken.
#[derive(Clone, Copy, PartialEq, Eq, Debug)]
pub struct IdsUsedUp;

impl fmt::Display for IdsUsedUp {
    fn fmt<W: fmt::Write>(&self, f: &mut fmt::Formatter<W>) -> fmt::Result {
        write!(f, "all identities were given")
    }
}

impl Error for IdsUsedUp {}

impl EventIds {
    /// A source that has given none. Identities of two sources may be equal, and nothing tells sources apart: make one in a program, and
    /// pass it to whatever makes events or channels.
    pub fn new() -> EventIds
        ensures { result ≡ 0 }
    {
        EventIds { given: 0 }
    }

    /// How many identities were given so far, which is the number of the next one.
    pub fn given(&self) -> u64
        ensures { result ≡ self.now }
    {
        self.given
    }

    /// The next identity, which was never given before. `Err` if all 2^64 - 1 were given; nothing is changed then.
    pub fn next(&mut self) -> Result<EventId, IdsUsedUp>
        ensures id { IfOk result (λ id. id ≡ self.old) }
        ensures given { OnOk result (self.new ≡ self.old + 1) }
        ensures used_up { OnErr result (self.old ≡ 2 ^ 64 - 1) }
        ensures unchanged { OnErr result (self.new ≡ self.old) }
    {
        if self.given == u64::MAX {
            return Err(IdsUsedUp);
        }
        let number = self.given;
        self.given += 1;
        Ok(EventId { number })
    }

    /// The next four identities, for the four events of a channel. `Err` if fewer than four are left; none is taken then.
    pub fn next_four(&mut self) -> Result<[EventId; 4], IdsUsedUp>
        ensures ids { IfOk result (λ ids. ids ≡ self.old ∷ (self.old + 1) ∷ (self.old + 2) ∷ (self.old + 3) ∷ []) }
        ensures given { OnOk result (self.new ≡ self.old + 4) }
        ensures used_up { OnErr result (2 ^ 64 - 1 < self.old + 4) }
        ensures unchanged { OnErr result (self.new ≡ self.old) }
    {
        if u64::MAX - self.given < 4 {
            return Err(IdsUsedUp);
        }
        let first = self.given;
        self.given += 4;
        Ok([
            EventId { number: first },
            EventId { number: first + 1 },
            EventId { number: first + 2 },
            EventId { number: first + 3 },
        ])
    }
}
