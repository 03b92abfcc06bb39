//! What is behind the lock of a recorded event, by what is done to it in a critical section. The recorded event reaches it by these methods
//! alone.
//!
//! # Extensions
//!
//! All of this module.
ghost use Rattle.std.specs.Prelude.{◌≡◌, length, ◌+◌, ◌≤◌, ◌<◌, OnErr, OnOk, Ok, Some, None, List as Names};
ghost use Rattle.event_listener.specs.Drawing.{TellsOrNone};
ghost use Rattle.event_listener.specs.Lists.{told_by};
ghost use Rattle.event_listener.specs.Notices.{Woken};
ghost use Rattle.event_listener.specs.Replay.{Replays, nobody};
ghost use Rattle.event_listener.specs.Lists.{ListView};
ghost use Rattle.event_listener.specs.declared.recorded.RecordedCall.{RecordedCall as Entry};
ghost use Rattle.event_listener.specs.Recorded.{Section, IsDrawn, inserts, registers, polls, removes, notifies, makes_room, counts_told, counts_all};

use crate::calls::Registered;
use crate::error::{ListenError, NoMemory, NotifyError, UnknownListener};
use crate::key::Key;
use crate::list::List;
use crate::notify::Notification;
use crate::recorded::{RecordedCall, RegisterError};
use crate::wakes::Wakes;
use std::alloc::Global;
use std::sync::ledger::{Book, Ledger, Share};

/// A list with its record and the book that counts its entries. Each method's contract says that this was done, with this answer, and
/// nothing else. So over records of which nothing is known but this, a call's contract shows that it made the section.
pub trait Records<T: Copy, W: Copy, L: Ledger>: Drop {
    /// Whether this was done to the one record, so that it is the other.
    ghost did: { Section T W → Self → Self → Type 0 };

    /// Whether it came apart into a list that stands so, and these entries.
    ghost parted: { Self → ListView T W → Names (Entry T W) → Type 0 };

    /// Adds a listener.
    fn insert(&mut self, mine: &mut Share<L>) -> Result<Key, ListenError>
        requires { 0 < mine.old.parts }
        ensures did { did (inserts result) self.old self.new }
        ensures counted { OnOk result (mine.new.amount ≡ mine.old.amount + 1) }
        ensures uncounted { OnErr result (mine.new.amount ≡ mine.old.amount) }
        ensures parts { mine.new.parts ≡ mine.old.parts };

    /// Removes a told listener, or stores the task of one that waits.
    fn register(
        &mut self,
        mine: &mut Share<L>,
        key: Key,
        task: W,
    ) -> Result<Registered<T>, RegisterError>
        requires { 0 < mine.old.parts }
        ensures did { did (registers key task result) self.old self.new }
        ensures counted { OnOk result (mine.new.amount ≡ mine.old.amount + 1) }
        ensures uncounted { OnErr result (mine.new.amount ≡ mine.old.amount) }
        ensures parts { mine.new.parts ≡ mine.old.parts };

    /// Removes a told listener.
    fn poll(&mut self, mine: &mut Share<L>, key: Key) -> Result<Option<T>, UnknownListener>
        requires { 0 < mine.old.parts }
        ensures did { did (polls key result) self.old self.new }
        ensures counted { (tag : T) → result ≡ Ok (Some tag) → mine.new.amount ≡ mine.old.amount + 1 }
        ensures waiting { result ≡ Ok None → mine.new.amount ≡ mine.old.amount }
        ensures uncounted { OnErr result (mine.new.amount ≡ mine.old.amount) }
        ensures parts { mine.new.parts ≡ mine.old.parts };

    /// Removes a listener.
    fn remove<S: Wakes<W>>(
        &mut self,
        mine: &mut Share<L>,
        key: Key,
        pass_on: bool,
        sink: &mut S,
    ) -> Result<bool, UnknownListener>
        requires { 0 < mine.old.parts }
        ensures did { (woken : Names W) × did (removes key pass_on woken result) self.old self.new × Woken S.wakes sink.old woken sink.new }
        ensures counted { OnOk result (mine.new.amount ≡ mine.old.amount + 1) }
        ensures uncounted { OnErr result (mine.new.amount ≡ mine.old.amount) }
        ensures parts { mine.new.parts ≡ mine.old.parts };

    /// Tells listeners.
    fn notify<N: Notification<Tag = T> + Drop, S: Wakes<W>>(
        &mut self,
        alloc: Global,
        mine: &mut Share<L>,
        notice: N,
        sink: &mut S,
    ) -> Result<usize, NotifyError>
        requires notice { N.can_give notice }
        requires share { 0 < mine.old.parts }
        ensures did { (tags : Names T) × (woken : Names W) × did (notifies (N.additional notice) (N.size notice) tags woken result) self.old self.new × IsDrawn N.gives notice tags × Woken S.wakes sink.old woken sink.new }
        ensures at_most { told_by result ≤ N.size notice }
        ensures tells { TellsOrNone N.gives N.size notice result }
        ensures counted { 0 < told_by result → mine.new.amount ≡ mine.old.amount + 1 }
        ensures uncounted { told_by result ≡ 0 → mine.new.amount ≡ mine.old.amount }
        ensures parts { mine.new.parts ≡ mine.old.parts };

    /// Makes room for so many more listeners, their records and their ends.
    fn reserve(&mut self, extra: usize) -> Result<(), NoMemory>
        ensures { did (makes_room extra result) self.old self.new };

    /// How many are listed.
    fn total(&self) -> usize
        ensures { did (counts_all result) self.now self.now };

    /// How many are told.
    fn told(&self) -> usize
        ensures { did (counts_told result) self.now self.now };

    /// The list as it stands, the record that leads there, and the book that counts it.
    fn into_parts(self) -> (List<T, W>, Vec<RecordedCall<T, W>>, Book<L>)
        ensures parted { parted self result.0 result.1.items }
        ensures replays { Replays nobody 0 result.1.items result.0.lists result.0.serials }
        ensures counted { length result.1.items ≡ result.2.total };
}
