//! The record of a channel. It is finished, so nothing changes it. The invariant: it replays from the opening by the definitions of one
//! call at a time.

use super::laws::{a_record_leaves_nobody_asleep, a_record_loses_nothing};
use super::receipt::Receipt;
use std::marker::Model;

/// What happened on a channel between its opening and its end: every accepted call, in order.
///
/// It replays from the opening by the definitions of one call at a time: each reply and each wake-up is the model's at its place.
#[derive(Drop)]
pub struct Record<T> {
    /// The capacity with which the channel was opened.
    pub(crate) capacity: Option<usize>,
    pub(crate) entries: Vec<Receipt<T>>,
}

impl<T> Model for Record<T> {
    ghost use Rattle.channel_world.specs.RecordReplay.{RecordView, IsHistory};

    ghost Value = { RecordView T };

    ghost view = { λ r. record { capacity = r.capacity; entries = r.entries.items } };

    ghost invariant = { λ r. IsHistory r.capacity r.entries.items };
}

impl<T> Record<T> {
    ghost use Rattle.std.specs.Prelude.{◌≡◌, length};
    ghost use Rattle.channel_world.specs.RecordLaws.{KeepsItsLaws};
    ghost use Rattle.channel_world.specs.RecordReplay.{IsHistory};

    /// How many calls were made.
    pub fn len(&self) -> usize
        ensures { result ≡ length self.now.entries }
    {
        self.entries.len()
    }

    /// The capacity with which the channel was opened; `None` without a bound.
    pub fn capacity(&self) -> Option<usize>
        ensures { result ≡ self.now.capacity }
    {
        self.capacity
    }

    /// The entries in order: all calls that were made of the channel since it was opened, each at its place. What was received or
    /// displaced, followed by what the channel held at its end, is what was accepted, in order; and nobody was left asleep then beside a
    /// message, a free place or a closing unless a woken one is responsible.
    pub fn entries(&self) -> &[Receipt<T>]
        ensures entries { result.now ≡ self.now.entries }
        ensures history { IsHistory self.now.capacity self.now.entries }
        ensures laws { KeepsItsLaws self.now.capacity self.now.entries }
    {
        a_record_loses_nothing::<T>();
        a_record_leaves_nobody_asleep::<T>();
        self.entries.as_slice()
    }
}

impl<T: Eq> Record<T> {
    ghost use Rattle.std.specs.Prelude.{◌≡◌};
    ghost use Rattle.channel_world.specs.RecordReplay.{stands_in};

    /// Whether the entry at the receipt's place equals it, by `==`. Past the end of the record nothing does.
    pub fn holds(&self, receipt: &Receipt<T>) -> bool
        ensures { result ≡ stands_in ⟦<Receipt<T> as PartialEq>⟧.eq self.now.entries receipt.now }
    {
        match self.entries.get(receipt.place) {
            Some(entry) => *entry == *receipt,
            None => false,
        }
    }
}
