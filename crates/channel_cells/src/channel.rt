//! What the handles of one channel share. The table owns the messages and counts; each lock owns a wait queue together with the seat that
//! says so in the channel's history.

pub mod look;
pub mod opening;

ghost use Rattle.std.specs.Prelude.{◌≡◌, ◌≤◌, ◌^◌};
ghost use Rattle.concurrent_queue.specs.declared.cells.QueueForm.TheVariants.{Bounded};

use crate::lists::{LiesHere, SeatedList, Table};
use crate::machine::OfChannel;
use channel_history::party::Standing;
use concurrent_queue::history::seats::IdleSeat;
use concurrent_queue::history::table::CallSeat;
use keyed_lock::KeyedLocks;

/// What the handles of a channel with a bound share: the table of its queue, and four wait queues behind a lock each. Words of the table
/// are the two counts of handles, and for each wait queue one that is 0 only if nobody waits there.
#[derive(Drop)]
pub struct ChannelTable<T: Drop, W: Drop> {
    pub(crate) table: Table<T, W>,
    pub(crate) lists: KeyedLocks<SeatedList<T, W>, Table<T, W>, LiesHere, 4>,
    pub(crate) capacity: usize,
    ghost same: { lists ≡ table },
    ghost bounded: { (table.table.shared.key ≡ Bounded capacity) × (capacity ≤ 2 ^ 58) },
}

/// The seat of a party of a channel that has no call under way: that of a handle, of an operation, or of a witness of calls.
pub type Seat<T, W> = IdleSeat<T, Standing<T, W>>;

/// The seat of a party's call.
pub(crate) type Calling<'a, T, W> = CallSeat<'a, T, Standing<T, W>, OfChannel>;

/// A channel that was just opened, with the seats of its first sender and its first receiver.
#[derive(Drop)]
pub struct Opened<T: Drop, W: Drop> {
    /// What the handles share.
    pub channel: ChannelTable<T, W>,
    /// The seat of the first sender.
    pub sender: Seat<T, W>,
    /// The seat of the first receiver.
    pub receiver: Seat<T, W>,
}
