//! A channel with a bound: the table of its queue and its counts, under the rule that there is one history of all that was done to it.
//!
//! # Extensions
//!
//! [`Witness`].

pub(crate) mod blocking;
mod counts;
pub(crate) mod polls;

ghost use Rattle.std.specs.Prelude.{◌≡◌, ◌<◌, ◌≤◌, ◌^◌, [], ◌∷◌, IfOk};
ghost use Rattle.channel_calls.specs.declared.stage.Side.TheVariants.{Senders, Receivers};
ghost use Rattle.channel_cells.specs.Channel.{form_of, id_of, seat_table, standing_of};
ghost use Rattle.channel_history.specs.CallEnds.{Rests};
ghost use Rattle.concurrent_queue.specs.declared.cells.QueueForm.TheVariants as form;

use channel_cells::channel::{ChannelTable, Opened, Seat};
use event_listener::waking::Task;
use std::alloc::{AllocError, Global};

/// A party of calls on a channel with a bound, which has none under way. Its view says, in order, what it asked and what it was answered.
///
/// It takes no bytes. [`look`](crate::Witnessed::look) says that this stands in the one history of the channel.
pub type Witness<T> = Seat<T, Task>;

/// The table that the handles of a channel share, and the channel's identity, which is here and nowhere else.
#[derive(Drop)]
pub(crate) struct Bounded<T: Drop> {
    pub(crate) table: ChannelTable<T, Task>,
    pub(crate) alloc: Global,
    pub(crate) id: u64,
}

/// A channel that was just opened, and the seats of its first two handles.
pub(crate) type New<T> = (Bounded<T>, Witness<T>, Witness<T>);

impl<T: Drop> Bounded<T> {
    /// A channel of at most `capacity` messages, of this identity, and the seats of its first sender and its first receiver.
    pub(crate) fn open(alloc: Global, capacity: usize, id: u64) -> Result<New<T>, AllocError>
        requires { (0 < capacity) × (capacity ≤ 2 ^ 58) }
        ensures form { IfOk result (λ o. form_of o.0.table ≡ form.Bounded capacity) }
        ensures id { IfOk result (λ o. o.0.id ≡ id) }
        ensures sender { IfOk result (λ o. (seat_table o.1 ≡ id_of o.0.table) × Rests (Senders ∷ []) [] (standing_of o.1)) }
        ensures receiver { IfOk result (λ o. (seat_table o.2 ≡ id_of o.0.table) × Rests (Receivers ∷ []) [] (standing_of o.2)) }
    {
        let Opened {
            channel,
            sender,
            receiver,
        } = ChannelTable::open(alloc, capacity)?;
        let bounded = Bounded {
            table: channel,
            alloc,
            id,
        };
        Ok((bounded, sender, receiver))
    }
}
