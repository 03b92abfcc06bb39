//! A channel of numbers whose tasks are names, and a sink that keeps the names of the tasks that were notified.
//!
//! Where memory is refused once, as `rt try --fail-alloc` does, the opening is tried a second time.

ghost use Rattle.std.specs.Prelude.{◌≡◌, ◌<◌, ◌≤◌, ◌^◌, [], ◌∷◌, IfSome};
ghost use Rattle.channel_calls.specs.declared.stage.Side.TheVariants.{Senders, Receivers};
ghost use Rattle.channel_cells.specs.Channel.{id_of, seat_table, standing_of};
ghost use Rattle.channel_history.specs.CallEnds.{Rests};

use channel_cells::channel::{ChannelTable, Opened, Seat};
use event_listener::wakes::Wakes;
use std::alloc::Global;

pub(crate) type Channel = ChannelTable<u64, u64>;

/// A new channel of this capacity, with the seats of its first handles. `None` where memory was refused twice.
pub(crate) fn opened(alloc: Global, capacity: usize) -> Option<Opened<u64, u64>>
    requires { (0 < capacity) × (capacity ≤ 2 ^ 58) }
    ensures sender { IfSome result (λ o. Rests (Senders ∷ []) [] (standing_of o.sender)) }
    ensures receiver { IfSome result (λ o. Rests (Receivers ∷ []) [] (standing_of o.receiver)) }
    ensures here { IfSome result (λ o. (seat_table o.sender ≡ id_of o.channel) × (seat_table o.receiver ≡ id_of o.channel)) }
{
    if let Ok(opened) = ChannelTable::open(alloc, capacity) {
        return Some(opened);
    }
    ChannelTable::open(alloc, capacity).ok()
}

/// Keeps the names of the tasks that were notified, in order.
#[derive(Drop)]
pub(crate) struct Names {
    pub(crate) names: Vec<u64>,
}

impl Names {
    /// Nobody was notified yet. There is room for eight names, where memory isn't refused twice.
    pub(crate) fn new(alloc: Global) -> Option<Names> {
        if let Ok(names) = Vec::with_capacity(alloc, 8) {
            return Some(Names { names });
        }
        Some(Names {
            names: Vec::with_capacity(alloc, 8).ok()?,
        })
    }

    /// Whether these were notified, in this order, and nobody else.
    pub(crate) fn are(&self, names: &[u64]) -> bool {
        self.names.as_slice() == names
    }
}

impl Wakes<u64> for Names {
    ghost wakes = { λ _ _ _. Unit {0} };

    fn wake(&mut self, task: u64) {
        let _ = self.names.push(task);
    }
}

/// Drops the tasks.
#[derive(Drop)]
pub(crate) struct Nobody;

impl Wakes<u64> for Nobody {
    ghost wakes = { λ _ _ _. Unit {0} };

    fn wake(&mut self, _task: u64) {}
}
