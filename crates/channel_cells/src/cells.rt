//! The cells of a call under way, over the table and the wait queues that threads share. Each operation is required to be the next of the
//! call's machine, and is one event of the one history.

pub(crate) mod sections;
pub(crate) mod steps;

ghost use Rattle.std.specs.Prelude.{◌≡◌};

use crate::channel::ChannelTable;
use crate::lists::{LiesHere, SeatedList, Table};
use crate::machine::OfChannel;
use channel_history::party::Standing;
use concurrent_queue::history::cells::HistoryCells;
use event_listener::list::List;
use keyed_lock::Taken;
use std::sync::Wait;

/// The cells of a call under way. They have no drop: a call that has begun is made up to its answer, and ended.
pub struct CallCells<'a, T: Drop, W: Drop, R: Wait> {
    pub(crate) channel: &'a ChannelTable<T, W>,
    pub(crate) rt: &'a R,
    pub(crate) queue: HistoryCells<'a, T, Standing<T, W>, OfChannel>,
    ghost same: { queue.seat.seat.table_id ≡ channel.now.table.table.shared.table_id },
    ghost form: { queue.seat.seat.me.0.form ≡ channel.now.table.table.shared.key },
}

/// A critical section that has begun: the list, which nobody else has meanwhile, and the obligation to return it.
pub(crate) struct Section<'a, T: Drop, W: Drop> {
    pub(crate) list: Box<List<(), W>>,
    pub(crate) taken: Taken<'a, SeatedList<T, W>, Table<T, W>, LiesHere>,
}
