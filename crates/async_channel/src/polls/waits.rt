//! What an operation keeps from poll to poll. `Waits` owns the operation's listener: only a poll changes it, and only a removal ends it.

ghost use Rattle.std.specs.Prelude.{◌≡◌, None, Some, []};
ghost use Rattle.std.specs.Option.{ForSome};
ghost use Rattle.futures.specs.Task.{IsArmed, Keeps};
ghost use Rattle.channel_cells.specs.Channel.{id_of, seat_table, standing_of};
ghost use Rattle.channel_history.specs.CallEnds.{Rests};
ghost use Rattle.channel_history.specs.InHand.{listed_on};
ghost use Rattle.async_channel.specs.Parties.{IsPartyOf, party_of};

use crate::polls::line::Line;
use crate::with_bound::Witness;
use channel_cells::channel::ChannelTable;
use event_listener::key::Key;
use event_listener::waking::{Task, WakerCell};
use futures::task::{Context, Poll};
use kept::Kept;
use std::alloc::Global;
use std::marker::PhantomData;
use std::sync::{Arc, Wait};

/// The listener of a pending operation on this wait queue, and the cell of its task's waker, which is made at the first poll. On a channel
/// with a bound it has a party's seat since then, which has the listener.
///
/// It can't be dropped: giving up, or a drop of the operation, ends it, in which the listener leaves this wait queue and no other. Only the
/// polls and these two read or change the listener.
pub(crate) struct Waits<T, L: Line> {
    seat: Option<Kept<Witness<T>>>,
    key: Option<Key>,
    cell: Option<Arc<WakerCell>>,
    line: PhantomData<L>,
    ghost listed: { ForSome seat (λ s. Rests [] (listed_on L.line key) (standing_of s.value)) },
}

impl<T: Drop, L: Line> Waits<T, L> {
    /// Without a listener. It takes no memory.
    pub(crate) fn new() -> Waits<T, L>
        ensures key { result.key ≡ None }
        ensures seat { result.seat ≡ None }
    {
        Waits {
            seat: None,
            key: None,
            cell: None,
            line: PhantomData,
        }
    }

    /// The listener.
    pub(crate) fn key(&self) -> Option<Key>
        ensures { result ≡ self.now.key }
    {
        self.key
    }

    /// Sets the listener that a poll left, on a channel without a bound.
    pub(super) fn keep(&mut self, key: Option<Key>)
        requires { self.old.seat ≡ None }
        ensures key { self.new.key ≡ key }
        ensures seat { self.new.seat ≡ None }
    {
        self.key = key;
    }

    /// The seat of its party, for a call, and its listener. At the first poll the party is new, and has none.
    pub(crate) fn take(&mut self, table: &ChannelTable<T, Task>) -> (Witness<T>, Option<Key>)
        requires here { IsPartyOf (Some (id_of table.now)) self.old.seat self.old.key }
        ensures seat { (seat_table result.0 ≡ id_of table.now) × (standing_of result.0 ≡ party_of self.old.seat) }
        ensures listed { Rests [] (listed_on L.line result.1) (standing_of result.0) }
        ensures key { result.1 ≡ self.old.key }
        ensures left { (self.new.seat ≡ None) × (self.new.key ≡ None) }
    {
        let key = self.key.take();
        match self.seat.take() {
            Some(kept) => (kept.into_inner(), key),
            None => (table.new_seat(), key),
        }
    }

    /// Sets the seat of its party, and its listener, as a poll left them.
    pub(crate) fn rest(&mut self, seat: Witness<T>, key: Option<Key>)
        requires listed { Rests [] (listed_on L.line key) (standing_of seat) }
        ensures { (self.new.seat ≡ Some (record { value = seat })) × (self.new.key ≡ key) }
    {
        self.seat = Some(Kept::new(seat));
        self.key = key;
    }

    /// Its listener, which the caller removes.
    pub(crate) fn end(self) -> Option<Key>
        ensures { result ≡ self.key }
    {
        let Waits {
            seat,
            key,
            cell,
            line: _,
        } = self;
        drop(seat);
        drop(cell);
        key
    }

    /// A copy of the task's waker, in the cell where a notification finds it; `None` if there is none. Either way it prepares the context
    /// for a pending answer.
    pub(crate) fn arm<R: Wait>(
        &mut self,
        rt: &R,
        alloc: Global,
        cx: &mut Context<'_>,
    ) -> Option<Task>
        ensures armed { IsArmed cx.new }
        ensures kept { Keeps cx.old cx.new }
        ensures key { self.new.key ≡ self.old.key }
        ensures seat { self.new.seat ≡ self.old.seat }
    {
        if self.cell.is_none() {
            self.cell = Arc::new(alloc, WakerCell::new()).ok();
        }
        match &self.cell {
            Some(cell) => {
                // Arm before the poll lists or registers: a notification takes the waker out of this cell.
                if !cell.arm(rt, cx) {
                    return None;
                }
                Some(Task::Polled(Arc::try_clone(cell).ok()?))
            }
            None => {
                // Without a cell nothing could wake the task, so it is polled again.
                let _pending: Poll<()> = cx.yield_now();
                None
            }
        }
    }
}
