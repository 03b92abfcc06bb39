//! The opening of a channel: its table, whose first party has all that other seats are to have, and the four wait queues, each behind its
//! lock.

ghost use Rattle.std.specs.Prelude.{◌≡◌, suc, ◌<◌, ◌≤◌, ◌^◌, [], ◌∷◌, IfOk};
ghost use Rattle.concurrent_queue.specs.declared.cells.QueueForm.TheVariants.{Bounded};
ghost use Rattle.channel_calls.specs.declared.stage.Side.TheVariants.{Senders, Receivers};
ghost use Rattle.channel_history.specs.CallSections.{LiesAlone};
ghost use Rattle.channel_cells.specs.Channel.{form_of, id_of, seat_table, standing_of};
ghost use Rattle.channel_cells.specs.Lists.{index_of, opening_at, with_handles};

use crate::channel::{Calling, ChannelTable, Opened};
use crate::lists::SeatedList;
use channel_calls::stage::WaitList;
use channel_history::party::Standing;
use concurrent_queue::history::seats::NamelessSeat;
use concurrent_queue::history::table::RuledTable;
use event_listener::list::List;
use keyed_lock::KeyedLocks;
use std::alloc::{AllocError, Global};
use std::marker::Brand;

/// A list without listeners, in a block of its own.
fn new_list<W: Drop>(alloc: Global) -> Result<Box<List<(), W>>, AllocError>
    ensures empty { IfOk result (λ list. (list.value.lists.told ≡ []) × (list.value.lists.waiting ≡ [])) }
{
    match Box::new(alloc, List::new(alloc)) {
        Ok(list) => Ok(list),
        Err(_) => Err(AllocError),
    }
}

/// This new list, of this kind, with the seat that says that it lies here, split off the seat of the opening.
fn part_list<T: Drop, W: Drop>(
    seat: &mut Calling<'_, T, W>,
    list: Box<List<(), W>>,
    line: WaitList,
) -> SeatedList<T, W>
    requires empty { (list.value.lists.told ≡ []) × (list.value.lists.waiting ≡ []) }
    requires last { seat.old.seat.me.0.state ≡ opening_at (suc (index_of line)) }
    ensures list { LiesAlone line result.list.value.lists result.seat.seat.me.0.state }
    ensures stays { seat.new.seat.me.0.state ≡ opening_at (index_of line) }
    ensures table { result.seat.seat.table_id ≡ seat.old.seat.table_id }
    ensures same { (seat.new.seat.table_id ≡ seat.old.seat.table_id) × (seat.new.seat.me.0.form ≡ seat.old.seat.me.0.form) }
{
    let apart = seat.part::<Brand, WaitList>(&line);
    SeatedList { list, seat: apart }
}

/// The seat of the first receiver, split off that of the first sender.
fn part_receiver<T: Drop, W: Drop>(seat: &mut Calling<'_, T, W>) -> NamelessSeat<T, Standing<T, W>>
    requires both { seat.old.seat.me.0.state ≡ opening_at 0 }
    ensures stays { seat.new.seat.me.0.state ≡ with_handles (Senders ∷ []) }
    ensures goes { (result.seat.me.0.state ≡ with_handles (Receivers ∷ [])) × (result.seat.table_id ≡ seat.old.seat.table_id) }
    ensures same { (seat.new.seat.table_id ≡ seat.old.seat.table_id) × (seat.new.seat.me.0.form ≡ seat.old.seat.me.0.form) }
{
    seat.part::<Brand, ()>(&())
}

impl<T: Drop, W: Drop> ChannelTable<T, W> {
    /// A channel of at most `capacity` messages, with one sender and one receiver. `Err` if there is no memory for it. It never waits.
    pub fn open(alloc: Global, capacity: usize) -> Result<Opened<T, W>, AllocError>
        requires { (0 < capacity) × (capacity ≤ 2 ^ 58) }
        ensures form { IfOk result (λ o. form_of o.channel ≡ Bounded capacity) }
        ensures sender { IfOk result (λ o. (standing_of o.sender ≡ with_handles (Senders ∷ [])) × (seat_table o.sender ≡ id_of o.channel)) }
        ensures receiver { IfOk result (λ o. (standing_of o.receiver ≡ with_handles (Receivers ∷ [])) × (seat_table o.receiver ≡ id_of o.channel)) }
    {
        let sends = new_list(alloc)?;
        let receives = new_list(alloc)?;
        let streams = new_list(alloc)?;
        let closings = new_list(alloc)?;
        // The two counts of handles are words of this table, further apart than a cache line. The table doesn't promise where its words
        // begin, so whether other words share their lines is not certain.
        let (table, first) = RuledTable::new(alloc, capacity, 1)?;
        let mut seat = table.go_on(first);
        let closings = part_list(&mut seat, closings, WaitList::Closings);
        let streams = part_list(&mut seat, streams, WaitList::Streams);
        let receives = part_list(&mut seat, receives, WaitList::Receives);
        let sends = part_list(&mut seat, sends, WaitList::Sends);
        let receiver = part_receiver(&mut seat);
        let sender = seat.rest();
        let receiver = table.name(receiver);
        let lists = KeyedLocks::new(alloc, [sends, receives, streams, closings], &table)?;
        let channel = ChannelTable {
            table,
            lists,
            capacity,
        };
        Ok(Opened {
            channel,
            sender,
            receiver,
        })
    }
}
