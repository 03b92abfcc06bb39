//! What a look proves of a channel's history, for any seat of one of its parties. It reads one word and changes nothing.

ghost use Rattle.std.specs.Prelude.{◌≡◌};
ghost use Rattle.concurrent_queue.specs.history.Shared.{both_views};
ghost use Rattle.channel_cells.specs.Channel.{id_of, seat_table, standing_of, view_in};
ghost use Rattle.channel_cells.specs.Look.{IsTold};
ghost use Rattle.channel_cells.specs.Over.{IsOver, WasToldTheEnd};

use crate::channel::{ChannelTable, Seat};
use channel_history::laws::{
    each_moment_is_said, handles_are_counted, histories_are_accounted, histories_are_runs,
    nobody_is_missed_at_rest, registrations_are_live,
};

impl<T: Drop, W: Drop> ChannelTable<T, W> {
    /// At any moment, whatever other threads are doing: there is one history of all that was done to this channel, in which the party of
    /// this seat is where its view says, with all that it asked and was answered. As long as positions last, it is a run of which the whole
    /// headline holds. It costs one load and never waits.
    pub fn look(&self, seat: &mut Seat<T, W>)
        requires here { seat_table seat.old ≡ id_of self.now }
        ensures told { IsTold (view_in seat.old) }
        ensures kept { (view_in seat.new ≡ view_in seat.old) × (seat_table seat.new ≡ seat_table seat.old) }
    {
        histories_are_runs::<T, W>();
        each_moment_is_said::<T, W>();
        histories_are_accounted::<T, W>();
        nobody_is_missed_at_rest::<T, W>();
        handles_are_counted::<T, W>();
        registrations_are_live::<T, W>();
        let _ = self.table.look(seat);
    }

    /// The same to a party that was told that no message will come any more: the channel is at its end, so that all that was accepted was
    /// taken, in order.
    pub fn look_at_end(&self, seat: &mut Seat<T, W>)
        requires here { seat_table seat.old ≡ id_of self.now }
        requires end { WasToldTheEnd (standing_of seat.old) }
        ensures over { IsOver (view_in seat.old) }
        ensures kept { (view_in seat.new ≡ view_in seat.old) × (seat_table seat.new ≡ seat_table seat.old) }
    {
        self.look(seat);
    }

    /// Joins another seat of this channel into this one, so that one look says of both parties that they are in one history. It costs one
    /// load.
    pub fn join(&self, one: &mut Seat<T, W>, other: Seat<T, W>)
        requires one { seat_table one.old ≡ id_of self.now }
        requires other { seat_table other ≡ id_of self.now }
        ensures joined { view_in one.new ≡ both_views (view_in one.old) (view_in other) }
        ensures kept { seat_table one.new ≡ seat_table one.old }
    {
        self.table.join(one, other);
    }
}
