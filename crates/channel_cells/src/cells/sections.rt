//! A critical section on one of a channel's wait queues: take the lock, join the list's seat into that of the call, make the event, split
//! the seat off again, and release the lock. Between taking and releasing only this call sees or changes the list and its word.

ghost use Rattle.std.specs.Prelude.{◌≡◌, []};
ghost use Rattle.channel_history.specs.CallSections.{HoldsList, IsInside, MayTurn, without_lists};
ghost use Rattle.channel_history.specs.declared.party.Standing.{Standing};
ghost use Rattle.channel_cells.specs.Cells.{view_of, form_in, IsSameCall, MayNotify, HasNotified};
ghost use Rattle.channel_cells.specs.Lists.{index_of};

use crate::cells::steps::waiters_of;
use crate::cells::{CallCells, Section};
use crate::lists::{self, SeatedList, index_of};
use channel_calls::stage::{Telling, WaitList};
use channel_history::party::Standing;
use concurrent_queue::history::led::LeadsTo;
use event_listener::list::List;
use event_listener::wakes::Wakes;
use std::marker::Brand;
use std::sync::Wait;

impl<'a, T: Drop, W: Drop, R: Wait> CallCells<'a, T, W, R> {
    /// Takes the list of this kind, whose seat joins that of the call. It may wait while another call has the list.
    #[inline(always)]
    pub(crate) fn enter(&mut self, line: WaitList) -> Section<'a, T, W>
        requires free { (view_of self.old).own.lists ≡ [] }
        ensures inside { IsInside line result.list.value.lists (view_of self.old) (view_of self.new) }
        ensures taken { (result.taken.0 ≡ self.new.channel.now.table) × (result.taken.1 ≡ index_of line) }
        ensures same { IsSameCall self.old self.new }
    {
        let (seated, taken) = self.channel.lists.take(self.rt, index_of(line));
        let SeatedList { list, seat } = seated;
        // Before anything is done to the list: a step on it is one of the call and of the list's seat together.
        self.queue.seat.take_in(seat);
        Section { list, taken }
    }

    /// Returns the list, whose seat is split off that of the call.
    #[inline(always)]
    pub(crate) fn leave(&mut self, line: WaitList, section: Section<'a, T, W>)
        requires inside { HoldsList line section.list.value.lists (view_of self.old) }
        requires taken { (section.taken.0 ≡ self.old.channel.now.table) × (section.taken.1 ≡ index_of line) }
        ensures outside { view_of self.new ≡ without_lists (view_of self.old) }
        ensures same { IsSameCall self.old self.new }
    {
        let Section { list, taken } = section;
        // Before the lock is free: the next call that takes the list needs its seat.
        let seat = self.queue.seat.part::<Brand, ()>(&());
        taken.give(SeatedList { list, seat });
    }

    /// The event of a critical section in which the list changed. `before` and `after` say whether nobody waited on it. If they differ, the
    /// list's word is set in the same step, so that a notifier which finds 0 there misses nobody; otherwise the step is a load.
    #[inline(always)]
    pub(crate) fn happen<E: LeadsTo<Standing<T, W>>, X, Y>(
        &mut self,
        line: WaitList,
        before: bool,
        after: bool,
        about: &X,
        and: &Y,
    )
        requires next { (v : Standing T W) × MayTurn (form_in self.old) line before after (view_of self.old) v × E.to (view_of self.old) v }
        ensures made { E.to (view_of self.old) (view_of self.new) }
        ensures channel { self.new.channel.now ≡ self.old.channel.now }
        ensures same { IsSameCall self.old self.new }
    {
        if before == after {
            // The word is right as it is, so the event is a load.
            self.queue.seat.turn_by::<E, X, Y>(about, and);
        } else {
            // Under the list's lock, so a store suffices: nobody else writes the word, and notifiers that load it see the list before or
            // after this step.
            let raised = u64::from(before);
            self.queue
                .seat
                .set_count::<E, X, Y>(waiters_of(line), raised, about, and);
        }
    }

    /// The critical section of a notification, if somebody may wait.
    pub(crate) fn tell_some<S: Wakes<W>>(&mut self, line: WaitList, telling: Telling, sink: &mut S)
        requires may { MayNotify (form_in self.old) line telling (view_of self.old) }
        ensures told { HasNotified S.wakes (form_in self.old) line telling (view_of self.old) (view_of self.new) sink.old sink.new }
        ensures same { IsSameCall self.old self.new }
    {
        // Read the list under its lock: since the load of its word others may have come or left.
        let mut section = self.enter(line);
        let before = lists::nobody_waits(&section.list);
        lists::tell(&mut section.list, telling, sink);
        let after = lists::nobody_waits(&section.list);
        self.happen::<Brand, (WaitList, Telling), Box<List<(), W>>>(
            line,
            before,
            after,
            &(line, telling),
            &section.list,
        );
        self.leave(line, section);
    }
}
