//! What the cells of a call do, each step as its machine does it next. Queue words and counts are touched by one atomic operation each, a
//! wait queue only in a critical section.

ghost use Rattle.std.specs.Prelude.{◌≡◌};
ghost use Rattle.channel_history.specs.Machine.{counter_of, waiters_of};

use crate::cells::CallCells;
use crate::lists;
use channel_calls::cells::ChannelCells;
use channel_calls::stage::{Side, Telling, WaitList};
use concurrent_queue::call::QueueReply;
use concurrent_queue::history::rule::Counter;
use concurrent_queue::queue_call::QueueCall;
use concurrent_queue::queue_call::whole::complete;
use event_listener::error::ListenError;
use event_listener::key::Key;
use event_listener::list::List;
use event_listener::wakes::Wakes;
use std::marker::Brand;
use std::sync::Wait;
use std::{mem, thread};

/// The table's count of these handles.
#[inline(always)]
pub(crate) fn counter_of(side: Side) -> Counter
    ensures { result ≡ counter_of side }
{
    match side {
        Side::Senders => Counter::First,
        Side::Receivers => Counter::Second,
    }
}

/// The table's count that says whether somebody waits on this list.
#[inline(always)]
pub(crate) fn waiters_of(line: WaitList) -> Counter
    ensures { result ≡ waiters_of line }
{
    match line {
        WaitList::Sends => Counter::Third,
        WaitList::Receives => Counter::Fourth,
        WaitList::Streams => Counter::Fifth,
        WaitList::Closings => Counter::Sixth,
    }
}

impl<'a, T: Drop, W: Drop, R: Wait> ChannelCells<T, W> for CallCells<'a, T, W, R> {
    ghost use Rattle.std.specs.Prelude.{◌≡◌};
    ghost use Rattle.channel_history.proofs.Cells.{CellsStand, CellsMay, CellsDid, ready, leads, rests};
    ghost use Rattle.channel_cells.specs.Cells.{view_of, form_in, IsSameParty, no_parts};

    ghost known = { ⊥ };

    ghost parts = { λ c. no_parts };

    ghost has_form = { λ c f. f ≡ form_in c };

    ghost did = { CellsDid form_in view_of IsSameParty };

    ghost may = { CellsMay form_in view_of };

    ghost stands = { CellsStand form_in view_of };

    ghost exact = { λ unknown. absurd unknown };

    ghost ready = { ready form_in view_of };

    ghost leads = { leads form_in view_of IsSameParty };

    ghost rests = { rests form_in view_of };

    // All steps of the queue's call, up to its answer: other threads may make steps in between, and nothing else of this call does.
    #[inline(always)]
    fn step_queue(&mut self, call: &mut QueueCall<T>) -> Option<QueueReply<T>> {
        let whole = mem::replace(call, QueueCall::ended());
        Some(complete(self.rt, whole, &mut self.queue))
    }

    fn insert(&mut self, line: WaitList) -> Result<Key, ListenError> {
        let mut section = self.enter(line);
        // Compare before and after: the step that lists the first waiting listener has to set the list's word, or `tell` would miss it.
        let before = lists::nobody_waits(&section.list);
        let answer = lists::insert(&mut section.list);
        let after = lists::nobody_waits(&section.list);
        self.happen::<Brand, (WaitList, Result<Key, ListenError>), Box<List<(), W>>>(
            line,
            before,
            after,
            &(line, answer),
            &section.list,
        );
        self.leave(line, section);
        answer
    }

    // The event is made before the list is changed, while the task is at hand. Nobody sees the list until it is returned.
    fn register(&mut self, line: WaitList, key: Key, task: W) -> Option<W> {
        let mut section = self.enter(line);
        self.queue
            .seat
            .turn_by::<Brand, (WaitList, Key), W>(&(line, key), &task);
        let back = lists::register(&mut section.list, key, task);
        self.leave(line, section);
        back
    }

    fn remove<S: Wakes<W>>(&mut self, line: WaitList, key: Key, sink: &mut S) {
        let mut section = self.enter(line);
        // If the last waiting listener leaves, the list's word is cleared, so that notifiers need not take the lock.
        let before = lists::nobody_waits(&section.list);
        lists::remove(&mut section.list, key, sink);
        let after = lists::nobody_waits(&section.list);
        self.happen::<Brand, (WaitList, Key), Box<List<(), W>>>(
            line,
            before,
            after,
            &(line, key),
            &section.list,
        );
        self.leave(line, section);
    }

    // If nobody waits, one load is the whole critical section: it would change nothing. Nobody is missed by that: a waiter was listed in a
    // section that set the list's word, and tries the queue once more after that.
    #[inline(always)]
    fn tell<S: Wakes<W>>(&mut self, line: WaitList, telling: Telling, sink: &mut S) {
        let nobody = self
            .queue
            .seat
            .pass_count::<Brand, WaitList, Telling>(waiters_of(line), &line, &telling);
        if nobody {
            return;
        }
        self.tell_some(line, telling, sink);
    }

    fn count(&mut self, side: Side) -> usize {
        // One load, true at that moment only: other handles come and go.
        self.queue.seat.count(counter_of(side)) as usize
    }

    fn lower(&mut self, side: Side) -> usize {
        // Lowers and reads in one step: if two handles are dropped at once, only one of them finds that it was the last, and closes.
        self.queue.seat.lower_count(counter_of(side)) as usize
    }

    // An exchange: the limit was tested of `from` alone. If another handle came in between, the call reads the count again, and yields
    // first. A count that no word can hold is refused without an operation on it.
    fn raise(&mut self, side: Side, from: usize) -> bool {
        if from == usize::MAX {
            self.queue.seat.turn_by::<Brand, Side, usize>(&side, &from);
            return false;
        }
        let found = self.queue.seat.raise_count(counter_of(side), from as u64) as usize;
        if found != from {
            thread::yield_now();
        }
        found == from
    }
}
