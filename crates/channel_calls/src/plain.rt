//! The cells of a channel with one owner: what they hold is known, so each operation's effect is exact.

use crate::cells::ChannelCells;
use crate::notices::{register, tell};
use crate::stage::{Side, Telling, WaitList};
use crate::words::ChannelWords;
use concurrent_queue::call::QueueReply;
use concurrent_queue::cells::{Cells, QueueForm};
use concurrent_queue::plain::PlainCells;
use concurrent_queue::queue_call::QueueCall;
use event_listener::error::ListenError;
use event_listener::key::Key;
use event_listener::list::List;
use event_listener::wakes::Wakes;
use std::alloc::{AllocError, Global};

/// A queue's cells, four wait queues and two counts of handles, with one owner.
pub struct PlainChannel<T, W> {
    cells: PlainCells<T>,
    sends: List<(), W>,
    receives: List<(), W>,
    streams: List<(), W>,
    closings: List<(), W>,
    senders: usize,
    receivers: usize,
}

/// Written by hand, so that crates above prove nothing about the cells and lists when they drop a channel.
impl<T: Drop, W: Drop> Drop for PlainChannel<T, W> {
    fn drop(self) {
        let PlainChannel {
            cells,
            sends,
            receives,
            streams,
            closings,
            senders: _,
            receivers: _,
        } = self;
        drop(cells);
        drop(sends);
        drop(receives);
        drop(streams);
        drop(closings);
    }
}

impl<T: Drop, W: Drop> PlainChannel<T, W> {
    ghost use Rattle.std.specs.Prelude.{◌≡◌, length, IfOk};
    ghost use Rattle.concurrent_queue.specs.Capacity.{capacity_of};
    ghost use Rattle.concurrent_queue.specs.Made.{CanBeMade, IsNew};
    ghost use Rattle.concurrent_queue.specs.Plain.{contents_of};
    ghost use Rattle.concurrent_queue.specs.Step.{closed_in};
    ghost use Rattle.channel_calls.specs.Parts.{new_wait_lists, listeners, count};
    ghost use Rattle.channel_calls.specs.Plain.{parts_of};

    /// An open and empty channel over a queue of this form, with one sender, one receiver and no listeners. `Err` if there is no memory for
    /// the queue.
    pub fn new(form: QueueForm, alloc: Global) -> Result<PlainChannel<T, W>, AllocError>
        requires form { CanBeMade form }
        ensures queue { IfOk result (λ channel. IsNew form (parts_of channel).cells) }
        ensures wait_lists { IfOk result (λ channel. (parts_of channel).wait_lists ≡ new_wait_lists) }
    {
        let cells = PlainCells::new(alloc, form)?;
        Ok(PlainChannel::over(cells, alloc))
    }

    /// How many listeners of this list are waiting and not told.
    pub fn waiting(&self, line: WaitList) -> usize
        ensures { result ≡ length (listeners line (parts_of self.now).wait_lists).waiting }
    {
        match line {
            WaitList::Sends => self.sends.total() - self.sends.told(),
            WaitList::Receives => self.receives.total() - self.receives.told(),
            WaitList::Streams => self.streams.total() - self.streams.told(),
            WaitList::Closings => self.closings.total() - self.closings.told(),
        }
    }

    /// How many messages fit; `None` without a bound.
    pub fn capacity(&self) -> Option<usize>
        ensures { result ≡ capacity_of (parts_of self.now).cells.form }
    {
        match self.cells.form() {
            QueueForm::Bounded(capacity) => Some(capacity),
            QueueForm::Unbounded => None,
        }
    }

    /// Whether the words of its queue say that it is closed.
    pub fn is_closed(&self) -> bool
        ensures { result ≡ closed_in (parts_of self.now).cells }
    {
        self.cells.is_closed()
    }

    /// How many handles of this kind live.
    fn handles(&self, side: Side) -> usize
        ensures { result ≡ count side (parts_of self.now).wait_lists }
    {
        match side {
            Side::Senders => self.senders,
            Side::Receivers => self.receivers,
        }
    }

    /// A channel over the cells of this queue, with one sender, one receiver and no listeners.
    fn over(cells: PlainCells<T>, alloc: Global) -> PlainChannel<T, W>
        ensures cells { (parts_of result).cells ≡ contents_of cells }
        ensures wait_lists { (parts_of result).wait_lists ≡ new_wait_lists }
    {
        PlainChannel {
            cells,
            sends: List::new(alloc),
            receives: List::new(alloc),
            streams: List::new(alloc),
            closings: List::new(alloc),
            senders: 1,
            receivers: 1,
        }
    }
}

impl<T: Drop, W: Drop> PlainChannel<T, W> {
    ghost use Rattle.std.specs.Prelude.{◌≤◌, length};
    ghost use Rattle.channel_calls.specs.Parts.{listeners};
    ghost use Rattle.channel_calls.specs.Plain.{parts_of};
    ghost use Rattle.channel_calls.specs.declared.stage.WaitList.{WaitList};

    /// A number that none of the four wait queues is longer than, so no step wakes more tasks.
    pub fn most_listeners(&self) -> usize
        ensures { (line : WaitList) → length (listeners line (parts_of self.now).wait_lists).waiting ≤ result }
    {
        self.sends
            .total()
            .max(self.receives.total())
            .max(self.streams.total())
            .max(self.closings.total())
    }
}

impl<T: Drop, W: Drop> ChannelCells<T, W> for PlainChannel<T, W> {
    ghost use Rattle.std.specs.Prelude.{◌≡◌};
    ghost use Rattle.channel_calls.specs.Plain.{form_of, parts_of, DoesPlain};

    ghost known = { Unit {0} };

    ghost parts = { parts_of };

    ghost has_form = { λ c f. f ≡ form_of c };

    ghost did = { DoesPlain };

    ghost exact = { λ known d a b done. done.0 };

    ghost ready = { λ at next s d stands does. tt };

    ghost leads = { λ at next s t d stands done does. tt };

    ghost rests = { λ at next s stands idles. tt };

    fn step_queue(&mut self, call: &mut QueueCall<T>) -> Option<QueueReply<T>> {
        call.step(&mut self.cells)
    }

    fn insert(&mut self, line: WaitList) -> Result<Key, ListenError> {
        match line {
            WaitList::Sends => self.sends.insert(),
            WaitList::Receives => self.receives.insert(),
            WaitList::Streams => self.streams.insert(),
            WaitList::Closings => self.closings.insert(),
        }
    }

    fn register(&mut self, line: WaitList, key: Key, task: W) -> Option<W> {
        match line {
            WaitList::Sends => register(&mut self.sends, key, task),
            WaitList::Receives => register(&mut self.receives, key, task),
            WaitList::Streams => register(&mut self.streams, key, task),
            WaitList::Closings => register(&mut self.closings, key, task),
        }
    }

    fn remove<S: Wakes<W>>(&mut self, line: WaitList, key: Key, sink: &mut S) {
        let _ = match line {
            WaitList::Sends => self.sends.remove(key, true, sink),
            WaitList::Receives => self.receives.remove(key, true, sink),
            WaitList::Streams => self.streams.remove(key, true, sink),
            WaitList::Closings => self.closings.remove(key, true, sink),
        };
    }

    fn tell<S: Wakes<W>>(&mut self, line: WaitList, telling: Telling, sink: &mut S) {
        match line {
            WaitList::Sends => tell(&mut self.sends, telling, sink),
            WaitList::Receives => tell(&mut self.receives, telling, sink),
            WaitList::Streams => tell(&mut self.streams, telling, sink),
            WaitList::Closings => tell(&mut self.closings, telling, sink),
        }
    }

    fn count(&mut self, side: Side) -> usize {
        self.handles(side)
    }

    fn lower(&mut self, side: Side) -> usize {
        let before = self.handles(side);
        let after = before.saturating_sub(1);
        match side {
            Side::Senders => self.senders = after,
            Side::Receivers => self.receivers = after,
        }
        before
    }

    fn raise(&mut self, side: Side, from: usize) -> bool {
        if self.handles(side) != from || from == usize::MAX {
            return false;
        }
        match side {
            Side::Senders => self.senders = from + 1,
            Side::Receivers => self.receivers = from + 1,
        }
        true
    }
}

impl<T: Drop, W: Drop> ChannelWords<T, W> for PlainChannel<T, W> {
    ghost use Rattle.std.specs.Prelude.{◌≡◌};
    ghost use Rattle.channel_calls.specs.Effects.{Does};
    ghost use Rattle.channel_calls.specs.Plain.{form_of, parts_of};

    ghost has_form = { λ c f. f ≡ form_of c };

    ghost did = { λ d a b. Does d (parts_of a) (parts_of b) };

    ghost ready = { λ at next s d stands does. tt };

    ghost leads = { λ at next s t d stands done does. tt };

    ghost rests = { λ at next s stands idles. tt };

    fn step_words(&mut self, call: &mut QueueCall<T>) -> Option<QueueReply<T>> {
        call.step(&mut self.cells)
    }

    fn count(&mut self, side: Side) -> usize {
        self.handles(side)
    }
}
