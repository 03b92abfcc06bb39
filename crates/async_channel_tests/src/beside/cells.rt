//! The cells of a channel with one owner, on which others step between the operations of a call.

ghost use Rattle.std.specs.Prelude.{◌≡◌, Some};
ghost use Rattle.concurrent_queue.specs.Replies.{Follows};
ghost use Rattle.channel_calls.specs.Plain.{form_of, parts_of};

use crate::beside::kind::{Called, Kind};
use crate::beside::{ALL, Events, Other, is_owed};
use crate::scarce::Scarce;
use channel_calls::cells::ChannelCells;
use channel_calls::sleeps::Sleeps;
use channel_calls::stage::{Side, Telling, WaitList};
use channel_calls::words::ChannelWords;
use concurrent_queue::call::QueueReply;
use concurrent_queue::queue_call::QueueCall;
use event_listener::error::ListenError;
use event_listener::key::Key;
use event_listener::wakes::Wakes;
use std::sync::Wait;

/// So many operations after the others came between, they go on, one step before each operation: a call may wait for them.
const LATE: u32 = 40;

/// A call that has slept so often gets no task any more, so that it ends and is seen.
const NAPS: u32 = 8;

/// The cells of one owner, on which two others step before the operation of this number.
#[derive(Drop)]
pub(super) struct Beside<'a, R: Wait> {
    pub(super) rt: &'a R,
    pub(super) cells: Scarce,
    pub(super) bound: usize,
    pub(super) made: u32,
    pub(super) turn: u32,
    pub(super) steps: u32,
    pub(super) first: Other,
    pub(super) second: Other,
    pub(super) events: Events,
    pub(super) came_whole: bool,
    pub(super) line: WaitList,
    pub(super) task: u32,
    pub(super) listened: u32,
    pub(super) naps: u32,
    pub(super) is_lost: bool,
}

impl<'a, R: Wait> Beside<'a, R> {
    /// What comes before an operation.
    fn before(&mut self)
        ensures { form_of self.new.cells.channel ≡ form_of self.old.cells.channel }
    {
        self.made = self.made.wrapping_add(1);
        if self.made == self.turn {
            self.let_on(self.steps, 0);
            self.came_whole = self.first.said.is_some();
            self.let_on(0, ALL);
        } else if self.made > self.turn.saturating_add(LATE) {
            self.let_on(1, 1);
        }
    }

    /// All that are left of the steps of the queue's call, as over the cells that threads share, and others before each of them.
    fn all_steps(&mut self, call: &mut QueueCall<u64>) -> QueueReply<u64>
        ensures form { form_of self.new.cells.channel ≡ form_of self.old.cells.channel }
        ensures answers { Follows (form_of self.old.cells.channel) call.old call.new (Some result) }
    {
        for _ in self.rt.forever() {
            self.before();
            if let Some(reply) = self.cells.step_queue(call) {
                return reply;
            }
        }
        unreachable!()
    }

    /// Lets the others make up to so many steps.
    pub(super) fn let_on(&mut self, first: u32, second: u32)
        ensures { form_of self.new.cells.channel ≡ form_of self.old.cells.channel }
    {
        let (cells, events) = (&mut self.cells, &mut self.events);
        self.first.go_on(0, first, cells, events);
        self.second.go_on(1, second, cells, events);
    }

    /// Nobody is left who would wake the call: it may only sleep beside what isn't there for it. Then the channel is closed,
    /// which has to wake it.
    fn end_sleep(&mut self)
        ensures { form_of self.new.cells.channel ≡ form_of self.old.cells.channel }
    {
        let alloc = self.first.called.alloc;
        let lost = is_owed(self.line, self.bound, alloc, &mut self.cells);
        let mut closing = Other::new(Called::new(Kind::Close, 0, 0, alloc));
        closing.go_on(2, ALL, &mut self.cells, &mut self.events);
        drop(closing);
        self.is_lost = self.is_lost || lost || !self.cells.woken.is_woken(self.task);
    }
}

impl<'a, R: Wait> ChannelCells<u64, u32> for Beside<'a, R> {
    ghost known = { ⊥ };

    ghost parts = { λ c. parts_of c.cells.channel };

    ghost has_form = { λ c f. f ≡ form_of c.cells.channel };

    ghost exact = { λ unknown. absurd unknown };

    ghost ready = { λ at next s d stands does. tt };

    ghost leads = { λ at next s t d stands done does. tt };

    ghost rests = { λ at next s stands idles. tt };

    fn step_queue(&mut self, call: &mut QueueCall<u64>) -> Option<QueueReply<u64>> {
        Some(self.all_steps(call))
    }

    fn insert(&mut self, line: WaitList) -> Result<Key, ListenError> {
        self.before();
        if self.listened == 0 {
            self.listened = self.made;
        }
        self.cells.insert(line)
    }

    fn register(&mut self, line: WaitList, key: Key, task: u32) -> Option<u32> {
        self.before();
        self.cells.register(line, key, task)
    }

    fn remove<S: Wakes<u32>>(&mut self, line: WaitList, key: Key, sink: &mut S) {
        self.before();
        self.cells.remove(line, key, sink)
    }

    fn tell<S: Wakes<u32>>(&mut self, line: WaitList, telling: Telling, sink: &mut S) {
        self.before();
        self.cells.tell(line, telling, sink)
    }

    fn count(&mut self, side: Side) -> usize {
        self.before();
        ChannelCells::count(&mut self.cells, side)
    }

    fn lower(&mut self, side: Side) -> usize {
        self.before();
        self.cells.lower(side)
    }

    fn raise(&mut self, side: Side, from: usize) -> bool {
        self.before();
        self.cells.raise(side, from)
    }
}

impl<'a, R: Wait> ChannelWords<u64, u32> for Beside<'a, R> {
    ghost has_form = { λ c f. f ≡ form_of c.cells.channel };

    ghost ready = { λ at next s d stands does. tt };

    ghost leads = { λ at next s t d stands done does. tt };

    ghost rests = { λ at next s stands idles. tt };

    fn step_words(&mut self, call: &mut QueueCall<u64>) -> Option<QueueReply<u64>> {
        self.before();
        self.cells.channel.step_words(call)
    }

    fn count(&mut self, side: Side) -> usize {
        self.before();
        ChannelWords::count(&mut self.cells.channel, side)
    }
}

impl<'a, R: Wait> Sleeps<u64, u32> for Beside<'a, R> {
    ghost free = { (λ at s. tt, λ d s. tt) };

    fn park(&mut self) -> Option<u32> {
        if self.naps < NAPS {
            Some(self.task)
        } else {
            None
        }
    }

    fn sleep(&mut self) {
        self.naps = self.naps.saturating_add(1);
        self.let_on(ALL, ALL);
        if !self.cells.woken.is_woken(self.task) {
            self.end_sleep();
        }
        self.cells.woken.clear(self.task);
    }
}
