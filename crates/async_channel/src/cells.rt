//! The cells of a channel without a bound, which threads share. This module alone reaches the counts of handles, and every other body does
//! so by an operation on these cells.

ghost use Rattle.std.specs.Prelude.{◌≡◌, Option, List as Names};
ghost use Rattle.concurrent_queue.specs.Replies.{Follows};
ghost use Rattle.concurrent_queue.specs.SharedQueue.{IsWordsAlone};
ghost use Rattle.concurrent_queue.specs.declared.cells.QueueForm.{QueueForm};
ghost use Rattle.event_listener.specs.Notices.{Woken};
ghost use Rattle.event_listener.specs.declared.waking.Task.{Task as Waiter};
ghost use Rattle.channel_calls.specs.Deeds.{Deed, inserted, registered, taken_off, told, counted, lowered, raised};
ghost use Rattle.async_channel.specs.Saw.{SawSteps};

use crate::listeners::Listeners;
use crate::seen::Trace;
use crate::shared::Shared;
use channel_calls::raised::Counters;
use channel_calls::stage::{Side, Telling, WaitList};
use concurrent_queue::call::QueueReply;
use concurrent_queue::queue_call::QueueCall;
use event_listener::error::ListenError;
use event_listener::key::Key;
use event_listener::list::List;
use event_listener::wakes::Wakes;
use event_listener::waking::Task;
use std::sync::Wait;
use std::sync::atomic::{AtomicUsize, Ordering};
use std::{mem, thread};

/// The counts of a channel's handles. Only the cells of this module reach them, so no other body can raise or lower a count.
#[derive(Drop)]
pub(crate) struct Counts {
    counters: Counters,
}

impl Counts {
    /// These counts, for the cells alone.
    pub(crate) fn new(counters: Counters) -> Counts {
        Counts { counters }
    }

    /// The count of this kind of handles.
    fn of(&self, side: Side) -> &AtomicUsize {
        self.counters.of(side)
    }

    /// How many handles of this kind are counted.
    fn now(&self, side: Side) -> usize {
        // One load, true at that moment only: other handles come and go.
        self.of(side).load(Ordering::SeqCst)
    }
}

/// A channel's cells as a trace sees them: each method is one call of the queue, shown to the trace, one critical section on a wait queue,
/// or one operation on a count. As of [`ChannelCells`](channel_calls::cells::ChannelCells), a contract says which operation was done, and
/// nothing of the contents.
pub(crate) trait Places<T>: Drop {
    /// The form of the queue; no operation changes it.
    ghost form_of: { Self → QueueForm };

    /// Whether this operation, with this answer, was done between these two. The trace has the steps of a queue's call.
    ghost did: { Deed T Waiter → Self → Self → Type 0 };

    /// Steps of a call of the queue, up to its answer: their operations are shown to this trace.
    fn step_told<S: Trace<T>>(
        &mut self,
        call: &mut QueueCall<T>,
        trace: &mut S,
    ) -> Option<QueueReply<T>>
        ensures deed { SawSteps S.did (form_of self.old) call.old trace.old call.new result trace.new }
        ensures answers { Follows (form_of self.old) call.old call.new result }
        ensures form { form_of self.new ≡ form_of self.old };

    /// Adds a listener without a task.
    fn insert(&mut self, line: WaitList) -> Result<Key, ListenError>
        ensures deed { did (inserted line result) self.old self.new }
        ensures form { form_of self.new ≡ form_of self.old };

    /// Gives a waiting listener its task.
    fn register(&mut self, line: WaitList, key: Key, task: Task) -> Option<Task>
        ensures deed { did (registered line key task result) self.old self.new }
        ensures form { form_of self.new ≡ form_of self.old };

    /// Removes a listener.
    fn remove<K: Wakes<Task>>(&mut self, line: WaitList, key: Key, sink: &mut K)
        ensures deed { (names : Names Waiter) × did (taken_off line key names) self.old self.new × Woken K.wakes sink.old names sink.new }
        ensures form { form_of self.new ≡ form_of self.old };

    /// Notifies these of the waiting listeners, in one critical section.
    fn tell<K: Wakes<Task>>(&mut self, line: WaitList, telling: Telling, sink: &mut K)
        ensures deed { (names : Names Waiter) × did (told line telling names) self.old self.new × Woken K.wakes sink.old names sink.new }
        ensures form { form_of self.new ≡ form_of self.old };

    /// The number of handles of this kind.
    fn count(&mut self, side: Side) -> usize
        ensures deed { did (counted side result) self.old self.new }
        ensures form { form_of self.new ≡ form_of self.old };

    /// Lowers the number of handles of this kind by one, and answers the number before.
    fn lower(&mut self, side: Side) -> usize
        ensures deed { did (lowered side result) self.old self.new }
        ensures form { form_of self.new ≡ form_of self.old };

    /// Raises the number of handles of this kind by one if it is `from` and one more fits a `usize`, and answers whether it did.
    fn raise(&mut self, side: Side, from: usize) -> bool
        ensures deed { did (raised side from result) self.old self.new }
        ensures form { form_of self.new ≡ form_of self.old };
}

/// Such cells on which a thread may sleep.
pub(crate) trait Beds<T>: Places<T> {
    /// Whether a task was asked for between these two, with this answer.
    ghost parked: { Option Waiter → Self → Self → Type 0 };

    /// Whether the thread slept between these two.
    ghost slept: { Self → Self → Type 0 };

    /// A task whose waking ends this thread's sleep; `None` if there is no memory for it.
    fn park(&mut self) -> Option<Task>
        ensures asked { parked result self.old self.new }
        ensures form { Self.form_of self.new ≡ Self.form_of self.old };

    /// Sleeps until such a task is woken.
    fn sleep(&mut self)
        ensures slept { slept self.old self.new }
        ensures form { Self.form_of self.new ≡ Self.form_of self.old };
}

/// The words of a channel's cells as a trace sees them: each method is one step that never waits.
pub(crate) trait Words<T>: Drop {
    /// The form of the queue; no step changes it.
    ghost form_of: { Self → QueueForm };

    /// Whether this operation, with this answer, was done between these two.
    ghost did: { Deed T Waiter → Self → Self → Type 0 };

    /// One step of a call of the queue that is a question other than the length: its operation is shown to this trace.
    fn step_told<S: Trace<T>>(
        &mut self,
        call: &mut QueueCall<T>,
        trace: &mut S,
    ) -> Option<QueueReply<T>>
        requires alone { IsWordsAlone call.old }
        ensures deed { SawSteps S.did (form_of self.old) call.old trace.old call.new result trace.new }
        ensures answers { Follows (form_of self.old) call.old call.new result }
        ensures form { form_of self.new ≡ form_of self.old };

    /// The number of handles of this kind.
    fn count(&mut self, side: Side) -> usize
        ensures deed { did (counted side result) self.old self.new }
        ensures form { form_of self.new ≡ form_of self.old };
}

/// A shared queue's cells, four locked wait queues and two shared counts. Nothing is known of what they hold, since any thread may make
/// steps on them at any time. A call that blocks its thread has a bed beside them.
#[derive(Drop)]
pub(crate) struct SharedCells<'a, T: Drop, R: Wait, B: Drop, L: Drop = List<(), Task>> {
    pub(crate) shared: &'a Shared<T, L>,
    pub(crate) rt: &'a R,
    pub(crate) bed: B,
}

impl<'a, T: Drop, R: Wait, B: Drop, L: Listeners> Places<T> for SharedCells<'a, T, R, B, L> {
    ghost use Rattle.async_channel.specs.Handles.{form_of};
    ghost use Rattle.async_channel.specs.Sections.{Answers};

    ghost form_of = { λ c. form_of c.shared.now };

    ghost did = { λ d before now. Answers L.did d };

    // The steps of the queue's call up to its answer, one after another: nothing else of the channel's call comes in between, while steps
    // of other threads may. The call is moved out for it, so an ended one stands in for it.
    #[inline(always)]
    fn step_told<S: Trace<T>>(
        &mut self,
        call: &mut QueueCall<T>,
        trace: &mut S,
    ) -> Option<QueueReply<T>> {
        let whole = mem::replace(call, QueueCall::ended());
        Some(self.shared.queue.complete_told(self.rt, whole, trace))
    }

    fn insert(&mut self, line: WaitList) -> Result<Key, ListenError> {
        self.shared.waiters(line).insert(self.rt)
    }

    fn register(&mut self, line: WaitList, key: Key, task: Task) -> Option<Task> {
        self.shared.waiters(line).register(self.rt, key, task)
    }

    fn remove<S: Wakes<Task>>(&mut self, line: WaitList, key: Key, sink: &mut S) {
        self.shared.waiters(line).remove(self.rt, key, sink);
    }

    #[inline(always)]
    fn tell<S: Wakes<Task>>(&mut self, line: WaitList, telling: Telling, sink: &mut S) {
        self.shared.waiters(line).tell(self.rt, telling, sink);
    }

    fn count(&mut self, side: Side) -> usize {
        self.shared.counts.now(side)
    }

    fn lower(&mut self, side: Side) -> usize {
        // Lowers and reads in one operation: of two drops at once only one finds that it was the last, and closes.
        self.shared.counts.of(side).fetch_sub(1, Ordering::SeqCst)
    }

    // An exchange: the limit, and for an upgrade that a handle lives, were tested of `from` alone. If another handle came in between, the
    // call reads the count again, and yields first.
    fn raise(&mut self, side: Side, from: usize) -> bool {
        let Some(next) = from.checked_add(1) else {
            return false;
        };
        let counter = self.shared.counts.of(side);
        let raised = counter.compare_exchange(from, next, Ordering::SeqCst, Ordering::SeqCst);
        if raised.is_err() {
            thread::yield_now();
        }
        raised.is_ok()
    }
}

/// The words of a shared queue and two shared counts, for the questions: without the runtime, so they never wait.
#[derive(Drop)]
pub(crate) struct SharedWords<'a, T: Drop> {
    pub(crate) shared: &'a Shared<T>,
}

impl<'a, T: Drop> Words<T> for SharedWords<'a, T> {
    ghost use Rattle.async_channel.specs.Handles.{form_of};

    ghost form_of = { λ c. form_of c.shared.now };

    ghost did = { λ d before now. Unit {0} };

    #[inline(always)]
    fn step_told<S: Trace<T>>(
        &mut self,
        call: &mut QueueCall<T>,
        trace: &mut S,
    ) -> Option<QueueReply<T>> {
        self.shared.queue.step_words_told(call, trace)
    }

    fn count(&mut self, side: Side) -> usize {
        self.shared.counts.now(side)
    }
}
