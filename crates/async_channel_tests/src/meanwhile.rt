//! Cells of a channel of these tests' own: what other parties do meanwhile happens where a call asks for its parker, where it sleeps,
//! and where it raises the count of handles.

use channel_calls::cells::ChannelCells;
use channel_calls::notices;
use channel_calls::sleeps::Sleeps;
use channel_calls::stage::{Side, Telling, WaitList};
use concurrent_queue::call::QueueReply;
use concurrent_queue::queue_call::QueueCall;
use concurrent_queue::shared::queue::ConcurrentQueue;
use event_listener::error::ListenError;
use event_listener::key::Key;
use event_listener::list::List;
use event_listener::wakes::Wakes;
use std::alloc::{AllocError, Global};
use std::mem;
use std::sync::Wait;

/// The name of a send that waits beside the call.
pub(crate) const OTHER: u32 = 7;

/// The name of the call's own task.
pub(crate) const OWN: u32 = 9;

/// A sink that keeps the name of the last one woken.
#[derive(Drop)]
pub(crate) struct Last {
    pub(crate) woken: u32,
}

impl Wakes<u32> for Last {
    ghost wakes = { λ s t u. Unit {0} };

    fn wake(&mut self, task: u32) {
        self.woken = task;
    }
}

/// How many handles of each kind a channel has, and how often that was raised or lowered. As often as `contended` says, another
/// handle comes before one is raised.
#[derive(Clone, Copy)]
pub(crate) struct Handles {
    pub(crate) count: usize,
    pub(crate) contended: u32,
    pub(crate) raised: u32,
    pub(crate) lowered: u32,
}

/// A queue of one place and its lists of listeners, on which a thread may sleep. A receive of another party comes in where the parker
/// is refused, or else where the thread sleeps.
#[derive(Drop)]
pub(crate) struct Beside<'a, R: Wait> {
    rt: &'a R,
    pub(crate) queue: ConcurrentQueue<u64>,
    pub(crate) sends: List<(), u32>,
    others: List<(), u32>,
    pub(crate) refuses: bool,
    pub(crate) asked: u32,
    pub(crate) last: Last,
    pub(crate) handles: Handles,
}

impl<'a, R: Wait> Beside<'a, R> {
    ghost use Rattle.std.specs.Prelude.{◌≡◌};

    /// The receive of another party: it takes the oldest message and tells a send.
    fn receives(&mut self)
        ensures { self.new.queue ≡ self.old.queue }
    {
        let _ = self.queue.pop(self.rt);
        notices::tell(&mut self.sends, Telling::One, &mut self.last);
    }

    /// A further send waits, which has its task.
    fn waits_beside(&mut self)
        ensures { self.new.queue ≡ self.old.queue }
    {
        if let Ok(key) = self.sends.insert() {
            let _ = notices::register(&mut self.sends, key, OTHER);
        }
    }
}

impl<'a, R: Wait> ChannelCells<u64, u32> for Beside<'a, R> {
    ghost use Rattle.std.specs.Prelude.{◌≡◌};
    ghost use Rattle.concurrent_queue.specs.Contents.{no_contents};
    ghost use Rattle.channel_calls.specs.Parts.{new_wait_lists};

    ghost known = { ⊥ };

    ghost parts = { λ c. record { cells = no_contents c.queue.form; wait_lists = new_wait_lists } };

    ghost has_form = { λ c f. f ≡ c.queue.form };

    ghost exact = { λ unknown. absurd unknown };

    ghost ready = { λ at next s d stands does. tt };

    ghost leads = { λ at next s t d stands done does. tt };

    ghost rests = { λ at next s stands idles. tt };

    fn step_queue(&mut self, call: &mut QueueCall<u64>) -> Option<QueueReply<u64>> {
        let whole = mem::replace(call, QueueCall::ended());
        Some(self.queue.complete(self.rt, whole))
    }

    fn insert(&mut self, line: WaitList) -> Result<Key, ListenError> {
        match line {
            WaitList::Sends => self.sends.insert(),
            _ => self.others.insert(),
        }
    }

    fn register(&mut self, line: WaitList, key: Key, task: u32) -> Option<u32> {
        match line {
            WaitList::Sends => notices::register(&mut self.sends, key, task),
            _ => notices::register(&mut self.others, key, task),
        }
    }

    fn remove<S: Wakes<u32>>(&mut self, line: WaitList, key: Key, sink: &mut S) {
        let _ = match line {
            WaitList::Sends => self.sends.remove(key, true, sink),
            _ => self.others.remove(key, true, sink),
        };
    }

    fn tell<S: Wakes<u32>>(&mut self, line: WaitList, telling: Telling, sink: &mut S) {
        match line {
            WaitList::Sends => notices::tell(&mut self.sends, telling, sink),
            _ => notices::tell(&mut self.others, telling, sink),
        }
    }

    fn count(&mut self, _side: Side) -> usize {
        self.handles.count
    }

    fn lower(&mut self, _side: Side) -> usize {
        self.handles.lowered = self.handles.lowered.wrapping_add(1);
        self.handles.count
    }

    fn raise(&mut self, _side: Side, _from: usize) -> bool {
        if self.handles.contended > 0 {
            self.handles.contended = self.handles.contended.wrapping_sub(1);
            return false;
        }
        self.handles.raised = self.handles.raised.wrapping_add(1);
        true
    }
}

impl<'a, R: Wait> Sleeps<u64, u32> for Beside<'a, R> {
    ghost free = { (λ at s. tt, λ d s. tt) };

    fn park(&mut self) -> Option<u32> {
        self.asked = self.asked.wrapping_add(1);
        if self.refuses {
            self.waits_beside();
            self.receives();
            return None;
        }
        Some(OWN)
    }

    fn sleep(&mut self) {
        self.receives();
    }
}

/// An empty channel of one place, with one handle of each kind.
pub(crate) fn empty_cells<R: Wait>(
    rt: &R,
    alloc: Global,
    refuses: bool,
) -> Result<Beside<'_, R>, AllocError> {
    let queue = match ConcurrentQueue::bounded(alloc, 1) {
        Ok(queue) => queue,
        Err(_) => return Err(AllocError),
    };
    let handles = Handles {
        count: 1,
        contended: 0,
        raised: 0,
        lowered: 0,
    };
    Ok(Beside {
        rt,
        queue,
        sends: List::new(alloc),
        others: List::new(alloc),
        refuses,
        asked: 0,
        last: Last { woken: 0 },
        handles,
    })
}
