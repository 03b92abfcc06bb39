//! What is done in one critical section on a wait queue.

ghost use Rattle.std.specs.Prelude.{List as Names};
ghost use Rattle.event_listener.specs.Notices.{Woken};
ghost use Rattle.event_listener.specs.declared.waking.Task.{Task as Waiter};
ghost use Rattle.async_channel.specs.Sections.{Section, inserts, registers, removes, tells};

use channel_calls::notices;
use channel_calls::stage::Telling;
use event_listener::error::ListenError;
use event_listener::key::Key;
use event_listener::list::List;
use event_listener::wakes::Wakes;
use event_listener::waking::Task;

/// A wait queue, by what is done to it in a critical section. The contract of a method says that this was done, with this answer, and
/// nothing else. So a body over lists of which nothing is known but this can show a section only by the very call that makes it.
pub(crate) trait Listeners: Drop {
    /// Whether this was done to the one list, so that it is the other.
    ghost did: { Section → Self → Self → Type 0 };

    /// Adds a listener without a task.
    fn insert(&mut self) -> Result<Key, ListenError>
        ensures { did (inserts result) self.old self.new };

    /// Gives a waiting listener its task. One that was told is removed, and the task is returned.
    fn register(&mut self, key: Key, task: Task) -> Option<Task>
        ensures { did (registers key task result) self.old self.new };

    /// Removes a listener. One that was told passes its notification on.
    fn remove<K: Wakes<Task>>(&mut self, key: Key, sink: &mut K)
        ensures { (names : Names Waiter) × did (removes key names) self.old self.new × Woken K.wakes sink.old names sink.new };

    /// Notifies these of the waiting listeners.
    fn tell<K: Wakes<Task>>(&mut self, telling: Telling, sink: &mut K)
        ensures { (names : Names Waiter) × did (tells telling names) self.old self.new × Woken K.wakes sink.old names sink.new };
}

impl Listeners for List<(), Task> {
    ghost use Rattle.async_channel.specs.Sections.{OnList};

    ghost did = { OnList };

    #[inline(always)]
    fn insert(&mut self) -> Result<Key, ListenError> {
        List::insert(self)
    }

    #[inline(always)]
    fn register(&mut self, key: Key, task: Task) -> Option<Task> {
        notices::register(self, key, task)
    }

    #[inline(always)]
    fn remove<K: Wakes<Task>>(&mut self, key: Key, sink: &mut K) {
        let _ = List::remove(self, key, true, sink);
    }

    #[inline(always)]
    fn tell<K: Wakes<Task>>(&mut self, telling: Telling, sink: &mut K) {
        notices::tell(self, telling, sink);
    }
}
