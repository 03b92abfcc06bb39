//! One of a channel's four wait queues, behind its lock, and the critical sections on it. The lock owns the list; it is reached only by a
//! `Turn`, which is one section. `channel_calls` has the reason for what a section does.

ghost use Rattle.std.specs.Prelude.{List as Names};
ghost use Rattle.event_listener.specs.Notices.{Woken};
ghost use Rattle.event_listener.specs.declared.waking.Task.{Task as Waiter};
ghost use Rattle.async_channel.specs.Sections.{OnSome, inserts, registers, removes, tells};

use crate::listeners::Listeners;
use channel_calls::stage::Telling;
use event_listener::error::ListenError;
use event_listener::key::Key;
use event_listener::section::{Locked, Section};
use event_listener::wakes::Wakes;
use event_listener::waking::Task;
use std::sync::Wait;

/// A wait queue behind a lock.
#[derive(Drop)]
pub(crate) struct Waiters<L: Drop> {
    list: Locked<L>,
}

impl<L: Drop> Waiters<L> {
    /// This list, behind a lock that is free.
    pub(crate) fn new(list: L) -> Waiters<L> {
        Waiters {
            list: Locked::new(list),
        }
    }

    /// The right to one critical section on the list.
    #[inline(always)]
    pub(crate) fn turn(&self) -> Turn<'_, L> {
        // No type and no clause keeps the shared cells from asking for two rights: that they ask once has to be read there.
        Turn {
            section: self.list.section(),
        }
    }
}

/// The right to one critical section on a list. Each call uses it up and has nothing else of the list, so it is one section, in which the
/// notified tasks are woken; a body that makes two does not type-check. What the section did is said of whatever lists, so it is the very
/// call that makes it.
pub(crate) struct Turn<'a, L> {
    section: Section<'a, L>,
}

impl<L: Listeners> Turn<'_, L> {
    /// Adds a listener without a task.
    pub(crate) fn insert<R: Wait>(self, rt: &R) -> Result<Key, ListenError>
        ensures { OnSome L.did (inserts result) }
    {
        let Turn { section } = self;
        // The listener waits from this section on: each later notification can reach it.
        section.enter(rt).value().insert()
    }

    /// Gives a waiting listener its task. One that was told is removed, and the task is returned.
    pub(crate) fn register<R: Wait>(self, rt: &R, key: Key, task: Task) -> Option<Task>
        ensures { OnSome L.did (registers key task result) }
    {
        let Turn { section } = self;
        // One section asks the listener and stores the task: a notification in between would wake nobody.
        section.enter(rt).value().register(key, task)
    }

    /// Removes a listener. One that was told passes its notification on.
    pub(crate) fn remove<R: Wait, S: Wakes<Task>>(self, rt: &R, key: Key, sink: &mut S)
        ensures { (names : Names Waiter) × OnSome L.did (removes key names) × Woken S.wakes sink.old names sink.new }
    {
        let Turn { section } = self;
        // One section removes the listener and passes its notification on, so at no moment that has reached nobody.
        section.enter(rt).value().remove(key, sink);
    }

    /// Notifies these of the waiting listeners.
    #[inline(always)]
    pub(crate) fn tell<R: Wait, S: Wakes<Task>>(self, rt: &R, telling: Telling, sink: &mut S)
        ensures { (names : Names Waiter) × OnSome L.did (tells telling names) × Woken S.wakes sink.old names sink.new }
    {
        let Turn { section } = self;
        // Wakers run in the section, in the order of listening.
        section.enter(rt).value().tell(telling, sink);
    }
}
