//! The critical sections on one list that a channel's steps are made of. The caller holds the list's lock.

ghost use Rattle.std.specs.Prelude.{◌≡◌};
ghost use Rattle.event_listener.specs.Notices.{Woken};
ghost use Rattle.event_listener.specs.Lists.{registration};
ghost use Rattle.event_listener.specs.Runs.{room_polled};
ghost use Rattle.channel_calls.specs.Parts.{told_one, told_one_wakes, told_more, told_more_wakes, told_all, told_all_wakes, told_as, told_as_wakes, Registers};

use crate::stage::Telling;
use event_listener::key::Key;
use event_listener::list::List;
use event_listener::notify::{Additional, Notify};
use event_listener::wakes::Wakes;

/// Notifies one more of the waiting listeners, however many are told already.
#[inline(always)]
fn tell_one<W: Drop, S: Wakes<W>>(list: &mut List<(), W>, sink: &mut S)
    ensures lists { list.new.lists ≡ told_one list.old.lists }
    ensures woken { Woken S.wakes sink.old (told_one_wakes list.old.lists) sink.new }
    ensures room { list.new.room ≡ list.old.room }
{
    let notice = Additional {
        // Additional: a plain notification for one would tell nobody while a listener is told that has not polled.
        inner: Notify { count: 1 },
    };
    let _ = list.notify(notice, sink);
}

/// Notifies so many more of the waiting listeners, however many are told already.
fn tell_more<W: Drop, S: Wakes<W>>(list: &mut List<(), W>, count: usize, sink: &mut S)
    ensures lists { list.new.lists ≡ told_more count list.old.lists }
    ensures woken { Woken S.wakes sink.old (told_more_wakes count list.old.lists) sink.new }
    ensures room { list.new.room ≡ list.old.room }
{
    let notices = Additional {
        inner: Notify { count },
    };
    let _ = list.notify(notices, sink);
}

/// Notifies all: a list never has as many listeners as this notification is for.
#[inline(always)]
fn tell_all<W: Drop, S: Wakes<W>>(list: &mut List<(), W>, sink: &mut S)
    ensures lists { list.new.lists ≡ told_all list.old.lists }
    ensures woken { Woken S.wakes sink.old (told_all_wakes list.old.lists) sink.new }
    ensures room { list.new.room ≡ list.old.room }
{
    let _total = list.total();
    let notice = Notify { count: usize::MAX };
    let _ = list.notify(notice, sink);
}

/// Notifies these of the waiting listeners.
#[inline(always)]
pub fn tell<W: Drop, S: Wakes<W>>(list: &mut List<(), W>, telling: Telling, sink: &mut S)
    ensures lists { list.new.lists ≡ told_as telling list.old.lists }
    ensures woken { Woken S.wakes sink.old (told_as_wakes telling list.old.lists) sink.new }
    ensures room { list.new.room ≡ list.old.room }
{
    match telling {
        Telling::One => tell_one(list, sink),
        Telling::More(count) => tell_more(list, count, sink),
        Telling::All => tell_all(list, sink),
    }
}

/// Gives a waiting listener its task. One that was told is removed, and the task is returned: the list would drop it, and the poll that
/// goes on needs it for its next listener.
pub fn register<W: Drop>(list: &mut List<(), W>, key: Key, task: W) -> Option<W>
    ensures answer { Registers list.old.lists key task result }
    ensures lists { list.new.lists ≡ registration key task list.old.lists }
    ensures room { list.new.room ≡ room_polled list.old.lists key list.old.room }
{
    // Both calls are under one lock, so a listener that is found waiting still waits when it gets its task.
    match list.poll(key) {
        Ok(None) => {
            let _ = list.register(key, task);
            None
        }
        Ok(Some(())) => Some(task),
        Err(_) => Some(task),
    }
}
