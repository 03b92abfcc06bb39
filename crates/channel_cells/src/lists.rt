//! A wait queue as it lies behind its lock. The invariant of each lock: the list comes with the seat that says in the channel's history
//! that this very list lies here. Nobody reaches a list without its lock.

ghost use Rattle.std.specs.Prelude.{◌≡◌, ◌≢◌, ◌<◌, IfOk, OnErr, None, [], true, false};
ghost use Rattle.event_listener.specs.Lists.{listened, kind_of, registration, removed, removed_wakes};
ghost use Rattle.event_listener.specs.Notices.{Woken};
ghost use Rattle.channel_calls.specs.Parts.{told_as, told_as_wakes, Registers};
ghost use Rattle.channel_cells.specs.Lists.{index_of};

use crate::machine::OfChannel;
use channel_calls::notices;
use channel_calls::stage::{Telling, WaitList};
use channel_history::party::Standing;
use concurrent_queue::history::seats::NamelessSeat;
use concurrent_queue::history::table::RuledTable;
use event_listener::error::ListenError;
use event_listener::key::Key;
use event_listener::list::List;
use event_listener::wakes::Wakes;
use keyed_lock::Keeps;

/// The table of a channel.
pub(crate) type Table<T, W> = RuledTable<T, Standing<T, W>, OfChannel>;

/// A list, with the seat that says in the channel's history that it lies here. It has a block of its own, since a critical section moves
/// it: moved by value, lists would be a large part of the cost of a try.
#[derive(Drop)]
pub struct SeatedList<T, W: Drop> {
    pub(crate) list: Box<List<(), W>>,
    pub(crate) seat: NamelessSeat<T, Standing<T, W>>,
}

/// What the value of a list's lock keeps: its seat is one of the channel's table, and says that this very list lies with it.
pub struct LiesHere;

impl<T, W: Drop> Keeps<SeatedList<T, W>, Table<T, W>> for LiesHere {
    ghost use Rattle.channel_cells.specs.Lists.{LiesThere};

    ghost keeps = { LiesThere };
}

/// Which of the four locks is that of this list.
#[inline(always)]
pub(crate) fn index_of(line: WaitList) -> usize
    ensures index { result ≡ index_of line }
    ensures there { result < 4 }
{
    match line {
        WaitList::Sends => 0,
        WaitList::Receives => 1,
        WaitList::Streams => 2,
        WaitList::Closings => 3,
    }
}

/// Whether nobody waits on the list; told listeners don't count.
#[inline(always)]
pub(crate) fn nobody_waits<W: Drop>(list: &Box<List<(), W>>) -> bool
    ensures nobody { result ≡ true → list.now.value.lists.waiting ≡ [] }
    ensures somebody { result ≡ false → list.now.value.lists.waiting ≢ [] }
{
    // This is what the list's word says: 0 exactly if it is true, whenever the lock is free.
    list.total() == list.told()
}

/// Adds a listener, which waits behind all others: [`List::insert`].
#[inline(always)]
pub(crate) fn insert<W: Drop>(list: &mut Box<List<(), W>>) -> Result<Key, ListenError>
    ensures lists { IfOk result (λ key. list.new.value.lists ≡ listened key list.old.value.lists) }
    ensures unknown { IfOk result (λ key. kind_of list.old.value.lists key ≡ None) }
    ensures unchanged { OnErr result (list.new.value.lists ≡ list.old.value.lists) }
{
    list.insert()
}

/// Gives a listener its task: [`notices::register`].
#[inline(always)]
pub(crate) fn register<W: Drop>(list: &mut Box<List<(), W>>, key: Key, task: W) -> Option<W>
    ensures answer { Registers list.old.value.lists key task result }
    ensures lists { list.new.value.lists ≡ registration key task list.old.value.lists }
{
    notices::register(&mut **list, key, task)
}

/// Removes a listener, which passes its notification on: [`List::remove`].
#[inline(always)]
pub(crate) fn remove<W: Drop, S: Wakes<W>>(list: &mut Box<List<(), W>>, key: Key, sink: &mut S)
    ensures lists { list.new.value.lists ≡ removed key true list.old.value.lists }
    ensures woken { Woken S.wakes sink.old (removed_wakes key true list.old.value.lists) sink.new }
{
    let _ = list.remove(key, true, sink);
}

/// Notifies these of the waiting listeners: [`notices::tell`].
#[inline(always)]
pub(crate) fn tell<W: Drop, S: Wakes<W>>(
    list: &mut Box<List<(), W>>,
    telling: Telling,
    sink: &mut S,
)
    ensures lists { list.new.value.lists ≡ told_as telling list.old.value.lists }
    ensures woken { Woken S.wakes sink.old (told_as_wakes telling list.old.value.lists) sink.new }
{
    notices::tell(&mut **list, telling, sink);
}
