//! An event that keeps a record of its calls.
//!
//! Every call takes the event's lock, and may wait for it. The invariant behind the lock: the record leads from an empty list to the list
//! as it is, call by call and answer by answer.
//!
//! # Extensions
//!
//! All of this module.
ghost use Rattle.std.specs.Prelude.{◌≡◌, ◌+◌, ◌≤◌, ◌<◌, length, OnErr, OnOk, Ok, Some, None, List as Names};
ghost use Rattle.event_listener.specs.Drawing.{TellsOrNone};
ghost use Rattle.event_listener.specs.Lists.{told_by};
ghost use Rattle.event_listener.specs.Notices.{Woken};
ghost use Rattle.event_listener.specs.Recorded.{OnRecord, IsDrawn, inserts, registers, polls, removes, notifies, makes_room, counts_told, counts_all};
ghost use Rattle.event_listener.specs.Replay.{Replays, nobody};

use crate::calls::Registered;
use crate::counted::Counted;
use crate::error::{ListenError, NoMemory, NotifyError, UnknownListener};
use crate::into_notification::IntoNotification;
use crate::key::Key;
use crate::list::List;
use crate::records::Records;
use crate::wakes::Wakes;
use std::alloc::Global;
use std::error::Error;
use std::fmt;
use std::marker::PhantomData;
use std::sync::ledger::{Book, Ledger, Share};
use std::sync::{Mutex, Wait};

/// A call that changed the list of a recorded event, with its answer. Calls that change nothing leave no entry.
#[derive(Debug, Drop, PartialEq, Eq)]
pub enum RecordedCall<T, W> {
    /// A listener was added, and got this key.
    Listened {
        /// Its key.
        key: Key,
    },
    /// A listener was registered: a told one was removed, one that waits got the task.
    Registered {
        /// Whose task it is.
        key: Key,
        /// What is woken when it is told.
        task: W,
        /// The tag of a told one.
        tag: Option<T>,
    },
    /// A told listener was polled, and so removed.
    Polled {
        /// Whose tag it is.
        key: Key,
        /// Its tag.
        tag: T,
    },
    /// A listener was removed.
    Removed {
        /// Which one.
        key: Key,
        /// Whether a notification was to be passed on.
        pass_on: bool,
        /// Whether it was told.
        told: bool,
    },
    /// Listeners were told.
    Notified {
        /// How many the notification was for.
        count: usize,
        /// Whether it was additional.
        additional: bool,
        /// The tags that it gave, in order.
        tags: Vec<T>,
        /// How many it told, or after how many a tag was refused.
        answer: Result<usize, NotifyError>,
    },
}

/// Why a registration was refused. Nothing was changed.
#[derive(Clone, Copy, PartialEq, Eq, Debug)]
pub enum RegisterError {
    /// There was no room for the record.
    NoMemory,
    /// The key names no listener of the event.
    UnknownListener,
}

impl fmt::Display for RegisterError {
    fn fmt<W: fmt::Write>(&self, f: &mut fmt::Formatter<W>) -> fmt::Result {
        match self {
            RegisterError::NoMemory => write!(f, "want of memory"),
            RegisterError::UnknownListener => write!(f, "no such listener"),
        }
    }
}

impl Error for RegisterError {}

/// A list of listeners under one lock, with a record of what was done to it.
///
/// Room for an entry is reserved before a call changes anything, and room for a listener's end when it is added, so that a listener can
/// always leave.
///
/// It is used in a function over its ledger `L`, whose book is this event's alone. A call that may add an entry takes a share of the
/// ledger, and adds one to its amount if it adds an entry. So the owner of all shares knows how many entries the record has.
#[derive(Drop)]
pub struct RecordedEvent<T: Copy, W: Copy, L: Ledger, C = Counted<T, W, L>> {
    alloc: Global,
    inner: Mutex<C>,
    of: PhantomData<Mutex<(T, W, Book<L>)>>,
}

impl<T: Copy, W: Copy, L: Ledger> RecordedEvent<T, W, L> {
    /// An event without listeners and with an empty record, which this book counts from now on. It takes no memory.
    pub fn new(alloc: Global, book: Book<L>) -> Self
        requires { book.total ≡ 0 }
    {
        RecordedEvent {
            alloc,
            inner: Mutex::new(Counted::new(alloc, book)),
            of: PhantomData,
        }
    }
}

impl<T: Copy, W: Copy, L: Ledger, C: Records<T, W, L>> RecordedEvent<T, W, L, C> {
    /// Adds a listener, which waits without a task. It is counted if it is not refused.
    ///
    /// `Err` for want of memory, of the list or of the record, or if all serials were given.
    pub fn insert<R: Wait>(&self, rt: &R, mine: &mut Share<L>) -> Result<Key, ListenError>
        requires { 0 < mine.old.parts }
        ensures counted { OnOk result (mine.new.amount ≡ mine.old.amount + 1) }
        ensures uncounted { OnErr result (mine.new.amount ≡ mine.old.amount) }
        ensures parts { mine.new.parts ≡ mine.old.parts }
        ensures stored { OnRecord C.did (inserts result) }
    {
        self.inner.lock(rt).insert(mine)
    }

    /// Removes a told listener, or stores the task of one that waits. It is counted if it is not refused. A told one is never refused for
    /// memory.
    pub fn register<R: Wait>(
        &self,
        rt: &R,
        mine: &mut Share<L>,
        key: Key,
        task: W,
    ) -> Result<Registered<T>, RegisterError>
        requires { 0 < mine.old.parts }
        ensures counted { OnOk result (mine.new.amount ≡ mine.old.amount + 1) }
        ensures uncounted { OnErr result (mine.new.amount ≡ mine.old.amount) }
        ensures parts { mine.new.parts ≡ mine.old.parts }
        ensures stored { OnRecord C.did (registers key task result) }
    {
        self.inner.lock(rt).register(mine, key, task)
    }

    /// Removes a told listener and returns its tag, which is counted; `None` while it waits, which isn't.
    pub fn poll<R: Wait>(
        &self,
        rt: &R,
        mine: &mut Share<L>,
        key: Key,
    ) -> Result<Option<T>, UnknownListener>
        requires { 0 < mine.old.parts }
        ensures counted { (tag : T) → result ≡ Ok (Some tag) → mine.new.amount ≡ mine.old.amount + 1 }
        ensures waiting { result ≡ Ok None → mine.new.amount ≡ mine.old.amount }
        ensures uncounted { OnErr result (mine.new.amount ≡ mine.old.amount) }
        ensures parts { mine.new.parts ≡ mine.old.parts }
        ensures stored { OnRecord C.did (polls key result) }
    {
        self.inner.lock(rt).poll(mine, key)
    }

    /// Removes a listener, and answers whether it was told. A told one may pass its notification on. It is counted if the key names a
    /// listener.
    pub fn remove<R: Wait, S: Wakes<W>>(
        &self,
        rt: &R,
        mine: &mut Share<L>,
        key: Key,
        pass_on: bool,
        sink: &mut S,
    ) -> Result<bool, UnknownListener>
        requires { 0 < mine.old.parts }
        ensures counted { OnOk result (mine.new.amount ≡ mine.old.amount + 1) }
        ensures uncounted { OnErr result (mine.new.amount ≡ mine.old.amount) }
        ensures parts { mine.new.parts ≡ mine.old.parts }
        ensures stored { (woken : Names W) × OnRecord C.did (removes key pass_on woken result) × Woken S.wakes sink.old woken sink.new }
    {
        self.inner.lock(rt).remove(mine, key, pass_on, sink)
    }

    /// Tells listeners, as [`Event::notify`](crate::event::Event::notify); their tasks go to the sink, in order. It is counted if it told
    /// anybody.
    ///
    /// `Err` if room for the record is refused, before anybody is told, or if a tag is.
    pub fn notify<N: IntoNotification<Tag = T>, R: Wait, S: Wakes<W>>(
        &self,
        rt: &R,
        mine: &mut Share<L>,
        notice: N,
        sink: &mut S,
    ) -> Result<usize, NotifyError>
        requires tags { (n : N.Notify) → N.becomes notice n → N.Notify.can_give n }
        requires share { 0 < mine.old.parts }
        ensures at_most { (n : N.Notify) × N.becomes notice n × (told_by result ≤ N.Notify.size n) }
        ensures tells { (n : N.Notify) × N.becomes notice n × TellsOrNone N.Notify.gives N.Notify.size n result }
        ensures counted { 0 < told_by result → mine.new.amount ≡ mine.old.amount + 1 }
        ensures uncounted { told_by result ≡ 0 → mine.new.amount ≡ mine.old.amount }
        ensures parts { mine.new.parts ≡ mine.old.parts }
        ensures stored { (n : N.Notify) × N.becomes notice n × (tags : Names T) × (woken : Names W) × OnRecord C.did (notifies (N.Notify.additional n) (N.Notify.size n) tags woken result) × IsDrawn N.Notify.gives n tags × Woken S.wakes sink.old woken sink.new }
    {
        let notice = notice.into_notification();
        self.inner.lock(rt).notify(self.alloc, mine, notice, sink)
    }

    /// Makes room for this many more listeners, their records and their ends.
    pub fn reserve<R: Wait>(&self, rt: &R, extra: usize) -> Result<(), NoMemory>
        ensures { OnRecord C.did (makes_room extra result) }
    {
        self.inner.lock(rt).reserve(extra)
    }

    /// How many are listed.
    pub fn total<R: Wait>(&self, rt: &R) -> usize
        ensures { OnRecord C.did (counts_all result) }
    {
        self.inner.lock(rt).total()
    }

    /// How many are told.
    pub fn told<R: Wait>(&self, rt: &R) -> usize
        ensures { OnRecord C.did (counts_told result) }
    {
        self.inner.lock(rt).told()
    }

    /// The list at the event's end, and the record that leads there from an empty one, in which each new listener's key is one that was
    /// never given before. Both are those that the calls of this event left. The book's total is the number of entries.
    ///
    /// By `Book::audit` the owner of all parts of the ledger learns that this is the amount of its share: as many calls as changed the
    /// list.
    pub fn into_parts(self) -> (List<T, W>, Vec<RecordedCall<T, W>>, Book<L>)
        ensures stored { (found : C) × C.parted found result.0 result.1.items }
        ensures replays { Replays nobody 0 result.1.items result.0.lists result.0.serials }
        ensures counted { length result.1.items ≡ result.2.total }
    {
        let RecordedEvent {
            alloc: _,
            inner,
            of: _,
        } = self;
        inner.into_inner().into_parts()
    }
}
