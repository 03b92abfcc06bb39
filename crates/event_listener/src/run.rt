//! Whole lists of calls on a list of one owner, made one after another. Nothing comes between them, so the run's effect and answers are
//! those of the calls.
//!
//! # Extensions
//!
//! All of this module.
ghost use Rattle.std.specs.Prelude.{◌≡◌, ◌*◌, ◌≤◌, [], false, length, take, MatchResult, ◌∷◌};
ghost use Rattle.event_listener.specs.Lists.{notified, tasks_of, polled, poll_answer, registration, register_answer, removed, remove_answer};
ghost use Rattle.event_listener.specs.Notices.{Woken};
ghost use Rattle.event_listener.specs.Runs.{key_named, inserted_key, about, made_at, tags_given, tags_answer, room_polled, room_removed, wakes_at, Makes, Runs};

use crate::calls::Registered;
use crate::error::{ListenError, NoMemory, NotifyError, UnknownListener};
use crate::key::Key;
use crate::list::List;
use crate::notify::Notification;
use crate::wakes::Wakes;
use std::alloc::Global;
use std::collections::VecDeque;

/// The listener that a call of a run is for.
#[derive(Clone, Copy, PartialEq, Eq, Debug)]
pub enum Target {
    /// The listener of this key.
    Key(Key),
    /// The listener that the call at this place of the same run inserted, the first call standing at 0. Any other
    /// place names nobody.
    Place(usize),
}

/// A call of a run. Each is the call of [`List`] of the same name.
#[derive(Debug, Drop, PartialEq, Eq)]
pub enum ListCall<T, W> {
    /// [`List::insert`].
    Insert,
    /// [`List::register`].
    Register {
        /// The listener that is polled.
        listener: Target,
        /// What to wake once it is told.
        task: W,
    },
    /// [`List::poll`].
    Poll {
        /// The listener that is asked about.
        listener: Target,
    },
    /// [`List::remove`].
    Remove {
        /// The listener that leaves.
        listener: Target,
        /// Whether it passes its notification on if it was told.
        pass_on: bool,
    },
    /// [`List::notify`] of a notification that gives these tags, and is refused the next one when they run out.
    Notify {
        /// How many listeners it is for.
        count: usize,
        /// Whether it counts only those that it tells itself.
        additional: bool,
        /// The tags that it gives, the first one first.
        tags: VecDeque<T>,
    },
    /// [`List::reserve`].
    Reserve {
        /// How many listeners to make room for.
        extra: usize,
    },
}

/// What a call of a run answered.
#[derive(Debug, Drop, PartialEq, Eq)]
pub enum ListReply<T> {
    /// Of [`ListCall::Insert`].
    Insert(Result<Key, ListenError>),
    /// Of [`ListCall::Register`].
    Register(Result<Registered<T>, UnknownListener>),
    /// Of [`ListCall::Poll`].
    Poll(Result<Option<T>, UnknownListener>),
    /// Of [`ListCall::Remove`].
    Remove(Result<bool, UnknownListener>),
    /// Of [`ListCall::Notify`].
    Notify(Result<usize, NotifyError>),
    /// Of [`ListCall::Reserve`].
    Reserve(Result<(), NoMemory>),
}

/// What a run did.
#[derive(Debug, Drop, PartialEq, Eq)]
pub struct ListRun<T> {
    /// What the calls answered, in order.
    pub replies: Vec<ListReply<T>>,
    /// Whether room for a reply was refused before all calls were made.
    pub stopped: Option<NoMemory>,
}

/// A notification that gives tags from a list.
#[derive(Drop)]
struct Tags<T> {
    count: usize,
    additional: bool,
    tags: VecDeque<T>,
}

impl<T> Notification for Tags<T> {
    type Tag = T;

    ghost size = { λ n. n.count };

    ghost additional = { λ n. n.additional };

    ghost can_give = { λ n. Unit {0} };

    ghost gives = { λ n r m. MatchResult r (λ t. n.tags.items ≡ t ∷ m.tags.items) (λ e. n.tags.items ≡ []) };

    fn count(&self) -> usize {
        self.count
    }

    fn is_additional(&self) -> bool {
        self.additional
    }

    fn next_tag(&mut self) -> Result<T, NoMemory> {
        match self.tags.pop_front() {
            Some(tag) => Ok(tag),
            None => Err(NoMemory),
        }
    }
}

/// The key that a call replied, if it inserted a listener.
fn key_inserted<T>(reply: &ListReply<T>) -> Option<Key>
    ensures { result ≡ inserted_key reply.now }
{
    match reply {
        ListReply::Insert(Ok(key)) => Some(*key),
        _ => None,
    }
}

/// The key of the listener that a call is for, after these replies.
fn find_key<T>(listener: Target, replies: &Vec<ListReply<T>>) -> Option<Key>
    ensures { result ≡ key_named listener replies.now.items }
{
    match listener {
        Target::Key(key) => Some(key),
        Target::Place(place) => match replies.get(place) {
            Some(reply) => key_inserted(reply),
            None => None,
        },
    }
}

impl<T: Drop, W: Drop> List<T, W> {
    fn register_at(&mut self, key: Option<Key>, task: W) -> Result<Registered<T>, UnknownListener>
        ensures answer { result ≡ about key (λ k. register_answer k self.old.lists) }
        ensures lists { self.new.lists ≡ made_at key (λ k lists. registration k task lists) self.old.lists }
        ensures serials { self.new.serials ≡ self.old.serials }
        ensures room { self.new.room ≡ made_at key (room_polled self.old.lists) self.old.room }
        ensures visits { self.new.visits ≤ 5 }
    {
        match key {
            Some(key) => self.register(key, task),
            None => {
                self.start();
                Err(UnknownListener)
            }
        }
    }

    fn poll_at(&mut self, key: Option<Key>) -> Result<Option<T>, UnknownListener>
        ensures answer { result ≡ about key (λ k. poll_answer k self.old.lists) }
        ensures lists { self.new.lists ≡ made_at key polled self.old.lists }
        ensures serials { self.new.serials ≡ self.old.serials }
        ensures room { self.new.room ≡ made_at key (room_polled self.old.lists) self.old.room }
        ensures visits { self.new.visits ≡ self.old.visits }
    {
        match key {
            Some(key) => self.poll(key),
            None => Err(UnknownListener),
        }
    }

    fn remove_at<S: Wakes<W>>(
        &mut self,
        key: Option<Key>,
        pass_on: bool,
        sink: &mut S,
    ) -> Result<bool, UnknownListener>
        ensures answer { result ≡ about key (λ k. remove_answer k self.old.lists) }
        ensures lists { self.new.lists ≡ made_at key (λ k lists. removed k pass_on lists) self.old.lists }
        ensures woken { Woken S.wakes sink.old (wakes_at key pass_on self.old.lists) sink.new }
        ensures serials { self.new.serials ≡ self.old.serials }
        ensures room { self.new.room ≡ made_at key (room_removed self.old.lists) self.old.room }
        ensures visits { pass_on ≡ false → self.new.visits ≤ 5 }
    {
        match key {
            Some(key) => self.remove(key, pass_on, sink),
            None => {
                self.start();
                Err(UnknownListener)
            }
        }
    }

    pub(crate) fn notify_with<S: Wakes<W>>(
        &mut self,
        count: usize,
        additional: bool,
        tags: VecDeque<T>,
        sink: &mut S,
    ) -> Result<usize, NotifyError>
        ensures answer { result ≡ tags_answer additional count tags.items self.old.lists }
        ensures lists { self.new.lists ≡ notified additional (tags_given additional count tags.items self.old.lists) self.old.lists }
        ensures woken { Woken S.wakes sink.old (tasks_of (take (length (tags_given additional count tags.items self.old.lists)) self.old.lists.waiting)) sink.new }
        ensures serials { self.new.serials ≡ self.old.serials }
        ensures room { self.new.room ≡ self.old.room }
        ensures visits { self.new.visits ≤ 5 * length (tags_given additional count tags.items self.old.lists) }
    {
        let notice = Tags {
            count,
            additional,
            tags,
        };
        self.notify(notice, sink)
    }

    /// Makes one call of a run, after these replies.
    fn make<S: Wakes<W>>(
        &mut self,
        call: ListCall<T, W>,
        replies: &Vec<ListReply<T>>,
        sink: &mut S,
    ) -> ListReply<T>
        ensures { Makes S.wakes replies.now.items call result self.old sink.old self.new sink.new }
    {
        match call {
            ListCall::Insert => ListReply::Insert(self.insert()),
            ListCall::Register { listener, task } => {
                let key = find_key(listener, replies);
                ListReply::Register(self.register_at(key, task))
            }
            ListCall::Poll { listener } => {
                let key = find_key(listener, replies);
                ListReply::Poll(self.poll_at(key))
            }
            ListCall::Remove { listener, pass_on } => {
                let key = find_key(listener, replies);
                ListReply::Remove(self.remove_at(key, pass_on, sink))
            }
            ListCall::Notify {
                count,
                additional,
                tags,
            } => ListReply::Notify(self.notify_with(count, additional, tags, sink)),
            ListCall::Reserve { extra } => ListReply::Reserve(self.reserve(extra)),
        }
    }

    /// Makes these calls one after another, and removes each from the list before it is made.
    ///
    /// It stops early only if room for a reply was refused; that call then stays in front, and it and those behind it changed nothing. No
    /// answer of a call stops a run.
    pub fn run<S: Wakes<W>>(
        &mut self,
        alloc: Global,
        calls: &mut VecDeque<ListCall<T, W>>,
        sink: &mut S,
    ) -> ListRun<T>
        ensures run { Runs S.wakes [] calls.old.items result.replies.items result.stopped calls.new.items self.old sink.old self.new sink.new }
    {
        let mut replies = Vec::new(alloc);
        while calls.len() > 0 {
            if replies.reserve(1).is_err() {
                return ListRun {
                    replies,
                    stopped: Some(NoMemory),
                };
            }
            let call = calls.pop_front().unwrap();
            let reply = self.make(call, &replies, sink);
            replies.push_reserved(reply);
        }
        ListRun {
            replies,
            stopped: None,
        }
    }
}
