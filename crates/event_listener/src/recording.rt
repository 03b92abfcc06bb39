//! A list of listeners with the record of its calls. Room for an entry is reserved before the list is changed, so the record is always
//! complete.
ghost use Rattle.std.specs.Prelude.{◌≡◌, ◌+◌, ◌≤◌, ◌<◌, ◌↔◌, length, IfOk, OnErr, OnOk, IfErr, IsOk, Ok, Err, Some, None, true, false, [], take, vec_len};
ghost use Rattle.std.specs.Vec.{vec_capacity};
ghost use Rattle.event_listener.specs.Lists.{kind_of, register_answer, poll_answer, remove_answer, removed_wakes, tasks_of, told_by, moved};
ghost use Rattle.event_listener.specs.Drawing.{DrawsFirst, TellsOrNone};
ghost use Rattle.event_listener.specs.Notices.{Woken};
ghost use Rattle.event_listener.specs.Replay.{Replays, nobody, recorded, tag_found, total_of};

use crate::calls::Registered;
use crate::error::{ListenError, NoMemory, NotifyError, UnknownListener};
use crate::key::Key;
use crate::list::List;
use crate::notify::Notification;
use crate::recorded::{RecordedCall, RegisterError};
use crate::wakes::Wakes;
use std::alloc::Global;
use std::collections::VecDeque;
use std::marker::Model;

/// A list and the record of the calls that changed it.
#[derive(Drop)]
pub(crate) struct Recording<T: Copy, W: Copy> {
    list: List<T, W>,
    calls: Vec<RecordedCall<T, W>>,
}

impl<T: Copy, W: Copy> Model for Recording<T, W> {
    ghost use Rattle.event_listener.specs.Replay.{RecordView};

    ghost Value = { RecordView T W };

    ghost use Rattle.event_listener.specs.Replay.{IsKept};
    ghost use Rattle.std.specs.Prelude.{vec_len};
    ghost use Rattle.std.specs.Vec.{vec_capacity};

    ghost view = { λ r. record { calls = r.calls.items; lists = r.list.lists; serials = r.list.serials } };

    ghost invariant = { λ r. IsKept r.calls.items (vec_len r.calls) (vec_capacity r.calls) r.list.lists r.list.serials };
}

impl<T: Copy, W: Copy> Recording<T, W> {
    pub(crate) fn new(alloc: Global) -> Self
        ensures { result ≡ record { calls = []; lists = nobody; serials = 0 } }
    {
        Recording {
            list: List::new(alloc),
            calls: Vec::new(alloc),
        }
    }

    /// Adds a listener, and reserves room for its record and for that of its end.
    pub(crate) fn insert(&mut self) -> Result<Key, ListenError>
        ensures recorded { IfOk result (λ key. self.new ≡ recorded (RecordedCall.Listened key) self.old) }
        ensures unchanged { OnErr result (self.new ≡ self.old) }
    {
        let total = self.list.total();
        let Ok(()) = make_room(&mut self.calls, total, 2) else {
            return Err(ListenError::NoMemory);
        };
        match self.list.insert() {
            Ok(key) => {
                // The serial of a new key is after all that were given, so no key comes back when the record is replayed.
                self.calls.push_reserved(RecordedCall::Listened { key });
                Ok(key)
            }
            Err(error) => Err(error),
        }
    }

    /// Removes a told listener, or stores the task of one that waits, for which it reserves room.
    pub(crate) fn register(&mut self, key: Key, task: W) -> Result<Registered<T>, RegisterError>
        ensures answer { IfOk result (λ answer. register_answer key self.old.lists ≡ Ok answer) }
        ensures recorded { IfOk result (λ answer. self.new ≡ recorded (RecordedCall.Registered key task (tag_found answer)) self.old) }
        ensures unchanged { OnErr result (self.new ≡ self.old) }
        ensures unknown { (result ≡ Err RegisterError.UnknownListener) ↔ (kind_of self.old.lists key ≡ None) }
        ensures told { kind_of self.old.lists key ≡ Some true → IsOk result }
    {
        match self.list.kind(key) {
            None => Err(RegisterError::UnknownListener),
            Some(true) => Ok(self.register_told(key, task)),
            Some(false) => self.register_waiting(key, task),
        }
    }

    // Removes a told listener; the room for its record was reserved when it was added.
    fn register_told(&mut self, key: Key, task: W) -> Registered<T>
        requires { kind_of self.old.lists key ≡ Some true }
        ensures answer { register_answer key self.old.lists ≡ Ok result }
        ensures recorded { self.new ≡ recorded (RecordedCall.Registered key task (tag_found result)) self.old }
    {
        match self.list.register(key, task) {
            Ok(Registered::Told(tag)) => {
                self.calls.push_reserved(RecordedCall::Registered {
                    key,
                    task,
                    tag: Some(tag),
                });
                Registered::Told(tag)
            }
            Ok(Registered::Waiting) => unreachable!(),
            Err(_) => unreachable!(),
        }
    }

    // Stores the task of a listener that waits.
    fn register_waiting(&mut self, key: Key, task: W) -> Result<Registered<T>, RegisterError>
        requires { kind_of self.old.lists key ≡ Some false }
        ensures answer { IfOk result (λ answer. register_answer key self.old.lists ≡ Ok answer) }
        ensures recorded { IfOk result (λ answer. self.new ≡ recorded (RecordedCall.Registered key task (tag_found answer)) self.old) }
        ensures unchanged { OnErr result (self.new ≡ self.old) }
        ensures why { IfErr result (λ e. e ≡ RegisterError.NoMemory) }
    {
        let total = self.list.total();
        let Ok(()) = make_room(&mut self.calls, total, 1) else {
            return Err(RegisterError::NoMemory);
        };
        let _ = self.list.register(key, task);
        self.calls.push_reserved(RecordedCall::Registered {
            key,
            task,
            tag: None,
        });
        Ok(Registered::Waiting)
    }

    /// Removes a told listener; the room for its record was reserved when it was added.
    pub(crate) fn poll(&mut self, key: Key) -> Result<Option<T>, UnknownListener>
        ensures answer { result ≡ poll_answer key self.old.lists }
        ensures recorded { (tag : T) → result ≡ Ok (Some tag) → self.new ≡ recorded (RecordedCall.Polled key tag) self.old }
        ensures waiting { result ≡ Ok None → self.new ≡ self.old }
        ensures unchanged { OnErr result (self.new ≡ self.old) }
    {
        match self.list.poll(key) {
            Ok(Some(tag)) => {
                self.calls.push_reserved(RecordedCall::Polled { key, tag });
                Ok(Some(tag))
            }
            Ok(None) => Ok(None),
            Err(error) => Err(error),
        }
    }

    /// Removes a listener; the room for its record was reserved when it was added.
    pub(crate) fn remove<S: Wakes<W>>(
        &mut self,
        key: Key,
        pass_on: bool,
        sink: &mut S,
    ) -> Result<bool, UnknownListener>
        ensures answer { result ≡ remove_answer key self.old.lists }
        ensures recorded { IfOk result (λ told. self.new ≡ recorded (RecordedCall.Removed key pass_on told) self.old) }
        ensures unchanged { OnErr result (self.new ≡ self.old) }
        ensures woken { Woken S.wakes sink.old (removed_wakes key pass_on self.old.lists) sink.new }
    {
        match self.list.remove(key, pass_on, sink) {
            Ok(told) => {
                self.calls
                    .push_reserved(RecordedCall::Removed { key, pass_on, told });
                Ok(told)
            }
            Err(error) => Err(error),
        }
    }

    /// Tells listeners, for whose tags and whose record it reserves room first.
    pub(crate) fn notify<N: Notification<Tag = T> + Drop, S: Wakes<W>>(
        &mut self,
        alloc: Global,
        mut notice: N,
        sink: &mut S,
    ) -> Result<usize, NotifyError>
        requires { N.can_give notice }
        ensures at_most { told_by result ≤ N.size notice }
        ensures answer { IfOk result (λ told. told ≡ moved (N.additional notice) (N.size notice) self.old.lists) }
        ensures tells { TellsOrNone N.gives N.size notice result }
        ensures recorded { 0 < told_by result → (tags : _) × (self.new ≡ recorded (RecordedCall.Notified (N.size notice) (N.additional notice) tags result) self.old)
            × DrawsFirst N.gives (moved (N.additional notice) (N.size notice) self.old.lists) notice tags.items }
        ensures unchanged { told_by result ≡ 0 → self.new ≡ self.old }
        ensures woken { Woken S.wakes sink.old (tasks_of (take (told_by result) self.old.lists.waiting)) sink.new }
    {
        let additional = notice.is_additional();
        let count = notice.count();
        let many = self.list.to_move(additional, count);
        if many == 0 {
            return Ok(0);
        }
        let total = self.list.total();
        let Ok(()) = make_room(&mut self.calls, total, 1) else {
            return Err(NotifyError { told: 0 });
        };
        let Ok((tags, given)) = draw(alloc, &mut notice, many) else {
            return Err(NotifyError { told: 0 });
        };
        if tags.is_empty() {
            return Err(NotifyError { told: 0 });
        }
        let answer = self.list.notify_with(count, additional, given, sink);
        self.calls.push_reserved(RecordedCall::Notified {
            count,
            additional,
            tags,
            answer,
        });
        answer
    }

    /// Makes room for so many more listeners, their records and their ends.
    pub(crate) fn reserve(&mut self, extra: usize) -> Result<(), NoMemory>
        ensures unchanged { self.new ≡ self.old }
    {
        let total = self.list.total();
        let Some(calls) = extra.checked_mul(2) else {
            return Err(NoMemory);
        };
        make_room(&mut self.calls, total, calls)?;
        self.list.reserve(extra)
    }

    /// How many are listed.
    pub(crate) fn total(&self) -> usize
        ensures { result ≡ total_of self.now.lists }
    {
        self.list.total()
    }

    /// How many are told.
    pub(crate) fn told(&self) -> usize
        ensures { result ≡ length self.now.lists.told }
    {
        self.list.told()
    }

    /// The list as it stands, and the record that leads there.
    pub(crate) fn into_parts(self) -> (List<T, W>, Vec<RecordedCall<T, W>>)
        ensures lists { result.0.lists ≡ self.lists }
        ensures serials { result.0.serials ≡ self.serials }
        ensures calls { result.1.items ≡ self.calls }
        ensures replays { Replays nobody 0 result.1.items result.0.lists result.0.serials }
    {
        let Recording { list, calls } = self;
        (list, calls)
    }
}

// The first tags of a notification, at most so many, for the record and for the list. No tag is drawn if room is refused.
fn draw<N: Notification>(
    alloc: Global,
    notice: &mut N,
    many: usize,
) -> Result<(Vec<N::Tag>, VecDeque<N::Tag>), NoMemory>
where
    N::Tag: Copy,
    requires { N.can_give notice.old }
    ensures same { IfOk result (λ drawn. drawn.1.items ≡ drawn.0.items) }
    ensures first { IfOk result (λ drawn. DrawsFirst N.gives many notice.old drawn.0.items) }
{
    let mut tags = Vec::new(alloc);
    let mut given = VecDeque::new(alloc);
    let (Ok(()), Ok(())) = (tags.reserve(many), given.reserve(many)) else {
        return Err(NoMemory);
    };
    for _ in 0..many {
        let Ok(tag) = notice.next_tag() else {
            return Ok((tags, given));
        };
        tags.push_reserved(tag);
        given.push_back_reserved(tag);
    }
    Ok((tags, given))
}

// Room for so many calls besides the ends of the listeners.
fn make_room<T: Copy, W: Copy>(
    calls: &mut Vec<RecordedCall<T, W>>,
    total: usize,
    more: usize,
) -> Result<(), NoMemory>
    ensures items { calls.new.items ≡ calls.old.items }
    ensures count { vec_len calls.new ≡ vec_len calls.old }
    ensures room { OnOk result (vec_len calls.new + (total + more) ≤ vec_capacity calls.new) }
    ensures kept { vec_capacity calls.old ≤ vec_capacity calls.new }
{
    let Some(more) = total.checked_add(more) else {
        return Err(NoMemory);
    };
    match calls.reserve(more) {
        Ok(()) => Ok(()),
        Err(_) => Err(NoMemory),
    }
}
