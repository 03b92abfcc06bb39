//! The calls that tell listeners, and those by which a listener learns that it was told. They use the two lists alone, and not how these
//! are kept.
ghost use Rattle.std.specs.Prelude.{◌≡◌, ◌+◌, ◌*◌, ◌≤◌, if◌then◌else◌, is_some, IsSome, OnOk, false};
ghost use Rattle.event_listener.specs.Lists.{moved, kind_of, told_as, registration, register_answer, polled, poll_answer, tag_told, removed, remove_answer, removed_wakes, told_by};
ghost use Rattle.event_listener.specs.Order.{HasLeft};
ghost use Rattle.event_listener.specs.Notices.{Notifies, Woken};

use crate::error::{NotifyError, UnknownListener};
use crate::key::Key;
use crate::list::List;
use crate::node::State;
use crate::notify::Notification;
use crate::wakes::Wakes;

/// What [`List::register`] found.
#[derive(PartialEq, Eq, Debug, Drop)]
pub enum Registered<T> {
    /// The listener was told. It is off the list, and this is its tag.
    Told(T),
    /// The listener still waits, with the new task in the place of the older one.
    Waiting,
}

impl<T: Drop, W: Drop> List<T, W> {
    /// Stores the task to wake once the listener is told, or removes a told one and returns its tag.
    ///
    /// An older task is replaced and dropped. A told listener passes nothing on here: its notification has reached it. [`UnknownListener`]
    /// refuses the key of a listener that has left, and then the task is dropped. Never waits. As a poll of `event-listener` 5.4.2
    /// registers.
    pub fn register(&mut self, key: Key, task: W) -> Result<Registered<T>, UnknownListener>
        ensures answer { result ≡ register_answer key self.old.lists }
        ensures lists { self.new.lists ≡ registration key task self.old.lists }
        ensures once { IsSome (told_as self.old.lists key) → HasLeft self.new key }
        ensures left { (key : Key) → HasLeft self.old key → HasLeft self.new key }
        ensures serials { self.new.serials ≡ self.old.serials }
        ensures room { self.new.room ≡ (if is_some (told_as self.old.lists key) then self.old.room + 1 else self.old.room) }
        ensures visits { self.new.visits ≤ 5 }
        ensures looks { self.new.looks ≤ self.old.looks + 5 }
    {
        // One call stores the task or finds the listener told, so a notification can't fall between a look and the registration.
        match self.store(key, task) {
            None => Err(UnknownListener),
            Some(false) => Ok(Registered::Waiting),
            Some(true) => match self.leave(key, true, true) {
                State::Told { tag, .. } => Ok(Registered::Told(tag)),
                State::Waiting(_) => unreachable!(),
            },
        }
    }

    /// Removes a told listener and returns its tag; `None` for one that still waits.
    ///
    /// [`UnknownListener`] refuses the key of a listener that has left. Never waits, and leaves the count of [`List::last_visits`] as it
    /// was.
    pub fn poll(&mut self, key: Key) -> Result<Option<T>, UnknownListener>
        ensures answer { result ≡ poll_answer key self.old.lists }
        ensures lists { self.new.lists ≡ polled key self.old.lists }
        ensures once { IsSome (told_as self.old.lists key) → HasLeft self.new key }
        ensures left { (key : Key) → HasLeft self.old key → HasLeft self.new key }
        ensures serials { self.new.serials ≡ self.old.serials }
        ensures room { self.new.room ≡ (if is_some (told_as self.old.lists key) then self.old.room + 1 else self.old.room) }
        ensures visits { self.new.visits ≡ self.old.visits }
        ensures looks { self.new.looks ≤ self.old.looks + 5 }
    {
        match self.kind(key) {
            None => Err(UnknownListener),
            Some(false) => Ok(None),
            Some(true) => match self.leave(key, true, false) {
                State::Told { tag, .. } => Ok(Some(tag)),
                State::Waiting(_) => unreachable!(),
            },
        }
    }

    /// Removes a listener, told or not, and returns the tag of a told one. It passes nothing on.
    ///
    /// A listener whose time is up leaves in the call that finds it not told, so a told listener never gives `None`.
    pub(crate) fn take_off(&mut self, key: Key) -> Option<T>
        ensures tag { result ≡ tag_told key self.old.lists }
        ensures lists { self.new.lists ≡ removed key false self.old.lists }
        ensures once { IsSome (kind_of self.old.lists key) → HasLeft self.new key }
        ensures left { (key : Key) → HasLeft self.old key → HasLeft self.new key }
        ensures serials { self.new.serials ≡ self.old.serials }
        ensures room { self.new.room ≡ (if is_some (kind_of self.old.lists key) then self.old.room + 1 else self.old.room) }
        ensures visits { self.new.visits ≤ 5 }
    {
        self.start();
        match self.poll(key) {
            Ok(Some(tag)) => Some(tag),
            Ok(None) => {
                let _ = self.leave(key, false, true);
                None
            }
            Err(UnknownListener) => None,
        }
    }

    /// Tells the first waiting listeners, gives each the next tag of the notification, and wakes their tasks in order.
    ///
    /// An additional notification for n tells the first n that wait. One of the default kind tells so many that n are told, those told
    /// before included; if n are told already it tells nobody. The answer is how many it told. A notification is not kept for listeners to
    /// come. If a tag is refused, [`NotifyError`] says how many were told before it; they stay told. It takes no memory of its own, and
    /// constant work for each one told. As `Event::notify` of `event-listener` 5.4.2.
    pub fn notify<N: Notification<Tag = T> + Drop, S: Wakes<W>>(
        &mut self,
        notice: N,
        sink: &mut S,
    ) -> Result<usize, NotifyError>
        requires { N.can_give notice }
        ensures notified { Notifies N.gives (N.additional notice) (moved (N.additional notice) (N.size notice) self.old.lists) notice self.old.lists self.new.lists S.wakes sink.old sink.new result }
        ensures left { (key : Key) → HasLeft self.old key → HasLeft self.new key }
        ensures serials { self.new.serials ≡ self.old.serials }
        ensures room { self.new.room ≡ self.old.room }
        ensures visits { self.new.visits ≤ 5 * told_by result }
        ensures looks { self.new.looks ≤ self.old.looks + 5 * told_by result }
    {
        self.start();
        let additional = notice.is_additional();
        let count = notice.count();
        let many = self.to_move(additional, count);
        // Before a tag is asked for: a notification for nobody must draw no tag.
        if many == 0 {
            return Ok(0);
        }
        self.tell(additional, many, notice, sink)
    }

    /// Removes a listener, and answers whether it was told.
    ///
    /// With `pass_on` a told one passes its notification on: one more listener of the list is told, of the same kind and with its tag.
    /// Otherwise the notification is lost. Removing a waiting one changes nobody else, and its task is dropped. [`UnknownListener`] refuses
    /// the key of a listener that has left. As dropping, or discarding, a listener of `event-listener` 5.4.2.
    pub fn remove<S: Wakes<W>>(
        &mut self,
        key: Key,
        pass_on: bool,
        sink: &mut S,
    ) -> Result<bool, UnknownListener>
        ensures answer { result ≡ remove_answer key self.old.lists }
        ensures lists { self.new.lists ≡ removed key pass_on self.old.lists }
        ensures once { OnOk result (HasLeft self.new key) }
        ensures left { (key : Key) → HasLeft self.old key → HasLeft self.new key }
        ensures woken { Woken S.wakes sink.old (removed_wakes key pass_on self.old.lists) sink.new }
        ensures serials { self.new.serials ≡ self.old.serials }
        ensures room { self.new.room ≡ (if is_some (kind_of self.old.lists key) then self.old.room + 1 else self.old.room) }
        ensures visits { pass_on ≡ false → self.new.visits ≤ 5 }
        ensures looks { self.new.looks ≤ self.old.looks + (if pass_on then 10 else 5) }
    {
        let Some(told) = self.begin(key) else {
            return Err(UnknownListener);
        };
        if let State::Told { additional, tag } = self.leave(key, told, true) {
            // Pass on in the same call: the listener can't know whether what it was told of is still there, and if it is, nobody else was
            // told of it.
            if pass_on && self.to_move(additional, 1) > 0 {
                if let Some(next) = self.tell_first(additional, tag) {
                    sink.wake(next);
                }
            }
        }
        Ok(told)
    }
}
