//! Handles on one thread, as rows make and drop them. A row names its handles by their numbers in the order of their making, `s` and `r`
//! being 0 and 1.
//!
//! | Line | What it does | What it answers |
//! |---|---|---|
//! | `bounded N`, `unbounded` | opens a channel: two more handles | `ok` |
//! | `clone H`, `downgrade H`, `upgrade H` | makes one more handle | `made`, `none`, `too_many` |
//! | `clones H N` | so many clones | how many were made that are of the same channel |
//! | `same_channel H H` | whether both are of one channel | |
//! | `drop H`, `drops H N` | drops this handle, and so many from it on | `ok` |
//! | `identity` | takes the next identity | its number |
//! | `text H` | what a programmer is shown | |
//! | `walk H N` | the first N items of a walk that waits | messages, `none` |
//! | `try_walk R N S M` | N items of a walk that doesn't wait, then a send of M, then one item more of that walk | the same |
//! | `fill R N ROOM` | receives into a list of N times 9 that has room for so many in all | how many, or `empty`, `over`; `holds` and the list, `of` and its room |
//! | `CALL H ..` | a call of a strong handle ([`channel_test_helpers::calls`]) | |

use async_channel::{
    EventIds, HandleError, ListenError, OpenError, Receiver, Sender, TryRecvError, WeakReceiver,
    WeakSender, bounded, unbounded,
};
use channel_test_helpers::Ends;
use channel_test_helpers::calls::{MEMORY, sender_says, write_received};
use std::alloc::{AllocError, AllocGlobal, Global};
use std::random::RandomSource;
use std::sync::Wait;
use worked_rows::{Player, Said, Words};

/// A handle.
#[derive(Drop)]
enum Handle<R: Wait + Copy> {
    Sender(Sender<u64, R>),
    Receiver(Receiver<u64, R>),
    WeakSender(WeakSender<u64, R>),
    WeakReceiver(WeakReceiver<u64, R>),
}

/// A row's handles, and the identities that its channels have.
#[derive(Drop)]
pub(crate) struct Owned<R: Wait + Copy> {
    rt: R,
    alloc: Global,
    ids: EventIds,
    handles: Vec<Option<Handle<R>>>,
}

const MADE: Said = Said::Word("made");

const NO_HANDLE: Said = Said::Word("no such handle");

/// What a walk gives.
fn walked(item: Option<Result<u64, ListenError>>) -> Said {
    match item {
        Some(Ok(message)) => Said::Number(message),
        Some(Err(_)) => MEMORY,
        None => Said::Word("none"),
    }
}

/// What a walk gives that doesn't wait.
fn tried(item: Option<u64>) -> Said {
    match item {
        Some(message) => Said::Number(message),
        None => Said::Word("none"),
    }
}

/// What a receive into a list's room says.
fn filled(count: Result<usize, TryRecvError>) -> Said {
    match count {
        Ok(count) => Said::count(count),
        Err(TryRecvError::Empty) => Said::Word("empty"),
        Err(TryRecvError::Closed) => Said::Word("over"),
    }
}

/// The number of a handle.
fn number(words: &mut Words<'_>) -> usize {
    words.place(&["s", "r"]) as usize
}

impl<R: Wait + Copy> Handle<R> {
    fn clone(&self) -> Result<Option<Handle<R>>, HandleError> {
        match self {
            Handle::Sender(s) => Ok(Some(Handle::Sender(s.try_clone()?))),
            Handle::Receiver(r) => Ok(Some(Handle::Receiver(r.try_clone()?))),
            Handle::WeakSender(s) => Ok(Some(Handle::WeakSender(s.try_clone()?))),
            Handle::WeakReceiver(r) => Ok(Some(Handle::WeakReceiver(r.try_clone()?))),
        }
    }

    /// The other kind of handle: a weak one of a strong one, or a strong one of a weak one.
    fn turned(&self) -> Result<Option<Handle<R>>, HandleError> {
        match self {
            Handle::Sender(s) => Ok(Some(Handle::WeakSender(s.downgrade()?))),
            Handle::Receiver(r) => Ok(Some(Handle::WeakReceiver(r.downgrade()?))),
            Handle::WeakSender(s) => Ok(s.upgrade()?.map(|sender| Handle::Sender(sender))),
            Handle::WeakReceiver(r) => Ok(r.upgrade()?.map(|receiver| Handle::Receiver(receiver))),
        }
    }

    /// Writes what a programmer is shown of it.
    fn write_text(&self, answer: &mut String) -> Result<(), AllocError> {
        match self {
            Handle::Sender(s) => write!(answer, "{s:?}"),
            Handle::Receiver(r) => write!(answer, "{r:?}"),
            Handle::WeakSender(s) => write!(answer, "{s:?}"),
            Handle::WeakReceiver(r) => write!(answer, "{r:?}"),
        }
    }

    fn is_weak(&self) -> bool {
        matches!(self, Handle::WeakSender(_) | Handle::WeakReceiver(_))
    }

    fn same_channel(&self, other: &Handle<R>) -> Said {
        match (self, other) {
            (Handle::Sender(a), Handle::Sender(b)) => Said::flag(a.same_channel(b)),
            (Handle::Receiver(a), Handle::Receiver(b)) => Said::flag(a.same_channel(b)),
            _ => Said::NoSuchCall,
        }
    }
}

impl<R: Wait + Copy + RandomSource + AllocGlobal> Owned<R> {
    /// A player of rows.
    pub(crate) fn new(rt: R, alloc: Global) -> Owned<R> {
        Owned {
            rt,
            alloc,
            ids: EventIds::new(),
            handles: Vec::new(alloc),
        }
    }

    fn handle(&self, place: usize) -> Option<&Handle<R>> {
        self.handles.get(place)?.as_ref()
    }

    fn add(&mut self, handle: Handle<R>) -> Said {
        match self.handles.push(Some(handle)) {
            Ok(()) => MADE,
            Err(_) => MEMORY,
        }
    }

    /// Keeps the first handles of a channel.
    fn open(&mut self, opened: Result<Ends<R>, OpenError>) -> Said {
        match opened {
            Ok((s, r)) => {
                self.add(Handle::Sender(s));
                self.add(Handle::Receiver(r));
                Said::Ok
            }
            Err(OpenError::NoMemory) => MEMORY,
            Err(OpenError::IdsUsedUp) => Said::Word("identities"),
        }
    }

    fn open_bounded(&mut self, capacity: usize) -> Said {
        if capacity == 0 {
            return Said::NoSuchCall;
        }
        let opened = bounded(self.rt, self.alloc, capacity, &mut self.ids);
        self.open(opened)
    }

    fn open_unbounded(&mut self) -> Said {
        let opened = unbounded(self.rt, self.alloc, &mut self.ids);
        self.open(opened)
    }

    /// Keeps a handle that was made.
    fn add_made(&mut self, made: Result<Option<Handle<R>>, HandleError>) -> Said {
        match made {
            Ok(Some(handle)) => self.add(handle),
            Ok(None) => Said::Word("none"),
            Err(HandleError::TooMany) => Said::Word("too_many"),
            Err(HandleError::NoMemory) => MEMORY,
        }
    }

    fn clone(&mut self, place: usize) -> Said {
        match self.handle(place) {
            Some(handle) => {
                let made = handle.clone();
                self.add_made(made)
            }
            None => NO_HANDLE,
        }
    }

    /// So many clones: how many were made that are of the same channel.
    fn clones(&mut self, place: usize, count: usize) -> Said {
        let mut made = 0u64;
        for _ in 0..count {
            let next = self.handles.len();
            if self.clone(place) == MADE && self.same_channel(place, next) == Said::flag(true) {
                made = made.wrapping_add(1);
            }
        }
        Said::Number(made)
    }

    /// A weak handle of a strong one, or a strong one of a weak one.
    fn turn(&mut self, place: usize, upgrade: bool) -> Said {
        match self.handle(place) {
            Some(handle) => {
                if handle.is_weak() != upgrade {
                    return Said::NoSuchCall;
                }
                let made = handle.turned();
                self.add_made(made)
            }
            None => NO_HANDLE,
        }
    }

    fn same_channel(&self, first: usize, second: usize) -> Said {
        match (self.handle(first), self.handle(second)) {
            (Some(first), Some(second)) => first.same_channel(second),
            _ => NO_HANDLE,
        }
    }

    /// Drops so many handles.
    fn drop(&mut self, first: usize, count: usize) -> Said {
        let mut said = Said::Ok;
        for place in first..first.wrapping_add(count) {
            match self.handles.get_mut(place) {
                Some(handle) => drop(handle.take()),
                None => said = NO_HANDLE,
            }
        }
        said
    }

    /// The next identity.
    fn identity(&mut self) -> Said {
        match self.ids.next() {
            Ok(id) => Said::Number(id.number()),
            Err(_) => Said::Word("identities"),
        }
    }

    fn write_text(&self, place: usize, answer: &mut String) -> Result<(), AllocError> {
        match self.handle(place) {
            Some(handle) => handle.write_text(answer),
            None => NO_HANDLE.write(answer),
        }
    }

    fn write_walk(&self, words: &mut Words<'_>, answer: &mut String) -> Result<(), AllocError> {
        let Some(Handle::Receiver(r)) = self.handle(number(words)) else {
            return NO_HANDLE.write(answer);
        };
        let mut walk = r.iter();
        for _ in 0..words.size() {
            walked(walk.next()).write(answer)?;
        }
        Ok(())
    }

    fn write_try_walk(&self, words: &mut Words<'_>, answer: &mut String) -> Result<(), AllocError> {
        let Some(Handle::Receiver(r)) = self.handle(number(words)) else {
            return NO_HANDLE.write(answer);
        };
        let mut walk = r.try_iter();
        for _ in 0..words.size() {
            tried(walk.next()).write(answer)?;
        }
        let Some(Handle::Sender(s)) = self.handle(number(words)) else {
            return NO_HANDLE.write(answer);
        };
        sender_says(self.rt, s, "try_send", words).write(answer)?;
        tried(walk.next()).write(answer)
    }

    fn write_fill(&self, words: &mut Words<'_>, answer: &mut String) -> Result<(), AllocError> {
        let Some(Handle::Receiver(r)) = self.handle(number(words)) else {
            return NO_HANDLE.write(answer);
        };
        let held = words.size();
        let mut into = Vec::with_capacity(self.alloc, words.size())?;
        for _ in 0..held {
            into.push(9)?;
        }
        filled(r.recv_many_into(&mut into)).write(answer)?;
        Said::Word("holds").write(answer)?;
        for message in into.iter() {
            Said::Number(*message).write(answer)?;
        }
        Said::Both("of", into.capacity() as u64).write(answer)
    }

    fn write_call(
        &mut self,
        verb: &str,
        words: &mut Words<'_>,
        answer: &mut String,
    ) -> Result<(), AllocError> {
        match self.handle(number(words)) {
            Some(Handle::Sender(s)) => sender_says(self.rt, s, verb, words).write(answer),
            Some(Handle::Receiver(r)) => write_received(self.rt, r, verb, words, answer),
            _ => NO_HANDLE.write(answer),
        }
    }
}

impl<R: Wait + Copy + RandomSource + AllocGlobal> Player for Owned<R> {
    fn begin(&mut self) {
        self.handles.clear();
        self.ids = EventIds::new();
    }

    fn play(&mut self, words: &mut Words<'_>, answer: &mut String) -> Result<(), AllocError> {
        let said = match words.word() {
            "bounded" => self.open_bounded(words.size()),
            "unbounded" => self.open_unbounded(),
            "clone" => self.clone(number(words)),
            "clones" => self.clones(number(words), words.size()),
            "downgrade" => self.turn(number(words), false),
            "upgrade" => self.turn(number(words), true),
            "same_channel" => self.same_channel(number(words), number(words)),
            "drop" => self.drop(number(words), 1),
            "drops" => self.drop(number(words), words.size()),
            "identity" => self.identity(),
            "text" => return self.write_text(number(words), answer),
            "walk" => return self.write_walk(words, answer),
            "try_walk" => return self.write_try_walk(words, answer),
            "fill" => return self.write_fill(words, answer),
            verb => return self.write_call(verb, words, answer),
        };
        said.write(answer)
    }
}
