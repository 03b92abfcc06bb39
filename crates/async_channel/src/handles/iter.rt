//! Walks over a receiver's messages.
//!
//! # Extensions
//!
//! All of this module.

ghost use Rattle.std.specs.Prelude.{◌≡◌, false};
ghost use Rattle.std.specs.Iterator.{at_most};
ghost use Rattle.async_channel.specs.Iter.{turns_left, WaitsOnce, TriesOnce};

use crate::bed::Bed;
use crate::calls::blocking;
use crate::handles::receiver::Receiver;
use crate::handles::turns::Turns;
use crate::link::Link;
use crate::open::no_trace::NoTrace;
use crate::seen::{self, Seen, Trace};
use channel_calls::taking::next_item;
use event_listener::error::ListenError;
use std::sync::Wait;

impl<T: Drop, R: Wait + Copy, S: Trace<T> + Copy> Receiver<T, R, S> {
    ghost use Rattle.channel_calls.specs.Taking.{IsNext};
    ghost use Rattle.async_channel.specs.Iter.{GivesNext};

    /// The next item of a walk that waits; `ended` says whether the walk has ended.
    #[inline(always)]
    fn next_item(&self, ended: &mut bool) -> Option<Result<T, ListenError>>
        ensures made { GivesNext S.did S.shown S.entered S.called S.parked S.slept self.now.channel ended.old result }
        ensures end { IsNext ended.old result ended.new }
    {
        let rt = &self.rt;
        match &self.counted.link {
            Link::Bounded(channel) => {
                if *ended {
                    return None;
                }
                let received = seen::answer(
                    &self.watch,
                    channel.recv_blocking(rt, channel.table.new_seat()),
                );
                next_item(received, ended)
            }
            Link::Unbounded(shared) => {
                let seen = Seen::cells(shared, rt, Bed::new(), self.watch);
                blocking::next_blocking(rt, ended, seen).0
            }
        }
    }
}

/// A receiver's messages, one after another; each is waited for as by [`recv_blocking`](Receiver::recv_blocking). `None` if the channel is
/// closed and empty, and from then on. Made by [`iter`](Receiver::iter).
#[derive(Drop)]
pub struct Iter<'a, T: Drop, R: Wait + Copy, S: Trace<T> + Copy = NoTrace> {
    receiver: &'a Receiver<T, R, S>,
    ended: bool,
    turns: Turns,
}

impl<'a, T: Drop, R: Wait + Copy, S: Trace<T> + Copy> Iter<'a, T, R, S> {
    pub(crate) fn new(receiver: &'a Receiver<T, R, S>) -> Iter<'a, T, R, S>
        ensures channel { result.receiver.now.channel ≡ receiver.now.channel }
        ensures new { result.ended ≡ false }
    {
        Iter {
            receiver,
            ended: false,
            turns: Turns::new(),
        }
    }
}

impl<'a, T: Drop, R: Wait + Copy, S: Trace<T> + Copy> Iterator for Iter<'a, T, R, S> {
    type Item = Result<T, ListenError>;

    // With this a `for` over it knows what each item is.
    ghost next_gives = { λ s item t. (t.receiver.now.channel ≡ s.receiver.now.channel) × WaitsOnce S.did S.shown S.entered S.called S.parked S.slept s.receiver.now.channel s.ended item t.ended };

    ghost remaining = { λ s. at_most (turns_left s.turns) };

    fn next(&mut self) -> Option<Result<T, ListenError>> {
        let receiver = self.receiver;
        self.turns.take(&receiver.rt);
        receiver.next_item(&mut self.ended)
    }
}

impl<'a, T: Drop, R: Wait + Copy, S: Trace<T> + Copy> IntoIterator for &'a Receiver<T, R, S> {
    type Item = Result<T, ListenError>;

    type IntoIter = Iter<'a, T, R, S>;

    ghost into_iter_gives = { λ r walk. (walk.receiver.now.channel ≡ r.now.channel) × (walk.ended ≡ false) };

    /// As [`iter`](Receiver::iter).
    fn into_iter(self) -> Iter<'a, T, R, S> {
        self.iter()
    }
}

/// The messages of a receiver that the walk owns, each waited for as by [`Iter`]. The receiver is dropped with the walk; if it was the last
/// one, that closes the channel. Made by `into_iter` of a receiver.
#[derive(Drop)]
pub struct IntoIter<T: Drop, R: Wait + Copy, S: Trace<T> + Copy = NoTrace> {
    receiver: Receiver<T, R, S>,
    ended: bool,
    turns: Turns,
}

impl<T: Drop, R: Wait + Copy, S: Trace<T> + Copy> Iterator for IntoIter<T, R, S> {
    type Item = Result<T, ListenError>;

    ghost next_gives = { λ s item t. (t.receiver ≡ s.receiver) × WaitsOnce S.did S.shown S.entered S.called S.parked S.slept s.receiver.channel s.ended item t.ended };

    ghost remaining = { λ s. at_most (turns_left s.turns) };

    fn next(&mut self) -> Option<Result<T, ListenError>> {
        self.turns.take(&self.receiver.rt);
        self.receiver.next_item(&mut self.ended)
    }
}

impl<T: Drop, R: Wait + Copy, S: Trace<T> + Copy> IntoIterator for Receiver<T, R, S> {
    type Item = Result<T, ListenError>;

    type IntoIter = IntoIter<T, R, S>;

    ghost into_iter_gives = { λ r walk. (walk.receiver ≡ r) × (walk.ended ≡ false) };

    /// As [`iter`](Receiver::iter), by a walk that owns this receiver and drops it when it is dropped itself.
    fn into_iter(self) -> IntoIter<T, R, S> {
        IntoIter {
            receiver: self,
            ended: false,
            turns: Turns::new(),
        }
    }
}

/// The messages that are there, one after another, each received as by [`try_recv`](Receiver::try_recv). `None` if there is none; it goes
/// on if others came since. Made by [`try_iter`](Receiver::try_iter).
#[derive(Drop)]
pub struct TryIter<'a, T: Drop, R: Wait + Copy, S: Trace<T> + Copy = NoTrace> {
    receiver: &'a Receiver<T, R, S>,
    turns: Turns,
}

impl<'a, T: Drop, R: Wait + Copy, S: Trace<T> + Copy> TryIter<'a, T, R, S> {
    pub(crate) fn new(receiver: &'a Receiver<T, R, S>) -> TryIter<'a, T, R, S>
        ensures { result.receiver.now.channel ≡ receiver.now.channel }
    {
        TryIter {
            receiver,
            turns: Turns::new(),
        }
    }
}

impl<'a, T: Drop, R: Wait + Copy, S: Trace<T> + Copy> Iterator for TryIter<'a, T, R, S> {
    type Item = T;

    ghost next_gives = { λ s item t. (t.receiver.now.channel ≡ s.receiver.now.channel) × TriesOnce S.did S.shown S.entered S.called s.receiver.now.channel item };

    ghost remaining = { λ s. at_most (turns_left s.turns) };

    fn next(&mut self) -> Option<T> {
        let receiver = self.receiver;
        self.turns.take(&receiver.rt);
        receiver.try_recv().ok()
    }
}
