//! Popping the messages of a shared queue one after another. The iterator owns nothing of the queue: each item is one pop.

ghost use Rattle.std.specs.Iterator.{at_most};
ghost use Rattle.concurrent_queue.specs.Turns.{turns_left, SawNext};

use crate::seen::{NoTrace, Trace};
use crate::shared::queue::ConcurrentQueue;
use std::alloc::AllocError;
use std::sync::{Forever, Wait};

/// Messages of a shared queue, oldest first, as `TryIter` of `concurrent-queue` 2.5.0.
#[derive(Drop)]
pub struct TryIter<'a, T: Drop, R: Wait, W: Copy = NoTrace> {
    queue: &'a ConcurrentQueue<T, W>,
    rt: &'a R,
    turns: Forever<'a, R>,
}

impl<'a, T: Drop, R: Wait, W: Copy> TryIter<'a, T, R, W> {
    pub(crate) fn new(queue: &'a ConcurrentQueue<T, W>, rt: &'a R) -> TryIter<'a, T, R, W> {
        TryIter {
            queue,
            rt,
            turns: rt.forever(),
        }
    }
}

impl<'a, T: Drop, R: Wait, W: Trace<T> + Copy> Iterator for TryIter<'a, T, R, W> {
    type Item = T;

    ghost next_gives = { λ s item t. SawNext W.did s item };

    ghost remaining = { λ s. at_most (turns_left s) };

    fn next(&mut self) -> Option<T> {
        self.turns.next();
        self.queue.pop(self.rt).ok()
    }
}

impl<'a, T: Drop, R: Wait, W: Copy> Clone for TryIter<'a, T, R, W> {
    fn clone(&self) -> Result<TryIter<'a, T, R, W>, AllocError> {
        Ok(TryIter::new(self.queue, self.rt))
    }
}
