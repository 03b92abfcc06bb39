//! A queue of one owner, a deque. The owner alone calls it, by `&mut`, so its contracts state each reply and each content exactly. The
//! invariant: a bounded one holds no more messages than its capacity.
//!
//! # Extensions
//!
//! All of this module.

use crate::bounded::GREATEST;
use crate::error::{ForcePushError, NoMemory, PopError, PushError};
use std::alloc::Global;
use std::collections::VecDeque;
use std::marker::Model;

/// A queue of one owner, which can be closed. None of its calls waits.
#[derive(Drop)]
pub struct Exclusive<T> {
    messages: VecDeque<T>,
    capacity: Option<usize>,
    closed: bool,
}

impl<T> Model for Exclusive<T> {
    ghost use Rattle.std.specs.Prelude.{ℕ, ◌≡◌, ◌<◌, ◌≤◌, Some, length};
    ghost use Rattle.std.specs.VecDeque.{deque_capacity};
    ghost use Rattle.concurrent_queue.specs.Alone.{Held};

    ghost Value = { Held T };

    ghost view = { λ q. record { items = q.messages.items; closed = q.closed; capacity = q.capacity } };

    ghost invariant = { λ q. (cap : ℕ) → q.capacity ≡ Some cap → (0 < cap) × (length q.messages.items ≤ cap) × (cap ≤ deque_capacity q.messages) };
}

impl<T: Drop> Exclusive<T> {
    ghost use Rattle.std.specs.Prelude.{IfOk, IfErr, IsOk, ◌≡◌, ◌==◌, ◌<◌, ◌≤◌, ◌^◌, ◌∷◌, ◌++◌, ℕ, List, [], Some, None, true, false, not, length};
    ghost use Rattle.concurrent_queue.specs.Alone.{PushGives, ForceGives, PopGives, is_full, shut};
    ghost use Rattle.concurrent_queue.specs.Room.{HasPlace};

    /// An open empty queue that holds at most `capacity` messages. `Err` if there is no memory for them, which is not even asked for above
    /// 2^58.
    pub fn bounded(alloc: Global, capacity: usize) -> Result<Exclusive<T>, NoMemory>
        requires { 0 < capacity }
        ensures opened { IfOk result (λ q. q ≡ record { items = []; closed = false; capacity = Some capacity }) }
        ensures most { IfOk result (λ q. capacity ≤ 2 ^ 58) }
    {
        if GREATEST < capacity {
            return Err(NoMemory);
        }
        match VecDeque::with_capacity(alloc, capacity) {
            Ok(messages) => Ok(Exclusive {
                messages,
                capacity: Some(capacity),
                closed: false,
            }),
            Err(_) => Err(NoMemory),
        }
    }

    /// An open empty queue with no bound. It takes no memory until messages come.
    pub fn unbounded(alloc: Global) -> Exclusive<T>
        ensures { result ≡ record { items = []; closed = false; capacity = None } }
    {
        Exclusive {
            messages: VecDeque::new(alloc),
            capacity: None,
            closed: false,
        }
    }

    /// Appends the message. `Err` returns it and leaves the queue as it was: `Full`, `Closed`, or `NoMemory`, which only an open queue with
    /// no bound answers. Where `HasPlace` of `specs/Room` holds the push succeeds: the queue has a bound, is open, and holds fewer messages
    /// than fit.
    #[inline]
    pub fn push(&mut self, value: T) -> Result<(), PushError<T>>
        ensures answer { PushGives self.old value self.new result }
        ensures appended { IfOk result (λ u. self.new.items ≡ self.old.items ++ value ∷ []) }
        ensures unchanged { IfErr result (λ e. self.new ≡ self.old) }
        ensures succeeds { HasPlace self.old → IsOk result }
    {
        if self.closed {
            return Err(PushError::Closed(value));
        }
        if self.is_full() {
            return Err(PushError::Full(value));
        }
        match self.messages.push_back(value) {
            Ok(()) => Ok(()),
            Err(refused) => Err(PushError::NoMemory(refused.value)),
        }
    }

    /// Appends the message; if the queue is full, removes and returns the oldest one. `Err` returns the message and leaves the queue as it
    /// was: `Closed`, or `NoMemory`, which only an open queue with no bound answers.
    pub fn force_push(&mut self, value: T) -> Result<Option<T>, ForcePushError<T>>
        ensures { ForceGives self.old value self.new result }
    {
        if self.closed {
            return Err(ForcePushError::Closed(value));
        }
        if self.is_full() {
            let oldest = self.messages.pop_front();
            self.messages.push_back_reserved(value);
            return Ok(oldest);
        }
        match self.messages.push_back(value) {
            Ok(()) => Ok(None),
            Err(refused) => Err(ForcePushError::NoMemory(refused.value)),
        }
    }

    /// Removes the oldest message. `Err` if there is none: `Empty` while the queue is open, `Closed` once it is closed.
    #[inline]
    pub fn pop(&mut self) -> Result<T, PopError>
        ensures answer { PopGives self.old self.new result }
        ensures taken { IfOk result (λ v. self.old.items ≡ v ∷ self.new.items) }
        ensures unchanged { IfErr result (λ e. self.new ≡ self.old) }
        ensures succeeds { 0 < length self.old.items → IsOk result }
    {
        match self.messages.pop_front() {
            Some(value) => Ok(value),
            None if self.closed => Err(PopError::Closed),
            None => Err(PopError::Empty),
        }
    }

    /// Closes the queue: nothing more comes in, and what is in can still be popped. True if it was open.
    pub fn close(&mut self) -> bool
        ensures answer { result ≡ not self.old.closed }
        ensures left { self.new ≡ shut self.old }
    {
        let was_open = !self.closed;
        self.closed = true;
        was_open
    }

    /// Whether the queue is closed.
    pub fn is_closed(&mut self) -> bool
        ensures answer { result ≡ self.old.closed }
        ensures left { self.new ≡ self.old }
    {
        self.closed
    }

    /// Whether it holds no message.
    pub fn is_empty(&mut self) -> bool
        ensures answer { result ≡ (length self.old.items == 0) }
        ensures left { self.new ≡ self.old }
    {
        self.messages.is_empty()
    }

    /// Whether it holds as many messages as its capacity.
    #[inline]
    pub fn is_full(&mut self) -> bool
        ensures answer { result ≡ is_full self.old }
        ensures left { self.new ≡ self.old }
    {
        match self.capacity {
            Some(capacity) => self.messages.len() == capacity,
            None => false,
        }
    }

    /// How many messages it holds, never more than its capacity.
    pub fn len(&mut self) -> usize
        ensures answer { result ≡ length self.old.items }
        ensures within { (cap : ℕ) → self.old.capacity ≡ Some cap → result ≤ cap }
        ensures left { self.new ≡ self.old }
    {
        self.messages.len()
    }

    /// How many messages it can hold.
    pub fn capacity(&mut self) -> Option<usize>
        ensures answer { result ≡ self.old.capacity }
        ensures left { self.new ≡ self.old }
    {
        self.capacity
    }
}

/// The messages of a queue of one owner, oldest first. Each one leaves the queue when it is returned; the others stay if the iterator is
/// dropped.
#[derive(Drop)]
pub struct ExclusiveIter<'a, T> {
    queue: &'a mut Exclusive<T>,
}

impl<'a, T: Drop> Iterator for ExclusiveIter<'a, T> {
    type Item = T;

    ghost use Rattle.std.specs.Prelude.{length};
    ghost use Rattle.std.specs.Iterator.{at_most};
    ghost use Rattle.concurrent_queue.specs.Walk.{walked, WalksOn};

    ghost next_gives = { WalksOn };

    ghost remaining = { λ s. at_most (length (walked s).now.items) };

    fn next(&mut self) -> Option<T> {
        self.queue.pop().ok()
    }
}

impl<T: Drop> Exclusive<T> {
    ghost use Rattle.std.specs.Prelude.{◌≡◌};
    ghost use Rattle.concurrent_queue.specs.Walk.{walked};

    /// The messages, oldest first, each of which leaves the queue when it is returned. The queue is unchanged until a message is asked for.
    pub fn try_iter(&mut self) -> ExclusiveIter<'_, T>
        ensures same_queue { (walked result).ghost_name ≡ self.entry.ghost_name }
        ensures unchanged { (walked result).now ≡ self.old }
    {
        // The walk has the ghost name of this borrow, so a caller can prove that a walk dropped unread changed nothing.
        ExclusiveIter { queue: self }
    }
}
