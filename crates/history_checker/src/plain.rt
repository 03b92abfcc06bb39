//! A plain channel that can be closed: a list of messages, a flag, two counts.

use crate::point::{Point, Side, Sight};
use std::alloc::{AllocError, Global};
use std::collections::VecDeque;

/// The messages, oldest first; whether it is closed; whether a message that displaced another is still on its way; how many
/// handles of each kind live, and which thread dropped the last one.
#[derive(Drop)]
pub struct Plain {
    capacity: Option<usize>,
    messages: VecDeque<u64>,
    closed: bool,
    coming: bool,
    senders: usize,
    receivers: usize,
    last_sender: Option<usize>,
    last_receiver: Option<usize>,
}

/// A number for whoever dropped the last handle of a kind, or for nobody.
fn number_of(thread: Option<usize>) -> u64 {
    match thread {
        Some(thread) => (thread as u64).wrapping_add(1),
        None => 0,
    }
}

impl Plain {
    /// An open and empty channel with so many handles.
    pub fn new(capacity: Option<usize>, senders: usize, receivers: usize, alloc: Global) -> Plain {
        Plain {
            capacity,
            messages: VecDeque::new(alloc),
            closed: false,
            coming: false,
            senders,
            receivers,
            last_sender: None,
            last_receiver: None,
        }
    }

    /// The same channel once more.
    pub fn again(&self) -> Result<Plain, AllocError> {
        let messages = self.messages.clone()?;
        Ok(Plain {
            capacity: self.capacity,
            messages,
            closed: self.closed,
            coming: self.coming,
            senders: self.senders,
            receivers: self.receivers,
            last_sender: self.last_sender,
            last_receiver: self.last_receiver,
        })
    }

    /// Adds what it is to these numbers. Of two channels of one capacity they differ where the channels do.
    pub fn tell(&self, numbers: &mut Vec<u64>) -> Result<(), AllocError> {
        numbers.push(u64::from(self.closed))?;
        numbers.push(u64::from(self.coming))?;
        numbers.push(self.senders as u64)?;
        numbers.push(self.receivers as u64)?;
        numbers.push(number_of(self.last_sender))?;
        numbers.push(number_of(self.last_receiver))?;
        for message in &self.messages {
            numbers.push(*message)?;
        }
        Ok(())
    }

    fn is_full(&self) -> bool {
        self.capacity == Some(self.messages.len())
    }

    fn has_oldest(&self, message: u64) -> bool {
        self.messages.front() == Some(&message)
    }

    fn is_over(&self) -> bool {
        self.messages.is_empty() && !self.coming
    }

    fn count(&self, side: Side) -> usize {
        match side {
            Side::Senders => self.senders,
            Side::Receivers => self.receivers,
        }
    }

    fn shows(&self, sight: Sight) -> bool {
        match sight {
            Sight::Open => !self.closed,
            Sight::Shut => self.closed,
            Sight::Crowded => !self.closed && self.is_full(),
            Sight::Bare => !self.closed && self.is_over(),
            Sight::Spent => self.closed && self.is_over(),
            Sight::Over => self.is_over(),
            Sight::Ended(ended) => ended == (self.closed && self.messages.is_empty()),
            Sight::Empty(empty) => empty == self.messages.is_empty(),
            Sight::Full(full) => full == self.is_full(),
            Sight::Len(length) => length == self.messages.len(),
            Sight::Count(side, count) => count == self.count(side),
            Sight::NotMade(side) => self.closed || self.count(side) == 0,
        }
    }

    /// Whether this can happen now. Nothing comes in while a message that displaced another is on its way, but that one.
    pub fn may(&self, point: Point) -> bool {
        match point {
            Point::Append(_) => !self.closed && !self.is_full() && !self.coming,
            Point::Take(message) => self.has_oldest(message),
            Point::Displace(oldest) => self.is_full() && !self.coming && self.has_oldest(oldest),
            Point::Arrive(_) => self.coming,
            Point::Replace(oldest, _) => {
                !self.closed && self.is_full() && self.has_oldest(oldest)
            }
            Point::Close => !self.closed,
            Point::Raise(side) | Point::Lower(side) => self.count(side) > 0,
            Point::CloseIfLast(_) => true,
            Point::Sees(sight) => self.shows(sight),
        }
    }

    /// Whether it changes nothing now, when it is a thread's.
    pub fn is_still(&self, point: Point, thread: usize) -> bool {
        match point {
            Point::Sees(_) => true,
            Point::CloseIfLast(side) => self.closed || !self.was_last(side, thread),
            _ => false,
        }
    }

    fn was_last(&self, side: Side, thread: usize) -> bool {
        match side {
            Side::Senders => self.last_sender == Some(thread),
            Side::Receivers => self.last_receiver == Some(thread),
        }
    }

    fn recount(&mut self, side: Side, count: usize, thread: usize) {
        let last = (count == 0).then_some(thread);
        match side {
            Side::Senders => {
                self.senders = count;
                self.last_sender = last;
            }
            Side::Receivers => {
                self.receivers = count;
                self.last_receiver = last;
            }
        }
    }

    /// Lets it happen, by a thread.
    pub fn make(&mut self, point: Point, thread: usize) -> Result<(), AllocError> {
        match point {
            Point::Append(message) => self.messages.push_back(message)?,
            Point::Take(_) => self.take(),
            Point::Displace(_) => {
                self.take();
                self.coming = true;
            }
            Point::Arrive(message) => {
                self.messages.push_back(message)?;
                self.coming = false;
            }
            Point::Replace(_, message) => {
                self.take();
                self.messages.push_back(message)?;
            }
            Point::Close => self.closed = true,
            Point::Raise(side) => {
                let count = self.count(side).wrapping_add(1);
                self.recount(side, count, thread);
            }
            Point::Lower(side) => {
                let count = self.count(side).wrapping_sub(1);
                self.recount(side, count, thread);
            }
            Point::CloseIfLast(side) => {
                let last = self.was_last(side, thread);
                self.closed = self.closed || last;
            }
            Point::Sees(_) => {}
        }
        Ok(())
    }

    fn take(&mut self) {
        let _ = self.messages.pop_front();
    }
}
