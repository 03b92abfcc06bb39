//! A plain channel whose calls are made one at a time: what is held, and who waits, in order.

use crate::answer::Answer;
use crate::differs::Differs;
use channel_calls::stage::WaitList;
use channel_world::name::Waiter;
use std::alloc::Global;

/// One who is pending.
#[derive(Clone, Copy)]
struct Sleeper {
    name: Waiter,
    line: WaitList,
    /// What it sends, of a send.
    message: u64,
}

/// What is held, who waits untold, in the order in which they came, and who was woken, in the order of their wakes.
#[derive(Drop)]
pub struct Plain {
    capacity: Option<usize>,
    held: Vec<u64>,
    is_closed: bool,
    untold: Vec<Sleeper>,
    woken: Vec<Sleeper>,
    /// What the last receive of several took.
    pub taken: Vec<u64>,
}

impl Plain {
    /// An open channel with nothing in it and nobody who waits.
    pub fn new(capacity: Option<usize>, alloc: Global) -> Self {
        Plain {
            capacity,
            held: Vec::new(alloc),
            is_closed: false,
            untold: Vec::new(alloc),
            woken: Vec::new(alloc),
            taken: Vec::new(alloc),
        }
    }

    /// How many messages it holds.
    pub fn messages(&self) -> usize {
        self.held.len()
    }

    /// How many are pending.
    pub fn pending(&self) -> usize {
        self.untold.len().saturating_add(self.woken.len())
    }

    /// How many of them were woken.
    pub fn woken(&self) -> usize {
        self.woken.len()
    }

    /// Whose wake is the oldest.
    pub fn first_woken(&self) -> Option<Waiter> {
        match self.woken.first() {
            Some(sleeper) => Some(sleeper.name),
            None => None,
        }
    }

    /// Whether the messages that it may hold are there.
    fn is_full(&self) -> bool {
        match self.capacity {
            Some(capacity) => self.held.len() >= capacity,
            None => false,
        }
    }

    /// The place of the first one on a line; past all where there is none.
    fn first_on(&self, line: WaitList) -> usize {
        let mut place = 0usize;
        for sleeper in &self.untold {
            if sleeper.line == line {
                return place;
            }
            place = place.saturating_add(1);
        }
        place
    }

    /// Tells the first one on a line.
    fn tell_one(&mut self, line: WaitList) -> Result<(), Differs> {
        let place = self.first_on(line);
        if place >= self.untold.len() {
            return Ok(());
        }
        let sleeper = self.untold.remove(place);
        add(&mut self.woken, sleeper)
    }

    /// Tells all on a line.
    fn tell_all(&mut self, line: WaitList) -> Result<(), Differs> {
        for _ in 0..self.untold.len() {
            self.tell_one(line)?;
        }
        Ok(())
    }

    /// A message comes in, or why it doesn't.
    pub fn send(&mut self, message: u64) -> Result<Answer, Differs> {
        if self.is_closed {
            return Ok(Answer::SendClosed(message));
        }
        if self.is_full() {
            return Ok(Answer::Full(message));
        }
        if self.held.push(message).is_err() {
            return Err(Differs::NoMemory);
        }
        self.tell_one(WaitList::Receives)?;
        self.tell_all(WaitList::Streams)?;
        Ok(Answer::Sent)
    }

    /// Why no message leaves where none is held.
    fn why_none(&self) -> Answer {
        if self.is_closed {
            Answer::ReceiveClosed
        } else {
            Answer::Empty
        }
    }

    /// The oldest message leaves, or why none does.
    pub fn receive(&mut self) -> Result<Answer, Differs> {
        if self.held.is_empty() {
            return Ok(self.why_none());
        }
        let message = self.held.remove(0);
        self.tell_one(WaitList::Sends)?;
        Ok(Answer::Received(message))
    }

    /// The oldest messages leave, at most so many, and as many sends are told; or why none leaves that may.
    pub fn receive_several(&mut self, limit: usize) -> Result<Answer, Differs> {
        let count = self.held.len().min(limit);
        self.taken.clear();
        if count == 0 && limit > 0 {
            return Ok(self.why_none());
        }
        for _ in 0..count {
            self.take_one()?;
        }
        Ok(Answer::Several(count))
    }

    /// The oldest message is one more that a receive of several takes, and a send is told.
    fn take_one(&mut self) -> Result<(), Differs> {
        if self.held.is_empty() {
            return Err(Differs::Reply);
        }
        let message = self.held.remove(0);
        if self.taken.push(message).is_err() {
            return Err(Differs::NoMemory);
        }
        self.tell_one(WaitList::Sends)
    }

    /// It is closed, if it was not.
    pub fn close(&mut self) -> Result<Answer, Differs> {
        if self.is_closed {
            return Ok(Answer::Closed(false));
        }
        self.is_closed = true;
        for line in [
            WaitList::Sends,
            WaitList::Receives,
            WaitList::Streams,
            WaitList::Closings,
        ] {
            self.tell_all(line)?;
        }
        Ok(Answer::Closed(true))
    }

    /// What one tries that is polled.
    fn try_once(&mut self, sleeper: Sleeper) -> Result<Answer, Differs> {
        match sleeper.line {
            WaitList::Sends => self.send(sleeper.message),
            WaitList::Receives | WaitList::Streams => self.receive(),
            WaitList::Closings if self.is_closed => Ok(Answer::HasClosed),
            WaitList::Closings => Ok(Answer::Empty),
        }
    }

    /// One is polled. Where it can't go on it waits, after all others; an operation that goes on without having looked at its
    /// notice passes it on.
    fn poll_one(&mut self, sleeper: Sleeper, was_told: bool) -> Result<Answer, Differs> {
        let answer = self.try_once(sleeper)?;
        if let Answer::Full(_) | Answer::Empty = answer {
            add(&mut self.untold, sleeper)?;
            return Ok(Answer::Pending);
        }
        if was_told && sleeper.line != WaitList::Streams {
            self.tell_one(sleeper.line)?;
        }
        Ok(answer)
    }

    /// The first poll of one that waits on this line; a send brings this message.
    pub fn poll_new(
        &mut self,
        name: Waiter,
        line: WaitList,
        message: u64,
    ) -> Result<Answer, Differs> {
        self.poll_one(
            Sleeper {
                name,
                line,
                message,
            },
            false,
        )
    }

    /// A poll of the one whose wake is the oldest.
    pub fn poll_woken(&mut self) -> Result<Answer, Differs> {
        if self.woken.is_empty() {
            return Err(Differs::Woken);
        }
        let sleeper = self.woken.remove(0);
        self.poll_one(sleeper, true)
    }
}

/// One more at the end.
fn add(sleepers: &mut Vec<Sleeper>, sleeper: Sleeper) -> Result<(), Differs> {
    match sleepers.push(sleeper) {
        Ok(()) => Ok(()),
        Err(_) => Err(Differs::NoMemory),
    }
}
