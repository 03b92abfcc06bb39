//! A channel as the calls find it.

use crate::beside::alone;
use crate::beside::kind::{Called, How, Kind};
use crate::beside::plain::Plain;
use crate::said::Said;
use crate::scarce::Scarce;
use crate::woken::{place_of, task_of};
use channel_calls::cells::ChannelCells;
use channel_calls::plain::PlainChannel;
use channel_calls::stage::{Side, WaitList};
use concurrent_queue::cells::QueueForm;
use event_listener::error::ListenError;
use event_listener::key::Key;
use std::alloc::{AllocError, Global};

/// A channel, and what is in it when the calls begin. Where somebody waits, two sends wait on a full one, two receives and two streams
/// on an empty one, and on each two wait for the closing. A listener that is refused is refused for want of a serial where messages have
/// passed, and else for want of memory.
#[derive(Clone, Copy)]
pub(crate) struct Start {
    pub(crate) form: QueueForm,
    pub(crate) bound: usize,
    pub(crate) passed: u64,
    pub(crate) messages: u64,
    pub(crate) closed: bool,
    pub(crate) waited: bool,
    /// So many senders and so many receivers live, one or two.
    pub(crate) handles: usize,
}

/// Its cells, the list that they stand for, and who waits: how many on each list, and the listeners of the first two of them.
#[derive(Drop)]
pub(crate) struct Begun {
    pub(crate) cells: Scarce,
    pub(crate) plain: Plain,
    pub(crate) waiting: [usize; 4],
    pub(crate) firsts: [Option<Key>; 4],
    pub(crate) seconds: [Option<Key>; 4],
}

/// The message of the first send that waits; the second one has the next.
pub(crate) const WAITING: u64 = 5;

impl Start {
    /// Whether somebody waits on this list.
    pub(crate) fn has_waiting(self, line: WaitList) -> bool {
        match line {
            WaitList::Sends => self.waited && self.messages > 0,
            WaitList::Receives | WaitList::Streams => self.waited && self.messages == 0,
            WaitList::Closings => self.waited,
        }
    }

    /// What a listener is refused for.
    fn want(self) -> ListenError {
        if self.passed > 0 {
            ListenError::SerialsUsedUp
        } else {
            ListenError::NoMemory
        }
    }

    /// The channel. So many messages have passed through it before.
    pub(crate) fn begin(self, alloc: Global) -> Result<Begun, AllocError> {
        let channel = match self.form {
            QueueForm::Unbounded => PlainChannel::new(QueueForm::Unbounded, alloc)?,
            QueueForm::Bounded(bound) if bound > 0 => {
                PlainChannel::new(QueueForm::Bounded(bound), alloc)?
            }
            QueueForm::Bounded(_) => return Err(AllocError),
        };
        let mut begun = Begun {
            cells: Scarce::new(channel, self.want()),
            plain: Plain::new(self.bound, self.handles, self.handles),
            waiting: [0; 4],
            firsts: [None; 4],
            seconds: [None; 4],
        };
        self.fill(alloc, &mut begun);
        if self.waited {
            self.wait(alloc, &mut begun);
        }
        Ok(begun)
    }

    fn fill(self, alloc: Global, begun: &mut Begun) {
        let cells = &mut begun.cells;
        for _ in 1..self.handles {
            for side in [Side::Senders, Side::Receivers] {
                alone(Called::new(Kind::CloneHandle(side), 0, 0, alloc), cells);
            }
        }
        for message in 0..self.passed {
            alone(Called::new(Kind::TrySend, message, 0, alloc), cells);
            alone(Called::new(Kind::TryRecv, 0, 0, alloc), cells);
        }
        for message in 1..self.messages.saturating_add(1) {
            alone(Called::new(Kind::TrySend, message, 0, alloc), cells);
            begun.plain.append(message);
        }
        if self.closed {
            alone(Called::new(Kind::Close, 0, 0, alloc), cells);
            begun.plain.close();
        }
    }

    fn wait(self, alloc: Global, begun: &mut Begun) {
        for line in [
            WaitList::Sends,
            WaitList::Receives,
            WaitList::Streams,
            WaitList::Closings,
        ] {
            if self.has_waiting(line) {
                begun.wait(alloc, line, 0);
                begun.wait(alloc, line, 1);
            }
        }
    }
}

impl Begun {
    /// The one of this number polls, and waits on this list.
    fn wait(&mut self, alloc: Global, line: WaitList, who: u32) {
        let kind = Kind::Poll(line, How::Anew);
        let message = WAITING.saturating_add(who as u64);
        let called = Called::new(kind, message, task_of(line, who), alloc);
        let (said, key) = alone(called, &mut self.cells);
        let place = place_of(line);
        if said == Said::Pending && place < 4 {
            self.waiting[place] = self.waiting[place].saturating_add(1);
            if who == 0 {
                self.firsts[place] = key;
            } else {
                self.seconds[place] = key;
            }
        }
    }
}

/// What is left in the channel.
pub(crate) fn left_in(alloc: Global, cells: &mut Scarce, bound: usize) -> Plain {
    let senders = ChannelCells::count(cells, Side::Senders);
    let receivers = ChannelCells::count(cells, Side::Receivers);
    let mut plain = Plain::new(bound, senders, receivers);
    let (closed, _) = alone(Called::new(Kind::Close, 0, 0, alloc), cells);
    for _ in 0..8 {
        match alone(Called::new(Kind::TryRecv, 0, 0, alloc), cells).0 {
            Said::Received(message) => plain.append(message),
            _ => break,
        }
    }
    if closed == Said::Flag(false) {
        plain.close();
    }
    plain
}
