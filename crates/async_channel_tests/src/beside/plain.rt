//! A list of messages that can be closed, with the handles that are counted of it, and what calls of a channel answer by it.

use crate::beside::kind::{How, Kind};
use crate::said::Said;
use channel_calls::mark::Mark;
use channel_calls::stage::{Side, WaitList};

/// What a step of a call did to the list, with the call's message, and which call it was.
#[derive(Clone, Copy)]
pub(crate) struct Event {
    pub(crate) mark: Mark,
    pub(crate) kind: Kind,
    pub(crate) message: u64,
    pub(crate) by: usize,
}

/// What a call still does to the list at a later moment.
#[derive(Clone, Copy)]
pub(crate) enum Later {
    /// Nothing.
    Nothing,
    /// It appends its message.
    Append,
    /// It takes one more message, if there is one.
    Take,
    /// It takes one more message, or finds the list closed and empty.
    Await,
    /// It closes.
    Close,
    /// It counts one handle more, if one is counted.
    Raise(Side),
}

/// How many messages a list of these tests has room for; a bound that is greater is none.
const ROOM: usize = 8;

/// A list of messages, oldest first, with a bound or without one.
#[derive(Clone, Copy, PartialEq, Eq)]
pub(crate) struct Plain {
    messages: [u64; ROOM],
    count: usize,
    closed: bool,
    bound: usize,
    senders: usize,
    receivers: usize,
    /// Whether a step did what no call may do.
    broken: bool,
}

impl Plain {
    /// An open and empty list with this bound, and so many senders and receivers.
    pub(crate) fn new(bound: usize, senders: usize, receivers: usize) -> Plain {
        Plain {
            messages: [0; ROOM],
            count: 0,
            closed: false,
            bound,
            senders,
            receivers,
            broken: false,
        }
    }

    pub(crate) fn append(&mut self, message: u64) {
        if let Some(place) = self.messages.get_mut(self.count) {
            *place = message;
            self.count = self.count.wrapping_add(1);
        }
    }

    pub(crate) fn close(&mut self) {
        self.closed = true;
    }

    /// A call of this kind closes; a drop may only where no other handle is counted.
    fn close_by(&mut self, kind: Kind) {
        let left = match kind {
            Kind::DropHandle(side) => self.counted(side),
            Kind::DropStream => self.receivers,
            _ => 0,
        };
        self.broken = self.broken || left != 0;
        self.close();
    }

    /// Takes the oldest message; 0 where there is none.
    fn take(&mut self) -> u64 {
        if self.count == 0 {
            return 0;
        }
        let oldest = self.messages[0];
        for place in 1..ROOM {
            self.messages[place - 1] = self.messages[place];
        }
        self.messages[ROOM - 1] = 0;
        self.count = self.count.saturating_sub(1);
        oldest
    }

    fn is_full(&self) -> bool {
        self.count >= self.bound
    }

    /// How many handles of this kind are counted.
    fn counted(&self, side: Side) -> usize {
        match side {
            Side::Senders => self.senders,
            Side::Receivers => self.receivers,
        }
    }

    /// So many handles of this kind are counted, where one was at least.
    fn count_so(&mut self, side: Side, count: usize) {
        self.broken = self.broken || self.counted(side) == 0;
        match side {
            Side::Senders => self.senders = count,
            Side::Receivers => self.receivers = count,
        }
    }

    /// One handle more of this kind is counted.
    fn count_up(&mut self, side: Side) {
        let count = self.counted(side);
        self.count_so(side, count.saturating_add(1));
    }

    /// One handle less of this kind is counted.
    fn count_down(&mut self, side: Side) {
        let count = self.counted(side);
        self.count_so(side, count.saturating_sub(1));
    }

    /// Whether it is closed, where the last handle of a kind is gone.
    pub(crate) fn is_sound(&self) -> bool {
        self.closed || (self.senders > 0 && self.receivers > 0)
    }

    /// Does what a step did, and answers the message that it took, or 0.
    pub(crate) fn do_event(&mut self, event: &Event) -> u64 {
        let mut taken = 0;
        match event.mark {
            Mark::Append => self.append(event.message),
            Mark::Take | Mark::TakeDisplaced => taken = self.take(),
            Mark::Replace => {
                taken = self.take();
                self.append(event.message);
            }
            Mark::Close => self.close_by(event.kind),
            Mark::SenderUp => self.count_up(Side::Senders),
            Mark::SenderDown => self.count_down(Side::Senders),
            Mark::ReceiverUp => self.count_up(Side::Receivers),
            Mark::ReceiverDown => self.count_down(Side::Receivers),
            Mark::Nothing => {}
        }
        taken
    }

    /// What a receive says, at one moment; this where the list is open and empty.
    fn receive(&mut self, empty: Said) -> Said {
        if self.count > 0 {
            Said::Received(self.take())
        } else if self.closed {
            Said::Closed(None)
        } else {
            empty
        }
    }

    /// What a send says, at one moment; this where the list is open and full.
    fn send(&mut self, message: u64, full: Said) -> Said {
        if self.closed {
            Said::Closed(Some(message))
        } else if self.is_full() {
            full
        } else {
            self.append(message);
            Said::Sent(None)
        }
    }

    /// What an operation of this list says, at one moment; this where it has to wait.
    fn tries(&mut self, line: WaitList, message: u64, waits: Said) -> Said {
        match line {
            WaitList::Sends => self.send(message, waits),
            WaitList::Receives | WaitList::Streams => self.receive(waits),
            WaitList::Closings if self.closed => Said::Ended,
            WaitList::Closings => waits,
        }
    }

    /// What it says as it is polled so. One that is refused another listener may have needed none.
    fn polled(&mut self, line: WaitList, how: How, message: u64, found: Said) -> Said {
        match how {
            How::Leaves if line == WaitList::Sends => Said::GivenUp(Some(message)),
            How::Leaves => Said::GivenUp(None),
            How::Unwoken => Said::Refused,
            How::Unlisted => self.tries(line, message, Said::Refused),
            How::Delisted if found == Said::Refused => self.tries(line, message, Said::Refused),
            _ => self.tries(line, message, Said::Pending),
        }
    }

    /// What a displacing send says, at its first moment; its message may come at a later one.
    fn make_room(&mut self, message: u64) -> (Said, Later) {
        if self.closed {
            (Said::Closed(Some(message)), Later::Nothing)
        } else if self.is_full() {
            (Said::Sent(Some(self.take())), Later::Append)
        } else {
            (Said::Sent(None), Later::Append)
        }
    }

    /// What a call that takes two messages says, at its first moment; this where the list is open and empty. It takes the second one at a
    /// later moment.
    fn receive_first(&mut self, empty: Said, later: Later) -> (Said, Later) {
        let said = self.receive(empty);
        match said {
            Said::Received(_) => (said, later),
            _ => (said, Later::Nothing),
        }
    }

    /// What a drop of this kind of handle says, at its first moment. The last one closes at a later moment.
    fn lower(&mut self, side: Side) -> (Said, Later) {
        self.count_down(side);
        if self.counted(side) == 0 {
            (Said::Dropped, Later::Close)
        } else {
            (Said::Dropped, Later::Nothing)
        }
    }

    /// What an upgrade says, at its first moment. It counts at a later one.
    fn upgrade(&self, side: Side) -> (Said, Later) {
        if self.closed {
            (Said::Made(false), Later::Nothing)
        } else {
            (Said::Missing, Later::Raise(side))
        }
    }

    /// Counts one handle more, if one is counted, and says whether it did.
    fn raise(&mut self, side: Side) -> Said {
        let is_there = self.counted(side) > 0;
        if is_there {
            self.count_up(side);
        }
        Said::Made(is_there)
    }

    /// What a call of several says that has taken a first message, and takes a second one where there is one.
    fn take_second(&mut self, said: Said) -> Said {
        match said {
            Said::Received(first) if self.count > 0 => Said::Several(first, self.take()),
            said => said,
        }
    }

    /// Does what a call still does, and answers what it then says.
    pub(crate) fn end(&mut self, said: Said, later: Later, message: u64) -> Said {
        match later {
            Later::Nothing => said,
            Later::Append => {
                self.append(message);
                said
            }
            Later::Take => self.take_second(said),
            Later::Await if self.count == 0 && !self.closed => Said::Missing,
            Later::Await => self.take_second(said),
            Later::Close => {
                self.close();
                said
            }
            Later::Raise(side) => self.raise(side),
        }
    }

    /// What a closing says.
    fn closing(&mut self) -> Said {
        let said = Said::Flag(!self.closed);
        self.close();
        said
    }

    /// What a call says at one moment, and what it still does later; found was this.
    pub(crate) fn answer(&mut self, kind: Kind, message: u64, found: Said) -> (Said, Later) {
        let said = match kind {
            Kind::ForceSend => return self.make_room(message),
            Kind::RecvMany | Kind::RecvManyInto => {
                return self.receive_first(Said::Empty, Later::Take);
            }
            Kind::Walk(_) => return self.receive_first(Said::Missing, Later::Await),
            Kind::DropHandle(side) => return self.lower(side),
            Kind::DropStream => return self.lower(Side::Receivers),
            Kind::Upgrade(side) => return self.upgrade(side),
            Kind::CloneHandle(side) => self.raise(side),
            Kind::TrySend => self.send(message, Said::Full(message)),
            Kind::TryRecv => self.receive(Said::Empty),
            Kind::Poll(line, how) => self.polled(line, how, message, found),
            Kind::Blocks(line, refused) => {
                let waits = if refused {
                    Said::Refused
                } else {
                    Said::Missing
                };
                self.tries(line, message, waits)
            }
            Kind::Close => self.closing(),
            _ => self.question(kind),
        };
        (said, Later::Nothing)
    }

    /// What a question says.
    fn question(&self, kind: Kind) -> Said {
        match kind {
            Kind::IsEmpty => Said::Flag(self.count == 0),
            Kind::IsFull => Said::Flag(self.is_full()),
            Kind::IsTerminated => Said::Flag(self.closed && self.count == 0),
            Kind::Len => Said::Count(self.count),
            Kind::HandleCount(side) => Said::Count(self.counted(side)),
            Kind::Capacity if self.bound > ROOM => Said::Cap(None),
            Kind::Capacity => Said::Cap(Some(self.bound)),
            _ => Said::Flag(self.closed),
        }
    }
}
