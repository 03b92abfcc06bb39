//! What held at the moments of a call.

use crate::count::Count;
use channel_calls::stage::Side;

/// The least and the greatest that a number was. It moves by one at a time, so that it was each between them too.
#[derive(Clone, Copy)]
pub struct Range {
    least: usize,
    most: usize,
}

impl Range {
    fn never() -> Self {
        Range {
            least: usize::MAX,
            most: 0,
        }
    }

    fn with(self, number: usize) -> Self {
        Range {
            least: self.least.min(number),
            most: self.most.max(number),
        }
    }

    /// Whether the number was this one.
    pub fn has(self, number: usize) -> bool {
        self.least <= number && number <= self.most
    }

    /// Whether it was above 0.
    pub fn has_some(self) -> bool {
        self.most > 0
    }
}

/// What held at some moment of a call so far.
#[derive(Clone, Copy)]
pub struct Saw {
    /// Open.
    pub open: bool,
    /// Closed.
    pub shut: bool,
    /// Open and full.
    pub crowded: bool,
    /// Open and empty, with nothing on its way.
    pub bare: bool,
    /// Closed and empty.
    pub ended: bool,
    /// Closed and empty, with nothing on its way.
    pub spent: bool,
    /// Empty, with nothing on its way, since the call took a message.
    pub over: bool,
    /// The number of messages.
    pub messages: Range,
    /// The number of free places.
    pub places: Range,
    senders: Range,
    receivers: Range,
}

impl Saw {
    /// Of a call that has had no moment.
    pub fn nothing() -> Self {
        Saw {
            open: false,
            shut: false,
            crowded: false,
            bare: false,
            ended: false,
            spent: false,
            over: false,
            messages: Range::never(),
            places: Range::never(),
            senders: Range::never(),
            receivers: Range::never(),
        }
    }

    /// One more moment.
    pub fn with(self, count: &Count) -> Self {
        let closed = count.closed;
        let empty = count.messages() == 0;
        let full = count.free_places() == 0;
        let over = empty && count.on_way == 0;
        Saw {
            open: self.open || !closed,
            shut: self.shut || closed,
            crowded: self.crowded || (!closed && full),
            bare: self.bare || (!closed && over),
            ended: self.ended || (closed && empty),
            spent: self.spent || (closed && over),
            over: self.over || over,
            messages: self.messages.with(count.messages()),
            places: self.places.with(count.free_places()),
            senders: self.senders.with(count.handles(Side::Senders)),
            receivers: self.receivers.with(count.handles(Side::Receivers)),
        }
    }

    /// The number of strong handles of this kind.
    pub fn handles(self, side: Side) -> Range {
        match side {
            Side::Senders => self.senders,
            Side::Receivers => self.receivers,
        }
    }
}
