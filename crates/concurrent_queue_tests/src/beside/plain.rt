//! A list of messages that can be closed, and what calls of it answer.

use crate::said::Said;
use concurrent_queue::call::{QueueAsk, QueueMark};

/// What a call asks.
#[derive(Clone, Copy)]
pub(crate) enum Asks {
    Push,
    ForcePush,
    Pop,
    Close,
    IsClosed,
    IsEmpty,
    IsFull,
    Len,
    Capacity,
}

/// A kind of call: what it is called, what it asks, and whether no block can be made for it.
#[derive(Clone, Copy)]
pub(crate) struct Kind {
    pub(crate) name: &'static str,
    pub(crate) asks: Asks,
    pub(crate) is_refused: bool,
}

const PUSH: Kind = Kind {
    name: "push",
    asks: Asks::Push,
    is_refused: false,
};

const FORCE_PUSH: Kind = Kind {
    name: "force",
    asks: Asks::ForcePush,
    is_refused: false,
};

const POP: Kind = Kind {
    name: "pop",
    asks: Asks::Pop,
    is_refused: false,
};

const CLOSE: Kind = Kind {
    name: "close",
    asks: Asks::Close,
    is_refused: false,
};

/// Those that change a queue.
pub(crate) static CHANGES: [Kind; 4] = [PUSH, FORCE_PUSH, POP, CLOSE];

/// The calls. Two of them get no block, where they need one.
pub(crate) static KINDS: [Kind; 11] = [
    PUSH,
    FORCE_PUSH,
    Kind {
        name: "push without memory",
        asks: Asks::Push,
        is_refused: true,
    },
    Kind {
        name: "force without memory",
        asks: Asks::ForcePush,
        is_refused: true,
    },
    POP,
    CLOSE,
    Kind {
        name: "is_closed",
        asks: Asks::IsClosed,
        is_refused: false,
    },
    Kind {
        name: "is_empty",
        asks: Asks::IsEmpty,
        is_refused: false,
    },
    Kind {
        name: "is_full",
        asks: Asks::IsFull,
        is_refused: false,
    },
    Kind {
        name: "len",
        asks: Asks::Len,
        is_refused: false,
    },
    Kind {
        name: "capacity",
        asks: Asks::Capacity,
        is_refused: false,
    },
];

impl Kind {
    /// The question, with this message where it has one.
    pub(crate) fn ask(self, message: u64) -> QueueAsk<u64> {
        match self.asks {
            Asks::Push => QueueAsk::Push(message),
            Asks::ForcePush => QueueAsk::ForcePush(message),
            Asks::Pop => QueueAsk::Pop,
            Asks::Close => QueueAsk::Close,
            Asks::IsClosed => QueueAsk::IsClosed,
            Asks::IsEmpty => QueueAsk::IsEmpty,
            Asks::IsFull => QueueAsk::IsFull,
            Asks::Len => QueueAsk::Len,
            Asks::Capacity => QueueAsk::Capacity,
        }
    }
}

/// What a step of a call did to the list, with the call's message, and which call it was.
#[derive(Clone, Copy)]
pub(crate) struct Event {
    pub(crate) mark: QueueMark,
    pub(crate) message: u64,
    pub(crate) by: usize,
}

impl Event {
    /// Whether the oldest message left.
    fn takes(&self) -> bool {
        matches!(
            self.mark,
            QueueMark::Take | QueueMark::TakeDisplaced | QueueMark::Replace
        )
    }

    /// Whether the call's message came in.
    fn appends(&self) -> bool {
        matches!(self.mark, QueueMark::Append | QueueMark::Replace)
    }
}

/// How many messages a list of these tests has room for.
const ROOM: usize = 8;

/// A list of messages, oldest first, with a bound or without one.
#[derive(Clone, Copy, PartialEq, Eq)]
pub(crate) struct Plain {
    messages: [u64; ROOM],
    count: usize,
    pub(crate) closed: bool,
    bound: usize,
}

impl Plain {
    /// An open and empty list with this bound.
    pub(crate) fn new(bound: usize) -> Plain {
        Plain {
            messages: [0; ROOM],
            count: 0,
            closed: false,
            bound,
        }
    }

    pub(crate) fn append(&mut self, message: u64) {
        if let Some(place) = self.messages.get_mut(self.count) {
            *place = message;
            self.count = self.count.wrapping_add(1);
        }
    }

    /// Takes the oldest message; 0 where there is none.
    fn take(&mut self) -> u64 {
        if self.count == 0 {
            return 0;
        }
        let oldest = self.messages[0];
        for place in 1..ROOM {
            self.messages[place - 1] = self.messages[place];
        }
        self.messages[ROOM - 1] = 0;
        self.count = self.count.saturating_sub(1);
        oldest
    }

    fn is_full(&self) -> bool {
        self.count >= self.bound
    }

    /// Does what a step did, and answers the message that it took, or 0.
    pub(crate) fn do_event(&mut self, event: &Event) -> u64 {
        let taken = if event.takes() { self.take() } else { 0 };
        if event.appends() {
            self.append(event.message);
        }
        self.closed = self.closed | matches!(event.mark, QueueMark::Close);
        taken
    }

    /// What a pop says, at one moment.
    fn pop(&mut self) -> Said {
        if self.count > 0 {
            ("popped", self.take())
        } else if self.closed {
            ("shut", 0)
        } else {
            ("empty", 0)
        }
    }

    /// What a push says, at one moment.
    fn push(&mut self, message: u64) -> Said {
        if self.closed {
            ("closed", message)
        } else if self.is_full() {
            ("full", message)
        } else {
            self.append(message);
            ("pushed", 0)
        }
    }

    /// What a displacing push says, at its first moment; whether its message is still to come, at a later one.
    fn make_room(&mut self, message: u64) -> (Said, bool) {
        if self.closed {
            (("closed", message), false)
        } else if self.is_full() {
            (("displaced", self.take()), true)
        } else {
            (("forced", 0), true)
        }
    }

    /// What a closing says, at one moment.
    fn close(&mut self) -> Said {
        if std::mem::replace(&mut self.closed, true) {
            ("was closed", 0)
        } else {
            ("closed it", 0)
        }
    }

    /// How many messages there is room for.
    fn room(&self) -> Said {
        if self.bound < ROOM {
            ("room", self.bound as u64)
        } else {
            ("no bound", 0)
        }
    }

    /// What a push says that got no block, at one moment.
    fn refuse(&self, message: u64) -> Said {
        if self.closed {
            ("closed", message)
        } else {
            ("no memory", message)
        }
    }

    fn flag(it: bool) -> Said {
        if it { ("yes", 0) } else { ("no", 0) }
    }

    /// What a call says at one moment, and whether its message is still to come; found was this. The list has no blocks, so it can't say
    /// whether one was needed.
    pub(crate) fn answer(&mut self, kind: Kind, message: u64, found: Said) -> (Said, bool) {
        if kind.is_refused && found.0 == "no memory" {
            return (self.refuse(message), false);
        }
        let said = match kind.asks {
            Asks::Push => self.push(message),
            Asks::ForcePush => return self.make_room(message),
            Asks::Pop => self.pop(),
            Asks::Close => self.close(),
            Asks::IsClosed => Plain::flag(self.closed),
            Asks::IsEmpty => Plain::flag(self.count == 0),
            Asks::IsFull => Plain::flag(self.is_full()),
            Asks::Len => ("holds", self.count as u64),
            Asks::Capacity => self.room(),
        };
        (said, false)
    }
}
