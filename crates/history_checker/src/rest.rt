//! What holds once no call is under way but blocking ones that sleep: nobody who waits sleeps beside what it waits for.

use crate::point::Side;

/// What is seen of one thread then: of each of its operations that is pending whether it was woken since its last poll; whether it
/// is in a call that blocks; and of the channel three numbers.
#[derive(Clone, Copy, PartialEq, Eq, Debug)]
pub struct Look {
    /// Its send.
    pub send: Option<bool>,
    /// Its receive.
    pub recv: Option<bool>,
    /// Its wait for the closing.
    pub closed: Option<bool>,
    /// Its stream.
    pub stream: Option<bool>,
    /// The call that it is in: a send that blocks, or a receive.
    pub blocking: Option<Side>,
    /// How many messages the channel holds.
    pub messages: usize,
    /// How many it can hold.
    pub capacity: Option<usize>,
    /// Whether it is closed.
    pub shut: bool,
}

/// How many of one kind are pending, woken and not.
#[derive(Clone, Copy, PartialEq, Eq, Debug)]
struct Waiting {
    woken: usize,
    asleep: usize,
}

impl Waiting {
    fn nobody() -> Waiting {
        Waiting {
            woken: 0,
            asleep: 0,
        }
    }

    fn with(self, pending: Option<bool>) -> Waiting {
        match pending {
            Some(true) => Waiting {
                woken: self.woken.wrapping_add(1),
                asleep: self.asleep,
            },
            Some(false) => Waiting {
                woken: self.woken,
                asleep: self.asleep.wrapping_add(1),
            },
            None => self,
        }
    }

    /// With one more, asleep, if there is one.
    fn with_asleep(self, one: bool) -> Waiting {
        self.with(one.then_some(false))
    }

    /// Nobody sleeps, or for each of these somebody is woken.
    fn answers_for(self, those: usize) -> bool {
        self.asleep == 0 || those <= self.woken
    }
}

/// What the threads see together.
#[derive(Clone, Copy, PartialEq, Eq, Debug)]
pub struct Rest {
    sends: Waiting,
    receives: Waiting,
    closings: Waiting,
    streams: Waiting,
    look: Option<Look>,
}

impl Rest {
    /// Of no thread.
    pub fn unseen() -> Rest {
        Rest {
            sends: Waiting::nobody(),
            receives: Waiting::nobody(),
            closings: Waiting::nobody(),
            streams: Waiting::nobody(),
            look: None,
        }
    }

    /// With what is seen of one thread more.
    pub fn with(self, look: Look) -> Rest {
        let sends = look.blocking == Some(Side::Senders);
        let receives = look.blocking == Some(Side::Receivers);
        Rest {
            sends: self.sends.with(look.send).with_asleep(sends),
            receives: self.receives.with(look.recv).with_asleep(receives),
            closings: self.closings.with(look.closed),
            streams: self.streams.with(look.stream),
            look: Some(look),
        }
    }

    fn nobody_sleeps(self) -> bool {
        self.sends.asleep == 0
            && self.receives.asleep == 0
            && self.closings.asleep == 0
            && self.streams.asleep == 0
    }

    /// Nobody sleeps beside what is there of an open channel.
    fn is_fed(self, look: Look) -> bool {
        let places = match look.capacity {
            Some(capacity) => capacity.saturating_sub(look.messages),
            None => usize::MAX,
        };
        self.sends.answers_for(places)
            && self.receives.answers_for(look.messages)
            && (self.streams.asleep == 0 || look.messages == 0)
    }

    /// Whether nobody sleeps who must not: on a closed channel nobody does; on an open one no receive beside messages and no
    /// send beside free places for which others are not woken, and no stream beside a message.
    pub fn is_right(self) -> bool {
        match self.look {
            None => true,
            Some(look) if look.shut => self.nobody_sleeps(),
            Some(look) => self.is_fed(look),
        }
    }
}
