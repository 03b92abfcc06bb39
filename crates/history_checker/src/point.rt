//! What happens to a channel at one moment, and what a call did.

/// The two kinds of handles.
#[derive(Clone, Copy, PartialEq, Eq, Debug)]
pub enum Side {
    /// Senders.
    Senders,
    /// Receivers.
    Receivers,
}

/// What a call may find at one of its moments, and leave as it is.
#[derive(Clone, Copy, PartialEq, Eq, Debug)]
pub enum Sight {
    /// It is open.
    Open,
    /// It is closed.
    Shut,
    /// It is open and full.
    Crowded,
    /// It is open; nothing is there, and nothing on its way.
    Bare,
    /// It is closed; nothing is there, and nothing on its way.
    Spent,
    /// Nothing is there, and nothing on its way, whether it is open or closed.
    Over,
    /// It is closed and nothing is there, or not so.
    Ended(bool),
    /// Nothing is there, or something.
    Empty(bool),
    /// There is no free place, or one.
    Full(bool),
    /// So many messages are there.
    Len(usize),
    /// So many handles of this kind live.
    Count(Side, usize),
    /// It is closed, or no handle of this kind lives.
    NotMade(Side),
}

/// What a call does at one of its moments. The numbers are messages.
#[derive(Clone, Copy, PartialEq, Eq, Debug)]
pub enum Point {
    /// A message comes in, behind all others.
    Append(u64),
    /// The oldest message leaves.
    Take(u64),
    /// The oldest message leaves for one that is on its way then.
    Displace(u64),
    /// The message that was on its way comes in.
    Arrive(u64),
    /// The one message of one slot leaves, and another comes in: the one that leaves, the one that comes.
    Replace(u64, u64),
    /// The channel is closed.
    Close,
    /// There is one handle of this kind more.
    Raise(Side),
    /// There is one handle of this kind fewer.
    Lower(Side),
    /// Whoever dropped the last handle of this kind closes, if nobody has.
    CloseIfLast(Side),
    /// Nothing is changed.
    Sees(Sight),
}

impl Point {
    /// The message that comes in.
    pub fn brings(self) -> Option<u64> {
        match self {
            Point::Append(message) | Point::Arrive(message) | Point::Replace(_, message) => {
                Some(message)
            }
            _ => None,
        }
    }

    /// The message that leaves.
    pub fn takes(self) -> Option<u64> {
        match self {
            Point::Take(message) | Point::Displace(message) | Point::Replace(message, _) => {
                Some(message)
            }
            _ => None,
        }
    }
}

/// What a call did, as its answer says: what happened at moments of it, in this order.
#[derive(Clone, Copy, PartialEq, Eq, Debug)]
pub enum Did {
    /// Nothing that anybody sees.
    Nothing,
    /// This.
    Once(Point),
    /// These two.
    Twice(Point, Point),
    /// These three.
    Thrice(Point, Point, Point),
    /// No call may answer so.
    Never,
}

impl Did {
    /// It only found this.
    pub fn saw(sight: Sight) -> Did {
        Did::Once(Point::Sees(sight))
    }

    /// A handle of this kind was made from a weak one of an open channel.
    pub fn upgraded(side: Side) -> Did {
        // Two moments: other calls may come between the question whether it is open and the raised count.
        Did::Twice(Point::Sees(Sight::Open), Point::Raise(side))
    }

    /// None was made from a weak one.
    pub fn not_upgraded(side: Side) -> Did {
        Did::saw(Sight::NotMade(side))
    }

    /// One was dropped.
    pub fn dropped(side: Side) -> Did {
        // Two moments: other calls may come between the lowered count and the closing.
        Did::Twice(Point::Lower(side), Point::CloseIfLast(side))
    }

    /// A message came in, and the oldest one left for it, of a channel that was full. One slot does both at once; a ring was
    /// found open and full first. Without a bound none leaves for another.
    pub fn displaced(capacity: Option<usize>, oldest: u64, message: u64) -> Did {
        match capacity {
            None => Did::Never,
            Some(1) => Did::Once(Point::Replace(oldest, message)),
            // Three moments: other calls may come between them, a close too.
            Some(_) => Did::Thrice(
                Point::Sees(Sight::Crowded),
                Point::Displace(oldest),
                Point::Arrive(message),
            ),
        }
    }

    /// Nothing, where this is as it must be.
    pub fn nothing_if(right: bool) -> Did {
        if right { Did::Nothing } else { Did::Never }
    }
}
