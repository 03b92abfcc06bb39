//! What is called, by whom, and as what it is made by steps.

use crate::said::Said;
use channel_calls::ask::{ChannelAsk, lent};
use channel_calls::several::Limit;
use channel_calls::stage::{Side, WaitList};
use event_listener::key::Key;
use std::alloc::Global;

/// How an operation is polled, or let go.
#[derive(Clone, Copy, PartialEq, Eq, Debug)]
pub(crate) enum How {
    /// For the first time: it has no listener.
    Anew,
    /// The same, and it is refused one.
    Unlisted,
    /// Once more, with the listener that it has in the channel's start.
    Again,
    /// The same, and where that was told it is refused another one.
    Delisted,
    /// Once more, without a copy of its waker: its listener leaves.
    Unwoken,
    /// Not at all: it is given up.
    Leaves,
}

/// What is called. Of what isn't refused for want of anything the flag is false.
#[derive(Clone, Copy, Debug)]
pub(crate) enum Kind {
    TrySend,
    ForceSend,
    TryRecv,
    RecvMany,
    RecvManyInto,
    /// Two items of a walk that waits for messages.
    Walk(bool),
    Close,
    Poll(WaitList, How),
    /// A send or a receive that blocks its thread.
    Blocks(WaitList, bool),
    CloneHandle(Side),
    Upgrade(Side),
    DropHandle(Side),
    /// The drop of a receiver that has a listener as a stream.
    DropStream,
    HandleCount(Side),
    IsClosed,
    IsEmpty,
    IsFull,
    IsTerminated,
    Len,
    Capacity,
}

impl Kind {
    /// The list on which it may wait.
    pub(crate) fn line(self) -> Option<WaitList> {
        match self {
            Kind::Poll(line, _) | Kind::Blocks(line, _) => Some(line),
            Kind::Walk(_) => Some(WaitList::Receives),
            Kind::DropStream => Some(WaitList::Streams),
            _ => None,
        }
    }

    /// Whether it has a listener of the start.
    pub(crate) fn is_again(self) -> bool {
        match self {
            Kind::Poll(_, how) => how != How::Anew && how != How::Unlisted,
            Kind::DropStream => true,
            _ => false,
        }
    }

    /// Whether it is refused a listener.
    pub(crate) fn is_refused(self) -> bool {
        match self {
            Kind::Poll(_, how) => how == How::Unlisted || how == How::Delisted,
            Kind::Blocks(_, refused) | Kind::Walk(refused) => refused,
            _ => false,
        }
    }

    /// Whether it is made of several calls, and goes on after one that says this.
    pub(crate) fn goes_on(self, said: Said) -> bool {
        match said {
            Said::Received(_) | Said::Refused => match self {
                Kind::Walk(_) => true,
                _ => false,
            },
            _ => false,
        }
    }

    /// The handles that it needs of this kind: whether one that it lets go, and whether one that it clones.
    pub(crate) fn needs(self, side: Side) -> (bool, bool) {
        match self {
            Kind::DropHandle(of) => (of == side, false),
            Kind::DropStream => (side == Side::Receivers, false),
            Kind::CloneHandle(of) => (false, of == side),
            _ => (false, false),
        }
    }

    /// Whether it asks how many handles live, or changes that.
    pub(crate) fn counts(self) -> bool {
        match self {
            Kind::CloneHandle(_)
            | Kind::Upgrade(_)
            | Kind::DropHandle(_)
            | Kind::DropStream
            | Kind::HandleCount(_) => true,
            _ => false,
        }
    }
}

/// A call, with its message, and with the listener and the task of the operation where it has them.
#[derive(Clone, Copy)]
pub(crate) struct Called {
    pub(crate) kind: Kind,
    pub(crate) message: u64,
    pub(crate) key: Option<Key>,
    pub(crate) task: u32,
    pub(crate) alloc: Global,
}

impl Called {
    /// A call that has no listener.
    pub(crate) fn new(kind: Kind, message: u64, task: u32, alloc: Global) -> Called {
        Called {
            kind,
            message,
            key: None,
            task,
            alloc,
        }
    }

    /// What it asks where it is made by steps; one of several calls asks this each time.
    pub(crate) fn ask(self) -> ChannelAsk<u64, u32> {
        match self.kind {
            Kind::TrySend => ChannelAsk::TrySend(self.message),
            Kind::ForceSend => ChannelAsk::ForceSend(self.message),
            Kind::TryRecv => ChannelAsk::TryRecv,
            Kind::RecvMany | Kind::RecvManyInto => ChannelAsk::RecvMany(Limit::new(2, self.alloc)),
            Kind::Walk(_) => self.polls(WaitList::Receives),
            Kind::Close => ChannelAsk::Close,
            Kind::Poll(line, How::Unwoken) => {
                ChannelAsk::RefusePoll(line, self.carried(line), self.key)
            }
            Kind::Poll(line, How::Leaves) => {
                ChannelAsk::GiveUp(line, self.carried(line), self.key)
            }
            Kind::Poll(line, _) | Kind::Blocks(line, _) => self.polls(line),
            _ => self.asks_of_handles(),
        }
    }

    /// The message of a send.
    pub(crate) fn carried(self, line: WaitList) -> Option<u64> {
        match line {
            WaitList::Sends => Some(self.message),
            _ => None,
        }
    }

    /// What a poll asks on this list.
    fn polls(self, line: WaitList) -> ChannelAsk<u64, u32> {
        match line {
            WaitList::Sends => ChannelAsk::PollSend(self.message, lent(self.key), self.task),
            WaitList::Receives => ChannelAsk::PollRecv(lent(self.key), self.task),
            WaitList::Streams => ChannelAsk::PollNext(self.key, self.task),
            WaitList::Closings => ChannelAsk::PollClosed(self.key, self.task),
        }
    }

    /// What it asks of handles, or a question.
    fn asks_of_handles(self) -> ChannelAsk<u64, u32> {
        match self.kind {
            Kind::CloneHandle(side) => ChannelAsk::CloneHandle(side),
            Kind::Upgrade(side) => ChannelAsk::Upgrade(side),
            Kind::DropHandle(Side::Senders) => ChannelAsk::DropSender,
            Kind::DropHandle(Side::Receivers) => ChannelAsk::DropReceiver(None),
            Kind::DropStream => ChannelAsk::DropReceiver(self.key),
            Kind::HandleCount(side) => ChannelAsk::HandleCount(side),
            Kind::IsEmpty => ChannelAsk::IsEmpty,
            Kind::IsFull => ChannelAsk::IsFull,
            Kind::IsTerminated => ChannelAsk::IsTerminated,
            Kind::Len => ChannelAsk::Len,
            Kind::Capacity => ChannelAsk::Capacity,
            _ => ChannelAsk::IsClosed,
        }
    }
}
