//! What a call that blocks its thread is.

ghost use Rattle.std.specs.Prelude.{◌≡◌};
ghost use Rattle.channel_calls.specs.Blocks.{poll_woken, waiting_of};
ghost use Rattle.channel_calls.specs.Turns.{line_of};

use crate::ask::{ChannelAsk, woken};
use crate::stage::{WaitList, Waiting};
use event_listener::key::Key;

/// A call that blocks its thread.
#[derive(Drop)]
pub enum Blocked<T> {
    /// A send of this message.
    Send(T),
    /// A receive.
    Receive,
}

impl<T> Blocked<T> {
    /// The operation whose polls it makes.
    pub(crate) fn waiting(self) -> Waiting<T>
        ensures { result ≡ waiting_of self }
    {
        match self {
            Blocked::Send(message) => Waiting::Send(message),
            Blocked::Receive => Waiting::Receive,
        }
    }

    /// The poll that it makes once it has listened and slept: it asks this listener first.
    pub(crate) fn poll_woken<W>(self, key: Key, task: W) -> ChannelAsk<T, W>
        ensures { result ≡ poll_woken self key task }
    {
        match self {
            Blocked::Send(message) => ChannelAsk::PollSend(message, woken(key), task),
            Blocked::Receive => ChannelAsk::PollRecv(woken(key), task),
        }
    }

    /// The list on which it waits.
    pub(crate) fn line(&self) -> WaitList
        ensures { result ≡ line_of (waiting_of self.now) }
    {
        match self {
            Blocked::Send(_) => WaitList::Sends,
            Blocked::Receive => WaitList::Receives,
        }
    }
}
