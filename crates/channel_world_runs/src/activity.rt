//! What calls under way are to those that wait, and what they have done so far.

use channel_calls::ask::ChannelAsk;
use channel_calls::mark::Mark;
use channel_calls::stage::WaitList;

/// What a call is to those that wait.
#[derive(Clone, Copy, Debug, PartialEq, Eq)]
pub enum Role {
    /// It sends: a send, a displacing send, a poll of a send, or giving one up.
    Sending,
    /// It receives: a receive of one message or of several, a poll of a stream, a poll of a receive, or giving one up.
    Receiving,
    /// It does neither.
    Other,
}

/// What a call under way is to those that wait, and what it has done.
#[derive(Clone, Copy, Debug, PartialEq, Eq)]
pub struct Activity {
    /// What it is.
    pub role: Role,
    /// Whether it has closed the channel.
    pub has_closed: bool,
    /// How many messages it has taken.
    pub taken: u64,
}

impl Activity {
    ghost use Rattle.std.specs.Prelude.{◌≡◌};
    ghost use Rattle.channel_world_runs.specs.Activity.{activity_begun, activity_after};

    /// A call that has made no step.
    pub(crate) fn begun<T, W>(ask: &ChannelAsk<T, W>) -> Activity
        ensures { result ≡ activity_begun ask.now }
    {
        let role = match ask {
            ChannelAsk::TrySend(_)
            | ChannelAsk::ForceSend(_)
            | ChannelAsk::PollSend(_, _, _)
            | ChannelAsk::PollFinishedSend
            | ChannelAsk::RefusePoll(WaitList::Sends, _, _)
            | ChannelAsk::GiveUp(WaitList::Sends, _, _) => Role::Sending,
            ChannelAsk::TryRecv
            | ChannelAsk::RecvMany(_)
            | ChannelAsk::PollNext(_, _)
            | ChannelAsk::PollRecv(_, _)
            | ChannelAsk::RefusePoll(WaitList::Receives, _, _)
            | ChannelAsk::GiveUp(WaitList::Receives, _, _) => Role::Receiving,
            _ => Role::Other,
        };
        Activity {
            role,
            has_closed: false,
            taken: 0,
        }
    }

    /// The same call after a step with this mark.
    pub(crate) fn after(mut self, mark: Mark) -> Activity
        ensures { result ≡ activity_after mark self }
    {
        match mark {
            Mark::Close => self.has_closed = true,
            Mark::Take => self.taken = self.taken.saturating_add(1),
            _ => {}
        }
        self
    }
}
