//! What a step does to the plain channel.

use crate::stage::Side;
use concurrent_queue::call::QueueMark;

/// What one step does to the channel that its callers see.
#[derive(Clone, Copy, PartialEq, Eq, Debug)]
pub enum Mark {
    /// Nothing.
    Nothing,
    /// The call's message is appended at the back.
    Append,
    /// The oldest message is taken.
    Take,
    /// The oldest message is taken out to make room for the call's own, which a later step appends.
    TakeDisplaced,
    /// The oldest message is taken out and the call's own appended.
    Replace,
    /// The channel is closed.
    Close,
    /// One more sender lives.
    SenderUp,
    /// One sender fewer lives.
    SenderDown,
    /// One more receiver lives.
    ReceiverUp,
    /// One receiver fewer lives.
    ReceiverDown,
}

impl Mark {
    ghost use Rattle.std.specs.Prelude.{◌≡◌};
    ghost use Rattle.channel_calls.specs.Marks.{mark_of_queue};

    /// The same mark of the channel's queue.
    pub(crate) fn of_queue(mark: QueueMark) -> Mark
        ensures { result ≡ mark_of_queue mark }
    {
        match mark {
            QueueMark::Nothing => Mark::Nothing,
            QueueMark::Append => Mark::Append,
            QueueMark::Take => Mark::Take,
            QueueMark::TakeDisplaced => Mark::TakeDisplaced,
            QueueMark::Replace => Mark::Replace,
            QueueMark::Close => Mark::Close,
        }
    }
}

impl Mark {
    ghost use Rattle.std.specs.Prelude.{◌≡◌};
    ghost use Rattle.channel_calls.specs.Marks.{up, down};

    /// One handle of this kind more.
    pub(crate) fn up(side: Side) -> Mark
        ensures { result ≡ up side }
    {
        match side {
            Side::Senders => Mark::SenderUp,
            Side::Receivers => Mark::ReceiverUp,
        }
    }

    /// One handle of this kind fewer.
    pub(crate) fn down(side: Side) -> Mark
        ensures { result ≡ down side }
    {
        match side {
            Side::Senders => Mark::SenderDown,
            Side::Receivers => Mark::ReceiverDown,
        }
    }
}
