//! The four wait queues as types, so that a listener of one can't be removed from another.

ghost use Rattle.std.specs.Prelude.{◌≡◌};
ghost use Rattle.channel_calls.specs.declared.stage.WaitList.{WaitList as Lines};
ghost use Rattle.channel_calls.specs.declared.stage.WaitList.TheVariants as line;

use channel_calls::stage::WaitList;

/// A wait queue as a type.
pub(crate) trait Line {
    /// The wait queue.
    ghost line: { Lines };

    /// The wait queue.
    fn line() -> WaitList
        ensures { result ≡ line };
}

/// Of sends.
pub(crate) enum OfSends {}

/// Of receives.
pub(crate) enum OfReceives {}

/// Of receivers as streams.
pub(crate) enum OfStreams {}

/// Of waits for the closing.
pub(crate) enum OfClosings {}

impl Line for OfSends {
    ghost line = { line.Sends };

    fn line() -> WaitList {
        WaitList::Sends
    }
}

impl Line for OfReceives {
    ghost line = { line.Receives };

    fn line() -> WaitList {
        WaitList::Receives
    }
}

impl Line for OfStreams {
    ghost line = { line.Streams };

    fn line() -> WaitList {
        WaitList::Streams
    }
}

impl Line for OfClosings {
    ghost line = { line.Closings };

    fn line() -> WaitList {
        WaitList::Closings
    }
}
