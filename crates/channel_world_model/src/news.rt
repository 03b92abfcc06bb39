//! What a call notifies waiting operations of.

use channel_calls::stage::WaitList;

/// What a call notifies waiting operations of.
#[derive(Clone, Copy, Debug, PartialEq, Eq)]
pub enum News {
    /// Nobody is notified.
    Nothing,
    /// A message came: one more receive is notified, then all streams.
    Message,
    /// A place became free: one more send is notified.
    Room,
    /// The channel was closed: all are notified.
    Closing,
    /// One more of this wait queue is notified.
    NextIn(WaitList),
}
