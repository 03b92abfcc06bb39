//! The calls and the channels.

use crate::beside::kind::{How, Kind};
use channel_calls::stage::{Side, WaitList};

/// The calls that come between. One that blocks its thread is there as the poll that it makes, and a receive into room as a receive of
/// several.
pub(crate) const OTHERS: [Kind; 45] = [
    Kind::TrySend,
    Kind::ForceSend,
    Kind::TryRecv,
    Kind::RecvMany,
    Kind::Walk(false),
    Kind::Walk(true),
    Kind::Close,
    Kind::Poll(WaitList::Sends, How::Anew),
    Kind::Poll(WaitList::Sends, How::Unlisted),
    Kind::Poll(WaitList::Sends, How::Again),
    Kind::Poll(WaitList::Sends, How::Delisted),
    Kind::Poll(WaitList::Sends, How::Unwoken),
    Kind::Poll(WaitList::Sends, How::Leaves),
    Kind::Poll(WaitList::Receives, How::Anew),
    Kind::Poll(WaitList::Receives, How::Unlisted),
    Kind::Poll(WaitList::Receives, How::Again),
    Kind::Poll(WaitList::Receives, How::Delisted),
    Kind::Poll(WaitList::Receives, How::Unwoken),
    Kind::Poll(WaitList::Receives, How::Leaves),
    Kind::Poll(WaitList::Streams, How::Anew),
    Kind::Poll(WaitList::Streams, How::Unlisted),
    Kind::Poll(WaitList::Streams, How::Again),
    Kind::Poll(WaitList::Streams, How::Delisted),
    Kind::Poll(WaitList::Streams, How::Unwoken),
    Kind::Poll(WaitList::Closings, How::Anew),
    Kind::Poll(WaitList::Closings, How::Unlisted),
    Kind::Poll(WaitList::Closings, How::Again),
    Kind::Poll(WaitList::Closings, How::Delisted),
    Kind::Poll(WaitList::Closings, How::Unwoken),
    Kind::Poll(WaitList::Closings, How::Leaves),
    Kind::CloneHandle(Side::Senders),
    Kind::CloneHandle(Side::Receivers),
    Kind::Upgrade(Side::Senders),
    Kind::Upgrade(Side::Receivers),
    Kind::DropHandle(Side::Senders),
    Kind::DropHandle(Side::Receivers),
    Kind::DropStream,
    Kind::HandleCount(Side::Senders),
    Kind::HandleCount(Side::Receivers),
    Kind::IsClosed,
    Kind::IsEmpty,
    Kind::IsFull,
    Kind::IsTerminated,
    Kind::Len,
    Kind::Capacity,
];

/// Those of them of which two come whole, one after the other.
pub(crate) const CHANGES: [Kind; 4] = [Kind::TrySend, Kind::ForceSend, Kind::TryRecv, Kind::Close];

/// The channels of each form, by how many messages have passed and how many are in it, whether it is closed, and whether somebody
/// waits.
pub(crate) type Starts = [(u64, u64, bool, bool); 6];

pub(crate) const ONE_SLOT: Starts = [
    (0, 0, false, false),
    (1, 0, false, true),
    (1, 1, false, false),
    (0, 1, false, true),
    (0, 0, true, false),
    (0, 1, true, false),
];

pub(crate) const RING_OF_TWO: Starts = [
    (0, 0, false, false),
    (1, 0, false, true),
    (1, 1, false, false),
    (1, 2, false, false),
    (0, 2, false, true),
    (1, 1, true, false),
];

pub(crate) const UNBOUNDED: Starts = [
    (0, 0, false, false),
    (0, 0, false, true),
    (1, 1, false, false),
    (1, 2, false, false),
    (1, 0, true, false),
    (0, 1, true, false),
];
