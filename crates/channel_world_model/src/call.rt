//! What may be asked of a channel by the names of its handles and operations. A call is a plain value that says nothing of what lives under
//! its names.
use super::name::{HandleId, OpId};
use std::alloc::AllocError;

/// A call, made on handles and operations by their names.
#[derive(Drop, PartialEq, Eq)]
pub enum Call<T> {
    /// A new operation `op` that sends `msg` through the sender.
    NewSend { op: OpId, sender: HandleId, msg: T },
    /// A new operation `op` that receives through the receiver.
    NewRecv { op: OpId, receiver: HandleId },
    /// A new operation `op` that waits for the closing through the sender.
    NewClosed { op: OpId, sender: HandleId },
    /// A poll of the operation.
    Poll { op: OpId },
    /// A poll of the operation that got no copy of its waker, for want of memory.
    PollRefused { op: OpId },
    /// Gives the operation up.
    GiveUp { op: OpId },
    /// Whether the operation, a send, has finished.
    SendIsTerminated { op: OpId },
    /// A poll of the receiver as a stream.
    PollNext { receiver: HandleId },
    /// Whether the receiver, as a stream, gives no more message: the channel is closed and empty.
    StreamIsTerminated { receiver: HandleId },
    /// A send that doesn't wait.
    TrySend { sender: HandleId, msg: T },
    /// A send that displaces the oldest message of a full channel.
    ForceSend { sender: HandleId, msg: T },
    /// A receive that doesn't wait.
    TryRecv { receiver: HandleId },
    /// A receive of several messages, at most so many, that doesn't wait for any.
    RecvMany { receiver: HandleId, limit: usize },
    /// The channel is closed through either strong handle.
    Close { handle: HandleId },
    /// The handle is dropped. The last strong one of its side closes the channel.
    Drop { handle: HandleId },
    /// One more handle `new` of the same kind.
    TryClone { handle: HandleId, new: HandleId },
    /// A weak handle `new` beside a strong one.
    Downgrade { handle: HandleId, new: HandleId },
    /// A strong handle `new` from a weak one, while the channel is open and another of its side lives.
    Upgrade { weak: HandleId, new: HandleId },
    /// Whether two handles of one side are of the same channel.
    SameChannel { a: HandleId, b: HandleId },
    /// Whether the channel is closed.
    IsClosed { handle: HandleId },
    /// Whether it holds no message.
    IsEmpty { handle: HandleId },
    /// Whether it holds as many messages as its capacity.
    IsFull { handle: HandleId },
    /// How many messages it holds.
    Len { handle: HandleId },
    /// How many it can hold at most.
    Capacity { handle: HandleId },
    /// How many senders live.
    SenderCount { handle: HandleId },
    /// How many receivers live.
    ReceiverCount { handle: HandleId },
}

// Written by hand: a derived copy of so many variants is as expensive to prove as a derived equality.
impl<T: Copy> Clone for Call<T> {
    ghost use Rattle.std.specs.Prelude.{◌≡◌};

    ghost is_clone = { λ x y. y ≡ x };

    ghost is_infallible = { λ _. Unit {0} };

    fn clone(&self) -> Result<Call<T>, AllocError> {
        Ok(*self)
    }
}

impl<T: Copy> Copy for Call<T> {}
