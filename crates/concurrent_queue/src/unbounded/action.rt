//! The program counter of a call of an unbounded queue, and what one step of it leaves.

ghost use Rattle.std.specs.Prelude.{◌≡◌, None, Some};

use crate::call::QueueMark;
use crate::unbounded::ending::Ending;

/// The next action of a call, with the words that it read: `tail` is a word of the tail, that is twice a position, `head`
/// a position, `block` the number of the block of that position, and `held` and `next` the number of a block that the call
/// got and that is not in the chain yet.
#[derive(Drop)]
pub(crate) enum UnboundedAction<T> {
    /// Load the tail: (value, held).
    Push(T, Option<u64>),
    /// Close the queue, since its positions have come to their end: (value, held).
    PushShut(T, Option<u64>),
    /// Give the held block back, and then refuse, since the queue is closed: (value, held).
    PushReturn(T, u64),
    /// Load the block at the tail: (value, tail, held).
    PushLook(T, u64, Option<u64>),
    /// Get the first block of all: (value, tail).
    PushMake(T, u64),
    /// Exchange no block at the tail for the held one: (value, tail, held).
    PushFirst(T, u64, u64),
    /// Store the first block at the head: (value, tail, block).
    PushStart(T, u64, u64),
    /// Get the block after this one, since its last slot is next: (value, tail, block).
    PushMore(T, u64, u64),
    /// Exchange the tail for the next position: (value, tail, block, held).
    PushSwap(T, u64, u64, Option<u64>),
    /// Store the next block at the tail: (value, tail, block, next).
    PushTurn(T, u64, u64, u64),
    /// Move the tail to the next block's first slot: (value, tail, block, next).
    PushAdd(T, u64, u64, u64),
    /// Link the block to the next one: (value, tail, block, next).
    PushLink(T, u64, u64, u64),
    /// Put the message: (value, tail, block, held).
    PushPut(T, u64, u64, Option<u64>),
    /// Store that it is written: (tail, block, held).
    PushStore(u64, u64, Option<u64>),
    /// Give a block back that was not used: (held).
    PushGive(u64),
    /// Load the head.
    Pop,
    /// Load the block at the head: (head).
    PopLook(u64),
    /// Load the tail: (head, the block's word).
    PopTail(u64, u64),
    /// Exchange the head for the next position: (head, block).
    PopSwap(u64, u64),
    /// Wait for the link to the next block: (head, block).
    PopNext(u64, u64),
    /// Store the next block at the head: (head, block, the next block's word).
    PopBlock(u64, u64, u64),
    /// Move the head to the next block's first slot: (head, block).
    PopHead(u64, u64),
    /// Wait until the message is written: (head, block).
    PopWait(u64, u64),
    /// Take the message: (head, block).
    PopTake(u64, u64),
    /// Count that it was read: (head, block, message).
    PopCount(u64, u64, T),
    /// Give back the block whose last message was read: (head, block, message).
    PopRetire(u64, u64, T),
    /// Close the queue.
    Close,
    /// Load the tail, for its flag.
    AskClosed,
    /// Load the head, for whether it is empty.
    AskEmpty,
    /// Load the tail, for whether it is empty: (head).
    EmptyTail(u64),
    /// Nothing: it is never full.
    AskFull,
    /// Load the tail, for the length.
    AskLen,
    /// Load the head, for the length: (tail).
    LenHead(u64),
    /// Load the tail again, for the length: (tail, head).
    LenTail(u64, u64),
    /// Nothing: it has no bound.
    AskCapacity,
    /// The call has ended.
    Finished,
}

/// A call: a displacing push, which never displaces here, makes the steps of a push and differs in what it answers.
#[derive(Drop)]
pub(crate) struct UnboundedCall<T> {
    pub(crate) displacing: bool,
    pub(crate) action: UnboundedAction<T>,
}

/// What one step leaves: the next action, what the step did, and how the call ended if it did.
#[derive(Drop)]
pub(crate) struct Progress<T> {
    pub(crate) action: UnboundedAction<T>,
    pub(crate) mark: QueueMark,
    pub(crate) ending: Option<Ending<T>>,
}

pub(crate) fn stay<T>(action: UnboundedAction<T>) -> Progress<T>
    ensures { result ≡ record { action = action; mark = QueueMark.Nothing; ending = None } }
{
    Progress {
        action,
        mark: QueueMark::Nothing,
        ending: None,
    }
}

pub(crate) fn finish<T>(ending: Ending<T>) -> Progress<T>
    ensures { result ≡ record { action = UnboundedAction.Finished; mark = QueueMark.Nothing; ending = Some ending } }
{
    Progress {
        action: UnboundedAction::Finished,
        mark: QueueMark::Nothing,
        ending: Some(ending),
    }
}

pub(crate) fn marked<T>(action: UnboundedAction<T>, mark: QueueMark) -> Progress<T>
    ensures { result ≡ record { action = action; mark = mark; ending = None } }
{
    Progress {
        action,
        mark,
        ending: None,
    }
}
