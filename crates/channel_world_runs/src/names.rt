//! What lives under which name, and what a call under way has to write back. The listener and the message of an operation are in its entry,
//! or with the poll that is under way, never in both.

use channel_world_model::name::{Handle, HandleId, HandleKind, OpId, Operation};
use event_listener::key::Key;

/// Whether an operation, or a receiver as a stream, is pending or being polled.
#[derive(Clone, Copy, Debug, PartialEq, Eq)]
pub enum PollState {
    /// It isn't pending.
    Rests,
    /// Its last poll ended pending: it holds this listener.
    Waits(Key),
    /// A poll of it is under way, which has its listener and, if it brings one, its message.
    IsPolled {
        /// Whether the poll has a message of the operation.
        brings: bool,
    },
}

impl PollState {
    ghost use Rattle.std.specs.Prelude.{◌≡◌};
    ghost use Rattle.channel_world_runs.specs.NameTable.{key_of, poll_state_with, is_polled};
    ghost use Rattle.channel_world_runs.specs.Pending.{stands_pending};

    /// The listener of one that is pending.
    pub(crate) fn key(self) -> Option<Key>
        ensures { result ≡ key_of self }
    {
        match self {
            PollState::Waits(key) => Some(key),
            PollState::Rests | PollState::IsPolled { brings: _ } => None,
        }
    }

    /// The state after a poll that left this listener, or none.
    pub(crate) fn with(key: Option<Key>) -> PollState
        ensures { result ≡ poll_state_with key }
    {
        match key {
            Some(key) => PollState::Waits(key),
            None => PollState::Rests,
        }
    }

    /// Whether a poll is under way.
    pub(crate) fn is_polled(self) -> bool
        ensures { result ≡ is_polled self }
    {
        matches!(self, PollState::IsPolled { .. })
    }

    /// Whether it is pending.
    pub fn is_pending(self) -> bool
        ensures { result ≡ stands_pending self }
    {
        matches!(self, PollState::Waits(_))
    }
}

/// A live operation, and whether it is pending.
#[derive(Drop)]
pub struct OperationEntry<T> {
    /// What it is. The message of a send whose poll is under way is with the poll.
    pub operation: Operation<T>,
    /// Whether it is pending or being polled.
    pub poll_state: PollState,
}

impl<T> OperationEntry<T> {
    ghost use Rattle.std.specs.Prelude.{◌≡◌};
    ghost use Rattle.channel_world_runs.specs.NameTable.{is_done};

    /// Whether a poll has finished a send: its message is gone, and no poll under way has it.
    pub(crate) fn is_finished(&self) -> bool
        ensures { result ≡ is_done self.now }
    {
        let is_lent = matches!(self.poll_state, PollState::IsPolled { brings: true });
        matches!(&self.operation, Operation::Send { message: None, .. }) && !is_lent
    }
}

/// A live handle.
#[derive(Clone, Copy, Debug, PartialEq, Eq)]
pub struct HandleEntry {
    /// What it is, and how many operations borrow it.
    pub handle: Handle,
    /// How many calls under way use it.
    pub users: usize,
    /// The same of it as a stream.
    pub poll_state: PollState,
}

impl HandleEntry {
    ghost use Rattle.std.specs.Prelude.{◌≡◌};
    ghost use Rattle.channel_world_runs.specs.NameTable.{unused};

    /// A handle that nobody uses.
    pub(crate) fn unused(kind: HandleKind) -> HandleEntry
        ensures { result ≡ unused kind }
    {
        HandleEntry {
            handle: Handle { kind, borrowers: 0 },
            users: 0,
            poll_state: PollState::Rests,
        }
    }
}

/// What a call under way has to write back at its end.
#[derive(Drop)]
pub enum OnReturn<T> {
    /// Nothing.
    Nothing,
    /// This handle is used no more.
    Leave(HandleId),
    /// These two handles are used no more.
    LeaveBoth(HandleId, HandleId),
    /// Under this name this operation lives from now on.
    Make(OpId, OperationEntry<T>),
    /// The operation gets its listener and its message back.
    Poll(OpId),
    /// The receiver gets its stream's listener back, and is used no more.
    PollNext(HandleId),
    /// The first handle is used no more; under the second name one of this kind lives from now on, if it was made.
    New(HandleId, HandleId, HandleKind),
}
