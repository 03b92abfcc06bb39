//! What a call does to the names, whatever it asks of the channel. A call is turned once into a plan; everything that is said of the names
//! when calls begin is said of plans.

use crate::call::Call;
use crate::name::{HandleId, HandleKind, OpId, OperationKind};

/// What kind of handle a call needs.
#[derive(Clone, Copy)]
pub enum Wanted {
    Sender,
    Receiver,
    Strong,
    Weak,
    Any,
}

impl Wanted {
    ghost use Rattle.std.specs.Prelude.{◌≡◌};
    ghost use Rattle.channel_world_model.specs.Refusal.{handle_fits};

    /// Whether a handle of this kind is one.
    pub fn fits(self, kind: HandleKind) -> bool
        ensures { result ≡ handle_fits self kind }
    {
        match self {
            Wanted::Sender => kind == HandleKind::Sender,
            Wanted::Receiver => kind == HandleKind::Receiver,
            Wanted::Strong => kind == HandleKind::Sender || kind == HandleKind::Receiver,
            Wanted::Weak => kind == HandleKind::WeakSender || kind == HandleKind::WeakReceiver,
            Wanted::Any => true,
        }
    }
}

/// Of which kind a handle is that is made from another.
#[derive(Clone, Copy)]
pub enum Kinship {
    Own,
    Weak,
    Strong,
}

impl Kinship {
    ghost use Rattle.std.specs.Prelude.{◌≡◌};
    ghost use Rattle.channel_world_model.specs.Plan.{kin};

    /// The kind of a handle that is made from one of this kind.
    pub fn of(self, kind: HandleKind) -> HandleKind
        ensures { result ≡ kin self kind }
    {
        match (self, kind) {
            (Kinship::Weak, HandleKind::Sender) => HandleKind::WeakSender,
            (Kinship::Weak, HandleKind::Receiver) => HandleKind::WeakReceiver,
            (Kinship::Strong, HandleKind::WeakSender) => HandleKind::Sender,
            (Kinship::Strong, HandleKind::WeakReceiver) => HandleKind::Receiver,
            (_, kind) => kind,
        }
    }
}

/// What a call does to the names.
#[derive(Clone, Copy)]
pub enum Plan {
    /// It goes through a handle, and leaves it at its end.
    Through(Wanted, HandleId),
    /// It goes through two handles.
    ThroughBoth(HandleId, HandleId),
    /// It makes an operation under this name and of this kind, which borrows the handle.
    Makes(Wanted, HandleId, OpId, OperationKind),
    /// It polls an operation.
    Polls(OpId),
    /// It takes an operation for good, and goes through the handle that the operation borrowed.
    GivesUp(OpId),
    /// It goes through the handle that an operation, a send, borrows.
    Asks(OpId),
    /// It goes through a receiver and polls it as a stream.
    Streams(HandleId),
    /// It takes a handle for good.
    Drops(HandleId),
    /// It goes through the first handle and makes another under the second name.
    Mints(Wanted, HandleId, HandleId, Kinship),
}

impl Plan {
    ghost use Rattle.std.specs.Prelude.{◌≡◌};
    ghost use Rattle.channel_world_model.specs.Plan.{plan_of};

    /// The plan of a call.
    pub fn of<T>(call: &Call<T>) -> Plan
        ensures { result ≡ plan_of call.now }
    {
        match call {
            Call::NewSend { op, sender, .. } => {
                Plan::Makes(Wanted::Sender, *sender, *op, OperationKind::Send)
            }
            Call::NewRecv { op, receiver } => {
                Plan::Makes(Wanted::Receiver, *receiver, *op, OperationKind::Receive)
            }
            Call::NewClosed { op, sender } => {
                Plan::Makes(Wanted::Sender, *sender, *op, OperationKind::Closing)
            }
            Call::Poll { op } | Call::PollRefused { op } => Plan::Polls(*op),
            Call::GiveUp { op } => Plan::GivesUp(*op),
            Call::SendIsTerminated { op } => Plan::Asks(*op),
            Call::PollNext { receiver } => Plan::Streams(*receiver),
            Call::Drop { handle } => Plan::Drops(*handle),
            Call::TryClone { handle, new } => Plan::Mints(Wanted::Any, *handle, *new, Kinship::Own),
            Call::Downgrade { handle, new } => {
                Plan::Mints(Wanted::Strong, *handle, *new, Kinship::Weak)
            }
            Call::Upgrade { weak, new } => Plan::Mints(Wanted::Weak, *weak, *new, Kinship::Strong),
            Call::SameChannel { a, b } => Plan::ThroughBoth(*a, *b),
            Call::TrySend { sender, .. } | Call::ForceSend { sender, .. } => {
                Plan::Through(Wanted::Sender, *sender)
            }
            Call::StreamIsTerminated { receiver }
            | Call::TryRecv { receiver }
            | Call::RecvMany { receiver, .. } => Plan::Through(Wanted::Receiver, *receiver),
            Call::Close { handle }
            | Call::IsClosed { handle }
            | Call::IsEmpty { handle }
            | Call::IsFull { handle }
            | Call::Len { handle }
            | Call::Capacity { handle }
            | Call::SenderCount { handle }
            | Call::ReceiverCount { handle } => Plan::Through(Wanted::Strong, *handle),
        }
    }
}
