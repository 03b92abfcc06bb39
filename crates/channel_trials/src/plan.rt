//! What a party may begin.

use channel_world::call::Call;
use channel_world::name::{HandleId, HandleKind, OpId};

/// A limit above all that a trial's channel ever holds.
pub const LARGE: usize = 200;

/// A limit for which no memory has room.
pub const TOO_LARGE: usize = usize::MAX;

/// What is called, names aside.
#[derive(Clone, Copy, PartialEq, Eq)]
pub enum Kind {
    NewSend,
    NewRecv,
    NewClosed,
    Poll,
    PollRefused,
    GiveUp,
    SendIsTerminated,
    PollNext,
    StreamIsTerminated,
    TrySend,
    ForceSend,
    TryRecv,
    RecvMany,
    Close,
    Drop,
    TryClone,
    Downgrade,
    Upgrade,
    SameChannel,
    IsClosed,
    IsEmpty,
    IsFull,
    Len,
    Capacity,
    SenderCount,
    ReceiverCount,
}

/// What is called upon.
#[derive(Clone, Copy, PartialEq, Eq)]
pub enum Target {
    /// An operation.
    Operation,
    /// A sender.
    Sender,
    /// A receiver.
    Receiver,
    /// A handle that isn't weak.
    Strong,
    /// A weak handle.
    Weak,
    /// Any handle.
    Handle,
    /// Two senders or two receivers.
    Two,
}

impl Kind {
    /// What it is called upon.
    pub fn target(self) -> Target {
        match self {
            Kind::Poll | Kind::PollRefused | Kind::GiveUp | Kind::SendIsTerminated => {
                Target::Operation
            }
            Kind::NewSend | Kind::NewClosed | Kind::TrySend | Kind::ForceSend => Target::Sender,
            Kind::NewRecv | Kind::PollNext | Kind::StreamIsTerminated => Target::Receiver,
            Kind::TryRecv | Kind::RecvMany => Target::Receiver,
            Kind::Upgrade => Target::Weak,
            Kind::Drop | Kind::TryClone => Target::Handle,
            Kind::SameChannel => Target::Two,
            _ => Target::Strong,
        }
    }

    /// Whether it makes an operation.
    pub fn makes_operation(self) -> bool {
        self == Kind::NewSend || self == Kind::NewRecv || self == Kind::NewClosed
    }

    /// Whether it makes a handle.
    pub fn makes_handle(self) -> bool {
        self == Kind::TryClone || self == Kind::Downgrade || self == Kind::Upgrade
    }

    /// Whether it brings a new message.
    pub fn brings_message(self) -> bool {
        self == Kind::NewSend || self == Kind::TrySend || self == Kind::ForceSend
    }

    /// Whether it takes its handle whole, so that nobody else may use it.
    pub fn takes_whole(self) -> bool {
        self == Kind::Drop || self == Kind::PollNext
    }

    /// Whether it polls its operation, or gives it up.
    pub fn takes_operation(self) -> bool {
        self == Kind::Poll || self == Kind::PollRefused || self == Kind::GiveUp
    }

    /// Whether it ends within eight steps of its own, whatever others do.
    pub fn is_quick(self) -> bool {
        match self {
            Kind::NewSend | Kind::NewRecv | Kind::NewClosed | Kind::Downgrade => true,
            Kind::PollRefused | Kind::GiveUp | Kind::Close | Kind::Drop => true,
            Kind::SendIsTerminated | Kind::StreamIsTerminated | Kind::SameChannel => true,
            Kind::IsClosed | Kind::IsEmpty | Kind::IsFull | Kind::Capacity => true,
            Kind::SenderCount | Kind::ReceiverCount => true,
            _ => false,
        }
    }
}

/// The kind of the new handle.
pub fn made_kind(kind: Kind, from: HandleKind) -> HandleKind {
    match (kind, from) {
        (Kind::Downgrade, HandleKind::Sender) => HandleKind::WeakSender,
        (Kind::Downgrade, HandleKind::Receiver) => HandleKind::WeakReceiver,
        (Kind::Upgrade, HandleKind::WeakSender) => HandleKind::Sender,
        (Kind::Upgrade, HandleKind::WeakReceiver) => HandleKind::Receiver,
        _ => from,
    }
}

/// A call with its names.
#[derive(Clone, Copy)]
pub struct Plan {
    pub kind: Kind,
    /// The handle that is called upon.
    pub handle: u32,
    /// The operation that is called upon, or the name of what is made, or the second of two handles.
    pub name: u32,
    /// What a new send or a send that doesn't wait brings.
    pub message: u64,
    /// How many messages a receive of several takes at most.
    pub limit: usize,
}

impl Plan {
    /// The call upon an operation, or one that makes one.
    fn of_operation(self) -> Option<Call<u64>> {
        let op = OpId(self.name);
        let handle = HandleId(self.handle);
        let msg = self.message;
        match self.kind {
            Kind::NewSend => Some(Call::NewSend {
                op,
                sender: handle,
                msg,
            }),
            Kind::NewRecv => Some(Call::NewRecv {
                op,
                receiver: handle,
            }),
            Kind::NewClosed => Some(Call::NewClosed { op, sender: handle }),
            Kind::Poll => Some(Call::Poll { op }),
            Kind::PollRefused => Some(Call::PollRefused { op }),
            Kind::GiveUp => Some(Call::GiveUp { op }),
            Kind::SendIsTerminated => Some(Call::SendIsTerminated { op }),
            _ => None,
        }
    }

    /// The call that makes a handle, or lets one go.
    fn of_handles(self) -> Option<Call<u64>> {
        let new = HandleId(self.name);
        let handle = HandleId(self.handle);
        match self.kind {
            Kind::TryClone => Some(Call::TryClone { handle, new }),
            Kind::Downgrade => Some(Call::Downgrade { handle, new }),
            Kind::Upgrade => Some(Call::Upgrade { weak: handle, new }),
            Kind::SameChannel => Some(Call::SameChannel { a: handle, b: new }),
            Kind::Drop => Some(Call::Drop { handle }),
            _ => None,
        }
    }

    /// The call that goes through a handle.
    fn through(self) -> Call<u64> {
        let handle = HandleId(self.handle);
        let msg = self.message;
        match self.kind {
            Kind::TrySend => Call::TrySend {
                sender: handle,
                msg,
            },
            Kind::ForceSend => Call::ForceSend {
                sender: handle,
                msg,
            },
            Kind::TryRecv => Call::TryRecv { receiver: handle },
            Kind::RecvMany => Call::RecvMany {
                receiver: handle,
                limit: self.limit,
            },
            Kind::PollNext => Call::PollNext { receiver: handle },
            Kind::StreamIsTerminated => Call::StreamIsTerminated { receiver: handle },
            Kind::Close => Call::Close { handle },
            Kind::IsClosed => Call::IsClosed { handle },
            Kind::IsEmpty => Call::IsEmpty { handle },
            Kind::IsFull => Call::IsFull { handle },
            Kind::Len => Call::Len { handle },
            Kind::SenderCount => Call::SenderCount { handle },
            Kind::ReceiverCount => Call::ReceiverCount { handle },
            _ => Call::Capacity { handle },
        }
    }

    /// The call.
    pub fn call(self) -> Call<u64> {
        if let Some(call) = self.of_operation() {
            return call;
        }
        match self.of_handles() {
            Some(call) => call,
            None => self.through(),
        }
    }
}
