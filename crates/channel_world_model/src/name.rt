//! The names of handles and operations, and of the tasks that are woken.

use channel_calls::stage::WaitList;

/// A handle by number: 0 is the first sender, 1 the first receiver.
#[derive(Clone, Copy, Debug, PartialEq, Eq, Hash)]
pub struct HandleId(pub u32);

/// An operation by number.
#[derive(Clone, Copy, Debug, PartialEq, Eq, Hash)]
pub struct OpId(pub u32);

/// A task that may be woken: that of an operation, or that of a receiver polled as a stream.
#[derive(Clone, Copy, Debug, PartialEq, Eq, Hash)]
pub enum Waiter {
    /// That of an operation.
    Op(OpId),
    /// That of a receiver polled as a stream.
    Stream(HandleId),
}

/// What a handle is. A strong one keeps its side of the channel alive, a weak one doesn't.
#[derive(Clone, Copy, Debug, PartialEq, Eq)]
pub enum HandleKind {
    /// A strong handle that sends.
    Sender,
    /// A strong handle that receives.
    Receiver,
    /// A weak handle of the sending side.
    WeakSender,
    /// A weak handle of the receiving side.
    WeakReceiver,
}

/// A live handle: what it is, and how many live operations borrow it.
#[derive(Clone, Copy, Debug, PartialEq, Eq)]
pub struct Handle {
    /// What it is.
    pub kind: HandleKind,
    /// How many live operations borrow it.
    pub borrowers: usize,
}

/// What an operation is.
#[derive(Clone, Copy, Debug, PartialEq, Eq)]
pub enum OperationKind {
    /// A send.
    Send,
    /// A receive.
    Receive,
    /// A wait for the closing.
    Closing,
}

/// A live operation, with the handle that it borrows. A send has its message until it is finished.
#[derive(Drop)]
pub enum Operation<T> {
    /// A send.
    Send {
        /// The sender that it borrows.
        handle: HandleId,
        /// Its message.
        message: Option<T>,
    },
    /// A receive.
    Receive {
        /// The receiver that it borrows.
        handle: HandleId,
    },
    /// A wait for the closing.
    Closing {
        /// The sender that it borrows.
        handle: HandleId,
    },
}

impl<T> Operation<T> {
    ghost use Rattle.std.specs.Prelude.{◌≡◌, Some, None, is_some};
    ghost use Rattle.channel_world_model.specs.Laws.{is_line, line_of_operation};
    ghost use Rattle.channel_world_model.specs.Names.{borrowed_by, own_message, with_message, waits_in};

    /// The handle that it borrows.
    pub fn handle(&self) -> HandleId
        ensures { result ≡ borrowed_by self.now }
    {
        match self {
            Operation::Send { handle, .. }
            | Operation::Receive { handle }
            | Operation::Closing { handle } => *handle,
        }
    }

    /// The wait queue on which it waits.
    pub fn waits_in(&self) -> WaitList
        ensures { result ≡ waits_in self.now }
    {
        match self {
            Operation::Send { .. } => WaitList::Sends,
            Operation::Receive { .. } => WaitList::Receives,
            Operation::Closing { .. } => WaitList::Closings,
        }
    }

    /// Whether it belongs to this wait queue, the one on which it waits. A finished send belongs to none.
    pub fn is_on(&self, line: WaitList) -> bool
        ensures { result ≡ is_line line (line_of_operation (Some self.now)) }
    {
        match self {
            Operation::Send { message: None, .. } => false,
            _ => line == self.waits_in(),
        }
    }

    /// Whether it has a message.
    pub fn has_message(&self) -> bool
        ensures { result ≡ is_some (own_message self.now) }
    {
        match self {
            Operation::Send { handle: _, message } => message.is_some(),
            Operation::Receive { .. } | Operation::Closing { .. } => false,
        }
    }

    /// What is left of it while its message is elsewhere.
    pub fn without_message(&self) -> Operation<T>
        ensures { result ≡ with_message None self.now }
    {
        match self {
            Operation::Send { handle, message: _ } => Operation::Send {
                handle: *handle,
                message: None,
            },
            Operation::Receive { handle } => Operation::Receive { handle: *handle },
            Operation::Closing { handle } => Operation::Closing { handle: *handle },
        }
    }

    /// Its message: that of an unfinished send.
    pub fn into_message(self) -> Option<T>
        ensures { result ≡ own_message self }
    {
        match self {
            Operation::Send { handle: _, message } => message,
            Operation::Receive { .. } | Operation::Closing { .. } => None,
        }
    }
}

impl<T: Drop> Operation<T> {
    ghost use Rattle.std.specs.Prelude.{◌≡◌};
    ghost use Rattle.channel_world_model.specs.Names.{new_operation, with_message};

    /// A new one of this kind, which borrows the handle. A send has this message.
    pub fn new(kind: OperationKind, handle: HandleId, message: Option<T>) -> Operation<T>
        ensures { result ≡ new_operation kind handle message }
    {
        match kind {
            OperationKind::Send => Operation::Send { handle, message },
            OperationKind::Receive => Operation::Receive { handle },
            OperationKind::Closing => Operation::Closing { handle },
        }
    }

    /// The same, if it is a send with this message, or with none.
    pub fn with_message(self, message: Option<T>) -> Operation<T>
        ensures { result ≡ with_message message self }
    {
        match self {
            Operation::Send { handle, .. } => Operation::Send { handle, message },
            other => other,
        }
    }
}
