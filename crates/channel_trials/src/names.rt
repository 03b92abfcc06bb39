//! What lives under which name, as the plain count knows.

use crate::answer::Answer;
use crate::differs::Differs;
use crate::named::{Named, find, find_mut, remove};
use crate::plan::{Kind, Plan, Target, made_kind};
use crate::under_way::Subject;
use channel_calls::stage::{Side, WaitList};
use channel_world::name::{HandleId, HandleKind, OpId, Waiter};
use std::alloc::Global;

/// A live handle.
#[derive(Clone, Copy)]
pub struct Handle {
    pub name: u32,
    pub kind: HandleKind,
    /// Whether a poll of it as a stream is under way.
    pub is_polled: bool,
}

/// A live operation.
#[derive(Clone, Copy)]
pub struct Operation {
    pub name: u32,
    /// The line on which it waits, which says what it is.
    pub line: WaitList,
    pub handle: u32,
    /// Of a send that isn't finished.
    pub message: Option<u64>,
    /// Whether a poll of it is under way.
    pub is_polled: bool,
}

impl Named for Handle {
    fn number(&self) -> u32 {
        self.name
    }
}

impl Named for Operation {
    fn number(&self) -> u32 {
        self.name
    }
}

/// All that lives. The names below the next ones were taken.
#[derive(Drop)]
pub struct Names {
    pub handles: Vec<Handle>,
    pub operations: Vec<Operation>,
    pub next_handle: u32,
    pub next_operation: u32,
}

/// Whether a call upon this may go through a handle of this kind.
pub fn is_fit(target: Target, kind: HandleKind) -> bool {
    match target {
        Target::Sender => kind == HandleKind::Sender,
        Target::Receiver => kind == HandleKind::Receiver,
        Target::Strong => kind == HandleKind::Sender || kind == HandleKind::Receiver,
        Target::Weak => kind == HandleKind::WeakSender || kind == HandleKind::WeakReceiver,
        _ => true,
    }
}

fn side_of(kind: HandleKind) -> Option<Side> {
    match kind {
        HandleKind::Sender => Some(Side::Senders),
        HandleKind::Receiver => Some(Side::Receivers),
        _ => None,
    }
}

/// The line of the operation that a call of this kind makes, or of its receiver's stream.
fn line_of(kind: Kind) -> WaitList {
    match kind {
        Kind::NewSend => WaitList::Sends,
        Kind::NewRecv => WaitList::Receives,
        Kind::PollNext | Kind::Drop => WaitList::Streams,
        _ => WaitList::Closings,
    }
}

impl Names {
    /// The first sender and the first receiver.
    pub fn first(alloc: Global) -> Result<Self, Differs> {
        let mut names = Names {
            handles: Vec::new(alloc),
            operations: Vec::new(alloc),
            next_handle: 0,
            next_operation: 0,
        };
        names.add_handle(0, HandleKind::Sender)?;
        names.add_handle(1, HandleKind::Receiver)?;
        names.next_handle = 2;
        Ok(names)
    }

    fn add_handle(&mut self, name: u32, kind: HandleKind) -> Result<(), Differs> {
        let handle = Handle {
            name,
            kind,
            is_polled: false,
        };
        match self.handles.push(handle) {
            Ok(()) => Ok(()),
            Err(_) => Err(Differs::NoMemory),
        }
    }

    fn add_operation(&mut self, plan: Plan, message: Option<u64>) -> Result<(), Differs> {
        let operation = Operation {
            name: plan.name,
            line: line_of(plan.kind),
            handle: plan.handle,
            message,
            is_polled: false,
        };
        match self.operations.push(operation) {
            Ok(()) => Ok(()),
            Err(_) => Err(Differs::NoMemory),
        }
    }

    /// The live handle of this name.
    pub fn handle(&self, name: u32) -> Option<Handle> {
        find(self.handles.as_slice(), name)
    }

    /// The live operation of this name.
    pub fn operation(&self, name: u32) -> Option<Operation> {
        find(self.operations.as_slice(), name)
    }

    /// Whether the name of what this makes was taken before.
    pub fn has_taken(&self, plan: Plan) -> bool {
        let operation = plan.kind.makes_operation() && plan.name < self.next_operation;
        let handle = plan.kind.makes_handle() && plan.name < self.next_handle;
        operation || handle
    }

    /// Whether a live operation borrows this handle.
    pub fn is_borrowed(&self, handle: u32) -> bool {
        let mut is_borrowed = false;
        for operation in &self.operations {
            is_borrowed = is_borrowed || operation.handle == handle;
        }
        is_borrowed
    }

    /// What a call has to do with that is made upon an operation.
    fn operation_subject(&self, plan: Plan, operation: Operation) -> Subject {
        let takes = plan.kind.takes_operation();
        let polls = takes && plan.kind != Kind::GiveUp;
        Subject {
            line: operation.line,
            waiter: takes.then_some(Waiter::Op(OpId(plan.name))),
            side: None,
            message: operation.message,
            uses: (!polls).then_some(operation.handle),
            uses_too: None,
        }
    }

    /// What a call has to do with that goes through this handle.
    fn handle_subject(&self, plan: Plan, handle: Handle) -> Subject {
        let kind = plan.kind;
        let counts = kind == Kind::Drop || kind == Kind::TryClone || kind == Kind::Upgrade;
        let side = side_of(made_kind(kind, handle.kind));
        Subject {
            line: line_of(kind),
            waiter: kind
                .takes_whole()
                .then_some(Waiter::Stream(HandleId(handle.name))),
            side: if counts { side } else { None },
            message: kind.brings_message().then_some(plan.message),
            uses: (kind != Kind::Drop).then_some(handle.name),
            uses_too: (kind == Kind::SameChannel).then_some(plan.name),
        }
    }

    /// What a call that isn't refused has to do with.
    pub fn subject(&self, plan: Plan) -> Option<Subject> {
        if plan.kind.target() == Target::Operation {
            let operation = self.operation(plan.name)?;
            return Some(self.operation_subject(plan, operation));
        }
        let handle = self.handle(plan.handle)?;
        Some(self.handle_subject(plan, handle))
    }

    /// Whether a poll of the receiver as a stream is under way.
    fn set_streamed(&mut self, name: u32, is_polled: bool) {
        if let Some(handle) = find_mut(self.handles.as_mut_slice(), name) {
            handle.is_polled = is_polled;
        }
    }

    /// Whether a poll of the operation is under way, and the message that a send has.
    fn set_polled(&mut self, name: u32, is_polled: bool, message: Option<u64>) {
        if let Some(operation) = find_mut(self.operations.as_mut_slice(), name) {
            operation.is_polled = is_polled;
            operation.message = message;
        }
    }

    /// The new handle lives, of the kind that it has by the handle that it was made from.
    fn add_made(&mut self, plan: Plan) -> Result<(), Differs> {
        match self.handle(plan.handle) {
            Some(from) => self.add_handle(plan.name, made_kind(plan.kind, from.kind)),
            None => Err(Differs::Reply),
        }
    }

    /// A call that isn't refused begins: what it makes has its name, and what it gives up or drops lives no more.
    pub fn begin(&mut self, plan: Plan, subject: &Subject) {
        let name = plan.name;
        match plan.kind {
            Kind::NewSend | Kind::NewRecv | Kind::NewClosed => {
                self.next_operation = name.saturating_add(1);
            }
            Kind::TryClone | Kind::Downgrade | Kind::Upgrade => {
                self.next_handle = name.saturating_add(1);
            }
            Kind::Poll | Kind::PollRefused => {
                self.set_polled(name, true, subject.message);
            }
            Kind::PollNext => self.set_streamed(plan.handle, true),
            Kind::GiveUp => remove(&mut self.operations, name),
            Kind::Drop => remove(&mut self.handles, plan.handle),
            _ => {}
        }
    }

    /// A call has answered: what it made lives, and a finished send has no message.
    pub fn end(&mut self, plan: Plan, subject: &Subject, answer: Answer) -> Result<(), Differs> {
        match (plan.kind, answer) {
            (Kind::NewSend | Kind::NewRecv | Kind::NewClosed, _) => {
                self.add_operation(plan, subject.message)
            }
            (Kind::TryClone | Kind::Downgrade | Kind::Upgrade, Answer::Made) => {
                self.add_made(plan)
            }
            (Kind::Poll, Answer::Sent | Answer::SendClosed(_)) => {
                self.set_polled(plan.name, false, None);
                Ok(())
            }
            (Kind::Poll | Kind::PollRefused, _) => {
                self.set_polled(plan.name, false, subject.message);
                Ok(())
            }
            (Kind::PollNext, _) => {
                self.set_streamed(plan.handle, false);
                Ok(())
            }
            _ => Ok(()),
        }
    }
}
