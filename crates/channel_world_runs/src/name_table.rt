//! The handles and the operations under their names. Calls change the table when they begin and when they end, never in between.

use crate::names::{HandleEntry, OperationEntry, PollState};
use channel_calls::stage::WaitList;
use channel_world_model::directory::Directory;
use channel_world_model::name::{HandleId, HandleKind, Waiter};
use std::alloc::{AllocError, Global};

/// All names that were ever taken, with what lives under them.
#[derive(Drop)]
pub struct NameTable<T> {
    /// The handles.
    pub handles: Directory<HandleEntry>,
    /// The operations.
    pub operations: Directory<OperationEntry<T>>,
}

impl<T> NameTable<T> {
    ghost use Rattle.std.specs.Prelude.{◌≡◌, IfOk};
    ghost use Rattle.channel_world_runs.specs.NameTable.{first_name_table, with_lent, with_given_back, with_handed_over, with_poll_state};

    /// The first sender and the first receiver, and no operations.
    pub(crate) fn new(alloc: Global) -> Result<NameTable<T>, AllocError>
        ensures { IfOk result (λ name_table. name_table ≡ first_name_table) }
    {
        let sender = HandleEntry::unused(HandleKind::Sender);
        let receiver = HandleEntry::unused(HandleKind::Receiver);
        let mut handles = Directory::new(alloc)?;
        handles.add(0, sender).map_err(|_| AllocError)?;
        handles.add(1, receiver).map_err(|_| AllocError)?;
        Ok(NameTable {
            handles,
            operations: Directory::new(alloc)?,
        })
    }

    /// One more call uses the handle.
    pub(crate) fn lend(&mut self, handle: HandleId)
        ensures { self.new ≡ with_lent handle self.old }
    {
        if let Some(mut handle_entry) = self.handles.take(handle.0) {
            handle_entry.users = handle_entry.users.saturating_add(1);
            self.handles.set(handle.0, handle_entry);
        }
    }

    /// One fewer uses the handle.
    pub(crate) fn give_back(&mut self, handle: HandleId)
        ensures { self.new ≡ with_given_back handle self.old }
    {
        if let Some(mut handle_entry) = self.handles.take(handle.0) {
            handle_entry.users = handle_entry.users.saturating_sub(1);
            self.handles.set(handle.0, handle_entry);
        }
    }

    /// The call that gives up an operation uses the handle that the operation borrowed.
    pub(crate) fn hand_over(&mut self, handle: HandleId)
        ensures { self.new ≡ with_handed_over handle self.old }
    {
        if let Some(mut handle_entry) = self.handles.take(handle.0) {
            handle_entry.handle.borrowers = handle_entry.handle.borrowers.saturating_sub(1);
            handle_entry.users = handle_entry.users.saturating_add(1);
            self.handles.set(handle.0, handle_entry);
        }
    }

    /// Sets the standing of a handle as a stream.
    pub(crate) fn restand(&mut self, handle: HandleId, poll_state: PollState)
        ensures { self.new ≡ with_poll_state poll_state handle self.old }
    {
        if let Some(mut handle_entry) = self.handles.take(handle.0) {
            handle_entry.poll_state = poll_state;
            self.handles.set(handle.0, handle_entry);
        }
    }
}

ghost use Rattle.std.specs.Prelude.{◌≡◌};
ghost use Rattle.channel_world_runs.specs.Pending.{stands_pending, operation_stands, stream_stands};

/// Whether an operation is pending.
fn operation_pends<T>(operation: &Option<OperationEntry<T>>) -> bool
    ensures { result ≡ operation_stands stands_pending operation.now }
{
    matches!(operation, Some(entry) if entry.poll_state.is_pending())
}

/// Whether a stream is pending.
fn stream_pends(handle_entry: &Option<HandleEntry>) -> bool
    ensures { result ≡ stream_stands stands_pending handle_entry.now }
{
    matches!(handle_entry, Some(entry) if entry.poll_state.is_pending())
}

impl<T> NameTable<T> {
    ghost use Rattle.std.specs.Prelude.{◌≡◌};
    ghost use Rattle.channel_world_model.specs.Laws.{is_line, line_at};
    ghost use Rattle.channel_world_runs.specs.NameTable.{is_name_pending, names_of};
    ghost use Rattle.channel_world_runs.specs.Pending.{stands_pending, how_many};

    /// How many operations and streams are pending: they live, their last poll ended so, and no poll of them is under way. It walks over
    /// all names.
    pub fn count_pending(&self) -> usize
        ensures { result ≡ how_many stands_pending self.now }
    {
        let operations = self.operations.iter();
        let operations = operations.filter(|(_, x)| operation_pends(*x));
        let streams = self.handles.iter();
        let streams = streams.filter(|(_, x)| stream_pends(*x));
        operations.count() + streams.count()
    }

    /// Whether what has this name is pending.
    pub(crate) fn is_pending(&self, name: Waiter) -> bool
        ensures { result ≡ is_name_pending self.now name }
    {
        match name {
            Waiter::Op(op) => match self.operations.get(op.0) {
                Some(entry) => entry.poll_state.is_pending(),
                None => false,
            },
            Waiter::Stream(receiver) => match self.handles.get(receiver.0) {
                Some(entry) => entry.poll_state.is_pending(),
                None => false,
            },
        }
    }

    /// Whether what has this name belongs to this wait queue: a pending send, receive or wait for the closing to its own, and a stream to
    /// that of the streams. A finished send belongs to none, nor does a name under which nothing lives.
    pub fn is_on(&self, line: WaitList, name: Waiter) -> bool
        ensures { result ≡ is_line line (line_at (names_of self.now) name) }
    {
        match name {
            Waiter::Op(op) => match self.operations.get(op.0) {
                Some(entry) => entry.operation.is_on(line),
                None => false,
            },
            Waiter::Stream(_) => matches!(line, WaitList::Streams),
        }
    }
}
