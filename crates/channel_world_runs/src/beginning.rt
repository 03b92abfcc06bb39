//! What calls do to the names when they begin, what they ask of the channel, and what they will have to write back.

ghost use Rattle.std.specs.Prelude.{◌≡◌, Some};
ghost use Rattle.channel_world_model.specs.Asked.{poll_asked, refusal_asked, drop_asked, plain_asked};
ghost use Rattle.channel_world_runs.specs.Bookkeeping.{mint_asked, new_message};

use crate::name_table::NameTable;
use crate::names::{OnReturn, OperationEntry, PollState};
use channel_calls::ask::{ChannelAsk, lent};
use channel_calls::several::Limit;
use channel_calls::stage::Side;
use channel_world_model::call::Call;
use channel_world_model::name::{Handle, HandleId, HandleKind, OpId, Operation, Waiter};
use channel_world_model::plan::{Kinship, Plan};
use event_listener::key::Key;
use std::alloc::Global;

/// What a call that begins asks of the channel, and what it will have to write back.
#[derive(Drop)]
pub(crate) struct Begun<T> {
    pub(crate) ask: ChannelAsk<T, Waiter>,
    pub(crate) on_return: OnReturn<T>,
}

impl<T> Begun<T> {
    ghost use Rattle.std.specs.Prelude.{◌≡◌};

    /// It asks this, and has this to write back.
    fn new(ask: ChannelAsk<T, Waiter>, on_return: OnReturn<T>) -> Begun<T>
        ensures { result ≡ record { ask = ask; on_return = on_return } }
    {
        Begun { ask, on_return }
    }
}

/// What making a handle from another asks: a weak one is not counted.
fn mint_ask<T>(kinship: Kinship, handle: Handle) -> ChannelAsk<T, Waiter>
    ensures { result ≡ mint_asked kinship (Some handle) }
{
    match (kinship, kinship.of(handle.kind)) {
        (Kinship::Own, HandleKind::Sender) => ChannelAsk::CloneHandle(Side::Senders),
        (Kinship::Own, HandleKind::Receiver) => ChannelAsk::CloneHandle(Side::Receivers),
        (Kinship::Strong, HandleKind::Sender) => ChannelAsk::Upgrade(Side::Senders),
        (Kinship::Strong, HandleKind::Receiver) => ChannelAsk::Upgrade(Side::Receivers),
        _ => ChannelAsk::Make,
    }
}

/// What dropping a handle asks.
fn drop_ask<T>(handle: Handle, key: Option<Key>) -> ChannelAsk<T, Waiter>
    ensures { result ≡ drop_asked key (Some handle) }
{
    match handle.kind {
        HandleKind::Sender => ChannelAsk::DropSender,
        HandleKind::Receiver => ChannelAsk::DropReceiver(key),
        HandleKind::WeakSender | HandleKind::WeakReceiver => ChannelAsk::DropWeak,
    }
}

/// What a poll of an operation asks.
fn poll_ask<T>(operation: Option<Operation<T>>, key: Option<Key>, op: OpId) -> ChannelAsk<T, Waiter>
    ensures { result ≡ poll_asked key op operation }
{
    match operation {
        Some(Operation::Send { handle: _, message }) => match message {
            Some(message) => ChannelAsk::PollSend(message, lent(key), Waiter::Op(op)),
            None => ChannelAsk::PollFinishedSend,
        },
        Some(Operation::Receive { .. }) => ChannelAsk::PollRecv(lent(key), Waiter::Op(op)),
        Some(Operation::Closing { .. }) => ChannelAsk::PollClosed(key, Waiter::Op(op)),
        None => ChannelAsk::Make,
    }
}

/// What a poll of an operation asks that was refused its waker.
fn refusal_ask<T>(operation: Option<Operation<T>>, key: Option<Key>) -> ChannelAsk<T, Waiter>
    ensures { result ≡ refusal_asked key operation }
{
    let Some(operation) = operation else {
        return ChannelAsk::Make;
    };
    ChannelAsk::RefusePoll(operation.waits_in(), operation.into_message(), key)
}

/// What a call asks that goes through one handle. A receive of several messages takes its room from `alloc`, at its first step.
fn plain_ask<T: Drop>(call: Call<T>, alloc: Global) -> ChannelAsk<T, Waiter>
    ensures { result ≡ plain_asked call }
{
    match call {
        Call::StreamIsTerminated { .. } => ChannelAsk::IsTerminated,
        Call::TrySend { sender: _, msg } => ChannelAsk::TrySend(msg),
        Call::ForceSend { sender: _, msg } => ChannelAsk::ForceSend(msg),
        Call::TryRecv { .. } => ChannelAsk::TryRecv,
        Call::RecvMany { receiver: _, limit } => ChannelAsk::RecvMany(Limit::new(limit, alloc)),
        Call::Close { .. } => ChannelAsk::Close,
        Call::IsClosed { .. } => ChannelAsk::IsClosed,
        Call::IsEmpty { .. } => ChannelAsk::IsEmpty,
        Call::IsFull { .. } => ChannelAsk::IsFull,
        Call::Len { .. } => ChannelAsk::Len,
        Call::Capacity { .. } => ChannelAsk::Capacity,
        Call::SenderCount { .. } => ChannelAsk::HandleCount(Side::Senders),
        Call::ReceiverCount { .. } => ChannelAsk::HandleCount(Side::Receivers),
        _ => ChannelAsk::Make,
    }
}

/// The message of a new send.
fn new_message<T: Drop>(call: Call<T>) -> Option<T>
    ensures { result ≡ new_message call }
{
    match call {
        Call::NewSend { msg, .. } => Some(msg),
        _ => None,
    }
}

impl<T: Drop> NameTable<T> {
    ghost use Rattle.std.specs.Prelude.{◌≡◌, None, Some, true, false, IfOk, OnErr, IfErr, IfSome, IfNone};
    ghost use Rattle.std.specs.Bool.{OnTrue, OnFalse};
    ghost use Rattle.channel_world_model.specs.Names.{at, is_taken};
    ghost use Rattle.channel_world_model.specs.Plan.{kin, plan_of};
    ghost use Rattle.channel_world_model.specs.declared.name.Waiter.TheVariants.{Op};
    ghost use Rattle.channel_world_runs.specs.Bookkeeping.{BeginsByName, Starts, is_named, lent_to_poll, mint_asked, new_from, operation_named, handle_named, with_operation};
    ghost use Rattle.channel_world_runs.specs.NameTable.{held_of, names_of, with_lent, with_borrowed};
    ghost use Rattle.channel_world_runs.specs.Order.{WakeOrder, order_begun};
    ghost use Rattle.channel_world_runs.specs.Refusal.{takes_again};

    /// A call through a handle asks this.
    fn through(&mut self, handle: HandleId, ask: ChannelAsk<T, Waiter>) -> Begun<T>
        ensures { Starts ask (OnReturn.Leave handle) (with_lent handle self.old) result self.new }
    {
        self.lend(handle);
        Begun::new(ask, OnReturn::Leave(handle))
    }

    /// Takes a new name for an operation, which borrows the handle. False if there was no room.
    fn name_operation(&mut self, op: OpId, handle: HandleId) -> bool
        requires { is_taken op.0 self.old.operations ≡ false }
        ensures ok { OnTrue result (self.new ≡ with_borrowed handle (operation_named op self.old)) }
        ensures err { OnFalse result (self.new ≡ self.old) }
    {
        let Some(handle_entry) = self.handles.get(handle.0) else {
            return self.operations.spend(op.0);
        };
        let mut borrowed = *handle_entry;
        let Some(borrowers) = borrowed.handle.borrowers.checked_add(1) else {
            return false;
        };
        borrowed.handle.borrowers = borrowers;
        if !self.operations.spend(op.0) {
            return false;
        }
        self.handles.set(handle.0, borrowed);
        true
    }

    /// A poll takes the operation as it is, with its message and its listener; refused its waker or not.
    fn lend_operation(&mut self, op: OpId) -> (Option<Operation<T>>, Option<Key>)
        ensures operation { result.0 ≡ at op.0 (names_of self.old).operations }
        ensures key { result.1 ≡ held_of self.old (Op op) }
        ensures names { self.new ≡ with_operation lent_to_poll op self.old }
    {
        let Some(entry) = self.operations.take(op.0) else {
            return (None, None);
        };
        let brings = entry.operation.has_message();
        let lent = OperationEntry {
            operation: entry.operation.without_message(),
            poll_state: PollState::IsPolled { brings },
        };
        self.operations.set(op.0, lent);
        (Some(entry.operation), entry.poll_state.key())
    }

    fn give_up(&mut self, op: OpId) -> Begun<T>
        ensures { BeginsByName self.old (Call.GiveUp op) result self.new }
    {
        let Some(entry) = self.operations.take(op.0) else {
            return Begun::new(ChannelAsk::Make, OnReturn::Nothing);
        };
        let handle = entry.operation.handle();
        self.hand_over(handle);
        let waits_in = entry.operation.waits_in();
        let message = entry.operation.into_message();
        let ask = ChannelAsk::GiveUp(waits_in, message, entry.poll_state.key());
        Begun::new(ask, OnReturn::Leave(handle))
    }

    /// Whether a poll has finished the send, and the handle that it borrows.
    fn send_is_terminated(&mut self, op: OpId) -> Begun<T>
        ensures { BeginsByName self.old (Call.SendIsTerminated op) result self.new }
    {
        let Some(entry) = self.operations.get(op.0) else {
            return Begun::new(ChannelAsk::SendIsTerminated(false), OnReturn::Nothing);
        };
        let handle = entry.operation.handle();
        let is_finished = entry.is_finished();
        self.through(handle, ChannelAsk::SendIsTerminated(is_finished))
    }

    fn poll_next(&mut self, receiver: HandleId) -> Begun<T>
        ensures { BeginsByName self.old (Call.PollNext receiver) result self.new }
    {
        let handle_entry = self.handles.get(receiver.0);
        let key = handle_entry.and_then(|entry| entry.poll_state.key());
        self.restand(receiver, PollState::IsPolled { brings: false });
        self.lend(receiver);
        let ask = ChannelAsk::PollNext(key, Waiter::Stream(receiver));
        Begun::new(ask, OnReturn::PollNext(receiver))
    }

    fn drop_handle(&mut self, handle: HandleId) -> Begun<T>
        ensures { BeginsByName self.old (Call.Drop handle) result self.new }
    {
        let ask = match self.handles.take(handle.0) {
            Some(handle_entry) => drop_ask(handle_entry.handle, handle_entry.poll_state.key()),
            None => ChannelAsk::Make,
        };
        Begun::new(ask, OnReturn::Nothing)
    }

    /// Begins to make a handle from another. `None` if its name found no room, or if the other no longer lives.
    fn mint(&mut self, from: HandleId, new: HandleId, kinship: Kinship) -> Option<Begun<T>>
        requires { is_taken new.0 self.old.handles ≡ false }
        ensures some { IfSome result
            (λ b. let seen = at from.0 (names_of self.old).handles in
            Starts (mint_asked kinship seen) (new_from from new (kin kinship) seen) (with_lent from (handle_named new self.old)) b self.new) }
        ensures none { IfNone result (self.new ≡ self.old) }
    {
        let seen = self.handles.get(from.0)?.handle;
        if !self.handles.spend(new.0) {
            return None;
        }
        self.lend(from);
        let on_return = OnReturn::New(from, new, kinship.of(seen.kind));
        Some(Begun::new(mint_ask(kinship, seen), on_return))
    }

    /// Begins a call that uses only names of what lives, each in its own way.
    pub(crate) fn begin_named(&mut self, call: Call<T>) -> Begun<T>
        requires { is_named (plan_of call) ≡ true }
        ensures { BeginsByName self.old call result self.new }
    {
        match call {
            Call::Poll { op } => {
                let (operation, key) = self.lend_operation(op);
                Begun::new(poll_ask(operation, key, op), OnReturn::Poll(op))
            }
            Call::PollRefused { op } => {
                let (operation, key) = self.lend_operation(op);
                Begun::new(refusal_ask(operation, key), OnReturn::Poll(op))
            }
            Call::GiveUp { op } => self.give_up(op),
            Call::SendIsTerminated { op } => self.send_is_terminated(op),
            Call::PollNext { receiver } => self.poll_next(receiver),
            Call::Drop { handle } => self.drop_handle(handle),
            Call::SameChannel { a, b } => {
                self.lend(a);
                self.lend(b);
                Begun::new(ChannelAsk::SameChannel(true), OnReturn::LeaveBoth(a, b))
            }
            _ => unreachable!(),
        }
    }

    /// Begins a call that is not refused, by its plan; or returns it if its new name found no room, with nothing changed. A call that is
    /// returned gives and takes no place. A receive of several messages takes its room from `alloc`, at its first step.
    pub(crate) fn begin(&mut self, call: Call<T>, alloc: Global) -> Result<Begun<T>, Call<T>>
        requires { takes_again self.old call ≡ false }
        ensures ok { IfOk result (λ b. BeginsByName self.old call b self.new) }
        ensures err { OnErr result (self.new ≡ self.old) }
        ensures back { IfErr result (λ c. c ≡ call) }
        ensures places { OnErr result ((o : WakeOrder) → order_begun call o ≡ o) }
    {
        match Plan::of(&call) {
            Plan::Through(_, handle) => Ok(self.through(handle, plain_ask(call, alloc))),
            Plan::Makes(_, handle, op, kind) => {
                if !self.name_operation(op, handle) {
                    return Err(call);
                }
                let operation = OperationEntry {
                    operation: Operation::new(kind, handle, new_message(call)),
                    poll_state: PollState::Rests,
                };
                Ok(Begun::new(ChannelAsk::Make, OnReturn::Make(op, operation)))
            }
            Plan::Mints(_, from, new, kinship) => self.mint(from, new, kinship).ok_or(call),
            _ => Ok(self.begin_named(call)),
        }
    }
}
