//! A call of a queue, made one step at a time. `QueueCall` owns the call's program counter and its message, and touches cells only through
//! the [`Cells`](crate::cells::Cells) that each step is given.
//!
//! # Extensions
//!
//! All of this module.

ghost use Rattle.std.specs.Prelude.{◌≡◌};
ghost use Rattle.concurrent_queue.specs.machine.Dispatch.{in_single, in_ring, in_blocks, ended};
ghost use Rattle.concurrent_queue.specs.Replies.{StateFollows};
ghost use Rattle.concurrent_queue.specs.Stands.{StateReady};
ghost use Rattle.concurrent_queue.specs.Walked.{StateMakes};
ghost use Rattle.concurrent_queue.specs.declared.call.QueueAsk.TheVariants as ask;

pub(crate) mod fast_path;
mod place;
pub(crate) mod seen;
pub mod whole;

use crate::bounded::RingAction;
use crate::call::{QueueAsk, QueueMark, QueueReply, Stepped};
use crate::cells::{Cells, QueueForm};
use crate::seen::Trace;
use crate::single::SingleAction;
use crate::unbounded::action::UnboundedCall;
use crate::{bounded, single, unbounded};
use std::mem;

/// How far a call has come, in the form of its queue.
#[derive(Drop)]
pub(crate) enum CallState<T> {
    /// It has made no step.
    Asked(QueueAsk<T>),
    /// On a queue of one slot.
    Single(SingleAction<T>),
    /// On a ring.
    Ring(RingAction<T>),
    /// On an unbounded queue.
    Blocks(UnboundedCall<T>),
    /// It has answered.
    Finished,
}

/// A call of a queue. Each `step` is one operation on one cell; the last one answers.
pub struct QueueCall<T> {
    state: CallState<T>,
    mark: QueueMark,
}

/// Written by hand, so that crates above prove nothing about the machines' program counters when they drop a call.
impl<T: Drop> Drop for QueueCall<T> {
    fn drop(self) {
        let QueueCall { state, mark: _ } = self;
        drop(state);
    }
}

fn wrap_single<T: Drop>(stepped: Stepped<SingleAction<T>, T>) -> Stepped<CallState<T>, T>
    ensures { result ≡ in_single stepped }
{
    Stepped {
        action: CallState::Single(stepped.action),
        mark: stepped.mark,
        reply: stepped.reply,
    }
}

fn wrap_ring<T: Drop>(stepped: Stepped<RingAction<T>, T>) -> Stepped<CallState<T>, T>
    ensures { result ≡ in_ring stepped }
{
    Stepped {
        action: CallState::Ring(stepped.action),
        mark: stepped.mark,
        reply: stepped.reply,
    }
}

fn wrap_blocks<T: Drop>(stepped: Stepped<UnboundedCall<T>, T>) -> Stepped<CallState<T>, T>
    ensures { result ≡ in_blocks stepped }
{
    Stepped {
        action: CallState::Blocks(stepped.action),
        mark: stepped.mark,
        reply: stepped.reply,
    }
}

/// The first step of a call, in the form of its queue.
fn first_step<T: Drop, C: Cells<T>>(ask: QueueAsk<T>, cells: &mut C) -> Stepped<CallState<T>, T>
    requires ready { StateReady C.may (C.form_of cells.old) (CallState.Asked ask) cells.old }
    ensures answers { StateFollows (C.form_of cells.old) (CallState.Asked ask) result.action result.reply }
    ensures deed { StateMakes C.did (C.form_of cells.old) cells.old (CallState.Asked ask) cells.new result }
{
    match cells.form() {
        QueueForm::Bounded(1) => wrap_single(single::step(single::first(ask), cells)),
        QueueForm::Bounded(_) => wrap_ring(bounded::step(bounded::first(ask), cells)),
        QueueForm::Unbounded => wrap_blocks(unbounded::step(unbounded::first(ask), cells)),
    }
}

fn step_state<T: Drop, C: Cells<T>>(state: CallState<T>, cells: &mut C) -> Stepped<CallState<T>, T>
    requires ready { StateReady C.may (C.form_of cells.old) state cells.old }
    ensures answers { StateFollows (C.form_of cells.old) state result.action result.reply }
    ensures deed { StateMakes C.did (C.form_of cells.old) cells.old state cells.new result }
{
    match state {
        CallState::Asked(ask) => first_step(ask, cells),
        CallState::Single(action) => wrap_single(single::step(action, cells)),
        CallState::Ring(action) => wrap_ring(bounded::step(action, cells)),
        CallState::Blocks(call) => wrap_blocks(unbounded::step(call, cells)),
        CallState::Finished => Stepped {
            action: CallState::Finished,
            mark: QueueMark::Nothing,
            reply: None,
        },
    }
}

/// The question how many messages the queue can hold, by its form alone.
#[inline(always)]
fn capacity_step<T: Drop, S: Trace<T>>(form: QueueForm, trace: &S) -> Stepped<CallState<T>, T>
    ensures answers { StateFollows form (CallState.Asked ask.Capacity) result.action result.reply }
    ensures deed { StateMakes S.did form trace.now (CallState.Asked ask.Capacity) trace.now result }
{
    match form {
        QueueForm::Bounded(1) => wrap_single(single::capacity(trace)),
        QueueForm::Bounded(most) => wrap_ring(bounded::capacity(most, trace)),
        QueueForm::Unbounded => wrap_blocks(unbounded::capacity(trace)),
    }
}

impl<T: Drop> QueueCall<T> {
    ghost use Rattle.std.specs.Prelude.{◌≡◌, true, MatchResult};
    ghost use Rattle.concurrent_queue.specs.Step.{Starts, mark_of};
    ghost use Rattle.concurrent_queue.specs.Replies.{Follows, IsAsking};
    ghost use Rattle.concurrent_queue.specs.declared.queue_call.CallState.TheVariants as CallState;
    ghost use Rattle.concurrent_queue.specs.Walked.{CallMakes, HasEnded, standing};

    /// The call that asks this. It has made no step.
    pub fn new(ask: QueueAsk<T>) -> QueueCall<T>
        ensures starts { Starts result ask }
        ensures asked { IsAsking result ask }
        ensures unmarked { mark_of result ≡ QueueMark.Nothing }
    {
        QueueCall {
            state: CallState::Asked(ask),
            mark: QueueMark::Nothing,
        }
    }

    /// A call that has answered: it stands in for a call that was moved out to be completed. Its steps do nothing and answer nothing.
    pub fn ended() -> QueueCall<T>
        ensures ended { HasEnded result }
        ensures unmarked { mark_of result ≡ QueueMark.Nothing }
    {
        QueueCall {
            state: CallState::Finished,
            mark: QueueMark::Nothing,
        }
    }

    /// What the last step did; `Nothing` before the first one. `complete` uses the call up, so there the answer alone says what was done.
    pub fn last_mark(&self) -> QueueMark
        ensures { result ≡ mark_of self.now }
    {
        self.mark
    }

    /// The program counter of a call that is given away.
    #[inline(always)]
    fn into_state(self) -> CallState<T>
        ensures { result ≡ self.state }
    {
        let QueueCall { state, mark: _ } = self;
        state
    }

    /// What the call asks if it has made no step; otherwise the call.
    #[inline(always)]
    pub fn into_asked(self) -> Result<QueueAsk<T>, QueueCall<T>>
        ensures { MatchResult result (λ a. self.state ≡ CallState.Asked a) (λ rest. rest ≡ self) }
    {
        let QueueCall { state, mark } = self;
        match state {
            CallState::Asked(ask) => Ok(ask),
            state => Err(QueueCall { state, mark }),
        }
    }

    /// Whether it asks how many messages the queue can hold, and has made no step.
    #[inline(always)]
    pub(crate) fn asks_capacity(&self) -> bool
        ensures { result ≡ true → IsAsking self.now ask.Capacity }
    {
        matches!(&self.state, CallState::Asked(QueueAsk::Capacity))
    }

    /// The one step of that question. It touches no cell: the queue's form has the answer.
    #[inline(always)]
    pub(crate) fn step_capacity<S: Trace<T>>(
        &mut self,
        form: QueueForm,
        trace: &S,
    ) -> Option<QueueReply<T>>
        requires { IsAsking self.old ask.Capacity }
        ensures deed { CallMakes S.did form trace.now self.old trace.now self.new result }
        ensures answers { Follows form self.old self.new result }
    {
        let stepped = capacity_step(form, trace);
        drop(mem::replace(&mut self.state, stepped.action));
        self.mark = stepped.mark;
        stepped.reply
    }

    /// Makes one step: one operation on the cells, as the machine of their form makes it, and what follows its answer.
    pub fn step<C: Cells<T>>(&mut self, cells: &mut C) -> Option<QueueReply<T>>
        requires stands { C.stands (standing (C.form_of cells.old) self.old.state) cells.old }
        ensures answers { Follows (C.form_of cells.old) self.old self.new result }
        ensures deed { CallMakes C.did (C.form_of cells.old) cells.old self.old cells.new self.new result }
    {
        let state = mem::replace(&mut self.state, CallState::Finished);
        let stepped = step_state(state, cells);
        drop(mem::replace(&mut self.state, stepped.action));
        self.mark = stepped.mark;
        stepped.reply
    }
}

impl<T: Drop> QueueCall<T> {
    ghost use Rattle.std.specs.Prelude.{◌≡◌};
    ghost use Rattle.concurrent_queue.specs.Step.{Starts, mark_of};
    ghost use Rattle.concurrent_queue.specs.Replies.{IsAsking};
    ghost use Rattle.concurrent_queue.specs.declared.call.QueueAsk.TheVariants as ask;

    /// A call that appends this message.
    pub fn push(value: T) -> QueueCall<T>
        ensures starts { Starts result (ask.Push value) }
        ensures asked { IsAsking result (ask.Push value) }
        ensures unmarked { mark_of result ≡ QueueMark.Nothing }
    {
        QueueCall::new(QueueAsk::Push(value))
    }

    /// A call that appends this message; if the queue is full, the oldest one leaves for it.
    pub fn force_push(value: T) -> QueueCall<T>
        ensures starts { Starts result (ask.ForcePush value) }
        ensures asked { IsAsking result (ask.ForcePush value) }
        ensures unmarked { mark_of result ≡ QueueMark.Nothing }
    {
        QueueCall::new(QueueAsk::ForcePush(value))
    }

    /// A call that takes the oldest message.
    pub fn pop() -> QueueCall<T>
        ensures starts { Starts result ask.Pop }
        ensures asked { IsAsking result ask.Pop }
        ensures unmarked { mark_of result ≡ QueueMark.Nothing }
    {
        QueueCall::new(QueueAsk::Pop)
    }

    /// A call that closes the queue.
    pub fn close() -> QueueCall<T>
        ensures starts { Starts result ask.Close }
        ensures asked { IsAsking result ask.Close }
        ensures unmarked { mark_of result ≡ QueueMark.Nothing }
    {
        QueueCall::new(QueueAsk::Close)
    }

    /// A call that asks whether the queue is closed.
    pub fn is_closed() -> QueueCall<T>
        ensures starts { Starts result ask.IsClosed }
        ensures asked { IsAsking result ask.IsClosed }
        ensures unmarked { mark_of result ≡ QueueMark.Nothing }
    {
        QueueCall::new(QueueAsk::IsClosed)
    }

    /// A call that asks whether the queue holds no message.
    pub fn is_empty() -> QueueCall<T>
        ensures starts { Starts result ask.IsEmpty }
        ensures asked { IsAsking result ask.IsEmpty }
        ensures unmarked { mark_of result ≡ QueueMark.Nothing }
    {
        QueueCall::new(QueueAsk::IsEmpty)
    }

    /// A call that asks whether the queue is full.
    pub fn is_full() -> QueueCall<T>
        ensures starts { Starts result ask.IsFull }
        ensures asked { IsAsking result ask.IsFull }
        ensures unmarked { mark_of result ≡ QueueMark.Nothing }
    {
        QueueCall::new(QueueAsk::IsFull)
    }

    /// A call that asks how many messages the queue holds.
    pub fn len() -> QueueCall<T>
        ensures starts { Starts result ask.Len }
        ensures asked { IsAsking result ask.Len }
        ensures unmarked { mark_of result ≡ QueueMark.Nothing }
    {
        QueueCall::new(QueueAsk::Len)
    }

    /// A call that asks how many messages the queue can hold.
    pub fn capacity() -> QueueCall<T>
        ensures starts { Starts result ask.Capacity }
        ensures asked { IsAsking result ask.Capacity }
        ensures unmarked { mark_of result ≡ QueueMark.Nothing }
    {
        QueueCall::new(QueueAsk::Capacity)
    }
}
