//! The fast path of a push and of a pop, in the form of their queue. A call that it leaves goes on in the machine at the action that
//! failed, so no operation is made twice.

ghost use Rattle.std.specs.Prelude.{◌≡◌, MatchResult};
ghost use Rattle.concurrent_queue.specs.Replies.{MayCall, MayAnswer};
ghost use Rattle.concurrent_queue.specs.Walked.{WalkedFast, first_of, standing};
ghost use Rattle.concurrent_queue.specs.declared.call.QueueAsk.TheVariants as ask;
ghost use Rattle.concurrent_queue.specs.declared.call.QueueReply.{QueueReply};
ghost use Rattle.concurrent_queue.specs.declared.call.QueueReply.TheVariants as reply;
ghost use Rattle.concurrent_queue.specs.declared.cells.QueueForm.{QueueForm};

use crate::bounded::Shape;
use crate::call::{QueueAsk, QueueMark, QueueReply};
use crate::cells::{Cells, QueueForm};
use crate::error::{PopError, PushError};
use crate::queue_call::{CallState, QueueCall};
use crate::unbounded::action::UnboundedCall;
use crate::{bounded, single, unbounded};

fn going_on<T: Drop>(state: CallState<T>) -> QueueCall<T>
    ensures { result.state ≡ state }
{
    QueueCall {
        state,
        mark: QueueMark::Nothing,
    }
}

/// Pushes or is refused; or returns the call, which has to be stepped on.
#[inline(always)]
pub(crate) fn push_fast<T: Drop, C: Cells<T>>(
    value: T,
    cells: &mut C,
) -> Result<Result<(), PushError<T>>, QueueCall<T>>
    requires stands { C.stands (first_of (C.form_of cells.old) (ask.Push value)) cells.old }
    ensures deeds { WalkedFast C.did (λ r. reply.Push r) (C.form_of cells.old) (first_of (C.form_of cells.old) (ask.Push value)) cells.old result cells.new }
    ensures answers { MatchResult result (λ r. MayAnswer (C.form_of cells.old) (ask.Push value) (reply.Push r)) (λ call. (f : QueueForm) (r : QueueReply T) → MayCall f call.state r →
        MayAnswer (C.form_of cells.old) (ask.Push value) r) }
{
    match cells.form() {
        QueueForm::Bounded(1) => match single::fast_path::push_fast(value, cells) {
            Ok(answer) => Ok(answer),
            Err(action) => Err(going_on(CallState::Single(action))),
        },
        QueueForm::Bounded(capacity) => {
            match bounded::fast_path::push_fast(Shape::of(capacity), value, cells) {
                Ok(answer) => Ok(answer),
                Err(action) => Err(going_on(CallState::Ring(action))),
            }
        }
        QueueForm::Unbounded => match unbounded::fast_path::push_fast(value, cells) {
            Ok(answer) => Ok(answer),
            Err(action) => Err(going_on(CallState::Blocks(UnboundedCall {
                displacing: false,
                action,
            }))),
        },
    }
}

/// Pops or is refused; or returns the call, which has to be stepped on.
#[inline(always)]
pub(crate) fn pop_fast<T: Drop, C: Cells<T>>(
    cells: &mut C,
) -> Result<Result<T, PopError>, QueueCall<T>>
    requires stands { C.stands (first_of (C.form_of cells.old) ask.Pop) cells.old }
    ensures deeds { WalkedFast C.did (λ r. reply.Pop r) (C.form_of cells.old) (first_of (C.form_of cells.old) ask.Pop) cells.old result cells.new }
    ensures answers { MatchResult result (λ _. Unit {0}) (λ call. (f : QueueForm) (r : QueueReply T) → MayCall f call.state r →
        MayAnswer (C.form_of cells.old) ask.Pop r) }
{
    match cells.form() {
        QueueForm::Bounded(1) => match single::fast_path::pop_fast(cells) {
            Ok(answer) => Ok(answer),
            Err(action) => Err(going_on(CallState::Single(action))),
        },
        QueueForm::Bounded(capacity) => match bounded::fast_path::pop_fast(
            Shape::of(capacity),
            cells,
        ) {
            Ok(answer) => Ok(answer),
            Err(action) => Err(going_on(CallState::Ring(action))),
        },
        QueueForm::Unbounded => match unbounded::fast_path::pop_fast(cells) {
            Ok(answer) => Ok(answer),
            Err(action) => Err(going_on(CallState::Blocks(UnboundedCall {
                displacing: false,
                action,
            }))),
        },
    }
}

/// Makes a push or a pop that has made no step; or returns the call, which has to be stepped on.
#[inline(always)]
pub(crate) fn call_fast<T: Drop, C: Cells<T>>(
    call: QueueCall<T>,
    cells: &mut C,
) -> Result<QueueReply<T>, QueueCall<T>>
    requires stands { C.stands (standing (C.form_of cells.old) call.state) cells.old }
    ensures deeds { WalkedFast C.did (λ r. r) (C.form_of cells.old) (standing (C.form_of cells.old) call.state) cells.old result cells.new }
    ensures answers { MatchResult result (λ r. MayCall (C.form_of cells.old) call.state r)
        (λ rest. (r : QueueReply T) → MayCall (C.form_of cells.old) rest.state r → MayCall (C.form_of cells.old) call.state r) }
{
    match call.into_state() {
        CallState::Asked(QueueAsk::Push(value)) => match push_fast(value, cells) {
            Ok(answer) => Ok(QueueReply::Push(answer)),
            Err(rest) => Err(rest),
        },
        CallState::Asked(QueueAsk::Pop) => match pop_fast(cells) {
            Ok(answer) => Ok(QueueReply::Pop(answer)),
            Err(rest) => Err(rest),
        },
        state => Err(going_on(state)),
    }
}
