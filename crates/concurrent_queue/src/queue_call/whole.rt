//! Calls of a queue made up to their answers, over cells of any kind. Each does to the cells what the machine of their form does, and
//! nothing else.
//!
//! # Extensions
//!
//! All of this module.

ghost use Rattle.concurrent_queue.specs.Walked.{CallMakes, Walked, WalkedAsking, first_of, standing};
ghost use Rattle.concurrent_queue.specs.Replies.{AsksWords, Follows, MayAnswer, MayCall};
ghost use Rattle.concurrent_queue.specs.declared.call.QueueAsk.TheVariants as ask;
ghost use Rattle.concurrent_queue.specs.declared.call.QueueReply.TheVariants as reply;

use crate::call::{QueueAsk, QueueReply};
use crate::cells::Cells;
use crate::error::{PopError, PushError};
use crate::queue_call::QueueCall;
use crate::queue_call::fast_path::{call_fast, pop_fast, push_fast};
use std::sync::Wait;

/// Makes the steps of a call up to its answer, and nothing else. A push or a pop that has made no step takes the fast path. It yields
/// before it repeats an action. The call is used up. With a call that has answered already it never returns.
#[inline(always)]
pub fn complete<T: Drop, R: Wait, C: Cells<T>>(
    rt: &R,
    call: QueueCall<T>,
    cells: &mut C,
) -> QueueReply<T>
    requires stands { C.stands (standing (C.form_of cells.old) call.state) cells.old }
    ensures walked { Walked C.did (C.form_of cells.old) call cells.old result cells.new }
    ensures answers { MayCall (C.form_of cells.old) call.state result }
{
    match call_fast(call, cells) {
        Ok(reply) => reply,
        Err(rest) => finish(rt, rest, cells),
    }
}

/// A push up to its answer. It lends its cells to no function that is not inlined, so they stay in registers.
#[inline(always)]
pub(crate) fn push<T: Drop, R: Wait, C: Cells<T>>(
    rt: &R,
    value: T,
    cells: C,
) -> (Result<(), PushError<T>>, C)
    requires stands { C.stands (first_of (C.form_of cells) (ask.Push value)) cells }
    ensures walked { WalkedAsking C.did (C.form_of cells) (ask.Push value) cells (reply.Push result.0) (result.1) }
    ensures answers { MayAnswer (C.form_of cells) (ask.Push value) (reply.Push result.0) }
{
    let mut cells = cells;
    match push_fast(value, &mut cells) {
        Ok(answer) => (answer, cells),
        Err(rest) => {
            let (reply, cells) = finish_apart(rt, rest, cells);
            match reply {
                QueueReply::Push(answer) => (answer, cells),
                _ => unreachable!(),
            }
        }
    }
}

/// A pop up to its answer, likewise.
#[inline(always)]
pub(crate) fn pop<T: Drop, R: Wait, C: Cells<T>>(rt: &R, cells: C) -> (Result<T, PopError>, C)
    requires stands { C.stands (first_of (C.form_of cells) ask.Pop) cells }
    ensures walked { WalkedAsking C.did (C.form_of cells) ask.Pop cells (reply.Pop result.0) (result.1) }
{
    let mut cells = cells;
    match pop_fast(&mut cells) {
        Ok(answer) => (answer, cells),
        Err(rest) => {
            let (reply, cells) = finish_apart(rt, rest, cells);
            match reply {
                QueueReply::Pop(answer) => (answer, cells),
                _ => unreachable!(),
            }
        }
    }
}

/// Finishes what the fast path left. It stands apart, so that the fast path needs no stack for it.
#[cold]
#[inline(never)]
fn finish_apart<T: Drop, R: Wait, C: Cells<T>>(
    rt: &R,
    call: QueueCall<T>,
    cells: C,
) -> (QueueReply<T>, C)
    requires stands { C.stands (standing (C.form_of cells) call.state) cells }
    ensures walked { Walked C.did (C.form_of cells) call cells (result.0) (result.1) }
    ensures answers { MayCall (C.form_of cells) call.state (result.0) }
{
    let mut cells = cells;
    let reply = finish(rt, call, &mut cells);
    (reply, cells)
}

/// Makes the steps of a call that never waits, up to its answer, and nothing else: its second step answers at the latest.
pub fn tell<T: Drop, C: Cells<T>>(ask: QueueAsk<T>, cells: &mut C) -> QueueReply<T>
    requires words { AsksWords ask }
    requires stands { C.stands (first_of (C.form_of cells.old) ask) cells.old }
    ensures walked { WalkedAsking C.did (C.form_of cells.old) ask cells.old result cells.new }
    ensures answers { MayAnswer (C.form_of cells.old) ask result }
{
    let mut call = QueueCall::new(ask);
    if let Some(reply) = call.step(cells) {
        drop(call);
        return reply;
    }
    match call.step(cells) {
        Some(reply) => {
            drop(call);
            reply
        }
        None => unreachable!(),
    }
}

/// Steps a call to its end. The fast path leaves a call that has to repeat an action, so it yields first.
pub(crate) fn finish<T: Drop, R: Wait, C: Cells<T>>(
    rt: &R,
    call: QueueCall<T>,
    cells: &mut C,
) -> QueueReply<T>
    requires stands { C.stands (standing (C.form_of cells.old) call.state) cells.old }
    ensures walked { Walked C.did (C.form_of cells.old) call cells.old result cells.new }
    ensures answers { MayCall (C.form_of cells.old) call.state result }
{
    if call.has_begun() {
        cells.give_way();
    }
    step_on(rt, call, cells)
}

/// Steps a call to its end.
fn step_on<T: Drop, R: Wait, C: Cells<T>>(
    rt: &R,
    mut call: QueueCall<T>,
    cells: &mut C,
) -> QueueReply<T>
    requires stands { C.stands (standing (C.form_of cells.old) call.state) cells.old }
    ensures walked { Walked C.did (C.form_of cells.old) call cells.old result cells.new }
    ensures answers { MayCall (C.form_of cells.old) call.state result }
{
    for _ in rt.forever() {
        if let Some(reply) = step(&mut call, cells) {
            drop(call);
            return reply;
        }
    }
    unreachable!()
}

/// One step. It yields if the call has to repeat an action.
pub(crate) fn step<T: Drop, C: Cells<T>>(
    call: &mut QueueCall<T>,
    cells: &mut C,
) -> Option<QueueReply<T>>
    requires stands { C.stands (standing (C.form_of cells.old) call.old.state) cells.old }
    ensures answers { Follows (C.form_of cells.old) call.old call.new result }
    ensures deed { CallMakes C.did (C.form_of cells.old) cells.old call.old cells.new call.new result }
{
    let place = call.place();
    let reply = call.step(cells);
    if reply.is_none() && call.place() <= place {
        cells.give_way();
    }
    reply
}
