//! The calls of a queue with a bound that threads share. Each enters a party on the queue's table, makes its steps up to the answer, and
//! gives the seat back.

ghost use Rattle.std.specs.Prelude.{◌≡◌, ℕ, ◌<◌, ◌≤◌, ◌^◌, IfOk};
ghost use Rattle.concurrent_queue.specs.QueueTables.{form_of};
ghost use Rattle.concurrent_queue.specs.Replies.{AsksWords, Follows, MayAnswer, MayCall};
ghost use Rattle.concurrent_queue.specs.Walked.{CallMakes, Walked, WalkedAsking};
ghost use Rattle.concurrent_queue.specs.history.Begun.{IsBegun};
ghost use Rattle.concurrent_queue.specs.history.Calls.{AsksCells};
ghost use Rattle.concurrent_queue.specs.history.Runs.{begun, fresh};
ghost use Rattle.concurrent_queue.specs.declared.call.QueueAsk.TheVariants as ask;
ghost use Rattle.concurrent_queue.specs.declared.call.QueueReply.TheVariants as reply;
ghost use Rattle.concurrent_queue.specs.declared.cells.QueueForm.TheVariants.{Bounded};

use crate::bounded::at_most_greatest;
use crate::call::{QueueAsk, QueueReply};
use crate::cells::QueueForm;
use crate::error::{PopError, PushError};
use crate::history::cells::HistoryCells;
use crate::history::foreign::ForeignSeat;
use crate::history::party::{OfQueue, QueueCells, Standing};
use crate::history::table::{CallSeat, RuledTable};
use crate::queue_call::{QueueCall, seen};
use crate::seen::{Seen, Trace, see_call, see_foreign};
use std::alloc::{AllocError, Global};
use std::marker::Brand;
use std::sync::Wait;

/// What a queue with a bound is made of: one table. What all calls do to it is one history.
#[derive(Drop)]
pub(crate) struct QueueTable<T> {
    pub(crate) table: RuledTable<T, Standing<T>, OfQueue>,
}

/// The seat of a call that has begun.
type QueueSeat<'a, T> = CallSeat<'a, T, Standing<T>, OfQueue>;

impl<T> QueueTable<T> {
    /// The table of a new queue that holds at most `capacity` messages. `Err` if there is no memory for it.
    pub(crate) fn new(alloc: Global, capacity: usize) -> Result<QueueTable<T>, AllocError>
        requires { (0 < capacity) × (capacity ≤ 2 ^ 58) }
        ensures { IfOk result (λ t. form_of t ≡ Bounded capacity) }
    {
        let (table, _first) = RuledTable::new(alloc, capacity, 0)?;
        Ok(QueueTable { table })
    }
}

/// A new party begins a call that asks this.
#[inline(always)]
fn begin<'a, T: Drop>(table: &'a QueueTable<T>, ask: &QueueAsk<T>) -> QueueSeat<'a, T>
    ensures begun { result.seat.me.0.state ≡ begun ask.now fresh }
    ensures same { (result.seat.table_id ≡ table.now.table.table.shared.table_id) × (result.seat.me.0.form ≡ (form_of table.now)) }
{
    table.table.enter::<Brand, QueueAsk<T>>(ask)
}

/// The cells of a call that has just begun to ask this, seen by this trace.
#[inline(always)]
fn call_cells<'a, T: Drop, S>(
    table: &'a QueueTable<T>,
    ask: &QueueAsk<T>,
    trace: S,
) -> Seen<QueueCells<'a, T>, S>
    ensures begun { IsBegun result.cells.seat.seat.me.0 ask.now }
    ensures form { result.cells.seat.seat.me.0.form ≡ form_of table.now }
    ensures trace { result.trace ≡ trace }
{
    let seat = begin(table, ask);
    see_call(HistoryCells { seat }, trace)
}

/// A call that touches cells.
#[inline(always)]
fn make<T: Drop, R: Wait, S: Trace<T>>(
    table: &QueueTable<T>,
    rt: &R,
    ask: QueueAsk<T>,
    trace: S,
) -> (QueueReply<T>, S)
    requires cells { AsksCells ask }
    ensures walked { WalkedAsking S.did (form_of table.now) ask trace (result.0) (result.1) }
    ensures answers { MayAnswer (form_of table.now) ask (result.0) }
{
    let seen = call_cells(table, &ask, trace);
    let (reply, cells, trace) = seen::complete(rt, QueueCall::new(ask), seen);
    let HistoryCells { seat } = cells;
    let _witness = seat.rest();
    (reply, trace)
}

/// A push.
#[inline(always)]
pub(crate) fn push<T: Drop, R: Wait, S: Trace<T>>(
    table: &QueueTable<T>,
    rt: &R,
    value: T,
    trace: S,
) -> (Result<(), PushError<T>>, S)
    ensures walked { WalkedAsking S.did (form_of table.now) (ask.Push value) trace (reply.Push (result.0)) (result.1) }
    ensures answers { MayAnswer (form_of table.now) (ask.Push value) (reply.Push (result.0)) }
{
    let seat = table.table.enter::<Brand, T>(&value);
    let (answer, cells, trace) = seen::push(rt, value, see_call(HistoryCells { seat }, trace));
    let HistoryCells { seat } = cells;
    let _witness = seat.rest();
    (answer, trace)
}

/// A pop.
#[inline(always)]
pub(crate) fn pop<T: Drop, R: Wait, S: Trace<T>>(
    table: &QueueTable<T>,
    rt: &R,
    trace: S,
) -> (Result<T, PopError>, S)
    ensures walked { WalkedAsking S.did (form_of table.now) ask.Pop trace (reply.Pop (result.0)) (result.1) }
{
    let seat = table.table.enter::<Brand, ()>(&());
    let (answer, cells, trace) = seen::pop(rt, see_call(HistoryCells { seat }, trace));
    let HistoryCells { seat } = cells;
    let _witness = seat.rest();
    (answer, trace)
}

/// The question how many messages the queue can hold. It touches no cell.
#[inline(always)]
fn capacity<T: Drop, S: Trace<T>>(form: QueueForm, trace: S) -> (QueueReply<T>, S)
    requires bounded { (most : ℕ) × (form ≡ Bounded most) }
    ensures walked { WalkedAsking S.did form ask.Capacity trace (result.0) (result.1) }
    ensures answers { MayAnswer form ask.Capacity (result.0) }
{
    match form {
        QueueForm::Bounded(most) => {
            let most = at_most_greatest(most) as usize;
            (QueueReply::Cap(Some(most)), trace)
        }
        QueueForm::Unbounded => unreachable!(),
    }
}

/// Any call. The question for the capacity touches no cell, so it is no part of the history.
#[inline(always)]
pub(crate) fn any<T: Drop, R: Wait, S: Trace<T>>(
    table: &QueueTable<T>,
    form: QueueForm,
    rt: &R,
    ask: QueueAsk<T>,
    trace: S,
) -> (QueueReply<T>, S)
    requires form { form ≡ (form_of table.now) }
    ensures walked { WalkedAsking S.did form ask trace (result.0) (result.1) }
    ensures answers { MayAnswer form ask (result.0) }
{
    match ask {
        QueueAsk::Push(value) => {
            let (answer, trace) = push(table, rt, value, trace);
            (QueueReply::Push(answer), trace)
        }
        QueueAsk::Pop => {
            let (answer, trace) = pop(table, rt, trace);
            (QueueReply::Pop(answer), trace)
        }
        QueueAsk::Capacity => capacity(form, trace),
        ask => make(table, rt, ask, trace),
    }
}

/// A call that waits for nobody.
#[inline(always)]
pub(crate) fn tell<T: Drop, S: Trace<T>>(
    table: &QueueTable<T>,
    form: QueueForm,
    ask: QueueAsk<T>,
    trace: S,
) -> (QueueReply<T>, S)
    requires words { AsksWords ask }
    requires form { form ≡ (form_of table.now) }
    ensures walked { WalkedAsking S.did form ask trace (result.0) (result.1) }
    ensures answers { MayAnswer form ask (result.0) }
{
    match ask {
        QueueAsk::Capacity => capacity(form, trace),
        ask => {
            let seen = call_cells(table, &ask, trace);
            let (reply, cells, trace) = seen::complete_question(ask, seen);
            let HistoryCells { seat } = cells;
            let _witness = seat.rest();
            (reply, trace)
        }
    }
}

/// The cells of a call that may be no call of this queue, seen by this trace.
#[inline(always)]
fn foreign_cells<'a, T: Drop, S>(table: &'a QueueTable<T>, trace: S) -> Seen<ForeignSeat<'a, T>, S>
    ensures form { result.cells.seat.me.0.form ≡ form_of table.now }
    ensures trace { result.trace ≡ trace }
{
    see_foreign(table.table.admit(), trace)
}

/// One step of a call that may be no call of this queue: from then on nothing is known of the history.
#[inline(always)]
pub(crate) fn step<T: Drop, S: Trace<T>>(
    table: &QueueTable<T>,
    call: &mut QueueCall<T>,
    trace: S,
) -> (Option<QueueReply<T>>, S)
    ensures deed { CallMakes S.did (form_of table.now) trace call.old (result.1) call.new (result.0) }
    ensures answers { Follows (form_of table.now) call.old call.new (result.0) }
{
    seen::step(call, foreign_cells(table, trace))
}

/// The steps of a call up to its answer. One that has made steps may have made them on another queue, so it is no part of the history.
#[inline(always)]
pub(crate) fn complete<T: Drop, R: Wait, S: Trace<T>>(
    table: &QueueTable<T>,
    form: QueueForm,
    rt: &R,
    call: QueueCall<T>,
    trace: S,
) -> (QueueReply<T>, S)
    requires form { form ≡ (form_of table.now) }
    ensures walked { Walked S.did form call trace (result.0) (result.1) }
    ensures answers { MayCall form call.state (result.0) }
{
    match call.into_asked() {
        Ok(ask) => any(table, form, rt, ask, trace),
        Err(rest) => seen::finish(rt, rest, foreign_cells(table, trace)),
    }
}
