//! Calls on cells of any kind whose operations a trace sees. Each call returns the trace with its answer: what `queue_call` says of the
//! cells, this says of what the trace saw. Nothing is known of either, so a call can report to the trace only by an operation on the cells.

ghost use Rattle.std.specs.Prelude.{MatchResult};
ghost use Rattle.concurrent_queue.specs.Replies.{AsksWords, Follows, MayAnswer, MayCall};
ghost use Rattle.concurrent_queue.specs.Walked.{CallMakes, Walked, WalkedAsking, WalkedFast, first_of, standing};
ghost use Rattle.concurrent_queue.specs.declared.call.QueueAsk.TheVariants as ask;
ghost use Rattle.concurrent_queue.specs.declared.call.QueueReply.{QueueReply};
ghost use Rattle.concurrent_queue.specs.declared.call.QueueReply.TheVariants as reply;
ghost use Rattle.concurrent_queue.specs.declared.cells.QueueForm.{QueueForm};

use crate::call::{QueueAsk, QueueReply};
use crate::cells::Cells;
use crate::error::{PopError, PushError};
use crate::queue_call::{QueueCall, fast_path, whole};
use crate::seen::{Seen, Trace};
use std::sync::Wait;

/// One step of a call. It yields if the call has to repeat an action.
#[inline(always)]
pub(crate) fn step<T: Drop, C: Cells<T> + Drop, S: Trace<T>>(
    call: &mut QueueCall<T>,
    seen: Seen<C, S>,
) -> (Option<QueueReply<T>>, S)
    requires stands { C.stands (standing (C.form_of seen.cells) call.old.state) seen.cells }
    ensures deed { CallMakes S.did (C.form_of seen.cells) seen.trace call.old (result.1) call.new (result.0) }
    ensures answers { Follows (C.form_of seen.cells) call.old call.new (result.0) }
{
    let mut seen = seen;
    let reply = whole::step(call, &mut seen);
    (reply, seen.into_trace())
}

/// The steps of a call that waits for nobody, up to its answer.
#[inline(always)]
pub(crate) fn tell<T: Drop, C: Cells<T> + Drop, S: Trace<T>>(
    ask: QueueAsk<T>,
    seen: Seen<C, S>,
) -> (QueueReply<T>, S)
    requires words { AsksWords ask }
    requires stands { C.stands (first_of (C.form_of seen.cells) ask) seen.cells }
    ensures walked { WalkedAsking S.did (C.form_of seen.cells) ask seen.trace (result.0) (result.1) }
    ensures answers { MayAnswer (C.form_of seen.cells) ask (result.0) }
{
    let mut seen = seen;
    let reply = whole::tell(ask, &mut seen);
    (reply, seen.into_trace())
}

/// Steps a call to its end. The fast path leaves a call that has to repeat an action, so it yields first.
#[inline(always)]
pub(crate) fn finish<T: Drop, R: Wait, C: Cells<T> + Drop, S: Trace<T>>(
    rt: &R,
    call: QueueCall<T>,
    seen: Seen<C, S>,
) -> (QueueReply<T>, S)
    requires stands { C.stands (standing (C.form_of seen.cells) call.state) seen.cells }
    ensures walked { Walked S.did (C.form_of seen.cells) call seen.trace (result.0) (result.1) }
    ensures answers { MayCall (C.form_of seen.cells) call.state (result.0) }
{
    let mut seen = seen;
    let reply = whole::finish(rt, call, &mut seen);
    (reply, seen.into_trace())
}

/// Pushes or is refused; or returns the call, which has to be stepped on.
#[inline(always)]
pub(crate) fn push_fast<T: Drop, C: Cells<T> + Drop, S: Trace<T>>(
    value: T,
    seen: Seen<C, S>,
) -> (Result<Result<(), PushError<T>>, QueueCall<T>>, S)
    requires stands { C.stands (first_of (C.form_of seen.cells) (ask.Push value)) seen.cells }
    ensures deeds { WalkedFast S.did (λ r. reply.Push r) (C.form_of seen.cells) (first_of (C.form_of seen.cells) (ask.Push value)) seen.trace (result.0) (result.1) }
    ensures answers { MatchResult (result.0) (λ r. MayAnswer (C.form_of seen.cells) (ask.Push value) (reply.Push r)) (λ call. (f : QueueForm) (r : QueueReply T) → MayCall f call.state r →
        MayAnswer (C.form_of seen.cells) (ask.Push value) r) }
{
    let mut seen = seen;
    let made = fast_path::push_fast(value, &mut seen);
    (made, seen.into_trace())
}

/// Pops or is refused; or returns the call, which has to be stepped on.
#[inline(always)]
pub(crate) fn pop_fast<T: Drop, C: Cells<T> + Drop, S: Trace<T>>(
    seen: Seen<C, S>,
) -> (Result<Result<T, PopError>, QueueCall<T>>, S)
    requires stands { C.stands (first_of (C.form_of seen.cells) ask.Pop) seen.cells }
    ensures deeds { WalkedFast S.did (λ r. reply.Pop r) (C.form_of seen.cells) (first_of (C.form_of seen.cells) ask.Pop) seen.trace (result.0) (result.1) }
    ensures answers { MatchResult (result.0) (λ _. Unit {0}) (λ call. (f : QueueForm) (r : QueueReply T) → MayCall f call.state r →
        MayAnswer (C.form_of seen.cells) ask.Pop r) }
{
    let mut seen = seen;
    let made = fast_path::pop_fast(&mut seen);
    (made, seen.into_trace())
}

/// Makes a push or a pop that has made no step; or returns the call, which has to be stepped on.
#[inline(always)]
pub(crate) fn call_fast<T: Drop, C: Cells<T> + Drop, S: Trace<T>>(
    call: QueueCall<T>,
    seen: Seen<C, S>,
) -> (Result<QueueReply<T>, QueueCall<T>>, S)
    requires stands { C.stands (standing (C.form_of seen.cells) call.state) seen.cells }
    ensures deeds { WalkedFast S.did (λ r. r) (C.form_of seen.cells) (standing (C.form_of seen.cells) call.state) seen.trace (result.0) (result.1) }
    ensures answers { MatchResult (result.0) (λ r. MayCall (C.form_of seen.cells) call.state r)
        (λ rest. (r : QueueReply T) → MayCall (C.form_of seen.cells) rest.state r → MayCall (C.form_of seen.cells) call.state r) }
{
    let mut seen = seen;
    let made = fast_path::call_fast(call, &mut seen);
    (made, seen.into_trace())
}

/// The steps of a call up to its answer, over cells that are returned. A push or a pop takes the fast path.
#[inline(always)]
pub(crate) fn complete<T: Drop, R: Wait, C: Cells<T>, S: Trace<T>>(
    rt: &R,
    call: QueueCall<T>,
    seen: Seen<C, S>,
) -> (QueueReply<T>, C, S)
    requires stands { C.stands (standing (C.form_of seen.cells) call.state) seen.cells }
    ensures cells { Walked C.did (C.form_of seen.cells) call seen.cells (result.0) (result.1) }
    ensures walked { Walked S.did (C.form_of seen.cells) call seen.trace (result.0) (result.2) }
    ensures answers { MayCall (C.form_of seen.cells) call.state (result.0) }
{
    let mut seen = seen;
    let reply = whole::complete(rt, call, &mut seen);
    let (cells, trace) = seen.into_parts();
    (reply, cells, trace)
}

/// The same of a call that waits for nobody.
#[inline(always)]
pub(crate) fn complete_question<T: Drop, C: Cells<T>, S: Trace<T>>(
    ask: QueueAsk<T>,
    seen: Seen<C, S>,
) -> (QueueReply<T>, C, S)
    requires words { AsksWords ask }
    requires stands { C.stands (first_of (C.form_of seen.cells) ask) seen.cells }
    ensures cells { WalkedAsking C.did (C.form_of seen.cells) ask seen.cells (result.0) (result.1) }
    ensures walked { WalkedAsking S.did (C.form_of seen.cells) ask seen.trace (result.0) (result.2) }
    ensures answers { MayAnswer (C.form_of seen.cells) ask (result.0) }
{
    let mut seen = seen;
    let reply = whole::tell(ask, &mut seen);
    let (cells, trace) = seen.into_parts();
    (reply, cells, trace)
}

/// A push up to its answer, over cells that are returned.
#[inline(always)]
pub(crate) fn push<T: Drop, R: Wait, C: Cells<T>, S: Trace<T>>(
    rt: &R,
    value: T,
    seen: Seen<C, S>,
) -> (Result<(), PushError<T>>, C, S)
    requires stands { C.stands (first_of (C.form_of seen.cells) (ask.Push value)) seen.cells }
    ensures cells { WalkedAsking C.did (C.form_of seen.cells) (ask.Push value) seen.cells (reply.Push result.0) (result.1) }
    ensures walked { WalkedAsking S.did (C.form_of seen.cells) (ask.Push value) seen.trace (reply.Push result.0) (result.2) }
    ensures answers { MayAnswer (C.form_of seen.cells) (ask.Push value) (reply.Push result.0) }
{
    let (answer, seen) = whole::push(rt, value, seen);
    let (cells, trace) = seen.into_parts();
    (answer, cells, trace)
}

/// A pop up to its answer, over cells that are returned.
#[inline(always)]
pub(crate) fn pop<T: Drop, R: Wait, C: Cells<T>, S: Trace<T>>(
    rt: &R,
    seen: Seen<C, S>,
) -> (Result<T, PopError>, C, S)
    requires stands { C.stands (first_of (C.form_of seen.cells) ask.Pop) seen.cells }
    ensures cells { WalkedAsking C.did (C.form_of seen.cells) ask.Pop seen.cells (reply.Pop result.0) (result.1) }
    ensures walked { WalkedAsking S.did (C.form_of seen.cells) ask.Pop seen.trace (reply.Pop result.0) (result.2) }
{
    let (answer, seen) = whole::pop(rt, seen);
    let (cells, trace) = seen.into_parts();
    (answer, cells, trace)
}
