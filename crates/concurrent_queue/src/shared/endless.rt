//! The queue without a bound that threads share. It owns the words of its two ends, and its blocks. Any thread touches them, each by a seat
//! of its own that lasts for one call.

ghost use Rattle.std.specs.Prelude.{◌≡◌};
ghost use Rattle.concurrent_queue.specs.Replies.{AsksWords, Follows, MayAnswer, MayCall};
ghost use Rattle.concurrent_queue.specs.SharedQueue.{IsWordsAlone};
ghost use Rattle.concurrent_queue.specs.Walked.{CallMakes, Walked, WalkedAsking};
ghost use Rattle.concurrent_queue.specs.declared.call.QueueAsk.TheVariants as ask;
ghost use Rattle.concurrent_queue.specs.declared.call.QueueReply.TheVariants as reply;
ghost use Rattle.concurrent_queue.specs.declared.cells.QueueForm.TheVariants.{Unbounded};

use crate::call::{QueueAsk, QueueReply};
use crate::error::{PopError, PushError};
use crate::queue_call::{QueueCall, seen};
use crate::seen::{Seen, Trace, see_cells, see_words};
use crate::shared::blocks::Blocks;
use crate::shared::cells::{SharedCells, WordCells};
use crate::shared::table::SharedTable;
use std::alloc::{AllocError, Global};
use std::sync::Wait;

/// How many words the two ends of a queue have.
const WORDS: usize = 18;

/// What a queue without a bound is made of. Any thread may make steps on it at any time, also of a call that was begun on another queue.
#[derive(Drop)]
pub(crate) struct Endless<T: Drop> {
    ends: SharedTable<T>,
    blocks: Blocks<T>,
}

impl<T: Drop> Endless<T> {
    /// A new one, which holds nothing and has no block.
    pub(crate) fn new(alloc: Global) -> Result<Endless<T>, AllocError> {
        let ends = SharedTable::new(alloc, 0, WORDS)?;
        let blocks = Blocks::new(alloc)?;
        Ok(Endless { ends, blocks })
    }

    /// The cells of words and slots, from a new seat, seen by this trace.
    #[inline(always)]
    fn words<S>(&self, trace: S) -> Seen<WordCells<'_, T>, S>
        ensures trace { result.trace ≡ trace }
    {
        see_words(WordCells::new(self.ends.seat(), &self.blocks), trace)
    }

    /// The same with the runtime value.
    #[inline(always)]
    fn cells<'a, R: Wait, S>(&'a self, rt: &'a R, trace: S) -> Seen<SharedCells<'a, T, R>, S>
        ensures trace { result.trace ≡ trace }
    {
        let words = WordCells::new(self.ends.seat(), &self.blocks);
        see_cells(SharedCells { words, rt }, trace)
    }
}

// A call that goes on makes new cells. Those of the fast path are lent to no function that is not inlined, so they stay in registers.
impl<T: Drop> Endless<T> {
    /// Steps a call to its end. The fast path leaves a call that has to repeat an action, so it yields first.
    fn finish<R: Wait, S: Trace<T>>(
        &self,
        rt: &R,
        call: QueueCall<T>,
        trace: S,
    ) -> (QueueReply<T>, S)
        ensures walked { Walked S.did Unbounded call trace (result.0) (result.1) }
        ensures answers { MayCall Unbounded call.state (result.0) }
    {
        seen::finish(rt, call, self.cells(rt, trace))
    }

    /// The same, apart from the fast path, which so needs no stack for it.
    #[cold]
    #[inline(never)]
    fn finish_apart<R: Wait, S: Trace<T>>(
        &self,
        rt: &R,
        call: QueueCall<T>,
        trace: S,
    ) -> (QueueReply<T>, S)
        ensures walked { Walked S.did Unbounded call trace (result.0) (result.1) }
        ensures answers { MayCall Unbounded call.state (result.0) }
    {
        self.finish(rt, call, trace)
    }

    /// One step of a call.
    #[inline(always)]
    pub(crate) fn step<R: Wait, S: Trace<T>>(
        &self,
        rt: &R,
        call: &mut QueueCall<T>,
        trace: S,
    ) -> (Option<QueueReply<T>>, S)
        ensures deed { CallMakes S.did Unbounded trace call.old (result.1) call.new (result.0) }
        ensures answers { Follows Unbounded call.old call.new (result.0) }
    {
        seen::step(call, self.cells(rt, trace))
    }

    /// The steps of a call up to its answer.
    #[inline(always)]
    pub(crate) fn complete<R: Wait, S: Trace<T>>(
        &self,
        rt: &R,
        call: QueueCall<T>,
        trace: S,
    ) -> (QueueReply<T>, S)
        ensures walked { Walked S.did Unbounded call trace (result.0) (result.1) }
        ensures answers { MayCall Unbounded call.state (result.0) }
    {
        let (made, trace) = seen::call_fast(call, self.cells(rt, trace));
        match made {
            Ok(reply) => (reply, trace),
            Err(rest) => self.finish(rt, rest, trace),
        }
    }

    /// One step of a call that never waits.
    #[inline(always)]
    pub(crate) fn step_words<S: Trace<T>>(
        &self,
        call: &mut QueueCall<T>,
        trace: S,
    ) -> (Option<QueueReply<T>>, S)
        requires { IsWordsAlone call.old }
        ensures deed { CallMakes S.did Unbounded trace call.old (result.1) call.new (result.0) }
        ensures answers { Follows Unbounded call.old call.new (result.0) }
    {
        seen::step(call, self.words(trace))
    }

    /// A push.
    #[inline(always)]
    pub(crate) fn push<R: Wait, S: Trace<T>>(
        &self,
        rt: &R,
        value: T,
        trace: S,
    ) -> (Result<(), PushError<T>>, S)
        ensures walked { WalkedAsking S.did Unbounded (ask.Push value) trace (reply.Push (result.0)) (result.1) }
        ensures answers { MayAnswer Unbounded (ask.Push value) (reply.Push (result.0)) }
    {
        let (made, trace) = seen::push_fast(value, self.cells(rt, trace));
        match made {
            Ok(answer) => (answer, trace),
            Err(rest) => {
                let (reply, trace) = self.finish_apart(rt, rest, trace);
                match reply {
                    QueueReply::Push(answer) => (answer, trace),
                    _ => unreachable!(),
                }
            }
        }
    }

    /// A pop.
    #[inline(always)]
    pub(crate) fn pop<R: Wait, S: Trace<T>>(&self, rt: &R, trace: S) -> (Result<T, PopError>, S)
        ensures walked { WalkedAsking S.did Unbounded ask.Pop trace (reply.Pop (result.0)) (result.1) }
    {
        let (made, trace) = seen::pop_fast(self.cells(rt, trace));
        match made {
            Ok(answer) => (answer, trace),
            Err(rest) => {
                let (reply, trace) = self.finish_apart(rt, rest, trace);
                match reply {
                    QueueReply::Pop(answer) => (answer, trace),
                    _ => unreachable!(),
                }
            }
        }
    }

    /// Any other call, step by step.
    #[inline(always)]
    pub(crate) fn make<R: Wait, S: Trace<T>>(
        &self,
        rt: &R,
        ask: QueueAsk<T>,
        trace: S,
    ) -> (QueueReply<T>, S)
        ensures walked { WalkedAsking S.did Unbounded ask trace (result.0) (result.1) }
        ensures answers { MayAnswer Unbounded ask (result.0) }
    {
        self.finish(rt, QueueCall::new(ask), trace)
    }

    /// A call that never waits.
    #[inline(always)]
    pub(crate) fn tell<S: Trace<T>>(&self, ask: QueueAsk<T>, trace: S) -> (QueueReply<T>, S)
        requires { AsksWords ask }
        ensures walked { WalkedAsking S.did Unbounded ask trace (result.0) (result.1) }
        ensures answers { MayAnswer Unbounded ask (result.0) }
    {
        seen::tell(ask, self.words(trace))
    }
}
