//! A queue that threads share. This module owns its memory: one table under the rule of one history with a bound, words and blocks without
//! one. Each call is one body for whatever trace, and reaches the cells only through the trace that it was given.
//!
//! # Extensions
//!
//! The trace parameter `W`, `bounded_watched`, `unbounded_watched`, `witnessed`, and the calls whose names end in `_seen` or `_told`.

ghost use Rattle.std.specs.Prelude.{◌≡◌};
ghost use Rattle.concurrent_queue.specs.Memory.{memory_form};
ghost use Rattle.concurrent_queue.specs.Replies.{AsksWords, MayAnswer};

use crate::bounded::{GREATEST, at_most_greatest};
use crate::call::{QueueAsk, QueueReply};
use crate::cells::QueueForm;
use crate::error::{NoMemory, PopError, PushError};
use crate::queue_call::QueueCall;
use crate::seen::{Lent, NoTrace, Trace};
use crate::shared::endless::Endless;
use crate::shared::ruled;
use crate::shared::ruled::QueueTable;
use crate::shared::witnessed::Witnessed;
use std::alloc::Global;
use std::sync::Wait;

/// What a queue is made of.
#[derive(Drop)]
pub(crate) enum Memory<T: Drop> {
    /// With a bound: one table.
    Ruled(QueueTable<T>),
    /// Without one: its ends, and blocks.
    Endless(Endless<T>),
}

/// A queue that threads share through a `&` and that can be closed, as `ConcurrentQueue` of `concurrent-queue` 2.5.0. Each call makes the
/// steps of `queue_call`, whichever other calls are under way, and yields before it repeats an action.
///
/// What a call finds depends on the others, so its contract says what holds whatever they do: nothing is read or written by two threads at
/// once, a refused message is returned, and what each value of `T` satisfies, each message satisfies. When the queue is dropped each
/// message left in it is dropped once.
///
/// A queue may be opened with a trace `W`: each call reports to it what it does to the cells, and by contract the trace saw the steps that
/// lead to this very answer. Without one the type is `ConcurrentQueue<T>`.
#[derive(Drop)]
pub struct ConcurrentQueue<T: Drop, W: Copy = NoTrace> {
    form: QueueForm,
    memory: Memory<T>,
    watch: W,
    ghost fits: { memory_form memory ≡ form },
}

impl<T: Drop> ConcurrentQueue<T> {
    ghost use Rattle.std.specs.Prelude.{◌≡◌, ◌<◌, ◌≤◌, ◌^◌, IfOk, Some, None};
    ghost use Rattle.concurrent_queue.specs.SharedQueue.{limit};

    /// An open empty queue that holds at most `capacity` messages. `Err` if there is no memory for its slots, which is not even asked for
    /// above 2^58.
    #[inline(always)]
    pub fn bounded(alloc: Global, capacity: usize) -> Result<ConcurrentQueue<T>, NoMemory>
        requires { 0 < capacity }
        ensures limit { IfOk result (λ q. limit q ≡ Some capacity) }
        ensures most { IfOk result (λ q. capacity ≤ 2 ^ 58) }
    {
        ConcurrentQueue::bounded_watched(alloc, capacity, NoTrace)
    }

    /// An open empty queue with no bound. Its blocks, of 31 messages each, come with the messages, and one whose messages were all taken is
    /// used again. `Err` if there is no memory for its words.
    #[inline(always)]
    pub fn unbounded(alloc: Global) -> Result<ConcurrentQueue<T>, NoMemory>
        ensures { IfOk result (λ q. limit q ≡ None) }
    {
        ConcurrentQueue::unbounded_watched(alloc, NoTrace)
    }
}

impl<T: Drop, W: Copy> ConcurrentQueue<T, W> {
    ghost use Rattle.std.specs.Prelude.{◌≡◌, ◌<◌, ◌≤◌, ◌^◌, IfOk, IfSome, Some, None, []};
    ghost use Rattle.concurrent_queue.specs.SharedQueue.{limit, watch_of};
    ghost use Rattle.concurrent_queue.specs.Memory.{table_in};
    ghost use Rattle.concurrent_queue.specs.Witnessed.{asked_in, replied_in, table_of, view_of};

    /// `bounded` with a trace, of which each call takes a copy. The copies see the calls of all threads if they lead to shared memory.
    pub fn bounded_watched(
        alloc: Global,
        capacity: usize,
        watch: W,
    ) -> Result<ConcurrentQueue<T, W>, NoMemory>
        requires { 0 < capacity }
        ensures limit { IfOk result (λ q. limit q ≡ Some capacity) }
        ensures most { IfOk result (λ q. capacity ≤ 2 ^ 58) }
        ensures watch { IfOk result (λ q. watch_of q ≡ watch) }
    {
        if capacity > GREATEST {
            return Err(NoMemory);
        }
        match QueueTable::new(alloc, capacity) {
            Ok(table) => Ok(ConcurrentQueue {
                form: QueueForm::Bounded(capacity),
                memory: Memory::Ruled(table),
                watch,
            }),
            Err(_) => Err(NoMemory),
        }
    }

    /// `unbounded` with a trace, of which each call takes a copy.
    pub fn unbounded_watched(alloc: Global, watch: W) -> Result<ConcurrentQueue<T, W>, NoMemory>
        ensures limit { IfOk result (λ q. limit q ≡ None) }
        ensures watch { IfOk result (λ q. watch_of q ≡ watch) }
    {
        match Endless::new(alloc) {
            Ok(endless) => Ok(ConcurrentQueue {
                form: QueueForm::Unbounded,
                memory: Memory::Endless(endless),
                watch,
            }),
            Err(_) => Err(NoMemory),
        }
    }

    /// How many messages it can hold, if there is a bound. It never waits.
    pub fn capacity(&self) -> Option<usize>
        ensures { result ≡ limit self.now }
    {
        match self.form {
            QueueForm::Bounded(capacity) => Some(at_most_greatest(capacity) as usize),
            QueueForm::Unbounded => None,
        }
    }

    /// A new party, whose calls come with a witness of what they asked and what they were answered. `None` for a queue without a bound. It
    /// costs one load.
    pub fn witnessed(&self) -> Option<Witnessed<'_, T>>
        ensures asked { IfSome result (λ w. asked_in w ≡ []) }
        ensures replied { IfSome result (λ w. replied_in w ≡ []) }
        ensures alone { IfSome result (λ w. (view_of w).over ≡ []) }
        ensures same { IfSome result (λ w. table_of w ≡ table_in self.now.memory) }
    {
        match &self.memory {
            Memory::Ruled(table) => Some(Witnessed::new(table)),
            Memory::Endless(_) => None,
        }
    }

    /// The queue's trace, as each call takes it.
    #[inline(always)]
    pub(crate) fn watch(&self) -> W
        ensures { result ≡ watch_of self.now }
    {
        self.watch
    }
}

// Each call of a shared queue with the caller's trace, which sees its operations and nothing else. `calls` has the same with the queue's
// own.
impl<T: Drop, W: Copy> ConcurrentQueue<T, W> {
    ghost use Rattle.std.specs.Prelude.{◌≡◌, Some};
    ghost use Rattle.concurrent_queue.specs.SharedQueue.{form_in, IsSharedStep, IsSharedCall, IsWordsAlone};
    ghost use Rattle.concurrent_queue.specs.Walked.{Walked, WalkedAsking, CallMakes};
    ghost use Rattle.concurrent_queue.specs.declared.call.QueueAsk.TheVariants as ask;
    ghost use Rattle.concurrent_queue.specs.declared.call.QueueReply.TheVariants as reply;

    /// `step` with the caller's trace: it sees the one operation, with the answer by which the call goes on.
    #[inline(always)]
    pub fn step_seen<R: Wait, S: Trace<T>>(
        &self,
        rt: &R,
        call: &mut QueueCall<T>,
        trace: S,
    ) -> (Option<QueueReply<T>>, S)
        ensures deed { CallMakes S.did (form_in self.now) trace call.old (result.1) call.new (result.0) }
        ensures answers { IsSharedStep self.now call.old call.new (result.0) }
    {
        match &self.memory {
            Memory::Ruled(table) => ruled::step(table, call, trace),
            Memory::Endless(endless) => endless.step(rt, call, trace),
        }
    }

    /// `complete` with the caller's trace: it sees each operation, with the answers that led to this one, and nothing else. The call is
    /// used up.
    #[inline(always)]
    pub fn complete_seen<R: Wait, S: Trace<T>>(
        &self,
        rt: &R,
        call: QueueCall<T>,
        trace: S,
    ) -> (QueueReply<T>, S)
        ensures walked { Walked S.did (form_in self.now) call trace (result.0) (result.1) }
        ensures answers { IsSharedCall self.now call (result.0) }
    {
        match &self.memory {
            Memory::Ruled(table) => ruled::complete(table, self.form, rt, call, trace),
            Memory::Endless(endless) => endless.complete(rt, call, trace),
        }
    }

    /// `step_words` with the caller's trace.
    #[inline(always)]
    pub fn step_words_seen<S: Trace<T>>(
        &self,
        call: &mut QueueCall<T>,
        trace: S,
    ) -> (Option<QueueReply<T>>, S)
        requires { IsWordsAlone call.old }
        ensures deed { CallMakes S.did (form_in self.now) trace call.old (result.1) call.new (result.0) }
        ensures answers { IsSharedStep self.now call.old call.new (result.0) }
    {
        // This question touches no cell, so it needs no seat: making one would be a load.
        if call.asks_capacity() {
            return (call.step_capacity(self.form, &trace), trace);
        }
        match &self.memory {
            Memory::Ruled(table) => ruled::step(table, call, trace),
            Memory::Endless(endless) => endless.step_words(call, trace),
        }
    }

    /// `push` with the caller's trace.
    #[inline(always)]
    pub fn push_seen<R: Wait, S: Trace<T>>(
        &self,
        rt: &R,
        value: T,
        trace: S,
    ) -> (Result<(), PushError<T>>, S)
        ensures walked { WalkedAsking S.did (form_in self.now) (ask.Push value) trace (reply.Push (result.0)) (result.1) }
        ensures answers { MayAnswer (form_in self.now) (ask.Push value) (reply.Push (result.0)) }
    {
        match &self.memory {
            Memory::Ruled(table) => ruled::push(table, rt, value, trace),
            Memory::Endless(endless) => endless.push(rt, value, trace),
        }
    }

    /// `pop` with the caller's trace.
    #[inline(always)]
    pub fn pop_seen<R: Wait, S: Trace<T>>(&self, rt: &R, trace: S) -> (Result<T, PopError>, S)
        ensures walked { WalkedAsking S.did (form_in self.now) ask.Pop trace (reply.Pop (result.0)) (result.1) }
    {
        match &self.memory {
            Memory::Ruled(table) => ruled::pop(table, rt, trace),
            Memory::Endless(endless) => endless.pop(rt, trace),
        }
    }

    /// Any call, step by step, with the caller's trace. It may wait.
    #[inline(always)]
    pub fn make_seen<R: Wait, S: Trace<T>>(
        &self,
        rt: &R,
        ask: QueueAsk<T>,
        trace: S,
    ) -> (QueueReply<T>, S)
        ensures walked { WalkedAsking S.did (form_in self.now) ask trace (result.0) (result.1) }
        ensures answers { MayAnswer (form_in self.now) ask (result.0) }
    {
        match &self.memory {
            Memory::Ruled(table) => ruled::any(table, self.form, rt, ask, trace),
            Memory::Endless(endless) => endless.make(rt, ask, trace),
        }
    }

    /// A call that never waits, with the caller's trace.
    #[inline(always)]
    pub fn tell_seen<S: Trace<T>>(&self, ask: QueueAsk<T>, trace: S) -> (QueueReply<T>, S)
        requires { AsksWords ask }
        ensures walked { WalkedAsking S.did (form_in self.now) ask trace (result.0) (result.1) }
        ensures answers { MayAnswer (form_in self.now) ask (result.0) }
    {
        match &self.memory {
            Memory::Ruled(table) => ruled::tell(table, self.form, ask, trace),
            Memory::Endless(endless) => endless.tell(ask, trace),
        }
    }
}

/// An answer, and the trace that was lent for it.
#[derive(Drop)]
struct Answered<'a, A: Drop, S> {
    answer: A,
    trace: &'a mut S,
}

// The same with a trace that is lent: it sees what it would see if it were moved in.
impl<T: Drop, W: Copy> ConcurrentQueue<T, W> {
    ghost use Rattle.std.specs.Prelude.{◌≡◌, IfSome, is_some, true};
    ghost use Rattle.concurrent_queue.specs.SharedQueue.{form_in, IsSharedStep, IsSharedCall, IsWordsAlone};
    ghost use Rattle.concurrent_queue.specs.Walked.{Walked, CallMakes};

    #[inline(always)]
    fn complete_lent<'a, R: Wait, S: Trace<T>>(
        &self,
        rt: &R,
        call: QueueCall<T>,
        lent: Lent<'a, S>,
    ) -> Answered<'a, QueueReply<T>, S>
        ensures same_reference { result.trace.ghost_name ≡ lent.entry.trace.ghost_name }
        ensures walked { Walked S.did (form_in self.now) call lent.entry.trace.now result.answer result.trace.now }
        ensures answers { IsSharedCall self.now call result.answer }
    {
        let (answer, lent) = self.complete_seen(rt, call, lent);
        let trace = lent.into_trace();
        Answered { answer, trace }
    }

    #[inline(always)]
    fn step_words_lent<'a, S: Trace<T>>(
        &self,
        call: &mut QueueCall<T>,
        lent: Lent<'a, S>,
    ) -> Answered<'a, Option<QueueReply<T>>, S>
        requires { IsWordsAlone call.old }
        ensures same_reference { result.trace.ghost_name ≡ lent.entry.trace.ghost_name }
        ensures deed { CallMakes S.did (form_in self.now) lent.entry.trace.now call.old result.trace.now call.new result.answer }
        ensures answers { IsSharedStep self.now call.old call.new result.answer }
    {
        let (answer, lent) = self.step_words_seen(call, lent);
        let trace = lent.into_trace();
        Answered { answer, trace }
    }

    #[inline(always)]
    fn complete_on<'a, R: Wait, S: Trace<T>>(
        &self,
        rt: &R,
        call: QueueCall<T>,
        trace: &'a mut S,
        answer: &mut Option<QueueReply<T>>,
    ) -> &'a mut S
        ensures same_reference { result.ghost_name ≡ trace.entry.ghost_name }
        ensures walked { IfSome answer.new (λ r. Walked S.did (form_in self.now) call trace.old r result.now) }
        ensures answers { IfSome answer.new (λ r. IsSharedCall self.now call r) }
        ensures some { is_some answer.new ≡ true }
    {
        let Answered {
            answer: reply,
            trace,
        } = self.complete_lent(rt, call, Lent::new(trace));
        *answer = Some(reply);
        trace
    }

    /// `complete_seen` with a trace that is lent.
    #[inline(always)]
    pub fn complete_told<R: Wait, S: Trace<T>>(
        &self,
        rt: &R,
        call: QueueCall<T>,
        trace: &mut S,
    ) -> QueueReply<T>
        ensures walked { Walked S.did (form_in self.now) call trace.old result trace.new }
        ensures answers { IsSharedCall self.now call result }
    {
        let mut answer = None;
        let _ = self.complete_on(rt, call, trace, &mut answer);
        match answer {
            Some(reply) => reply,
            None => unreachable!(),
        }
    }

    #[inline(always)]
    fn step_words_on<'a, S: Trace<T>>(
        &self,
        call: &mut QueueCall<T>,
        trace: &'a mut S,
        answer: &mut Option<QueueReply<T>>,
    ) -> &'a mut S
        requires { IsWordsAlone call.old }
        ensures same_reference { result.ghost_name ≡ trace.entry.ghost_name }
        ensures deed { CallMakes S.did (form_in self.now) trace.old call.old result.now call.new answer.new }
        ensures answers { IsSharedStep self.now call.old call.new answer.new }
    {
        let Answered {
            answer: reply,
            trace,
        } = self.step_words_lent(call, Lent::new(trace));
        *answer = reply;
        trace
    }

    /// `step_words_seen` with a trace that is lent.
    #[inline(always)]
    pub fn step_words_told<S: Trace<T>>(
        &self,
        call: &mut QueueCall<T>,
        trace: &mut S,
    ) -> Option<QueueReply<T>>
        requires { IsWordsAlone call.old }
        ensures deed { CallMakes S.did (form_in self.now) trace.old call.old trace.new call.new result }
        ensures answers { IsSharedStep self.now call.old call.new result }
    {
        let mut answer = None;
        let _ = self.step_words_on(call, trace, &mut answer);
        answer
    }
}
