//! The public calls of a shared queue. Each makes the call of `queue` that reports to a trace, with a copy of the queue's own trace: this
//! module has no other way to the cells.
//!
//! A method that takes the runtime `rt` may wait: it yields while another call is in the midst of a change, and without a bound it may
//! block on the lock of the spare list. A method without `rt` never waits.
//!
//! # Extensions
//!
//! `step`, `complete` and `step_words`.

use crate::call::{QueueAsk, QueueReply};
use crate::error::{ForcePushError, PopError, PushError};
use crate::queue_call::QueueCall;
use crate::seen::Trace;
use crate::shared::iter::TryIter;
use crate::shared::queue::ConcurrentQueue;
use std::sync::Wait;

impl<T: Drop, W: Trace<T> + Copy> ConcurrentQueue<T, W> {
    ghost use Rattle.concurrent_queue.specs.SharedQueue.{IsSharedStep, IsSharedCall, IsWordsAlone, SawStep, SawRest};

    /// Makes one step of a call. It yields if the call has to repeat its action. It answers what this queue may answer; a capacity is this
    /// queue's own.
    pub fn step<R: Wait>(&self, rt: &R, call: &mut QueueCall<T>) -> Option<QueueReply<T>>
        ensures deed { SawStep W.did self.now call.old call.new result }
        ensures answers { IsSharedStep self.now call.old call.new result }
    {
        self.step_seen(rt, call, self.watch()).0
    }

    /// Makes the steps of a call up to its answer, which is one that this queue may give. A push or a pop that has made no step takes the
    /// fast path. The call is used up. With a call that has answered already it never returns.
    #[inline(always)]
    pub fn complete<R: Wait>(&self, rt: &R, call: QueueCall<T>) -> QueueReply<T>
        ensures walked { SawRest W.did self.now call result }
        ensures answers { IsSharedCall self.now call result }
    {
        self.complete_seen(rt, call, self.watch()).0
    }

    /// Makes one step of a call that is `close` or a question other than the length. The second one answers at the latest.
    #[inline(always)]
    pub fn step_words(&self, call: &mut QueueCall<T>) -> Option<QueueReply<T>>
        requires { IsWordsAlone call.old }
        ensures deed { SawStep W.did self.now call.old call.new result }
        ensures answers { IsSharedStep self.now call.old call.new result }
    {
        self.step_words_seen(call, self.watch()).0
    }
}

impl<T: Drop, W: Trace<T> + Copy> ConcurrentQueue<T, W> {
    ghost use Rattle.std.specs.Prelude.{◌≡◌, IfOk, IfErr, None, false};
    ghost use Rattle.concurrent_queue.specs.Errors.{push_message, force_message};
    ghost use Rattle.concurrent_queue.specs.SharedQueue.{limit, CanRefuse, CanRefuseForce, SawCall};
    ghost use Rattle.concurrent_queue.specs.declared.call.QueueAsk.TheVariants as ask;
    ghost use Rattle.concurrent_queue.specs.declared.call.QueueReply.TheVariants as reply;

    /// Appends the message. `Err` returns it: `Full`, `Closed`, or `NoMemory` of an unbounded queue. Other threads push and close
    /// meanwhile, so nothing that a caller knows implies success; `HasPlace` of `specs/Room` does for a queue of one owner alone.
    pub fn push<R: Wait>(&self, rt: &R, value: T) -> Result<(), PushError<T>>
        ensures walked { SawCall W.did self.now (ask.Push value) (reply.Push result) }
        ensures back { IfErr result (λ e. push_message e ≡ value) }
        ensures reason { IfErr result (λ e. CanRefuse (limit self.now) e) }
    {
        self.push_seen(rt, value, self.watch()).0
    }

    /// Appends the message; if the queue is full, removes and returns the oldest one. `Err` returns the message: `Closed`, or `NoMemory` of
    /// an unbounded queue.
    pub fn force_push<R: Wait>(&self, rt: &R, value: T) -> Result<Option<T>, ForcePushError<T>>
        ensures walked { SawCall W.did self.now (ask.ForcePush value) (reply.Force result) }
        ensures back { IfErr result (λ e. force_message e ≡ value) }
        ensures reason { IfErr result (λ e. CanRefuseForce (limit self.now) e) }
        ensures displaced { limit self.now ≡ None → IfOk result (λ o. o ≡ None) }
    {
        match self
            .make_seen(rt, QueueAsk::ForcePush(value), self.watch())
            .0
        {
            QueueReply::Force(result) => result,
            _ => unreachable!(),
        }
    }

    /// Removes the oldest message. `Err` if there was none: `Empty` while the queue was open, `Closed` once it was closed.
    pub fn pop<R: Wait>(&self, rt: &R) -> Result<T, PopError>
        ensures walked { SawCall W.did self.now ask.Pop (reply.Pop result) }
    {
        self.pop_seen(rt, self.watch()).0
    }

    /// Closes the queue: nothing more comes in, and what is in can still be popped. True in the one call that closed it.
    pub fn close(&self) -> bool
        ensures walked { SawCall W.did self.now ask.Close (reply.Close result) }
    {
        match self.tell_seen(QueueAsk::Close, self.watch()).0 {
            QueueReply::Close(result) => result,
            _ => unreachable!(),
        }
    }

    /// Whether the queue is closed.
    pub fn is_closed(&self) -> bool
        ensures walked { SawCall W.did self.now ask.IsClosed (reply.Flag result) }
    {
        match self.tell_seen(QueueAsk::IsClosed, self.watch()).0 {
            QueueReply::Flag(result) => result,
            _ => unreachable!(),
        }
    }

    /// Whether it holds no message.
    pub fn is_empty(&self) -> bool
        ensures walked { SawCall W.did self.now ask.IsEmpty (reply.Flag result) }
    {
        match self.tell_seen(QueueAsk::IsEmpty, self.watch()).0 {
            QueueReply::Flag(result) => result,
            _ => unreachable!(),
        }
    }

    /// Whether it holds as many messages as its capacity; an unbounded queue never does.
    pub fn is_full(&self) -> bool
        ensures walked { SawCall W.did self.now ask.IsFull (reply.Flag result) }
        ensures unbounded { limit self.now ≡ None → result ≡ false }
    {
        match self.tell_seen(QueueAsk::IsFull, self.watch()).0 {
            QueueReply::Flag(result) => result,
            _ => unreachable!(),
        }
    }

    /// How many messages it held at a moment of the call. It repeats its loads if the tail changed in between.
    pub fn len<R: Wait>(&self, rt: &R) -> usize
        ensures walked { SawCall W.did self.now ask.Len (reply.Count result) }
    {
        match self.make_seen(rt, QueueAsk::Len, self.watch()).0 {
            QueueReply::Count(result) => result,
            _ => unreachable!(),
        }
    }

    /// An iterator that pops. It keeps the runtime value, and each item may wait.
    pub fn try_iter<'a, R: Wait>(&'a self, rt: &'a R) -> TryIter<'a, T, R, W> {
        TryIter::new(self, rt)
    }
}
