//! The calls of a receiver that receive, with a trace of the caller's.

ghost use Rattle.std.specs.Prelude.{◌≡◌, ◌≤◌, ◌<◌, [], length, Err, IfOk, IfErr, OnErr};
ghost use Rattle.std.specs.Vec.{vec_capacity, vec_ptr};
ghost use Rattle.channel_calls.specs.Asks.{first};
ghost use Rattle.channel_calls.specs.Blocks.{Blocks};
ghost use Rattle.channel_calls.specs.Filling.{Fills, room_in};
ghost use Rattle.channel_calls.specs.Taking.{IsNext, WaitsForNext};
ghost use Rattle.channel_calls.specs.Turns.{nothing_kept};
ghost use Rattle.channel_calls.specs.Walks.{WalkedTo};
ghost use Rattle.channel_calls.specs.declared.ask.ChannelAsk.TheVariants as ask;
ghost use Rattle.channel_calls.specs.declared.blocked.Blocked.TheVariants as blocking;
ghost use Rattle.channel_calls.specs.declared.reply.Reply.TheVariants as reply;
ghost use Rattle.futures.specs.declared.task.Poll.TheVariants as poll;
ghost use Rattle.async_channel.specs.Saw.{SeenOn};
ghost use Rattle.async_channel.specs.Several.{ReceivesMany};

use crate::calls::{self, blocking};
use crate::seen::Trace;
use crate::traced::Traced;
use channel_calls::error::{RecvError, Refused, TryRecvError};
use channel_calls::kind::OfReceivers;
use event_listener::error::ListenError;
use std::sync::Wait;

impl<'a, T: Drop, R: Wait + Copy> Traced<'a, T, R, OfReceivers> {
    /// Removes the oldest message.
    #[inline(always)]
    pub fn try_recv<S: Trace<T>>(&self, trace: S) -> (Result<T, TryRecvError>, S)
        ensures walked { SeenOn S.did S.shown S.entered self.now (λ saw. WalkedTo saw (first ask.TryRecv)) trace (reply.TryRecv (result.0)) (result.1) }
    {
        calls::try_recv(self.rt, self.cells(trace))
    }

    /// Removes the oldest messages, at most `limit`, in order.
    #[inline(always)]
    pub fn recv_many<S: Trace<T>>(
        &self,
        limit: usize,
        trace: S,
    ) -> (Result<Vec<T>, Refused<TryRecvError>>, S)
        ensures walked { SeenOn S.did S.shown S.entered self.now (λ saw. ReceivesMany saw limit) trace (result.0) (result.1) }
        ensures most { IfOk (result.0) (λ messages. length messages.items ≤ limit) }
        ensures none { IfOk (result.0) (λ messages. messages.items ≡ [] → limit ≡ 0) }
        ensures wanted { OnErr (result.0) (0 < limit) }
        ensures reason { result.0 ≡ Err (Refused.SerialsUsedUp tt) → ⊥ }
    {
        let alloc = self.shared.alloc;
        calls::recv_many(self.rt, limit, alloc, self.cells(trace))
    }

    /// Moves the oldest messages into the room that is there, behind what is in it, in order.
    #[inline(always)]
    pub fn recv_many_into<S: Trace<T>>(
        &self,
        into: &mut Vec<T>,
        trace: S,
    ) -> (Result<usize, TryRecvError>, S)
        ensures walked { SeenOn S.did S.shown S.entered self.now (λ saw begin r end. Fills saw (room_in into.old) into.old.items begin r into.new.items end) trace (result.0) (result.1) }
        ensures most { IfOk (result.0) (λ n. n ≤ room_in into.old) }
        ensures none { IfOk (result.0) (λ n. n ≡ 0 → room_in into.old ≡ 0) }
        ensures wanted { IfErr (result.0) (λ _. 0 < room_in into.old) }
        ensures room { vec_capacity into.new ≡ vec_capacity into.old }
        ensures in_place { vec_ptr into.new ≡ vec_ptr into.old }
    {
        calls::recv_many_into(self.rt, into, self.cells(trace))
    }

    /// Removes the oldest message, and blocks the thread while there is none.
    #[inline(always)]
    pub fn recv_blocking<S: Trace<T>>(&self, trace: S) -> (Result<T, Refused<RecvError>>, S)
        ensures walked { SeenOn S.did S.shown S.entered self.now (λ saw begin r end. Blocks saw S.parked S.slept blocking.Receive begin r nothing_kept end) trace (reply.RecvPoll (poll.Ready (result.0))) (result.1) }
    {
        blocking::recv_blocking(self.rt, self.cells_and_bed(trace))
    }

    /// Whether this receiver as a stream has ended.
    #[inline(always)]
    pub fn is_terminated<S: Trace<T>>(&self, trace: S) -> (bool, S)
        ensures walked { SeenOn S.did S.shown S.entered self.now (λ saw. WalkedTo saw (first ask.IsTerminated)) trace (reply.Flag (result.0)) (result.1) }
    {
        self.shared.is_terminated(trace)
    }
}

// Walks.
impl<'a, T: Drop, R: Wait + Copy> Traced<'a, T, R, OfReceivers> {
    /// The next message of a walk that waits for it. The caller keeps whether the walk has ended.
    #[inline(always)]
    pub fn next_blocking<S: Trace<T>>(
        &self,
        ended: &mut bool,
        trace: S,
    ) -> (Option<Result<T, ListenError>>, S)
        ensures walked { SeenOn S.did S.shown S.entered self.now (λ saw. WaitsForNext saw S.parked S.slept ended.old) trace (result.0) (result.1) }
        ensures end { IsNext ended.old (result.0) ended.new }
    {
        blocking::next_blocking(self.rt, ended, self.cells_and_bed(trace))
    }
}
