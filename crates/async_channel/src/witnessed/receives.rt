//! The calls of a receiver that receive, with a witness.

ghost use Rattle.std.specs.Prelude.{◌≡◌, ◌≤◌, ◌<◌, [], Some, length, Err, IfOk, IfErr, OnErr};
ghost use Rattle.std.specs.Vec.{vec_capacity, vec_ptr};
ghost use Rattle.channel_calls.specs.Filling.{room_in, StandsBehind};
ghost use Rattle.channel_calls.specs.declared.ask.ChannelAsk.TheVariants as ask;
ghost use Rattle.channel_calls.specs.declared.reply.Reply.TheVariants as reply;
ghost use Rattle.channel_cells.specs.Calls.{HasCalled, many_reply, filled_reply};
ghost use Rattle.channel_cells.specs.Channel.{seat_table, standing_of, view_in};
ghost use Rattle.channel_cells.specs.Over.{WasToldTheEnd};
ghost use Rattle.channel_history.specs.CallEnds.{Rests};
ghost use Rattle.async_channel.specs.Called.{HasReceived};
ghost use Rattle.async_channel.specs.Witness.{IsOver};

use crate::with_bound::Witness;
use crate::witnessed::Witnessed;
use channel_calls::error::{RecvError, Refused, TryRecvError};
use channel_calls::kind::OfReceivers;
use event_listener::waking::WakeNow;
use std::sync::Wait;

impl<'a, T: Drop, R: Wait + Copy> Witnessed<'a, T, R, OfReceivers> {
    /// Removes the oldest message. If none will come any more it looks: all that was accepted was taken.
    #[inline(always)]
    pub fn try_recv(&self, witness: Witness<T>) -> (Result<T, TryRecvError>, Witness<T>)
        requires here { self.now.table ≡ Some (seat_table witness) }
        requires rests { Rests [] [] (standing_of witness) }
        ensures called { HasCalled (seat_table witness) (standing_of witness) ask.TryRecv (reply.TryRecv result.0) result.1 }
        ensures rests { Rests [] [] (standing_of result.1) }
        ensures over { result.0 ≡ Err TryRecvError.Closed → IsOver result.1 }
    {
        let sink = &mut WakeNow { rt: self.rt };
        let (received, witness) = self.channel.table.try_recv(self.rt, witness, sink);
        match received {
            Ok(message) => (Ok(message), witness),
            Err(TryRecvError::Empty) => (Err(TryRecvError::Empty), witness),
            Err(TryRecvError::Closed) => (Err(TryRecvError::Closed), self.at_end(witness)),
        }
    }

    /// Removes the oldest messages, at most `limit`, in order. It looks at the end as [`try_recv`](Witnessed::try_recv), and so does
    /// [`recv_many_into`](Witnessed::recv_many_into).
    pub fn recv_many(
        &self,
        witness: Witness<T>,
        limit: usize,
    ) -> (Result<Vec<T>, Refused<TryRecvError>>, Witness<T>)
        requires here { self.now.table ≡ Some (seat_table witness) }
        requires rests { Rests [] [] (standing_of witness) }
        ensures called { HasCalled (seat_table witness) (standing_of witness) (ask.RecvMany limit) (many_reply result.0) result.1 }
        ensures rests { Rests [] [] (standing_of result.1) }
        ensures most { IfOk result.0 (λ messages. length messages.items ≤ limit) }
        ensures none { IfOk result.0 (λ messages. messages.items ≡ [] → limit ≡ 0) }
        ensures wanted { OnErr result.0 (0 < limit) }
        ensures reason { result.0 ≡ Err (Refused.SerialsUsedUp tt) → ⊥ }
        ensures over { result.0 ≡ Err (Refused.Plain TryRecvError.Closed) → IsOver result.1 }
    {
        let table = &self.channel.table;
        let alloc = self.channel.alloc;
        let sink = &mut WakeNow { rt: self.rt };
        let (received, witness) = table.recv_many(self.rt, witness, limit, alloc, sink);
        match received {
            Ok(messages) => (Ok(messages), witness),
            Err(Refused::Plain(TryRecvError::Empty)) => {
                (Err(Refused::Plain(TryRecvError::Empty)), witness)
            }
            Err(Refused::Plain(TryRecvError::Closed)) => {
                (
                    Err(Refused::Plain(TryRecvError::Closed)),
                    self.at_end(witness),
                )
            }
            Err(Refused::NoMemory(())) => (Err(Refused::NoMemory(())), witness),
            Err(Refused::SerialsUsedUp(())) => (Err(Refused::SerialsUsedUp(())), witness),
        }
    }

    /// Moves the oldest messages into the room that is there, behind what is in it, in order.
    pub fn recv_many_into(
        &self,
        witness: Witness<T>,
        into: &mut Vec<T>,
    ) -> (Result<usize, TryRecvError>, Witness<T>)
        requires here { self.now.table ≡ Some (seat_table witness) }
        requires rests { Rests [] [] (standing_of witness) }
        ensures called { HasCalled (seat_table witness) (standing_of witness) (ask.RecvMany (room_in into.old)) (filled_reply result.0 into.new.items) result.1 }
        ensures rests { Rests [] [] (standing_of result.1) }
        ensures taken { StandsBehind into.old.items result.0 into.new.items }
        ensures most { IfOk result.0 (λ n. n ≤ room_in into.old) }
        ensures none { IfOk result.0 (λ n. n ≡ 0 → room_in into.old ≡ 0) }
        ensures wanted { IfErr result.0 (λ _. 0 < room_in into.old) }
        ensures room { vec_capacity into.new ≡ vec_capacity into.old }
        ensures in_place { vec_ptr into.new ≡ vec_ptr into.old }
        ensures over { result.0 ≡ Err TryRecvError.Closed → IsOver result.1 }
    {
        let table = &self.channel.table;
        let sink = &mut WakeNow { rt: self.rt };
        let (received, witness) = table.recv_many_into(self.rt, witness, into, sink);
        match received {
            Ok(count) => (Ok(count), witness),
            Err(TryRecvError::Empty) => (Err(TryRecvError::Empty), witness),
            Err(TryRecvError::Closed) => (Err(TryRecvError::Closed), self.at_end(witness)),
        }
    }

    /// Removes the oldest message, and blocks the thread while there is none. It makes several calls, of which the last one answers. If no
    /// message will come any more it looks, as [`try_recv`](Witnessed::try_recv).
    #[inline(always)]
    pub fn recv_blocking(&self, witness: Witness<T>) -> (Result<T, Refused<RecvError>>, Witness<T>)
        requires here { self.now.table ≡ Some (seat_table witness) }
        requires rests { Rests [] [] (standing_of witness) }
        ensures called { HasReceived (seat_table witness) (standing_of witness) result.0 result.1 }
        ensures rests { Rests [] [] (standing_of result.1) }
        ensures over { (e : RecvError) → result.0 ≡ Err (Refused.Plain e) → IsOver result.1 }
    {
        let (received, witness) = self.channel.recv_blocking(self.rt, witness);
        match received {
            Ok(message) => (Ok(message), witness),
            Err(Refused::Plain(error)) => (Err(Refused::Plain(error)), self.at_end(witness)),
            Err(Refused::NoMemory(())) => (Err(Refused::NoMemory(())), witness),
            Err(Refused::SerialsUsedUp(())) => (Err(Refused::SerialsUsedUp(())), witness),
        }
    }
}

impl<'a, T: Drop, R> Witnessed<'a, T, R, OfReceivers> {
    /// A look by a party that was told that no message will come any more.
    fn at_end(&self, witness: Witness<T>) -> Witness<T>
        requires here { self.now.table ≡ Some (seat_table witness) }
        requires end { WasToldTheEnd (standing_of witness) }
        ensures over { IsOver result }
        ensures kept { (view_in result ≡ view_in witness) × (seat_table result ≡ seat_table witness) }
    {
        let mut witness = witness;
        self.channel.table.look_at_end(&mut witness);
        witness
    }

    /// Whether this receiver as a stream has ended.
    #[inline(always)]
    pub fn is_terminated(&self, witness: Witness<T>) -> (bool, Witness<T>)
        requires here { self.now.table ≡ Some (seat_table witness) }
        requires rests { Rests [] [] (standing_of witness) }
        ensures called { HasCalled (seat_table witness) (standing_of witness) ask.IsTerminated (reply.Flag result.0) result.1 }
        ensures rests { Rests [] [] (standing_of result.1) }
    {
        self.channel.table.is_terminated(witness)
    }
}
