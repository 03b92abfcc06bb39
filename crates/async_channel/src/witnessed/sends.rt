//! The calls of a sender that send, with a witness.

ghost use Rattle.std.specs.Prelude.{◌≡◌, [], Some, IfErr};
ghost use Rattle.channel_calls.specs.Replies.{RefusesTrySend, RefusesForceSend};
ghost use Rattle.channel_calls.specs.declared.ask.ChannelAsk.TheVariants as ask;
ghost use Rattle.channel_calls.specs.declared.reply.Reply.TheVariants as reply;
ghost use Rattle.channel_cells.specs.Calls.{HasCalled};
ghost use Rattle.channel_cells.specs.Channel.{seat_table, standing_of};
ghost use Rattle.channel_history.specs.CallEnds.{Rests};
ghost use Rattle.concurrent_queue.specs.Replies.{is_bounded};
ghost use Rattle.async_channel.specs.Called.{HasSent};
ghost use Rattle.async_channel.specs.Handles.{Unsent};

use crate::with_bound::Witness;
use crate::witnessed::Witnessed;
use channel_calls::error::{Refused, SendError, TrySendError};
use channel_calls::kind::OfSenders;
use event_listener::waking::WakeNow;
use std::sync::Wait;

impl<'a, T: Drop, R: Wait + Copy> Witnessed<'a, T, R, OfSenders> {
    /// Sends the message if there is a place for it.
    #[inline(always)]
    pub fn try_send(
        &self,
        witness: Witness<T>,
        message: T,
    ) -> (Result<(), Refused<TrySendError<T>, T>>, Witness<T>)
        requires here { self.now.table ≡ Some (seat_table witness) }
        requires rests { Rests [] [] (standing_of witness) }
        ensures called { HasCalled (seat_table witness) (standing_of witness) (ask.TrySend message) (reply.TrySend result.0) result.1 }
        ensures rests { Rests [] [] (standing_of result.1) }
        ensures refused { IfErr result.0 (λ e. RefusesTrySend (is_bounded self.now.form) message e) }
    {
        let sink = &mut WakeNow { rt: self.rt };
        self.channel.table.try_send(self.rt, witness, message, sink)
    }

    /// Sends the message; if the channel is full, removes and returns its oldest message.
    #[inline(always)]
    pub fn force_send(
        &self,
        witness: Witness<T>,
        message: T,
    ) -> (Result<Option<T>, Refused<SendError<T>, T>>, Witness<T>)
        requires here { self.now.table ≡ Some (seat_table witness) }
        requires rests { Rests [] [] (standing_of witness) }
        ensures called { HasCalled (seat_table witness) (standing_of witness) (ask.ForceSend message) (reply.ForceSend result.0) result.1 }
        ensures rests { Rests [] [] (standing_of result.1) }
        ensures refused { IfErr result.0 (λ e. RefusesForceSend (is_bounded self.now.form) message e) }
    {
        let sink = &mut WakeNow { rt: self.rt };
        self.channel
            .table
            .force_send(self.rt, witness, message, sink)
    }

    /// Sends the message, and blocks the thread while there is no place for it. It makes several calls, of which the last
    /// one answers.
    #[inline(always)]
    pub fn send_blocking(
        &self,
        witness: Witness<T>,
        message: T,
    ) -> (Result<(), Refused<SendError<T>, T>>, Witness<T>)
        requires here { self.now.table ≡ Some (seat_table witness) }
        requires rests { Rests [] [] (standing_of witness) }
        ensures called { HasSent (seat_table witness) (standing_of witness) message result.0 result.1 }
        ensures rests { Rests [] [] (standing_of result.1) }
        ensures refused { IfErr result.0 (λ e. Unsent e ≡ message) }
    {
        self.channel.send_blocking(self.rt, witness, message)
    }
}
