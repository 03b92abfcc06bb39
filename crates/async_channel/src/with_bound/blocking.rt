//! The calls that block their thread, on a channel with a bound. Each tries some times, with a pause in between, since what it waits for
//! mostly comes sooner than a listener could be listed; then it polls with a task of the thread's own, and sleeps between two polls. All
//! are calls of one party.

ghost use Rattle.std.specs.Prelude.{◌≡◌, [], Bool, Ok, Err, IfErr, MatchResult};
ghost use Rattle.channel_calls.specs.Replies.{RefusesTrySend};
ghost use Rattle.channel_calls.specs.Tried.{sent_by, sent_reply, sent_left};
ghost use Rattle.channel_calls.specs.declared.error.Refused.TheVariants.{Plain};
ghost use Rattle.channel_calls.specs.declared.error.TrySendError.TheVariants.{Full};
ghost use Rattle.channel_calls.specs.Errors.{handed_back};
ghost use Rattle.channel_cells.specs.Channel.{id_of, seat_table, standing_of};
ghost use Rattle.channel_history.specs.CallEnds.{Rests};
ghost use Rattle.async_channel.specs.Called.{HasOnlyFound, HasSent, HasReceived, SendsThis, ReceivesOne};

use crate::bed::Bed;
use crate::with_bound::{Bounded, Witness};
use channel_calls::blocking::answered;
use channel_calls::error::{RecvError, Refused, SendError, TryRecvError, TrySendError};
use channel_calls::stage::Returned;
use crossbeam_utils::Backoff;
use event_listener::waking::WakeNow;
use futures::task::Poll;
use std::sync::Wait;

/// What a send that blocks came to, with the seat of its party.
type Sent<T> = (Result<(), Refused<SendError<T>, T>>, Witness<T>);

/// What a receive that blocks came to, with the seat of its party.
type Received<T> = (Result<T, Refused<RecvError>>, Witness<T>);

/// What a try of a send that blocks comes to; `Err` has the message if the channel is full.
#[inline(always)]
fn over<T: Drop>(
    sent: Result<(), Refused<TrySendError<T>, T>>,
) -> Result<Result<(), Refused<SendError<T>, T>>, T>
    ensures over { MatchResult result (λ o. sent_by sent ≡ Ok (record { reply = sent_reply o; kept = sent_left o })) (λ back. sent ≡ Err (Plain (Full back))) }
    ensures back { (b : Bool) (message : T) → IfErr sent (λ e. RefusesTrySend b message e) → MatchResult result (λ o. IfErr o (λ e. handed_back e ≡ message)) (λ back. back ≡ message) }
{
    match sent {
        Ok(()) => Ok(Ok(())),
        Err(Refused::Plain(TrySendError::Full(back))) => Err(back),
        Err(Refused::Plain(TrySendError::Closed(back))) => {
            Ok(Err(Refused::Plain(SendError(back))))
        }
        Err(Refused::NoMemory(back)) => Ok(Err(Refused::NoMemory(back))),
        Err(Refused::SerialsUsedUp(back)) => Ok(Err(Refused::SerialsUsedUp(back))),
    }
}

impl<T: Drop> Bounded<T> {
    /// A try of a send that blocks: it is over, or the message is returned, since the channel is full.
    #[inline(always)]
    fn tries_to_send<R: Wait>(
        &self,
        rt: &R,
        seat: Witness<T>,
        message: T,
    ) -> Result<Sent<T>, (T, Witness<T>)>
        requires here { seat_table seat ≡ id_of self.now.table }
        requires rests { Rests [] [] (standing_of seat) }
        ensures { MatchResult result (λ over. HasSent (id_of self.now.table) (standing_of seat) message over.0 over.1 × Rests [] [] (standing_of over.1) × IfErr over.0 (λ e. handed_back e ≡ message))
            (λ left. (left.0 ≡ message) × (seat_table left.1 ≡ id_of self.now.table) × Rests [] [] (standing_of left.1) × HasOnlyFound (SendsThis message) (standing_of seat) (standing_of left.1)) }
    {
        let (sent, seat) = self.table.try_send(rt, seat, message, &mut WakeNow { rt });
        match over(sent) {
            Ok(over) => Ok((over, seat)),
            Err(back) => Err((back, seat)),
        }
    }

    /// Polls a send until it is over.
    fn waits_to_send<R: Wait>(&self, rt: &R, seat: Witness<T>, message: T) -> Sent<T>
        requires here { seat_table seat ≡ id_of self.now.table }
        requires rests { Rests [] [] (standing_of seat) }
        ensures called { HasSent (id_of self.now.table) (standing_of seat) message result.0 result.1 }
        ensures rests { Rests [] [] (standing_of result.1) }
        ensures message { IfErr result.0 (λ e. handed_back e ≡ message) }
    {
        let mut bed = Bed::new();
        let mut seat = seat;
        let mut key = None;
        let mut message = message;
        for _ in rt.forever() {
            let task = bed.task(self.alloc);
            let sink = &mut WakeNow { rt };
            let (polled, left, next) = self
                .table
                .poll_send(rt, seat, Some(message), key, task, sink);
            let Returned {
                key: listed,
                message: left,
            } = left;
            if let Poll::Ready(answer) = polled {
                return (answered(answer, left), next);
            }
            let Some(back) = left else {
                unreachable!();
            };
            message = back;
            key = listed;
            seat = next;
            // After a pending poll, which registered this bed. The parker stays rung, so a notification since then ends the sleep at once.
            bed.sleep(rt);
        }
        unreachable!()
    }

    /// Sends the message, and blocks the thread while there is no place for it.
    pub(crate) fn send_blocking<R: Wait>(&self, rt: &R, seat: Witness<T>, message: T) -> Sent<T>
        requires here { seat_table seat ≡ id_of self.now.table }
        requires rests { Rests [] [] (standing_of seat) }
        ensures called { HasSent (id_of self.now.table) (standing_of seat) message result.0 result.1 }
        ensures rests { Rests [] [] (standing_of result.1) }
        ensures message { IfErr result.0 (λ e. handed_back e ≡ message) }
    {
        let mut message = message;
        let mut seat = seat;
        let backoff = Backoff::new();
        for _ in rt.forever() {
            match self.tries_to_send(rt, seat, message) {
                Ok(over) => return over,
                Err((back, next)) => {
                    message = back;
                    seat = next;
                }
            }
            backoff.snooze();
            if backoff.is_completed() {
                return self.waits_to_send(rt, seat, message);
            }
        }
        unreachable!()
    }

    /// A try of a receive that blocks: it is over, or there is no message yet.
    #[inline(always)]
    fn tries_to_receive<R: Wait>(&self, rt: &R, seat: Witness<T>) -> Result<Received<T>, Witness<T>>
        requires here { seat_table seat ≡ id_of self.now.table }
        requires rests { Rests [] [] (standing_of seat) }
        ensures { MatchResult result (λ over. HasReceived (id_of self.now.table) (standing_of seat) over.0 over.1 × Rests [] [] (standing_of over.1))
            (λ left. (seat_table left ≡ id_of self.now.table) × Rests [] [] (standing_of left) × HasOnlyFound ReceivesOne (standing_of seat) (standing_of left)) }
    {
        let (received, seat) = self.table.try_recv(rt, seat, &mut WakeNow { rt });
        match received {
            Ok(message) => Ok((Ok(message), seat)),
            Err(TryRecvError::Empty) => Err(seat),
            Err(TryRecvError::Closed) => Ok((Err(Refused::Plain(RecvError)), seat)),
        }
    }

    /// Polls a receive until it is over.
    fn waits_to_receive<R: Wait>(&self, rt: &R, seat: Witness<T>) -> Received<T>
        requires here { seat_table seat ≡ id_of self.now.table }
        requires rests { Rests [] [] (standing_of seat) }
        ensures called { HasReceived (id_of self.now.table) (standing_of seat) result.0 result.1 }
        ensures rests { Rests [] [] (standing_of result.1) }
    {
        let mut bed = Bed::new();
        let mut seat = seat;
        let mut key = None;
        for _ in rt.forever() {
            let task = bed.task(self.alloc);
            let (polled, left, next) = self
                .table
                .poll_recv(rt, seat, key, task, &mut WakeNow { rt });
            if let Poll::Ready(answer) = polled {
                return (answer, next);
            }
            key = left.key;
            seat = next;
            // After a pending poll, as for a send.
            bed.sleep(rt);
        }
        unreachable!()
    }

    /// Removes the oldest message, and blocks the thread while there is none.
    pub(crate) fn recv_blocking<R: Wait>(&self, rt: &R, seat: Witness<T>) -> Received<T>
        requires here { seat_table seat ≡ id_of self.now.table }
        requires rests { Rests [] [] (standing_of seat) }
        ensures called { HasReceived (id_of self.now.table) (standing_of seat) result.0 result.1 }
        ensures rests { Rests [] [] (standing_of result.1) }
    {
        let mut seat = seat;
        let backoff = Backoff::new();
        for _ in rt.forever() {
            match self.tries_to_receive(rt, seat) {
                Ok(over) => return over,
                Err(next) => seat = next,
            }
            backoff.snooze();
            if backoff.is_completed() {
                return self.waits_to_receive(rt, seat);
            }
        }
        unreachable!()
    }
}
