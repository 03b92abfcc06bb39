//! Questions that never wait: they are made on words of the table alone, without the runtime. The party of a seat asks each of them, and
//! the seat is returned with the answer.

ghost use Rattle.std.specs.Prelude.{◌≡◌, []};
ghost use Rattle.concurrent_queue.specs.Replies.{MayCall, room_of};
ghost use Rattle.concurrent_queue.specs.SharedQueue.{IsWordsAlone};
ghost use Rattle.concurrent_queue.specs.Walked.{Walked, standing};
ghost use Rattle.channel_calls.specs.declared.ask.ChannelAsk.TheVariants as ask;
ghost use Rattle.channel_calls.specs.declared.reply.Reply.TheVariants as reply;
ghost use Rattle.channel_history.specs.WholeCalls.{MayAsk};
ghost use Rattle.channel_cells.specs.Calls.{HasBegun, HasCalled};
ghost use Rattle.channel_history.specs.CallEnds.{HasEnded, EndsSo, Rests};
ghost use Rattle.channel_cells.specs.Words.{words_view, words_form, words_table};
ghost use Rattle.channel_cells.specs.Channel.{form_of, id_of, seat_table, standing_of};

use crate::calls::{Answers, Asks};
use crate::cells::steps::counter_of;
use crate::channel::{ChannelTable, Seat};
use crate::machine::OfChannel;
use channel_calls::questions;
use channel_calls::stage::Side;
use channel_calls::words::ChannelWords;
use channel_history::party::Standing;
use concurrent_queue::call::QueueReply;
use concurrent_queue::cells::Cells;
use concurrent_queue::history::cells::HistoryCells;
use concurrent_queue::queue_call::QueueCall;
use std::marker::Brand;
use std::mem;

/// The words of a question under way. They have no drop: a question that has begun is answered, and ended.
pub struct CallWords<'a, T: Drop, W: Drop> {
    pub(crate) queue: HistoryCells<'a, T, Standing<T, W>, OfChannel>,
}

impl<'a, T: Drop, W: Drop> ChannelWords<T, W> for CallWords<'a, T, W> {
    ghost use Rattle.std.specs.Prelude.{◌≡◌};
    ghost use Rattle.channel_history.proofs.Cells.{CellsStand, CellsMay, CellsDid, ready, leads, rests};
    ghost use Rattle.channel_cells.specs.Words.{words_view, words_form, IsSameTable};

    ghost has_form = { λ c f. f ≡ words_form c };

    ghost did = { CellsDid words_form words_view IsSameTable };

    ghost may = { CellsMay words_form words_view };

    ghost stands = { CellsStand words_form words_view };

    ghost ready = { ready words_form words_view };

    ghost leads = { leads words_form words_view IsSameTable };

    ghost rests = { rests words_form words_view };

    // Both steps of the question at once: other threads may step between them, and nothing else of this call does.
    #[inline(always)]
    fn step_words(&mut self, call: &mut QueueCall<T>) -> Option<QueueReply<T>> {
        let whole = mem::replace(call, QueueCall::ended());
        Some(complete_question(whole, &mut self.queue))
    }

    #[inline(always)]
    fn count(&mut self, side: Side) -> usize {
        // One load, true at that moment only: other handles come and go.
        self.queue.seat.count(counter_of(side)) as usize
    }
}

/// Makes the steps of a question to the queue up to its answer: its second step answers at the latest.
#[inline(always)]
fn complete_question<T: Drop, C: Cells<T>>(call: QueueCall<T>, cells: &mut C) -> QueueReply<T>
    requires alone { IsWordsAlone call }
    requires stands { C.stands (standing (C.form_of cells.old) call.state) cells.old }
    ensures walked { Walked C.did (C.form_of cells.old) call cells.old result cells.new }
    ensures answers { MayCall (C.form_of cells.old) call.state result }
{
    let mut call = call;
    if let Some(reply) = call.step(cells) {
        drop(call);
        return reply;
    }
    match call.step(cells) {
        Some(reply) => {
            drop(call);
            reply
        }
        None => unreachable!(),
    }
}

impl<T: Drop, W: Drop> ChannelTable<T, W> {
    /// Begins a question of the party of this seat. It costs one load.
    #[inline(always)]
    fn asks<E: Asks<T, W>, X>(&self, seat: Seat<T, W>, about: &X) -> CallWords<'_, T, W>
        requires same { seat_table seat ≡ id_of self.now }
        requires asks { MayAsk (form_of self.now) (standing_of seat) E.ask }
        ensures begun { HasBegun self.now (standing_of seat) E.ask (words_form result) (words_table result) (words_view result) }
    {
        let mut seat = self.table.go_on(seat);
        // From this step on the history has the question, and the seat can't rest before it is answered.
        seat.turn::<Brand, X>(about);
        CallWords {
            queue: HistoryCells { seat },
        }
    }

    /// How many messages the channel holds at most; there is always a bound. It touches no cell, so it is no call of the history.
    #[inline(always)]
    pub fn capacity(&self) -> Option<usize>
        ensures { result ≡ room_of (form_of self.now) }
    {
        Some(self.capacity)
    }

    /// Whether the channel is closed.
    #[inline(always)]
    pub fn is_closed(&self, seat: Seat<T, W>) -> (bool, Seat<T, W>)
        requires here { seat_table seat ≡ id_of self.now }
        requires rests { Rests [] [] (standing_of seat) }
        ensures called { HasCalled (id_of self.now) (standing_of seat) ask.IsClosed (reply.Flag result.0) result.1 }
        ensures rests { Rests [] [] (standing_of result.1) }
    {
        let mut words = self.asks::<Brand, ()>(seat, &());
        let closed = questions::is_closed(&mut words);
        let seat = words.end::<Brand, bool>(&closed);
        (closed, seat)
    }

    /// Whether the channel holds no message.
    #[inline(always)]
    pub fn is_empty(&self, seat: Seat<T, W>) -> (bool, Seat<T, W>)
        requires here { seat_table seat ≡ id_of self.now }
        requires rests { Rests [] [] (standing_of seat) }
        ensures called { HasCalled (id_of self.now) (standing_of seat) ask.IsEmpty (reply.Flag result.0) result.1 }
        ensures rests { Rests [] [] (standing_of result.1) }
    {
        let mut words = self.asks::<Brand, ()>(seat, &());
        let empty = questions::is_empty(&mut words);
        let seat = words.end::<Brand, bool>(&empty);
        (empty, seat)
    }

    /// Whether the channel holds as many messages as its capacity.
    #[inline(always)]
    pub fn is_full(&self, seat: Seat<T, W>) -> (bool, Seat<T, W>)
        requires here { seat_table seat ≡ id_of self.now }
        requires rests { Rests [] [] (standing_of seat) }
        ensures called { HasCalled (id_of self.now) (standing_of seat) ask.IsFull (reply.Flag result.0) result.1 }
        ensures rests { Rests [] [] (standing_of result.1) }
    {
        let mut words = self.asks::<Brand, ()>(seat, &());
        let full = questions::is_full(&mut words);
        let seat = words.end::<Brand, bool>(&full);
        (full, seat)
    }

    /// Whether no message will come any more: whether the channel is closed, and then whether it is empty.
    #[inline(always)]
    pub fn is_terminated(&self, seat: Seat<T, W>) -> (bool, Seat<T, W>)
        requires here { seat_table seat ≡ id_of self.now }
        requires rests { Rests [] [] (standing_of seat) }
        ensures called { HasCalled (id_of self.now) (standing_of seat) ask.IsTerminated (reply.Flag result.0) result.1 }
        ensures rests { Rests [] [] (standing_of result.1) }
    {
        let mut words = self.asks::<Brand, ()>(seat, &());
        let terminated = questions::is_terminated(&mut words);
        let seat = words.end::<Brand, bool>(&terminated);
        (terminated, seat)
    }

    /// How many strong handles of this kind live.
    #[inline(always)]
    pub fn handle_count(&self, seat: Seat<T, W>, side: Side) -> (usize, Seat<T, W>)
        requires here { seat_table seat ≡ id_of self.now }
        requires rests { Rests [] [] (standing_of seat) }
        ensures called { HasCalled (id_of self.now) (standing_of seat) (ask.HandleCount side) (reply.Count result.0) result.1 }
        ensures rests { Rests [] [] (standing_of result.1) }
    {
        let mut words = self.asks::<Brand, Side>(seat, &side);
        let count = questions::handle_count(side, &mut words);
        let seat = words.end::<Brand, usize>(&count);
        (count, seat)
    }
}

impl<'a, T: Drop, W: Drop> CallWords<'a, T, W> {
    /// Ends a question that is answered. It costs one load.
    #[inline(always)]
    fn end<E: Answers<T>, X>(self, about: &X) -> Seat<T, W>
        requires ended { HasEnded (words_form self) E.gave (words_view self) }
        ensures ended { EndsSo (words_form self.entry) E.gave (words_view self.entry) (standing_of result) }
        ensures table { seat_table result ≡ words_table self.entry }
    {
        let CallWords {
            queue: HistoryCells { seat },
        } = self;
        let mut seat = seat;
        // From this step on the history has the answer.
        seat.turn_by::<Brand, X, ()>(about, &());
        seat.rest()
    }
}
