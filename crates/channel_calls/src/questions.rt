//! The questions of a channel that never wait, each made up to its answer over words of any kind.
//!
//! Whatever the words hold, each does what the machine of its call does from its first step to this answer (clauses `deeds`).

ghost use Rattle.std.specs.Prelude.{◌≡◌, None, false};
ghost use Rattle.concurrent_queue.specs.Replies.{AsksWords, MayAnswer, room_of};
ghost use Rattle.concurrent_queue.specs.declared.cells.QueueForm.{QueueForm};
ghost use Rattle.channel_calls.specs.Answered.{answered_next};
ghost use Rattle.channel_calls.specs.Asks.{first};
ghost use Rattle.channel_calls.specs.Stands.{BeginsHere};
ghost use Rattle.channel_calls.specs.Tried.{Comes};
ghost use Rattle.channel_calls.specs.Walks.{WalkedTo};
ghost use Rattle.channel_calls.specs.declared.ask.ChannelAsk.TheVariants as ask;
ghost use Rattle.channel_calls.specs.declared.reply.Reply.TheVariants as reply;
ghost use Rattle.channel_calls.specs.declared.stage.Purpose.{Purpose};
ghost use Rattle.channel_calls.specs.declared.stage.NextStep.TheVariants as turn;

use crate::stage::Side;
use crate::words::ChannelWords;
use concurrent_queue::call::{QueueAsk, QueueReply};
use concurrent_queue::queue_call::QueueCall;

/// What the queue answers to a question, which its second step answers at the latest.
#[inline(always)]
fn asks<T: Drop, W: Drop, C: ChannelWords<T, W>>(
    question: QueueAsk<T>,
    words: &mut C,
) -> QueueReply<T>
    requires words { AsksWords question }
    requires form { (f : QueueForm) × C.has_form words.old f }
    requires stands { (purpose : Purpose T W) × BeginsHere C.stands (turn.Tries question purpose) words.old }
    ensures comes { (purpose : Purpose T W) → Comes C.did (turn.Tries question purpose) words.old (answered_next purpose result) words.new }
    ensures answers { (f : QueueForm) → C.has_form words.old f → MayAnswer f question result }
    ensures form { (f : QueueForm) → C.has_form words.old f → C.has_form words.new f }
{
    let mut call = QueueCall::new(question);
    if let Some(reply) = words.step_words(&mut call) {
        drop(call);
        return reply;
    }
    match words.step_words(&mut call) {
        Some(reply) => {
            drop(call);
            reply
        }
        None => unreachable!(),
    }
}

/// Whether the channel is closed.
pub fn is_closed<T: Drop, W: Drop, C: ChannelWords<T, W>>(words: &mut C) -> bool
    requires form { (f : QueueForm) × C.has_form words.old f }
    requires stands { BeginsHere C.stands (first ask.IsClosed) words.old }
    ensures deeds { WalkedTo C.did (first ask.IsClosed) words.old (reply.Flag result) words.new }
    ensures form { (f : QueueForm) → C.has_form words.old f → C.has_form words.new f }
{
    match asks(QueueAsk::IsClosed, words) {
        QueueReply::Flag(closed) => closed,
        _ => unreachable!(),
    }
}

/// Whether it holds no message.
pub fn is_empty<T: Drop, W: Drop, C: ChannelWords<T, W>>(words: &mut C) -> bool
    requires form { (f : QueueForm) × C.has_form words.old f }
    requires stands { BeginsHere C.stands (first ask.IsEmpty) words.old }
    ensures deeds { WalkedTo C.did (first ask.IsEmpty) words.old (reply.Flag result) words.new }
    ensures form { (f : QueueForm) → C.has_form words.old f → C.has_form words.new f }
{
    match asks(QueueAsk::IsEmpty, words) {
        QueueReply::Flag(empty) => empty,
        _ => unreachable!(),
    }
}

/// Whether it holds as many messages as its capacity; one without a bound never does.
pub fn is_full<T: Drop, W: Drop, C: ChannelWords<T, W>>(words: &mut C) -> bool
    requires form { (f : QueueForm) × C.has_form words.old f }
    requires stands { BeginsHere C.stands (first ask.IsFull) words.old }
    ensures deeds { WalkedTo C.did (first ask.IsFull) words.old (reply.Flag result) words.new }
    ensures bound { (f : QueueForm) → C.has_form words.old f → room_of f ≡ None → result ≡ false }
    ensures form { (f : QueueForm) → C.has_form words.old f → C.has_form words.new f }
{
    match asks(QueueAsk::IsFull, words) {
        QueueReply::Flag(full) => full,
        _ => unreachable!(),
    }
}

/// How many messages it can hold at most, if there is a bound.
pub fn capacity<T: Drop, W: Drop, C: ChannelWords<T, W>>(words: &mut C) -> Option<usize>
    requires form { (f : QueueForm) × C.has_form words.old f }
    requires stands { BeginsHere C.stands (first ask.Capacity) words.old }
    ensures deeds { WalkedTo C.did (first ask.Capacity) words.old (reply.Cap result) words.new }
    ensures room { (f : QueueForm) → C.has_form words.old f → result ≡ room_of f }
    ensures form { (f : QueueForm) → C.has_form words.old f → C.has_form words.new f }
{
    match asks(QueueAsk::Capacity, words) {
        QueueReply::Cap(capacity) => capacity,
        _ => unreachable!(),
    }
}

/// Whether a receiver got its last message: whether the channel is closed, and then whether it is empty.
pub fn is_terminated<T: Drop, W: Drop, C: ChannelWords<T, W>>(words: &mut C) -> bool
    requires form { (f : QueueForm) × C.has_form words.old f }
    requires stands { BeginsHere C.stands (first ask.IsTerminated) words.old }
    ensures deeds { WalkedTo C.did (first ask.IsTerminated) words.old (reply.Flag result) words.new }
    ensures form { (f : QueueForm) → C.has_form words.old f → C.has_form words.new f }
{
    // Closed first: nothing comes in after that, so an empty channel stays empty. In the other order a message could come in between.
    let first = asks(QueueAsk::IsClosed, words);
    match first {
        QueueReply::Flag(true) => {
            let second = asks(QueueAsk::IsEmpty, words);
            match second {
                QueueReply::Flag(empty) => empty,
                _ => unreachable!(),
            }
        }
        QueueReply::Flag(false) => false,
        _ => unreachable!(),
    }
}

/// How many strong handles of this kind live.
pub fn handle_count<T: Drop, W: Drop, C: ChannelWords<T, W>>(side: Side, words: &mut C) -> usize
    requires stands { BeginsHere C.stands (first (ask.HandleCount side)) words.old }
    ensures deeds { WalkedTo C.did (first (ask.HandleCount side)) words.old (reply.Count result) words.new }
    ensures form { (f : QueueForm) → C.has_form words.old f → C.has_form words.new f }
{
    words.count(side)
}
