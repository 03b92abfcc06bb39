//! The fast path of polls that have no listener and find what they want, a place or a message. It makes the machine's operations in
//! straight code, which saves storing the stage and choosing the next step by it. `step` has the reason for each operation.

ghost use Rattle.std.specs.Prelude.{◌≡◌, true, false, None, Some, Option, MatchResult};
ghost use Rattle.concurrent_queue.specs.declared.cells.QueueForm.{QueueForm};
ghost use Rattle.concurrent_queue.specs.declared.queue_call.QueueCall.{QueueCall};
ghost use Rattle.channel_calls.specs.Asks.{first, kept_by, lent};
ghost use Rattle.channel_calls.specs.Deeds.{Done};
ghost use Rattle.channel_calls.specs.Marks.{is_up};
ghost use Rattle.channel_calls.specs.Replies.{FollowsTurn, MayEnd, ReplyAllowed};
ghost use Rattle.channel_calls.specs.Stands.{BeginsHere};
ghost use Rattle.channel_calls.specs.Walks.{Takes, WalkedFrom, WalkedOver};
ghost use Rattle.channel_calls.specs.declared.ask.ChannelAsk.TheVariants as ask;
ghost use Rattle.channel_calls.specs.declared.reply.Reply.{Reply};
ghost use Rattle.channel_calls.specs.declared.stage.Stage.{Stage};

use crate::answered::{receive_next, send_next, stream_next};
use crate::ask::{ChannelAsk, Loan};
use crate::call::{ChannelCall, kept_by};
use crate::cells::ChannelCells;
use crate::fast_path::{popped, pushed};
use crate::mark::Mark;
use crate::reply::Reply;
use crate::stage::{NextStep, Purpose, Returned, Stage, Telling, WaitList};
use crate::step::{Stepped, takes};
use crate::whole::{Completed, complete, make};
use concurrent_queue::queue_call::QueueCall;
use event_listener::wakes::Wakes;
use futures::task::Poll;
use std::sync::Wait;

/// What a poll has come to after a step of the queue: it is over, or the call has to be stepped on.
#[inline(always)]
fn over<T: Drop, W: Drop>(
    turn: NextStep<T, W>,
    mark: Mark,
) -> Result<Completed<T>, ChannelCall<T, W>>
    requires unraised { is_up mark ≡ false }
    ensures goes { MatchResult result (λ over. (s : Stage (QueueCall T) T W) × Takes turn s (Some over.reply) × (over.kept ≡ kept_by s) × ((b : QueueForm) → FollowsTurn b turn s (Some over.reply)))
        (λ call. Takes turn call.stage None × ((b : QueueForm) → FollowsTurn b turn call.stage None)) }
{
    let Stepped { stage, mark, reply } = takes(turn, mark);
    match reply {
        Some(reply) => {
            let kept = kept_by(stage);
            Ok(Completed { reply, kept })
        }
        None => Err(ChannelCall { stage, mark }),
    }
}

/// The steps of a poll of a send, or the call that has to be stepped on.
#[inline(always)]
fn send_fast<T: Drop, W: Drop, C: ChannelCells<T, W>, S: Wakes<W>>(
    message: T,
    task: W,
    cells: &mut C,
    sink: &mut S,
) -> Result<Completed<T>, ChannelCall<T, W>>
    requires stands { BeginsHere C.stands (first (ask.PollSend message (lent None) task)) cells.old }
    ensures deeds { WalkedOver (Done C.did S.wakes) (first (ask.PollSend message (lent None) task)) (cells.old, sink.old) result (cells.new, sink.new) }
    ensures answers { (f : QueueForm) → C.has_form cells.old f → MatchResult result (λ over. ReplyAllowed f (ask.PollSend message (lent None) task) over.reply over.kept.message)
        (λ call. (r : Reply T) (m : Option T) → MayEnd f call.stage r m → ReplyAllowed f (ask.PollSend message (lent None) task) r m) }
    ensures form { (f : QueueForm) → C.has_form cells.old f → C.has_form cells.new f }
{
    let mut call = QueueCall::push(message);
    // The queue first: whether anybody is notified, or the poll listens, follows from its answer.
    let answer = cells.step_queue(&mut call);
    let mark = Mark::of_queue(call.last_mark());
    match answer {
        None => Err(ChannelCall {
            stage: Stage::Trying(call, Purpose::Poll(WaitList::Sends, None, task)),
            mark,
        }),
        Some(answer) => {
            drop(call);
            match pushed(answer) {
                Ok(()) => {
                    drop(task);
                    // The message is in, so notify: one more receive, then all streams.
                    cells.tell(WaitList::Receives, Telling::One, sink);
                    cells.tell(WaitList::Streams, Telling::All, sink);
                    Ok(Completed {
                        reply: Reply::SendPoll(Poll::Ready(Ok(()))),
                        kept: Returned {
                            key: None,
                            message: None,
                        },
                    })
                }
                Err(answer) => over(send_next(answer, None, task), mark),
            }
        }
    }
}

/// The steps of a poll of a receive, or the call that has to be stepped on.
#[inline(always)]
fn receive_fast<T: Drop, W: Drop, C: ChannelCells<T, W>, S: Wakes<W>>(
    task: W,
    cells: &mut C,
    sink: &mut S,
) -> Result<Completed<T>, ChannelCall<T, W>>
    requires stands { BeginsHere C.stands (first (ask.PollRecv (lent None) task)) cells.old }
    ensures deeds { WalkedOver (Done C.did S.wakes) (first (ask.PollRecv (lent None) task)) (cells.old, sink.old) result (cells.new, sink.new) }
    ensures answers { (f : QueueForm) → C.has_form cells.old f → MatchResult result (λ over. ReplyAllowed f (ask.PollRecv (lent None) task) over.reply over.kept.message)
        (λ call. (r : Reply T) (m : Option T) → MayEnd f call.stage r m → ReplyAllowed f (ask.PollRecv (lent None) task) r m) }
    ensures form { (f : QueueForm) → C.has_form cells.old f → C.has_form cells.new f }
{
    let mut call = QueueCall::pop();
    // The queue first: whether anybody is notified, or the poll listens, follows from its answer.
    let answer = cells.step_queue(&mut call);
    let mark = Mark::of_queue(call.last_mark());
    match answer {
        None => Err(ChannelCall {
            stage: Stage::Trying(call, Purpose::Poll(WaitList::Receives, None, task)),
            mark,
        }),
        Some(answer) => {
            drop(call);
            match popped(answer) {
                Ok(message) => {
                    drop(task);
                    // The place is free, so notify one more send.
                    cells.tell(WaitList::Sends, Telling::One, sink);
                    Ok(Completed {
                        reply: Reply::RecvPoll(Poll::Ready(Ok(message))),
                        kept: Returned {
                            key: None,
                            message: None,
                        },
                    })
                }
                Err(answer) => over(receive_next(answer, None, task), mark),
            }
        }
    }
}

/// The steps of a poll of a stream, or the call that has to be stepped on.
#[inline(always)]
fn stream_fast<T: Drop, W: Drop, C: ChannelCells<T, W>, S: Wakes<W>>(
    task: W,
    cells: &mut C,
    sink: &mut S,
) -> Result<Completed<T>, ChannelCall<T, W>>
    requires stands { BeginsHere C.stands (first (ask.PollNext None task)) cells.old }
    ensures deeds { WalkedOver (Done C.did S.wakes) (first (ask.PollNext None task)) (cells.old, sink.old) result (cells.new, sink.new) }
    ensures answers { (f : QueueForm) → C.has_form cells.old f → MatchResult result (λ over. ReplyAllowed f (ask.PollNext None task) over.reply over.kept.message)
        (λ call. (r : Reply T) (m : Option T) → MayEnd f call.stage r m → ReplyAllowed f (ask.PollNext None task) r m) }
    ensures form { (f : QueueForm) → C.has_form cells.old f → C.has_form cells.new f }
{
    let mut call = QueueCall::pop();
    // The queue first: whether anybody is notified, or the poll listens, follows from its answer.
    let answer = cells.step_queue(&mut call);
    let mark = Mark::of_queue(call.last_mark());
    match answer {
        None => Err(ChannelCall {
            stage: Stage::Trying(call, Purpose::Poll(WaitList::Streams, None, task)),
            mark,
        }),
        Some(answer) => {
            drop(call);
            match popped(answer) {
                Ok(message) => {
                    drop(task);
                    // The place is free, so notify one more send.
                    cells.tell(WaitList::Sends, Telling::One, sink);
                    Ok(Completed {
                        reply: Reply::Next(Poll::Ready(Some(Ok(message)))),
                        kept: Returned {
                            key: None,
                            message: None,
                        },
                    })
                }
                Err(answer) => over(stream_next(answer, None, task), mark),
            }
        }
    }
}

/// A poll of a send without a listener, up to its answer.
#[inline(always)]
fn sent<T: Drop, W: Drop, R: Wait, C: ChannelCells<T, W>, S: Wakes<W>>(
    rt: &R,
    message: T,
    task: W,
    cells: &mut C,
    sink: &mut S,
) -> Completed<T>
    requires stands { BeginsHere C.stands (first (ask.PollSend message (lent None) task)) cells.old }
    ensures deeds { WalkedFrom (Done C.did S.wakes) (first (ask.PollSend message (lent None) task)) (cells.old, sink.old) result.reply result.kept (cells.new, sink.new) }
    ensures answers { (f : QueueForm) → C.has_form cells.old f → ReplyAllowed f (ask.PollSend message (lent None) task) result.reply result.kept.message }
    ensures form { (f : QueueForm) → C.has_form cells.old f → C.has_form cells.new f }
{
    match send_fast(message, task, cells, sink) {
        Ok(over) => over,
        Err(call) => complete(rt, call, cells, sink),
    }
}

/// A poll of a receive without a listener, up to its answer.
#[inline(always)]
fn received<T: Drop, W: Drop, R: Wait, C: ChannelCells<T, W>, S: Wakes<W>>(
    rt: &R,
    task: W,
    cells: &mut C,
    sink: &mut S,
) -> Completed<T>
    requires stands { BeginsHere C.stands (first (ask.PollRecv (lent None) task)) cells.old }
    ensures deeds { WalkedFrom (Done C.did S.wakes) (first (ask.PollRecv (lent None) task)) (cells.old, sink.old) result.reply result.kept (cells.new, sink.new) }
    ensures answers { (f : QueueForm) → C.has_form cells.old f → ReplyAllowed f (ask.PollRecv (lent None) task) result.reply result.kept.message }
    ensures form { (f : QueueForm) → C.has_form cells.old f → C.has_form cells.new f }
{
    match receive_fast(task, cells, sink) {
        Ok(over) => over,
        Err(call) => complete(rt, call, cells, sink),
    }
}

/// A poll of a stream without a listener, up to its answer.
#[inline(always)]
fn streamed<T: Drop, W: Drop, R: Wait, C: ChannelCells<T, W>, S: Wakes<W>>(
    rt: &R,
    task: W,
    cells: &mut C,
    sink: &mut S,
) -> Completed<T>
    requires stands { BeginsHere C.stands (first (ask.PollNext None task)) cells.old }
    ensures deeds { WalkedFrom (Done C.did S.wakes) (first (ask.PollNext None task)) (cells.old, sink.old) result.reply result.kept (cells.new, sink.new) }
    ensures answers { (f : QueueForm) → C.has_form cells.old f → ReplyAllowed f (ask.PollNext None task) result.reply result.kept.message }
    ensures form { (f : QueueForm) → C.has_form cells.old f → C.has_form cells.new f }
{
    match stream_fast(task, cells, sink) {
        Ok(over) => over,
        Err(call) => complete(rt, call, cells, sink),
    }
}

/// Whether a poll has no listener, and so has none to ask first.
#[inline(always)]
fn has_no_listener(loan: Loan) -> bool
    ensures none { result ≡ true → loan ≡ lent None }
{
    let Loan { key, asks_first } = loan;
    match key {
        None => !asks_first,
        Some(_) => false,
    }
}

/// Makes a poll from its first step up to its answer, as [`make`] does.
#[inline(always)]
pub(crate) fn make_poll<T: Drop, W: Drop, R: Wait, C: ChannelCells<T, W>, S: Wakes<W>>(
    rt: &R,
    ask: ChannelAsk<T, W>,
    cells: &mut C,
    sink: &mut S,
) -> Completed<T>
    requires stands { BeginsHere C.stands (first ask) cells.old }
    ensures deeds { WalkedFrom (Done C.did S.wakes) (first ask) (cells.old, sink.old) result.reply result.kept (cells.new, sink.new) }
    ensures answers { (f : QueueForm) → C.has_form cells.old f → ReplyAllowed f ask result.reply result.kept.message }
    ensures form { (f : QueueForm) → C.has_form cells.old f → C.has_form cells.new f }
{
    match ask {
        ChannelAsk::PollSend(message, loan, task) => {
            if has_no_listener(loan) {
                sent(rt, message, task, cells, sink)
            } else {
                make(rt, ChannelAsk::PollSend(message, loan, task), cells, sink)
            }
        }
        ChannelAsk::PollRecv(loan, task) => {
            if has_no_listener(loan) {
                received(rt, task, cells, sink)
            } else {
                make(rt, ChannelAsk::PollRecv(loan, task), cells, sink)
            }
        }
        ChannelAsk::PollNext(key, task) => match key {
            None => streamed(rt, task, cells, sink),
            Some(key) => make(rt, ChannelAsk::PollNext(Some(key), task), cells, sink),
        },
        ask => make(rt, ask, cells, sink),
    }
}
