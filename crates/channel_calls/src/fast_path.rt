//! The fast path of the simple calls: of sends and receives that don't wait, and of the question for the length. It makes the machine's
//! operations in straight code, which saves storing the stage and choosing the next step by it. `step` has the reason for each operation.

ghost use Rattle.std.specs.Prelude.{◌≡◌, false, None, Some, Ok, Option, MatchResult};
ghost use Rattle.concurrent_queue.specs.declared.call.QueueReply.TheVariants as queue;
ghost use Rattle.concurrent_queue.specs.declared.cells.QueueForm.{QueueForm};
ghost use Rattle.concurrent_queue.specs.declared.queue_call.QueueCall.{QueueCall};
ghost use Rattle.channel_calls.specs.Deeds.{Done};
ghost use Rattle.channel_calls.specs.Walks.{Takes, WalkedOn};
ghost use Rattle.channel_calls.specs.Answered.{received_next, sent_next};
ghost use Rattle.channel_calls.specs.Asks.{first};
ghost use Rattle.channel_calls.specs.Marks.{is_up};
ghost use Rattle.channel_calls.specs.Replies.{FollowsTurn, MayEnd, ReplyAllowed};
ghost use Rattle.channel_calls.specs.Stands.{BeginsHere};
ghost use Rattle.channel_calls.specs.Turns.{nothing_kept};
ghost use Rattle.channel_calls.specs.declared.ask.ChannelAsk.TheVariants as ask;
ghost use Rattle.channel_calls.specs.declared.reply.Reply.{Reply};
ghost use Rattle.channel_calls.specs.declared.stage.NextStep.TheVariants.{Ends};
ghost use Rattle.channel_calls.specs.declared.stage.Stage.{Stage};

use crate::answered::{asked_next, forced_next};
use crate::call::ChannelCall;
use crate::cells::ChannelCells;
use crate::error::{Refused, TryRecvError, TrySendError};
use crate::mark::Mark;
use crate::reply::Reply;
use crate::stage::{NextStep, Purpose, Stage, Telling, WaitList};
use crate::step::{Stepped, takes};
use concurrent_queue::call::QueueReply;
use concurrent_queue::error::{PopError, PushError};
use concurrent_queue::queue_call::QueueCall;
use event_listener::wakes::Wakes;

/// Whether a push is in, or what else was answered.
#[inline(always)]
pub(crate) fn pushed<T: Drop>(answer: QueueReply<T>) -> Result<(), QueueReply<T>>
    ensures { MatchResult result (λ _. answer ≡ queue.Push (Ok tt)) (λ other. answer ≡ other) }
{
    match answer {
        QueueReply::Push(Ok(())) => Ok(()),
        other => Err(other),
    }
}

/// What a displacing push that is in took out, or what else was answered.
#[inline(always)]
fn displaced<T: Drop>(answer: QueueReply<T>) -> Result<Option<T>, QueueReply<T>>
    ensures { MatchResult result (λ old. answer ≡ queue.Force (Ok old)) (λ other. answer ≡ other) }
{
    match answer {
        QueueReply::Force(Ok(old)) => Ok(old),
        other => Err(other),
    }
}

/// What a pop took, or what else was answered.
#[inline(always)]
pub(crate) fn popped<T: Drop>(answer: QueueReply<T>) -> Result<T, QueueReply<T>>
    ensures { MatchResult result (λ message. answer ≡ queue.Pop (Ok message)) (λ other. answer ≡ other) }
{
    match answer {
        QueueReply::Pop(Ok(message)) => Ok(message),
        other => Err(other),
    }
}

/// Whether a push is in, or what a send that doesn't wait answers because it isn't. A call that is over needs no stage, and room for one
/// would be cleared in each send.
#[inline(always)]
fn unsent<T: Drop, W: Drop>(answer: QueueReply<T>) -> Result<(), Reply<T>>
    ensures { MatchResult result (λ _. answer ≡ queue.Push (Ok tt)) (λ reply. sent_next {W = W} answer ≡ Ends reply nothing_kept) }
{
    match answer {
        QueueReply::Push(Ok(())) => Ok(()),
        QueueReply::Push(Err(PushError::Full(message))) => {
            let error = Refused::Plain(TrySendError::Full(message));
            Err(Reply::TrySend(Err(error)))
        }
        QueueReply::Push(Err(PushError::Closed(message))) => {
            let error = Refused::Plain(TrySendError::Closed(message));
            Err(Reply::TrySend(Err(error)))
        }
        QueueReply::Push(Err(PushError::NoMemory(message))) => {
            Err(Reply::TrySend(Err(Refused::NoMemory(message))))
        }
        other => {
            drop(other);
            Err(Reply::Unit)
        }
    }
}

/// What a pop took, or what a receive that doesn't wait answers because it took nothing, likewise.
#[inline(always)]
fn missed<T: Drop, W: Drop>(answer: QueueReply<T>) -> Result<T, Reply<T>>
    ensures { MatchResult result (λ message. answer ≡ queue.Pop (Ok message)) (λ reply. received_next {W = W} answer ≡ Ends reply nothing_kept) }
{
    match answer {
        QueueReply::Pop(Ok(message)) => Ok(message),
        QueueReply::Pop(Err(PopError::Empty)) => Err(Reply::TryRecv(Err(TryRecvError::Empty))),
        QueueReply::Pop(Err(PopError::Closed)) => Err(Reply::TryRecv(Err(TryRecvError::Closed))),
        other => {
            drop(other);
            Err(Reply::Unit)
        }
    }
}

/// What a call has come to after a step of the queue: its answer, or the call, which has to be stepped on.
#[inline(always)]
pub(crate) fn turned<T: Drop, W: Drop>(
    turn: NextStep<T, W>,
    mark: Mark,
) -> Result<Reply<T>, ChannelCall<T, W>>
    requires unraised { is_up mark ≡ false }
    ensures goes { MatchResult result (λ r. (s : Stage (QueueCall T) T W) × Takes turn s (Some r) × ((b : QueueForm) → FollowsTurn b turn s (Some r)))
        (λ call. Takes turn call.stage None × ((b : QueueForm) → FollowsTurn b turn call.stage None)) }
{
    let Stepped { stage, mark, reply } = takes(turn, mark);
    match reply {
        Some(reply) => {
            drop(stage);
            Ok(reply)
        }
        None => Err(ChannelCall { stage, mark }),
    }
}

/// Makes the steps of a send that doesn't wait; or returns the call, which has to be stepped on, if the cells make one step of the queue's
/// call at a time.
#[inline(always)]
pub fn send_fast<T: Drop, W: Drop, C: ChannelCells<T, W>, S: Wakes<W>>(
    message: T,
    cells: &mut C,
    sink: &mut S,
) -> Result<Reply<T>, ChannelCall<T, W>>
    requires stands { BeginsHere C.stands (first (ask.TrySend message)) cells.old }
    ensures deeds { WalkedOn (Done C.did S.wakes) (first (ask.TrySend message)) (cells.old, sink.old) result (cells.new, sink.new) }
    ensures answers { (f : QueueForm) → C.has_form cells.old f → MatchResult result (λ r. ReplyAllowed {W = W} f (ask.TrySend message) r None)
        (λ call. (r : Reply T) (m : Option T) → MayEnd f call.stage r m → ReplyAllowed {W = W} f (ask.TrySend message) r m) }
    ensures form { (f : QueueForm) → C.has_form cells.old f → C.has_form cells.new f }
{
    let mut call = QueueCall::push(message);
    // The queue first: whether anybody is notified follows from its answer.
    let answer = cells.step_queue(&mut call);
    let mark = Mark::of_queue(call.last_mark());
    match answer {
        None => Err(ChannelCall {
            stage: Stage::Trying(call, Purpose::TrySend),
            mark,
        }),
        Some(answer) => {
            drop(call);
            match unsent::<T, W>(answer) {
                Ok(()) => {
                    // The message is in, so notify: one more receive, then all streams, as the machine does.
                    cells.tell(WaitList::Receives, Telling::One, sink);
                    cells.tell(WaitList::Streams, Telling::All, sink);
                    Ok(Reply::TrySend(Ok(())))
                }
                Err(reply) => Ok(reply),
            }
        }
    }
}

/// The same for a send that displaces.
#[inline(always)]
pub fn displace_fast<T: Drop, W: Drop, C: ChannelCells<T, W>, S: Wakes<W>>(
    message: T,
    cells: &mut C,
    sink: &mut S,
) -> Result<Reply<T>, ChannelCall<T, W>>
    requires stands { BeginsHere C.stands (first (ask.ForceSend message)) cells.old }
    ensures deeds { WalkedOn (Done C.did S.wakes) (first (ask.ForceSend message)) (cells.old, sink.old) result (cells.new, sink.new) }
    ensures answers { (f : QueueForm) → C.has_form cells.old f → MatchResult result (λ r. ReplyAllowed {W = W} f (ask.ForceSend message) r None)
        (λ call. (r : Reply T) (m : Option T) → MayEnd f call.stage r m → ReplyAllowed {W = W} f (ask.ForceSend message) r m) }
    ensures form { (f : QueueForm) → C.has_form cells.old f → C.has_form cells.new f }
{
    let mut call = QueueCall::force_push(message);
    // The queue first: whether anybody is notified follows from its answer.
    let answer = cells.step_queue(&mut call);
    let mark = Mark::of_queue(call.last_mark());
    match answer {
        None => Err(ChannelCall {
            stage: Stage::Trying(call, Purpose::ForceSend),
            mark,
        }),
        Some(answer) => {
            drop(call);
            match displaced(answer) {
                Ok(old) => {
                    // As in `send_fast`. No send is notified: a displaced message frees no place.
                    cells.tell(WaitList::Receives, Telling::One, sink);
                    cells.tell(WaitList::Streams, Telling::All, sink);
                    Ok(Reply::ForceSend(Ok(old)))
                }
                Err(answer) => turned(forced_next(answer), mark),
            }
        }
    }
}

/// The same for a receive that doesn't wait.
#[inline(always)]
pub fn receive_fast<T: Drop, W: Drop, C: ChannelCells<T, W>, S: Wakes<W>>(
    cells: &mut C,
    sink: &mut S,
) -> Result<Reply<T>, ChannelCall<T, W>>
    requires stands { BeginsHere C.stands (first ask.TryRecv) cells.old }
    ensures deeds { WalkedOn (Done C.did S.wakes) (first ask.TryRecv) (cells.old, sink.old) result (cells.new, sink.new) }
    ensures answers { (f : QueueForm) → C.has_form cells.old f → MatchResult result (λ r. ReplyAllowed {W = W} f ask.TryRecv r None)
        (λ call. (r : Reply T) (m : Option T) → MayEnd f call.stage r m → ReplyAllowed {W = W} f ask.TryRecv r m) }
    ensures form { (f : QueueForm) → C.has_form cells.old f → C.has_form cells.new f }
{
    let mut call = QueueCall::pop();
    // The queue first: whether anybody is notified follows from its answer.
    let answer = cells.step_queue(&mut call);
    let mark = Mark::of_queue(call.last_mark());
    match answer {
        None => Err(ChannelCall {
            stage: Stage::Trying(call, Purpose::TryRecv),
            mark,
        }),
        Some(answer) => {
            drop(call);
            match missed::<T, W>(answer) {
                Ok(message) => {
                    // The place is free, so notify one more send.
                    cells.tell(WaitList::Sends, Telling::One, sink);
                    Ok(Reply::TryRecv(Ok(message)))
                }
                Err(reply) => Ok(reply),
            }
        }
    }
}

/// The same for the question for the length.
#[inline(always)]
pub fn length_fast<T: Drop, W: Drop, C: ChannelCells<T, W>, S: Wakes<W>>(
    cells: &mut C,
    sink: &mut S,
) -> Result<Reply<T>, ChannelCall<T, W>>
    requires stands { BeginsHere C.stands (first ask.Len) cells.old }
    ensures deeds { WalkedOn (Done C.did S.wakes) (first ask.Len) (cells.old, sink.old) result (cells.new, sink.new) }
    ensures answers { (f : QueueForm) → C.has_form cells.old f → MatchResult result (λ r. ReplyAllowed {W = W} f ask.Len r None)
        (λ call. (r : Reply T) (m : Option T) → MayEnd f call.stage r m → ReplyAllowed {W = W} f ask.Len r m) }
    ensures form { (f : QueueForm) → C.has_form cells.old f → C.has_form cells.new f }
{
    let mut call = QueueCall::len();
    // A question: nobody is notified.
    let answer = cells.step_queue(&mut call);
    let mark = Mark::of_queue(call.last_mark());
    match answer {
        None => Err(ChannelCall {
            stage: Stage::Trying(call, Purpose::Ask),
            mark,
        }),
        Some(answer) => {
            drop(call);
            turned(asked_next(answer), mark)
        }
    }
}
