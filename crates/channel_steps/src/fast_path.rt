//! The fast path of sends and receives that don't wait, with no other call under way. It makes the machine's operations in straight code,
//! which saves choosing the next step after each one.

ghost use Rattle.std.specs.Prelude.{◌≡◌, Ok, MatchOption, MatchResult};
ghost use Rattle.concurrent_queue.specs.declared.call.QueueReply.TheVariants as queue;
ghost use Rattle.channel_calls.specs.Answered.{sent_next, received_next};
ghost use Rattle.channel_calls.specs.Marks.{mark_of_queue};
ghost use Rattle.channel_calls.specs.Plain.{parts_of};
ghost use Rattle.channel_calls.specs.Turns.{nothing_kept};
ghost use Rattle.channel_calls.specs.declared.ask.ChannelAsk.TheVariants as ask;
ghost use Rattle.channel_calls.specs.declared.stage.NextStep.TheVariants.{Ends};
ghost use Rattle.channel_steps.specs.Count.{counted};
ghost use Rattle.channel_steps.specs.solo.Run.{IsAtRest, AnswersAlone};
ghost use Rattle.channel_steps.specs.solo.Configurations.{RunsInConfigurations};

use channel_calls::cells::ChannelCells;
use channel_calls::error::{Refused, TryRecvError, TrySendError};
use channel_calls::plain::PlainChannel;
use channel_calls::reply::Reply;
use channel_calls::stage::{Returned, Telling, WaitList};
use channel_calls::whole::Completed;
use concurrent_queue::call::{QueueMark, QueueReply};
use concurrent_queue::error::{PopError, PushError};
use concurrent_queue::queue_call::QueueCall;
use event_listener::wakes::Wakes;

/// How many messages there are after a step of the queue with this mark.
fn counted(messages: u64, mark: QueueMark) -> u64
    ensures { result ≡ counted messages (mark_of_queue mark) }
{
    match mark {
        QueueMark::Append => messages.saturating_add(1),
        QueueMark::Take | QueueMark::TakeDisplaced => messages.saturating_sub(1),
        QueueMark::Nothing | QueueMark::Replace | QueueMark::Close => messages,
    }
}

/// The end of a call that answers this and leaves nothing to an operation.
fn answers<T>(reply: Reply<T>) -> Completed<T>
    ensures { result ≡ record { reply = reply; kept = nothing_kept } }
{
    let kept = Returned {
        key: None,
        message: None,
    };
    Completed { reply, kept }
}

/// What a send that doesn't wait answers if its push is not in; `None` if it is.
fn unsent<T: Drop, W>(answer: QueueReply<T>) -> Option<Reply<T>>
    ensures { MatchOption result (answer ≡ queue.Push (Ok tt)) (λ r. sent_next {W = W} answer ≡ Ends r nothing_kept) }
{
    let error = match answer {
        QueueReply::Push(Ok(())) => return None,
        QueueReply::Push(Err(PushError::Full(message))) => {
            Refused::Plain(TrySendError::Full(message))
        }
        QueueReply::Push(Err(PushError::Closed(message))) => {
            Refused::Plain(TrySendError::Closed(message))
        }
        QueueReply::Push(Err(PushError::NoMemory(message))) => Refused::NoMemory(message),
        _ => return Some(Reply::Unit),
    };
    Some(Reply::TrySend(Err(error)))
}

/// The message that a pop took, or what a receive that doesn't wait answers if it took none.
fn received<T: Drop, W>(answer: QueueReply<T>) -> Result<T, Reply<T>>
    ensures { MatchResult result (λ m. answer ≡ queue.Pop (Ok m)) (λ r. received_next {W = W} answer ≡ Ends r nothing_kept) }
{
    match answer {
        QueueReply::Pop(Ok(message)) => Ok(message),
        QueueReply::Pop(Err(PopError::Empty)) => Err(Reply::TryRecv(Err(TryRecvError::Empty))),
        QueueReply::Pop(Err(PopError::Closed)) => Err(Reply::TryRecv(Err(TryRecvError::Closed))),
        _ => Err(Reply::Unit),
    }
}

/// Makes a send that doesn't wait, from its beginning to its end.
pub(crate) fn send_alone<T: Drop, W: Drop, S: Wakes<W>>(
    message: T,
    channel: &mut PlainChannel<T, W>,
    messages: &mut u64,
    sink: &mut S,
) -> Completed<T>
    requires at_rest { IsAtRest (parts_of channel.old) }
    ensures alone { AnswersAlone S.wakes (ask.TrySend message) (parts_of channel.old) sink.old result (parts_of channel.new) sink.new }
    ensures configurations { RunsInConfigurations S.wakes (ask.TrySend message) (parts_of channel.old) sink.old messages.old
        result (parts_of channel.new) sink.new messages.new }
{
    let mut call = QueueCall::push(message);
    loop {
        let answer = channel.step_queue(&mut call);
        *messages = counted(*messages, call.last_mark());
        let Some(answer) = answer else { continue };
        if let Some(reply) = unsent::<T, W>(answer) {
            return answers(reply);
        }
        channel.tell(WaitList::Receives, Telling::One, sink);
        channel.tell(WaitList::Streams, Telling::All, sink);
        return answers(Reply::TrySend(Ok(())));
    }
}

/// Makes a receive that doesn't wait, from its beginning to its end.
pub(crate) fn receive_alone<T: Drop, W: Drop, S: Wakes<W>>(
    channel: &mut PlainChannel<T, W>,
    messages: &mut u64,
    sink: &mut S,
) -> Completed<T>
    requires at_rest { IsAtRest (parts_of channel.old) }
    ensures alone { AnswersAlone S.wakes ask.TryRecv (parts_of channel.old) sink.old result (parts_of channel.new) sink.new }
    ensures configurations { RunsInConfigurations S.wakes ask.TryRecv (parts_of channel.old) sink.old messages.old
        result (parts_of channel.new) sink.new messages.new }
{
    let mut call = QueueCall::pop();
    loop {
        let answer = channel.step_queue(&mut call);
        *messages = counted(*messages, call.last_mark());
        let Some(answer) = answer else { continue };
        let message = match received::<T, W>(answer) {
            Ok(message) => message,
            Err(reply) => return answers(reply),
        };
        channel.tell(WaitList::Sends, Telling::One, sink);
        return answers(Reply::TryRecv(Ok(message)));
    }
}
