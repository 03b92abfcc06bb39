//! Whether a call may answer so, after what it did and what held at its moments.

use crate::answer::Answer;
use crate::count::Count;
use crate::plan::Kind;
use crate::several::several_is_due;
use crate::under_way::UnderWay;
use channel_calls::mark::Mark;
use channel_calls::stage::{Side, WaitList};

/// A poll ends pending: a send's beside no free place, a receive's beside no message, a wait's while the channel is open. A
/// finished send's and a stream's need nothing.
fn pending_is_due(call: &UnderWay) -> bool {
    match call.subject.line {
        WaitList::Sends => call.saw.crowded || call.subject.message.is_none(),
        WaitList::Receives => call.saw.bare,
        WaitList::Closings => call.saw.open,
        WaitList::Streams => true,
    }
}

/// Yes or no is answered.
fn flag_is_due(call: &UnderWay, flag: bool) -> bool {
    let saw = call.saw;
    match (call.plan.kind, flag) {
        (Kind::IsClosed, true) => saw.shut,
        (Kind::IsClosed, false) => saw.open,
        (Kind::IsEmpty, true) => saw.messages.has(0),
        (Kind::IsEmpty, false) => saw.messages.has_some(),
        (Kind::IsFull, true) => saw.places.has(0),
        (Kind::IsFull, false) => saw.places.has_some(),
        (Kind::StreamIsTerminated, true) => saw.ended,
        (Kind::StreamIsTerminated, false) => saw.open || saw.messages.has_some(),
        (Kind::SendIsTerminated, finished) => finished == call.subject.message.is_none(),
        (_, same) => same,
    }
}

/// A number is answered.
fn number_is_due(call: &UnderWay, number: usize) -> bool {
    match call.plan.kind {
        Kind::SenderCount => call.saw.handles(Side::Senders).has(number),
        Kind::ReceiverCount => call.saw.handles(Side::Receivers).has(number),
        _ => call.saw.messages.has(number),
    }
}

/// No handle was made: the channel was closed, or no other handle of its side lived.
fn not_made_is_due(call: &UnderWay) -> bool {
    match call.subject.side {
        Some(side) => call.saw.shut || call.saw.handles(side).has(0),
        None => false,
    }
}

/// A call that made no mark answers so.
fn quietly_due(call: &UnderWay, answer: Answer, count: &Count) -> bool {
    let saw = call.saw;
    match answer {
        Answer::Full(message) => call.has_message(message) && saw.crowded,
        Answer::SendClosed(message) => call.has_message(message) && saw.shut,
        Answer::Empty => saw.bare,
        Answer::ReceiveClosed => saw.spent,
        Answer::Pending => pending_is_due(call),
        Answer::HasClosed | Answer::Closed(false) => saw.shut,
        Answer::NoMemory => true,
        Answer::Flag(flag) => flag_is_due(call, flag),
        Answer::Count(number) => number_is_due(call, number),
        Answer::Capacity(capacity) => capacity == count.capacity,
        Answer::Made | Answer::Unit => call.subject.side.is_none(),
        Answer::NotMade => not_made_is_due(call),
        Answer::GivenUp(message) => message == call.subject.message,
        _ => false,
    }
}

/// The mark of one strong handle of this kind more.
pub fn raising(side: Side) -> Mark {
    match side {
        Side::Senders => Mark::SenderUp,
        Side::Receivers => Mark::ReceiverUp,
    }
}

/// The mark of one strong handle of this kind fewer.
pub fn lowering(side: Side) -> Mark {
    match side {
        Side::Senders => Mark::SenderDown,
        Side::Receivers => Mark::ReceiverDown,
    }
}

/// A strong handle of this kind was made, by an upgrade at an open channel.
fn raised(call: &UnderWay, side: Side) -> bool {
    let up = raising(side);
    call.has_made(up, Mark::Nothing) && (call.plan.kind != Kind::Upgrade || call.saw.open)
}

/// A strong handle of this kind was dropped: the last one closes, or finds the channel closed.
fn lowered(call: &UnderWay, side: Side) -> bool {
    let down = lowering(side);
    let alone = call.has_made(down, Mark::Nothing) && (!call.was_last || call.saw.shut);
    alone || (call.was_last && call.has_made(down, Mark::Close))
}

/// A call that made marks answers so.
fn markedly_due(call: &UnderWay, answer: Answer, count: &Count) -> bool {
    match (answer, call.subject.side) {
        (Answer::Sent, _) => call.has_made(Mark::Append, Mark::Nothing),
        (Answer::Received(message), _) => {
            call.has_made(Mark::Take, Mark::Nothing) && count.came_as(call.place, message)
        }
        (Answer::Displaced(message), _) => {
            let displaced = call.has_made(Mark::Replace, Mark::Nothing)
                || call.has_made(Mark::TakeDisplaced, Mark::Append);
            displaced && call.saw.open && count.came_as(call.place, message)
        }
        (Answer::Closed(true), _) => call.has_made(Mark::Close, Mark::Nothing),
        (Answer::Made, Some(side)) => raised(call, side),
        (Answer::Unit, Some(side)) => lowered(call, side),
        _ => false,
    }
}

/// Whether this call may answer so. A poll that is refused its waker, and no other call but a receive of several, answers that
/// memory was refused.
pub fn is_due(call: &UnderWay, answer: Answer, count: &Count) -> bool {
    if call.plan.kind == Kind::RecvMany {
        return several_is_due(call, answer);
    }
    if (call.plan.kind == Kind::PollRefused) != (answer == Answer::NoMemory) {
        return false;
    }
    if call.has_made(Mark::Nothing, Mark::Nothing) {
        quietly_due(call, answer, count)
    } else {
        markedly_due(call, answer, count)
    }
}
