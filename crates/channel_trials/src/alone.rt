//! What a call did that was made alone, as its answer says.

use crate::answer::Answer;
use crate::count::Count;
use crate::due::{lowering, raising};
use crate::under_way::UnderWay;
use channel_calls::mark::Mark;
use channel_calls::stage::Side;

/// A handle of this kind was dropped: the last one closes an open channel.
fn drop_marks(side: Side, count: &Count) -> (Mark, Mark) {
    let is_last = count.handles(side) == 1;
    let then = if is_last && !count.closed {
        Mark::Close
    } else {
        Mark::Nothing
    };
    (lowering(side), then)
}

/// The marks that a call makes which begins over this count and answers so, where no other call is under way.
pub fn marks(call: &UnderWay, answer: Answer, count: &Count) -> (Mark, Mark) {
    match (answer, call.subject.side) {
        (Answer::Sent, _) => (Mark::Append, Mark::Nothing),
        (Answer::Displaced(_), _) => (Mark::Replace, Mark::Nothing),
        (Answer::Received(_), _) => (Mark::Take, Mark::Nothing),
        (Answer::Closed(true), _) => (Mark::Close, Mark::Nothing),
        (Answer::Made, Some(side)) => (raising(side), Mark::Nothing),
        (Answer::Unit, Some(side)) => drop_marks(side, count),
        _ => (Mark::Nothing, Mark::Nothing),
    }
}
