//! What a receive of several may answer.

use crate::answer::Answer;
use crate::plan::TOO_LARGE;
use crate::under_way::UnderWay;

/// Whether it may answer so, its messages aside: with as many as it took, and that are fewer than it may take only where nothing
/// was there after the last one, and nothing on its way. Where it took none it says why, unless it may take none. One that may take
/// more than there is memory for takes none.
pub fn several_is_due(call: &UnderWay, answer: Answer) -> bool {
    let limit = call.plan.limit;
    if limit == TOO_LARGE {
        return answer == Answer::NoMemory && call.received == 0;
    }
    let is_vain = call.received == 0 && limit > 0;
    let is_whole = call.received == limit;
    match answer {
        Answer::Several(count) => {
            count == call.received && !is_vain && (is_whole || call.saw.over)
        }
        Answer::Empty => is_vain && call.saw.bare,
        Answer::ReceiveClosed => is_vain && call.saw.spent,
        _ => false,
    }
}
