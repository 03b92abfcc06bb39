//! A queue into which a push stands still in the midst of its steps, as of a thread that was put off its processor.

use crate::checks::expect_equal;
use crate::said::{Said, popped, replied};
use crate::shared::opened;
use concurrent_queue::call::QueueReply;
use concurrent_queue::queue_call::QueueCall;
use concurrent_queue::shared::queue::ConcurrentQueue;
use std::alloc::Global;
use std::sync::Wait;

/// Makes a step of a call: what it answers, if it ends.
fn stepped<R: Wait>(
    rt: &R,
    queue: &ConcurrentQueue<u64>,
    call: &mut QueueCall<u64>,
) -> Option<Said> {
    queue.step(rt, call).map(replied)
}

/// What a call answers that makes so many steps at most; nothing where it is still under way after them.
pub(crate) fn answer_within<R: Wait>(
    rt: &R,
    queue: &ConcurrentQueue<u64>,
    call: &mut QueueCall<u64>,
    steps: u32,
) -> Said {
    let mut said = None;
    for _ in 0..steps {
        said = stepped(rt, queue, call);
        if said.is_some() {
            break;
        }
    }
    said.unwrap_or(("", 0))
}

/// Makes a call of so many steps at most, and says its answer.
fn told<R: Wait>(
    rt: &R,
    queue: &ConcurrentQueue<u64>,
    mut call: QueueCall<u64>,
    steps: u32,
) -> Said {
    answer_within(rt, queue, &mut call, steps)
}

/// How a closing and the questions are made.
#[derive(Clone, Copy)]
enum Way {
    /// Each by its steps, of which the second one answers.
    Steps,
    /// Each by its method, which waits for nobody.
    Methods,
}

/// What the methods of a closing and of the questions answer.
fn by_methods(queue: &ConcurrentQueue<u64>) -> [Said; 5] {
    [
        replied(QueueReply::Close(queue.close())),
        replied(QueueReply::Flag(queue.is_closed())),
        replied(QueueReply::Flag(queue.is_empty())),
        replied(QueueReply::Flag(queue.is_full())),
        replied(QueueReply::Cap(queue.capacity())),
    ]
}

/// What their steps answer.
fn by_steps<R: Wait>(rt: &R, queue: &ConcurrentQueue<u64>) -> [Said; 5] {
    [
        told(rt, queue, QueueCall::close(), 2),
        told(rt, queue, QueueCall::is_closed(), 2),
        told(rt, queue, QueueCall::is_empty(), 2),
        told(rt, queue, QueueCall::is_full(), 2),
        told(rt, queue, QueueCall::capacity(), 2),
    ]
}

/// What a closing and all questions answer; the length by its third step.
fn closed_and_asked<R: Wait>(rt: &R, queue: &ConcurrentQueue<u64>, way: Way) -> [Said; 6] {
    let [close, is_closed, is_empty, is_full, room] = match way {
        Way::Steps => by_steps(rt, queue),
        Way::Methods => by_methods(queue),
    };
    let count = told(rt, queue, QueueCall::len(), 3);
    [close, is_closed, is_empty, is_full, room, count]
}

/// What they answer of a queue with or without the one message.
fn as_it_is(capacity: Option<usize>, is_in: bool) -> [Said; 6] {
    let is_empty = if is_in { "no" } else { "yes" };
    let is_full = if is_in && capacity == Some(1) {
        "yes"
    } else {
        "no"
    };
    let room = match capacity {
        Some(room) => ("room", room as u64),
        None => ("no bound", 0),
    };
    let count = if is_in { 1 } else { 0 };
    [
        ("closed it", 0),
        ("yes", 0),
        (is_empty, 0),
        (is_full, 0),
        room,
        ("holds", count),
    ]
}

/// Whether a closing and all questions answered as they should beside a push of 7, and the push and a pop after them as the
/// questions said.
fn is_right(asked: [Said; 6], capacity: Option<usize>, [pushed, popped]: [Said; 2]) -> bool {
    let is_in = pushed == ("pushed", 0);
    let rest = if is_in {
        popped == ("popped", 7)
    } else {
        pushed == ("closed", 7) && popped == ("shut", 0)
    };
    rest && asked == as_it_is(capacity, is_in)
}

/// Whether the closing and the questions answer so beside a push that has made so many steps. None where the push had answered
/// before.
fn answer_beside<R: Wait>(
    rt: &R,
    queue: &ConcurrentQueue<u64>,
    way: Way,
    steps: u32,
) -> Option<bool> {
    let mut push = QueueCall::push(7u64);
    let begun = answer_within(rt, queue, &mut push, steps);
    let asked = closed_and_asked(rt, queue, way);
    let after = [
        answer_within(rt, queue, &mut push, 64),
        popped(&queue.pop(rt)),
    ];
    drop(push);
    let right = is_right(asked, queue.capacity(), after);
    (begun == ("", 0)).then_some(right)
}

/// The same in a new queue with so many places, or without a bound where that is 0.
fn at_place<R: Wait>(
    rt: &R,
    alloc: Global,
    (capacity, way): (usize, Way),
    steps: u32,
) -> Option<bool> {
    let Some(queue) = opened(alloc, capacity) else {
        return Some(false);
    };
    answer_beside(rt, &queue, way, steps)
}

/// At how many places of a push all the others answer as they should; 0 where they don't at one.
fn places_passed<R: Wait>(rt: &R, alloc: Global, beside: (usize, Way)) -> u32 {
    for steps in 0..64u32 {
        match at_place(rt, alloc, beside, steps) {
            Some(true) => {}
            Some(false) => return 0,
            None => return steps,
        }
    }
    0
}

/// The same in a queue with one place, with two, and without a bound.
fn all_places_passed<R: Wait>(rt: &R, alloc: Global, way: Way) -> [u32; 3] {
    [
        places_passed(rt, alloc, (1, way)),
        places_passed(rt, alloc, (2, way)),
        places_passed(rt, alloc, (0, way)),
    ]
}

#[test]
fn a_push_that_stands_still_holds_no_question_up(rt: HostRuntime) {
    let places = [
        all_places_passed(&rt, rt.alloc(), Way::Steps),
        all_places_passed(&rt, rt.alloc(), Way::Methods),
    ];
    expect_equal(&rt, &places, &[[3, 5, 8], [3, 5, 8]]);
}
