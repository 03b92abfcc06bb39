//! What errors say and hand back.

use crate::checks::expect_equal;
use concurrent_queue::error::{ForcePushError, NoMemory, PopError, PushError};
use concurrent_queue::{
    ConcurrentQueue, QueueAsk, QueueEntry, QueueForm, QueueMark, QueueRefusal, QueueReply,
    QueueRun, QueueStep, Stopped, run_queue_steps,
};
use std::alloc::{AllocError, Global};
use std::collections::VecDeque;
use std::fmt::{Debug, Display};

#[test]
fn refusals_hand_the_message_back(rt: HostRuntime) {
    let back = [
        PushError::Full(1u64).into_inner(),
        PushError::Closed(2).into_inner(),
        PushError::NoMemory(3).into_inner(),
        ForcePushError::Closed(4).into_inner(),
        ForcePushError::NoMemory(5).into_inner(),
    ];
    expect_equal(&rt, &back, &[1, 2, 3, 4, 5]);
}

/// Whether a refused push says that the queue was full, and that it was closed.
fn why(error: PushError<u64>) -> [bool; 2] {
    [error.is_full(), error.is_closed()]
}

/// Whether a refused pop says that the queue was empty, and that it was closed.
fn why_none(error: PopError) -> [bool; 2] {
    [error.is_empty(), error.is_closed()]
}

#[test]
fn refusals_say_why(rt: HostRuntime) {
    let said = [
        why(PushError::Full(1)),
        why(PushError::Closed(1)),
        why(PushError::NoMemory(1)),
        why_none(PopError::Empty),
        why_none(PopError::Closed),
    ];
    let (first, second) = ([true, false], [false, true]);
    expect_equal(&rt, &said, &[first, second, [false; 2], first, second]);
}

/// The capacity of a queue without a bound and the length of a list with room for one, where one `?` serves both refusals.
fn queue_beside_list(alloc: Global) -> Result<(Option<usize>, usize), AllocError> {
    let queue: ConcurrentQueue<u64> = ConcurrentQueue::unbounded(alloc)?;
    let list: Vec<u64> = Vec::with_capacity(alloc, 1)?;
    Ok((queue.capacity(), list.len()))
}

#[test]
fn a_refused_queue_is_a_refused_allocation(rt: HostRuntime) {
    expect_equal(
        &rt,
        &queue_beside_list(rt.alloc()).expect(&rt, "memory"),
        &(None, 0),
    );
}

/// Whether a refusal is equal to its copies and to no other.
fn is_itself<E: Copy + Clone + Drop + PartialEq>(error: E, other: E) -> bool {
    let copy = error;
    let cloned = match error.clone() {
        Ok(cloned) => cloned == error,
        Err(_) => false,
    };
    error == copy && error != other && cloned
}

#[test]
fn refusals_are_compared_and_copied(rt: HostRuntime) {
    let told_apart = [
        is_itself(PushError::Full(1u64), PushError::Full(2)),
        is_itself(PushError::Full(1u64), PushError::Closed(1)),
        is_itself(ForcePushError::Closed(1u64), ForcePushError::NoMemory(1)),
        is_itself(PopError::Empty, PopError::Closed),
    ];
    expect_equal(&rt, &told_apart, &[true; 4]);
}

/// Whether a refusal is shown and written so.
fn says<E: Display + Debug>(alloc: Global, error: &E, text: &str) -> bool {
    match format!(in alloc; "{error} {error:?}") {
        Ok(said) => said.as_str() == text,
        Err(_) => false,
    }
}

#[test]
fn texts_of_refusals(rt: HostRuntime) {
    let alloc = rt.alloc();
    let said = [
        says(alloc, &PushError::Full(1u64), "Full Full(..)"),
        says(alloc, &PushError::Closed(1u64), "Closed Closed(..)"),
        says(alloc, &PushError::NoMemory(1u64), "NoMemory NoMemory(..)"),
        says(alloc, &ForcePushError::Closed(1u64), "Closed Closed(..)"),
        says(
            alloc,
            &ForcePushError::NoMemory(1u64),
            "NoMemory NoMemory(..)",
        ),
        says(alloc, &PopError::Empty, "Empty Empty"),
        says(alloc, &PopError::Closed, "Closed Closed"),
        says(alloc, &NoMemory, "want of memory NoMemory"),
    ];
    expect_equal(&rt, &said, &[true; 8]);
}

fn add(steps: &mut VecDeque<QueueStep<u64>>, step: QueueStep<u64>) {
    let _ = steps.push_back(step);
}

/// The run of a pop that begins, and of two steps of it, over one slot.
fn pop_alone(alloc: Global) -> QueueRun<u64> {
    let mut steps: VecDeque<QueueStep<u64>> = VecDeque::new(alloc);
    add(
        &mut steps,
        QueueStep::Begin {
            party: 1,
            call: QueueAsk::Pop,
        },
    );
    add(&mut steps, QueueStep::Step { party: 1 });
    add(&mut steps, QueueStep::Step { party: 1 });
    run_queue_steps(alloc, QueueForm::Bounded(1), &mut steps)
}

/// What that run is to be: the pop finds nothing at its one step, and then nobody is at work.
fn run_of_them(alloc: Global) -> QueueRun<u64> {
    let mut trace: Vec<QueueEntry<u64>> = Vec::new(alloc);
    let _ = trace.push(QueueEntry {
        mark: QueueMark::Nothing,
        reply: None,
    });
    let _ = trace.push(QueueEntry {
        mark: QueueMark::Nothing,
        reply: Some(QueueReply::Pop(Err(PopError::Empty))),
    });
    QueueRun {
        trace,
        stopped: Some(Stopped {
            place: 2,
            why: QueueRefusal::Idle,
        }),
    }
}

/// Whether what is shown of this is this text.
fn shows<T: Debug>(alloc: Global, value: &T, text: &str) -> bool {
    match format!(in alloc; "{value:?}") {
        Ok(shown) => shown.as_str() == text,
        Err(_) => false,
    }
}

#[test]
fn steps_and_forms_are_compared_and_shown(rt: HostRuntime) {
    let begin: QueueStep<u64> = QueueStep::Begin {
        party: 1,
        call: QueueAsk::Pop,
    };
    let step: QueueStep<u64> = QueueStep::Step { party: 1 };
    let compared = step == QueueStep::Step { party: 1 } && begin != step;
    drop(step);
    let shown = shows(rt.alloc(), &begin, "Begin { party: 1, call: Pop }");
    drop(begin);
    let form = QueueForm::Bounded(1);
    let forms = [
        form != QueueForm::Unbounded,
        shows(rt.alloc(), &form, "Bounded(1)"),
    ];
    expect_equal(&rt, &([compared, shown], forms), &([true; 2], [true; 2]));
}

/// Whether its second entry and what stopped it are shown so.
fn is_shown(alloc: Global, run: &QueueRun<u64>) -> [bool; 2] {
    [
        shows(
            alloc,
            &run.trace.get(1),
            "Some(QueueEntry { mark: Nothing, reply: Some(Pop(Err(Empty))) })",
        ),
        shows(alloc, &run.stopped, "Some(Stopped { place: 2, why: Idle })"),
    ]
}

/// Whether two runs are the same.
fn are_same(run: QueueRun<u64>, other: QueueRun<u64>) -> bool {
    run == other
}

#[test]
fn runs_are_compared_and_shown(rt: HostRuntime) {
    let run = pop_alone(rt.alloc());
    let shown = is_shown(rt.alloc(), &run);
    let seen = (are_same(run, run_of_them(rt.alloc())), shown);
    expect_equal(&rt, &seen, &(true, [true; 2]));
}
