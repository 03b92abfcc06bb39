//! Worked examples on one thread that are no rows: walks that are copied, types that count or keep a fact, calls by steps.

ghost use Rattle.std.specs.Prelude.{◌≡◌, ◌%◌, ◌≤◌, IfOk, true};

use crate::by_steps::capacity_by_steps;
use crate::checks::expect_equal;
use crate::said::{Said, replied};
use crate::shared::opened;
use crate::shared::standing::answer_within;
use concurrent_queue::error::PopError;
use concurrent_queue::queue_call::QueueCall;
use concurrent_queue::shared::queue::ConcurrentQueue;
use std::alloc::Global;
use std::sync::{Arc, Wait};

/// What a walk and a copy of it give of a queue into which messages come between.
fn walked_by_turns<R: Wait>(rt: &R, queue: &ConcurrentQueue<u64>) -> Option<[Option<u64>; 4]> {
    let mut walk = queue.try_iter(rt);
    let nothing = walk.next();
    let went = queue.push(rt, 7).is_ok();
    let mut other = walk.clone().ok()?;
    let (first, none) = (walk.next(), other.next());
    let both_went = queue.push(rt, 8).is_ok() && went;
    both_went.then_some([nothing, first, none, other.next()])
}

#[test]
fn a_walk_goes_on_after_none(rt: HostRuntime) {
    let queue = opened(rt.alloc(), 3).expect(&rt, "memory");
    let given = walked_by_turns(&rt, &queue);
    drop(queue);
    expect_equal(&rt, &given, &Some([None, Some(7), None, Some(8)]));
}

/// Pushes so many copies into a queue with so many places, and answers how many are left in the end. None where there is no queue.
fn dropped_with<R: Wait>(
    rt: &R,
    alloc: Global,
    capacity: usize,
    shared: &Arc<u8>,
) -> Option<usize> {
    let queue = opened(alloc, capacity)?;
    for _ in 0..40 {
        if let Ok(copy) = Arc::try_clone(shared) {
            let _ = queue.push(rt, copy);
        }
    }
    let held = Arc::strong_count(shared);
    drop(queue);
    Some(held.wrapping_sub(Arc::strong_count(shared)))
}

#[test]
fn what_is_left_is_dropped_once(rt: HostRuntime) {
    let alloc = rt.alloc();
    let shared = Arc::new(alloc, 7u8).expect(&rt, "memory");
    let left = [
        dropped_with(&rt, alloc, 1, &shared),
        dropped_with(&rt, alloc, 2, &shared),
        dropped_with(&rt, alloc, 3, &shared),
        dropped_with(&rt, alloc, 0, &shared),
    ];
    let count = Arc::strong_count(&shared);
    drop(shared);
    expect_equal(
        &rt,
        &(left, count),
        &([Some(1), Some(2), Some(3), Some(40)], 1),
    );
}

/// What the three steps of a push answer.
fn pushed_by_steps<R: Wait>(rt: &R, queue: &ConcurrentQueue<u64>) -> [Said; 3] {
    let mut push = QueueCall::push(7u64);
    [
        answer_within(rt, queue, &mut push, 1),
        answer_within(rt, queue, &mut push, 1),
        answer_within(rt, queue, &mut push, 1),
    ]
}

/// What the step of a closing answers.
fn closed_by_steps(queue: &ConcurrentQueue<u64>) -> Option<Said> {
    let mut close = QueueCall::close();
    queue.step_words(&mut close).map(replied)
}

/// The capacity of a queue with so many places, asked step by step. 0 where there is no queue.
fn places(alloc: Global, capacity: usize) -> Option<usize> {
    let Some(queue) = opened::<u64>(alloc, capacity) else {
        return Some(0);
    };
    capacity_by_steps(&queue)
}

/// The capacities of queues with one place, with three, and without a bound.
fn all_places(alloc: Global) -> [Option<usize>; 3] {
    [places(alloc, 1), places(alloc, 3), places(alloc, 0)]
}

#[test]
fn calls_go_by_steps(rt: HostRuntime) {
    let queue = opened(rt.alloc(), 1).expect(&rt, "memory");
    let pushing = pushed_by_steps(&rt, &queue);
    let closing = (closed_by_steps(&queue), queue.is_closed());
    drop(queue);
    expect_equal(&rt, &pushing, &[("", 0), ("", 0), ("pushed", 0)]);
    expect_equal(&rt, &closing, &(Some(("closed it", 0)), true));
    expect_equal(&rt, &all_places(rt.alloc()), &[Some(1), Some(3), None]);
}

/// A message that keeps a fact.
#[derive(Drop)]
struct Even {
    number: u64,
    ghost even: { number % 2 ≡ 0 },
}

/// Whether the half of a popped message doubles to it; what each message keeps holds of a popped one.
fn doubles<R: Wait>(rt: &R, queue: &ConcurrentQueue<Even>) -> Result<bool, PopError>
    ensures { IfOk result (λ b. b ≡ true) }
{
    let message = queue.pop(rt)?;
    Ok(message.number % 2 == 0)
}

#[test]
fn what_messages_keep_holds_of_popped_ones(rt: HostRuntime) {
    let queue = opened(rt.alloc(), 2).expect(&rt, "memory");
    let went = queue.push(&rt, Even { number: 8 }).is_ok();
    let doubled = matches!(doubles(&rt, &queue), Ok(true));
    drop(queue);
    expect_equal(&rt, &(went, doubled), &(true, true));
}
