//! Calls with a witness do what the queue's own calls do. A look is told while other threads are in the midst of their calls, and is not
//! told once a call was stepped from outside.

use crate::checks::expect_true;
use crate::shared::{Working, opened, wrong_at_once};
use concurrent_queue::queue_call::QueueCall;
use concurrent_queue::shared::queue::ConcurrentQueue;
use std::alloc::Global;
use std::sync::Wait;
use std::thread::Threads;

/// How many messages a thread pushes with a witness, each followed by a look.
const LOOKS: u64 = 500;

/// Pushes messages with a witness, and looks after each: how many looks were not told.
pub(crate) fn untold_looks<R: Wait>(rt: &R, queue: &ConcurrentQueue<u64>) -> u64 {
    let Some(mut calls) = queue.witnessed() else {
        return LOOKS;
    };
    let mut untold = 0u64;
    for message in 0..LOOKS {
        let (_, next) = calls.push(rt, message);
        calls = next;
        untold = untold.wrapping_add(u64::from(!calls.look()));
    }
    untold
}

/// Whether each look is told beside two threads that push, displace and pop.
fn told_beside_others<R: Threads + Wait + Sync>(rt: &R, alloc: Global, capacity: usize) -> bool {
    let Some(queue) = opened(alloc, capacity) else {
        return false;
    };
    wrong_at_once(rt, alloc, &queue, (Working::Looked, 3), 1) == Some(0)
}

/// Whether calls with a witness answer as they have to in a queue of one place, and a look is told just as long as no call was stepped.
fn answers_are_right<R: Wait>(rt: &R, alloc: Global) -> bool {
    let Some(queue) = opened::<u64>(alloc, 1) else {
        return false;
    };
    let Some(calls) = queue.witnessed() else {
        return false;
    };
    let (pushed, calls) = calls.push(rt, 1);
    let (displaced, calls) = calls.force_push(rt, 2);
    let (held, calls) = calls.len(rt);
    let (popped, calls) = calls.pop(rt);
    let (closed, calls) = calls.close();
    let mut calls = calls;
    let told = calls.look();
    let mut call = QueueCall::is_closed();
    let _ = queue.step(rt, &mut call);
    pushed.is_ok()
        && displaced == Ok(Some(1))
        && held == 1
        && popped == Ok(2)
        && closed
        && told
        && !calls.look()
}

#[test]
fn calls_with_a_witness_answer_as_the_queues_own(rt: HostRuntime) {
    expect_true(&rt, answers_are_right(&rt, rt.alloc()));
    let unbounded = opened::<u64>(rt.alloc(), 0);
    expect_true(
        &rt,
        unbounded.is_some_and(|queue| queue.witnessed().is_none()),
    );
}

#[test]
fn looks_are_told_while_others_call(rt: HostRuntime) {
    for capacity in [1, 4] {
        expect_true(&rt, told_beside_others(&rt, rt.alloc(), capacity));
    }
}
