//! Waits with a timeout among threads.

use crate::checks::expect_equal;
use crate::event::event;
use crate::jobs::{Done, Job, both};
use event_listener::event::Event;
use event_listener::listener::Listener;
use std::process::Abort;
use std::sync::Wait;
use std::sync::atomic::{AtomicUsize, Ordering};
use std::thread;
use std::thread::Threads;
use std::time::{Clock, Duration, Instant};

/// A listener waits for up to half a minute, and another thread tells it soon: what came of both, and whether the wait ended in
/// good time.
fn told_in_time<R: Wait + Threads + Clock + Abort + Copy + Send + Sync>(
    rt: R,
    event: &Event<u32>,
) -> ((Done, Done), bool) {
    let start = Instant::now(&rt).expect(&rt, "a clock");
    let listener = event.listen(&rt).expect(&rt, "memory");
    let done = both(rt, Job::WaitForTag(listener), Job::SendTag(event));
    let passed = start.elapsed(&rt).expect(&rt, "a clock");
    (done, passed < Duration::from_secs(20))
}

#[test]
fn a_wait_that_is_told_in_time_gives_the_tag(rt: HostRuntime) {
    let event = event(&rt, rt.alloc());
    let seen = told_in_time(rt, &event);
    expect_equal(&rt, &seen, &(((0, Some(8)), (1, None)), true));
}

const ROUNDS: usize = 20_000;

/// Listens and waits for 0 to 2,000 nanoseconds in each round: how many waits gave a tag.
pub(crate) fn waits_briefly<R: Wait + Clock + Copy>(
    rt: R,
    event: &Event<()>,
    begun: &AtomicUsize,
) -> usize {
    let mut woken = 0usize;
    for round in 0..ROUNDS {
        let listener = event.listen(&rt);
        begun.store(round.wrapping_add(1), Ordering::SeqCst);
        let Ok(listener) = listener else {
            continue;
        };
        let limit = Duration::from_nanos((round as u64).wrapping_mul(37) % 2001);
        if matches!(listener.wait_timeout(&rt, limit), Ok(Some(()))) {
            woken = woken.wrapping_add(1);
        }
    }
    woken
}

/// Notifies one in each round, once its listener listens: how many were told.
pub(crate) fn notifies_each<R: Wait + Copy>(
    rt: R,
    event: &Event<()>,
    begun: &AtomicUsize,
) -> usize {
    let mut told = 0usize;
    for round in 0..ROUNDS {
        for _ in rt.forever() {
            if begun.load(Ordering::SeqCst) > round {
                break;
            }
            thread::yield_now();
        }
        told = told.wrapping_add(event.notify_additional(&rt, 1));
    }
    told
}

/// A notice that comes when the time is up is taken or tells nobody: none is lost.
#[test]
fn each_listener_that_was_told_wakes_with_its_tag(rt: HostRuntime) {
    let event: Event<()> = event(&rt, rt.alloc());
    let round = AtomicUsize::new(0);
    let (waits, notices) = both(
        rt,
        Job::WaitBriefly(&event, &round),
        Job::NotifyEach(&event, &round),
    );
    expect_equal(&rt, &waits, &notices);
    expect_equal(&rt, &event.total_listeners(&rt), &0);
}
