//! Listeners among threads.

use crate::checks::expect_equal;
use crate::event::{event, task};
use crate::jobs::{Done, Job, both, both_pairs};
use crate::made::poll;
use event_listener::event::Event;
use event_listener::into_notification::IntoNotification;
use event_listener::listener::EventListener;
use futures::test::MockTask;
use std::process::Abort;
use std::sync::Wait;
use std::thread::Threads;
use std::time::Clock;
use worked_rows::Said;

fn crosses<X: Send + Sync>(_: &X) -> bool {
    true
}

/// Events and listeners cross threads wherever their tags do.
fn all_cross<T: Drop + Send, R: Wait + Copy + Send + Sync>(
    event: &Event<T>,
    listener: &EventListener<T, R>,
) -> bool {
    crosses(event) && crosses(listener)
}

/// Two threads wait and two notify: whether each went on, and how many each told.
fn four_threads<R: Wait + Threads + Clock + Abort + Copy + Send + Sync>(
    rt: R,
    event: &Event<()>,
) -> ((Done, Done), (Done, Done)) {
    let first = event.listen(&rt).expect(&rt, "memory");
    let second = event.listen(&rt).expect(&rt, "memory");
    both_pairs(
        rt,
        (Job::Wait(None, first), Job::Wait(None, second)),
        (Job::Notify(None, event), Job::Notify(None, event)),
    )
}

#[test]
fn no_notice_is_lost(rt: HostRuntime) {
    let event: Event<()> = event(&rt, rt.alloc());
    for _ in 0..1000 {
        let each = ((1, None), (1, None));
        expect_equal(&rt, &four_threads(rt, &event), &(each, each));
    }
    expect_equal(&rt, &event.total_listeners(&rt), &0);
}

/// One thread opens the gate and sleeps, the other one goes through the gate and notifies: whether the first went on, and how many the
/// other one told.
fn parked<R: Wait + Threads + Clock + Abort + Copy + Send + Sync>(
    rt: R,
    woken: &Event<()>,
    gate: &Event<()>,
) -> (Done, Done) {
    let sleeper = woken.listen(&rt).expect(&rt, "memory");
    let at_gate = gate.listen(&rt).expect(&rt, "memory");
    both(
        rt,
        Job::Wait(Some(gate), sleeper),
        Job::Notify(Some(at_gate), woken),
    )
}

/// A listener that was told is dropped on another thread: whether all crosses threads, and what a poll of the second one says.
fn dropped_elsewhere<R: Wait + Threads + Clock + Abort + Copy + Send + Sync>(
    rt: R,
    event: &Event<u32>,
    task: &MockTask,
) -> (bool, Said) {
    let told = event.listen(&rt).expect(&rt, "memory");
    let mut waiting = event.listen(&rt).expect(&rt, "memory");
    let crosses = all_cross(event, &told);
    let _ = event.notify(&rt, 1u8.tag(7u32));
    both(rt, Job::Drop(Some(told)), Job::Drop(None));
    (crosses, poll(&mut waiting, task))
}

#[test]
fn threads(rt: HostRuntime) {
    let (woken, gate) = (event(&rt, rt.alloc()), event(&rt, rt.alloc()));
    let each = ((1, None), (1, None));
    expect_equal(&rt, &parked(rt, &woken, &gate), &each);
    let seen = dropped_elsewhere(rt, &event(&rt, rt.alloc()), &task(&rt));
    expect_equal(&rt, &seen, &(true, Said::Number(7)));
}
