//! Several listeners that are told at once, and listeners of several events.

use crate::checks::expect_equal;
use crate::event::{event, task};
use crate::units::notified;
use event_listener::event::Event;
use event_listener::into_notification::IntoNotification;
use event_listener::listener::{EventListener, PollFault};
use futures::task::Poll;
use futures::test::MockTask;
use std::process::Abort;
use std::sync::Wait;
use worked_rows::Said;

/// Which of three tasks were woken: 1 for the first one, 2 for the second and 4 for the third, added up.
fn woken(tasks: &[MockTask; 3]) -> u8 {
    let [first, second, third] = tasks;
    let first = if first.is_woken() { 1 } else { 0 };
    let second = if second.is_woken() { 2 } else { 0 };
    let third = if third.is_woken() { 4 } else { 0 };
    first | second | third
}

/// What a poll gives by this task.
fn poll<R: Wait + Copy>(task: &MockTask, listener: &mut EventListener<u8, R>) -> Said {
    match task.poll(listener) {
        Poll::Ready(Ok(tag)) => Said::Number(u64::from(tag)),
        Poll::Ready(Err(PollFault::NeverInserted)) => Said::Word("finished"),
        Poll::Pending => Said::Word("pending"),
    }
}

/// Three listeners, each polled by a task of its own, are told at once, each with the tasks that were woken before it as its tag: what the
/// notice answered, and what the second polls give.
fn told_at_once<R: Wait + Copy + Abort>(
    rt: R,
    event: &Event<u8>,
    tasks: &[MockTask; 3],
) -> (Said, [Said; 3]) {
    let mut first = event.listen(&rt).expect(&rt, "memory");
    let mut second = event.listen(&rt).expect(&rt, "memory");
    let mut third = event.listen(&rt).expect(&rt, "memory");
    let [one, two, three] = tasks;
    let _ = poll(three, &mut third);
    let _ = poll(two, &mut second);
    let _ = poll(one, &mut first);
    let told = notified(event.notify(&rt, usize::MAX.tag_with(|| woken(tasks))));
    let tags = [
        poll(one, &mut first),
        poll(two, &mut second),
        poll(three, &mut third),
    ];
    (told, tags)
}

#[test]
fn all_are_woken_in_the_order_of_listening(rt: HostRuntime) {
    let tasks = [task(&rt), task(&rt), task(&rt)];
    let (told, tags) = told_at_once(rt, &event(&rt, rt.alloc()), &tasks);
    expect_equal(&rt, &told, &Said::count(3));
    expect_equal(
        &rt,
        &tags,
        &[Said::Number(0), Said::Number(1), Said::Number(3)],
    );
}

/// A listener of each of two events. The first event is notified with the tag 5, and then the other one with 6: what polls of both give
/// after each notice.
fn of_two_events<R: Wait + Copy + Abort>(
    rt: R,
    one: &Event<u8>,
    other: &Event<u8>,
    task: &MockTask,
) -> [Said; 4] {
    let mut first = one.listen(&rt).expect(&rt, "memory");
    let mut second = other.listen(&rt).expect(&rt, "memory");
    let _ = one.notify(&rt, 1u8.tag(5u8));
    let after_one = [poll(task, &mut first), poll(task, &mut second)];
    let _ = other.notify(&rt, 1u8.tag(6u8));
    let [first_told, second_waits] = after_one;
    [
        first_told,
        second_waits,
        poll(task, &mut first),
        poll(task, &mut second),
    ]
}

#[test]
fn a_notice_is_for_one_event(rt: HostRuntime) {
    let (one, other) = (event(&rt, rt.alloc()), event(&rt, rt.alloc()));
    let seen = of_two_events(rt, &one, &other, &task(&rt));
    let wanted = [
        Said::Number(5),
        Said::Word("pending"),
        Said::Word("finished"),
        Said::Number(6),
    ];
    expect_equal(&rt, &seen, &wanted);
}
