//! Listeners under names, as a user writes them.

use crate::checks::{expect_equal, expect_true};
use crate::event::{event, task, waker};
use crate::made::said_by_poll;
use event_listener::error::{ListenError, NoMemory};
use event_listener::event::Event;
use event_listener::into_notification::IntoNotification;
use event_listener::listener::{Listener, WaitError};
use event_listener::stack::{StackListener, StackSlot};
use futures::test::MockTask;
use std::alloc::Global;
use std::process::Abort;
use std::sync::Wait;
use std::time::{Clock, Duration, Instant};
use worked_rows::Said;

/// No listener is made under a name, for want of memory or of serials.
#[derive(Drop)]
struct Stuck;

impl From<NoMemory> for Stuck {
    fn from(_: NoMemory) -> Stuck {
        Stuck
    }
}

impl From<ListenError> for Stuck {
    fn from(_: ListenError) -> Stuck {
        Stuck
    }
}

/// How many each of three notices told, and what polls of three listeners gave.
#[derive(Clone, Copy)]
struct Seen {
    told: [usize; 3],
    polls: [Said; 3],
}

/// What a poll by hand gives.
fn poll<R: Wait + Copy>(task: &MockTask, listener: &mut StackListener<'_, (), R>) -> Said {
    match waker(task) {
        Some(waker) => said_by_poll(listener.poll(waker)),
        None => Said::Word("no waker"),
    }
}

/// Three notices.
fn tell<R: Wait>(rt: &R, event: &Event<()>) -> [usize; 3] {
    [
        event.notify_additional(rt, 1),
        event.notify(rt, 1u8).unwrap_or(9),
        event.notify_additional(rt, 1),
    ]
}

/// A listener by name, behind two others: after the notices it is polled.
fn third_by_name<R: Wait + Copy>(
    rt: R,
    alloc: Global,
    event: &Event<()>,
    task: &MockTask,
    seen: &mut Seen,
) -> Result<(), Stuck> {
    event_listener::listener!(rt, alloc, event => l3);
    seen.told = tell(&rt, event);
    seen.polls[2] = poll(task, &mut l3);
    Ok(())
}

/// A listener by name, behind another: it is polled once the third one is gone.
fn second_by_name<R: Wait + Copy>(
    rt: R,
    alloc: Global,
    event: &Event<()>,
    task: &MockTask,
    seen: &mut Seen,
) -> Result<(), Stuck> {
    event_listener::listener!(rt, alloc, event => l2);
    let third = third_by_name(rt, alloc, event, task, seen);
    seen.polls[1] = poll(task, &mut l2);
    third
}

/// Three listeners by name, each in a function of its own. The first one is polled last.
fn first_by_name<R: Wait + Copy>(
    rt: R,
    alloc: Global,
    event: &Event<()>,
    task: &MockTask,
    seen: &mut Seen,
) -> Result<(), Stuck> {
    event_listener::listener!(rt, alloc, event => l1);
    let others = second_by_name(rt, alloc, event, task, seen);
    seen.polls[0] = poll(task, &mut l1);
    others
}

#[test]
fn slots(rt: HostRuntime) {
    let mut seen = Seen {
        told: [9; 3],
        polls: [Said::Ok; 3],
    };
    let all = first_by_name(
        rt,
        rt.alloc(),
        &event(&rt, rt.alloc()),
        &task(&rt),
        &mut seen,
    );
    expect_true(&rt, all.is_ok());
    expect_equal(&rt, &seen.told, &[1, 0, 1]);
    let (told, pending) = (Said::Word("told"), Said::Word("pending"));
    expect_equal(&rt, &seen.polls, &[told, told, pending]);
}

/// Whether a listener came back from a wait since it was finished, and had no tag left.
fn is_back<R: Wait + Copy>(
    waited: Result<Option<u32>, WaitError<StackListener<'_, u32, R>>>,
) -> bool {
    match waited {
        Err(WaitError::NeverInserted(listener)) => !listener.discard(),
        waited => {
            drop(waited);
            false
        }
    }
}

/// Three listeners of one slot: whether they are of one event, the second one comes back from a wait once it is finished, and the third one
/// is told nothing; how many two notices told and how many are left; what the wait of the first one and two polls of the second one say.
fn of_one_slot<R: Wait + Clock + Abort + Copy>(
    rt: R,
    alloc: Global,
    event: &Event<u32>,
    task: &MockTask,
) -> ([bool; 3], [usize; 3], [Said; 3]) {
    let mut slot = StackSlot::new(rt, alloc, event).expect(&rt, "memory");
    let first = slot.listen().expect(&rt, "memory");
    let mut second = slot.listen().expect(&rt, "memory");
    let third = slot.listen().expect(&rt, "memory");
    let are_of_one = third.same_event(&second) && third.listens_to(event);
    let told = event.notify(&rt, 1u8.tag(4u32)).unwrap_or(9);
    let waited = Said::Number(u64::from(first.wait().unwrap_or(0)));
    let waits = said_by_poll(task.poll(&mut second));
    let told_again = event.notify(&rt, 1u8.tag(5u32)).unwrap_or(9);
    let polled = said_by_poll(task.poll(&mut second));
    let now = Instant::now(&rt).expect(&rt, "a clock");
    let is_back = is_back(second.wait_deadline(&rt, now));
    let is_told_nothing = third.wait_timeout(&rt, Duration::ZERO).unwrap_or(Some(9)) == None;
    (
        [are_of_one, is_back, is_told_nothing],
        [told, told_again, event.total_listeners(&rt)],
        [waited, waits, polled],
    )
}

#[test]
fn listeners_of_one_slot(rt: HostRuntime) {
    let seen = of_one_slot(rt, rt.alloc(), &event(&rt, rt.alloc()), &task(&rt));
    let said = [Said::Number(4), Said::Word("pending"), Said::Number(5)];
    expect_equal(&rt, &seen, &([true; 3], [1, 1, 0], said));
}

/// Whether the listener under the name is pending once polled; then what its wait gives after a notice.
fn waits_by_name<R: Wait + Copy>(
    rt: R,
    alloc: Global,
    event: &Event<u32>,
    task: &MockTask,
    is_pending: &mut bool,
) -> Result<u32, Stuck> {
    event_listener::listener!(rt, alloc, event => listener);
    *is_pending = task.poll(&mut listener).is_pending();
    let _ = event.notify(&rt, 1u8.tag(7u32));
    Ok(listener.wait().unwrap_or(0))
}

#[test]
fn a_listener_by_name(rt: HostRuntime) {
    let mut is_pending = false;
    let event = event(&rt, rt.alloc());
    let tag = waits_by_name(rt, rt.alloc(), &event, &task(&rt), &mut is_pending);
    expect_equal(&rt, &(is_pending, tag.unwrap_or(0)), &(true, 7));
}
