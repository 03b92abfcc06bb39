//! Events and their listeners: the rows of [`event_rows`](crate::event_rows), and what tests of them share.

use crate::checks::expect_rows;
use crate::event_rows::{TAG_ROWS, UNIT_ROWS};
use crate::listening::Listening;
use crate::tags::Tags;
use crate::units::Units;
use event_listener::event::Event;
use event_listener::id::EventIds;
use futures::task::{Poll, Source, Waker};
use futures::test::MockTask;
use std::alloc::{AllocGlobal, Global};
use std::process::Abort;
use std::random::RandomSource;

/// A new waker of the task; nothing where none was got.
pub(crate) fn waker(task: &MockTask) -> Option<Waker> {
    let source = Source::new();
    let mut slot: Option<Waker> = None;
    let _armed: Poll<()> = task.enter(|cx| cx.register(&source, &mut slot));
    slot
}

/// An event with an identity of its own.
pub(crate) fn event<T: Drop, A: Abort>(rt: &A, alloc: Global) -> Event<T> {
    let mut ids = EventIds::new();
    Event::with_tag(alloc, ids.next().expect(rt, "an identity"))
}

/// A task to poll with.
pub(crate) fn task<A: Abort + RandomSource + AllocGlobal>(rt: &A) -> MockTask {
    MockTask::new(rt).expect(rt, "memory")
}

#[test]
fn rows(rt: HostRuntime) {
    let all = Listening::of(rt, rt.alloc(), event(&rt, rt.alloc()), task(&rt));
    expect_rows(&rt, UNIT_ROWS, &mut Units { all }, 12);
}

#[test]
fn rows_of_tags(rt: HostRuntime) {
    let all = Listening::of(rt, rt.alloc(), event(&rt, rt.alloc()), task(&rt));
    expect_rows(&rt, TAG_ROWS, &mut Tags { all, made: 0 }, 6);
}
