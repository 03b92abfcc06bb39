//! What the refusals of this crate print.

ghost use Rattle.std.specs.Prelude.{◌≡◌};

use crate::checks::expect_equal;
use crate::notices::Nobody;
use event_listener::error::{ListenError, NoMemory, NotifyError, UnknownListener};
use event_listener::id::IdsUsedUp;
use event_listener::key::Key;
use event_listener::list::List;
use event_listener::listener::{PollFault, WaitError};
use event_listener::recorded::{RecordedCall, RecordedEvent, RegisterError};
use event_listener::run::{ListCall, ListReply, ListRun, Target};
use std::alloc::{AllocGlobal, Global};
use std::collections::VecDeque;
use std::fmt;
use std::marker::Brand;
use std::process::Abort;
use std::sync::Wait;
use std::sync::ledger::{Blank, Ledger};

/// Whether a value prints this text.
fn prints<E: fmt::Display + Drop>(rt: &impl AllocGlobal, error: E, text: &str) -> bool {
    match format!(in rt.alloc(); "{error}") {
        Ok(printed) => printed.as_str() == text,
        Err(_) => false,
    }
}

/// Whether a value is shown so where a test fails.
fn shows<T: fmt::Debug + Drop>(rt: &impl AllocGlobal, it: T, text: &str) -> bool {
    match format!(in rt.alloc(); "{it:?}") {
        Ok(shown) => shown.as_str() == text,
        Err(_) => false,
    }
}

/// Whether a value is the same as one, and another than the other.
fn tells_apart<T: PartialEq + Drop>(it: T, same: T, other: T) -> bool {
    it == same && it != other
}

#[test]
fn refusals_say_why(rt: HostRuntime) {
    let all = [
        prints(&rt, NoMemory, "want of memory"),
        prints(&rt, UnknownListener, "no such listener"),
        prints(&rt, ListenError::NoMemory, "want of memory"),
        prints(&rt, ListenError::SerialsUsedUp, "all serials were given"),
        prints(
            &rt,
            NotifyError { told: 2 },
            "a tag was refused after 2 were told",
        ),
        prints(&rt, IdsUsedUp, "all identities were given"),
        prints(
            &rt,
            PollFault::NeverInserted,
            "the listener has given its tag",
        ),
        prints(&rt, RegisterError::NoMemory, "want of memory"),
        prints(&rt, RegisterError::UnknownListener, "no such listener"),
    ];
    expect_equal(&rt, &all, &[true; 9]);
}

#[test]
fn waits_that_did_not_begin_say_why(rt: HostRuntime) {
    let all = [
        prints(&rt, WaitError::NoMemory(5u8), "want of memory"),
        shows(&rt, WaitError::NoMemory(5u8), "NoMemory(..)"),
        prints(
            &rt,
            WaitError::NeverInserted(6u8),
            "the listener has given its tag",
        ),
        shows(&rt, WaitError::NeverInserted(6u8), "NeverInserted(..)"),
    ];
    expect_equal(&rt, &all, &[true; 4]);
    let back = (
        WaitError::NoMemory(5u8).into_inner(),
        WaitError::NeverInserted(6u8).into_inner(),
    );
    expect_equal(&rt, &back, &(5, 6));
}

/// The key of the first listener of a list, which is that of any other list's.
fn first_key(rt: &(impl AllocGlobal + Abort)) -> Key {
    let mut list: List<u8, u8> = List::new(rt.alloc());
    list.insert().expect(rt, "memory")
}

#[test]
fn calls_are_compared_and_shown(rt: HostRuntime) {
    let apart = tells_apart::<ListCall<u8, u8>>(
        ListCall::Insert,
        ListCall::Insert,
        ListCall::Reserve { extra: 1 },
    );
    let poll: ListCall<u8, u8> = ListCall::Poll {
        listener: Target::Place(0),
    };
    let shown = shows(&rt, poll, "Poll { listener: Place(0) }");
    expect_equal(&rt, &[apart, shown], &[true; 2]);
}

/// An insertion, and a poll of the listener that it gave.
fn listen_and_poll(alloc: Global) -> Option<ListRun<u8>> {
    let mut list: List<u8, u8> = List::new(alloc);
    let mut calls: VecDeque<ListCall<u8, u8>> = VecDeque::new(alloc);
    let listen = calls.push_back(ListCall::Insert);
    let poll = calls.push_back(ListCall::Poll {
        listener: Target::Place(0),
    });
    let run = list.run(alloc, &mut calls, &mut Nobody);
    (listen.is_ok() && poll.is_ok()).then_some(run)
}

/// What that run is to answer.
fn run_of_them(alloc: Global, key: Key) -> Option<ListRun<u8>> {
    let mut replies: Vec<ListReply<u8>> = Vec::new(alloc);
    let insert = replies.push(ListReply::Insert(Ok(key)));
    let poll = replies.push(ListReply::Poll(Ok(None)));
    let run = ListRun {
        replies,
        stopped: None,
    };
    (insert.is_ok() && poll.is_ok()).then_some(run)
}

/// A run of no call, which stopped.
fn stopped_run(alloc: Global) -> ListRun<u8> {
    ListRun {
        replies: Vec::new(alloc),
        stopped: Some(NoMemory),
    }
}

#[test]
fn runs_are_compared_and_shown(rt: HostRuntime) {
    let alloc = rt.alloc();
    let key = first_key(&rt);
    let all = [
        tells_apart(
            listen_and_poll(alloc),
            run_of_them(alloc, key),
            Some(stopped_run(alloc)),
        ),
        shows(
            &rt,
            listen_and_poll(alloc),
            "Some(ListRun { replies: [Insert(Ok(Key { slot: 0, serial: 0 })), Poll(Ok(None))], stopped: None })",
        ),
        shows(
            &rt,
            stopped_run(alloc),
            "ListRun { replies: [], stopped: Some(NoMemory) }",
        ),
    ];
    expect_equal(&rt, &all, &[true; 3]);
}

/// What a recorded event wrote down of an insertion.
fn recorded_insertion<L: Ledger, R: Wait + AllocGlobal>(
    rt: &R,
    blank: Blank,
) -> Vec<RecordedCall<u8, u8>>
    requires name { blank.name ≡ L.name }
    requires parts { (blank.parts ≡ L.parts) × (blank.parts ≡ 1) }
{
    let (book, mut mine) = blank.open::<L>();
    let event = RecordedEvent::<u8, u8, L>::new(rt.alloc(), book);
    let _ = event.insert(rt, &mut mine);
    event.into_parts().1
}

#[test]
fn records_are_compared_and_shown(rt: HostRuntime) {
    let key = first_key(&rt);
    let listened = RecordedCall::Listened { key };
    let calls = recorded_insertion::<Brand, HostRuntime>(&rt, Blank::new(1));
    let all = [
        tells_apart::<RecordedCall<u8, u8>>(
            RecordedCall::Listened { key },
            RecordedCall::Listened { key },
            RecordedCall::Polled { key, tag: 1 },
        ),
        calls.as_slice() == [listened].as_slice(),
        shows(&rt, calls, "[Listened { key: Key { slot: 0, serial: 0 } }]"),
    ];
    expect_equal(&rt, &all, &[true; 3]);
}
