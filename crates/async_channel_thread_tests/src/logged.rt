//! What calls of handles do to a channel without a bound, as a trace of the caller's sees it: alone, and beside another thread.

use crate::checks::{expect_equal, expect_true};
use crate::jobs::{Job, both};
use async_channel::{Calls, Telling, TryRecvError, WaitList};
use channel_test_helpers::log::{
    Did, Log, close_logged, recv_blocking_logged, try_recv_logged, try_send_logged,
};
use channel_test_helpers::{Ends, opened};
use std::alloc::{AllocGlobal, Global};
use std::sync::Wait;
use std::thread::Threads;

/// Those who wait for a message are told.
const SENT: [Did; 3] = [
    Did::Operated,
    Did::Told(WaitList::Receives, Telling::One),
    Did::Told(WaitList::Streams, Telling::All),
];

/// One who waits for a place is told.
const RECEIVED: [Did; 2] = [Did::Operated, Did::Told(WaitList::Sends, Telling::One)];

/// So did a receive whose message came while it listened, before it was to sleep: its listener leaves.
const RECEIVED_LISTENING: [Did; 3] = [
    Did::Operated,
    Did::Told(WaitList::Sends, Telling::One),
    Did::TakenOff(WaitList::Receives),
];

/// All who wait are told.
const CLOSED: [Did; 5] = [
    Did::Operated,
    Did::Told(WaitList::Sends, Telling::All),
    Did::Told(WaitList::Receives, Telling::All),
    Did::Told(WaitList::Streams, Telling::All),
    Did::Told(WaitList::Closings, Telling::All),
];

/// Nothing came of it but the answer.
const ASKED: [Did; 1] = [Did::Operated];

/// A call of a channel.
#[derive(Clone, Copy)]
enum Call {
    Send,
    Receive,
    /// A receive that blocks its thread.
    Wait,
    Close,
}

/// Calls of a channel, one after another, and what each does to it.
const ALONE: [(Call, &[Did]); 9] = [
    (Call::Send, &SENT),
    (Call::Receive, &RECEIVED),
    (Call::Receive, &ASKED),
    (Call::Send, &SENT),
    (Call::Wait, &RECEIVED),
    (Call::Close, &CLOSED),
    (Call::Close, &ASKED),
    (Call::Send, &ASKED),
    (Call::Wait, &ASKED),
];

/// What a call came to: it was done, it found nothing to do, or it was refused.
#[derive(Clone, Copy, PartialEq, Eq)]
enum Came {
    Done,
    Idle,
    Refused,
}

/// Done where this is so, and else this.
fn done_or(is_done: bool, else_came: Came) -> Came {
    if is_done { Came::Done } else { else_came }
}

/// What a call came to, and what it did to its channel. `None` of one with a bound, as everywhere here.
fn log_of<R: Wait + Copy>(call: Call, ends: &Ends<R>, alloc: Global) -> Option<(Came, Log)> {
    let Calls::Traced(sends) = ends.0.calls() else {
        return None;
    };
    let Calls::Traced(receives) = ends.1.calls() else {
        return None;
    };
    let log = Log::new(alloc);
    Some(match call {
        Call::Send => {
            let (sent, log) = try_send_logged(&sends, 7, log);
            (done_or(sent.is_ok(), Came::Refused), log)
        }
        Call::Receive => {
            let (received, log) = try_recv_logged(&receives, log);
            let is_empty = received == Err(TryRecvError::Empty);
            let missed = if is_empty { Came::Idle } else { Came::Refused };
            (done_or(received.is_ok(), missed), log)
        }
        Call::Wait => {
            let (received, log) = recv_blocking_logged(&receives, log);
            (done_or(received.is_ok(), Came::Refused), log)
        }
        Call::Close => {
            let (closed, log) = close_logged(&sends, log);
            (done_or(closed, Came::Idle), log)
        }
    })
}

#[test]
fn logs_of_calls_alone(rt: HostRuntime) {
    let ends = opened(rt, rt.alloc(), 0).expect(&rt, "memory");
    for (call, lines) in ALONE {
        let (_, log) = log_of(call, &ends, rt.alloc()).expect(&rt, "no bound");
        expect_true(&rt, log.has(lines));
    }
}

/// Whether a receive that blocked ended as one by a message: it told one who waits for a place, and left no listener behind. A call that
/// slept had asked for a task.
fn ends_by_a_message(log: &Log) -> bool {
    let lines = log.lines.as_slice();
    let slept = lines.contains(&Did::Slept);
    let parked = lines.contains(&Did::Parked);
    let listened = lines.contains(&Did::Inserted(WaitList::Receives));
    let last = lines.ends_with(&RECEIVED) || listened && lines.ends_with(&RECEIVED_LISTENING);
    last && (parked || !slept)
}

/// Whether a call that came to this wrote the lines of it, on a channel that is open at first and without a bound.
fn is_right(call: Call, came: Came, log: &Log) -> bool {
    match (call, came) {
        (Call::Send, Came::Done) => log.has(&SENT),
        (Call::Receive, Came::Done) => log.has(&RECEIVED),
        (Call::Wait, Came::Done) => ends_by_a_message(log),
        (Call::Close, Came::Done) => log.has(&CLOSED),
        (_, Came::Idle) => log.has(&ASKED),
        (_, Came::Refused) => false,
    }
}

/// Makes so many calls, which write what they did.
#[derive(Drop)]
struct Logged<'a, R: Wait + Copy> {
    ends: &'a Ends<R>,
    alloc: Global,
    call: Call,
    calls: u64,
}

impl<R: Wait + Copy> Job<R> for Logged<'_, R> {
    /// How many of them were done, and how many were refused or wrote other lines than those of what they came to.
    type Done = (u64, u64);

    fn run(self, _rt: R) -> (u64, u64) {
        let (mut done, mut wrong) = (0u64, 0u64);
        for _ in 0..self.calls {
            let (is_done, right) = match log_of(self.call, self.ends, self.alloc) {
                Some((came, log)) => (came == Came::Done, is_right(self.call, came, &log)),
                None => (false, false),
            };
            done = done.wrapping_add(u64::from(is_done));
            wrong = wrong.wrapping_add(u64::from(!right));
        }
        (done, wrong)
    }
}

/// Two threads at once on a channel of their own, each with so many of these calls: what came of each. `None` where memory was refused.
fn logged_at_once<R>(rt: R, first: Call, second: Call, calls: u64) -> Option<[(u64, u64); 2]>
where
    R: Wait + Threads + Copy + AllocGlobal + Send + Sync,
{
    let ends = opened(rt, rt.alloc(), 0)?;
    let job = Logged {
        ends: &ends,
        alloc: rt.alloc(),
        call: first,
        calls,
    };
    let other = Logged {
        ends: &ends,
        alloc: rt.alloc(),
        call: second,
        calls,
    };
    let (came, came_too) = both(rt, job, other)?;
    Some([came, came_too])
}

/// Each log is that of one call with its answer.
#[test]
fn logs_of_calls_at_once(rt: HostRuntime) {
    for _ in 0..3u8 {
        let logged = logged_at_once(rt, Call::Send, Call::Receive, 500);
        let [(sent, wrong), (_, wrong_too)] = logged.expect(&rt, "memory");
        expect_equal(&rt, &(sent, wrong, wrong_too), &(500, 0, 0));
    }
}

/// Two threads close at once: one of them says that it did, and both wrote the lines of what they said.
#[test]
fn logs_of_two_closings(rt: HostRuntime) {
    for _ in 0..100u8 {
        let logged = logged_at_once(rt, Call::Close, Call::Close, 1);
        let [(first, wrong), (second, wrong_too)] = logged.expect(&rt, "memory");
        expect_equal(&rt, &(first ^ second, wrong, wrong_too), &(1, 0, 0));
    }
}

/// One thread receives, the other one sends.
#[test]
fn logs_of_a_receive_that_blocks(rt: HostRuntime) {
    for _ in 0..100u8 {
        let logged = logged_at_once(rt, Call::Wait, Call::Send, 1);
        expect_equal(&rt, &logged, &Some([(1, 0), (1, 0)]));
    }
}
