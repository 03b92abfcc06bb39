//! Two threads poll sends by hand and two poll receives. Afterwards what was woken is polled until nothing is: then nobody is
//! pending whom a message or a place lets go on, and each message that was accepted was received once or is left.

use crate::checks::expect_true;
use crate::jobs::{Job, all_done};
use crate::tally::Tally;
use async_channel::{Receiver, Recv, Send as Sending, Sender};
use channel_test_helpers::{Ends, Said, opened, receives, sends};
use futures::test::MockTask;
use std::alloc::AllocGlobal;
use std::random::RandomSource;
use std::sync::Wait;
use std::thread::Threads;
use std::{mem, thread};

const POLLS: u64 = 1_000;

/// The messages of the second sender begin here.
const SECOND: u64 = 2_000;

/// No message is as great as this.
const LIMIT: u64 = 4_000;

/// How many messages went, and whether those of each sender went in order, and each operation had a task.
#[derive(Clone, Copy)]
struct Went {
    count: u64,
    first: u64,
    second: u64,
    right: bool,
}

impl Went {
    fn new() -> Went {
        Went {
            count: 0,
            first: 0,
            second: SECOND,
            right: true,
        }
    }

    /// One message more, which is no earlier one of its sender.
    fn note(&mut self, message: u64) {
        self.count = self.count.wrapping_add(1);
        let next = message.wrapping_add(1);
        if message < SECOND {
            self.right = self.right && self.first <= message;
            self.first = next;
        } else {
            self.right = self.right && self.second <= message;
            self.second = next;
        }
    }
}

/// What one thread polls: sends from this message on, or receives.
#[derive(Drop)]
enum Polls<'a, R: Wait + Copy> {
    Sends(&'a Sender<u64, R>, u64, MockTask),
    Receives(&'a Receiver<u64, R>, &'a Tally, MockTask),
}

/// An operation.
#[derive(Drop)]
enum Operation<'a, R: Wait + Copy> {
    Send(Sending<'a, u64, R>),
    Recv(Recv<'a, u64, R>),
}

/// What a thread had accepted or got, the first message of one that sends, its last operation with its task, and whether that is done.
#[derive(Drop)]
struct Last<'a, R: Wait + Copy> {
    went: Went,
    from: u64,
    task: MockTask,
    operation: Operation<'a, R>,
    is_done: bool,
}

/// A task for the next operation in the place of this one: whether one was to be had.
fn renews<R: RandomSource + AllocGlobal>(rt: &R, task: &mut MockTask) -> bool {
    match MockTask::new(rt) {
        Ok(next) => {
            drop(mem::replace(task, next));
            true
        }
        Err(_) => false,
    }
}

fn poll_sends<R>(rt: R, s: &Sender<u64, R>, from: u64, task: MockTask) -> Last<'_, R>
where
    R: Wait + Copy + RandomSource + AllocGlobal,
{
    let mut went = Went::new();
    let mut task = task;
    let mut send = s.send(from);
    for _ in 0..POLLS {
        if sends(&task, &mut send) == Said::Done {
            let message = from.wrapping_add(went.count);
            went.note(message);
            went.right = renews(&rt, &mut task) && went.right;
            send = s.send(message.wrapping_add(1));
        } else {
            thread::yield_now();
        }
    }
    Last {
        went,
        from,
        task,
        operation: Operation::Send(send),
        is_done: false,
    }
}

fn poll_receives<'a, R>(
    rt: R,
    r: &'a Receiver<u64, R>,
    tally: &Tally,
    task: MockTask,
) -> Last<'a, R>
where
    R: Wait + Copy + RandomSource + AllocGlobal,
{
    let mut went = Went::new();
    let mut task = task;
    let mut recv = r.recv();
    for _ in 0..POLLS {
        if let Said::Got(message) = receives(&task, &mut recv) {
            went.note(message);
            tally.note(message);
            went.right = renews(&rt, &mut task) && went.right;
            recv = r.recv();
        } else {
            thread::yield_now();
        }
    }
    Last {
        went,
        from: 0,
        task,
        operation: Operation::Recv(recv),
        is_done: false,
    }
}

impl<'a, R: Wait + Copy + RandomSource + AllocGlobal> Job<R> for Polls<'a, R> {
    type Done = Last<'a, R>;

    fn run(self, rt: R) -> Last<'a, R> {
        match self {
            Polls::Sends(sender, from, task) => poll_sends(rt, sender, from, task),
            Polls::Receives(receiver, tally, task) => poll_receives(rt, receiver, tally, task),
        }
    }
}

/// Polls an operation that was woken, unless it is done.
fn settle<R: Wait + Copy>(last: &mut Last<'_, R>, tally: &Tally) {
    if last.is_done || !last.task.is_woken() {
        return;
    }
    match &mut last.operation {
        Operation::Send(send) => if sends(&last.task, send) == Said::Done {
            last.is_done = true;
            let message = last.from.wrapping_add(last.went.count);
            last.went.note(message);
        },
        Operation::Recv(recv) => if let Said::Got(message) = receives(&last.task, recv) {
            last.is_done = true;
            last.went.note(message);
            tally.note(message);
        },
    }
}

/// What is still in the channel.
fn drain<R: Wait + Copy>(r: &Receiver<u64, R>, tally: &Tally) -> Went {
    let mut left = Went::new();
    for _ in 0..LIMIT {
        match r.try_recv() {
            Ok(message) => {
                left.note(message);
                tally.note(message);
            }
            Err(_) => return left,
        }
    }
    left
}

/// What is known of the last operations: whether each that isn't done was not woken, and has nothing that lets it go on; whether what went by
/// each thread went in order; and how many messages each of two senders had accepted.
fn rests<R: Wait + Copy>(all: &Vec<Last<'_, R>>, r: &Receiver<u64, R>) -> (bool, [u64; 2]) {
    let (is_full, is_empty) = (r.is_full(), r.is_empty());
    let mut right = all.len() == 4;
    let (mut first, mut second) = (0u64, 0u64);
    for last in all.iter() {
        right = right && last.went.right && (last.is_done || !last.task.is_woken());
        match &last.operation {
            Operation::Send(_) => {
                right = right && (last.is_done || is_full);
                if last.from == SECOND {
                    second = last.went.count;
                } else {
                    first = last.went.count;
                }
            }
            Operation::Recv(_) => right = right && (last.is_done || is_empty),
        }
    }
    (right, [first, second])
}

/// Polls whom was woken until nobody is. Then nobody who isn't done could go on, and each message that was sent was received once or is left,
/// those of each sender in order.
fn settles<R: Wait + Copy>(
    all: &mut Vec<Last<'_, R>>,
    r: &Receiver<u64, R>,
    tally: &Tally,
) -> bool {
    for _ in 0..100 {
        for last in all.iter_mut() {
            settle(last, tally);
        }
    }
    let (right, [first, second]) = rests(all, r);
    let left = drain(r, tally);
    right && left.right && tally.are_once(first, SECOND, second)
}

/// Two threads poll sends, and two poll receives: the last operations of each. `None` where memory was refused.
fn poll_all<'a, R>(rt: R, ends: &'a Ends<R>, tally: &'a Tally) -> Option<Vec<Last<'a, R>>>
where
    R: Wait + Threads + Copy + RandomSource + AllocGlobal + Send + Sync,
{
    let mut jobs = Vec::new(rt.alloc());
    for from in [0, SECOND] {
        let task = MockTask::new(&rt).ok()?;
        jobs.push(Polls::Sends(&ends.0, from, task)).ok()?;
        let task = MockTask::new(&rt).ok()?;
        jobs.push(Polls::Receives(&ends.1, tally, task)).ok()?;
    }
    all_done(rt, jobs).ok()
}

#[test]
fn at_rest(rt: HostRuntime) {
    for capacity in [1, 3, 0] {
        for _ in 0..5 {
            let tally = Tally::new(rt.alloc(), LIMIT).expect(&rt, "memory");
            let ends = opened(rt, rt.alloc(), capacity).expect(&rt, "memory");
            let mut last = poll_all(rt, &ends, &tally).expect(&rt, "memory");
            expect_true(&rt, settles(&mut last, &ends.1, &tally));
        }
    }
}
