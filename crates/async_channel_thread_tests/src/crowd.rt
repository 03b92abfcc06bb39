//! Four threads send and four receive, as the tests of `async-channel` 2.5.0 have them.

use crate::checks::expect_equal;
use crate::jobs::{Job, all_done};
use crate::tally::Tally;
use async_channel::{Receiver, Sender, TryRecvError};
use channel_test_helpers::{Ends, opened};
use futures::StreamExt;
use futures::executor::block_on;
use std::alloc::AllocGlobal;
use std::random::RandomSource;
use std::sync::Wait;
use std::thread::Threads;

const COUNT: u64 = 2_500;

/// Whether all messages were sent.
fn send_all<R>(rt: R, s: &Sender<u64, R>) -> bool
where
    R: Wait + Copy + RandomSource + AllocGlobal,
{
    for i in 0..COUNT {
        if !matches!(&block_on(&rt, s.send(i)), Ok(Ok(()))) {
            return false;
        }
    }
    true
}

/// Whether as many messages came as one thread sends, and are noted.
fn receive_all<R>(rt: R, r: &Receiver<u64, R>, tally: &Tally) -> bool
where
    R: Wait + Copy + RandomSource + AllocGlobal,
{
    for _ in 0..COUNT {
        let noted = match &block_on(&rt, r.recv()) {
            Ok(Ok(message)) => tally.note(*message),
            _ => false,
        };
        if !noted {
            return false;
        }
    }
    true
}

/// The same, by a receiver of the thread's own as a stream.
fn stream_all<R>(rt: R, own: Receiver<u64, R>, tally: &Tally) -> bool
where
    R: Wait + Copy + RandomSource + AllocGlobal,
{
    let mut stream = own;
    let mut right = true;
    for _ in 0..COUNT {
        right = right
            & match &block_on(&rt, stream.next()) {
                Ok(Some(Ok(message))) => tally.note(*message),
                _ => false,
            };
    }
    right
}

/// What one thread does with the messages of the crowd.
#[derive(Drop)]
enum Work<'a, R: Wait + Copy> {
    Send(&'a Sender<u64, R>),
    Receive(&'a Receiver<u64, R>, &'a Tally),
    Stream(Receiver<u64, R>, &'a Tally),
}

impl<R: Wait + Copy + RandomSource + AllocGlobal> Job<R> for Work<'_, R> {
    type Done = bool;

    fn run(self, rt: R) -> bool {
        match self {
            Work::Send(s) => send_all(rt, s),
            Work::Receive(r, tally) => receive_all(rt, r, tally),
            Work::Stream(own, tally) => stream_all(rt, own, tally),
        }
    }
}

/// The jobs of four who send and four who receive, as streams or not; none where memory or a handle was refused.
fn jobs_of_eight<'a, R: Wait + Copy + AllocGlobal>(
    rt: R,
    ends: &'a Ends<R>,
    tally: &'a Tally,
    is_streamed: bool,
) -> Option<Vec<Work<'a, R>>> {
    let mut jobs = Vec::new(rt.alloc());
    for _ in 0..4 {
        jobs.push(Work::Send(&ends.0)).ok()?;
        let receives = if is_streamed {
            Work::Stream(ends.1.try_clone().ok()?, tally)
        } else {
            Work::Receive(&ends.1, tally)
        };
        jobs.push(receives).ok()?;
    }
    Some(jobs)
}

/// Whether eight threads at once did what they were to do. `None` where memory or a handle was refused.
fn all_did<R>(rt: R, ends: &Ends<R>, tally: &Tally, is_streamed: bool) -> Option<bool>
where
    R: Wait + Threads + Copy + RandomSource + AllocGlobal + Send + Sync,
{
    let jobs = jobs_of_eight(rt, ends, tally, is_streamed)?;
    let done = all_done(rt, jobs).ok()?;
    let mut right = done.len() == 8;
    for each in done.iter() {
        right = right & *each;
    }
    Some(right)
}

/// Whether they did, and each message came four times, and no other.
fn each_four_times<R>(rt: R, capacity: usize, is_streamed: bool) -> Option<bool>
where
    R: Wait + Threads + Copy + RandomSource + AllocGlobal + Send + Sync,
{
    let tally = Tally::new(rt.alloc(), COUNT)?;
    let ends = opened(rt, rt.alloc(), capacity)?;
    let did = all_did(rt, &ends, &tally, is_streamed);
    let is_empty = ends.1.try_recv() == Err(TryRecvError::Empty);
    Some(did == Some(true) && tally.all_are(4) && is_empty)
}

#[test]
fn many_senders_many_receivers(rt: HostRuntime) {
    for capacity in [3, 0] {
        expect_equal(&rt, &each_four_times(rt, capacity, false), &Some(true));
    }
}

#[test]
fn many_senders_many_streams(rt: HostRuntime) {
    for capacity in [3, 0] {
        expect_equal(&rt, &each_four_times(rt, capacity, true), &Some(true));
    }
}
