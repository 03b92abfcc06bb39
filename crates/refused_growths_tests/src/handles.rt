//! A channel's handles and polled operations.

use crate::checks::{expect_equal, expect_right, expect_seen, expect_true};
use crate::scarcity::{Attempt, Scarcity, Seen, Tried, is_out_of_memory, made, refused};
use async_channel::{Closed, OpenError, Receiver, Recv, Refused, Send, Sender, bounded, unbounded};
use channel_test_helpers::{Ends, opened};
use event_listener::error::ListenError;
use event_listener::id::EventIds;
use futures::Stream;
use futures::task::Poll;
use futures::test::MockTask;
use std::alloc::Global;
use std::sync::Wait;

/// The opening of a channel with so many places, or without a bound where that is 0.
#[derive(Drop)]
struct Openings<R: Wait + Copy> {
    rt: R,
    alloc: Global,
    ids: EventIds,
    capacity: usize,
}

impl<R: Wait + Copy> Attempt for Openings<R> {
    fn make(&mut self) -> Tried {
        let ends = if self.capacity == 0 {
            unbounded::<u64, R>(self.rt, self.alloc, &mut self.ids)
        } else {
            bounded::<u64, R>(self.rt, self.alloc, self.capacity, &mut self.ids)
        };
        match ends {
            Ok((sender, receiver)) => made(sender.is_empty() && !receiver.is_closed()),
            Err(OpenError::NoMemory) => Tried::Refused,
            Err(_) => Tried::Wrong,
        }
    }
}

/// Opens three channels, of which one has so many places that none of their lists, let go, serves for the value that the handles share;
/// then the number of the next identity.
fn open_all<R: Wait + Copy>(rt: R, alloc: Global) -> (Seen, u64) {
    let mut openings = Openings {
        rt,
        alloc,
        ids: EventIds::new(),
        capacity: 0,
    };
    let mut scarcity = Scarcity::new(alloc);
    for capacity in [0, 1, 40] {
        openings.capacity = capacity;
        scarcity.refuse_each(&mut openings);
    }
    let seen = scarcity.end();
    let next = match openings.ids.next() {
        Ok(id) => id.number(),
        Err(_) => 0,
    };
    (seen, next)
}

/// An opening that is refused takes no identities: each of the three takes four.
#[test]
fn openings_of_channels(rt: HostRuntime) {
    let (seen, next) = open_all(rt, rt.alloc());
    expect_seen(&rt, &seen, 3, 42);
    expect_equal(&rt, &next, &12);
}

/// The next send without a bound.
#[derive(Drop)]
struct Sends<R: Wait + Copy> {
    ends: Ends<R>,
    next: u64,
}

impl<R: Wait + Copy> Attempt for Sends<R> {
    fn make(&mut self) -> Tried {
        let sent = if self.next % 3 == 0 {
            self.ends.0.force_send(self.next).is_ok()
        } else {
            self.ends.0.try_send(self.next).is_ok()
        };
        let held = self.ends.0.len() as u64;
        if sent {
            self.next = self.next.wrapping_add(1);
            made(held == self.next)
        } else {
            let again = self.ends.0.try_send(self.next);
            refused(again == Err(Refused::NoMemory(self.next)) && held == self.next)
        }
    }
}

/// How many messages are sent.
const COUNT: u64 = 100;

/// Sends all, and receives them, the first ones alone and then the others at once.
fn send_all<R: Wait + Copy>(rt: R, alloc: Global) -> Option<(Seen, bool)> {
    let mut sends = Sends {
        ends: opened(rt, alloc, 0)?,
        next: 0,
    };
    let mut scarcity = Scarcity::new(alloc);
    for _ in 0..COUNT {
        scarcity.refuse_each(&mut sends);
    }
    let seen = scarcity.end();
    let mut in_order = true;
    for message in 0..COUNT {
        in_order = in_order & (sends.ends.1.try_recv() == Ok(message));
    }
    Some((seen, in_order && sends.ends.1.is_empty()))
}

#[test]
fn sends_without_a_bound(rt: HostRuntime) {
    let (seen, in_order) = send_all(rt, rt.alloc()).expect(&rt, "memory");
    expect_seen(&rt, &seen, 4, 18);
    expect_true(&rt, in_order);
}

/// The last message that goes through a channel one by one; the first is 1.
const LAST: u64 = 1_000;

/// The last one while there is memory.
const LAST_WITH_MEMORY: u64 = 31;

/// The next message that is sent into a channel without a bound, and received before the one after it comes.
#[derive(Drop)]
struct Passing<R: Wait + Copy> {
    alloc: Global,
    ends: Ends<R>,
    next: u64,
}

impl<R: Wait + Copy> Passing<R> {
    /// Whether this message is sent, by one of the calls that don't poll.
    fn sends(&self, message: u64) -> bool {
        let sender = &self.ends.0;
        match message % 3 {
            0 => sender.try_send(message) == Ok(()),
            1 => sender.force_send(message) == Ok(None),
            _ => sender.send_blocking(message) == Ok(()),
        }
    }

    /// Whether it is received, by one of the calls that don't poll.
    fn receives(&self, message: u64) -> bool {
        let receiver = &self.ends.1;
        if message % 2 == 0 {
            receiver.try_recv() == Ok(message)
        } else {
            receiver.recv_blocking() == Ok(message)
        }
    }

    /// Whether the next message was sent and received. A receive that blocks is called only where there is a message.
    fn pass(&mut self) -> bool {
        let message = self.next;
        self.next = message.wrapping_add(1);
        self.sends(message) && self.ends.1.len() == 1 && self.receives(message)
    }
}

impl<R: Wait + Copy> Attempt for Passing<R> {
    fn make(&mut self) -> Tried {
        made(is_out_of_memory(self.alloc) && self.pass() && is_out_of_memory(self.alloc))
    }
}

/// Passes all messages, the later ones with no memory at hand; then whether the earlier ones passed, and the next message.
fn pass_all<R: Wait + Copy>(rt: R, alloc: Global) -> Option<(Seen, bool, u64)> {
    let mut passing = Passing {
        alloc,
        ends: opened(rt, alloc, 0)?,
        next: 1,
    };
    let mut passed = true;
    for _ in 0..LAST_WITH_MEMORY {
        passed = passed & passing.pass();
    }
    let mut scarcity = Scarcity::new(alloc);
    for _ in LAST_WITH_MEMORY..LAST {
        scarcity.refuse_none(&mut passing);
    }
    Some((scarcity.end(), passed, passing.next))
}

/// A channel without a bound whose messages go through one by one uses its blocks again: it needs no memory for any message after the
/// first ones.
#[test]
fn messages_one_by_one_through_handles(rt: HostRuntime) {
    let (seen, passed, next) = pass_all(rt, rt.alloc()).expect(&rt, "memory");
    expect_right(&rt, &seen);
    expect_true(&rt, passed && seen.refusals == 0 && next == 1_001);
}

/// A receive of several.
#[derive(Drop)]
struct Several<R: Wait + Copy> {
    ends: Ends<R>,
    got: Option<Vec<u64>>,
}

impl<R: Wait + Copy> Attempt for Several<R> {
    fn make(&mut self) -> Tried {
        match self.ends.1.recv_many(60) {
            Ok(messages) => {
                self.got = Some(messages);
                made(self.ends.0.len() == 40)
            }
            Err(Refused::NoMemory(())) => refused(self.ends.0.len() == 100),
            Err(_) => Tried::Wrong,
        }
    }
}

/// Whether these are the numbers from 0 to 59.
fn are_first(messages: &[u64]) -> bool {
    let mut in_order = messages.len() == 60;
    for (place, message) in messages.iter().enumerate() {
        in_order = in_order & (*message == place as u64);
    }
    in_order
}

/// Receives sixty of a hundred messages at once.
fn receive_several<R: Wait + Copy>(rt: R, alloc: Global) -> Option<(Seen, bool)> {
    let mut several = Several {
        ends: opened(rt, alloc, 0)?,
        got: None,
    };
    let mut sent = true;
    for message in 0..COUNT {
        sent = sent & several.ends.0.try_send(message).is_ok();
    }
    let mut scarcity = Scarcity::new(alloc);
    scarcity.refuse_each(&mut several);
    let seen = scarcity.end();
    let first = match &several.got {
        Some(messages) => are_first(messages.as_slice()),
        None => false,
    };
    Some((seen, sent && first && several.ends.1.try_recv() == Ok(60)))
}

/// A refused receive of several leaves all, and gets the first ones when it is made again.
#[test]
fn receives_of_several(rt: HostRuntime) {
    let (seen, right) = receive_several(rt, rt.alloc()).expect(&rt, "memory");
    expect_seen(&rt, &seen, 1, 1);
    expect_true(&rt, right);
}

/// A poll of a receive that listens. One that is refused isn't pending.
#[derive(Drop)]
struct PollsRecv<'a, R: Wait + Copy> {
    task: &'a MockTask,
    recv: Recv<'a, u64, R>,
}

impl<R: Wait + Copy> Attempt for PollsRecv<'_, R> {
    fn make(&mut self) -> Tried {
        match self.task.poll(&mut self.recv) {
            Poll::Pending => Tried::Made,
            Poll::Ready(Err(Refused::NoMemory(()))) => Tried::Refused,
            Poll::Ready(_) => Tried::Wrong,
        }
    }
}

/// A poll of a send that listens. One that is refused keeps its message.
#[derive(Drop)]
struct PollsSend<'a, R: Wait + Copy> {
    task: &'a MockTask,
    send: Send<'a, u64, R>,
}

impl<R: Wait + Copy> Attempt for PollsSend<'_, R> {
    fn make(&mut self) -> Tried {
        match self.task.poll(&mut self.send) {
            Poll::Pending => made(!self.send.is_terminated()),
            Poll::Ready(Err(Refused::NoMemory(()))) => refused(!self.send.is_terminated()),
            Poll::Ready(_) => Tried::Wrong,
        }
    }
}

/// A poll of a wait for the closing.
#[derive(Drop)]
struct PollsClosed<'a, R: Wait + Copy> {
    task: &'a MockTask,
    closed: Closed<'a, u64, R>,
}

impl<R: Wait + Copy> Attempt for PollsClosed<'_, R> {
    fn make(&mut self) -> Tried {
        match self.task.poll(&mut self.closed) {
            Poll::Pending => Tried::Made,
            Poll::Ready(Err(ListenError::NoMemory)) => Tried::Refused,
            Poll::Ready(_) => Tried::Wrong,
        }
    }
}

/// A poll of a receiver as a stream.
#[derive(Drop)]
struct PollsStream<'a, R: Wait + Copy> {
    task: &'a MockTask,
    stream: Receiver<u64, R>,
}

impl<R: Wait + Copy> Attempt for PollsStream<'_, R> {
    fn make(&mut self) -> Tried {
        let stream = &mut self.stream;
        let polled: Poll<Option<Result<u64, ListenError>>> = self
            .task
            .enter(|cx| stream.poll_next(cx));
        match polled {
            Poll::Pending => Tried::Made,
            Poll::Ready(Some(Err(ListenError::NoMemory))) => Tried::Refused,
            Poll::Ready(_) => Tried::Wrong,
        }
    }
}

/// Two receives wait; then who is woken by a message, and by the next one, and what both get.
fn wait_two<'a, R: Wait + Copy>(
    alloc: Global,
    ends: &'a Ends<R>,
    tasks: [&'a MockTask; 2],
) -> (Seen, [bool; 6]) {
    let mut first = PollsRecv {
        task: tasks[0],
        recv: ends.1.recv(),
    };
    let mut second = PollsRecv {
        task: tasks[1],
        recv: ends.1.recv(),
    };
    let mut scarcity = Scarcity::new(alloc);
    scarcity.refuse_each(&mut first);
    scarcity.refuse_each(&mut second);
    let seen = scarcity.end();
    let sent = ends.0.try_send(5) == Ok(());
    let woken = [tasks[0].is_woken(), tasks[1].is_woken()];
    let again = ends.0.try_send(6) == Ok(());
    let both = tasks[1].is_woken();
    let got = tasks[0].poll(&mut first.recv) == Poll::Ready(Ok(5))
        && tasks[1].poll(&mut second.recv) == Poll::Ready(Ok(6));
    (seen, [sent, woken[0], woken[1], again, both, got])
}

/// Nobody stays listed by a poll that was refused: the first notice is for the first who waits.
#[test]
fn receives_that_wait(rt: HostRuntime) {
    let (one, two) = (
        MockTask::new(&rt).expect(&rt, "memory"),
        MockTask::new(&rt).expect(&rt, "memory"),
    );
    let ends = opened(rt, rt.alloc(), 2).expect(&rt, "memory");
    let (seen, right) = wait_two(rt.alloc(), &ends, [&one, &two]);
    drop(ends);
    expect_seen(&rt, &seen, 2, 3);
    expect_equal(&rt, &right, &[true, true, false, true, true, true]);
}

/// Two sends wait on a full channel; then who is woken when a message is taken, and what the sends come to.
fn send_two<'a, R: Wait + Copy>(
    alloc: Global,
    ends: &'a Ends<R>,
    tasks: [&'a MockTask; 2],
) -> (Seen, [bool; 5]) {
    let filled = ends.0.try_send(1) == Ok(());
    let mut first = PollsSend {
        task: tasks[0],
        send: ends.0.send(2),
    };
    let mut second = PollsSend {
        task: tasks[1],
        send: ends.0.send(3),
    };
    let mut scarcity = Scarcity::new(alloc);
    scarcity.refuse_each(&mut first);
    scarcity.refuse_each(&mut second);
    let seen = scarcity.end();
    let got = ends.1.try_recv() == Ok(1);
    let woken = [tasks[0].is_woken(), tasks[1].is_woken()];
    let done = tasks[0].poll(&mut first.send) == Poll::Ready(Ok(()));
    let back = second.send.give_up() == Some(3) && ends.1.try_recv() == Ok(2);
    (
        seen,
        [
            filled && got,
            woken[0],
            woken[1],
            done,
            back && ends.1.is_empty(),
        ],
    )
}

/// A send whose poll is refused keeps its message.
#[test]
fn sends_that_wait(rt: HostRuntime) {
    let (one, two) = (
        MockTask::new(&rt).expect(&rt, "memory"),
        MockTask::new(&rt).expect(&rt, "memory"),
    );
    let ends = opened(rt, rt.alloc(), 1).expect(&rt, "memory");
    let (seen, right) = send_two(rt.alloc(), &ends, [&one, &two]);
    drop(ends);
    expect_seen(&rt, &seen, 2, 3);
    expect_equal(&rt, &right, &[true, true, false, true, true]);
}

/// A stream and a wait for the closing wait; then who is woken by a message and by the closing.
fn stream_and_close<'a, R: Wait + Copy>(
    alloc: Global,
    sender: &'a Sender<u64, R>,
    receiver: Receiver<u64, R>,
    tasks: [&'a MockTask; 2],
) -> (Seen, [bool; 5]) {
    let mut streams = PollsStream {
        task: tasks[0],
        stream: receiver,
    };
    let mut closes = PollsClosed {
        task: tasks[1],
        closed: sender.closed(),
    };
    let mut scarcity = Scarcity::new(alloc);
    scarcity.refuse_each(&mut streams);
    scarcity.refuse_each(&mut closes);
    let seen = scarcity.end();
    let sent = sender.try_send(5) == Ok(());
    let woken = [tasks[0].is_woken(), tasks[1].is_woken()];
    let closed = sender.close() && tasks[1].is_woken();
    let got = streams.stream.try_recv() == Ok(5);
    (seen, [sent, woken[0], woken[1], closed, got])
}

#[test]
fn streams_and_closings_that_wait(rt: HostRuntime) {
    let (one, two) = (
        MockTask::new(&rt).expect(&rt, "memory"),
        MockTask::new(&rt).expect(&rt, "memory"),
    );
    let (sender, receiver) = opened(rt, rt.alloc(), 1).expect(&rt, "memory");
    let (seen, right) = stream_and_close(rt.alloc(), &sender, receiver, [&one, &two]);
    drop(sender);
    expect_seen(&rt, &seen, 2, 4);
    expect_equal(&rt, &right, &[true, true, false, true, true]);
}

/// More handles of a channel, each let go at once.
#[derive(Drop)]
struct Handles<R: Wait + Copy> {
    ends: Ends<R>,
}

/// Whether a weak sender is had, and a sender and another weak one from it.
fn upgrades_sender<R: Wait + Copy>(sender: &Sender<u64, R>) -> bool {
    match sender.downgrade() {
        Ok(weak) => {
            let one_more = weak.try_clone().is_ok();
            one_more && matches!(weak.upgrade(), Ok(Some(_)))
        }
        Err(_) => false,
    }
}

/// Whether a weak receiver is had, and a receiver and another weak one from it.
fn upgrades_receiver<R: Wait + Copy>(receiver: &Receiver<u64, R>) -> bool {
    match receiver.downgrade() {
        Ok(weak) => {
            let one_more = weak.try_clone().is_ok();
            one_more && matches!(weak.upgrade(), Ok(Some(_)))
        }
        Err(_) => false,
    }
}

impl<R: Wait + Copy> Attempt for Handles<R> {
    fn make(&mut self) -> Tried {
        let cloned = self.ends.0.try_clone().is_ok() && self.ends.1.try_clone().is_ok();
        let upgraded = upgrades_sender(&self.ends.0) && upgrades_receiver(&self.ends.1);
        let counts = [self.ends.0.sender_count(), self.ends.1.receiver_count()];
        made(cloned && upgraded && counts == [1, 1])
    }
}

fn make_handles<R: Wait + Copy>(rt: R, alloc: Global) -> Option<Seen> {
    let mut handles = Handles {
        ends: opened(rt, alloc, 1)?,
    };
    let mut scarcity = Scarcity::new(alloc);
    scarcity.refuse_none(&mut handles);
    Some(scarcity.end())
}

/// Clones, weak handles and upgrades ask for nothing, so they are made where nothing is to be had.
#[test]
fn more_handles_take_no_memory(rt: HostRuntime) {
    let seen = make_handles(rt, rt.alloc()).expect(&rt, "memory");
    expect_true(&rt, seen.right);
}
