//! Queues: pushes without a bound, and openings.

ghost use Rattle.std.specs.Prelude.{◌<◌};

use crate::checks::{expect_right, expect_seen, expect_true};
use crate::scarcity::{Attempt, Scarcity, Seen, Tried, is_out_of_memory, made, refused};
use concurrent_queue::error::{ForcePushError, NoMemory, PopError, PushError};
use concurrent_queue::exclusive::Exclusive;
use concurrent_queue::shared::queue::ConcurrentQueue;
use std::alloc::Global;
use std::sync::Wait;

/// How many messages are pushed: as many as need four blocks of a shared queue.
const COUNT: u64 = 100;

/// The next push into a queue of one owner, each third one a push that may displace.
#[derive(Drop)]
struct Pushes {
    queue: Exclusive<u64>,
    next: u64,
}

impl Pushes {
    /// Whether the queue holds so many messages more than were pushed before.
    fn holds(&mut self, more: u64) -> bool {
        self.queue.len() as u64 == self.next.wrapping_add(more) && !self.queue.is_closed()
    }

    fn push(&mut self) -> Tried {
        match self.queue.push(self.next) {
            Ok(()) => made(self.holds(1)),
            Err(PushError::NoMemory(back)) => refused(back == self.next && self.holds(0)),
            Err(_) => Tried::Wrong,
        }
    }

    fn force(&mut self) -> Tried {
        match self.queue.force_push(self.next) {
            Ok(None) => made(self.holds(1)),
            Err(ForcePushError::NoMemory(back)) => refused(back == self.next && self.holds(0)),
            _ => Tried::Wrong,
        }
    }
}

impl Attempt for Pushes {
    fn make(&mut self) -> Tried {
        let tried = if self.next % 3 == 0 {
            self.force()
        } else {
            self.push()
        };
        if tried == Tried::Made {
            self.next = self.next.wrapping_add(1);
        }
        tried
    }
}

/// Pushes all; then whether they come out in order.
fn push_all(alloc: Global) -> (Seen, bool) {
    let mut pushes = Pushes {
        queue: Exclusive::unbounded(alloc),
        next: 0,
    };
    let mut scarcity = Scarcity::new(alloc);
    for _ in 0..COUNT {
        scarcity.refuse_each(&mut pushes);
    }
    let seen = scarcity.end();
    let mut in_order = true;
    for message in 0..COUNT {
        in_order = in_order & (pushes.queue.pop() == Ok(message));
    }
    (seen, in_order && pushes.queue.pop() == Err(PopError::Empty))
}

/// Each growth is refused; what was refused comes back, and goes when it is pushed again.
#[test]
fn pushes_of_one_owner(rt: HostRuntime) {
    let (seen, in_order) = push_all(rt.alloc());
    expect_seen(&rt, &seen, 6, 6);
    expect_true(&rt, in_order);
}

/// The last message that goes through a queue one by one; the first is 1.
const LAST: u64 = 1_000;

/// The last one while there is memory.
const LAST_WITH_MEMORY: u64 = 31;

/// The next message that is pushed into a queue of one owner, and popped before the one after it comes.
#[derive(Drop)]
struct Passing {
    alloc: Global,
    queue: Exclusive<u64>,
    next: u64,
}

impl Passing {
    /// Whether the next message went in and came out.
    fn pass(&mut self) -> bool {
        let message = self.next;
        self.next = message.wrapping_add(1);
        let is_in = self.queue.push(message) == Ok(());
        is_in & (self.queue.pop() == Ok(message))
    }
}

impl Attempt for Passing {
    fn make(&mut self) -> Tried {
        made(is_out_of_memory(self.alloc) && self.pass() && is_out_of_memory(self.alloc))
    }
}

/// Passes all messages, the later ones with no memory at hand; then whether the earlier ones passed, and the next message.
fn pass_all(alloc: Global) -> (Seen, bool, u64) {
    let mut passing = Passing {
        alloc,
        queue: Exclusive::unbounded(alloc),
        next: 1,
    };
    let mut passed = true;
    for _ in 0..LAST_WITH_MEMORY {
        passed = passed & passing.pass();
    }
    let mut scarcity = Scarcity::new(alloc);
    for _ in LAST_WITH_MEMORY..LAST {
        scarcity.refuse_none(&mut passing);
    }
    (scarcity.end(), passed, passing.next)
}

/// What the first messages took serves for any number of messages that go through one by one: with every request refused from the
/// 32nd push on, each push is accepted and each message comes out in its turn.
#[test]
fn messages_one_by_one(rt: HostRuntime) {
    let (seen, passed, next) = pass_all(rt.alloc());
    expect_right(&rt, &seen);
    expect_true(&rt, passed && seen.refusals == 0 && next == 1_001);
}

/// The next message that is pushed into a queue that threads share, and popped before the one after it comes.
#[derive(Drop)]
struct SharedPassing<R: Wait + Copy> {
    rt: R,
    alloc: Global,
    queue: ConcurrentQueue<u64>,
    next: u64,
}

impl<R: Wait + Copy> SharedPassing<R> {
    /// Whether the next message went in and came out. Each third one is pushed by the call that may displace.
    fn pass(&mut self) -> bool {
        let message = self.next;
        self.next = message.wrapping_add(1);
        let is_in = if message % 3 == 0 {
            self.queue.force_push(&self.rt, message) == Ok(None)
        } else {
            self.queue.push(&self.rt, message) == Ok(())
        };
        is_in & (self.queue.pop(&self.rt) == Ok(message))
    }
}

impl<R: Wait + Copy> Attempt for SharedPassing<R> {
    fn make(&mut self) -> Tried {
        made(is_out_of_memory(self.alloc) && self.pass() && is_out_of_memory(self.alloc))
    }
}

/// Passes all messages, the later ones with no memory at hand; then whether the earlier ones passed, and the next message.
fn pass_all_shared<R: Wait + Copy>(rt: R, alloc: Global) -> Option<(Seen, bool, u64)> {
    let mut passing = SharedPassing {
        rt,
        alloc,
        queue: ConcurrentQueue::unbounded(alloc).ok()?,
        next: 1,
    };
    let mut passed = true;
    for _ in 0..LAST_WITH_MEMORY {
        passed = passed & passing.pass();
    }
    let mut scarcity = Scarcity::new(alloc);
    for _ in LAST_WITH_MEMORY..LAST {
        scarcity.refuse_none(&mut passing);
    }
    Some((scarcity.end(), passed, passing.next))
}

/// A shared queue whose messages go through one by one uses its blocks again: it needs no memory for any message after the first ones.
#[test]
fn messages_one_by_one_through_a_shared_queue(rt: HostRuntime) {
    let (seen, passed, next) = pass_all_shared(rt, rt.alloc()).expect(&rt, "memory");
    expect_right(&rt, &seen);
    expect_true(&rt, passed && seen.refusals == 0 && next == 1_001);
}

/// Whether a queue without a bound that holds nothing answers as ever: what it is asked, what is popped, its closing, and what comes
/// then.
fn answers_empty(queue: &mut Exclusive<u64>) -> bool {
    let holds_none = queue.is_empty() && queue.len() == 0 && !queue.is_full();
    let asked = holds_none && queue.capacity().is_none() && queue.pop() == Err(PopError::Empty);
    let closing = [queue.close(), queue.is_closed(), queue.close()] == [true, true, false];
    let pushed = queue.push(5) == Err(PushError::Closed(5))
        && queue.force_push(6) == Err(ForcePushError::Closed(6));
    asked && closing && pushed && queue.pop() == Err(PopError::Closed)
}

/// Whether a queue with so many places is filled and past it, and emptied, as ever.
fn answers_full(queue: &mut Exclusive<u64>, places: u64) -> bool {
    let mut right = true;
    for message in 0..places {
        right = right & (queue.push(message) == Ok(()));
    }
    right = right & queue.is_full() & (queue.push(8) == Err(PushError::Full(8)));
    right = right & (queue.force_push(9) == Ok(Some(0)));
    for message in 1..places {
        right = right & (queue.pop() == Ok(message));
    }
    right && queue.pop() == Ok(9) && queue.is_empty()
}

/// Three queues of one owner: one with one place, one with three, and one that is made first.
#[derive(Drop)]
struct Answers {
    alloc: Global,
    slot: Exclusive<u64>,
    ring: Exclusive<u64>,
}

impl Attempt for Answers {
    fn make(&mut self) -> Tried {
        let slot = answers_full(&mut self.slot, 1);
        let ring = answers_full(&mut self.ring, 3);
        made(slot && ring && answers_empty(&mut Exclusive::unbounded(self.alloc)))
    }
}

fn answer_all(alloc: Global) -> Option<Seen> {
    let mut answers = Answers {
        alloc,
        slot: Exclusive::bounded(alloc, 1).ok()?,
        ring: Exclusive::bounded(alloc, 3).ok()?,
    };
    let mut scarcity = Scarcity::new(alloc);
    scarcity.refuse_none(&mut answers);
    Some(scarcity.end())
}

/// All calls on a queue with a bound, and all on a queue without one but pushes, are answered where nothing is to be had.
#[test]
fn calls_of_one_owner_that_take_no_memory(rt: HostRuntime) {
    let seen = answer_all(rt.alloc()).expect(&rt, "memory");
    expect_right(&rt, &seen);
}

/// The next push into a queue that threads share.
#[derive(Drop)]
struct SharedPushes<R: Wait + Copy> {
    rt: R,
    queue: ConcurrentQueue<u64>,
    next: u64,
}

impl<R: Wait + Copy> SharedPushes<R> {
    /// Whether the queue holds so many messages more than were pushed before.
    fn holds(&self, more: u64) -> bool {
        self.queue.len(&self.rt) as u64 == self.next.wrapping_add(more) && !self.queue.is_closed()
    }

    fn push(&self) -> Tried {
        match self.queue.push(&self.rt, self.next) {
            Ok(()) => made(self.holds(1)),
            Err(PushError::NoMemory(back)) => refused(back == self.next && self.holds(0)),
            Err(_) => Tried::Wrong,
        }
    }

    fn force(&self) -> Tried {
        match self.queue.force_push(&self.rt, self.next) {
            Ok(None) => made(self.holds(1)),
            Err(ForcePushError::NoMemory(back)) => refused(back == self.next && self.holds(0)),
            _ => Tried::Wrong,
        }
    }
}

impl<R: Wait + Copy> Attempt for SharedPushes<R> {
    fn make(&mut self) -> Tried {
        let tried = if self.next % 3 == 0 {
            self.force()
        } else {
            self.push()
        };
        if tried == Tried::Made {
            self.next = self.next.wrapping_add(1);
        }
        tried
    }
}

/// Pushes all; then whether they come out in order.
fn push_all_shared<R: Wait + Copy>(rt: R, alloc: Global) -> Option<(Seen, bool)> {
    let mut shared = SharedPushes {
        rt,
        queue: ConcurrentQueue::unbounded(alloc).ok()?,
        next: 0,
    };
    let mut scarcity = Scarcity::new(alloc);
    for _ in 0..COUNT {
        scarcity.refuse_each(&mut shared);
    }
    let seen = scarcity.end();
    let mut in_order = true;
    for message in 0..COUNT {
        in_order = in_order & (shared.queue.pop(&rt) == Ok(message));
    }
    Some((
        seen,
        in_order && shared.queue.pop(&rt) == Err(PopError::Empty),
    ))
}

#[test]
fn pushes_of_a_shared_queue(rt: HostRuntime) {
    let (seen, in_order) = push_all_shared(rt, rt.alloc()).expect(&rt, "memory");
    expect_seen(&rt, &seen, 4, 18);
    expect_true(&rt, in_order);
}

/// Which queue is opened.
#[derive(Clone, Copy, PartialEq, Eq)]
enum Kind {
    Slot,
    Ring,
    SharedSlot,
    SharedRing,
    SharedBlocks,
}

#[derive(Clone, Copy)]
struct Opening {
    alloc: Global,
    kind: Kind,
}

/// An opening with so many places that one owner has.
fn own(alloc: Global, places: usize) -> Tried
    requires { 0 < places }
{
    let opened: Result<Exclusive<u64>, NoMemory> = Exclusive::bounded(alloc, places);
    match opened {
        Ok(mut queue) => made(queue.is_empty() && queue.capacity() == Some(places)),
        Err(NoMemory) => Tried::Refused,
    }
}

/// An opening of a shared queue with so many places.
fn shared(alloc: Global, places: usize) -> Tried
    requires { 0 < places }
{
    let opened: Result<ConcurrentQueue<u64>, NoMemory> = ConcurrentQueue::bounded(alloc, places);
    match opened {
        Ok(queue) => made(queue.is_empty() && queue.capacity() == Some(places)),
        Err(NoMemory) => Tried::Refused,
    }
}

fn shared_blocks(alloc: Global) -> Tried {
    let opened: Result<ConcurrentQueue<u64>, NoMemory> = ConcurrentQueue::unbounded(alloc);
    match opened {
        Ok(queue) => made(queue.is_empty() && queue.capacity().is_none()),
        Err(NoMemory) => Tried::Refused,
    }
}

impl Attempt for Opening {
    fn make(&mut self) -> Tried {
        match self.kind {
            Kind::Slot => own(self.alloc, 1),
            Kind::Ring => own(self.alloc, 100),
            Kind::SharedSlot => shared(self.alloc, 1),
            Kind::SharedRing => shared(self.alloc, 100),
            Kind::SharedBlocks => shared_blocks(self.alloc),
        }
    }
}

/// All queues, but the one that takes no memory to be opened.
const KINDS: [Kind; 5] = [
    Kind::Slot,
    Kind::Ring,
    Kind::SharedSlot,
    Kind::SharedRing,
    Kind::SharedBlocks,
];

fn open_all(alloc: Global) -> Seen {
    let mut scarcity = Scarcity::new(alloc);
    for kind in KINDS {
        scarcity.refuse_each(&mut Opening { alloc, kind });
    }
    scarcity.end()
}

#[test]
fn openings_of_queues(rt: HostRuntime) {
    let seen = open_all(rt.alloc());
    expect_seen(&rt, &seen, 5, 24);
}
