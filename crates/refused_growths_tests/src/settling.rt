//! Settling a world.

use crate::checks::{expect_equal, expect_seen, expect_true};
use crate::scarcity::{Attempt, Scarcity, Seen, Tried, made, refused};
use crate::worlds::{Ask, Calls, Numbers, Said, numbers_of, says};
use channel_world::name::{OpId, Waiter};
use channel_world::settle::Settled;
use event_listener::error::NoMemory;
use std::alloc::Global;

/// A settling of a world in which one of three receives was woken by a message.
#[derive(Drop)]
struct Settles {
    calls: Calls,
}

/// One message, and three receives, of which one was woken.
const BEFORE: Numbers = Numbers {
    messages: 1,
    under_way: 0,
    pending: 3,
    woken: 1,
};

/// The one that was woken has the message, and the others wait.
const AFTER: Numbers = Numbers {
    messages: 0,
    under_way: 0,
    pending: 2,
    woken: 0,
};

/// Whether these are the two polls: the first gets the message, and the next, to which it hands its notice, waits on.
fn are_two(polls: &[Settled<u64>]) -> bool {
    let [first, second] = polls else {
        return false;
    };
    let names = [first.name, second.name];
    let said = [says(&first.reply), says(&second.reply)];
    names == [Waiter::Op(OpId(1)), Waiter::Op(OpId(2))] && said == [Said::Got(9), Said::Pending]
}

impl Attempt for Settles {
    fn make(&mut self) -> Tried {
        if !self.calls.world.is_quiet() {
            return Tried::Wrong;
        }
        match self.calls.world.settle() {
            Ok(polls) => {
                let right = are_two(polls.as_slice());
                drop(polls);
                made(right && numbers_of(&self.calls.world) == AFTER)
            }
            Err(NoMemory) => refused(numbers_of(&self.calls.world) == BEFORE),
        }
    }
}

/// Three receives wait, a message wakes the first, and the world is settled; then how often that was refused.
fn settle_three(alloc: Global) -> Option<(Seen, u32, Numbers)> {
    let mut calls = Calls::open(alloc, true)?;
    let mut scarcity = Scarcity::new(alloc);
    for number in 1..4u32 {
        calls.make_call(&mut scarcity, Ask::Recv(number), Said::Made);
    }
    for number in 1..4u32 {
        calls.make_call(&mut scarcity, Ask::Poll(number), Said::Pending);
    }
    calls.make_call(&mut scarcity, Ask::TrySend(9), Said::Sent);
    let mut settles = Settles { calls };
    let refused = scarcity.refuse_each(&mut settles);
    let seen = scarcity.end();
    Some((seen, refused, numbers_of(&settles.calls.world)))
}

/// A settling that is refused changes nothing, and polls the same when it is made again.
#[test]
fn settlings(rt: HostRuntime) {
    let (seen, refused, numbers) = settle_three(rt.alloc()).expect(&rt, "memory");
    expect_seen(&rt, &seen, 8, 34);
    expect_true(&rt, refused > 0);
    expect_equal(&rt, &numbers, &AFTER);
}

/// A settling of a world in which a closing woke a hundred streams.
#[derive(Drop)]
struct SettlesMany {
    calls: Calls,
}

/// All of them are woken.
const MANY: Numbers = Numbers {
    messages: 0,
    under_way: 0,
    pending: 100,
    woken: 100,
};

/// Each has ended.
const NOBODY: Numbers = Numbers {
    messages: 0,
    under_way: 0,
    pending: 0,
    woken: 0,
};

impl Attempt for SettlesMany {
    fn make(&mut self) -> Tried {
        if !self.calls.world.is_quiet() {
            return Tried::Wrong;
        }
        match self.calls.world.settle() {
            Ok(polls) => {
                let count = polls.len();
                drop(polls);
                made(count == 100 && numbers_of(&self.calls.world) == NOBODY)
            }
            Err(NoMemory) => refused(numbers_of(&self.calls.world) == MANY),
        }
    }
}

/// A world without a bound in which a hundred streams wait and are woken by its closing; none where a call was refused.
fn many(alloc: Global) -> Option<Calls> {
    let mut calls = Calls::open(alloc, false)?;
    for number in 2..102u32 {
        let is_made = calls.make_at_once(Ask::CloneReceiver(number), Said::Made);
        if !is_made || !calls.make_at_once(Ask::Next(number), Said::Pending) {
            return None;
        }
    }
    if calls.make_at_once(Ask::Close, Said::Shut) {
        Some(calls)
    } else {
        None
    }
}

/// Settles them; then how often that was refused.
fn settle_many(alloc: Global) -> Option<(Seen, u32)> {
    let mut settles = SettlesMany {
        calls: many(alloc)?,
    };
    let mut scarcity = Scarcity::new(alloc);
    let refused = scarcity.refuse_each(&mut settles);
    Some((scarcity.end(), refused))
}

/// A settling asks for room for as many polls as it may make and no more: here for two hundred, for which there is at last room. A poll
/// of each by each would need more than is ever left.
#[test]
fn settlings_of_many(rt: HostRuntime) {
    let (seen, refused) = settle_many(rt.alloc()).expect(&rt, "memory");
    expect_seen(&rt, &seen, 1, 8);
    expect_true(&rt, refused > 0);
}
