//! Two threads send, and two receive by operations that they give up again and again. Neither a message nor a notice is lost: a receive that
//! waits, with nobody notified, waits beside a channel that is empty.

ghost use Rattle.std.specs.Prelude.{◌<◌, ◌≤◌, ◌^◌};

use crate::checks::expect_equal;
use crate::crowd::is_sent;
use crate::fixture::{Channel, opened};
use crate::operation::{Operation, Polled};
use channel_calls::stage::WaitList;
use channel_cells::channel::Opened;
use event_listener::wakes::Wakes;
use std::alloc::Global;
use std::sync::Wait;
use std::sync::atomic::{AtomicBool, AtomicU64, Ordering};
use std::test::*;
use std::thread;
use std::thread::Threads;

/// How many messages each of the two senders sends.
const EACH: u64 = 500;

/// How often a thread lets others run before it says that it waits in vain.
const PATIENCE: u64 = 3_000_000;

/// A channel, the flags of the two tasks that receive, and what was found.
#[derive(Drop)]
struct Shared {
    channel: Channel,
    notified: [AtomicBool; 2],
    /// How many threads have nothing more to send.
    silent: AtomicU64,
    received: AtomicU64,
    sum: AtomicU64,
    given_up: AtomicU64,
    /// Whether a thread waited in vain, or was refused memory twice.
    stuck: AtomicBool,
}

/// Sets the flag of each task that is notified.
#[derive(Drop)]
struct Flags<'a> {
    notified: &'a [AtomicBool; 2],
}

impl<'a> Wakes<u64> for Flags<'a> {
    ghost wakes = { λ _ _ _. Unit {0} };

    fn wake(&mut self, task: u64) {
        let notified = self.notified;
        if let Some(flag) = notified.get(task as usize) {
            flag.store(true, Ordering::SeqCst);
        }
    }
}

/// Waits until the channel is empty: nobody sleeps beside a message. False where it isn't for too long.
fn is_soon_empty(channel: &Channel) -> bool {
    for _ in 0..PATIENCE {
        if channel.is_empty(channel.new_seat()).0 {
            return true;
        }
        thread::yield_now();
    }
    false
}

/// Sends every second number below `2 * EACH`, from this one on; whoever is the last of two waits until all came, and closes the channel.
fn send_all<R: Wait>(rt: &R, shared: &Shared, first: u64) {
    let mut sink = Flags {
        notified: &shared.notified,
    };
    let mut right = true;
    for number in 0..EACH {
        let message = number.wrapping_mul(2).wrapping_add(first);
        right = right && is_sent(rt, &shared.channel, message, &mut sink);
    }
    if shared.silent.fetch_add(1, Ordering::SeqCst) == 1 {
        right = is_soon_empty(&shared.channel) && right;
        let _ = shared
            .channel
            .close(rt, shared.channel.new_seat(), &mut sink);
    }
    if !right {
        shared.stuck.store(true, Ordering::SeqCst);
    }
}

/// Waits for the flag of a task; false where it isn't set for too long.
fn is_soon_notified(flag: &AtomicBool) -> bool {
    for _ in 0..PATIENCE {
        if flag.load(Ordering::SeqCst) {
            return true;
        }
        thread::yield_now();
    }
    false
}

/// Notes a message.
fn note(shared: &Shared, message: u64) {
    shared.received.fetch_add(1, Ordering::SeqCst);
    shared.sum.fetch_add(message, Ordering::SeqCst);
}

/// Gives a receive up.
fn leave<R: Wait>(rt: &R, shared: &Shared, receive: Operation<'_>) {
    let mut sink = Flags {
        notified: &shared.notified,
    };
    let _ = receive.give_up(rt, &mut sink);
    shared.given_up.fetch_add(1, Ordering::SeqCst);
}

/// A receive that was notified is polled again; it is given up where another one took the message.
fn poll_again<R: Wait>(rt: &R, shared: &Shared, receive: Operation<'_>, task: u64) {
    let mut sink = Flags {
        notified: &shared.notified,
    };
    match receive.polled(rt, task, &mut sink) {
        (Polled::Came(message), _) => note(shared, message),
        (Polled::Waits, receive) => leave(rt, shared, receive),
        (_, _) => {}
    }
}

/// A receive that waits is polled again once it is notified, or given up at once, or given up once it is notified, in turn. False where it
/// waits in vain.
fn wait_or_leave<R: Wait>(
    rt: &R,
    shared: &Shared,
    receive: Operation<'_>,
    round: u64,
    task: usize,
) -> bool {
    let turn = round % 3;
    let is_notified = turn == 1 || shared.notified.get(task).is_some_and(is_soon_notified);
    if turn == 0 {
        poll_again(rt, shared, receive, task as u64);
    } else {
        leave(rt, shared, receive);
    }
    is_notified
}

/// Makes a receive and polls it; false where the channel is closed and empty, or the receive waits in vain.
fn goes_on<R: Wait>(rt: &R, shared: &Shared, round: u64, task: usize) -> bool {
    let mut sink = Flags {
        notified: &shared.notified,
    };
    if let Some(flag) = shared.notified.get(task) {
        flag.store(false, Ordering::SeqCst);
    }
    let receive = Operation::on(&shared.channel, WaitList::Receives);
    let (polled, receive) = receive.polled(rt, task as u64, &mut sink);
    let right = match polled {
        Polled::Came(message) => {
            note(shared, message);
            true
        }
        Polled::Waits => wait_or_leave(rt, shared, receive, round, task),
        Polled::Closed => return false,
        Polled::Done | Polled::WantsMemory => false,
    };
    if !right {
        shared.stuck.store(true, Ordering::SeqCst);
    }
    right
}

fn play<R: Wait>(rt: &R, shared: &Shared, thread: usize) {
    match thread {
        0 => send_all(rt, shared, 0),
        1 => send_all(rt, shared, 1),
        _ => {
            for round in 0..PATIENCE {
                if !goes_on(rt, shared, round, thread % 2) {
                    return;
                }
            }
        }
    }
}

/// How many messages came, their sum, and: whether some receive was given up, whether the channel is empty, whether a thread waited in vain.
fn receive_now_and_then<R: Threads + Wait + Sync>(
    rt: &R,
    alloc: Global,
    capacity: usize,
) -> Option<(u64, u64, [bool; 3])>
    requires { (0 < capacity) × (capacity ≤ 2 ^ 58) }
{
    let Opened { channel, .. } = opened(alloc, capacity)?;
    let shared = Shared {
        channel,
        notified: [AtomicBool::new(false), AtomicBool::new(false)],
        silent: AtomicU64::new(0),
        received: AtomicU64::new(0),
        sum: AtomicU64::new(0),
        given_up: AtomicU64::new(0),
        stuck: AtomicBool::new(false),
    };
    let done = thread::map_indices(rt, alloc, 4, &|thread| play(rt, &shared, thread)).ok()?;
    drop(done);
    Some((
        shared.received.load(Ordering::SeqCst),
        shared.sum.load(Ordering::SeqCst),
        [
            shared.given_up.load(Ordering::SeqCst) > 0,
            shared.channel.is_empty(shared.channel.new_seat()).0,
            shared.stuck.load(Ordering::SeqCst),
        ],
    ))
}

#[test]
fn receives_that_are_given_up_lose_nothing(rt: HostRuntime) {
    for capacity in [1usize, 3] {
        let found = match receive_now_and_then(&rt, rt.alloc(), capacity) {
            None => receive_now_and_then(&rt, rt.alloc(), capacity),
            found => found,
        };
        expect_equal(&rt, &found, &Some((1000, 499_500, [true, true, false])));
    }
}
