//! Two threads send, two receive, and a fifth one looks on.

ghost use Rattle.std.specs.Prelude.{◌<◌, ◌≤◌, ◌^◌};

use crate::checks::expect_equal;
use crate::fixture::{Channel, Nobody, opened};
use channel_calls::error::TryRecvError;
use channel_cells::channel::Opened;
use event_listener::wakes::Wakes;
use std::alloc::Global;
use std::sync::Wait;
use std::sync::atomic::{AtomicU64, Ordering};
use std::test::*;
use std::thread;
use std::thread::Threads;

/// How many messages each of the two senders sends.
const EACH: u64 = 1000;

/// How often a call is refused before a thread gives up.
const PATIENCE: u64 = 3_000_000;

/// A channel, and what its threads found.
#[derive(Drop)]
struct Crowd {
    channel: Channel,
    /// How many threads have nothing more to send.
    silent: AtomicU64,
    received: AtomicU64,
    sum: AtomicU64,
    looks: AtomicU64,
}

/// Sends this message once the channel has a place for it; false where it has none for too long.
pub(crate) fn is_sent<R: Wait, S: Wakes<u64>>(
    rt: &R,
    channel: &Channel,
    message: u64,
    sink: &mut S,
) -> bool {
    for _ in 0..PATIENCE {
        if channel
            .try_send(rt, channel.new_seat(), message, sink)
            .0
            .is_ok()
        {
            return true;
        }
        thread::yield_now();
    }
    false
}

/// Sends every second number below `2 * EACH`, from this one on; whoever is the last of two closes the channel.
fn send_all<R: Wait>(rt: &R, crowd: &Crowd, first: u64) {
    for number in 0..EACH {
        let message = number.wrapping_mul(2).wrapping_add(first);
        if !is_sent(rt, &crowd.channel, message, &mut Nobody) {
            break;
        }
    }
    if crowd.silent.fetch_add(1, Ordering::SeqCst) == 1 {
        let _ = crowd
            .channel
            .close(rt, crowd.channel.new_seat(), &mut Nobody);
    }
}

/// Receives until the channel is closed and empty.
fn receive_all<R: Wait>(rt: &R, crowd: &Crowd) {
    for _ in 0..PATIENCE {
        match crowd
            .channel
            .try_recv(rt, crowd.channel.new_seat(), &mut Nobody)
            .0
        {
            Ok(message) => {
                crowd.received.fetch_add(1, Ordering::SeqCst);
                crowd.sum.fetch_add(message, Ordering::SeqCst);
            }
            Err(TryRecvError::Empty) => thread::yield_now(),
            Err(TryRecvError::Closed) => return,
        }
    }
}

/// Looks at the channel, by two parties that are joined, until it is closed.
fn look_on(crowd: &Crowd) {
    let channel = &crowd.channel;
    for _ in 0..PATIENCE {
        let mut seat = channel.new_seat();
        let (is_closed, other) = channel.is_closed(channel.new_seat());
        channel.join(&mut seat, other);
        channel.look(&mut seat);
        crowd.looks.fetch_add(1, Ordering::SeqCst);
        if is_closed {
            return;
        }
        thread::yield_now();
    }
}

fn play<R: Wait>(rt: &R, crowd: &Crowd, thread: usize) {
    match thread {
        0 => send_all(rt, crowd, 0),
        1 => send_all(rt, crowd, 1),
        2 => receive_all(rt, crowd),
        3 => receive_all(rt, crowd),
        _ => look_on(crowd),
    }
}

/// How many messages came, their sum, whether none is left, and whether somebody looked.
fn rush<R: Threads + Wait + Sync>(
    rt: &R,
    alloc: Global,
    capacity: usize,
) -> Option<(u64, u64, [bool; 2])>
    requires { (0 < capacity) × (capacity ≤ 2 ^ 58) }
{
    let Opened { channel, .. } = opened(alloc, capacity)?;
    let crowd = Crowd {
        channel,
        silent: AtomicU64::new(0),
        received: AtomicU64::new(0),
        sum: AtomicU64::new(0),
        looks: AtomicU64::new(0),
    };
    let done = thread::map_indices(rt, alloc, 5, &|thread| play(rt, &crowd, thread)).ok()?;
    drop(done);
    Some((
        crowd.received.load(Ordering::SeqCst),
        crowd.sum.load(Ordering::SeqCst),
        [
            crowd.channel.is_empty(crowd.channel.new_seat()).0,
            crowd.looks.load(Ordering::SeqCst) > 0,
        ],
    ))
}

#[test]
fn every_message_comes_once(rt: HostRuntime) {
    for capacity in [1usize, 3] {
        let found = match rush(&rt, rt.alloc(), capacity) {
            None => rush(&rt, rt.alloc(), capacity),
            found => found,
        };
        expect_equal(&rt, &found, &Some((2000, 1_999_000, [true, true])));
    }
}
