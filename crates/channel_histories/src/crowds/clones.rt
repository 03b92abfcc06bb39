//! Handles that are cloned and dropped by many threads.

use async_channel::{Receiver, Sender, WeakReceiver, WeakSender, bounded};
use event_listener::id::EventIds;
use std::alloc::Global;
use std::sync::Wait;
use std::thread;
use std::thread::Threads;

/// How many threads, and how many handles each makes.
const THREADS: usize = 8;

const EACH: usize = 1_250;

/// One more sender, every fourth from a weak one; none where it was refused.
fn more_senders<R: Wait + Copy>(
    number: usize,
    sender: &Sender<u64, R>,
    weak: &WeakSender<u64, R>,
) -> Option<Sender<u64, R>> {
    if number % 4 == 0 {
        weak.upgrade().ok()?
    } else {
        sender.try_clone().ok()
    }
}

/// Makes senders, and lets every other go at once, the rest at last: whether none was refused.
fn clone_senders<R: Wait + Copy>(alloc: Global, sender: &Sender<u64, R>) -> Option<()> {
    let weak = sender.downgrade().ok()?;
    let mut kept = Vec::new(alloc);
    for number in 0..EACH {
        let more = more_senders(number, sender, &weak)?;
        if number % 2 == 0 {
            kept.push(more).ok()?;
        }
    }
    Some(())
}

/// One more receiver, every fourth from a weak one; none where it was refused.
fn more_receivers<R: Wait + Copy>(
    number: usize,
    receiver: &Receiver<u64, R>,
    weak: &WeakReceiver<u64, R>,
) -> Option<Receiver<u64, R>> {
    if number % 4 == 0 {
        weak.upgrade().ok()?
    } else {
        receiver.try_clone().ok()
    }
}

/// Makes receivers, and lets every other go at once, the rest at last: whether none was refused.
fn clone_receivers<R: Wait + Copy>(alloc: Global, receiver: &Receiver<u64, R>) -> Option<()> {
    let weak = receiver.downgrade().ok()?;
    let mut kept = Vec::new(alloc);
    for number in 0..EACH {
        let more = more_receivers(number, receiver, &weak)?;
        if number % 2 == 0 {
            kept.push(more).ok()?;
        }
    }
    Some(())
}

/// Whether all that is left at last is one handle of each kind, of an open channel. `None` where memory was refused.
pub fn end_with_one<R>(rt: R, alloc: Global) -> Option<bool>
where
    R: Wait + Threads + Copy + Send + Sync,
{
    let (sender, receiver) = bounded(rt, alloc, 1, &mut EventIds::new()).ok()?;
    let run = |number: usize| {
        if number % 2 == 0 {
            clone_senders(alloc, &sender).is_some()
        } else {
            clone_receivers(alloc, &receiver).is_some()
        }
    };
    let made = thread::map_indices(&rt, alloc, THREADS, &run).ok()?;
    let all = made.iter().all(|all| *all);
    let counts = (sender.sender_count(), receiver.receiver_count());
    Some(all && counts == (1, 1) && !sender.is_closed())
}
