//! The lines of the clients: queues and channels.

use async_channel::{Receiver, Sender, unbounded};
use concurrent_queue::ConcurrentQueue;
use event_listener::id::EventIds;
use std::alloc::Global;
use std::sync::Wait;
use std::thread;
use waybill::Line;

/// A queue whose calls are made again until they go through, or both handles of a channel.
#[derive(Drop)]
pub enum Way<P: Drop, R: Wait + Copy> {
    Queue(R, ConcurrentQueue<P>),
    Handles(Sender<P, R>, Receiver<P, R>),
}

/// Which line a client takes.
#[derive(Clone, Copy)]
pub enum Kind {
    /// A queue of one slot.
    Slot,
    /// A queue of four places.
    Ring,
    /// A queue without a bound.
    Blocks,
    /// A channel without a bound, by its handles.
    Handles,
}

/// A queue of this kind.
fn queue<P: Drop>(alloc: Global, kind: Kind) -> Option<ConcurrentQueue<P>> {
    match kind {
        Kind::Slot => ConcurrentQueue::bounded(alloc, 1).ok(),
        Kind::Ring => ConcurrentQueue::bounded(alloc, 4).ok(),
        Kind::Blocks | Kind::Handles => ConcurrentQueue::unbounded(alloc).ok(),
    }
}

impl<P: Drop, R: Wait + Copy> Way<P, R> {
    /// A line of this kind. `None` where there is no memory.
    pub fn new(rt: R, alloc: Global, ids: &mut EventIds, kind: Kind) -> Option<Way<P, R>> {
        if let Kind::Handles = kind {
            let (sender, receiver) = unbounded(rt, alloc, ids).ok()?;
            return Some(Way::Handles(sender, receiver));
        }
        Some(Way::Queue(rt, queue(alloc, kind)?))
    }
}

/// Pushes a value as soon as there is room for it. It is dropped where the queue is closed.
fn push<P: Drop, R: Wait>(rt: &R, queue: &ConcurrentQueue<P>, value: P) {
    let mut value = value;
    for _ in rt.forever() {
        match queue.push(rt, value) {
            Ok(()) => return,
            Err(refused) => {
                if refused.is_closed() {
                    return;
                }
                value = refused.into_inner();
                thread::yield_now();
            }
        }
    }
}

/// Pops a value as soon as there is one. `None` where the queue is closed and empty.
fn pop<P: Drop, R: Wait>(rt: &R, queue: &ConcurrentQueue<P>) -> Option<P> {
    for _ in rt.forever() {
        match queue.pop(rt) {
            Ok(value) => return Some(value),
            Err(refused) => {
                if refused.is_closed() {
                    return None;
                }
                thread::yield_now();
            }
        }
    }
    None
}

impl<P: Drop, R: Wait + Copy> Line<P> for Way<P, R> {
    fn put(&self, value: P) {
        match self {
            Way::Queue(rt, queue) => push(rt, queue, value),
            Way::Handles(sender, _) => {
                let _ = sender.send_blocking(value);
            }
        }
    }

    fn next(&self) -> Option<P> {
        match self {
            Way::Queue(rt, queue) => pop(rt, queue),
            Way::Handles(_, receiver) => receiver.recv_blocking().ok(),
        }
    }

    fn close(&self) {
        let _ = match self {
            Way::Queue(_, queue) => queue.close(),
            Way::Handles(sender, _) => sender.close(),
        };
    }
}
