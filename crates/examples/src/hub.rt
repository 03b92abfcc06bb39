//! A hub that sends each message to all who listen. It keeps weak senders, so that a listener which goes closes its channel, and the hub
//! forgets it at the next message.

use async_channel::{Receiver, Sender, WeakSender, unbounded};
use event_listener::id::EventIds;
use std::alloc::Global;
use std::sync::Wait;

/// Who listens: the sender keeps the channel open for as long as the listener is there.
#[derive(Drop)]
struct Subscriber<R: Wait + Copy> {
    messages: Receiver<u64, R>,
    keeps_open: Sender<u64, R>,
}

/// The hub's side of each.
#[derive(Drop)]
struct Hub<R: Wait + Copy> {
    listeners: Vec<WeakSender<u64, R>>,
}

impl<R: Wait + Copy> Hub<R> {
    /// One more listener.
    fn subscribe(&mut self, rt: R, alloc: Global, ids: &mut EventIds) -> Option<Subscriber<R>> {
        let (keeps_open, messages) = unbounded(rt, alloc, ids).ok()?;
        self.listeners.push(keeps_open.downgrade().ok()?).ok()?;
        Some(Subscriber {
            messages,
            keeps_open,
        })
    }

    /// Sends a message to all who are still there, forgets those who went, and says how many it reached.
    fn send_all(&mut self, message: u64) -> u64 {
        let mut reached = 0u64;
        self.listeners.retain(|weak| match weak.upgrade() {
            Ok(Some(sender)) => {
                if sender.try_send(message).is_ok() {
                    reached = reached.wrapping_add(1);
                }
                true
            }
            Ok(None) => false,
            // Too many handles, or no memory for one more: it is there, and is asked again at the next message.
            Err(_) => true,
        });
        reached
    }
}

/// How many of two listeners the first message reached, and the second one after one of them went: as one number.
pub(crate) fn reached<R: Wait + Copy>(rt: R, alloc: Global, ids: &mut EventIds) -> Option<u64> {
    let mut hub = Hub {
        listeners: Vec::new(alloc),
    };
    let stays = hub.subscribe(rt, alloc, ids)?;
    let goes = hub.subscribe(rt, alloc, ids)?;
    let both = hub.send_all(1);
    drop(goes);
    let one = hub.send_all(2);
    let kept = stays.messages.len() == 2
        && !stays.keeps_open.is_closed()
        && hub.listeners.len() == 1;
    if kept {
        Some(both.wrapping_mul(10).wrapping_add(one))
    } else {
        None
    }
}
