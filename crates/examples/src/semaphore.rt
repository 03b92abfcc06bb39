//! A semaphore over a list of listeners: who waits for a permit is served in the order of coming.

use event_listener::{Additional, List, ListenError, Notify, Wakes};
use std::alloc::Global;

/// Whose turn it is.
#[derive(Drop)]
struct Turn {
    client: Option<u32>,
}

impl Wakes<u32> for Turn {
    ghost use Rattle.std.specs.Prelude.{◌≡◌, Some};

    ghost wakes = { λ before client after. after.client ≡ Some client };

    fn wake(&mut self, client: u32) {
        self.client = Some(client);
    }
}

/// Permits that are free, and the clients that wait for one.
#[derive(Drop)]
struct Semaphore {
    free: u32,
    waiting: List<(), u32>,
}

impl Semaphore {
    /// Whether the client has a permit now. Else it waits for its turn.
    fn acquire(&mut self, client: u32) -> Result<bool, ListenError> {
        if self.free > 0 {
            self.free -= 1;
            return Ok(true);
        }
        let key = self.waiting.insert()?;
        let _ = self.waiting.register(key, client);
        Ok(false)
    }

    /// Gives a permit back: to the client that waited longest, whose turn it is then.
    fn release(&mut self) -> Option<u32> {
        let mut turn = Turn { client: None };
        let one_more = Additional {
            inner: Notify { count: 1 },
        };
        let _ = self.waiting.notify(one_more, &mut turn);
        if turn.client.is_none() {
            self.free = self.free.saturating_add(1);
        }
        turn.client
    }
}

/// Three clients ask for the only permit, and each that has it gives it back: in which order they have it, as a number of three digits.
pub(crate) fn order(alloc: Global) -> Option<u64> {
    let mut semaphore = Semaphore {
        free: 1,
        waiting: List::new(alloc),
    };
    let mut order = 0u64;
    for client in 1..4 {
        if semaphore.acquire(client).ok()? {
            order = order.wrapping_mul(10).wrapping_add(u64::from(client));
        }
    }
    for _ in 0..3 {
        if let Some(client) = semaphore.release() {
            order = order.wrapping_mul(10).wrapping_add(u64::from(client));
        }
    }
    Some(order)
}
