//! Messages that may go from thread to thread, and that threads may not share: they may share the handles all the same.

use crate::checks::expect_equal;
use crate::jobs::{Job, both};
use async_channel::{EventIds, Sender, bounded};
use std::cell::Cell;
use std::sync::Wait;

/// Sends a message by a sender that another thread has too.
#[derive(Drop)]
struct SendCell<'a, R: Wait + Copy> {
    sender: &'a Sender<Cell<u64>, R>,
    message: u64,
}

impl<R: Wait + Copy> Job<R> for SendCell<'_, R> {
    type Done = bool;

    fn run(self, _rt: R) -> bool {
        self.sender.try_send(Cell::new(self.message)).is_ok()
    }
}

#[test]
fn two_threads_share_a_sender_of_cells(rt: HostRuntime) {
    let (s, r) = bounded(rt, rt.alloc(), 2, &mut EventIds::new()).expect(&rt, "memory");
    let (first, second) = (
        SendCell {
            sender: &s,
            message: 1,
        },
        SendCell {
            sender: &s,
            message: 2,
        },
    );
    expect_equal(&rt, &both(rt, first, second), &Some((true, true)));
    let mut sum = 0u64;
    for _ in 0..2u8 {
        let message = r.try_recv().expect(&rt, "a message");
        sum = sum.wrapping_add(message.get());
    }
    expect_equal(&rt, &sum, &3);
}
