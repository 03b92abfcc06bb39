//! What no program on one thread passes: two threads that each send a word and then wait for the other's.

use crate::checks::expect_equal;
use crate::jobs::{Job, both};
use async_channel::{Receiver, Sender};
use channel_test_helpers::opened;
use std::sync::Wait;
use std::thread;

/// Sends a word, and waits for the other thread's: that one, or 0 where none came.
fn exchange_words<R: Wait + Copy>(to: &Sender<u64, R>, from: &Receiver<u64, R>, mine: u64) -> u64 {
    if to.send_blocking(mine).is_err() {
        return 0;
    }
    for _ in 0..1_000_000u64 {
        if let Ok(got) = from.try_recv() {
            return got;
        }
        thread::yield_now();
    }
    0
}

/// Sends its word, and waits for the other one's.
#[derive(Drop)]
struct Exchange<R: Wait + Copy> {
    to: Sender<u64, R>,
    from: Receiver<u64, R>,
    mine: u64,
}

impl<R: Wait + Copy> Job<R> for Exchange<R> {
    type Done = u64;

    fn run(self, _rt: R) -> u64 {
        exchange_words(&self.to, &self.from, self.mine)
    }
}

#[test]
fn both_get_a_word(rt: HostRuntime) {
    let (there, mine) = opened(rt, rt.alloc(), 1).expect(&rt, "memory");
    let (back, other) = opened(rt, rt.alloc(), 0).expect(&rt, "memory");
    let got = both(
        rt,
        Exchange {
            to: there,
            from: other,
            mine: 1,
        },
        Exchange {
            to: back,
            from: mine,
            mine: 2,
        },
    );
    expect_equal(&rt, &got, &Some((2, 1)));
}
