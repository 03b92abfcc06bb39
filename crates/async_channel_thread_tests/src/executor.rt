//! Ten tasks on each of two threads, run by an executor of `futures`.

use crate::checks::expect_equal;
use crate::jobs::{Job, both};
use async_channel::{Receiver, Recv, Send as Sending, Sender};
use channel_test_helpers::opened;
use futures::Future;
use futures::executor::LocalPool;
use futures::task::{Context, Poll};
use std::alloc::AllocGlobal;
use std::random::RandomSource;
use std::sync::Wait;
use std::sync::atomic::{AtomicU64, Ordering};

/// The handle of tasks that send, or that receive.
#[derive(Clone, Copy)]
enum Hand<'a, R: Wait + Copy> {
    Sender(&'a Sender<u64, R>),
    Receiver(&'a Receiver<u64, R>),
}

/// What a task waits for.
#[derive(Drop)]
enum Operation<'a, R: Wait + Copy> {
    Send(Sending<'a, u64, R>),
    Receive(Recv<'a, u64, R>),
}

/// A task that sends one message, and counts it; or that receives one, and adds it up.
#[derive(Drop)]
struct Task<'a, R: Wait + Copy> {
    operation: Operation<'a, R>,
    sum: &'a AtomicU64,
}

impl<R: Wait + Copy> Future for Task<'_, R> {
    type Output = ();

    fn poll(&mut self, cx: &mut Context<'_>) -> Poll<()> {
        let polled = match &mut self.operation {
            Operation::Send(send) => send.poll(cx).map(|sent| u64::from(sent.is_ok())),
            Operation::Receive(recv) => recv.poll(cx).map(|message| message.unwrap_or(0)),
        };
        match polled {
            Poll::Pending => Poll::Pending,
            Poll::Ready(more) => {
                self.sum.fetch_add(more, Ordering::SeqCst);
                Poll::Ready(())
            }
        }
    }
}

/// Runs ten tasks of this handle to their ends: whether memory was to be had.
fn run_ten<'a, R>(rt: R, hand: Hand<'a, R>, sum: &'a AtomicU64) -> bool
where
    R: Wait + Copy + RandomSource + AllocGlobal,
{
    let Ok(mut pool) = LocalPool::new(&rt) else {
        return false;
    };
    let Ok(spawner) = pool.spawner() else {
        return false;
    };
    let mut spawned = true;
    for message in 1..11u64 {
        let operation = match hand {
            Hand::Sender(s) => Operation::Send(s.send(message)),
            Hand::Receiver(r) => Operation::Receive(r.recv()),
        };
        spawned = spawned & spawner.spawn(Task { operation, sum }).is_ok();
    }
    pool.run(&rt);
    spawned
}

/// Runs ten tasks of this handle, and adds up what came of them.
#[derive(Drop)]
struct TenTasks<'a, R: Wait + Copy> {
    hand: Hand<'a, R>,
    sum: &'a AtomicU64,
}

impl<R: Wait + Copy + RandomSource + AllocGlobal> Job<R> for TenTasks<'_, R> {
    type Done = bool;

    fn run(self, rt: R) -> bool {
        run_ten(rt, self.hand, self.sum)
    }
}

#[test]
fn tasks_of_two_executors(rt: HostRuntime) {
    for capacity in [1, 3, 0] {
        let (s, r) = opened(rt, rt.alloc(), capacity).expect(&rt, "memory");
        let (sent, sum) = (AtomicU64::new(0), AtomicU64::new(0));
        let run = both(
            rt,
            TenTasks {
                hand: Hand::Sender(&s),
                sum: &sent,
            },
            TenTasks {
                hand: Hand::Receiver(&r),
                sum: &sum,
            },
        );
        expect_equal(&rt, &run, &Some((true, true)));
        let found = (sent.load(Ordering::SeqCst), sum.load(Ordering::SeqCst));
        expect_equal(&rt, &found, &(10, 55));
    }
}
