//! In which order a call wakes those who wait: they are tasks of one executor, which polls woken tasks in the order of their
//! wakes, and each poll writes its task's name down.

ghost use Rattle.futures.specs.Poll.{OnPending};
ghost use Rattle.futures.specs.Task.{IsArmed, Keeps};

use crate::checks::expect_true;
use async_channel::{Closed, Receiver, Recv, Sender};
use channel_test_helpers::{Ends, goes, opened};
use futures::executor::{LocalPool, LocalSpawner};
use futures::task::{Context, Poll};
use futures::{Future, Stream};
use std::alloc::AllocGlobal;
use std::process::Abort;
use std::random::RandomSource;
use std::sync::{Mutex, Wait};

/// The names of those who were polled, in order.
type Names = Mutex<Vec<u32>>;

/// Who waits.
#[derive(Drop)]
enum Waiting<'a, R: Wait + Copy> {
    Message(Recv<'a, u64, R>),
    Stream(Receiver<u64, R>),
    Closing(Closed<'a, u64, R>),
}

impl<R: Wait + Copy> Waiting<'_, R> {
    fn poll(&mut self, cx: &mut Context<'_>) -> Poll<()>
        ensures armed { OnPending result (IsArmed cx.new) }
        ensures kept { Keeps cx.old cx.new }
    {
        let pending = match self {
            Waiting::Message(recv) => recv.poll(cx).is_pending(),
            Waiting::Stream(stream) => stream.poll_next(cx).is_pending(),
            Waiting::Closing(closed) => closed.poll(cx).is_pending(),
        };
        if pending {
            Poll::Pending
        } else {
            Poll::Ready(())
        }
    }
}

/// A task that writes its name down at each poll.
#[derive(Drop)]
struct Named<'a, R: Wait + Copy> {
    rt: R,
    name: u32,
    names: &'a Names,
    waiting: Waiting<'a, R>,
}

impl<R: Wait + Copy> Future for Named<'_, R> {
    type Output = ();

    fn poll(&mut self, cx: &mut Context<'_>) -> Poll<()> {
        let _ = self.names.lock(&self.rt).push(self.name);
        self.waiting.poll(cx)
    }
}

/// One more task of the executor: whether it was taken.
fn spawns<'a, R: Wait + Copy>(
    rt: R,
    spawner: &LocalSpawner<Named<'a, R>>,
    name: u32,
    names: &'a Names,
    waiting: Waiting<'a, R>,
) -> bool {
    let task = Named {
        rt,
        name,
        names,
        waiting,
    };
    spawner.spawn(task).is_ok()
}

/// A wait for the closing, a stream and a receive are polled in this order, and then as the call wakes them: a closing by hand, or
/// else a send.
fn polls<'a, R>(
    rt: R,
    s: &'a Sender<u64, R>,
    r: &'a Receiver<u64, R>,
    names: &'a Names,
    closes: bool,
) -> bool
where
    R: Wait + Copy + RandomSource + AllocGlobal + Abort,
{
    let mut pool = LocalPool::new(&rt).expect(&rt, "memory");
    let spawner = pool.spawner().expect(&rt, "memory");
    let stream = r.try_clone().expect(&rt, "handles");
    let first = spawns(rt, &spawner, 1, names, Waiting::Closing(s.closed()));
    let second = spawns(rt, &spawner, 2, names, Waiting::Stream(stream));
    let third = spawns(rt, &spawner, 3, names, Waiting::Message(r.recv()));
    pool.run_until_stalled(10);
    let called = if closes { s.close() } else { goes(s, 7) };
    pool.run_until_stalled(10);
    first && second && third && called
}

/// Whether the names are these.
fn are<R: Wait + Copy>(rt: R, names: &Names, want: &[u32]) -> bool {
    names.lock(&rt).as_slice() == want
}

/// Whether the tasks are polled in this order, over a channel without a bound.
fn is_order<R>(rt: R, ends: &Ends<R>, closes: bool, want: &[u32]) -> bool
where
    R: Wait + Copy + RandomSource + AllocGlobal + Abort,
{
    let names = Mutex::new(Vec::new(rt.alloc()));
    polls(rt, &ends.0, &ends.1, &names, closes) && are(rt, &names, want)
}

/// A closing wakes receives, streams and closings in order; a message wakes a receive before the streams.
#[test]
fn calls_wake_in_order(rt: HostRuntime) {
    for (closes, want) in [
        (true, [1, 2, 3, 3, 2, 1].as_slice()),
        (false, [1, 2, 3, 3, 2].as_slice()),
    ] {
        let ends = opened(rt, rt.alloc(), 0).expect(&rt, "memory");
        expect_true(&rt, is_order(rt, &ends, closes, want));
    }
}
