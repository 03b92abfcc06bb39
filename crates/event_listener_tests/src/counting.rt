//! How many steps each call makes on the list of its event, by a list that counts them. A public call that is begun twice meets every
//! contract; this test sees it.

use crate::checks::expect_equal;
use crate::event::{task, waker};
use event_listener::error::{ListenError, NoMemory, NotifyError};
use event_listener::event::Event;
use event_listener::id::EventIds;
use event_listener::key::Key;
use event_listener::list::List;
use event_listener::listener::Listener;
use event_listener::notify::Notification;
use event_listener::parker::Parker;
use event_listener::stack::StackSlot;
use event_listener::steps::Steps;
use event_listener::waking::{Task, WakerCell};
use event_listener::{Home, Step};
use futures::task::{Context, Source, Waker};
use futures::test::MockTask;
use std::alloc::Global;
use std::process::Abort;
use std::sync::atomic::{AtomicUsize, Ordering};
use std::sync::{Arc, OnceLock, OnceToken, Wait};
use std::time::{Clock, Duration, Instant};

/// A list whose total is how many steps were made on it, those apart that asked for the total.
#[derive(Drop)]
struct Counting {
    list: List<(), Task>,
    steps: AtomicUsize,
}

impl Counting {
    fn count(&self) {
        self.steps.fetch_add(1, Ordering::SeqCst);
    }
}

impl Steps<()> for Counting {
    ghost did = { λ _ _ _ _. Unit {0} };

    ghost begins = { λ _. Unit {0} };

    ghost holds = { λ _ _. Unit {0} };

    ghost lacks = { λ _. Unit {0} };

    ghost read = { λ _. Unit {0} };

    ghost read_again = { λ _ _. Unit {0} };

    ghost slept = { λ _ _. Unit {0} };

    ghost refused = { Unit {0} };

    fn share<X: Drop>(alloc: Global, value: X) -> Result<Arc<X>, NoMemory> {
        List::<(), Task>::share(alloc, value)
    }

    fn share_again<X: Drop>(shared: &Arc<X>) -> Result<Arc<X>, NoMemory> {
        List::<(), Task>::share_again(shared)
    }

    fn empty(alloc: Global) -> Self {
        Counting {
            list: List::new(alloc),
            steps: AtomicUsize::new(0),
        }
    }

    fn find<'a>(
        lock: &'a OnceLock<Arc<Home<(), Self>>>,
    ) -> Option<OnceToken<'a, Arc<Home<(), Self>>>> {
        lock.witness()
    }

    fn see(_token: &OnceToken<'_, Arc<Home<(), Self>>>) {}

    fn listen(&mut self, step: Step<'_>, cell: Arc<WakerCell>) -> Result<Key, ListenError> {
        self.count();
        self.list.listen(step, cell)
    }

    fn poll<R: Wait>(
        &mut self,
        step: Step<'_>,
        rt: &R,
        key: Key,
        cell: &WakerCell,
        waker: Waker,
    ) -> Option<()> {
        self.count();
        Steps::poll(&mut self.list, step, rt, key, cell, waker)
    }

    fn poll_in<R: Wait>(
        &mut self,
        step: Step<'_>,
        rt: &R,
        key: Key,
        cell: &WakerCell,
        cx: &mut Context<'_>,
    ) -> Option<()> {
        self.count();
        self.list.poll_in(step, rt, key, cell, cx)
    }

    fn park(&mut self, step: Step<'_>, key: Key, parker: Arc<Parker>) -> Option<()> {
        self.count();
        self.list.park(step, key, parker)
    }

    fn look(&mut self, step: Step<'_>, key: Key, parker: &Parker) -> Option<()> {
        self.count();
        self.list.look(step, key, parker)
    }

    fn leave(
        &mut self,
        step: Step<'_>,
        key: Key,
        parker: &Parker,
        timeout: Duration,
    ) -> Option<()> {
        self.count();
        Steps::leave(&mut self.list, step, key, parker, timeout)
    }

    fn remove<R: Wait>(&mut self, step: Step<'_>, rt: &R, key: Key, pass_on: bool) -> bool {
        self.count();
        Steps::remove(&mut self.list, step, rt, key, pass_on)
    }

    fn notify<N: Notification<Tag = ()> + Drop, R: Wait>(
        &mut self,
        step: Step<'_>,
        rt: &R,
        notice: N,
    ) -> Result<usize, NotifyError> {
        self.count();
        Steps::notify(&mut self.list, step, rt, notice)
    }

    fn told(&self, step: Step<'_>) -> usize {
        self.count();
        Steps::told(&self.list, step)
    }

    fn total(&self, _step: Step<'_>) -> usize {
        self.steps.load(Ordering::SeqCst)
    }

    fn sleep<R: Wait>(rt: &R, _seal: &Source, _key: Key, parker: &Parker) {
        parker.sleep(rt);
    }

    fn sleep_for<R: Wait, K: Clock>(
        rt: &R,
        _seal: &Source,
        _key: Key,
        parker: &Parker,
        clock: &K,
        limit: Duration,
    ) {
        parker.sleep_for(rt, clock, limit);
    }

    fn now<K: Clock>(clock: &K) -> Option<Instant> {
        Instant::now(clock).ok()
    }

    fn now_again<K: Clock>(clock: &K, _begun: Option<Instant>) -> Option<Instant> {
        Instant::now(clock).ok()
    }
}

/// An event over such a list, and how many steps there were when it was asked last.
#[derive(Drop)]
struct Watched<'ev, R> {
    rt: R,
    event: &'ev Event<(), Counting>,
    before: usize,
}

impl<R: Wait + Abort + Clock + Copy> Watched<'_, R> {
    /// How many steps were made since.
    fn made(&mut self) -> usize {
        let now = self.event.total_listeners(&self.rt);
        now.wrapping_sub(std::mem::replace(&mut self.before, now))
    }

    /// Those of a notice of each kind, the first of which tells one more than there are told.
    fn by_notices(&mut self) -> [usize; 5] {
        let (rt, event) = (self.rt, self.event);
        let _ = event.notify(&rt, 1u8);
        let notify = self.made();
        event.notify_relaxed(&rt, 2);
        let relaxed = self.made();
        event.notify_additional(&rt, 1);
        let additional = self.made();
        event.notify_additional_relaxed(&rt, 1);
        let additional_relaxed = self.made();
        event.is_notified(&rt);
        [notify, relaxed, additional, additional_relaxed, self.made()]
    }

    /// Those of a listening, and of a wait for no time at all.
    fn by_wait(&mut self) -> [usize; 2] {
        let listener = self.event.listen(&self.rt).expect(&self.rt, "memory");
        let listen = self.made();
        let _ = listener.wait_timeout(&self.rt, Duration::ZERO).is_ok();
        [listen, self.made()]
    }

    /// Those of a poll by hand and of one as a future, of a listener that waits.
    fn by_polls(&mut self, task: &MockTask) -> [usize; 2] {
        let waker = waker(task).expect(&self.rt, "a waker");
        let mut listener = self.event.listen(&self.rt).expect(&self.rt, "memory");
        self.made();
        let _ = listener.poll(waker);
        let poll = self.made();
        let _ = task.poll(&mut listener);
        [poll, self.made()]
    }

    /// Those of a slot, and of a listening in it.
    fn by_slot(&mut self, alloc: Global) -> [usize; 2] {
        self.made();
        let mut slot = StackSlot::new(self.rt, alloc, self.event).expect(&self.rt, "memory");
        let new = self.made();
        let _listener = slot.listen().expect(&self.rt, "memory");
        [new, self.made()]
    }

    /// Those of a discarding, and of a drop.
    fn by_leaving(&mut self) -> [usize; 2] {
        let discarded = self.event.listen(&self.rt).expect(&self.rt, "memory");
        let dropped = self.event.listen(&self.rt).expect(&self.rt, "memory");
        self.made();
        discarded.discard();
        let discard = self.made();
        drop(dropped);
        [discard, self.made()]
    }
}

/// How many steps four told listeners make that are polled by hand, polled as a future, and wait without and with a limit; and those of the
/// notices that tell them.
fn by_told<R: Wait + Abort + Clock + Copy>(
    watched: &mut Watched<'_, R>,
    task: &MockTask,
) -> ([usize; 5], [usize; 4]) {
    let (rt, event) = (watched.rt, watched.event);
    let waker = waker(task).expect(&rt, "a waker");
    let mut by_hand = event.listen(&rt).expect(&rt, "memory");
    let mut future = event.listen(&rt).expect(&rt, "memory");
    let waiting = event.listen(&rt).expect(&rt, "memory");
    let timed = event.listen(&rt).expect(&rt, "memory");
    watched.made();
    let notices = watched.by_notices();
    let _ = by_hand.poll(waker);
    let poll = watched.made();
    let _ = task.poll(&mut future);
    let poll_future = watched.made();
    let _ = waiting.wait().is_ok();
    let wait = watched.made();
    let _ = timed.wait_timeout(&rt, Duration::from_secs(9)).is_ok();
    (notices, [poll, poll_future, wait, watched.made()])
}

#[test]
fn each_call_makes_its_steps(rt: HostRuntime) {
    let id = EventIds::new().next().expect(&rt, "an identity");
    let event = Event::<(), Counting>::with_lists(rt.alloc(), id);
    let mut watched = Watched {
        rt,
        event: &event,
        before: 0,
    };
    let polled = task(&rt);
    let told = by_told(&mut watched, &polled);
    expect_equal(&rt, &told, &([1, 1, 1, 1, 1], [1, 1, 1, 1]));
    expect_equal(&rt, &watched.by_wait(), &[1, 2]);
    expect_equal(&rt, &watched.by_leaving(), &[1, 1]);
    expect_equal(&rt, &watched.by_polls(&polled), &[1, 1]);
    expect_equal(&rt, &watched.by_slot(rt.alloc()), &[0, 1]);
}
