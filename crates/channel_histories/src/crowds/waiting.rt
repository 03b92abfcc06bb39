//! Ten thousand tasks that wait on one thread: who is woken, in which order, and how often, where half of those that receive are dropped.

use async_channel::{Closed, Receiver, Recv, Sender, unbounded};
use event_listener::id::EventIds;
use futures::task::Poll;
use futures::test::MockTask;
use std::alloc::{AllocGlobal, Global};
use std::random::RandomSource;
use std::rt::Clock;
use std::sync::Wait;
use std::time::Instant;

/// How many receive, of which every other one is dropped while it waits, and how many wait for the closing; and how many messages come.
const TASKS: usize = 10_000;

const MESSAGES: u64 = 2_500;

/// How many messages are timed.
const TIMED: u64 = 10;

/// A task with the receive that it polls.
#[derive(Drop)]
struct Receiving<'a, R: Wait + Copy> {
    task: MockTask,
    recv: Recv<'a, u64, R>,
}

/// A task with the wait for the closing that it polls.
#[derive(Drop)]
struct Closing<'a, R: Wait + Copy> {
    task: MockTask,
    closed: Closed<'a, u64, R>,
}

/// A task whose receive is pending.
fn receive<'a, R>(rt: &R, receiver: &'a Receiver<u64, R>) -> Option<Receiving<'a, R>>
where
    R: Wait + Copy + RandomSource + AllocGlobal,
{
    let task = MockTask::new(rt).ok()?;
    let mut recv = receiver.recv();
    if task.poll(&mut recv).is_ready() {
        return None;
    }
    Some(Receiving { task, recv })
}

/// So many tasks whose receives are pending.
fn receive_all<'a, R>(
    rt: &R,
    alloc: Global,
    receiver: &'a Receiver<u64, R>,
    count: usize,
) -> Option<Vec<Receiving<'a, R>>>
where
    R: Wait + Copy + RandomSource + AllocGlobal,
{
    let mut tasks = Vec::new(alloc);
    for _ in 0..count {
        tasks.push(receive(rt, receiver)?).ok()?;
    }
    Some(tasks)
}

/// Every other of these tasks; the rest is dropped, with receives that are pending.
fn every_other<'a, R: Wait + Copy>(
    alloc: Global,
    tasks: Vec<Receiving<'a, R>>,
) -> Option<Vec<Receiving<'a, R>>> {
    let mut stay = Vec::new(alloc);
    let mut stays = false;
    for one in tasks {
        stays = !stays;
        if stays {
            stay.push(one).ok()?;
        }
    }
    Some(stay)
}

/// So many tasks whose waits for the closing are pending.
fn await_closing<'a, R>(
    rt: &R,
    alloc: Global,
    sender: &'a Sender<u64, R>,
) -> Option<Vec<Closing<'a, R>>>
where
    R: Wait + Copy + RandomSource + AllocGlobal,
{
    let mut tasks = Vec::new(alloc);
    for _ in 0..TASKS {
        let task = MockTask::new(rt).ok()?;
        let mut closed = sender.closed();
        if task.poll(&mut closed).is_ready() {
            return None;
        }
        tasks.push(Closing { task, closed }).ok()?;
    }
    Some(tasks)
}

fn is_woken<R: Wait + Copy>(tasks: &[Receiving<'_, R>], number: usize) -> bool {
    match tasks.get(number) {
        Some(one) => one.task.is_woken(),
        None => false,
    }
}

/// How many of these were woken.
fn woken<R: Wait + Copy>(tasks: &[Receiving<'_, R>]) -> u64 {
    let mut woken = 0u64;
    for one in tasks {
        woken = woken.wrapping_add(u64::from(one.task.is_woken()));
    }
    woken
}

/// Whether none of these was woken.
fn all_sleep<R: Wait + Copy>(tasks: &[Closing<'_, R>]) -> bool {
    let mut sleep = true;
    for one in tasks {
        sleep = sleep && !one.task.is_woken();
    }
    sleep
}

/// Each message wakes one task, the one that has waited longest.
fn wakes_in_order<R: Wait + Copy>(sender: &Sender<u64, R>, tasks: &[Receiving<'_, R>]) -> bool {
    let mut right = true;
    for message in 0..MESSAGES {
        let number = message as usize;
        right = right
            && !is_woken(tasks, number)
            && sender.try_send(message).is_ok()
            && is_woken(tasks, number)
            && !is_woken(tasks, number.wrapping_add(1));
    }
    right && woken(tasks) == MESSAGES
}

/// The first ones get the messages in order, the others find the channel closed; nobody is woken again.
fn receives_all<R: Wait + Copy>(tasks: &mut Vec<Receiving<'_, R>>) -> bool {
    let mut right = true;
    let mut next = 0u64;
    for one in tasks.iter_mut() {
        let woken = one.task.is_woken();
        let due = match one.task.poll(&mut one.recv) {
            Poll::Ready(Ok(message)) => message == next && next < MESSAGES,
            Poll::Ready(Err(_)) => next >= MESSAGES,
            Poll::Pending => false,
        };
        next = next.wrapping_add(1);
        right = right && woken && due;
    }
    right && woken(tasks.as_slice()) == 0
}

/// All find the channel closed; nobody is woken again.
fn closes_all<R: Wait + Copy>(tasks: &mut Vec<Closing<'_, R>>) -> bool {
    let mut right = true;
    for one in tasks.iter_mut() {
        let woken = one.task.is_woken();
        right = right && woken && one.task.poll(&mut one.closed).is_ready();
    }
    right && all_sleep(tasks.as_slice())
}

/// Messages come, and then a closing: whether each wakes whom it must.
fn wakes<R>(
    rt: &R,
    alloc: Global,
    sender: &Sender<u64, R>,
    receiver: &Receiver<u64, R>,
) -> Option<bool>
where
    R: Wait + Copy + RandomSource + AllocGlobal,
{
    let all = receive_all(rt, alloc, receiver, TASKS)?;
    let mut closings = await_closing(rt, alloc, sender)?;
    let mut receives = every_other(alloc, all)?;
    let in_order = wakes_in_order(sender, receives.as_slice());
    let asleep = all_sleep(closings.as_slice());
    let closed = sender.close();
    let received = receives_all(&mut receives);
    let told = closes_all(&mut closings);
    Some(in_order && asleep && closed && received && told)
}

/// Whether so many messages wake so many of the tasks that stay, in the order in which they came, and a closing all others, each once.
/// `None` where memory was refused.
pub fn wakes_each_once<R>(rt: R, alloc: Global) -> Option<bool>
where
    R: Wait + Copy + RandomSource + AllocGlobal,
{
    let (sender, receiver) = unbounded(rt, alloc, &mut EventIds::new()).ok()?;
    wakes(&rt, alloc, &sender, &receiver)
}

/// Sends ten messages: how many nanoseconds each takes.
fn time_sends<R: Wait + Copy + Clock>(rt: &R, sender: &Sender<u64, R>) -> Option<u128> {
    let start = Instant::now(rt).ok()?;
    for message in 0..TIMED {
        sender.try_send(message).ok()?;
    }
    let taken = start.elapsed(rt).ok()?.as_nanos();
    Some(taken / u128::from(TIMED))
}

/// How many nanoseconds each of ten sends takes that wakes one of so many tasks. `None` where memory was refused.
pub fn time_of_wakes<R>(rt: R, alloc: Global, waiting: usize) -> Option<u128>
where
    R: Wait + Copy + RandomSource + AllocGlobal + Clock,
{
    let (sender, receiver) = unbounded(rt, alloc, &mut EventIds::new()).ok()?;
    let tasks = receive_all(&rt, alloc, &receiver, waiting)?;
    let taken = time_sends(&rt, &sender);
    drop(tasks);
    taken
}
