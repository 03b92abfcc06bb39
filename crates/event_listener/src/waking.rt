//! How a listener's task is kept and woken.
//!
//! A waker of `futures` wakes its task when it is dropped, and can't be copied. A list that held wakers would therefore wake a task that is
//! polled a second time, again and again. So a list holds a shared cell, made when the listener is added: a poll leaves its waker in the
//! cell, and a notification takes it out. The cell owns the waker, behind a lock of its own. Channels wake their operations by the same
//! cells.
//!
//! # Extensions
//!
//! All of this module.

ghost use Rattle.futures.specs.Task.{IsArmed, Keeps};

use crate::parker::Parker;
use crate::wakes::Wakes;
use futures::task::{Context, Source, Waker};
use std::sync::{Arc, Mutex, Wait};

/// Holds the waker of one listener's task.
#[derive(Drop)]
pub struct WakerCell {
    source: Source,
    waker: Mutex<Option<Waker>>,
}

impl WakerCell {
    /// A cell without a waker. It takes no memory.
    pub fn new() -> WakerCell {
        WakerCell {
            source: Source::new(),
            waker: Mutex::new(None),
        }
    }

    /// Keeps this waker. An older one is dropped, which wakes its task. It may wait for the cell's lock.
    pub fn keep<R: Wait>(&self, rt: &R, waker: Waker) {
        // Under the cell's lock a notification takes either the older waker or this one.
        *self.waker.lock(rt) = Some(waker);
    }

    /// Keeps a waker of the task that is polled; one of the same task that is there already stays, so a second poll wakes nobody. If no
    /// waker can be made, the task is polled again. It may wait for the cell's lock.
    ///
    /// The answer is whether the cell has a waker now.
    pub fn arm<R: Wait>(&self, rt: &R, cx: &mut Context<'_>) -> bool
        ensures armed { IsArmed cx.new }
        ensures kept { Keeps cx.old cx.new }
    {
        // Under the cell's lock, so a notification takes the waker before this or after it.
        let mut guard = self.waker.lock(rt);
        let place = &mut *guard;
        let _pending: futures::task::Poll<()> = cx.register(&self.source, place);
        place.is_some()
    }

    fn wake<R: Wait>(&self, rt: &R) {
        // Take it out, so that one notification wakes once, and release the cell's lock before the wake runs the executor's code.
        let waker = self.waker.lock(rt).take();
        if let Some(waker) = waker {
            waker.wake();
        }
    }
}

/// What a notification of a listener wakes.
#[derive(Drop)]
pub enum Task {
    /// The task that polls the listener, whose waker is in this cell.
    Polled(Arc<WakerCell>),
    /// The thread that sleeps on this.
    Parked(Arc<Parker>),
}

/// The sink that wakes each task at once, while the list is locked. A wake may wait for the lock of the task's cell or parker.
#[derive(Drop)]
pub struct WakeNow<'a, R: Wait> {
    /// What lets a wake wait.
    pub rt: &'a R,
}

impl<R: Wait> Wakes<Task> for WakeNow<'_, R> {
    // It wakes at once and keeps nothing, so no clause says what it has become.
    ghost wakes = { λ s t u. Unit {0} };

    fn wake(&mut self, task: Task) {
        match task {
            Task::Polled(cell) => cell.wake(self.rt),
            Task::Parked(parker) => parker.ring(self.rt),
        }
    }
}
