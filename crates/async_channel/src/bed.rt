//! What a thread sleeps on while a call blocks it. The bed owns the parker; a wait queue holds a reference to it while the thread is
//! registered.

use crate::cells::{Beds, SharedCells};
use event_listener::parker::Parker;
use event_listener::waking::Task;
use std::alloc::Global;
use std::sync::{Arc, Wait};

/// The parker of a call that blocks its thread, made when the call is about to sleep for the first time.
#[derive(Drop)]
pub(crate) struct Bed {
    parker: Option<Arc<Parker>>,
}

impl Bed {
    /// Without a parker. It takes no memory.
    pub(crate) fn new() -> Bed {
        Bed { parker: None }
    }

    /// A task whose waking ends the next sleep on this bed; `None` if there is no memory for it.
    pub(crate) fn task(&mut self, alloc: Global) -> Option<Task> {
        if self.parker.is_none() {
            self.parker = Arc::new(alloc, Parker::new()).ok();
        }
        match &self.parker {
            Some(parker) => match Arc::try_clone(parker) {
                Ok(parker) => Some(Task::Parked(parker)),
                Err(_) => None,
            },
            None => None,
        }
    }

    /// Sleeps until such a task is woken.
    pub(crate) fn sleep<R: Wait>(&self, rt: &R) {
        if let Some(parker) = &self.parker {
            // The parker stays rung, so a notification since the registration ends this sleep at once.
            parker.sleep(rt);
        }
    }
}

impl<'a, T: Drop, R: Wait> Beds<T> for SharedCells<'a, T, R, Bed> {
    ghost parked = { λ _ _ _. Unit {0} };

    ghost slept = { λ _ _. Unit {0} };

    fn park(&mut self) -> Option<Task> {
        self.bed.task(self.shared.alloc)
    }

    fn sleep(&mut self) {
        self.bed.sleep(self.rt);
    }
}
