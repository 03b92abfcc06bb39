//! Whom a call woke.

use event_listener::wakes::Wakes;

/// A sink that keeps the names of those who were woken.
#[derive(Drop)]
pub(crate) struct Names {
    pub(crate) woken: Vec<u32>,
}

impl Wakes<u32> for Names {
    ghost wakes = { λ s t u. Unit {0} };

    fn wake(&mut self, task: u32) {
        let _ = self.woken.push(task);
    }
}

/// A sink that was given nothing.
pub(crate) fn no_names(rt: &impl AllocGlobal) -> Names {
    Names {
        woken: Vec::new(rt.alloc()),
    }
}
