//! Whom calls woke, by the list on which each waits.

use channel_calls::stage::WaitList;
use event_listener::wakes::Wakes;

/// So many tasks there are for each list.
const EACH: u32 = 8;

/// So many tasks there are.
const TASKS: usize = 32;

/// The four lists.
pub(crate) const LINES: [WaitList; 4] = [
    WaitList::Sends,
    WaitList::Receives,
    WaitList::Streams,
    WaitList::Closings,
];

/// The place of a list among the four.
pub(crate) fn place_of(line: WaitList) -> usize {
    match line {
        WaitList::Sends => 0,
        WaitList::Receives => 1,
        WaitList::Streams => 2,
        WaitList::Closings => 3,
    }
}

/// The task of the one of this number who waits on this list.
pub(crate) fn task_of(line: WaitList, who: u32) -> u32 {
    let first: u32 = match line {
        WaitList::Sends => 0,
        WaitList::Receives => 8,
        WaitList::Streams => 16,
        WaitList::Closings => 24,
    };
    first.wrapping_add(who)
}

/// A sink that notes of each task whether it was woken.
#[derive(Clone, Copy)]
pub(crate) struct Woken {
    tasks: [bool; TASKS],
}

impl Woken {
    pub(crate) fn new() -> Woken {
        Woken {
            tasks: [false; TASKS],
        }
    }

    pub(crate) fn is_woken(&self, task: u32) -> bool {
        let place = task as usize;
        place < TASKS && self.tasks[place]
    }

    fn set(&mut self, task: u32, woken: bool) {
        if let Some(place) = self.tasks.get_mut(task as usize) {
            *place = woken;
        }
    }

    /// The task has gone on since it was woken.
    pub(crate) fn clear(&mut self, task: u32) {
        self.set(task, false);
    }

    /// Those of either.
    pub(crate) fn or(&self, other: &Woken) -> Woken {
        let mut both = *self;
        for task in 0..32 {
            if other.is_woken(task) {
                both.set(task, true);
            }
        }
        both
    }

    /// How many were woken who wait on this list.
    pub(crate) fn count(&self, line: WaitList) -> usize {
        let mut count: usize = 0;
        for who in 0..EACH {
            if self.is_woken(task_of(line, who)) {
                count = count.wrapping_add(1);
            }
        }
        count
    }
}

impl Wakes<u32> for Woken {
    ghost wakes = { λ s t u. Unit {0} };

    fn wake(&mut self, task: u32) {
        self.set(task, true);
    }
}
