//! What notices of these tests are, and who hears of them.

use event_listener::error::NoMemory;
use event_listener::notify::Notification;
use event_listener::wakes::Wakes;
use std::alloc::AllocError;
use worked_rows::Said;

/// A notice with the tags `next`, one more than that and so on, of which so many can be made.
#[derive(Drop)]
pub(crate) struct Counted {
    pub(crate) count: usize,
    pub(crate) additional: bool,
    pub(crate) next: u32,
    pub(crate) left: u32,
}

impl Counted {
    /// An additional notice for three that can make so many tags, from 0 on.
    pub(crate) fn scarce(left: u32) -> Counted {
        Counted {
            count: 3,
            additional: true,
            next: 0,
            left,
        }
    }
}

impl Notification for Counted {
    type Tag = u32;

    ghost size = { λ n. n.count };

    ghost additional = { λ n. n.additional };

    ghost can_give = { λ n. Unit {0} };

    ghost gives = { λ n r m. Unit {0} };

    fn count(&self) -> usize {
        self.count
    }

    fn is_additional(&self) -> bool {
        self.additional
    }

    fn next_tag(&mut self) -> Result<u32, NoMemory> {
        if self.left == 0 {
            return Err(NoMemory);
        }
        self.left -= 1;
        let tag = self.next;
        self.next = tag.wrapping_add(1);
        Ok(tag)
    }
}

/// A sink that keeps the names of those who were woken.
#[derive(Drop)]
pub(crate) struct Names {
    pub(crate) woken: Vec<u32>,
}

impl Wakes<u32> for Names {
    ghost wakes = { λ s t u. Unit {0} };

    fn wake(&mut self, task: u32) {
        let _ = self.woken.push(task);
    }
}

/// A sink that lets tasks go.
#[derive(Drop)]
pub(crate) struct Nobody;

impl Wakes<u8> for Nobody {
    ghost wakes = { λ s t u. Unit {0} };

    fn wake(&mut self, _task: u8) {}
}

/// Writes numbers, one behind another.
pub(crate) fn write_numbers(numbers: &[u32], answer: &mut String) -> Result<(), AllocError> {
    for number in numbers {
        Said::Number(u64::from(*number)).write(answer)?;
    }
    Ok(())
}

/// How many of these there are, where they are this one, so many more and so on.
pub(crate) fn count_steps(numbers: &[u32], first: u32, step: u32) -> Said {
    let mut next = first;
    for number in numbers {
        if *number != next {
            return Said::Both("not in turn before", u64::from(next));
        }
        next = next.wrapping_add(step);
    }
    Said::count(numbers.len())
}
