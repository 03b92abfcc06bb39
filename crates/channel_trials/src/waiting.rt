//! Who waits: a plain list of the names that are pending.

use crate::differs::Differs;
use channel_calls::stage::WaitList;
use channel_world::name::Waiter;
use std::alloc::Global;

/// Between which moments one came to the end of its line.
#[derive(Clone, Copy)]
pub struct Came {
    pub from: u64,
    pub to: u64,
}

/// An operation or a stream whose last poll ended pending.
#[derive(Clone, Copy)]
struct Sleeper {
    name: Waiter,
    line: WaitList,
    came: Came,
    /// Whether it was named by a step since.
    is_woken: bool,
    /// Whether a poll or a giving up of it is under way, or the drop of its receiver.
    is_in_hand: bool,
}

/// All who wait.
#[derive(Drop)]
pub struct Waiting {
    sleepers: Vec<Sleeper>,
}

impl Waiting {
    /// Nobody.
    pub fn nobody(alloc: Global) -> Self {
        Waiting {
            sleepers: Vec::new(alloc),
        }
    }

    /// A poll of it ended pending. It came to the line then.
    pub fn add(&mut self, name: Waiter, line: WaitList, came: Came) -> Result<(), Differs> {
        let sleeper = Sleeper {
            name,
            line,
            came,
            is_woken: false,
            is_in_hand: false,
        };
        match self.sleepers.push(sleeper) {
            Ok(()) => Ok(()),
            Err(_) => Err(Differs::NoMemory),
        }
    }

    /// The place of the one of this name.
    fn place_of(&self, name: Waiter) -> Option<usize> {
        let mut place = 0usize;
        for sleeper in &self.sleepers {
            if sleeper.name == name {
                return Some(place);
            }
            place = place.saturating_add(1);
        }
        None
    }

    /// Whether one waits unwoken who came to this one's line before it.
    fn has_before(&self, one: Sleeper) -> bool {
        let mut has = false;
        for sleeper in &self.sleepers {
            let is_free = !sleeper.is_in_hand && !sleeper.is_woken;
            let is_before = sleeper.line == one.line && sleeper.came.to < one.came.from;
            has = has || (is_free && is_before);
        }
        has
    }

    /// A call begins that has it in hand.
    pub fn take_in_hand(&mut self, name: Waiter) {
        if let Some(place) = self.place_of(name) {
            if let Some(sleeper) = self.sleepers.get_mut(place) {
                sleeper.is_in_hand = true;
            }
        }
    }

    /// The call that had it in hand has answered. When it came, if it waited and was not woken: it has its place still where it
    /// goes on to wait.
    pub fn remove(&mut self, name: Waiter) -> Option<Came> {
        match self.place_of(name) {
            Some(place) if place < self.sleepers.len() => {
                let sleeper = self.sleepers.remove(place);
                (!sleeper.is_woken).then_some(sleeper.came)
            }
            _ => None,
        }
    }

    /// It was woken, as nobody is who doesn't wait, was woken before, or came to its line after one who waits there unwoken. The
    /// line on which it waits.
    pub fn wake(&mut self, name: Waiter) -> Result<WaitList, Differs> {
        let place = self.place_of(name).unwrap_or(usize::MAX);
        let Some(woken) = self.sleepers.get(place).copied() else {
            return Err(Differs::Woken);
        };
        if woken.is_woken || (!woken.is_in_hand && self.has_before(woken)) {
            return Err(Differs::Woken);
        }
        if let Some(sleeper) = self.sleepers.get_mut(place) {
            sleeper.is_woken = true;
        }
        Ok(woken.line)
    }

    /// How many are pending on this line, or on all lines, that were woken, or that were not.
    pub fn number(&self, line: Option<WaitList>, is_woken: bool) -> usize {
        let mut number = 0usize;
        for sleeper in &self.sleepers {
            let is_on = line.is_none() || line == Some(sleeper.line);
            if is_on && !sleeper.is_in_hand && sleeper.is_woken == is_woken {
                number = number.saturating_add(1);
            }
        }
        number
    }
}
