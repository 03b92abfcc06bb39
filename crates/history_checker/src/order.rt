//! The search for an order in which a plain channel does what the logs say.

use crate::log::{Log, Moment};
use crate::plain::Plain;
use crate::told::Told;
use std::alloc::{AllocError, Global};
use std::collections::HashSet;

/// How many states are gone on from at most, and how many moments may change nothing.
const MOST: u64 = 1_000_000;

/// What the search found.
#[derive(Clone, Copy, PartialEq, Eq, Debug)]
pub enum Verdict {
    /// An order that fits the stamps.
    Fits,
    /// That there is none.
    Refused,
    /// Neither: it looked at too many states, or memory was refused.
    Undecided,
}

/// A plain channel after some of the moments, and how many of each thread's these are.
#[derive(Drop)]
struct State {
    plain: Plain,
    made: Vec<usize>,
}

impl State {
    fn new(plain: Plain, logs: &[Log], alloc: Global) -> Result<State, AllocError> {
        let mut made = Vec::new(alloc);
        for _ in logs {
            made.push(0)?;
        }
        Ok(State { plain, made })
    }

    fn again(&self) -> Result<State, AllocError> {
        let plain = self.plain.again()?;
        let made = self.made.clone()?;
        Ok(State { plain, made })
    }

    /// Numbers that no other state of the same search has.
    fn numbers(&self, alloc: Global) -> Result<Vec<u64>, AllocError> {
        let mut numbers = Vec::new(alloc);
        for made in &self.made {
            numbers.push(*made as u64)?;
        }
        self.plain.tell(&mut numbers)?;
        Ok(numbers)
    }

    /// The thread's next moment.
    fn next(&self, told: &Told<'_>, thread: usize) -> Option<Moment> {
        let made = self.made.get(thread)?;
        let moment = told.logs.get(thread)?.moments.get(*made)?;
        Some(*moment)
    }

    /// The least end of a moment that is still to come: whatever begins later comes later. None where nothing is to come.
    fn limit(&self, told: &Told<'_>) -> Option<u64> {
        let mut least = None;
        for thread in 0..told.logs.len() {
            if let Some(moment) = self.next(told, thread) {
                let end = least.unwrap_or(moment.end);
                least = Some(moment.end.min(end));
            }
        }
        least
    }

    /// The thread's next moment, if it can come now.
    fn choice(&self, told: &Told<'_>, thread: usize, limit: u64) -> Option<Moment> {
        let moment = self.next(told, thread)?;
        let may_come = self.plain.may(moment.point)
            && told.allows(self.made.as_slice(), moment.point);
        (moment.begin < limit && may_come).then_some(moment)
    }

    fn make(&mut self, moment: Moment, thread: usize) -> Result<(), AllocError> {
        self.plain.make(moment.point, thread)?;
        if let Some(made) = self.made.get_mut(thread) {
            *made = made.wrapping_add(1);
        }
        Ok(())
    }

    /// Lets one moment come that changes nothing, if there is one. Whatever fits without that fits after it too, so no choice
    /// is lost.
    fn pass_one(&mut self, told: &Told<'_>, limit: u64) -> Result<bool, AllocError> {
        for thread in 0..told.logs.len() {
            if let Some(moment) = self.choice(told, thread, limit) {
                if self.plain.is_still(moment.point, thread) {
                    self.make(moment, thread)?;
                    return Ok(true);
                }
            }
        }
        Ok(false)
    }

    /// Lets moments come that change nothing, as long as there are such. It answers the limit for what comes next, `None` where
    /// nothing is to come.
    fn pass(&mut self, told: &Told<'_>) -> Result<Option<u64>, AllocError> {
        for _ in 0..MOST {
            let Some(limit) = self.limit(told) else {
                return Ok(None);
            };
            if !self.pass_one(told, limit)? {
                return Ok(Some(limit));
            }
        }
        Err(AllocError)
    }

    /// The states after each moment that can come now, the one that has to end first being last.
    fn go_on(self, told: &Told<'_>, limit: u64, states: &mut Vec<State>) -> Result<(), AllocError> {
        let mut first = None;
        for thread in 0..told.logs.len() {
            if let Some(moment) = self.choice(told, thread, limit) {
                if moment.end == limit && first.is_none() {
                    first = Some((moment, thread));
                } else {
                    let mut after = self.again()?;
                    after.make(moment, thread)?;
                    states.push(after)?;
                }
            }
        }
        let mut after = self;
        match first {
            Some((moment, thread)) => {
                after.make(moment, thread)?;
                states.push(after)?;
                Ok(())
            }
            None => {
                drop(after);
                Ok(())
            }
        }
    }
}

/// The states that are still to be gone on from, and the numbers of those that were.
#[derive(Drop)]
struct Search {
    states: Vec<State>,
    seen: HashSet<Vec<u64>>,
    alloc: Global,
}

impl Search {
    fn new(first: State, alloc: Global) -> Result<Search, AllocError> {
        let mut states = Vec::new(alloc);
        states.push(first)?;
        Ok(Search {
            states,
            seen: HashSet::new(alloc),
            alloc,
        })
    }

    /// Goes on from this state, unless it did before: whether an order was found.
    fn go_on(&mut self, state: State, told: &Told<'_>) -> Result<bool, AllocError> {
        let mut state = state;
        let Some(limit) = state.pass(told)? else {
            return Ok(true);
        };
        let numbers = state.numbers(self.alloc)?;
        if self.seen.insert(numbers)? {
            state.go_on(told, limit, &mut self.states)?;
        }
        Ok(false)
    }

    /// Goes on from states as long as there are such.
    fn run(&mut self, told: &Told<'_>) -> Result<Verdict, AllocError> {
        for _ in 0..MOST {
            let Some(state) = self.states.pop() else {
                return Ok(Verdict::Refused);
            };
            if self.go_on(state, told)? {
                return Ok(Verdict::Fits);
            }
        }
        Ok(Verdict::Undecided)
    }
}

/// Searches from this channel on.
fn find(plain: Plain, logs: &[Log], alloc: Global) -> Result<Verdict, AllocError> {
    let told = Told::new(logs, alloc)?;
    let first = State::new(plain, logs, alloc)?;
    Search::new(first, alloc)?.run(&told)
}

/// Whether a plain channel that begins so does what these logs say, in some order that fits the stamps.
pub fn judge(plain: Plain, logs: &[Log], alloc: Global) -> Verdict {
    find(plain, logs, alloc).unwrap_or(Verdict::Undecided)
}
