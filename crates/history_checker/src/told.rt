//! What logs say of the order in which messages come in: whatever leaves first came in first.

use crate::log::{Log, Moment};
use crate::point::Point;
use std::alloc::{AllocError, Global};
use std::collections::{HashMap, HashSet};

/// The logs of a history, and when each message leaves by them.
#[derive(Drop)]
pub(crate) struct Told<'a> {
    /// The log of each thread.
    pub(crate) logs: &'a [Log],
    /// When a message leaves.
    leaves: HashMap<u64, Moment>,
    /// The messages that come in.
    comes: HashSet<u64>,
    /// Whether none comes in or leaves twice. If one does, the order of exits says nothing.
    distinct: bool,
    /// For each thread, behind each number of its moments: the least end of the exit of a message that it is still to bring in.
    least: Vec<Vec<u64>>,
}

impl<'a> Told<'a> {
    /// What these logs say.
    pub(crate) fn new(logs: &'a [Log], alloc: Global) -> Result<Told<'a>, AllocError> {
        let mut told = Told {
            logs,
            leaves: HashMap::new(alloc),
            comes: HashSet::new(alloc),
            distinct: true,
            least: Vec::new(alloc),
        };
        for log in logs {
            told.note(log)?;
        }
        for log in logs {
            let ends = told.least_ends(log, alloc)?;
            told.least.push(ends)?;
        }
        Ok(told)
    }

    /// Which messages come in and leave by this log.
    fn note(&mut self, log: &Log) -> Result<(), AllocError> {
        for moment in &log.moments {
            if let Some(message) = moment.point.brings() {
                let is_new = self.comes.insert(message)?;
                self.distinct = self.distinct && is_new;
            }
            if let Some(message) = moment.point.takes() {
                let other = self.leaves.insert(message, *moment)?;
                self.distinct = self.distinct && other.is_none();
            }
        }
        Ok(())
    }

    /// When a message leaves that comes in by this point, if it does.
    fn exit(&self, point: Point) -> Option<Moment> {
        let message = point.brings()?;
        let moment = self.leaves.get(&message)?;
        Some(*moment)
    }

    /// Behind each number of moments of this log, the least end of the exit of a message that a later one brings in.
    fn least_ends(&self, log: &Log, alloc: Global) -> Result<Vec<u64>, AllocError> {
        let mut ends = Vec::new(alloc);
        let mut least = u64::MAX;
        ends.push(least)?;
        for moment in log.moments.iter().rev() {
            if let Some(exit) = self.exit(moment.point) {
                least = least.min(exit.end);
            }
            ends.push(least)?;
        }
        ends.reverse();
        Ok(ends)
    }

    /// Whether so many moments of each thread may be past when this one comes: a message doesn't come in before one that has left
    /// before it begins to leave.
    pub(crate) fn allows(&self, made: &[usize], point: Point) -> bool {
        if !self.distinct || point.brings().is_none() {
            return true;
        }
        let begin = match self.exit(point) {
            Some(exit) => exit.begin,
            None => u64::MAX,
        };
        self.least.iter().zip(made.iter()).all(|(ends, made)| ends
            .get(*made)
            .is_none_or(|end| *end >= begin))
    }
}
