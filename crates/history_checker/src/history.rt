//! What one history shows.

use crate::log::Log;
use crate::order::{Verdict, judge};
use crate::plain::Plain;
use crate::rest::Rest;
use std::alloc::Global;
use std::io;

/// What all threads of one channel did.
#[derive(Drop)]
pub struct History {
    /// The channel that they began with.
    pub plain: Plain,
    /// A log for each thread.
    pub logs: Vec<Log>,
    /// What was seen each time that no call was under way but some that sleep.
    pub rests: Vec<Rest>,
}

/// What is wrong with a history.
#[derive(Clone, Copy, PartialEq, Eq, Debug)]
pub enum Fault {
    /// A call answered what none may, or memory was refused.
    Spoiled,
    /// Somebody slept beside a message, a free place or a closing when no other call was under way.
    Asleep,
    /// No order fits.
    Refused,
    /// The search was given up.
    Undecided,
}

impl History {
    fn is_spoiled(&self) -> bool {
        self.logs.iter().any(|log| log.spoiled)
    }

    /// Whether nobody slept who must not, each time.
    fn is_restful(&self) -> bool {
        self.rests.iter().all(|rest| rest.is_right())
    }

    /// What is wrong with it, if anything is.
    pub fn fault(&self, alloc: Global) -> Option<Fault> {
        if self.is_spoiled() {
            return Some(Fault::Spoiled);
        }
        if !self.is_restful() {
            return Some(Fault::Asleep);
        }
        let Ok(plain) = self.plain.again() else {
            return Some(Fault::Undecided);
        };
        match judge(plain, self.logs.as_slice(), alloc) {
            Verdict::Fits => None,
            Verdict::Refused => Some(Fault::Refused),
            Verdict::Undecided => Some(Fault::Undecided),
        }
    }

    /// Prints what each thread's calls did, a line for each moment, and who waited at each rest.
    pub fn print<R: Print>(&self, rt: &R) -> io::Result<()> {
        for (thread, log) in self.logs.iter().enumerate() {
            for moment in &log.moments {
                let begin = moment.begin;
                let end = moment.end;
                let point = moment.point;
                println!(rt; "thread {thread}, {begin} to {end}: {point:?}")?;
            }
        }
        for rest in &self.rests {
            println!(rt; "{rest:?}")?;
        }
        Ok(())
    }
}
