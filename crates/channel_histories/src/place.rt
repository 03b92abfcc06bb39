//! Where a thread of a history stands, as it says itself, and the tasks that poll for it.

use async_channel::Sender;
use futures::test::MockTask;
use history_checker::point::Side;
use history_checker::rest::Look;
use std::alloc::AllocGlobal;
use std::io;
use std::random::RandomSource;
use std::sync::{Mutex, Wait};

/// Which of two tasks polls.
#[derive(Clone, Copy, PartialEq, Eq, Debug)]
pub enum By {
    First,
    Second,
}

/// Two tasks that poll one operation in turn.
#[derive(Drop)]
pub struct Pair {
    first: MockTask,
    second: MockTask,
}

impl Pair {
    /// Tasks that were not woken; refused where memory or random bits are.
    fn new<R: RandomSource + AllocGlobal>(rt: &R) -> io::Result<Pair> {
        Ok(Pair {
            first: MockTask::new(rt)?,
            second: MockTask::new(rt)?,
        })
    }

    /// This one of them.
    pub fn of(&self, by: By) -> &MockTask {
        match by {
            By::First => &self.first,
            By::Second => &self.second,
        }
    }

    /// Whether the one was woken that polled last an operation that is pending, if one is.
    fn is_woken(&self, polled: Option<By>) -> Option<bool> {
        match polled {
            Some(by) => Some(self.of(by).is_woken()),
            None => None,
        }
    }
}

/// The tasks that poll: two for each kind of operation.
#[derive(Drop)]
pub struct Tasks {
    pub send: Pair,
    pub recv: Pair,
    pub closed: Pair,
    pub stream: Pair,
}

impl Tasks {
    /// Tasks that were not woken; refused where memory or random bits are.
    fn new<R: RandomSource + AllocGlobal>(rt: &R) -> io::Result<Tasks> {
        Ok(Tasks {
            send: Pair::new(rt)?,
            recv: Pair::new(rt)?,
            closed: Pair::new(rt)?,
            stream: Pair::new(rt)?,
        })
    }
}

/// What a thread is at.
#[derive(Clone, Copy, PartialEq, Eq, Debug)]
pub enum At {
    /// Calls that end by themselves.
    Calls,
    /// A call that may sleep: a send, or a receive.
    Blocking(Side),
    /// The end of its calls.
    Rest,
}

/// What a thread is at, and of each operation that is pending, who polled it last.
#[derive(Clone, Copy, PartialEq, Eq, Debug)]
pub struct Standing {
    pub at: At,
    pub send: Option<By>,
    pub recv: Option<By>,
    pub closed: Option<By>,
    pub stream: Option<By>,
}

impl Standing {
    /// Of a thread that has made no call.
    pub fn new() -> Standing {
        Standing {
            at: At::Calls,
            send: None,
            recv: None,
            closed: None,
            stream: None,
        }
    }
}

/// What a thread shares with whoever watches it.
#[derive(Drop)]
pub struct Place {
    pub tasks: Tasks,
    standing: Mutex<Standing>,
}

impl Place {
    /// Of a thread that has made no call; refused where memory or random bits are.
    pub fn new<R: RandomSource + AllocGlobal>(rt: &R) -> io::Result<Place> {
        Ok(Place {
            tasks: Tasks::new(rt)?,
            standing: Mutex::new(Standing::new()),
        })
    }

    /// The thread stands so now.
    pub fn say<R: Wait>(&self, rt: &R, standing: Standing) {
        *self.standing.lock(rt) = standing;
    }

    /// How the thread stands.
    pub fn standing<R: Wait>(&self, rt: &R) -> Standing {
        *self.standing.lock(rt)
    }

    /// What is seen of the thread, and of its channel; none where it makes a call that ends by itself.
    pub fn look<R: Wait + Copy>(&self, rt: &R, sender: &Sender<u64, R>) -> Option<Look> {
        let standing = self.standing(rt);
        let blocking = match standing.at {
            At::Calls => return None,
            At::Blocking(side) => Some(side),
            At::Rest => None,
        };
        let tasks = &self.tasks;
        Some(Look {
            send: tasks.send.is_woken(standing.send),
            recv: tasks.recv.is_woken(standing.recv),
            closed: tasks.closed.is_woken(standing.closed),
            stream: tasks.stream.is_woken(standing.stream),
            blocking,
            messages: sender.len(),
            capacity: sender.capacity(),
            shut: sender.is_closed(),
        })
    }
}
