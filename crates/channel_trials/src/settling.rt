//! Random worlds that are settled, beside a plain channel.

use crate::answer::{Answer, read};
use crate::differs::Differs;
use crate::form::Form;
use crate::plain::Plain;
use crate::plan::{Kind, Plan};
use crate::random::Random;
use channel_calls::stage::WaitList;
use channel_world::call::{Call, Reply};
use channel_world::name::{HandleId, OpId, Waiter};
use channel_world::settle::Settled;
use channel_world::world::World;
use std::alloc::Global;
use std::collections::VecDeque;

/// How many calls are made at most before a world is settled.
const MOST: usize = 120;

/// How many polls a settling made, of how many worlds.
#[derive(Clone, Copy)]
pub struct Polls {
    /// How many polls.
    pub polls: u64,
    /// How many were pending at most.
    pub most: usize,
}

/// A world whose calls are made one at a time, and the plain channel that it is.
#[derive(Drop)]
struct Twin {
    world: World<u64>,
    plain: Plain,
    calls: VecDeque<Call<u64>>,
    random: Random,
    /// The next operation, the next handle and the next message.
    next: u32,
    handle: u32,
    message: u64,
    /// How many messages a receive of several takes at most.
    limit: usize,
}

/// The first handles: a sender and a receiver.
const SENDER: u32 = 0;

const RECEIVER: u32 = 1;

impl Twin {
    /// Whether the call answered so, with what the plain channel gave, where it received several.
    fn is_answer(&self, reply: &Reply<u64>, want: Answer) -> bool {
        let is_same = read(reply).1 == want;
        match reply {
            Reply::RecvMany(Ok(messages)) => {
                is_same && messages.as_slice() == self.plain.taken.as_slice()
            }
            _ => is_same,
        }
    }

    /// Makes a call of this kind on this handle, which answers so. The name is that of the operation, or of what is made.
    fn call(&mut self, kind: Kind, handle: u32, name: u32, want: Answer) -> Result<(), Differs> {
        let plan = Plan {
            kind,
            handle,
            name,
            message: self.message,
            limit: self.limit,
        };
        if self.calls.push_back(plan.call()).is_err() {
            return Err(Differs::NoMemory);
        }
        if !self.world.is_quiet() {
            return Err(Differs::Numbers);
        }
        let run = self.world.run_calls(&mut self.calls);
        let is_right = match run.done.last() {
            Some(done) => Some(self.is_answer(&done.reply, want)),
            None => None,
        };
        drop(run);
        match is_right {
            Some(true) => Ok(()),
            Some(false) => Err(Differs::Reply),
            None => Err(Differs::Refusal),
        }
    }

    /// A new operation, or the stream of a new receiver, is polled.
    fn poll(&mut self, line: WaitList) -> Result<(), Differs> {
        self.message = self.message.wrapping_add(1);
        let (op, new) = (self.next, self.handle);
        self.next = op.wrapping_add(1);
        self.handle = new.wrapping_add(1);
        match line {
            WaitList::Sends => self.call(Kind::NewSend, SENDER, op, Answer::Made),
            WaitList::Receives => self.call(Kind::NewRecv, RECEIVER, op, Answer::Made),
            WaitList::Closings => self.call(Kind::NewClosed, SENDER, op, Answer::Made),
            WaitList::Streams => self.call(Kind::TryClone, RECEIVER, new, Answer::Made),
        }?;
        let (kind, name) = match line {
            WaitList::Streams => (Kind::PollNext, Waiter::Stream(HandleId(new))),
            _ => (Kind::Poll, Waiter::Op(OpId(op))),
        };
        let want = self.plain.poll_new(name, line, self.message)?;
        self.call(kind, new, op, want)
    }

    /// A message is sent, one or several are received without waiting, or now and then the channel is closed.
    fn act(&mut self) -> Result<(), Differs> {
        self.message = self.message.wrapping_add(1);
        let (kind, handle) = match self.random.below(40) {
            0 => (Kind::Close, SENDER),
            1..20 => (Kind::TrySend, SENDER),
            20..32 => (Kind::TryRecv, RECEIVER),
            _ => (Kind::RecvMany, RECEIVER),
        };
        let want = match kind {
            Kind::Close => self.plain.close(),
            Kind::TrySend => self.plain.send(self.message),
            Kind::TryRecv => self.plain.receive(),
            _ => {
                self.limit = self.random.below(5);
                self.plain.receive_several(self.limit)
            }
        }?;
        self.call(kind, handle, 0, want)
    }

    /// A poll or a call without waiting.
    fn turn(&mut self) -> Result<(), Differs> {
        match self.random.below(8) {
            0 => self.poll(WaitList::Closings),
            1 => self.poll(WaitList::Streams),
            2..4 => self.poll(WaitList::Sends),
            4..6 => self.poll(WaitList::Receives),
            _ => self.act(),
        }
    }

    /// The polls of a settling are those of the plain channel.
    fn compare(&mut self, settled: &Vec<Settled<u64>>) -> Result<(), Differs> {
        for poll in settled {
            if self.plain.first_woken() != Some(poll.name) {
                return Err(Differs::Woken);
            }
            if self.plain.poll_woken()? != read(&poll.reply).1 {
                return Err(Differs::Reply);
            }
        }
        let is_same = self.world.pending() == self.plain.pending()
            && self.world.messages() == self.plain.messages() as u64
            && self.world.woken() == 0
            && self.plain.woken() == 0;
        if is_same {
            Ok(())
        } else {
            Err(Differs::Numbers)
        }
    }

    /// Settles it.
    fn settle(&mut self) -> Result<Polls, Differs> {
        if !self.world.is_quiet() || self.world.woken() != self.plain.woken() {
            return Err(Differs::Numbers);
        }
        let most = self.world.pending();
        let Ok(settled) = self.world.settle() else {
            return Err(Differs::NoMemory);
        };
        self.compare(&settled)?;
        Ok(Polls {
            polls: settled.len() as u64,
            most,
        })
    }

    /// Makes so many random calls one at a time.
    fn turns(&mut self) -> Result<(), Differs> {
        for _ in 0..self.random.below(MOST).saturating_add(1) {
            self.turn()?;
        }
        Ok(())
    }

    /// Makes random calls, and settles it now and then. How many polls that made.
    fn run(&mut self) -> Result<Polls, Differs> {
        self.turns()?;
        let mut all = Polls { polls: 0, most: 0 };
        for _ in 0..3 {
            let Polls { polls, most } = self.settle()?;
            all.polls = all.polls.wrapping_add(polls);
            all.most = all.most.max(most);
            self.act()?;
        }
        Ok(all)
    }
}

/// Settles the random world of this seed and form, beside a plain channel. How many polls that made, or what differs.
pub fn settle(form: Form, seed: u64, alloc: Global) -> Result<Polls, Differs> {
    let Ok(world) = form.open(alloc) else {
        return Err(Differs::NoMemory);
    };
    let mut twin = Twin {
        world,
        plain: Plain::new(form.capacity(), alloc),
        calls: VecDeque::new(alloc),
        random: Random::new(seed, 0),
        next: 0,
        handle: 2,
        message: 0,
        limit: 0,
    };
    twin.run()
}
