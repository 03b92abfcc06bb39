//! What can be seen of a world's steps with no second account of the channel.

use crate::answer::{Answer, read};
use crate::form::{FORMS, Form};
use crate::inputs::Fault;
use crate::inputs::decode::{Names, PARTIES};
use crate::inputs::messages::HandedOut;
use crate::numbers::Numbers;
use channel_calls::mark::Mark;
use channel_calls::reply::Reply;
use channel_world::call::{Call, WorldRefusal};
use channel_world::name::{HandleId, OpId};
use channel_world::settle::Settled;
use channel_world::step::{Entry, PartyId, Step};
use channel_world::world::World;
use std::alloc::Global;
use std::collections::VecDeque;

/// How many bytes the steps of a list are, and how many rounds of steps the calls have to end in.
const LIST: usize = 32;

const ROUNDS: usize = 400;

const NO_MEMORY: Fault = "want of memory";

/// A world, the steps that are left of a list, what was handed out, and the numbers of what was made.
#[derive(Drop)]
struct Stepped {
    alloc: Global,
    world: World<u64>,
    names: Names,
    steps: VecDeque<Step<u64>>,
    handed: HandedOut,
    /// How many messages came into the channel, and how many left it.
    came: u64,
    left: u64,
    /// How many steps were made, how many of them began a call, and how many ended one.
    made: u64,
    begun: usize,
    ended: usize,
    /// The first fault.
    fault: Option<Fault>,
}

/// How many of these steps begin a call.
fn begins(steps: &VecDeque<Step<u64>>) -> usize {
    let mut begins = 0usize;
    for step in steps.iter() {
        if matches!(step, Step::Begin { .. }) {
            begins = begins.saturating_add(1);
        }
    }
    begins
}

impl Stepped {
    /// Notes this fault, if it isn't so and there was none before.
    fn so(&mut self, is_so: bool, fault: Fault) {
        if !is_so && self.fault.is_none() {
            self.fault = Some(fault);
        }
    }

    /// Notes what a call answered, and compares the messages that it hands out.
    fn hand_out(&mut self, reply: &Reply<u64>) {
        let is_first = self.handed.add(reply);
        self.so(is_first, "a message left twice, or never came");
    }

    /// Notes what a step did.
    fn note(&mut self, entry: &Entry<u64>) {
        let (came, left) = match entry.mark {
            Mark::Append => (1, 0),
            Mark::Take | Mark::TakeDisplaced => (0, 1),
            Mark::Replace => (1, 1),
            _ => (0, 0),
        };
        self.came = self.came.wrapping_add(came);
        self.left = self.left.wrapping_add(left);
        if let Some(reply) = &entry.reply {
            self.ended = self.ended.wrapping_add(1);
            self.hand_out(reply);
        }
    }

    /// Notes what a poll made alone did, as its reply says.
    fn note_poll(&mut self, reply: &Reply<u64>) {
        match read(reply).1 {
            Answer::Sent => self.came = self.came.wrapping_add(1),
            Answer::Received(_) => self.left = self.left.wrapping_add(1),
            _ => {}
        }
        self.hand_out(reply);
    }

    /// The numbers fit one another, and what was done.
    fn compare(&mut self) {
        let now = Numbers::of(&self.world);
        let names = self.names.handles.saturating_add(self.names.operations);
        self.so(
            now.messages.wrapping_add(self.left) == self.came,
            "the messages are not those that came less those that left",
        );
        self.so(
            now.woken <= now.pending && now.pending <= names as usize,
            "more are woken than pending, or more pending than there are",
        );
        self.so(
            now.under_way <= usize::from(PARTIES) && now.is_quiet == (now.under_way == 0),
            "more calls are under way than there are parties, or none and it isn't quiet",
        );
        self.so(
            now.under_way.wrapping_add(self.ended) == self.begun,
            "the calls under way are not those that began less those that ended",
        );
    }

    /// Runs the steps that are left, up to the first that is refused: why it is.
    fn run(&mut self) -> Option<WorldRefusal> {
        let (given, beginning) = (self.steps.len(), begins(&self.steps));
        let run = self.world.run_steps(&mut self.steps);
        let made = run.trace.len();
        for entry in run.trace.as_slice() {
            self.note(entry);
        }
        let stopped = run.stopped;
        drop(run);
        self.made = self.made.wrapping_add(made as u64);
        let begun = beginning.saturating_sub(begins(&self.steps));
        self.begun = self.begun.wrapping_add(begun);
        self.compare();
        let stands = self.steps.len() == given.saturating_sub(made);
        let (due, why) = match stopped {
            Some(stopped) => (made < given && stopped.place == made, Some(stopped.why)),
            None => (made >= given, None),
        };
        self.so(due && stands, "a refused step doesn't stay in front");
        why
    }

    /// A step that was refused is refused again for the same reason, nothing changes, and it is left out.
    fn leave_out(&mut self, why: WorldRefusal) {
        self.so(why != WorldRefusal::NoMemory, NO_MEMORY);
        let before = Numbers::of(&self.world);
        let again = self.run();
        let is_same = again == Some(why) && Numbers::of(&self.world) == before;
        self.so(is_same, "a refused step changed something");
        drop(self.steps.pop_front());
    }

    /// Runs the list, each step of it that is refused left out.
    fn run_list(&mut self) {
        for _ in 0..LIST {
            if self.fault.is_none() {
                if let Some(why) = self.run() {
                    self.leave_out(why);
                }
            }
        }
        let is_empty = self.steps.is_empty();
        self.so(is_empty, "a list doesn't end");
    }

    /// One more step of the list.
    fn push(&mut self, step: Step<u64>) {
        let is_in = self.steps.push_back(step).is_ok();
        self.so(is_in, NO_MEMORY);
    }

    /// Runs the list that these bytes say.
    fn run_bytes(&mut self, bytes: &[u8]) {
        for four in bytes.chunks_exact(4) {
            if let [who, what, name, handle] = four {
                let message = self.handed.next;
                self.handed.next = message.wrapping_add(1);
                let step = self.names.step([*who, *what, *name, *handle], message);
                self.push(step);
            }
        }
        self.run_list();
    }

    /// Settles where no call is under way: nobody is woken then, and of w pending ones at most w(w+1)/2 were polled.
    fn settle(&mut self) {
        if !self.world.is_quiet() {
            return;
        }
        let before = Numbers::of(&self.world);
        match self.world.settle() {
            Ok(polls) => self.compare_settled(before, polls.as_slice()),
            Err(_) => self.so(false, NO_MEMORY),
        }
    }

    /// Compares what a settling did by these polls.
    fn compare_settled(&mut self, before: Numbers, polls: &[Settled<u64>]) {
        for poll in polls {
            self.note_poll(&poll.reply);
        }
        self.compare();
        let pairs = before
            .pending
            .saturating_mul(before.pending.saturating_add(1));
        let is_settled = self.world.woken() == 0
            && before.woken <= polls.len()
            && polls.len() <= pairs / 2;
        self.so(
            is_settled,
            "settling left somebody woken, or polled too often",
        );
        self.so(
            self.handed.left == self.left,
            "a message left and was not handed out",
        );
    }

    /// Polls somebody alone who wasn't woken, after a settling: whoever is pending stays so. What doesn't live is refused.
    fn poll_sleeper(&mut self, poll: Call<u64>) {
        self.settle();
        let mut calls = VecDeque::new(self.alloc);
        let is_in = calls.push_back(poll).is_ok();
        self.so(is_in, NO_MEMORY);
        if !self.world.is_quiet() {
            return;
        }
        let pending = self.world.pending();
        let run = self.world.run_calls(&mut calls);
        if let Some(done) = run.done.first() {
            self.note_poll(&done.reply);
            self.compare();
            let is_same = pending <= self.world.pending();
            self.so(is_same, "somebody slept who could go on");
        }
    }

    /// Polls every operation and every receiver.
    fn poll_sleepers(&mut self) {
        for number in 0..self.names.operations {
            self.poll_sleeper(Call::Poll { op: OpId(number) });
        }
        for number in 0..self.names.handles {
            let receiver = HandleId(number);
            self.poll_sleeper(Call::PollNext { receiver });
        }
    }

    /// Lets all calls end.
    fn finish(&mut self) {
        for round in 0..ROUNDS {
            if self.world.is_quiet() {
                return;
            }
            let party = PartyId((round % 4) as u32);
            self.push(Step::Step { party });
            self.run_list();
        }
        self.so(false, "a call doesn't end");
    }

    /// Runs lists of steps, settling where no call is under way after one; then lets all calls end, settles, and polls everybody who wasn't
    /// woken.
    fn check(&mut self, lists: &[u8], most: u64) {
        for list in lists.chunks(LIST) {
            if self.fault.is_none() {
                self.run_bytes(list);
                let is_within = self.world.messages() <= most;
                self.so(is_within, "more messages than fit");
                self.settle();
            }
        }
        self.finish();
        self.poll_sleepers();
        self.settle();
    }
}

/// A world of which nothing was made yet.
fn nothing_made(world: World<u64>, alloc: Global) -> Stepped {
    Stepped {
        alloc,
        world,
        names: Names {
            handles: 2,
            operations: 0,
        },
        steps: VecDeque::new(alloc),
        handed: HandedOut {
            messages: Vec::new(alloc),
            next: 0,
            left: 0,
        },
        came: 0,
        left: 0,
        made: 0,
        begun: 0,
        ended: 0,
        fault: None,
    }
}

/// Runs the steps that bytes say on a world of the form that the first one says. How many steps were made.
pub fn check_steps(bytes: &[u8], alloc: Global) -> Result<u64, Fault> {
    let Some((byte, rest)) = bytes.split_first() else {
        return Ok(0);
    };
    let form = FORMS[usize::from(*byte % 3)];
    let Ok(world) = form.open(alloc) else {
        return Err(NO_MEMORY);
    };
    let mut trial = nothing_made(world, alloc);
    let most = form.capacity().unwrap_or(usize::MAX) as u64;
    trial.check(rest, most);
    match trial.fault {
        Some(fault) => Err(fault),
        None => Ok(trial.made),
    }
}
