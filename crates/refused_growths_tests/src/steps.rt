//! Calls of a world made step by step.

use crate::checks::{expect_equal, expect_right, expect_seen, expect_true};
use crate::scarcity::{Attempt, Scarcity, Seen, Tried, made, refused};
use crate::worlds::{Ask, NO_ROOM, Numbers, Said, call, is_refusal, numbers_of, says};
use channel_world::call::{Stopped, WorldRefusal};
use channel_world::step::{PartyId, Run, Step};
use channel_world::world::World;
use event_listener::id::EventIds;
use std::alloc::Global;
use std::collections::VecDeque;

/// How many steps a call makes at most.
const MOST: u32 = 200;

/// The party that makes all calls.
const PARTY: PartyId = PartyId(3);

/// A world, the list of steps, with room for one, the next call and what it is to say. An attempt is one step, at which none of the memory
/// stands that the steps before it let go. A call that was answered with its refusal is begun again, and comes to the same step while
/// memory is ample.
#[derive(Drop)]
struct Steps {
    world: World<u64>,
    steps: VecDeque<Step<u64>>,
    ask: Ask,
    said: Said,
    /// What the world said before the call began.
    before: Numbers,
    /// How many steps of the call were made.
    made: u32,
    /// How many were made at most, whether or not the call was begun again.
    most: u32,
    is_done: bool,
    /// Whether each step was made that was made before, when the call was begun again.
    is_right: bool,
}

/// What one step came to.
#[derive(Clone, Copy, PartialEq, Eq)]
enum Stepped {
    /// It was made, and the call goes on.
    On,
    /// It was made, and the call ended so.
    Ended(Said),
    /// It was refused, and stays in the list.
    Refused,
    Wrong,
}

/// What the list of one step came to.
fn step_of(run: &Run<u64>) -> Stepped {
    match run.trace.first() {
        Some(entry) => match &entry.reply {
            Some(reply) => Stepped::Ended(says(reply)),
            None => Stepped::On,
        },
        None => if run.stopped == NO_ROOM {
            Stepped::Refused
        } else {
            Stepped::Wrong
        },
    }
}

impl Steps {
    fn next(&self) -> Step<u64> {
        if self.made > 0 {
            Step::Step { party: PARTY }
        } else {
            Step::Begin {
                party: PARTY,
                call: call(self.ask),
            }
        }
    }

    /// Puts the next step into the list, unless one was left there. The list has room for it.
    fn put(&mut self) -> bool {
        if !self.steps.is_empty() {
            return true;
        }
        let next = self.next();
        self.steps.push_back(next).is_ok()
    }

    /// Makes one step. One that is refused stays, and changes nothing.
    fn step(&mut self) -> Stepped {
        let put = self.put();
        let before = numbers_of(&self.world);
        let run = self.world.run_steps(&mut self.steps);
        let came = step_of(&run);
        drop(run);
        let left = self.steps.len();
        let right = if came == Stepped::Refused {
            left == 1 && numbers_of(&self.world) == before
        } else {
            left == 0
        };
        if put && right { came } else { Stepped::Wrong }
    }

    /// What a call came to that ended so. One that was refused changed nothing.
    fn ended(&mut self, said: Said) -> Tried {
        self.made = 0;
        self.is_done = said == self.said;
        if self.is_done {
            return Tried::Made;
        }
        refused(is_refusal(self.ask, said) && numbers_of(&self.world) == self.before)
    }
}

impl Attempt for Steps {
    fn is_behind(&self) -> bool {
        self.made < self.most
    }

    fn catch_up(&mut self) {
        for _ in self.made..self.most {
            self.is_right = self.is_right && self.step() == Stepped::On;
            self.made = self.made.wrapping_add(1);
        }
    }

    fn make(&mut self) -> Tried {
        if !self.is_right {
            return Tried::Wrong;
        }
        match self.step() {
            Stepped::On => {
                self.made = self.made.wrapping_add(1);
                self.most = self.made;
                Tried::Made
            }
            Stepped::Ended(said) => self.ended(said),
            Stepped::Refused => Tried::Refused,
            Stepped::Wrong => Tried::Wrong,
        }
    }
}

impl Steps {
    /// Makes a call, each step of it until that isn't refused.
    fn make_call(&mut self, scarcity: &mut Scarcity, ask: Ask, said: Said) {
        self.before = numbers_of(&self.world);
        self.ask = ask;
        self.said = said;
        self.most = 0;
        self.is_done = false;
        for _ in 0..MOST {
            if !self.is_done {
                scarcity.refuse_each(self);
            }
        }
    }
}

/// How many receives wait at once.
const COUNT: u32 = 12;

/// Receives wait, and messages come for all of them and half as many.
fn fill(scarcity: &mut Scarcity, steps: &mut Steps) {
    for number in 0..COUNT {
        steps.make_call(scarcity, Ask::Recv(number), Said::Made);
        steps.make_call(scarcity, Ask::Poll(number), Said::Pending);
        steps.make_call(scarcity, Ask::Clone(number.wrapping_add(2)), Said::Made);
    }
    for number in 0..COUNT + 6 {
        steps.make_call(scarcity, Ask::TrySend(u64::from(number)), Said::Sent);
    }
}

/// The receives get the first messages, and the others are taken, one alone and then the others at once.
fn empty(scarcity: &mut Scarcity, steps: &mut Steps) {
    for number in 0..COUNT {
        steps.make_call(scarcity, Ask::Poll(number), Said::Got(u64::from(number)));
    }
    steps.make_call(scarcity, Ask::TryRecv, Said::Got(12));
    steps.make_call(scarcity, Ask::RecvMany(100), Said::GotFrom(13, 5));
}

const NOTHING: Numbers = Numbers {
    messages: 0,
    under_way: 0,
    pending: 0,
    woken: 0,
};

/// Makes all calls; then the numbers.
fn step_all(alloc: Global) -> Option<(Seen, Numbers)> {
    let mut steps = Steps {
        world: World::unbounded(alloc, &mut EventIds::new()).ok()?,
        steps: VecDeque::with_capacity(alloc, 1).ok()?,
        ask: Ask::TryRecv,
        said: Said::Else,
        before: NOTHING,
        made: 0,
        most: 0,
        is_done: true,
        is_right: true,
    };
    let mut scarcity = Scarcity::new(alloc);
    fill(&mut scarcity, &mut steps);
    empty(&mut scarcity, &mut steps);
    let seen = scarcity.end();
    Some((seen, numbers_of(&steps.world)))
}

/// Each step takes room for what it says, so each is refused at least once.
#[test]
fn steps_of_a_world(rt: HostRuntime) {
    let (seen, numbers) = step_all(rt.alloc()).expect(&rt, "memory");
    expect_right(&rt, &seen);
    expect_true(&rt, seen.calls >= 485 && seen.refusals >= 923);
    expect_equal(&rt, &numbers, &NOTHING);
}

/// A list of steps, which goes on from where it was refused.
#[derive(Drop)]
struct Lists {
    world: World<u64>,
    steps: VecDeque<Step<u64>>,
}

impl Attempt for Lists {
    fn make(&mut self) -> Tried {
        let before = self.steps.len();
        let run = self.world.run_steps(&mut self.steps);
        let place = run.trace.len();
        let stopped = run.stopped;
        drop(run);
        let is_left = self.steps.len().wrapping_add(place) == before;
        match stopped {
            None => made(is_left && self.steps.is_empty()),
            Some(stopped) => {
                let due = Stopped {
                    place,
                    why: WorldRefusal::NoMemory,
                };
                match refused(is_left && stopped == due) {
                    Tried::Refused if place > 0 => Tried::Farther,
                    tried => tried,
                }
            }
        }
    }
}

/// Adds a call that ends by its first step.
fn add(steps: &mut VecDeque<Step<u64>>, ask: Ask) -> Option<()> {
    let party = PARTY;
    let call = call(ask);
    steps.push_back(Step::Begin { party, call }).ok()?;
    steps.push_back(Step::Step { party }).ok()
}

/// Operations and handles are made, all in one list.
fn make_all(alloc: Global) -> Option<Seen> {
    let mut lists = Lists {
        world: World::bounded(alloc, 1, &mut EventIds::new()).ok()?,
        steps: VecDeque::new(alloc),
    };
    for number in 0..COUNT {
        add(&mut lists.steps, Ask::Recv(number))?;
        add(&mut lists.steps, Ask::Downgrade(number.wrapping_add(2)))?;
    }
    let mut scarcity = Scarcity::new(alloc);
    scarcity.refuse_each(&mut lists);
    Some(scarcity.end())
}

/// A list that is refused in its midst is left from that step on, and goes on from there.
#[test]
fn lists_of_steps(rt: HostRuntime) {
    let seen = make_all(rt.alloc()).expect(&rt, "memory");
    expect_seen(&rt, &seen, 1, 23);
}
