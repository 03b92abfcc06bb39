//! Calls of one party, made by so many steps as they take.

use crate::checks::{expect_equal, expect_seen, expect_true};
use crate::scarcity::{Attempt, Scarcity, Seen, Tried, made, refused};
use crate::worlds::{Ask, Numbers, Said, call, is_refusal, numbers_of, says};
use channel_world::call::{Stopped, WorldRefusal};
use channel_world::step::{PartyId, Run, Step};
use channel_world::world::World;
use event_listener::error::NoMemory;
use event_listener::id::EventIds;
use std::alloc::Global;
use std::collections::VecDeque;

/// More steps than a call takes.
const MOST: usize = 200;

/// The party that makes all calls.
const PARTY: PartyId = PartyId(3);

/// How many calls there are.
const COUNT: usize = 14;

/// Two receives wait, get messages, and others come; a list of several is received; a send is made and given up.
const CALLS: [(Ask, Said); COUNT] = [
    (Ask::Recv(0), Said::Made),
    (Ask::Poll(0), Said::Pending),
    (Ask::Recv(1), Said::Made),
    (Ask::Poll(1), Said::Pending),
    (Ask::TrySend(5), Said::Sent),
    (Ask::TrySend(6), Said::Sent),
    (Ask::TrySend(7), Said::Sent),
    (Ask::TrySend(8), Said::Sent),
    (Ask::Poll(0), Said::Got(5)),
    (Ask::Poll(1), Said::Got(6)),
    (Ask::RecvMany(9), Said::GotFrom(7, 2)),
    (Ask::Send(2, 9), Said::Made),
    (Ask::GiveUp(2), Said::GivenUp(Some(9))),
    (Ask::Close, Said::Shut),
];

/// A world, a list with room for the step that begins a call, the next call and what it is to say.
#[derive(Drop)]
struct Party {
    world: World<u64>,
    steps: VecDeque<Step<u64>>,
    ask: Ask,
    said: Said,
    /// What the world said before the call.
    before: Numbers,
    /// How many steps of the call were made since it was begun.
    made: usize,
    /// How many were made at most, whether or not it was begun again.
    most: usize,
    /// How often steps were refused after others of the same run were made.
    cut: u32,
    /// Whether all calls were begun that were to be.
    is_right: bool,
}

impl Party {
    /// A channel without a bound; none where it was refused memory.
    fn open(alloc: Global) -> Option<Party> {
        let world = World::unbounded(alloc, &mut EventIds::new()).ok()?;
        Some(Party {
            before: numbers_of(&world),
            world,
            steps: VecDeque::with_capacity(alloc, 1).ok()?,
            ask: Ask::TryRecv,
            said: Said::Else,
            made: 0,
            most: 0,
            cut: 0,
            is_right: true,
        })
    }

    /// Begins the call.
    fn begin(&mut self) {
        let party = PARTY;
        let call = call(self.ask);
        self.before = numbers_of(&self.world);
        self.made = 0;
        let put = self.steps.push_back(Step::Begin { party, call }).is_ok();
        let run = self.world.run_steps(&mut self.steps);
        let begun = run.stopped.is_none() && run.trace.len() == 1;
        drop(run);
        self.is_right = self.is_right && put && begun;
    }

    /// What a run of steps came to. One that was refused memory has changed nothing but by the steps that it made.
    fn judge(&mut self, run: &Run<u64>) -> Tried {
        let place = run.trace.len();
        self.made = self.made.wrapping_add(place);
        let is_farther = self.made > self.most;
        self.most = if is_farther { self.made } else { self.most };
        if let Some(Stopped { place: at, why }) = run.stopped {
            self.cut = self.cut.wrapping_add(u32::from(place > 0));
            let right = at == place && why == WorldRefusal::NoMemory && !self.world.is_quiet();
            return match refused(right) {
                Tried::Refused if is_farther => Tried::Farther,
                tried => tried,
            };
        }
        let said = match run.trace.last() {
            Some(entry) => match &entry.reply {
                Some(reply) => says(reply),
                None => Said::Else,
            },
            None => Said::Else,
        };
        if said == self.said {
            return made(self.world.is_quiet());
        }
        refused(is_refusal(self.ask, said) && numbers_of(&self.world) == self.before)
    }
}

impl Attempt for Party {
    fn is_behind(&self) -> bool {
        self.world.is_quiet()
    }

    fn catch_up(&mut self) {
        self.begin();
    }

    fn make(&mut self) -> Tried {
        let before = numbers_of(&self.world);
        let tried = match self.world.run_party(PARTY, MOST) {
            Ok(run) => {
                let tried = self.judge(&run);
                drop(run);
                tried
            }
            Err(NoMemory) => refused(numbers_of(&self.world) == before),
        };
        if self.is_right { tried } else { Tried::Wrong }
    }
}

/// Makes all calls with ample memory: how many steps each takes.
fn make_all(alloc: Global) -> Option<[usize; COUNT]> {
    let mut party = Party::open(alloc)?;
    let mut taken = [0; COUNT];
    let mut right = true;
    for (place, (ask, said)) in CALLS.iter().enumerate() {
        party.ask = *ask;
        party.said = *said;
        party.begin();
        right = right & (party.make() == Tried::Made);
        if let Some(here) = taken.get_mut(place) {
            *here = party.made;
        }
    }
    if right { Some(taken) } else { None }
}

/// Makes each call until it isn't refused: how many steps each took, and how often one was refused in its midst.
fn refuse_all(alloc: Global) -> Option<(Seen, [usize; COUNT], u32)> {
    let mut party = Party::open(alloc)?;
    let mut taken = [0; COUNT];
    let mut scarcity = Scarcity::new(alloc);
    for (place, (ask, said)) in CALLS.iter().enumerate() {
        party.ask = *ask;
        party.said = *said;
        party.most = 0;
        scarcity.refuse_each(&mut party);
        if let Some(here) = taken.get_mut(place) {
            *here = party.made;
        }
    }
    Some((scarcity.end(), taken, party.cut))
}

/// A call that is refused goes on from there, and takes as many steps, with the same answer, as one that nothing is refused.
#[test]
fn calls_of_one_party(rt: HostRuntime) {
    let ample = make_all(rt.alloc()).expect(&rt, "memory");
    let (seen, taken, cut) = refuse_all(rt.alloc()).expect(&rt, "memory");
    expect_seen(&rt, &seen, 14, 78);
    expect_true(&rt, cut > 0);
    expect_equal(&rt, &taken, &ample);
}
