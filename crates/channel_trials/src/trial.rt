//! One random interleaving, with calls made alone where none is under way, beside a plain count.

use crate::book::Book;
use crate::differs::Differs;
use crate::draw::draw;
use crate::made::Made;
use crate::numbers::Numbers;
use crate::owed::{is_nothing_owed, one_place_each_is_enough};
use crate::plan::{Kind, Plan};
use crate::random::Random;
use channel_calls::mark::Mark;
use channel_world::call::{Call, CallRun, Stopped, WorldRefusal};
use channel_world::step::{Entry, PartyId, Run, Step};
use channel_world::world::World;
use std::alloc::Global;
use std::collections::VecDeque;

/// How many turns an interleaving has at least, how many more it may have, and how many rounds its calls have to end in, with
/// more for each message that a receive of several may take.
const TURNS: usize = 40;

const MORE: usize = 80;

const ROUNDS: usize = 400;

const ROUNDS_EACH: usize = 64;

/// One time in so many turns all calls under way are first let end.
const PAUSE: usize = 30;

/// In one of so many interleavings most calls send.
const FLOODS: usize = 4;

/// How a run stops where memory was refused.
const NO_MEMORY: Stopped = Stopped {
    place: 0,
    why: WorldRefusal::NoMemory,
};

/// The parties that there may be.
static PARTIES: [u32; 4] = [11, 7, 23, 5];

/// A world with its parties, and the plain count of it.
#[derive(Drop)]
pub struct Trial {
    world: World<u64>,
    steps: VecDeque<Step<u64>>,
    calls: VecDeque<Call<u64>>,
    /// The plain count.
    pub book: Book,
    random: Random,
    /// How many parties there are.
    parties: usize,
    /// Whether most of their calls send.
    is_flood: bool,
    /// The last new message.
    message: u64,
    /// How much was made.
    pub made: Made,
}

impl Trial {
    /// An open world with nobody at work, and the plain count of it.
    pub fn new(world: World<u64>, book: Book, seed: u64, alloc: Global) -> Self {
        let mut random = Random::new(seed, 0);
        let is_flood = random.once_in(FLOODS);
        Trial {
            world,
            steps: VecDeque::new(alloc),
            calls: VecDeque::new(alloc),
            book,
            random,
            parties: 1,
            is_flood,
            message: 0,
            made: Made::nothing(),
        }
    }

    /// One more moment: the numbers agree, and nothing is owed.
    fn observe(&mut self) -> Result<(), Differs> {
        if Numbers::of(&self.world) != self.book.numbers() {
            return Err(Differs::Numbers);
        }
        if !is_nothing_owed(&self.book) {
            return Err(Differs::Owed);
        }
        if !one_place_each_is_enough(&self.book) {
            self.made.several_free = 1;
        }
        self.book.see();
        Ok(())
    }

    /// Counts what a step of a party did, or that it was refused.
    fn count_entry(&mut self, party: u32, entry: &Entry<u64>) -> Result<(), Differs> {
        self.book.wake(party, &entry.woken)?;
        self.book.step(party, entry.mark)?;
        match &entry.reply {
            Some(reply) => self.book.end(party, reply),
            None => Ok(()),
        }
    }

    /// Counts a run of one step, by which a party began this call, or went on.
    fn count(&mut self, party: u32, begun: Option<Plan>, run: &Run<u64>) -> Result<(), Differs> {
        let refusal = match begun {
            Some(plan) => self.book.refusal(party, plan),
            None if self.book.call_of(party).is_none() => Some(WorldRefusal::Idle),
            None => None,
        };
        is_stopped_as_due(run.stopped, refusal, self.steps.len())?;
        self.steps.clear();
        let Some(entry) = run.trace.last() else {
            return is_due(refusal.is_some());
        };
        is_due(refusal.is_none())?;
        self.made.steps = self.made.steps.wrapping_add(1);
        let Some(plan) = begun else {
            return self.count_entry(party, entry);
        };
        if !is_empty(entry) {
            return Err(Differs::Begin);
        }
        self.made.begun = self.made.begun.wrapping_add(1);
        self.book.begin(party, plan)
    }

    /// A party begins a call, or goes on, or is refused it: a begin that may not be, or a step where it has no call under way.
    pub fn advance(&mut self, party: u32, begun: Option<Plan>) -> Result<(), Differs> {
        let id = PartyId(party);
        let step = match begun {
            Some(plan) => Step::Begin {
                party: id,
                call: plan.call(),
            },
            None => Step::Step { party: id },
        };
        if self.steps.push_back(step).is_err() {
            return Err(Differs::NoMemory);
        }
        let run = self.world.run_steps(&mut self.steps);
        let counted = self.count(party, begun, &run);
        drop(run);
        counted?;
        self.observe()
    }

    /// Counts a run of one call that a party made alone, or was refused.
    fn count_alone(&mut self, party: u32, plan: Plan, run: &CallRun<u64>) -> Result<(), Differs> {
        let refusal = self.book.refusal(party, plan);
        is_stopped_as_due(run.stopped, refusal, self.calls.len())?;
        self.calls.clear();
        let Some(done) = run.done.last() else {
            return is_due(refusal.is_some());
        };
        is_due(refusal.is_none())?;
        self.made.alone = self.made.alone.wrapping_add(1);
        self.book.make(party, plan, done)
    }

    /// A party makes a call alone, from its begin to its end, or is refused it. None where another one is under way.
    pub fn call_alone(&mut self, party: u32, plan: Plan) -> Option<Result<(), Differs>> {
        if !self.world.is_quiet() {
            return None;
        }
        if self.calls.push_back(plan.call()).is_err() {
            return Some(Err(Differs::NoMemory));
        }
        let run = self.world.run_calls(&mut self.calls);
        let counted = self.count_alone(party, plan, &run);
        drop(run);
        Some(match counted {
            Ok(()) => self.observe(),
            differs => differs,
        })
    }

    /// A party makes a call alone, every other time that none is under way; else it begins it.
    fn call(&mut self, party: u32, plan: Plan) -> Result<(), Differs> {
        if self.random.once_in(2) {
            if let Some(made) = self.call_alone(party, plan) {
                return made;
            }
        }
        self.advance(party, Some(plan))
    }

    /// A party taken at random goes on, or begins a call. Now and then it tries the other.
    fn turn(&mut self) -> Result<(), Differs> {
        let k = self.random.below(self.parties);
        let Some(party) = PARTIES.get(k) else {
            return Err(Differs::Numbers);
        };
        let is_busy = self.book.call_of(*party).is_some();
        if is_busy != self.random.once_in(40) {
            return self.advance(*party, None);
        }
        self.message = self.message.wrapping_add(1);
        let plan = draw(
            &mut self.random,
            &self.book,
            *party,
            self.message,
            self.is_flood,
        );
        self.call(*party, plan)
    }

    /// One step of each call under way.
    fn round(&mut self) -> Result<(), Differs> {
        for party in &PARTIES {
            if self.book.call_of(*party).is_some() {
                self.advance(*party, None)?;
            }
        }
        Ok(())
    }

    /// Lets all calls end.
    pub fn settle(&mut self) -> Result<(), Differs> {
        let more = self.book.wanted().saturating_mul(ROUNDS_EACH);
        for _ in 0..ROUNDS.saturating_add(more) {
            if self.world.is_quiet() {
                return Ok(());
            }
            self.round()?;
        }
        Err(Differs::Endless)
    }

    /// A call through a handle, made where none is under way, to its end.
    fn make(&mut self, kind: Kind, handle: u32) -> Result<(), Differs> {
        let plan = Plan {
            kind,
            handle,
            name: self.book.names.next_handle,
            message: 0,
            limit: 0,
        };
        self.call(11, plan)?;
        self.settle()
    }

    /// Brings up to four parties together, with a sender and a receiver for each.
    fn gather(&mut self) -> Result<(), Differs> {
        self.parties = self.random.below(4).saturating_add(1);
        for _ in 1..self.parties {
            self.make(Kind::TryClone, 0)?;
            self.make(Kind::TryClone, 1)?;
        }
        Ok(())
    }

    /// Receives all that is held, and once more, where a receiver lives. What left was what came, in order.
    fn drain(&mut self) -> Result<(), Differs> {
        let Some(receiver) = self.book.receiver() else {
            return Ok(());
        };
        for _ in 0..=self.book.count.messages() {
            self.make(Kind::TryRecv, receiver)?;
        }
        if self.book.is_drained() {
            Ok(())
        } else {
            Err(Differs::Accounts)
        }
    }

    /// Runs it, and compares after each step and after each call made alone.
    pub fn interleave(&mut self) -> Result<(), Differs> {
        self.gather()?;
        let turns = TURNS.saturating_add(self.random.below(MORE));
        for _ in 0..turns {
            if self.random.once_in(PAUSE) {
                self.settle()?;
            }
            self.turn()?;
        }
        self.settle()?;
        self.drain()
    }
}

/// A refusal, or what was made in its place, is as it is to be.
fn is_due(is_so: bool) -> Result<(), Differs> {
    if is_so { Ok(()) } else { Err(Differs::Refusal) }
}

/// A list of one step or one call was to be stopped for this reason, or not at all; so many of it are left.
fn is_stopped_as_due(
    stopped: Option<Stopped>,
    refusal: Option<WorldRefusal>,
    left: usize,
) -> Result<(), Differs> {
    if stopped == Some(NO_MEMORY) {
        return Err(Differs::NoMemory);
    }
    let want = match refusal {
        Some(why) => Some(Stopped { place: 0, why }),
        None => None,
    };
    is_due(stopped == want && (left == 1) == want.is_some())
}

/// Whether nothing was done, nobody woken and nothing answered.
fn is_empty(entry: &Entry<u64>) -> bool {
    entry.mark == Mark::Nothing && entry.woken.is_empty() && entry.reply.is_none()
}
