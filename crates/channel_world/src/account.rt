//! Accounts: what is done to a world, one thing after another, as proofs see it. An account owns snapshots alone, and touches no world.

ghost use Rattle.std.specs.Prelude.{◌≡◌, [], ◌++◌};
ghost use Rattle.channel_world_runs.specs.Reaches.{replies_in};
ghost use Rattle.channel_world.specs.Account.{replied_by};
ghost use Rattle.channel_world.specs.Carried.{replied_in, polls_replied, LeadsTo};
ghost use Rattle.channel_world.specs.Since.{ClosesOnceWith, IsNeverFullWith};

use super::call::CallRun;
use super::settle::Settled;
use super::step::Run;
use super::world::World;
use std::marker::Model;
use std::mem;
use std::snapshot::Snapshot;

/// One thing that was done.
#[derive(Drop)]
enum Deed<T> {
    /// Steps of any parties.
    Steps(Snapshot<Run<T>>),
    /// Calls, one at a time.
    Calls(Snapshot<CallRun<T>>),
    /// The polls of a `settle`.
    Polls(Snapshot<Vec<Settled<T>>>),
}

/// All that was done, the last of it outermost.
#[derive(Drop)]
enum Past<T> {
    /// Nothing yet.
    Nothing,
    /// This, after all before it.
    Then(Snapshot<Past<T>>, Deed<T>),
}

/// An account of what is done to a world from a moment on. A caller that runs steps, makes calls and settles in turn notes each here, and
/// has at every moment one promise of all of it: it led from the world that was (`since`) to the world that is (`until`), and just these
/// replies were given, in order.
///
/// It is for proofs, and takes no memory and no time: each call of a world has a contract of its own, and this puts them together. A clause
/// sees its two worlds and the replies between them.
///
/// ```rust
/// let mut account = Account::of(world);
/// let run = world.run_steps(steps);
/// account.add_steps(world, &run);
/// let calls = world.run_calls(calls);
/// account.add_calls(world, &calls);
/// account.says(); // all that was replied led from the first world to the last
/// ```
pub struct Account<T> {
    since: Snapshot<World<T>>,
    until: Snapshot<World<T>>,
    past: Snapshot<Past<T>>,
}

/// Written by hand, so that crates above prove nothing of what is noted when they drop an account.
impl<T> Drop for Account<T> {
    fn drop(self) {
        let Account { since, until, past } = self;
        drop(since);
        drop(until);
        drop(past);
    }
}

impl<T> Model for Account<T> {
    ghost use Rattle.std.specs.Coded.{codes};
    ghost use Rattle.channel_world.specs.Account.{account_of, account_code, replied_so_far, AccountView};
    ghost use Rattle.channel_world.specs.Carried.{LeadsTo};
    ghost use Rattle.channel_world.specs.View.{view_code};

    ghost Value = { AccountView T };

    ghost coded = { account_code (view_code (Prim.hlevel codes)) (Prim.hlevel codes) };

    ghost view = { λ a. account_of a.since.value a.until.value (replied_so_far a.past.value) };

    ghost invariant = { λ a. LeadsTo a.since.value (replied_so_far a.past.value) a.until.value };
}

impl<T: Drop> Account<T> {
    /// An account that begins with this world, and in which nothing is noted.
    pub fn of(world: &World<T>) -> Account<T>
        ensures since { result.since ≡ world.now }
        ensures until { result.until ≡ world.now }
        ensures replies { result.replies ≡ [] }
    {
        Account {
            since: Snapshot::of(world),
            until: Snapshot::of(world),
            past: Snapshot::of(&Past::Nothing),
        }
    }

    /// Notes what was done last, and the world that it led to.
    fn add(&mut self, world: &World<T>, deed: Deed<T>)
        requires leads { LeadsTo self.old.until (replied_by deed) world.now }
        ensures since { self.new.since ≡ self.old.since }
        ensures until { self.new.until ≡ world.now }
        ensures replies { self.new.replies ≡ self.old.replies ++ replied_by deed }
    {
        let before = mem::replace(&mut self.past, Snapshot::of(&Past::Nothing));
        self.past = Snapshot::of(&Past::Then(before, deed));
        self.until = Snapshot::of(world);
    }

    /// Notes steps that were made since the last that was noted: what `run_steps` or `run_party` answered, and the world after it.
    pub fn add_steps(&mut self, world: &World<T>, run: &Run<T>)
        requires leads { LeadsTo self.old.until (replies_in run.now.trace.items) world.now }
        ensures since { self.new.since ≡ self.old.since }
        ensures until { self.new.until ≡ world.now }
        ensures replies { self.new.replies ≡ self.old.replies ++ replies_in run.now.trace.items }
    {
        self.add(world, Deed::Steps(Snapshot::of(run)));
    }

    /// Notes calls that were made since the last that was noted: what `run_calls` answered, and the world after it.
    pub fn add_calls(&mut self, world: &World<T>, run: &CallRun<T>)
        requires leads { LeadsTo self.old.until (replied_in run.now.done.items) world.now }
        ensures since { self.new.since ≡ self.old.since }
        ensures until { self.new.until ≡ world.now }
        ensures replies { self.new.replies ≡ self.old.replies ++ replied_in run.now.done.items }
    {
        self.add(world, Deed::Calls(Snapshot::of(run)));
    }

    /// Notes a settling that was made since the last that was noted: the polls that `settle` answered, and the world after it.
    pub fn add_polls(&mut self, world: &World<T>, polls: &Vec<Settled<T>>)
        requires leads { LeadsTo self.old.until (polls_replied polls.now.items) world.now }
        ensures since { self.new.since ≡ self.old.since }
        ensures until { self.new.until ≡ world.now }
        ensures replies { self.new.replies ≡ self.old.replies ++ polls_replied polls.now.items }
    {
        self.add(world, Deed::Polls(Snapshot::of(polls)));
    }

    /// States what holds of all that was noted, and does nothing: it led from the first world to the last with just these replies; of all
    /// replies since the opening of the channel, with these, at most one says that it closed it; and of all since one without a bound none
    /// says that it is full.
    pub fn says(&self)
        ensures leads { LeadsTo self.now.since self.now.replies self.now.until }
        ensures closes_once { ClosesOnceWith self.now.since self.now.replies }
        ensures never_full { IsNeverFullWith self.now.since self.now.replies }
    {
        let _ = &self.since;
    }
}
