//! Steps of one party, up to the answer of its call.
ghost use Rattle.std.specs.Prelude.{◌≡◌, ◌<◌, Some, IsTrue, vec_len, vec_capacity};
ghost use Rattle.std.specs.VecDeque.{deque_len, deque_capacity};

use super::call::{Stopped, WorldRefusal};
use super::step::{Entry, PartyId, Run, Step};
use super::world::World;
use event_listener::error::NoMemory;
use std::collections::VecDeque;

/// What was done before a refused step.
fn stopped<T: Drop>(trace: Vec<Entry<T>>, why: WorldRefusal) -> Run<T>
    ensures trace { result.trace ≡ trace }
    ensures stopped { result.stopped ≡ Some (record { place = vec_len trace; why = why }) }
{
    let place = trace.len();
    let stopped = Some(Stopped { place, why });
    Run { trace, stopped }
}

/// Reserves room for one more step and for its entry, if there is any.
fn have_room<T: Drop>(steps: &mut VecDeque<Step<T>>, trace: &mut Vec<Entry<T>>) -> bool
    ensures steps { steps.new.items ≡ steps.old.items }
    ensures trace { trace.new.items ≡ trace.old.items }
    ensures of_steps { IsTrue result → deque_len steps.new < deque_capacity steps.new }
    ensures of_trace { IsTrue result → vec_len trace.new < vec_capacity trace.new }
{
    steps.reserve(1).is_ok() && trace.reserve(1).is_ok()
}

impl<T: Drop> World<T> {
    ghost use Rattle.std.specs.Prelude.{◌≡◌, ◌≤◌, ◌<◌, ◌+◌, [], replicate, vec_len, vec_capacity, None, IfOk, IfErr, IfSome, OnErr};
    ghost use Rattle.std.specs.VecDeque.{deque_len, deque_capacity};
    ghost use Rattle.channel_world_model.specs.declared.name.Waiter.{Waiter};
    ghost use Rattle.channel_steps.specs.Configuration.{Configuration};
    ghost use Rattle.channel_world_runs.specs.Runs.{accepted_in, left_in};
    ghost use Rattle.channel_world_runs.specs.Reaches.{replies_in};
    ghost use Rattle.channel_world.specs.Carried.{LeadsTo};
    ghost use Rattle.channel_world.specs.Headline.{Headline};
    ghost use Rattle.channel_world.specs.PartyRun.{steps_asked, refused_of, AreSilent, EndsWithAnswer, IsRefused, StepsOnce};
    ghost use Rattle.channel_world.specs.StepsLeft.{EndsInFront};
    ghost use Rattle.channel_world.specs.TheEnd.{NothingComesAfter};
    ghost use Rattle.channel_world.specs.View.{messages_in, StandsIn, Stands};

    /// Makes one step of this party in the room that was reserved, and says whether its call answered; or why the step is refused.
    fn step_party(
        &mut self,
        party: PartyId,
        steps: &mut VecDeque<Step<T>>,
        trace: &mut Vec<Entry<T>>,
    ) -> Result<bool, WorldRefusal>
        requires empty { steps.old.items ≡ [] }
        requires of_steps { deque_len steps.old < deque_capacity steps.old }
        requires of_trace { vec_len trace.old < vec_capacity trace.old }
        ensures made { IfOk result (λ answered. StepsOnce party self.old trace.old.items answered trace.new.items self.new) }
        ensures refused { IfErr result (λ why. IsRefused party self.old trace.old.items why trace.new.items self.new) }
        ensures empty { steps.new.items ≡ [] }
        ensures stands { Stands self.new }
    {
        self.keeps();
        steps.push_back_reserved(Step::Step { party });
        let mut run = self.make_steps(steps);
        steps.clear();
        if let Some(stopped) = run.stopped {
            return Err(stopped.why);
        }
        let entry = run.trace.pop().unwrap();
        let answered = entry.reply.is_some();
        trace.push_reserved(entry);
        Ok(answered)
    }

    /// Runs steps of one party, at most `most`, up to the one in which its call answers, for a caller that doesn't want to count the steps
    /// of a call. A call that begins is one step of [`World::run_steps`], and is not made here.
    ///
    /// It is `run_steps` of a list of so many steps of this party, with the same trace, an entry for each step, and all that is promised of
    /// that. It makes no step after the one that answers, which is then the last entry. There are fewer than `most` only if the call
    /// answered, or if a step was refused: `stopped` says after how many and why. So after `most` steps without a reply its call is still
    /// under way, and a further run goes on with it.
    ///
    /// `Idle` refuses a party with no call under way, also one whose name is not known; nothing is done then. Otherwise a step is refused
    /// only for want of memory, `NoMemory`, with nothing of it done: its call is still under way. The positions of messages can't be used
    /// up here, since a send is refused for them when it begins. Room for the first step is reserved before anything else; if that is
    /// refused it is `Err(NoMemory)`, whether the party has a call under way or not, and nothing is changed. It never waits.
    pub fn run_party(&mut self, party: PartyId, most: usize) -> Result<Run<T>, NoMemory>
        ensures headline { IfOk result (λ run. (s : Configuration T Waiter) → StandsIn self.old s → Headline
            (replicate (steps_asked run.trace.items run.stopped) (Step.Step party)) (refused_of party run.stopped)
            self.old run.trace.items run.stopped self.new s) }
        ensures soon { IfOk result (λ run. EndsInFront self.old
            (replicate (steps_asked run.trace.items run.stopped) (Step.Step party)) run.trace.items) }
        ensures the_end { IfOk result (λ run. NothingComesAfter
            (replicate (steps_asked run.trace.items run.stopped) (Step.Step party)) run.trace.items) }
        ensures within { IfOk result (λ run. steps_asked run.trace.items run.stopped ≤ most) }
        ensures answered { IfOk result (λ run. EndsWithAnswer run.trace.items run.stopped) }
        ensures short { IfOk result (λ run. run.stopped ≡ None → AreSilent run.trace.items → vec_len run.trace ≡ most) }
        ensures place { IfOk result (λ run. IfSome run.stopped (λ s. s.place ≡ vec_len run.trace)) }
        ensures leads { IfOk result (λ run. LeadsTo self.old (replies_in run.trace.items) self.new) }
        ensures messages { IfOk result (λ run. messages_in self.new + left_in run.trace.items
            ≡ messages_in self.old + accepted_in run.trace.items) }
        ensures unchanged { OnErr result (self.new ≡ self.old) }
        ensures stands { Stands self.new }
    {
        self.keeps();
        let mut steps = VecDeque::new(self.alloc());
        let mut trace = Vec::new(self.alloc());
        for _made in 0..most {
            if !have_room(&mut steps, &mut trace) {
                if trace.is_empty() {
                    return Err(NoMemory);
                }
                return Ok(stopped(trace, WorldRefusal::NoMemory));
            }
            match self.step_party(party, &mut steps, &mut trace) {
                Ok(answered) => {
                    if answered {
                        return Ok(Run {
                            trace,
                            stopped: None,
                        });
                    }
                }
                Err(why) => return Ok(stopped(trace, why)),
            }
        }
        Ok(Run {
            trace,
            stopped: None,
        })
    }
}
