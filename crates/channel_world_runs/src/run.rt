//! Runs of many parties' steps. One owner makes them all, one step after another, in the order of the list.

ghost use Rattle.std.specs.Prelude.{◌≡◌, Some, vec_len};

use crate::step::{Entry, Run, Step};
use crate::world_state::WorldState;
use channel_world_model::refusal::WorldRefusal;
use channel_world_model::run::Stopped;
use std::collections::VecDeque;

/// What was done before a refused step.
fn stopped<T: Drop>(trace: Vec<Entry<T>>, why: WorldRefusal) -> Run<T>
    ensures trace { result.trace ≡ trace }
    ensures stopped { result.stopped ≡ Some (record { place = vec_len trace; why = why }) }
{
    let place = trace.len();
    let stopped = Some(Stopped { place, why });
    Run { trace, stopped }
}

impl<T: Drop> WorldState<T> {
    ghost use Rattle.std.specs.Prelude.{◌≡◌, ◌<◌, IfNone, vec_len, vec_capacity};
    ghost use Rattle.channel_world_runs.specs.Run.{MayStopAt, StopsAt};
    ghost use Rattle.channel_world_runs.specs.WorldState.{name_state_of};
    ghost use Rattle.channel_world_runs.specs.Runs.{RanTo};

    /// Why a run stops at this step, if it does; if not, there is room for an entry.
    fn stop(&self, step: &Step<T>, trace: &mut Vec<Entry<T>>) -> Option<WorldRefusal>
        ensures why { MayStopAt (name_state_of self.now) step.now result }
        ensures items { trace.new.items ≡ trace.old.items }
        ensures room { IfNone result (vec_len trace.new < vec_capacity trace.new) }
    {
        let why = self.refusal(step);
        if why.is_none() && trace.reserve(1).is_err() {
            return Some(WorldRefusal::NoMemory);
        }
        why
    }

    /// Runs steps of any parties, from the front. The first one that is refused stays in front, with nothing of it done; `stopped` says at
    /// which place of the list, counted from 0, and why.
    ///
    /// A step is one step of one call; a call that begins touches nothing. Whatever the order of the parties' steps is, and wherever the
    /// list ends, the steps that were made are a run of the channel's steps, in which each call asked what it asks given the names and the
    /// listeners held at that moment; each entry's mark, woken names and reply are that run's; and the names are what the bookkeeping of
    /// these steps makes of them. So each call that answers has the marks that its reply names and found what its reply says at a moment of
    /// its own, and what left the channel, followed by what it holds, is what it held followed by what came, in order.
    ///
    /// At each moment of the run, and at its end, each listener on the channel's wait queues has exactly one owner, and nobody that is
    /// pending and wasn't woken since its last poll is forgotten beside a message, a free place or a closing: see `specs/Owners` and
    /// `specs/Owed`. No step was made that is to be refused. It never waits.
    pub fn run_steps(&mut self, steps: &mut VecDeque<Step<T>>) -> Run<T>
        ensures ran { RanTo steps.old.items steps.new.items self.old result.trace.items self.new }
        ensures stopped { StopsAt (name_state_of self.new) steps.new.items (vec_len result.trace) result.stopped }
    {
        let mut trace = Vec::new(self.alloc);
        while let Some(step) = steps.front() {
            if let Some(why) = self.stop(step, &mut trace) {
                return stopped(trace, why);
            }
            let step = steps.pop_front().unwrap();
            match self.turn(step) {
                Ok(entry) => trace.push_reserved(entry),
                Err(step) => {
                    steps.push_front_reserved(step);
                    return stopped(trace, WorldRefusal::NoMemory);
                }
            }
        }
        let stopped = None;
        Run { trace, stopped }
    }
}
