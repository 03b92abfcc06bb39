//! Whole lists of calls, made one at a time: each call ends before the next begins, so nothing comes between its steps.
use super::call::{Call, CallRun, Done, Stopped, WorldRefusal};
use super::world::World;
use std::collections::VecDeque;

impl<T: Drop> World<T> {
    ghost use Rattle.std.specs.Prelude.{◌≡◌, ◌+◌, ◌<◌, [], length, None, IfSome, IfNone, vec_len, vec_capacity};
    ghost use Rattle.std.specs.Option.{option_map};
    ghost use Rattle.channel_world_model.specs.Run.{Runs, MayStop};
    ghost use Rattle.channel_world.specs.Carried.{replied_in, LeadsTo};
    ghost use Rattle.channel_world.specs.View.{at_rest, IsQuiet, Stands};

    /// Why the list of calls stops at this one, if it does; if not, there is room for what it answers.
    fn stop(&self, call: &Call<T>, done: &mut Vec<Done<T>>) -> Option<WorldRefusal>
        requires quiet { IsQuiet self.now }
        ensures why { MayStop (at_rest self.now) call.now result }
        ensures items { done.new.items ≡ done.old.items }
        ensures room { IfNone result (vec_len done.new < vec_capacity done.new) }
    {
        let why = self.refusal(call);
        if why.is_none() && done.reserve(1).is_err() {
            return Some(WorldRefusal::NoMemory);
        }
        why
    }

    /// Makes calls from the front, each from its beginning to its end, up to the first that is refused.
    ///
    /// A refused call stays in front, with nothing of it done; `stopped` says at which place of the list, counted from 0, and why. The room
    /// for a call's answer is reserved before it begins, and if that is refused the call is too. So is a send that might bring the 2^61st
    /// message, if the channel has more than one place.
    ///
    /// No call is under way when this begins, and none when it ends; however the world came about, by calls or by steps of any parties.
    /// From each configuration in which the world stood steps lead to one in which it stands, on which just those replies were given, in
    /// order, that are answered here; and what left the channel, followed by what it holds, is what it held followed by what came, in
    /// order. It never waits.
    pub fn run_calls(&mut self, calls: &mut VecDeque<Call<T>>) -> CallRun<T>
        requires quiet { IsQuiet self.old }
        ensures run { Runs (at_rest self.old) calls.old.items result.done.items (option_map (λ s. s.why) result.stopped) calls.new.items (at_rest self.new) }
        ensures used_up { result.stopped ≡ None → calls.new.items ≡ [] }
        ensures made { vec_len result.done + length calls.new.items ≡ length calls.old.items }
        ensures place { IfSome result.stopped (λ s. s.place ≡ vec_len result.done) }
        ensures quiet { IsQuiet self.new }
        ensures leads { LeadsTo self.old (replied_in result.done.items) self.new }
        ensures stands { Stands self.new }
    {
        self.keeps();
        let mut done = Vec::new(self.alloc());
        while let Some(call) = calls.front() {
            if let Some(why) = self.stop(call, &mut done) {
                let place = done.len();
                return CallRun {
                    done,
                    stopped: Some(Stopped { place, why }),
                };
            }
            let call = calls.pop_front().unwrap();
            match self.answer(call) {
                Ok(answer) => done.push_reserved(answer),
                Err(call) => {
                    calls.push_front_reserved(call);
                    let place = done.len();
                    let why = WorldRefusal::NoMemory;
                    return CallRun {
                        done,
                        stopped: Some(Stopped { place, why }),
                    };
                }
            }
        }
        CallRun {
            done,
            stopped: None,
        }
    }
}
