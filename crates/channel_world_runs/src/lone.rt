//! Calls made alone, from their beginning to their end: no other call is under way, so nothing comes between their steps.

use crate::beginning::Begun;
use crate::position::accepted_by;
use crate::woken::Woken;
use crate::world_state::WorldState;
use channel_calls::whole::Completed;
use channel_steps::alone::run_alone;
use channel_world_model::call::Call;
use channel_world_model::name::Waiter;
use channel_world_model::run::Done;

impl<T: Drop> WorldState<T> {
    ghost use Rattle.std.specs.Prelude.{◌≡◌, None, IfOk, IfErr, OnErr};
    ghost use Rattle.channel_steps.specs.solo.Run.{IsAtRest};
    ghost use Rattle.channel_world_runs.specs.Refusal.{begin_refusal};
    ghost use Rattle.channel_world_runs.specs.WorldState.{parts_in, Stands, IsQuiet, IsSame};
    ghost use Rattle.channel_world_runs.specs.Lone.{CallsAlone, FinishesAlone, WakesAtMost};

    /// Makes a call that has begun to its end, with no other call under way. Those that it wakes go after the given names, as far as there
    /// is room for them; `brings` says whether it may bring a message.
    pub(crate) fn finish(&mut self, begun: Begun<T>, brings: bool, names: Vec<Waiter>) -> Done<T>
        requires at_rest { IsAtRest (parts_in self.old) }
        ensures { FinishesAlone begun brings names self.old result self.new }
    {
        let from = names.len();
        let mut sink = Woken { names };
        let (channel, messages) = (&mut self.channel, &mut self.messages);
        let Completed { reply, kept } = run_alone(begun.ask, channel, messages, &mut sink);
        self.accepted = self.accepted.saturating_add(accepted_by(brings, &reply));
        let Woken { names: woken } = sink;
        self.wake_from(&woken, from);
        self.order.settle(&begun.on_return, kept.key);
        self.name_table.settle(begun.on_return, &reply, kept);
        Done { reply, woken }
    }

    /// Makes a call that is not refused, with no other under way, from its beginning to its end; or returns it if there was no room, with
    /// nothing changed.
    ///
    /// Its steps are those of a party with no other beside it, and what it answers, which names it wakes, in order, and the channel after
    /// it are what a call does that is made alone. `room` is no less than the number of names that it may wake; room for these, and for the
    /// listener of a poll, is reserved before it begins. It never waits.
    pub fn call_alone(&mut self, call: Call<T>, room: usize) -> Result<Done<T>, Call<T>>
        requires stands { Stands self.old }
        requires quiet { IsQuiet self.old }
        requires accepted { begin_refusal self.old.name_table call ≡ None }
        requires room { WakesAtMost room call self.old }
        ensures ok { IfOk result (λ d. CallsAlone call self.old d.reply d.woken.items self.new) }
        ensures quiet { IsQuiet self.new }
        ensures err { OnErr result (IsSame self.old self.new) }
        ensures back { IfErr result (λ c. c ≡ call) }
    {
        let brings = self.name_table.brings(&call);
        let Ok(names) = Vec::with_capacity(self.alloc, room) else {
            return Err(call);
        };
        if !self.has_position(&call) || self.order.begin(&call).is_err() {
            return Err(call);
        }
        let begun = self.name_table.begin(call, self.alloc)?;
        Ok(self.finish(begun, brings, names))
    }
}
