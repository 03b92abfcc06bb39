//! Polls of operations and streams that are pending and were woken, made alone, one after another, as settling makes them.

use crate::world_state::WorldState;
use channel_calls::reply::Reply;
use channel_world_model::call::Call;
use channel_world_model::name::Waiter;
use channel_world_model::run::Done;

/// What a poll left.
#[derive(Drop)]
pub struct Polled<T> {
    /// What it answers.
    pub reply: Reply<T>,
    /// The names that it was given, and after them those that it woke, in order.
    pub names: Vec<Waiter>,
}

ghost use Rattle.std.specs.Prelude.{◌≡◌};
ghost use Rattle.channel_world_model.specs.Settling.{poll_of};

/// The poll of this name.
fn poll_of<T>(name: Waiter) -> Call<T>
    ensures { result ≡ poll_of name }
{
    match name {
        Waiter::Op(op) => Call::Poll { op },
        Waiter::Stream(receiver) => Call::PollNext { receiver },
    }
}

impl<T: Drop> WorldState<T> {
    ghost use Rattle.std.specs.Prelude.{◌≡◌, ◌≤◌, ◌+◌, ◌-◌, false, vec_len, vec_capacity};
    ghost use Rattle.channel_steps.specs.solo.Ample.{lacks_memory};
    ghost use Rattle.channel_world_model.specs.Settling.{poll_of};
    ghost use Rattle.channel_world_runs.specs.WorldState.{Stands, IsQuiet};
    ghost use Rattle.channel_world_runs.specs.Lone.{BringsWithin, WakesAtMost};
    ghost use Rattle.channel_world_runs.specs.Positions.{accepted_by, brings};
    ghost use Rattle.channel_world_runs.specs.Settle.{IsWoken, PollsAlone};

    /// Polls one that is pending and was woken, with no call under way, from the poll's beginning to its end.
    ///
    /// A stream is polled even while a live operation borrows its receiver. The poll takes nothing: its name has its place in the order of
    /// waking, and those that it wakes go after the given names, as far as there is room for them. It isn't refused memory: if it goes on
    /// waiting, the node of the listener that was told serves the next one. Once all serial numbers of a wait queue were given, the reply
    /// says that none was left. Only a send that is accepted brings a message, so only then is a position of the queue asked for. It never
    /// waits.
    pub fn poll_alone(&mut self, name: Waiter, names: Vec<Waiter>) -> Polled<T>
        requires stands { Stands self.old }
        requires quiet { IsQuiet self.old }
        requires woken { IsWoken name self.old }
        requires limit { BringsWithin (poll_of name) self.old }
        requires room { WakesAtMost (vec_capacity names - vec_len names) (poll_of name) self.old }
        ensures polled { PollsAlone name self.old names.items result.reply result.names.items self.new }
        ensures quiet { IsQuiet self.new }
        ensures place { self.new.has_one_place ≡ self.old.has_one_place }
        ensures accepted { self.new.accepted ≤ self.old.accepted + accepted_by (brings self.old.name_table (poll_of name)) result.reply }
        ensures capacity { vec_capacity names ≤ vec_capacity result.names }
        ensures ample { lacks_memory result.reply ≡ false }
    {
        let poll = poll_of(name);
        let brings = self.name_table.brings(&poll);
        self.order.rest(name);
        let begun = self.name_table.begin_named(poll);
        let Done {
            reply,
            woken: names,
        } = self.finish(begun, brings, names);
        Polled { reply, names }
    }
}
