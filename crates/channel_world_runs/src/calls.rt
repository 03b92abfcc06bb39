//! The calls under way: the party and state of each, what it has to write back, and what it is to those that wait.

use crate::activity::Activity;
use crate::beginning::Begun;
use crate::names::OnReturn;
use crate::step::PartyId;
use crate::woken::Woken;
use channel_calls::plain::PlainChannel;
use channel_calls::reply::Reply;
use channel_steps::party::Party;
use channel_world_model::name::Waiter;

/// A call under way.
#[derive(Drop)]
pub struct CallUnderWay<T> {
    /// Its party, and its state.
    pub party: Party<T, Waiter>,
    /// What it has to write back.
    pub on_return: OnReturn<T>,
    /// What it is to those that wait, and what it has done.
    pub activity: Activity,
}

impl<T: Drop> CallUnderWay<T> {
    ghost use Rattle.std.specs.Prelude.{◌≡◌};
    ghost use Rattle.channel_calls.specs.Plain.{parts_of};
    ghost use Rattle.channel_steps.specs.Configuration.{PartySteps};
    ghost use Rattle.channel_steps.specs.Run.{PartyBegins};
    ghost use Rattle.channel_world_runs.specs.Activity.{activity_begun, activity_after};
    ghost use Rattle.channel_world_runs.specs.Calls.{agent_of};
    ghost use Rattle.channel_world_runs.specs.Woken.{Hears};

    /// A call of this party that has made no step.
    pub(crate) fn begun(party: PartyId, begun: Begun<T>) -> CallUnderWay<T>
        ensures begins { PartyBegins party.0 begun.ask result.party }
        ensures agent { agent_of result ≡ record { party = party.0; on_return = begun.on_return } }
        ensures activity { result.activity ≡ activity_begun begun.ask }
    {
        CallUnderWay {
            activity: Activity::begun(&begun.ask),
            party: Party::new(party.0, begun.ask),
            on_return: begun.on_return,
        }
    }

    /// One step, which returns the reply if it is the last.
    pub(crate) fn step(
        &mut self,
        channel: &mut PlainChannel<T, Waiter>,
        sink: &mut Woken,
    ) -> Option<Reply<T>>
        ensures steps { PartySteps Hears (parts_of channel.old) self.old.party sink.old result (parts_of channel.new) self.new.party sink.new }
        ensures agent { agent_of self.new ≡ agent_of self.old }
        ensures activity { self.new.activity ≡ activity_after self.new.party.call.mark self.old.activity }
    {
        let reply = self.party.step(channel, sink);
        self.activity = self.activity.after(self.party.last_mark());
        reply
    }
}

ghost use Rattle.std.specs.Prelude.{◌≡◌, map, IfSome};
ghost use Rattle.channel_world_runs.specs.Calls.{agent_of, IsCallOf};
ghost use Rattle.channel_world_runs.specs.NameTable.{is_at_work};

/// Whether a party has a call under way.
pub(crate) fn is_at_work<T: Drop>(calls: &Vec<CallUnderWay<T>>, party: PartyId) -> bool
    ensures { result ≡ is_at_work party.0 (map agent_of calls.now.items) }
{
    calls.iter().any(|call| call.party.id() == party.0)
}

/// The place of a party's call among those under way.
pub(crate) fn find_call<T: Drop>(calls: &Vec<CallUnderWay<T>>, party: PartyId) -> Option<usize>
    ensures { IfSome result (λ k. IsCallOf party.0 calls.now.items k) }
{
    for k in 0..calls.len() {
        if calls[k].party.id() == party.0 {
            return Some(k);
        }
    }
    None
}
