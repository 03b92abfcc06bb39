//! The parties of a channel: the beginning of a call, and one step of a call under way. [`Step`](crate::run::Step) names the two. A party
//! owns its call; it touches the channel only through the cells that a step is given.

ghost use Rattle.std.specs.Prelude.{◌≡◌, ◌<◌, ◌++◌, ◌∷◌, [], Some, slice_get, vec_len, vec_capacity};
ghost use Rattle.channel_steps.specs.Run.{HasBegun};
ghost use Rattle.channel_steps.specs.declared.party.Party.{Party as PartyOf};
ghost use Rattle.channel_steps.specs.Configuration.{parties_in, unless_answered, StepsAt};

use channel_calls::ask::ChannelAsk;
use channel_calls::call::ChannelCall;
use channel_calls::cells::ChannelCells;
use channel_calls::mark::Mark;
use channel_calls::reply::Reply;
use channel_calls::stage::Returned;
use event_listener::wakes::Wakes;

/// A party with its call under way.
#[derive(Drop)]
pub struct Party<T, W> {
    pub(crate) id: u32,
    pub(crate) call: ChannelCall<T, W>,
}

impl<T: Drop, W: Drop> Party<T, W> {
    ghost use Rattle.std.specs.Prelude.{◌≡◌};
    ghost use Rattle.channel_calls.specs.Asks.{kept_by};
    ghost use Rattle.channel_steps.specs.Run.{PartyBegins};
    ghost use Rattle.channel_steps.specs.Configuration.{PartySteps};

    /// A party that begins a call. No cell is touched, and nobody is woken.
    pub fn new(party: u32, ask: ChannelAsk<T, W>) -> Party<T, W>
        ensures begins { PartyBegins party ask result }
        ensures id { result.id ≡ party }
    {
        let call = ChannelCall::new(ask);
        Party { id: party, call }
    }

    /// The number of the party.
    pub fn id(&self) -> u32
        ensures { result ≡ self.now.id }
    {
        self.id
    }

    /// One step of its call, which returns the reply if it is the last. It never waits.
    pub fn step<C: ChannelCells<T, W>, S: Wakes<W>>(
        &mut self,
        cells: &mut C,
        sink: &mut S,
    ) -> Option<Reply<T>>
        requires stands { C.stands self.old.call.stage cells.old }
        ensures steps { C.known → PartySteps S.wakes (C.parts cells.old) self.old sink.old result (C.parts cells.new) self.new sink.new }
        ensures id { self.new.id ≡ self.old.id }
    {
        self.call.step(cells, sink)
    }

    /// What the last step of its call did to the channel.
    pub fn last_mark(&self) -> Mark
        ensures { result ≡ self.now.call.mark }
    {
        self.call.last_mark()
    }

    /// What its call leaves to its operation once it has answered.
    pub fn into_kept(self) -> Returned<T>
        ensures { result ≡ kept_by self.call.stage }
    {
        self.call.into_kept()
    }
}

/// What one step of a run did: its mark, and the reply if it ended a call.
#[derive(Drop)]
pub struct Entry<T> {
    /// What was done to the channel.
    pub mark: Mark,
    /// What the call answers if this was its last step.
    pub reply: Option<Reply<T>>,
    /// What it leaves to its operation then: the listener of a pending one, the message of an unfinished send.
    pub kept: Option<Returned<T>>,
}

/// Begins a call, within the room that was reserved for its party. No cell is touched, and nobody is woken.
pub fn begin<T: Drop, W: Drop>(
    parties: &mut Vec<Party<T, W>>,
    party: u32,
    ask: ChannelAsk<T, W>,
) -> Entry<T>
    requires room { vec_len parties.old < vec_capacity parties.old }
    ensures begins { HasBegun party ask parties.old.items result parties.new.items }
    ensures parties { parties_in parties.new.items ≡ parties_in parties.old.items ++ party ∷ [] }
{
    parties.push_reserved(Party::new(party, ask));
    Entry {
        mark: Mark::Nothing,
        reply: None,
        kept: None,
    }
}

/// One step of the k-th call under way. A call that answers is no longer under way. It never waits.
pub fn step_at<T: Drop, W: Drop, C: ChannelCells<T, W>, S: Wakes<W>>(
    parties: &mut Vec<Party<T, W>>,
    k: usize,
    cells: &mut C,
    sink: &mut S,
) -> Entry<T>
    requires within { k < vec_len parties.old }
    requires stands { (p : PartyOf T W) → slice_get parties.old.items k ≡ Some p → C.stands p.call.stage cells.old }
    ensures steps { C.known → StepsAt S.wakes (C.parts cells.old) parties.old.items k sink.old result (C.parts cells.new) parties.new.items sink.new }
    ensures parties { parties_in parties.new.items ≡ unless_answered k result.reply (parties_in parties.old.items) }
{
    let party = &mut parties[k];
    let reply = party.step(cells, sink);
    let mark = party.last_mark();
    let kept = match &reply {
        Some(_) => Some(parties.remove(k).into_kept()),
        None => None,
    };
    Entry { mark, reply, kept }
}
