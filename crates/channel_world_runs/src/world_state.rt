//! The parts of a channel by names with the calls of several parties under way, and one step of it. A step changes the channel by one
//! operation, and the names only if it begins or ends a call.

use crate::calls::{CallUnderWay, find_call, is_at_work};
use crate::name_table::NameTable;
use crate::order::Order;
use crate::position::brought_in;
use crate::step::{Entry, PartyId, Step};
use crate::woken::Woken;
use channel_calls::mark::Mark;
use channel_calls::plain::PlainChannel;
use channel_steps::count::counted;
use channel_steps::start::open_channel;
use channel_world_model::call::Call;
use channel_world_model::name::Waiter;
use channel_world_model::refusal::WorldRefusal;
use concurrent_queue::cells::QueueForm;
use std::alloc::{AllocError, Global};

/// A channel, the calls under way on it, and its names.
#[derive(Drop)]
pub struct WorldState<T> {
    /// The channel's queue, lists and counts.
    pub channel: PlainChannel<T, Waiter>,
    /// The calls under way, in the order in which they began.
    pub calls: Vec<CallUnderWay<T>>,
    /// The names.
    pub name_table: NameTable<T>,
    /// The names that may be woken, and those that were, in the order of waking.
    pub order: Order,
    /// How many messages the channel holds.
    pub messages: u64,
    /// Whether it has only one place, so that its queue counts no positions.
    pub has_one_place: bool,
    /// How many messages the channel has accepted; with one place nothing follows from it.
    pub accepted: u64,
    /// Where memory comes from.
    pub alloc: Global,
}

impl<T: Drop> WorldState<T> {
    ghost use Rattle.std.specs.Prelude.{◌≡◌, [], None, IfOk, IfErr, OnErr, IfSome, IfNone};
    ghost use Rattle.concurrent_queue.specs.Capacity.{capacity_of};
    ghost use Rattle.concurrent_queue.specs.Made.{CanBeMade};
    ghost use Rattle.channel_steps.specs.Run.{new_configuration};
    ghost use Rattle.channel_world_runs.specs.NameTable.{first_name_table};
    ghost use Rattle.channel_world_runs.specs.Order.{no_places};
    ghost use Rattle.channel_world_runs.specs.Refusal.{step_refusal};
    ghost use Rattle.channel_world_runs.specs.WorldState.{name_state_of, agents_of, Shown, Stands, IsSame, LeadsByStep};

    /// An open channel over a queue of this form, with its first two handles and no call under way.
    pub fn open(alloc: Global, form: QueueForm) -> Result<WorldState<T>, AllocError>
        requires form { CanBeMade form }
        ensures shown { IfOk result (λ f. Shown f (new_configuration (capacity_of form))) }
        ensures name_state { IfOk result (λ f. name_state_of f ≡ record { name_table = first_name_table; order = no_places; agents = [] }) }
        ensures stands { IfOk result (λ f. Stands f) }
    {
        Ok(WorldState {
            channel: open_channel(form, alloc)?.cells,
            calls: Vec::new(alloc),
            name_table: NameTable::new(alloc)?,
            order: Order::new(alloc)?,
            messages: 0,
            has_one_place: matches!(form, QueueForm::Bounded(1)),
            accepted: 0,
            alloc,
        })
    }

    /// Why a step is refused, room aside.
    pub(crate) fn refusal(&self, step: &Step<T>) -> Option<WorldRefusal>
        ensures { result ≡ step_refusal self.now.name_table (agents_of self.now) step.now }
    {
        match step {
            Step::Begin { party, .. } if is_at_work(&self.calls, *party) => {
                Some(WorldRefusal::Busy)
            }
            Step::Begin { call, .. } => self.name_table.refusal(call),
            Step::Step { party } if is_at_work(&self.calls, *party) => None,
            Step::Step { .. } => Some(WorldRefusal::Idle),
        }
    }

    /// Begins a call that is not refused; or returns it if there was no room, with nothing changed.
    fn start(&mut self, party: PartyId, call: Call<T>) -> Result<Entry<T>, Call<T>>
        requires accepted { step_refusal self.old.name_table (agents_of self.old) (Step.Begin party call) ≡ None }
        ensures ok { IfOk result (λ e. LeadsByStep (Step.Begin party call) self.old e self.new) }
        ensures err { OnErr result (IsSame self.old self.new) }
        ensures back { IfErr result (λ c. c ≡ call) }
    {
        if !self.has_position(&call)
            || self.calls.reserve(1).is_err()
            || self.order.begin(&call).is_err()
        {
            return Err(call);
        }
        let begun = self.name_table.begin(call, self.alloc)?;
        self.calls.push_reserved(CallUnderWay::begun(party, begun));
        Ok(Entry {
            mark: Mark::Nothing,
            woken: Vec::new(self.alloc),
            reply: None,
        })
    }

    /// One step of the party's call. `None` if there was no room for those that it might wake.
    fn go_on(&mut self, party: PartyId) -> Option<Entry<T>>
        requires accepted { step_refusal self.old.name_table (agents_of self.old) (Step.Step party) ≡ None }
        ensures some { IfSome result (λ e. LeadsByStep (Step.Step party) self.old e self.new) }
        ensures none { IfNone result (IsSame self.old self.new) }
    {
        let k = find_call(&self.calls, party)?;
        let room = self.channel.most_listeners();
        let names = Vec::with_capacity(self.alloc, room).ok()?;
        let mut sink = Woken { names };
        let call = &mut self.calls[k];
        let reply = call.step(&mut self.channel, &mut sink);
        let mark = call.party.last_mark();
        self.accepted = self.accepted.saturating_add(brought_in(mark));
        self.messages = counted(self.messages, mark);
        let Woken { names: woken } = sink;
        self.wake_from(&woken, 0);
        self.write_back(k, &reply);
        Some(Entry { mark, woken, reply })
    }

    /// Makes a step that only want of room refuses; or returns it if there was none, with nothing changed.
    pub(crate) fn turn(&mut self, step: Step<T>) -> Result<Entry<T>, Step<T>>
        requires accepted { step_refusal self.old.name_table (agents_of self.old) step ≡ None }
        ensures ok { IfOk result (λ e. LeadsByStep step self.old e self.new) }
        ensures err { OnErr result (IsSame self.old self.new) }
        ensures back { IfErr result (λ x. x ≡ step) }
    {
        match step {
            Step::Begin { party, call } => match self.start(party, call) {
                Ok(entry) => Ok(entry),
                Err(call) => Err(Step::Begin { party, call }),
            },
            Step::Step { party } => self.go_on(party).ok_or(Step::Step { party }),
        }
    }
}
