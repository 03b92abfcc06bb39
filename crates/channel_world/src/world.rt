//! A channel, its handles and operations by their names: calls made one at a time, and steps of any interleaving. The world owns the
//! channel, so nothing else makes a step on it; the invariant is that it stands for a channel with just the calls that it has under way.
use super::call::{Call, Done, WorldRefusal};
use super::step::{Run, Step};
use channel_calls::error::OpenError;
use channel_calls::stage::WaitList;
use channel_world_runs::rest_laws::a_call_made_alone_is_the_models;
use channel_world_runs::world_state::WorldState;
use concurrent_queue::cells::QueueForm;
use event_listener::id::EventIds;
use std::alloc::Global;
use std::collections::VecDeque;
use std::marker::Model;

/// A channel, its handles and operations by their names, which of them wait, and the calls that several parties have under way.
///
/// Handle 0 is the first sender, handle 1 the first receiver. Calls are made one at a time by `run_calls`, each from its beginning to its
/// end, or by steps of several parties in any order by `run_steps`; the one may follow the other whenever no call is under way. However a
/// world came about, its cells, wait queues and counts stand for a channel with just these calls under way. What the calls answer is as in
/// `async-channel` 2.5.0.
///
/// No method waits, and the questions cost constant time except where they say that they walk.
#[derive(Drop)]
pub struct World<T> {
    pub(crate) world_state: WorldState<T>,
}

impl<T> Model for World<T> {
    ghost use Rattle.std.specs.Coded.{codes};
    ghost use Rattle.channel_world_runs.specs.WorldState.{Stands};
    ghost use Rattle.channel_world.specs.View.{view_of, view_code, WorldView};

    ghost Value = { WorldView T };

    ghost coded = { view_code (Prim.hlevel codes) };

    ghost view = { λ w. view_of w.world_state };

    ghost invariant = { λ w. Stands w.world_state };
}

impl<T: Drop> World<T> {
    ghost use Rattle.std.specs.Prelude.{◌≡◌, ◌<◌, ◌+◌, ◌-◌, ◌^◌, None, Some, Err, OnOk, OnErr, IfOk};
    ghost use Rattle.concurrent_queue.specs.Capacity.{capacity_of};
    ghost use Rattle.concurrent_queue.specs.Made.{CanBeMade};
    ghost use Rattle.channel_world_model.specs.State.{start};
    ghost use Rattle.channel_world.specs.View.{at_rest, IsQuiet, IsJustOpened};

    /// An open channel over a queue of this form. Memory is taken first, and then four identities together or none.
    fn open(alloc: Global, form: QueueForm, ids: &mut EventIds) -> Result<World<T>, OpenError>
        requires form { CanBeMade form }
        ensures open { IfOk result (λ world. at_rest world ≡ start (capacity_of form)) }
        ensures shown { IfOk result (λ world. IsJustOpened (capacity_of form) world) }
        ensures quiet { IfOk result (λ world. IsQuiet world) }
        ensures ids { OnOk result (ids.new ≡ ids.old + 4) }
        ensures unchanged { OnErr result (ids.new ≡ ids.old) }
        ensures used_up { result ≡ Err OpenError.IdsUsedUp → 2 ^ 64 - 1 < ids.old + 4 }
    {
        let Ok(world_state) = WorldState::open(alloc, form) else {
            return Err(OpenError::NoMemory);
        };
        let Ok(_ids) = ids.next_four() else {
            drop(world_state);
            return Err(OpenError::IdsUsedUp);
        };
        Ok(World { world_state })
    }

    /// An open channel of this capacity, without a message and with no call under way.
    ///
    /// Memory is taken first, and then four identities together or none. A capacity above 2^58 is want of memory, without asking for any.
    /// As `bounded` of `async-channel` 2.5.0, which takes no source of identities.
    pub fn bounded(
        alloc: Global,
        capacity: usize,
        ids: &mut EventIds,
    ) -> Result<World<T>, OpenError>
        requires { 0 < capacity }
        ensures open { IfOk result (λ world. at_rest world ≡ start (Some capacity)) }
        ensures shown { IfOk result (λ world. IsJustOpened (Some capacity) world) }
        ensures quiet { IfOk result (λ world. IsQuiet world) }
        ensures ids { OnOk result (ids.new ≡ ids.old + 4) }
        ensures unchanged { OnErr result (ids.new ≡ ids.old) }
        ensures limit { 2 ^ 58 < capacity → result ≡ Err OpenError.NoMemory }
        ensures used_up { result ≡ Err OpenError.IdsUsedUp → 2 ^ 64 - 1 < ids.old + 4 }
    {
        if capacity > 1 << 58 {
            return Err(OpenError::NoMemory);
        }
        World::open(alloc, QueueForm::Bounded(capacity), ids)
    }

    /// An open channel for any number of messages, without a message and with no call under way.
    ///
    /// Memory is taken first, and then four identities together or none. As `unbounded` of `async-channel` 2.5.0, which takes no source of
    /// identities.
    pub fn unbounded(alloc: Global, ids: &mut EventIds) -> Result<World<T>, OpenError>
        ensures open { IfOk result (λ world. at_rest world ≡ start None) }
        ensures shown { IfOk result (λ world. IsJustOpened None world) }
        ensures quiet { IfOk result (λ world. IsQuiet world) }
        ensures ids { OnOk result (ids.new ≡ ids.old + 4) }
        ensures unchanged { OnErr result (ids.new ≡ ids.old) }
        ensures used_up { result ≡ Err OpenError.IdsUsedUp → 2 ^ 64 - 1 < ids.old + 4 }
    {
        World::open(alloc, QueueForm::Unbounded, ids)
    }
}

impl<T: Drop> World<T> {
    ghost use Rattle.std.specs.Prelude.{◌≡◌, ◌+◌, [], length, None, Some, IfSome, IsTrue, vec_len};
    ghost use Rattle.channel_world_model.specs.declared.name.Waiter.{Waiter};
    ghost use Rattle.channel_steps.specs.Configuration.{Configuration};
    ghost use Rattle.channel_world_runs.specs.Apart.{AreApart};
    ghost use Rattle.channel_world_runs.specs.Pending.{stands_pending, how_many};
    ghost use Rattle.channel_world_runs.specs.Run.{StopsAt};
    ghost use Rattle.channel_world_runs.specs.Runs.{accepted_in, left_in};
    ghost use Rattle.channel_world_runs.specs.Reaches.{replies_in};
    ghost use Rattle.channel_world.specs.Carried.{LeadsTo};
    ghost use Rattle.channel_world.specs.Headline.{Headline};
    ghost use Rattle.channel_world.specs.StepsLeft.{EndsInFront};
    ghost use Rattle.channel_world.specs.TheEnd.{NothingComesAfter};
    ghost use Rattle.channel_world.specs.View.{names_in, woken_in, messages_in, capacity_in, is_closed, calls_in, at_rest, name_state_of, TellsQuiet, HasPositions, StandsIn, Stands, RanTo};

    /// Runs steps of any parties, from the front. The first one that is refused stays in front, with nothing of it done; `stopped` says at
    /// which place of the list, counted from 0, and why.
    ///
    /// A step is one step of one call; a call that begins touches nothing. For every list of steps, from any world, calls under way or not,
    /// and wherever the list ends: what left the channel, followed by what it holds, is what it held followed by what it accepted, in
    /// order; each reply is a plain closable list's at moments of its call; and at no moment does a pending operation stay unwoken beside a
    /// message, free place or closing unless a woken operation or a call under way is responsible. `specs/Headline` has this sentence by
    /// sentence, of the run; `specs/Sentences` of each moment and of each step.
    ///
    /// The promise is of every configuration in which the world stood: a plain channel with the calls under way on it, each with its
    /// moments and marks so far. Some such configuration there always is, and a run or a list of calls that comes after leads on from the
    /// one to which this one came: the replies that were given since a configuration, and the accounts of all that was done since, are
    /// carried through each of them. The numbers of messages before and after it need none, nor do those of the steps: those that were
    /// made, of which the trace has an entry each, and those that are left are all; and if it didn't stop none is left.
    ///
    /// A step is refused for the first of these reasons that holds: the party that begins is at work; the one that steps isn't; a used name
    /// doesn't live; what lives there is of another kind; its operation or its receiver's stream is being polled; it drops, or polls as a
    /// stream, a handle in use; a new name was taken. Otherwise it may be refused for want of memory. So is the begin of a send that might
    /// bring the 2^61st message, if the channel has more than one place; one place counts no positions, so there no send is refused for
    /// them. Nothing is refused for the number of steps or calls.
    pub fn run_steps(&mut self, steps: &mut VecDeque<Step<T>>) -> Run<T>
        ensures headline { (s : Configuration T Waiter) → StandsIn self.old s
            → Headline steps.old.items steps.new.items self.old result.trace.items result.stopped self.new s }
        ensures soon { EndsInFront self.old steps.old.items result.trace.items }
        ensures the_end { NothingComesAfter steps.old.items result.trace.items }
        ensures leads { LeadsTo self.old (replies_in result.trace.items) self.new }
        ensures stands { Stands self.new }
        ensures used_up { result.stopped ≡ None → steps.new.items ≡ [] }
        ensures made { vec_len result.trace + length steps.new.items ≡ length steps.old.items }
        ensures place { IfSome result.stopped (λ s. s.place ≡ vec_len result.trace) }
        ensures messages { messages_in self.new + left_in result.trace.items ≡ messages_in self.old + accepted_in result.trace.items }
    {
        self.keeps();
        self.make_steps(steps)
    }

    /// Makes steps of any parties from the front, up to the first that is refused: they are a run of the channel's steps by names.
    pub(crate) fn make_steps(&mut self, steps: &mut VecDeque<Step<T>>) -> Run<T>
        ensures ran { RanTo steps.old.items steps.new.items self.old result.trace.items self.new }
        ensures stopped { StopsAt (name_state_of self.new) steps.new.items (vec_len result.trace) result.stopped }
        ensures stands { Stands self.new }
    {
        self.world_state.run_steps(steps)
    }

    /// States that every world stands in a configuration, and does nothing.
    pub fn keeps(&self)
        ensures { Stands self.now }
    {
        self.keeps_names();
    }

    /// States that it stands in a configuration, and that no name stands twice; and does nothing.
    pub(crate) fn keeps_names(&self)
        ensures stands { Stands self.now }
        ensures apart { AreApart (names_in self.now) }
    {
        let _handles = self.world_state.name_table.handles.iter();
        let _operations = self.world_state.name_table.operations.iter();
    }

    /// Whether no call is under way.
    pub fn is_quiet(&self) -> bool
        ensures { TellsQuiet self.now result }
    {
        self.world_state.calls.is_empty()
    }

    /// How many calls are under way.
    pub fn under_way(&self) -> usize
        ensures { result ≡ calls_in self.now }
    {
        self.world_state.calls.len()
    }

    /// Whether the queue has positions for so many more messages. With one place it needs none, so there this is always true.
    pub fn has_positions(&self, count: usize) -> bool
        ensures enough { IsTrue result → HasPositions count self.now }
        ensures all { HasPositions count self.now → IsTrue result }
        ensures one_place { (at_rest self.now).channel.capacity ≡ Some 1 → IsTrue result }
    {
        self.world_state.has_positions(count)
    }

    /// How many messages the channel can hold; `None` without a bound.
    pub fn capacity(&self) -> Option<usize>
        ensures { result ≡ capacity_in self.now }
    {
        self.world_state.channel.capacity()
    }

    /// Whether the channel is closed, by its cells as they are: a call that is to close it may be under way.
    pub fn is_closed(&self) -> bool
        ensures { result ≡ is_closed self.now }
    {
        self.world_state.channel.is_closed()
    }

    /// How many messages the channel holds.
    pub fn messages(&self) -> u64
        ensures { result ≡ messages_in self.now }
    {
        self.world_state.messages
    }

    /// How many operations and streams are pending: they live, their last poll ended so, and no poll of them is under way. It walks over
    /// all names.
    pub fn pending(&self) -> usize
        ensures { result ≡ how_many stands_pending (names_in self.now) }
    {
        self.world_state.name_table.count_pending()
    }

    /// How many of those that are pending were woken since their last poll. It walks over all names that are polled or pending.
    pub fn woken(&self) -> usize
        ensures { result ≡ length (woken_in self.now) }
    {
        self.world_state.order.count_woken()
    }
}

impl<T: Drop> World<T> {
    ghost use Rattle.std.specs.Prelude.{◌≡◌, ◌≤◌, None, IfOk, IfErr, IfSome, OnErr};
    ghost use Rattle.channel_world_model.specs.Refusal.{refusal};
    ghost use Rattle.channel_world_model.specs.Refused.{Answers};
    ghost use Rattle.channel_world_runs.specs.Reaches.{reply_of};
    ghost use Rattle.channel_world.specs.View.{at_rest, IsQuiet, LeadsOn};
    ghost use Rattle.channel_world.specs.World.{most_woken};

    /// How many names the call may wake, at most; `None` if the number doesn't fit.
    pub(crate) fn room_for(&self, call: &Call<T>) -> Option<usize>
        ensures { IfSome result (λ n. most_woken call.now (at_rest self.now).waiting ≤ n) }
    {
        let channel = &self.world_state.channel;
        let sends = channel.waiting(WaitList::Sends);
        let streams = channel.waiting(WaitList::Streams);
        match call {
            Call::Close { .. } | Call::Drop { .. } => {
                let messengers = sends.checked_add(channel.waiting(WaitList::Receives))?;
                let listening = streams.checked_add(channel.waiting(WaitList::Closings))?;
                messengers.checked_add(listening)
            }
            Call::RecvMany { .. } => Some(sends),
            _ => streams.checked_add(2),
        }
    }

    /// Makes a call that is not refused, with no other under way; or returns it if its answer got no room, with nothing changed.
    pub(crate) fn answer(&mut self, call: Call<T>) -> Result<Done<T>, Call<T>>
        requires quiet { IsQuiet self.old }
        requires accepted { refusal (at_rest self.old) call ≡ None }
        ensures ok { IfOk result (λ d. Answers (at_rest self.old) call (record { after = at_rest self.new; reply = d.reply; woken = d.woken.items })) }
        ensures quiet { IsQuiet self.new }
        ensures leads { LeadsOn self.old (reply_of result) self.new }
        ensures err { OnErr result (at_rest self.new ≡ at_rest self.old) }
        ensures back { IfErr result (λ c. c ≡ call) }
    {
        a_call_made_alone_is_the_models::<T>();
        self.keeps_names();
        let Some(room) = self.room_for(&call) else {
            return Err(call);
        };
        self.world_state.call_alone(call, room)
    }

    /// Why the call is refused, room for its answer aside.
    pub(crate) fn refusal(&self, call: &Call<T>) -> Option<WorldRefusal>
        requires quiet { IsQuiet self.now }
        ensures { result ≡ refusal (at_rest self.now) call.now }
    {
        a_call_made_alone_is_the_models::<T>();
        self.keeps_names();
        self.world_state.name_table.refusal(call)
    }

    /// Where the memory of its answers comes from.
    pub(crate) fn alloc(&self) -> Global {
        self.world_state.alloc
    }
}
