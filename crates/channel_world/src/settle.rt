//! Settling: the operations and streams that are pending and were woken are polled, the one whose wake is oldest first, until nobody is
//! woken.

ghost use Rattle.std.specs.Prelude.{◌≡◌, ◌≤◌, [], vec_capacity, IfSome};

use super::call::Reply;
use super::name::Waiter;
use super::world::World;
use channel_calls::stage::WaitList;
use channel_world_runs::rest_laws::{
    a_channel_at_rest_is_a_world, a_poll_of_settling_is_the_models,
};
use channel_world_runs::settle::Polled;
use event_listener::error::NoMemory;
use std::alloc::{AllocError, Global};

/// One poll of a settling.
#[derive(Drop)]
pub struct Settled<T> {
    /// The name that was polled.
    pub name: Waiter,
    /// What the poll answered.
    pub reply: Reply<T>,
}

/// These names with room for so many more, and room for as many answers. `None` if it was refused.
fn take_room<T: Drop>(
    mut names: Vec<Waiter>,
    most: usize,
    alloc: Global,
) -> Option<(Vec<Waiter>, Vec<Settled<T>>)>
    ensures names { IfSome result (λ r. r.0.items ≡ names.items) }
    ensures polls { IfSome result (λ r. r.1.items ≡ []) }
    ensures room { IfSome result (λ r. most ≤ vec_capacity r.0) }
    ensures answers { IfSome result (λ r. vec_capacity r.1 ≡ most) }
{
    names.reserve(most).ok()?;
    let polls = Vec::with_capacity(alloc, most).ok()?;
    Some((names, polls))
}

impl<T: Drop> World<T> {
    ghost use Rattle.std.specs.Prelude.{◌≡◌, ◌≤◌, ◌+◌, [], ◌∷◌, true, false, length, vec_len, vec_capacity, IfOk, IfSome, OnSome, IsTrue};
    ghost use Rattle.channel_steps.specs.solo.Ample.{lacks_memory};
    ghost use Rattle.channel_world_runs.specs.Positions.{accepted_by, brings};
    ghost use Rattle.channel_world_model.specs.Answer.{Answer};
    ghost use Rattle.channel_world_model.specs.Lines.{is_among};
    ghost use Rattle.channel_world_model.specs.Refused.{Answers};
    ghost use Rattle.channel_world_model.specs.Settling.{poll_of};
    ghost use Rattle.channel_world.specs.Settled.{Polls, PollHasPosition, HasPositionsToSettle, most_accepted, most_polls, pending_on};
    ghost use Rattle.channel_world.specs.View.{names_in, at_rest, has_one_place, accepted_by_now, IsQuiet, LeadsOn};

    /// How many are pending on this wait queue, given those that are woken. `None` if the number doesn't fit.
    fn pending_on(&self, line: WaitList, woken: &Vec<Waiter>) -> Option<usize>
        requires quiet { IsQuiet self.now }
        requires woken { woken.now.items ≡ (at_rest self.now).waiting.woken }
        ensures { IfSome result (λ n. n ≡ pending_on line (at_rest self.now)) }
    {
        a_channel_at_rest_is_a_world::<T>();
        self.keeps_names();
        let names = &self.world_state.name_table;
        let told = woken.iter().filter(|who| names.is_on(line, **who)).count();
        self.world_state.channel.waiting(line).checked_add(told)
    }

    /// How many polls settling makes at most, given those that are woken. `None` if the number doesn't fit.
    fn most_polls(&self, woken: &Vec<Waiter>) -> Option<usize>
        requires quiet { IsQuiet self.now }
        requires woken { woken.now.items ≡ (at_rest self.now).waiting.woken }
        ensures { IfSome result (λ n. n ≡ most_polls (at_rest self.now)) }
    {
        let sends = self.pending_on(WaitList::Sends, woken)?;
        let receives = self.pending_on(WaitList::Receives, woken)?;
        let streams = self.pending_on(WaitList::Streams, woken)?;
        let by_sends = sends.checked_mul(streams.checked_add(2)?)?;
        let others = receives.checked_mul(2)?.checked_add(streams)?;
        by_sends.checked_add(others)?.checked_add(woken.len())
    }

    /// How many messages settling accepts at most, given those that are woken. `None` if the number doesn't fit.
    ///
    /// Into a closed channel none comes. With a bound no more come than places are free and are freed by those that take a message.
    fn most_accepted(&self, woken: &Vec<Waiter>) -> Option<usize>
        requires quiet { IsQuiet self.now }
        requires woken { woken.now.items ≡ (at_rest self.now).waiting.woken }
        ensures { IfSome result (λ n. n ≡ most_accepted (at_rest self.now)) }
    {
        self.keeps_names();
        if self.is_closed() {
            return Some(0);
        }
        let sends = self.pending_on(WaitList::Sends, woken)?;
        let Some(capacity) = self.capacity() else {
            return Some(sends);
        };
        let receives = self.pending_on(WaitList::Receives, woken)?;
        let streams = self.pending_on(WaitList::Streams, woken)?;
        let free = (capacity as u64).saturating_sub(self.messages()) as usize;
        let places = free.checked_add(receives)?.checked_add(streams)?;
        Some(sends.min(places))
    }

    /// Whether the queue has positions for the messages that a settling accepts, given those that are woken. If nobody is woken nobody is
    /// polled, so it needs none.
    fn has_positions_to_settle(&self, woken: &Vec<Waiter>) -> bool
        requires quiet { IsQuiet self.now }
        requires woken { woken.now.items ≡ (at_rest self.now).waiting.woken }
        ensures enough { IsTrue result → HasPositionsToSettle self.now }
        ensures nobody { woken.now.items ≡ [] → IsTrue result }
    {
        let most = self.most_accepted(woken);
        woken.is_empty() || matches!(most, Some(count) if self.has_positions(count))
    }

    /// Those that are pending and were woken, in the order of their waking. It walks over all names that are polled or pending.
    fn woken_names(&self) -> Result<Vec<Waiter>, AllocError>
        ensures { IfOk result (λ names. names.items ≡ (at_rest self.now).waiting.woken) }
    {
        let state = &self.world_state;
        state.order.woken(state.alloc)
    }

    /// Those that are woken, and room for all that settling answers. `None` if it was refused, or if somebody is woken and the queue has no
    /// positions for the messages that come in.
    fn room_to_settle(&self) -> Option<(Vec<Waiter>, Vec<Settled<T>>)>
        requires quiet { IsQuiet self.now }
        ensures names { IfSome result (λ r. r.0.items ≡ (at_rest self.now).waiting.woken) }
        ensures polls { IfSome result (λ r. r.1.items ≡ []) }
        ensures room { IfSome result (λ r. most_polls (at_rest self.now) ≤ vec_capacity r.0) }
        ensures answers { IfSome result (λ r. vec_capacity r.1 ≡ most_polls (at_rest self.now)) }
        ensures places { OnSome result (HasPositionsToSettle self.now) }
    {
        let names = self.woken_names().ok()?;
        let most = self.most_polls(&names)?;
        if self.has_positions_to_settle(&names) {
            take_room(names, most, self.alloc())
        } else {
            None
        }
    }

    /// Polls one that is pending and was woken. Those that the poll wakes go after the names, as far as there is room for them.
    fn poll_woken(&mut self, name: Waiter, names: Vec<Waiter>) -> Polled<T>
        requires quiet { IsQuiet self.old }
        requires woken { is_among name (at_rest self.old).waiting.woken ≡ true }
        requires limit { PollHasPosition name self.old }
        requires room { (a : Answer T) → Answers (at_rest self.old) (poll_of name) a → vec_len names + length a.woken ≤ vec_capacity names }
        ensures polled { Polls name (at_rest self.old) names.items result.reply result.names.items (at_rest self.new) }
        ensures quiet { IsQuiet self.new }
        ensures leads { LeadsOn self.old (result.reply ∷ []) self.new }
        ensures place { has_one_place self.new ≡ has_one_place self.old }
        ensures accepted { accepted_by_now self.new ≤ accepted_by_now self.old + accepted_by (brings (names_in self.old) (poll_of name)) result.reply }
        ensures capacity { vec_capacity names ≤ vec_capacity result.names }
        ensures ample { lacks_memory result.reply ≡ false }
    {
        a_poll_of_settling_is_the_models::<T>();
        self.keeps_names();
        self.world_state.poll_alone(name, names)
    }
}

impl<T: Drop> World<T> {
    ghost use Rattle.std.specs.Prelude.{◌≡◌, ◌≤◌, ◌+◌, ◌*◌, [], vec_len, vec_capacity, IfOk, OnOk, OnErr};
    ghost use Rattle.channel_world_runs.specs.Pending.{stands_pending, how_many};
    ghost use Rattle.channel_world_model.specs.Settling.{Settles, pending_count};
    ghost use Rattle.channel_world.specs.Carried.{polls_replied, LeadsTo};
    ghost use Rattle.channel_world.specs.Asleep.{NoReceivePendsBesideAMessage, NoSendPendsBesideAPlace, NoStreamPendsBesideAMessage, NobodyPendsOnAClosed};
    ghost use Rattle.channel_world.specs.Settled.{polls_in, most_polls, NoneLackedMemory};
    ghost use Rattle.channel_world.specs.View.{names_in, at_rest, IsQuiet, Stands};

    /// Polls those who are pending and were woken, the one whose wake is oldest first, again and again until nobody is woken;
    /// and answers which names it polled, in order, and what each poll answered.
    ///
    /// One that a poll wakes is polled in its turn; one that was not woken is not polled. A stream is polled even while a live operation
    /// borrows its receiver. If w operations and streams are pending, there are at most w(w+1)/2 polls. If k of them are woken, s are
    /// sends, r receives and n streams, there are at most k + s(n + 2) + 2r + n: only a send whose message is accepted wakes streams. After
    /// them nobody is woken, and nobody is pending that a message, a free place or a closing lets go on. So if `pending()` was 1 there is
    /// one poll at most. If `messages()` is above 0 after it no receive and no stream is pending, and no send if the channel is open and
    /// one more message fits.
    ///
    /// Room for just that many answers, and for as many names, is reserved before the first poll. If it is refused, the answer is
    /// `NoMemory`, and nothing is changed. The same if somebody is woken, the channel has more than one place, and the messages that were
    /// accepted and those that may come in come to 2^61. If the channel is closed none may come in. Otherwise they are as many as sends are
    /// pending, or as places are free and receives and streams are pending, which is less. No poll is refused memory: if it goes on
    /// waiting, the node of the listener that was told serves the next one. So a settling is refused its room, or it settles. Only once all
    /// 2^64 - 1 serial numbers of a wait queue were given, the reply of a poll that would go on waiting there says that none was left, and
    /// it is pending no more; all the rest holds as before.
    ///
    /// No call may be under way, and none is after it. From each configuration in which the world stood steps lead to one in which it
    /// stands, on which just the replies of these polls were given, in order. What left the channel, followed by what it holds, is what it
    /// held followed by what came, in order. It never waits.
    pub fn settle(&mut self) -> Result<Vec<Settled<T>>, NoMemory>
        requires quiet { IsQuiet self.old }
        ensures polls { IfOk result (λ polls. Settles (at_rest self.old) (polls_in polls.items) (at_rest self.new)) }
        ensures few { IfOk result (λ polls. 2 * vec_len polls
            ≤ pending_count (at_rest self.old).waiting * (pending_count (at_rest self.old).waiting + 1)) }
        ensures short { IfOk result (λ polls. vec_len polls ≤ most_polls (at_rest self.old)) }
        ensures few_pending { IfOk result (λ polls. 2 * vec_len polls
            ≤ how_many stands_pending (names_in self.old) * (how_many stands_pending (names_in self.old) + 1)) }
        ensures one_pending { IfOk result (λ polls. how_many stands_pending (names_in self.old) ≡ 1 → vec_len polls ≤ 1) }
        ensures room { IfOk result (λ polls. vec_capacity polls ≡ most_polls (at_rest self.old)) }
        ensures ample { IfOk result (λ polls. NoneLackedMemory polls.items) }
        ensures nobody_woken { OnOk result ((at_rest self.new).waiting.woken ≡ []) }
        ensures receives { OnOk result (NoReceivePendsBesideAMessage self.new) }
        ensures sends { OnOk result (NoSendPendsBesideAPlace self.new) }
        ensures streams { OnOk result (NoStreamPendsBesideAMessage self.new) }
        ensures closing { OnOk result (NobodyPendsOnAClosed self.new) }
        ensures unchanged { OnErr result (self.new ≡ self.old) }
        ensures quiet { IsQuiet self.new }
        ensures leads { IfOk result (λ polls. LeadsTo self.old (polls_replied polls.items) self.new) }
        ensures stands { Stands self.new }
    {
        a_channel_at_rest_is_a_world::<T>();
        self.keeps_names();
        let Some((mut names, mut polls)) = self.room_to_settle() else {
            return Err(NoMemory);
        };
        while polls.len() < names.len() {
            let name = names[polls.len()];
            let Polled { reply, names: more } = self.poll_woken(name, names);
            names = more;
            polls.push_reserved(Settled { name, reply });
        }
        Ok(polls)
    }
}
