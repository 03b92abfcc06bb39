//! Clients of a world whose promises follow from its own clauses and laws, in the numbers that it tells, with no file of proofs
//! here. They are proved; nothing runs them.
//!
//! These promises are found so, of any type of messages. After any steps who sleeps is answered for: `step_and_look`. A run that
//! did not stop has used its list up: `use_up`, and so has a list of calls: `use_up_calls`. Beside a message that is held after settling
//! nobody receives: `settle_and_look`. Where one is pending, settling makes one poll at most: `settle_one`. Where nobody is under way
//! and nobody is woken, nobody sleeps beside a message: `nobody_sleeps`. Nor does a send where the channel is open and one more message
//! fits: `no_send_sleeps`. By kind, calls under way or not, each of the four lines is decided by numbers: `no_send_sleeps_by_kind`,
//! `no_receive_sleeps_by_kind`, `no_stream_sleeps`, `nobody_sleeps_where_closed`, `is_awake`. Accounts are carried through calls, steps
//! and calls: `carry` of `clients`. And a record has as many entries as the gathered seats made calls: `gather` of
//! `recorded`, in `uses`.

ghost use Rattle.std.specs.Prelude.{◌≡◌, ◌+◌, ◌<◌, ◌≤◌, [], length, None, Some, true, IfOk, IfSome, vec_len};
ghost use Rattle.channel_calls.specs.declared.stage.WaitList.{WaitList};
ghost use Rattle.channel_calls.specs.declared.stage.WaitList.TheVariants.{Receives, Sends, Streams};
ghost use Rattle.channel_world_runs.specs.Owed.{Owed};
ghost use Rattle.channel_world.specs.Asleep.{woken_among, ClosingIsAnswered, NobodySleeps, ReceivesAreAnswered, SendsAreAnswered, StreamsAreAnswered};
ghost use Rattle.channel_world.specs.View.{at_rest, calls_in, messages_in, observation_of, IsQuiet};

use crate::clients::Settling;
use channel_calls::stage::WaitList;
use channel_world::call::{Call, CallRun};
use channel_world::laws::who_sleeps_is_answered_for;
use channel_world::step::{Run, Step};
use channel_world::under_way::UnderWay;
use channel_world::world::World;
use std::collections::VecDeque;

/// Makes steps in whatever world: where the run did not stop, the list of steps is used up; and where it did, its place says how many
/// were made.
pub fn use_up<T: Drop>(world: &mut World<T>, steps: &mut VecDeque<Step<T>>) -> Run<T>
    ensures used_up { result.stopped ≡ None → steps.new.items ≡ [] }
    ensures place { IfSome result.stopped (λ s. s.place ≡ vec_len result.trace) }
{
    world.run_steps(steps)
}

/// Makes calls in whatever world has no call under way: where the list did not stop, it is used up; and so many were made as its place
/// says.
pub fn use_up_calls<T: Drop>(world: &mut World<T>, calls: &mut VecDeque<Call<T>>) -> CallRun<T>
    requires { IsQuiet world.old }
    ensures used_up { result.stopped ≡ None → calls.new.items ≡ [] }
    ensures made { vec_len result.done + length calls.new.items ≡ length calls.old.items }
    ensures place { IfSome result.stopped (λ s. s.place ≡ vec_len result.done) }
{
    world.run_calls(calls)
}

/// Makes steps in whatever world, and says how many: they and those that are left are all.
pub fn make<T: Drop>(world: &mut World<T>, steps: &mut VecDeque<Step<T>>) -> usize
    ensures { result + length steps.new.items ≡ length steps.old.items }
{
    let run = world.run_steps(steps);
    run.trace.len()
}

/// What a world tells after some steps.
#[derive(Drop)]
pub struct Told<T> {
    /// What was done.
    pub run: Run<T>,
    /// How many messages it holds.
    pub messages: u64,
    /// How many of those who are pending were woken.
    pub woken: usize,
    /// How many calls are under way.
    pub under_way: usize,
}

/// Makes steps in whatever world, calls begun before included, wherever the list ends: then who sleeps is answered for, in the numbers
/// that the world tells. Beside a receive that sleeps there are no more messages than woken ones and calls under way. Beside a send, on
/// an open channel, there are no more places than messages, woken ones, calls under way, and places that such calls have freed and not
/// announced yet. Beside a stream and a message a call is under way, and beside anybody on a closed channel. So where the world tells
/// that no call is under way no stream sleeps beside a message, and no receive where it tells that nobody is woken.
pub fn step_and_look<T: Drop>(world: &mut World<T>, steps: &mut VecDeque<Step<T>>) -> Told<T>
    ensures messages { result.messages ≡ messages_in world.new }
    ensures woken { result.woken ≡ woken_among world.new }
    ensures under_way { result.under_way ≡ calls_in world.new }
    ensures receives { ReceivesAreAnswered world.new }
    ensures sends { SendsAreAnswered world.new }
    ensures streams { StreamsAreAnswered world.new }
    ensures closing { ClosingIsAnswered world.new }
    ensures no_stream { result.under_way ≡ 0 → 0 < result.messages → NobodySleeps Streams world.new }
    ensures no_receive { result.under_way ≡ 0 → result.woken ≡ 0 → 0 < result.messages → NobodySleeps Receives world.new }
{
    let run = world.run_steps(steps);
    who_sleeps_is_answered_for(world);
    Told {
        run,
        messages: world.messages(),
        woken: world.woken(),
        under_way: world.under_way(),
    }
}

/// Looks at whatever world, calls under way or not: who sleeps is answered for by kind, and how many calls of each kind are under way.
pub fn look_by_kind<T: Drop>(world: &World<T>) -> UnderWay
    ensures sending { result.sending ≡ (observation_of world.now).sending }
    ensures receiving { result.receiving ≡ (observation_of world.now).receiving }
    ensures closers { result.closers ≡ (observation_of world.now).closers }
    ensures owed { Owed (observation_of world.now) }
{
    who_sleeps_is_answered_for(world);
    world.calls_by_kind()
}

/// Settles whatever world has no call under way, and says whether a message is held after it: then nobody receives in vain.
pub fn settle_and_look<T: Drop>(world: &mut World<T>) -> bool
    requires { IsQuiet world.old }
    ensures { result ≡ true → (at_rest world.new).waiting.receives ≡ [] }
{
    let Ok(polls) = world.settle() else {
        return false;
    };
    if world.messages() == 0 {
        drop(polls);
        return false;
    }
    drop(polls);
    true
}

/// Settles whatever world has no call under way: where one is pending, it makes one poll at most.
pub fn settle_one<T: Drop>(world: &mut World<T>) -> Settling<T>
    requires { IsQuiet world.old }
    ensures { IfOk result.polls (λ polls. result.pending ≡ 1 → vec_len polls ≤ 1) }
{
    let pending = world.pending();
    let polls = world.settle();
    Settling { pending, polls }
}

/// Looks at whatever world, and says whether it holds a message while nobody is under way and nobody is woken: then nobody sleeps
/// beside it.
pub fn nobody_sleeps<T: Drop>(world: &World<T>) -> bool
    ensures receives { result ≡ true → NobodySleeps Receives world.now }
    ensures streams { result ≡ true → NobodySleeps Streams world.now }
{
    who_sleeps_is_answered_for(world);
    world.under_way() == 0 && world.woken() == 0 && world.messages() > 0
}

/// Looks at whatever world, and says whether it is open and one more message fits while nobody is under way and nobody is woken: then
/// no send sleeps.
pub fn no_send_sleeps<T: Drop>(world: &World<T>) -> bool
    ensures { result ≡ true → NobodySleeps Sends world.now }
{
    who_sleeps_is_answered_for(world);
    if world.is_closed() || world.under_way() > 0 || world.woken() > 0 {
        return false;
    }
    match world.capacity() {
        Some(capacity) => world.messages() < capacity as u64,
        None => true,
    }
}

/// Looks at whatever world, calls under way or not, and says whether a send that begins now has a position for its message: with
/// one place it always has, however many messages were accepted.
pub fn a_send_has_a_position<T: Drop>(world: &World<T>) -> bool
    ensures { (at_rest world.now).channel.capacity ≡ Some 1 → result ≡ true }
{
    world.has_positions(world.under_way().saturating_add(1))
}

/// Looks at whatever world, calls under way or not, and says by its numbers whether no send sleeps: it is open, and more fits than
/// messages are held, sends woken, calls sending, and messages taken by calls under way.
pub fn no_send_sleeps_by_kind<T: Drop>(world: &World<T>) -> bool
    ensures { result ≡ true → NobodySleeps Sends world.now }
{
    who_sleeps_is_answered_for(world);
    let Some(taken) = world.taken() else {
        return false;
    };
    let calls = world.calls_by_kind();
    let woken = world.woken_of(WaitList::Sends) as u64;
    let others = woken.saturating_add((calls.sending as u64).saturating_add(taken));
    let answered = world.messages().saturating_add(others);
    let fits = match world.capacity() {
        Some(capacity) => answered < capacity as u64,
        None => true,
    };
    fits && !world.is_closed()
}

/// Looks at whatever world, calls under way or not, and says by its numbers whether no receive sleeps: more messages are held than
/// receives are woken and calls sending or receiving.
pub fn no_receive_sleeps_by_kind<T: Drop>(world: &World<T>) -> bool
    ensures { result ≡ true → NobodySleeps Receives world.now }
{
    who_sleeps_is_answered_for(world);
    let calls = world.calls_by_kind();
    let working = (calls.sending as u64).saturating_add(calls.receiving as u64);
    (world.woken_of(WaitList::Receives) as u64).saturating_add(working) < world.messages()
}

/// Looks at whatever world, calls under way or not, and says by its numbers whether no stream sleeps beside a message.
pub fn no_stream_sleeps<T: Drop>(world: &World<T>) -> bool
    ensures { result ≡ true → NobodySleeps Streams world.now }
{
    who_sleeps_is_answered_for(world);
    world.calls_by_kind().sending == 0 && world.messages() > 0
}

/// Looks at whatever world, calls under way or not, and says by its numbers whether nobody sleeps on a closed channel.
pub fn nobody_sleeps_where_closed<T: Drop>(world: &World<T>) -> bool
    ensures { result ≡ true → (line : WaitList) → NobodySleeps line world.now }
{
    who_sleeps_is_answered_for(world);
    world.calls_by_kind().closers == 0 && world.is_closed()
}

/// Looks at a line of whatever world, and says whether as many are woken as are pending: then nobody sleeps there.
pub fn is_awake<T: Drop>(world: &World<T>, line: WaitList) -> bool
    ensures { result ≡ true → NobodySleeps line world.now }
{
    who_sleeps_is_answered_for(world);
    world.pending_of(line) == world.woken_of(line)
}
