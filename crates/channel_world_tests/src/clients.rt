//! Clients of a world that know nothing of it but that it is one. They are proved; nothing runs them.

ghost use Rattle.std.specs.Prelude.{◌≡◌, ◌+◌, ◌*◌, ◌<◌, ◌≤◌, ℕ, List, [], ◌++◌, length, slice_get, true, IfOk, vec_len};
ghost use Rattle.channel_calls.specs.declared.reply.Reply.{Reply};
ghost use Rattle.channel_calls.specs.declared.stage.WaitList.{WaitList};
ghost use Rattle.channel_world_runs.specs.Pending.{how_many, stands_pending};
ghost use Rattle.channel_world_runs.specs.Runs.{accepted_in, left_in};
ghost use Rattle.channel_world_runs.specs.Reaches.{replies_in};
ghost use Rattle.channel_world_model.specs.Handles.{HandlesAreCounted};
ghost use Rattle.channel_world_model.specs.declared.name.Waiter.{Waiter};
ghost use Rattle.channel_steps.specs.Configuration.{Configuration};
ghost use Rattle.channel_world.specs.Asleep.{NobodySleeps};
ghost use Rattle.channel_world.specs.Carried.{replied_if, LeadsTo};
ghost use Rattle.channel_world.specs.InTurn.{accepted_on, left_on};
ghost use Rattle.channel_world.specs.Since.{ClosesOnceWith, IsNeverFullWith};
ghost use Rattle.channel_world.specs.StepsLeft.{EndsInFront};
ghost use Rattle.channel_world.specs.TheEnd.{NothingComesAfter};
ghost use Rattle.channel_world.specs.View.{observation_of, names_in, is_closed, at_rest, IsQuiet, Led};

use channel_world::account::Account;
use channel_world::call::{Call, CallRun};
use channel_world::laws::{
    at_rest_nobody_is_left_asleep, by_steps_messages_leave_in_turn, counts_are_live_handles,
    numbers_are_those_at_rest, who_sleeps_is_answered_for,
};
use channel_world::settle::Settled;
use channel_world::step::{Run, Step};
use channel_world::world::World;
use event_listener::error::NoMemory;
use std::collections::VecDeque;

/// A run with the numbers of messages before and after it.
#[derive(Drop)]
pub struct Counted<T> {
    /// How many there were.
    pub before: u64,
    /// How many there are.
    pub after: u64,
    /// What was done.
    pub run: Run<T>,
}

/// Makes steps in whatever world, calls under way or not: the messages that are there after it, with those that left, are
/// those that were there, with those that were accepted.
pub fn count<T: Drop>(world: &mut World<T>, steps: &mut VecDeque<Step<T>>) -> Counted<T>
    ensures { result.after + left_in result.run.trace.items ≡ result.before + accepted_in result.run.trace.items }
{
    let before = world.messages();
    let run = world.run_steps(steps);
    let after = world.messages();
    Counted { before, after, run }
}

/// Makes steps in whatever world, calls begun before included: no party beside whose call the others are quiet makes more steps than
/// its call has left at most (`most_left`) in front of the list with no reply among them.
pub fn ends_soon<T: Drop>(world: &mut World<T>, steps: &mut VecDeque<Step<T>>) -> Run<T>
    ensures { EndsInFront world.old steps.old.items result.trace.items }
{
    world.run_steps(steps)
}

/// Makes steps in whatever world: once one of them answered that the channel is closed and empty, or that a stream has ended, no call
/// that begins later in the list gives a message.
pub fn ends_for_good<T: Drop>(world: &mut World<T>, steps: &mut VecDeque<Step<T>>) -> Run<T>
    ensures { NothingComesAfter steps.old.items result.trace.items }
{
    world.run_steps(steps)
}

/// Makes calls one at a time, if none is under way, and notes them.
fn note_calls<T: Drop>(
    world: &mut World<T>,
    account: &mut Account<T>,
    calls: &mut VecDeque<Call<T>>,
) -> Option<CallRun<T>>
    requires of_it { account.old.until ≡ world.old }
    ensures since { account.new.since ≡ account.old.since }
    ensures until { account.new.until ≡ world.new }
    ensures replies { account.new.replies ≡ account.old.replies ++ replied_if result }
{
    if world.is_quiet() {
        let run = world.run_calls(calls);
        account.add_calls(world, &run);
        Some(run)
    } else {
        None
    }
}

/// Makes calls one at a time, if none is under way: the accounts that were kept of the world are kept on, with what they replied.
pub fn call_if_quiet<T: Drop>(
    world: &mut World<T>,
    calls: &mut VecDeque<Call<T>>,
) -> Option<CallRun<T>>
    ensures { LeadsTo world.old (replied_if result) world.new }
{
    let mut account = Account::of(world);
    let run = note_calls(world, &mut account, calls);
    account.says();
    run
}

/// What was done in three parts.
#[derive(Drop)]
pub struct Parts<T> {
    /// The calls before the steps, if none was under way.
    pub before: Option<CallRun<T>>,
    /// The steps.
    pub run: Run<T>,
    /// The calls after them, if none was under way then.
    pub after: Option<CallRun<T>>,
}

/// Makes calls, then steps, then calls again, in whatever world: what left since a configuration that it came from, followed by what it
/// holds at the end, is what it held in that configuration, followed by what came, in order; and the replies that were given since are
/// those before, and then just those of the three parts.
pub fn carry<T: Drop>(
    world: &mut World<T>,
    before: &mut VecDeque<Call<T>>,
    steps: &mut VecDeque<Step<T>>,
    after: &mut VecDeque<Call<T>>,
) -> Parts<T>
    ensures { LeadsTo world.old ((replied_if result.before ++ replies_in result.run.trace.items) ++ replied_if result.after) world.new }
{
    let mut account = Account::of(world);
    let before = note_calls(world, &mut account, before);
    let run = world.run_steps(steps);
    account.add_steps(world, &run);
    let after = note_calls(world, &mut account, after);
    account.says();
    Parts { before, run, after }
}

/// Looks at whatever world has no call under way: each count is the number of live strong handles of its side, and while the
/// channel is open each side has one at least.
pub fn counts_at_rest<T: Drop>(world: &World<T>)
    requires { IsQuiet world.now }
    ensures { HandlesAreCounted (at_rest world.now).channel (at_rest world.now).names.handles }
{
    counts_are_live_handles(world);
}

/// A settling, with the number of those who were pending before it.
#[derive(Drop)]
pub struct Settling<T> {
    /// How many were pending.
    pub pending: usize,
    /// The polls that were made.
    pub polls: Result<Vec<Settled<T>>, NoMemory>,
}

/// Settles whatever world has no call under way: where w operations and streams were pending, it makes w(w+1)/2 polls at most.
pub fn settle_pending<T: Drop>(world: &mut World<T>) -> Settling<T>
    requires { IsQuiet world.old }
    ensures { IfOk result.polls (λ polls. 2 * vec_len polls ≤ result.pending * (result.pending + 1)) }
{
    numbers_are_those_at_rest(world);
    let pending = world.pending();
    let polls = world.settle();
    Settling { pending, polls }
}

/// Makes steps in whatever world: of all replies since its opening, with those of these steps, at most one says that it closed the
/// channel.
pub fn close_once<T: Drop>(world: &mut World<T>, steps: &mut VecDeque<Step<T>>) -> Run<T>
    ensures { ClosesOnceWith world.old (replies_in result.trace.items) }
{
    let mut account = Account::of(world);
    let run = world.run_steps(steps);
    account.add_steps(world, &run);
    account.says();
    run
}

/// Makes steps in whatever world: of all replies since an opening without a bound, with those of these steps, none refuses a
/// message since the channel is full.
pub fn never_full<T: Drop>(world: &mut World<T>, steps: &mut VecDeque<Step<T>>) -> Run<T>
    ensures { IsNeverFullWith world.old (replies_in result.trace.items) }
{
    let mut account = Account::of(world);
    let run = world.run_steps(steps);
    account.add_steps(world, &run);
    account.says();
    run
}

/// Looks at whatever world has no call under way: where it says that nobody is woken and a message is held, no receive is pending.
pub fn none_is_left<T: Drop>(world: &World<T>) -> bool
    requires { IsQuiet world.now }
    ensures { result ≡ true → (at_rest world.now).waiting.receives ≡ [] }
{
    at_rest_nobody_is_left_asleep(world);
    world.woken() == 0 && world.messages() > 0
}

/// Says of whatever world whether no call is under way, by the number alone.
pub fn is_idle<T: Drop>(world: &World<T>) -> bool
    ensures { result ≡ true → IsQuiet world.now }
{
    numbers_are_those_at_rest(world);
    world.under_way() == 0
}

/// Looks at whatever world: what has left since a configuration that it came from, as the n-th, was held there or came as the n-th.
pub fn leaves_in_turn<T: Drop>(world: &World<T>)
    ensures { (s : Configuration T Waiter) (replies : List (Reply T)) (led : Led s replies world.now) (n : ℕ)
        → n < length (left_on led.way.run)
        → slice_get (left_on led.way.run) n ≡ slice_get (accepted_on led.way.run) n }
{
    by_steps_messages_leave_in_turn::<T>();
    world.keeps();
}

/// What is seen of a world, in the words of its view alone.
#[derive(Drop)]
pub struct Seen {
    /// How many messages it holds.
    pub messages: u64,
    /// How many of its operations and streams are pending.
    pub pending: usize,
    /// Whether it says that nobody who waits for it sleeps beside a closing.
    pub is_awake: bool,
}

/// Looks at whatever world: the number of its messages, its names, and its flag, and nothing of what it is made of.
pub fn look<T: Drop>(world: &World<T>) -> Seen
    ensures messages { result.messages ≡ (observation_of world.now).messages }
    ensures names { result.pending ≡ how_many stands_pending (names_in world.now) }
    ensures flag { result.is_awake ≡ true → is_closed world.now ≡ true → (line : WaitList) → NobodySleeps line world.now }
{
    who_sleeps_is_answered_for(world);
    Seen {
        messages: world.messages(),
        pending: world.pending(),
        is_awake: world.under_way() == 0,
    }
}
