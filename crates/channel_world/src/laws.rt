//! Laws of a channel, in one place: of worlds, of runs of calls made one at a time, and of channels at rest. Each is the contract of a
//! function that does nothing; a proof that needs one calls it.

ghost use Rattle.channel_world.specs.Asleep.{AllAreAwake, ClosingIsAnswered, NoReceiveIsLeft, NoSendIsLeft, NoSendSleepsBesideAPlace, NoStreamIsLeft, NobodyIsLeftAtRest, NobodyIsLeftOnAClosed, NobodySleepsOnAClosed, NoReceiveSleepsBesideAMessage, NoStreamSleepsBesideAMessage, ReceivesAreAnswered, SendsAreAnswered, StreamsAreAnswered, ALineIsAwake, NobodySleepsWhereClosed, NoReceiveSleeps, NoSendSleeps, NoStreamSleeps};
ghost use Rattle.channel_world.specs.Carried.{HoldsWhatFits, LeadsFurther, LeadsOnInTurn, StaysWhereItIs};
ghost use Rattle.channel_world.specs.Counts.{AreByDrops, CountsAtRest, CountsLive, OpenHasBoth};
ghost use Rattle.channel_world.specs.InTurn.{HasItsAccounts, LaterLeavesLater, LeaveInTurn, OfOnePartyInTurn, RefusedIsKeptOut, StandsAsItsState};
ghost use Rattle.channel_world.specs.BlocksByNames.{PollsByName};
ghost use Rattle.channel_world.specs.MergesByNames.{MergesByNamesAreRuns};
ghost use Rattle.channel_world.specs.MergesByNamesRow.{TwoClonesByNames};
ghost use Rattle.channel_world.specs.NamedMerges.{NamedMergesAreRuns, TwoClonesAreNamed};
ghost use Rattle.channel_world.specs.Numbers.{CallsAtRest, MessagesAtRest, PendingAtRest, WokenAtRest};
ghost use Rattle.channel_world_runs.specs.Owed.{Owed};
ghost use Rattle.channel_world.specs.Settled.{SettlingIsShort};
ghost use Rattle.channel_world.specs.Since.{ClosesOnce, ClosesOnceFromRest, ClosesOnceToHere, ClosesWhatIsLeft, IsNeverFull, IsNeverFullFromRest, IsNeverFullSince, IsNeverFullToHere, NoneClosesAgain};
ghost use Rattle.channel_world.specs.View.{observation_of};

pub use crate::recorded::laws::{a_record_leaves_nobody_asleep, a_record_loses_nothing};
use crate::world::World;
pub use channel_world_model::laws::{
    a_refused_message_is_not_held, an_unbounded_channel_is_never_full, at_most_one_closes,
    counts_are_handles, length_is_within, messages_leave_in_turn, nobody_is_left_asleep,
    nothing_is_lost, settling_ends, upgrades_while_open,
};
use channel_world_model::name::Waiter;
pub use channel_world_runs::rest_laws::{
    a_call_made_alone_is_the_models, a_channel_at_rest_is_a_world, a_poll_of_settling_is_the_models,
};
use event_listener::wakes::Wakes;

/// Runs of steps and lists of calls may follow each other in any order, from whatever world: what left the channel in all of them, followed
/// by what it holds in the end, is what it held at first followed by what came in all of them, in order. For what leads on from a first
/// world to a second, and then from the second to a third, leads on from the first to the third, and the replies on the way are those of
/// the one followed by those of the other.
pub fn what_is_done_in_turn_leads_on<T>()
    ensures nothing { StaysWhereItIs T }
    ensures in_turn { LeadsOnInTurn T }
    ensures further { LeadsFurther T }
{}

/// A world with a bound never holds more messages than its capacity: after any runs of steps and lists of calls, with calls under way or
/// not, also while a displacing send is under way.
pub fn a_world_holds_what_fits<T>()
    ensures within { HoldsWhatFits T }
{}

/// What the counts of senders and receivers count, in whatever world, after any runs of steps and lists of calls.
///
/// A count is the number of strong handles of its side that live, with those whose drops are under way and have not lowered it yet. On an
/// open channel it is one at least, or the drop of the last handle is about to close the channel. The marks of these calls say which they
/// are: a drop is yet to lower its count as long as it has no mark, and one that is closing has lowered it from one. A clone or an upgrade
/// raises a count in the step that ends it, with which its handle lives. So with no call under way a count is the number of live strong
/// handles of its side, and while the channel is open each side has one.
pub fn counts_are_live_handles<T: Drop>(world: &World<T>)
    ensures counts { CountsLive world.now }
    ensures while_open { OpenHasBoth world.now }
    ensures drops { AreByDrops world.now }
    ensures at_rest { CountsAtRest world.now }
{
    world.keeps();
}

/// What a world's numbers count if no call is under way, that is if `under_way()` is 0: `messages()` is the length of the list of its
/// state; `pending()` is the number of operations and streams in its four wait queues, told or not, in which the bound of settling is
/// stated; and `woken()` is the number of those of them that were woken, the length of their order. So if `pending()` answered w, `settle`
/// makes at most w(w+1)/2 polls.
pub fn numbers_are_those_at_rest<T: Drop>(world: &World<T>)
    ensures calls { CallsAtRest world.now }
    ensures messages { MessagesAtRest world.now }
    ensures pending { PendingAtRest world.now }
    ensures woken { WokenAtRest world.now }
{
    a_channel_at_rest_is_a_world::<T>();
    world.keeps_names();
}

/// If k are woken, and s sends, r receives and n streams are pending, settling makes at most k + s(n + 2) + 2r + n polls, whatever growths
/// are refused. For only a send whose message is accepted wakes streams, and each leaves once. If many streams are pending and few sends,
/// that is less than w(w+1)/2.
pub fn settling_is_short<T>()
    ensures short { SettlingIsShort T }
{}

/// In the state that a world is with no call under way nobody is left asleep, by its four wait queues and those that were woken. If nobody
/// is woken no receive is pending beside a message, and no send on an open channel in which one more message fits; no stream is pending
/// beside a message, and nobody on a closed channel, woken or not.
pub fn at_rest_nobody_is_left_asleep<T: Drop>(world: &World<T>)
    ensures state { NobodyIsLeftAtRest world.now }
    ensures receives { NoReceiveIsLeft world.now }
    ensures sends { NoSendIsLeft world.now }
    ensures streams { NoStreamIsLeft world.now }
    ensures closing { NobodyIsLeftOnAClosed world.now }
{
    a_channel_at_rest_is_a_world::<T>();
    world.keeps_names();
}

/// For everyone that sleeps, pending and not woken since its last poll, somebody is responsible, in whatever world, calls under way or not.
/// By kind, as the headline says of each moment: for a receive woken receives, and sending and receiving calls; for a send woken sends,
/// sending calls, and places that calls have freed and not announced yet; for a stream a sending call; and for anybody on a closed channel
/// a call that has closed it. `calls_by_kind()` tells how many of the calls are of each kind, `woken_of(line)` how many of a wait queue are
/// woken, and `taken()` how many messages the calls under way have taken. The places that they have freed are among these; which of them
/// are not announced yet no function tells. So numbers decide whether anybody of a wait queue may sleep, calls under way or not.
///
/// Of all calls and all woken ones, which is less, the same in the numbers of `under_way()`, `woken()` and `messages()`, with `capacity()`
/// and `is_closed()`. If a receive sleeps there are no more messages than woken ones and calls under way. If a send sleeps on an open
/// channel this has a bound, and no more places than messages, woken ones, calls under way, and places that such calls have freed and not
/// announced yet. If a stream sleeps beside a message a call is under way, and likewise if anybody sleeps on a closed channel.
///
/// So if `under_way()` and `woken()` are 0 no receive sleeps beside a message, and no send on an open channel in which one more message
/// fits. If `under_way()` is 0 no stream sleeps beside a message, and nobody on a closed channel. Nobody at all sleeps if `pending()` is
/// `woken()`.
pub fn who_sleeps_is_answered_for<T: Drop>(world: &World<T>)
    ensures owed { Owed (observation_of world.now) }
    ensures receives { ReceivesAreAnswered world.now }
    ensures sends { SendsAreAnswered world.now }
    ensures streams { StreamsAreAnswered world.now }
    ensures closing { ClosingIsAnswered world.now }
    ensures receive_beside { NoReceiveSleepsBesideAMessage world.now }
    ensures stream_beside { NoStreamSleepsBesideAMessage world.now }
    ensures beside_a_place { NoSendSleepsBesideAPlace world.now }
    ensures on_a_closed { NobodySleepsOnAClosed world.now }
    ensures awake { AllAreAwake world.now }
    ensures receive_by_kind { NoReceiveSleeps world.now }
    ensures send_by_kind { NoSendSleeps world.now }
    ensures stream_by_kind { NoStreamSleeps world.now }
    ensures closing_by_kind { NobodySleepsWhereClosed world.now }
    ensures line_by_line { ALineIsAwake world.now }
{
    world.keeps_names();
}

/// Of all replies since the opening of a world, by runs of steps, lists of calls and settlings in turn, at most one says that it closed the
/// channel.
///
/// From whatever configuration on there are at most as many as there are calls under way that have closed it and not answered, and one more
/// while it is open. So from a world with no call under way there is at most one; and none, if it is closed.
pub fn the_channel_is_closed_once<T: Drop>(world: &World<T>)
    ensures since_opening { ClosesOnce world.now }
    ensures to_here { ClosesOnceToHere world.now }
    ensures left { ClosesWhatIsLeft world.now }
    ensures from_rest { ClosesOnceFromRest world.now }
    ensures again { NoneClosesAgain world.now }
{}

/// Of all replies since the opening of a world without a bound, by runs of steps, lists of calls and settlings in turn, none says that the
/// channel is full. The same holds from whatever configuration without a bound in which no call under way has seen a full one; and from
/// whatever world without a bound that has no call under way.
pub fn an_unbounded_world_is_never_full<T: Drop>(world: &World<T>)
    ensures since_opening { IsNeverFull world.now }
    ensures to_here { IsNeverFullToHere world.now }
    ensures since { IsNeverFullSince world.now }
    ensures from_rest { IsNeverFullFromRest world.now }
{}

/// On any way from one configuration to another, by runs of steps, lists of calls and settlings in turn, what leaves as the n-th is what
/// was held or came as the n-th. What came is given in the order of the steps, each message with the party whose call brought it, and a
/// party makes one call after another. So of two messages that were accepted in successive calls of one party the later never leaves first:
/// it has left only if the other one has, and as a later one. The ways are those of `leads`.
pub fn by_steps_messages_leave_in_turn<T>()
    ensures in_turn { LeaveInTurn T }
    ensures later { LaterLeavesLater T }
    ensures of_one_party { OfOnePartyInTurn T }
{}

/// On any such way a call that refuses its message, or goes on waiting with it, has let nothing in: it has made no mark. The message is
/// returned, or stays with its operation.
pub fn by_steps_a_refused_message_is_not_held<T>()
    ensures kept_out { RefusedIsKeptOut T }
{}

/// With no call under way each configuration in which the world stands is the state that the world is: it has the same messages, capacity
/// and counts, and is closed or not. So what left since whatever configuration it came from, followed by the messages of that state, is
/// what the configuration held followed by what came, message by message.
pub fn a_configuration_at_rest_is_its_state<T: Drop>(world: &World<T>)
    ensures state { StandsAsItsState world.now }
    ensures accounts { HasItsAccounts world.now }
{}

/// What any number of parties do to a new channel is a run by names, if their calls are calls by names. The parties and the cells have to
/// keep the headline of a merge (`channel_steps::laws::merges_keep_the_headline`). Each begin has to be that of a call which nothing
/// refuses, and which asks what this call asks. Its name state is the one that the steps before it have made of that of an opening. So the
/// task of a poll is the name that it is for. A poll of a send or a receive may ask its listener first, as that of a call that blocks does.
///
/// Then each step is one by names, which none of the seven reasons refuses. The name state goes on as a world's does: a party that begins
/// is at work, a name that is woken comes last in the order of waking, and a call that answers has written back to its names. So it is at
/// each moment, the first one too: beside one that is pending under a name and was not woken there is no message, free place or closing
/// unless a woken one or a call under way is responsible. All this is said of the moments and the steps of which the headline of the merge
/// speaks.
///
/// Such a merge exists: the first sender is cloned twice at once.
pub fn merges_by_names_are_runs<T, S: Wakes<Waiter>>()
    ensures runs { MergesByNamesAreRuns T S S.wakes }
    ensures row { TwoClonesByNames T S S.wakes }
{}

/// The same holds if the tasks are of any kind, as the wakers of threads, of which many calls may have one. Each call of a merge is given a
/// name beside its task, and with the names alone the merge keeps the headline (`channel_steps::laws::named_merges_keep_the_headline`). If
/// with them its begins are those of calls by names, it is a run by names, and all that `merges_by_names_are_runs` says is said of it. Each
/// party was given what it was given with its tasks.
///
/// Such a merge exists: the first sender is cloned twice at once.
pub fn named_merges_are_runs_by_names<T, W, S: Wakes<W>>()
    ensures runs { NamedMergesAreRuns T W S S.wakes }
    ensures row { TwoClonesAreNamed T W S S.wakes }
{}

/// The polls of a call that blocks, as `channel_steps::laws::blocking_makes_calls` gives them, are those of an operation by name, if their
/// task is the name. Its first poll is that of an operation that is not pending yet. Each later one is that of an operation that is pending
/// with the listener that the poll before it left, but asks this listener first. And a poll that is refused its task is so by name. So
/// `merges_by_names_are_runs` speaks of calls that block as well, except of one that was refused its task before it ever slept: its refused
/// poll is made while the first one stays, which no call by name does.
pub fn blocking_polls_by_name<T>()
    ensures polls { PollsByName T }
{}
