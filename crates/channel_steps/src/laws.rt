//! Laws of every run of a channel's steps. Each is the contract of a function that does nothing. Begins and steps of parties, one after
//! another, are such a run: [`begin`](crate::party::begin) and [`step_at`](crate::party::step_at) promise each.
//!
//! A law of *every moment* holds wherever a run from a channel that was just opened has come, whatever its steps are. The invariant behind
//! it is kept by every run, from whatever configuration it holds of. In these laws a poll *has a listener in hand* while it is under way
//! with the listener of its operation.

ghost use Rattle.channel_steps.specs.every_run.Bridge.{InCells, MergesAreRuns, PartiesStandWhereTheyWent, StandsAct, WalksAct};
ghost use Rattle.channel_steps.specs.every_run.BridgeBlocks.{BlocksInCalls, Rested};
ghost use Rattle.channel_steps.specs.every_run.BridgeHeadline.{MergesKeepTheHeadline};
ghost use Rattle.channel_steps.specs.every_run.BridgeRow.{TwoClonesMerge};
ghost use Rattle.channel_steps.specs.every_run.Named.{MergesHaveAnyTasks, NamedMergesKeepTheHeadline, TasksMayTellMore, WalksHaveAnyTasks};
ghost use Rattle.channel_steps.specs.every_run.NamedRow.{OneTaskHasTwoNames, TwoWaitsMerge};
ghost use Rattle.channel_calls.specs.Blocks.{Asked, Slept};
ghost use Rattle.channel_calls.specs.Deeds.{Done};
ghost use Rattle.channel_steps.specs.every_run.Bounds.{BoundsStay, EachRunClosesOnce, NeverOverfull, EachUnboundedRunIsNeverFull};
ghost use Rattle.channel_steps.specs.every_run.Closed.{ClosingIsForGood};
ghost use Rattle.channel_steps.specs.every_run.Closings.{ClosingStaysOwed, EachRunOwesTheClosing};
ghost use Rattle.channel_steps.specs.every_run.Ends.{EndIsForGood, EndIsKnown, NothingComesAfterTheEnd};
ghost use Rattle.channel_steps.specs.every_run.Notices.{TellingsAlwaysFit, TellingsStayFit};
ghost use Rattle.channel_steps.specs.every_run.Receives.{NoReceiveIsForgotten, ReceivesStayOwed};
ghost use Rattle.channel_steps.specs.every_run.Sends.{NoSendIsForgotten, SendsStayOwed};
ghost use Rattle.channel_steps.specs.every_run.Streams.{NoStreamIsForgotten, StreamsStayOwed};

use channel_calls::cells::ChannelCells;
use channel_calls::sleeps::Sleeps;
use concurrent_queue::cells::Cells;
use event_listener::wakes::Wakes;

/// A closed channel stays closed in every run, whatever calls are under way already: none closes it again or replaces a message, and no
/// message comes in but one that was on its way, from the displacing send that had made room for it. So it never holds more messages than
/// it held, with the one on its way.
pub fn a_closed_channel_stays_closed<T, W>()
    ensures closed { ClosingIsForGood T W }
{}

/// A channel that is closed, with nothing there and nothing on its way, stays so in every run, whatever calls are under way already: no
/// step brings a message, takes one or closes.
pub fn what_is_over_stays_over<T, W>()
    ensures stays { EndIsForGood T W }
{}

/// Once a receive answered that the channel is closed and empty, or a stream that it has ended, no receive that is begun later gives a
/// message, at whatever later moment, and no send returns a displaced one: for every message type, in every run of whatever calls. A party
/// that has no call under way at that later moment begins all its calls after it.
///
/// The run may start in the midst of calls, if what they have found so far is true; it is true in a channel that was just opened, and stays
/// so.
pub fn nothing_comes_after_the_end<T, W>()
    ensures known { EndIsKnown T W }
    ensures nothing { NothingComesAfterTheEnd T W }
{}

/// Of every moment: if a stream waits there is no message, or a sending call under way has brought its message and has not told the streams
/// yet, or a poll under way has the stream's listener in hand, and tries again or leaves the list. So if no call has it in hand, as after a
/// poll that ended pending, a message beside it means such a sending call.
pub fn no_stream_is_forgotten<T, W>()
    ensures kept { StreamsStayOwed T W }
    ensures owed { NoStreamIsForgotten T W }
{}

/// Of every moment: if the channel is closed, then for each send, receive, stream or wait for the closing that waits on a list, the call
/// that closed is under way and has that list to tell, or a poll under way has the listener in hand, and tries again and has found no cause
/// to wait, or leaves the list. So if no call has it in hand, as after a poll that ended pending, the call that closed is about to tell it.
pub fn nobody_misses_the_closing<T, W>()
    ensures kept { ClosingStaysOwed T W }
    ensures owed { EachRunOwesTheClosing T W }
{}

/// Of every moment: while the channel is open, each send and each receive that is told was told by an additional notification; each stream
/// that is told was told by the default, as all of its list at once are; and no wait for the closing is told. If a send or a receive was
/// told by the default the channel is closed, and for each that still waits on that list a poll under way has the listener in hand, and
/// tries again and has found no cause to wait, or leaves the list.
pub fn each_list_is_told_its_way<T, W>()
    ensures kept { TellingsStayFit T W }
    ensures fit { TellingsAlwaysFit T W }
{}

/// Of every moment: if a receive waits there are no more messages than receives that are told and calls under way that are to tell one more
/// or try as one. Such a call is a sending one that has brought its message and has not told a receive yet, or a poll of a receive that
/// tries with no listener in hand. Or a poll under way has the listener of the waiting one in hand, and tries again or leaves the list. So
/// if no call has it in hand, as after a poll that ended pending, each message beside it has another receive that comes for it.
pub fn no_receive_is_forgotten<T, W>()
    ensures kept { ReceivesStayOwed T W }
    ensures owed { NoReceiveIsForgotten T W }
{}

/// Of every moment: if a send waits the channel is closed, or it has a bound and no more places than messages, sends that are told, and
/// calls under way that are to tell one more, fill a place or try as one. Such a call is a receiving one that has taken a message and has
/// not told a send yet, a displacing send that made room and has not brought its message, or a poll of a send that tries with no listener
/// in hand. Or a poll under way has the listener of the waiting one in hand, and tries again or leaves the list. So if no call has it in
/// hand, as after a poll that ended pending, each free place beside it on an open channel has another send that comes for it, and without a
/// bound no such send waits.
pub fn no_send_is_forgotten<T, W>()
    ensures kept { SendsStayOwed T W }
    ensures owed { NoSendIsForgotten T W }
{}

/// Of every moment: the channel holds no more messages than its capacity, also while a displacing send is under way, since no other send
/// takes the place that was made for it. And in a run over a channel without a bound no send answers that it is full, and none displaces a
/// message.
pub fn no_more_than_fit<T, W>()
    ensures kept { BoundsStay T W }
    ensures within { NeverOverfull T W }
    ensures never_full { EachUnboundedRunIsNeverFull T W }
{}

/// Of all closes of a run from a channel that was just opened, whatever its steps are, one at most answers that it closed the channel.
pub fn one_close_at_most<T, W>()
    ensures once { EachRunClosesOnce T W }
{}

/// What any number of parties do to a new channel, merged in any order in which each answer is what the cells then held, is a run, with all
/// that was answered and left: of any length over one slot, and otherwise of fewer than 2^61 events. An event is one operation on a cell of
/// the queue, one critical section on a wait queue or one operation on a count. A party only has to make calls that do what their machines
/// do next, and go by the answers. So what holds of every run holds of calls on threads, whose operations are atomic and whose critical
/// sections are under one lock each, and so have one total order.
///
/// At the end of the run each party's call is where its own events have led its machine. A machine may make a step in several ways;
/// whichever way each party went, there is such a run that ends there. So a caller that knows the state of its call knows where it is in
/// the run, among the calls of all others.
pub fn merges_are_runs<T, W, S: Wakes<W>>()
    ensures runs { MergesAreRuns T W S S.wakes }
    ensures stand { PartiesStandWhereTheyWent T W S S.wakes }
{}

/// The headline holds of what any number of parties do to a new channel, if each call does what its machine does and goes by the answers,
/// and all their operations come in one order in which each answer is what the cells then held: any number over one slot, otherwise fewer
/// than 2^61.
///
/// Of each moment, the first one too: what left the channel, followed by what it holds, is what came into it, in order, and it is no more
/// than fit. Beside an operation that is pending and was not told there is no message, no free place and no closing for which no told one
/// and no call under way is responsible. Each message lies in the slot that the words of the queue name for it alone, or is with the call
/// that is yet to put it there. If the others are quiet no call has more steps left than `most_left` of `channel_steps/specs/Left`.
///
/// Of each step: the machine of its call makes it. It does to the plain channel what its mark says, touches one place at most, and wakes
/// the waiters that its notification finds. If it ends its call, the row of the reply holds of the marks and moments of that call. If the
/// others are quiet it ends its call or leaves it fewer steps. What is closed stays closed; once a reply says the end, nothing comes or
/// leaves, and a call that begins then gives no message.
///
/// Each party was given what these replies give it. `specs/BridgeHeadline` has this sentence by sentence. Of names a law of `channel_world`
/// speaks, `merges_by_names_are_runs`.
pub fn merges_keep_the_headline<T, W, S: Wakes<W>>()
    ensures headline { MergesKeepTheHeadline T W S S.wakes }
{}

/// The contract of a whole call, over cells of any kind, is what `merges_are_runs` asks of its party: the call has done what its machine
/// does, this and nothing else, and goes by the answers to its reply. The cells only have to have cells of a queue in them, and what they
/// do to their queue by a step has to be a walk of the queue's call over these, of one operation or more.
pub fn walks_act<T, W, Q: Cells<T>, C: ChannelCells<T, W>, S: Wakes<W>>()
    ensures acts { (view : C → Q) → WalksAct (Done C.did S.wakes) (InCells Q.did view) }
{}

/// The contract of a call that blocks its thread, over cells of any kind, says that it made whole calls one after another: some that don't
/// wait, a first poll, and polls that ask their listener first, each but the last of which waits and leaves its listener to the next.
/// Before a critical section on a wait queue it may have asked for a task and slept, which is nothing to the channel. So each of these
/// calls is what `merges_are_runs` asks of its party, as `walks_act` says of calls whose sections come so, and the reply of the last one is
/// that of the call that blocks.
///
/// If it was refused its task before it ever slept, its first poll stays for ever where it was to register, and a poll that is refused its
/// task is made beside it, as by another party: this is a run, too.
pub fn blocking_makes_calls<T, W, Q: Cells<T>, C: Sleeps<T, W>, S: Wakes<W>>()
    ensures calls { BlocksInCalls (Done C.did S.wakes) (Asked C.parked) (Slept C.slept) }
    ensures acts { (view : C → Q) → WalksAct (Rested (Done C.did S.wakes) (Asked C.parked) (Slept C.slept)) (InCells Q.did view) }
    ensures stands { (view : C → Q) → StandsAct (Rested (Done C.did S.wakes) (Asked C.parked) (Slept C.slept)) (InCells Q.did view) }
{}

/// Such merges exist: two clones of a sender that race for its count, as they would between two threads.
pub fn two_clones_merge<T, W, S: Wakes<W>>()
    ensures merge { TwoClonesMerge T W S S.wakes }
{}

/// Whatever is put for the tasks of calls, they do what they did. A call that is walked to its answer is walked to the same one, and leaves
/// the same to its operation, with others put for its own task and for those in the answers of its operations. What parties do to a new
/// channel, all in one order, they do so too, with the same given to each. For no step of a machine and no cell looks at a task.
pub fn tasks_may_be_others<T, W, V, C: ChannelCells<T, W>, S: Wakes<W>>()
    ensures walks { (put : W → V) → WalksHaveAnyTasks {T = T} put (Done C.did S.wakes) }
    ensures merges { (put : W → V) → MergesHaveAnyTasks put T S S.wakes }
{}

/// Tasks that were taken for one may be told apart. In a merge each call may be given any task for which its own was put, and there is such
/// a merge, in the same order, with the same given to each party. Which of these a notification wakes follows from the calls alone, since
/// no machine and no cell looks at a task. So names may stand beside tasks, chosen anew for each call, though all calls of a thread have
/// one waker.
pub fn tasks_may_tell_more<T, W, V, S: Wakes<V>>()
    ensures behind { (put : W → V) → TasksMayTellMore put T S S.wakes }
{}

/// The headline holds with names in the place of tasks, whatever the tasks are and whichever names are chosen, one for each call. What any
/// number of parties do to a new channel is what they do if each task has the name beside it that its call was given; and with the names
/// alone it keeps the headline, with the same given to each party. The tasks may be the wakers of threads.
pub fn named_merges_keep_the_headline<T, W, V, S: Wakes<W>>()
    ensures headline { NamedMergesKeepTheHeadline T W V S S.wakes }
{}

/// Such merges exist: two wait for the closing with one task, and a closing wakes this task twice. With a name beside each, it wakes the
/// one, and then the other.
pub fn one_task_has_two_names<T, W, V, S: Wakes<W>>()
    ensures merge { TwoWaitsMerge T W S S.wakes }
    ensures named { OneTaskHasTwoNames T W V S S.wakes }
{}
