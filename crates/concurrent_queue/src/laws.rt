//! Laws that hold of every run of a queue, whatever its steps are. Each is the contract of a function that does nothing;
//! [`run_queue_steps`](crate::run::run_queue_steps) makes such runs.
//!
//! # Extensions
//!
//! All of this module.
ghost use Rattle.concurrent_queue.specs.Accounts.{NothingIsLost};
ghost use Rattle.concurrent_queue.specs.Lone.{LoneCallsEnd};
ghost use Rattle.concurrent_queue.specs.Bounds.{NeverOverfull, ClosesOnce};
ghost use Rattle.concurrent_queue.specs.Whole.{NeverWholeAtOnce};
ghost use Rattle.concurrent_queue.specs.Bridge.{EventsLeadToOnePlace, MergesAreRuns, WalksAct};
ghost use Rattle.concurrent_queue.specs.BridgeRow.{FourEventsLead, TwoCallsMerge};
ghost use Rattle.concurrent_queue.specs.Tracked.{CallsKeepWhatCellsAsk};
ghost use Rattle.concurrent_queue.specs.Touched.{BlocksAreGivenBackAlone, EachTouchesItsOwn, PartiesAreAmongOthers, SlotsAreAsExpected, SlotsAreTouchedAlone, TouchedBlocksAreInUse};

use crate::cells::Cells;
use crate::seen::Trace;

/// What was removed, followed by what is held at the end, is what was held at the start, followed by what was accepted, in order: for every
/// message type and every list of steps. So no message is lost, doubled or reordered.
pub fn nothing_is_lost<T>()
    ensures in_order { NothingIsLost T }
{}

/// From any point of a run, a call replies within its next 64 steps if these are the next steps of all and no other call under way has done
/// anything yet. An unbounded queue must have had its first removal, or there must be no other call.
pub fn lone_calls_end<T>()
    ensures ends { LoneCallsEnd T }
{}

/// At any point of a run the queue holds no more messages than its capacity, also while a displacing push is under way, since no other push
/// takes the place that was made for it.
pub fn never_overfull<T>()
    ensures within { NeverOverfull T }
{}

/// Of all closes of a run at most one answers true: the one that found the queue open.
pub fn closes_once<T>()
    ensures once { ClosesOnce T }
{}

/// A push whose first step does everything is no run of a ring of two slots: one step changes one cell, a word or a slot, and a message in
/// the list lies in its slot or is with its call.
pub fn never_whole_at_once<T>()
    ensures stepwise { NeverWholeAtOnce T }
{}

/// The operations of any number of parties, merged in any order in which each answer is what the cells then held, are a run as
/// `run_queue_steps` makes it, with each reply that was given. A party only has to make calls that do what their machines do, and go by the
/// answers. So what holds of every run holds of calls on threads, whose operations are atomic and so have one total order.
///
/// At the end of the run each party has that call under way to which its own operations have led its machine, or none, and the cells with
/// these calls mean the run's queue. A party's operations lead to one state only, so a caller that knows the state of its call knows where
/// it is in the run, among the calls of all others.
pub fn merges_are_runs<T>()
    ensures runs { MergesAreRuns T }
    ensures one_place { EventsLeadToOnePlace T }
{}

/// The contract of a whole call, over cells of any kind, is what `merges_are_runs` asks of its party: the call has done the operations of
/// its machine, these and no others, and goes by their answers to its reply.
pub fn walks_act<T, C: Cells<T>>()
    ensures acts { WalksAct C.did }
{}

/// What a public call of a shared queue reports to its trace is its party's next operations. Nothing is known of the trace but the trait.
pub fn seen_walks_act<T, S: Trace<T>>()
    ensures acts { WalksAct S.did }
{}

/// Such merges exist: a push and a pop of one slot whose operations come in turn, as they would between two threads. Its first four
/// operations lead the push to where it is about to fill the slot, and the pop to where it looks again.
pub fn two_calls_merge<T>()
    ensures merge { TwoCallsMerge T }
    ensures lead { FourEventsLead T }
{}

/// Wherever the operations of any number of parties have led, in one order, each unfinished call is among those of all other parties, and
/// the cells with these calls mean a queue, as the laws of touched blocks and slots require. So a caller that knows the state of two calls
/// may use those laws of both.
pub fn parties_are_among_others<T>()
    ensures among { PartiesAreAmongOthers T }
{}

/// A call that is about to touch a block, by a word or slot of it or by retiring it, touches one that was made and is not spare. Where a
/// call is about to retire a block, no other is about to touch it. So a spare block may be blanked by several operations: nobody else is
/// there.
pub fn blocks_are_left_alone<T>()
    ensures in_use { TouchedBlocksAreInUse T }
    ensures given_back { BlocksAreGivenBackAlone T }
{}

/// No other call is about to touch a slot that a call is about to put into or take from, and the slot is as the call has to find it: empty
/// for a put, with a message for a take. This holds in each form of queue. So a slot needs no lock, and no call retries there, as long as
/// all calls have done what their machines do.
pub fn slots_are_touched_alone<T>()
    ensures alone { SlotsAreTouchedAlone T }
    ensures expected { SlotsAreAsExpected T }
{}

/// The same for the parties of a history, wherever their operations have led them: no other party is about to touch the slot that a party's
/// call is about to put into or take from, and the slot is as the call has to find it. A block that it is about to touch is in use, and no
/// other party is about to touch one that it is about to retire.
pub fn each_touches_its_own<T>()
    ensures own { EachTouchesItsOwn T }
{}

/// There are cells that require all that [`Cells`](crate::cells::Cells) lets them require, and every form of queue meets it: a call that
/// may make just the next operation of its machine, whatever it is answered, and makes it, is then where its machine goes by the answer. A
/// call that has made no step is at its first action.
pub fn calls_keep_what_cells_ask<T>()
    ensures asked { CallsKeepWhatCellsAsk T }
{}
