//! Laws of every history of a channel's cells. Each is the contract of a function that does nothing.

ghost use Rattle.channel_history.specs.Accounts.{HistoriesAreAccounted};
ghost use Rattle.channel_history.specs.Cells.{ViewsKeepWhatCellsAsk};
ghost use Rattle.channel_history.specs.Handles.{HandlesAreCounted};
ghost use Rattle.channel_history.specs.InHand.{CallsHoldTheirOwn};
ghost use Rattle.channel_history.specs.Keeps.{DeedsDo, OpensWell, QueueOperationsKeep, SectionsKeep, CountOperationsKeep, BeginningsKeep, ArrivalsKeep, EndingsKeep, JoinsKeep, SplitsKeep};
ghost use Rattle.channel_history.specs.QueueCells.{QueueCallsMove, QueueCallsAreDeeds};
ghost use Rattle.channel_history.specs.Registrations.{PendingWaitRightly, RegistrationsAreLive};
ghost use Rattle.channel_history.specs.Row.{ASenderIsClonedAndDropped, OneSenderIsCounted};
ghost use Rattle.channel_history.specs.Sections.{SectionsAct};
ghost use Rattle.channel_history.specs.Says.{EachMomentIsSaid, HistoriesAreRuns, NobodyIsMissedAtRest};
ghost use Rattle.channel_history.specs.Steps.{PartiesGoOn};
ghost use Rattle.channel_history.specs.WholeCalls.{CallsGoByTheirViews};

/// What a party does next, step by step: it begins a call; its call makes an act, at once or after steps that touch nothing; and its call
/// ends, perhaps after such steps.
pub fn parties_go_on<T, W>()
    ensures goes_on { PartiesGoOn T W }
{}

/// A channel that was just opened has a history, in which nothing has happened; the first seat has the four wait queues, a sender and a
/// receiver.
pub fn a_new_channel_has_a_history<T, W>()
    ensures opens { OpensWell T W }
{}

/// What the machine of a party does next keeps the history, if it does to the channel what it answers: an operation on a cell of the queue,
/// a critical section on the wait queue that the party's seat has, an operation on a count. A count that was raised leaves a handle with
/// the seat, and a lowering takes one away; an insertion leaves a listener with it, and a removal takes one away. Each may be preceded by
/// steps of its call that touch nothing.
pub fn operations_keep_the_history<T, W>()
    ensures queue { QueueOperationsKeep T W }
    ensures list { SectionsKeep T W }
    ensures count { CountOperationsKeep T W }
{}

/// What a critical section on a wait queue does, and an operation on a count, on every channel that has this list there, or these counts.
pub fn deeds_do<T, W>()
    ensures deeds { DeedsDo T W }
{}

/// The beginning of a call, of a party that has none under way or of a new one, and the end of a call keep the history too. They touch
/// nothing.
pub fn calls_keep_the_history<T, W>()
    ensures begins { BeginningsKeep T W }
    ensures arrives { ArrivalsKeep T W }
    ensures ends { EndingsKeep T W }
{}

/// So does passing wait queues, handles and listeners from one seat to another: a list to the seat of a call before a critical section, and
/// to a seat of its own after it; a handle that was made to a seat of its own, and one that is dropped to that of the call; the listener of
/// an operation to that of its poll, and back.
pub fn what_lies_with_seats_passes<T, W>()
    ensures joins { JoinsKeep T W }
    ensures splits { SplitsKeep T W }
{}

/// Such histories exist with calls in them: a new party asks how many senders there are, and is told one.
pub fn one_sender_is_counted<T, W>()
    ensures counted { OneSenderIsCounted T W }
{}

/// Another one clones a sender, and drops it: there are two, and then one again.
pub fn a_sender_is_cloned_and_dropped<T, W>()
    ensures cloned { ASenderIsClonedAndDropped T W }
{}

/// At every moment such a history is a run of the channel, of which the whole headline holds, as long as positions last: of any length over
/// one slot, and otherwise of fewer than 2^61 events. Each party has been given what its view says, each reply as its row says, and is
/// where its view says.
pub fn histories_are_runs<T, W>()
    ensures runs { HistoriesAreRuns T W }
{}

/// Of this moment: what left the channel, followed by what it holds, is what came into it, in order. Beside an operation that is pending
/// and was not told there is no message, no free place and no closing for which no told one and no call under way is responsible. These
/// calls, with what they ask, and the lists are those of the views; the counts are those of the words, and what raises and lowerings made.
/// Once a party was given a reply that no message will come any more, none is there and none will come.
pub fn each_moment_is_said<T, W>()
    ensures said { EachMomentIsSaid T W }
{}

/// If no party has a call under way, no waiter is missed. A receive that waits in an open channel sees no more messages than receives that
/// were told, a send no more places than messages and sends that were told, a stream no message; and in a closed channel nobody waits. What
/// was accepted is what was taken, followed by what the cells hold, in order.
pub fn nobody_is_missed_at_rest<T, W>()
    ensures rest { NobodyIsMissedAtRest T W }
{}

/// Each message that came into the channel or left it is a party's, by its view. What a party has brought in and taken out is what its
/// calls that have ended brought in and took out, by what they asked and gave, in their order, and then what its call under way has brought
/// in or taken out by its marks. Each of these calls was answered as the row of its reply says, to what it asked; one that is pending left
/// its operation a listener.
pub fn histories_are_accounted<T, W>()
    ensures accounted { HistoriesAreAccounted T W }
{}

/// Each count is the number of seats' handles of its kind, so no count is 0 that a handle's drop lowers; and no raise was one too many for
/// the word.
pub fn handles_are_counted<T, W>()
    ensures counted { HandlesAreCounted T W }
{}

/// Each listener that a seat has is on its list: it was told, or it waits. Each that is on a list belongs to exactly one seat. So if no
/// call is under way, every pending operation was told, or waits in an open channel for a free place or a message that is not there.
pub fn registrations_are_live<T, W>()
    ensures live { RegistrationsAreLive T W }
    ensures rest { PendingWaitRightly T W }
{}

/// What the seat of a call has is what the call has in hand, at each stage: the listener that its operation lent it or that it inserted,
/// and at the end what an operation whose poll is pending keeps; the handle that it drops, until it lowers the count, and the one that it
/// makes.
pub fn calls_hold_their_own<T, W>()
    ensures holds { CallsHoldTheirOwn T W }
{}

/// Cells that go by the view of a seat, allow just what its call does next and do it, meet what `ChannelCells` requires of cells.
pub fn views_keep_what_cells_ask<T, W>()
    ensures keeps { ViewsKeepWhatCellsAsk T W }
{}

/// A call of the queue within a call of a channel with a bound: each of its operations moves the view on and is its party's next act, and
/// all of them, from its question to its answer, are one operation of the channel's call. An operation that a slot refused is none.
pub fn calls_of_the_queue_are_deeds<T, W, C>()
    ensures moves { QueueCallsMove T W }
    ensures whole { QueueCallsAreDeeds T W C }
{}

/// A critical section on a wait queue, and an operation on a count, that a call's view allows is its party's next act, and leaves with its
/// seat what the laws of such acts require.
pub fn sections_act<T, W>()
    ensures acts { SectionsAct T W }
{}

/// A call begins if its party has none under way; and one that was walked to its answer has ended with this answer, its party has asked and
/// was given it, and its seat has what the call leaves to its operation and what it made.
pub fn calls_go_by_their_views<T, W, X>()
    ensures calls { CallsGoByTheirViews T W X }
{}
