//! Laws that hold of all runs of calls, one at a time, from a channel that was just opened. Each is the contract of a function that does
//! nothing; what `run_calls` does is such a run.
ghost use Rattle.channel_world_model.specs.Bounds.{AtMostOneCloses, LengthIsWithin, UnboundedIsNeverFull};
ghost use Rattle.channel_world_model.specs.Handles.{CountsAreHandles, UpgradesWhileOpen};
ghost use Rattle.channel_world_model.specs.Laws.{NothingIsLost, NobodyIsLeftAsleep};
ghost use Rattle.channel_world_model.specs.Leaving.{LeavesInTurn, RefusedIsNotHeld};
ghost use Rattle.channel_world_model.specs.Settling.{SettlingEnds, SettlingRests};

/// What was received or displaced, followed by what is held, is what was accepted, in order: for every message type and every list of
/// calls, however it ended. So no message is lost, doubled or reordered.
pub fn nothing_is_lost<T>()
    ensures in_order { NothingIsLost T }
{}

/// With no call under way, nobody stays pending and unwoken beside what lets them go on: beside an unwoken receive there are no more
/// messages than woken pending receives; beside an unwoken send, while the channel is open, no more free places than woken pending sends;
/// beside an unwoken stream no message; and everyone that is unwoken waits on an open channel.
pub fn nobody_is_left_asleep<T>()
    ensures awake { NobodyIsLeftAsleep T }
{}

/// If w operations and streams are pending settling makes at most w(w+1)/2 polls, whatever growths are refused; so it ends. Then nobody is
/// woken and pending, and nobody is pending that a message, a free place or a closing lets go on.
pub fn settling_ends<T>()
    ensures ends { SettlingEnds T }
    ensures rests { SettlingRests T }
{}

/// A count is the number of live strong handles of its side; and while the channel is open, each side has one at least.
pub fn counts_are_handles<T>()
    ensures counted { CountsAreHandles T }
{}

/// An upgrade gives a handle if the channel is open, and none if it is closed; on an open one on which more than half of `usize::MAX`
/// handles of its side live, it says that.
pub fn upgrades_while_open<T>()
    ensures as_open { UpgradesWhileOpen T }
{}

/// A bounded channel never holds more messages than its capacity.
pub fn length_is_within<T>()
    ensures within { LengthIsWithin T }
{}

/// No call answers that an unbounded channel is full: none is refused for that, none displaces a message, and no question says so.
pub fn an_unbounded_channel_is_never_full<T>()
    ensures never_full { UnboundedIsNeverFull T }
{}

/// At most one close answers that it closed the channel.
pub fn at_most_one_closes<T>()
    ensures once { AtMostOneCloses T }
{}

/// Of two messages the one that was accepted later never leaves first: the n-th to leave is the n-th that was accepted.
pub fn messages_leave_in_turn<T>()
    ensures in_turn { LeavesInTurn T }
{}

/// A refused send's message is not in the channel: the channel is as it was, and the message is returned, or stays with the send's
/// operation.
pub fn a_refused_message_is_not_held<T>()
    ensures not_held { RefusedIsNotHeld T }
{}
