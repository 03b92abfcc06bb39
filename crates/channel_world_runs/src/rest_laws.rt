//! What a channel with no call under way shows, and what a call does there that is made alone. Each is the contract of a function that does
//! nothing.
ghost use Rattle.channel_world_runs.specs.rest.Lone.{LoneCallsAnswer, PollsAnswer, RefusalsAgree};
ghost use Rattle.channel_world_runs.specs.rest.Rest.{RestIsAWorld};

/// A channel run by names that has no call under way shows a state of the model in which nobody is left asleep, with the same names: each
/// that has a waiting listener is untold in its wait queue, in the same order, and each that has a told one is woken; the woken stand in
/// the order of their waking. It is so however the channel came about, as long as what every step keeps of those that wait is kept.
///
/// So from whatever calls were interleaved before, each call that is made alone from there on, and that the model doesn't refuse, does what
/// the model allows of it: the answer, the names that are woken, in order, and the state after it, which the channel then shows. For every
/// message type and all calls.
pub fn a_channel_at_rest_is_a_world<T>()
    ensures as_in_the_world { RestIsAWorld T }
{}

/// A call by names that is made alone on a channel with no call under way answers as the model may, and the names, the order of waking and
/// the channel after it are the model's state after it. What is refused there by names, the model refuses for the same reason. For every
/// message type and all calls.
pub fn a_call_made_alone_is_the_models<T>()
    ensures refused { RefusalsAgree T }
    ensures answered { LoneCallsAnswer T }
{}

/// A name that is pending and was woken, on a channel with no call under way, may be polled alone, as settling polls it: a stream also
/// while a live operation borrows its receiver, where the model refuses such a call. Its poll answers as the model may, and the names, the
/// order of waking and the channel after it are the model's state after it. For every message type.
pub fn a_poll_of_settling_is_the_models<T>()
    ensures { PollsAnswer T }
{}
