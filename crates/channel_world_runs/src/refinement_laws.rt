//! Two laws of a channel whose calls are made alone, one after another. Each is the contract of a function that does nothing.
ghost use Rattle.channel_world_runs.specs.refinement.Opening.{OpeningIsOver};
ghost use Rattle.channel_world_runs.specs.refinement.Over.{CallsAreOver};

/// A channel that was just opened shows the model's start: it holds nothing, is open, has one handle of each kind, and nobody waits. For
/// every message type and every capacity.
pub fn opening_is_over<T>()
    ensures as_in_the_world { OpeningIsOver T }
{}

/// Whatever a call of a channel may do alone, from a channel that shows a state of the model in which nobody is left asleep, is what the
/// model allows of that call, if it doesn't refuse it: the answer, the names that are woken, in order, and the state after it, which the
/// channel then shows. It also says what becomes of the names, and which are told from then on. For every message type and all calls.
pub fn calls_are_over<T>()
    ensures as_in_the_world { CallsAreOver T }
{}
