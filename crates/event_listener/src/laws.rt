//! Laws of what is done on events. Each is the contract of a function that does nothing.
//!
//! # Extensions
//!
//! All of this module.

ghost use Rattle.event_listener.specs.SectionRuns.{RunsAreCalls, RunsKeepTheOrder};

/// The critical sections on the list of one event, in the total order that its lock gives, are a run of [`List`](crate::list::List): calls
/// of it, one after another, as [`List::run`](crate::list::List::run) makes them, and the answer of each section is that of its calls.
pub fn sections_are_calls<T>()
    ensures { RunsAreCalls T }
{}

/// The critical sections on the list of one event have one total order, and each does what its calls of `List` do, with its own answer. So
/// after any of them the told listeners are the first in the order of listening, both lists keep that order, and no key is listed twice.
pub fn sections_keep_the_order<T>()
    ensures { RunsKeepTheOrder T }
{}
