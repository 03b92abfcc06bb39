//! Where woken tasks go. A list passes tasks to a sink in the middle of a call, for an event under the event's lock, so a sink must not use
//! that event.
//!
//! # Extensions
//!
//! All of this module: `event-listener` wakes by itself.

/// A sink for the tasks of listeners that are told.
///
/// A list passes it each task when its listener is told, in that order. What a task is and what waking it does is the sink's matter: one
/// that keeps names appends them, one that unparks threads unparks.
pub trait Wakes<W> {
    /// The sink after a call, given what it was before and the task.
    ///
    /// A sink that collects says here that the task is now its last one; one that wakes at once may say nothing.
    ghost wakes: { Self → W → Self → Type 0 };

    /// Takes the task of one listener that was just told.
    fn wake(&mut self, task: W)
        ensures { wakes self.old task self.new };
}
