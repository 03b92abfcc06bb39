//! Laws of every history of a queue's cells. Each is the contract of a function that does nothing.

ghost use Rattle.concurrent_queue.specs.history.Runs.{HistoriesAreRuns, HistoriesHaveLed, HistoriesTouchTheirOwn};

/// A history of a queue's cells, in which each party's part is what the queue's machine does, is a run of the queue as `run_queue_steps`
/// makes it, with each reply that a party has got. So what holds of every run holds at every moment of threads whose table is under the
/// rule; `look` says of any moment that there is such a history.
pub fn histories_are_runs<T>()
    ensures runs { HistoriesAreRuns T }
{
    crate::laws::merges_are_runs::<T>();
}

/// Each party's call is where its view says; the laws of what calls are about to touch require this.
pub fn histories_have_led<T>()
    ensures led { HistoriesHaveLed T }
{}

/// What a party's call is about to touch is its own at every moment: no other party is about to touch its slot, and the slot is as the call
/// has to find it. So a slot could do without a guard.
pub fn histories_touch_their_own<T>()
    ensures own { HistoriesTouchTheirOwn T }
{
    crate::laws::each_touches_its_own::<T>();
}
