//! What one history of a queue's cells accounts for. Each law is the contract of a function that does nothing.

ghost use Rattle.queue_history.specs.Accounted.{CallsAddUp, HistoriesAreAccounted, RunsAreAccounted};
ghost use Rattle.queue_history.specs.AccountedRows.{PushBesidePop};
ghost use Rattle.queue_history.specs.Concluded.{NothingElse, PartiesConclude, ThreePartiesConclude};
ghost use Rattle.queue_history.specs.Told.{LooksAreOfOneHistory, ThreeAreTold};

use concurrent_queue::history::laws::histories_are_runs;

/// One history of a queue's cells accounts for each message. What has left, followed by what is held, is what was accepted, in order, each
/// once. Of what was accepted, the messages of one party are those of its pushes that were answered `Ok`, in the order in which it made
/// them, and perhaps that of a push under way. Of what has left, the messages that one party took are those that its calls answered, and
/// perhaps one that a call under way has taken.
///
/// It requires that no more messages were accepted than there are positions, 2^61 of them, as every run does. A queue of one slot counts
/// none.
pub fn histories_are_accounted<T>()
    ensures accounted { HistoriesAreAccounted T }
{
    histories_are_runs::<T>();
    concurrent_queue::laws::nothing_is_lost::<T>();
}

/// The same for a history that is known to be a run, as a look at a witness proves it.
pub fn runs_are_accounted<T>()
    ensures accounted { RunsAreAccounted T }
{
    concurrent_queue::laws::nothing_is_lost::<T>();
}

/// If as many messages were accepted as some parties' calls brought, nobody else's message was accepted. And if as many have left as their
/// calls took, nobody else has taken any.
pub fn nothing_else_was_accepted<T>()
    ensures nothing_else { NothingElse T }
{}

/// What parties conclude whose calls were all answered, in one history of a queue's cells: their messages are in what was accepted, those
/// of each in its order; likewise those that they took in what has left.
pub fn parties_conclude<T>()
    ensures concluded { PartiesConclude T }
{
    runs_are_accounted::<T>();
    nothing_else_was_accepted::<T>();
}

/// The same of two parties that pushed and one that popped. If nobody else popped, what this one popped, followed by what is held, is what was
/// accepted.
pub fn three_parties_conclude<T>()
    ensures concluded { ThreePartiesConclude T }
{
    runs_are_accounted::<T>();
    nothing_else_was_accepted::<T>();
}

/// Such histories exist: a party pushes into one slot while another pops. Their history accounts for one accepted message, which the other
/// took, and nothing else.
pub fn push_beside_pop_is_accounted<T>()
    ensures row { PushBesidePop T }
{
    concurrent_queue::laws::two_calls_merge::<T>();
    histories_are_accounted::<T>();
}

/// A party that makes one call more, when all earlier ones were answered, has brought and taken what it had, followed by what this call
/// brought and took. So the loop of a thread that pushes can carry what its witness says.
pub fn calls_add_up<T>()
    ensures added { CallsAddUp T }
{}

/// A look at a witness, into which others were joined, proves one history in which they have asked and were answered what it says, as what
/// they conclude requires it.
pub fn looks_are_of_one_history<T>()
    ensures told { LooksAreOfOneHistory T }
{}

/// What is concluded of a witness into which two others were joined, by what each of the three asked and was answered.
pub fn three_are_told<T>()
    ensures told { ThreeAreTold T }
{
    three_parties_conclude::<T>();
}
