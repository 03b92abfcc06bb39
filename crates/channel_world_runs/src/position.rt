//! Messages that are accepted, and the positions of the queue that are left for them.

use crate::name_table::NameTable;
use crate::world_state::WorldState;
use channel_calls::mark::Mark;
use channel_calls::reply::Reply;
use channel_world_model::call::Call;
use futures::task::Poll;

/// How many messages a channel accepts at most: the positions of a queue end there.
pub(crate) const MOST_MESSAGES: u64 = (1 << 61) - 1;

ghost use Rattle.std.specs.Prelude.{◌≡◌};
ghost use Rattle.channel_steps.specs.Count.{brought_in};
ghost use Rattle.channel_world_runs.specs.Positions.{accepted_by};

/// How many messages a step with this mark brings in.
pub(crate) fn brought_in(mark: Mark) -> u64
    ensures { result ≡ brought_in mark }
{
    match mark {
        Mark::Append | Mark::Replace => 1,
        _ => 0,
    }
}

/// How many messages a call made alone has brought in, by its reply: none if it had none.
pub(crate) fn accepted_by<T>(brings: bool, reply: &Reply<T>) -> u64
    ensures { result ≡ accepted_by brings reply.now }
{
    match reply {
        Reply::TrySend(Ok(())) | Reply::ForceSend(Ok(_)) | Reply::SendPoll(Poll::Ready(Ok(())))
            if brings => 1,
        _ => 0,
    }
}

impl<T> NameTable<T> {
    ghost use Rattle.std.specs.Prelude.{◌≡◌};
    ghost use Rattle.channel_world_runs.specs.Positions.{brings};

    /// Whether the call may bring a message; a poll of an operation may bring that of an unfinished send.
    pub(crate) fn brings(&self, call: &Call<T>) -> bool
        ensures { result ≡ brings self.now call.now }
    {
        match call {
            Call::TrySend { .. } | Call::ForceSend { .. } => true,
            Call::Poll { op } => {
                matches!(self.operations.get(op.0), Some(entry) if entry.operation.has_message())
            }
            _ => false,
        }
    }
}

impl<T> WorldState<T> {
    ghost use Rattle.std.specs.Prelude.{IsTrue};
    ghost use Rattle.channel_world_runs.specs.WorldState.{HasPosition, HasPositions};

    /// Whether there are positions of the queue for so many more messages. With one place it needs none.
    pub fn has_positions(&self, count: usize) -> bool
        ensures enough { IsTrue result → HasPositions count self.now }
        ensures all { HasPositions count self.now → IsTrue result }
    {
        self.has_one_place || self.accepted.saturating_add(count as u64) <= MOST_MESSAGES
    }

    /// Whether there is a position of the queue for a message that the call may bring, beside those that the calls under way may yet bring.
    pub(crate) fn has_position(&self, call: &Call<T>) -> bool
        ensures enough { IsTrue result → HasPosition call.now self.now }
        ensures all { HasPosition call.now self.now → IsTrue result }
    {
        !self.name_table.brings(call) || self.has_positions(self.calls.len().saturating_add(1))
    }
}
