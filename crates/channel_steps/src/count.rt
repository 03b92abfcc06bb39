//! How many messages a channel holds, counted by the marks of its steps.

ghost use Rattle.std.specs.Prelude.{◌≡◌};
ghost use Rattle.channel_steps.specs.Count.{counted};

use channel_calls::mark::Mark;

/// How many messages there are after a step with this mark.
pub fn counted(messages: u64, mark: Mark) -> u64
    ensures { result ≡ counted messages mark }
{
    match mark {
        Mark::Append => messages.saturating_add(1),
        Mark::Take | Mark::TakeDisplaced => messages.saturating_sub(1),
        _ => messages,
    }
}
