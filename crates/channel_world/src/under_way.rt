//! The calls under way on a world, by what they are to waiting operations.

ghost use Rattle.std.specs.Prelude.{◌≡◌};
ghost use Rattle.channel_world_runs.specs.Owed.{is_sending, is_receiving};

use super::world::World;
use channel_world_runs::activity::Role;
use channel_world_runs::calls::CallUnderWay;

/// How many calls are under way, by what they are to waiting operations. One that has closed the channel is neither sending nor receiving,
/// and so are questions, clones and drops.
#[derive(Clone, Copy, Debug, PartialEq, Eq)]
pub struct UnderWay {
    /// Sends, displacing sends, and polls of a send and giving it up.
    pub sending: usize,
    /// Receives of one message or of several, polls of a stream, and polls of a receive and giving it up.
    pub receiving: usize,
    /// Those that have closed the channel.
    pub closers: usize,
}

/// Whether it is sending.
fn is_sending<T>(call: &CallUnderWay<T>) -> bool
    ensures { result ≡ is_sending call.now.activity.role }
{
    matches!(call.activity.role, Role::Sending)
}

/// Whether it is receiving.
fn is_receiving<T>(call: &CallUnderWay<T>) -> bool
    ensures { result ≡ is_receiving call.now.activity.role }
{
    matches!(call.activity.role, Role::Receiving)
}

impl<T: Drop> World<T> {
    ghost use Rattle.std.specs.Prelude.{◌≡◌};
    ghost use Rattle.channel_world.specs.View.{observation_of};

    /// How many calls are under way of each kind. It walks over the calls under way.
    pub fn calls_by_kind(&self) -> UnderWay
        ensures sending { result.sending ≡ (observation_of self.now).sending }
        ensures receiving { result.receiving ≡ (observation_of self.now).receiving }
        ensures closers { result.closers ≡ (observation_of self.now).closers }
    {
        let calls = &self.world_state.calls;
        UnderWay {
            sending: calls.iter().filter(|call| is_sending(*call)).count(),
            receiving: calls.iter().filter(|call| is_receiving(*call)).count(),
            closers: calls.iter().filter(|call| call.activity.has_closed).count(),
        }
    }
}
