//! The names that are woken by one step.

use channel_world_model::name::Waiter;
use event_listener::wakes::Wakes;

/// The names that a step wakes, in order, for which room was reserved before.
#[derive(Drop)]
pub(crate) struct Woken {
    pub(crate) names: Vec<Waiter>,
}

impl Wakes<Waiter> for Woken {
    ghost use Rattle.channel_world_runs.specs.Woken.{Hears};

    ghost wakes = { Hears };

    fn wake(&mut self, task: Waiter) {
        // Room was reserved for all that a step may wake, before it was made.
        let _ = self.names.push(task);
    }
}
