//! What a world tells of itself.

use channel_world::world::World;

/// The numbers that a channel tells of itself.
#[derive(Clone, Copy, PartialEq, Eq)]
pub struct Numbers {
    pub messages: u64,
    pub pending: usize,
    pub woken: usize,
    pub under_way: usize,
    pub is_quiet: bool,
}

impl Numbers {
    /// Those of this world.
    pub fn of(world: &World<u64>) -> Self {
        Numbers {
            messages: world.messages(),
            pending: world.pending(),
            woken: world.woken(),
            under_way: world.under_way(),
            is_quiet: world.is_quiet(),
        }
    }
}
