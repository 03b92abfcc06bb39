//! The forms of a channel.

use channel_calls::error::OpenError;
use channel_world::world::World;
use event_listener::id::EventIds;
use std::alloc::Global;

/// The forms of a channel.
#[derive(Clone, Copy)]
pub enum Form {
    /// Capacity 1.
    OneSlot,
    /// Capacity 3.
    RingOfThree,
    /// No bound.
    Unbounded,
}

/// Each form.
pub const FORMS: [Form; 3] = [Form::OneSlot, Form::RingOfThree, Form::Unbounded];

impl Form {
    /// What it is called.
    pub fn name(self) -> &'static str {
        match self {
            Form::OneSlot => "one slot",
            Form::RingOfThree => "ring of 3",
            Form::Unbounded => "unbounded",
        }
    }

    pub(crate) fn capacity(self) -> Option<usize> {
        match self {
            Form::OneSlot => Some(1),
            Form::RingOfThree => Some(3),
            Form::Unbounded => None,
        }
    }

    pub(crate) fn open(self, alloc: Global) -> Result<World<u64>, OpenError> {
        let mut ids = EventIds::new();
        match self {
            Form::OneSlot => World::bounded(alloc, 1, &mut ids),
            Form::RingOfThree => World::bounded(alloc, 3, &mut ids),
            Form::Unbounded => World::unbounded(alloc, &mut ids),
        }
    }
}
