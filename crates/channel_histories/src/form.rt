//! The forms of a queue.

/// How many messages a channel holds at most.
#[derive(Clone, Copy)]
pub enum Form {
    OneSlot,
    RingOfThree,
    Unbounded,
}

impl Form {
    /// How many messages that is, if there is a bound.
    pub fn capacity(self) -> Option<usize> {
        match self {
            Form::OneSlot => Some(1),
            Form::RingOfThree => Some(3),
            Form::Unbounded => None,
        }
    }
}
