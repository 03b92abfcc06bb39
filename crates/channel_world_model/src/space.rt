//! Room for a message.

/// What a send finds.
#[derive(Clone, Copy, Debug, PartialEq, Eq)]
pub enum Space {
    /// The channel is open and has a free place.
    Open,
    /// The channel is open and full.
    Filled,
    /// The channel is closed.
    Shut,
}
