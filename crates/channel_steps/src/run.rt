//! What a run is made of: steps of many parties, in any order. What may follow from them is in `specs/Run`; the code makes each by
//! itself, by [`begin`](crate::party::begin) and [`step_at`](crate::party::step_at).

use channel_calls::ask::ChannelAsk;

/// A step of a run: a party begins a call, or makes one step of the call that it has under way.
#[derive(Drop)]
pub enum Step<T, W> {
    /// Begins a call. No cell is touched.
    Begin {
        /// Whose call it is.
        party: u32,
        /// What is called.
        ask: ChannelAsk<T, W>,
    },
    /// One step.
    Step {
        /// Whose call makes it.
        party: u32,
    },
}
