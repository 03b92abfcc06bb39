//! Steps of parties, and what runs of them did.

pub use channel_world_runs::step::{Entry, PartyId, Run, Step};
