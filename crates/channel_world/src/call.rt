//! What may be asked of a world, and what it answers.

pub use channel_calls::reply::Reply;
pub use channel_world_model::call::Call;
pub use channel_world_model::refusal::WorldRefusal;
pub use channel_world_model::run::{CallRun, Done, Stopped};
