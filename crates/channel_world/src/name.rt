//! The names of handles and operations, and of the tasks that are woken.

pub use channel_world_model::name::{Handle, HandleId, HandleKind, OpId, Waiter};
