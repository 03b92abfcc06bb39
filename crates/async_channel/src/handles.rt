//! The handles of a channel and the operations on it. A method is one line: it makes the call of its channel's form, and passes it a copy
//! of the channel's trace.

pub(crate) mod closed;
pub(crate) mod iter;
pub(crate) mod receiver;
pub(crate) mod recv;
pub(crate) mod send;
pub(crate) mod sender;
mod stream;
mod turns;
pub(crate) mod weak;
