//! Which types cross threads.

use async_channel::{Closed, Receiver, Recv, Send as Sending, Sender, WeakReceiver, WeakSender};
use std::sync::Wait;

fn crosses<T: Send + Sync>() -> bool {
    true
}

/// Handles are `Send` and `Sync` where their messages are `Send`.
fn handles_cross<T: Drop + Send, R: Wait + Copy + Send + Sync>() -> bool {
    crosses::<Sender<T, R>>()
        && crosses::<Receiver<T, R>>()
        && crosses::<WeakSender<T, R>>()
        && crosses::<WeakReceiver<T, R>>()
}

/// So are operations where their messages are `Sync` besides, since a send holds one.
fn operations_cross<'a, R: Wait + Copy + Send + Sync + 'a>() -> bool {
    crosses::<Sending<'a, u64, R>>()
        && crosses::<Recv<'a, u64, R>>()
        && crosses::<Closed<'a, u64, R>>()
}

#[test]
fn handles_and_operations_cross(rt: HostRuntime) {
    assert!(rt; handles_cross::<u64, HostRuntime>() && operations_cross::<HostRuntime>());
}
