//! Relaxed notifications.

use crate::error::NoMemory;
use crate::notify::Notification;

/// The same notification, which promises no order of its own among the steps of other threads.
///
/// Here all steps have one order, so a relaxed notification is a plain one; that of `event-listener` 5.4.2 leaves out a fence.
#[derive(Drop)]
pub struct Relaxed<N> {
    /// The notification whose number, kind and tags these are.
    pub inner: N,
}

impl<N: Notification> Notification for Relaxed<N> {
    type Tag = N::Tag;

    ghost size = { λ n. N.size n.inner };

    ghost additional = { λ n. N.additional n.inner };

    ghost can_give = { λ n. N.can_give n.inner };

    ghost gives = { λ n r m. N.gives n.inner r m.inner };

    fn count(&self) -> usize {
        self.inner.count()
    }

    fn is_additional(&self) -> bool {
        self.inner.is_additional()
    }

    fn next_tag(&mut self) -> Result<N::Tag, NoMemory> {
        self.inner.next_tag()
    }
}
