//! Notifications with tags that a closure makes.
ghost use Rattle.std.specs.Prelude.{MatchResult};

use crate::error::NoMemory;
use crate::notify::Notification;
use std::marker::PhantomData;

/// The same number and kind, with tags that a closure makes, one for each listener in the order in which they are told.
///
/// The closure runs while the list is locked, so it must not use the same event. As `event-listener` 5.4.2.
#[derive(Drop)]
pub struct TagWith<N, F, T> {
    /// The notification whose number and kind these are.
    pub inner: N,
    /// What makes each tag.
    pub make: F,
    pub(crate) marker: PhantomData<T>,
}

impl<N: Notification, T, F: FnMut() -> T> Notification for TagWith<N, F, T> {
    type Tag = T;

    ghost size = { λ n. N.size n.inner };

    ghost additional = { λ n. N.additional n.inner };

    ghost can_give = { λ n. F.IsAlwaysCallable n.make };

    // Each tag is what the closure makes next, and none is refused.
    ghost gives = { λ n r m. MatchResult r (λ t. F.step n.make t m.make) (λ _. ⊥) };

    fn count(&self) -> usize {
        self.inner.count()
    }

    fn is_additional(&self) -> bool {
        self.inner.is_additional()
    }

    fn next_tag(&mut self) -> Result<T, NoMemory> {
        Ok((self.make)())
    }
}
