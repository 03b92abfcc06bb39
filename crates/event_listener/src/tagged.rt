//! Notifications with a tag of which each listener gets a clone.
ghost use Rattle.std.specs.Prelude.{◌≡◌, MatchResult};

use crate::error::NoMemory;
use crate::notify::Notification;

/// The same number and kind, with one tag of which each listener gets a clone.
///
/// A clone may want memory: if it is refused, so is the notification, after those that were told. The maker of the notification proves that
/// a clone equals the tag. As `event-listener` 5.4.2, whose clones can't be refused.
#[derive(Drop)]
pub struct Tag<N, T: Clone> {
    /// The notification whose number and kind these are.
    pub inner: N,
    /// What each listener gets a clone of.
    pub tag: T,
    /// That a clone of it equals it.
    pub ghost exact: { (y : _) → T.is_clone tag y → y ≡ tag },
}

impl<N: Notification, T: Clone + Drop> Notification for Tag<N, T> {
    type Tag = T;

    ghost size = { λ n. N.size n.inner };

    ghost additional = { λ n. N.additional n.inner };

    ghost can_give = { λ n. Unit {0} };

    // Each tag is the notification's own, and is refused only if a clone of it can be.
    ghost gives = { λ n r m. MatchResult r (λ t. t ≡ n.tag) (λ _. ¬ (T.is_infallible n.tag)) × (m ≡ n) };

    fn count(&self) -> usize {
        self.inner.count()
    }

    fn is_additional(&self) -> bool {
        self.inner.is_additional()
    }

    fn next_tag(&mut self) -> Result<T, NoMemory> {
        match self.tag.clone() {
            Ok(tag) => Ok(tag),
            Err(_) => Err(NoMemory),
        }
    }
}
