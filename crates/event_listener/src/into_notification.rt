//! What can be made a notification, and the ways to shape it.
ghost use Rattle.std.specs.Prelude.{◌≡◌};

use crate::notify::{Additional, Notification};
use crate::relaxed::Relaxed;
use crate::tagged::Tag;
use crate::tagged_with::TagWith;
use std::marker::PhantomData;

/// What can be made a notification: each notification, and each integer as one of the default kind for so many listeners.
///
/// As `event-listener` 5.4.2, but a negative number counts as 0 and one past `usize` as its greatest value, where that crate panics.
pub trait IntoNotification: Sized {
    /// What each told listener is given.
    type Tag;

    /// The notification that it is made.
    type Notify: Notification<Tag = Self::Tag> + Drop;

    /// The notification that a value is made.
    ghost becomes: { Self → Self.Notify → Type 0 };

    /// The notification itself. It takes no memory.
    fn into_notification(self) -> Self::Notify
        ensures { becomes self result };

    /// The notification made additional: it tells as many more, however many are told already.
    final fn additional(self) -> Additional<Self::Notify>
        ensures { becomes self result.inner }
    {
        let inner = self.into_notification();
        Additional { inner }
    }

    /// The notification relaxed, which here changes nothing.
    final fn relaxed(self) -> Relaxed<Self::Notify>
        ensures { becomes self result.inner }
    {
        let inner = self.into_notification();
        Relaxed { inner }
    }

    /// The notification with a tag, of which each listener gets a clone. A clone of this tag must equal it.
    final fn tag<T: Clone>(self, tag: T) -> Tag<Self::Notify, T>
        requires { (y : _) → T.is_clone tag y → y ≡ tag }
        ensures notice { becomes self result.inner }
        ensures tag { result.tag ≡ tag }
    {
        let inner = self.into_notification();
        Tag { inner, tag }
    }

    /// The notification with tags that `make` returns, one for each listener in the order in which they are told.
    final fn tag_with<T, F: FnMut() -> T>(self, make: F) -> TagWith<Self::Notify, F, T>
        requires { F.IsAlwaysCallable make }
        ensures notice { becomes self result.inner }
        ensures make { result.make ≡ make }
    {
        let inner = self.into_notification();
        let marker = PhantomData;
        TagWith {
            inner,
            make,
            marker,
        }
    }
}

impl<N: Notification + Drop> IntoNotification for N {
    type Tag = N::Tag;

    type Notify = N;

    ghost becomes = { λ n m. m ≡ n };

    fn into_notification(self) -> N {
        self
    }
}
