//! The shared reference from a handle to its channel. It touches no count: weak handles have one too.

ghost use Rattle.std.specs.Prelude.{◌≡◌, ◌↔◌, IsTrue, IfSome};
ghost use Rattle.async_channel.specs.Handles.{handle_of};

use crate::shared::Shared;
use crate::with_bound::Bounded;
use std::sync::Arc;

/// The shared part of a channel, which also has the identity: a handle's reference has nothing beside it.
#[derive(Drop)]
pub(crate) enum Link<T: Drop> {
    Bounded(Arc<Bounded<T>>),
    Unbounded(Arc<Shared<T>>),
}

impl<T: Drop> Link<T> {
    /// One more shared reference to this channel. It never waits and touches no count; `None` if it was refused.
    pub(crate) fn try_clone(&self) -> Option<Link<T>>
        ensures { IfSome result (λ l. handle_of l ≡ handle_of self.now) }
    {
        match self {
            Link::Bounded(channel) => Some(Link::Bounded(Arc::try_clone(channel).ok()?)),
            Link::Unbounded(shared) => Some(Link::Unbounded(Arc::try_clone(shared).ok()?)),
        }
    }

    /// The identity.
    fn id(&self) -> u64
        ensures { result ≡ (handle_of self.now).id }
    {
        match self {
            Link::Bounded(channel) => channel.id,
            Link::Unbounded(shared) => shared.id,
        }
    }

    /// Whether both refer to one channel: whether the identities in their shared parts are equal.
    pub(crate) fn is_same(&self, other: &Link<T>) -> bool
        ensures { IsTrue result ↔ ((handle_of self.now).id ≡ (handle_of other.now).id) }
    {
        self.id() == other.id()
    }
}
