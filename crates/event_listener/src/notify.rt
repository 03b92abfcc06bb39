//! Notifications: how many listeners one tells, of which kind it is, and the tags that it gives. A list takes a notification by value and
//! is the only one that draws tags from it.
ghost use Rattle.std.specs.Prelude.{◌≡◌, ℕ, Bool, Result, Ok, true, false};

use crate::error::NoMemory;

/// A notification, as [`List::notify`](crate::list::List) takes it.
///
/// One of the default kind tells so many that at least `count` listeners are told, those told before included; an additional one tells
/// `count` more, however many are told already. Each listener that it tells gets one tag. As the private trait of `event-listener` 5.4.2,
/// but a tag may be refused for memory.
pub trait Notification {
    ghost use Rattle.event_listener.specs.declared.error.NoMemory.{NoMemory};

    /// What each told listener is given.
    type Tag;

    /// How many listeners it is for.
    ghost size: { Self → ℕ };

    /// Whether it counts only those that it tells itself.
    ghost additional: { Self → Bool };

    /// The states in which a tag may be asked for, as one that calls a closure needs.
    ghost can_give: { Self → Type 0 };

    /// Which tag, or refusal, it may give in which state, and the state that it goes to.
    ghost gives: { Self → Result Self.Tag NoMemory → Self → Type 0 };

    /// How many listeners it is for.
    fn count(&self) -> usize
        ensures { result ≡ size self.now };

    /// Whether it counts only those that it tells itself.
    fn is_additional(&self) -> bool
        ensures { result ≡ additional self.now };

    /// The tag of the next listener, or [`NoMemory`] if it could not be made.
    fn next_tag(&mut self) -> Result<Self::Tag, NoMemory>
        requires { can_give self.old }
        ensures gives { gives self.old result self.new }
        ensures again { can_give self.new };
}

/// A notification of the default kind for this many listeners, with tags `()`. It takes no memory.
#[derive(Drop)]
pub struct Notify {
    /// How many listeners it is for, those told before it included.
    pub count: usize,
}

impl Notification for Notify {
    type Tag = ();

    ghost size = { λ n. n.count };

    ghost additional = { λ n. false };

    ghost can_give = { λ n. Unit {0} };

    ghost gives = { λ n r m. (r ≡ Ok tt) × (m ≡ n) };

    fn count(&self) -> usize {
        self.count
    }

    fn is_additional(&self) -> bool {
        false
    }

    fn next_tag(&mut self) -> Result<(), NoMemory> {
        Ok(())
    }
}

/// The same notification made additional: it tells as many more, however many are told already. Twice additional is additional.
#[derive(Drop)]
pub struct Additional<N> {
    /// The notification whose number and tags these are.
    pub inner: N,
}

impl<N: Notification> Notification for Additional<N> {
    type Tag = N::Tag;

    ghost size = { λ n. N.size n.inner };

    ghost additional = { λ n. true };

    ghost can_give = { λ n. N.can_give n.inner };

    ghost gives = { λ n r m. N.gives n.inner r m.inner };

    fn count(&self) -> usize {
        self.inner.count()
    }

    fn is_additional(&self) -> bool {
        true
    }

    fn next_tag(&mut self) -> Result<N::Tag, NoMemory> {
        self.inner.next_tag()
    }
}
