//! A value that only its owner reaches, so that threads may share a struct that holds it.
//!
//! [`Kept<X>`] is `Sync` if `X` is `Send`, as `std::sync::Exclusive` of Rust's nightly: a `&Kept<X>` gives no way to the value, so threads
//! can't race on it. A handle that several threads share keeps in it what is only `Send`.
#![tactic(auto)]

ghost use Rattle.std.specs.Prelude.{◌≡◌};
ghost use Rattle.std.specs.Borrow.{ftrue};

use std::marker::Model;

/// A value that is reached by its owner alone: kept by [`new`](Kept::new), and taken out by [`into_inner`](Kept::into_inner). It takes the
/// bytes of the value and no more. A clause reads it as `value`.
pub struct Kept<X> {
    value: X,
}

impl<X> Model for Kept<X> {
    ghost also_owns = { λ _. ftrue };
}

impl<X> Kept<X> {
    /// Keeps `value`.
    pub fn new(value: X) -> Kept<X>
        ensures { result.value ≡ value }
    {
        Kept { value }
    }

    /// Returns the value that was kept.
    pub fn into_inner(self) -> X
        ensures { result ≡ self.value }
    {
        let Kept { value } = self;
        value
    }
}

impl<X: Drop> Drop for Kept<X> {
    fn drop(self) {
        drop(self.into_inner());
    }
}

unsafe impl<X: Send> Send for Kept<X> {}

unsafe impl<X: Send> Sync for Kept<X> {}
