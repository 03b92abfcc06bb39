//! How often a walk may still be asked for an item. It exists so that loops over walks are proved to end.

ghost use Rattle.std.specs.Prelude.{◌≡◌, ◌+◌};

use std::sync::Wait;

/// A number that falls with each item, so that a loop over a walk is proved to end. No run uses it up.
#[derive(Drop)]
pub(crate) struct Turns {
    left: u64,
}

impl Turns {
    pub(crate) fn new() -> Turns {
        Turns { left: u64::MAX }
    }

    /// One item fewer. If none is left it doesn't return.
    #[inline(always)]
    pub(crate) fn take<R: Wait>(&mut self, rt: &R)
        ensures { self.old.left ≡ self.new.left + 1 }
    {
        if self.left == 0 {
            for _ in rt.forever() {}
            unreachable!()
        }
        self.left -= 1;
    }
}
