//! A seat, and where a block lies.
ghost use Rattle.std.specs.Prelude.{◌≡◌, ◌^◌, ◌<◌, None};
ghost use denote.RawPtr.{InBlock};
ghost use Rattle.growing_table.specs.Laid.{Holding, in_block_prop};

use crate::sight::Sight;
use atomic_blocks::rows::{Link, Seat};
use std::alloc::{AllocError, Allocator};

/// What one party knows of a growing table, with at most one slot that is out with it. It has no bytes.
#[derive(Drop)]
pub struct GrowingSeat<T, V, A: Allocator> {
    pub(crate) seat: Seat<Option<T>, Sight<V>, A>,
    ghost holding: { Holding seat.me },
    ghost bare: { seat.me.spare ≡ None },
}

/// Where a block lies. It owns nothing, and stays good as long as the table.
pub struct Place<T> {
    pub(crate) number: u64,
    pub(crate) link: Link<Option<T>>,
    ghost placed: { InBlock link.ptr } by { in_block_prop link.ptr },
    ghost small: { number < 2 ^ 39 },
}

impl<T> Clone for Place<T> {
    fn clone(&self) -> Result<Place<T>, AllocError> {
        Ok(*self)
    }
}

impl<T> Copy for Place<T> {}

impl<T> Place<T> {
    /// The block's number.
    pub fn number(&self) -> u64
        ensures { result ≡ self.now.number }
    {
        self.number
    }
}
