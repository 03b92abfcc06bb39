// How a table ends.
ghost use Rattle.std.specs.Prelude.{◌≡◌, ℕ, ◌+◌, ◌^◌, ◌<◌, ◌≤◌};
ghost use denote.RawPtr.{Ptr, InBlock};
ghost use Rattle.growing_table.specs.Ending.{Ending, IsLast};

use atomic_blocks::rows::{Closed, Link};
use std::alloc::Allocator;

// The row of the number of blocks and of links.
const TOP: u64 = 1;

// Where the last block lies, and how many cells it has. The blocks before it have the links to it.
fn last_place<T, A: Allocator>(
    closed: &mut Closed<Option<T>, A>,
    cells: usize,
    top: Link<Option<T>>,
    number: u64,
) -> (Link<Option<T>>, usize)
    requires rows { (wide : ℕ) × (root : Ptr) × Ending wide cells root top.ptr (number + 1) closed.old.rows }
    requires place { InBlock top.ptr × (0 < cells) }
    ensures same { closed.new ≡ closed.old }
    ensures place { IsLast closed.old.rows number result.0.ptr result.1 }
{
    let power = (number + 1).ilog2();
    let span = 1u64 << power;
    let offset = number + 1 - span;
    let first = closed.link(TOP, top, power as usize);
    if offset == 0 {
        return (first, cells + span as usize);
    }
    let link = closed.link(span + 1, first, cells + offset as usize);
    (link, cells)
}

// Frees the last block.
pub(crate) fn free_last<T: Drop, A: Allocator>(
    closed: &mut Closed<Option<T>, A>,
    alloc: &A,
    cells: usize,
    top: Link<Option<T>>,
    number: u64,
)
    requires rows { (wide : ℕ) × (root : Ptr) × Ending wide cells root top.ptr (number + 1) closed.old.rows }
    requires heap { (closed.old.heap ≡ alloc.now) × InBlock top.ptr × (0 < cells) }
    ensures rows { (wide : ℕ) (root : Ptr) → Ending wide cells root top.ptr (number + 1) closed.old.rows → Ending wide cells root top.ptr number closed.new.rows }
    ensures heap { closed.new.heap ≡ closed.old.heap }
{
    let (link, len) = last_place(closed, cells, top, number);
    closed.take(number + 2, link).free(alloc, link, len);
}
