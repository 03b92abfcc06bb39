// Rows of words, with links to themselves and empty slots.
ghost use Rattle.std.specs.Prelude.{◌≡◌, replicate, map, Some, None, IfOk};
ghost use denote.RawPtr.{InBlock};
ghost use Rattle.atomic_blocks.specs.Cells.{cell};

use atomic_blocks::rows::{Link, Loose};
use std::alloc::{AllocError, Allocator};

// A row with the place where it lies.
pub(crate) type NewRow<T, A> = (Link<Option<T>>, Loose<Option<T>, A>);

// A row whose words are 0.
pub(crate) fn zeros<T, A: Allocator>(alloc: &A, len: usize) -> Result<NewRow<T, A>, AllocError>
    ensures { IfOk result (λ r. (r.1.heap ≡ alloc.now) × (r.1.at ≡ r.0.ptr) × InBlock r.0.ptr × (r.1.left ≡ 0) × (r.1.cells ≡ replicate len (cell 0 r.0.ptr (Some None)))) }
{
    let (link, mut row) = Loose::reserve(alloc, len)?;
    'cells: for i in 0..len {
        row.push(link, i, 0, link, None);
    }
    Ok((link, row))
}

// A row of these words.
pub(crate) fn row_of<T, A: Allocator>(alloc: &A, words: &[u64]) -> Result<NewRow<T, A>, AllocError>
    ensures { IfOk result (λ r. (r.1.heap ≡ alloc.now) × (r.1.at ≡ r.0.ptr) × InBlock r.0.ptr × (r.1.left ≡ 0) × (r.1.cells ≡ map (λ x. cell x r.0.ptr (Some None)) words.now)) }
{
    let (link, mut row) = Loose::reserve(alloc, words.len())?;
    'cells: for i in 0..words.len() {
        row.push(link, i, words[i], link, None);
    }
    Ok((link, row))
}
