// Two steps on a word of a row that the kit's rows lack.
ghost use Rattle.std.specs.Prelude.{◌≡◌, ◌^◌, ◌<◌, bit_and, bit_or};
ghost use denote.RawPtr.{InBlock};
ghost use Rattle.atomic_blocks.specs.Cells.{step, Allows};

use atomic_blocks::rows::{Link, Play, RowRule, Rows, Seat};
use std::alloc::Allocator;
use std::marker::Brand;
use std::sync::atomic::Ordering::SeqCst;
use std::sync::atomic::raw;

/// Sets the bits of `k` in the word of cell `index`. `row` is the row's number, for the proof alone.
pub(crate) fn fetch_or<S, V, K, P: RowRule<S, V, K>, A: Allocator, M: Play<S, V>>(
    rows: &Rows<S, V, K, P, A>,
    seat: &mut Seat<S, V, A>,
    row: u64,
    link: Link<S>,
    index: usize,
    k: u64,
) -> u64
    requires { (seat.old.rows ≡ rows.now.id) × (seat.old.heap ≡ rows.now.heap) × InBlock link.ptr × (index < 2 ^ 40) × Allows (P.holds rows.now.key) seat.old.id seat.old.me row link.ptr index (λ n. bit_or n k) (M.then (step row link.ptr index k 0) seat.old.me) }
    ensures { (seat.new.rows ≡ seat.old.rows) × (seat.new.heap ≡ seat.old.heap) × (seat.new.id ≡ seat.old.id) × M.then (step row link.ptr index k 0) seat.old.me result seat.new.me }
{
    unsafe { raw::fetch_or::<Brand>(link.ptr.add(index) as *const u64, k, SeqCst) }
}

/// Keeps the bits of `k` in that word and clears all others.
pub(crate) fn fetch_and<S, V, K, P: RowRule<S, V, K>, A: Allocator, M: Play<S, V>>(
    rows: &Rows<S, V, K, P, A>,
    seat: &mut Seat<S, V, A>,
    row: u64,
    link: Link<S>,
    index: usize,
    k: u64,
) -> u64
    requires { (seat.old.rows ≡ rows.now.id) × (seat.old.heap ≡ rows.now.heap) × InBlock link.ptr × (index < 2 ^ 40) × Allows (P.holds rows.now.key) seat.old.id seat.old.me row link.ptr index (λ n. bit_and n k) (M.then (step row link.ptr index k 0) seat.old.me) }
    ensures { (seat.new.rows ≡ seat.old.rows) × (seat.new.heap ≡ seat.old.heap) × (seat.new.id ≡ seat.old.id) × M.then (step row link.ptr index k 0) seat.old.me result seat.new.me }
{
    unsafe { raw::fetch_and::<Brand>(link.ptr.add(index) as *const u64, k, SeqCst) }
}
