//! The table.
ghost use Rattle.std.specs.Prelude.{◌≡◌, ◌^◌, ◌<◌, ◌≤◌};
ghost use denote.RawPtr.{InBlock};
ghost use Rattle.growing_table.specs.Laid.{in_block_prop};

use crate::closing::free_last;
use crate::plays::{Grows, Shape};
use crate::rule::GrowingRule;
use crate::sight::Sight;
use atomic_blocks::rows::{Link, Rows};
use std::alloc::Allocator;

// The rows of the table's own words, and of the number of blocks and of links.
const ROOT: u64 = 0;

const TOP: u64 = 1;

// The cell of the second whose word is the number of blocks, and how many it has.
const COUNT: usize = 0;

const LINKS: usize = 64;

/// Words of its own, and blocks of words and slots, under one rule.
pub struct GrowingTable<T, V, K, P: GrowingRule<T, V, K>, A: Allocator> {
    pub(crate) rows: Rows<Option<T>, Sight<V>, Shape<Option<T>, K>, Grows<P>, A>,
    pub(crate) words: usize,
    pub(crate) cells: usize,
    pub(crate) root: Link<Option<T>>,
    pub(crate) top: Link<Option<T>>,
    pub(crate) alloc: A,
    ghost keyed: { (rows.key.words ≡ words) × (rows.key.cells ≡ cells) × (rows.key.root.ptr ≡ root.ptr) × (rows.key.top.ptr ≡ top.ptr) × (rows.heap ≡ alloc) },
    ghost rooted: { InBlock root.ptr } by { in_block_prop root.ptr },
    ghost topped: { InBlock top.ptr } by { in_block_prop top.ptr },
    ghost small: { (words ≤ 2 ^ 39) × (0 < words) × (cells ≤ 2 ^ 39) × (0 < cells) },
}

impl<T: Drop, V, K, P: GrowingRule<T, V, K>, A: Allocator> Drop for GrowingTable<T, V, K, P, A> {
    fn drop(self) {
        let Self {
            rows,
            words,
            cells,
            root,
            top,
            alloc,
        } = self;
        let mut closed = rows.close();
        let mut number = closed.word(TOP, top, COUNT);
        'rest: while number > 0 {
            number -= 1;
            free_last(&mut closed, &alloc, cells, top, number);
        }
        closed.take(TOP, top).free(&alloc, top, LINKS);
        closed.take(ROOT, root).free(&alloc, root, words);
    }
}
