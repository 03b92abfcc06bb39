//! The blocks of unbounded cells of one owner, by their numbers, and the list of those that are not in use. The invariant: the spare list
//! has room for every block that was made, so retiring a block takes no memory.

ghost use Rattle.std.specs.Prelude.{◌≡◌, length, ◌≤◌, ◌++◌, map, take, drop, None, IfOk, vec_capacity, vec_len};
ghost use Rattle.concurrent_queue.specs.Contents.{nones};
ghost use Rattle.std.specs.VecDeque.{deque_capacity};

use crate::error::NoMemory;
use std::alloc::{AllocError, Global};
use std::collections::VecDeque;

/// A block has this many slots.
pub(crate) const SLOTS: u64 = 31;

/// One block.
#[derive(Drop)]
pub(crate) struct PlainBlock<T> {
    next: u64,
    reads: u64,
    written: [u64; 31],
    slots: Vec<Option<T>>,
    ghost whole: { length slots.items ≡ 31 },
}

/// As many empty slots as a block has.
#[tactic(auto, using(crate::proofs::Slots::one_more, crate::proofs::Slots::all_empty), unfolding(crate::proofs::Slots::empties))]
fn empty_slots<T: Drop>(alloc: Global) -> Result<Vec<Option<T>>, AllocError>
    ensures { IfOk result (λ slots. slots.items ≡ nones) }
{
    let mut slots = Vec::with_capacity(alloc, 31)?;
    while slots.len() < 31 {
        slots.push_reserved(None);
    }
    Ok(slots)
}

/// Empties the slots of a block.
#[tactic(auto, using(crate::proofs::Slots::emptied_more, crate::proofs::Slots::all_emptied), unfolding(crate::proofs::Slots::empties))]
fn clear_slots<T: Drop>(slots: &mut Vec<Option<T>>)
    requires { vec_len slots.old ≡ 31 }
    ensures { slots.new.items ≡ nones }
{
    for i in 0..31 {
        slots[i] = None;
    }
}

/// All blocks that were made. The spare list has a place for each of them from the moment at which it is made, so that
/// giving a block back takes no memory.
#[derive(Drop)]
pub(crate) struct Pool<T> {
    alloc: Global,
    blocks: Vec<PlainBlock<T>>,
    spares: VecDeque<u64>,
    ghost placed: { length blocks.items ≤ deque_capacity spares },
}

impl<T: Drop> PlainBlock<T> {
    ghost use Rattle.std.specs.Prelude.{◌≡◌, ◌==◌, None, IfOk, Some, Result, Ok, Err, true, false, slice_get, slice_index, slice_index_or, MatchOption, MatchResult};
    ghost use Rattle.concurrent_queue.specs.Contents.{blank, with_next, with_reads, with_written, with_slot, is_vacant};
    ghost use Rattle.concurrent_queue.specs.Plain.{block_of};

    /// A block in which nothing was written yet.
    #[tactic(auto, unfolding(crate::specs::Contents::zeros, crate::specs::Contents::nones))]
    fn blank(alloc: Global) -> Result<PlainBlock<T>, AllocError>
        ensures { IfOk result (λ b. block_of b ≡ blank) }
    {
        Ok(PlainBlock {
            next: 0,
            reads: 0,
            written: [0; 31],
            slots: empty_slots(alloc)?,
        })
    }

    /// Empties each slot and sets each word to 0.
    #[tactic(auto, unfolding(crate::specs::Contents::zeros, crate::specs::Contents::nones))]
    fn clear(&mut self)
        ensures { block_of self.new ≡ blank }
    {
        clear_slots(&mut self.slots);
        self.next = 0;
        self.reads = 0;
        self.written = [0; 31];
    }

    fn written_at(&self, offset: u64) -> u64
        ensures { result ≡ slice_index (block_of self.now).written offset }
    {
        if offset < SLOTS {
            self.written[offset as usize]
        } else {
            0
        }
    }

    fn set_next(&mut self, value: u64)
        ensures { block_of self.new ≡ with_next (block_of self.old) value }
    {
        self.next = value;
    }

    fn set_reads(&mut self, value: u64)
        ensures { block_of self.new ≡ with_reads (block_of self.old) value }
    {
        self.reads = value;
    }

    fn set_written(&mut self, offset: u64, value: u64)
        ensures { block_of self.new ≡ with_written (block_of self.old) offset value }
    {
        if offset < SLOTS {
            self.written[offset as usize] = value;
        }
    }

    fn put(&mut self, offset: u64, value: T) -> Result<(), T>
        ensures { MatchResult result
            (λ _. (is_vacant (slice_get (block_of self.old).slots offset) ≡ true) × (block_of self.new ≡ with_slot (block_of self.old) offset (Some value)))
            (λ w. (is_vacant (slice_get (block_of self.old).slots offset) ≡ false) × (w ≡ value) × (block_of self.new ≡ block_of self.old)) }
    {
        if offset < SLOTS && self.slots[offset as usize].is_none() {
            self.slots[offset as usize] = Some(value);
            Ok(())
        } else {
            Err(value)
        }
    }

    fn take(&mut self, offset: u64) -> Option<T>
        ensures found { result ≡ slice_index_or (block_of self.old).slots offset None }
        ensures left { block_of self.new ≡ with_slot (block_of self.old) offset None }
    {
        if offset < SLOTS {
            self.slots[offset as usize].take()
        } else {
            None
        }
    }
}

impl<T: Drop> Pool<T> {
    ghost use Rattle.std.specs.Prelude.{◌≡◌, ◌<◌, ◌^◌, [], length, slice_set, MatchResult};
    ghost use Rattle.concurrent_queue.specs.Contents.{blank, spare_in, blocks_with, others_of, with_spare};
    ghost use Rattle.concurrent_queue.specs.Plain.{blocks_of};

    /// No block.
    pub(crate) fn new(alloc: Global) -> Pool<T>
        ensures blocks { result.blocks.items ≡ [] }
        ensures spares { result.spares.items ≡ [] }
    {
        Pool {
            alloc,
            blocks: Vec::new(alloc),
            spares: VecDeque::new(alloc),
        }
    }

    /// A spare block, or a new one with its place in the spare list. It is refused only if no block is spare.
    pub(crate) fn spare(&mut self) -> Result<u64, NoMemory>
        ensures gives { MatchResult result
            (λ b. (b ≡ spare_in self.old.spares.items (length self.old.blocks.items)) × (blocks_of self.new ≡ blocks_with self.old.spares.items (blocks_of self.old)) × (self.new.spares.items ≡ others_of self.old.spares.items) × (length self.new.blocks.items < 2 ^ 64))
            (λ _. (self.old.spares.items ≡ []) × (self.new.blocks.items ≡ self.old.blocks.items) × (self.new.spares.items ≡ self.old.spares.items)) }
    {
        match self.spares.pop_front() {
            Some(block) => Ok(block),
            None => self.make(),
        }
    }

    /// A new block.
    fn make(&mut self) -> Result<u64, NoMemory>
        ensures gives { MatchResult result
            (λ b. (b ≡ length self.old.blocks.items) × (blocks_of self.new ≡ blocks_with [] (blocks_of self.old)) × (self.new.spares.items ≡ self.old.spares.items) × (length self.new.blocks.items < 2 ^ 64))
            (λ _. (self.new.blocks.items ≡ self.old.blocks.items) × (self.new.spares.items ≡ self.old.spares.items)) }
    {
        let made = self.blocks.len();
        let wanted = match made.checked_add(1) {
            Some(wanted) => wanted,
            None => return Err(NoMemory),
        };
        let empty = match wanted.checked_sub(self.spares.len()) {
            Some(empty) => empty,
            None => 0,
        };
        if self.spares.reserve(empty).is_err() {
            return Err(NoMemory);
        }
        let block = match PlainBlock::blank(self.alloc) {
            Ok(block) => block,
            Err(_) => return Err(NoMemory),
        };
        match self.blocks.push(block) {
            Ok(()) => Ok(made as u64),
            Err(_) => Err(NoMemory),
        }
    }

    /// Blanks a block and puts its number on the spare list if a place is left.
    #[tactic(auto, using(crate::proofs::Slots::found, crate::proofs::Slots::beyond, crate::proofs::Slots::changed, crate::proofs::Slots::unchanged))]
    pub(crate) fn retire(&mut self, block: u64)
        ensures blocks { blocks_of self.new ≡ slice_set (blocks_of self.old) block blank }
        ensures spares { self.new.spares.items ≡ with_spare self.old.spares.items (length self.old.blocks.items) block }
    {
        let at = block as usize;
        if at < self.blocks.len() {
            self.blocks[at].clear();
        }
        if self.spares.len() < self.blocks.len() {
            self.spares.push_front_reserved(block);
        }
    }
}

impl<T: Drop> Pool<T> {
    ghost use Rattle.std.specs.Prelude.{◌≡◌, None, slice_index};
    ghost use Rattle.concurrent_queue.specs.Contents.{block_in};
    ghost use Rattle.concurrent_queue.specs.Plain.{blocks_of};

    pub(crate) fn next(&self, block: u64) -> u64
        ensures { result ≡ (block_in (blocks_of self.now) block).next }
    {
        let at = block as usize;
        if at < self.blocks.len() {
            self.blocks[at].next
        } else {
            0
        }
    }

    pub(crate) fn reads(&self, block: u64) -> u64
        ensures { result ≡ (block_in (blocks_of self.now) block).reads }
    {
        let at = block as usize;
        if at < self.blocks.len() {
            self.blocks[at].reads
        } else {
            0
        }
    }

    #[tactic(auto, using(crate::proofs::Slots::found, crate::proofs::Slots::beyond, crate::proofs::Slots::changed, crate::proofs::Slots::unchanged))]
    pub(crate) fn written(&self, block: u64, offset: u64) -> u64
        ensures { result ≡ slice_index (block_in (blocks_of self.now) block).written offset }
    {
        let at = block as usize;
        if at < self.blocks.len() {
            self.blocks[at].written_at(offset)
        } else {
            0
        }
    }
}

impl<T: Drop> Pool<T> {
    ghost use Rattle.std.specs.Prelude.{◌≡◌, None, slice_set, slice_index_or};
    ghost use Rattle.concurrent_queue.specs.Contents.{block_in, with_next, with_reads, with_written, with_slot, PutGivesIn};
    ghost use Rattle.concurrent_queue.specs.Plain.{blocks_of};

    #[tactic(auto, using(crate::proofs::Slots::found, crate::proofs::Slots::beyond, crate::proofs::Slots::changed, crate::proofs::Slots::unchanged))]
    pub(crate) fn set_next(&mut self, block: u64, value: u64)
        ensures blocks { blocks_of self.new ≡ slice_set (blocks_of self.old) block (with_next (block_in (blocks_of self.old) block) value) }
        ensures spares { self.new.spares.items ≡ self.old.spares.items }
    {
        let at = block as usize;
        if at < self.blocks.len() {
            self.blocks[at].set_next(value);
        }
    }

    #[tactic(auto, using(crate::proofs::Slots::found, crate::proofs::Slots::beyond, crate::proofs::Slots::changed, crate::proofs::Slots::unchanged))]
    pub(crate) fn set_reads(&mut self, block: u64, value: u64)
        ensures blocks { blocks_of self.new ≡ slice_set (blocks_of self.old) block (with_reads (block_in (blocks_of self.old) block) value) }
        ensures spares { self.new.spares.items ≡ self.old.spares.items }
    {
        let at = block as usize;
        if at < self.blocks.len() {
            self.blocks[at].set_reads(value);
        }
    }

    #[tactic(auto, using(crate::proofs::Slots::found, crate::proofs::Slots::beyond, crate::proofs::Slots::changed, crate::proofs::Slots::unchanged))]
    pub(crate) fn set_written(&mut self, block: u64, offset: u64, value: u64)
        ensures blocks { blocks_of self.new ≡ slice_set (blocks_of self.old) block (with_written (block_in (blocks_of self.old) block) offset value) }
        ensures spares { self.new.spares.items ≡ self.old.spares.items }
    {
        let at = block as usize;
        if at < self.blocks.len() {
            self.blocks[at].set_written(offset, value);
        }
    }

    #[tactic(auto, using(crate::proofs::Slots::found, crate::proofs::Slots::beyond, crate::proofs::Slots::changed, crate::proofs::Slots::unchanged))]
    pub(crate) fn put(&mut self, block: u64, offset: u64, value: T) -> Result<(), T>
        ensures gives { PutGivesIn (blocks_of self.old) block offset value result (blocks_of self.new) }
        ensures spares { self.new.spares.items ≡ self.old.spares.items }
    {
        let at = block as usize;
        if at < self.blocks.len() {
            self.blocks[at].put(offset, value)
        } else {
            Err(value)
        }
    }

    #[tactic(auto, using(crate::proofs::Slots::found, crate::proofs::Slots::beyond, crate::proofs::Slots::changed, crate::proofs::Slots::unchanged))]
    pub(crate) fn take(&mut self, block: u64, offset: u64) -> Option<T>
        ensures found { result ≡ slice_index_or (block_in (blocks_of self.old) block).slots offset None }
        ensures blocks { blocks_of self.new ≡ slice_set (blocks_of self.old) block (with_slot (block_in (blocks_of self.old) block) offset None) }
        ensures spares { self.new.spares.items ≡ self.old.spares.items }
    {
        let at = block as usize;
        if at < self.blocks.len() {
            self.blocks[at].take(offset)
        } else {
            None
        }
    }
}
