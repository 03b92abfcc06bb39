//! The blocks of a shared unbounded queue. `Blocks` owns every block that was made, under its number, until the queue is dropped, and a
//! lock guards the list of spare ones. The invariant: that list has room for each block that was made, so retiring one takes no memory.

ghost use Rattle.std.specs.Prelude.{◌≡◌, ◌≤◌, ◌+◌, [], MatchResult};
ghost use Rattle.std.specs.VecDeque.{deque_capacity};
ghost use Rattle.concurrent_queue.specs.Contents.{spare_in, others_of, with_spare};
ghost use Rattle.concurrent_queue.specs.Blocks.{made_of};

use crate::error::NoMemory;
use crate::pool::SLOTS;
use crate::shared::table::{APART, SeatedTable, SharedTable};
use boxcar::Anything;
use boxcar::table::Table;
use boxcar::tag::Tag;
use std::alloc::{AllocError, Global};
use std::collections::VecDeque;
use std::sync::{Mutex, MutexGuard, Wait};

/// The words of a block by their indices: the next block, how many messages were read, and apart from these a bit for each
/// slot whose message is written.
pub(crate) const NEXT: usize = 0;

pub(crate) const READS: usize = 1;

pub(crate) const WRITTEN: usize = APART;

/// The numbers of the spare blocks, and how many blocks were made. There is a place for each of them from the moment at which it is made,
/// so retiring one takes no memory.
#[derive(Drop)]
pub(crate) struct Stock {
    spares: VecDeque<u64>,
    made: usize,
    ghost placed: { made ≤ deque_capacity spares },
}

/// All blocks that were made, by their numbers, and under a lock which of them are spare. A block is kept until its queue is dropped, so
/// any thread may make steps on it at any time.
#[derive(Drop)]
pub(crate) struct Blocks<T> {
    alloc: Global,
    made: Table<SharedTable<T>, Anything, Global>,
    stock: Mutex<Stock>,
}

impl<T: Drop> Blocks<T> {
    /// No block.
    pub(crate) fn new(alloc: Global) -> Result<Blocks<T>, AllocError> {
        Ok(Blocks {
            alloc,
            made: Table::new(alloc, Tag::empty())?,
            stock: Mutex::new(Stock {
                spares: VecDeque::new(alloc),
                made: 0,
            }),
        })
    }

    /// A new seat on the block of this number, if it was made.
    #[inline(always)]
    pub(crate) fn seat(&self, block: u64) -> Option<SeatedTable<'_, T>> {
        Some(self.made.get(block as usize)?.seat())
    }

    /// Takes the lock of the spare list.
    pub(crate) fn stock<R: Wait>(&self, rt: &R) -> MutexGuard<'_, Stock> {
        // Pushes lock at a block's last slot, pops after its last message: about once for 31 messages.
        self.stock.lock(rt)
    }

    /// The spare block that was retired last, or if none is spare a new one, under the next number that was never given. `Err`, with
    /// nothing changed, if there is no memory for it.
    pub(crate) fn spare<R: Wait>(&self, rt: &R, stock: &mut Stock) -> Result<u64, NoMemory>
        ensures gives { MatchResult result
            (λ b. (b ≡ spare_in stock.old.spares.items stock.old.made) × (stock.new.spares.items ≡ others_of stock.old.spares.items) × (stock.new.made ≡ made_of stock.old.spares.items stock.old.made))
            (λ _. (stock.old.spares.items ≡ []) × (stock.new.spares.items ≡ []) × (stock.new.made ≡ stock.old.made)) }
    {
        match stock.spares.pop_front() {
            Some(block) => Ok(block),
            None => self.make(rt, stock),
        }
    }

    /// A new block, with its place among the spare ones.
    fn make<R: Wait>(&self, rt: &R, stock: &mut Stock) -> Result<u64, NoMemory>
        requires { stock.old.spares.items ≡ [] }
        ensures spares { stock.new.spares.items ≡ [] }
        ensures gives { MatchResult result
            (λ b. (b ≡ stock.old.made) × (stock.new.made ≡ stock.old.made + 1))
            (λ _. stock.new.made ≡ stock.old.made) }
    {
        let number = stock.made;
        let Some(wanted) = number.checked_add(1) else {
            return Err(NoMemory);
        };
        if stock.spares.reserve(wanted).is_err() {
            return Err(NoMemory);
        }
        let Ok(block) = SharedTable::new(self.alloc, SLOTS as usize, WRITTEN + 1) else {
            return Err(NoMemory);
        };
        if self.made.set_placed(rt, number, block).is_err() {
            return Err(NoMemory);
        }
        stock.made = wanted;
        Ok(number as u64)
    }

    /// Sets the words of a block to 0 and puts its number on the spare list, which has a place for it. Its slots are empty, since each
    /// message of it was taken or never put.
    pub(crate) fn retire(&self, stock: &mut Stock, block: u64)
        ensures spares { stock.new.spares.items ≡ with_spare stock.old.spares.items stock.old.made block }
        ensures made { stock.new.made ≡ stock.old.made }
    {
        // Nobody sees the first of these stores without the last: only a call that won one of the block's positions touches its words, a
        // push up to the flag of its slot and a pop up to its count of reads, and the pop that counted the last of them retires the block.
        // A call that wins a position of it later has its number by way of `spare`, and so after this critical section.
        if let Some(mut words) = self.seat(block) {
            words.store(NEXT, 0);
            words.store(READS, 0);
            words.store(WRITTEN, 0);
        }
        if stock.spares.len() < stock.made {
            stock.spares.push_front_reserved(block);
        }
    }
}
