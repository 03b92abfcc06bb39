//! The memory of an unbounded queue that threads share, and the seat of a call on it. The table owns the words and the blocks. One lock
//! owns the right to make blocks and to change the list of spare ones, as a seat of the table: who takes the lock joins that seat into its
//! own for some steps, and splits it off again before it returns it.

ghost use Rattle.std.specs.Prelude.{◌≡◌, false};
ghost use Rattle.concurrent_queue.specs.declared.cells.QueueForm.TheVariants.{Unbounded};
ghost use Rattle.growing_table.specs.Seats.{Sits};
ghost use Rattle.unbounded_cells.specs.Seated.{party_of, HasNoSlot, HasNoLock, KnowsPlace};

use crate::plays::BlockHistory;
use crate::rule::{BlockMachine, BlockView};
use growing_table::{GrowingSeat, GrowingTable, Place};
use keyed_lock::{Keeps, KeyedLocks};
use std::alloc::Global;

/// Words and blocks under the rule of one history.
pub(crate) type KitTable<T, A, P> = GrowingTable<T, BlockView<T, A>, (), BlockHistory<P>, Global>;

/// A seat of them.
pub(crate) type KitSeat<T, A> = GrowingSeat<T, BlockView<T, A>, Global>;

/// What lies behind the lock: the seat that makes the blocks and may change the list of spare ones.
#[derive(Drop)]
pub struct Keeper<T, A> {
    pub(crate) seat: KitSeat<T, A>,
}

/// The fact that the lock keeps: the seat is one of this table, and has that right.
pub struct KeepsSpareList;

impl<T: Drop, A, P: BlockMachine<T, A>> Keeps<Keeper<T, A>, KitTable<T, A, P>> for KeepsSpareList {
    ghost use Rattle.unbounded_cells.specs.Seated.{IsKeeper};

    ghost keeps = { IsKeeper };
}

/// The cells of an unbounded queue: its own words, and blocks.
#[derive(Drop)]
pub struct BlockTable<T: Drop, A, P: BlockMachine<T, A>> {
    pub(crate) table: KitTable<T, A, P>,
    pub(crate) spares: KeyedLocks<Keeper<T, A>, KitTable<T, A, P>, KeepsSpareList, 1>,
    ghost same: { spares ≡ table },
    ghost words: { table.words ≡ 32 },
    ghost cells: { table.cells ≡ 35 },
}

/// The cells from the seat of a party that acts. The seat holds no slot, doesn't have the lock, and knows its number. It has no drop, so a
/// body that leaves a call in the middle does not type-check.
pub struct BlockCall<'a, T: Drop, A, P: BlockMachine<T, A>, R> {
    pub(crate) table: &'a BlockTable<T, A, P>,
    pub(crate) rt: &'a R,
    pub(crate) seat: KitSeat<T, A>,
    /// Where the block lies on which the call worked last: it makes several operations on one block, and finding it costs up to three loads.
    pub(crate) last: Option<Place<T>>,
    ghost sits: { Sits table.now.table seat },
    ghost free: { HasNoSlot seat },
    ghost unlocked: { HasNoLock seat },
    ghost formed: { (party_of seat).form ≡ Unbounded },
    ghost live: { (party_of seat).spent ≡ false },
    ghost named: { (party_of seat).nameless ≡ false },
    ghost knows: { KnowsPlace seat last },
}

/// The seat of a party that has no call under way and knows its number: a value of no bytes.
#[derive(Drop)]
pub struct IdleBlockSeat<T, A> {
    pub(crate) seat: KitSeat<T, A>,
    ghost free: { HasNoSlot seat },
    ghost unlocked: { HasNoLock seat },
    ghost formed: { (party_of seat).form ≡ Unbounded },
    ghost live: { (party_of seat).spent ≡ false },
    ghost named: { (party_of seat).nameless ≡ false },
}

/// The seat of a party that may not know its number, as one that was split off. It can be taken in, and it can't look.
#[derive(Drop)]
pub struct NamelessBlockSeat<T, A> {
    pub(crate) seat: KitSeat<T, A>,
    ghost free: { HasNoSlot seat },
    ghost unlocked: { HasNoLock seat },
    ghost formed: { (party_of seat).form ≡ Unbounded },
    ghost live: { (party_of seat).spent ≡ false },
}
