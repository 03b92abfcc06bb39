//! How the table of a new unbounded queue begins.

ghost use Rattle.std.specs.Prelude.{◌≡◌, [], replicate, slice_set, IfOk};
ghost use Rattle.growing_table.specs.Seats.{Sits};
ghost use Rattle.unbounded_cells.specs.Rule.{first_words};
ghost use Rattle.unbounded_cells.specs.Seated.{party_of};

use crate::rule::BlockMachine;
use crate::seat_plays::Unlocks;
use crate::table::{BlockTable, IdleBlockSeat, Keeper, KitTable};
use growing_table::GrowingTable;
use keyed_lock::KeyedLocks;
use std::alloc::{AllocError, Global};

/// How many words the table has of its own, and how many cells a block has.
const WORDS: usize = 32;

const CELLS: usize = 35;

/// Where the words lie with which the machine counts that don't begin at 0.
const FIRST_COUNT: usize = 9;

const SECOND_COUNT: usize = 28;

/// All words of a new table.
fn opening_words(counted: u64) -> [u64; WORDS]
    ensures { result ≡ first_words counted }
{
    let mut words = [0; WORDS];
    words[FIRST_COUNT] = counted;
    words[SECOND_COUNT] = counted;
    words
}

impl<T: Drop, A, P: BlockMachine<T, A>> BlockTable<T, A, P> {
    /// The cells of a new queue without a bound, with the table's first party. It has no block yet. `Err` if there is no memory for them.
    pub fn new(
        alloc: Global,
        counted: u64,
    ) -> Result<(BlockTable<T, A, P>, IdleBlockSeat<T, A>), AllocError>
        requires counted { counted ≡ P.counted }
        requires rests { P.rests P.opened }
        ensures first { IfOk result (λ r. ((party_of (r.1.seat)).state ≡ P.opened) × ((party_of (r.1.seat)).who ≡ 0) × ((party_of (r.1.seat)).over ≡ []) × Sits (r.0.table) (r.1.seat)) }
    {
        let words = opening_words(counted);
        let (table, mut seat): (KitTable<T, A, P>, _) = GrowingTable::new(
            alloc,
            &words,
            CELLS,
            (),
        )?;
        // The first seat makes the blocks and has the right to the spare list. From here on the lock has both.
        let keeper = Keeper {
            seat: table.split_maker::<Unlocks<P>>(&mut seat),
        };
        let spares = KeyedLocks::new(alloc, [keeper], &table)?;
        Ok((BlockTable { table, spares }, IdleBlockSeat { seat }))
    }
}
