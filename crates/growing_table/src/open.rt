//! How a table begins.
ghost use Rattle.std.specs.Prelude.{◌≡◌, ◌^◌, ◌<◌, ◌≤◌, true, [], ◌∷◌, length, None, IfOk};
ghost use Rattle.growing_table.specs.State.{state, me};
ghost use Rattle.growing_table.specs.Seats.{about as told, me_of, number_of, makes_blocks, Sits};

use crate::fresh::{row_of, zeros};
use crate::plays::Shape;
use crate::rule::GrowingRule;
use crate::seat::GrowingSeat;
use crate::table::GrowingTable;
use atomic_blocks::rows::Rows;
use std::alloc::{AllocError, Allocator};

// A table has at most so many words of its own, and so has a block.
const WIDEST: usize = 1 << 39;

// There are at most so many powers of two.
const LINKS: usize = 64;

impl<T: Drop, V, K: Copy, P: GrowingRule<T, V, K>, A: Allocator> GrowingTable<T, V, K, P, A> {
    /// A table of these words and no block, each of which will have `cells` words and slots, and its first seat, which makes the
    /// blocks. `Err` where there is no memory for it.
    pub fn new(
        alloc: A,
        words: &[u64],
        cells: usize,
        about: K,
    ) -> Result<(GrowingTable<T, V, K, P, A>, GrowingSeat<T, V, A>), AllocError>
        requires sizes { (0 < length words.now) × (0 < cells) }
        requires rule { P.holds about (state words.now [] (P.first about ∷ [])) }
        ensures table { IfOk result (λ r. (told (r.0) ≡ about) × (r.0.words ≡ length words.now) × (r.0.cells ≡ cells)) }
        ensures seat { IfOk result (λ r. Sits (r.0) (r.1) × (makes_blocks (r.1) ≡ true) × (number_of (r.1) ≡ 0) × (me_of (r.1) ≡ me (P.first about) None)) }
    {
        if words.len() > WIDEST || cells > WIDEST {
            return Err(AllocError);
        }
        let (root, first) = row_of(&alloc, words)?;
        let (top, second) = match zeros(&alloc, LINKS) {
            Ok(row) => row,
            Err(error) => {
                first.free(&alloc, root, words.len());
                return Err(error);
            }
        };
        let shape = Shape {
            words: words.len(),
            cells,
            root,
            top,
            about,
        };
        let (rows, seat) = Rows::open(&shape, first, second);
        let table = GrowingTable {
            rows,
            words: words.len(),
            cells,
            root,
            top,
            alloc,
        };
        Ok((table, GrowingSeat { seat }))
    }
}
