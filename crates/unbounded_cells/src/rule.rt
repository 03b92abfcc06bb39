//! What a seat of the table knows, and what the machine says whose history the table has, beside what it says of a queue of any form.

use concurrent_queue::history::rule::{Machine, View};

/// What a seat knows: what it knows of its party, and of the list of spare blocks, whose lock its owner may have.
pub struct BlockView<T, A> {
    /// What it knows of its party. It says there that no slot is out.
    pub party: View<T, A>,
    /// The slot that is out with the seat: its block's number and its own, and what the history has there meanwhile.
    pub held: Option<(u64, u64, Option<T>)>,
    /// Whether the spare list is locked by the seat's owner.
    pub keeper: bool,
    /// What the word holds then that names the first spare block: its number and one, or 0 where there is none.
    pub top: u64,
    /// A block and what its word holds that names the next spare one.
    pub link: Option<(u64, u64)>,
    /// How many words of the first spare block were cleared: the link to the next block, the number of reads, the flags.
    pub cleared: u64,
}

/// A machine of an unbounded queue, whose histories have a length. What has to be known of them is `KeepsBlocks`.
pub trait BlockMachine<T, A>: Machine<T, A> {
    ghost use Rattle.std.specs.Prelude.{ℕ, List};
    ghost use Rattle.concurrent_queue.specs.Contents.{Contents};
    ghost use Rattle.concurrent_queue.specs.history.Keeps.{Tally};
    ghost use Rattle.concurrent_queue.specs.declared.cells.QueueForm.TheVariants.{Unbounded};
    ghost use Rattle.concurrent_queue.specs.declared.history.rule.View.{View};
    ghost use Rattle.unbounded_cells.specs.Laws.{KeepsBlocks};

    /// There is a history of so many events.
    ghost sized: { ℕ → List (View T A) → Contents T → Tally → Type 0 };

    /// In a short history each operation on a block is made on one in use, and a block that is given back has only empty slots.
    ghost blocks: { KeepsBlocks Self.moves Self.history sized };

    /// The state of a party that makes no calls: that of the seat behind the lock of the spare list.
    ghost idle: { A };

    /// A new party may be at this state.
    ghost idles: { Self.enters Unbounded idle };
}
