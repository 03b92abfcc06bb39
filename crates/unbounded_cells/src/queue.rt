//! The queue's own machine is such a machine.

ghost use Rattle.concurrent_queue.specs.history.Runs.{moves, history};
ghost use Rattle.unbounded_cells.specs.Laws.{KeepsBlocks};
ghost use Rattle.unbounded_cells.specs.Queue.{sized};
ghost use Rattle.concurrent_queue.specs.declared.history.party.Standing.{Standing};

use crate::rule::BlockMachine;
use concurrent_queue::history::laws::histories_touch_their_own;
use concurrent_queue::history::party::{OfQueue, Standing};
use concurrent_queue::laws::parties_are_among_others;

impl<T> BlockMachine<T, Standing<T>> for OfQueue {
    ghost use Rattle.concurrent_queue.specs.history.Runs.{fresh};
    ghost use Rattle.unbounded_cells.specs.OfQueue.{queue_blocks, queue_idles};
    ghost use Rattle.unbounded_cells.specs.Queue.{sized};

    ghost sized = { sized };

    ghost blocks = { queue_blocks };

    ghost idle = { fresh };

    ghost idles = { queue_idles };
}

/// In a history of the queue's own machine with fewer than 2^61 events, each operation on a block is made on a block in use, and a block that
/// is given back has only empty slots. It does nothing.
pub fn queue_keeps_blocks<T>()
    ensures kept { KeepsBlocks {T = T} {A = Standing T} moves history sized }
{
    histories_touch_their_own::<T>();
    parties_are_among_others::<T>();
}
