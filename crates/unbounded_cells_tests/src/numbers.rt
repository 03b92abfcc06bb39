//! A queue of numbers over the cells of an unbounded queue's table. Each call enters a party on the table, makes its steps up to the answer,
//! and gives the seat back.

ghost use Rattle.std.specs.Prelude.{◌≡◌};
ghost use Rattle.concurrent_queue.specs.history.Runs.{begun, fresh};
ghost use Rattle.concurrent_queue.specs.declared.cells.QueueForm.TheVariants.{Unbounded};
ghost use Rattle.unbounded_cells.specs.Calls.{AsksBlocks};
ghost use Rattle.unbounded_cells.specs.Seated.{party_of};

use concurrent_queue::history::party::{OfQueue, Standing};
use concurrent_queue::queue_call::whole;
use concurrent_queue::{PopError, QueueAsk, QueueCall, QueueReply};
use std::alloc::{AllocError, Global};
use std::marker::Brand;
use std::sync::Wait;
use unbounded_cells::cells::BlockCells;
use unbounded_cells::table::BlockTable;

/// A queue of numbers without a bound.
#[derive(Drop)]
pub struct Numbers {
    table: BlockTable<u64, Standing<u64>, OfQueue>,
}

impl Numbers {
    /// An empty queue. `Err` if there is no memory for it.
    pub fn new(alloc: Global) -> Result<Numbers, AllocError> {
        let (table, _first) = BlockTable::new(alloc, 0)?;
        Ok(Numbers { table })
    }

    /// A call of a new party that asks this.
    fn call<R: Wait>(&self, rt: &R, ask: QueueAsk<u64>) -> QueueReply<u64>
        requires { AsksBlocks ask }
    {
        let mut cells = begin(self, rt, &ask);
        let reply = whole::complete(rt, QueueCall::new(ask), &mut cells);
        let BlockCells { seat } = cells;
        let _idle = seat.rest();
        reply
    }

    /// Whether the number is in. It isn't where the queue is closed, or there is no memory for it.
    pub fn push<R: Wait>(&self, rt: &R, number: u64) -> bool {
        match self.call(rt, QueueAsk::Push(number)) {
            QueueReply::Push(answer) => answer.is_ok(),
            _ => false,
        }
    }

    /// The oldest number, if there is one.
    pub fn pop<R: Wait>(&self, rt: &R) -> Result<u64, PopError> {
        match self.call(rt, QueueAsk::Pop) {
            QueueReply::Pop(answer) => answer,
            _ => Err(PopError::Empty),
        }
    }

    /// Closes the queue. Whether it was open.
    pub fn close<R: Wait>(&self, rt: &R) -> bool {
        match self.call(rt, QueueAsk::Close) {
            QueueReply::Close(was_open) => was_open,
            _ => false,
        }
    }

    /// How many numbers are in.
    pub fn count<R: Wait>(&self, rt: &R) -> usize {
        match self.call(rt, QueueAsk::Len) {
            QueueReply::Count(count) => count,
            _ => 0,
        }
    }
}

/// The cells of a call that has just begun to ask this.
fn begin<'a, R>(
    queue: &'a Numbers,
    rt: &'a R,
    ask: &QueueAsk<u64>,
) -> BlockCells<'a, u64, Standing<u64>, OfQueue, R>
    ensures begun { (party_of result.seat.seat).state ≡ begun ask.now fresh }
    ensures form { (party_of result.seat.seat).form ≡ Unbounded }
{
    let seat = queue.table.enter::<Brand, QueueAsk<u64>, R>(rt, ask);
    BlockCells { seat }
}
