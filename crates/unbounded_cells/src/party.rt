//! What a look at an unbounded queue's table says where its machine is the queue's own: what all parties have done is a run of the queue.

ghost use Rattle.std.specs.Prelude.{◌≡◌, true};
ghost use Rattle.growing_table.specs.Seats.{me_of, Sits};
ghost use Rattle.unbounded_cells.specs.Seated.{party_of, SameTable};
ghost use Rattle.unbounded_cells.specs.RunOrLong.{IsRunOrLong};

use crate::table::{BlockCall, BlockTable, IdleBlockSeat};
use concurrent_queue::history::laws::histories_are_runs;
use concurrent_queue::history::party::{OfQueue, Standing};

impl<'a, T: Drop, R> BlockCall<'a, T, Standing<T>, OfQueue, R> {
    /// At any moment, whatever other threads are doing: what all parties have done is a run of the closable queue, as `run_queue_steps`
    /// makes it, with each reply that a party has got, and this party is in it as its view says; or there was a history as long as there are
    /// positions. `false`: a foreign call was admitted, and nothing is known. It costs one load.
    pub fn run_so_far(&mut self) -> bool
        ensures run { result ≡ true → IsRunOrLong (party_of self.old.seat) }
        ensures kept { (me_of self.new.seat ≡ me_of self.old.seat) × SameTable self.old.seat self.new.seat }
    {
        histories_are_runs::<T>();
        self.look()
    }
}

impl<T: Drop> BlockTable<T, Standing<T>, OfQueue> {
    /// The same for a party that has no call under way: it is in that run, and so is each that was joined into it, with what its calls asked
    /// and were answered.
    pub fn run_so_far(&self, witness: &mut IdleBlockSeat<T, Standing<T>>) -> bool
        requires same { Sits self.now.table witness.old.seat }
        ensures run { result ≡ true → IsRunOrLong (party_of witness.old.seat) }
        ensures kept { (me_of witness.new.seat ≡ me_of witness.old.seat) × SameTable witness.old.seat witness.new.seat }
    {
        histories_are_runs::<T>();
        self.look(witness)
    }
}
