//! A party that makes calls of a queue, one after another, each by the queue's machine. These types are for the proofs alone: no value of
//! them is made.

ghost use Rattle.std.specs.Prelude.{◌≡◌};

use crate::history::cells::{HistoryCells, QueueMachine};
use crate::history::laws::histories_are_runs;
use crate::history::rule::Machine;
use crate::history::seats::IdleSeat;
use crate::history::table::{CallSeat, RuledTable};
use crate::{QueueAsk, QueueCall, QueueReply};
use std::collections::LinkedList;

/// The state of a party.
pub struct Standing<T> {
    /// What its calls asked, in order.
    pub asked: LinkedList<QueueAsk<T>>,
    /// Its call under way.
    pub call: Option<QueueCall<T>>,
    /// What its calls were answered, in order.
    pub replies: LinkedList<QueueReply<T>>,
}

/// The machine of a queue, of whichever form.
pub struct OfQueue;

impl<T> Machine<T, Standing<T>> for OfQueue {
    ghost use Rattle.concurrent_queue.specs.history.Runs.{fresh, moves, enters, turns, counts, both, left, parts, rests, history};
    ghost use Rattle.concurrent_queue.specs.history.QueueKeeps.{queue_keeps};

    ghost first = { fresh };

    ghost opened = { fresh };

    ghost counted = { 0 };

    ghost moves = { moves };

    ghost enters = { enters };

    ghost turns = { turns };

    ghost counts = { counts };

    ghost both = { both };

    ghost left = { left };

    ghost parts = { parts };

    ghost rests = { rests };

    ghost admits = { Unit {0} };

    ghost history = { history };

    ghost keeps = { queue_keeps };
}

impl<T> QueueMachine<T, Standing<T>> for OfQueue {
    ghost use Rattle.concurrent_queue.specs.history.Runs.{calls};
    ghost use Rattle.concurrent_queue.specs.history.QueueKeeps.{queue_may, queue_led};

    ghost calls = { calls };

    ghost may = { queue_may };

    ghost led = { queue_led };
}

/// The cells of a queue's call.
pub type QueueCells<'a, T> = HistoryCells<'a, T, Standing<T>, OfQueue>;

/// What is left of a party whose calls have ended: a value of no bytes, which knows what they asked and what they were answered.
pub type Witness<T> = IdleSeat<T, Standing<T>>;

impl<'a, T> CallSeat<'a, T, Standing<T>, OfQueue> {
    ghost use Rattle.std.specs.Prelude.{true};
    ghost use Rattle.concurrent_queue.specs.history.Runs.{IsRunWith};

    /// At any moment, whatever other threads are doing: what all parties have done is a run of the closable queue, as `run_queue_steps`
    /// makes it, with each reply that a party has got, and this party is in it as its view says. `false`: a foreign call was admitted, and
    /// nothing is known. It costs one load.
    pub fn run_so_far(&mut self) -> bool
        ensures run { result ≡ true → IsRunWith self.old.seat.me.0 }
        ensures kept { (self.new.seat.me ≡ self.old.seat.me) × (self.new.seat.table_id ≡ self.old.seat.table_id) }
    {
        histories_are_runs::<T>();
        self.look()
    }
}

impl<T> RuledTable<T, Standing<T>, OfQueue> {
    ghost use Rattle.std.specs.Prelude.{true};
    ghost use Rattle.concurrent_queue.specs.history.Runs.{IsRunWith};

    /// The same for a witness: its party is in that run, and so is each that was joined into it, with what its calls asked and were
    /// answered.
    pub fn run_so_far(&self, witness: &mut Witness<T>) -> bool
        requires same { witness.old.seat.table_id ≡ self.now.table.shared.table_id }
        ensures run { result ≡ true → IsRunWith witness.old.seat.me.0 }
        ensures kept { (witness.new.seat.me ≡ witness.old.seat.me) × (witness.new.seat.table_id ≡ witness.old.seat.table_id) }
    {
        histories_are_runs::<T>();
        self.look(witness)
    }
}
