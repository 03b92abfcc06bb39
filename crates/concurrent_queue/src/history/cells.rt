//! The queue's cells over the seat of a call. Each operation is one event of the one history, and its caller proves that it is the next one
//! of the call's machine. The machines have the reason for each.

ghost use Rattle.std.specs.Prelude.{◌≡◌};

use crate::cells::{Cells, Slot, Word};
use crate::history::rule::Machine;
use crate::history::table::CallSeat;
use crate::{NoMemory, QueueForm};

/// A machine whose parties make calls of a queue.
pub trait QueueMachine<T, A>: Machine<T, A> {
    ghost use Rattle.concurrent_queue.specs.history.Calls.{CallsMayMove, CallsAreLed};
    ghost use Rattle.concurrent_queue.specs.declared.cells.QueueForm.{QueueForm};
    ghost use Rattle.concurrent_queue.specs.declared.queue_call.QueueCall.{QueueCall};

    /// On a queue of this form, the next operation on a cell of a party at this state is the next one of this call.
    ghost calls: { QueueForm → A → QueueCall T → Type 0 };

    /// Such a party may make what its call makes next, and that leads the call on.
    ghost may: { CallsMayMove Self.moves calls };

    ghost led: { CallsAreLed Self.moves calls };
}

/// The cells of a call under way. An operation on a slot that another call holds is refused and is no event, and the call makes it again.
/// The law `histories_touch_their_own` says that none is refused so while there are fewer events than positions, which the rule doesn't
/// count. It has no drop, so a call can't be dropped before it has answered.
pub struct HistoryCells<'a, T, A, P: Machine<T, A>> {
    /// The seat of its party.
    pub seat: CallSeat<'a, T, A, P>,
}

impl<'a, T: Drop, A, P: QueueMachine<T, A>> Cells<T> for HistoryCells<'a, T, A, P> {
    ghost use Rattle.std.specs.Prelude.{◌≡◌};
    ghost use Rattle.concurrent_queue.specs.Contents.{no_contents};
    ghost use Rattle.concurrent_queue.specs.history.Calls.{MayMake, HasMade, Stands, ready, leads};

    ghost known = { ⊥ };

    ghost contents = { λ c. no_contents c.seat.seat.me.0.form };

    ghost form_of = { λ c. c.seat.seat.me.0.form };

    ghost did = { HasMade P.moves (λ c. c.seat.seat.me.0.form) (λ c. c.seat.seat.me.0.state) (λ c e. (e.seat.seat.table_id ≡ c.seat.seat.table_id) × (e.seat.seat.me.0.who ≡ c.seat.seat.me.0.who) × (e.seat.seat.me.0.over ≡ c.seat.seat.me.0.over)) };

    ghost may = { MayMake P.moves (λ c. c.seat.seat.me.0.form) (λ c. c.seat.seat.me.0.state) };

    ghost stands = { Stands P.moves (λ c. c.seat.seat.me.0.form) (λ c. c.seat.seat.me.0.state) P.calls };

    ghost ready = { ready P.moves (λ c. c.seat.seat.me.0.form) (λ c. c.seat.seat.me.0.state) P.calls P.may };

    ghost leads = { leads P.moves (λ c. c.seat.seat.me.0.form) (λ c. c.seat.seat.me.0.state) P.calls (λ c e. (e.seat.seat.table_id ≡ c.seat.seat.table_id) × (e.seat.seat.me.0.who ≡ c.seat.seat.me.0.who) × (e.seat.seat.me.0.over ≡ c.seat.seat.me.0.over)) P.led };

    ghost keeps_form = { λ d a b made. made.1 };

    ghost exact_form = { λ known. absurd known };

    ghost exact = { λ known. absurd known };

    #[inline(always)]
    fn form(&self) -> QueueForm {
        self.seat.form()
    }

    #[inline(always)]
    fn load(&mut self, at: Word) -> u64 {
        self.seat.load(at)
    }

    #[inline(always)]
    fn store(&mut self, at: Word, value: u64) {
        self.seat.store(at, value);
    }

    #[inline(always)]
    fn compare_exchange(&mut self, at: Word, expected: u64, next: u64) -> Result<u64, u64> {
        let found = self.seat.compare_exchange(at, expected, next);
        if found == expected {
            Ok(found)
        } else {
            Err(found)
        }
    }

    #[inline(always)]
    fn fetch_add(&mut self, at: Word, by: u64) -> u64 {
        self.seat.fetch_add(at, by)
    }

    #[inline(always)]
    fn fetch_or(&mut self, at: Word, bits: u64) -> u64 {
        self.seat.fetch_or(at, bits)
    }

    #[inline(always)]
    fn fetch_and(&mut self, at: Word, bits: u64) -> u64 {
        self.seat.fetch_and(at, bits)
    }

    #[inline(always)]
    fn put(&mut self, at: Slot, value: T) -> Result<(), T> {
        match self.seat.try_put(at, value) {
            Ok(()) => Ok(()),
            Err((back, _)) => Err(back),
        }
    }

    #[inline(always)]
    fn take(&mut self, at: Slot) -> Option<T> {
        match self.seat.try_take(at) {
            Some(found) => found,
            None => None,
        }
    }

    /// A queue with a bound has no blocks.
    fn spare(&mut self) -> Result<u64, NoMemory> {
        Err(NoMemory)
    }

    /// A queue with a bound has no blocks.
    fn retire(&mut self, _block: u64) {}
}
