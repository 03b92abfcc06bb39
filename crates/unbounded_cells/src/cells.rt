//! The queue's cells over the seat of a call on memory that grows. Each operation is one event of the one history, and its caller proves that
//! it is the next one of the call's machine. The machine (`unbounded` of `concurrent_queue`) has the reason for each.

ghost use Rattle.std.specs.Prelude.{◌≡◌};

use crate::rule::BlockMachine;
use crate::table::BlockCall;
use concurrent_queue::cells::{Cells, Slot, Word};
use concurrent_queue::history::cells::QueueMachine;
use concurrent_queue::{NoMemory, QueueForm};
use std::sync::Wait;

/// The cells of a call under way. An operation on a slot that another call holds is refused and is no event, and the call makes it again. It
/// has no drop, so a call can't be dropped before it has answered.
pub struct BlockCells<'a, T: Drop, A, P: BlockMachine<T, A>, R> {
    /// The seat of its party.
    pub seat: BlockCall<'a, T, A, P, R>,
}

impl<'a, T: Drop, A, P: QueueMachine<T, A> + BlockMachine<T, A>, R: Wait> Cells<T>
    for BlockCells<'a, T, A, P, R> {
    ghost use Rattle.std.specs.Prelude.{◌≡◌};
    ghost use Rattle.concurrent_queue.specs.Contents.{no_contents};
    ghost use Rattle.unbounded_cells.specs.Calls.{MayMake, HasMade, Stands, ready, leads};
    ghost use Rattle.unbounded_cells.specs.Seated.{party_of, SameTable};

    ghost known = { ⊥ };

    ghost contents = { λ c. no_contents (party_of c.seat.seat).form };

    ghost form_of = { λ c. (party_of c.seat.seat).form };

    ghost did = { HasMade P.moves (λ c. (party_of c.seat.seat).form) (λ c. (party_of c.seat.seat).state) (λ c e. SameTable c.seat.seat e.seat.seat × ((party_of e.seat.seat).who ≡ (party_of c.seat.seat).who) × ((party_of e.seat.seat).over ≡ (party_of c.seat.seat).over)) };

    ghost may = { MayMake P.moves (λ c. (party_of c.seat.seat).form) (λ c. (party_of c.seat.seat).state) };

    ghost stands = { Stands P.moves (λ c. (party_of c.seat.seat).form) (λ c. (party_of c.seat.seat).state) P.calls };

    ghost ready = { ready P.moves (λ c. (party_of c.seat.seat).form) (λ c. (party_of c.seat.seat).state) P.calls P.may };

    ghost leads = { leads P.moves (λ c. (party_of c.seat.seat).form) (λ c. (party_of c.seat.seat).state) P.calls (λ c e. SameTable c.seat.seat e.seat.seat × ((party_of e.seat.seat).who ≡ (party_of c.seat.seat).who) × ((party_of e.seat.seat).over ≡ (party_of c.seat.seat).over)) P.led };

    ghost keeps_form = { λ d a b made. made.1 };

    ghost exact_form = { λ known. absurd known };

    ghost exact = { λ known. absurd known };

    #[inline(always)]
    fn form(&self) -> QueueForm {
        self.seat.form()
    }

    #[inline(always)]
    fn load(&mut self, at: Word) -> u64 {
        self.seat.load(at)
    }

    #[inline(always)]
    fn store(&mut self, at: Word, value: u64) {
        self.seat.store(at, value);
    }

    #[inline(always)]
    fn compare_exchange(&mut self, at: Word, expected: u64, next: u64) -> Result<u64, u64> {
        let found = self.seat.compare_exchange(at, expected, next);
        if found == expected {
            Ok(found)
        } else {
            Err(found)
        }
    }

    #[inline(always)]
    fn fetch_add(&mut self, at: Word, by: u64) -> u64 {
        self.seat.fetch_add(at, by)
    }

    #[inline(always)]
    fn fetch_or(&mut self, at: Word, bits: u64) -> u64 {
        self.seat.fetch_or(at, bits)
    }

    #[inline(always)]
    fn fetch_and(&mut self, at: Word, bits: u64) -> u64 {
        self.seat.fetch_and(at, bits)
    }

    #[inline(always)]
    fn put(&mut self, at: Slot, value: T) -> Result<(), T> {
        match self.seat.try_put(at, value) {
            Ok(()) => Ok(()),
            Err((back, _)) => Err(back),
        }
    }

    #[inline(always)]
    fn take(&mut self, at: Slot) -> Option<T> {
        match self.seat.try_take(at) {
            Some(found) => found,
            None => None,
        }
    }

    fn spare(&mut self) -> Result<u64, NoMemory> {
        self.seat.spare()
    }

    fn retire(&mut self, block: u64) {
        self.seat.retire(block);
    }
}
