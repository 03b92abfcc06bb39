//! Operations on the words with which a machine counts, from the seat of a call. Each is one atomic operation, whose caller proves that it is
//! the next step of the party's machine. None waits.

ghost use Rattle.std.specs.Prelude.{◌≡◌, ℕ, ◌-◌, ◌<◌, ◌^◌, MatchBool};
ghost use Rattle.growing_table.specs.Seats.{me_of};
ghost use Rattle.concurrent_queue.specs.history.Shared.{count_at};
ghost use Rattle.concurrent_queue.specs.declared.cells.QueueForm.TheVariants.{Unbounded};
ghost use Rattle.concurrent_queue.specs.declared.history.rule.CountStep.TheVariants.{Read, Lower, Raise, Set};
ghost use Rattle.unbounded_cells.specs.Seated.{party_of, IsSameParty};

use crate::plays::{CountLowers, CountPasses, CountRaises, CountReads, CountSets};
use crate::rule::BlockMachine;
use crate::table::BlockCall;
use concurrent_queue::history::led::LeadsTo;
use concurrent_queue::history::rule::Counter;

/// Where each counting word lies among the table's own, the second apart from the others. They are no words of the queue.
const FIRST_COUNT: usize = 9;

const THIRD_COUNT: usize = 10;

const FOURTH_COUNT: usize = 11;

const FIFTH_COUNT: usize = 12;

const SIXTH_COUNT: usize = 13;

const SECOND_COUNT: usize = 28;

/// Where a counting word lies.
#[inline(always)]
fn count_index(which: Counter) -> usize
    ensures { (result ≡ count_at Unbounded which) × (result < 32) }
{
    match which {
        Counter::First => FIRST_COUNT,
        Counter::Second => SECOND_COUNT,
        Counter::Third => THIRD_COUNT,
        Counter::Fourth => FOURTH_COUNT,
        Counter::Fifth => FIFTH_COUNT,
        Counter::Sixth => SIXTH_COUNT,
    }
}

impl<'a, T: Drop, A, P: BlockMachine<T, A>, R> BlockCall<'a, T, A, P, R> {
    /// What the word holds.
    #[inline(always)]
    pub fn count(&mut self, which: Counter) -> u64
        requires next { (n : ℕ) → (a : A) × P.counts (party_of self.old.seat).form (party_of self.old.seat).state a which Read n }
        ensures made { P.counts (party_of self.old.seat).form (party_of self.old.seat).state (party_of self.new.seat).state which Read result }
        ensures same { IsSameParty self.old.seat self.new.seat }
    {
        let at = count_index(which);
        // What this load finds is the count at this step of the history.
        self.table.table.load::<CountReads<P>>(&mut self.seat, at)
    }

    /// Lowers the word by one and answers what it held. A word that holds 0 wraps to 2^64 - 1; the machine has to exclude that.
    #[inline(always)]
    pub fn lower_count(&mut self, which: Counter) -> u64
        requires next { (n : ℕ) → (a : A) × P.counts (party_of self.old.seat).form (party_of self.old.seat).state a which Lower n }
        ensures made { P.counts (party_of self.old.seat).form (party_of self.old.seat).state (party_of self.new.seat).state which Lower result }
        ensures same { IsSameParty self.old.seat self.new.seat }
    {
        let at = count_index(which);
        // Read and lowered in one operation: of two calls that lower the word at once, only one may find that it was the last. To add
        // 2^64 - 1 is to take 1 away, since the sum wraps.
        self.table
            .table
            .fetch_add::<CountLowers<P>>(&mut self.seat, at, u64::MAX)
    }

    /// Raises the word by one if it holds `from`, and answers what it held.
    #[inline(always)]
    pub fn raise_count(&mut self, which: Counter, from: u64) -> u64
        requires room { from < 2 ^ 64 - 1 }
        requires next { (n : ℕ) → (a : A) × P.counts (party_of self.old.seat).form (party_of self.old.seat).state a which (Raise from) n }
        ensures made { P.counts (party_of self.old.seat).form (party_of self.old.seat).state (party_of self.new.seat).state which (Raise from) result }
        ensures same { IsSameParty self.old.seat self.new.seat }
    {
        let at = count_index(which);
        // An exchange, not an add: the caller has tested that there is room above `from`, and of any other number it knows nothing.
        self.table
            .table
            .compare_exchange::<CountRaises<P>>(&mut self.seat, at, from, from + 1)
    }

    /// Sets the word to `value`. The caller's proof says by a relation where this leads the party, and passes what it is about.
    #[inline(always)]
    pub fn set_count<E: LeadsTo<A>, X, Y>(
        &mut self,
        which: Counter,
        value: u64,
        _about: &X,
        _and: &Y,
    )
        requires next { (a : A) × ((n : ℕ) → P.counts (party_of self.old.seat).form (party_of self.old.seat).state a which (Set value) n) × E.to (party_of self.old.seat).state a }
        ensures made { E.to (party_of self.old.seat).state (party_of self.new.seat).state }
        ensures same { IsSameParty self.old.seat self.new.seat }
    {
        let at = count_index(which);
        // One store together with what the party does, so a call that reads the word sees both or neither.
        self.table
            .table
            .store::<CountSets<E>>(&mut self.seat, at, value);
    }

    /// True: the word held 0, and at that step the party went where the caller's proof says. False: it held another number, and nothing was
    /// done.
    #[inline(always)]
    pub fn pass_count<E: LeadsTo<A>, X, Y>(&mut self, which: Counter, _about: &X, _and: &Y) -> bool
        requires next { (a : A) × P.counts (party_of self.old.seat).form (party_of self.old.seat).state a which Read 0 × E.to (party_of self.old.seat).state a }
        ensures made { MatchBool result (E.to (party_of self.old.seat).state (party_of self.new.seat).state) (me_of self.new.seat ≡ me_of self.old.seat) }
        ensures same { IsSameParty self.old.seat self.new.seat }
    {
        let at = count_index(which);
        // If it finds 0, this load is the whole step: at this moment nobody was counted.
        let found = self.table.table.load::<CountPasses<E>>(&mut self.seat, at);
        found == 0
    }
}
