//! Operations on the words with which a machine counts, such as the handles of a channel or the waiters of a wait queue. Each is one atomic
//! operation, whose caller proves that it is the next step of the party's machine. None waits.

ghost use Rattle.std.specs.Prelude.{◌≡◌, ℕ, ◌+◌, ◌-◌, ◌<◌, ◌^◌, MatchBool};
ghost use Rattle.concurrent_queue.specs.history.Shared.{slots_of, words_of, count_at};
ghost use Rattle.concurrent_queue.specs.declared.history.rule.CountStep.TheVariants.{Read, Lower, Raise, Set};

use crate::history::led::LeadsTo;
use crate::history::rule::{
    CountLowers, CountPasses, CountRaises, CountReads, CountSets, Counter, Machine,
};
use crate::history::table::{
    CallSeat, FIFTH_COUNT, FIRST_COUNT, FOURTH_COUNT, KitTable, SECOND_COUNT, SIXTH_COUNT,
    THIRD_COUNT,
};

/// Where a counting word lies.
#[inline(always)]
fn count_index<T, A, P: Machine<T, A>>(table: &KitTable<T, A, P>, which: Counter) -> usize
    requires slots { table.now.shared.table_id.slots ≡ slots_of table.now.shared.key }
    requires words { table.now.shared.table_id.words ≡ slots_of table.now.shared.key + words_of table.now.shared.key }
    ensures { (result ≡ count_at table.now.shared.key which) × (result < table.now.shared.table_id.words) }
{
    let _end = table.word_count();
    match which {
        Counter::First => table.slot_count() + FIRST_COUNT,
        Counter::Second => table.slot_count() + SECOND_COUNT,
        Counter::Third => table.slot_count() + THIRD_COUNT,
        Counter::Fourth => table.slot_count() + FOURTH_COUNT,
        Counter::Fifth => table.slot_count() + FIFTH_COUNT,
        Counter::Sixth => table.slot_count() + SIXTH_COUNT,
    }
}

impl<'a, T, A, P: Machine<T, A>> CallSeat<'a, T, A, P> {
    /// What the word holds.
    #[inline(always)]
    pub fn count(&mut self, which: Counter) -> u64
        requires next { (n : ℕ) → (a : A) × P.counts self.old.seat.me.0.form self.old.seat.me.0.state a which Read n }
        ensures made { P.counts self.old.seat.me.0.form self.old.seat.me.0.state self.new.seat.me.0.state which Read result }
        ensures same { (self.new.seat.table_id ≡ self.old.seat.table_id) × (self.new.seat.me.0.who ≡ self.old.seat.me.0.who) × (self.new.seat.me.0.form ≡ self.old.seat.me.0.form) × (self.new.seat.me.0.over ≡ self.old.seat.me.0.over) }
    {
        let at = count_index(self.table, which);
        // What this load finds is the count at this step of the history.
        self.table.shared.load::<CountReads<P>>(&mut self.seat, at)
    }

    /// Lowers the word by one and answers what it held. A word that holds 0 wraps to 2^64 - 1; the machine has to exclude that.
    #[inline(always)]
    pub fn lower_count(&mut self, which: Counter) -> u64
        requires next { (n : ℕ) → (a : A) × P.counts self.old.seat.me.0.form self.old.seat.me.0.state a which Lower n }
        ensures made { P.counts self.old.seat.me.0.form self.old.seat.me.0.state self.new.seat.me.0.state which Lower result }
        ensures same { (self.new.seat.table_id ≡ self.old.seat.table_id) × (self.new.seat.me.0.who ≡ self.old.seat.me.0.who) × (self.new.seat.me.0.form ≡ self.old.seat.me.0.form) × (self.new.seat.me.0.over ≡ self.old.seat.me.0.over) }
    {
        let at = count_index(self.table, which);
        // Read and lowered in one operation: of two calls that lower the word at once, only one may find that it was the last.
        self.table
            .shared
            .fetch_sub::<CountLowers<P>>(&mut self.seat, at, 1)
    }

    /// Raises the word by one if it holds `from`, and answers what it held.
    #[inline(always)]
    pub fn raise_count(&mut self, which: Counter, from: u64) -> u64
        requires room { from < 2 ^ 64 - 1 }
        requires next { (n : ℕ) → (a : A) × P.counts self.old.seat.me.0.form self.old.seat.me.0.state a which (Raise from) n }
        ensures made { P.counts self.old.seat.me.0.form self.old.seat.me.0.state self.new.seat.me.0.state which (Raise from) result }
        ensures same { (self.new.seat.table_id ≡ self.old.seat.table_id) × (self.new.seat.me.0.who ≡ self.old.seat.me.0.who) × (self.new.seat.me.0.form ≡ self.old.seat.me.0.form) × (self.new.seat.me.0.over ≡ self.old.seat.me.0.over) }
    {
        let at = count_index(self.table, which);
        // An exchange, not an add: the caller has tested that there is room above `from`, and of any other number it knows nothing.
        self.table
            .shared
            .compare_exchange::<CountRaises<P>>(&mut self.seat, at, from, from + 1)
    }

    /// Sets the word to `value`. The caller's proof says by a relation where this leads the party, and passes what it is about.
    #[inline(always)]
    pub fn set_count<E: LeadsTo<A>, X, Y>(
        &mut self,
        which: Counter,
        value: u64,
        _about: &X,
        _and: &Y,
    )
        requires next { (a : A) × ((n : ℕ) → P.counts self.old.seat.me.0.form self.old.seat.me.0.state a which (Set value) n) × E.to self.old.seat.me.0.state a }
        ensures made { E.to self.old.seat.me.0.state self.new.seat.me.0.state }
        ensures same { (self.new.seat.table_id ≡ self.old.seat.table_id) × (self.new.seat.me.0.who ≡ self.old.seat.me.0.who) × (self.new.seat.me.0.form ≡ self.old.seat.me.0.form) × (self.new.seat.me.0.over ≡ self.old.seat.me.0.over) }
    {
        let at = count_index(self.table, which);
        // One store together with what the party does, so a call that reads the word sees both or neither.
        self.table
            .shared
            .store::<CountSets<E>>(&mut self.seat, at, value);
    }

    /// True: the word held 0, and at that step the party went where the caller's proof says. False: it held another number, and nothing was
    /// done.
    #[inline(always)]
    pub fn pass_count<E: LeadsTo<A>, X, Y>(&mut self, which: Counter, _about: &X, _and: &Y) -> bool
        requires next { (a : A) × P.counts self.old.seat.me.0.form self.old.seat.me.0.state a which Read 0 × E.to self.old.seat.me.0.state a }
        ensures made { MatchBool result (E.to self.old.seat.me.0.state self.new.seat.me.0.state) (self.new.seat.me ≡ self.old.seat.me) }
        ensures same { (self.new.seat.table_id ≡ self.old.seat.table_id) × (self.new.seat.me.0.who ≡ self.old.seat.me.0.who) × (self.new.seat.me.0.form ≡ self.old.seat.me.0.form) × (self.new.seat.me.0.over ≡ self.old.seat.me.0.over) }
    {
        let at = count_index(self.table, which);
        // If it finds 0, this load is the whole step: at this moment nobody was counted.
        let found = self.table.shared.load::<CountPasses<E>>(&mut self.seat, at);
        found == 0
    }
}
