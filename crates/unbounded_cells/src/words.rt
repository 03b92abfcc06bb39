//! Operations on the words of an unbounded queue, from the seat of a call. Each is one atomic operation on the table and one event of its
//! history; its caller proves that it is the next one of the party's machine. The machine (`unbounded` of `concurrent_queue`) has the reason
//! for each.
//!
//! To find a block costs two or three loads, so the seat keeps the place of the block on which it worked last. Blocks are never freed before
//! the table, so a place stays good.

ghost use Rattle.std.specs.Prelude.{◌≡◌, ℕ, ◌<◌, ◌^◌, Option, Some, MatchOption};
ghost use Rattle.growing_table.specs.Seats.{me_of, Finds};
ghost use Rattle.concurrent_queue.specs.Bridge.{does};
ghost use Rattle.concurrent_queue.specs.Deeds.{loaded, stored, exchanged, added, bits_set, bits_kept};
ghost use Rattle.concurrent_queue.specs.history.Shared.{answer};
ghost use Rattle.concurrent_queue.specs.declared.cells.Word.TheVariants.{Written};
ghost use Rattle.unbounded_cells.specs.Laws.{deed_block, word_block};
ghost use Rattle.unbounded_cells.specs.Seated.{party_of, IsSameParty};
ghost use Rattle.unbounded_cells.specs.Words.{IsReached, IsNowhere, LeavesAll};

use crate::plays::{
    Adds, Exchanges, Happened, KeepsBits, Loads, Misses, Offset, ReadsFlag, SetsBits, SetsFlag,
    Stores,
};
use crate::rule::BlockMachine;
use crate::table::BlockCall;
use concurrent_queue::QueueForm;
use concurrent_queue::cells::Word;
use concurrent_queue::history::rule::Happens;
use growing_table::Place;
use std::marker::Brand;

/// Where the queue's own words lie among the table's, those of the head apart from those of the tail.
const STATE: usize = 0;

const HEAD: usize = 1;

const HEAD_BLOCK: usize = 2;

const TAIL: usize = 16;

const TAIL_BLOCK: usize = 17;

/// Where the word lies that is 0, and that nobody writes.
const FLAG: usize = 24;

/// How many slots a block has, each with a guard, and where its words lie behind the guards.
pub(crate) const SLOTS: u64 = 31;

const NEXT: usize = 31;

const READS: usize = 32;

const FLAGS: usize = 33;

/// The flag of a slot in its block's word of flags.
#[inline(always)]
fn flag_bit(offset: u64) -> u64
    ensures { offset < 31 → result ≡ 2 ^ offset }
{
    if offset < SLOTS { 1 << offset } else { 0 }
}

/// What an operation on a word works on.
pub enum Reached<T> {
    /// A word of the table's own.
    Own(usize),
    /// A word of the block that lies there.
    Within(Place<T>, usize),
    /// A bit of that block's word of flags.
    Flag(Place<T>, u64),
    /// No word: the operation was made, and found 0.
    Nowhere,
}

impl<'a, T: Drop, A, P: BlockMachine<T, A>, R> BlockCall<'a, T, A, P, R> {
    /// Which kind of queue it is.
    #[inline(always)]
    pub fn form(&self) -> QueueForm
        ensures { result ≡ (party_of self.now.seat).form }
    {
        QueueForm::Unbounded
    }

    /// An operation that leaves all cells as they are. It costs one load, since a view changes only in an atomic operation.
    #[inline(always)]
    pub(crate) fn happen<E: Happens<T>>(&mut self)
        requires leaves { LeavesAll E.deed }
        requires next { (a : A) × P.moves (party_of self.old.seat).form (party_of self.old.seat).state (does (Some E.deed)) a }
        ensures made { P.moves (party_of self.old.seat).form (party_of self.old.seat).state (does (Some E.deed)) (party_of self.new.seat).state }
        ensures same { IsSameParty self.old.seat self.new.seat }
    {
        // Nobody needs the answer, and nobody writes this word. Without the load no view could say that the operation was made.
        self.table
            .table
            .load::<Happened<P, E>>(&mut self.seat, FLAG);
    }

    /// Where the block of this number lies. `None`: it was never made, and the operation on it was made, which finds nothing there.
    #[inline(always)]
    pub(crate) fn locate<E: Happens<T>>(&mut self, number: u64) -> Option<Place<T>>
        requires on { deed_block E.deed ≡ Some number }
        requires next { (a : A) × P.moves (party_of self.old.seat).form (party_of self.old.seat).state (does (Some E.deed)) a }
        ensures found { MatchOption result (P.moves (party_of self.old.seat).form (party_of self.old.seat).state (does (Some E.deed)) (party_of self.new.seat).state)
            (λ place. (place.number ≡ number) × Finds self.new.seat place × (me_of self.new.seat ≡ me_of self.old.seat)) }
        ensures same { IsSameParty self.old.seat self.new.seat }
    {
        if let Some(place) = self.last {
            if place.number() == number {
                return Some(place);
            }
        }
        // It reads how many blocks there are. A machine works only on blocks that were made, so it finds this one, unless the history is as
        // long as there are positions; the step tells the seat which.
        let found = self
            .table
            .table
            .find::<Misses<P, E>>(&mut self.seat, number);
        self.last = found;
        found
    }

    /// What an operation on this word works on.
    #[inline(always)]
    fn reach<E: Happens<T>, X>(&mut self, at: Word, _about: &X) -> Reached<T>
        requires on { deed_block E.deed ≡ word_block at }
        requires leaves { IsNowhere at → LeavesAll E.deed }
        requires next { (a : A) × P.moves (party_of self.old.seat).form (party_of self.old.seat).state (does (Some E.deed)) a }
        ensures reached { IsReached (P.moves (party_of self.old.seat).form (party_of self.old.seat).state (does (Some E.deed)) (party_of self.new.seat).state) self.old.seat self.new.seat at result }
        ensures same { IsSameParty self.old.seat self.new.seat }
    {
        match at {
            Word::State => Reached::Own(STATE),
            Word::Head => Reached::Own(HEAD),
            Word::Tail => Reached::Own(TAIL),
            Word::HeadBlock => Reached::Own(HEAD_BLOCK),
            Word::TailBlock => Reached::Own(TAIL_BLOCK),
            Word::Next(block) => match self.locate::<E>(block) {
                Some(place) => Reached::Within(place, NEXT),
                None => Reached::Nowhere,
            },
            Word::Reads(block) => match self.locate::<E>(block) {
                Some(place) => Reached::Within(place, READS),
                None => Reached::Nowhere,
            },
            Word::Written(block, offset) => {
                if offset < SLOTS {
                    match self.locate::<E>(block) {
                        Some(place) => Reached::Flag(place, offset),
                        None => Reached::Nowhere,
                    }
                } else {
                    self.happen::<E>();
                    Reached::Nowhere
                }
            }
            Word::Stamp(_) => {
                self.happen::<E>();
                Reached::Nowhere
            }
        }
    }

    /// What the word holds; 0 if there is no such word.
    #[inline(always)]
    pub fn load(&mut self, at: Word) -> u64
        requires next { (n : ℕ) → (a : A) × P.moves (party_of self.old.seat).form (party_of self.old.seat).state (does (Some (loaded at n))) a }
        ensures made { P.moves (party_of self.old.seat).form (party_of self.old.seat).state (does (Some (loaded at result))) (party_of self.new.seat).state }
        ensures same { IsSameParty self.old.seat self.new.seat }
    {
        match self.reach::<Brand, ()>(at, &()) {
            Reached::Own(index) => self.table.table.load::<Loads<P>>(&mut self.seat, index),
            Reached::Within(place, index) => self
                .table
                .table
                .load_in::<Loads<P>>(&mut self.seat, place, index),
            Reached::Flag(place, offset) => self.load_flag::<Brand>(place, offset),
            Reached::Nowhere => 0,
        }
    }

    /// The flag of a slot of the block that lies there.
    #[inline(always)]
    fn load_flag<F: Offset>(&mut self, place: Place<T>, offset: u64) -> u64
        requires place { Finds self.old.seat place × (offset < 31) × (F.offset ≡ offset) }
        requires next { (n : ℕ) → (a : A) × P.moves (party_of self.old.seat).form (party_of self.old.seat).state (does (Some (loaded (Written place.number offset) n))) a }
        ensures made { P.moves (party_of self.old.seat).form (party_of self.old.seat).state (does (Some (loaded (Written place.number offset) result))) (party_of self.new.seat).state }
        ensures same { IsSameParty self.old.seat self.new.seat }
    {
        let flags = self
            .table
            .table
            .load_in::<ReadsFlag<P, F>>(&mut self.seat, place, FLAGS);
        (flags >> offset) & 1
    }

    /// Writes the word, if there is one.
    #[inline(always)]
    pub fn store(&mut self, at: Word, value: u64)
        requires next { (a : A) × P.moves (party_of self.old.seat).form (party_of self.old.seat).state (does (Some (stored at value))) a }
        ensures made { P.moves (party_of self.old.seat).form (party_of self.old.seat).state (does (Some (stored at value))) (party_of self.new.seat).state }
        ensures same { IsSameParty self.old.seat self.new.seat }
    {
        match self.reach::<Brand, u64>(at, &value) {
            Reached::Own(index) => self
                .table
                .table
                .store::<Stores<P>>(&mut self.seat, index, value),
            Reached::Within(place, index) => self
                .table
                .table
                .store_in::<Stores<P>>(&mut self.seat, place, index, value),
            Reached::Flag(place, offset) => self.set_flag::<Brand>(place, offset),
            Reached::Nowhere => {}
        }
    }

    /// Sets the flag of a slot of the block that lies there. A machine writes nothing else into a flag than 1.
    #[inline(always)]
    fn set_flag<F: Offset>(&mut self, place: Place<T>, offset: u64)
        requires place { Finds self.old.seat place × (offset < 31) × (F.offset ≡ offset) }
        requires next { (a : A) × P.moves (party_of self.old.seat).form (party_of self.old.seat).state (does (Some (stored (Written place.number offset) 1))) a }
        ensures made { P.moves (party_of self.old.seat).form (party_of self.old.seat).state (does (Some (stored (Written place.number offset) 1))) (party_of self.new.seat).state }
        ensures same { IsSameParty self.old.seat self.new.seat }
    {
        let bit = flag_bit(offset);
        // An `or`, not a store: the flags of the block's other slots are bits of the same word. A store could clear one that another call
        // has set meanwhile, and the pop of that slot would wait for ever.
        self.table
            .table
            .fetch_or_in::<SetsFlag<P, F>>(&mut self.seat, place, FLAGS, bit);
    }

    /// Writes `next` if the word holds `expected`, and answers what it held. A word that isn't there holds 0 and stays so.
    #[inline(always)]
    pub fn compare_exchange(&mut self, at: Word, expected: u64, next: u64) -> u64
        requires next { (n : ℕ) → (a : A) × P.moves (party_of self.old.seat).form (party_of self.old.seat).state (does (Some (exchanged at expected next (answer n expected)))) a }
        ensures made { P.moves (party_of self.old.seat).form (party_of self.old.seat).state (does (Some (exchanged at expected next (answer result expected)))) (party_of self.new.seat).state }
        ensures same { IsSameParty self.old.seat self.new.seat }
    {
        match self.reach::<Brand, (u64, u64)>(at, &(expected, next)) {
            Reached::Own(index) => self
                .table
                .table
                .compare_exchange::<Exchanges<P>>(&mut self.seat, index, expected, next),
            Reached::Within(place, index) => {
                self.table
                    .table
                    .compare_exchange_in::<Exchanges<P>>(
                        &mut self.seat,
                        place,
                        index,
                        expected,
                        next,
                    )
            }
            // A machine only reads flags, or sets them.
            Reached::Flag(_, _) => unreachable!(),
            Reached::Nowhere => 0,
        }
    }

    /// Adds to the word, and answers what it held. The sum wraps at 2^64.
    #[inline(always)]
    pub fn fetch_add(&mut self, at: Word, by: u64) -> u64
        requires next { (n : ℕ) → (a : A) × P.moves (party_of self.old.seat).form (party_of self.old.seat).state (does (Some (added at by n))) a }
        ensures made { P.moves (party_of self.old.seat).form (party_of self.old.seat).state (does (Some (added at by result))) (party_of self.new.seat).state }
        ensures same { IsSameParty self.old.seat self.new.seat }
    {
        match self.reach::<Brand, u64>(at, &by) {
            Reached::Own(index) => self
                .table
                .table
                .fetch_add::<Adds<P>>(&mut self.seat, index, by),
            Reached::Within(place, index) => self
                .table
                .table
                .fetch_add_in::<Adds<P>>(&mut self.seat, place, index, by),
            // A machine only reads flags, or sets them.
            Reached::Flag(_, _) => unreachable!(),
            Reached::Nowhere => 0,
        }
    }

    /// Sets these bits of the word, and answers what it held.
    #[inline(always)]
    pub fn fetch_or(&mut self, at: Word, bits: u64) -> u64
        requires next { (n : ℕ) → (a : A) × P.moves (party_of self.old.seat).form (party_of self.old.seat).state (does (Some (bits_set at bits n))) a }
        ensures made { P.moves (party_of self.old.seat).form (party_of self.old.seat).state (does (Some (bits_set at bits result))) (party_of self.new.seat).state }
        ensures same { IsSameParty self.old.seat self.new.seat }
    {
        match self.reach::<Brand, u64>(at, &bits) {
            Reached::Own(index) => self
                .table
                .table
                .fetch_or::<SetsBits<P>>(&mut self.seat, index, bits),
            Reached::Within(place, index) => self
                .table
                .table
                .fetch_or_in::<SetsBits<P>>(&mut self.seat, place, index, bits),
            // A machine only reads flags, or sets them.
            Reached::Flag(_, _) => unreachable!(),
            Reached::Nowhere => 0,
        }
    }

    /// Keeps these bits of the word and clears all others, and answers what it held.
    #[inline(always)]
    pub fn fetch_and(&mut self, at: Word, bits: u64) -> u64
        requires next { (n : ℕ) → (a : A) × P.moves (party_of self.old.seat).form (party_of self.old.seat).state (does (Some (bits_kept at bits n))) a }
        ensures made { P.moves (party_of self.old.seat).form (party_of self.old.seat).state (does (Some (bits_kept at bits result))) (party_of self.new.seat).state }
        ensures same { IsSameParty self.old.seat self.new.seat }
    {
        match self.reach::<Brand, u64>(at, &bits) {
            Reached::Own(index) => self
                .table
                .table
                .fetch_and::<KeepsBits<P>>(&mut self.seat, index, bits),
            Reached::Within(place, index) => self
                .table
                .table
                .fetch_and_in::<KeepsBits<P>>(&mut self.seat, place, index, bits),
            // A machine only reads flags, or sets them.
            Reached::Flag(_, _) => unreachable!(),
            Reached::Nowhere => 0,
        }
    }
}
