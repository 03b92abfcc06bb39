//! The cells of a bounded queue that threads share, accessed by a seat. Each operation is one atomic operation on the table and one event
//! of its history; its caller proves that it is the next one of the party's machine. The machines (`single`, `bounded`) have the reason for
//! each.
//!
//! Each slot has a guard word. The invariant: a slot is out of the table only while its guard is 1, and then with the seat that set it. So
//! two threads never touch a slot at once, whatever the words hold.

ghost use Rattle.std.specs.Prelude.{false, ◌≡◌, ℕ, ◌+◌, ◌<◌, ◌≤◌, ◌^◌, [], ◌++◌, replicate, None, Some, Option, Ok, Err, Result, IfOk, MatchResult, MatchOption, MatchBool};
ghost use Rattle.concurrent_queue.specs.Bridge.{does};
ghost use Rattle.concurrent_queue.specs.Deeds.{loaded, stored, exchanged, added, bits_set, bits_kept, did_put, did_take};
ghost use Rattle.concurrent_queue.specs.machine.RingMade.{numbers_below};
ghost use Rattle.concurrent_queue.specs.Places.{place_of, index_of};
ghost use Rattle.concurrent_queue.specs.history.Shared.{slots_of, stamps_of, words_of, flag_at, IsOwn, IsAbsent, IsNoSlot, answer, counts_set, LeavesAll};
ghost use Rattle.concurrent_queue.specs.declared.cells.QueueForm.TheVariants.{Bounded};
ghost use Rattle.concurrent_queue.specs.declared.cells.Slot.TheVariants.{At};

use crate::QueueForm;
use crate::cells::{Slot, Word};
use crate::history::rule::{
    Adds, Exchanges, Gives, Happened, Happens, KeepsBits, Loads, Machine, OneHistory, Puts,
    SetsBits, Stores, Takes, View,
};
use crate::history::seats::IdleSeat;
use atomic_table::{Seat, Table};
use std::alloc::{AllocError, Global};
use std::marker::Brand;

/// The kit's table under the rule of one history.
pub(crate) type KitTable<T, A, P> = Table<Option<T>, View<T, A>, QueueForm, OneHistory<P>, Global>;

/// Where each of the queue's own words lies behind the guards, and the first stamp.
const STATE: usize = 0;

const HEAD: usize = 1;

const HEAD_BLOCK: usize = 2;

const TAIL: usize = 16;

const TAIL_BLOCK: usize = 17;

const STAMPS: usize = 32;

/// Where the word lies that is 0 until a foreign call is admitted, apart from the queue's own words. It is no word of the queue.
const FLAG: usize = 24;

/// Where the words lie with which the machine counts, the second apart from the others. They are no words of the queue either.
pub(crate) const FIRST_COUNT: usize = 9;

pub(crate) const THIRD_COUNT: usize = 10;

pub(crate) const FOURTH_COUNT: usize = 11;

pub(crate) const FIFTH_COUNT: usize = 12;

pub(crate) const SIXTH_COUNT: usize = 13;

pub(crate) const SECOND_COUNT: usize = 28;

/// The cells of a bounded queue: a guard for each slot, the queue's own words, and the slots.
#[derive(Drop)]
pub struct RuledTable<T, A, P: Machine<T, A>> {
    pub(crate) table: KitTable<T, A, P>,
    ghost bounded: { table.shared.key ≡ Bounded table.shared.table_id.slots },
    ghost slots: { table.shared.table_id.slots ≡ slots_of table.shared.key },
    ghost words: { table.shared.table_id.words ≡ slots_of table.shared.key + words_of table.shared.key },
}

/// The cells from the seat of a party that acts. The seat holds no slot and knows its number. It has no drop, so a body that leaves a call
/// in the middle does not type-check.
pub struct CallSeat<'a, T, A, P: Machine<T, A>> {
    pub(crate) table: &'a KitTable<T, A, P>,
    /// How many slots the table has. It is loaded once, since each operation on a word may have changed what memory holds.
    pub(crate) count: usize,
    pub(crate) seat: Seat<Option<T>, View<T, A>>,
    ghost counted: { count ≡ table.now.shared.table_id.slots },
    ghost bounded: { table.now.shared.key ≡ Bounded table.now.shared.table_id.slots },
    ghost slots: { table.now.shared.table_id.slots ≡ slots_of table.now.shared.key },
    ghost words: { table.now.shared.table_id.words ≡ slots_of table.now.shared.key + words_of table.now.shared.key },
    ghost seated: { (seat.table_id ≡ table.now.shared.table_id) × (seat.me.0.form ≡ table.now.shared.key) },
    ghost free: { (seat.me.0.held ≡ None) × (seat.me.1 ≡ []) },
    ghost live: { seat.me.0.spent ≡ false },
    ghost named: { seat.me.0.nameless ≡ false },
}

/// How many stamps the words of a queue have: one for each slot of a ring.
#[inline(always)]
fn stamps_for(capacity: usize) -> usize
    ensures { result ≡ stamps_of (Bounded capacity) }
{
    if capacity == 1 { 0 } else { capacity }
}

/// So many words that hold 0.
fn zeros(alloc: Global, count: usize) -> Result<Vec<u64>, AllocError>
    ensures { IfOk result (λ v. v.items ≡ replicate count 0) }
{
    let mut words = Vec::new(alloc);
    for place in 0..count {
        words.push(0)?;
    }
    Ok(words)
}

/// All words of a new table: the guards and the queue's own words, which hold 0, and then the stamps, which hold 0, 1, 2 and so on. Among
/// the queue's own words lie the two counts.
fn first_words(
    alloc: Global,
    slots: usize,
    stamps: usize,
    counted: u64,
) -> Result<Vec<u64>, AllocError>
    requires { slots ≤ 2 ^ 58 }
    ensures { IfOk result (λ v. v.items ≡ counts_set slots counted (replicate (slots + 32) 0 ++ numbers_below stamps)) }
{
    let mut words = zeros(alloc, slots + STAMPS)?;
    for stamp in 0..stamps {
        words.push(stamp as u64)?;
    }
    words[slots + FIRST_COUNT] = counted;
    words[slots + SECOND_COUNT] = counted;
    Ok(words)
}

/// Where the flag lies.
#[inline(always)]
pub(crate) fn flag_index<T, A, P: Machine<T, A>>(table: &KitTable<T, A, P>) -> usize
    requires slots { table.now.shared.table_id.slots ≡ slots_of table.now.shared.key }
    requires words { table.now.shared.table_id.words ≡ slots_of table.now.shared.key + words_of table.now.shared.key }
    ensures { (result ≡ flag_at table.now.shared.key) × (result < table.now.shared.table_id.words) }
{
    let _end = table.word_count();
    table.slot_count() + FLAG
}

/// Where a word of a queue with so many slots lies, if there is such a word.
#[inline(always)]
pub(crate) fn word_index<T, A, P: Machine<T, A>>(
    table: &KitTable<T, A, P>,
    count: usize,
    at: Word,
) -> Option<usize>
    requires counted { count ≡ table.now.shared.table_id.slots }
    requires bounded { table.now.shared.key ≡ Bounded table.now.shared.table_id.slots }
    requires slots { table.now.shared.table_id.slots ≡ slots_of table.now.shared.key }
    requires words { table.now.shared.table_id.words ≡ slots_of table.now.shared.key + words_of table.now.shared.key }
    ensures { MatchOption result (IsAbsent table.now.shared.key at)
        (λ i. IsOwn table.now.shared.key at × (i ≡ slots_of table.now.shared.key + index_of (place_of at)) × (i < table.now.shared.table_id.words)) }
{
    let _end = table.word_count();
    match at {
        Word::State => Some(count + STATE),
        Word::Head => Some(count + HEAD),
        Word::Tail => Some(count + TAIL),
        Word::HeadBlock => Some(count + HEAD_BLOCK),
        Word::TailBlock => Some(count + TAIL_BLOCK),
        Word::Stamp(index) => {
            if index < stamps_for(count) as u64 {
                Some(count + STAMPS + index as usize)
            } else {
                None
            }
        }
        Word::Next(_) | Word::Reads(_) | Word::Written(_, _) => None,
    }
}

/// Where a slot of a queue with so many slots lies, if there is such a slot.
#[inline(always)]
pub(crate) fn slot_index<T, A, P: Machine<T, A>>(
    _table: &KitTable<T, A, P>,
    count: usize,
    at: Slot,
) -> Option<usize>
    requires counted { count ≡ _table.now.shared.table_id.slots }
    requires slots { _table.now.shared.table_id.slots ≡ slots_of _table.now.shared.key }
    ensures { MatchOption result (IsNoSlot _table.now.shared.key at) (λ i. (at ≡ At i) × (i < _table.now.shared.table_id.slots)) }
{
    match at {
        Slot::At(index) => {
            if index < count as u64 {
                Some(index as usize)
            } else {
                None
            }
        }
        Slot::In(_, _) => None,
    }
}

impl<T, A, P: Machine<T, A>> RuledTable<T, A, P> {
    /// The cells of a new queue that holds at most `capacity` messages, with the table's first party. `Err` if there is no memory for them.
    pub fn new(
        alloc: Global,
        capacity: usize,
        counted: u64,
    ) -> Result<(RuledTable<T, A, P>, IdleSeat<T, A>), AllocError>
        requires capacity { (0 < capacity) × (capacity ≤ 2 ^ 58) }
        requires counted { counted ≡ P.counted }
        requires rests { P.rests P.opened }
        ensures form { IfOk result (λ r. r.0.table.shared.key ≡ Bounded capacity) }
        ensures first { IfOk result (λ r. (r.1.seat.me.0.state ≡ P.opened) × (r.1.seat.me.0.who ≡ 0) × (r.1.seat.me.0.over ≡ []) × (r.1.seat.table_id ≡ r.0.table.shared.table_id)) }
    {
        let stamps = stamps_for(capacity);
        let words = first_words(alloc, capacity, stamps, counted)?;
        let form = QueueForm::Bounded(capacity);
        let (table, seat) = Table::vacant(alloc, words.as_slice(), capacity, &form)?;
        Ok((RuledTable { table }, IdleSeat { seat }))
    }
}

impl<'a, T, A, P: Machine<T, A>> CallSeat<'a, T, A, P> {
    /// Which kind of queue it is.
    #[inline(always)]
    pub fn form(&self) -> QueueForm
        ensures { result ≡ self.now.seat.me.0.form }
    {
        QueueForm::Bounded(self.count)
    }

    /// An operation that leaves all cells as they are, which the proof of the call picks. It costs one load, since a view changes only in
    /// an atomic operation.
    #[inline(always)]
    fn happen<E: Happens<T>, X, Y>(&mut self, _about: &X, _and: &Y)
        requires quiet { LeavesAll self.old.table.now.shared.key E.deed }
        requires next { (a : A) × P.moves self.old.seat.me.0.form self.old.seat.me.0.state (does (Some E.deed)) a }
        ensures made { P.moves self.old.seat.me.0.form self.old.seat.me.0.state (does (Some E.deed)) self.new.seat.me.0.state }
        ensures same { (self.new.seat.table_id ≡ self.old.seat.table_id) × (self.new.seat.me.0.who ≡ self.old.seat.me.0.who) × (self.new.seat.me.0.form ≡ self.old.seat.me.0.form) × (self.new.seat.me.0.over ≡ self.old.seat.me.0.over) }
    {
        let at = flag_index(self.table);
        // Nobody needs the answer. Nobody writes the flag but the first foreign call.
        self.table.shared.load::<Happened<P, E>>(&mut self.seat, at);
    }

    /// What the word holds; 0 if there is no such word.
    #[inline(always)]
    pub fn load(&mut self, at: Word) -> u64
        requires next { (n : ℕ) → (a : A) × P.moves self.old.seat.me.0.form self.old.seat.me.0.state (does (Some (loaded at n))) a }
        ensures made { P.moves self.old.seat.me.0.form self.old.seat.me.0.state (does (Some (loaded at result))) self.new.seat.me.0.state }
        ensures same { (self.new.seat.table_id ≡ self.old.seat.table_id) × (self.new.seat.me.0.who ≡ self.old.seat.me.0.who) × (self.new.seat.me.0.form ≡ self.old.seat.me.0.form) × (self.new.seat.me.0.over ≡ self.old.seat.me.0.over) }
    {
        match word_index(self.table, self.count, at) {
            Some(index) => self.table.shared.load::<Loads<P>>(&mut self.seat, index),
            None => {
                self.happen::<Brand, Word, ()>(&at, &());
                0
            }
        }
    }

    /// Writes the word, if there is one.
    #[inline(always)]
    pub fn store(&mut self, at: Word, value: u64)
        requires next { (a : A) × P.moves self.old.seat.me.0.form self.old.seat.me.0.state (does (Some (stored at value))) a }
        ensures made { P.moves self.old.seat.me.0.form self.old.seat.me.0.state (does (Some (stored at value))) self.new.seat.me.0.state }
        ensures same { (self.new.seat.table_id ≡ self.old.seat.table_id) × (self.new.seat.me.0.who ≡ self.old.seat.me.0.who) × (self.new.seat.me.0.form ≡ self.old.seat.me.0.form) × (self.new.seat.me.0.over ≡ self.old.seat.me.0.over) }
    {
        match word_index(self.table, self.count, at) {
            Some(index) => self
                .table
                .shared
                .store::<Stores<P>>(&mut self.seat, index, value),
            None => self.happen::<Brand, Word, u64>(&at, &value),
        }
    }

    /// Writes `next` if the word holds `expected`, and answers what it held. A word that isn't there holds 0 and stays so.
    #[inline(always)]
    pub fn compare_exchange(&mut self, at: Word, expected: u64, next: u64) -> u64
        requires next { (n : ℕ) → (a : A) × P.moves self.old.seat.me.0.form self.old.seat.me.0.state (does (Some (exchanged at expected next (answer n expected)))) a }
        ensures made { P.moves self.old.seat.me.0.form self.old.seat.me.0.state (does (Some (exchanged at expected next (answer result expected)))) self.new.seat.me.0.state }
        ensures same { (self.new.seat.table_id ≡ self.old.seat.table_id) × (self.new.seat.me.0.who ≡ self.old.seat.me.0.who) × (self.new.seat.me.0.form ≡ self.old.seat.me.0.form) × (self.new.seat.me.0.over ≡ self.old.seat.me.0.over) }
    {
        match word_index(self.table, self.count, at) {
            Some(index) => self
                .table
                .shared
                .compare_exchange::<Exchanges<P>>(&mut self.seat, index, expected, next),
            None => {
                self.happen::<Brand, Word, (u64, u64)>(&at, &(expected, next));
                0
            }
        }
    }

    /// Adds to the word, and answers what it held. The sum wraps at 2^64.
    #[inline(always)]
    pub fn fetch_add(&mut self, at: Word, by: u64) -> u64
        requires next { (n : ℕ) → (a : A) × P.moves self.old.seat.me.0.form self.old.seat.me.0.state (does (Some (added at by n))) a }
        ensures made { P.moves self.old.seat.me.0.form self.old.seat.me.0.state (does (Some (added at by result))) self.new.seat.me.0.state }
        ensures same { (self.new.seat.table_id ≡ self.old.seat.table_id) × (self.new.seat.me.0.who ≡ self.old.seat.me.0.who) × (self.new.seat.me.0.form ≡ self.old.seat.me.0.form) × (self.new.seat.me.0.over ≡ self.old.seat.me.0.over) }
    {
        match word_index(self.table, self.count, at) {
            Some(index) => self
                .table
                .shared
                .fetch_add::<Adds<P>>(&mut self.seat, index, by),
            None => {
                self.happen::<Brand, Word, u64>(&at, &by);
                0
            }
        }
    }

    /// Sets these bits of the word, and answers what it held.
    #[inline(always)]
    pub fn fetch_or(&mut self, at: Word, bits: u64) -> u64
        requires next { (n : ℕ) → (a : A) × P.moves self.old.seat.me.0.form self.old.seat.me.0.state (does (Some (bits_set at bits n))) a }
        ensures made { P.moves self.old.seat.me.0.form self.old.seat.me.0.state (does (Some (bits_set at bits result))) self.new.seat.me.0.state }
        ensures same { (self.new.seat.table_id ≡ self.old.seat.table_id) × (self.new.seat.me.0.who ≡ self.old.seat.me.0.who) × (self.new.seat.me.0.form ≡ self.old.seat.me.0.form) × (self.new.seat.me.0.over ≡ self.old.seat.me.0.over) }
    {
        match word_index(self.table, self.count, at) {
            Some(index) => self
                .table
                .shared
                .fetch_or::<SetsBits<P>>(&mut self.seat, index, bits),
            None => {
                self.happen::<Brand, Word, u64>(&at, &bits);
                0
            }
        }
    }

    /// Keeps these bits of the word and clears all others, and answers what it held.
    #[inline(always)]
    pub fn fetch_and(&mut self, at: Word, bits: u64) -> u64
        requires next { (n : ℕ) → (a : A) × P.moves self.old.seat.me.0.form self.old.seat.me.0.state (does (Some (bits_kept at bits n))) a }
        ensures made { P.moves self.old.seat.me.0.form self.old.seat.me.0.state (does (Some (bits_kept at bits result))) self.new.seat.me.0.state }
        ensures same { (self.new.seat.table_id ≡ self.old.seat.table_id) × (self.new.seat.me.0.who ≡ self.old.seat.me.0.who) × (self.new.seat.me.0.form ≡ self.old.seat.me.0.form) × (self.new.seat.me.0.over ≡ self.old.seat.me.0.over) }
    {
        match word_index(self.table, self.count, at) {
            Some(index) => self
                .table
                .shared
                .fetch_and::<KeepsBits<P>>(&mut self.seat, index, bits),
            None => {
                self.happen::<Brand, Word, u64>(&at, &bits);
                0
            }
        }
    }
}

impl<'a, T, A, P: Machine<T, A>> CallSeat<'a, T, A, P> {
    /// Takes the message out of a slot. `None`: another seat holds the slot, and nothing was done. A slot that isn't there holds nothing.
    #[inline(always)]
    pub fn try_take(&mut self, at: Slot) -> Option<Option<T>>
        requires next { (o : Option T) → (a : A) × P.moves self.old.seat.me.0.form self.old.seat.me.0.state (does (Some (did_take at o))) a }
        ensures made { MatchOption result (self.new.seat.me ≡ self.old.seat.me)
            (λ o. P.moves self.old.seat.me.0.form self.old.seat.me.0.state (does (Some (did_take at o))) self.new.seat.me.0.state) }
        ensures same { (self.new.seat.table_id ≡ self.old.seat.table_id) × (self.new.seat.me.0.who ≡ self.old.seat.me.0.who) × (self.new.seat.me.0.form ≡ self.old.seat.me.0.form) × (self.new.seat.me.0.over ≡ self.old.seat.me.0.over) }
    {
        match slot_index(self.table, self.count, at) {
            Some(index) => self.take_from(index),
            None => {
                self.happen::<Brand, Slot, ()>(&at, &());
                Some(None)
            }
        }
    }

    /// Puts a message into an empty slot. `Err` returns the message: with `true` the slot was full or isn't there; with `false` another
    /// seat holds it, and nothing was done.
    #[inline(always)]
    pub fn try_put(&mut self, at: Slot, value: T) -> Result<(), (T, bool)>
        requires next { (o : Result Unit T) → (a : A) × P.moves self.old.seat.me.0.form self.old.seat.me.0.state (does (Some (did_put at value o))) a }
        ensures made { MatchResult result (λ u. P.moves self.old.seat.me.0.form self.old.seat.me.0.state (does (Some (did_put at value (Ok tt)))) self.new.seat.me.0.state)
            (λ e. (e.0 ≡ value) × MatchBool e.1 (P.moves self.old.seat.me.0.form self.old.seat.me.0.state (does (Some (did_put at value (Err value)))) self.new.seat.me.0.state) (self.new.seat.me ≡ self.old.seat.me)) }
        ensures same { (self.new.seat.table_id ≡ self.old.seat.table_id) × (self.new.seat.me.0.who ≡ self.old.seat.me.0.who) × (self.new.seat.me.0.form ≡ self.old.seat.me.0.form) × (self.new.seat.me.0.over ≡ self.old.seat.me.0.over) }
    {
        match slot_index(self.table, self.count, at) {
            Some(index) => self.put_into(index, value),
            None => {
                self.happen::<Brand, Slot, T>(&at, &value);
                Err((value, true))
            }
        }
    }

    /// Takes the message out of a slot that is there.
    #[inline(always)]
    fn take_from(&mut self, index: usize) -> Option<Option<T>>
        requires there { index < self.old.table.now.shared.table_id.slots }
        requires next { (o : Option T) → (a : A) × P.moves self.old.seat.me.0.form self.old.seat.me.0.state (does (Some (did_take (At index) o))) a }
        ensures made { MatchOption result (self.new.seat.me ≡ self.old.seat.me)
            (λ o. P.moves self.old.seat.me.0.form self.old.seat.me.0.state (does (Some (did_take (At index) o))) self.new.seat.me.0.state) }
        ensures same { (self.new.seat.table_id ≡ self.old.seat.table_id) × (self.new.seat.me.0.who ≡ self.old.seat.me.0.who) × (self.new.seat.me.0.form ≡ self.old.seat.me.0.form) × (self.new.seat.me.0.over ≡ self.old.seat.me.0.over) }
    {
        let shared = &self.table.shared;
        // An exchange from 0: only one seat wins the guard, and until it stores 0 nobody else touches the slot. This is the event of the
        // history.
        if shared.compare_exchange::<Takes<P>>(&mut self.seat, index, 0, 1) != 0 {
            return None;
        }
        // The guard is won, so this access to the slot races with none.
        let found = shared.exchange(&mut self.seat, index, None);
        // After the access: the next winner of the guard finds the slot as it is left. A store suffices, since only its holder writes a
        // guard of 1.
        shared.store::<Gives>(&mut self.seat, index, 0);
        Some(found)
    }

    /// Puts a message into a slot that is there.
    #[inline(always)]
    fn put_into(&mut self, index: usize, value: T) -> Result<(), (T, bool)>
        requires there { index < self.old.table.now.shared.table_id.slots }
        requires next { (o : Result Unit T) → (a : A) × P.moves self.old.seat.me.0.form self.old.seat.me.0.state (does (Some (did_put (At index) value o))) a }
        ensures made { MatchResult result (λ u. P.moves self.old.seat.me.0.form self.old.seat.me.0.state (does (Some (did_put (At index) value (Ok tt)))) self.new.seat.me.0.state)
            (λ e. (e.0 ≡ value) × MatchBool e.1 (P.moves self.old.seat.me.0.form self.old.seat.me.0.state (does (Some (did_put (At index) value (Err value)))) self.new.seat.me.0.state) (self.new.seat.me ≡ self.old.seat.me)) }
        ensures same { (self.new.seat.table_id ≡ self.old.seat.table_id) × (self.new.seat.me.0.who ≡ self.old.seat.me.0.who) × (self.new.seat.me.0.form ≡ self.old.seat.me.0.form) × (self.new.seat.me.0.over ≡ self.old.seat.me.0.over) }
    {
        let shared = &self.table.shared;
        let brought = Some(value);
        // As in `take_from`. The message is lent to the operation, since the event of the history names it.
        if shared.compare_exchange_with::<Puts<P>>(&mut self.seat, index, 0, 1, &brought) != 0 {
            return match brought {
                Some(value) => Err((value, false)),
                None => unreachable!(),
            };
        }
        // The old content shows whether the slot was empty.
        match shared.exchange(&mut self.seat, index, brought) {
            None => {
                shared.store::<Gives>(&mut self.seat, index, 0);
                Ok(())
            }
            Some(old) => {
                // The slot was full: put the old message back before the guard is released, so that nobody sees it missing.
                let back = shared.exchange(&mut self.seat, index, Some(old));
                shared.store::<Gives>(&mut self.seat, index, 0);
                match back {
                    Some(value) => Err((value, true)),
                    None => unreachable!(),
                }
            }
        }
    }
}
