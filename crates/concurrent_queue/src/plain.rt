//! The cells of one owner, over which runs step. Nobody else touches them, so what they hold is known and each operation's effect is exact.

ghost use Rattle.std.specs.Prelude.{◌≡◌, IfOk};
ghost use Rattle.concurrent_queue.specs.machine.RingMade.{numbers_below, vacant_slots};

use crate::bounded::GREATEST;
use crate::cells::{Cells, QueueForm, Slot, Word};
use crate::error::NoMemory;
use crate::pool::Pool;
use crate::single::CLOSED;
use std::alloc::{AllocError, Global};

/// The cells of one owner, for each form of queue.
pub struct PlainCells<T> {
    form: QueueForm,
    state: u64,
    head: u64,
    tail: u64,
    stamps: Vec<u64>,
    slots: Vec<Option<T>>,
    head_block: u64,
    tail_block: u64,
    pool: Pool<T>,
}

/// Written by hand, so that crates above prove nothing about the blocks when they drop cells.
impl<T: Drop> Drop for PlainCells<T> {
    fn drop(self) {
        let PlainCells {
            form: _,
            state: _,
            head: _,
            tail: _,
            stamps,
            slots,
            head_block: _,
            tail_block: _,
            pool,
        } = self;
        drop(stamps);
        drop(slots);
        drop(pool);
    }
}

/// The stamps of a new ring: each slot waits for the message that is first at its index.
#[tactic(auto, using(crate::proofs::RingMade::next_number))]
fn first_stamps(alloc: Global, capacity: usize) -> Result<Vec<u64>, AllocError>
    ensures { IfOk result (λ stamps. stamps.items ≡ numbers_below capacity) }
{
    let mut stamps = Vec::with_capacity(alloc, capacity)?;
    for index in 0..capacity {
        match stamps.push(index as u64) {
            Ok(()) => {}
            Err(_) => return Err(AllocError),
        }
    }
    Ok(stamps)
}

/// As many empty slots.
#[tactic(auto, using(crate::proofs::RingMade::next_slot))]
fn empty_slots<T: Drop>(alloc: Global, capacity: usize) -> Result<Vec<Option<T>>, AllocError>
    ensures { IfOk result (λ slots. slots.items ≡ vacant_slots capacity) }
{
    let mut slots = Vec::with_capacity(alloc, capacity)?;
    for _index in 0..capacity {
        match slots.push(None) {
            Ok(()) => {}
            Err(_) => return Err(AllocError),
        }
    }
    Ok(slots)
}

impl<T: Drop> Cells<T> for PlainCells<T> {
    ghost use Rattle.std.specs.Prelude.{refl};
    ghost use Rattle.concurrent_queue.specs.Plain.{contents_of};
    ghost use Rattle.concurrent_queue.specs.Effects.{Does, does_keep_form};

    ghost known = { Unit {0} };

    ghost did = { λ d a b. Does d (contents_of a) (contents_of b) };

    ghost may = { λ _ _. Unit {0} };

    ghost stands = { λ _ _. Unit {0} };

    ghost ready = { λ at s d r stands next. tt };

    ghost leads = { λ at s t d r stands done next. tt };

    ghost keeps_form = { λ d a b. does_keep_form d (contents_of a) (contents_of b) };

    ghost exact_form = { λ _ a. refl };

    ghost exact = { λ _ d a b done. done };

    ghost contents = { contents_of };

    ghost form_of = { λ c. c.form };

    fn form(&self) -> QueueForm {
        self.form
    }

    fn load(&mut self, at: Word) -> u64 {
        self.read(at)
    }

    fn store(&mut self, at: Word, value: u64) {
        self.write(at, value);
    }

    fn compare_exchange(&mut self, at: Word, expected: u64, next: u64) -> Result<u64, u64> {
        let found = self.read(at);
        if found == expected {
            self.write(at, next);
            Ok(found)
        } else {
            Err(found)
        }
    }

    fn fetch_add(&mut self, at: Word, by: u64) -> u64 {
        let found = self.read(at);
        self.write(at, found.wrapping_add(by));
        found
    }

    fn fetch_or(&mut self, at: Word, bits: u64) -> u64 {
        let found = self.read(at);
        self.write(at, found | bits);
        found
    }

    fn fetch_and(&mut self, at: Word, bits: u64) -> u64 {
        let found = self.read(at);
        self.write(at, found & bits);
        found
    }

    fn put(&mut self, at: Slot, value: T) -> Result<(), T> {
        match at {
            Slot::At(place) => self.put_at(place, value),
            Slot::In(block, offset) => self.put_in(block, offset, value),
        }
    }

    fn take(&mut self, at: Slot) -> Option<T> {
        match at {
            Slot::At(place) => self.take_at(place),
            Slot::In(block, offset) => self.take_in(block, offset),
        }
    }

    fn spare(&mut self) -> Result<u64, NoMemory> {
        self.pool.spare()
    }

    fn retire(&mut self, block: u64) {
        self.pool.retire(block);
    }
}

ghost use Rattle.concurrent_queue.specs.machine.RingWords.{ring_mark, is_marked};

/// Whether the mark of a ring of this capacity is set in this word.
fn is_marked(capacity: usize, word: u64) -> bool
    ensures { result ≡ is_marked (ring_mark capacity) word }
{
    let mark = 1u128 << (64 - capacity.leading_zeros());
    (word as u128) % (2 * mark) >= mark
}

impl<T: Drop> PlainCells<T> {
    ghost use Rattle.std.specs.Prelude.{◌≡◌};
    ghost use Rattle.concurrent_queue.specs.Plain.{contents_of};
    ghost use Rattle.concurrent_queue.specs.Step.{closed_in};

    /// Whether the words say that the queue is closed, by one look at one of them.
    pub fn is_closed(&self) -> bool
        ensures { result ≡ closed_in (contents_of self.now) }
    {
        match self.form {
            QueueForm::Bounded(1) => self.state & CLOSED != 0,
            QueueForm::Bounded(capacity) => is_marked(capacity, self.tail),
            QueueForm::Unbounded => self.tail % 2 == 1,
        }
    }
}

impl<T: Drop> PlainCells<T> {
    ghost use Rattle.std.specs.Prelude.{◌≡◌, ◌<◌, None, IfOk};
    ghost use Rattle.concurrent_queue.specs.Contents.{read, write, slot_at, write_slot, PutGives, empty_slot, empty_blocks, no_contents};
    ghost use Rattle.concurrent_queue.specs.Made.{CanBeMade, IsNew};
    ghost use Rattle.concurrent_queue.specs.machine.RingMade.{empty_ring};
    ghost use Rattle.concurrent_queue.specs.declared.cells.QueueForm.TheVariants as form;
    ghost use Rattle.concurrent_queue.specs.Plain.{contents_of};
    ghost use Rattle.concurrent_queue.specs.declared.cells.Slot.TheVariants as slot;

    /// The cells of an open and empty queue of this form. `Err` if there is no memory for its slots, which is not even asked for above
    /// 2^58.
    pub fn new(alloc: Global, form: QueueForm) -> Result<PlainCells<T>, AllocError>
        requires form { CanBeMade form }
        ensures { IfOk result (λ cells. IsNew form (contents_of cells)) }
    {
        match form {
            QueueForm::Bounded(capacity) => PlainCells::bounded(alloc, capacity),
            QueueForm::Unbounded => Ok(PlainCells::unbounded(alloc)),
        }
    }

    /// The cells of an open and empty queue of this capacity: one slot, or a ring.
    fn bounded(alloc: Global, capacity: usize) -> Result<PlainCells<T>, AllocError>
        requires { 0 < capacity }
        ensures { IfOk result (λ cells. IsNew (form.Bounded capacity) (contents_of cells)) }
    {
        if capacity == 1 {
            return PlainCells::one_slot(alloc);
        }
        if GREATEST < capacity {
            return Err(AllocError);
        }
        PlainCells::ring(alloc, capacity)
    }

    /// The cells of an open and empty queue of one slot. `Err` if there is no memory for the slot.
    fn one_slot(alloc: Global) -> Result<PlainCells<T>, AllocError>
        ensures { IfOk result (λ cells. contents_of cells ≡ empty_slot) }
    {
        let mut slots = Vec::with_capacity(alloc, 1)?;
        match slots.push(None) {
            Ok(()) => {}
            Err(_) => return Err(AllocError),
        }
        let stamps = Vec::new(alloc);
        Ok(PlainCells::blank(alloc, QueueForm::Bounded(1), stamps, slots))
    }

    /// The cells of an open and empty ring. `Err` if there is no memory for its stamps and slots.
    fn ring(alloc: Global, capacity: usize) -> Result<PlainCells<T>, AllocError>
        ensures { IfOk result (λ cells. contents_of cells ≡ empty_ring capacity) }
    {
        let stamps = first_stamps(alloc, capacity)?;
        let slots = empty_slots(alloc, capacity)?;
        let form = QueueForm::Bounded(capacity);
        Ok(PlainCells::blank(alloc, form, stamps, slots))
    }

    /// The cells of an open and empty unbounded queue. It takes no memory until messages come.
    fn unbounded(alloc: Global) -> PlainCells<T>
        ensures { contents_of result ≡ empty_blocks }
    {
        PlainCells::blank(
            alloc,
            QueueForm::Unbounded,
            Vec::new(alloc),
            Vec::new(alloc),
        )
    }

    /// Cells with these stamps and slots and no block, whose other words are all 0.
    fn blank(
        alloc: Global,
        form: QueueForm,
        stamps: Vec<u64>,
        slots: Vec<Option<T>>,
    ) -> PlainCells<T>
        ensures { contents_of result ≡ record (no_contents form) { stamps = stamps.items; slots = slots.items } }
    {
        PlainCells {
            form,
            state: 0,
            head: 0,
            tail: 0,
            stamps,
            slots,
            head_block: 0,
            tail_block: 0,
            pool: Pool::new(alloc),
        }
    }

    fn read(&self, at: Word) -> u64
        ensures { result ≡ read (contents_of self.now) at }
    {
        match at {
            Word::State => self.state,
            Word::Head => self.head,
            Word::Tail => self.tail,
            Word::Stamp(i) => {
                if (i as usize) < self.stamps.len() {
                    self.stamps[i as usize]
                } else {
                    0
                }
            }
            Word::HeadBlock => self.head_block,
            Word::TailBlock => self.tail_block,
            Word::Next(b) => self.pool.next(b),
            Word::Reads(b) => self.pool.reads(b),
            Word::Written(b, i) => self.pool.written(b, i),
        }
    }

    fn write(&mut self, at: Word, value: u64)
        ensures contents { contents_of self.new ≡ write (contents_of self.old) at value }
        ensures form { self.new.form ≡ self.old.form }
    {
        match at {
            Word::State => self.state = value,
            Word::Head => self.head = value,
            Word::Tail => self.tail = value,
            Word::Stamp(i) => {
                if (i as usize) < self.stamps.len() {
                    self.stamps[i as usize] = value;
                }
            }
            Word::HeadBlock => self.head_block = value,
            Word::TailBlock => self.tail_block = value,
            Word::Next(b) => self.pool.set_next(b, value),
            Word::Reads(b) => self.pool.set_reads(b, value),
            Word::Written(b, i) => self.pool.set_written(b, i, value),
        }
    }

    fn put_at(&mut self, place: u64, value: T) -> Result<(), T>
        ensures gives { PutGives (contents_of self.old) (slot.At place) value result (contents_of self.new) }
        ensures form { self.new.form ≡ self.old.form }
    {
        let at = place as usize;
        if at < self.slots.len() && self.slots[at].is_none() {
            self.slots[at] = Some(value);
            Ok(())
        } else {
            Err(value)
        }
    }

    fn put_in(&mut self, block: u64, offset: u64, value: T) -> Result<(), T>
        ensures gives { PutGives (contents_of self.old) (slot.In block offset) value result (contents_of self.new) }
        ensures form { self.new.form ≡ self.old.form }
    {
        self.pool.put(block, offset, value)
    }

    fn take_at(&mut self, place: u64) -> Option<T>
        ensures found { result ≡ slot_at (contents_of self.old) (slot.At place) }
        ensures left { contents_of self.new ≡ write_slot (contents_of self.old) (slot.At place) None }
        ensures form { self.new.form ≡ self.old.form }
    {
        let at = place as usize;
        if at < self.slots.len() {
            self.slots[at].take()
        } else {
            None
        }
    }

    fn take_in(&mut self, block: u64, offset: u64) -> Option<T>
        ensures found { result ≡ slot_at (contents_of self.old) (slot.In block offset) }
        ensures left { contents_of self.new ≡ write_slot (contents_of self.old) (slot.In block offset) None }
        ensures form { self.new.form ≡ self.old.form }
    {
        self.pool.take(block, offset)
    }
}
