//! The cells of a shared queue without a bound: with the runtime value, by which a call locks the spare list, or of words alone for the
//! calls that never wait. Nothing is known of what they hold, since any thread may make steps on them at any time. The machine
//! (`unbounded`) has the reason for each operation; here it is one operation on one word.

ghost use Rattle.std.specs.Prelude.{◌≡◌, ◌<◌};
ghost use Rattle.concurrent_queue.specs.Places.{place_of, flag_of, IsNear, OwnPlaces, OwnFlags};

use crate::cells::{Cells, QueueForm, Slot, Word};
use crate::error::NoMemory;
use crate::pool::SLOTS;
use crate::shared::blocks::{Blocks, NEXT, READS, WRITTEN};
use crate::shared::table::{APART, SeatedTable};
use std::sync::Wait;

/// The words of a queue by their indices, those of its head apart from those of its tail. A ring has a stamp for each slot
/// behind them.
const STATE: usize = 0;

const HEAD: usize = 1;

const HEAD_BLOCK: usize = 2;

const TAIL: usize = APART;

const TAIL_BLOCK: usize = APART + 1;

pub(crate) const STAMPS: usize = 2 * APART;

/// Where a word lies: among the queue's own words, among those of a block, or as a bit of a block's word of written slots.
/// Such a bit is loaded and stored, and takes part in no other step.
pub(crate) enum Place {
    Own(usize),
    InBlock(u64, usize),
    Bit(u64, usize, u64),
}

/// The flag of a slot in its block's word of written slots; none if a block has no such slot.
#[inline(always)]
#[tactic(auto, using(crate::proofs::OwnPlaces::own_flags))]
fn flag_of(offset: u64) -> u64
    ensures flag { offset < 31 → result ≡ flag_of offset }
    ensures own { OwnFlags }
{
    if offset < SLOTS { 1 << offset } else { 0 }
}

/// Where a word lies.
#[inline(always)]
#[tactic(auto, using(crate::proofs::OwnPlaces::own_places))]
fn place_of(at: Word) -> Place
    ensures place { IsNear at → result ≡ place_of at }
    ensures own { OwnPlaces }
{
    match at {
        Word::State => Place::Own(STATE),
        Word::Head => Place::Own(HEAD),
        Word::Tail => Place::Own(TAIL),
        Word::Stamp(index) => Place::Own(STAMPS.saturating_add(index as usize)),
        Word::HeadBlock => Place::Own(HEAD_BLOCK),
        Word::TailBlock => Place::Own(TAIL_BLOCK),
        Word::Next(block) => Place::InBlock(block, NEXT),
        Word::Reads(block) => Place::InBlock(block, READS),
        Word::Written(block, offset) => Place::Bit(block, WRITTEN, offset),
    }
}

/// Words and slots, from a seat of its own. It can neither get nor retire a block. It caches the seat of the block that it looked up last,
/// since a call stays with one block for most of its steps.
#[derive(Drop)]
pub(crate) struct WordCells<'a, T: Drop> {
    own: SeatedTable<'a, T>,
    blocks: &'a Blocks<T>,
    near: Option<SeatedTable<'a, T>>,
    number: u64,
}

impl<'a, T: Drop> WordCells<'a, T> {
    ghost use Rattle.std.specs.Prelude.{◌≡◌};

    /// The cells of a queue with these ends and these blocks.
    #[inline(always)]
    pub(crate) fn new(own: SeatedTable<'a, T>, blocks: &'a Blocks<T>) -> WordCells<'a, T> {
        WordCells {
            own,
            blocks,
            near: None,
            number: 0,
        }
    }

    /// Looks up the block of this number.
    #[inline(always)]
    fn look_up(&mut self, block: u64)
        ensures number { self.new.number ≡ block }
    {
        if self.near.is_none() || self.number != block {
            self.near = self.blocks.seat(block);
            self.number = block;
        }
    }
}

impl<'a, T: Drop> Cells<T> for WordCells<'a, T> {
    ghost use Rattle.std.specs.Prelude.{refl};
    ghost use Rattle.concurrent_queue.specs.Contents.{no_contents};
    ghost use Rattle.concurrent_queue.specs.declared.cells.QueueForm.TheVariants.{Unbounded};

    ghost known = { ⊥ };

    ghost contents = { λ _. no_contents Unbounded };

    ghost form_of = { λ _. Unbounded };

    ghost did = { λ _ a b. Unit {0} };

    ghost may = { λ _ _. Unit {0} };

    ghost stands = { λ _ _. Unit {0} };

    ghost ready = { λ at s d r stands next. tt };

    ghost leads = { λ at s t d r stands done next. tt };

    ghost keeps_form = { λ _ a b done. refl };

    ghost exact_form = { λ known. absurd known };

    ghost exact = { λ known. absurd known };

    #[inline(always)]
    fn form(&self) -> QueueForm {
        QueueForm::Unbounded
    }

    #[inline(always)]
    fn load(&mut self, at: Word) -> u64 {
        match place_of(at) {
            Place::Own(word) => self.own.load(word),
            Place::InBlock(block, word) => {
                self.look_up(block);
                match &mut self.near {
                    Some(words) => words.load(word),
                    None => 0,
                }
            }
            Place::Bit(block, word, offset) => {
                self.look_up(block);
                match &mut self.near {
                    Some(words) => u64::from(words.load(word) & flag_of(offset) != 0),
                    None => 0,
                }
            }
        }
    }

    #[inline(always)]
    fn store(&mut self, at: Word, value: u64) {
        match place_of(at) {
            Place::Own(word) => self.own.store(word, value),
            Place::InBlock(block, word) => {
                self.look_up(block);
                if let Some(words) = &mut self.near {
                    words.store(word, value);
                }
            }
            Place::Bit(block, word, offset) => {
                self.look_up(block);
                if let Some(words) = &mut self.near {
                    if value == 0 {
                        // An `and` of this bit, not a store: the flags of a block's other slots lie in the same word, and a store could
                        // lose one.
                        words.fetch_and(word, !flag_of(offset));
                    } else {
                        // An `or`, for the same reason: a lost flag would make the pop of that slot wait for ever.
                        words.fetch_or(word, flag_of(offset));
                    }
                }
            }
        }
    }

    #[inline(always)]
    fn compare_exchange(&mut self, at: Word, expected: u64, next: u64) -> Result<u64, u64> {
        match place_of(at) {
            Place::Own(word) => self.own.compare_exchange(word, expected, next),
            Place::InBlock(block, word) => {
                self.look_up(block);
                match &mut self.near {
                    Some(words) => words.compare_exchange(word, expected, next),
                    None => Err(0),
                }
            }
            Place::Bit(_, _, _) => Err(0),
        }
    }

    #[inline(always)]
    fn fetch_add(&mut self, at: Word, by: u64) -> u64 {
        match place_of(at) {
            Place::Own(word) => self.own.fetch_add(word, by),
            Place::InBlock(block, word) => {
                self.look_up(block);
                match &mut self.near {
                    Some(words) => words.fetch_add(word, by),
                    None => 0,
                }
            }
            Place::Bit(_, _, _) => 0,
        }
    }

    #[inline(always)]
    fn fetch_or(&mut self, at: Word, bits: u64) -> u64 {
        match place_of(at) {
            Place::Own(word) => self.own.fetch_or(word, bits),
            Place::InBlock(block, word) => {
                self.look_up(block);
                match &mut self.near {
                    Some(words) => words.fetch_or(word, bits),
                    None => 0,
                }
            }
            Place::Bit(_, _, _) => 0,
        }
    }

    #[inline(always)]
    fn fetch_and(&mut self, at: Word, bits: u64) -> u64 {
        match place_of(at) {
            Place::Own(word) => self.own.fetch_and(word, bits),
            Place::InBlock(block, word) => {
                self.look_up(block);
                match &mut self.near {
                    Some(words) => words.fetch_and(word, bits),
                    None => 0,
                }
            }
            Place::Bit(_, _, _) => 0,
        }
    }

    #[inline(always)]
    fn put(&mut self, at: Slot, value: T) -> Result<(), T> {
        match at {
            Slot::At(_) => Err(value),
            Slot::In(block, offset) => {
                self.look_up(block);
                match &mut self.near {
                    Some(slots) => slots.put(offset as usize, value),
                    None => Err(value),
                }
            }
        }
    }

    #[inline(always)]
    fn take(&mut self, at: Slot) -> Option<T> {
        match at {
            Slot::At(_) => None,
            Slot::In(block, offset) => {
                self.look_up(block);
                match &mut self.near {
                    Some(slots) => slots.take(offset as usize),
                    None => None,
                }
            }
        }
    }

    fn spare(&mut self) -> Result<u64, NoMemory> {
        Err(NoMemory)
    }

    fn retire(&mut self, _block: u64) {}
}

/// The same with the runtime value, by which it locks the spare list.
#[derive(Drop)]
pub(crate) struct SharedCells<'a, T: Drop, R: Wait> {
    pub(crate) words: WordCells<'a, T>,
    pub(crate) rt: &'a R,
}

impl<'a, T: Drop, R: Wait> Cells<T> for SharedCells<'a, T, R> {
    ghost use Rattle.std.specs.Prelude.{refl};
    ghost use Rattle.concurrent_queue.specs.Contents.{no_contents};
    ghost use Rattle.concurrent_queue.specs.declared.cells.QueueForm.TheVariants.{Unbounded};

    ghost known = { ⊥ };

    ghost contents = { λ _. no_contents Unbounded };

    ghost form_of = { λ _. Unbounded };

    ghost did = { λ _ a b. Unit {0} };

    ghost may = { λ _ _. Unit {0} };

    ghost stands = { λ _ _. Unit {0} };

    ghost ready = { λ at s d r stands next. tt };

    ghost leads = { λ at s t d r stands done next. tt };

    ghost keeps_form = { λ _ a b done. refl };

    ghost exact_form = { λ known. absurd known };

    ghost exact = { λ known. absurd known };

    #[inline(always)]
    fn form(&self) -> QueueForm {
        QueueForm::Unbounded
    }

    #[inline(always)]
    fn load(&mut self, at: Word) -> u64 {
        self.words.load(at)
    }

    #[inline(always)]
    fn store(&mut self, at: Word, value: u64) {
        self.words.store(at, value);
    }

    #[inline(always)]
    fn compare_exchange(&mut self, at: Word, expected: u64, next: u64) -> Result<u64, u64> {
        self.words.compare_exchange(at, expected, next)
    }

    #[inline(always)]
    fn fetch_add(&mut self, at: Word, by: u64) -> u64 {
        self.words.fetch_add(at, by)
    }

    #[inline(always)]
    fn fetch_or(&mut self, at: Word, bits: u64) -> u64 {
        self.words.fetch_or(at, bits)
    }

    #[inline(always)]
    fn fetch_and(&mut self, at: Word, bits: u64) -> u64 {
        self.words.fetch_and(at, bits)
    }

    #[inline(always)]
    fn put(&mut self, at: Slot, value: T) -> Result<(), T> {
        self.words.put(at, value)
    }

    #[inline(always)]
    fn take(&mut self, at: Slot) -> Option<T> {
        self.words.take(at)
    }

    #[inline(always)]
    fn spare(&mut self) -> Result<u64, NoMemory> {
        let blocks = self.words.blocks;
        // One critical section: of two calls at once none may get the same spare block.
        blocks.spare(self.rt, &mut blocks.stock(self.rt))
    }

    #[inline(always)]
    fn retire(&mut self, block: u64) {
        let blocks = self.words.blocks;
        blocks.retire(&mut blocks.stock(self.rt), block);
    }
}
