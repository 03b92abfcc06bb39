//! A process without memory, for tests of what stands after a growth is refused. [`Scarcity`] holds all that there is, and
//! [`Scarcity::refuse_each`] makes a call with none at hand, then with 32 bytes, with 48, with 64, until it is refused no more. A
//! refused call may keep what it was granted, or let go of what it had: then it is made with none at hand again. So each request of
//! the call is refused at least once, unless it needs no more than what the same attempt let go before it.
//!
//! What holds memory asks [`Global`] for it, of which no two values differ, and which asks the C library: so nothing less than the whole
//! process can be out of memory. What is held is never written to. The C library asks the system for addresses, and the system counts
//! memory where it is written: a block of gigabytes costs the page that its length stands in. Each test is a process of its
//! own in the gate, and addresses are a process's own: so a test takes nothing from another, nor from what runs beside it. (But
//! for a system that counts what is asked for, Linux where `vm.overcommit_memory` is 2: there others are refused too, as long as a
//! test runs.)
//!
//! A process that has started a thread gets memory from more than one heap, and what a hole leaves may stand in another one than the
//! call asks: the tests start none. `rt try` has an allocator of its own, which doesn't run out so.

use std::alloc::{AllocError, Global};

/// The largest block that is asked for: half of what a process may address.
const GREATEST: usize = 1 << 46;

/// How many sizes of a block are tried, each three quarters of the one before: the last has some 120 KB.
const SIZES: usize = 71;

/// Room for this many of these blocks. A system gives at most about its memory at once: for one of 2 GB this is enough.
const MOST: usize = 100_000;

/// How many blocks of one size there are at most, once a larger one was given and then refused: so much is left over in gaps.
const GAPS: usize = 1_000;

/// The size of a block that a hole is made of. Larger ones would be blocks of the system's own, which are given back to it.
const FILLER: usize = 65_536;

/// How many of these there are: one for each refusal, at most.
const FILLERS: usize = 4_000;

/// Room for the small blocks.
const SCRAPS: usize = 500_000;

/// The smallest and the largest request whose block, let go, serves requests of its own size alone.
const SMALLEST: usize = 24;

const LARGEST: usize = 1_032;

/// All blocks have lengths that are multiples of this.
const GRAIN: usize = 16;

/// What a block takes of the heap beside its bytes.
const HEADER: usize = 8;

/// How often a call is tried, at most.
const HOLES: u32 = 3_500;

/// So many times 16 bytes are ample memory.
const AMPLE: u32 = 3_000;

type Blocks = Vec<Vec<u8>>;

/// What came of making a call.
#[derive(Clone, Copy, PartialEq, Eq, Debug)]
pub enum Tried {
    /// It was made.
    Made,
    /// It was refused memory, by the error that is named for it, and all is as it was before.
    Refused,
    /// The same, but a part of it was made, and it goes on from there.
    Farther,
    /// The same, but each attempt takes memory for good, or lets some go: one whose refusal is noted, say.
    Noted,
    /// Anything else.
    Wrong,
}

/// `Tried::Made` where that is right.
pub fn made(right: bool) -> Tried {
    if right { Tried::Made } else { Tried::Wrong }
}

/// `Tried::Refused` where that is right.
pub fn refused(right: bool) -> Tried {
    if right { Tried::Refused } else { Tried::Wrong }
}

/// Whether the process gets no byte more.
pub fn is_out_of_memory(alloc: Global) -> bool {
    let byte: Result<Vec<u8>, AllocError> = Vec::with_capacity(alloc, 1);
    byte.is_err()
}

/// A call that is made until it isn't refused.
pub trait Attempt {
    /// Whether something comes before the next attempt, for which there is ample memory.
    fn is_behind(&self) -> bool {
        false
    }

    /// Does that.
    fn catch_up(&mut self) {}

    /// Makes the call, and compares.
    fn make(&mut self) -> Tried;
}

/// What was seen of some calls.
#[derive(Clone, Copy, PartialEq, Eq, Debug)]
pub struct Seen {
    /// How many calls were refused, and then made.
    pub calls: u32,
    /// How often they were refused, in all.
    pub refusals: u32,
    /// Whether memory runs out, and nothing was wrong.
    pub right: bool,
}

/// All memory that the process can get.
#[derive(Drop)]
pub struct Scarcity {
    alloc: Global,
    large: Blocks,
    fillers: Blocks,
    scraps: Blocks,
    /// What is left of the filler in which the last hole was made.
    plug: Option<Vec<u8>>,
    /// How many bytes of the heap the fillers and scraps take.
    held: usize,
    /// How many these were before the last attempt.
    before: usize,
    /// How large the last attempt's hole was.
    number: u32,
    seen: Seen,
}

/// How many bytes of the heap a block takes.
fn cost(block: &Vec<u8>) -> usize {
    let whole = block
        .capacity()
        .saturating_add(HEADER)
        .saturating_add(GRAIN - 1);
    whole / GRAIN * GRAIN
}

/// How many bytes of the heap these blocks take, from one on. A block may have 16 bytes more than it was asked for, where no block can
/// be made of them: then it grows into them, whatever there is.
fn cost_from(blocks: &mut Blocks, first: usize) -> usize {
    let mut sum = 0usize;
    for place in first..blocks.len() {
        if let Some(block) = blocks.get_mut(place) {
            if block.capacity() >= LARGEST {
                let more = block.capacity().saturating_add(GRAIN);
                drop(block.reserve_exact(more));
            }
            sum = sum.saturating_add(cost(block));
        }
    }
    sum
}

/// Takes blocks of a size until one is refused, or the list has so many. Whether one was refused.
fn take_blocks(alloc: Global, blocks: &mut Blocks, size: usize, most: usize) -> bool {
    for _ in blocks.len()..most {
        match Vec::with_capacity(alloc, size) {
            Ok(block) => drop(blocks.push(block)),
            Err(_) => return true,
        }
    }
    false
}

/// Room for so many blocks; none where it was refused.
fn room(alloc: Global, count: usize) -> Blocks {
    match Vec::with_capacity(alloc, count) {
        Ok(blocks) => blocks,
        Err(_) => Vec::new(alloc),
    }
}

/// Takes all large blocks. Whether memory runs out.
fn take_large(alloc: Global, blocks: &mut Blocks) -> bool {
    let mut size = GREATEST;
    for _ in 0..SIZES {
        let most = match blocks.len() {
            0 => MOST,
            some => some.saturating_add(GAPS),
        };
        if !take_blocks(alloc, blocks, size, most) {
            return false;
        }
        size = size / 4 * 3;
    }
    true
}

impl Scarcity {
    /// Takes all memory. Where it doesn't run out, as under `rt try`, that is seen at the end.
    pub fn new(alloc: Global) -> Scarcity {
        let mut large = room(alloc, MOST);
        let mut fillers = room(alloc, FILLERS);
        let scraps = room(alloc, SCRAPS);
        take_blocks(alloc, &mut fillers, FILLER, FILLERS);
        let runs_out = take_large(alloc, &mut large);
        Scarcity {
            alloc,
            large,
            fillers,
            scraps,
            plug: None,
            held: 0,
            before: 0,
            number: 0,
            seen: Seen {
                calls: 0,
                refusals: 0,
                right: runs_out,
            },
        }
    }

    /// What was seen. All memory is given back.
    pub fn end(self) -> Seen {
        self.seen
    }

    /// Makes a call until it isn't refused, with more memory at hand each time. How often it was refused.
    pub fn refuse_each<A: Attempt>(&mut self, call: &mut A) -> u32 {
        let mut count = 0u32;
        let mut last = Tried::Farther;
        for _ in 0..self.holes() {
            if call.is_behind() {
                self.relent();
                call.catch_up();
            }
            self.leave_more(last);
            last = call.make();
            if matches!(last, Tried::Made | Tried::Wrong) {
                break;
            }
            count = count.wrapping_add(1);
        }
        self.note(count, last == Tried::Made);
        count
    }

    /// Leaves memory for the next attempt of a call, by what its last one came to: 16 bytes more than for that. But none, where the call
    /// came farther, or something of it now takes more memory than before that attempt, or less.
    fn leave_more(&mut self, last: Tried) {
        self.take_all();
        let as_before = last == Tried::Noted || last == Tried::Refused && self.before == self.held;
        self.number = if as_before {
            self.number.wrapping_add(1)
        } else {
            0
        };
        self.before = self.held;
        self.open_hole(self.number);
    }

    /// Makes a call with no memory at hand that is to need none.
    pub fn refuse_none<A: Attempt>(&mut self, call: &mut A) {
        if self.seen.right {
            self.leave(0);
            let is_made = call.make() == Tried::Made;
            self.note(0, is_made);
        }
    }

    /// How often a call is tried, at most: never once something was wrong.
    pub fn holes(&self) -> u32 {
        if self.seen.right { HOLES } else { 0 }
    }

    /// Notes a call that was refused so often, and then made rightly or not.
    pub fn note(&mut self, count: u32, right: bool) {
        self.seen = Seen {
            calls: self.seen.calls.wrapping_add(u32::from(count > 0)),
            refusals: self.seen.refusals.wrapping_add(count),
            right: self.seen.right && right,
        };
    }

    /// Leaves ample memory, for what comes before a call.
    pub fn relent(&mut self) {
        self.leave(AMPLE);
    }

    /// Takes what there is, and then leaves a hole of so many times 16 bytes.
    pub fn leave(&mut self, number: u32) {
        self.take_all();
        self.open_hole(number);
    }

    /// Takes what there is.
    fn take_all(&mut self) {
        drop(self.plug.take());
        let first = self.fillers.len();
        take_blocks(self.alloc, &mut self.fillers, FILLER, FILLERS);
        let fillers = self
            .fillers
            .len()
            .saturating_sub(first)
            .saturating_mul(FILLER + GRAIN);
        let first = self.scraps.len();
        self.take_scraps();
        let scraps = cost_from(&mut self.scraps, first);
        self.held = self.held.saturating_add(fillers).saturating_add(scraps);
    }

    /// Leaves a hole of so many times 16 bytes, where all is taken.
    fn open_hole(&mut self, number: u32) {
        if number == 0 {
            return;
        }
        match self.fillers.pop() {
            Some(filler) => drop(filler),
            None => self.note(0, false),
        }
        self.held = self.held.saturating_sub(FILLER + GRAIN);
        self.plug = Vec::with_capacity(
            self.alloc,
            FILLER.saturating_sub(GRAIN.wrapping_mul(number as usize)),
        )
        .ok();
    }

    /// Takes what is left in blocks of every size.
    fn take_scraps(&mut self) {
        let mut right = true;
        let mut size = FILLER / 2;
        for _ in 0..5 {
            right = right & take_blocks(self.alloc, &mut self.scraps, size, SCRAPS);
            size = size / 2;
        }
        let mut size = LARGEST;
        for _ in (SMALLEST..=LARGEST).step_by(GRAIN) {
            right = right & take_blocks(self.alloc, &mut self.scraps, size, SCRAPS);
            size = size.saturating_sub(GRAIN);
        }
        if !right {
            self.note(0, false);
        }
    }
}
