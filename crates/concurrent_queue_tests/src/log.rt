//! A trace that writes down what a call of a queue did.

use concurrent_queue::cells::{Slot, Word};
use concurrent_queue::seen::{Shown, Sight, Trace};
use std::alloc::Global;
use std::cell::Cell;

/// What was done to a cell.
#[derive(Clone, Copy, PartialEq, Eq)]
pub(crate) enum Did {
    Load,
    Store,
    Exchange,
    Add,
    Or,
    And,
    Put,
    Take,
    Spare,
    Retire,
}

/// To which kind of cell.
#[derive(Clone, Copy, PartialEq, Eq)]
pub(crate) enum To {
    State,
    Head,
    Tail,
    Stamp,
    HeadBlock,
    TailBlock,
    Next,
    Reads,
    Written,
    Slot,
    Block,
}

/// One operation: what was done, to which cell, and what it answered: what a word held, 1 where an exchange or a put was done,
/// the message that was taken, the number of a block; 0 where it answered nothing.
pub(crate) type Line = (Did, To, u64);

/// What was done, in order; nothing once there was no memory for a line.
pub(crate) type Lines = Cell<Option<Vec<Line>>>;

/// A trace that writes these lines. Each copy of it writes behind them.
#[derive(Clone, Copy)]
pub(crate) struct Log<'a> {
    pub(crate) lines: &'a Lines,
}

/// Which kind a word is.
fn kind_of(at: Word) -> To {
    match at {
        Word::State => To::State,
        Word::Head => To::Head,
        Word::Tail => To::Tail,
        Word::Stamp(_) => To::Stamp,
        Word::HeadBlock => To::HeadBlock,
        Word::TailBlock => To::TailBlock,
        Word::Next(_) => To::Next,
        Word::Reads(_) => To::Reads,
        Word::Written(_, _) => To::Written,
    }
}

/// A log of nothing.
pub(crate) fn blank(alloc: Global) -> Lines {
    Cell::new(Some(Vec::new(alloc)))
}

impl Log<'_> {
    fn note(self, line: Line) {
        if let Some(mut lines) = self.lines.take() {
            if lines.push(line).is_ok() {
                self.lines.set(Some(lines));
            }
        }
    }
}

impl<'a> Trace<u64> for Log<'a> {
    ghost did = { λ _ _ _. Unit {0} };

    ghost brought = { λ _ _ _ _. Unit {0} };

    fn operated(&mut self, _sight: &Sight<Log<'a>>, it: Shown) {
        self.note(match it {
            Shown::Loaded(at, found) => (Did::Load, kind_of(at), found),
            Shown::Stored(at, _) => (Did::Store, kind_of(at), 0),
            Shown::Exchanged(at, _, _, answer) => {
                (Did::Exchange, kind_of(at), u64::from(answer.is_ok()))
            }
            Shown::Added(at, _, found) => (Did::Add, kind_of(at), found),
            Shown::BitsSet(at, _, found) => (Did::Or, kind_of(at), found),
            Shown::BitsKept(at, _, found) => (Did::And, kind_of(at), found),
            Shown::Put(_, done) => (Did::Put, To::Slot, u64::from(done)),
            Shown::Spared(answer) => (Did::Spare, To::Block, answer.unwrap_or(0)),
            Shown::Retired(block) => (Did::Retire, To::Block, block),
        });
    }

    fn bring(&mut self, _sight: &Sight<Log<'a>>, _at: Slot, _message: &u64) {}

    fn taken(&mut self, _sight: &Sight<Log<'a>>, _at: Slot, found: &Option<u64>) {
        self.note((Did::Take, To::Slot, found.unwrap_or(0)));
    }
}
