//! Calls of a queue where memory is wanted or positions come to their end, over cells of these tests' own, as rows call them.
//!
//! | Line | What it does | What it answers |
//! |---|---|---|
//! | `blocks N`, `ring N` | makes cells: without a bound, for which N blocks can be made, or with N places | `ok`, `memory` |
//! | `more N` | so many blocks can be made from now on | `ok` |
//! | `tail N` | the tail stands here | `ok` |
//! | `CALL` | a whole call, as [`Turns`](crate::turns::Turns) names it | its answer, or `nothing` after 64 steps |
//! | `pushes M N`, `pops M N` | one call for each message from M on and before N | how many answered as a list would that has room |
//! | `passes M N` | a push and a pop for each of them | how many went in and came out |
//! | `begin CALL` | begins a call | `ok` |
//! | `step` | makes a step of it | its answer, or `goes on` |
//! | `mark` | | what the last step of it did |

use crate::queues::in_words;
use crate::said::{Said as Answer, replied};
use crate::turns::{ask_of, form_of, name_of};
use concurrent_queue::call::QueueAsk;
use concurrent_queue::cells::{Cells, QueueForm, Slot, Word};
use concurrent_queue::error::NoMemory;
use concurrent_queue::plain::PlainCells;
use concurrent_queue::queue_call::QueueCall;
use std::alloc::{AllocError, Global};
use worked_rows::{Player, Said, Words};

/// The cells of an unbounded queue for which only so many more blocks can be made: each request for memory past them is
/// refused. Nothing is said of what they hold, so no call over them has more than its answers proved.
#[derive(Drop)]
pub(crate) struct Scarce {
    pub(crate) cells: PlainCells<u64>,
    pub(crate) left: u32,
    pub(crate) idle: u32,
}

impl Cells<u64> for Scarce {
    ghost use Rattle.std.specs.Prelude.{◌≡◌};
    ghost use Rattle.concurrent_queue.specs.Plain.{contents_of};

    ghost known = { ⊥ };

    ghost contents = { λ c. contents_of c.cells };

    ghost form_of = { λ c. (contents_of c.cells).form };

    ghost did = { λ _ a b. (contents_of b.cells).form ≡ (contents_of a.cells).form };

    ghost may = { λ _ _. Unit {0} };

    ghost stands = { λ _ _. Unit {0} };

    ghost ready = { λ at s d r stands next. tt };

    ghost leads = { λ at s t d r stands done next. tt };

    ghost keeps_form = { λ _ a b kept. kept };

    ghost exact_form = { λ known. absurd known };

    ghost exact = { λ known. absurd known };

    fn form(&self) -> QueueForm {
        self.cells.form()
    }

    fn load(&mut self, at: Word) -> u64 {
        self.cells.load(at)
    }

    fn store(&mut self, at: Word, value: u64) {
        self.cells.store(at, value);
    }

    fn compare_exchange(&mut self, at: Word, expected: u64, next: u64) -> Result<u64, u64> {
        self.cells.compare_exchange(at, expected, next)
    }

    fn fetch_add(&mut self, at: Word, by: u64) -> u64 {
        self.cells.fetch_add(at, by)
    }

    fn fetch_or(&mut self, at: Word, bits: u64) -> u64 {
        self.cells.fetch_or(at, bits)
    }

    fn fetch_and(&mut self, at: Word, bits: u64) -> u64 {
        self.cells.fetch_and(at, bits)
    }

    fn put(&mut self, at: Slot, value: u64) -> Result<(), u64> {
        self.cells.put(at, value)
    }

    fn take(&mut self, at: Slot) -> Option<u64> {
        self.cells.take(at)
    }

    fn spare(&mut self) -> Result<u64, NoMemory> {
        if self.idle > 0 {
            self.idle -= 1;
            self.cells.spare()
        } else if self.left > 0 {
            self.left -= 1;
            self.cells.spare()
        } else {
            Err(NoMemory)
        }
    }

    fn retire(&mut self, block: u64) {
        self.idle = self.idle.wrapping_add(1);
        self.cells.retire(block);
    }
}

/// Cells with this capacity, 0 for those without a bound, for which so many blocks can be made.
pub(crate) fn cells_with(alloc: Global, capacity: usize, left: u32) -> Result<Scarce, AllocError> {
    Ok(Scarce {
        cells: PlainCells::new(alloc, form_of(capacity))?,
        left,
        idle: 0,
    })
}

/// Makes a step of a call: what it answers, if it ends.
pub(crate) fn stepped(call: &mut QueueCall<u64>, cells: &mut Scarce) -> Option<Answer> {
    call.step(cells).map(replied)
}

/// Makes the steps of a call: what it answers.
pub(crate) fn asked(cells: &mut Scarce, ask: QueueAsk<u64>) -> Answer {
    let mut call = QueueCall::new(ask);
    let mut said = None;
    for _ in 0..64 {
        said = stepped(&mut call, cells);
        if said.is_some() {
            break;
        }
    }
    said.unwrap_or(("nothing", 0))
}

/// The cells of a row, and its call that is made step by step.
#[derive(Drop)]
pub(crate) struct Wanting {
    alloc: Global,
    cells: Scarce,
    call: QueueCall<u64>,
}

impl Wanting {
    /// A player of rows.
    pub(crate) fn new(alloc: Global) -> Result<Wanting, AllocError> {
        Ok(Wanting {
            alloc,
            cells: cells_with(alloc, 0, 0)?,
            call: QueueCall::ended(),
        })
    }

    /// Puts cells in the place of those before, if they can be made.
    fn open(&mut self, capacity: usize, left: u32) -> Said {
        match cells_with(self.alloc, capacity, left) {
            Ok(cells) => {
                drop(std::mem::replace(&mut self.cells, cells));
                Said::Ok
            }
            Err(AllocError) => Said::Word("memory"),
        }
    }

    fn pushes(&mut self, message: u64) -> bool {
        asked(&mut self.cells, QueueAsk::Push(message)) == ("pushed", 0)
    }

    fn pops(&mut self, message: u64) -> bool {
        asked(&mut self.cells, QueueAsk::Pop) == ("popped", message)
    }

    /// Pushes, pops or passes each of these messages: how many answered as a list would that has room.
    fn many(&mut self, verb: &str, first: u64, end: u64) -> Said {
        let mut right = 0u64;
        for message in first..end {
            let is_right = match verb {
                "pushes" => self.pushes(message),
                "pops" => self.pops(message),
                _ => self.pushes(message) && self.pops(message),
            };
            if is_right {
                right = right.wrapping_add(1);
            }
        }
        Said::Number(right)
    }

    fn begin_call(&mut self, words: &mut Words<'_>) -> Said {
        match ask_of(words.word(), words) {
            Some(ask) => {
                drop(std::mem::replace(&mut self.call, QueueCall::new(ask)));
                Said::Ok
            }
            None => Said::NoSuchCall,
        }
    }

    fn step(&mut self) -> Said {
        match stepped(&mut self.call, &mut self.cells) {
            Some(said) => in_words(said),
            None => Said::Word("goes on"),
        }
    }

    fn ask(&mut self, verb: &str, words: &mut Words<'_>) -> Said {
        match ask_of(verb, words) {
            Some(ask) => in_words(asked(&mut self.cells, ask)),
            None => Said::NoSuchCall,
        }
    }

    fn call(&mut self, words: &mut Words<'_>) -> Said {
        match words.word() {
            "blocks" => self.open(0, words.small()),
            "ring" => self.open(words.size(), 0),
            "more" => {
                self.cells.left = words.small();
                Said::Ok
            }
            "tail" => {
                self.cells.store(Word::Tail, words.number());
                Said::Ok
            }
            "begin" => self.begin_call(words),
            "step" => self.step(),
            "mark" => Said::Word(name_of(self.call.last_mark())),
            verb @ ("pushes" | "pops" | "passes") => {
                self.many(verb, words.number(), words.number())
            }
            verb => self.ask(verb, words),
        }
    }
}

impl Player for Wanting {
    fn begin(&mut self) {
        self.open(0, 0);
    }

    fn play(&mut self, words: &mut Words<'_>, answer: &mut String) -> Result<(), AllocError> {
        self.call(words).write(answer)
    }
}
