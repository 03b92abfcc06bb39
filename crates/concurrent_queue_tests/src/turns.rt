//! Runs of steps of parties on a queue, as rows call them.
//!
//! | Line | What it does |
//! |---|---|
//! | `begin P N CALL` | adds party P's begin of a call, and N steps of it, to the list to come: `push M`, `force M`, `pop`, `close`, `is_closed`, `is_empty`, `is_full`, `len`, `capacity` |
//! | `go P N` | adds N more steps of party P |
//! | `run FORM FROM` | makes the list over a new queue, of this capacity, 0 for one without a bound |
//!
//! A run answers, for each entry from this place on that has a mark or a reply, its place and these; then `entries` and how many entries and
//! how many replies there are; and where it stops, `stopped`, the reason, the place, and how many steps stay in the list.

ghost use Rattle.concurrent_queue.specs.Made.{CanBeMade};

use crate::queues::in_words;
use crate::said::said_by;
use concurrent_queue::call::{QueueAsk, QueueEntry, QueueMark};
use concurrent_queue::cells::QueueForm;
use concurrent_queue::run::{QueueRefusal, QueueRun, QueueStep, Stopped, run_queue_steps};
use std::alloc::{AllocError, Global};
use std::collections::VecDeque;
use worked_rows::{Player, Said, Words};

/// The steps of a list to come.
#[derive(Drop)]
pub(crate) struct Turns {
    alloc: Global,
    steps: VecDeque<QueueStep<u64>>,
}

const MEMORY: Said = Said::Word("memory");

/// What a mark is called; nothing where there is none.
pub(crate) fn name_of(mark: QueueMark) -> &'static str {
    match mark {
        QueueMark::Nothing => "",
        QueueMark::Append => "append",
        QueueMark::Take => "take",
        QueueMark::TakeDisplaced => "displace",
        QueueMark::Replace => "replace",
        QueueMark::Close => "close",
    }
}

/// Writes the place of an entry that has a mark or a reply, and these.
fn write_entry(
    place: usize,
    entry: &QueueEntry<u64>,
    answer: &mut String,
) -> Result<(), AllocError> {
    let mark = name_of(entry.mark);
    if mark == "" && entry.reply.is_none() {
        return Ok(());
    }
    Said::count(place).write(answer)?;
    if mark != "" {
        Said::Word(mark).write(answer)?;
    }
    match &entry.reply {
        Some(reply) => in_words(said_by(reply)).write(answer),
        None => Ok(()),
    }
}

/// Writes the entries of a run from this place on.
fn write_entries(run: &QueueRun<u64>, from: usize, answer: &mut String) -> Result<(), AllocError> {
    let mut replies = 0u64;
    for (place, entry) in run.trace.iter().enumerate() {
        if entry.reply.is_some() {
            replies = replies.wrapping_add(1);
        }
        if place >= from {
            write_entry(place, entry, answer)?;
        }
    }
    Said::Both("entries", run.trace.len() as u64).write(answer)?;
    Said::Number(replies).write(answer)
}

/// Writes how a run stopped, if it did, and how many steps it left.
fn write_stop(
    stopped: Option<Stopped>,
    left: usize,
    answer: &mut String,
) -> Result<(), AllocError> {
    if let Some(Stopped { place, why }) = stopped {
        let why = match why {
            QueueRefusal::Busy => "busy",
            QueueRefusal::Idle => "idle",
            QueueRefusal::NoMemory => "memory",
        };
        Said::Word("stopped").write(answer)?;
        Said::Both(why, place as u64).write(answer)?;
    }
    if stopped.is_some() || left != 0 {
        Said::Both("left", left as u64).write(answer)?;
    }
    Ok(())
}

/// The call of this name, with its message where it has one.
pub(crate) fn ask_of(verb: &str, words: &mut Words<'_>) -> Option<QueueAsk<u64>> {
    Some(match verb {
        "push" => QueueAsk::Push(words.number()),
        "force" => QueueAsk::ForcePush(words.number()),
        "pop" => QueueAsk::Pop,
        "close" => QueueAsk::Close,
        "is_closed" => QueueAsk::IsClosed,
        "is_empty" => QueueAsk::IsEmpty,
        "is_full" => QueueAsk::IsFull,
        "len" => QueueAsk::Len,
        "capacity" => QueueAsk::Capacity,
        _ => return None,
    })
}

/// The form of this capacity, 0 for one without a bound.
pub(crate) fn form_of(capacity: usize) -> QueueForm
    ensures { CanBeMade result }
{
    if capacity == 0 {
        QueueForm::Unbounded
    } else {
        QueueForm::Bounded(capacity)
    }
}

impl Turns {
    /// A player of rows.
    pub(crate) fn new(alloc: Global) -> Turns {
        Turns {
            alloc,
            steps: VecDeque::new(alloc),
        }
    }

    /// Adds so many steps of a party.
    fn go(&mut self, party: u32, count: usize) -> Said {
        for _ in 0..count {
            if !self.add(QueueStep::Step { party }) {
                return MEMORY;
            }
        }
        Said::Ok
    }

    /// Adds a step: whether there was memory for it.
    fn add(&mut self, step: QueueStep<u64>) -> bool {
        self.steps.push_back(step).is_ok()
    }

    /// Adds the begin of a call, and so many steps of it.
    fn begin_call(&mut self, words: &mut Words<'_>) -> Said {
        let (party, count) = (words.small(), words.size());
        let Some(call) = ask_of(words.word(), words) else {
            return Said::NoSuchCall;
        };
        if self.add(QueueStep::Begin { party, call }) {
            self.go(party, count)
        } else {
            MEMORY
        }
    }

    /// Makes the list over a new queue.
    fn run(&mut self, words: &mut Words<'_>, answer: &mut String) -> Result<(), AllocError> {
        let form = form_of(words.size());
        let from = words.size();
        let run = run_queue_steps(self.alloc, form, &mut self.steps);
        let left = self.steps.len();
        self.steps.clear();
        write_entries(&run, from, answer)?;
        write_stop(run.stopped, left, answer)
    }
}

impl Player for Turns {
    fn begin(&mut self) {
        self.steps.clear();
    }

    fn play(&mut self, words: &mut Words<'_>, answer: &mut String) -> Result<(), AllocError> {
        match words.word() {
            "begin" => self.begin_call(words).write(answer),
            "go" => self.go(words.small(), words.size()).write(answer),
            "run" => self.run(words, answer),
            _ => Said::NoSuchCall.write(answer),
        }
    }
}
