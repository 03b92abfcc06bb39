//! Queues on one thread, as rows call them.
//!
//! | Line | What it does | What it answers |
//! |---|---|---|
//! | `alone N`, `shared N` | opens a queue of one owner, or a shared one, of this capacity, 0 for one without a bound | `ok`, `memory` |
//! | `push M`, `force M`, `pop` | one call | `pushed`, `forced`, `displaced M`, `full M`, `closed M`, `popped M`, `empty`, `shut` |
//! | `pushes M N`, `forces M N`, `pops M N` | one for each message from M on and before N | how many were accepted, how many came in this order |
//! | `rounds K N` | K times N pushes and as many pops | how many pops gave what was pushed, in order |
//! | `close`, `is_closed`, `is_empty`, `is_full`, `len`, `capacity` | | |
//! | `walk M` | a walk to its end | how many messages it gave, if those are M and so on |
//! | `walk_unread` | a walk that is let go at once, of a queue of one owner | `ok` |

use crate::said::{Said as Answer, forced, popped, pushed};
use crate::shared::opened;
use crate::walks::{walk_to_the_end, walk_unread};
use concurrent_queue::exclusive::Exclusive;
use concurrent_queue::shared::queue::ConcurrentQueue;
use std::alloc::{AllocError, Global};
use std::sync::Wait;
use worked_rows::{Player, Said, Words};

/// A queue of a row.
#[derive(Drop)]
enum Queue {
    None,
    Alone(Exclusive<u64>),
    Shared(ConcurrentQueue<u64>),
}

/// A row's queue.
#[derive(Drop)]
pub(crate) struct Queues<R: Wait + Copy> {
    rt: R,
    alloc: Global,
    queue: Queue,
}

const NO_QUEUE: Said = Said::Word("no queue");

/// The words to which a number belongs.
static NUMBERED: [&str; 7] = [
    "full",
    "closed",
    "no memory",
    "displaced",
    "popped",
    "holds",
    "room",
];

/// An answer as a line has it: its word, and its number where one belongs to it.
pub(crate) fn in_words((word, number): Answer) -> Said {
    if NUMBERED.contains(&word) {
        Said::Both(word, number)
    } else {
        Said::Word(word)
    }
}

fn capacity(capacity: Option<usize>) -> Said {
    match capacity {
        Some(capacity) => Said::count(capacity),
        None => Said::Word("none"),
    }
}

/// A queue of one owner; none where there is no memory.
fn opened_alone(alloc: Global, capacity: usize) -> Queue {
    if capacity == 0 {
        return Queue::Alone(Exclusive::unbounded(alloc));
    }
    match Exclusive::bounded(alloc, capacity) {
        Ok(queue) => Queue::Alone(queue),
        Err(_) => Queue::None,
    }
}

/// A shared one.
fn opened_shared(alloc: Global, capacity: usize) -> Queue {
    match opened(alloc, capacity) {
        Some(queue) => Queue::Shared(queue),
        None => Queue::None,
    }
}

/// How many messages these are, if they are this one and so on.
fn in_order(given: &[u64], first: u64) -> Said {
    let mut next = first;
    for message in given {
        if *message != next {
            return Said::Both("not in order after", next.wrapping_sub(first));
        }
        next = next.wrapping_add(1);
    }
    Said::count(given.len())
}

/// A push, a displacing push or a pop of a queue of one owner.
fn alone_call(queue: &mut Exclusive<u64>, verb: &str, message: u64) -> Answer {
    match verb {
        "push" => pushed(&queue.push(message)),
        "force" => forced(&queue.force_push(message)),
        _ => popped(&queue.pop()),
    }
}

/// The same of a shared one.
fn shared_call<R: Wait>(rt: &R, queue: &ConcurrentQueue<u64>, verb: &str, message: u64) -> Answer {
    match verb {
        "push" => pushed(&queue.push(rt, message)),
        "force" => forced(&queue.force_push(rt, message)),
        _ => popped(&queue.pop(rt)),
    }
}

/// A walk to the end of a queue of one owner, which is to give this message and so on.
fn walk(alloc: Global, queue: &mut Exclusive<u64>, first: u64) -> Said {
    match walk_to_the_end(alloc, queue) {
        Ok(given) => in_order(given.as_slice(), first),
        Err(AllocError) => Said::Word("memory"),
    }
}

/// The questions, which change nothing.
static QUESTIONS: [&str; 5] = ["is_closed", "is_empty", "is_full", "len", "capacity"];

/// What a queue of one owner answers to each of them.
fn alone_answers(queue: &mut Exclusive<u64>) -> [Said; 5] {
    [
        Said::flag(queue.is_closed()),
        Said::flag(queue.is_empty()),
        Said::flag(queue.is_full()),
        Said::count(queue.len()),
        capacity(queue.capacity()),
    ]
}

/// The same of a shared one.
fn shared_answers<R: Wait>(rt: &R, queue: &ConcurrentQueue<u64>) -> [Said; 5] {
    [
        Said::flag(queue.is_closed()),
        Said::flag(queue.is_empty()),
        Said::flag(queue.is_full()),
        Said::count(queue.len(rt)),
        capacity(queue.capacity()),
    ]
}

/// What is answered to this question.
fn answered(verb: &str, answers: [Said; 5]) -> Said {
    let mut said = Said::NoSuchCall;
    for (question, answer) in QUESTIONS.iter().zip(answers.iter()) {
        if *question == verb {
            said = *answer;
        }
    }
    said
}

impl Queue {
    fn opened(&self) -> Said {
        match self {
            Queue::None => Said::Word("memory"),
            _ => Said::Ok,
        }
    }

    fn close(&mut self) -> Said {
        match self {
            Queue::Alone(queue) => Said::flag(queue.close()),
            Queue::Shared(queue) => Said::flag(queue.close()),
            Queue::None => NO_QUEUE,
        }
    }

    /// A walk of a queue of one owner, unread or to its end.
    fn walk(&mut self, alloc: Global, verb: &str, words: &mut Words<'_>) -> Said {
        let Queue::Alone(queue) = self else {
            return Said::NoSuchCall;
        };
        if verb == "walk" {
            return walk(alloc, queue, words.number());
        }
        walk_unread(queue);
        Said::Ok
    }
}

impl<R: Wait + Copy> Queues<R> {
    /// A player of rows.
    pub(crate) fn new(rt: R, alloc: Global) -> Queues<R> {
        Queues {
            rt,
            alloc,
            queue: Queue::None,
        }
    }

    /// Puts a queue in the place of the one before.
    fn put(&mut self, opened: Queue) -> Said {
        let said = opened.opened();
        drop(std::mem::replace(&mut self.queue, opened));
        said
    }

    /// A push, a displacing push or a pop.
    fn one(&mut self, verb: &str, message: u64) -> Answer {
        match &mut self.queue {
            Queue::Alone(queue) => alone_call(queue, verb, message),
            Queue::Shared(queue) => shared_call(&self.rt, queue, verb, message),
            Queue::None => ("no queue", 0),
        }
    }

    /// Makes this call with each of these messages, a pop for it: how many of them answered as a list would that has room.
    fn many(&mut self, verb: &str, first: u64, end: u64) -> u64 {
        let mut right = 0u64;
        for message in first..end {
            let is_right = match verb {
                "pushes" => self.one("push", message) == ("pushed", 0),
                "forces" => self.one("force", message) == ("forced", 0),
                _ => self.one("pop", 0) == ("popped", message),
            };
            right = right.wrapping_add(u64::from(is_right));
        }
        right
    }

    /// So many rounds, each of so many pushes and as many pops: how many pops gave what was pushed.
    fn rounds(&mut self, rounds: u64, messages: u64) -> Said {
        let mut right = 0u64;
        for _ in 0..rounds {
            self.many("pushes", 0, messages);
            right = right.wrapping_add(self.many("pops", 0, messages));
        }
        Said::Number(right)
    }

    fn ask(&mut self, verb: &str) -> Said {
        match &mut self.queue {
            Queue::Alone(queue) => answered(verb, alone_answers(queue)),
            Queue::Shared(queue) => answered(verb, shared_answers(&self.rt, queue)),
            Queue::None => NO_QUEUE,
        }
    }

    /// Calls with many messages, and questions.
    fn call_many(&mut self, verb: &str, words: &mut Words<'_>) -> Said {
        match verb {
            "pushes" | "forces" | "pops" => {
                Said::Number(self.many(verb, words.number(), words.number()))
            }
            "rounds" => self.rounds(words.number(), words.number()),
            "close" => self.queue.close(),
            "walk" | "walk_unread" => self.queue.walk(self.alloc, verb, words),
            _ => self.ask(verb),
        }
    }

    fn call(&mut self, words: &mut Words<'_>) -> Said {
        match words.word() {
            "alone" => self.put(opened_alone(self.alloc, words.size())),
            "shared" => self.put(opened_shared(self.alloc, words.size())),
            verb @ ("push" | "force") => in_words(self.one(verb, words.number())),
            "pop" => in_words(self.one("pop", 0)),
            verb => self.call_many(verb, words),
        }
    }
}

impl<R: Wait + Copy> Player for Queues<R> {
    fn begin(&mut self) {
        self.put(Queue::None);
    }

    fn play(&mut self, words: &mut Words<'_>, answer: &mut String) -> Result<(), AllocError> {
        self.call(words).write(answer)
    }
}
