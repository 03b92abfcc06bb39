//! Questions to handles of a channel without a bound while a push is suspended between winning its place and finishing, as when its
//! thread is preempted. The trace of a send asks them in the midst of the call. The channels are watched by another trace, which counts
//! what each question does: so one that waits is seen, even where its answer is right.
//!
//! | Line | What it does | What it answers |
//! |---|---|---|
//! | `passed N` | so many messages pass first through each channel that the next lines open | `ok` |
//! | `closed` | each of them is closed once the push has won its place | `ok` |
//! | `moments` | makes a send | at how many moments a question is asked: after each operation from the one that wins the place, and before the message is written |
//! | `QUESTION s`, `QUESTION r` | makes a send, and asks its channel's sender or receiver at each such moment | the answer, and how much the question showed its trace: the beginning of each call, and each operation |

use crate::checks::{expect_rows, expect_true};
use crate::standing_rows::QUESTIONS;
use async_channel::{
    Calls, EventIds, Receiver, Sender, Shown, Sight, Trace, Witness, unbounded_watched,
};
use channel_test_helpers::calls::MEMORY;
use concurrent_queue::cells::{Slot, Word};
use concurrent_queue::seen as queue;
use std::alloc::{AllocError, Global};
use std::cell::Cell;
use std::process::Abort;
use std::sync::Wait;
use worked_rows::{Player, Said, Words};

/// More than a call shows here that doesn't wait.
const MOST: u32 = 100;

/// The trace by which the channels are watched: it counts what calls of their handles show, and ends the test where one doesn't end.
#[derive(Clone, Copy)]
struct Counter<'a, R> {
    rt: R,
    count: &'a Cell<u32>,
}

impl<R: Abort> Counter<'_, R> {
    fn note(&self) {
        let count = self.count.get().wrapping_add(1);
        self.count.set(count);
        expect_true(&self.rt, count < MOST);
    }
}

impl<R: Abort> queue::Trace<u64> for Counter<'_, R> {
    ghost did = { λ _ _ _. Unit {0} };

    ghost brought = { λ _ _ _ _. Unit {0} };

    fn operated(&mut self, _sight: &queue::Sight<Self>, _it: queue::Shown) {
        self.note();
    }

    fn bring(&mut self, _sight: &queue::Sight<Self>, _at: Slot, _message: &u64) {}

    fn taken(&mut self, _sight: &queue::Sight<Self>, _at: Slot, _found: &Option<u64>) {
        self.note();
    }
}

impl<R: Abort> Trace<u64> for Counter<'_, R> {
    ghost entered = { λ _ _ _. Unit {0} };

    ghost shown = { λ _ _ _. Unit {0} };

    ghost offering = { λ _ _ _ _ _. Unit {0} };

    ghost parked = { λ _ _ _. Unit {0} };

    ghost slept = { λ _ _. Unit {0} };

    ghost called = { λ _. Unit {0} };

    fn saw(&mut self, _sight: &Sight<Self>, _it: Shown<'_>) {
        self.note();
    }

    fn heard(&self, _sight: &Sight<Self>, _call: Witness<u64>)
        ensures { Unit {0} }
    {}
}

/// The first two handles of a channel that is watched.
type Ends<'a, R> = (
    Sender<u64, R, Counter<'a, R>>,
    Receiver<u64, R, Counter<'a, R>>,
);

/// The handles of a channel, and those of another one.
#[derive(Drop)]
struct Handles<'a, R: Wait + Copy + Abort> {
    count: &'a Cell<u32>,
    sender: Sender<u64, R, Counter<'a, R>>,
    second: Sender<u64, R, Counter<'a, R>>,
    receiver: Receiver<u64, R, Counter<'a, R>>,
    apart: Ends<'a, R>,
}

fn capacity(capacity: Option<usize>) -> Said {
    match capacity {
        Some(capacity) => Said::count(capacity),
        None => Said::Word("none"),
    }
}

fn made(is_made: bool) -> Said {
    Said::Word(if is_made { "made" } else { "refused" })
}

impl<R: Wait + Copy + Abort> Handles<'_, R> {
    /// What a question to the sender answers.
    fn sender_answers(&self, question: &str) -> Said {
        let s = &self.sender;
        match question {
            "is_closed" => Said::flag(s.is_closed()),
            "is_empty" => Said::flag(s.is_empty()),
            "is_full" => Said::flag(s.is_full()),
            "capacity" => capacity(s.capacity()),
            "sender_count" => Said::count(s.sender_count()),
            "receiver_count" => Said::count(s.receiver_count()),
            "same_channel" => Said::flag(s.same_channel(&self.second)),
            "another_channel" => Said::flag(s.same_channel(&self.apart.0)),
            "downgrade" => made(s.downgrade().is_ok()),
            _ => Said::NoSuchCall,
        }
    }

    /// What a question to the receiver answers.
    fn receiver_answers(&self, question: &str) -> Said {
        let r = &self.receiver;
        match question {
            "is_closed" => Said::flag(r.is_closed()),
            "is_empty" => Said::flag(r.is_empty()),
            "is_full" => Said::flag(r.is_full()),
            "capacity" => capacity(r.capacity()),
            "sender_count" => Said::count(r.sender_count()),
            "receiver_count" => Said::count(r.receiver_count()),
            "same_channel" => Said::flag(r.same_channel(r)),
            "another_channel" => Said::flag(r.same_channel(&self.apart.1)),
            "is_terminated" => Said::flag(r.is_terminated()),
            "downgrade" => made(r.downgrade().is_ok()),
            _ => Said::NoSuchCall,
        }
    }

    /// What a question answers, and how much it showed the trace.
    fn answer(&self, question: &str, handle: &str) -> (Said, u32) {
        self.count.set(0);
        let said = match handle {
            "s" => self.sender_answers(question),
            "r" => self.receiver_answers(question),
            _ => Said::NoSuchCall,
        };
        (said, self.count.get())
    }

    /// Whether so many messages went through.
    fn let_pass(&self, messages: u64) -> bool {
        let mut passed = true;
        for message in 0..messages {
            self.count.set(0);
            passed = passed
                && self.sender.try_send(message).is_ok()
                && self.receiver.try_recv() == Ok(message);
        }
        self.count.set(0);
        passed
    }
}

/// The trace of a send: it asks a question at each moment from the one at which the push has won its place.
#[derive(Drop)]
struct Asking<'b, 'a, R: Wait + Copy + Abort> {
    handles: &'b Handles<'a, R>,
    question: (&'b str, &'b str),
    closes: bool,
    is_won: bool,
    moments: u64,
    /// The last answer.
    answer: (Said, u32),
    /// Whether all were the same, and the closing was the first.
    is_same: bool,
}

impl<'b, 'a, R: Wait + Copy + Abort> Asking<'b, 'a, R> {
    fn new(handles: &'b Handles<'a, R>, question: (&'b str, &'b str), closes: bool) -> Self {
        Asking {
            handles,
            question,
            closes,
            is_won: false,
            moments: 0,
            answer: (Said::Ok, 0),
            is_same: true,
        }
    }

    /// Asks, once the place is won.
    fn ask(&mut self) {
        if !self.is_won {
            return;
        }
        if self.closes && self.moments == 0 {
            self.is_same = self.handles.sender.close();
        }
        let (question, handle) = self.question;
        let answer = self.handles.answer(question, handle);
        self.is_same = self.is_same && (self.moments == 0 || self.answer == answer);
        self.answer = answer;
        self.moments = self.moments.wrapping_add(1);
    }

    /// Writes the answer.
    fn write(&self, answer: &mut String) -> Result<(), AllocError> {
        if self.question.0 == "moments" {
            return Said::Number(self.moments).write(answer);
        }
        if !self.is_same {
            return Said::Word("not the same at each moment").write(answer);
        }
        self.answer.0.write(answer)?;
        Said::Number(u64::from(self.answer.1)).write(answer)
    }
}

impl<R: Wait + Copy + Abort> queue::Trace<u64> for Asking<'_, '_, R> {
    ghost did = { λ _ _ _. Unit {0} };

    ghost brought = { λ _ _ _ _. Unit {0} };

    fn operated(&mut self, _sight: &queue::Sight<Self>, it: queue::Shown) {
        if let queue::Shown::Exchanged(Word::Tail, _, _, Ok(_)) = it {
            self.is_won = true;
        }
        self.ask();
    }

    fn bring(&mut self, _sight: &queue::Sight<Self>, _at: Slot, _message: &u64) {
        self.ask();
    }

    fn taken(&mut self, _sight: &queue::Sight<Self>, _at: Slot, _found: &Option<u64>) {}
}

impl<R: Wait + Copy + Abort> Trace<u64> for Asking<'_, '_, R> {
    ghost entered = { λ _ _ _. Unit {0} };

    ghost shown = { λ _ _ _. Unit {0} };

    ghost offering = { λ _ _ _ _ _. Unit {0} };

    ghost parked = { λ _ _ _. Unit {0} };

    ghost slept = { λ _ _. Unit {0} };

    ghost called = { λ _. Unit {0} };

    fn saw(&mut self, _sight: &Sight<Self>, _it: Shown<'_>) {}

    fn heard(&self, _sight: &Sight<Self>, _call: Witness<u64>)
        ensures { Unit {0} }
    {}
}

/// A player of such lines. Each makes its send on a channel of its own.
#[derive(Drop)]
struct Standing<'a, R: Wait + Copy + Abort> {
    rt: R,
    count: &'a Cell<u32>,
    alloc: Global,
    passed: u64,
    closes: bool,
}

impl<'a, R: Wait + Copy + Abort> Standing<'a, R> {
    /// The first handles of one more channel.
    fn opened(&self, ids: &mut EventIds) -> Option<Ends<'a, R>> {
        let watch = Counter {
            rt: self.rt,
            count: self.count,
        };
        unbounded_watched(self.rt, self.alloc, ids, watch).ok()
    }

    fn handles(&self) -> Option<Handles<'a, R>> {
        let mut ids = EventIds::new();
        let (sender, receiver) = self.opened(&mut ids)?;
        let second = sender.try_clone().ok()?;
        let handles = Handles {
            count: self.count,
            sender,
            second,
            receiver,
            apart: self.opened(&mut ids)?,
        };
        handles.let_pass(self.passed).then_some(handles)
    }

    /// Makes a send that asks this in its midst, and a receive.
    fn write(&self, question: (&str, &str), answer: &mut String) -> Result<(), AllocError> {
        let Some(handles) = self.handles() else {
            return MEMORY.write(answer);
        };
        let Calls::Traced(channel) = handles.sender.calls() else {
            return Said::Word("bounded").write(answer);
        };
        let asking = Asking::new(&handles, question, self.closes);
        let (sent, asking) = channel.try_send(7, asking);
        self.count.set(0);
        if sent.is_err() || handles.receiver.try_recv() != Ok(7) {
            Said::Word("lost").write(answer)?;
        }
        asking.write(answer)
    }
}

impl<R: Wait + Copy + Abort> Player for Standing<'_, R> {
    fn begin(&mut self) {
        self.passed = 0;
        self.closes = false;
    }

    fn play(&mut self, words: &mut Words<'_>, answer: &mut String) -> Result<(), AllocError> {
        match words.word() {
            "passed" => self.passed = words.number(),
            "closed" => self.closes = true,
            "moments" => return self.write(("moments", ""), answer),
            question => return self.write((question, words.word()), answer),
        }
        Ok(())
    }
}

#[test]
fn a_push_that_stands_still_holds_no_handle_up(rt: HostRuntime) {
    let count = Cell::new(0);
    let mut standing = Standing {
        rt,
        count: &count,
        alloc: rt.alloc(),
        passed: 0,
        closes: false,
    };
    expect_rows(&rt, QUESTIONS, &mut standing, 4);
}
