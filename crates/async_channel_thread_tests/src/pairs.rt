//! Two threads, one with the senders and one with the receivers of the same channels, as rows call them: the rows of
//! [`pair_rows`](crate::pair_rows). Each thread makes its own lines of a row, and both begin the next row together.
//!
//! | Line | What it does | What it answers |
//! |---|---|---|
//! | `bounded N`, `unbounded` | the row's channel, which is opened before the rows are played | |
//! | `open N` | opens this gate of the row, and those before it | `ok` |
//! | `pass N` | waits until this gate is open | `ok` |
//! | `drop` | drops the thread's handle | `ok` |
//! | `wait_for_closing A B` | polls a wait for the closing, opens gate A and passes gate B; polls it again, and runs another one to its end | both polls, whether the first was woken between them, and whether the other one was told |
//! | `forget_send M A N B C` | polls a send of M and leaves it alone; opens gate A, sends N by a clone, opens gate B and passes gate C | what the poll says, and the other send |
//! | `forget_receive A B C` | the same with receives | the same |
//! | `CALL ..` | a call of it ([`channel_test_helpers::calls`]) | |

use crate::checks::expect_played;
use crate::gates::Gates;
use crate::jobs::{Job, both};
use crate::pair_rows::PAIRS;
use async_channel::{Receiver, Sender};
use channel_test_helpers::calls::{MEMORY, polled, sender_says, write_received};
use channel_test_helpers::{capacity_of, closes, opened, receives, sends};
use futures::executor::block_on;
use futures::test::MockTask;
use std::alloc::{AllocError, AllocGlobal, Global};
use std::random::RandomSource;
use std::sync::Wait;
use worked_rows::{Played, Player, Said, Words, play_rows};

/// No row has so many gates.
const GATES: u32 = 10;

/// A thread's handle of a row's channel.
#[derive(Drop)]
enum Hand<R: Wait + Copy> {
    Sender(Sender<u64, R>),
    Receiver(Receiver<u64, R>),
}

/// What a line with several calls answers; `ok` where there are fewer.
type Answers = [Said; 4];

/// The gates of a row, of which the first has this number.
#[derive(Clone, Copy)]
struct RowGates<'a> {
    gates: &'a Gates,
    first: u32,
}

impl RowGates<'_> {
    fn open<R: Wait>(&self, rt: &R, words: &mut Words<'_>) {
        self.gates
            .open(rt, self.first.saturating_add(words.small()));
    }

    fn pass<R: Wait>(&self, rt: &R, words: &mut Words<'_>) {
        self.gates
            .pass(rt, self.first.saturating_add(words.small()));
    }
}

/// Both polls, whether the first was woken between them, and whether another wait was told.
fn wait_for_closing<R>(
    rt: R,
    s: &Sender<u64, R>,
    gates: RowGates<'_>,
    words: &mut Words<'_>,
) -> Answers
where
    R: Wait + Copy + RandomSource + AllocGlobal,
{
    let Ok(task) = MockTask::new(&rt) else {
        return [MEMORY; 4];
    };
    let mut closed = s.closed();
    let first = polled(closes(&task, &mut closed));
    gates.open(&rt, words);
    gates.pass(&rt, words);
    let woken = Said::flag(task.is_woken());
    let second = polled(closes(&task, &mut closed));
    drop((closed, task));
    let told = matches!(&block_on(&rt, s.closed()), Ok(Ok(())));
    [first, woken, second, Said::flag(told)]
}

fn forget_send<R>(rt: R, s: &Sender<u64, R>, gates: RowGates<'_>, words: &mut Words<'_>) -> Answers
where
    R: Wait + Copy + RandomSource + AllocGlobal,
{
    let (Ok(task), Ok(other)) = (MockTask::new(&rt), s.try_clone()) else {
        return [MEMORY; 4];
    };
    let mut forgotten = s.send(words.number());
    let first = polled(sends(&task, &mut forgotten));
    gates.open(&rt, words);
    let said = sender_says(rt, &other, "send_to_end", words);
    gates.open(&rt, words);
    gates.pass(&rt, words);
    [first, said, Said::Ok, Said::Ok]
}

fn forget_receive<R>(
    rt: R,
    r: &Receiver<u64, R>,
    gates: RowGates<'_>,
    words: &mut Words<'_>,
) -> Answers
where
    R: Wait + Copy + RandomSource + AllocGlobal,
{
    let (Ok(task), Ok(other)) = (MockTask::new(&rt), r.try_clone()) else {
        return [MEMORY; 4];
    };
    let mut forgotten = r.recv();
    let first = polled(receives(&task, &mut forgotten));
    gates.open(&rt, words);
    let said = match &block_on(&rt, other.recv()) {
        Ok(Ok(message)) => Said::Both("received", *message),
        _ => MEMORY,
    };
    gates.open(&rt, words);
    gates.pass(&rt, words);
    [first, said, Said::Ok, Said::Ok]
}

/// Writes these answers.
fn write_all(said: Answers, answer: &mut String) -> Result<(), AllocError> {
    for one in said {
        if one != Said::Ok {
            one.write(answer)?;
        }
    }
    Ok(())
}

impl<R: Wait + Copy + RandomSource + AllocGlobal> Hand<R> {
    /// Makes a call, and writes what it says.
    fn call(
        &self,
        rt: R,
        gates: RowGates<'_>,
        verb: &str,
        words: &mut Words<'_>,
        answer: &mut String,
    ) -> Result<(), AllocError> {
        match (self, verb) {
            (Hand::Sender(s), "wait_for_closing") => {
                write_all(wait_for_closing(rt, s, gates, words), answer)
            }
            (Hand::Sender(s), "forget_send") => {
                write_all(forget_send(rt, s, gates, words), answer)
            }
            (Hand::Sender(s), verb) => sender_says(rt, s, verb, words).write(answer),
            (Hand::Receiver(r), "forget_receive") => {
                write_all(forget_receive(rt, r, gates, words), answer)
            }
            (Hand::Receiver(r), verb) => write_received(rt, r, verb, words, answer),
        }
    }
}

/// The gates of two threads, and those by which they meet between rows.
#[derive(Drop)]
struct Place {
    gates: Gates,
    meetings: Gates,
}

/// One thread's side of the rows: its handles, one for each row, and how many rows have begun.
#[derive(Drop)]
struct Side<'a, R: Wait + Copy> {
    rt: R,
    place: &'a Place,
    hands: Vec<Option<Hand<R>>>,
    row: u32,
}

const NO_HANDLE: Said = Said::Word("no handle");

impl<'a, R: Wait + Copy> Side<'a, R> {
    /// A side of which no row has begun.
    fn new(rt: R, place: &'a Place, hands: Vec<Option<Hand<R>>>) -> Side<'a, R> {
        Side {
            rt,
            place,
            hands,
            row: 0,
        }
    }

    /// The row's gates.
    fn gates(&self) -> RowGates<'a> {
        RowGates {
            gates: &self.place.gates,
            first: self.row.saturating_mul(GATES),
        }
    }

    /// The row's handle, if it is there.
    fn hand(&mut self) -> Option<&mut Option<Hand<R>>> {
        self.hands.get_mut((self.row as usize).wrapping_sub(1))
    }

    fn drop_hand(&mut self) -> Said {
        match self.hand() {
            Some(hand) => {
                drop(hand.take());
                Said::Ok
            }
            None => NO_HANDLE,
        }
    }

    /// Waits for the other thread's end of the last row, unless this one stopped before it. Then keeps it no longer.
    fn end(&mut self, stopped: bool) {
        if !stopped {
            self.meet();
        }
        self.place.gates.open(&self.rt, u32::MAX);
        self.place.meetings.open(&self.rt, u32::MAX);
    }

    /// Waits until both threads have ended the row before.
    fn meet(&mut self) {
        self.row = self.row.saturating_add(1);
        self.place
            .meetings
            .meet(&self.rt, self.row.saturating_mul(2));
    }
}

impl<R: Wait + Copy + RandomSource + AllocGlobal> Player for Side<'_, R> {
    fn begin(&mut self) {
        self.meet();
    }

    fn play(&mut self, words: &mut Words<'_>, answer: &mut String) -> Result<(), AllocError> {
        let (rt, gates) = (self.rt, self.gates());
        match words.word() {
            "open" => {
                gates.open(&rt, words);
                Ok(())
            }
            "pass" => {
                gates.pass(&rt, words);
                Ok(())
            }
            "drop" => self.drop_hand().write(answer),
            verb => match self.hand() {
                Some(Some(hand)) => hand.call(rt, gates, verb, words, answer),
                _ => NO_HANDLE.write(answer),
            },
        }
    }
}

/// Plays one side of the rows.
fn play_side<'t, R>(
    alloc: Global,
    text: &'t str,
    mut side: Side<'_, R>,
) -> Result<Played<'t>, AllocError>
where
    R: Wait + Copy + RandomSource + AllocGlobal,
{
    let played = play_rows(alloc, text, &mut side);
    let stopped = match &played {
        Ok(played) => played.differs.is_some(),
        Err(AllocError) => true,
    };
    side.end(stopped);
    played
}

/// Plays one side of the rows.
#[derive(Drop)]
struct Play<'a, R: Wait + Copy> {
    alloc: Global,
    text: &'a str,
    side: Side<'a, R>,
}

impl<'a, R: Wait + Copy + RandomSource + AllocGlobal> Job<R> for Play<'a, R> {
    type Done = Result<Played<'a>, AllocError>;

    fn run(self, _rt: R) -> Result<Played<'a>, AllocError> {
        play_side(self.alloc, self.text, self.side)
    }
}

/// The lines of one side, without the mark that stands before each, under the names of their rows.
fn side_of(alloc: Global, text: &str, mark: &str) -> Result<String, AllocError> {
    let mut side = String::new(alloc);
    for line in text.lines() {
        let own = line.strip_prefix(mark);
        if own.is_some() || line.starts_with("row ") {
            side.push_str(own.unwrap_or(line))?;
            side.push('\n')?;
        }
    }
    Ok(side)
}

/// The handles of the channels that a text's rows name, in order, those that send and those that receive. Where an opening is refused, a
/// row says that it has no handle.
fn open_all<R: Wait + Copy>(rt: R, alloc: Global, text: &str) -> [Vec<Option<Hand<R>>>; 2] {
    let mut senders = Vec::new(alloc);
    let mut receivers = Vec::new(alloc);
    for line in text.lines() {
        if let Some(capacity) = capacity_of(line) {
            if let Some((s, r)) = opened(rt, alloc, capacity) {
                let _ = senders.push(Some(Hand::Sender(s)));
                let _ = receivers.push(Some(Hand::Receiver(r)));
            }
        }
    }
    [senders, receivers]
}

#[test]
fn rows(rt: HostRuntime) {
    let alloc = rt.alloc();
    let place = Place {
        gates: Gates::new(),
        meetings: Gates::new(),
    };
    let [senders, receivers] = open_all(rt, alloc, PAIRS);
    let sends = side_of(alloc, PAIRS, "s ").expect(&rt, "memory");
    let receives = side_of(alloc, PAIRS, "r ").expect(&rt, "memory");
    let (sent, received) = both(
        rt,
        Play {
            alloc,
            text: sends.as_str(),
            side: Side::new(rt, &place, senders),
        },
        Play {
            alloc,
            text: receives.as_str(),
            side: Side::new(rt, &place, receivers),
        },
    )
    .expect(&rt, "memory");
    expect_played(&rt, &sent, 19);
    expect_played(&rt, &received, 19);
}
