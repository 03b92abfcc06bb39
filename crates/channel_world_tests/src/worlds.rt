//! Worlds as rows of text call them: by calls made alone, by steps of parties, and by settling.
//!
//! A row's calls are those of [`Worlds`]. Handles and operations are named by their numbers, `s` and `r` being handles 0 and 1.
//!
//! | Line | What it does | What it answers |
//! |---|---|---|
//! | `bounded N`, `unbounded` | opens a channel | `ok`, `memory`, `identities` |
//! | `CALL` | makes a call alone, as a list of one (`run_calls`) | its reply |
//! | `later CALL`, then `run_calls` | makes these calls as one list | their replies |
//! | `begin P N CALL` | party P begins a call and makes N steps of it (`run_steps`) | the replies of calls that end there |
//! | `go P N` | party P makes N more steps | the same |
//! | `then begin P N CALL`, `then go P N`, and then `run_steps` | makes these steps as one list | the same |
//! | `marked begin P N CALL`, `marked go P N` | the same steps | each step's mark, and the same |
//! | the same with `run_front` in place of `run_steps` | the same, and keeps what is left of the list | the same |
//! | `whole P CALL`, `end P` | begins a call, or goes on, a step at a time, up to its end, 64 more at most | the same |
//! | `party P N` | party P makes N more steps at most, up to its call's end (`run_party`) | each step's mark, and the same; `in` and the number of steps |
//! | `count CALL` | party 0 makes a call whole (`run_party`) | its reply, `in` and the number of its steps |
//! | `settle` | polls whoever is woken | each name with its reply |
//! | `numbers` | the numbers of messages, of the pending, of the woken and of calls under way | |
//! | `lines` | on each line, how many are pending and how many of them were woken; the messages that calls under way have taken | |
//! | `has_positions N` | whether there are positions for N messages more | |
//! | `is_quiet` | whether no call is under way | |
//!
//! Behind a reply stand `wakes` and the names of those who were woken; where a list stops, `stopped`, the reason, the place, `after` the
//! number of entries and `left` how many stay in the list. A list of steps of which no call ends and that wakes nobody `goes on`.

use crate::calls::call_of;
use crate::replies::{OF_ROWS, waiter_said, write_reply, write_stop, write_woken};
use crate::steps::mark_word;
use channel_calls::error::OpenError;
use channel_calls::stage::WaitList;
use channel_world::call::{Call, CallRun};
use channel_world::settle::Settled;
use channel_world::step::{Entry, PartyId, Run, Step};
use channel_world::world::World;
use event_listener::id::EventIds;
use std::alloc::{AllocError, Global};
use std::collections::VecDeque;
use worked_rows::{Player, Said, Words};

/// The world of a row, with the calls and the steps of a list to come.
#[derive(Drop)]
pub struct Worlds {
    alloc: Global,
    world: Option<World<u64>>,
    calls: VecDeque<Call<u64>>,
    steps: VecDeque<Step<u64>>,
}

const NO_CHANNEL: &str = "no channel";

/// Opens a channel of this capacity, or of any number of messages.
fn open(alloc: Global, capacity: Option<usize>) -> Result<World<u64>, OpenError> {
    let mut ids = EventIds::new();
    match capacity {
        Some(0) => Err(OpenError::NoMemory),
        Some(capacity) => World::bounded(alloc, capacity, &mut ids),
        None => World::unbounded(alloc, &mut ids),
    }
}

/// Writes what came of a list of calls, of which so many are left.
fn write_calls(run: &CallRun<u64>, left: usize, answer: &mut String) -> Result<(), AllocError> {
    for done in run.done.iter() {
        write_reply(&OF_ROWS, &done.reply, answer)?;
        write_woken(&OF_ROWS, done.woken.as_slice(), answer)?;
    }
    write_stop(run.stopped, run.done.len(), left, answer)
}

/// Whether nothing was refused and the last call goes on.
fn goes_on(run: &Run<u64>) -> bool {
    match run.trace.last() {
        Some(entry) => run.stopped.is_none() && entry.reply.is_none(),
        None => false,
    }
}

/// Writes what a step answered, and whom it woke.
fn write_entry(entry: &Entry<u64>, answer: &mut String) -> Result<(), AllocError> {
    if let Some(reply) = &entry.reply {
        write_reply(&OF_ROWS, reply, answer)?;
    }
    write_woken(&OF_ROWS, entry.woken.as_slice(), answer)
}

/// Writes what came of a list of steps, of which so many are left.
fn write_steps(run: &Run<u64>, left: usize, answer: &mut String) -> Result<(), AllocError> {
    for entry in run.trace.iter() {
        write_entry(entry, answer)?;
    }
    write_stop(run.stopped, run.trace.len(), left, answer)
}

/// Writes what a party's steps did, each with its mark. So many entries in front are begins, which have none; so many steps are left.
fn write_marked(
    run: &Run<u64>,
    begins: usize,
    left: usize,
    answer: &mut String,
) -> Result<(), AllocError> {
    for entry in run.trace.iter().skip(begins) {
        Said::Word(mark_word(entry.mark)).write(answer)?;
        write_entry(entry, answer)?;
    }
    write_stop(run.stopped, run.trace.len(), left, answer)
}

/// Writes how many are pending on this line, and how many of them were woken.
fn write_line(
    world: &World<u64>,
    name: &'static str,
    line: WaitList,
    answer: &mut String,
) -> Result<(), AllocError> {
    Said::Both(name, world.pending_of(line) as u64).write(answer)?;
    Said::count(world.woken_of(line)).write(answer)
}

fn write_polls(polls: &Vec<Settled<u64>>, answer: &mut String) -> Result<(), AllocError> {
    for poll in polls.iter() {
        waiter_said(&OF_ROWS, poll.name).write(answer)?;
        write_reply(&OF_ROWS, &poll.reply, answer)?;
    }
    if polls.is_empty() {
        answer.push_str("nobody")?;
    }
    Ok(())
}

impl Worlds {
    /// A player of rows.
    pub fn new(alloc: Global) -> Worlds {
        Worlds {
            alloc,
            world: None,
            calls: VecDeque::new(alloc),
            steps: VecDeque::new(alloc),
        }
    }

    fn open(&mut self, capacity: Option<usize>) -> Said {
        match open(self.alloc, capacity) {
            Ok(world) => {
                drop(self.world.replace(world));
                Said::Ok
            }
            Err(OpenError::NoMemory) => Said::Word("memory"),
            Err(OpenError::IdsUsedUp) => Said::Word("identities"),
        }
    }

    /// Adds a call to the list to come.
    fn add_call(&mut self, verb: &str, words: &mut Words<'_>) -> Said {
        match call_of(verb, words) {
            Some(call) => match self.calls.push_back(call) {
                Ok(()) => Said::Ok,
                Err(_) => Said::Word("memory"),
            },
            None => Said::NoSuchCall,
        }
    }

    /// Makes the calls of the list, each alone, and writes what they answer.
    fn run_calls(&mut self, answer: &mut String) -> Result<(), AllocError> {
        let Some(world) = &mut self.world else {
            return answer.push_str(NO_CHANNEL);
        };
        if !world.is_quiet() {
            return answer.push_str("not quiet");
        }
        let run = world.run_calls(&mut self.calls);
        let left = self.calls.len();
        self.calls.clear();
        write_calls(&run, left, answer)
    }

    /// Adds so many steps of a party to the list to come.
    fn add_steps(&mut self, party: PartyId, count: usize) -> Said {
        for _ in 0..count {
            if self.steps.push_back(Step::Step { party }).is_err() {
                return Said::Word("memory");
            }
        }
        Said::Ok
    }

    /// Adds the begin of a call of a party to the list to come.
    fn add_begin(&mut self, party: PartyId, words: &mut Words<'_>) -> Said {
        let Some(call) = call_of(words.word(), words) else {
            return Said::NoSuchCall;
        };
        match self.steps.push_back(Step::Begin { party, call }) {
            Ok(()) => Said::Ok,
            Err(_) => Said::Word("memory"),
        }
    }

    /// Adds the begin of a call and so many steps, or so many steps alone, to the list to come.
    fn add_turn(&mut self, verb: &str, words: &mut Words<'_>) -> Said {
        let party = PartyId(words.small());
        let count = words.size();
        match verb {
            "begin" => match self.add_begin(party, words) {
                Said::Ok => self.add_steps(party, count),
                said => said,
            },
            "go" => self.add_steps(party, count),
            _ => Said::NoSuchCall,
        }
    }

    /// Makes the steps of the list, and writes what comes of them. What is left of it stays.
    fn run_front(&mut self, answer: &mut String) -> Result<(), AllocError> {
        let Some(world) = &mut self.world else {
            return answer.push_str(NO_CHANNEL);
        };
        let run = world.run_steps(&mut self.steps);
        write_steps(&run, self.steps.len(), answer)?;
        if answer.is_empty() {
            answer.push_str("goes on")?;
        }
        Ok(())
    }

    /// The same, and lets go what is left.
    fn run_steps(&mut self, answer: &mut String) -> Result<(), AllocError> {
        let written = self.run_front(answer);
        self.steps.clear();
        written
    }

    /// A party makes so many steps of its call at most, up to its end.
    fn run_party(&mut self, words: &mut Words<'_>, answer: &mut String) -> Result<(), AllocError> {
        let Some(world) = &mut self.world else {
            return answer.push_str(NO_CHANNEL);
        };
        match world.run_party(PartyId(words.small()), words.size()) {
            Ok(run) => {
                write_marked(&run, 0, 0, answer)?;
                Said::Both("in", run.trace.len() as u64).write(answer)
            }
            Err(_) => Said::Word("memory").write(answer),
        }
    }

    /// Makes these steps at once, unless they can't be read.
    fn run_turn(
        &mut self,
        verb: &str,
        words: &mut Words<'_>,
        answer: &mut String,
    ) -> Result<(), AllocError> {
        match self.add_turn(verb, words) {
            Said::Ok => self.run_steps(answer),
            said => said.write(answer),
        }
    }

    /// The same, with each step's mark.
    fn run_marked(&mut self, words: &mut Words<'_>, answer: &mut String) -> Result<(), AllocError> {
        let verb = words.word();
        match self.add_turn(verb, words) {
            Said::Ok => {}
            said => return said.write(answer),
        }
        let Some(world) = &mut self.world else {
            return answer.push_str(NO_CHANNEL);
        };
        let run = world.run_steps(&mut self.steps);
        let left = self.steps.len();
        self.steps.clear();
        write_marked(&run, usize::from(verb == "begin"), left, answer)
    }

    /// A party makes a step at a time up to its call's end. Where that goes on after 64 more it says so.
    fn run_to_end(&mut self, party: PartyId, answer: &mut String) -> Result<(), AllocError> {
        let Some(world) = &mut self.world else {
            return answer.push_str(NO_CHANNEL);
        };
        for _ in 0..64 {
            let _ = self.steps.push_back(Step::Step { party });
            let run = world.run_steps(&mut self.steps);
            let left = self.steps.len();
            self.steps.clear();
            if !goes_on(&run) {
                return write_steps(&run, left, answer);
            }
            write_steps(&run, left, answer)?;
        }
        Said::Word("goes on").write(answer)
    }

    /// A party begins a call and makes a step at a time up to its end.
    fn run_whole(&mut self, words: &mut Words<'_>, answer: &mut String) -> Result<(), AllocError> {
        let party = PartyId(words.small());
        match self.add_begin(party, words) {
            Said::Ok => self.run_to_end(party, answer),
            said => said.write(answer),
        }
    }

    /// Party 0 begins a call and makes its steps: what it answered, and how many steps it made after its begin.
    fn count(&mut self, words: &mut Words<'_>, answer: &mut String) -> Result<(), AllocError> {
        let party = PartyId(0);
        match self.add_begin(party, words) {
            Said::Ok => {}
            said => return said.write(answer),
        }
        let Some(world) = &mut self.world else {
            return answer.push_str(NO_CHANNEL);
        };
        let begun = world.run_steps(&mut self.steps);
        let left = self.steps.len();
        self.steps.clear();
        write_steps(&begun, left, answer)?;
        match world.run_party(party, 300) {
            Ok(run) => {
                write_steps(&run, 0, answer)?;
                Said::Both("in", run.trace.len() as u64).write(answer)
            }
            Err(_) => Said::Word("memory").write(answer),
        }
    }

    fn settle(&mut self, answer: &mut String) -> Result<(), AllocError> {
        let Some(world) = &mut self.world else {
            return answer.push_str(NO_CHANNEL);
        };
        if !world.is_quiet() {
            return answer.push_str("not quiet");
        }
        match world.settle() {
            Ok(polls) => write_polls(&polls, answer),
            Err(_) => answer.push_str("memory"),
        }
    }

    fn write_numbers(&self, answer: &mut String) -> Result<(), AllocError> {
        let Some(world) = &self.world else {
            return answer.push_str(NO_CHANNEL);
        };
        Said::Number(world.messages()).write(answer)?;
        Said::count(world.pending()).write(answer)?;
        Said::count(world.woken()).write(answer)?;
        Said::count(world.under_way()).write(answer)
    }

    /// Writes who is pending on each line, and who of them was woken; and how many messages calls under way have taken.
    fn write_lines(&self, answer: &mut String) -> Result<(), AllocError> {
        let Some(world) = &self.world else {
            return answer.push_str(NO_CHANNEL);
        };
        write_line(world, "sends", WaitList::Sends, answer)?;
        write_line(world, "receives", WaitList::Receives, answer)?;
        write_line(world, "streams", WaitList::Streams, answer)?;
        write_line(world, "closings", WaitList::Closings, answer)?;
        match world.taken() {
            Some(taken) => Said::Both("taken", taken).write(answer),
            None => Said::Word("taken unknown").write(answer),
        }
    }

    fn is_quiet(&self) -> Said {
        match &self.world {
            Some(world) => Said::flag(world.is_quiet()),
            None => Said::Word(NO_CHANNEL),
        }
    }

    /// Whether there are positions for so many messages more.
    fn has_positions(&self, count: usize) -> Said {
        match &self.world {
            Some(world) => Said::flag(world.has_positions(count)),
            None => Said::Word(NO_CHANNEL),
        }
    }

    /// What is done to a list to come, and what is asked of the world.
    fn prepare(&mut self, verb: &str, words: &mut Words<'_>) -> Said {
        match verb {
            "bounded" => self.open(Some(words.size())),
            "unbounded" => self.open(None),
            "later" => self.add_call(words.word(), words),
            "then" => self.add_turn(words.word(), words),
            "has_positions" => self.has_positions(words.size()),
            _ => self.is_quiet(),
        }
    }

    /// Makes a call alone.
    fn call(
        &mut self,
        verb: &str,
        words: &mut Words<'_>,
        answer: &mut String,
    ) -> Result<(), AllocError> {
        match self.add_call(verb, words) {
            Said::Ok => self.run_calls(answer),
            said => said.write(answer),
        }
    }
}

impl Player for Worlds {
    fn begin(&mut self) {
        drop(self.world.take());
        self.calls.clear();
        self.steps.clear();
    }

    fn play(&mut self, words: &mut Words<'_>, answer: &mut String) -> Result<(), AllocError> {
        match words.word() {
            verb @ ("bounded" | "unbounded" | "later" | "then" | "has_positions" | "is_quiet") => {
                self.prepare(verb, words).write(answer)
            }
            verb @ ("begin" | "go") => self.run_turn(verb, words, answer),
            "marked" => self.run_marked(words, answer),
            "run_calls" => self.run_calls(answer),
            "run_steps" => self.run_steps(answer),
            "run_front" => self.run_front(answer),
            "party" => self.run_party(words, answer),
            "whole" => self.run_whole(words, answer),
            "end" => self.run_to_end(PartyId(words.small()), answer),
            "count" => self.count(words, answer),
            "settle" => self.settle(answer),
            "numbers" => self.write_numbers(answer),
            "lines" => self.write_lines(answer),
            verb => self.call(verb, words, answer),
        }
    }
}
