//! Calls of a channel with one owner, step by step, as rows make them. A row names its operations by numbers, which are their tasks'
//! names too, and the calls that it begins by their numbers in the order of their beginnings, the first at 0.
//!
//! | Line | What it does | What it answers |
//! |---|---|---|
//! | `bounded N` | opens a channel of so many places | `ok`, `memory` |
//! | `CALL` | a call from its beginning to its end | its reply; `listens` where it leaves a listener to its operation |
//! | `begin N CALL` | begins a call and makes N steps of it | its reply, or `goes on` |
//! | `go C N` | N more steps of call C | the same |
//! | `woken` | the names of those who were woken so far, in order | `nobody` where there is none |

use crate::names::Names;
use crate::slot_calls::{Kept, ask_of, said_of};
use channel_calls::ask::ChannelAsk;
use channel_calls::call::ChannelCall;
use channel_calls::plain::PlainChannel;
use concurrent_queue::cells::QueueForm;
use std::alloc::{AllocError, Global};
use worked_rows::{Player, Said, Words};

/// A row's channel, those whom it woke, the calls that are begun, and what each operation keeps.
#[derive(Drop)]
pub(crate) struct Slots {
    alloc: Global,
    channel: Option<PlainChannel<u64, u32>>,
    names: Names,
    calls: Vec<ChannelCall<u64, u32>>,
    kept: Kept,
}

const GOES_ON: Said = Said::Word("goes on");

impl Slots {
    /// A player of rows.
    pub(crate) fn new(alloc: Global) -> Slots {
        Slots {
            alloc,
            channel: None,
            names: Names {
                woken: Vec::new(alloc),
            },
            calls: Vec::new(alloc),
            kept: Kept::nothing(),
        }
    }

    fn open(&mut self, capacity: usize) -> Said {
        if capacity != 1 {
            return Said::NoSuchCall;
        }
        match PlainChannel::new(QueueForm::Bounded(1), self.alloc) {
            Ok(channel) => {
                drop(self.channel.replace(channel));
                Said::Ok
            }
            Err(_) => Said::Word("memory"),
        }
    }

    /// One step of a call, and what it says.
    fn step(&mut self, place: usize) -> Said {
        let Some(channel) = &mut self.channel else {
            return Said::Word("no channel");
        };
        let Some(call) = self.calls.get_mut(place) else {
            return Said::Word("no such call is begun");
        };
        match &call.step(channel, &mut self.names) {
            Some(reply) => said_of(reply),
            None => GOES_ON,
        }
    }

    /// So many steps of a call, and what the last one says.
    fn go(&mut self, place: usize, number: usize) -> Said {
        let mut said = GOES_ON;
        for _ in 0..number {
            said = self.step(place);
        }
        said
    }

    /// Begins a call: its number.
    fn begin_call(&mut self, ask: ChannelAsk<u64, u32>) -> usize {
        let place = self.calls.len();
        let _ = self.calls.push(ChannelCall::new(ask));
        place
    }

    /// Begins a call that the next words name, and makes so many steps of it.
    fn begin_of(&mut self, number: usize, words: &mut Words<'_>) -> Said {
        let verb = words.word();
        match ask_of(verb, words, &self.kept) {
            Some((_, ask)) => {
                let place = self.begin_call(ask);
                self.go(place, number)
            }
            None => Said::NoSuchCall,
        }
    }

    /// A call up to its end, which leaves to its operation what it kept.
    fn finish(&mut self, op: u32, place: usize, answer: &mut String) -> Result<(), AllocError> {
        let mut said = GOES_ON;
        for _ in 0..64 {
            if said == GOES_ON {
                said = self.step(place);
            }
        }
        said.write(answer)?;
        match self.calls.pop() {
            Some(call) => {
                if self.kept.keep(op, call.into_kept()) {
                    Said::Word("listens").write(answer)
                } else {
                    Ok(())
                }
            }
            None => Ok(()),
        }
    }

    /// A call that these words name, from its beginning to its end.
    fn whole(
        &mut self,
        verb: &str,
        words: &mut Words<'_>,
        answer: &mut String,
    ) -> Result<(), AllocError> {
        match ask_of(verb, words, &self.kept) {
            Some((op, ask)) => {
                let place = self.begin_call(ask);
                self.finish(op, place, answer)
            }
            None => Said::NoSuchCall.write(answer),
        }
    }

    fn write_woken(&self, answer: &mut String) -> Result<(), AllocError> {
        for name in self.names.woken.iter() {
            Said::Number(u64::from(*name)).write(answer)?;
        }
        if answer.is_empty() {
            answer.push_str("nobody")?;
        }
        Ok(())
    }
}

impl Player for Slots {
    fn begin(&mut self) {
        drop(self.channel.take());
        self.names.woken.clear();
        self.calls.clear();
        self.kept = Kept::nothing();
    }

    fn play(&mut self, words: &mut Words<'_>, answer: &mut String) -> Result<(), AllocError> {
        match words.word() {
            "bounded" => self.open(words.size()).write(answer),
            "begin" => self.begin_of(words.size(), words).write(answer),
            "go" => self.go(words.size(), words.size()).write(answer),
            "woken" => self.write_woken(answer),
            verb => self.whole(verb, words, answer),
        }
    }
}
