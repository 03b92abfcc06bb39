//! What threads did to a channel of two places with one handle of each kind, and who of them is seen at rest, as rows say it.
//!
//! | Line | What it does |
//! |---|---|
//! | `call T BEGIN END DID` | thread T (`first`, `second`, `third`) did this in a call between these stamps: `append M`, `take M`, `displace OLDEST M`, `bare`, `empty`, `open`, `close`, `clone SIDE`, `drop SIDE` |
//! | `several T BEGIN END LIMIT COUNT M..` | it received these, so many, where it might receive up to the limit |
//! | `forget T` | it made no call |
//! | `verdict` | whether the plain channel does all this in some order that fits |
//! | `fault` | what is wrong with it as a history |
//! | `see WHO HOW MESSAGES` | one thread more is seen beside so many messages: `send`, `receive`, `stream`, `closing`, `blocked_send`, `blocked_receive` or `nobody`, `asleep` or `woken` |
//! | `see_shut WHO HOW MESSAGES` | the same of a closed channel |
//! | `rest` | whether nobody sleeps who must not, and then nobody is seen any more |

use history_checker::history::{Fault, History};
use history_checker::log::Log;
use history_checker::order::{Verdict, judge};
use history_checker::plain::Plain;
use history_checker::point::{Did, Point, Side, Sight};
use history_checker::rest::{Look, Rest};
use std::alloc::{AllocError, Global};
use std::mem;
use worked_rows::{Player, Said, Words};

/// What a row has said so far.
#[derive(Drop)]
pub(crate) struct Histories {
    alloc: Global,
    history: History,
    rest: Rest,
}

/// The channel that each history begins with.
fn plain(alloc: Global) -> Plain {
    Plain::new(Some(2), 1, 1, alloc)
}

fn side_of(words: &mut Words<'_>) -> Side {
    match words.place(&["senders", "receivers"]) {
        0 => Side::Senders,
        _ => Side::Receivers,
    }
}

/// What a call did, by its words.
fn did_of(words: &mut Words<'_>) -> Did {
    let names = [
        "append", "take", "displace", "bare", "empty", "open", "close", "clone", "drop",
    ];
    match words.place(&names) {
        0 => Did::Once(Point::Append(words.number())),
        1 => Did::Once(Point::Take(words.number())),
        2 => {
            let oldest = words.number();
            Did::displaced(Some(2), oldest, words.number())
        }
        3 => Did::saw(Sight::Bare),
        4 => Did::saw(Sight::Empty(true)),
        5 => Did::saw(Sight::Open),
        6 => Did::Once(Point::Close),
        7 => Did::Once(Point::Raise(side_of(words))),
        _ => Did::dropped(side_of(words)),
    }
}

/// What is seen of one thread, by its words.
fn look_of(words: &mut Words<'_>, shut: bool) -> Look {
    let names = [
        "nobody",
        "send",
        "receive",
        "stream",
        "closing",
        "blocked_send",
        "blocked_receive",
    ];
    let who = words.place(&names);
    let woken = words.place(&["asleep", "woken"]) == 1;
    Look {
        send: (who == 1).then_some(woken),
        recv: (who == 2).then_some(woken),
        stream: (who == 3).then_some(woken),
        closed: (who == 4).then_some(woken),
        blocking: match who {
            5 => Some(Side::Senders),
            6 => Some(Side::Receivers),
            _ => None,
        },
        messages: words.size(),
        capacity: Some(2),
        shut,
    }
}

fn name_of(verdict: Verdict) -> &'static str {
    match verdict {
        Verdict::Fits => "fits",
        Verdict::Refused => "refused",
        Verdict::Undecided => "undecided",
    }
}

fn fault_of(fault: Option<Fault>) -> &'static str {
    match fault {
        None => "none",
        Some(Fault::Spoiled) => "spoiled",
        Some(Fault::Asleep) => "asleep",
        Some(Fault::Refused) => "refused",
        Some(Fault::Undecided) => "undecided",
    }
}

impl Histories {
    /// Of three threads that made no call.
    pub(crate) fn new(alloc: Global) -> Result<Histories, AllocError> {
        let mut logs = Vec::new(alloc);
        for _ in 0..3 {
            logs.push(Log::new(alloc))?;
        }
        let history = History {
            plain: plain(alloc),
            logs,
            rests: Vec::new(alloc),
        };
        let rest = Rest::unseen();
        Ok(Histories {
            alloc,
            history,
            rest,
        })
    }

    /// The log of the thread that the next word names.
    fn log(&mut self, words: &mut Words<'_>) -> Option<&mut Log> {
        let thread = words.place(&["first", "second", "third"]);
        self.history.logs.get_mut(thread as usize)
    }

    /// Notes a call, if there is the thread.
    fn call(&mut self, words: &mut Words<'_>) -> Said {
        let Some(log) = self.log(words) else {
            return Said::NoSuchCall;
        };
        let begin = words.number();
        let end = words.number();
        log.note(begin, end, did_of(words));
        Said::Ok
    }

    /// Notes a receive of several, if there is the thread.
    fn several(&mut self, words: &mut Words<'_>) -> Result<Said, AllocError> {
        let mut taken = Vec::new(self.alloc);
        let Some(log) = self.log(words) else {
            return Ok(Said::NoSuchCall);
        };
        let begin = words.number();
        let end = words.number();
        let limit = words.size();
        for _ in 0..words.size() {
            taken.push(words.number())?;
        }
        log.note_taken(begin, end, limit, taken.as_slice());
        Ok(Said::Ok)
    }

    fn forget(&mut self, words: &mut Words<'_>) -> Said {
        let empty = Log::new(self.alloc);
        match self.log(words) {
            Some(log) => {
                drop(mem::replace(log, empty));
                Said::Ok
            }
            None => Said::NoSuchCall,
        }
    }

    fn verdict(&self) -> Verdict {
        judge(plain(self.alloc), self.history.logs.as_slice(), self.alloc)
    }

    fn see(&mut self, look: Look) -> Said {
        self.rest = self.rest.with(look);
        Said::Ok
    }

    /// Whether what was seen is right; and lets go what was seen.
    fn rests(&mut self) -> Said {
        Said::flag(mem::replace(&mut self.rest, Rest::unseen()).is_right())
    }
}

impl Player for Histories {
    fn begin(&mut self) {
        self.rest = Rest::unseen();
        for log in &mut self.history.logs {
            drop(mem::replace(log, Log::new(self.alloc)));
        }
    }

    fn play(&mut self, words: &mut Words<'_>, answer: &mut String) -> Result<(), AllocError> {
        let said = match words.word() {
            "call" => self.call(words),
            "several" => self.several(words)?,
            "forget" => self.forget(words),
            "verdict" => Said::Word(name_of(self.verdict())),
            "fault" => Said::Word(fault_of(self.history.fault(self.alloc))),
            "see" => self.see(look_of(words, false)),
            "see_shut" => self.see(look_of(words, true)),
            "rest" => self.rests(),
            _ => Said::NoSuchCall,
        };
        said.write(answer)
    }
}
