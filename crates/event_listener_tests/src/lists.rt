//! A list of one owner, as rows call it. A call names a listener by the place of its insertion in the row, the first at 0.
//!
//! Of many listeners, after each of whose calls the visits of other nodes are looked at:
//!
//! | Line | What it does | What it answers |
//! |---|---|---|
//! | `listens N` | N times an insertion, whose listener registers under its number | how many wait |
//! | `tells N TAG` | N additional notices, each for one, with this tag | how many told one |
//! | `each CALL FROM TO` | this call of every second listener from one number on and before the other | the last one's answer, and of how many |
//! | `most_visits` | | the most visits of one of these calls since it was asked before |
//! | `woken_by FIRST STEP` | | how many were woken, where they are these in turn |
//!
//! A call `replace` is a discard, an insertion, and a registration by the old key, which is refused and visits its place alone.

use crate::notices::{Counted, Names, count_steps, write_numbers};
use crate::units::notified;
use event_listener::calls::Registered;
use event_listener::error::{ListenError, NoMemory, UnknownListener};
use event_listener::key::Key;
use event_listener::list::List;
use event_listener::run::{ListCall, ListReply, Target};
use std::alloc::{AllocError, Global};
use std::collections::VecDeque;
use worked_rows::{Player, Said, Words};

/// A list, the keys that it gave, those who were woken, and the calls of a run to come.
#[derive(Drop)]
pub(crate) struct Lists {
    alloc: Global,
    pub(crate) list: List<u32, u32>,
    pub(crate) keys: Vec<Key>,
    names: Names,
    later: VecDeque<ListCall<u32, u32>>,
    /// The most visits of a call of many listeners.
    pub(crate) most: u128,
}

/// What a listener says that waits.
pub(crate) const WAITS: Said = Said::Word("waits");

/// What is said of a key that names nobody.
pub(crate) const UNKNOWN: Said = Said::Word("unknown");

fn inserted(reply: Result<Key, ListenError>) -> Said {
    match reply {
        Ok(_) => Said::Ok,
        Err(ListenError::NoMemory) => Said::Word("memory"),
        Err(ListenError::SerialsUsedUp) => Said::Word("serials"),
    }
}

fn registered(reply: Result<Registered<u32>, UnknownListener>) -> Said {
    match reply {
        Ok(Registered::Told(tag)) => Said::Number(u64::from(tag)),
        Ok(Registered::Waiting) => WAITS,
        Err(UnknownListener) => UNKNOWN,
    }
}

/// What a poll says.
pub(crate) fn polled(reply: Result<Option<u32>, UnknownListener>) -> Said {
    match reply {
        Ok(Some(tag)) => Said::Number(u64::from(tag)),
        Ok(None) => WAITS,
        Err(UnknownListener) => UNKNOWN,
    }
}

/// What the leaving of a listener says.
pub(crate) fn removed(reply: Result<bool, UnknownListener>) -> Said {
    match reply {
        Ok(true) => Said::Word("told"),
        Ok(false) => Said::Word("waited"),
        Err(UnknownListener) => UNKNOWN,
    }
}

fn reserved(reply: Result<(), NoMemory>) -> Said {
    match reply {
        Ok(()) => Said::Ok,
        Err(NoMemory) => Said::Word("memory"),
    }
}

/// What a call of a run answered, in the words of the same call by itself; an insertion says so.
fn replied(reply: ListReply<u32>) -> Said {
    match reply {
        ListReply::Insert(Ok(_)) => Said::Word("inserted"),
        ListReply::Insert(Err(error)) => inserted(Err(error)),
        ListReply::Register(reply) => registered(reply),
        ListReply::Poll(reply) => polled(reply),
        ListReply::Remove(reply) => removed(reply),
        ListReply::Notify(reply) => notified(reply),
        ListReply::Reserve(Ok(())) => Said::Word("reserved"),
        ListReply::Reserve(Err(error)) => reserved(Err(error)),
    }
}

/// A number of visits.
fn visits(count: u128) -> Said {
    Said::Number(u64::try_from(count).unwrap_or(u64::MAX))
}

/// The questions, which change nothing.
static QUESTIONS: [&str; 3] = ["told", "total", "visits"];

/// What is answered to this question.
fn answered(verb: &str, answers: [Said; 3]) -> Said {
    let mut said = Said::NoSuchCall;
    for (question, answer) in QUESTIONS.iter().zip(answers.iter()) {
        if *question == verb {
            said = *answer;
        }
    }
    said
}

fn target(words: &mut Words<'_>) -> Target {
    Target::Place(words.size())
}

/// A call of a run that names a listener, by its place in the run.
fn later_of_listener(verb: &str, words: &mut Words<'_>) -> Option<ListCall<u32, u32>> {
    let listener = target(words);
    match verb {
        "register" => Some(ListCall::Register {
            listener,
            task: words.small(),
        }),
        "poll" => Some(ListCall::Poll { listener }),
        "leave" => Some(ListCall::Remove {
            listener,
            pass_on: true,
        }),
        _ => None,
    }
}

impl Lists {
    /// A player of rows.
    pub(crate) fn new(alloc: Global) -> Lists {
        Lists {
            alloc,
            list: List::new(alloc),
            keys: Vec::new(alloc),
            names: Names {
                woken: Vec::new(alloc),
            },
            later: VecDeque::new(alloc),
            most: 0,
        }
    }

    /// The key that the insertion of this number gave. Every list's first key stands for a number that there is not.
    fn key(&self, words: &mut Words<'_>) -> Option<Key> {
        self.keys.get(words.size()).copied()
    }

    /// So many insertions: the last one's answer.
    pub(crate) fn insert(&mut self, count: usize) -> Said {
        let mut said = Said::Ok;
        for _ in 0..count {
            let reply = self.list.insert();
            if let Ok(key) = reply {
                let _ = self.keys.push(key);
            }
            said = inserted(reply);
        }
        said
    }

    pub(crate) fn notify(&mut self, count: usize, additional: bool, next: u32) -> Said {
        let notice = Counted {
            count,
            additional,
            next,
            left: u32::MAX,
        };
        notified(self.list.notify(notice, &mut self.names))
    }

    /// A call that names a listener; one that registers names its task too.
    pub(crate) fn call_of(&mut self, verb: &str, key: Key, task: u32) -> Said {
        match verb {
            "register" => registered(self.list.register(key, task)),
            "poll" => polled(self.list.poll(key)),
            "leave" | "discard" => {
                removed(self.list.remove(key, verb == "leave", &mut self.names))
            }
            _ => Said::NoSuchCall,
        }
    }

    /// A call that names a listener, by words.
    fn call_by_words(&mut self, verb: &str, words: &mut Words<'_>) -> Said {
        let Some(key) = self.key(words) else {
            return Said::Word("no such number");
        };
        let task = if verb == "register" { words.small() } else { 0 };
        self.call_of(verb, key, task)
    }

    /// What the list answers to each of the questions.
    fn answers(&self) -> [Said; 3] {
        [
            Said::count(self.list.told()),
            Said::count(self.list.total()),
            visits(self.list.last_visits()),
        ]
    }

    /// A question, or a call that names a listener.
    fn ask(&mut self, verb: &str, words: &mut Words<'_>) -> Said {
        match verb {
            "told" | "total" | "visits" => answered(verb, self.answers()),
            "most_visits" => visits(std::mem::replace(&mut self.most, 0)),
            "woken_by" => count_steps(self.names.woken.as_slice(), words.small(), words.small()),
            "same" => Said::flag(self.key(words) == self.key(words)),
            _ => self.call_by_words(verb, words),
        }
    }

    fn call(&mut self, verb: &str, words: &mut Words<'_>) -> Said {
        match verb {
            "insert" => self.insert(1),
            "inserts" => self.insert(words.size()),
            "listens" => self.listens(words.small()),
            "notify" => self.notify(words.size(), false, words.small()),
            "notify_additional" => self.notify(words.size(), true, words.small()),
            "tells" => self.tells(words.small(), words.small()),
            "reserve" => reserved(self.list.reserve(words.size())),
            _ => self.ask(verb, words),
        }
    }

    /// Writes those who were woken, and forgets them.
    fn say_woken(&mut self, answer: &mut String) -> Result<(), AllocError> {
        write_numbers(self.names.woken.as_slice(), answer)?;
        if self.names.woken.is_empty() {
            answer.push_str("nobody")?;
        }
        self.names.woken.clear();
        Ok(())
    }

    /// The notice of a run: for how many it is, its first tag and how many tags it has.
    fn later_notify(&self, words: &mut Words<'_>, additional: bool) -> ListCall<u32, u32> {
        let (count, first, most) = (words.size(), words.small(), words.small());
        let mut tags = VecDeque::new(self.alloc);
        for place in 0..most {
            let _ = tags.push_back(first.wrapping_add(place));
        }
        ListCall::Notify {
            count,
            additional,
            tags,
        }
    }

    /// The call that these words name, for a run. Its listeners are named by places of the run.
    fn later_call(&self, words: &mut Words<'_>) -> Option<ListCall<u32, u32>> {
        match words.word() {
            "insert" => Some(ListCall::Insert),
            "reserve" => Some(ListCall::Reserve {
                extra: words.size(),
            }),
            verb @ ("notify" | "notify_additional") => {
                Some(self.later_notify(words, verb == "notify_additional"))
            }
            verb => later_of_listener(verb, words),
        }
    }

    /// Adds a call to the run to come.
    fn add_later(&mut self, words: &mut Words<'_>) -> Said {
        let Some(call) = self.later_call(words) else {
            return Said::NoSuchCall;
        };
        if self.later.push_back(call).is_ok() {
            Said::Ok
        } else {
            Said::Word("memory")
        }
    }

    /// Makes the run, and writes its replies; then, if it stopped before its end, that it did, and how many calls are left.
    fn run(&mut self, answer: &mut String) -> Result<(), AllocError> {
        let run = self.list.run(self.alloc, &mut self.later, &mut self.names);
        let stopped = run.stopped.is_some();
        for reply in run.replies {
            replied(reply).write(answer)?;
        }
        if stopped || !self.later.is_empty() {
            answer.push_str(" stopped")?;
        }
        Ok(())
    }
}

impl Player for Lists {
    fn begin(&mut self) {
        drop(std::mem::replace(&mut self.list, List::new(self.alloc)));
        self.keys.clear();
        self.names.woken.clear();
        self.later.clear();
        self.most = 0;
    }

    fn play(&mut self, words: &mut Words<'_>, answer: &mut String) -> Result<(), AllocError> {
        match words.word() {
            "woken" => self.say_woken(answer),
            "each" => self.each(words, answer),
            "later" => self.add_later(words).write(answer),
            "run" => self.run(answer),
            verb => self.call(verb, words).write(answer),
        }
    }
}
