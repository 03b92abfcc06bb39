//! A recorded event, as rows call it. A call names a listener by the place of its insertion in the row, the first at 0.

ghost use Rattle.std.specs.Prelude.{◌≡◌, ◌<◌};

use crate::lists::{UNKNOWN, WAITS, polled, removed};
use crate::notices::{Counted, Names, write_numbers};
use crate::units::notified;
use event_listener::calls::Registered;
use event_listener::into_notification::IntoNotification;
use event_listener::key::Key;
use event_listener::list::List;
use event_listener::notify::Notification;
use event_listener::recorded::{RecordedCall, RecordedEvent, RegisterError};
use std::alloc::{AllocError, Global};
use std::marker::Model;
use std::sync::Wait;
use std::sync::ledger::{Blank, Ledger, Share};
use worked_rows::{Player, Said, Words};

/// A recorded event, the keys that it gave, those who were woken, and the last number that a function made for a tag.
#[derive(Drop)]
pub(crate) struct Records<R, L: Ledger> {
    rt: R,
    alloc: Global,
    /// The event.
    event: Option<RecordedEvent<u32, u32, L>>,
    /// All parts of its ledger.
    mine: Share<L>,
    keys: Vec<Key>,
    names: Names,
    made: u32,
}

impl<R, L: Ledger> Model for Records<R, L> {
    ghost use Rattle.std.specs.Prelude.{◌≡◌, ◌<◌};

    ghost Value = { Unit {0} };

    ghost view = { λ r. tt };

    ghost invariant = { λ r. (r.mine.parts ≡ L.parts) × (0 < L.parts) };
}

const NO_EVENT: Said = Said::Word("no event");

fn registered(reply: Result<Registered<u32>, RegisterError>) -> Said {
    match reply {
        Ok(Registered::Told(tag)) => Said::Number(u64::from(tag)),
        Ok(Registered::Waiting) => WAITS,
        Err(RegisterError::UnknownListener) => UNKNOWN,
        Err(RegisterError::NoMemory) => Said::Word("memory"),
    }
}

/// What a record says of a call, but for its key and for the tags of a notice.
fn recorded(call: &RecordedCall<u32, u32>) -> Said {
    match call {
        RecordedCall::Listened { .. } => Said::Word("listened"),
        RecordedCall::Registered { tag: None, .. } => Said::Word("registered"),
        RecordedCall::Registered { tag: Some(tag), .. } => {
            Said::Both("registered", u64::from(*tag))
        }
        RecordedCall::Polled { tag, .. } => Said::Both("polled", u64::from(*tag)),
        RecordedCall::Removed { told: true, .. } => Said::Word("told_left"),
        RecordedCall::Removed { told: false, .. } => Said::Word("left"),
        RecordedCall::Notified { .. } => Said::Word("notified"),
    }
}

/// Writes what a record says.
fn write_calls(calls: &[RecordedCall<u32, u32>], answer: &mut String) -> Result<(), AllocError> {
    for call in calls {
        recorded(call).write(answer)?;
        if let RecordedCall::Notified { tags, .. } = call {
            write_numbers(tags.as_slice(), answer)?;
        }
    }
    Ok(())
}

/// A player of rows, whose events are counted by this ledger, one after another.
pub(crate) fn open<R, L: Ledger>(rt: R, alloc: Global, blank: Blank) -> Records<R, L>
    requires name { blank.name ≡ L.name }
    requires parts { (blank.parts ≡ L.parts) × (0 < L.parts) }
{
    let (book, mine) = blank.open::<L>();
    Records {
        rt,
        alloc,
        event: Some(RecordedEvent::new(alloc, book)),
        mine,
        keys: Vec::new(alloc),
        names: Names {
            woken: Vec::new(alloc),
        },
        made: 0,
    }
}

impl<R: Wait + Copy, L: Ledger> Records<R, L> {
    fn key(&self, words: &mut Words<'_>) -> Option<Key> {
        self.keys.get(words.size()).copied()
    }

    fn insert(&mut self) -> Said {
        let Some(event) = &self.event else {
            return NO_EVENT;
        };
        match event.insert(&self.rt, &mut self.mine) {
            Ok(key) => {
                let _ = self.keys.push(key);
                Said::Ok
            }
            Err(_) => Said::Word("refused"),
        }
    }

    fn tell<N: Notification<Tag = u32> + Drop>(&mut self, notice: N) -> Said
        requires { N.can_give notice }
    {
        let Some(event) = &self.event else {
            return NO_EVENT;
        };
        notified(event.notify(&self.rt, &mut self.mine, notice, &mut self.names))
    }

    /// A notice whose tags are made as they are wanted, each one more than the last one made.
    fn tell_made(&mut self, count: usize) -> Said {
        let mut made = self.made;
        let said = self.tell(count.tag_with(|| {
            made = made.wrapping_add(1);
            made
        }));
        self.made = made;
        said
    }

    fn notify(&mut self, verb: &str, words: &mut Words<'_>) -> Said {
        match verb {
            "notify" => self.tell(words.size().tag(words.small())),
            "notify_additional" => self.tell(words.size().additional().tag(words.small())),
            "notify_scarce" => self.tell(Counted::scarce(words.small())),
            _ => self.tell_made(words.size()),
        }
    }

    /// A call that names a listener.
    fn call_of(&mut self, verb: &str, key: Key, words: &mut Words<'_>) -> Said {
        let Some(event) = &self.event else {
            return NO_EVENT;
        };
        let (rt, mine) = (&self.rt, &mut self.mine);
        match verb {
            "register" => registered(event.register(rt, mine, key, words.small())),
            "poll" => polled(event.poll(rt, mine, key)),
            "leave" => removed(event.remove(rt, mine, key, true, &mut self.names)),
            _ => Said::NoSuchCall,
        }
    }

    fn reserve(&self, extra: usize) -> Said {
        match &self.event {
            Some(event) => Said::flag(event.reserve(&self.rt, extra).is_ok()),
            None => NO_EVENT,
        }
    }

    /// How many are told, or how many there are.
    fn count(&self, verb: &str) -> Said {
        let Some(event) = &self.event else {
            return NO_EVENT;
        };
        let (told, total) = (event.told(&self.rt), event.total(&self.rt));
        Said::count(if verb == "told" { told } else { total })
    }

    /// A question, or a call that names a listener.
    fn ask(&mut self, verb: &str, words: &mut Words<'_>) -> Said {
        match verb {
            "reserve" => self.reserve(words.size()),
            "told" | "total" => self.count(verb),
            _ => match self.key(words) {
                Some(key) => self.call_of(verb, key, words),
                None => Said::Word("no such number"),
            },
        }
    }

    fn call(&mut self, verb: &str, words: &mut Words<'_>) -> Said {
        match verb {
            "insert" => self.insert(),
            "notify" | "notify_additional" | "notify_scarce" | "notify_made" => {
                self.notify(verb, words)
            }
            _ => self.ask(verb, words),
        }
    }

    /// Ends the event: its list and its record. A new one stands in its place, whose calls alone are counted.
    fn end(&mut self) -> Option<(List<u32, u32>, Vec<RecordedCall<u32, u32>>)> {
        let (list, calls, mut book) = self.event.take()?.into_parts();
        book.audit(&mut self.mine);
        book.sub(&mut self.mine, calls.len() as u64);
        self.event = Some(RecordedEvent::new(self.alloc, book));
        Some((list, calls))
    }

    /// Ends the event: writes what was recorded, and how many of its list were told, and how many are left.
    fn say_record(&mut self, answer: &mut String) -> Result<(), AllocError> {
        let Some((list, calls)) = self.end() else {
            return NO_EVENT.write(answer);
        };
        let (told, total) = (list.told(), list.total());
        drop(list);
        let written = write_calls(calls.as_slice(), answer);
        drop(calls);
        written?;
        Said::Both("told", told as u64).write(answer)?;
        Said::Both("of", total as u64).write(answer)
    }
}

impl<R: Wait + Copy, L: Ledger> Player for Records<R, L> {
    fn begin(&mut self) {
        drop(self.end());
        self.keys.clear();
        self.names.woken.clear();
        self.made = 0;
    }

    fn play(&mut self, words: &mut Words<'_>, answer: &mut String) -> Result<(), AllocError> {
        match words.word() {
            "woken" => write_numbers(self.names.woken.as_slice(), answer),
            "record" => self.say_record(answer),
            verb => self.call(verb, words).write(answer),
        }
    }
}
