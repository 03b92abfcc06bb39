//! Calls of many listeners of a list, as [`Lists`](crate::lists::Lists) has them: after each one its visits of other nodes are noted.

use crate::lists::{Lists, UNKNOWN, WAITS};
use event_listener::key::Key;
use std::alloc::AllocError;
use worked_rows::{Said, Words};

impl Lists {
    /// Notes the visits of the last call.
    fn note_visits(&mut self) {
        self.most = self.most.max(self.list.last_visits());
    }

    /// So many listeners, each of which registers under its number: how many wait.
    pub(crate) fn listens(&mut self, count: u32) -> Said {
        let mut waiting = 0u64;
        for number in 0..count {
            let inserted = self.insert(1);
            self.note_visits();
            if let Some(key) = self.keys.last().copied() {
                let registered = self.call_of("register", key, number);
                self.note_visits();
                if inserted == Said::Ok && registered == WAITS {
                    waiting = waiting.wrapping_add(1);
                }
            }
        }
        Said::Number(waiting)
    }

    /// So many additional notices, each for one, with this tag: how many told one.
    pub(crate) fn tells(&mut self, count: u32, tag: u32) -> Said {
        let mut told = 0u64;
        for _ in 0..count {
            if self.notify(1, true, tag) == Said::Number(1) {
                told = told.wrapping_add(1);
            }
            self.note_visits();
        }
        Said::Number(told)
    }

    /// A listener is discarded and another one takes its place: the old key stands for nobody, which takes one visit to see.
    fn replace(&mut self, key: Key) -> Said {
        let said = self.call_of("discard", key, 0);
        self.note_visits();
        let inserted = self.insert(1);
        self.note_visits();
        let registered = self.call_of("register", key, 0);
        if inserted == Said::Ok && registered == UNKNOWN && self.list.last_visits() == 1 {
            said
        } else {
            Said::Word("another answer")
        }
    }

    /// Makes the named call of every second listener from one number on and before another. Writes what the last one answered, and how many
    /// up to it answered the same.
    pub(crate) fn each(
        &mut self,
        words: &mut Words<'_>,
        answer: &mut String,
    ) -> Result<(), AllocError> {
        let (verb, from, to) = (words.word(), words.size(), words.size());
        let (mut last, mut same) = (Said::Ok, 0u64);
        for number in (from..to).step_by(2) {
            if let Some(key) = self.keys.get(number).copied() {
                let said = match verb {
                    "replace" => self.replace(key),
                    _ => self.call_of(verb, key, 0),
                };
                self.note_visits();
                same = if said == last {
                    same.wrapping_add(1)
                } else {
                    1
                };
                last = said;
            }
        }
        last.write(answer)?;
        Said::Number(same).write(answer)
    }
}
