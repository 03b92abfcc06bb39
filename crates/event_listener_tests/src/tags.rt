//! Notices with tags, as rows send them.

use crate::listening::Listening;
use crate::notices::Counted;
use crate::units::notified;
use event_listener::into_notification::IntoNotification;
use std::alloc::AllocError;
use std::sync::Wait;
use std::time::Clock;
use worked_rows::{Player, Said, Words};

/// An event whose notices carry numbers, and the last number that a function made for one.
#[derive(Drop)]
pub(crate) struct Tags<R: Wait + Copy> {
    pub(crate) all: Listening<u32, R>,
    pub(crate) made: u32,
}

impl<R: Wait + Clock + Copy> Tags<R> {
    /// A notice with this tag for each.
    fn notify(&mut self, count: u64, tag: u32) -> Said {
        let rt = self.all.rt;
        notified(self.all.event.notify(&rt, count.tag(tag)))
    }

    /// An additional notice for three that has so many tags, from 0 on.
    fn notify_scarce(&mut self, left: u32) -> Said {
        let rt = self.all.rt;
        notified(self.all.event.notify(&rt, Counted::scarce(left)))
    }

    /// A notice whose tags are made as they are wanted, each one more than the last one made.
    fn notify_made(&mut self, count: usize) -> Said {
        let rt = self.all.rt;
        let made = &mut self.made;
        let notice = count.tag_with(|| {
            *made = made.wrapping_add(1);
            *made
        });
        notified(self.all.event.notify(&rt, notice))
    }

    fn call(&mut self, words: &mut Words<'_>) -> Said {
        match words.word() {
            "notify" => self.notify(words.number(), words.small()),
            "notify_made" => self.notify_made(words.size()),
            "notify_scarce" => self.notify_scarce(words.small()),
            "made" => Said::Number(u64::from(self.made)),
            "count_from" => {
                self.made = words.small();
                Said::Ok
            }
            verb => self.all.call(verb, words),
        }
    }
}

impl<R: Wait + Clock + Copy> Player for Tags<R> {
    fn begin(&mut self) {
        self.made = 0;
        self.all.begin();
    }

    fn play(&mut self, words: &mut Words<'_>, answer: &mut String) -> Result<(), AllocError> {
        self.call(words).write(answer)
    }
}
