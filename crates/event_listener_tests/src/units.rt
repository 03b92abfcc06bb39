//! Notices without a tag, as rows send them.

use crate::listening::Listening;
use event_listener::error::NotifyError;
use event_listener::event::Event;
use event_listener::into_notification::IntoNotification;
use std::alloc::AllocError;
use std::sync::Wait;
use std::time::Clock;
use worked_rows::{Player, Said, Words};

/// An event whose notices carry nothing.
#[derive(Drop)]
pub(crate) struct Units<R: Wait + Copy> {
    pub(crate) all: Listening<(), R>,
}

/// What a notice answered.
pub(crate) fn notified(reply: Result<usize, NotifyError>) -> Said {
    match reply {
        Ok(told) => Said::count(told),
        Err(NotifyError { told }) => Said::Both("refused after", told as u64),
    }
}

/// The next word as a number of this size, or the greatest one.
fn byte(words: &mut Words<'_>) -> u8 {
    u8::try_from(words.number()).unwrap_or(u8::MAX)
}

/// A notice of an integer of the named type.
fn notify<R: Wait>(rt: &R, event: &Event<()>, word: &str, count: u8) -> Said {
    notified(match word {
        "u8" => event.notify(rt, count),
        "i8" => event.notify(rt, i8::try_from(count).unwrap_or(i8::MAX)),
        "i16" => event.notify(rt, i16::from(count)),
        "relaxed" => event.notify(rt, count.relaxed()),
        "additional_twice" => event.notify(rt, count.additional().additional()),
        _ => return Said::NoSuchCall,
    })
}

impl<R: Wait + Clock + Copy> Units<R> {
    fn call(&mut self, words: &mut Words<'_>) -> Said {
        let rt = self.all.rt;
        let event = &self.all.event;
        match words.word() {
            "notify" => notify(&rt, event, words.word(), byte(words)),
            "notify_all" => notified(event.notify(&rt, usize::MAX)),
            "notify_additional" => Said::count(event.notify_additional(&rt, words.size())),
            "notify_relaxed" => Said::count(event.notify_relaxed(&rt, words.size())),
            "notify_additional_relaxed" => {
                Said::count(event.notify_additional_relaxed(&rt, words.size()))
            }
            verb => self.all.call(verb, words),
        }
    }
}

impl<R: Wait + Clock + Copy> Player for Units<R> {
    fn begin(&mut self) {
        self.all.begin();
    }

    fn play(&mut self, words: &mut Words<'_>, answer: &mut String) -> Result<(), AllocError> {
        self.call(words).write(answer)
    }
}
