//! What came of a call and of those beside it, and whether a plain list explains it.

use crate::beside::Events;
use crate::beside::kind::Kind;
use crate::beside::plain::{Later, Plain};
use crate::said::{Said, with};

/// What came of it.
#[derive(Clone, Copy)]
pub(crate) struct Outcome {
    /// What the call said.
    pub(crate) said: Said,
    /// What the others said last, and the messages that they handed out.
    pub(crate) others: [Said; 2],
    pub(crate) took: [u64; 2],
    /// What the others did, in order, and how much of it before the call had ended.
    pub(crate) events: Events,
    pub(crate) ended: usize,
    /// What is left in the channel.
    pub(crate) left: Plain,
    /// Whether somebody was left asleep beside what nobody answers for.
    pub(crate) is_lost: bool,
    /// Whether each list has those who wait there, and each one told has been woken.
    pub(crate) is_counted: bool,
    /// How many operations the call made up to the first by which it listened; 0 where it didn't.
    pub(crate) listened: u32,
    /// Whether the call had the operation before which the others came, and whether the first of them came whole.
    pub(crate) came: bool,
    pub(crate) came_whole: bool,
}

impl Outcome {
    /// Whether a list explains it, to which the others' steps did what they did: the call had its moment before the step of
    /// this place among them, and what it did later came before another one, not earlier.
    fn is_so(&self, kind: Kind, message: u64, start: Plain, moment: usize, comes: usize) -> bool {
        let mut plain = start;
        let mut took = [0; 2];
        let mut said = Said::Missing;
        let mut later = Later::Nothing;
        for place in 0..self.events.count.saturating_add(1) {
            if place == moment {
                (said, later) = plain.answer(kind, message, self.said);
            }
            if place == comes {
                said = plain.end(said, later, message);
            }
            if let Some(Some(event)) = self.events.events.get(place) {
                let out = plain.do_event(event);
                if out != 0 && event.by < 2 {
                    took[event.by] = with(took[event.by], out);
                }
            }
        }
        said == self.said && plain == self.left && took == self.took
    }

    /// Whether there are such moments while the call is under way, and nobody sleeps who shouldn't.
    pub(crate) fn is_explained(&self, kind: Kind, message: u64, start: Plain) -> bool {
        if self.is_lost || !self.is_counted || !self.left.is_sound() {
            return false;
        }
        let end = self.ended.saturating_add(1);
        for moment in 0..end {
            for comes in moment..end {
                if self.is_so(kind, message, start, moment, comes) {
                    return true;
                }
            }
        }
        false
    }
}
