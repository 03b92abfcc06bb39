//! Questions, which change nothing.

use crate::answers::is_closed;
use crate::party::Party;
use history_checker::point::{Did, Side, Sight};
use std::sync::Wait;

/// The questions.
#[derive(Clone, Copy)]
pub enum Question {
    IsClosed,
    IsEmpty,
    IsFull,
    Len,
    Capacity,
    IsTerminated,
    SenderCount,
    ReceiverCount,
    SameChannel,
}

impl<'a, R: Wait + Copy> Party<'a, R> {
    /// What the answer to this question says.
    fn sees(&self, question: Question) -> Did {
        let s = &self.hands.sender;
        let r = &self.hands.receiver;
        match question {
            Question::IsClosed => is_closed(s.is_closed()),
            Question::IsEmpty => Did::saw(Sight::Empty(r.is_empty())),
            Question::IsFull => Did::saw(Sight::Full(s.is_full())),
            Question::Len => Did::saw(Sight::Len(r.len())),
            Question::Capacity => Did::nothing_if(s.capacity() == r.capacity()),
            Question::IsTerminated => Did::saw(Sight::Ended(r.is_terminated())),
            Question::SenderCount => Did::saw(Sight::Count(Side::Senders, r.sender_count())),
            Question::ReceiverCount => Did::saw(Sight::Count(Side::Receivers, s.receiver_count())),
            Question::SameChannel => match &self.kept.stream {
                Some(stream) => Did::nothing_if(r.same_channel(stream)),
                None => Did::Nothing,
            },
        }
    }

    /// Asks this.
    pub fn ask(&mut self, question: Question) {
        let begin = self.stamps.stamp();
        let did = self.sees(question);
        self.note(begin, did);
    }
}
