//! The messages that a world hands out.

use crate::answer::{Answer, read};
use channel_world::call::Reply;

/// Which messages were handed out, by their numbers.
#[derive(Drop)]
pub struct HandedOut {
    pub messages: Vec<u64>,
    /// Those from this number on never came.
    pub next: u64,
    /// How many of these had been in the channel: received or displaced, not given back.
    pub left: u64,
}

impl HandedOut {
    /// Whether this message had come, and wasn't handed out before.
    fn is_first(&mut self, message: u64) -> bool {
        let is_first = message < self.next && !self.messages.contains(&message);
        let _ = self.messages.push(message);
        is_first
    }

    /// The same of those that had been in the channel.
    fn are_first(&mut self, messages: &[u64]) -> bool {
        let mut all = true;
        for message in messages {
            self.left = self.left.wrapping_add(1);
            all = self.is_first(*message) && all;
        }
        all
    }

    /// Whether each message of this reply had come, and wasn't handed out before.
    pub fn add(&mut self, reply: &Reply<u64>) -> bool {
        if let Reply::RecvMany(Ok(messages)) = reply {
            return self.are_first(messages.as_slice());
        }
        match read(reply).1 {
            Answer::Received(message) | Answer::Displaced(message) => self.are_first(&[message]),
            Answer::Full(message) | Answer::SendClosed(message) => self.is_first(message),
            Answer::GivenUp(Some(message)) => self.is_first(message),
            _ => true,
        }
    }
}
