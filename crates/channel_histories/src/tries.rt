//! Calls that are made at once: sends and receives that try or block, and closings.

use crate::answers::{
    closed, forced_send, found, found_none, received, sent, took_none, tried_recv, tried_send,
    walked,
};
use crate::party::Party;
use crate::place::At;
use async_channel::{Refused, TryRecvError};
use history_checker::log::Log;
use history_checker::point::{Did, Side};
use std::sync::Wait;

/// Fills the list with so many numbers, from 0 on, and says how many more fit.
fn fill(list: &mut Vec<u64>, count: usize) -> usize {
    list.clear();
    for number in 0..count {
        let _ = list.push(number as u64);
    }
    list.capacity().saturating_sub(list.len())
}

/// Whether the list begins with so many numbers, from 0 on.
fn begins_so(list: &[u64], count: usize) -> bool {
    (0..count).all(|number| list.get(number) == Some(&(number as u64)))
}

/// Notes a receive into the room of a list that had so many numbers.
fn note_filled(
    list: &[u64],
    there: usize,
    limit: usize,
    begin: u64,
    end: u64,
    answer: Result<usize, TryRecvError>,
    log: &mut Log,
) {
    let taken = list.get(there..).unwrap_or(&[]);
    match answer {
        Ok(count) if count == taken.len() && begins_so(list, there) => {
            log.note_taken(begin, end, limit, taken)
        }
        Err(error) if taken.is_empty() && begins_so(list, there) => {
            log.note(begin, end, found_none(limit, error))
        }
        _ => log.spoiled = true,
    }
}

impl<'a, R: Wait + Copy> Party<'a, R> {
    /// A send that tries.
    pub fn try_send(&mut self) {
        let message = self.next_message();
        let begin = self.stamps.stamp();
        let answer = self.hands.sender.try_send(message);
        self.note(begin, tried_send(self.grows(), message, &answer));
    }

    /// A send that displaces the oldest message of a full channel.
    pub fn force_send(&mut self) {
        let message = self.next_message();
        let capacity = self.hands.sender.capacity();
        let begin = self.stamps.stamp();
        let answer = self.hands.sender.force_send(message);
        self.note(begin, forced_send(self.grows(), capacity, message, &answer));
    }

    /// A send that blocks.
    pub fn send_blocking(&mut self) {
        let message = self.next_message();
        let begin = self.stamps.stamp();
        self.stand(At::Blocking(Side::Senders));
        let answer = self.hands.sender.send_blocking(message);
        self.stand(At::Calls);
        self.note(begin, sent(self.scarce, message, &answer));
    }

    /// A receive that tries.
    pub fn try_recv(&mut self) {
        let begin = self.stamps.stamp();
        let answer = self.hands.receiver.try_recv();
        self.note(begin, tried_recv(&answer));
    }

    /// A receive of several, of three at most, that tries.
    pub fn recv_many(&mut self) {
        let limit = self.random.below(4);
        let begin = self.stamps.stamp();
        let answer = self.hands.receiver.recv_many(limit);
        let end = self.stamps.stamp();
        match &answer {
            Ok(messages) => self.log.note_taken(begin, end, limit, messages.as_slice()),
            Err(error) => self
                .log
                .note(begin, end, took_none(self.scarce, limit, error)),
        }
    }

    /// A receive of more than fit into memory, which is refused before it takes any.
    pub fn recv_too_many(&mut self) {
        let begin = self.stamps.stamp();
        let answer = self.hands.receiver.recv_many(usize::MAX);
        let refused = matches!(&answer, Err(Refused::NoMemory(())));
        self.note(begin, Did::nothing_if(refused));
    }

    /// A receive of several, of three at most, into the room of a list, behind what is there.
    pub fn recv_many_into(&mut self) {
        let there = self.random.below(4).wrapping_add(1);
        let limit = fill(&mut self.kept.messages, there);
        let begin = self.stamps.stamp();
        let answer = self.hands.receiver.recv_many_into(&mut self.kept.messages);
        let end = self.stamps.stamp();
        let list = self.kept.messages.as_slice();
        note_filled(list, there, limit, begin, end, answer, self.log);
    }

    /// The next message of a walk that doesn't wait, and goes on where it found none before.
    pub fn next_of_try_iter(&mut self) {
        let begin = self.stamps.stamp();
        let item = self.try_iter.next();
        self.note(begin, found(item));
    }

    /// The next message of a walk that waits.
    pub fn next_of_iter(&mut self) {
        let begin = self.stamps.stamp();
        self.stand(At::Blocking(Side::Receivers));
        let item = self.iter.next();
        self.stand(At::Calls);
        self.note(begin, walked(self.scarce, &item));
    }

    /// A receive that blocks.
    pub fn recv_blocking(&mut self) {
        let begin = self.stamps.stamp();
        self.stand(At::Blocking(Side::Receivers));
        let answer = self.hands.receiver.recv_blocking();
        self.stand(At::Calls);
        self.note(begin, received(self.scarce, &answer));
    }

    /// A closing, from either side.
    pub fn close(&mut self) {
        let by_sender = self.random.once_in(2);
        let begin = self.stamps.stamp();
        let answer = if by_sender {
            self.hands.sender.close()
        } else {
            self.hands.receiver.close()
        };
        self.note(begin, closed(answer));
    }
}
