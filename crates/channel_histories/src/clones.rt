//! Handles that are made and dropped.

use crate::leaving::{let_go, upgrade_receiver, upgrade_sender};
use crate::party::Party;
use async_channel::Receiver;
use history_checker::log::Log;
use history_checker::point::{Did, Point, Side};
use std::sync::Wait;

/// Keeps a handle.
fn keep<H: Drop>(handles: &mut Vec<H>, handle: H, log: &mut Log) {
    if handles.push(handle).is_err() {
        log.spoiled = true;
    }
}

impl<'a, R: Wait + Copy> Party<'a, R> {
    /// One more sender.
    pub fn clone_sender(&mut self) {
        let begin = self.stamps.stamp();
        match self.hands.sender.try_clone() {
            Ok(sender) => {
                self.note(begin, Did::Once(Point::Raise(Side::Senders)));
                keep(&mut self.kept.senders, sender, self.log);
            }
            Err(_) => self.log.spoiled = true,
        }
    }

    /// One more receiver, made now; none where it was refused.
    pub fn one_more_receiver(&mut self) -> Option<Receiver<u64, R>> {
        let begin = self.stamps.stamp();
        match self.hands.receiver.try_clone() {
            Ok(receiver) => {
                self.note(begin, Did::Once(Point::Raise(Side::Receivers)));
                Some(receiver)
            }
            Err(_) => {
                self.log.spoiled = true;
                None
            }
        }
    }

    /// One more receiver.
    pub fn clone_receiver(&mut self) {
        if let Some(receiver) = self.one_more_receiver() {
            keep(&mut self.kept.receivers, receiver, self.log);
        }
    }

    /// One more sender from a weak one, where the channel is open and a sender lives.
    pub fn upgrade_sender(&mut self) {
        let made = upgrade_sender(&self.hands.weak_sender, self.stamps, self.log);
        if let Some(sender) = made {
            keep(&mut self.kept.senders, sender, self.log);
        }
    }

    /// One more receiver from a weak one, where the channel is open and a receiver lives.
    pub fn upgrade_receiver(&mut self) {
        let made = upgrade_receiver(&self.hands.weak_receiver, self.stamps, self.log);
        if let Some(receiver) = made {
            keep(&mut self.kept.receivers, receiver, self.log);
        }
    }

    /// A weak handle of each kind more, from a strong one and from a weak one. They go at once.
    pub fn weaken(&mut self) {
        let hands = self.hands;
        let begin = self.stamps.stamp();
        let sender = hands.sender.downgrade().is_ok();
        let receiver = hands.receiver.downgrade().is_ok();
        let weak_sender = hands.weak_sender.try_clone().is_ok();
        let weak_receiver = hands.weak_receiver.try_clone().is_ok();
        let made = sender && receiver && weak_sender && weak_receiver;
        self.note(begin, Did::nothing_if(made));
    }

    /// The last sender that was made is dropped.
    pub fn drop_sender(&mut self) {
        if let Some(sender) = self.kept.senders.pop() {
            let_go(sender, Side::Senders, self.stamps, self.log);
        }
    }

    /// The last receiver that was made is dropped.
    pub fn drop_receiver(&mut self) {
        if let Some(receiver) = self.kept.receivers.pop() {
            let_go(receiver, Side::Receivers, self.stamps, self.log);
        }
    }
}
