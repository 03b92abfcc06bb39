//! One thread of a history over handles.

use crate::acts::Act;
use crate::place::{At, Place, Standing};
use crate::random::Random;
use async_channel::{
    Closed, Iter, Receiver, Recv, Send, Sender, TryIter, WeakReceiver, WeakSender,
};
use history_checker::log::{Log, Stamps};
use history_checker::point::Did;
use std::alloc::Global;
use std::sync::Wait;
use std::thread;

/// The handles that a thread begins with, beside the receiver that it polls as a stream.
#[derive(Drop)]
pub struct Hands<R: Wait + Copy> {
    pub sender: Sender<u64, R>,
    pub receiver: Receiver<u64, R>,
    pub weak_sender: WeakSender<u64, R>,
    pub weak_receiver: WeakReceiver<u64, R>,
}

impl<R: Wait + Copy> Hands<R> {
    /// One more of each; None where one was refused.
    pub fn of(sender: &Sender<u64, R>, receiver: &Receiver<u64, R>) -> Option<Hands<R>> {
        Some(Hands {
            sender: sender.try_clone().ok()?,
            receiver: receiver.try_clone().ok()?,
            weak_sender: sender.downgrade().ok()?,
            weak_receiver: receiver.downgrade().ok()?,
        })
    }
}

/// How many messages fit into the list of a receive of several.
const ROOM: usize = 4;

/// What a thread makes and fills. Each list has room from the start, so that a thread asks for no memory but by calls of the channel.
#[derive(Drop)]
pub struct Kept<R: Wait + Copy> {
    /// The receiver that is polled as a stream.
    pub stream: Option<Receiver<u64, R>>,
    pub senders: Vec<Sender<u64, R>>,
    pub receivers: Vec<Receiver<u64, R>>,
    pub messages: Vec<u64>,
}

impl<R: Wait + Copy> Kept<R> {
    /// This stream, and room for what so many calls make.
    pub fn new(stream: Receiver<u64, R>, alloc: Global, calls: u64) -> Option<Kept<R>> {
        Some(Kept {
            stream: Some(stream),
            senders: Vec::with_capacity(alloc, calls as usize).ok()?,
            receivers: Vec::with_capacity(alloc, calls as usize).ok()?,
            messages: Vec::with_capacity(alloc, ROOM).ok()?,
        })
    }
}

/// A thread's handles, operations and log.
#[derive(Drop)]
pub struct Party<'a, R: Wait + Copy> {
    rt: R,
    pub hands: &'a Hands<R>,
    pub place: &'a Place,
    pub stamps: &'a Stamps,
    pub random: Random,
    /// Whether calls may be refused memory.
    pub scarce: bool,
    /// The last new message.
    pub message: u64,
    /// The message of the send that waits.
    pub sending: u64,
    pub send: Option<Send<'a, u64, R>>,
    pub recv: Option<Recv<'a, u64, R>>,
    pub closed: Option<Closed<'a, u64, R>>,
    /// A walk that waits.
    pub iter: Iter<'a, u64, R>,
    /// A walk that doesn't.
    pub try_iter: TryIter<'a, u64, R>,
    pub standing: Standing,
    pub kept: Kept<R>,
    pub log: &'a mut Log,
}

impl<'a, R: Wait + Copy> Party<'a, R> {
    /// A thread that has made no call. Its messages are those above this number.
    pub fn new(
        rt: R,
        hands: &'a Hands<R>,
        place: &'a Place,
        stamps: &'a Stamps,
        random: Random,
        scarce: bool,
        message: u64,
        kept: Kept<R>,
        log: &'a mut Log,
    ) -> Party<'a, R> {
        Party {
            rt,
            hands,
            place,
            stamps,
            random,
            scarce,
            message,
            sending: message,
            send: None,
            recv: None,
            closed: None,
            iter: hands.receiver.iter(),
            try_iter: hands.receiver.try_iter(),
            standing: Standing::new(),
            kept,
            log,
        }
    }

    /// Whether a send may be refused memory that doesn't wait: only a channel without a bound asks for any.
    pub fn grows(&self) -> bool {
        self.scarce && self.hands.sender.capacity().is_none()
    }

    /// The next new message.
    pub fn next_message(&mut self) -> u64 {
        self.message = self.message.wrapping_add(1);
        self.message
    }

    /// A call that began at this stamp has ended, and did this.
    pub fn note(&mut self, begin: u64, did: Did) {
        let end = self.stamps.stamp();
        self.log.note(begin, end, did);
    }

    /// It is at this now, with what is pending.
    pub fn stand(&mut self, at: At) {
        self.standing.at = at;
        self.place.say(&self.rt, self.standing);
    }

    /// Makes so many calls, with a yield before some of them. It blocks only where it may.
    pub fn make_calls(&mut self, calls: u64, may_block: bool) {
        for _ in 0..calls {
            if self.random.once_in(3) {
                thread::yield_now();
            }
            match Act::draw(&mut self.random) {
                Act::SendBlocking if !may_block => self.try_send(),
                Act::RecvBlocking if !may_block => self.try_recv(),
                Act::Iter if !may_block => self.next_of_try_iter(),
                act => self.act(act),
            }
        }
    }
}
