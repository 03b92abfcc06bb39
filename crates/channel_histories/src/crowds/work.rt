//! What the threads of a crowd do.

use crate::crew::Job;
use crate::crowds::token::Token;
use crate::crowds::watch::Watch;
use async_channel::{Receiver, Refused, Sender, TryRecvError, TrySendError};
use futures::StreamExt;
use futures::executor::block_on;
use std::alloc::{AllocGlobal, Global};
use std::random::RandomSource;
use std::sync::{Arc, Wait};
use std::thread;

/// The ways to send.
#[derive(Clone, Copy)]
pub enum Sending {
    Blocking,
    Polled,
    Tried,
    Forced,
}

/// The ways to receive.
#[derive(Clone, Copy)]
pub enum Receiving {
    Blocking,
    Polled,
    Streamed,
    Tried,
}

/// What threads did: how many messages were accepted, how many others their displacing sends handed out, how many came, and whether
/// each sender's came in its order.
#[derive(Clone, Copy)]
pub struct Counts {
    pub accepted: u64,
    pub displaced: u64,
    pub received: u64,
    pub in_order: bool,
}

impl Counts {
    /// Nothing.
    pub fn none() -> Counts {
        Counts {
            accepted: 0,
            displaced: 0,
            received: 0,
            in_order: true,
        }
    }

    /// What these did and those.
    pub fn plus(self, other: Counts) -> Counts {
        Counts {
            accepted: self.accepted.wrapping_add(other.accepted),
            displaced: self.displaced.wrapping_add(other.displaced),
            received: self.received.wrapping_add(other.received),
            in_order: self.in_order && other.in_order,
        }
    }
}

/// Tries until there is a place: whether the message was accepted.
fn try_until_sent<R: Wait + Copy>(rt: R, sender: &Sender<Token, R>, token: Token) -> bool {
    let mut token = token;
    for _ in rt.forever() {
        match sender.try_send(token) {
            Ok(()) => return true,
            Err(Refused::Plain(TrySendError::Full(back))) => token = back,
            Err(_) => return false,
        }
        thread::yield_now();
    }
    unreachable!()
}

/// One send: whether its message was accepted, and whether it handed another one out.
fn send<R>(rt: R, sender: &Sender<Token, R>, token: Token, way: Sending) -> (bool, bool)
where
    R: Wait + Copy + RandomSource + AllocGlobal,
{
    match way {
        Sending::Blocking => (sender.send_blocking(token).is_ok(), false),
        Sending::Polled => {
            let sent = block_on(&rt, sender.send(token));
            (matches!(sent, Ok(Ok(()))), false)
        }
        Sending::Tried => (try_until_sent(rt, sender, token), false),
        Sending::Forced => {
            let sent = sender.force_send(token);
            (sent.is_ok(), matches!(sent, Ok(Some(_))))
        }
    }
}

/// What a sending thread is to do.
#[derive(Clone, Copy)]
pub struct Plan {
    /// Which one it is.
    pub from: usize,
    /// How many messages it has.
    pub messages: u64,
    /// How it sends.
    pub way: Sending,
    /// Before which message it closes the channel, if it does.
    pub closes_at: Option<u64>,
}

/// A sending thread.
#[derive(Drop)]
pub struct Sends<R: Wait + Copy> {
    pub sender: Sender<Token, R>,
    pub watch: Arc<Watch>,
    pub plan: Plan,
}

/// Sends the messages of this plan, until one is refused.
fn send_all<R>(rt: R, sender: &Sender<Token, R>, watch: &Arc<Watch>, plan: Plan) -> Counts
where
    R: Wait + Copy + RandomSource + AllocGlobal,
{
    let mut all = Counts::none();
    for number in 0..plan.messages {
        if plan.closes_at == Some(number) {
            sender.close();
        }
        let Some(token) = Token::new(number, plan.from, watch) else {
            break;
        };
        watch.sends_begun.raise();
        let (accepted, displaced) = send(rt, sender, token, plan.way);
        watch.sends_ended.raise();
        if !accepted {
            break;
        }
        all.accepted = all.accepted.wrapping_add(1);
        if displaced {
            all.displaced = all.displaced.wrapping_add(1);
            watch.taken.raise();
        }
    }
    all
}

impl<R: Wait + Copy + RandomSource + AllocGlobal> Job<R> for Sends<R> {
    type Done = Counts;

    /// Sends its messages, and lets the sender go.
    fn run(self, rt: R) -> Counts {
        let Sends {
            sender,
            watch,
            plan,
        } = self;
        let all = send_all(rt, &sender, &watch, plan);
        drop(sender);
        watch.threads_ended.raise();
        all
    }
}

/// Tries until there is a message; none where the channel is closed and empty.
fn try_until_received<R: Wait + Copy>(rt: R, receiver: &Receiver<Token, R>) -> Option<Token> {
    for _ in rt.forever() {
        match receiver.try_recv() {
            Ok(token) => return Some(token),
            Err(TryRecvError::Closed) => return None,
            Err(TryRecvError::Empty) => thread::yield_now(),
        }
    }
    unreachable!()
}

/// One receive; none where the channel is closed and empty.
fn receive<R>(rt: R, receiver: &mut Receiver<Token, R>, way: Receiving) -> Option<Token>
where
    R: Wait + Copy + RandomSource + AllocGlobal,
{
    match way {
        Receiving::Blocking => receiver.recv_blocking().ok(),
        Receiving::Polled => block_on(&rt, receiver.recv()).ok()?.ok(),
        Receiving::Streamed => block_on(&rt, receiver.next()).ok()??.ok(),
        Receiving::Tried => try_until_received(rt, receiver),
    }
}

/// The least number that each sender's next message may have.
#[derive(Drop)]
pub struct Orders {
    least: Vec<u64>,
}

impl Orders {
    /// Of so many senders, none of which has sent. `None` where memory was refused.
    pub fn new(alloc: Global, senders: usize) -> Option<Orders> {
        let least = Vec::from_elem(alloc, 0, senders).ok()?;
        Some(Orders { least })
    }

    /// Notes a message: whether it comes behind those of its sender that came before.
    fn note(&mut self, token: &Token) -> bool {
        match self.least.get_mut(token.from) {
            Some(least) => {
                let right = *least <= token.number;
                *least = token.number.wrapping_add(1);
                right
            }
            None => false,
        }
    }
}

/// A receiving thread.
#[derive(Drop)]
pub struct Receives<R: Wait + Copy> {
    pub receiver: Receiver<Token, R>,
    pub watch: Arc<Watch>,
    pub way: Receiving,
    pub orders: Orders,
}

/// Receives in this way until the channel is closed and empty.
fn receive_all<R>(
    rt: R,
    receiver: &mut Receiver<Token, R>,
    watch: &Watch,
    way: Receiving,
    orders: &mut Orders,
) -> Counts
where
    R: Wait + Copy + RandomSource + AllocGlobal,
{
    let mut all = Counts::none();
    for _ in rt.forever() {
        watch.receives_begun.raise();
        let token = receive(rt, receiver, way);
        watch.receives_ended.raise();
        let Some(token) = token else {
            break;
        };
        watch.taken.raise();
        all.received = all.received.wrapping_add(1);
        all.in_order = orders.note(&token) && all.in_order;
    }
    all
}

impl<R: Wait + Copy + RandomSource + AllocGlobal> Job<R> for Receives<R> {
    type Done = Counts;

    /// Receives all that comes, and lets the receiver go.
    fn run(self, rt: R) -> Counts {
        let Receives {
            mut receiver,
            watch,
            way,
            mut orders,
        } = self;
        let all = receive_all(rt, &mut receiver, &watch, way, &mut orders);
        drop(receiver);
        watch.threads_ended.raise();
        all
    }
}
