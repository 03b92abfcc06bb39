//! Crowds: more threads than processors, which send and receive through one channel.

use crate::crew::start;
use crate::crowds::token::Token;
use crate::crowds::watch::Watch;
use crate::crowds::work::{Counts, Orders, Plan, Receives, Receiving, Sending, Sends};
use async_channel::{Receiver, Sender, TryRecvError, bounded, unbounded};
use event_listener::id::EventIds;
use std::alloc::{AllocGlobal, Global};
use std::random::RandomSource;
use std::rt::Clock;
use std::sync::{Arc, Wait};
use std::thread::{JoinHandle, Threads};

/// How large a crowd is.
#[derive(Clone, Copy)]
pub struct Size {
    /// How many messages each sender has.
    pub messages: u64,
    /// How many threads send.
    pub senders: usize,
    /// How many receive.
    pub receivers: usize,
}

/// How a crowd sends and receives, and how it ends. But where it is closed in the midst, the channel stays open until all
/// messages have left it, so that no closing wakes whom a notice has forgotten.
#[derive(Clone, Copy, PartialEq, Eq)]
pub enum Kind {
    /// Everybody sleeps where there is no place or no message.
    Sleeps,
    /// The same, but all receivers are streams.
    Streams,
    /// In all ways but displacing; the first sender closes the channel after a third of its messages.
    Closes,
    /// In all ways; a third of the senders displace.
    Displaces,
}

/// How a crowd ended.
#[derive(Clone, Copy, PartialEq, Eq, Debug)]
pub enum End {
    /// As it must.
    Right,
    /// Nothing moved any more, or the channel was not closed and empty at last; so many sends and receives were under way then,
    /// beside so many messages of a channel that was closed or not.
    Asleep {
        sending: u64,
        receiving: u64,
        messages: usize,
        closed: bool,
    },
    /// A message was lost, doubled or out of order, or not let go.
    Wrong {
        made: u64,
        gone: u64,
        accepted: u64,
        displaced: u64,
        received: u64,
        in_order: bool,
    },
}

/// The way of the sender of this number.
fn sending(kind: Kind, number: usize) -> Sending {
    match (kind, number % 3) {
        (_, 0) => Sending::Blocking,
        (_, 1) => Sending::Polled,
        (Kind::Displaces, _) => Sending::Forced,
        (Kind::Closes, _) => Sending::Tried,
        (_, _) => Sending::Polled,
    }
}

/// The way of the receiver of this number.
fn receiving(kind: Kind, number: usize) -> Receiving {
    match (kind, number % 4) {
        (Kind::Streams, _) => Receiving::Streamed,
        (_, 0) => Receiving::Blocking,
        (_, 1) => Receiving::Polled,
        (Kind::Sleeps, 2) => Receiving::Blocking,
        (Kind::Sleeps, _) => Receiving::Polled,
        (_, 2) => Receiving::Streamed,
        (_, _) => Receiving::Tried,
    }
}

/// What the sender of this number is to do.
fn plan(kind: Kind, size: Size, number: usize) -> Plan {
    let closes = kind == Kind::Closes && number == 0;
    Plan {
        from: number,
        messages: size.messages,
        way: sending(kind, number),
        closes_at: closes.then_some(size.messages / 3),
    }
}

/// The two handles of a channel that was just opened.
type Ends<R> = (Sender<Token, R>, Receiver<Token, R>);

fn open<R: Wait + Copy>(rt: R, alloc: Global, capacity: usize) -> Option<Ends<R>> {
    let mut ids = EventIds::new();
    if capacity == 0 {
        unbounded(rt, alloc, &mut ids).ok()
    } else {
        bounded(rt, alloc, capacity, &mut ids).ok()
    }
}

/// Starts the threads that send.
fn start_senders<R>(
    rt: R,
    sender: &Sender<Token, R>,
    watch: &Arc<Watch>,
    size: Size,
    kind: Kind,
    started: &mut Vec<JoinHandle<Counts>>,
) -> Option<()>
where
    R: Wait + Threads + Copy + RandomSource + AllocGlobal + Send + Sync + 'static,
{
    for number in 0..size.senders {
        let sends = Sends {
            sender: sender.try_clone().ok()?,
            watch: Arc::try_clone(watch).ok()?,
            plan: plan(kind, size, number),
        };
        start(rt, sends, started).ok()?;
    }
    Some(())
}

/// Starts the threads that receive.
fn start_receivers<R>(
    rt: R,
    alloc: Global,
    receiver: &Receiver<Token, R>,
    watch: &Arc<Watch>,
    size: Size,
    kind: Kind,
    started: &mut Vec<JoinHandle<Counts>>,
) -> Option<()>
where
    R: Wait + Threads + Copy + RandomSource + AllocGlobal + Send + Sync + 'static,
{
    for number in 0..size.receivers {
        let receives = Receives {
            receiver: receiver.try_clone().ok()?,
            watch: Arc::try_clone(watch).ok()?,
            way: receiving(kind, number),
            orders: Orders::new(alloc, size.senders)?,
        };
        start(rt, receives, started).ok()?;
    }
    Some(())
}

/// Adds up what the threads did, which have all ended.
fn add_up<R: Threads>(rt: &R, watch: &Watch, started: Vec<JoinHandle<Counts>>) -> End {
    let mut all = Counts::none();
    for one in started {
        all = all.plus(one.join(rt));
    }
    let Counts {
        accepted,
        displaced,
        received,
        in_order,
    } = all;
    let (made, gone) = (watch.made.get(), watch.gone.get());
    if in_order && made == gone && accepted == received.wrapping_add(displaced) {
        End::Right
    } else {
        End::Wrong {
            made,
            gone,
            accepted,
            displaced,
            received,
            in_order,
        }
    }
}

/// Waits until all messages have left the channel, unless a sender closes it in the midst. False once nothing moves.
fn see_through<R: Wait + Clock>(rt: &R, watch: &Watch, size: Size, kind: Kind) -> bool {
    let all = size.messages.wrapping_mul(size.senders as u64);
    kind == Kind::Closes || watch.wait_for(rt, &watch.taken, all)
}

/// What holds where nothing moves.
fn asleep<R: Wait + Copy>(watch: &Watch, receiver: &Receiver<Token, R>) -> End {
    End::Asleep {
        sending: watch.sending(),
        receiving: watch.receiving(),
        messages: receiver.len(),
        closed: receiver.is_closed(),
    }
}

/// Sees a crowd through to its end: what was under way when nothing moved any more, or nothing. The last sender is dropped once
/// all messages have left.
fn see_end<R>(rt: R, ends: Ends<R>, watch: &Watch, size: Size, kind: Kind) -> Option<End>
where
    R: Wait + Copy + Clock,
{
    let (sender, receiver) = ends;
    let threads = (size.senders as u64).wrapping_add(size.receivers as u64);
    let through = see_through(&rt, watch, size, kind);
    let seen = asleep(watch, &receiver);
    drop(sender);
    let ended = through && watch.wait_for(&rt, &watch.threads_ended, threads);
    let last = asleep(watch, &receiver);
    let over = matches!(receiver.try_recv(), Err(TryRecvError::Closed));
    drop(receiver);
    if !through {
        return Some(seen);
    }
    if ended && over { None } else { Some(last) }
}

/// Lets a crowd send its messages through a channel of this capacity, 0 for none. `None` where memory or a thread was refused.
pub fn run<R>(rt: R, alloc: Global, capacity: usize, size: Size, kind: Kind) -> Option<End>
where
    R: Wait + Threads + Copy + RandomSource + AllocGlobal + Clock + Send + Sync + 'static,
{
    let watch = Arc::new(alloc, Watch::new()).ok()?;
    let ends = open(rt, alloc, capacity)?;
    let mut started = Vec::new(alloc);
    start_receivers(rt, alloc, &ends.1, &watch, size, kind, &mut started)?;
    start_senders(rt, &ends.0, &watch, size, kind, &mut started)?;
    let asleep = see_end(rt, ends, &watch, size, kind);
    if asleep.is_some() {
        return asleep;
    }
    Some(add_up(&rt, &watch, started))
}
