//! What is drawn.

use crate::book::Book;
use crate::names::Names;
use crate::plan::{Kind, LARGE, Plan, TOO_LARGE, Target};
use crate::random::Random;
use crate::weights::fall_on;

/// How often each kind of call is drawn, of all drawn.
static WEIGHTS: [(Kind, usize); 26] = [
    (Kind::NewSend, 14),
    (Kind::NewRecv, 14),
    (Kind::NewClosed, 4),
    (Kind::Poll, 60),
    (Kind::PollRefused, 5),
    (Kind::GiveUp, 22),
    (Kind::SendIsTerminated, 2),
    (Kind::PollNext, 24),
    (Kind::StreamIsTerminated, 2),
    (Kind::TrySend, 26),
    (Kind::ForceSend, 12),
    (Kind::TryRecv, 24),
    (Kind::RecvMany, 20),
    (Kind::Close, 1),
    (Kind::Drop, 6),
    (Kind::TryClone, 5),
    (Kind::Downgrade, 3),
    (Kind::Upgrade, 12),
    (Kind::SameChannel, 1),
    (Kind::IsClosed, 2),
    (Kind::IsEmpty, 2),
    (Kind::IsFull, 2),
    (Kind::Len, 2),
    (Kind::Capacity, 1),
    (Kind::SenderCount, 2),
    (Kind::ReceiverCount, 2),
];

/// The sum of all weights.
const ALL: usize = 270;

/// How many calls are drawn at most until one is that isn't refused.
const TRIES: usize = 8;

fn draw_kind(random: &mut Random) -> Kind {
    fall_on(&WEIGHTS, random.below(ALL)).unwrap_or(Kind::TryRecv)
}

/// What sends in the place of what receives one message.
fn sending(kind: Kind) -> Kind {
    match kind {
        Kind::NewRecv => Kind::NewSend,
        Kind::TryRecv => Kind::TrySend,
        Kind::PollNext => Kind::Poll,
        _ => kind,
    }
}

/// The name of a live handle, or now and then one that may be taken or not.
fn draw_handle(random: &mut Random, names: &Names) -> u32 {
    if random.once_in(40) {
        return random.name_below(names.next_handle.saturating_add(1));
    }
    let k = random.below(names.handles.len());
    match names.handles.get(k) {
        Some(handle) => handle.name,
        None => 0,
    }
}

/// The name of a live operation, or now and then one that may be taken or not.
fn draw_operation(random: &mut Random, names: &Names) -> u32 {
    if random.once_in(40) {
        return random.name_below(names.next_operation.saturating_add(1));
    }
    let k = random.below(names.operations.len());
    match names.operations.get(k) {
        Some(operation) => operation.name,
        None => 0,
    }
}

/// The next name, or now and then one that was taken.
fn draw_new(random: &mut Random, next: u32) -> u32 {
    if random.once_in(20) {
        random.name_below(next)
    } else {
        next
    }
}

/// How many messages a receive of several takes at most: mostly few, now and then all that there are, or more than there can be.
fn draw_limit(random: &mut Random) -> usize {
    match random.below(16) {
        0 => 0,
        1..4 => 1,
        4..9 => 2,
        9..14 => 3,
        14 => LARGE,
        _ => TOO_LARGE,
    }
}

/// A call, refused or not. In a flood nobody receives messages one by one.
fn draw_any(random: &mut Random, names: &Names, message: u64, is_flood: bool) -> Plan {
    let drawn = draw_kind(random);
    let kind = if is_flood { sending(drawn) } else { drawn };
    let name = match kind.target() {
        Target::Operation => draw_operation(random, names),
        Target::Two => draw_handle(random, names),
        _ if kind.makes_operation() => draw_new(random, names.next_operation),
        _ => draw_new(random, names.next_handle),
    };
    let limit = match kind {
        Kind::RecvMany => draw_limit(random),
        _ => 0,
    };
    Plan {
        kind,
        handle: draw_handle(random, names),
        name,
        message,
        limit,
    }
}

/// What a party begins: mostly a call that isn't refused. A new message is this one. In a flood most calls send, and many sends
/// wait.
pub fn draw(random: &mut Random, book: &Book, party: u32, message: u64, is_flood: bool) -> Plan {
    let mut plan = draw_any(random, &book.names, message, is_flood);
    let tries = if random.once_in(16) { 0 } else { TRIES };
    for _ in 0..tries {
        if book.refusal(party, plan).is_none() {
            return plan;
        }
        plan = draw_any(random, &book.names, message, is_flood);
    }
    plan
}
