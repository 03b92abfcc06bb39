//! The record of three threads' calls, replayed by a plain channel that is written apart: a list of messages, a flag, two counts.
ghost use Rattle.std.specs.Prelude.{◌≡◌};

use crate::checks::expect_equal;
use crate::recorded::seats::{finish, two_seats};
use channel_calls::error::{Refused, TryRecvError, TrySendError};
use channel_world::call::{Call, Reply};
use channel_world::name::HandleId;
use channel_world::{Receipt, Record, RecordSeat, RecordedChannel};
use event_listener::id::EventIds;
use futures::task::Poll;
use history_checker::plain::Plain;
use history_checker::point::{Point, Side, Sight};
use std::alloc::{AllocGlobal, Global};
use std::marker::Brand;
use std::process::Abort;
use std::sync::Wait;
use std::sync::ledger::{Blank, Ledger};
use std::thread;
use std::thread::Threads;

/// How many calls each seat makes.
const CALLS: u32 = 40;

const CAPACITY: usize = 2;

const SENDER: HandleId = HandleId(0);

const RECEIVER: HandleId = HandleId(1);

/// The name of the sender that a seat clones at this turn.
fn clone_of(seat: u32, turn: u32) -> HandleId {
    HandleId(turn.wrapping_add(CALLS.wrapping_mul(seat.wrapping_add(1))))
}

/// The call of a seat at this turn, which is accepted whatever the others do. The first seat closes at its last one.
fn call(seat: u32, turn: u32) -> Call<u64> {
    let msg = u64::from(seat)
        .wrapping_mul(1_000)
        .wrapping_add(u64::from(turn));
    match turn % 8 {
        0 => Call::TryClone {
            handle: SENDER,
            new: clone_of(seat, turn),
        },
        1 | 2 => Call::TrySend {
            sender: SENDER,
            msg,
        },
        3 => Call::ForceSend {
            sender: SENDER,
            msg,
        },
        4 => Call::PollNext { receiver: RECEIVER },
        5 => Call::SenderCount { handle: RECEIVER },
        6 => Call::Drop {
            handle: clone_of(seat, turn.wrapping_sub(6)),
        },
        _ if seat == 0 && turn == 39 => Call::Close { handle: SENDER },
        _ => Call::TryRecv { receiver: RECEIVER },
    }
}

/// Makes a seat's calls: how many were accepted.
fn work<L: Ledger, R: Wait>(
    rt: &R,
    channel: &RecordedChannel<u64, L>,
    seat: RecordSeat<L>,
) -> (RecordSeat<L>, u64) {
    let mut seat = seat;
    let number = seat.number();
    let mut accepted = 0u64;
    for turn in 0..CALLS {
        if channel.call(rt, &mut seat, call(number, turn)).is_ok() {
            accepted = accepted.wrapping_add(1);
        }
        thread::yield_now();
    }
    (seat, accepted)
}

/// What a send found that was refused.
fn refused_send(error: &TrySendError<u64>) -> Sight {
    match error {
        TrySendError::Full(_) => Sight::Crowded,
        TrySendError::Closed(_) => Sight::Shut,
    }
}

/// What a send did that was asked for with this message, as its answer says; none where no send answers so.
fn sent(msg: u64, reply: &Reply<u64>) -> Option<Point> {
    match reply {
        Reply::TrySend(Ok(())) | Reply::ForceSend(Ok(None)) => Some(Point::Append(msg)),
        Reply::TrySend(Err(Refused::Plain(error))) => Some(Point::Sees(refused_send(error))),
        Reply::ForceSend(Ok(Some(oldest))) => Some(Point::Replace(*oldest, msg)),
        Reply::ForceSend(Err(Refused::Plain(_))) => Some(Point::Sees(Sight::Shut)),
        _ => None,
    }
}

/// What a receive or a poll of the stream did, as its answer says; none where none answers so. The stream listens on and waits
/// for a notice, so where it is pending nothing is known.
fn received(reply: &Reply<u64>) -> Option<Point> {
    match reply {
        Reply::TryRecv(Ok(message)) | Reply::Next(Poll::Ready(Some(Ok(message)))) => {
            Some(Point::Take(*message))
        }
        Reply::TryRecv(Err(TryRecvError::Empty)) => Some(Point::Sees(Sight::Bare)),
        Reply::TryRecv(Err(TryRecvError::Closed)) | Reply::Next(Poll::Ready(None)) => {
            Some(Point::Sees(Sight::Spent))
        }
        _ => None,
    }
}

/// What a call did to the channel, as its answer says; none where no such call answers so.
fn point(asked: &Call<u64>, reply: &Reply<u64>) -> Option<Point> {
    match (asked, reply) {
        (Call::TrySend { msg, .. } | Call::ForceSend { msg, .. }, _) => sent(*msg, reply),
        (Call::TryRecv { .. } | Call::PollNext { .. }, _) => received(reply),
        (Call::TryClone { .. }, Reply::Made) => Some(Point::Raise(Side::Senders)),
        (Call::Drop { .. }, Reply::Unit) => Some(Point::Lower(Side::Senders)),
        (Call::SenderCount { .. }, Reply::Count(count)) => {
            Some(Point::Sees(Sight::Count(Side::Senders, *count)))
        }
        (Call::Close { .. }, Reply::Closed(true)) => Some(Point::Close),
        (_, _) => None,
    }
}

/// Lets an entry happen: whether it could.
fn replay_one(plain: &mut Plain, entry: &Receipt<u64>) -> bool {
    if matches!(&entry.reply, Reply::Next(Poll::Pending)) {
        return true;
    }
    match point(&entry.call, &entry.reply) {
        Some(point) => plain.may(point) && plain.make(point, entry.seat as usize).is_ok(),
        None => false,
    }
}

/// How many entries a plain channel replays, from the first on.
fn replayed(alloc: Global, record: &Record<u64>) -> u64 {
    let mut plain = Plain::new(Some(CAPACITY), 1, 1, alloc);
    let mut replayed = 0u64;
    for entry in record.entries() {
        if !replay_one(&mut plain, entry) {
            return replayed;
        }
        replayed = replayed.wrapping_add(1);
    }
    replayed
}

/// How many calls of three seats were accepted, and how many of them a plain channel replays.
fn counted<L: Ledger, R: Abort + AllocGlobal>(
    rt: &R,
    channel: RecordedChannel<u64, L>,
    one: (RecordSeat<L>, u64),
    others: ((RecordSeat<L>, u64), (RecordSeat<L>, u64)),
) -> (u64, u64) {
    let (two, three) = others;
    let mut seats = Vec::new(rt.alloc());
    let mut accepted = 0u64;
    for (seat, calls) in [one, two, three] {
        let _ = seats.push(seat);
        accepted = accepted.wrapping_add(calls);
    }
    let record = finish(rt, channel, seats);
    (accepted, replayed(rt.alloc(), &record))
}

/// Two threads with a seat each.
fn two<L: Ledger + Sync, R: Threads + Wait + Sync>(
    rt: &R,
    channel: &RecordedChannel<u64, L>,
    first: RecordSeat<L>,
    second: RecordSeat<L>,
) -> ((RecordSeat<L>, u64), (RecordSeat<L>, u64)) {
    thread::join(
        rt,
        move || work(rt, channel, first),
        move || work(rt, channel, second),
    )
}

/// Three threads with a seat each.
fn three<L: Ledger + Sync, R: Threads + Wait + Abort + AllocGlobal + Sync>(
    rt: &R,
    blank: Blank,
) -> (u64, u64)
    requires name { blank.name ≡ L.name }
    requires parts { (blank.parts ≡ L.parts) × (blank.parts ≡ 4) }
{
    let mut ids = EventIds::new();
    let opened = RecordedChannel::<u64, L>::bounded(rt.alloc(), CAPACITY, &mut ids, blank, 4);
    let channel = opened.ok().expect(rt, "memory");
    let (first, second) = two_seats(rt, &channel);
    let third = channel.seat(rt).expect(rt, "seats");
    let shared = &channel;
    let (one, others) = thread::join(
        rt,
        move || work(rt, shared, first),
        move || two(rt, shared, second, third),
    );
    counted(rt, channel, one, others)
}

/// Each call was accepted, and the record is what a plain channel does.
#[test]
fn the_record_is_what_a_plain_channel_does(rt: HostRuntime) {
    let all = three::<Brand, HostRuntime>(&rt, Blank::new(4));
    expect_equal(&rt, &all, &(120, 120));
}
