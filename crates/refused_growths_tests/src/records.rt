//! Recorded channels.

ghost use Rattle.std.specs.Prelude.{◌≡◌};

use crate::checks::{expect_equal, expect_seen, expect_true};
use crate::scarcity::{Attempt, Scarcity, Seen, Tried, made, refused};
use channel_calls::error::{OpenError, Refused};
use channel_world::call::{Call, Reply, WorldRefusal};
use channel_world::name::HandleId;
use channel_world::{Receipt, RecordError, RecordSeat, RecordedChannel};
use event_listener::id::EventIds;
use std::alloc::Global;
use std::marker::Brand;
use std::process::Abort;
use std::sync::Wait;
use std::sync::ledger::{Blank, Ledger};

/// A seat, and the channel's own part of the ledger.
const PARTS: u64 = 2;

/// How many messages are sent, and then received. With them the record outgrows its first room, and two more.
const FEW: u64 = 7;

/// So many that the record outgrows a room from which, once it is let go, all else of a call can be served.
const MANY: u64 = 40;

/// Opens a channel of one place, or without a bound, with more and more memory at hand. Where that is refused the blank comes back.
fn open<L: Ledger>(
    scarcity: &mut Scarcity,
    alloc: Global,
    is_bounded: bool,
    first: Blank,
) -> Option<RecordedChannel<u64, L>>
    requires name { first.name ≡ L.name }
    requires parts { (first.parts ≡ L.parts) × (first.parts ≡ 2) }
{
    let mut ids = EventIds::new();
    let mut blank = first;
    for number in 0..scarcity.holes() {
        scarcity.leave(number);
        let opened = if is_bounded {
            RecordedChannel::bounded(alloc, 1, &mut ids, blank, PARTS)
        } else {
            RecordedChannel::unbounded(alloc, &mut ids, blank, PARTS)
        };
        match opened {
            Ok(channel) => {
                scarcity.note(number, true);
                return Some(channel);
            }
            Err((OpenError::NoMemory, back)) => blank = back,
            Err(_) => return None,
        }
    }
    None
}

/// The next call on a recorded channel: a send of each message, then a receive of each.
#[derive(Drop)]
struct RecordedCalls<'a, L: Ledger, R: Wait> {
    rt: &'a R,
    channel: &'a RecordedChannel<u64, L>,
    seat: RecordSeat<L>,
    message: u64,
    is_sent: bool,
    /// Whether this call was refused memory with a receipt before. By the first of these the record may have grown, of whose old room all
    /// else was served: so the call is refused from nothing on again.
    is_noted: bool,
    /// How many receipts there were.
    receipts: usize,
    /// How often the record had no room for a call.
    roomless: u32,
}

impl<L: Ledger, R: Wait> RecordedCalls<'_, L, R> {
    fn asked(&self) -> Call<u64> {
        if self.is_sent {
            Call::TryRecv {
                receiver: HandleId(1),
            }
        } else {
            Call::TrySend {
                sender: HandleId(0),
                msg: self.message,
            }
        }
    }

    /// Whether a refused call is the one that was asked.
    fn is_refused(&mut self, error: &RecordError<u64>) -> bool {
        match error {
            RecordError::NoRoom { call } => {
                self.roomless = self.roomless.wrapping_add(1);
                *call == self.asked()
            }
            RecordError::World { why, call } => {
                *why == WorldRefusal::NoMemory && *call == self.asked()
            }
        }
    }

    /// What a receipt says. It has the place that is next, whether or not its call was refused memory.
    fn judge(&self, receipt: &Receipt<u64>) -> Tried {
        let stands = receipt.place == self.receipts && receipt.call == self.asked();
        match &receipt.reply {
            Reply::TrySend(Ok(())) => made(stands && !self.is_sent),
            Reply::TrySend(Err(Refused::NoMemory(back))) => if stands && *back == self.message {
                Tried::Noted
            } else {
                Tried::Wrong
            },
            Reply::TryRecv(Ok(got)) => made(stands && *got == self.message),
            _ => Tried::Wrong,
        }
    }
}

impl<L: Ledger, R: Wait> Attempt for RecordedCalls<'_, L, R> {
    fn make(&mut self) -> Tried {
        let asked = self.asked();
        match self.channel.call(self.rt, &mut self.seat, asked) {
            Ok(receipt) => {
                let tried = self.judge(&receipt);
                self.receipts = self.receipts.wrapping_add(1);
                let is_first = tried == Tried::Noted && !self.is_noted;
                self.is_noted = self.is_noted || is_first;
                if is_first { Tried::Farther } else { tried }
            }
            Err(error) => refused(self.is_refused(&error)),
        }
    }
}

/// Sends so many messages, and receives them.
fn call_all<L: Ledger, R: Wait>(
    scarcity: &mut Scarcity,
    calls: &mut RecordedCalls<'_, L, R>,
    count: u64,
) {
    for is_sent in [false, true] {
        calls.is_sent = is_sent;
        for message in 0..count {
            calls.message = message;
            calls.is_noted = false;
            scarcity.refuse_each(calls);
        }
    }
}

/// What came of a channel's opening and its calls: how many receipts there were, how many entries its record has, and how often a call
/// got no room in it.
#[derive(Clone, Copy)]
struct Passed {
    seen: Seen,
    receipts: usize,
    entries: usize,
    roomless: u32,
}

/// How many entries the record of a channel has whose only seat is this one.
fn entries_of<L: Ledger, A: Abort>(
    rt: &A,
    alloc: Global,
    channel: RecordedChannel<u64, L>,
    seat: RecordSeat<L>,
) -> usize {
    let mut seats = Vec::with_capacity(alloc, 1).expect(rt, "memory");
    let _ = seats.push(seat);
    let record = channel.finish(seats).ok().expect(rt, "all seats");
    record.len()
}

/// Passes so many messages through a channel without a bound; or, of none, sends 4 into one of one place.
fn pass<L: Ledger, R: Wait + Abort>(rt: &R, alloc: Global, count: u64, blank: Blank) -> Passed
    requires name { blank.name ≡ L.name }
    requires parts { (blank.parts ≡ L.parts) × (blank.parts ≡ 2) }
{
    let mut scarcity = Scarcity::new(alloc);
    let opened = open::<L>(&mut scarcity, alloc, count == 0, blank);
    let channel = opened.expect(rt, "memory");
    let mut calls = RecordedCalls {
        rt,
        channel: &channel,
        seat: channel.seat(rt).expect(rt, "seats"),
        message: 4,
        is_sent: false,
        is_noted: false,
        receipts: 0,
        roomless: 0,
    };
    if count == 0 {
        scarcity.refuse_each(&mut calls);
    } else {
        call_all(&mut scarcity, &mut calls, count);
    }
    let seen = scarcity.end();
    let RecordedCalls {
        seat,
        receipts,
        roomless,
        ..
    } = calls;
    Passed {
        seen,
        receipts,
        entries: entries_of(rt, alloc, channel, seat),
        roomless,
    }
}

/// A refused opening hands the blank back. Each call takes room for its receipt, so each is refused at least once, and the record has
/// an entry for each receipt.
#[test]
fn recorded_channels(rt: HostRuntime) {
    let passed = pass::<Brand, HostRuntime>(&rt, rt.alloc(), FEW, Blank::new(PARTS));
    expect_seen(&rt, &passed.seen, 15, 63);
    expect_equal(&rt, &passed.receipts, &passed.entries);
}

/// The same of a record that grows on.
#[test]
fn records_that_grow(rt: HostRuntime) {
    let passed = pass::<Brand, HostRuntime>(&rt, rt.alloc(), MANY, Blank::new(PARTS));
    expect_seen(&rt, &passed.seen, 81, 267);
    expect_equal(&rt, &passed.receipts, &passed.entries);
}

/// A send that gets no room in the record comes back; made once more it is accepted, and the record has one entry.
#[test]
fn a_send_without_room_comes_back(rt: HostRuntime) {
    let passed = pass::<Brand, HostRuntime>(&rt, rt.alloc(), 0, Blank::new(PARTS));
    expect_seen(&rt, &passed.seen, 2, 19);
    expect_true(&rt, passed.roomless > 0);
    expect_equal(&rt, &(passed.receipts, passed.entries), &(1, 1));
}
