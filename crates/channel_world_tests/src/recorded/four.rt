//! Four threads with a seat each: every receipt stands in the record.
ghost use Rattle.std.specs.Prelude.{◌≡◌};

use crate::checks::expect_equal;
use crate::recorded::seats::{finish, two_seats};
use channel_world::call::{Call, Reply};
use channel_world::name::{HandleId, OpId, Waiter};
use channel_world::{Names, Receipt, Record, RecordSeat, RecordedChannel};
use event_listener::id::EventIds;
use std::alloc::{AllocGlobal, Global};
use std::marker::Brand;
use std::process::Abort;
use std::sync::Wait;
use std::sync::ledger::{Blank, Ledger};
use std::thread::Threads;
use std::{mem, thread};

/// How many calls each seat makes.
const CALLS: u32 = 100;

/// A seat with the receipts of its calls.
#[derive(Drop)]
struct Half<L: Ledger> {
    seat: RecordSeat<L>,
    receipts: Vec<Receipt<u64>>,
}

/// The calls of a seat in turn: its operations have names of its own, and each call is accepted whatever the others do.
fn call(seat: u32, turn: u32) -> Call<u64> {
    let op = OpId((turn / 10).wrapping_add(CALLS.wrapping_mul(seat)));
    let msg = u64::from(turn);
    match turn % 10 {
        0 => Call::NewRecv {
            op,
            receiver: HandleId(1),
        },
        1 => Call::Poll { op },
        2 | 3 => Call::TrySend {
            sender: HandleId(0),
            msg,
        },
        4 => Call::Poll { op },
        5 => Call::ForceSend {
            sender: HandleId(0),
            msg,
        },
        6 => Call::GiveUp { op },
        7 => Call::TryRecv {
            receiver: HandleId(1),
        },
        8 => Call::Len {
            handle: HandleId(0),
        },
        _ => Call::IsFull {
            handle: HandleId(1),
        },
    }
}

fn work<L: Ledger, R: Wait>(
    rt: &R,
    alloc: Global,
    channel: &RecordedChannel<u64, L>,
    seat: RecordSeat<L>,
) -> Half<L> {
    let mut half = Half {
        seat,
        receipts: Vec::new(alloc),
    };
    let number = half.seat.number();
    for turn in 0..CALLS {
        if let Ok(receipt) = channel.call(rt, &mut half.seat, call(number, turn)) {
            let _ = half.receipts.push(receipt);
        }
    }
    half
}

fn two<L: Ledger + Sync, R: Threads + Wait + Sync>(
    rt: &R,
    alloc: Global,
    channel: &RecordedChannel<u64, L>,
    first: RecordSeat<L>,
    second: RecordSeat<L>,
) -> (Half<L>, Half<L>) {
    thread::join(
        rt,
        move || work(rt, alloc, channel, first),
        move || work(rt, alloc, channel, second),
    )
}

/// Whether a receipt holds as it is, and with no field altered.
fn holds_alone(
    record: &Record<u64>,
    receipt: &mut Receipt<u64>,
    other: Waiter,
    room: Vec<Waiter>,
) -> bool {
    let held = record.holds(receipt);
    let place = receipt.place;
    receipt.place = place.wrapping_add(1);
    let moved = record.holds(receipt);
    receipt.place = place;
    let seat = receipt.seat;
    receipt.seat = seat ^ 1;
    let seated = record.holds(receipt);
    receipt.seat = seat;
    let close = Call::Close {
        handle: HandleId(0),
    };
    let call = mem::replace(&mut receipt.call, close);
    let called = record.holds(receipt);
    drop(mem::replace(&mut receipt.call, call));
    held && !moved && !seated && !called && answered_alone(record, receipt, other, room)
}

/// The same of its answer.
fn answered_alone(
    record: &Record<u64>,
    receipt: &mut Receipt<u64>,
    other: Waiter,
    room: Vec<Waiter>,
) -> bool {
    let reply = mem::replace(&mut receipt.reply, Reply::TooMany);
    let replied = record.holds(receipt);
    drop(mem::replace(&mut receipt.reply, reply));
    let mut names = room;
    let _ = names.push(other);
    let woken = mem::replace(&mut receipt.woken, Names::new(names));
    let woke = record.holds(receipt);
    drop(mem::replace(&mut receipt.woken, woken));
    !replied && !woke && record.holds(receipt)
}

/// How many receipts hold, in rising places, and with no altered copy.
fn holding(alloc: Global, record: &Record<u64>, receipts: Vec<Receipt<u64>>) -> usize {
    let mut next = 0;
    let mut held = 0usize;
    for mut receipt in receipts {
        let rises = next <= receipt.place;
        next = receipt.place.wrapping_add(1);
        let nobody = Waiter::Op(OpId(u32::MAX));
        if rises && holds_alone(record, &mut receipt, nobody, Vec::new(alloc)) {
            held = held.wrapping_add(1);
        }
    }
    held
}

/// How many receipts of four seats hold so, and how many entries the record has.
fn held_of<L: Ledger, R: Abort + AllocGlobal>(
    rt: &R,
    channel: RecordedChannel<u64, L>,
    left: (Half<L>, Half<L>),
    right: (Half<L>, Half<L>),
) -> (usize, usize) {
    let mut seats = Vec::new(rt.alloc());
    let mut all = Vec::new(rt.alloc());
    for half in [left.0, left.1, right.0, right.1] {
        let Half { seat, receipts } = half;
        let _ = seats.push(seat);
        let _ = all.push(receipts);
    }
    let record = finish(rt, channel, seats);
    let mut held = 0usize;
    for receipts in all {
        held = held.wrapping_add(holding(rt.alloc(), &record, receipts));
    }
    (held, record.len())
}

/// Four threads with a seat each.
fn four<L: Ledger + Sync, R: Threads + Wait + Abort + AllocGlobal + Sync>(
    rt: &R,
    blank: Blank,
) -> (usize, usize)
    requires name { blank.name ≡ L.name }
    requires parts { (blank.parts ≡ L.parts) × (blank.parts ≡ 5) }
{
    let mut ids = EventIds::new();
    let alloc = rt.alloc();
    let opened = RecordedChannel::<u64, L>::bounded(alloc, 3, &mut ids, blank, 5);
    let channel = opened.ok().expect(rt, "memory");
    let (a, b) = two_seats(rt, &channel);
    let (c, d) = two_seats(rt, &channel);
    let shared = &channel;
    let (left, right) = thread::join(
        rt,
        move || two(rt, alloc, shared, a, b),
        move || two(rt, alloc, shared, c, d),
    );
    held_of(rt, channel, left, right)
}

/// Each receipt of four seats is the entry at its place, an altered one is none, and a seat's places rise.
#[test]
fn every_receipt_stands_in_the_record(rt: HostRuntime) {
    let all = four::<Brand, HostRuntime>(&rt, Blank::new(5));
    expect_equal(&rt, &all, &(400, 400));
}
