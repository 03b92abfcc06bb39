//! What a program can rely on, proved of it here with no word of how a recorded channel is made.
ghost use Rattle.std.specs.Prelude.{◌≡◌, ◌≤◌, ◌+◌, IfSome, OnSome, length};
ghost use Rattle.channel_world.specs.RecordLaws.{KeepsItsLaws};
ghost use Rattle.channel_world.specs.RecordReplay.{EndsHistory};

use crate::checks::expect_equal;
use channel_world::call::Call;
use channel_world::name::HandleId;
use channel_world::{Receipt, Record, RecordSeat, RecordedChannel};
use event_listener::id::EventIds;
use std::alloc::Global;
use std::marker::Brand;
use std::sync::Wait;
use std::sync::ledger::{Blank, Ledger};
use std::thread;
use std::thread::Threads;

/// How many calls each thread makes.
const CALLS: u32 = 100;

/// Makes calls and counts those that are accepted.
fn work<L: Ledger, R: Wait>(
    rt: &R,
    channel: &RecordedChannel<u64, L>,
    seat: RecordSeat<L>,
    handle: HandleId,
) -> (RecordSeat<L>, u32)
    ensures { result.0.calls ≡ seat.calls + result.1 }
{
    let mut seat = seat;
    let mut made: u32 = 0;
    for _i in 0..CALLS {
        let call = Call::TrySend {
            sender: handle,
            msg: 1,
        };
        if channel.call(rt, &mut seat, call).is_ok() {
            made += 1;
        }
    }
    (seat, made)
}

/// The record of two seats, which has as many entries as they made accepted calls; and the seats have the numbers 0 and 1, the one or
/// the other. With the channel's own they have all parts of the ledger, so none is missing.
fn gather<T: Copy, L: Ledger>(
    channel: RecordedChannel<T, L>,
    first: RecordSeat<L>,
    second: RecordSeat<L>,
    alloc: Global,
) -> Option<Record<T>>
    requires { L.parts ≡ 3 }
    ensures calls { IfSome result (λ r. length r.entries ≡ first.calls + second.calls) }
    ensures numbers { OnSome result (first.number + second.number ≡ 1) }
{
    let mut seats = Vec::new(alloc);
    seats.push(first).ok()?;
    seats.push(second).ok()?;
    match channel.finish(seats) {
        Ok(record) => Some(record),
        Err(_) => unreachable!(),
    }
}

/// A closing. What is known of its receipt: it ends a history of the channel, behind all calls of its seat.
fn close<L: Ledger, R: Wait>(
    rt: &R,
    channel: &RecordedChannel<u64, L>,
    seat: &mut RecordSeat<L>,
) -> Option<Receipt<u64>>
    ensures ends { IfSome result (λ r. EndsHistory r) }
    ensures behind { IfSome result (λ r. seat.new.calls ≤ r.place + 1) }
{
    let call = Call::Close {
        handle: HandleId(0),
    };
    channel.call(rt, seat, call).ok()
}

/// How many calls two threads counted, and the record, which has as many entries.
fn both<L: Ledger + Sync, R: Threads + Wait + Sync>(
    rt: &R,
    alloc: Global,
    blank: Blank,
) -> Option<(u32, u32, Record<u64>)>
    requires name { blank.name ≡ L.name }
    requires parts { (blank.parts ≡ L.parts) × (blank.parts ≡ 3) }
    ensures { IfSome result (λ r. length r.2.entries ≡ r.0 + r.1) }
{
    let mut ids = EventIds::new();
    let channel = RecordedChannel::<u64, L>::bounded(alloc, 1, &mut ids, blank, 3).ok()?;
    let first = channel.seat(rt).ok()?;
    let second = channel.seat(rt).ok()?;
    let shared = &channel;
    let (a, b) = thread::join(
        rt,
        move || -> (RecordSeat<L>, u32)
            requires { first.calls ≡ 0 }
            ensures { result.0.calls ≡ result.1 }
        { work(rt, shared, first, HandleId(0)) },
        move || -> (RecordSeat<L>, u32)
            requires { second.calls ≡ 0 }
            ensures { result.0.calls ≡ result.1 }
        { work(rt, shared, second, HandleId(1)) },
    );
    let (first, m) = a;
    let (second, n) = b;
    let record = gather(channel, first, second, alloc)?;
    Some((m, n, record))
}

/// What a reader of a finished record knows, with nothing but the record: what was received or displaced, followed by what is
/// held at its end, is what was accepted, in order; and nobody was left asleep then.
fn read<T>(finished: &Record<T>) -> &[Receipt<T>]
    ensures entries { result.now ≡ finished.now.entries }
    ensures laws { KeepsItsLaws finished.now.capacity finished.now.entries }
{
    finished.entries()
}

/// The calls of one thread are all accepted, those of the other, which sends through a receiver, all refused.
#[test]
fn the_record_has_as_many_entries_as_were_counted(rt: HostRuntime) {
    let all = both::<Brand, HostRuntime>(&rt, rt.alloc(), Blank::new(3));
    let (m, n, record) = all.expect(&rt, "memory");
    expect_equal(&rt, &(m, n, read(&record).len()), &(CALLS, 0, 100));
}

/// The place of a seat's closing, before which it sent a message.
fn close_second<L: Ledger, R: Wait>(rt: &R, alloc: Global, blank: Blank) -> Option<usize>
    requires name { blank.name ≡ L.name }
    requires parts { (blank.parts ≡ L.parts) × (blank.parts ≡ 2) }
{
    let mut ids = EventIds::new();
    let channel = RecordedChannel::<u64, L>::unbounded(alloc, &mut ids, blank, 2).ok()?;
    let mut seat = channel.seat(rt).ok()?;
    let send = Call::TrySend {
        sender: HandleId(0),
        msg: 1,
    };
    let _ = channel.call(rt, &mut seat, send);
    let closed = close(rt, &channel, &mut seat)?;
    Some(closed.place)
}

/// A receipt stands behind the earlier calls of its seat.
#[test]
fn a_closing_stands_behind_a_send(rt: HostRuntime) {
    let place = close_second::<Brand, HostRuntime>(&rt, rt.alloc(), Blank::new(2));
    expect_equal(&rt, &place, &Some(1));
}
