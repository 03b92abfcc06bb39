//! Seats: how many there are, and that all are gathered at the end.
ghost use Rattle.std.specs.Prelude.{◌≡◌};

use crate::checks::expect_equal;
use crate::recorded::seats::{finish, finish_two, two_seats};
use channel_world::call::Call;
use channel_world::name::HandleId;
use channel_world::{MissingSeat, RecordSeat, RecordedChannel, SeatsUsedUp};
use event_listener::id::EventIds;
use std::alloc::AllocGlobal;
use std::marker::Brand;
use std::process::Abort;
use std::sync::Wait;
use std::sync::ledger::{Blank, Ledger};

const LEN: Call<u64> = Call::Len {
    handle: HandleId(0),
};

/// What came of two seats.
#[derive(Debug, PartialEq, Eq, Drop)]
struct Gathered {
    numbers: (u32, u32),
    third: Option<SeatsUsedUp>,
    /// How many seats came back where one was missing, and how many were made.
    back: (usize, u64),
    /// How many entries the record has.
    entries: usize,
}

/// A channel that ends with one seat, while another one is missing.
fn without_first<L: Ledger, R: Abort + AllocGlobal>(
    rt: &R,
    channel: RecordedChannel<u64, L>,
    second: RecordSeat<L>,
) -> MissingSeat<u64, L> {
    let mut seats = Vec::new(rt.alloc());
    let _ = seats.push(second);
    channel.finish(seats).err().expect(rt, "a missing seat")
}

/// How many entries its record has after one more call of the missing seat.
fn with_first<L: Ledger, R: Wait + Abort>(
    rt: &R,
    missing: MissingSeat<u64, L>,
    first: RecordSeat<L>,
) -> usize {
    let mut first = first;
    let MissingSeat { channel, mut seats } = missing;
    let channel = channel.share();
    let _ = channel.call(rt, &mut first, LEN);
    let _ = seats.push(first);
    finish(rt, channel, seats).len()
}

/// A channel of a blank of three parts: two seats, of which the second is gathered first.
fn gather<L: Ledger, R: Wait + Abort + AllocGlobal>(rt: &R, blank: Blank) -> Gathered
    requires name { blank.name ≡ L.name }
    requires parts { (blank.parts ≡ L.parts) × (blank.parts ≡ 3) }
{
    let mut ids = EventIds::new();
    let opened = RecordedChannel::<u64, L>::bounded(rt.alloc(), 1, &mut ids, blank, 3);
    let channel = opened.ok().expect(rt, "memory");
    let (mut first, mut second) = two_seats(rt, &channel);
    let third = channel.seat(rt).err();
    let numbers = (first.number(), second.number());
    let _ = channel.call(rt, &mut second, LEN);
    let _ = channel.call(rt, &mut first, LEN);
    let missing = without_first(rt, channel, second);
    let back = (missing.seats.len(), missing.channel.seats());
    Gathered {
        numbers,
        third,
        back,
        entries: with_first(rt, missing, first),
    }
}

/// With one seat missing channel and seat come back and are used on; with both there is the record.
#[test]
fn a_missing_seat_is_waited_for(rt: HostRuntime) {
    let gathered = gather::<Brand, HostRuntime>(&rt, Blank::new(3));
    expect_equal(
        &rt,
        &gathered,
        &Gathered {
            numbers: (0, 1),
            third: Some(SeatsUsedUp),
            back: (1, 2),
            entries: 3,
        },
    );
}

/// Whether no seat is made of so few parts, and how many entries the record then has.
fn nobody<L: Ledger, R: Wait + Abort + AllocGlobal>(
    rt: &R,
    blank: Blank,
    parts: u64,
) -> (bool, usize)
    requires name { blank.name ≡ L.name }
    requires parts { (blank.parts ≡ L.parts) × (blank.parts ≡ parts) }
{
    let mut ids = EventIds::new();
    let opened = RecordedChannel::<u64, L>::unbounded(rt.alloc(), &mut ids, blank, parts);
    let channel = opened.ok().expect(rt, "memory");
    let refused = channel.seat(rt).is_err();
    (refused, finish(rt, channel, Vec::new(rt.alloc())).len())
}

/// The last part stays with the channel, and a channel without seats is finished with the empty list.
#[test]
fn no_seat_is_made_of_one_part(rt: HostRuntime) {
    let none = nobody::<Brand, HostRuntime>(&rt, Blank::new(0), 0);
    expect_equal(&rt, &none, &(true, 0));
    let one = nobody::<Brand, HostRuntime>(&rt, Blank::new(1), 1);
    expect_equal(&rt, &one, &(true, 0));
}

/// How many entries the record has of a channel of a blank of five parts, of which two became seats: each made a call, and both are
/// gathered.
fn two_of_four<L: Ledger, R: Wait + Abort + AllocGlobal>(rt: &R, blank: Blank) -> usize
    requires name { blank.name ≡ L.name }
    requires parts { (blank.parts ≡ L.parts) × (blank.parts ≡ 5) }
{
    let mut ids = EventIds::new();
    let opened = RecordedChannel::<u64, L>::bounded(rt.alloc(), 1, &mut ids, blank, 5);
    let channel = opened.ok().expect(rt, "memory");
    let (mut first, mut second) = two_seats(rt, &channel);
    let _ = channel.call(rt, &mut first, LEN);
    let _ = channel.call(rt, &mut second, LEN);
    finish_two(rt, channel, first, second).len()
}

/// All seats are gathered where all that were made are, however many the ledger has parts for.
#[test]
fn fewer_seats_than_parts_are_gathered(rt: HostRuntime) {
    let entries = two_of_four::<Brand, HostRuntime>(&rt, Blank::new(5));
    expect_equal(&rt, &entries, &2);
}
