//! Seats of recorded channels, taken two at a time and given back at the end.

use channel_world::{Record, RecordSeat, RecordedChannel};
use std::alloc::AllocGlobal;
use std::process::Abort;
use std::sync::Wait;
use std::sync::ledger::Ledger;

/// Two seats of a channel.
pub(crate) fn two_seats<L: Ledger, R: Wait + Abort>(
    rt: &R,
    channel: &RecordedChannel<u64, L>,
) -> (RecordSeat<L>, RecordSeat<L>) {
    let first = channel.seat(rt).expect(rt, "seats");
    let second = channel.seat(rt).expect(rt, "seats");
    (first, second)
}

/// The record of a channel whose seats are these.
pub(crate) fn finish<L: Ledger, R: Abort>(
    rt: &R,
    channel: RecordedChannel<u64, L>,
    seats: Vec<RecordSeat<L>>,
) -> Record<u64> {
    channel.finish(seats).ok().expect(rt, "all seats")
}

/// The record of a channel whose only seat is this one.
pub(crate) fn finish_one<L: Ledger, R: Abort + AllocGlobal>(
    rt: &R,
    channel: RecordedChannel<u64, L>,
    seat: RecordSeat<L>,
) -> Record<u64> {
    let mut seats = Vec::new(rt.alloc());
    let _ = seats.push(seat);
    finish(rt, channel, seats)
}

/// The record of a channel whose two seats are these.
pub(crate) fn finish_two<L: Ledger, R: Abort + AllocGlobal>(
    rt: &R,
    channel: RecordedChannel<u64, L>,
    first: RecordSeat<L>,
    second: RecordSeat<L>,
) -> Record<u64> {
    let mut seats = Vec::new(rt.alloc());
    let _ = seats.push(first);
    let _ = seats.push(second);
    finish(rt, channel, seats)
}
