//! Channels are opened with the capacity that was asked for, of which no contract speaks.
ghost use Rattle.std.specs.Prelude.{◌≡◌};

use crate::checks::expect_equal;
use crate::recorded::seats::finish_one;
use channel_world::call::{Call, Reply};
use channel_world::name::HandleId;
use channel_world::{Receipt, RecordedChannel};
use event_listener::id::EventIds;
use std::alloc::AllocGlobal;
use std::marker::Brand;
use std::process::Abort;
use std::sync::Wait;
use std::sync::ledger::{Blank, Ledger};

/// What a channel says of its capacity, and what its record does.
#[derive(Clone, Copy, Debug, PartialEq, Eq)]
struct Said {
    channel: Option<Option<usize>>,
    record: Option<Option<usize>>,
}

/// The capacity that an answer gives; none where it answers another call.
fn answered(receipt: &Receipt<u64>) -> Option<Option<usize>> {
    match &receipt.reply {
        Reply::Cap(capacity) => Some(*capacity),
        _ => None,
    }
}

fn ask<L: Ledger, R: Wait + Abort + AllocGlobal>(rt: &R, channel: RecordedChannel<u64, L>) -> Said {
    let mut seat = channel.seat(rt).expect(rt, "seats");
    let ask = Call::Capacity {
        handle: HandleId(0),
    };
    let said = match &channel.call(rt, &mut seat, ask) {
        Ok(receipt) => answered(receipt),
        Err(_) => None,
    };
    Said {
        channel: said,
        record: Some(finish_one(rt, channel, seat).capacity()),
    }
}

fn bounded<L: Ledger, R: Wait + Abort + AllocGlobal>(rt: &R, blank: Blank) -> Said
    requires name { blank.name ≡ L.name }
    requires parts { (blank.parts ≡ L.parts) × (blank.parts ≡ 2) }
{
    let mut ids = EventIds::new();
    let opened = RecordedChannel::<u64, L>::bounded(rt.alloc(), 3, &mut ids, blank, 2);
    ask(rt, opened.ok().expect(rt, "memory"))
}

fn unbounded<L: Ledger, R: Wait + Abort + AllocGlobal>(rt: &R, blank: Blank) -> Said
    requires name { blank.name ≡ L.name }
    requires parts { (blank.parts ≡ L.parts) × (blank.parts ≡ 2) }
{
    let mut ids = EventIds::new();
    let opened = RecordedChannel::<u64, L>::unbounded(rt.alloc(), &mut ids, blank, 2);
    ask(rt, opened.ok().expect(rt, "memory"))
}

/// What is said where the capacity is this.
fn as_asked(capacity: Option<usize>) -> Said {
    Said {
        channel: Some(capacity),
        record: Some(capacity),
    }
}

#[test]
fn the_capacity_is_as_asked_for(rt: HostRuntime) {
    let three = bounded::<Brand, HostRuntime>(&rt, Blank::new(2));
    expect_equal(&rt, &three, &as_asked(Some(3)));
    let any = unbounded::<Brand, HostRuntime>(&rt, Blank::new(2));
    expect_equal(&rt, &any, &as_asked(None));
}
