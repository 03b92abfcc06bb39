//! Refused calls: nothing is recorded, and the call comes back.
ghost use Rattle.std.specs.Prelude.{◌≡◌};

use crate::checks::expect_equal;
use crate::recorded::seats::finish_one;
use channel_world::call::{Call, WorldRefusal};
use channel_world::name::{HandleId, OpId};
use channel_world::{RecordError, RecordedChannel, SeatsUsedUp};
use event_listener::id::EventIds;
use std::alloc::AllocGlobal;
use std::fmt::Display;
use std::marker::Brand;
use std::process::Abort;
use std::sync::Wait;
use std::sync::ledger::{Blank, Ledger};

/// A receive through a sender.
const WRONG: Call<u64> = Call::TryRecv {
    receiver: HandleId(0),
};

/// A poll of an operation that was never made.
const UNKNOWN: Call<u64> = Call::Poll { op: OpId(7) };

/// What two refused calls say, and how many entries the record has after them and two accepted ones.
#[derive(Debug, PartialEq, Eq, Drop)]
struct Told {
    wrong: Option<RecordError<u64>>,
    unknown: Option<RecordError<u64>>,
    entries: usize,
}

fn refuse<L: Ledger, R: Wait + Abort + AllocGlobal>(rt: &R, blank: Blank) -> Told
    requires name { blank.name ≡ L.name }
    requires parts { (blank.parts ≡ L.parts) × (blank.parts ≡ 2) }
{
    let mut ids = EventIds::new();
    let opened = RecordedChannel::<u64, L>::bounded(rt.alloc(), 1, &mut ids, blank, 2);
    let channel = opened.ok().expect(rt, "memory");
    let mut seat = channel.seat(rt).expect(rt, "seats");
    let wrong = channel.call(rt, &mut seat, WRONG).err();
    let unknown = channel.call(rt, &mut seat, UNKNOWN).err();
    let len = Call::Len {
        handle: HandleId(0),
    };
    let _ = channel.call(rt, &mut seat, len);
    let leave = Call::Drop {
        handle: HandleId(1),
    };
    let _ = channel.call(rt, &mut seat, leave);
    Told {
        wrong,
        unknown,
        entries: finish_one(rt, channel, seat).len(),
    }
}

/// The refusal that hands this call back.
fn refusal(why: WorldRefusal, call: Call<u64>) -> Option<RecordError<u64>> {
    Some(RecordError::World { why, call })
}

#[test]
fn a_refused_call_leaves_no_entry(rt: HostRuntime) {
    let told = refuse::<Brand, HostRuntime>(&rt, Blank::new(2));
    let wanted = Told {
        wrong: refusal(WorldRefusal::WrongKind, WRONG),
        unknown: refusal(WorldRefusal::UnknownName, UNKNOWN),
        entries: 2,
    };
    expect_equal(&rt, &told, &wanted);
}

/// Whether a value prints this text.
fn prints<E: Display + Drop>(rt: &impl AllocGlobal, it: E, text: &str) -> bool {
    match format!(in rt.alloc(); "{it}") {
        Ok(printed) => printed.as_str() == text,
        Err(_) => false,
    }
}

#[test]
fn texts(rt: HostRuntime) {
    let why = WorldRefusal::Borrowed;
    let all = [
        prints(
            &rt,
            RecordError::World { why, call: WRONG },
            "a live operation borrows the handle",
        ),
        prints(
            &rt,
            RecordError::NoRoom { call: WRONG },
            "no room for the record",
        ),
        prints(&rt, SeatsUsedUp, "seats used up"),
    ];
    expect_equal(&rt, &all, &[true; 3]);
}
