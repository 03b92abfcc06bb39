//! What a clone and an upgrade do to the count of handles: over cells that write down what is asked of them.

ghost use Rattle.std.specs.Prelude.{◌≡◌, true};

use crate::checks::expect_equal;
use crate::meanwhile::{Last, empty_cells};
use async_channel::{ChannelAsk, ChannelCall, ChannelCells, Mark, Reply};
use channel_calls::stage::Side;
use event_listener::wakes::Wakes;
use std::alloc::{AllocError, Global};
use std::sync::Wait;

/// What a call for one more handle says.
#[derive(Clone, Copy, PartialEq, Eq, Debug)]
enum Said {
    Made,
    NotMade,
    TooMany,
    Else,
}

fn says(reply: &Reply<u64>) -> Said {
    match reply {
        Reply::Made => Said::Made,
        Reply::NotMade => Said::NotMade,
        Reply::TooMany => Said::TooMany,
        _ => Said::Else,
    }
}

/// A step of any call on any cells: one that isn't answered that a handle was made has counted none.
fn steps<C: ChannelCells<u64, u32>, S: Wakes<u32>>(
    call: &mut ChannelCall<u64, u32>,
    cells: &mut C,
    sink: &mut S,
) -> (Option<Said>, bool)
    requires stands { C.stands call.old.stage cells.old }
    ensures { result.1 ≡ true }
{
    let reply = call.step(cells, sink);
    let counts = matches!(call.last_mark(), Mark::SenderUp | Mark::ReceiverUp);
    let made = matches!(&reply, Some(Reply::Made));
    let said = match &reply {
        Some(reply) => Some(says(reply)),
        None => None,
    };
    (said, made || !counts)
}

/// So many live, so often another comes first: what a call says, how often the count was raised, and how often lowered.
fn asks<R: Wait>(
    rt: &R,
    alloc: Global,
    ask: ChannelAsk<u64, u32>,
    count: usize,
    contended: u32,
) -> Result<(Said, u32, u32), AllocError> {
    let mut cells = empty_cells(rt, alloc, true)?;
    cells.handles.count = count;
    cells.handles.contended = contended;
    let mut call = ChannelCall::new(ask);
    let mut sink = Last { woken: 0 };
    let mut last = None;
    for _ in 0..16 {
        if last.is_none() {
            last = steps(&mut call, &mut cells, &mut sink).0;
        }
    }
    let said = last.unwrap_or(Said::Else);
    Ok((said, cells.handles.raised, cells.handles.lowered))
}

const MOST: usize = usize::MAX / 2;

/// Whether it is an upgrade or a clone, so many live, so often another comes first; and what becomes of it.
static ROWS: [(bool, usize, u32, (Said, u32, u32)); 7] = [
    (false, 1, 0, (Said::Made, 1, 0)),
    (false, MOST, 3, (Said::Made, 1, 0)),
    (true, 1, 3, (Said::Made, 1, 0)),
    (true, MOST, 0, (Said::Made, 1, 0)),
    (false, MOST + 1, 0, (Said::TooMany, 0, 0)),
    (true, MOST + 1, 0, (Said::TooMany, 0, 0)),
    (true, 0, 0, (Said::NotMade, 0, 0)),
];

/// One more handle is counted once, and one that is refused is not.
#[test]
fn one_more_handle_is_counted_once(rt: HostRuntime) {
    for side in [Side::Senders, Side::Receivers] {
        for (upgrades, count, contended, wanted) in &ROWS {
            let ask = if *upgrades {
                ChannelAsk::Upgrade(side)
            } else {
                ChannelAsk::CloneHandle(side)
            };
            let found = asks(&rt, rt.alloc(), ask, *count, *contended).expect(&rt, "memory");
            expect_equal(&rt, &found, wanted);
        }
    }
}
