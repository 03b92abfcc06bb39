//! What a call that blocks its thread does where its parker is refused, and where it is told while it sleeps.

use crate::checks::expect_equal;
use crate::meanwhile::{Last, OTHER, OWN, empty_cells};
use channel_calls::blocking::send_blocking;
use channel_calls::error::{Refused, SendError};
use channel_calls::taking::next_blocking;
use event_listener::error::ListenError;
use std::alloc::{AllocError, Global};
use std::sync::Wait;

/// What a blocking send says.
fn said(answer: &Result<(), Refused<SendError<u64>, u64>>) -> (&'static str, u64) {
    match answer {
        Ok(()) => ("sent", 0),
        Err(Refused::NoMemory(message)) => ("memory", *message),
        Err(_) => ("something else", 0),
    }
}

/// What a blocking send of 20 into a full channel of one place came to: what it says, whom it woke itself and whom the other party
/// woke, how often it asked for a parker, and how many sends are listed and how many of them told.
type Came = ((&'static str, u64), [u32; 3], [usize; 2]);

fn sends_blocking<R: Wait>(rt: &R, alloc: Global, refuses: bool) -> Result<Came, AllocError> {
    let mut cells = empty_cells(rt, alloc, refuses)?;
    let _ = cells.queue.push(rt, 10);
    let mut sink = Last { woken: 0 };
    let answer = said(&send_blocking(rt, 20, &mut cells, &mut sink));
    Ok((
        answer,
        [sink.woken, cells.last.woken, cells.asked],
        [cells.sends.total(), cells.sends.told()],
    ))
}

/// Where its parker is refused its listener was told before: it leaves, the send beside it is told in its place, and the message comes
/// back. Else it is told in its sleep, registers once more, which uses the notice up, and sends without a listener.
#[test]
fn a_refused_parker_passes_the_notice_on(rt: HostRuntime) {
    for (refuses, wanted) in [
        (true, (("memory", 20), [OTHER, 0, 1], [1, 1])),
        (false, (("sent", 0), [0, OWN, 2], [0, 0])),
    ] {
        let came = sends_blocking(&rt, rt.alloc(), refuses).expect(&rt, "memory");
        expect_equal(&rt, &came, &wanted);
    }
}

/// What a walk over an empty channel gives where its parker is refused, then where a message is there, where the channel is closed
/// besides, and once more; whether it has ended then; and how often it asked for a parker.
fn walks<R: Wait>(
    rt: &R,
    alloc: Global,
) -> Result<([Option<Result<u64, ListenError>>; 4], bool, u32), AllocError> {
    let mut cells = empty_cells(rt, alloc, true)?;
    let mut sink = Last { woken: 0 };
    let mut ended = false;
    let refused = next_blocking(rt, &mut ended, &mut cells, &mut sink);
    let _ = cells.queue.push(rt, 30);
    let message = next_blocking(rt, &mut ended, &mut cells, &mut sink);
    let _ = cells.queue.close();
    let end = next_blocking(rt, &mut ended, &mut cells, &mut sink);
    let after = next_blocking(rt, &mut ended, &mut cells, &mut sink);
    Ok(([refused, message, end, after], ended, cells.asked))
}

/// A refusal is an item, and the walk goes on after it up to its end.
#[test]
fn a_walk_gives_its_refusals(rt: HostRuntime) {
    let found = walks(&rt, rt.alloc()).expect(&rt, "memory");
    let items = [Some(Err(ListenError::NoMemory)), Some(Ok(30)), None, None];
    expect_equal(&rt, &found, &(items, true, 1));
}
