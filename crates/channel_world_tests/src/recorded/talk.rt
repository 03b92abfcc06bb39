//! Two channels, one each way, between two threads.
ghost use Rattle.std.specs.Prelude.{◌≡◌};

use crate::checks::expect_equal;
use crate::recorded::seats::{finish_two, two_seats};
use channel_world::call::{Call, Reply};
use channel_world::name::HandleId;
use channel_world::{RecordSeat, RecordedChannel};
use event_listener::id::EventIds;
use std::alloc::AllocGlobal;
use std::marker::Brand;
use std::process::Abort;
use std::sync::Wait;
use std::sync::ledger::{Blank, Ledger};
use std::thread;
use std::thread::Threads;

/// How often the other's word is asked for at most.
const TURNS: u32 = 1_000_000;

const RECEIVE: Call<u64> = Call::TryRecv {
    receiver: HandleId(1),
};

/// What a thread comes back with: its seats on the channel on which it speaks and on the one on which it listens, how many of
/// its calls each of these accepted, and the word that it heard.
#[derive(Drop)]
struct Back<L: Ledger, M: Ledger> {
    speaks: RecordSeat<L>,
    listens: RecordSeat<M>,
    said: usize,
    asked: usize,
    heard: Option<u64>,
}

/// The message that was received.
fn message(reply: &Reply<u64>) -> Option<u64> {
    match reply {
        Reply::TryRecv(Ok(message)) => Some(*message),
        _ => None,
    }
}

/// Says its word on one channel, and asks for the other's on the other.
fn speak<L: Ledger, M: Ledger, R: Wait>(
    rt: &R,
    mine: &RecordedChannel<u64, L>,
    theirs: &RecordedChannel<u64, M>,
    speaks: RecordSeat<L>,
    listens: RecordSeat<M>,
    word: u64,
) -> Back<L, M> {
    let mut back = Back {
        speaks,
        listens,
        said: 0,
        asked: 0,
        heard: None,
    };
    let send = Call::TrySend {
        sender: HandleId(0),
        msg: word,
    };
    if mine.call(rt, &mut back.speaks, send).is_ok() {
        back.said = 1;
    }
    for turn in 0..TURNS {
        if let Ok(receipt) = theirs.call(rt, &mut back.listens, RECEIVE) {
            back.asked = turn as usize + 1;
            back.heard = message(&receipt.reply);
        }
        if back.heard.is_some() {
            return back;
        }
        thread::yield_now();
    }
    back
}

/// What came of the talk: the words that were heard, how many calls were made on each channel, and how many were recorded.
#[derive(Debug, PartialEq, Eq, Drop)]
struct Outcome {
    heard: (Option<u64>, Option<u64>),
    made: (usize, usize),
    recorded: (usize, usize),
}

/// What came of it, where each thread is back and both channels end.
fn end_both<L: Ledger, M: Ledger, R: Abort + AllocGlobal>(
    rt: &R,
    one: RecordedChannel<u64, L>,
    two: RecordedChannel<u64, M>,
    a: Back<L, M>,
    b: Back<M, L>,
) -> Outcome {
    let heard = (a.heard, b.heard);
    let made = (a.said.wrapping_add(b.asked), b.said.wrapping_add(a.asked));
    let first = finish_two(rt, one, a.speaks, b.listens).len();
    let second = finish_two(rt, two, a.listens, b.speaks).len();
    Outcome {
        heard,
        made,
        recorded: (first, second),
    }
}

fn talk<L: Ledger + Sync, M: Ledger + Sync, R: Threads + Wait + Abort + AllocGlobal + Sync>(
    rt: &R,
    first: Blank,
    second: Blank,
) -> Outcome
    requires first { (first.name ≡ L.name) × (first.parts ≡ L.parts) × (first.parts ≡ 3) }
    requires second { (second.name ≡ M.name) × (second.parts ≡ M.parts) × (second.parts ≡ 3) }
{
    let mut ids = EventIds::new();
    let one = RecordedChannel::<u64, L>::bounded(rt.alloc(), 1, &mut ids, first, 3);
    let one = one.ok().expect(rt, "memory");
    let two = RecordedChannel::<u64, M>::unbounded(rt.alloc(), &mut ids, second, 3);
    let two = two.ok().expect(rt, "memory");
    let (a1, b1) = two_seats(rt, &one);
    let (a2, b2) = two_seats(rt, &two);
    let (x, y) = (&one, &two);
    let (a, b) = thread::join(
        rt,
        move || speak(rt, x, y, a1, a2, 1),
        move || speak(rt, y, x, b2, b1, 2),
    );
    end_both(rt, one, two, a, b)
}

/// Each thread gets the other's word by an answer, and both records have as many entries as calls were made.
#[test]
fn each_hears_the_others_word(rt: HostRuntime) {
    let talk = talk::<Brand, Brand, HostRuntime>(&rt, Blank::new(3), Blank::new(3));
    expect_equal(&rt, &talk.heard, &(Some(2), Some(1)));
    expect_equal(&rt, &talk.recorded, &talk.made);
}
