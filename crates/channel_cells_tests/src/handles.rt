//! Handles that are counted, on one thread and on several.

ghost use Rattle.std.specs.Prelude.{◌≡◌, []};
ghost use Rattle.channel_calls.specs.declared.stage.WaitList.TheVariants.{Streams};
ghost use Rattle.channel_cells.specs.Channel.{id_of, seat_table, standing_of};
ghost use Rattle.channel_history.specs.CallEnds.{Rests};
ghost use Rattle.channel_history.specs.InHand.{listed_on};

use crate::checks::expect_equal;
use crate::fixture::{Channel, Names, Nobody, opened};
use crate::operation::{Operation, Polled, of_next};
use channel_calls::kind::{OfReceivers, OfSenders};
use channel_calls::raised::Counters;
use channel_calls::stage::{Side, WaitList};
use channel_cells::channel::{Opened, Seat};
use event_listener::key::Key;
use event_listener::wakes::Wakes;
use std::alloc::Global;
use std::sync::Wait;
use std::test::*;
use std::thread;
use std::thread::Threads;

const THREADS: usize = 4;

/// How often each thread makes and drops a handle of each kind.
const ROUNDS: usize = 200;

/// How many senders live, and how many receivers.
fn counts(channel: &Channel) -> [usize; 2] {
    [
        channel.handle_count(channel.new_seat(), Side::Senders).0,
        channel.handle_count(channel.new_seat(), Side::Receivers).0,
    ]
}

/// A sender is cloned and dropped: how many there were meanwhile.
fn clone_sender<R: Wait>(rt: &R, channel: &Channel) -> Option<usize> {
    let (made, seat) = channel.clone_handle::<OfSenders, R, Nobody>(
        rt,
        channel.new_seat(),
        &mut Nobody,
    );
    match made {
        Ok(raised) => {
            let count = channel.handle_count(channel.new_seat(), Side::Senders).0;
            let _ = channel.drop_sender(rt, raised, seat, &mut Nobody);
            Some(count)
        }
        Err(_) => None,
    }
}

/// A receiver is cloned and dropped: how many there were meanwhile.
fn clone_receiver<R: Wait>(rt: &R, channel: &Channel) -> Option<usize> {
    let (made, seat) = channel.clone_handle::<OfReceivers, R, Nobody>(
        rt,
        channel.new_seat(),
        &mut Nobody,
    );
    match made {
        Ok(raised) => {
            let count = channel.handle_count(channel.new_seat(), Side::Receivers).0;
            let _ = channel.drop_receiver(rt, raised, None, seat, &mut Nobody);
            Some(count)
        }
        Err(_) => None,
    }
}

/// A sender is made of none, and dropped: how many there were meanwhile. `None` where none was made.
fn upgrade_sender<R: Wait>(rt: &R, channel: &Channel) -> Option<usize> {
    let (made, seat) = channel.upgrade::<OfSenders, R, Nobody>(rt, channel.new_seat(), &mut Nobody);
    match made {
        Ok(Some(raised)) => {
            let count = channel.handle_count(channel.new_seat(), Side::Senders).0;
            let _ = channel.drop_sender(rt, raised, seat, &mut Nobody);
            Some(count)
        }
        Ok(None) | Err(_) => None,
    }
}

/// A receiver is made of none, and dropped: how many there were meanwhile. `None` where none was made.
fn upgrade_receiver<R: Wait>(rt: &R, channel: &Channel) -> Option<usize> {
    let (made, seat) = channel.upgrade::<OfReceivers, R, Nobody>(
        rt,
        channel.new_seat(),
        &mut Nobody,
    );
    match made {
        Ok(Some(raised)) => {
            let count = channel.handle_count(channel.new_seat(), Side::Receivers).0;
            let _ = channel.drop_receiver(rt, raised, None, seat, &mut Nobody);
            Some(count)
        }
        Ok(None) | Err(_) => None,
    }
}

#[test]
fn the_last_sender_closes(rt: HostRuntime) {
    let Some(
        Opened {
            channel,
            sender,
            receiver,
        },
    ) = opened(rt.alloc(), 1)
    else {
        return;
    };
    let (first_sender, first_receiver) = Counters::new().1.handles();
    expect_equal(&rt, &clone_sender(&rt, &channel), &Some(2));
    expect_equal(&rt, &clone_receiver(&rt, &channel), &Some(2));
    expect_equal(&rt, &upgrade_sender(&rt, &channel), &Some(2));
    expect_equal(&rt, &upgrade_receiver(&rt, &channel), &Some(2));
    expect_equal(
        &rt,
        &(counts(&channel), channel.is_closed(channel.new_seat()).0),
        &([1, 1], false),
    );
    let _ = channel.drop_sender(&rt, first_sender, sender, &mut Nobody);
    expect_equal(
        &rt,
        &(counts(&channel), channel.is_closed(channel.new_seat()).0),
        &([0, 1], true),
    );
    expect_equal(&rt, &upgrade_sender(&rt, &channel), &None);
    expect_equal(&rt, &upgrade_receiver(&rt, &channel), &None);
    let _ = channel.drop_receiver(&rt, first_receiver, None, receiver, &mut Nobody);
    expect_equal(&rt, &counts(&channel), &[0, 0]);
}

/// A stream's seat and listener, by two polls with a task of this name: the first one may be refused memory.
fn stream_that_waits<R: Wait, S: Wakes<u64>>(
    rt: &R,
    channel: &Channel,
    name: u64,
    sink: &mut S,
) -> (Polled, Option<Key>, Seat<u64, u64>)
    ensures here { seat_table result.2 ≡ id_of channel.now }
    ensures listener { Rests [] (listed_on Streams result.1) (standing_of result.2) }
{
    let (_, left, seat) = channel.poll_next(rt, channel.new_seat(), None, Some(name), sink);
    let (polled, left, seat) = channel.poll_next(rt, seat, left.key, Some(name), sink);
    (of_next(polled), left.key, seat)
}

// The receiver waits as a stream, and is dropped with its listener: closing comes first, so the stream is notified as well.
#[test]
fn the_last_receiver_closes(rt: HostRuntime) {
    let (Some(opened), Some(mut names)) = (opened(rt.alloc(), 1), Names::new(rt.alloc())) else {
        return;
    };
    let Opened {
        channel,
        sender,
        receiver,
    } = opened;
    let (_, closing) = Operation::on(&channel, WaitList::Closings).polled(&rt, 2, &mut names);
    let (polled, key, seat) = stream_that_waits(&rt, &channel, 1, &mut names);
    expect_equal(&rt, &polled, &Polled::Waits);
    let (first_sender, first_receiver) = Counters::new().1.handles();
    let seat = channel.gather(receiver, seat);
    let _ = channel.drop_receiver(&rt, first_receiver, key, seat, &mut names);
    expect_equal(
        &rt,
        &(counts(&channel), channel.is_closed(channel.new_seat()).0),
        &([1, 0], true),
    );
    expect_equal(&rt, &names.are(&[1, 2]), &true);
    expect_equal(
        &rt,
        &closing.poll(&rt, Some(2), &mut names).0,
        &Polled::Done,
    );
    let _ = channel.drop_sender(&rt, first_sender, sender, &mut names);
    expect_equal(&rt, &counts(&channel), &[0, 0]);
}

/// Whether each clone and each upgrade of a thread was made, while other threads make and drop as many.
fn come_and_go<R: Wait>(rt: &R, channel: &Channel) -> bool {
    let mut right = true;
    for _ in 0..ROUNDS {
        right = right & clone_sender(rt, channel).is_some();
        right = right & clone_receiver(rt, channel).is_some();
        right = right & upgrade_sender(rt, channel).is_some();
        right = right & upgrade_receiver(rt, channel).is_some();
    }
    right
}

/// Threads make handles and drop them, all at once: whether each was made, the counts then, and whether the channel is closed.
fn made_at_once<R: Threads + Wait + Sync>(
    rt: &R,
    alloc: Global,
) -> Option<([usize; 2], [bool; 2])> {
    let Opened { channel, .. } = opened(alloc, 1)?;
    let made = thread::map_indices(rt, alloc, THREADS, &|_| come_and_go(rt, &channel)).ok()?;
    let all = made.iter().all(|it| *it);
    Some((
        counts(&channel),
        [all, channel.is_closed(channel.new_seat()).0],
    ))
}

#[test]
fn handles_of_threads_are_counted(rt: HostRuntime) {
    let found = match made_at_once(&rt, rt.alloc()) {
        None => made_at_once(&rt, rt.alloc()),
        found => found,
    };
    expect_equal(&rt, &found, &Some(([1, 1], [true, false])));
}
