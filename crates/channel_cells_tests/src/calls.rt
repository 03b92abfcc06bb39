//! Each call that waits for nobody, on one thread.

ghost use Rattle.std.specs.Prelude.{◌<◌, ◌≤◌, ◌^◌};

use crate::checks::expect_equal;
use crate::fixture::{Channel, Names, Nobody, opened};
use channel_calls::error::{Refused, SendError, TryRecvError, TrySendError};
use channel_calls::stage::Side;
use channel_cells::channel::Opened;
use std::alloc::Global;
use std::sync::Wait;
use std::test::*;

/// Sends numbers from 0 on until the channel refuses one: how many it took, and the refusal.
fn filled<R: Wait>(rt: &R, channel: &Channel) -> (u64, Option<Refused<TrySendError<u64>, u64>>) {
    for number in 0..100u64 {
        if let Err(refused) = channel
            .try_send(rt, channel.new_seat(), number, &mut Nobody)
            .0
        {
            return (number, Some(refused));
        }
    }
    (100, None)
}

/// Receives until the channel refuses: the messages as a sum, each times ten to its place, and the refusal.
fn emptied<R: Wait>(rt: &R, channel: &Channel) -> (u64, Option<TryRecvError>) {
    let mut digits = 0u64;
    for _ in 0..100u64 {
        match channel.try_recv(rt, channel.new_seat(), &mut Nobody).0 {
            Ok(message) => digits = digits.wrapping_mul(10).wrapping_add(message),
            Err(refused) => return (digits, Some(refused)),
        }
    }
    (digits, None)
}

/// What the questions answer: closed, empty, full, terminated.
fn asked(channel: &Channel) -> [bool; 4] {
    [
        channel.is_closed(channel.new_seat()).0,
        channel.is_empty(channel.new_seat()).0,
        channel.is_full(channel.new_seat()).0,
        channel.is_terminated(channel.new_seat()).0,
    ]
}

#[test]
fn messages_come_in_order_and_a_full_channel_refuses(rt: HostRuntime) {
    for (capacity, digits) in [(1usize, 0u64), (3, 12)] {
        let Some(Opened { channel, .. }) = opened(rt.alloc(), capacity) else {
            return;
        };
        let full = Refused::Plain(TrySendError::Full(capacity as u64));
        expect_equal(&rt, &channel.capacity(), &Some(capacity));
        expect_equal(&rt, &asked(&channel), &[false, true, false, false]);
        expect_equal(&rt, &filled(&rt, &channel), &(capacity as u64, Some(full)));
        expect_equal(
            &rt,
            &channel.len(&rt, channel.new_seat(), &mut Nobody).0,
            &capacity,
        );
        expect_equal(&rt, &asked(&channel), &[false, false, true, false]);
        let empty = Some(TryRecvError::Empty);
        expect_equal(&rt, &emptied(&rt, &channel), &(digits, empty));
        expect_equal(
            &rt,
            &channel.len(&rt, channel.new_seat(), &mut Nobody).0,
            &0,
        );
    }
}

#[test]
fn a_forced_send_displaces_the_oldest(rt: HostRuntime) {
    let Some(Opened { channel, .. }) = opened(rt.alloc(), 3) else {
        return;
    };
    expect_equal(
        &rt,
        &channel
            .force_send(&rt, channel.new_seat(), 7, &mut Nobody)
            .0,
        &Ok(None),
    );
    expect_equal(
        &rt,
        &channel
            .force_send(&rt, channel.new_seat(), 8, &mut Nobody)
            .0,
        &Ok(None),
    );
    expect_equal(
        &rt,
        &channel
            .force_send(&rt, channel.new_seat(), 9, &mut Nobody)
            .0,
        &Ok(None),
    );
    expect_equal(
        &rt,
        &channel
            .force_send(&rt, channel.new_seat(), 1, &mut Nobody)
            .0,
        &Ok(Some(7)),
    );
    let empty = Some(TryRecvError::Empty);
    expect_equal(&rt, &emptied(&rt, &channel), &(891, empty));
}

/// A receive of at most so many messages, made once more where memory was refused.
fn several<R: Wait>(
    rt: &R,
    channel: &Channel,
    limit: usize,
    alloc: Global,
) -> Result<Vec<u64>, Refused<TryRecvError>> {
    match channel
        .recv_many(rt, channel.new_seat(), limit, alloc, &mut Nobody)
        .0
    {
        Err(Refused::NoMemory(())) => channel
            .recv_many(rt, channel.new_seat(), limit, alloc, &mut Nobody)
            .0,
        taken => taken,
    }
}

#[test]
fn several_messages_come_in_order(rt: HostRuntime) {
    let Some(Opened { channel, .. }) = opened(rt.alloc(), 3) else {
        return;
    };
    let _ = filled(&rt, &channel);
    let Ok(taken) = several(&rt, &channel, 2, rt.alloc()) else {
        assert!(&rt; false);
        return;
    };
    expect_equal(&rt, &taken.as_slice(), &[0u64, 1].as_slice());
    let empty = Refused::Plain(TryRecvError::Empty);
    expect_equal(&rt, &emptied(&rt, &channel).0, &2);
    expect_equal(
        &rt,
        &several(&rt, &channel, 2, rt.alloc()).err(),
        &Some(empty),
    );
}

#[test]
fn several_messages_come_into_room(rt: HostRuntime) {
    let (Some(Opened { channel, .. }), Some(mut names)) = (
        opened(rt.alloc(), 3),
        Names::new(rt.alloc()),
    ) else {
        return;
    };
    let _ = filled(&rt, &channel);
    let _ = names.names.push(5);
    let (taken, _) = channel.recv_many_into(&rt, channel.new_seat(), &mut names.names, &mut Nobody);
    expect_equal(&rt, &taken, &Ok(3));
    expect_equal(&rt, &names.are(&[5, 0, 1, 2]), &true);
    let (taken, _) = channel.recv_many_into(&rt, channel.new_seat(), &mut names.names, &mut Nobody);
    expect_equal(&rt, &taken, &Err(TryRecvError::Empty));
}

#[test]
fn a_closed_channel_gives_what_it_has_and_takes_nothing(rt: HostRuntime) {
    let Some(Opened { channel, .. }) = opened(rt.alloc(), 3) else {
        return;
    };
    expect_equal(
        &rt,
        &channel.try_send(&rt, channel.new_seat(), 7, &mut Nobody).0,
        &Ok(()),
    );
    expect_equal(
        &rt,
        &channel.close(&rt, channel.new_seat(), &mut Nobody).0,
        &true,
    );
    expect_equal(
        &rt,
        &channel.close(&rt, channel.new_seat(), &mut Nobody).0,
        &false,
    );
    expect_equal(&rt, &asked(&channel), &[true, false, false, false]);
    let unsent = Refused::Plain(TrySendError::Closed(8));
    expect_equal(
        &rt,
        &channel.try_send(&rt, channel.new_seat(), 8, &mut Nobody).0,
        &Err(unsent),
    );
    let unsent = Refused::Plain(SendError(9));
    expect_equal(
        &rt,
        &channel
            .force_send(&rt, channel.new_seat(), 9, &mut Nobody)
            .0,
        &Err(unsent),
    );
    let closed = Some(TryRecvError::Closed);
    expect_equal(&rt, &emptied(&rt, &channel), &(7, closed));
    expect_equal(&rt, &asked(&channel), &[true, true, false, true]);
    let counts = [Side::Senders, Side::Receivers].map(|side| channel
        .handle_count(channel.new_seat(), side)
        .0);
    expect_equal(&rt, &counts, &[1, 1]);
}
