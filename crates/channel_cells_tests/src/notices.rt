//! Whom a call notifies that other operations wait for, on one thread.

use crate::checks::expect_equal;
use crate::fixture::{Channel, Names, Nobody, opened};
use crate::operation::{Operation, Polled};
use channel_calls::stage::WaitList;
use channel_cells::channel::Opened;
use std::alloc::Global;
use std::sync::Wait;
use std::test::*;

/// A channel of one message, and a sink.
fn alone(alloc: Global) -> Option<(Channel, Names)> {
    let Opened { channel, .. } = opened(alloc, 1)?;
    Some((channel, Names::new(alloc)?))
}

/// An operation that waits, by a task of this name; how its first poll answered.
fn first_poll<'a, R: Wait>(
    rt: &R,
    channel: &'a Channel,
    line: WaitList,
    name: u64,
) -> (Polled, Operation<'a>) {
    Operation::on(channel, line).polled(rt, name, &mut Nobody)
}

#[test]
fn a_send_notifies_a_receive(rt: HostRuntime) {
    let Some((channel, mut names)) = alone(rt.alloc()) else {
        return;
    };
    let (polled, receive) = first_poll(&rt, &channel, WaitList::Receives, 1);
    expect_equal(&rt, &(polled, receive.is_listed()), &(Polled::Waits, true));
    expect_equal(
        &rt,
        &channel.try_send(&rt, channel.new_seat(), 7, &mut names).0,
        &Ok(()),
    );
    expect_equal(&rt, &names.are(&[1]), &true);
    let (polled, receive) = receive.poll(&rt, Some(1), &mut names);
    expect_equal(
        &rt,
        &(polled, receive.is_listed()),
        &(Polled::Came(7), false),
    );
    expect_equal(&rt, &names.are(&[1]), &true);
}

#[test]
fn a_receive_that_is_given_up_hands_its_notice_on(rt: HostRuntime) {
    let Some((channel, mut names)) = alone(rt.alloc()) else {
        return;
    };
    let (_, first) = first_poll(&rt, &channel, WaitList::Receives, 1);
    let (_, second) = first_poll(&rt, &channel, WaitList::Receives, 2);
    expect_equal(
        &rt,
        &channel.try_send(&rt, channel.new_seat(), 7, &mut names).0,
        &Ok(()),
    );
    expect_equal(&rt, &names.are(&[1]), &true);
    expect_equal(&rt, &first.give_up(&rt, &mut names), &None);
    expect_equal(&rt, &names.are(&[1, 2]), &true);
    let (polled, _) = second.poll(&rt, Some(2), &mut names);
    expect_equal(&rt, &polled, &Polled::Came(7));
}

#[test]
fn a_receive_notifies_a_send(rt: HostRuntime) {
    let Some((channel, mut names)) = alone(rt.alloc()) else {
        return;
    };
    expect_equal(
        &rt,
        &channel.try_send(&rt, channel.new_seat(), 7, &mut names).0,
        &Ok(()),
    );
    let (polled, send) = Operation::send(&channel, 8).polled(&rt, 1, &mut names);
    expect_equal(&rt, &(polled, send.is_listed()), &(Polled::Waits, true));
    expect_equal(
        &rt,
        &channel.try_recv(&rt, channel.new_seat(), &mut names).0,
        &Ok(7),
    );
    expect_equal(&rt, &names.are(&[1]), &true);
    let (polled, send) = send.poll(&rt, Some(1), &mut names);
    expect_equal(&rt, &polled, &Polled::Done);
    expect_equal(&rt, &send.give_up(&rt, &mut names), &None);
    expect_equal(
        &rt,
        &channel.try_recv(&rt, channel.new_seat(), &mut names).0,
        &Ok(8),
    );
}

#[test]
fn a_send_that_is_given_up_gives_its_message_back(rt: HostRuntime) {
    let Some((channel, mut names)) = alone(rt.alloc()) else {
        return;
    };
    expect_equal(
        &rt,
        &channel.try_send(&rt, channel.new_seat(), 7, &mut names).0,
        &Ok(()),
    );
    let (_, send) = Operation::send(&channel, 8).polled(&rt, 1, &mut names);
    expect_equal(&rt, &send.give_up(&rt, &mut names), &Some(8));
    expect_equal(
        &rt,
        &channel.try_recv(&rt, channel.new_seat(), &mut names).0,
        &Ok(7),
    );
    expect_equal(&rt, &names.are(&[]), &true);
}

#[test]
fn a_send_notifies_a_stream(rt: HostRuntime) {
    let Some((channel, mut names)) = alone(rt.alloc()) else {
        return;
    };
    let (polled, stream) = first_poll(&rt, &channel, WaitList::Streams, 1);
    expect_equal(&rt, &polled, &Polled::Waits);
    expect_equal(
        &rt,
        &channel.try_send(&rt, channel.new_seat(), 7, &mut names).0,
        &Ok(()),
    );
    expect_equal(&rt, &names.are(&[1]), &true);
    let (polled, stream) = stream.poll(&rt, Some(1), &mut names);
    expect_equal(&rt, &polled, &Polled::Came(7));
    expect_equal(
        &rt,
        &channel.close(&rt, channel.new_seat(), &mut names).0,
        &true,
    );
    let (polled, _) = stream.poll(&rt, Some(1), &mut names);
    expect_equal(&rt, &polled, &Polled::Closed);
}

#[test]
fn a_poll_without_a_task_leaves_no_listener(rt: HostRuntime) {
    let Some((channel, mut names)) = alone(rt.alloc()) else {
        return;
    };
    let (_, receive) = first_poll(&rt, &channel, WaitList::Receives, 1);
    let (polled, receive) = receive.poll(&rt, None, &mut names);
    expect_equal(
        &rt,
        &(polled, receive.is_listed()),
        &(Polled::WantsMemory, false),
    );
    expect_equal(
        &rt,
        &channel.try_send(&rt, channel.new_seat(), 7, &mut names).0,
        &Ok(()),
    );
    expect_equal(&rt, &names.are(&[]), &true);
}

#[test]
fn closing_notifies_all_lists_in_order(rt: HostRuntime) {
    let Some((channel, mut names)) = alone(rt.alloc()) else {
        return;
    };
    expect_equal(
        &rt,
        &channel.try_send(&rt, channel.new_seat(), 7, &mut names).0,
        &Ok(()),
    );
    let (_, _told) = Operation::send(&channel, 8).polled(&rt, 5, &mut names);
    let (_, send) = Operation::send(&channel, 9).polled(&rt, 1, &mut names);
    // The first of the two sends is notified, and the second waits beside a channel that is empty.
    expect_equal(
        &rt,
        &channel.try_recv(&rt, channel.new_seat(), &mut names).0,
        &Ok(7),
    );
    let (_, closing) = first_poll(&rt, &channel, WaitList::Closings, 4);
    let (_, stream) = first_poll(&rt, &channel, WaitList::Streams, 3);
    let (_, receive) = first_poll(&rt, &channel, WaitList::Receives, 2);
    expect_equal(&rt, &names.are(&[5]), &true);
    expect_equal(
        &rt,
        &channel.close(&rt, channel.new_seat(), &mut names).0,
        &true,
    );
    expect_equal(&rt, &names.are(&[5, 1, 2, 3, 4]), &true);
    let polled = [
        send.poll(&rt, Some(1), &mut names).0,
        receive.poll(&rt, Some(2), &mut names).0,
        stream.poll(&rt, Some(3), &mut names).0,
        closing.poll(&rt, Some(4), &mut names).0,
    ];
    let wanted = [Polled::Closed, Polled::Closed, Polled::Closed, Polled::Done];
    expect_equal(&rt, &polled, &wanted);
}
