//! Walks over a receiver's messages as programs write them: `for` over a receiver and over a reference to one, `while let`, and polls of a
//! stream. Functions that are generic over [`Iterator`] or [`Stream`] call the trait's methods and no others.

ghost use Rattle.std.specs.Iterator.{IsFinite};

use crate::checks::expect_equal;
use crate::said::with;
use async_channel::{ListenError, Receiver, Sender};
use channel_test_helpers::{Ends, opened};
use futures::Stream;
use futures::task::Poll;
use futures::test::MockTask;
use std::alloc::{AllocGlobal, Global};
use std::random::RandomSource;
use std::sync::Wait;

/// The digit of an item that is none.
const REFUSED: u64 = 0;

/// One more digit: the item of a walk that waits.
fn with_item(digits: u64, item: Result<u64, ListenError>) -> u64 {
    with(digits, item.unwrap_or(REFUSED))
}

/// The messages that a `for` over a lent receiver gives, as the digits of a number. It breaks after so many.
fn for_each_lent<R: Wait + Copy>(r: &Receiver<u64, R>, most: u32) -> u64 {
    let (mut digits, mut left) = (0, most);
    for message in r {
        digits = with_item(digits, message);
        left = left.wrapping_sub(1);
        if left == 0 {
            break;
        }
    }
    digits
}

/// The same of an owned receiver, which is dropped where the loop ends.
fn for_each_owned<R: Wait + Copy>(r: Receiver<u64, R>, most: u32) -> u64 {
    let (mut digits, mut left) = (0, most);
    for message in r {
        digits = with_item(digits, message);
        left = left.wrapping_sub(1);
        if left == 0 {
            break;
        }
    }
    digits
}

/// All messages of a walk that waits.
fn while_let_waiting<I: Iterator<Item = Result<u64, ListenError>>>(walk: &mut I) -> u64
    requires can { I.can_next walk.old }
    requires ends { IsFinite (I.remaining walk.old) }
{
    let mut digits = 0;
    while let Some(message) = walk.next() {
        digits = with_item(digits, message);
    }
    digits
}

/// All messages of a walk that doesn't wait.
fn while_let_there<I: Iterator<Item = u64>>(walk: &mut I) -> u64
    requires can { I.can_next walk.old }
    requires ends { IsFinite (I.remaining walk.old) }
{
    let mut digits = 0;
    while let Some(message) = walk.next() {
        digits = with(digits, message);
    }
    digits
}

/// The messages that a `for` over those that are there gives.
fn for_each_there<R: Wait + Copy>(r: &Receiver<u64, R>) -> u64 {
    let mut digits = 0;
    for message in r.try_iter() {
        digits = with(digits, message);
    }
    digits
}

/// Sends these messages; whether all are in.
fn send_all<R: Wait + Copy>(s: &Sender<u64, R>, first: u64, last: u64) -> bool {
    let mut sent = true;
    for message in first..last.wrapping_add(1) {
        sent = sent && s.try_send(message).is_ok();
    }
    sent
}

/// The handles of a channel that holds the messages 1 to 5, and is closed.
fn closed_with_five<R: Wait + Copy>(rt: R, alloc: Global, capacity: usize) -> Option<Ends<R>> {
    let (s, r) = opened(rt, alloc, capacity)?;
    let sent = send_all(&s, 1, 5) && s.close();
    sent.then_some((s, r))
}

/// A `for` over a lent receiver that breaks after two messages, another walk over the rest, and one after the end.
fn lent<R: Wait + Copy>(rt: R, alloc: Global, capacity: usize) -> Option<[u64; 3]> {
    let (_s, r) = closed_with_five(rt, alloc, capacity)?;
    Some([
        for_each_lent(&r, 2),
        while_let_waiting(&mut r.iter()),
        for_each_lent(&r, 9),
    ])
}

/// A `for` over a receiver of a closed channel, and one over the last receiver of an open channel that breaks after two messages. The second
/// pair says whether the messages were sent, and whether the channel is closed after the break.
fn owned<R: Wait + Copy>(rt: R, alloc: Global, capacity: usize) -> Option<([u64; 2], [bool; 2])> {
    let (_s, r) = closed_with_five(rt, alloc, capacity)?;
    let all = for_each_owned(r, 9);
    let (s, r) = opened(rt, alloc, capacity)?;
    let sent = send_all(&s, 1, 5);
    let two = for_each_owned(r, 2);
    Some(([all, two], [sent, s.is_closed()]))
}

/// One walk that doesn't wait goes on after it was empty: what it gives before a message is sent, after three, again, and after two more on
/// a channel that is closed then; and what a `for` gives at the end.
fn there<R: Wait + Copy>(rt: R, alloc: Global, capacity: usize) -> Option<[u64; 5]> {
    let (s, r) = opened(rt, alloc, capacity)?;
    let mut walk = r.try_iter();
    let none = while_let_there(&mut walk);
    let first = send_all(&s, 1, 3);
    let three = while_let_there(&mut walk);
    let again = while_let_there(&mut walk);
    let second = first && send_all(&s, 4, 5) && s.close();
    let two = while_let_there(&mut walk);
    second.then_some([none, three, again, two, for_each_there(&r)])
}

#[test]
fn walks_by_loops_give_each_message_once(rt: HostRuntime) {
    for capacity in [0, 5] {
        let found = lent(rt, rt.alloc(), capacity);
        expect_equal(&rt, &found, &Some([12, 345, 0]));
        let found = owned(rt, rt.alloc(), capacity);
        expect_equal(&rt, &found, &Some(([12345, 12], [true, true])));
        let found = there(rt, rt.alloc(), capacity);
        expect_equal(&rt, &found, &Some([0, 123, 0, 45, 0]));
    }
}

/// What a poll of a stream says.
#[derive(Clone, Copy, PartialEq, Eq, Debug)]
enum Polled {
    Pending,
    Item(u64),
    Refused,
    Over,
}

/// One poll of a stream.
fn poll<S: Stream<Item = Result<u64, ListenError>>>(task: &MockTask, stream: &mut S) -> Polled
    requires { (s : S) → S.can_poll s }
{
    match task.enter(|cx| stream.poll_next(cx)) {
        Poll::Pending => Polled::Pending,
        Poll::Ready(Some(Ok(message))) => Polled::Item(message),
        Poll::Ready(Some(Err(_))) => Polled::Refused,
        Poll::Ready(None) => Polled::Over,
    }
}

/// Five polls: the second one after a message was sent, the fourth one after the channel was closed. And whether the task was woken after the
/// first one, after the message and after the closing; and whether the stream says that it has ended.
fn streamed<R: Wait + Copy + RandomSource + AllocGlobal>(
    rt: R,
    alloc: Global,
    capacity: usize,
) -> Option<([Polled; 5], [bool; 4])> {
    let (s, mut r) = opened(rt, alloc, capacity)?;
    let task = MockTask::new(&rt).ok()?;
    let first = poll(&task, &mut r);
    let asleep = task.is_woken();
    let sent = s.try_send(7).is_ok();
    let woken = task.is_woken();
    let (second, third) = (poll(&task, &mut r), poll(&task, &mut r));
    let closed = s.close();
    let woken_again = task.is_woken();
    let (fourth, fifth) = (poll(&task, &mut r), poll(&task, &mut r));
    let polls = [first, second, third, fourth, fifth];
    (sent && closed).then_some((polls, [asleep, woken, woken_again, r.is_terminated()]))
}

#[test]
fn a_stream_is_polled_by_its_trait(rt: HostRuntime) {
    let polls = [
        Polled::Pending,
        Polled::Item(7),
        Polled::Pending,
        Polled::Over,
        Polled::Over,
    ];
    for capacity in [0, 1, 2] {
        let found = streamed(rt, rt.alloc(), capacity);
        expect_equal(&rt, &found, &Some((polls, [false, true, true, true])));
    }
}
