//! Each message is received, displaced or left, and let go once, wherever handles and operations are dropped.

use crate::checks::{expect_equal, expect_true, new_task};
use crate::jobs::{Job, both};
use async_channel::{Receiver, Send as Sending, Sender, bounded};
use event_listener::id::EventIds;
use futures::task::Poll;
use futures::test::MockTask;
use std::sync::{Arc, Wait};
use std::thread;

type Token = Arc<u64>;

/// What one thread does with its handle or operation.
#[derive(Drop)]
enum Work<'a, R: Wait + Copy> {
    Send(Sender<Token, R>, &'a Token, MockTask),
    Receive(Receiver<Token, R>, MockTask),
    DropSend(Sending<'a, Token, R>),
    DropReceiver(Receiver<Token, R>),
}

impl<R: Wait + Copy> Job<R> for Work<'_, R> {
    /// How many tokens were accepted or received, and how many displaced.
    type Done = (u64, u64);

    fn run(self, _rt: R) -> (u64, u64) {
        match self {
            Work::Send(sender, token, task) => send_tokens(&sender, token, &task),
            Work::Receive(receiver, task) => (receive_tokens(&receiver, &task), 0),
            Work::DropSend(_) | Work::DropReceiver(_) => (0, 0),
        }
    }
}

/// Whether a send of a token that doesn't wait is done; nothing where there was no token to send.
fn tries<R: Wait + Copy>(s: &Sender<Token, R>, token: &Token) -> Option<bool> {
    match Arc::try_clone(token) {
        Ok(one) => Some(s.try_send(one).is_ok()),
        Err(_) => None,
    }
}

/// Whether a send that displaces is done, and whether it displaced one.
fn forces<R: Wait + Copy>(s: &Sender<Token, R>, token: &Token) -> (bool, bool) {
    match Arc::try_clone(token) {
        Ok(one) => {
            let forced = s.force_send(one);
            (forced.is_ok(), matches!(&forced, Ok(Some(_))))
        }
        Err(_) => (false, false),
    }
}

/// Whether a polled send is accepted; where it is pending it is dropped.
fn is_accepted<R: Wait + Copy>(s: &Sender<Token, R>, token: &Token, task: &MockTask) -> bool {
    match Arc::try_clone(token) {
        Ok(last) => matches!(&task.poll(&mut s.send(last)), Poll::Ready(Ok(()))),
        Err(_) => false,
    }
}

/// Sends tokens by both calls that don't wait, and leaves a polled send behind: how many were accepted, and how many displaced.
fn send_tokens<R: Wait + Copy>(s: &Sender<Token, R>, token: &Token, task: &MockTask) -> (u64, u64) {
    let mut accepted = 0u64;
    let mut displaced = 0u64;
    for _ in 0..500 {
        accepted = accepted.wrapping_add(u64::from(tries(s, token) == Some(true)));
        let (forced, oldest) = forces(s, token);
        accepted = accepted.wrapping_add(u64::from(forced));
        displaced = displaced.wrapping_add(u64::from(oldest));
    }
    let went = is_accepted(s, token, task);
    (accepted.wrapping_add(u64::from(went)), displaced)
}

/// Receives, and leaves a polled receive behind: how many came.
fn receive_tokens<R: Wait + Copy>(r: &Receiver<Token, R>, task: &MockTask) -> u64 {
    let mut received = 0u64;
    for _ in 0..500 {
        received = received.wrapping_add(u64::from(r.try_recv().is_ok()));
        thread::yield_now();
    }
    let came = matches!(&task.poll(&mut r.recv()), Poll::Ready(Ok(_)));
    received.wrapping_add(u64::from(came))
}

/// What was accepted is what was received, displaced or left, and nothing else of the tokens lives. One thread sends through a sender of
/// its own, and one receives through a receiver of its own.
#[test]
fn each_message_is_let_go_once(rt: HostRuntime) {
    let token: Token = Arc::new(rt.alloc(), 7).expect(&rt, "memory");
    let (s, r) = bounded(rt, rt.alloc(), 2, &mut EventIds::new()).expect(&rt, "memory");
    let own_s = s.try_clone().expect(&rt, "handles");
    let own_r = r.try_clone().expect(&rt, "handles");
    let ((accepted, displaced), (received, _)) = both(
        rt,
        Work::Send(own_s, &token, new_task(&rt)),
        Work::Receive(own_r, new_task(&rt)),
    )
    .expect(&rt, "memory");
    let left = r.len();
    let gone = received.wrapping_add(displaced).wrapping_add(left as u64);
    expect_equal(&rt, &accepted, &gone);
    expect_equal(&rt, &(s.sender_count(), r.receiver_count()), &(1, 1));
    expect_equal(&rt, &Arc::strong_count(&token), &left.wrapping_add(1));
    drop((s, r));
    expect_equal(&rt, &Arc::strong_count(&token), &1);
}

/// A pending send is dropped on one thread, a receiver on another: both messages and the one of the send are let go.
#[test]
fn a_pending_send_and_the_receiver_are_dropped_elsewhere(rt: HostRuntime) {
    let token: Token = Arc::new(rt.alloc(), 7).expect(&rt, "memory");
    let third = Arc::try_clone(&token).expect(&rt, "a token");
    let (s, r) = bounded(rt, rt.alloc(), 2, &mut EventIds::new()).expect(&rt, "memory");
    expect_equal(
        &rt,
        &[tries(&s, &token), tries(&s, &token)],
        &[Some(true); 2],
    );
    let mut send = s.send(third);
    expect_true(&rt, new_task(&rt).poll(&mut send).is_pending());
    expect_equal(&rt, &Arc::strong_count(&token), &4);
    let dropped = both(rt, Work::DropSend(send), Work::DropReceiver(r));
    expect_true(&rt, dropped.is_some());
    expect_equal(&rt, &tries(&s, &token), &Some(false));
    expect_equal(&rt, &Arc::strong_count(&token), &3);
    drop(s);
    expect_equal(&rt, &Arc::strong_count(&token), &1);
}

/// Two threads drop the last two receivers at once: one of them closes the channel, and whoever waits for that is woken.
#[test]
fn two_last_receivers_are_dropped_at_once(rt: HostRuntime) {
    for _ in 0..50 {
        let (s, r) = bounded::<Token, _>(rt, rt.alloc(), 2, &mut EventIds::new()).expect(
            &rt, "memory",
        );
        let other = r.try_clone().expect(&rt, "handles");
        let task = new_task(&rt);
        let mut closed = s.closed();
        expect_true(&rt, task.poll(&mut closed).is_pending());
        let dropped = both(rt, Work::DropReceiver(r), Work::DropReceiver(other));
        expect_true(&rt, dropped.is_some());
        expect_equal(&rt, &(s.receiver_count(), s.is_closed()), &(0, true));
        expect_true(&rt, task.is_woken());
        expect_true(&rt, task.poll(&mut closed).is_ready());
    }
}
