//! Operations that two tasks poll in turn, and that are given up or dropped.

use crate::answers::{polled_closed, polled_next, polled_recv, polled_send};
use crate::leaving::let_go;
use crate::party::Party;
use crate::place::By;
use async_channel::{Receiver, Refused, Send};
use event_listener::error::ListenError;
use futures::Stream;
use futures::task::Poll;
use futures::test::MockTask;
use history_checker::point::{Did, Side};
use std::sync::Wait;

/// A poll of a receiver as a stream.
fn poll_stream<R: Wait + Copy>(
    task: &MockTask,
    stream: &mut Receiver<u64, R>,
) -> Poll<Option<Result<u64, ListenError>>> {
    task.enter(|cx| stream.poll_next(cx))
}

impl<'a, R: Wait + Copy> Party<'a, R> {
    /// The task that polls next.
    fn draw_task(&mut self) -> By {
        if self.random.once_in(2) {
            By::First
        } else {
            By::Second
        }
    }

    /// A poll of the send that is pending, or of a new one. One that is refused memory is given up.
    pub fn poll_send(&mut self) {
        let mut send = match self.send.take() {
            Some(send) => send,
            None => {
                self.sending = self.next_message();
                self.hands.sender.send(self.sending)
            }
        };
        let by = self.draw_task();
        let begin = self.stamps.stamp();
        let answer = self.place.tasks.send.of(by).poll(&mut send);
        self.note(begin, polled_send(self.scarce, self.sending, &answer));
        self.standing.send = answer.is_pending().then_some(by);
        match answer {
            Poll::Pending => self.send = Some(send),
            Poll::Ready(Err(Refused::NoMemory(()))) => self.take_back(send),
            Poll::Ready(_) => drop(send),
        }
    }

    /// A poll of the receive that is pending, or of a new one. One that is refused memory is dropped.
    pub fn poll_recv(&mut self) {
        let mut recv = match self.recv.take() {
            Some(recv) => recv,
            None => self.hands.receiver.recv(),
        };
        let by = self.draw_task();
        let begin = self.stamps.stamp();
        let answer = self.place.tasks.recv.of(by).poll(&mut recv);
        self.note(begin, polled_recv(self.scarce, &answer));
        self.standing.recv = answer.is_pending().then_some(by);
        if answer.is_pending() {
            self.recv = Some(recv);
        }
    }

    /// A poll of the wait for the closing that is pending, or of a new one. One that is refused memory is dropped.
    pub fn poll_closed(&mut self) {
        let mut closed = match self.closed.take() {
            Some(closed) => closed,
            None => self.hands.sender.closed(),
        };
        let by = self.draw_task();
        let begin = self.stamps.stamp();
        let answer = self.place.tasks.closed.of(by).poll(&mut closed);
        self.note(begin, polled_closed(self.scarce, &answer));
        self.standing.closed = answer.is_pending().then_some(by);
        if answer.is_pending() {
            self.closed = Some(closed);
        }
    }

    /// The receiver that is polled as a stream: another one where that was dropped.
    fn take_stream(&mut self) -> Option<Receiver<u64, R>> {
        match self.kept.stream.take() {
            Some(stream) => Some(stream),
            None => self.one_more_receiver(),
        }
    }

    /// A poll of this thread's stream.
    pub fn poll_next(&mut self) {
        let waited = self.standing.stream.is_some();
        let Some(mut stream) = self.take_stream() else {
            return;
        };
        let by = self.draw_task();
        let begin = self.stamps.stamp();
        let answer = poll_stream(self.place.tasks.stream.of(by), &mut stream);
        self.note(begin, polled_next(self.scarce, waited, &answer));
        self.standing.stream = answer.is_pending().then_some(by);
        self.kept.stream = Some(stream);
    }

    /// This send, which isn't finished, is given up, and its message comes back.
    fn take_back(&mut self, send: Send<'a, u64, R>) {
        let begin = self.stamps.stamp();
        let finished = send.is_terminated();
        let back = send.give_up();
        let right = !finished && back == Some(self.sending);
        self.note(begin, Did::nothing_if(right));
    }

    /// The pending send is given up.
    pub fn give_up_send(&mut self) {
        self.standing.send = None;
        if let Some(send) = self.send.take() {
            self.take_back(send);
        }
    }

    /// The pending receive is given up.
    pub fn give_up_recv(&mut self) {
        self.standing.recv = None;
        if let Some(recv) = self.recv.take() {
            recv.give_up();
        }
    }

    /// The pending wait for the closing is given up.
    pub fn give_up_closed(&mut self) {
        self.standing.closed = None;
        if let Some(closed) = self.closed.take() {
            closed.give_up();
        }
    }

    /// The pending send is dropped, with its message.
    pub fn let_go_send(&mut self) {
        self.standing.send = None;
        drop(self.send.take());
    }

    /// The pending receive is dropped.
    pub fn let_go_recv(&mut self) {
        self.standing.recv = None;
        drop(self.recv.take());
    }

    /// The pending wait for the closing is dropped.
    pub fn let_go_closed(&mut self) {
        self.standing.closed = None;
        drop(self.closed.take());
    }

    /// The receiver that is polled as a stream is dropped, pending or not.
    pub fn let_go_stream(&mut self) {
        self.standing.stream = None;
        if let Some(stream) = self.kept.stream.take() {
            let_go(stream, Side::Receivers, self.stamps, self.log);
        }
    }
}
