//! Operations on one thread, polled by hand, as rows call them. They borrow the handles of channels that are opened before the rows are
//! played. A row names its operations by their numbers in the order of their making, the first at 0; each is polled by its own task.
//!
//! | Line | What it does | What it answers |
//! |---|---|---|
//! | `bounded N`, `unbounded` | the next channel that was opened for the text | `ok` |
//! | `send M`, `recv`, `closed`, `stream` | makes an operation; the stream is of a clone of the receiver | `ok` |
//! | `poll O` | polls it | `pending`, `sent`, `received M`, `closed M`, `over` |
//! | `is_woken O` | asks its task | |
//! | `is_finished O` | asks a send | |
//! | `give_up O` | gives it up | the message of a send, else `none` |
//! | `drop O` | drops it | `ok` |
//! | `CALL s ..`, `CALL r ..` | a call of the channel's sender or receiver ([`channel_test_helpers::calls`]) | |

use async_channel::{Closed, Receiver, Recv, Send, Sender};
use channel_test_helpers::calls::{MEMORY, polled, sender_says, write_received};
use channel_test_helpers::{Ends, capacity_of, closes, opened, receives, sends, streams};
use futures::test::MockTask;
use std::alloc::{AllocError, AllocGlobal, Global};
use std::random::RandomSource;
use std::sync::Wait;
use worked_rows::{Player, Said, Words};

/// An operation.
#[derive(Drop)]
enum Waiting<'a, R: Wait + Copy> {
    Send(Send<'a, u64, R>),
    Recv(Recv<'a, u64, R>),
    Closed(Closed<'a, u64, R>),
    Stream(Receiver<u64, R>),
}

/// An operation, and the task that polls it.
#[derive(Drop)]
struct Operation<'a, R: Wait + Copy> {
    task: MockTask,
    waiting: Waiting<'a, R>,
}

/// The channels that are lent to rows; a row's channel, and its operations.
#[derive(Drop)]
pub(crate) struct Lent<'a, R: Wait + Copy> {
    rt: R,
    channels: &'a Vec<Ends<R>>,
    taken: usize,
    operations: Vec<Option<Operation<'a, R>>>,
}

const NO_OPERATION: Said = Said::Word("no such operation");

const NO_CHANNEL: Said = Said::Word("no channel");

/// Opens the channels that a text's lines name, in order.
pub(crate) fn channels_of<R: Wait + Copy>(
    rt: R,
    alloc: Global,
    text: &str,
) -> Result<Vec<Ends<R>>, AllocError> {
    let mut channels = Vec::new(alloc);
    for line in text.lines() {
        if let Some(capacity) = capacity_of(line) {
            if let Some(ends) = opened(rt, alloc, capacity) {
                channels.push(ends)?;
            }
        }
    }
    Ok(channels)
}

/// A player of rows over these channels.
pub(crate) fn play_on<R: Wait + Copy>(
    rt: R,
    alloc: Global,
    channels: &Vec<Ends<R>>,
) -> Lent<'_, R> {
    Lent {
        rt,
        channels,
        taken: 0,
        operations: Vec::new(alloc),
    }
}

impl<R: Wait + Copy> Operation<'_, R> {
    fn poll(&mut self) -> Said {
        polled(match &mut self.waiting {
            Waiting::Send(send) => sends(&self.task, send),
            Waiting::Recv(recv) => receives(&self.task, recv),
            Waiting::Closed(closed) => closes(&self.task, closed),
            Waiting::Stream(stream) => streams(&self.task, stream),
        })
    }

    /// Whether a send has finished.
    fn is_finished(&self) -> Said {
        match &self.waiting {
            Waiting::Send(send) => Said::flag(send.is_terminated()),
            _ => Said::NoSuchCall,
        }
    }
}

/// What the giving up of an operation hands back.
fn give_up<R: Wait + Copy>(waiting: Waiting<'_, R>) -> Said {
    let mut back = None;
    match waiting {
        Waiting::Send(send) => back = send.give_up(),
        Waiting::Recv(recv) => recv.give_up(),
        Waiting::Closed(closed) => closed.give_up(),
        Waiting::Stream(stream) => drop(stream),
    }
    match back {
        Some(message) => Said::Number(message),
        None => Said::Word("none"),
    }
}

impl<'a, R: Wait + Copy + RandomSource + AllocGlobal> Lent<'a, R> {
    /// The row's channel.
    fn channel(&self) -> Option<&'a Ends<R>> {
        self.channels.get(self.taken.wrapping_sub(1))
    }

    /// Takes the next channel, which is to be of this capacity, 0 where that is without a bound.
    fn take(&mut self, capacity: usize) -> Said {
        self.taken = self.taken.wrapping_add(1);
        match self.channel() {
            Some(ends) => {
                if ends.0.capacity().unwrap_or(0) == capacity {
                    Said::Ok
                } else {
                    Said::Word("another capacity")
                }
            }
            None => NO_CHANNEL,
        }
    }

    /// Keeps an operation, with a task of its own.
    fn add(&mut self, waiting: Waiting<'a, R>) -> Said {
        let Ok(task) = MockTask::new(&self.rt) else {
            return MEMORY;
        };
        match self.operations.push(Some(Operation { task, waiting })).ok() {
            Some(()) => Said::Ok,
            None => MEMORY,
        }
    }

    fn add_stream(&mut self, r: &Receiver<u64, R>) -> Said {
        match r.try_clone() {
            Ok(stream) => self.add(Waiting::Stream(stream)),
            Err(_) => MEMORY,
        }
    }

    fn make(&mut self, verb: &str, words: &mut Words<'_>) -> Said {
        let Some((s, r)) = self.channel() else {
            return NO_CHANNEL;
        };
        match verb {
            "send" => self.add(Waiting::Send(s.send(words.number()))),
            "recv" => self.add(Waiting::Recv(r.recv())),
            "closed" => self.add(Waiting::Closed(s.closed())),
            _ => self.add_stream(r),
        }
    }

    fn ask(&mut self, verb: &str, place: usize) -> Said {
        match self.operations.get_mut(place) {
            Some(Some(operation)) => match verb {
                "poll" => operation.poll(),
                "is_woken" => Said::flag(operation.task.is_woken()),
                _ => operation.is_finished(),
            },
            _ => NO_OPERATION,
        }
    }

    /// Takes an operation out.
    fn remove(&mut self, place: usize) -> Option<Operation<'a, R>> {
        self.operations.get_mut(place)?.take()
    }

    fn end(&mut self, verb: &str, place: usize) -> Said {
        match self.remove(place) {
            Some(operation) => {
                if verb == "drop" {
                    drop(operation);
                    return Said::Ok;
                }
                give_up(operation.waiting)
            }
            None => NO_OPERATION,
        }
    }

    fn write_call(
        &mut self,
        verb: &str,
        words: &mut Words<'_>,
        answer: &mut String,
    ) -> Result<(), AllocError> {
        let Some((s, r)) = self.channel() else {
            return NO_CHANNEL.write(answer);
        };
        match words.word() {
            "s" => sender_says(self.rt, s, verb, words).write(answer),
            "r" => write_received(self.rt, r, verb, words, answer),
            _ => Said::Word("no such handle").write(answer),
        }
    }
}

impl<'a, R: Wait + Copy + RandomSource + AllocGlobal> Player for Lent<'a, R> {
    fn begin(&mut self) {
        self.operations.clear();
    }

    fn play(&mut self, words: &mut Words<'_>, answer: &mut String) -> Result<(), AllocError> {
        match words.word() {
            "bounded" => self.take(words.size()).write(answer),
            "unbounded" => self.take(0).write(answer),
            verb @ ("send" | "recv" | "closed" | "stream") => {
                self.make(verb, words).write(answer)
            }
            verb @ ("poll" | "is_woken" | "is_finished") => {
                self.ask(verb, words.size()).write(answer)
            }
            verb @ ("give_up" | "drop") => self.end(verb, words.size()).write(answer),
            verb => self.write_call(verb, words, answer),
        }
    }
}
