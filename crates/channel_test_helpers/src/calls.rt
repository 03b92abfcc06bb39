//! What calls of handles say, in short, as rows have it.
//!
//! | Call of a sender | What it says |
//! |---|---|
//! | `try_send M`, `force_send M`, `send_blocking M`, `send_to_end M` | `sent`, `displaced M`, `full M`, `closed M` |
//! | `send_once M` | what one poll of a new send says, `pending` too |
//! | `try_sends FROM TO`, `sends_to_end FROM TO` | how many of these messages were sent |
//! | `sends_counted FROM TO` | how many of them were sent, so that the channel then held one message more, from one on |
//! | `sends_within FROM TO MOST` | how many of them were sent, so that the channel then held no more than so many |
//! | of both: `close`, `is_closed`, `is_empty`, `is_full`, `len`, `capacity`, `sender_count`, `receiver_count` | |
//!
//! | Call of a receiver | What it says |
//! |---|---|
//! | `try_recv`, `recv_blocking`, `recv_to_end` | `received M`, `empty`, `over` |
//! | `try_recvs FROM TO` | how many of these messages came, in this order |
//! | `recvs_within FROM TO MOST` | how many of them receives up to their ends gave, so that the channel then held no more than so many |
//! | `recv_many N` | `received` and the messages, or `empty`, `over` |
//! | `is_terminated` | |
//!
//! Where memory or a serial was refused each says `memory`.

use crate as polls;
use async_channel::{Receiver, RecvError, Refused, SendError, Sender, TryRecvError, TrySendError};
use futures::executor::block_on;
use futures::test::MockTask;
use std::alloc::{AllocError, AllocGlobal};
use std::random::RandomSource;
use std::sync::Wait;
use worked_rows::{Said, Words};

/// What is said where memory or a serial was refused.
pub const MEMORY: Said = Said::Word("memory");

const OVER: Said = Said::Word("over");

const SENT: Said = Said::Word("sent");

/// What a poll says.
pub fn polled(said: polls::Said) -> Said {
    match said {
        polls::Said::Pending => Said::Word("pending"),
        polls::Said::Done => SENT,
        polls::Said::Got(message) => Said::Both("received", message),
        polls::Said::Back(message) => Said::Both("closed", message),
        polls::Said::Over => OVER,
        polls::Said::Wanted => MEMORY,
    }
}

fn tried(reply: Result<(), Refused<TrySendError<u64>, u64>>) -> Said {
    match &reply {
        Ok(()) => SENT,
        Err(Refused::Plain(TrySendError::Full(message))) => Said::Both("full", *message),
        Err(Refused::Plain(TrySendError::Closed(message))) => Said::Both("closed", *message),
        Err(_) => MEMORY,
    }
}

fn forced(reply: Result<Option<u64>, Refused<SendError<u64>, u64>>) -> Said {
    match &reply {
        Ok(None) => SENT,
        Ok(Some(oldest)) => Said::Both("displaced", *oldest),
        Err(Refused::Plain(SendError(message))) => Said::Both("closed", *message),
        Err(_) => MEMORY,
    }
}

fn blocked(reply: Result<(), Refused<SendError<u64>, u64>>) -> Said {
    match &reply {
        Ok(()) => SENT,
        Err(Refused::Plain(SendError(message))) => Said::Both("closed", *message),
        Err(_) => MEMORY,
    }
}

/// One poll of a new send, which then is dropped.
fn send_once<R>(rt: R, s: &Sender<u64, R>, message: u64) -> Said
where
    R: Wait + Copy + RandomSource + AllocGlobal,
{
    match &MockTask::new(&rt) {
        Ok(task) => polled(polls::sends(task, &mut s.send(message))),
        Err(_) => MEMORY,
    }
}

/// A send that is polled up to its end.
fn send_to_end<R>(rt: R, s: &Sender<u64, R>, message: u64) -> Said
where
    R: Wait + Copy + RandomSource + AllocGlobal,
{
    match &block_on(&rt, s.send(message)) {
        Ok(Ok(())) => SENT,
        Ok(Err(Refused::Plain(SendError(back)))) => Said::Both("closed", *back),
        _ => MEMORY,
    }
}

fn received(reply: Result<u64, TryRecvError>) -> Said {
    match reply {
        Ok(message) => Said::Both("received", message),
        Err(TryRecvError::Empty) => Said::Word("empty"),
        Err(TryRecvError::Closed) => OVER,
    }
}

fn received_blocking(reply: Result<u64, Refused<RecvError>>) -> Said {
    match &reply {
        Ok(message) => Said::Both("received", *message),
        Err(Refused::Plain(RecvError)) => OVER,
        Err(_) => MEMORY,
    }
}

/// A receive that is polled up to its end.
fn recv_to_end<R>(rt: R, r: &Receiver<u64, R>) -> Said
where
    R: Wait + Copy + RandomSource + AllocGlobal,
{
    match block_on(&rt, r.recv()) {
        Ok(reply) => received_blocking(reply),
        Err(_) => MEMORY,
    }
}

/// How many of these messages are sent by sends that don't wait.
fn try_sends<R: Wait + Copy>(s: &Sender<u64, R>, from: u64, to: u64) -> Said {
    let mut went = 0u64;
    for message in from..to {
        if s.try_send(message).is_ok() {
            went = went.wrapping_add(1);
        }
    }
    Said::Number(went)
}

/// How many of these messages are sent by sends that are polled up to their ends.
fn sends_to_end<R>(rt: R, s: &Sender<u64, R>, from: u64, to: u64) -> Said
where
    R: Wait + Copy + RandomSource + AllocGlobal,
{
    let mut went = 0u64;
    for message in from..to {
        if send_to_end(rt, s, message) == SENT {
            went = went.wrapping_add(1);
        }
    }
    Said::Number(went)
}

/// How many of these messages are sent, so that the channel then holds one more, the first time one.
fn sends_counted<R>(rt: R, s: &Sender<u64, R>, from: u64, to: u64) -> Said
where
    R: Wait + Copy + RandomSource + AllocGlobal,
{
    let mut went = 0usize;
    for message in from..to {
        if send_to_end(rt, s, message) == SENT && s.len() == went.wrapping_add(1) {
            went = went.wrapping_add(1);
        }
    }
    Said::count(went)
}

/// How many of these messages are sent, so that the channel then holds no more than so many.
fn sends_within<R>(rt: R, s: &Sender<u64, R>, from: u64, to: u64, most: usize) -> Said
where
    R: Wait + Copy + RandomSource + AllocGlobal,
{
    let mut went = 0u64;
    for message in from..to {
        if send_to_end(rt, s, message) == SENT && s.len() <= most {
            went = went.wrapping_add(1);
        }
    }
    Said::Number(went)
}

/// How many of these messages come, in this order, so that the channel then holds no more than so many.
fn recvs_within<R>(rt: R, r: &Receiver<u64, R>, from: u64, to: u64, most: usize) -> Said
where
    R: Wait + Copy + RandomSource + AllocGlobal,
{
    let mut came = 0u64;
    for message in from..to {
        if recv_to_end(rt, r) == Said::Both("received", message) && r.len() <= most {
            came = came.wrapping_add(1);
        }
    }
    Said::Number(came)
}

/// How many of these messages are received, in this order.
fn try_recvs<R: Wait + Copy>(r: &Receiver<u64, R>, from: u64, to: u64) -> Said {
    let mut came = 0u64;
    for message in from..to {
        if r.try_recv() == Ok(message) {
            came = came.wrapping_add(1);
        }
    }
    Said::Number(came)
}

fn capacity(capacity: Option<usize>) -> Said {
    match capacity {
        Some(capacity) => Said::count(capacity),
        None => Said::Word("none"),
    }
}

/// What a question to a sender says.
fn sender_answers<R: Wait + Copy>(s: &Sender<u64, R>, verb: &str) -> Said {
    match verb {
        "close" => Said::flag(s.close()),
        "is_closed" => Said::flag(s.is_closed()),
        "is_empty" => Said::flag(s.is_empty()),
        "is_full" => Said::flag(s.is_full()),
        "len" => Said::count(s.len()),
        "capacity" => capacity(s.capacity()),
        "sender_count" => Said::count(s.sender_count()),
        "receiver_count" => Said::count(s.receiver_count()),
        _ => Said::NoSuchCall,
    }
}

/// What a question to a receiver says.
fn receiver_answers<R: Wait + Copy>(r: &Receiver<u64, R>, verb: &str) -> Said {
    match verb {
        "close" => Said::flag(r.close()),
        "is_closed" => Said::flag(r.is_closed()),
        "is_empty" => Said::flag(r.is_empty()),
        "is_full" => Said::flag(r.is_full()),
        "len" => Said::count(r.len()),
        "capacity" => capacity(r.capacity()),
        "sender_count" => Said::count(r.sender_count()),
        "receiver_count" => Said::count(r.receiver_count()),
        "is_terminated" => Said::flag(r.is_terminated()),
        _ => Said::NoSuchCall,
    }
}

/// What a call of a sender says.
pub fn sender_says<R>(rt: R, s: &Sender<u64, R>, verb: &str, words: &mut Words<'_>) -> Said
where
    R: Wait + Copy + RandomSource + AllocGlobal,
{
    match verb {
        "try_send" => tried(s.try_send(words.number())),
        "force_send" => forced(s.force_send(words.number())),
        "send_blocking" => blocked(s.send_blocking(words.number())),
        "send_once" => send_once(rt, s, words.number()),
        "send_to_end" => send_to_end(rt, s, words.number()),
        "try_sends" => try_sends(s, words.number(), words.number()),
        "sends_to_end" => sends_to_end(rt, s, words.number(), words.number()),
        "sends_counted" => sends_counted(rt, s, words.number(), words.number()),
        "sends_within" => sends_within(rt, s, words.number(), words.number(), words.size()),
        _ => sender_answers(s, verb),
    }
}

/// Writes what a receive of several says.
fn write_several<R: Wait + Copy>(
    r: &Receiver<u64, R>,
    limit: usize,
    answer: &mut String,
) -> Result<(), AllocError> {
    match &r.recv_many(limit) {
        Ok(messages) => {
            Said::Word("received").write(answer)?;
            for message in messages.iter() {
                Said::Number(*message).write(answer)?;
            }
            Ok(())
        }
        Err(Refused::Plain(error)) => received(Err(*error)).write(answer),
        Err(_) => MEMORY.write(answer),
    }
}

/// Writes what a call of a receiver says.
pub fn write_received<R>(
    rt: R,
    r: &Receiver<u64, R>,
    verb: &str,
    words: &mut Words<'_>,
    answer: &mut String,
) -> Result<(), AllocError>
where
    R: Wait + Copy + RandomSource + AllocGlobal,
{
    let said = match verb {
        "recv_many" => return write_several(r, words.size(), answer),
        "try_recv" => received(r.try_recv()),
        "recv_blocking" => received_blocking(r.recv_blocking()),
        "recv_to_end" => recv_to_end(rt, r),
        "try_recvs" => try_recvs(r, words.number(), words.number()),
        "recvs_within" => recvs_within(rt, r, words.number(), words.number(), words.size()),
        _ => receiver_answers(r, verb),
    };
    said.write(answer)
}
