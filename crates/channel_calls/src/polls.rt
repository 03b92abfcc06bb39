//! One poll of each kind of operation, made up to its answer over any cells. Without a copy of the waker (`None` as the task) nothing is
//! tried: the listener leaves, passing its notification on, and the poll is refused for memory.
//!
//! Whatever the cells hold, each does what the machine of its call does from its first step to this answer (clauses `deeds`). It leaves a
//! listener to its operation if it answers that it waits, and otherwise none (clauses `listed`).

ghost use Rattle.std.specs.Prelude.{◌≡◌, None, is_some};
ghost use Rattle.concurrent_queue.specs.declared.cells.QueueForm.{QueueForm};
ghost use Rattle.channel_calls.specs.Asks.{first};
ghost use Rattle.channel_calls.specs.Calls.{SendsOn, send_ask, recv_ask, closed_ask, next_ask};
ghost use Rattle.channel_calls.specs.Deeds.{Done};
ghost use Rattle.channel_calls.specs.Listed.{SendLists, is_pending};
ghost use Rattle.channel_calls.specs.Stands.{BeginsHere};
ghost use Rattle.channel_calls.specs.Walks.{WalkedFrom, WalkedTo};
ghost use Rattle.channel_calls.specs.declared.ask.ChannelAsk.TheVariants as ask;
ghost use Rattle.channel_calls.specs.declared.reply.Reply.{Reply as Answer};
ghost use Rattle.channel_calls.specs.declared.reply.Reply.TheVariants as reply;
ghost use Rattle.channel_calls.specs.declared.stage.Returned.{Returned as Left};

use crate::ask::{ChannelAsk, lent};
use crate::cells::ChannelCells;
use crate::error::{RecvError, Refused, SendError};
use crate::fast_polls::make_poll;
use crate::reply::Reply;
use crate::stage::{Returned, WaitList};
use crate::whole::{Completed, make};
use event_listener::error::ListenError;
use event_listener::key::Key;
use event_listener::wakes::Wakes;
use futures::task::Poll;
use std::sync::Wait;

/// What a poll of a send asks; a finished one, which has no message, asks nothing.
fn send_ask<T: Drop, W: Drop>(
    message: Option<T>,
    key: Option<Key>,
    task: Option<W>,
) -> ChannelAsk<T, W>
    ensures { result ≡ send_ask message key task }
{
    let Some(task) = task else {
        return ChannelAsk::RefusePoll(WaitList::Sends, message, key);
    };
    match message {
        Some(message) => ChannelAsk::PollSend(message, lent(key), task),
        None => {
            drop(task);
            ChannelAsk::PollFinishedSend
        }
    }
}

/// What a poll of a receive asks.
fn recv_ask<T, W: Drop>(key: Option<Key>, task: Option<W>) -> ChannelAsk<T, W>
    ensures { result ≡ recv_ask key task }
{
    match task {
        Some(task) => ChannelAsk::PollRecv(lent(key), task),
        None => ChannelAsk::RefusePoll(WaitList::Receives, None, key),
    }
}

/// What a poll of a wait for the closing asks.
fn closed_ask<T, W>(key: Option<Key>, task: Option<W>) -> ChannelAsk<T, W>
    ensures { result ≡ closed_ask key task }
{
    match task {
        Some(task) => ChannelAsk::PollClosed(key, task),
        None => ChannelAsk::RefusePoll(WaitList::Closings, None, key),
    }
}

/// What a poll of a receiver as a stream asks.
fn next_ask<T, W>(key: Option<Key>, task: Option<W>) -> ChannelAsk<T, W>
    ensures { result ≡ next_ask key task }
{
    match task {
        Some(task) => ChannelAsk::PollNext(key, task),
        None => ChannelAsk::RefusePoll(WaitList::Streams, None, key),
    }
}

/// A poll of a send with this message; of a finished one with none.
pub fn poll_send<T: Drop, W: Drop, R: Wait, C: ChannelCells<T, W>, S: Wakes<W>>(
    rt: &R,
    message: Option<T>,
    key: Option<Key>,
    task: Option<W>,
    cells: &mut C,
    sink: &mut S,
) -> (Poll<Result<(), Refused<SendError<T>>>>, Returned<T>)
    requires form { (f : QueueForm) × C.has_form cells.old f }
    requires stands { BeginsHere C.stands (first (send_ask message key task)) cells.old }
    ensures deeds { WalkedFrom (Done C.did S.wakes) (first (send_ask message key task)) (cells.old, sink.old) (reply.SendPoll result.0) result.1 (cells.new, sink.new) }
    ensures message { SendsOn message result.0 result.1.message }
    ensures listed { SendLists message result.0 result.1.key }
    ensures form { (f : QueueForm) → C.has_form cells.old f → C.has_form cells.new f }
{
    let ask = send_ask(message, key, task);
    let given = make_poll(rt, ask, cells, sink);
    let Completed { reply, kept } = given;
    match reply {
        Reply::SendPoll(polled) => (polled, kept),
        _ => unreachable!(),
    }
}

/// A poll of a receive.
pub fn poll_recv<T: Drop, W: Drop, R: Wait, C: ChannelCells<T, W>, S: Wakes<W>>(
    rt: &R,
    key: Option<Key>,
    task: Option<W>,
    cells: &mut C,
    sink: &mut S,
) -> (Poll<Result<T, Refused<RecvError>>>, Returned<T>)
    requires form { (f : QueueForm) × C.has_form cells.old f }
    requires stands { BeginsHere C.stands (first (recv_ask key task)) cells.old }
    ensures deeds { WalkedFrom (Done C.did S.wakes) (first (recv_ask key task)) (cells.old, sink.old) (reply.RecvPoll result.0) result.1 (cells.new, sink.new) }
    ensures listed { is_some result.1.key ≡ is_pending result.0 }
    ensures form { (f : QueueForm) → C.has_form cells.old f → C.has_form cells.new f }
{
    let ask = recv_ask(key, task);
    let given = make_poll(rt, ask, cells, sink);
    let Completed { reply, kept } = given;
    match reply {
        Reply::RecvPoll(polled) => (polled, kept),
        _ => unreachable!(),
    }
}

/// A poll of a wait for the closing.
pub fn poll_closed<T: Drop, W: Drop, R: Wait, C: ChannelCells<T, W>, S: Wakes<W>>(
    rt: &R,
    key: Option<Key>,
    task: Option<W>,
    cells: &mut C,
    sink: &mut S,
) -> (Poll<Result<(), ListenError>>, Returned<T>)
    requires form { (f : QueueForm) × C.has_form cells.old f }
    requires stands { BeginsHere C.stands (first (closed_ask key task)) cells.old }
    ensures deeds { WalkedFrom (Done C.did S.wakes) (first (closed_ask key task)) (cells.old, sink.old) (reply.ClosedPoll result.0) result.1 (cells.new, sink.new) }
    ensures listed { is_some result.1.key ≡ is_pending result.0 }
    ensures form { (f : QueueForm) → C.has_form cells.old f → C.has_form cells.new f }
{
    let ask = closed_ask(key, task);
    let given = make(rt, ask, cells, sink);
    let Completed { reply, kept } = given;
    match reply {
        Reply::ClosedPoll(polled) => (polled, kept),
        _ => unreachable!(),
    }
}

/// A poll of a receiver as a stream.
pub fn poll_next<T: Drop, W: Drop, R: Wait, C: ChannelCells<T, W>, S: Wakes<W>>(
    rt: &R,
    key: Option<Key>,
    task: Option<W>,
    cells: &mut C,
    sink: &mut S,
) -> (Poll<Option<Result<T, ListenError>>>, Returned<T>)
    requires form { (f : QueueForm) × C.has_form cells.old f }
    requires stands { BeginsHere C.stands (first (next_ask key task)) cells.old }
    ensures deeds { WalkedFrom (Done C.did S.wakes) (first (next_ask key task)) (cells.old, sink.old) (reply.Next result.0) result.1 (cells.new, sink.new) }
    ensures listed { is_some result.1.key ≡ is_pending result.0 }
    ensures form { (f : QueueForm) → C.has_form cells.old f → C.has_form cells.new f }
{
    let ask = next_ask(key, task);
    let given = make_poll(rt, ask, cells, sink);
    let Completed { reply, kept } = given;
    match reply {
        Reply::Next(polled) => (polled, kept),
        _ => unreachable!(),
    }
}

/// Gives up an operation of this kind, and returns the message of an unfinished send.
pub fn give_up<T: Drop, W: Drop, R: Wait, C: ChannelCells<T, W>, S: Wakes<W>>(
    rt: &R,
    line: WaitList,
    message: Option<T>,
    key: Option<Key>,
    cells: &mut C,
    sink: &mut S,
) -> Option<T>
    requires form { (f : QueueForm) × C.has_form cells.old f }
    requires stands { BeginsHere C.stands (first (ask.GiveUp line message key)) cells.old }
    ensures deeds { WalkedTo (Done C.did S.wakes) (first (ask.GiveUp line message key)) (cells.old, sink.old) (reply.GivenUp result) (cells.new, sink.new) }
    ensures message { result ≡ message }
    ensures form { (f : QueueForm) → C.has_form cells.old f → C.has_form cells.new f }
{
    let ask = ChannelAsk::GiveUp(line, message, key);
    let Completed { reply, kept } = make(rt, ask, cells, sink);
    drop(kept);
    match reply {
        Reply::GivenUp(message) => message,
        _ => unreachable!(),
    }
}
