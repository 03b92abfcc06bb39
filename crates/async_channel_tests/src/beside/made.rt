//! Each call as handles make it.

ghost use Rattle.channel_calls.specs.Stands.{AllowsAll};

use crate::beside::alone;
use crate::beside::cells::Beside;
use crate::beside::kind::{Called, How, Kind};
use crate::said::{Said, answer_of, sent_blocking};
use crate::scarce::Scarce;
use crate::woken::Woken;
use channel_calls::blocking::{recv_blocking, send_blocking};
use channel_calls::cells::ChannelCells;
use channel_calls::error::HandleError;
use channel_calls::filling::recv_many_into;
use channel_calls::kind::{Kind as Counts, OfReceivers, OfSenders};
use channel_calls::raised::{Raised, clone_handle, drop_receiver, drop_sender, upgrade};
use channel_calls::reply::Reply;
use channel_calls::several::Messages;
use channel_calls::stage::{Returned, Side, WaitList};
use channel_calls::taking::next_blocking;
use channel_calls::{calls, polls, questions};
use futures::task::Poll;
use std::alloc::Global;
use std::sync::Wait;

/// What the call says.
pub(crate) fn said_by<R: Wait>(rt: &R, called: Called, cells: &mut Beside<'_, R>) -> Said {
    match called.kind {
        Kind::Poll(line, How::Leaves) => given_up(rt, line, called, cells),
        Kind::Poll(line, how) => polled(rt, line, how != How::Unwoken, called, cells),
        Kind::Blocks(WaitList::Sends, _) => {
            sent_blocking(send_blocking(rt, called.message, cells, &mut Woken::new()))
        }
        Kind::Blocks(_, _) => {
            let received = recv_blocking(rt, cells, &mut Woken::new());
            answer_of(Reply::RecvPoll(Poll::Ready(received)))
        }
        Kind::Walk(refused) => walked(rt, if refused { 2 } else { 1 }, cells),
        Kind::CloneHandle(Side::Senders) => sender_made(rt, true, called, cells),
        Kind::Upgrade(Side::Senders) => sender_made(rt, false, called, cells),
        Kind::CloneHandle(Side::Receivers) => receiver_made(rt, true, called, cells),
        Kind::Upgrade(Side::Receivers) => receiver_made(rt, false, called, cells),
        Kind::DropHandle(Side::Senders) => sender_dropped(rt, called, cells),
        Kind::DropHandle(Side::Receivers) | Kind::DropStream => {
            receiver_dropped(rt, called, cells)
        }
        _ => answer_of(answer(rt, called, cells)),
    }
}

/// What a call answers that waits for nobody.
fn answer<R: Wait>(rt: &R, called: Called, cells: &mut Beside<'_, R>) -> Reply<u64> {
    let sink = &mut Woken::new();
    match called.kind {
        Kind::TrySend => Reply::TrySend(calls::try_send(rt, called.message, cells, sink)),
        Kind::ForceSend => Reply::ForceSend(calls::force_send(rt, called.message, cells, sink)),
        Kind::TryRecv => Reply::TryRecv(calls::try_recv(rt, cells, sink)),
        Kind::RecvMany => match calls::recv_many(rt, 2, called.alloc, cells, sink) {
            Ok(messages) => Reply::RecvMany(Ok(Messages::new(messages))),
            Err(error) => Reply::RecvMany(Err(error)),
        },
        Kind::RecvManyInto => received_into(rt, called.alloc, cells),
        Kind::Close => Reply::Closed(calls::close(rt, cells, sink)),
        Kind::Len => Reply::Count(calls::len(rt, cells, sink)),
        _ => questioned(called.kind, cells),
    }
}

/// What a question answers.
fn questioned<R: Wait>(kind: Kind, cells: &mut Beside<'_, R>) -> Reply<u64> {
    match kind {
        Kind::IsEmpty => Reply::Flag(questions::is_empty(cells)),
        Kind::IsFull => Reply::Flag(questions::is_full(cells)),
        Kind::IsTerminated => Reply::Flag(questions::is_terminated(cells)),
        Kind::Capacity => Reply::Cap(questions::capacity(cells)),
        Kind::HandleCount(side) => Reply::Count(questions::handle_count(side, cells)),
        _ => Reply::Flag(questions::is_closed(cells)),
    }
}

/// What a receive of several answers into room for two.
fn received_into<R: Wait>(rt: &R, alloc: Global, cells: &mut Beside<'_, R>) -> Reply<u64> {
    let Ok(mut messages) = Vec::with_capacity(alloc, 2) else {
        return Reply::Unit;
    };
    match recv_many_into(rt, &mut messages, cells, &mut Woken::new()) {
        Ok(_) => Reply::RecvMany(Ok(Messages::new(messages))),
        Err(error) => {
            drop(messages);
            Reply::TryRecv(Err(error))
        }
    }
}

/// What two items of a walk are, each at the last of so many that may be refusals.
fn walked<R: Wait>(rt: &R, waits: u32, cells: &mut Beside<'_, R>) -> Said {
    let mut ended = false;
    let first = next(rt, waits, &mut ended, cells);
    let second = next(rt, waits, &mut ended, cells);
    match (first, second) {
        (Some(first), Some(second)) => Said::Several(first, second),
        (Some(first), None) => Said::Received(first),
        (None, Some(_)) => Said::Else,
        (None, None) => Said::Closed(None),
    }
}

/// The next message of a walk.
fn next<R: Wait>(rt: &R, waits: u32, ended: &mut bool, cells: &mut Beside<'_, R>) -> Option<u64> {
    let sink = &mut Woken::new();
    for _ in 0..waits {
        match next_blocking(rt, ended, cells, sink) {
            Some(Ok(message)) => return Some(message),
            Some(Err(_)) => {}
            None => return None,
        }
    }
    None
}

/// What this is, if the operation was left a listener where it is pending and nowhere else, and its message while it isn't over.
fn left_well(said: Said, kept: Returned<u64>, carried: Option<u64>) -> Said {
    let is_over = said != Said::Pending && said != Said::Refused;
    let message = if is_over { None } else { carried };
    if kept.key.is_some() == (said == Said::Pending) && kept.message == message {
        said
    } else {
        Said::Else
    }
}

/// What a poll says on this list, with a copy of its waker or without one.
fn polled<R: Wait>(
    rt: &R,
    line: WaitList,
    woken: bool,
    called: Called,
    cells: &mut Beside<'_, R>,
) -> Said {
    let task = if woken { Some(called.task) } else { None };
    let (key, message, sink) = (called.key, called.carried(line), &mut Woken::new());
    let (reply, kept) = match line {
        WaitList::Sends => {
            let (polled, kept) = polls::poll_send(rt, message, key, task, cells, sink);
            (Reply::SendPoll(polled), kept)
        }
        WaitList::Receives => {
            let (polled, kept) = polls::poll_recv(rt, key, task, cells, sink);
            (Reply::RecvPoll(polled), kept)
        }
        WaitList::Streams => {
            let (polled, kept) = polls::poll_next(rt, key, task, cells, sink);
            (Reply::Next(polled), kept)
        }
        WaitList::Closings => {
            let (polled, kept) = polls::poll_closed(rt, key, task, cells, sink);
            (Reply::ClosedPoll(polled), kept)
        }
    };
    left_well(answer_of(reply), kept, message)
}

/// What an operation hands back that is given up.
fn given_up<R: Wait>(rt: &R, line: WaitList, called: Called, cells: &mut Beside<'_, R>) -> Said {
    let (message, sink) = (called.carried(line), &mut Woken::new());
    Said::GivenUp(polls::give_up(rt, line, message, called.key, cells, sink))
}

/// A clone, or an upgrade.
fn made<K: Counts, R: Wait, C: ChannelCells<u64, u32>>(
    rt: &R,
    is_clone: bool,
    cells: &mut C,
) -> Result<Option<Raised<K>>, HandleError>
    requires free { AllowsAll C.stands C.may }
{
    let sink = &mut Woken::new();
    if !is_clone {
        return upgrade(rt, cells, sink);
    }
    match clone_handle(rt, cells, sink) {
        Ok(raised) => Ok(Some(raised)),
        Err(error) => Err(error),
    }
}

/// Another call of handles, alone and by steps.
fn steps_of_handles(kind: Kind, alloc: Global, cells: &mut Scarce) {
    alone(Called::new(kind, 0, 0, alloc), cells);
}

/// What a clone or an upgrade says that makes a sender. Then that is let go, with no change of the count: nobody else counts on it.
fn sender_made<R: Wait>(rt: &R, is_clone: bool, called: Called, cells: &mut Beside<'_, R>) -> Said {
    match made(rt, is_clone, cells) {
        Ok(Some(raised)) => {
            steps_of_handles(
                Kind::CloneHandle(Side::Senders),
                called.alloc,
                &mut cells.cells,
            );
            drop_sender(rt, raised, &mut cells.cells, &mut Woken::new());
            Said::Made(true)
        }
        Ok(None) => Said::Made(false),
        Err(_) => Said::Refused,
    }
}

/// The same of a receiver.
fn receiver_made<R: Wait>(
    rt: &R,
    is_clone: bool,
    called: Called,
    cells: &mut Beside<'_, R>,
) -> Said {
    match made(rt, is_clone, cells) {
        Ok(Some(raised)) => {
            steps_of_handles(
                Kind::CloneHandle(Side::Receivers),
                called.alloc,
                &mut cells.cells,
            );
            drop_receiver(rt, raised, None, &mut cells.cells, &mut Woken::new());
            Said::Made(true)
        }
        Ok(None) => Said::Made(false),
        Err(_) => Said::Refused,
    }
}

/// What the drop of a sender says, which is counted as one of those of the start.
fn sender_dropped<R: Wait>(rt: &R, called: Called, cells: &mut Beside<'_, R>) -> Said {
    match made(rt, true, &mut cells.cells) {
        Ok(Some(raised)) => {
            steps_of_handles(
                Kind::DropHandle(Side::Senders),
                called.alloc,
                &mut cells.cells,
            );
            drop_sender(rt, raised, cells, &mut Woken::new());
            Said::Dropped
        }
        Ok(None) => Said::Missing,
        Err(_) => Said::Refused,
    }
}

/// The same of a receiver, which may have a listener.
fn receiver_dropped<R: Wait>(rt: &R, called: Called, cells: &mut Beside<'_, R>) -> Said {
    match made(rt, true, &mut cells.cells) {
        Ok(Some(raised)) => {
            steps_of_handles(
                Kind::DropHandle(Side::Receivers),
                called.alloc,
                &mut cells.cells,
            );
            drop_receiver(rt, raised, called.key, cells, &mut Woken::new());
            Said::Dropped
        }
        Ok(None) => Said::Missing,
        Err(_) => Said::Refused,
    }
}
