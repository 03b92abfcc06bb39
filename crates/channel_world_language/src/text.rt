//! Reply lines.
ghost use Rattle.std.specs.Prelude.{◌≡◌, ◌++◌, false, IfSome, OnOk};
ghost use Rattle.std.specs.Fmt.{decimal};
ghost use Rattle.channel_world_language.specs.Text.{reply_text, several_text, wakes_text, refused_text, wants_growth, poll_text, part_before};

use crate::table::Table;
use channel_calls::error::{Refused, SendError, TryRecvError, TrySendError};
use channel_calls::reply::Reply;
use channel_world_model::name::Waiter;
use channel_world_model::refusal::WorldRefusal;
use channel_world_model::run::Done;
use futures::task::Poll;
use itoa::Buffer;
use std::alloc::AllocError;

/// Adds these bytes, and a number after them.
pub fn add_number(front: &[u8], number: u64, line: &mut Vec<u8>) -> Result<(), AllocError>
    ensures { OnOk result (line.new.items ≡ line.old.items ++ (front.now ++ decimal number)) }
{
    let mut digits = Buffer::new();
    line.extend_from_slice(front)?;
    line.extend_from_slice(digits.format(number).as_bytes())
}

/// Adds the text of messages in order, each after a space.
fn add_several(messages: &[u64], line: &mut Vec<u8>) -> Result<(), AllocError>
    ensures { OnOk result (line.new.items ≡ line.old.items ++ several_text messages.now) }
{
    line.extend_from_slice(b"ok")?;
    for message in messages {
        add_number(b" ", *message, line)?;
    }
    Ok(())
}

/// The text of a reply that has no message and no number in it, if it has one.
fn fixed_text(reply: &Reply<u64>) -> Option<&'static [u8]>
    ensures text { IfSome result (λ text. text.now ≡ reply_text reply.now) }
    ensures whole { IfSome result (λ _. wants_growth reply.now ≡ false) }
{
    match reply {
        Reply::TrySend(Ok(_))
        | Reply::ForceSend(Ok(None))
        | Reply::SendPoll(Poll::Ready(Ok(_)))
        | Reply::Made
        | Reply::GivenUp(_)
        | Reply::Unit => Some(b"ok"),
        Reply::TryRecv(Err(TryRecvError::Empty))
        | Reply::RecvMany(Err(Refused::Plain(TryRecvError::Empty))) => Some(b"empty"),
        Reply::TryRecv(Err(TryRecvError::Closed))
        | Reply::RecvMany(Err(Refused::Plain(TryRecvError::Closed)))
        | Reply::RecvPoll(Poll::Ready(Err(Refused::Plain(_)))) => Some(b"closed"),
        Reply::SendPoll(Poll::Pending)
        | Reply::RecvPoll(Poll::Pending)
        | Reply::ClosedPoll(Poll::Pending)
        | Reply::Next(Poll::Pending) => Some(b"pending"),
        Reply::ClosedPoll(Poll::Ready(Ok(_))) => Some(b"ready"),
        Reply::Next(Poll::Ready(None)) | Reply::Cap(None) | Reply::NotMade => Some(b"none"),
        Reply::Closed(true) | Reply::Flag(true) => Some(b"true"),
        Reply::Closed(false) | Reply::Flag(false) => Some(b"false"),
        Reply::TooMany => Some(b"too many"),
        _ => None,
    }
}

/// Adds the text of a reply; nothing if the call was refused memory or serials.
fn add_reply(reply: &Reply<u64>, line: &mut Vec<u8>) -> Result<(), AllocError>
    ensures text { OnOk result (line.new.items ≡ line.old.items ++ reply_text reply.now) }
    ensures whole { OnOk result (wants_growth reply.now ≡ false) }
{
    match reply {
        Reply::TrySend(Err(Refused::Plain(TrySendError::Full(msg)))) => {
            add_number(b"full ", *msg, line)
        }
        Reply::TrySend(Err(Refused::Plain(TrySendError::Closed(msg))))
        | Reply::ForceSend(Err(Refused::Plain(SendError(msg))))
        | Reply::SendPoll(Poll::Ready(Err(Refused::Plain(SendError(msg))))) => {
            add_number(b"closed ", *msg, line)
        }
        Reply::ForceSend(Ok(Some(msg))) => add_number(b"ok displaced ", *msg, line),
        Reply::TryRecv(Ok(msg)) | Reply::RecvPoll(Poll::Ready(Ok(msg))) => {
            add_number(b"ok ", *msg, line)
        }
        Reply::RecvMany(Ok(messages)) => add_several(messages.as_slice(), line),
        Reply::Next(Poll::Ready(Some(Ok(msg)))) => add_number(b"some ", *msg, line),
        Reply::Count(number) | Reply::Cap(Some(number)) => add_number(b"", *number as u64, line),
        _ => line.extend_from_slice(fixed_text(reply).ok_or(AllocError)?),
    }
}

/// Adds the names that a call woke.
fn add_wakes(table: &Table<'_>, woken: &[Waiter], line: &mut Vec<u8>) -> Result<(), AllocError>
    ensures { OnOk result (line.new.items ≡ line.old.items ++ wakes_text table.now woken.now) }
{
    if woken.is_empty() {
        return Ok(());
    }
    line.extend_from_slice(b" wakes")?;
    for waiter in woken {
        line.push(b' ')?;
        line.extend_from_slice(table.waiter_name(*waiter))?;
    }
    Ok(())
}

/// Adds the line for what a call answered; nothing if it was refused memory or serials.
pub fn add_answer(table: &Table<'_>, done: &Done<u64>, line: &mut Vec<u8>) -> Result<(), AllocError>
    ensures text { OnOk result (line.new.items ≡ line.old.items ++ reply_text done.now.reply ++ wakes_text table.now done.now.woken.items) }
    ensures whole { OnOk result (wants_growth done.now.reply ≡ false) }
{
    add_reply(&done.reply, line)?;
    add_wakes(table, done.woken.as_slice(), line)
}

/// Adds one poll of a settling: its name and its reply; nothing if it was refused memory or serials.
pub fn add_poll(
    table: &Table<'_>,
    name: Waiter,
    reply: &Reply<u64>,
    line: &mut Vec<u8>,
) -> Result<(), AllocError>
    ensures text { OnOk result (line.new.items ≡ line.old.items ++ poll_text table.now (name, reply.now)) }
    ensures whole { OnOk result (wants_growth reply.now ≡ false) }
{
    line.extend_from_slice(table.waiter_name(name))?;
    line.push(b' ')?;
    add_reply(reply, line)
}

/// What comes before the k-th poll of a settling.
pub fn part_before(k: usize) -> &'static [u8]
    ensures { result.now ≡ part_before k }
{
    if k == 0 { b": " } else { b", " }
}

/// Adds the line for a refusal.
pub fn add_refused(why: WorldRefusal, line: &mut Vec<u8>) -> Result<(), AllocError>
    ensures { OnOk result (line.new.items ≡ line.old.items ++ refused_text why) }
{
    add_number(b"refused ", u64::from(why.number()), line)
}
