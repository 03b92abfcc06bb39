//! Calls, as lines name them.

use channel_world::call::Call;
use channel_world::name::{HandleId, OpId};
use worked_rows::Words;

fn handle(words: &mut Words<'_>) -> HandleId {
    HandleId(words.place(&["s", "r"]))
}

fn op(words: &mut Words<'_>) -> OpId {
    OpId(words.small())
}

/// A call that brings or takes messages, or makes handles or operations.
fn call_of_messages(verb: &str, words: &mut Words<'_>) -> Option<Call<u64>> {
    Some(match verb {
        "try_send" => Call::TrySend {
            sender: handle(words),
            msg: words.number(),
        },
        "force_send" => Call::ForceSend {
            sender: handle(words),
            msg: words.number(),
        },
        "try_recv" => Call::TryRecv {
            receiver: handle(words),
        },
        "recv_many" => Call::RecvMany {
            receiver: handle(words),
            limit: words.size(),
        },
        "next" => Call::PollNext {
            receiver: handle(words),
        },
        "send" => Call::NewSend {
            op: op(words),
            sender: handle(words),
            msg: words.number(),
        },
        "recv" => Call::NewRecv {
            op: op(words),
            receiver: handle(words),
        },
        "closed" => Call::NewClosed {
            op: op(words),
            sender: handle(words),
        },
        "poll" => Call::Poll { op: op(words) },
        "poll_refused" => Call::PollRefused { op: op(words) },
        "give_up" => Call::GiveUp { op: op(words) },
        _ => return None,
    })
}

/// A call of handles, or a question.
fn call_of_handles(verb: &str, words: &mut Words<'_>) -> Option<Call<u64>> {
    Some(match verb {
        "clone" => Call::TryClone {
            handle: handle(words),
            new: handle(words),
        },
        "downgrade" => Call::Downgrade {
            handle: handle(words),
            new: handle(words),
        },
        "upgrade" => Call::Upgrade {
            weak: handle(words),
            new: handle(words),
        },
        "close" => Call::Close {
            handle: handle(words),
        },
        "drop" => Call::Drop {
            handle: handle(words),
        },
        "same_channel" => Call::SameChannel {
            a: handle(words),
            b: handle(words),
        },
        "is_closed" => Call::IsClosed {
            handle: handle(words),
        },
        "is_empty" => Call::IsEmpty {
            handle: handle(words),
        },
        "is_full" => Call::IsFull {
            handle: handle(words),
        },
        "len" => Call::Len {
            handle: handle(words),
        },
        "capacity" => Call::Capacity {
            handle: handle(words),
        },
        "sender_count" => Call::SenderCount {
            handle: handle(words),
        },
        "receiver_count" => Call::ReceiverCount {
            handle: handle(words),
        },
        "is_finished" => Call::SendIsTerminated { op: op(words) },
        "is_terminated" => Call::StreamIsTerminated {
            receiver: handle(words),
        },
        _ => return None,
    })
}

/// The call that a line names.
pub fn call_of(verb: &str, words: &mut Words<'_>) -> Option<Call<u64>> {
    match call_of_messages(verb, words) {
        Some(call) => Some(call),
        None => call_of_handles(verb, words),
    }
}
