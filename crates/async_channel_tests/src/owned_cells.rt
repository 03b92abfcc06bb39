//! Calls over the cells of one owner, by the same functions that handles run: what their contracts say there is exact.

ghost use Rattle.std.specs.Prelude.{◌≡◌, IfErr, is_some};
ghost use Rattle.concurrent_queue.specs.Replies.{room_of};
ghost use Rattle.channel_calls.specs.Asks.{first};
ghost use Rattle.channel_calls.specs.Deeds.{Done};
ghost use Rattle.channel_calls.specs.Errors.{try_handed_back};
ghost use Rattle.channel_calls.specs.Listed.{is_pending};
ghost use Rattle.channel_calls.specs.Plain.{form_of, DoesPlain};
ghost use Rattle.channel_calls.specs.Walks.{WalkedTo};
ghost use Rattle.channel_calls.specs.declared.ask.ChannelAsk.TheVariants as ask;
ghost use Rattle.channel_calls.specs.declared.plain.PlainChannel.{PlainChannel as Owned};
ghost use Rattle.channel_calls.specs.declared.reply.Reply.TheVariants as reply;

use channel_calls::calls::try_send;
use channel_calls::error::{RecvError, Refused, TrySendError};
use channel_calls::plain::PlainChannel;
use channel_calls::polls::poll_recv;
use channel_calls::questions::capacity;
use channel_calls::stage::Returned;
use event_listener::key::Key;
use event_listener::wakes::Wakes;
use futures::task::Poll;
use std::sync::Wait;

/// A send that doesn't wait, with what it did to the cells: the deeds of its machine, each with the effect that it has on
/// contents that are known. A refused message comes back.
pub fn sends<T: Drop, W: Drop, R: Wait, S: Wakes<W>>(
    rt: &R,
    message: T,
    channel: &mut PlainChannel<T, W>,
    sink: &mut S,
) -> Result<(), Refused<TrySendError<T>, T>>
    ensures back { IfErr result (λ e. try_handed_back e ≡ message) }
    ensures deeds { WalkedTo (Done (λ d (a b : Owned T W). DoesPlain d a b) S.wakes) (first (ask.TrySend message)) (channel.old, sink.old) (reply.TrySend result) (channel.new, sink.new) }
{
    try_send(rt, message, channel, sink)
}

/// A poll of a receive: it leaves a listener where it is pending, and else none.
pub fn polls<T: Drop, W: Drop, R: Wait, S: Wakes<W>>(
    rt: &R,
    key: Option<Key>,
    task: W,
    channel: &mut PlainChannel<T, W>,
    sink: &mut S,
) -> (Poll<Result<T, Refused<RecvError>>>, Returned<T>)
    ensures { is_some result.1.key ≡ is_pending result.0 }
{
    poll_recv(rt, key, Some(task), channel, sink)
}

/// How many messages a channel holds at most.
pub fn room<T: Drop, W: Drop>(channel: &mut PlainChannel<T, W>) -> Option<usize>
    ensures { result ≡ room_of (form_of channel.old) }
{
    capacity(channel)
}
