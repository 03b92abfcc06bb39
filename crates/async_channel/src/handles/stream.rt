//! A receiver as a stream of messages. The receiver owns the stream's listener, so one task at a time polls it.

ghost use Rattle.std.specs.Prelude.{◌≡◌, is_some};
ghost use Rattle.futures.specs.Poll.{OnPending};
ghost use Rattle.futures.specs.Task.{IsArmed, Keeps};
ghost use Rattle.channel_calls.specs.Calls.{next_ask};
ghost use Rattle.channel_calls.specs.Listed.{is_pending};
ghost use Rattle.channel_calls.specs.declared.reply.Reply.TheVariants as reply;
ghost use Rattle.async_channel.specs.Called.{WasPolled};

use crate::handles::receiver::Receiver;
use crate::seen::Trace;
use event_listener::error::ListenError;
use futures::Stream;
use futures::task::{Context, Poll};
use std::sync::Wait;

/// The stream ends once the channel is closed and empty. If a listener is refused memory or a serial, that is its next item. As
/// [`poll_next`](Receiver::poll_next) of the receiver. As `async-channel` 2.5.0, but for the refusals.
impl<T: Drop, R: Wait + Copy, S: Trace<T> + Copy> Stream for Receiver<T, R, S> {
    type Item = Result<T, ListenError>;

    // The trait's clauses say nothing of an item, so those of the method itself do.
    fn poll_next(&mut self, cx: &mut Context<'_>) -> Poll<Option<Result<T, ListenError>>>
        ensures made { WasPolled S.did S.shown S.entered self.old.channel self.old.party (next_ask self.old.key) (reply.Next result) self.new.key self.new.party }
        ensures listed { is_some self.new.key ≡ is_pending result }
        ensures channel { self.new.channel ≡ self.old.channel }
        ensures armed { OnPending result (IsArmed cx.new) }
        ensures kept { Keeps cx.old cx.new }
    {
        Receiver::poll_next(self, cx)
    }
}
