//! The calls that handles of both kinds have, on a channel of either form. With a bound the channel's trace is told of the call by its
//! witness; without one it sees the call's operations.

ghost use Rattle.std.specs.Prelude.{◌≡◌, None, false, MatchOption};
ghost use Rattle.channel_calls.specs.Asks.{first};
ghost use Rattle.channel_calls.specs.Walks.{WalkedTo};
ghost use Rattle.channel_calls.specs.declared.ask.ChannelAsk.TheVariants as ask;
ghost use Rattle.channel_calls.specs.declared.reply.Reply.TheVariants as reply;
ghost use Rattle.concurrent_queue.specs.Replies.{room_of};
ghost use Rattle.async_channel.specs.Called.{WasMade};
ghost use Rattle.async_channel.specs.Handles.{handle_of};
ghost use Rattle.async_channel.specs.Watched.{WasSeen};

use crate::calls;
use crate::counted::Counted;
use crate::link::Link;
use crate::seen::{self, Seen, Trace};
use channel_calls::kind::Kind;
use channel_calls::stage::Side;
use event_listener::waking::WakeNow;
use std::sync::Wait;

impl<T: Drop, K: Kind> Counted<T, K> {
    /// Closes the channel.
    #[inline(always)]
    pub(crate) fn close<R: Wait, S: Trace<T> + Copy>(&self, rt: &R, watch: S) -> bool
        ensures made { WasMade S.did S.shown S.entered S.called (handle_of self.now.link) ask.Close (reply.Closed result) }
    {
        match &self.link {
            Link::Bounded(channel) => {
                seen::answer(
                    &watch,
                    channel
                        .table
                        .close(rt, channel.table.new_seat(), &mut WakeNow { rt }),
                )
            }
            Link::Unbounded(shared) => calls::close(rt, Seen::cells(shared, rt, (), watch)).0,
        }
    }

    /// How many messages the channel held at a moment of the call.
    #[inline(always)]
    pub(crate) fn len<R: Wait, S: Trace<T> + Copy>(&self, rt: &R, watch: S) -> usize
        ensures made { WasMade S.did S.shown S.entered S.called (handle_of self.now.link) ask.Len (reply.Count result) }
    {
        match &self.link {
            Link::Bounded(channel) => {
                seen::answer(
                    &watch,
                    channel
                        .table
                        .len(rt, channel.table.new_seat(), &mut WakeNow { rt }),
                )
            }
            Link::Unbounded(shared) => calls::len(rt, Seen::cells(shared, rt, (), watch)).0,
        }
    }
}

// None of these takes the runtime or a lock, so none waits.
impl<T: Drop, K: Kind> Counted<T, K> {
    /// Whether the channel is closed.
    #[inline(always)]
    pub(crate) fn is_closed<S: Trace<T> + Copy>(&self, watch: S) -> bool
        ensures made { WasMade S.did S.shown S.entered S.called (handle_of self.now.link) ask.IsClosed (reply.Flag result) }
    {
        match &self.link {
            Link::Bounded(channel) => seen::answer(
                &watch,
                channel.table.is_closed(channel.table.new_seat()),
            ),
            Link::Unbounded(shared) => shared.is_closed(watch).0,
        }
    }

    /// Whether the channel holds no message.
    #[inline(always)]
    pub(crate) fn is_empty<S: Trace<T> + Copy>(&self, watch: S) -> bool
        ensures made { WasMade S.did S.shown S.entered S.called (handle_of self.now.link) ask.IsEmpty (reply.Flag result) }
    {
        match &self.link {
            Link::Bounded(channel) => seen::answer(
                &watch,
                channel.table.is_empty(channel.table.new_seat()),
            ),
            Link::Unbounded(shared) => shared.is_empty(watch).0,
        }
    }

    /// Whether the channel holds as many messages as it can; one without a bound never does.
    #[inline(always)]
    pub(crate) fn is_full<S: Trace<T> + Copy>(&self, watch: S) -> bool
        ensures made { WasMade S.did S.shown S.entered S.called (handle_of self.now.link) ask.IsFull (reply.Flag result) }
        ensures bound { room_of (handle_of self.now.link).form ≡ None → result ≡ false }
    {
        match &self.link {
            Link::Bounded(channel) => seen::answer(
                &watch,
                channel.table.is_full(channel.table.new_seat()),
            ),
            Link::Unbounded(shared) => shared.is_full(watch).0,
        }
    }

    /// Whether no message will come any more.
    #[inline(always)]
    pub(crate) fn is_terminated<S: Trace<T> + Copy>(&self, watch: S) -> bool
        ensures made { WasMade S.did S.shown S.entered S.called (handle_of self.now.link) ask.IsTerminated (reply.Flag result) }
    {
        match &self.link {
            Link::Bounded(channel) => seen::answer(
                &watch,
                channel.table.is_terminated(channel.table.new_seat()),
            ),
            Link::Unbounded(shared) => shared.is_terminated(watch).0,
        }
    }

    /// How many handles of this kind live.
    #[inline(always)]
    pub(crate) fn handle_count<S: Trace<T> + Copy>(&self, side: Side, watch: S) -> usize
        ensures made { WasMade S.did S.shown S.entered S.called (handle_of self.now.link) (ask.HandleCount side) (reply.Count result) }
    {
        match &self.link {
            Link::Bounded(channel) => seen::answer(
                &watch,
                channel.table.handle_count(channel.table.new_seat(), side),
            ),
            Link::Unbounded(shared) => shared.handle_count(side, watch).0,
        }
    }

    /// How many messages the channel can hold, if there is a bound. With one it touches no cell, so it is no call.
    #[inline(always)]
    pub(crate) fn capacity<S: Trace<T> + Copy>(&self, watch: S) -> Option<usize>
        ensures made { MatchOption (handle_of self.now.link).table (WasSeen S.did S.shown S.entered (handle_of self.now.link) (λ saw. WalkedTo saw (first ask.Capacity)) (reply.Cap result)) (λ _. Unit {0}) }
        ensures room { result ≡ room_of (handle_of self.now.link).form }
    {
        match &self.link {
            Link::Bounded(channel) => channel.table.capacity(),
            Link::Unbounded(shared) => shared.capacity(watch).0,
        }
    }
}
