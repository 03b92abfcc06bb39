//! The opening of a channel. Memory is taken before identities, so a refusal takes nothing; and only an opening makes the first two
//! handles, which the counts have from the start.
//!
//! # Extensions
//!
//! `bounded_watched` and `unbounded_watched`; and the refusals, where `async-channel` 2.5.0 aborts, and panics at a capacity of 0.

pub(crate) mod no_trace;

ghost use Rattle.std.specs.Prelude.{◌≡◌, ◌+◌, ◌-◌, ◌^◌, ◌<◌, ◌≤◌, Some, None, IfOk, OnOk, OnErr, Err, IsSome};
ghost use Rattle.concurrent_queue.specs.Replies.{room_of};
ghost use Rattle.channel_calls.specs.declared.stage.Side.TheVariants.{Senders, Receivers};
ghost use Rattle.async_channel.specs.Handles.{handle_of, new_receiving};
ghost use Rattle.async_channel.specs.Parties.{IsHandleOf};

use crate::counted::Counted;
use crate::handles::receiver::Receiver;
use crate::handles::sender::Sender;
use crate::link::Link;
use crate::open::no_trace::NoTrace;
use crate::seen::Trace;
use crate::shared::Shared;
use crate::with_bound::{Bounded, Witness};
use channel_calls::error::OpenError;
use channel_calls::raised::{Counters, Opening};
use concurrent_queue::shared::queue::ConcurrentQueue;
use event_listener::id::EventIds;
use kept::Kept;
use std::alloc::Global;
use std::sync::{Arc, Wait};

/// More places than any memory has.
const MOST: usize = 1 << 58;

/// The two handles of a new channel. Their memory is taken first, then the four identities.
///
/// An identity that was taken can't be given back, so the shared part is made with the number that the first one is going to have.
fn open<T: Drop, R: Wait + Copy, S: Trace<T> + Copy>(
    rt: R,
    link: Link<T>,
    opening: Opening,
    seats: (Option<Kept<Witness<T>>>, Option<Kept<Witness<T>>>),
    ids: &mut EventIds,
    watch: S,
) -> Result<(Sender<T, R, S>, Receiver<T, R, S>), OpenError>
    requires sender { IsHandleOf Senders (handle_of link).table seats.0 }
    requires receiver { IsHandleOf Receivers (handle_of link).table seats.1 }
    ensures channel { IfOk result (λ ends. ends.0 ≡ handle_of link) }
    ensures receiver { IfOk result (λ ends. ends.1 ≡ new_receiving ends.0) }
    ensures given { OnOk result (ids.new ≡ ids.old + 4) }
    ensures unchanged { OnErr result (ids.new ≡ ids.old) }
    ensures used_up { result ≡ Err OpenError.IdsUsedUp → 2 ^ 64 - 1 < ids.old + 4 }
{
    let Some(other) = link.try_clone() else {
        return Err(OpenError::NoMemory);
    };
    let Ok(four) = ids.next_four() else {
        return Err(OpenError::IdsUsedUp);
    };
    drop(four);
    let (first, second) = opening.handles();
    Ok((
        Sender::new(rt, watch, Counted::first(link, first, seats.0)),
        Receiver::new(rt, watch, Counted::first(other, second, seats.1)),
    ))
}

/// Opens a channel that holds at most `capacity` messages: its first sender and its first receiver.
///
/// Its four identities come from `ids`, which channels that are compared have in common. `Err` if there is no memory for its places (above
/// 2^58 none is asked for) or, after that, if fewer than four identities are left; nothing is taken from `ids` then. It never waits. A
/// capacity of 0 can't be asked for.
///
/// ```rust
/// let (sender, receiver) = bounded(rt, alloc, 2, ids).ok()?;
/// sender.try_send(1).ok()?;
/// receiver.capacity() == Some(2) && receiver.len() == 1 // true
/// ```
pub fn bounded<T: Drop, R: Wait + Copy>(
    rt: R,
    alloc: Global,
    capacity: usize,
    ids: &mut EventIds,
) -> Result<(Sender<T, R>, Receiver<T, R>), OpenError>
    requires { 0 < capacity }
    ensures capacity { IfOk result (λ ends. room_of ends.0.form ≡ Some capacity) }
    ensures table { IfOk result (λ ends. IsSome ends.0.table) }
    ensures receiver { IfOk result (λ ends. ends.1 ≡ new_receiving ends.0) }
    ensures most { OnOk result (capacity ≤ 2 ^ 58) }
    ensures named { IfOk result (λ ends. ends.0.id ≡ ids.old) }
    ensures given { OnOk result (ids.new ≡ ids.old + 4) }
    ensures unchanged { OnErr result (ids.new ≡ ids.old) }
    ensures used_up { result ≡ Err OpenError.IdsUsedUp → 2 ^ 64 - 1 < ids.old + 4 }
{
    bounded_watched(rt, alloc, capacity, ids, NoTrace::new())
}

/// Opens a channel that holds any number of messages: its first sender and its first receiver. `Err` as of [`bounded`]. It never waits.
///
/// ```rust
/// let (sender, receiver) = unbounded(rt, alloc, ids).ok()?;
/// sender.try_send(1).ok()?;
/// receiver.capacity().is_none() && !sender.is_full() // true
/// ```
pub fn unbounded<T: Drop, R: Wait + Copy>(
    rt: R,
    alloc: Global,
    ids: &mut EventIds,
) -> Result<(Sender<T, R>, Receiver<T, R>), OpenError>
    ensures capacity { IfOk result (λ ends. room_of ends.0.form ≡ None) }
    ensures table { IfOk result (λ ends. ends.0.table ≡ None) }
    ensures receiver { IfOk result (λ ends. ends.1 ≡ new_receiving ends.0) }
    ensures named { IfOk result (λ ends. ends.0.id ≡ ids.old) }
    ensures given { OnOk result (ids.new ≡ ids.old + 4) }
    ensures unchanged { OnErr result (ids.new ≡ ids.old) }
    ensures used_up { result ≡ Err OpenError.IdsUsedUp → 2 ^ 64 - 1 < ids.old + 4 }
{
    unbounded_watched(rt, alloc, ids, NoTrace::new())
}

/// [`bounded`] with a trace: each call of the channel's handles takes a copy of this value, and reports to it what it does to the channel.
/// A trace that refers to a log gets all calls of all threads there.
///
/// ```text
/// let (sender, receiver) = bounded_watched(rt, alloc, 2, ids, Watcher { log: &log })?;
/// ```
pub fn bounded_watched<T: Drop, R: Wait + Copy, S: Trace<T> + Copy>(
    rt: R,
    alloc: Global,
    capacity: usize,
    ids: &mut EventIds,
    watch: S,
) -> Result<(Sender<T, R, S>, Receiver<T, R, S>), OpenError>
    requires { 0 < capacity }
    ensures capacity { IfOk result (λ ends. room_of ends.0.form ≡ Some capacity) }
    ensures table { IfOk result (λ ends. IsSome ends.0.table) }
    ensures receiver { IfOk result (λ ends. ends.1 ≡ new_receiving ends.0) }
    ensures most { OnOk result (capacity ≤ 2 ^ 58) }
    ensures named { IfOk result (λ ends. ends.0.id ≡ ids.old) }
    ensures given { OnOk result (ids.new ≡ ids.old + 4) }
    ensures unchanged { OnErr result (ids.new ≡ ids.old) }
    ensures used_up { result ≡ Err OpenError.IdsUsedUp → 2 ^ 64 - 1 < ids.old + 4 }
{
    if capacity > MOST {
        return Err(OpenError::NoMemory);
    }
    let Ok((channel, sender, receiver)) = Bounded::open(alloc, capacity, ids.given()) else {
        return Err(OpenError::NoMemory);
    };
    let Ok(channel) = Arc::new(alloc, channel) else {
        return Err(OpenError::NoMemory);
    };
    let seats = (Some(Kept::new(sender)), Some(Kept::new(receiver)));
    open(
        rt,
        Link::Bounded(channel),
        Opening::of_words(),
        seats,
        ids,
        watch,
    )
}

/// [`unbounded`] with a trace, as [`bounded_watched`].
pub fn unbounded_watched<T: Drop, R: Wait + Copy, S: Trace<T> + Copy>(
    rt: R,
    alloc: Global,
    ids: &mut EventIds,
    watch: S,
) -> Result<(Sender<T, R, S>, Receiver<T, R, S>), OpenError>
    ensures capacity { IfOk result (λ ends. room_of ends.0.form ≡ None) }
    ensures table { IfOk result (λ ends. ends.0.table ≡ None) }
    ensures receiver { IfOk result (λ ends. ends.1 ≡ new_receiving ends.0) }
    ensures named { IfOk result (λ ends. ends.0.id ≡ ids.old) }
    ensures given { OnOk result (ids.new ≡ ids.old + 4) }
    ensures unchanged { OnErr result (ids.new ≡ ids.old) }
    ensures used_up { result ≡ Err OpenError.IdsUsedUp → 2 ^ 64 - 1 < ids.old + 4 }
{
    let Ok(queue) = ConcurrentQueue::unbounded(alloc) else {
        return Err(OpenError::NoMemory);
    };
    let (counters, opening) = Counters::new();
    let Ok(shared) = Arc::new(alloc, Shared::new(alloc, queue, counters, ids.given())) else {
        return Err(OpenError::NoMemory);
    };
    open(
        rt,
        Link::Unbounded(shared),
        opening,
        (None, None),
        ids,
        watch,
    )
}
