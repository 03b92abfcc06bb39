//! What a channel counts of its strong handles, carried by a value from the step that raises a count to the one that lowers it.
//!
//! A [`Raised`] can't be dropped, copied or made anew: a clone and an upgrade return one when they have counted, a drop takes it and lowers
//! the count, and nothing else can take it apart. So a body that counts and then refuses, that returns a handle which it didn't count, or
//! that never lowers what it counted does not type-check. The first two of a channel come with new [`Counters`], and with nothing else.
//! What a body could still do is open whole new counters for the sake of their first two values.

ghost use Rattle.std.specs.Prelude.{◌≡◌, IfErr};
ghost use Rattle.channel_calls.specs.Asks.{first};
ghost use Rattle.channel_calls.specs.Calls.{made_answer, upgraded_answer};
ghost use Rattle.channel_calls.specs.Deeds.{Done};
ghost use Rattle.channel_calls.specs.Stands.{BeginsHere};
ghost use Rattle.channel_calls.specs.Walks.{Walked, WalkedTo};
ghost use Rattle.channel_calls.specs.declared.ask.ChannelAsk.TheVariants as ask;
ghost use Rattle.channel_calls.specs.declared.reply.Reply.{Reply as Answer};
ghost use Rattle.channel_calls.specs.declared.stage.Returned.{Returned as Left};

use crate::ask::ChannelAsk;
use crate::call::ChannelCall;
use crate::cells::ChannelCells;
use crate::error::HandleError;
use crate::fast_path::turned;
use crate::kind::{Kind, OfReceivers, OfSenders};
use crate::mark::Mark;
use crate::reply::Reply;
use crate::stage::{ListStep, Making, NextStep, Side, Stage};
use crate::turn::{is_too_many, lowered_next};
use crate::whole::{Completed, complete, make};
use crossbeam_utils::CachePadded;
use event_listener::key::Key;
use event_listener::wakes::Wakes;
use std::marker::{Model, PhantomData};
use std::sync::Wait;
use std::sync::atomic::AtomicUsize;

/// One strong handle of this kind that a channel counts. It has no bytes and no drop: its owner has to give it to a handle, or to
/// [`drop_sender`] or [`drop_receiver`].
pub struct Raised<K: Kind> {
    one: (),
    kind: PhantomData<K>,
}

impl<K: Kind> Model for Raised<K> {
    ghost Value = { Unit {0} };

    ghost view = { λ _. tt };
}

/// The two counts of a channel, which threads share. Each begins at one.
#[derive(Drop)]
pub struct Counters {
    senders: CachePadded<AtomicUsize>,
    receivers: CachePadded<AtomicUsize>,
}

/// The right to the first two handles of a channel, which its counts have from the start. It can't be copied, and is dropped if the opening
/// is refused: nobody has a handle then.
#[derive(Drop)]
pub struct Opening {
    first: (),
}

impl Counters {
    /// New counts of one sender and of one receiver, and the right to these two.
    pub fn new() -> (Counters, Opening) {
        let counters = Counters {
            senders: CachePadded::new(AtomicUsize::new(1)),
            receivers: CachePadded::new(AtomicUsize::new(1)),
        };
        (counters, Opening { first: () })
    }

    /// The count of this kind of handles.
    pub fn of(&self, side: Side) -> &AtomicUsize {
        match side {
            Side::Senders => &self.senders,
            Side::Receivers => &self.receivers,
        }
    }
}

impl Opening {
    /// The same right of a channel that keeps its counts as words of its own, which begin at one each.
    pub fn of_words() -> Opening {
        Opening { first: () }
    }

    /// The first sender and the first receiver, as they are counted.
    pub fn handles(self) -> (Raised<OfSenders>, Raised<OfReceivers>) {
        let Opening { first } = self;
        let senders = Raised {
            one: first,
            kind: PhantomData,
        };
        let receivers = Raised {
            one: first,
            kind: PhantomData,
        };
        (senders, receivers)
    }
}

/// One more of these handles, made when a count was raised for it.
#[inline(always)]
fn one_more<K: Kind>() -> Raised<K> {
    Raised {
        one: (),
        kind: PhantomData,
    }
}

/// What a clone answers.
fn made_answer<K: Kind, T: Drop>(answer: Reply<T>) -> Result<Raised<K>, HandleError>
    ensures { result ≡ made_answer answer }
{
    match answer {
        Reply::Made => Ok(one_more()),
        _ => Err(HandleError::TooMany),
    }
}

/// What an upgrade answers.
fn upgraded_answer<K: Kind, T: Drop>(answer: Reply<T>) -> Result<Option<Raised<K>>, HandleError>
    ensures { result ≡ upgraded_answer answer }
{
    match answer {
        Reply::Made => Ok(Some(one_more())),
        Reply::NotMade => Ok(None),
        _ => Err(HandleError::TooMany),
    }
}

/// The steps of a clone after another handle came in between: the count is read again.
#[inline(never)]
fn count_again<T: Drop, W: Drop, R: Wait, C: ChannelCells<T, W>, S: Wakes<W>>(
    rt: &R,
    side: Side,
    cells: &mut C,
    sink: &mut S,
) -> Reply<T>
    requires stands { C.stands (Stage.Working (ListStep.Load side Making.Clone)) cells.old }
    ensures deeds { (kept : Left T) × Walked (Done C.did S.wakes) (Stage.Working (ListStep.Load side Making.Clone)) (cells.old, sink.old) result kept (cells.new, sink.new) }
{
    let call = ChannelCall {
        stage: Stage::Working(ListStep::Load(side, Making::Clone)),
        mark: Mark::Nothing,
    };
    let Completed { reply, kept } = complete(rt, call, cells, sink);
    drop(kept);
    reply
}

/// Counts one more strong handle of this kind. `Err`, with nothing changed, if more than half of `usize::MAX` live. It takes two operations
/// if no other handle comes in between.
pub fn clone_handle<K: Kind, T: Drop, W: Drop, R: Wait, C: ChannelCells<T, W>, S: Wakes<W>>(
    rt: &R,
    cells: &mut C,
    sink: &mut S,
) -> Result<Raised<K>, HandleError>
    requires stands { BeginsHere C.stands (first (ask.CloneHandle K.side)) cells.old }
    ensures deeds { (r : Answer T) × WalkedTo (Done C.did S.wakes) (first (ask.CloneHandle K.side)) (cells.old, sink.old) r (cells.new, sink.new) × (result ≡ made_answer r) }
    ensures reason { IfErr result (λ e. e ≡ HandleError.TooMany) }
{
    let side = K::side();
    // The fast path of a clone that meets no other, which saves storing the stage from step to step.
    let count = cells.count(side);
    if is_too_many(count) {
        return Err(HandleError::TooMany);
    }
    // An exchange: the limit was tested of this count, and of no other.
    if cells.raise(side, count) {
        return Ok(one_more());
    }
    made_answer(count_again(rt, side, cells, sink))
}

/// Counts one more strong handle of this kind if the channel is open and one lives; otherwise `None`. `Err` as for a clone.
pub fn upgrade<K: Kind, T: Drop, W: Drop, R: Wait, C: ChannelCells<T, W>, S: Wakes<W>>(
    rt: &R,
    cells: &mut C,
    sink: &mut S,
) -> Result<Option<Raised<K>>, HandleError>
    requires stands { BeginsHere C.stands (first (ask.Upgrade K.side)) cells.old }
    ensures deeds { (r : Answer T) × WalkedTo (Done C.did S.wakes) (first (ask.Upgrade K.side)) (cells.old, sink.old) r (cells.new, sink.new) × (result ≡ upgraded_answer r) }
    ensures reason { IfErr result (λ e. e ≡ HandleError.TooMany) }
{
    let given = make(rt, ChannelAsk::Upgrade(K::side()), cells, sink);
    upgraded_answer(given.reply)
}

/// Drops a strong handle, with the listener that a receiver may have as a stream. It is one operation if others of its kind live and it has
/// none.
fn lowered<T: Drop, W: Drop, R: Wait, C: ChannelCells<T, W>, S: Wakes<W>>(
    rt: &R,
    side: Side,
    stream_key: Option<Key>,
    cells: &mut C,
    sink: &mut S,
)
    requires stands { BeginsHere C.stands (NextStep.Works (ListStep.Lower side stream_key)) cells.old }
    ensures deeds { (r : Answer T) × WalkedTo (Done C.did S.wakes) (NextStep.Works (ListStep.Lower side stream_key)) (cells.old, sink.old) r (cells.new, sink.new) }
{
    // Lowers and reads in one operation: of two drops at once only one finds that it was the last, and closes.
    let before = cells.lower(side);
    if before != 1 && stream_key.is_none() {
        return;
    }
    match turned(lowered_next(side, stream_key, before), Mark::down(side)) {
        Ok(reply) => drop(reply),
        Err(call) => drop(complete(rt, call, cells, sink)),
    }
}

/// Drops a sender: its count is lowered, and the last one closes.
pub fn drop_sender<T: Drop, W: Drop, R: Wait, C: ChannelCells<T, W>, S: Wakes<W>>(
    rt: &R,
    raised: Raised<OfSenders>,
    cells: &mut C,
    sink: &mut S,
)
    requires stands { BeginsHere C.stands (first ask.DropSender) cells.old }
    ensures deeds { (r : Answer T) × WalkedTo (Done C.did S.wakes) (first ask.DropSender) (cells.old, sink.old) r (cells.new, sink.new) }
{
    let Raised { one: _, kind: _ } = raised;
    lowered(rt, Side::Senders, None, cells, sink);
}

/// Drops a receiver, which may have a listener as a stream: its count is lowered, and the last one closes before that listener leaves.
pub fn drop_receiver<T: Drop, W: Drop, R: Wait, C: ChannelCells<T, W>, S: Wakes<W>>(
    rt: &R,
    raised: Raised<OfReceivers>,
    stream_key: Option<Key>,
    cells: &mut C,
    sink: &mut S,
)
    requires stands { BeginsHere C.stands (first (ask.DropReceiver stream_key)) cells.old }
    ensures deeds { (r : Answer T) × WalkedTo (Done C.did S.wakes) (first (ask.DropReceiver stream_key)) (cells.old, sink.old) r (cells.new, sink.new) }
{
    let Raised { one: _, kind: _ } = raised;
    lowered(rt, Side::Receivers, stream_key, cells, sink);
}
