//! A call of a channel made up to its answer, over any cells. Other threads may make steps between its own; nothing else of this call comes
//! between them.

ghost use Rattle.concurrent_queue.specs.declared.cells.QueueForm.{QueueForm};
ghost use Rattle.channel_calls.specs.Asks.{first};
ghost use Rattle.channel_calls.specs.Deeds.{Done};
ghost use Rattle.channel_calls.specs.Replies.{MayEnd, ReplyAllowed};
ghost use Rattle.channel_calls.specs.Stands.{BeginsHere};
ghost use Rattle.channel_calls.specs.Walks.{Walked, WalkedFrom};

use crate::ask::ChannelAsk;
use crate::call::{ChannelCall, kept_by};
use crate::cells::ChannelCells;
use crate::reply::Reply;
use crate::stage::Returned;
use crate::step::{Stepped, stage_step};
use event_listener::wakes::Wakes;
use std::sync::Wait;

/// What a call answers, and what it leaves to its operation.
#[derive(Drop)]
pub struct Completed<T> {
    /// What it answers.
    pub reply: Reply<T>,
    /// What it leaves.
    pub kept: Returned<T>,
}

/// Makes the steps of a call up to its answer. With a call that has answered already it never returns.
///
/// Whatever the cells hold: what was done to them, and what the sink got, are the operations of the call's machine from here to this
/// answer, each with the answer that it gave, and nothing else.
pub fn complete<T: Drop, W: Drop, R: Wait, C: ChannelCells<T, W>, S: Wakes<W>>(
    rt: &R,
    call: ChannelCall<T, W>,
    cells: &mut C,
    sink: &mut S,
) -> Completed<T>
    requires stands { C.stands call.stage cells.old }
    ensures deeds { Walked (Done C.did S.wakes) call.stage (cells.old, sink.old) result.reply result.kept (cells.new, sink.new) }
    ensures answers { (f : QueueForm) → C.has_form cells.old f → MayEnd f call.stage result.reply result.kept.message }
    ensures form { (f : QueueForm) → C.has_form cells.old f → C.has_form cells.new f }
{
    let mut stage = call.into_stage();
    for _ in rt.forever() {
        let stepped = stage_step(stage, cells, sink);
        let Stepped {
            stage: next,
            mark: _,
            reply,
        } = stepped;
        match reply {
            Some(reply) => {
                let kept = kept_by(next);
                return Completed { reply, kept };
            }
            None => stage = next,
        }
    }
    unreachable!()
}

/// Makes a call from its first step up to its answer.
#[inline(always)]
pub fn make<T: Drop, W: Drop, R: Wait, C: ChannelCells<T, W>, S: Wakes<W>>(
    rt: &R,
    ask: ChannelAsk<T, W>,
    cells: &mut C,
    sink: &mut S,
) -> Completed<T>
    requires stands { BeginsHere C.stands (first ask) cells.old }
    ensures deeds { WalkedFrom (Done C.did S.wakes) (first ask) (cells.old, sink.old) result.reply result.kept (cells.new, sink.new) }
    ensures answers { (f : QueueForm) → C.has_form cells.old f → ReplyAllowed f ask result.reply result.kept.message }
    ensures form { (f : QueueForm) → C.has_form cells.old f → C.has_form cells.new f }
{
    complete(rt, ChannelCall::new(ask), cells, sink)
}
