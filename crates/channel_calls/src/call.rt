//! A call of a channel, which is made one step at a time. It owns what its operation lent it, and touches a channel only through the cells
//! that each step is given.

ghost use Rattle.std.specs.Prelude.{◌≡◌, true, Some};
ghost use Rattle.channel_calls.specs.Asks.{kept_by};
ghost use Rattle.channel_calls.specs.Moves.{IsNewCall};
ghost use Rattle.channel_calls.specs.Replies.{FollowsStage};
ghost use Rattle.channel_calls.specs.Marks.{is_up};
ghost use Rattle.channel_calls.specs.Deeds.{Done};
ghost use Rattle.channel_calls.specs.Walks.{ChannelMakes, Takes};
ghost use Rattle.concurrent_queue.specs.declared.cells.QueueForm.{QueueForm};

use crate::ask::ChannelAsk;
use crate::cells::ChannelCells;
use crate::mark::Mark;
use crate::reply::Reply;
use crate::stage::{Returned, Stage};
use crate::step::{Stepped, stage_step, takes};
use concurrent_queue::queue_call::QueueCall;
use event_listener::wakes::Wakes;
use std::mem;

/// A call of a channel under way, with what its operation lent it: a listener's key, a task, a message.
///
/// Each [`step`](ChannelCall::step) does one thing to the channel's cells: one step of a call of the queue, one critical section on one
/// wait queue, one operation on one count, or nothing.
pub struct ChannelCall<T, W> {
    pub(crate) stage: Stage<QueueCall<T>, T, W>,
    pub(crate) mark: Mark,
}

/// Written by hand, so that crates above prove nothing about the stages when they drop a call.
impl<T: Drop, W: Drop> Drop for ChannelCall<T, W> {
    fn drop(self) {
        let ChannelCall { stage, mark: _ } = self;
        drop(stage);
    }
}

impl<T: Drop, W: Drop> ChannelCall<T, W> {
    /// What the last step did to the channel; before the first step nothing. Cells that make all steps of the queue's call at once, as
    /// shared ones do, give it no mark: then it is `Nothing`, and the answer alone says what was done.
    pub fn last_mark(&self) -> Mark
        ensures { result ≡ self.now.mark }
    {
        self.mark
    }

    /// Makes the next step. Tasks that it wakes go to the sink in order. It gives the reply with the call's last step,
    /// and does nothing after that.
    ///
    /// Over any cells it does the one operation that the call's machine does at this stage, and goes by its answer. Where the contents are
    /// known, that operation is its whole effect on them, whatever other calls are under way. Where they are unknown, what may be answered
    /// after the step, and what it answers, might have been answered before it. A step that counts one handle more is its call's last, and
    /// answers that it was made: a clone or an upgrade that is refused has counted none.
    #[inline(always)]
    pub fn step<C: ChannelCells<T, W>, S: Wakes<W>>(
        &mut self,
        cells: &mut C,
        sink: &mut S,
    ) -> Option<Reply<T>>
        requires stands { C.stands self.old.stage cells.old }
        ensures deed { ChannelMakes (Done C.did S.wakes) self.old.stage (cells.old, sink.old) (cells.new, sink.new) self.new.mark self.new.stage result }
        ensures answers { (f : QueueForm) → C.has_form cells.old f → FollowsStage f self.old.stage self.new.stage result }
        ensures form { (f : QueueForm) → C.has_form cells.old f → C.has_form cells.new f }
        ensures raises { is_up self.new.mark ≡ true → result ≡ Some Reply.Made }
    {
        let stage = mem::replace(&mut self.stage, Stage::Finished(Returned::nothing()));
        let stepped = stage_step(stage, cells, sink);
        drop(mem::replace(&mut self.stage, stepped.stage));
        self.mark = stepped.mark;
        stepped.reply
    }
}

impl<T: Drop, W: Drop> ChannelCall<T, W> {
    ghost use Rattle.channel_calls.specs.Asks.{first, kept_by};
    ghost use Rattle.std.specs.Prelude.{Option};
    ghost use Rattle.channel_calls.specs.Replies.{MayEnd, ReplyAllowed};
    ghost use Rattle.channel_calls.specs.declared.reply.Reply.{Reply};

    /// The call that is asked for. It has made no step.
    #[inline(always)]
    pub fn new(ask: ChannelAsk<T, W>) -> ChannelCall<T, W>
        ensures begins { IsNewCall result (first ask) }
        ensures takes { Takes (first ask) result.stage None }
        ensures answers { (b : QueueForm) (r : Reply T) (m : Option T) → MayEnd b result.stage r m → ReplyAllowed b ask r m }
        ensures unmarked { result.mark ≡ Mark.Nothing }
    {
        let begun = takes(ask.first(), Mark::Nothing);
        let Stepped { stage, mark, reply } = begun;
        drop(reply);
        ChannelCall { stage, mark }
    }

    /// What a call that has answered leaves to its operation: the listener of a pending one, the message of an unfinished send. A call that
    /// has not answered is dropped, with what it holds.
    #[inline(always)]
    pub fn into_kept(self) -> Returned<T>
        ensures { result ≡ kept_by self.stage }
    {
        kept_by(self.into_stage())
    }

    /// The call's stage, with what it holds.
    #[inline(always)]
    pub(crate) fn into_stage(self) -> Stage<QueueCall<T>, T, W>
        ensures { result ≡ self.stage }
    {
        let ChannelCall { stage, mark: _ } = self;
        stage
    }
}

/// What a call at this stage leaves to its operation; one that has not answered is dropped.
#[inline(always)]
pub(crate) fn kept_by<T: Drop, W: Drop>(stage: Stage<QueueCall<T>, T, W>) -> Returned<T>
    ensures { result ≡ kept_by stage }
{
    match stage {
        Stage::Finished(kept) => kept,
        stage => {
            drop(stage);
            Returned::nothing()
        }
    }
}
