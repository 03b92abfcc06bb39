//! One step of a channel's call: one step of its queue's call, one critical section on a wait queue, or one operation on a count.

ghost use Rattle.std.specs.Prelude.{◌≡◌, None, true, false};
ghost use Rattle.channel_calls.specs.Turns.{leaving, answer_of};
ghost use Rattle.channel_calls.specs.Marks.{is_up, is_made};
ghost use Rattle.channel_calls.specs.Replies.{FollowsTurn, FollowsStage};
ghost use Rattle.concurrent_queue.specs.declared.cells.QueueForm.{QueueForm};
ghost use Rattle.channel_calls.specs.Deeds.{Done};
ghost use Rattle.channel_calls.specs.Walks.{Takes, ChannelMakes};

use crate::answered::answered_next;
use crate::cells::ChannelCells;
use crate::mark::Mark;
use crate::reply::Reply;
use crate::stage::{
    Ending, ListStep, Making, NextStep, Purpose, Returned, Side, Stage, Telling, WaitList, Waiting,
};
use crate::turn::{
    again, ends_by, loaded_next, lowered_next, pends_by, raised_next, room_next, told_all_next,
    unlistened,
};
use concurrent_queue::queue_call::QueueCall;
use event_listener::key::Key;
use event_listener::wakes::Wakes;

/// What one step leaves. A step that counts one handle more answers that it was made, so a call that is refused has counted none.
#[derive(Drop)]
pub(crate) struct Stepped<T, W> {
    pub(crate) stage: Stage<QueueCall<T>, T, W>,
    pub(crate) mark: Mark,
    pub(crate) reply: Option<Reply<T>>,
    ghost raises: { is_up mark ≡ true → is_made reply ≡ true },
}

/// Goes on as decided, after a step with this mark.
#[inline(always)]
pub(crate) fn takes<T: Drop, W: Drop>(turn: NextStep<T, W>, mark: Mark) -> Stepped<T, W>
    requires raises { is_up mark ≡ true → is_made (answer_of turn) ≡ true }
    ensures goes { Takes turn result.stage result.reply }
    ensures mark { result.mark ≡ mark }
    ensures follows { (b : QueueForm) → FollowsTurn b turn result.stage result.reply }
{
    match turn {
        NextStep::Tries(ask, purpose) => Stepped {
            stage: Stage::Trying(QueueCall::new(ask), purpose),
            mark,
            reply: None,
        },
        NextStep::Works(work) => Stepped {
            stage: Stage::Working(work),
            mark,
            reply: None,
        },
        NextStep::Ends(reply, kept) => Stepped {
            stage: Stage::Finished(kept),
            mark,
            reply: Some(reply),
        },
    }
}

/// The call is at this stage after a step with this mark, and hasn't answered by it.
#[inline(always)]
fn goes_on<T, W>(stage: Stage<QueueCall<T>, T, W>, mark: Mark) -> Stepped<T, W>
    requires raises { is_up mark ≡ false }
    ensures stage { result.stage ≡ stage }
    ensures mark { result.mark ≡ mark }
    ensures reply { result.reply ≡ None }
{
    Stepped {
        stage,
        mark,
        reply: None,
    }
}

/// One step of the queue's call.
#[inline(always)]
fn try_step<T: Drop, W: Drop, C: ChannelCells<T, W>>(
    mut call: QueueCall<T>,
    purpose: Purpose<T, W>,
    cells: &mut C,
) -> Stepped<T, W>
    requires stands { C.stands (Stage.Trying call purpose) cells.old }
    ensures deed { ChannelMakes C.did (Stage.Trying call purpose) cells.old cells.new result.mark result.stage result.reply }
    ensures answers { (f : QueueForm) → C.has_form cells.old f → FollowsStage f (Stage.Trying call purpose) result.stage result.reply }
    ensures form { (f : QueueForm) → C.has_form cells.old f → C.has_form cells.new f }
{
    // The queue first, and all notifications after its answer: a receive that is notified before the message is in finds nothing and pends
    // again, and then the message lies there with nobody awake.
    let answer = cells.step_queue(&mut call);
    let mark = Mark::of_queue(call.last_mark());
    match answer {
        None => goes_on(Stage::Trying(call, purpose), mark),
        Some(answer) => {
            drop(call);
            takes(answered_next(purpose, answer), mark)
        }
    }
}

/// A poll that was refused adds its listener and tries again, or the list refuses it.
fn insert<T: Drop, W: Drop, C: ChannelCells<T, W>>(
    waiting: Waiting<T>,
    task: W,
    cells: &mut C,
) -> Stepped<T, W>
    requires stands { C.stands (Stage.Working (ListStep.Insert waiting task)) cells.old }
    ensures deed { ChannelMakes C.did (Stage.Working (ListStep.Insert waiting task)) cells.old cells.new result.mark result.stage result.reply }
    ensures answers { (b : QueueForm) → FollowsStage b (Stage.Working (ListStep.Insert waiting task)) result.stage result.reply }
    ensures form { (f : QueueForm) → C.has_form cells.old f → C.has_form cells.new f }
{
    // List, then try again: what came free between the first try and this step notified nobody. Whatever comes free from here on reaches
    // the listener.
    match cells.insert(waiting.line()) {
        Ok(key) => takes(again(waiting, Some(key), task), Mark::Nothing),
        Err(error) => takes(unlistened(waiting, error), Mark::Nothing),
    }
}

/// A poll that was refused asks its listener: one that was told is used up and the poll tries again; otherwise it ends pending.
fn register<T: Drop, W: Drop, C: ChannelCells<T, W>>(
    waiting: Waiting<T>,
    key: Key,
    task: W,
    cells: &mut C,
) -> Stepped<T, W>
    requires stands { C.stands (Stage.Working (ListStep.Register waiting key task)) cells.old }
    ensures deed { ChannelMakes C.did (Stage.Working (ListStep.Register waiting key task)) cells.old cells.new result.mark result.stage result.reply }
    ensures answers { (b : QueueForm) → FollowsStage b (Stage.Working (ListStep.Register waiting key task)) result.stage result.reply }
    ensures form { (f : QueueForm) → C.has_form cells.old f → C.has_form cells.new f }
{
    // One critical section asks the listener and registers the task: a notification in between would wake nobody.
    match cells.register(waiting.line(), key, task) {
        Some(task) => takes(again(waiting, None, task), Mark::Nothing),
        None => takes(pends_by(waiting, key), Mark::Nothing),
    }
}

/// A call answers, with nothing more to do.
fn answers<T: Drop, W: Drop>(ending: Ending<T>) -> Stepped<T, W>
    ensures goes { Takes (NextStep.Ends ending.reply (leaving None ending.message)) result.stage result.reply }
    ensures mark { result.mark ≡ Mark.Nothing }
    ensures follows { (b : QueueForm) → FollowsTurn b (NextStep.Ends ending.reply (leaving None ending.message)) result.stage result.reply }
{
    let kept = Returned {
        key: None,
        message: ending.message,
    };
    takes(NextStep::Ends(ending.reply, kept), Mark::Nothing)
}

/// A call drops the listener that it holds, and answers.
fn leave<T: Drop, W: Drop, C: ChannelCells<T, W>, S: Wakes<W>>(
    ending: Ending<T>,
    cells: &mut C,
    sink: &mut S,
) -> Stepped<T, W>
    requires stands { C.stands (Stage.Working (ListStep.Leave ending)) cells.old }
    ensures deed { ChannelMakes (Done C.did S.wakes) (Stage.Working (ListStep.Leave ending)) (cells.old, sink.old) (cells.new, sink.new) result.mark result.stage result.reply }
    ensures answers { (b : QueueForm) → FollowsStage b (Stage.Working (ListStep.Leave ending)) result.stage result.reply }
    ensures form { (f : QueueForm) → C.has_form cells.old f → C.has_form cells.new f }
{
    match ending.held {
        None => answers(ending),
        Some(held) => {
            // If the listener was told, this passes its notification on: the call can't know whether anybody else was notified for what is
            // left.
            cells.remove(held.line, held.key, sink);
            answers(ending)
        }
    }
}

/// A strong handle is dropped.
fn lower<T: Drop, W: Drop, C: ChannelCells<T, W>>(
    side: Side,
    key: Option<Key>,
    cells: &mut C,
) -> Stepped<T, W>
    requires stands { C.stands (Stage.Working (ListStep.Lower side key)) cells.old }
    ensures deed { ChannelMakes C.did (Stage.Working (ListStep.Lower side key)) cells.old cells.new result.mark result.stage result.reply }
    ensures answers { (b : QueueForm) → FollowsStage b (Stage.Working (ListStep.Lower side key)) result.stage result.reply }
    ensures form { (f : QueueForm) → C.has_form cells.old f → C.has_form cells.new f }
{
    // Lowers and reads in one operation: of two drops at once only one finds that it was the last, and closes.
    let before = cells.lower(side);
    takes(lowered_next(side, key, before), Mark::down(side))
}

/// A count is raised, unless it has changed.
fn raise<T: Drop, W: Drop, C: ChannelCells<T, W>>(
    side: Side,
    from: usize,
    making: Making,
    cells: &mut C,
) -> Stepped<T, W>
    requires stands { C.stands (Stage.Working (ListStep.Raise side from making)) cells.old }
    ensures deed { ChannelMakes C.did (Stage.Working (ListStep.Raise side from making)) cells.old cells.new result.mark result.stage result.reply }
    ensures answers { (b : QueueForm) → FollowsStage b (Stage.Working (ListStep.Raise side from making)) result.stage result.reply }
    ensures form { (f : QueueForm) → C.has_form cells.old f → C.has_form cells.new f }
{
    // An exchange: the limit, and for an upgrade that a handle lives, were tested of `from`, and of no other number.
    if cells.raise(side, from) {
        takes(raised_next(side, making, true), Mark::up(side))
    } else {
        takes(raised_next(side, making, false), Mark::Nothing)
    }
}

/// One step on a list or a count.
#[inline(always)]
fn work_step<T: Drop, W: Drop, C: ChannelCells<T, W>, S: Wakes<W>>(
    work: ListStep<T, W>,
    cells: &mut C,
    sink: &mut S,
) -> Stepped<T, W>
    requires stands { C.stands (Stage.Working work) cells.old }
    ensures deed { ChannelMakes (Done C.did S.wakes) (Stage.Working work) (cells.old, sink.old) (cells.new, sink.new) result.mark result.stage result.reply }
    ensures answers { (b : QueueForm) → FollowsStage b (Stage.Working work) result.stage result.reply }
    ensures form { (f : QueueForm) → C.has_form cells.old f → C.has_form cells.new f }
{
    match work {
        ListStep::TellReceive(ending) => {
            // One more, not at least one: a second message would then notify nobody while the first notified receive has not polled.
            cells.tell(WaitList::Receives, Telling::One, sink);
            takes(
                NextStep::Works(ListStep::TellStreams(ending)),
                Mark::Nothing,
            )
        }
        ListStep::TellStreams(ending) => {
            // All of them: beside a message a stream may wait only while a send is in flight.
            cells.tell(WaitList::Streams, Telling::All, sink);
            takes(ends_by(ending), Mark::Nothing)
        }
        ListStep::TellSend(ending) => {
            // One more send for the place that came free, as for receives.
            cells.tell(WaitList::Sends, Telling::One, sink);
            takes(ends_by(ending), Mark::Nothing)
        }
        ListStep::TellSends(count, ending) => {
            // One critical section for all places that came free.
            cells.tell(WaitList::Sends, Telling::More(count), sink);
            takes(ends_by(ending), Mark::Nothing)
        }
        ListStep::TakeRoom(limit) => takes(room_next(limit), Mark::Nothing),
        ListStep::TellAll(line, closer) => {
            // The closed mark was set before: a listener that is notified earlier could find the channel open and pend again.
            cells.tell(line, Telling::All, sink);
            takes(told_all_next(line, closer), Mark::Nothing)
        }
        ListStep::Insert(waiting, task) => insert(waiting, task, cells),
        ListStep::Register(waiting, key, task) => register(waiting, key, task, cells),
        ListStep::Leave(ending) => leave(ending, cells, sink),
        ListStep::Lower(side, key) => lower(side, key, cells),
        ListStep::Count(side) => {
            // One load is the whole question: the count at that moment.
            let count = cells.count(side);
            takes(
                NextStep::Ends(Reply::Count(count), Returned::nothing()),
                Mark::Nothing,
            )
        }
        ListStep::Load(side, making) => {
            // Only read: the exchange that raises the count fails if it has changed since.
            let count = cells.count(side);
            takes(loaded_next(side, making, count), Mark::Nothing)
        }
        ListStep::Raise(side, from, making) => raise(side, from, making, cells),
    }
}

/// One step of a call at this stage.
#[inline(always)]
pub(crate) fn stage_step<T: Drop, W: Drop, C: ChannelCells<T, W>, S: Wakes<W>>(
    stage: Stage<QueueCall<T>, T, W>,
    cells: &mut C,
    sink: &mut S,
) -> Stepped<T, W>
    requires stands { C.stands stage cells.old }
    ensures deed { ChannelMakes (Done C.did S.wakes) stage (cells.old, sink.old) (cells.new, sink.new) result.mark result.stage result.reply }
    ensures answers { (f : QueueForm) → C.has_form cells.old f → FollowsStage f stage result.stage result.reply }
    ensures form { (f : QueueForm) → C.has_form cells.old f → C.has_form cells.new f }
{
    match stage {
        Stage::Trying(call, purpose) => try_step(call, purpose, cells),
        Stage::Working(work) => work_step(work, cells, sink),
        Stage::Finished(kept) => goes_on(Stage::Finished(kept), Mark::Nothing),
    }
}
