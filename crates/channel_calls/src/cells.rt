//! What a channel's steps work on. The trait [`ChannelCells`] is the only way in which a call touches a channel.

ghost use Rattle.std.specs.Prelude.{ℕ, Bool, List, Option, Result};
ghost use Rattle.event_listener.specs.Notices.{Woken};
ghost use Rattle.concurrent_queue.specs.Replies.{Follows};
ghost use Rattle.concurrent_queue.specs.declared.call.QueueReply.{QueueReply as QueueAnswer};
ghost use Rattle.concurrent_queue.specs.declared.queue_call.QueueCall.{QueueCall as Call};
ghost use Rattle.event_listener.specs.declared.error.ListenError.{ListenError as Refusal};
ghost use Rattle.event_listener.specs.declared.key.Key.{Key as Name};
ghost use Rattle.channel_calls.specs.Parts.{Parts};
ghost use Rattle.channel_calls.specs.Deeds.{Deed, stepped, inserted, registered, taken_off, told, counted, lowered, raised};
ghost use Rattle.channel_calls.specs.Effects.{IsExact};
ghost use Rattle.channel_calls.specs.Stands.{MayGoOn, GoesOn, StaysOn};
ghost use Rattle.channel_calls.specs.declared.stage.Stage.{Stage};

use crate::stage::{Side, Telling, WaitList};
use concurrent_queue::call::QueueReply;
use concurrent_queue::queue_call::QueueCall;
use event_listener::error::ListenError;
use event_listener::key::Key;
use event_listener::wakes::Wakes;

/// The cells of a channel. Each method makes steps of a call of its queue, one critical section on one of its four wait queues, or one
/// operation on one of its two counts. Cells whose contents are known make one step of the queue's call; shared ones make all that are
/// left, and steps of other calls may come in between.
///
/// The contract of a method says which operation it did, with its answer. Over cells of one owner that is its whole effect, by the law
/// `exact`. Over shared cells nothing is known of the contents but the form of the queue, which says what a step of its call may answer.
/// `known` tells the two apart.
///
/// Each method requires that the operation may be done, whatever it is answered. A caller that makes the steps of a call has this from the
/// call's stage, by the laws `ready`, `leads` and `rests`. Cells of one owner allow every operation, and need no line for `may` and
/// `stands`.
pub trait ChannelCells<T, W> {
    ghost use Rattle.concurrent_queue.specs.declared.cells.QueueForm.{QueueForm};

    /// Whether what the cells hold is known.
    ghost known: { Type 0 };

    /// The queue's cells, the lists and the counts.
    ghost parts: { Self → Parts T W };

    /// Which form the queue is said to have; no step changes it. Cells that say nothing here have none. Cells of one owner say theirs, so
    /// that the functions that handles run can be called over them too.
    ghost has_form: { Self → QueueForm → Type 0 } = { λ _ _. ⊥ };

    /// Whether this operation, with this answer, was done between these two. Any relation may stand here: a function that promises over any
    /// cells that such operations were done has called the methods that do them, in that order.
    ghost did: { Deed T W → Self → Self → Type 0 } = { λ _ _ _. Unit {0} };

    /// Whether this operation may be done and be answered so. The question for the capacity is asked as any other, though it touches no
    /// cell: cells that go by a view leave it as it is then, and count that step of the queue's call with those that do no operation.
    ghost may: { Deed T W → Self → Type 0 } = { λ _ _. Unit {0} };

    /// Whether the call whose cells these are is at this stage of its machine. Where any operation is allowed, every call is.
    ghost stands: { Stage (Call T) T W → Self → Type 0 } = { λ _ _. Unit {0} };

    /// Where the contents are known, an operation did just this to them, and this was its answer.
    ghost exact: { known → IsExact did parts };

    /// One step of a call of the queue, or several up to its answer if the contents are unknown.
    fn step_queue(&mut self, call: &mut QueueCall<T>) -> Option<QueueReply<T>>
        requires may { (after : Call T) (o : Option (QueueAnswer T)) → may (stepped call.old after o) self.old }
        ensures deed { did (stepped call.old call.new result) self.old self.new }
        ensures answers { (f : QueueForm) → has_form self.old f → Follows f call.old call.new result }
        ensures form { (f : QueueForm) → has_form self.old f → has_form self.new f };

    /// Adds a listener without a task. `Err` for want of memory or serials, with nothing changed.
    fn insert(&mut self, line: WaitList) -> Result<Key, ListenError>
        requires may { (o : Result Name Refusal) → may (inserted line o) self.old }
        ensures deed { did (inserted line result) self.old self.new }
        ensures form { (f : QueueForm) → has_form self.old f → has_form self.new f };

    /// Gives a waiting listener its task. One that was told is removed, and the task is returned.
    fn register(&mut self, line: WaitList, key: Key, task: W) -> Option<W>
        requires may { (o : Option W) → may (registered line key task o) self.old }
        ensures deed { did (registered line key task result) self.old self.new }
        ensures form { (f : QueueForm) → has_form self.old f → has_form self.new f };

    /// Removes a listener. One that was told passes its notification on.
    fn remove<S: Wakes<W>>(&mut self, line: WaitList, key: Key, sink: &mut S)
        requires may { (names : List W) → may (taken_off line key names) self.old }
        ensures deed { (names : List W) × did (taken_off line key names) self.old self.new × Woken S.wakes sink.old names sink.new }
        ensures form { (f : QueueForm) → has_form self.old f → has_form self.new f };

    /// Notifies these of the waiting listeners, in one critical section.
    fn tell<S: Wakes<W>>(&mut self, line: WaitList, telling: Telling, sink: &mut S)
        requires may { (names : List W) → may (told line telling names) self.old }
        ensures deed { (names : List W) × did (told line telling names) self.old self.new × Woken S.wakes sink.old names sink.new }
        ensures form { (f : QueueForm) → has_form self.old f → has_form self.new f };

    /// The number of handles of this kind.
    fn count(&mut self, side: Side) -> usize
        requires may { (n : ℕ) → may (counted side n) self.old }
        ensures deed { did (counted side result) self.old self.new }
        ensures form { (f : QueueForm) → has_form self.old f → has_form self.new f };

    /// Lowers the number of handles of this kind by one, unless it is 0, and answers the number before.
    fn lower(&mut self, side: Side) -> usize
        requires may { (n : ℕ) → may (lowered side n) self.old }
        ensures deed { did (lowered side result) self.old self.new }
        ensures form { (f : QueueForm) → has_form self.old f → has_form self.new f };

    /// Raises the number of handles of this kind by one if it is `from` and one more fits a `usize`, and answers whether it did.
    fn raise(&mut self, side: Side, from: usize) -> bool
        requires may { (b : Bool) → may (raised side from b) self.old }
        ensures deed { did (raised side from result) self.old self.new }
        ensures form { (f : QueueForm) → has_form self.old f → has_form self.new f };

    /// A call may do the next operation of its machine, whatever it is answered.
    ghost ready: { MayGoOn stands may };

    /// Such an operation leads the call to where its machine goes by the answer.
    ghost leads: { GoesOn stands did };

    /// A step of the machine that does no operation leads it on over the same cells.
    ghost rests: { StaysOn stands };
}
