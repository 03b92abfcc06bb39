//! What clients whose threads pushed to a queue and popped from it conclude of each message, from the witnesses of their calls. The last
//! two functions have no proof file of their own: a client needs none.

ghost use Rattle.std.specs.Prelude.{◌≡◌, IfSome, true, [], ◌∷◌};
ghost use Rattle.concurrent_queue.specs.Witnessed.{table_of, view_of, asked_in, replied_in};
ghost use Rattle.concurrent_queue.specs.declared.call.QueueAsk.TheVariants as ask;
ghost use Rattle.concurrent_queue.specs.declared.call.QueueReply.TheVariants as reply;
ghost use Rattle.queue_history.specs.Concluded.{party, AllReplied, HaveConcluded};
ghost use Rattle.queue_history.specs.Told.{Conclusion, IsNew, IsOfSameQueue};

use crate::accounts::{looks_are_of_one_history, parties_conclude, three_are_told};
use concurrent_queue::{ConcurrentQueue, PopError, PushError, Witnessed};
use std::sync::Wait;

/// What the calls of a witness, and those of each witness that was joined into it, come to at this moment, whatever other threads are
/// doing. The messages of each are in what was accepted, in its order, and what each popped is in what has left. What has left, followed by
/// what is held, is what was accepted. `false`: a call of the queue was stepped from outside, and nothing is known. It costs one load.
pub fn conclude<T: Drop>(witnessed: &mut Witnessed<'_, T>) -> bool
    requires replied { AllReplied (party (view_of witnessed.old) ∷ (view_of witnessed.old).over) }
    ensures concluded { result ≡ true → HaveConcluded (view_of witnessed.old).form (party (view_of witnessed.old) ∷ (view_of witnessed.old).over) }
    ensures kept { (view_of witnessed.new ≡ view_of witnessed.old) × (table_of witnessed.new ≡ table_of witnessed.old) }
{
    looks_are_of_one_history::<T>();
    parties_conclude::<T>();
    witnessed.look()
}

/// Joins three witnesses of one queue into one, and says what their calls come to, by what each asked and was answered.
pub fn conclude_three<'a, T: Drop>(
    one: Witnessed<'a, T>,
    other: Witnessed<'a, T>,
    popper: Witnessed<'a, T>,
) -> (bool, Witnessed<'a, T>)
    requires same { IsOfSameQueue one other × IsOfSameQueue one popper }
    requires alone { ((view_of one).over ≡ []) × ((view_of other).over ≡ []) × ((view_of popper).over ≡ []) }
    requires replied { AllReplied (party (view_of one) ∷ party (view_of other) ∷ party (view_of popper) ∷ []) }
    ensures concluded { result.0 ≡ true → Conclusion (asked_in one.entry) (replied_in one.entry) (asked_in other.entry) (replied_in other.entry) (asked_in popper.entry) (replied_in popper.entry) }
{
    let mut all = one;
    all.join(other);
    all.join(popper);
    let is_told = conclude(&mut all);
    three_are_told::<T>();
    (is_told, all)
}

/// What two threads that pushed and one that popped were answered.
#[derive(Drop)]
pub struct Answers<T: Drop> {
    /// To the first push.
    pub one: Result<(), PushError<T>>,
    /// To the second push.
    pub other: Result<(), PushError<T>>,
    /// To the pop.
    pub popped: Result<T, PopError>,
    /// Whether the look proved it.
    pub is_told: bool,
}

/// Two witnesses of one queue push a message each, a third pops once, and they conclude.
pub fn push_push_pop<'a, T: Drop, R: Wait>(
    rt: &R,
    one: Witnessed<'a, T>,
    other: Witnessed<'a, T>,
    popper: Witnessed<'a, T>,
    first: T,
    second: T,
) -> Answers<T>
    requires same { IsOfSameQueue one other × IsOfSameQueue one popper }
    requires new { IsNew one × IsNew other × IsNew popper }
    ensures concluded { result.is_told ≡ true → Conclusion (ask.Push first ∷ []) (reply.Push result.one ∷ []) (ask.Push second ∷ []) (reply.Push result.other ∷ []) (ask.Pop ∷ []) (reply.Pop result.popped ∷ []) }
{
    let (pushed, one) = one.push(rt, first);
    let (pushed_by_other, other) = other.push(rt, second);
    let (popped, popper) = popper.pop(rt);
    let (is_told, _all) = conclude_three(one, other, popper);
    Answers {
        one: pushed,
        other: pushed_by_other,
        popped,
        is_told,
    }
}

/// Two parties push a message each to this queue, and a third pops once, whatever other threads do with the queue. What was accepted is
/// what has left, followed by what is held, in order. Each push that was answered `Ok` is in what was accepted, as the one message of its
/// party, and what was popped is what the popper took of what has left. If as many were accepted as were popped and are held, what was
/// popped, followed by what is held, is what was accepted. `None` for a queue without a bound.
pub fn two_pushes_and_a_pop<T: Drop, W: Copy, R: Wait>(
    queue: &ConcurrentQueue<T, W>,
    rt: &R,
    first: T,
    second: T,
) -> Option<Answers<T>>
    ensures concluded { IfSome result (λ a. a.is_told ≡ true → Conclusion (ask.Push first ∷ []) (reply.Push a.one ∷ []) (ask.Push second ∷ []) (reply.Push a.other ∷ []) (ask.Pop ∷ []) (reply.Pop a.popped ∷ [])) }
{
    let one = queue.witnessed()?;
    let other = queue.witnessed()?;
    let popper = queue.witnessed()?;
    Some(push_push_pop(rt, one, other, popper, first, second))
}
