//! A receive of several messages into room that its caller has, over any cells.
//!
//! Whatever the cells hold, it does what the machine of a receive of several does once it has room for as many messages (clause `deeds`).
//! It takes no memory.

ghost use Rattle.std.specs.Prelude.{◌≡◌, ◌≤◌, ◌<◌, List, MatchResult};
ghost use Rattle.std.specs.Vec.{vec_capacity, vec_ptr};
ghost use Rattle.concurrent_queue.specs.Replies.{MayPop};
ghost use Rattle.concurrent_queue.specs.declared.cells.QueueForm.{QueueForm};
ghost use Rattle.channel_calls.specs.Asks.{first};
ghost use Rattle.channel_calls.specs.Deeds.{Done, told};
ghost use Rattle.channel_calls.specs.Filling.{room_in, popped_as, Fills};
ghost use Rattle.channel_calls.specs.Stands.{BeginsHere};
ghost use Rattle.channel_calls.specs.declared.ask.ChannelAsk.TheVariants as ask;
ghost use Rattle.channel_calls.specs.declared.stage.Ending.{Ending};
ghost use Rattle.channel_calls.specs.declared.stage.ListStep.TheVariants.{TellSends};
ghost use Rattle.channel_calls.specs.declared.stage.Stage.TheVariants.{Working};

use crate::cells::ChannelCells;
use crate::error::TryRecvError;
use crate::stage::{Telling, WaitList};
use concurrent_queue::call::QueueReply;
use concurrent_queue::error::PopError;
use concurrent_queue::queue_call::QueueCall;
use event_listener::wakes::Wakes;
use std::sync::Wait;

/// What a pop took, or why there is nothing.
fn popped<T: Drop>(answer: QueueReply<T>) -> Result<T, TryRecvError>
    requires pops { MayPop answer }
    ensures { answer ≡ popped_as result }
{
    match answer {
        QueueReply::Pop(Ok(message)) => Ok(message),
        QueueReply::Pop(Err(PopError::Empty)) => Err(TryRecvError::Empty),
        QueueReply::Pop(Err(PopError::Closed)) => Err(TryRecvError::Closed),
        _ => unreachable!(),
    }
}

/// Notifies as many sends as messages were taken.
fn tells<T, W, C: ChannelCells<T, W>, S: Wakes<W>>(
    taken: usize,
    cells: &mut C,
    sink: &mut S,
) -> usize
    requires stands { (e : Ending T) × C.stands (Working (TellSends taken e)) cells.old }
    ensures count { result ≡ taken }
    ensures deed { (names : List W) × Done C.did S.wakes (told WaitList.Sends (Telling.More taken) names) (cells.old, sink.old) (cells.new, sink.new) }
    ensures form { (f : QueueForm) → C.has_form cells.old f → C.has_form cells.new f }
{
    // One critical section, after the last pop: until then the places are answered for by this call, which is in flight.
    cells.tell(WaitList::Sends, Telling::More(taken), sink);
    taken
}

/// Takes messages into the room that is there, until it is full or no further message is there, and answers how many. `Err` if there is
/// none; if there is no room, nothing is tried.
pub fn recv_many_into<T: Drop, W: Drop, R: Wait, C: ChannelCells<T, W>, S: Wakes<W>>(
    rt: &R,
    into: &mut Vec<T>,
    cells: &mut C,
    sink: &mut S,
) -> Result<usize, TryRecvError>
    requires form { (f : QueueForm) × C.has_form cells.old f }
    requires stands { BeginsHere C.stands (first (ask.RecvMany (room_in into.old))) cells.old }
    ensures deeds { Fills (Done C.did S.wakes) (room_in into.old) into.old.items (cells.old, sink.old) result into.new.items (cells.new, sink.new) }
    ensures most { MatchResult result (λ n. (n ≤ room_in into.old) × (n ≡ 0 → room_in into.old ≡ 0)) (λ _. 0 < room_in into.old) }
    ensures room { vec_capacity into.new ≡ vec_capacity into.old }
    ensures in_place { vec_ptr into.new ≡ vec_ptr into.old }
    ensures form { (f : QueueForm) → C.has_form cells.old f → C.has_form cells.new f }
{
    let before = into.len();
    if before == into.capacity() {
        return Ok(0);
    }
    let mut call = QueueCall::pop();
    for _ in rt.forever() {
        // Room was tested before this pop, so a message that is taken always fits.
        let Some(answer) = cells.step_queue(&mut call) else {
            continue;
        };
        match popped(answer) {
            Ok(message) => {
                into.push_reserved(message);
                if into.len() == into.capacity() {
                    return Ok(tells(into.len() - before, cells, sink));
                }
                call = QueueCall::pop();
            }
            Err(error) => {
                if into.len() == before {
                    return Err(error);
                }
                return Ok(tells(into.len() - before, cells, sink));
            }
        }
    }
    unreachable!()
}
