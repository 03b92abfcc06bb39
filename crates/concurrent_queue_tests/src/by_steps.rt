//! What a caller of a shared queue can prove of a call that it makes step by step.

ghost use Rattle.std.specs.Prelude.{◌≡◌};
ghost use Rattle.concurrent_queue.specs.SharedQueue.{limit};

use concurrent_queue::call::QueueReply;
use concurrent_queue::queue_call::QueueCall;
use concurrent_queue::shared::queue::ConcurrentQueue;

/// Asks for the capacity step by step: the answer is this queue's own, whatever other threads do.
pub fn capacity_by_steps<T: Drop>(queue: &ConcurrentQueue<T>) -> Option<usize>
    ensures { result ≡ limit queue.now }
{
    let mut call = QueueCall::capacity();
    match queue.step_words(&mut call) {
        Some(QueueReply::Cap(room)) => return room,
        Some(_) => unreachable!(),
        None => {}
    }
    match queue.step_words(&mut call) {
        Some(QueueReply::Cap(room)) => room,
        _ => unreachable!(),
    }
}
