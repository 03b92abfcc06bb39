//! What a caller of a queue of one owner can prove of its walks, by the contracts of `try_iter` and `next` alone.

ghost use Rattle.std.specs.Prelude.{◌≡◌, [], IfOk, IfErr};
ghost use Rattle.concurrent_queue.specs.Alone.{with_items};

use concurrent_queue::exclusive::Exclusive;
use std::alloc::{AllocError, Global};

/// Begins a walk and lets it go unread: the queue is what it was.
pub fn walk_unread<T: Drop>(queue: &mut Exclusive<T>)
    ensures { queue.new ≡ queue.old }
{
    let _walk = queue.try_iter();
}

/// Walks a queue to its end: that gives the whole list, oldest message first, and leaves none, and nothing else of the queue
/// is changed. `Err` where there is no memory for the answer: then the queue is what it was.
#[tactic(auto, using(crate::proofs::WalkFacts::next_given, crate::proofs::WalkFacts::all_given, crate::proofs::WalkFacts::still, crate::proofs::WalkFacts::emptied, crate::proofs::WalkFacts::has_room, crate::proofs::WalkFacts::keeps_room, crate::proofs::WalkFacts::nearer))]
pub fn walk_to_the_end<T: Drop>(
    alloc: Global,
    queue: &mut Exclusive<T>,
) -> Result<Vec<T>, AllocError>
    ensures given { IfOk result (λ given. given.items ≡ queue.old.items) }
    ensures emptied { IfOk result (λ given. queue.new ≡ with_items queue.old []) }
    ensures refused { IfErr result (λ e. queue.new ≡ queue.old) }
{
    let mut given = Vec::with_capacity(alloc, queue.len())?;
    let mut walk = queue.try_iter();
    'messages: loop {
        match walk.next() {
            Some(message) => given.push_reserved(message),
            None => return Ok(given),
        }
    }
}
