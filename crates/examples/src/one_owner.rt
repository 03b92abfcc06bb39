//! A queue of one owner, whose caller knows what it answers.

ghost use Rattle.std.specs.Prelude.{◌≡◌, ◌∷◌, ◌++◌, [], IfSome};
ghost use Rattle.concurrent_queue.specs.Room.{HasPlace};

use concurrent_queue::Exclusive;
use std::alloc::Global;

/// Appends a message to an open queue with room for it, which can't be refused.
fn append<T: Drop>(queue: &mut Exclusive<T>, message: T)
    requires { HasPlace queue.old }
    ensures { queue.new.items ≡ queue.old.items ++ message ∷ [] }
{
    match queue.push(message) {
        Ok(()) => {}
        Err(_) => unreachable!(),
    }
}

/// What a new queue gives after this message was pushed into it: the message. `None` where there was no memory for a queue.
pub(crate) fn first(message: u64, alloc: Global) -> Option<u64>
    ensures { IfSome result (λ popped. popped ≡ message) }
{
    let mut queue = Exclusive::bounded(alloc, 2).ok()?;
    append(&mut queue, message);
    match queue.pop() {
        Ok(popped) => Some(popped),
        Err(_) => unreachable!(),
    }
}
