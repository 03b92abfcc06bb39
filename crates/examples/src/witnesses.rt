//! What threads can show of a channel with a bound once they are done. Each makes its calls with a witness of its own, by which it says what it
//! asked and was answered, in its order. The witnesses are joined, and a look with them tells that all this stands in one history of the
//! channel: what was accepted is what was taken, followed by what the channel holds, in order, each message once, and so do each thread's
//! own messages, in the order in which it sent them. No function here has a proof of its own.
//!
//! A thread is given the handle, and asks it for the calls itself: of a closure that takes the calls along, whose type names a lifetime, who
//! joins it learns nothing.

mod mailbox;
mod pool;
mod relay;

ghost use Rattle.std.specs.Prelude.{◌≡◌, IsSome};

use async_channel::{
    Calls, EventIds, OfReceivers, OfSenders, Receiver, Runtime, Sender, Witnessed,
};
use std::alloc::Global;
use std::sync::Wait;

/// The calls of a sender of a channel with a bound.
fn calls_of_sender<R: Wait + Copy>(sender: &Sender<u64, R>) -> Witnessed<'_, u64, R, OfSenders>
    requires { IsSome sender.now.table }
    ensures { result ≡ sender.now }
{
    match sender.calls() {
        Calls::Witnessed(calls) => calls,
        Calls::Traced(_) => unreachable!(),
    }
}

/// The calls of a receiver of a channel with a bound.
fn calls_of_receiver<R: Wait + Copy>(
    receiver: &Receiver<u64, R>,
) -> Witnessed<'_, u64, R, OfReceivers>
    requires { IsSome receiver.now.channel.table }
    ensures { result ≡ receiver.now.channel }
{
    match receiver.calls() {
        Calls::Witnessed(calls) => calls,
        Calls::Traced(_) => unreachable!(),
    }
}

/// What the three come to, as one number: two messages sent and their sum by a relay, the jobs done in a pool, and how many readings came out of
/// a mailbox of one place or are in it, of three.
pub(crate) fn came<R: Runtime>(rt: R, alloc: Global, ids: &mut EventIds) -> Option<u64> {
    let relayed = relay::sum(rt, alloc, ids)?;
    let done = pool::done(rt, alloc, ids)?;
    let readings = mailbox::readings(rt, alloc, ids)?;
    Some(
        relayed
            .wrapping_mul(100)
            .wrapping_add(done.wrapping_mul(10))
            .wrapping_add(readings),
    )
}
