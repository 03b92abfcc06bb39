//! An actor: a thread that owns its state, and changes it by the messages of its inbox alone. It sends messages to itself by a weak sender,
//! which doesn't keep the inbox open: it ends once nobody else has a sender.

use async_channel::{EventIds, Receiver, Runtime, Sender, WeakSender, bounded, unbounded};
use std::alloc::Global;
use std::sync::Wait;
use std::thread;

/// So much is left to add, and then the sum goes there.
#[derive(Drop)]
struct Step<R: Wait + Copy> {
    left: u64,
    reply: Sender<u64, R>,
}

/// The actor: how many steps it made. One step a message, the rest goes to the end of its own inbox, so that others get their turn.
fn act<R: Wait + Copy>(inbox: Receiver<Step<R>, R>, me: WeakSender<Step<R>, R>) -> Option<u64> {
    let mut sum = 0u64;
    let mut steps = 0u64;
    for step in &inbox {
        let Step { left, reply } = step.ok()?;
        sum = sum.wrapping_add(left);
        steps = steps.wrapping_add(1);
        if left == 0 {
            let _ = reply.try_send(sum);
        } else if let Some(me) = me.upgrade().ok()? {
            let left = left.wrapping_sub(1);
            me.try_send(Step { left, reply }).ok()?;
        }
    }
    Some(steps)
}

/// Has the actor add the numbers from 10 down, and waits for the sum. Its sender goes then, and the actor with it.
fn start<R: Wait + Copy>(rt: R, alloc: Global, actor: Sender<Step<R>, R>) -> Option<u64> {
    let (reply, sum) = bounded(rt, alloc, 1, &mut EventIds::new()).ok()?;
    actor.try_send(Step { left: 10, reply }).ok()?;
    sum.recv_blocking().ok()
}

/// That sum.
pub(crate) fn sum<R: Runtime>(rt: R, alloc: Global, ids: &mut EventIds) -> Option<u64> {
    let (actor, inbox) = unbounded(rt, alloc, ids).ok()?;
    let me = actor.downgrade().ok()?;
    let (steps, sum) = thread::join(&rt, move || act(inbox, me), move || start(rt, alloc, actor));
    steps?;
    sum
}
