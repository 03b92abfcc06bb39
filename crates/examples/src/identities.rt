//! Two threads open channels and share one source of identities, behind a lock: so `same_channel` tells these channels apart.

use async_channel::{EventIds, Runtime, Sender, bounded, unbounded};
use std::alloc::Global;
use std::sync::{Mutex, Wait};
use std::thread;

/// Opens a channel, and hands its sender out.
fn open_one<R: Wait + Copy>(
    rt: R,
    alloc: Global,
    ids: &Mutex<EventIds>,
    opened: Sender<Sender<u64, R>, R>,
) -> Option<u64> {
    let channel = bounded(rt, alloc, 1, &mut ids.lock(&rt));
    let (sender, _receiver) = channel.ok()?;
    opened.try_send(sender).ok()?;
    Some(1)
}

/// How many channels two threads opened that are not one.
pub(crate) fn count<R: Runtime>(rt: R, alloc: Global) -> Option<u64> {
    let mut ids = EventIds::new();
    let (opened, senders) = unbounded(rt, alloc, &mut ids).ok()?;
    let ids = Mutex::new(ids);
    let twin = opened.try_clone().ok()?;
    let (one, other) = thread::join(
        &rt,
        || open_one(rt, alloc, &ids, twin),
        || open_one(rt, alloc, &ids, opened),
    );
    one?;
    other?;
    let first = senders.try_recv().ok()?;
    let second = senders.try_recv().ok()?;
    Some(if first.same_channel(&second) { 1 } else { 2 })
}
