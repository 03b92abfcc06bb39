//! Request and reply: a request has the sender of a channel of its own with it, on which the answer comes back. A server that is gone
//! drops the request, and its sender, so that who asked is told that nothing comes.

use async_channel::{EventIds, Receiver, Runtime, Sender, bounded};
use std::alloc::Global;
use std::sync::Wait;
use std::thread;

/// A number, and where its square is to go.
#[derive(Drop)]
struct Request<R: Wait + Copy> {
    number: u64,
    reply: Sender<u64, R>,
}

/// Asks the server, and waits for its answer. `None` where the server is gone, or something was refused.
fn ask<R: Wait + Copy>(
    rt: R,
    alloc: Global,
    ids: &mut EventIds,
    server: &Sender<Request<R>, R>,
    number: u64,
) -> Option<u64> {
    let (reply, answer) = bounded(rt, alloc, 1, ids).ok()?;
    server.send_blocking(Request { number, reply }).ok()?;
    answer.recv_blocking().ok()
}

/// The server: how many requests it answered, until all who ask are gone.
fn serve<R: Wait + Copy>(requests: Receiver<Request<R>, R>) -> Option<u64> {
    let mut answered = 0u64;
    for request in &requests {
        let Request { number, reply } = request.ok()?;
        // There is a place for it. It is refused where the one who asked has given up.
        if reply.try_send(number.wrapping_mul(number)).is_ok() {
            answered = answered.wrapping_add(1);
        }
    }
    Some(answered)
}

/// Asks three times: the sum of the answers. Nobody compares channels of replies with others, so a thread may have a source of
/// identities of its own for them.
fn ask_three<R: Wait + Copy>(rt: R, alloc: Global, server: Sender<Request<R>, R>) -> Option<u64> {
    let mut ids = EventIds::new();
    let mut sum = 0u64;
    for number in 1..4 {
        sum = sum.wrapping_add(ask(rt, alloc, &mut ids, &server, number)?);
    }
    Some(sum)
}

/// That sum.
pub(crate) fn sum<R: Runtime>(rt: R, alloc: Global, ids: &mut EventIds) -> Option<u64> {
    let (server, requests) = bounded(rt, alloc, 2, ids).ok()?;
    let (answered, sum) = thread::join(
        &rt,
        move || serve(requests),
        move || ask_three(rt, alloc, server),
    );
    answered?;
    sum
}
