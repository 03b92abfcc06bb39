//! Two receivers, chosen between by hand: a future that polls a receive of each.

use crate::three::join_three;
use crate::two_threads::send_all;
use async_channel::{EventIds, Receiver, Recv, RecvError, Refused, Runtime, unbounded};
use futures::Future;
use futures::executor::block_on;
use futures::task::{Context, Poll};
use std::alloc::{AllocGlobal, Global};
use std::random::RandomSource;
use std::sync::Wait;

/// A receive of the first channel or of the second, whichever has a message. The first one is asked first.
#[derive(Drop)]
struct Either<'a, R: Wait + Copy> {
    first: Recv<'a, u64, R>,
    second: Recv<'a, u64, R>,
}

impl<R: Wait + Copy> Future for Either<'_, R> {
    type Output = Result<u64, Refused<RecvError>>;

    /// It is closed where both channels are closed and empty.
    fn poll(&mut self, cx: &mut Context<'_>) -> Poll<Result<u64, Refused<RecvError>>> {
        match self.first.poll(cx) {
            Poll::Ready(Err(refused)) if refused.is_closed() => self.second.poll(cx),
            Poll::Ready(answer) => Poll::Ready(answer),
            Poll::Pending => match self.second.poll(cx) {
                Poll::Ready(Err(refused)) if refused.is_closed() => Poll::Pending,
                answer => answer,
            },
        }
    }
}

/// The sum of what comes by either channel, until both are closed and empty.
fn receive_either<R>(rt: R, first: Receiver<u64, R>, second: Receiver<u64, R>) -> Option<u64>
where
    R: Wait + Copy + RandomSource + AllocGlobal,
{
    let mut sum = 0u64;
    for _ in rt.forever() {
        let either = Either {
            first: first.recv(),
            second: second.recv(),
        };
        match block_on(&rt, either).ok()? {
            Ok(number) => sum = sum.wrapping_add(number),
            Err(refused) if refused.is_closed() => break,
            Err(_) => return None,
        }
    }
    Some(sum)
}

/// That sum where a thread sends a hundred numbers to each.
pub(crate) fn sum<R: Runtime>(rt: R, alloc: Global, ids: &mut EventIds) -> Option<u64> {
    let (sender, first) = unbounded(rt, alloc, ids).ok()?;
    let (sender_too, second) = unbounded(rt, alloc, ids).ok()?;
    let ((), (), sum) = join_three(
        &rt,
        move || send_all(sender),
        move || send_all(sender_too),
        move || receive_either(rt, first, second),
    );
    sum
}
