//! A receive and a send with a time limit, to copy.

use async_channel::{
    EventIds, ListenError, Receiver, RecvError, Refused, Runtime, SendError, Sender, TryRecvError,
    TrySendError, bounded,
};
use event_listener::{Event, Parker};
use futures::Future;
use futures::executor::block_on;
use futures::future::{Either, select};
use std::alloc::Global;
use std::thread;
use std::time::{Clock, Duration, Instant};

/// Polls a future until it is ready or the time is over: its output, or `None`. `Err` where memory was refused. The thread sleeps until
/// the future is woken or the time is over; a clock that can't be read counts as time that is over.
///
/// A helper thread keeps the time. It sleeps on a bell for as long as the limit says, and then notifies an event. The calling thread polls
/// the future and a listener of that event together. If the future is ready first, it rings the bell, which ends the helper's sleep. Both
/// threads are joined before this returns, so no helper outlives it.
fn within<F: Future, R: Runtime>(
    rt: R,
    limit: Duration,
    future: F,
) -> Result<Option<F::Output>, ListenError>
    requires { F.can_poll future }
{
    let mut ids = EventIds::new(); // of its own, since nobody compares this event with another
    let id = ids.next().map_err(|_| ListenError::SerialsUsedUp)?;
    let event = Event::new(rt.alloc(), id);
    let time_over = event.listen(&rt)?;
    let bell = Parker::new();
    let keep_time = || {
        bell.sleep_for(&rt, &rt, limit);
        event.notify_additional(&rt, 1);
    };
    let poll = ||
        requires { F.can_poll future }
    {
        let first = block_on(&rt, select(future, time_over));
        bell.ring(&rt);
        first
    };
    let ((), first) = thread::join(&rt, keep_time, poll);
    match first.map_err(|_| ListenError::NoMemory)? {
        Either::Left((output, _)) => Ok(Some(output)),
        Either::Right(_) => Ok(None),
    }
}

/// Receives a message, and waits for it no longer than this limit. It is refused as `Empty` once the time is over, and as `Closed` where
/// the channel is closed and empty. `NoMemory` stands for want of memory and of serials.
pub(crate) fn recv_within<T: Drop, R: Runtime>(
    rt: R,
    receiver: &Receiver<T, R>,
    limit: Duration,
) -> Result<T, Refused<TryRecvError>> {
    match within(rt, limit, receiver.recv()) {
        Ok(Some(Ok(message))) => Ok(message),
        Ok(Some(Err(Refused::Plain(RecvError)))) => Err(Refused::Plain(TryRecvError::Closed)),
        Ok(None) => Err(Refused::Plain(TryRecvError::Empty)),
        Ok(Some(Err(_))) | Err(_) => Err(Refused::NoMemory(())),
    }
}

/// Sends a message, and waits for a place no longer than this limit. It is refused as `Full` once the time is over, and as `Closed` where
/// the channel is closed. `NoMemory` stands for want of memory and of serials. Each refusal hands the message back.
pub(crate) fn send_within<T: Drop, R: Runtime>(
    rt: R,
    sender: &Sender<T, R>,
    message: T,
    limit: Duration,
) -> Result<(), Refused<TrySendError<T>, T>> {
    let mut send = sender.send(message);
    let answer = within(rt, limit, &mut send);
    if let Ok(Some(Err(Refused::Plain(SendError(message))))) = answer {
        return Err(Refused::Plain(TrySendError::Closed(message)));
    }
    match send.give_up() {
        None => Ok(()),
        Some(message) if matches!(answer, Ok(None)) => {
            Err(Refused::Plain(TrySendError::Full(message)))
        }
        Some(message) => Err(Refused::NoMemory(message)),
    }
}

/// So many milliseconds are over soon.
const SHORT: u64 = 20;

/// So many are not over while this program runs.
const LONG: u64 = 60_000;

/// Sends a 5 after a short time, within a long one.
fn send_soon<R: Runtime>(rt: R, sender: Sender<u64, R>) -> Option<u64> {
    thread::sleep(&rt, Duration::from_millis(SHORT));
    send_within(rt, &sender, 5, Duration::from_millis(LONG)).ok()?;
    Some(1)
}

/// Receives what comes after a short time, within a long one. `None` where it was waited for until the end.
fn receive_soon<R: Runtime>(rt: R, receiver: Receiver<u64, R>) -> Option<u64> {
    let start = Instant::now(&rt).ok()?;
    let message = recv_within(rt, &receiver, Duration::from_millis(LONG)).ok()?;
    let passed = start.elapsed(&rt).ok()?;
    if passed < Duration::from_millis(LONG) {
        Some(message)
    } else {
        None
    }
}

/// The message that a full channel of one place refused once the time was over, after a receive of the empty one got none.
fn refused<R: Runtime>(rt: R, sender: &Sender<u64, R>, receiver: &Receiver<u64, R>) -> Option<u64> {
    let limit = Duration::from_millis(SHORT);
    let none = recv_within(rt, receiver, limit).err()?;
    if !none.is_empty() {
        return None;
    }
    send_within(rt, sender, 1, limit).ok()?;
    let full = send_within(rt, sender, 2, limit).err()?;
    let message = receiver.try_recv().ok()?;
    if full.is_full() && message == 1 {
        Some(full.into_inner())
    } else {
        None
    }
}

/// That message, and one that came in time, as one number.
pub(crate) fn refused_and_received<R: Runtime>(
    rt: R,
    alloc: Global,
    ids: &mut EventIds,
) -> Option<u64> {
    let (sender, receiver) = bounded(rt, alloc, 1, ids).ok()?;
    let back = refused(rt, &sender, &receiver)?;
    let (sent, came) = thread::join(
        &rt,
        move || send_soon(rt, sender),
        move || receive_soon(rt, receiver),
    );
    sent?;
    Some(back.wrapping_mul(10).wrapping_add(came?))
}
