//! What listeners of an event say: each of their calls in short.

use crate::event::waker;
use event_listener::listener::{EventListener, Listener, PollFault, WaitError};
use futures::task::Poll;
use futures::test::MockTask;
use std::sync::Wait;
use std::time::{Clock, Duration, Instant};
use worked_rows::Said;

/// What a notice hands to each listener.
pub(crate) trait Tag {
    /// The tag in short.
    fn said(self) -> Said;
}

impl Tag for () {
    fn said(self) -> Said {
        Said::Word("told")
    }
}

impl Tag for u32 {
    fn said(self) -> Said {
        Said::Number(u64::from(self))
    }
}

/// What a wait says whose time is up.
pub(crate) const NOTHING: Said = Said::Word("nothing");

const FINISHED: Said = Said::Word("finished");

/// What a poll says.
pub(crate) fn said_by_poll<T: Tag + Drop>(polled: Poll<Result<T, PollFault>>) -> Said {
    match polled {
        Poll::Ready(Ok(tag)) => tag.said(),
        Poll::Ready(Err(PollFault::NeverInserted)) => FINISHED,
        Poll::Pending => Said::Word("pending"),
    }
}

fn said_by_tag<T: Tag + Drop>(tag: Option<T>) -> Said {
    match tag {
        Some(tag) => tag.said(),
        None => NOTHING,
    }
}

/// What a listener says that was finished when it was to wait, and then is discarded: it had no tag left.
fn said_by_finished(is_told: bool) -> Said {
    if is_told {
        Said::Word("finished, and told")
    } else {
        FINISHED
    }
}

/// What a listener says that comes back from a wait.
fn back<T: Drop, R: Wait + Copy>(error: WaitError<EventListener<T, R>>) -> Said {
    match error {
        WaitError::NeverInserted(listener) => said_by_finished(listener.discard()),
        WaitError::NoMemory(_listener) => Said::Word("memory"),
    }
}

/// What a poll by hand says.
pub(crate) fn poll<T: Tag + Drop, R: Wait + Copy>(
    listener: &mut EventListener<T, R>,
    task: &MockTask,
) -> Said {
    match waker(task) {
        Some(waker) => said_by_poll(listener.poll(waker)),
        None => Said::Word("no waker"),
    }
}

/// What a wait without a limit says.
pub(crate) fn wait<T: Tag + Drop, R: Wait + Copy>(listener: EventListener<T, R>) -> Said {
    match listener.wait() {
        Ok(tag) => tag.said(),
        Err(error) => back(error),
    }
}

/// What a wait for so long says.
pub(crate) fn wait_timeout<T: Tag + Drop, R: Wait + Copy, K: Clock>(
    listener: EventListener<T, R>,
    clock: &K,
    timeout: Duration,
) -> Said {
    match listener.wait_timeout(clock, timeout) {
        Ok(tag) => said_by_tag(tag),
        Err(error) => back(error),
    }
}

/// What a wait up to a deadline says.
pub(crate) fn wait_deadline<T: Tag + Drop, R: Wait + Copy, K: Clock>(
    listener: EventListener<T, R>,
    clock: &K,
    deadline: Instant,
) -> Said {
    match listener.wait_deadline(clock, deadline) {
        Ok(tag) => said_by_tag(tag),
        Err(error) => back(error),
    }
}
