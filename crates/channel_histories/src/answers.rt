//! What a call did, as its answer says. Where memory is scarce it may be refused: then the call did nothing, and its message comes back.

use async_channel::{RecvError, Refused, SendError, TryRecvError, TrySendError};
use concurrent_queue::error::{ForcePushError, PopError, PushError};
use event_listener::error::ListenError;
use futures::task::Poll;
use history_checker::point::{Did, Point, Sight};

/// A send that doesn't wait.
pub fn tried_send(
    scarce: bool,
    message: u64,
    answer: &Result<(), Refused<TrySendError<u64>, u64>>,
) -> Did {
    match answer {
        Ok(()) => Did::Once(Point::Append(message)),
        Err(Refused::Plain(TrySendError::Full(back))) if *back == message => {
            Did::saw(Sight::Crowded)
        }
        Err(Refused::Plain(TrySendError::Closed(back))) if *back == message => {
            Did::saw(Sight::Shut)
        }
        Err(Refused::NoMemory(back)) => Did::nothing_if(scarce && *back == message),
        Err(_) => Did::Never,
    }
}

/// A push.
pub fn pushed(scarce: bool, message: u64, answer: &Result<(), PushError<u64>>) -> Did {
    match answer {
        Ok(()) => Did::Once(Point::Append(message)),
        Err(PushError::Full(back)) if *back == message => Did::saw(Sight::Crowded),
        Err(PushError::Closed(back)) if *back == message => Did::saw(Sight::Shut),
        Err(PushError::NoMemory(back)) => Did::nothing_if(scarce && *back == message),
        Err(_) => Did::Never,
    }
}

/// The message came in, and perhaps this one left for it.
fn came_in(capacity: Option<usize>, message: u64, oldest: Option<u64>) -> Did {
    match oldest {
        Some(oldest) => Did::displaced(capacity, oldest, message),
        None => Did::Once(Point::Append(message)),
    }
}

/// A displacing send.
pub fn forced_send(
    scarce: bool,
    capacity: Option<usize>,
    message: u64,
    answer: &Result<Option<u64>, Refused<SendError<u64>, u64>>,
) -> Did {
    match answer {
        Ok(oldest) => came_in(capacity, message, *oldest),
        Err(Refused::Plain(SendError(back))) if *back == message => Did::saw(Sight::Shut),
        Err(Refused::NoMemory(back)) => Did::nothing_if(scarce && *back == message),
        Err(_) => Did::Never,
    }
}

/// A displacing push.
pub fn forced_push(
    scarce: bool,
    capacity: Option<usize>,
    message: u64,
    answer: &Result<Option<u64>, ForcePushError<u64>>,
) -> Did {
    match answer {
        Ok(oldest) => came_in(capacity, message, *oldest),
        Err(ForcePushError::Closed(back)) if *back == message => Did::saw(Sight::Shut),
        Err(ForcePushError::NoMemory(back)) => Did::nothing_if(scarce && *back == message),
        Err(_) => Did::Never,
    }
}

/// A receive that doesn't wait.
pub fn tried_recv(answer: &Result<u64, TryRecvError>) -> Did {
    match answer {
        Ok(message) => Did::Once(Point::Take(*message)),
        Err(TryRecvError::Empty) => Did::saw(Sight::Bare),
        Err(TryRecvError::Closed) => Did::saw(Sight::Spent),
    }
}

/// A receive of at most so many messages that found none. One that may take none is never refused.
pub fn found_none(limit: usize, error: TryRecvError) -> Did {
    match (limit, error) {
        (0, _) => Did::Never,
        (_, TryRecvError::Empty) => Did::saw(Sight::Bare),
        (_, TryRecvError::Closed) => Did::saw(Sight::Spent),
    }
}

/// The same, but memory may have been refused for its list.
pub fn took_none(scarce: bool, limit: usize, error: &Refused<TryRecvError>) -> Did {
    match error {
        Refused::Plain(error) => found_none(limit, *error),
        Refused::NoMemory(()) => Did::nothing_if(scarce && limit > 0),
        Refused::SerialsUsedUp(()) => Did::Never,
    }
}

/// A step of a walk that doesn't wait.
pub fn found(item: Option<u64>) -> Did {
    match item {
        Some(message) => Did::Once(Point::Take(message)),
        None => Did::saw(Sight::Over),
    }
}

/// A step of a walk that waits.
pub fn walked(scarce: bool, item: &Option<Result<u64, ListenError>>) -> Did {
    match item {
        Some(Ok(message)) => Did::Once(Point::Take(*message)),
        Some(Err(ListenError::NoMemory)) => Did::nothing_if(scarce),
        Some(Err(_)) => Did::Never,
        None => Did::saw(Sight::Spent),
    }
}

/// A pop.
pub fn popped(answer: &Result<u64, PopError>) -> Did {
    match answer {
        Ok(message) => Did::Once(Point::Take(*message)),
        Err(PopError::Empty) => Did::saw(Sight::Bare),
        Err(PopError::Closed) => Did::saw(Sight::Spent),
    }
}

/// A send that blocks.
pub fn sent(scarce: bool, message: u64, answer: &Result<(), Refused<SendError<u64>, u64>>) -> Did {
    match answer {
        Ok(()) => Did::Once(Point::Append(message)),
        Err(Refused::Plain(SendError(back))) if *back == message => Did::saw(Sight::Shut),
        Err(Refused::NoMemory(back)) => Did::nothing_if(scarce && *back == message),
        Err(_) => Did::Never,
    }
}

/// A receive that blocks.
pub fn received(scarce: bool, answer: &Result<u64, Refused<RecvError>>) -> Did {
    match answer {
        Ok(message) => Did::Once(Point::Take(*message)),
        Err(Refused::Plain(RecvError)) => Did::saw(Sight::Spent),
        Err(Refused::NoMemory(())) => Did::nothing_if(scarce),
        Err(_) => Did::Never,
    }
}

/// A poll of a send. One that is pending found the channel full.
pub fn polled_send(
    scarce: bool,
    message: u64,
    answer: &Poll<Result<(), Refused<SendError<u64>>>>,
) -> Did {
    match answer {
        Poll::Ready(Ok(())) => Did::Once(Point::Append(message)),
        Poll::Ready(Err(Refused::Plain(SendError(back)))) if *back == message => {
            Did::saw(Sight::Shut)
        }
        Poll::Ready(Err(Refused::NoMemory(()))) => Did::nothing_if(scarce),
        Poll::Ready(Err(_)) => Did::Never,
        Poll::Pending => Did::saw(Sight::Crowded),
    }
}

/// A poll of a receive. One that is pending found the channel empty.
pub fn polled_recv(scarce: bool, answer: &Poll<Result<u64, Refused<RecvError>>>) -> Did {
    match answer {
        Poll::Ready(Ok(message)) => Did::Once(Point::Take(*message)),
        Poll::Ready(Err(Refused::Plain(RecvError))) => Did::saw(Sight::Spent),
        Poll::Ready(Err(Refused::NoMemory(()))) => Did::nothing_if(scarce),
        Poll::Ready(Err(_)) => Did::Never,
        Poll::Pending => Did::saw(Sight::Bare),
    }
}

/// A poll of a wait for the closing. One that is pending found the channel open.
pub fn polled_closed(scarce: bool, answer: &Poll<Result<(), ListenError>>) -> Did {
    match answer {
        Poll::Ready(Ok(())) => Did::saw(Sight::Shut),
        Poll::Ready(Err(ListenError::NoMemory)) => Did::nothing_if(scarce),
        Poll::Ready(Err(_)) => Did::Never,
        Poll::Pending => Did::saw(Sight::Open),
    }
}

/// A poll of a stream. One that is pending found the channel empty, unless it waited before: then it only asks whether it was
/// told.
pub fn polled_next(
    scarce: bool,
    waited: bool,
    answer: &Poll<Option<Result<u64, ListenError>>>,
) -> Did {
    match answer {
        Poll::Ready(item) => walked(scarce, item),
        Poll::Pending if waited => Did::Nothing,
        Poll::Pending => Did::saw(Sight::Bare),
    }
}

/// A closing.
pub fn closed(answer: bool) -> Did {
    if answer {
        Did::Once(Point::Close)
    } else {
        Did::saw(Sight::Shut)
    }
}

/// A question whether it is closed.
pub fn is_closed(answer: bool) -> Did {
    if answer {
        Did::saw(Sight::Shut)
    } else {
        Did::saw(Sight::Open)
    }
}
