//! What calls answer, in short: a word, and the message or the number that it speaks of, or 0.

use concurrent_queue::call::QueueReply;
use concurrent_queue::error::{ForcePushError, PopError, PushError};

/// An answer in short.
pub(crate) type Said = (&'static str, u64);

/// What a push says.
pub(crate) fn pushed(answer: &Result<(), PushError<u64>>) -> Said {
    match answer {
        Ok(()) => ("pushed", 0),
        Err(PushError::Full(message)) => ("full", *message),
        Err(PushError::Closed(message)) => ("closed", *message),
        Err(PushError::NoMemory(message)) => ("no memory", *message),
    }
}

/// What a displacing push says.
pub(crate) fn forced(answer: &Result<Option<u64>, ForcePushError<u64>>) -> Said {
    match answer {
        Ok(Some(message)) => ("displaced", *message),
        Ok(None) => ("forced", 0),
        Err(ForcePushError::Closed(message)) => ("closed", *message),
        Err(ForcePushError::NoMemory(message)) => ("no memory", *message),
    }
}

/// What a pop says.
pub(crate) fn popped(answer: &Result<u64, PopError>) -> Said {
    match answer {
        Ok(message) => ("popped", *message),
        Err(PopError::Empty) => ("empty", 0),
        Err(PopError::Closed) => ("shut", 0),
    }
}

/// What any call says.
pub(crate) fn said_by(reply: &QueueReply<u64>) -> Said {
    match reply {
        QueueReply::Push(answer) => pushed(answer),
        QueueReply::Force(answer) => forced(answer),
        QueueReply::Pop(answer) => popped(answer),
        QueueReply::Close(true) => ("closed it", 0),
        QueueReply::Close(false) => ("was closed", 0),
        QueueReply::Flag(true) => ("yes", 0),
        QueueReply::Flag(false) => ("no", 0),
        QueueReply::Count(count) => ("holds", *count as u64),
        QueueReply::Cap(Some(room)) => ("room", *room as u64),
        QueueReply::Cap(None) => ("no bound", 0),
    }
}

/// The same of a reply that is dropped: once here, and not at each call.
pub(crate) fn replied(reply: QueueReply<u64>) -> Said {
    said_by(&reply)
}
