//! Why a call of a channel is refused.
//!
//! # Extensions
//!
//! [`Refused`], [`OpenError`] and [`HandleError`], for want of memory, serials, identities or counts.

use std::error::Error;
use std::fmt;

/// A send into a closed channel, with its message. As in `async-channel` 2.5.0.
#[derive(Clone, Copy, Drop, PartialEq, Eq)]
pub struct SendError<T>(pub T);

/// A send that doesn't wait was refused, with its message. As in `async-channel` 2.5.0.
#[derive(Clone, Copy, Drop, PartialEq, Eq)]
pub enum TrySendError<T> {
    /// The channel was open and full.
    Full(T),
    /// The channel was closed.
    Closed(T),
}

/// A receive from a channel that is closed and empty. As in `async-channel` 2.5.0.
#[derive(Clone, Copy, Debug, PartialEq, Eq)]
pub struct RecvError;

/// A receive that doesn't wait was refused. As in `async-channel` 2.5.0.
#[derive(Clone, Copy, Debug, PartialEq, Eq)]
pub enum TryRecvError {
    /// The channel was open and empty.
    Empty,
    /// The channel was closed and empty.
    Closed,
}

/// A refusal: by the channel, or for want of memory or of serials, with what is returned.
#[derive(Clone, Copy, Debug, Drop, PartialEq, Eq)]
pub enum Refused<E, K = ()> {
    /// The channel's own refusal.
    Plain(E),
    /// Memory was refused.
    NoMemory(K),
    /// All serials of a list of listeners were given out.
    SerialsUsedUp(K),
}

/// No channel was opened.
#[derive(Clone, Copy, Debug, PartialEq, Eq)]
pub enum OpenError {
    /// Memory was refused, or the capacity is above 2^58.
    NoMemory,
    /// The source of identities has fewer than four left.
    IdsUsedUp,
}

/// No handle was made.
#[derive(Clone, Copy, Debug, PartialEq, Eq)]
pub enum HandleError {
    /// More than half of `usize::MAX` handles of this kind live.
    TooMany,
    /// Memory was refused.
    NoMemory,
}

impl<T> SendError<T> {
    ghost use Rattle.std.specs.Prelude.{◌≡◌};
    ghost use Rattle.channel_calls.specs.Errors.{unsent};

    /// The message that wasn't sent.
    pub fn into_inner(self) -> T
        ensures { result ≡ unsent self }
    {
        self.0
    }
}

impl<T> TrySendError<T> {
    ghost use Rattle.std.specs.Prelude.{◌≡◌, not};
    ghost use Rattle.channel_calls.specs.Errors.{try_unsent, found_full};

    /// The message that wasn't sent.
    pub fn into_inner(self) -> T
        ensures { result ≡ try_unsent self }
    {
        match self {
            TrySendError::Full(message) => message,
            TrySendError::Closed(message) => message,
        }
    }

    /// Whether the channel was open and full.
    pub fn is_full(&self) -> bool
        ensures { result ≡ found_full self.now }
    {
        match self {
            TrySendError::Full(_) => true,
            TrySendError::Closed(_) => false,
        }
    }

    /// Whether the channel was closed.
    pub fn is_closed(&self) -> bool
        ensures { result ≡ not (found_full self.now) }
    {
        !self.is_full()
    }
}

impl<E, K> Refused<E, K> {
    ghost use Rattle.std.specs.Prelude.{◌≡◌};
    ghost use Rattle.channel_calls.specs.Errors.{own_refusal, wanted_memory};

    /// The channel's own refusal. `None` if memory or serials were wanting: what they return is dropped then.
    pub fn into_plain(self) -> Option<E>
    where
        E: Drop,
        K: Drop,
        ensures { result ≡ own_refusal self }
    {
        match self {
            Refused::Plain(error) => Some(error),
            Refused::NoMemory(_) | Refused::SerialsUsedUp(_) => None,
        }
    }

    /// Whether memory was refused.
    pub fn is_no_memory(&self) -> bool
        ensures { result ≡ wanted_memory self.now }
    {
        match self {
            Refused::NoMemory(_) => true,
            Refused::Plain(_) | Refused::SerialsUsedUp(_) => false,
        }
    }
}

impl<T, K> Refused<SendError<T>, K> {
    ghost use Rattle.std.specs.Prelude.{◌≡◌};
    ghost use Rattle.channel_calls.specs.Errors.{was_own};

    /// Whether a closed channel refused the message.
    pub fn is_closed(&self) -> bool
        ensures { result ≡ was_own self.now }
    {
        match self {
            Refused::Plain(_) => true,
            Refused::NoMemory(_) | Refused::SerialsUsedUp(_) => false,
        }
    }
}

impl<T> Refused<SendError<T>> {
    ghost use Rattle.std.specs.Prelude.{◌≡◌};
    ghost use Rattle.channel_calls.specs.Errors.{given_back};

    /// The message that a closed channel refused. `None` if memory or serials were wanting: the send keeps its message then. It has a name
    /// of its own, since at messages of type `()` both kinds of refused sends are of one type.
    pub fn into_message(self) -> Option<T>
        ensures { result ≡ given_back self }
    {
        match self {
            Refused::Plain(error) => Some(error.into_inner()),
            Refused::NoMemory(()) | Refused::SerialsUsedUp(()) => None,
        }
    }
}

impl<T> Refused<SendError<T>, T> {
    ghost use Rattle.std.specs.Prelude.{◌≡◌};
    ghost use Rattle.channel_calls.specs.Errors.{handed_back, bare_send};

    /// The same refusal without its message, which is dropped. It is an [`Error`] whatever the message is, as `?` asks, where this one is
    /// an error only for messages with `Debug`.
    ///
    /// ```text
    /// // of messages of type `Job`, in a function that returns `anyhow::Result`
    /// sender.send_blocking(job).map_err(|refused| refused.without_message())?;
    /// ```
    pub fn without_message(self) -> Refused<SendError<()>>
    where
        T: Drop,
        ensures { result ≡ bare_send self }
    {
        match self {
            Refused::Plain(_) => Refused::Plain(SendError(())),
            Refused::NoMemory(_) => Refused::NoMemory(()),
            Refused::SerialsUsedUp(_) => Refused::SerialsUsedUp(()),
        }
    }

    /// The message that wasn't sent, whatever refused it.
    pub fn into_inner(self) -> T
        ensures { result ≡ handed_back self }
    {
        match self {
            Refused::Plain(error) => error.into_inner(),
            Refused::NoMemory(message) => message,
            Refused::SerialsUsedUp(message) => message,
        }
    }
}

impl<T> Refused<TrySendError<T>, T> {
    ghost use Rattle.std.specs.Prelude.{◌≡◌};
    ghost use Rattle.channel_calls.specs.Errors.{try_handed_back, bare_try_send, was_full, was_closed};

    /// The same refusal without its message, which is dropped. It is an [`Error`] whatever the message is, as `?` asks, where this one is
    /// an error only for messages with `Debug`.
    pub fn without_message(self) -> Refused<TrySendError<()>>
    where
        T: Drop,
        ensures { result ≡ bare_try_send self }
    {
        match self {
            Refused::Plain(TrySendError::Full(_)) => Refused::Plain(TrySendError::Full(())),
            Refused::Plain(TrySendError::Closed(_)) => Refused::Plain(TrySendError::Closed(())),
            Refused::NoMemory(_) => Refused::NoMemory(()),
            Refused::SerialsUsedUp(_) => Refused::SerialsUsedUp(()),
        }
    }

    /// The message that wasn't sent, whatever refused it.
    pub fn into_inner(self) -> T
        ensures { result ≡ try_handed_back self }
    {
        match self {
            Refused::Plain(error) => error.into_inner(),
            Refused::NoMemory(message) => message,
            Refused::SerialsUsedUp(message) => message,
        }
    }

    /// Whether an open and full channel refused the message.
    pub fn is_full(&self) -> bool
        ensures { result ≡ was_full self.now }
    {
        match self {
            Refused::Plain(error) => error.is_full(),
            _ => false,
        }
    }

    /// Whether a closed channel refused the message.
    pub fn is_closed(&self) -> bool
        ensures { result ≡ was_closed self.now }
    {
        match self {
            Refused::Plain(error) => error.is_closed(),
            _ => false,
        }
    }
}

impl<K> Refused<RecvError, K> {
    ghost use Rattle.std.specs.Prelude.{◌≡◌};
    ghost use Rattle.channel_calls.specs.Errors.{was_own};

    /// Whether the channel was closed and empty.
    pub fn is_closed(&self) -> bool
        ensures { result ≡ was_own self.now }
    {
        match self {
            Refused::Plain(_) => true,
            Refused::NoMemory(_) | Refused::SerialsUsedUp(_) => false,
        }
    }
}

impl<K> Refused<TryRecvError, K> {
    ghost use Rattle.std.specs.Prelude.{◌≡◌};
    ghost use Rattle.channel_calls.specs.Errors.{was_empty, was_over};

    /// Whether the channel was open and empty.
    pub fn is_empty(&self) -> bool
        ensures { result ≡ was_empty self.now }
    {
        match self {
            Refused::Plain(error) => error.is_empty(),
            Refused::NoMemory(_) | Refused::SerialsUsedUp(_) => false,
        }
    }

    /// Whether the channel was closed and empty.
    pub fn is_closed(&self) -> bool
        ensures { result ≡ was_over self.now }
    {
        match self {
            Refused::Plain(error) => error.is_closed(),
            Refused::NoMemory(_) | Refused::SerialsUsedUp(_) => false,
        }
    }
}

impl TryRecvError {
    ghost use Rattle.std.specs.Prelude.{◌≡◌, not};
    ghost use Rattle.channel_calls.specs.Errors.{found_empty};

    /// Whether the channel was open and empty.
    pub fn is_empty(&self) -> bool
        ensures { result ≡ found_empty self.now }
    {
        match self {
            TryRecvError::Empty => true,
            TryRecvError::Closed => false,
        }
    }

    /// Whether the channel was closed and empty.
    pub fn is_closed(&self) -> bool
        ensures { result ≡ not (found_empty self.now) }
    {
        !self.is_empty()
    }
}

impl<T> fmt::Debug for SendError<T> {
    fn fmt<W: fmt::Write>(&self, f: &mut fmt::Formatter<W>) -> fmt::Result {
        write!(f, "SendError(..)")
    }
}

impl<T> fmt::Display for SendError<T> {
    fn fmt<W: fmt::Write>(&self, f: &mut fmt::Formatter<W>) -> fmt::Result {
        write!(f, "sending into a closed channel")
    }
}

impl<T: Drop> Error for SendError<T> {}

impl<T> fmt::Debug for TrySendError<T> {
    fn fmt<W: fmt::Write>(&self, f: &mut fmt::Formatter<W>) -> fmt::Result {
        match self {
            TrySendError::Full(_) => write!(f, "Full(..)"),
            TrySendError::Closed(_) => write!(f, "Closed(..)"),
        }
    }
}

impl<T> fmt::Display for TrySendError<T> {
    fn fmt<W: fmt::Write>(&self, f: &mut fmt::Formatter<W>) -> fmt::Result {
        match self {
            TrySendError::Full(_) => write!(f, "sending into a full channel"),
            TrySendError::Closed(_) => write!(f, "sending into a closed channel"),
        }
    }
}

impl<T: Drop> Error for TrySendError<T> {}

impl fmt::Display for RecvError {
    fn fmt<W: fmt::Write>(&self, f: &mut fmt::Formatter<W>) -> fmt::Result {
        write!(f, "receiving from an empty and closed channel")
    }
}

impl Error for RecvError {}

impl fmt::Display for TryRecvError {
    fn fmt<W: fmt::Write>(&self, f: &mut fmt::Formatter<W>) -> fmt::Result {
        match self {
            TryRecvError::Empty => write!(f, "receiving from an empty channel"),
            TryRecvError::Closed => write!(f, "receiving from an empty and closed channel"),
        }
    }
}

impl Error for TryRecvError {}

impl<E: fmt::Display, K> fmt::Display for Refused<E, K> {
    fn fmt<W: fmt::Write>(&self, f: &mut fmt::Formatter<W>) -> fmt::Result {
        match self {
            Refused::Plain(error) => error.fmt(f),
            Refused::NoMemory(_) => write!(f, "want of memory"),
            Refused::SerialsUsedUp(_) => write!(f, "serials used up"),
        }
    }
}

impl<E: Error + Drop, K: fmt::Debug + Drop> Error for Refused<E, K> {}

impl fmt::Display for OpenError {
    fn fmt<W: fmt::Write>(&self, f: &mut fmt::Formatter<W>) -> fmt::Result {
        match self {
            OpenError::NoMemory => write!(f, "want of memory"),
            OpenError::IdsUsedUp => write!(f, "identities used up"),
        }
    }
}

impl Error for OpenError {}

impl fmt::Display for HandleError {
    fn fmt<W: fmt::Write>(&self, f: &mut fmt::Formatter<W>) -> fmt::Result {
        match self {
            HandleError::TooMany => write!(f, "too many handles"),
            HandleError::NoMemory => write!(f, "want of memory"),
        }
    }
}

impl Error for HandleError {}
