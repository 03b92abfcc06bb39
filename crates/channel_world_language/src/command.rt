//! What a line of a script says.
ghost use Rattle.std.specs.Prelude.{◌≡◌, option_copied};
ghost use Rattle.std.specs.Option.{option_map};
ghost use Rattle.channel_world_language.specs.Words.{words_after};
ghost use Rattle.channel_world_language.specs.Command.{openings, parse, read, that_is, for_word, call_commands};
ghost use Rattle.channel_world_language.specs.Language.{today};
ghost use Rattle.channel_world_language.specs.Said.{said, said_line, form_of};

use crate::words::{first_word, next_name, next_number};

/// A line has at most this many bytes, its end left out.
const LINE_LIMIT: usize = 200;

/// What the first line of a script says.
#[derive(Clone, Copy, Debug)]
pub enum Opening {
    /// A channel of this capacity.
    Bounded { capacity: u64 },
    /// A channel of any number of messages.
    Unbounded,
}

/// A send that doesn't wait.
#[derive(Clone, Copy)]
pub enum Sending {
    /// It is refused if the channel is full.
    Try,
    /// It displaces the oldest message of a full channel.
    Force,
}

/// A question to a strong handle.
#[derive(Clone, Copy)]
pub enum Question {
    /// Whether the channel is closed.
    IsClosed,
    /// Whether it holds no message.
    IsEmpty,
    /// Whether it holds as many messages as it may.
    IsFull,
    /// How many messages it holds.
    Len,
    /// How many it may hold, if there is a bound.
    Capacity,
    /// How many senders live.
    SenderCount,
    /// How many receivers live.
    ReceiverCount,
}

/// What is done to the one name that a command gives.
#[derive(Clone, Copy)]
pub enum Doing {
    /// A receive that doesn't wait.
    TryRecv,
    /// A poll of a receiver as a stream.
    Next,
    /// A poll of an operation.
    Poll,
    /// A handle is dropped, or an operation given up.
    Drop,
    /// The channel is closed.
    Close,
    /// Whether a stream or a send has ended.
    IsTerminated,
    /// A question to a strong handle.
    Ask(Question),
}

/// What is made through a handle under a new name.
#[derive(Clone, Copy)]
pub enum Making {
    /// A receive.
    Recv,
    /// A wait for the closing.
    Closed,
    /// A handle of the same kind.
    Clone,
    /// A weak handle from a strong one.
    Downgrade,
    /// A strong handle from a weak one.
    Upgrade,
}

/// A command, with the names and the message that it gives.
#[derive(Clone, Copy)]
pub enum Command<'a> {
    /// A send that doesn't wait.
    Message {
        sending: Sending,
        sender: &'a [u8],
        msg: u64,
    },
    /// Several messages at once, at most `limit`.
    RecvMany {
        receiver: &'a [u8],
        limit: u64,
    },
    /// A new send `op`.
    Send {
        op: &'a [u8],
        sender: &'a [u8],
        msg: u64,
    },
    /// Something else that is new.
    New {
        making: Making,
        new: &'a [u8],
        handle: &'a [u8],
    },
    /// What is done to one name.
    One {
        doing: Doing,
        name: &'a [u8],
    },
    /// Whether two handles are of the same channel.
    SameChannel {
        a: &'a [u8],
        b: &'a [u8],
    },
}

/// What a line after the first says.
#[derive(Clone, Copy)]
pub enum Line<'a> {
    /// A command that makes one call.
    Call(Command<'a>),
    /// Settling.
    Settle,
}

/// The first word of a command.
#[derive(Clone, Copy)]
enum Verb {
    Message(Sending),
    RecvMany,
    Send,
    New(Making),
    One(Doing),
    SameChannel,
}

/// The first word of each command that makes a call, and its verb.
static VERBS: [(&[u8], Verb); 23] = [
    (b"try_send", Verb::Message(Sending::Try)),
    (b"force_send", Verb::Message(Sending::Force)),
    (b"try_recv", Verb::One(Doing::TryRecv)),
    (b"recv_many", Verb::RecvMany),
    (b"next", Verb::One(Doing::Next)),
    (b"send", Verb::Send),
    (b"recv", Verb::New(Making::Recv)),
    (b"closed", Verb::New(Making::Closed)),
    (b"poll", Verb::One(Doing::Poll)),
    (b"is_terminated", Verb::One(Doing::IsTerminated)),
    (b"drop", Verb::One(Doing::Drop)),
    (b"close", Verb::One(Doing::Close)),
    (b"clone", Verb::New(Making::Clone)),
    (b"downgrade", Verb::New(Making::Downgrade)),
    (b"upgrade", Verb::New(Making::Upgrade)),
    (b"same_channel", Verb::SameChannel),
    (b"is_closed", Verb::One(Doing::Ask(Question::IsClosed))),
    (b"is_empty", Verb::One(Doing::Ask(Question::IsEmpty))),
    (b"is_full", Verb::One(Doing::Ask(Question::IsFull))),
    (b"len", Verb::One(Doing::Ask(Question::Len))),
    (b"capacity", Verb::One(Doing::Ask(Question::Capacity))),
    (
        b"sender_count",
        Verb::One(Doing::Ask(Question::SenderCount)),
    ),
    (
        b"receiver_count",
        Verb::One(Doing::Ask(Question::ReceiverCount)),
    ),
];

/// The verb that is spelled so.
fn verb_spelled(word: &[u8]) -> Option<Verb>
    ensures { option_map form_of result ≡ for_word word.now call_commands }
{
    VERBS.iter().find(|row| word == row.0).map(|row| row.1)
}

/// The value, if the line has no more words.
fn whole<T: Copy>(value: T, rest: Option<&[u8]>) -> Option<T>
    ensures { result ≡ read (that_is value) (words_after (option_copied rest.entry)) }
{
    rest.is_none().then_some(value)
}

/// The command of a verb and what comes after it on its line.
fn complete<'a>(verb: Verb, rest: Option<&'a [u8]>) -> Option<Command<'a>>
    ensures { option_map said result ≡ read (form_of verb) (words_after (option_copied rest.entry)) }
{
    let (name, rest) = next_name(rest)?;
    let (command, rest) = match verb {
        Verb::One(doing) => (Command::One { doing, name }, rest),
        Verb::Message(sending) => {
            let (msg, rest) = next_number(rest)?;
            let command = Command::Message {
                sending,
                sender: name,
                msg,
            };
            (command, rest)
        }
        Verb::RecvMany => {
            let (limit, rest) = next_number(rest)?;
            let receiver = name;
            (Command::RecvMany { receiver, limit }, rest)
        }
        Verb::New(making) => {
            let (handle, rest) = next_name(rest)?;
            let command = Command::New {
                making,
                new: name,
                handle,
            };
            (command, rest)
        }
        Verb::Send => {
            let (sender, rest) = next_name(rest)?;
            let (msg, rest) = next_number(rest)?;
            let op = name;
            (Command::Send { op, sender, msg }, rest)
        }
        Verb::SameChannel => {
            let (b, rest) = next_name(rest)?;
            (Command::SameChannel { a: name, b }, rest)
        }
    };
    whole(command, rest)
}

/// What a line says; `None` if it can't be read.
pub fn parse_line(line: &[u8]) -> Option<Line<'_>>
    ensures { option_map said_line result ≡ parse today line.entry.now }
{
    if line.len() > LINE_LIMIT {
        return None;
    }
    let (word, rest) = first_word(line);
    match verb_spelled(word) {
        Some(verb) => complete(verb, rest).map(Line::Call),
        None if word == b"settle".as_slice() => whole(Line::Settle, rest),
        None => None,
    }
}

/// The channel that the first line of a script says; `None` if it can't be read.
pub fn parse_opening(line: &[u8]) -> Option<Opening>
    ensures { result ≡ parse openings line.now }
{
    if line.len() > LINE_LIMIT {
        return None;
    }
    let (word, rest) = first_word(line);
    if word == b"bounded".as_slice() {
        let (capacity, rest) = next_number(rest)?;
        return whole(Opening::Bounded { capacity }, rest);
    }
    if word == b"unbounded".as_slice() {
        return whole(Opening::Unbounded, rest);
    }
    None
}
