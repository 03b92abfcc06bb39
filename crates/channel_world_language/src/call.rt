//! The names that a command uses and gives, and the call that it makes.
ghost use Rattle.std.specs.Prelude.{◌≡◌, ◌<◌, ◌^◌, ◌∷◌, length, option_and_then, option_copied};
ghost use Rattle.std.specs.Option.{option_map, option_to_list};
ghost use Rattle.channel_world_language.specs.Table.{named_in};
ghost use Rattle.channel_world_language.specs.Asked.{used, sort_of, given, handle_of, sending_call, making_call, question_call, doing_call, call_of};
ghost use Rattle.channel_world_language.specs.Said.{said};

use crate::command::{Command, Doing, Making, Question, Sending};
use crate::table::{Named, Sort, Table};
use channel_world_model::call::Call;
use channel_world_model::name::{HandleId, OpId};

/// The name that a command uses first, and the one after it, if it uses two.
pub fn used<'a>(command: &Command<'a>) -> (&'a [u8], Option<&'a [u8]>)
    ensures { result.0.now ∷ option_to_list (option_copied result.1) ≡ used (said command.now) }
{
    match command {
        Command::Message { sender, .. } | Command::Send { sender, .. } => (sender, None),
        Command::RecvMany { receiver, .. } => (receiver, None),
        Command::New { handle, .. } => (handle, None),
        Command::One { name, .. } => (name, None),
        Command::SameChannel { a, b } => (a, Some(*b)),
    }
}

/// What is made under a new name.
fn sort_of(making: Making) -> Sort
    ensures { result ≡ sort_of making }
{
    match making {
        Making::Recv | Making::Closed => Sort::Op,
        Making::Clone | Making::Downgrade | Making::Upgrade => Sort::Handle,
    }
}

/// The new name that a command gives, and what to.
pub fn given<'a>(command: &Command<'a>) -> Option<(&'a [u8], Sort)>
    ensures { option_map (λ n. (n.0.now, n.1)) result ≡ given (said command.now) }
{
    match command {
        Command::Send { op, .. } => Some((op, Sort::Op)),
        Command::New { making, new, .. } => Some((new, sort_of(*making))),
        _ => None,
    }
}

/// The handle of a name.
fn handle_named(table: &Table<'_>, name: &[u8]) -> Option<HandleId>
    ensures { result ≡ option_and_then handle_of (named_in table.now name.now) }
{
    match table.get(name) {
        Some(Named::Handle(handle)) => Some(handle),
        Some(Named::Op(_)) | None => None,
    }
}

/// A send that doesn't wait.
fn sending_call(sending: Sending, sender: HandleId, msg: u64) -> Call<u64>
    ensures { result ≡ sending_call sending sender msg }
{
    match sending {
        Sending::Try => Call::TrySend { sender, msg },
        Sending::Force => Call::ForceSend { sender, msg },
    }
}

/// What makes an operation or a handle of this number.
fn making_call(making: Making, number: u32, handle: HandleId) -> Call<u64>
    ensures { result ≡ making_call making number handle }
{
    let op = OpId(number);
    let new = HandleId(number);
    match making {
        Making::Recv => Call::NewRecv {
            op,
            receiver: handle,
        },
        Making::Closed => Call::NewClosed { op, sender: handle },
        Making::Clone => Call::TryClone { handle, new },
        Making::Downgrade => Call::Downgrade { handle, new },
        Making::Upgrade => Call::Upgrade { weak: handle, new },
    }
}

/// A question to a handle.
fn question_call(question: Question, handle: HandleId) -> Call<u64>
    ensures { result ≡ question_call question handle }
{
    match question {
        Question::IsClosed => Call::IsClosed { handle },
        Question::IsEmpty => Call::IsEmpty { handle },
        Question::IsFull => Call::IsFull { handle },
        Question::Len => Call::Len { handle },
        Question::Capacity => Call::Capacity { handle },
        Question::SenderCount => Call::SenderCount { handle },
        Question::ReceiverCount => Call::ReceiverCount { handle },
    }
}

/// What is done to a handle or an operation; `None` if it can only be done to the other sort.
fn doing_call(doing: Doing, named: Named) -> Option<Call<u64>>
    ensures { result ≡ doing_call doing named }
{
    Some(match (doing, named) {
        (Doing::TryRecv, Named::Handle(receiver)) => Call::TryRecv { receiver },
        (Doing::Next, Named::Handle(receiver)) => Call::PollNext { receiver },
        (Doing::Poll, Named::Op(op)) => Call::Poll { op },
        (Doing::Drop, Named::Handle(handle)) => Call::Drop { handle },
        (Doing::Drop, Named::Op(op)) => Call::GiveUp { op },
        (Doing::Close, Named::Handle(handle)) => Call::Close { handle },
        (Doing::IsTerminated, Named::Handle(receiver)) => Call::StreamIsTerminated { receiver },
        (Doing::IsTerminated, Named::Op(op)) => Call::SendIsTerminated { op },
        (Doing::Ask(question), Named::Handle(handle)) => question_call(question, handle),
        _ => return None,
    })
}

/// The call of a command; `None` if a name is of the wrong sort.
pub fn call_of(table: &Table<'_>, command: &Command<'_>) -> Option<Call<u64>>
    requires { length table.now < 2 ^ 32 }
    ensures { result ≡ call_of table.now (said command.now) }
{
    match command {
        Command::Message {
            sending,
            sender,
            msg,
        } => Some(sending_call(*sending, handle_named(table, sender)?, *msg)),
        Command::RecvMany { receiver, limit } => {
            let receiver = handle_named(table, receiver)?;
            let limit = *limit as usize;
            Some(Call::RecvMany { receiver, limit })
        }
        Command::Send { sender, msg, .. } => {
            let sender = handle_named(table, sender)?;
            let (op, msg) = (OpId(table.next()), *msg);
            Some(Call::NewSend { op, sender, msg })
        }
        Command::New { making, handle, .. } => {
            let handle = handle_named(table, handle)?;
            Some(making_call(*making, table.next(), handle))
        }
        Command::One { doing, name } => doing_call(*doing, table.get(name)?),
        Command::SameChannel { a, b } => {
            let a = handle_named(table, a)?;
            let b = handle_named(table, b)?;
            Some(Call::SameChannel { a, b })
        }
    }
}
