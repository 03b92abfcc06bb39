//! What refusals show, say and hand back.

use crate::checks::expect_equal;
use channel_calls::error::{
    HandleError, OpenError, RecvError, Refused, SendError, TryRecvError, TrySendError,
};
use std::fmt;

/// Writes what users are shown, and then what programmers are. Where memory is refused the text differs.
fn show<T: fmt::Display + fmt::Debug>(text: &mut String, shown: &T) {
    let _ = write!(text, "{shown}; {shown:?}\n");
}

const SHOWN: &str = "\
sending into a closed channel; SendError(..)
sending into a closed channel; Closed(..)
sending into a full channel; Full(..)
receiving from an empty and closed channel; RecvError
receiving from an empty and closed channel; Closed
receiving from an empty channel; Empty
receiving from an empty and closed channel; Plain(RecvError)
want of memory; NoMemory(())
serials used up; SerialsUsedUp(())
want of memory; NoMemory
identities used up; IdsUsedUp
too many handles; TooMany
want of memory; NoMemory
";

#[test]
fn errors_have_their_texts(rt: HostRuntime) {
    let mut text = String::new(rt.alloc());
    show(&mut text, &SendError(1u64));
    show(&mut text, &TrySendError::Closed(3u64));
    show(&mut text, &TrySendError::Full(2u64));
    show(&mut text, &RecvError);
    show(&mut text, &TryRecvError::Closed);
    show(&mut text, &TryRecvError::Empty);
    show(&mut text, &Refused::<RecvError>::Plain(RecvError));
    show(&mut text, &Refused::<SendError<u64>>::NoMemory(()));
    show(&mut text, &Refused::<RecvError>::SerialsUsedUp(()));
    show(&mut text, &OpenError::NoMemory);
    show(&mut text, &OpenError::IdsUsedUp);
    show(&mut text, &HandleError::TooMany);
    show(&mut text, &HandleError::NoMemory);
    expect_equal(&rt, &text.as_str(), &SHOWN);
}

/// Whether it was full, whether it was closed, and the message that a refused send hands back.
fn told(refused: Refused<TrySendError<u64>, u64>) -> (bool, bool, u64) {
    (refused.is_full(), refused.is_closed(), refused.into_inner())
}

/// The same of the channel's own refusal.
fn told_of(error: TrySendError<u64>) -> (bool, bool, u64) {
    (error.is_full(), error.is_closed(), error.into_inner())
}

/// Whether the channel's own refusal stays, and want of memory or of serials is none of the channel's.
fn keeps_its_own() -> bool {
    let own: Refused<RecvError> = Refused::Plain(RecvError);
    let memory: Refused<RecvError> = Refused::NoMemory(());
    let sent: Refused<SendError<u64>, u64> = Refused::NoMemory(4);
    own.into_plain() == Some(RecvError) && memory.into_plain().is_none() && sent.into_inner() == 4
}

#[test]
fn refusals_are_told_apart_and_hand_back_their_message(rt: HostRuntime) {
    let found = [
        told_of(TrySendError::Full(5)),
        told_of(TrySendError::Closed(6)),
        told(Refused::Plain(TrySendError::Full(1))),
        told(Refused::Plain(TrySendError::Closed(2))),
        told(Refused::NoMemory(3)),
        (
            TryRecvError::Empty.is_empty(),
            TryRecvError::Empty.is_closed(),
            0,
        ),
        (
            TryRecvError::Closed.is_empty(),
            TryRecvError::Closed.is_closed(),
            0,
        ),
        (keeps_its_own(), false, SendError(7).into_inner()),
    ];
    let wanted = [
        (true, false, 5),
        (false, true, 6),
        (true, false, 1),
        (false, true, 2),
        (false, false, 3),
        (true, false, 0),
        (false, true, 0),
        (true, false, 7),
    ];
    expect_equal(&rt, &found, &wanted);
}
