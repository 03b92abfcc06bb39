//! Refusals without their messages: what they say of messages that can't be shown, and that the message is let go.

use crate::checks::expect_equal;
use async_channel::{EventIds, Refused, SendError, Sender, TrySendError, bounded};
use std::alloc::Global;
use std::cell::Cell;
use std::error::Error;
use std::sync::Wait;

/// A message that counts where it is dropped. It has no text.
struct Job<'a> {
    dropped: &'a Cell<u32>,
}

impl<'a> Drop for Job<'a> {
    fn drop(self) {
        let Job { dropped } = self;
        dropped.set(dropped.get().wrapping_add(1));
    }
}

/// Writes what users are shown, what programmers are, and how many messages are gone since. Where memory is refused the text differs.
fn show<E: Error>(text: &mut String, error: &E, dropped: &Cell<u32>) {
    let gone = dropped.replace(0);
    let _ = write!(text, "{error}; {error:?}; {gone} gone\n");
}

/// A refused send as a program passes it on.
fn send<'a, R: Wait + Copy>(sender: &Sender<Job<'a>, R>, job: Job<'a>) -> anyhow::Result<()> {
    sender
        .send_blocking(job)
        .map_err(|refused| refused.without_message())?;
    Ok(())
}

/// The same of one that doesn't wait.
fn try_send<'a, R: Wait + Copy>(sender: &Sender<Job<'a>, R>, job: Job<'a>) -> anyhow::Result<()> {
    sender
        .try_send(job)
        .map_err(|refused| refused.without_message())?;
    Ok(())
}

/// Writes what was passed on.
fn pass_on(text: &mut String, sent: anyhow::Result<()>, dropped: &Cell<u32>) {
    let gone = dropped.replace(0);
    match sent {
        Ok(()) => {
            let _ = write!(text, "sent; {gone} gone\n");
        }
        Err(error) => {
            let _ = write!(text, "{error}; {gone} gone\n");
        }
    }
}

/// Shows a refusal of a send without its message.
fn show_send<'a>(
    text: &mut String,
    refused: Refused<SendError<Job<'a>>, Job<'a>>,
    dropped: &'a Cell<u32>,
) {
    show(text, &refused.without_message(), dropped);
}

/// The same of a send that doesn't wait.
fn show_try_send<'a>(
    text: &mut String,
    refused: Refused<TrySendError<Job<'a>>, Job<'a>>,
    dropped: &'a Cell<u32>,
) {
    show(text, &refused.without_message(), dropped);
}

const SHOWN: &str = "\
sending into a closed channel; Plain(SendError(..)); 1 gone
want of memory; NoMemory(()); 1 gone
serials used up; SerialsUsedUp(()); 1 gone
sending into a closed channel; Plain(Closed(..)); 1 gone
sending into a full channel; Plain(Full(..)); 1 gone
want of memory; NoMemory(()); 1 gone
serials used up; SerialsUsedUp(()); 1 gone
";

#[test]
fn refusals_without_messages_have_their_texts(rt: HostRuntime) {
    let mut text = String::new(rt.alloc());
    let dropped = Cell::new(0);
    let job = || Job { dropped: &dropped };
    show_send(&mut text, Refused::Plain(SendError(job())), &dropped);
    show_send(&mut text, Refused::NoMemory(job()), &dropped);
    show_send(&mut text, Refused::SerialsUsedUp(job()), &dropped);
    let (closed, full) = (TrySendError::Closed(job()), TrySendError::Full(job()));
    show_try_send(&mut text, Refused::Plain(closed), &dropped);
    show_try_send(&mut text, Refused::Plain(full), &dropped);
    show_try_send(&mut text, Refused::NoMemory(job()), &dropped);
    show_try_send(&mut text, Refused::SerialsUsedUp(job()), &dropped);
    expect_equal(&rt, &text.as_str(), &SHOWN);
}

/// Sends into a channel of one place until it is closed, and writes what each send passed on; then what is gone with the channel.
fn pass_all_on<R: Wait + Copy>(rt: R, alloc: Global, text: &mut String, dropped: &Cell<u32>) {
    let mut ids = EventIds::new();
    let Ok((sender, receiver)) = bounded(rt, alloc, 1, &mut ids) else {
        return;
    };
    pass_on(text, try_send(&sender, Job { dropped }), dropped);
    pass_on(text, try_send(&sender, Job { dropped }), dropped);
    receiver.close();
    pass_on(text, try_send(&sender, Job { dropped }), dropped);
    pass_on(text, send(&sender, Job { dropped }), dropped);
    drop((sender, receiver));
    pass_on(text, Ok(()), dropped);
}

const PASSED_ON: &str = "\
sent; 0 gone
sending into a full channel; 1 gone
sending into a closed channel; 1 gone
sending into a closed channel; 1 gone
sent; 1 gone
";

#[test]
fn a_refusal_of_any_message_is_passed_on(rt: HostRuntime) {
    let mut text = String::new(rt.alloc());
    let dropped = Cell::new(0);
    pass_all_on(rt, rt.alloc(), &mut text, &dropped);
    expect_equal(&rt, &text.as_str(), &PASSED_ON);
}
