//! How the handles of a thread go at last, and what is found meanwhile.

use crate::answers::{is_closed, tried_recv, tried_send};
use crate::party::Hands;
use async_channel::{Receiver, Sender, WeakReceiver, WeakSender};
use history_checker::log::{Log, Stamps};
use history_checker::point::{Did, Side, Sight};
use std::sync::Wait;

/// A handle is dropped.
pub fn let_go<H: Drop>(handle: H, side: Side, stamps: &Stamps, log: &mut Log) {
    let begin = stamps.stamp();
    drop(handle);
    log.note(begin, stamps.stamp(), Did::dropped(side));
}

/// What came of making a strong handle of a weak one. None was made where the channel is closed, no other such handle lives, or
/// memory was refused.
fn upgraded<H: Drop, E: Drop>(
    made: Result<Option<H>, E>,
    side: Side,
    begin: u64,
    stamps: &Stamps,
    log: &mut Log,
) -> Option<H> {
    match made {
        Ok(Some(handle)) => {
            log.note(begin, stamps.stamp(), Did::upgraded(side));
            Some(handle)
        }
        Ok(None) => {
            log.note(begin, stamps.stamp(), Did::not_upgraded(side));
            None
        }
        Err(error) => {
            drop(error);
            log.spoiled = true;
            None
        }
    }
}

/// A sender is made of a weak one.
pub fn upgrade_sender<R: Wait + Copy>(
    weak: &WeakSender<u64, R>,
    stamps: &Stamps,
    log: &mut Log,
) -> Option<Sender<u64, R>> {
    let begin = stamps.stamp();
    upgraded(weak.upgrade(), Side::Senders, begin, stamps, log)
}

/// A receiver is made of a weak one.
pub fn upgrade_receiver<R: Wait + Copy>(
    weak: &WeakReceiver<u64, R>,
    stamps: &Stamps,
    log: &mut Log,
) -> Option<Receiver<u64, R>> {
    let begin = stamps.stamp();
    upgraded(weak.upgrade(), Side::Receivers, begin, stamps, log)
}

/// The handles go, the sender first.
pub fn leave_receiving<R: Wait + Copy>(hands: Hands<R>, stamps: &Stamps, log: &mut Log) {
    let Hands {
        sender,
        receiver,
        weak_sender,
        weak_receiver: _,
    } = hands;
    let_go(sender, Side::Senders, stamps, log);
    let begin = stamps.stamp();
    let ended = Sight::Ended(receiver.is_terminated());
    log.note(begin, stamps.stamp(), Did::saw(ended));
    let begin = stamps.stamp();
    let shut = receiver.is_closed();
    log.note(begin, stamps.stamp(), is_closed(shut));
    let begin = stamps.stamp();
    let senders = Sight::Count(Side::Senders, receiver.sender_count());
    log.note(begin, stamps.stamp(), Did::saw(senders));
    let begin = stamps.stamp();
    let answer = receiver.try_recv();
    log.note(begin, stamps.stamp(), tried_recv(&answer));
    if let Some(another) = upgrade_sender(&weak_sender, stamps, log) {
        let_go(another, Side::Senders, stamps, log);
    }
    let_go(receiver, Side::Receivers, stamps, log);
}

/// The handles go, the receivers first.
pub fn leave_sending<R: Wait + Copy>(
    hands: Hands<R>,
    message: u64,
    scarce: bool,
    stamps: &Stamps,
    log: &mut Log,
) {
    let Hands {
        sender,
        receiver,
        weak_sender: _,
        weak_receiver,
    } = hands;
    let_go(receiver, Side::Receivers, stamps, log);
    let begin = stamps.stamp();
    let shut = sender.is_closed();
    log.note(begin, stamps.stamp(), is_closed(shut));
    let begin = stamps.stamp();
    let receivers = Sight::Count(Side::Receivers, sender.receiver_count());
    log.note(begin, stamps.stamp(), Did::saw(receivers));
    let begin = stamps.stamp();
    let answer = sender.try_send(message);
    let grows = scarce && sender.capacity().is_none();
    log.note(begin, stamps.stamp(), tried_send(grows, message, &answer));
    if let Some(another) = upgrade_receiver(&weak_receiver, stamps, log) {
        let_go(another, Side::Receivers, stamps, log);
    }
    let_go(sender, Side::Senders, stamps, log);
}
