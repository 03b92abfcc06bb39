//! The calls that a thread of a history over handles draws.

use crate::party::Party;
use crate::questions::Question;
use crate::random::Random;
use std::sync::Wait;

/// The calls of handles.
#[derive(Clone, Copy)]
pub enum Act {
    TrySend,
    ForceSend,
    SendBlocking,
    TryRecv,
    RecvMany,
    RecvTooMany,
    RecvManyInto,
    RecvBlocking,
    Iter,
    TryIter,
    PollSend,
    PollRecv,
    PollClosed,
    PollNext,
    GiveUpSend,
    GiveUpRecv,
    GiveUpClosed,
    LetGoSend,
    LetGoRecv,
    LetGoClosed,
    LetGoStream,
    Close,
    Ask(Question),
    CloneSender,
    CloneReceiver,
    DropSender,
    DropReceiver,
    UpgradeSender,
    UpgradeReceiver,
    Weaken,
}

/// How often each call is drawn, of all drawn.
static WEIGHTS: [(Act, usize); 38] = [
    (Act::TrySend, 14),
    (Act::ForceSend, 14),
    (Act::SendBlocking, 3),
    (Act::TryRecv, 10),
    (Act::RecvMany, 8),
    (Act::RecvTooMany, 1),
    (Act::RecvManyInto, 8),
    (Act::RecvBlocking, 3),
    (Act::Iter, 3),
    (Act::TryIter, 8),
    (Act::PollSend, 14),
    (Act::PollRecv, 14),
    (Act::PollClosed, 4),
    (Act::PollNext, 12),
    (Act::GiveUpSend, 3),
    (Act::GiveUpRecv, 3),
    (Act::GiveUpClosed, 1),
    (Act::LetGoSend, 3),
    (Act::LetGoRecv, 3),
    (Act::LetGoClosed, 1),
    (Act::LetGoStream, 3),
    (Act::Close, 1),
    (Act::Ask(Question::IsClosed), 2),
    (Act::Ask(Question::IsEmpty), 3),
    (Act::Ask(Question::IsFull), 3),
    (Act::Ask(Question::Len), 4),
    (Act::Ask(Question::Capacity), 1),
    (Act::Ask(Question::IsTerminated), 2),
    (Act::Ask(Question::SenderCount), 2),
    (Act::Ask(Question::ReceiverCount), 2),
    (Act::Ask(Question::SameChannel), 1),
    (Act::CloneSender, 2),
    (Act::CloneReceiver, 2),
    (Act::DropSender, 2),
    (Act::DropReceiver, 2),
    (Act::UpgradeSender, 2),
    (Act::UpgradeReceiver, 2),
    (Act::Weaken, 1),
];

/// The sum of all weights.
const ALL: usize = 167;

impl Act {
    /// The next call of a thread.
    pub fn draw(random: &mut Random) -> Act {
        random.pick(&WEIGHTS, ALL).unwrap_or(Act::TryRecv)
    }
}

impl<'a, R: Wait + Copy> Party<'a, R> {
    /// Makes this call.
    pub fn act(&mut self, act: Act) {
        match act {
            Act::TrySend => self.try_send(),
            Act::ForceSend => self.force_send(),
            Act::SendBlocking => self.send_blocking(),
            Act::TryRecv => self.try_recv(),
            Act::RecvMany => self.recv_many(),
            Act::RecvTooMany => self.recv_too_many(),
            Act::RecvManyInto => self.recv_many_into(),
            Act::RecvBlocking => self.recv_blocking(),
            Act::Iter => self.next_of_iter(),
            Act::TryIter => self.next_of_try_iter(),
            Act::PollSend => self.poll_send(),
            Act::PollRecv => self.poll_recv(),
            Act::PollClosed => self.poll_closed(),
            Act::PollNext => self.poll_next(),
            Act::GiveUpSend => self.give_up_send(),
            Act::GiveUpRecv => self.give_up_recv(),
            Act::GiveUpClosed => self.give_up_closed(),
            Act::LetGoSend => self.let_go_send(),
            Act::LetGoRecv => self.let_go_recv(),
            Act::LetGoClosed => self.let_go_closed(),
            Act::LetGoStream => self.let_go_stream(),
            Act::Close => self.close(),
            Act::Ask(question) => self.ask(question),
            Act::CloneSender => self.clone_sender(),
            Act::CloneReceiver => self.clone_receiver(),
            Act::DropSender => self.drop_sender(),
            Act::DropReceiver => self.drop_receiver(),
            Act::UpgradeSender => self.upgrade_sender(),
            Act::UpgradeReceiver => self.upgrade_receiver(),
            Act::Weaken => self.weaken(),
        }
    }
}
