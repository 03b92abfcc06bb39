//! Steps of a world, from bytes: four bytes a step.

use crate::plan::{Kind, Plan, Target};
use crate::weights::fall_on;
use channel_world::step::{PartyId, Step};

/// How many parties there are.
pub const PARTIES: u8 = 4;

/// How many numbers of a byte say each kind of call.
static WIDTHS: [(Kind, usize); 26] = [
    (Kind::NewSend, 8),
    (Kind::NewRecv, 8),
    (Kind::NewClosed, 2),
    (Kind::TryClone, 3),
    (Kind::Downgrade, 3),
    (Kind::Upgrade, 3),
    (Kind::Poll, 21),
    (Kind::PollRefused, 3),
    (Kind::GiveUp, 7),
    (Kind::SendIsTerminated, 1),
    (Kind::TrySend, 12),
    (Kind::ForceSend, 6),
    (Kind::TryRecv, 10),
    (Kind::RecvMany, 5),
    (Kind::PollNext, 9),
    (Kind::Close, 1),
    (Kind::Drop, 4),
    (Kind::StreamIsTerminated, 1),
    (Kind::SameChannel, 1),
    (Kind::IsClosed, 1),
    (Kind::IsEmpty, 1),
    (Kind::IsFull, 1),
    (Kind::Capacity, 1),
    (Kind::SenderCount, 1),
    (Kind::ReceiverCount, 1),
    (Kind::Len, 2),
];

/// The sum of all widths.
const ALL: u8 = 116;

/// The next names: those below them were drawn.
#[derive(Clone, Copy)]
pub struct Names {
    pub handles: u32,
    pub operations: u32,
}

/// A name that was drawn, or the next one.
fn any_below(next: u32, drawn: u8) -> u32 {
    u32::from(drawn)
        .checked_rem(next.saturating_add(1))
        .unwrap_or(0)
}

/// The next name, but now and then one that was drawn.
fn new_name(next: &mut u32, drawn: u8) -> u32 {
    let name = *next;
    if drawn % 16 == 0 {
        return any_below(name, drawn / 16);
    }
    *next = name.saturating_add(1);
    name
}

impl Names {
    /// The handle that is called upon: mostly the first one of its side, where one brings or takes a message.
    fn handle(self, kind: Kind, drawn: u8) -> u32 {
        let first = match kind {
            Kind::NewSend | Kind::NewClosed | Kind::TrySend | Kind::ForceSend => 0,
            Kind::NewRecv | Kind::TryRecv | Kind::RecvMany => 1,
            Kind::PollNext | Kind::Downgrade => 1,
            _ => return any_below(self.handles, drawn),
        };
        if drawn % 4 == 0 {
            any_below(self.handles, drawn / 4)
        } else {
            first
        }
    }

    /// The operation that is called upon, the name of what is made, or the second of two handles.
    fn name(&mut self, kind: Kind, drawn: u8) -> u32 {
        match kind.target() {
            Target::Operation => any_below(self.operations, drawn),
            Target::Two => any_below(self.handles, drawn),
            _ if kind.makes_operation() => new_name(&mut self.operations, drawn),
            _ if kind.makes_handle() => new_name(&mut self.handles, drawn),
            _ => 0,
        }
    }

    /// The step that four bytes say: one time in four the begin of a call. A message that it brings is this one.
    pub fn step(&mut self, bytes: [u8; 4], message: u64) -> Step<u64> {
        let [who, what, name, handle] = bytes;
        let party = PartyId(u32::from(who % PARTIES));
        if who / PARTIES % 4 != 0 {
            return Step::Step { party };
        }
        let kind = fall_on(&WIDTHS, usize::from(what % ALL)).unwrap_or(Kind::Len);
        let plan = Plan {
            kind,
            handle: self.handle(kind, handle),
            name: self.name(kind, name),
            message,
            limit: usize::from(name % 5),
        };
        Step::Begin {
            party,
            call: plan.call(),
        }
    }
}
