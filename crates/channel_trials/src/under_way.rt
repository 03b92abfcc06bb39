//! A call under way, as the plain count sees it.

use crate::count::Count;
use crate::differs::Differs;
use crate::named::Named;
use crate::plan::{Kind, Plan};
use crate::saw::Saw;
use channel_calls::mark::Mark;
use channel_calls::stage::{Side, WaitList};
use channel_world::name::Waiter;

/// What a call has to do with, as it begins.
#[derive(Clone, Copy)]
pub struct Subject {
    /// The line of its operation or of its receiver's stream, if it has to do with one.
    pub line: WaitList,
    /// The task of the operation that it polls or gives up, or of the receiver that it polls as a stream or drops.
    pub waiter: Option<Waiter>,
    /// Which strong handles are one more or one fewer by it.
    pub side: Option<Side>,
    /// The message that it brings, or that its operation has.
    pub message: Option<u64>,
    /// The handle that it uses, and a second one.
    pub uses: Option<u32>,
    pub uses_too: Option<u32>,
}

/// The kinds of calls that answer for a message or a free place while they are under way.
#[derive(Clone, Copy, PartialEq, Eq)]
pub enum Part {
    Sending,
    Receiving,
    Neither,
}

/// A call with what it has done and what held at its moments.
#[derive(Clone, Copy)]
pub struct UnderWay {
    pub party: u32,
    pub plan: Plan,
    pub subject: Subject,
    /// The marks that it has made.
    first: Mark,
    second: Mark,
    /// Which message it took, by its place among those that came, and whether it dropped the last handle of its kind.
    pub place: usize,
    pub was_last: bool,
    pub saw: Saw,
    /// The moment at which it began.
    pub begun: u64,
    /// How many messages it has received.
    pub received: usize,
    /// Whether it has woken a send since it received them.
    pub has_told: bool,
    steps: u32,
    /// How many of its steps it has made while no other call was under way, one after another.
    pub in_a_row: usize,
    /// How many messages receives of several had taken in all when it began.
    pub taken_before: usize,
}

impl Named for UnderWay {
    fn number(&self) -> u32 {
        self.party
    }
}

impl UnderWay {
    /// A call that has done and seen nothing.
    pub fn new(party: u32, plan: Plan, subject: Subject) -> Self {
        UnderWay {
            party,
            plan,
            subject,
            first: Mark::Nothing,
            second: Mark::Nothing,
            place: 0,
            was_last: false,
            saw: Saw::nothing(),
            begun: 0,
            received: 0,
            has_told: false,
            steps: 0,
            in_a_row: 0,
            taken_before: 0,
        }
    }

    /// Whether these are the marks that it has made.
    pub fn has_made(&self, first: Mark, second: Mark) -> bool {
        self.first == first && self.second == second
    }

    /// Whether it closed the channel.
    pub fn has_closed(&self) -> bool {
        self.first == Mark::Close || self.second == Mark::Close
    }

    /// How many messages it took out.
    pub fn takings(&self) -> usize {
        match self.first {
            Mark::TakeDisplaced | Mark::Replace => 1,
            _ => self.received,
        }
    }

    /// How many free places it answers for that it made: those of the messages that it received, until it has told the sends.
    /// To tell is the last thing that it does, but for a poll: of that the telling is seen where it woke a send.
    pub fn untold(&self) -> usize {
        if self.has_told { 0 } else { self.received }
    }

    /// One more step of it, while no other call is under way or while one is. It makes so many at most, one after another, while none is.
    pub fn go_on(&mut self, is_alone: bool) -> Result<(), Differs> {
        if is_alone {
            self.in_a_row = self.in_a_row.saturating_add(1);
        } else {
            self.in_a_row = 0;
        }
        let more = self.plan.limit.saturating_mul(64);
        if self.in_a_row > more.saturating_add(197) {
            Err(Differs::Endless)
        } else {
            Ok(())
        }
    }

    /// Whether it uses this handle.
    pub fn uses(&self, handle: u32) -> bool {
        self.subject.uses == Some(handle) || self.subject.uses_too == Some(handle)
    }

    /// Whether it brings this message, or its operation has it.
    pub fn has_message(&self, message: u64) -> bool {
        self.subject.message == Some(message)
    }

    /// What it answers for.
    pub fn part(&self) -> Part {
        match (self.plan.kind, self.subject.line) {
            (Kind::TrySend | Kind::ForceSend, _) => Part::Sending,
            (Kind::TryRecv | Kind::RecvMany | Kind::PollNext, _) => Part::Receiving,
            (Kind::Poll | Kind::PollRefused | Kind::GiveUp, WaitList::Sends) => Part::Sending,
            (Kind::Poll | Kind::PollRefused | Kind::GiveUp, WaitList::Receives) => Part::Receiving,
            _ => Part::Neither,
        }
    }

    /// A receive of several takes the oldest message, as it may do as often as messages are wanted.
    fn receive_one_more(&mut self, mark: Mark, count: &mut Count) -> Result<(), Differs> {
        if mark != Mark::Take || self.received >= self.plan.limit {
            return Err(Differs::Mark);
        }
        self.received = self.received.saturating_add(1);
        self.saw.over = false;
        count.apply(mark, None, false)
    }

    /// One more step of it.
    pub fn step(&mut self, mark: Mark, count: &mut Count) -> Result<(), Differs> {
        self.steps = self.steps.saturating_add(1);
        if self.plan.kind.is_quick() && self.steps > 8 {
            return Err(Differs::Endless);
        }
        if mark == Mark::Nothing {
            return Ok(());
        }
        if self.plan.kind == Kind::RecvMany {
            return self.receive_one_more(mark, count);
        }
        if self.second != Mark::Nothing {
            return Err(Differs::Mark);
        }
        if mark == Mark::Take {
            self.received = 1;
        }
        let made_room = self.first == Mark::TakeDisplaced;
        if !made_room {
            self.place = count.gone;
        }
        count.apply(mark, self.subject.message, made_room)?;
        if let Some(side) = self.subject.side {
            self.was_last = self.was_last || count.handles(side) == 0;
        }
        if self.first == Mark::Nothing {
            self.first = mark;
        } else {
            self.second = mark;
        }
        Ok(())
    }
}
