//! The plain count of a trial: what is held, what lives, who waits and who is at work.

use crate::alone::marks;
use crate::answer::{Answer, form_of, read};
use crate::count::Count;
use crate::differs::Differs;
use crate::due::is_due;
use crate::named::{find, find_mut, remove};
use crate::names::{Names, is_fit};
use crate::numbers::Numbers;
use crate::plan::{Kind, LARGE, Plan, Target};
use crate::takings::Takings;
use crate::under_way::UnderWay;
use crate::waiting::{Came, Waiting};
use channel_calls::mark::Mark;
use channel_calls::stage::WaitList;
use channel_world::call::{Done, Reply, WorldRefusal};
use channel_world::name::{HandleKind, Waiter};
use std::alloc::Global;

/// A plain count.
#[derive(Drop)]
pub struct Book {
    pub count: Count,
    pub names: Names,
    pub waiting: Waiting,
    /// The calls under way, in no order.
    pub calls: Vec<UnderWay>,
    /// What receives of several have taken.
    takings: Takings,
    /// How many messages were handed out.
    handed: usize,
    /// How many moments there were.
    moment: u64,
}

impl Book {
    /// Of a channel of this capacity that was just opened.
    pub fn new(capacity: Option<usize>, alloc: Global) -> Result<Self, Differs> {
        let names = Names::first(alloc)?;
        Ok(Book {
            count: Count::new(capacity, alloc),
            names,
            waiting: Waiting::nobody(alloc),
            calls: Vec::new(alloc),
            takings: Takings::nothing(alloc),
            handed: 0,
            moment: 0,
        })
    }

    /// The numbers that the channel has to tell.
    pub fn numbers(&self) -> Numbers {
        let woken = self.waiting.number(None, true);
        Numbers {
            messages: self.count.messages() as u64,
            pending: self.waiting.number(None, false).saturating_add(woken),
            woken,
            under_way: self.calls.len(),
            is_quiet: self.calls.is_empty(),
        }
    }

    /// The call that this party has under way.
    pub fn call_of(&self, party: u32) -> Option<UnderWay> {
        find(self.calls.as_slice(), party)
    }

    /// Whether a live operation or a call under way uses the handle.
    fn is_used(&self, handle: u32) -> bool {
        let mut is_used = self.names.is_borrowed(handle);
        for call in &self.calls {
            is_used = is_used || call.uses(handle);
        }
        is_used
    }

    /// Why a call upon an operation is refused.
    fn refuses_operation(&self, plan: Plan) -> Option<WorldRefusal> {
        let Some(operation) = self.names.operation(plan.name) else {
            return Some(WorldRefusal::UnknownName);
        };
        match (plan.kind, operation.line, operation.is_polled) {
            (Kind::SendIsTerminated, WaitList::Sends, _) => None,
            (Kind::SendIsTerminated, _, _) => Some(WorldRefusal::WrongKind),
            (_, _, true) => Some(WorldRefusal::OpUnderWay),
            (_, _, false) => None,
        }
    }

    /// Why a call upon two handles is refused.
    fn refuses_two(&self, plan: Plan) -> Option<WorldRefusal> {
        let a = self.names.handle(plan.handle);
        let b = self.names.handle(plan.name);
        let (Some(a), Some(b)) = (a, b) else {
            return Some(WorldRefusal::UnknownName);
        };
        if a.kind != b.kind || !is_fit(Target::Strong, a.kind) {
            return Some(WorldRefusal::WrongKind);
        }
        (a.is_polled || b.is_polled).then_some(WorldRefusal::OpUnderWay)
    }

    /// Why a call through a handle is refused.
    fn refuses_handle(&self, plan: Plan) -> Option<WorldRefusal> {
        let Some(handle) = self.names.handle(plan.handle) else {
            return Some(WorldRefusal::UnknownName);
        };
        if !is_fit(plan.kind.target(), handle.kind) {
            return Some(WorldRefusal::WrongKind);
        }
        if handle.is_polled {
            return Some(WorldRefusal::OpUnderWay);
        }
        if plan.kind.takes_whole() && self.is_used(handle.name) {
            return Some(WorldRefusal::Borrowed);
        }
        self.names
            .has_taken(plan)
            .then_some(WorldRefusal::NameTaken)
    }

    /// Why a call of this party is refused that begins now, if it is.
    pub fn refusal(&self, party: u32, plan: Plan) -> Option<WorldRefusal> {
        if self.call_of(party).is_some() {
            return Some(WorldRefusal::Busy);
        }
        match plan.kind.target() {
            Target::Operation => self.refuses_operation(plan),
            Target::Two => self.refuses_two(plan),
            _ => self.refuses_handle(plan),
        }
    }

    /// A call begins that isn't refused.
    pub fn begin(&mut self, party: u32, plan: Plan) -> Result<(), Differs> {
        let Some(subject) = self.names.subject(plan) else {
            return Err(Differs::Refusal);
        };
        if let Some(name) = subject.waiter {
            self.waiting.take_in_hand(name);
        }
        self.names.begin(plan, &subject);
        for call in &mut self.calls {
            call.in_a_row = 0;
        }
        let mut call = UnderWay::new(party, plan, subject);
        call.begun = self.moment;
        call.taken_before = self.takings.len();
        match self.calls.push(call) {
            Ok(()) => Ok(()),
            Err(_) => Err(Differs::NoMemory),
        }
    }

    /// The party's call made a step with this mark.
    pub fn step(&mut self, party: u32, mark: Mark) -> Result<(), Differs> {
        let is_alone = self.calls.len() == 1;
        let oldest = self.count.oldest();
        let Some(call) = find_mut(self.calls.as_mut_slice(), party) else {
            return Err(Differs::Refusal);
        };
        call.go_on(is_alone)?;
        call.step(mark, &mut self.count)?;
        match oldest {
            Some(message) if mark == Mark::Take && call.plan.kind == Kind::RecvMany => {
                self.takings.add(party, message)
            }
            _ => Ok(()),
        }
    }

    /// This one was woken, by a step of the party's call.
    pub fn wake_one(&mut self, party: u32, name: Waiter) -> Result<(), Differs> {
        if self.waiting.wake(name)? == WaitList::Sends {
            if let Some(call) = find_mut(self.calls.as_mut_slice(), party) {
                call.has_told = call.received > 0;
            }
        }
        Ok(())
    }

    /// These were.
    pub fn wake(&mut self, party: u32, woken: &Vec<Waiter>) -> Result<(), Differs> {
        for name in woken {
            self.wake_one(party, *name)?;
        }
        Ok(())
    }

    /// The party's call has answered.
    pub fn end(&mut self, party: u32, reply: &Reply<u64>) -> Result<(), Differs> {
        let Some(call) = self.call_of(party) else {
            return Err(Differs::Refusal);
        };
        let (form, answer) = read(reply);
        if form != form_of(call.plan.kind, call.subject.line)
            || !is_due(&call, answer, &self.count)
            || !self.hands_out(&call, reply)
        {
            return Err(Differs::Reply);
        }
        remove(&mut self.calls, party);
        self.names.end(call.plan, &call.subject, answer)?;
        self.handed = self.handed.saturating_add(call.takings());
        self.leave(&call, answer)
    }

    /// Whether the call hands out what it took, in order, where it is a receive of several.
    fn hands_out(&self, call: &UnderWay, reply: &Reply<u64>) -> bool {
        match reply {
            Reply::RecvMany(Ok(messages)) => {
                let messages = messages.as_slice();
                self.takings.are(call.taken_before, call.party, messages)
            }
            _ => true,
        }
    }

    /// A call that isn't refused was made alone, from its begin to its end: it woke these, and answered so. It did what its
    /// answer says, and what held at its begin is all that it saw, and what a receive of several left.
    pub fn make(&mut self, party: u32, plan: Plan, done: &Done<u64>) -> Result<(), Differs> {
        self.begin(party, plan)?;
        self.see();
        let Some(call) = self.call_of(party) else {
            return Err(Differs::Refusal);
        };
        let (_, answer) = read(&done.reply);
        self.wake(party, &done.woken)?;
        match answer {
            Answer::Several(count) => self.take_several(party, count)?,
            _ => {
                let (first, second) = marks(&call, answer, &self.count);
                self.step(party, first)?;
                self.step(party, second)?;
            }
        }
        self.end(party, &done.reply)
    }

    /// The party's call takes so many messages, and sees what is left.
    fn take_several(&mut self, party: u32, count: usize) -> Result<(), Differs> {
        for _ in 0..count {
            self.step(party, Mark::Take)?;
        }
        self.see();
        Ok(())
    }

    /// Whom the call had in hand waits no more, or again where its poll ended pending. A finished send doesn't wait.
    fn leave(&mut self, call: &UnderWay, answer: Answer) -> Result<(), Differs> {
        let Some(name) = call.subject.waiter else {
            return Ok(());
        };
        let kept = self.waiting.remove(name);
        let line = call.subject.line;
        let is_finished = line == WaitList::Sends && call.subject.message.is_none();
        if answer == Answer::Pending && !is_finished {
            let came = kept.unwrap_or(Came {
                from: call.begun,
                to: self.moment,
            });
            return self.waiting.add(name, line, came);
        }
        Ok(())
    }

    /// One more moment, and so one more of each call under way.
    pub fn see(&mut self) {
        self.moment = self.moment.wrapping_add(1);
        for call in &mut self.calls {
            call.saw = call.saw.with(&self.count);
        }
    }

    /// How many messages the calls under way may receive at most, one by one aside.
    pub fn wanted(&self) -> usize {
        let mut wanted = 0usize;
        for call in &self.calls {
            wanted = wanted.saturating_add(call.plan.limit.min(LARGE));
        }
        wanted
    }

    /// A live receiver.
    pub fn receiver(&self) -> Option<u32> {
        for handle in &self.names.handles {
            if handle.kind == HandleKind::Receiver {
                return Some(handle.name);
            }
        }
        None
    }

    /// Whether each message that left was handed out, and none is held.
    pub fn is_drained(&self) -> bool {
        self.count.messages() == 0 && self.handed == self.count.gone
    }
}
