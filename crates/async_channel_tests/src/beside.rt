//! What a call of a channel answers, and whom it wakes, beside others whose steps come between its own, over cells of these tests'
//! own. Nothing is left to chance: before a chosen operation of one call, which is made by the code that handles run, another call
//! makes some of its steps, and a third one all of them. The others are made step by step, so it is known which step of theirs
//! did what, and so what the channel held at each moment. A call that blocks its thread sleeps until its task is woken; the others
//! have gone on to their ends then.

ghost use Rattle.std.specs.Prelude.{◌≡◌};
ghost use Rattle.channel_calls.specs.Plain.{form_of};

mod cases;
mod cells;
mod kind;
mod made;
mod outcome;
mod pairs;
mod plain;
mod start;

use crate::beside::kind::{Called, Kind};
use crate::beside::plain::Event;
use crate::said::{Said, answer_of};
use crate::scarce::Scarce;
use crate::woken::Woken;
use channel_calls::call::ChannelCall;
use channel_calls::mark::Mark;
use channel_calls::questions::is_closed;
use channel_calls::stage::WaitList;
use event_listener::key::Key;
use std::alloc::Global;
use std::mem;

/// More steps than a call alone has.
const ALL: u32 = 64;

/// A call that is made step by step between the operations of another one; or two of them, one after the other.
#[derive(Drop)]
struct Other {
    called: Called,
    call: ChannelCall<u64, u32>,
    is_second: bool,
    /// The messages that it handed out, in their order, as digits.
    took: u64,
    said: Option<Said>,
}

impl Other {
    /// This call.
    fn new(called: Called) -> Other {
        Other {
            called,
            call: ChannelCall::new(called.ask()),
            is_second: false,
            took: 0,
            said: None,
        }
    }

    /// Makes a step, and notes what it did.
    fn go(&mut self, by: usize, cells: &mut Scarce, events: &mut Events)
        ensures { form_of cells.new.channel ≡ form_of cells.old.channel }
    {
        let refused = mem::replace(&mut cells.refused, self.called.kind.is_refused() as u32);
        let reply = self.call.step(cells, &mut Woken::new());
        cells.refused = refused;
        events.note(self.call.last_mark(), self.called, by);
        if let Some(reply) = reply {
            self.answers(answer_of(reply));
        }
    }

    /// A call of it says this.
    fn answers(&mut self, said: Said) {
        self.took = said.after(self.took);
        if !self.is_second && self.called.kind.goes_on(said) {
            self.is_second = true;
            drop(mem::replace(&mut self.call, ChannelCall::new(self.called.ask())));
        } else {
            self.said = Some(said);
        }
    }

    /// Makes up to so many steps, until the call has answered.
    fn go_on(&mut self, by: usize, steps: u32, cells: &mut Scarce, events: &mut Events)
        ensures { form_of cells.new.channel ≡ form_of cells.old.channel }
    {
        'steps: for _ in 0..steps {
            if self.said.is_some() {
                break 'steps;
            }
            self.go(by, cells, events);
        }
    }
}

/// What a call says that is made alone, and the listener that it leaves to its operation.
fn alone(called: Called, cells: &mut Scarce) -> (Said, Option<Key>)
    ensures { form_of cells.new.channel ≡ form_of cells.old.channel }
{
    let mut events = Events::new();
    let mut other = Other::new(called);
    other.go_on(0, ALL, cells, &mut events);
    let Other {
        called: _,
        call,
        is_second: _,
        took: _,
        said,
    } = other;
    (said.unwrap_or(Said::GoesOn), call.into_kept().key)
}

/// What steps of others did to the list, in their order.
#[derive(Clone, Copy)]
struct Events {
    events: [Option<Event>; 8],
    count: usize,
}

impl Events {
    fn new() -> Events {
        Events {
            events: [None; 8],
            count: 0,
        }
    }

    fn note(&mut self, mark: Mark, called: Called, by: usize) {
        if mark == Mark::Nothing {
            return;
        }
        if let Some(place) = self.events.get_mut(self.count) {
            *place = Some(Event {
                mark,
                kind: called.kind,
                message: called.message,
                by,
            });
            self.count = self.count.wrapping_add(1);
        }
    }
}

/// Whether somebody sleeps on this list beside what nobody who was woken answers for: a message, a free place or the closing.
fn is_owed(line: WaitList, bound: usize, alloc: Global, cells: &mut Scarce) -> bool
    ensures { form_of cells.new.channel ≡ form_of cells.old.channel }
{
    if cells.channel.waiting(line) == 0 {
        return false;
    }
    if is_closed(&mut cells.channel) {
        return true;
    }
    let (held, _) = alone(Called::new(Kind::Len, 0, 0, alloc), cells);
    let Said::Count(held) = held else {
        return true;
    };
    match line {
        WaitList::Sends => cells.woken.count(line) < bound.saturating_sub(held),
        WaitList::Receives => cells.woken.count(line) < held,
        WaitList::Streams => held > 0,
        WaitList::Closings => false,
    }
}
