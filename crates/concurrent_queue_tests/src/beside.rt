//! What a call answers beside others whose steps come between its own, over cells of these tests' own. Nothing is left to
//! chance: before a chosen operation of one call, which is made by the code that handles run, another call makes some of its
//! steps and a third one all of them. The others are made step by step, so it is known which step of theirs did what, and so
//! what the queue held at each moment.

mod cases;
mod plain;

use crate::beside::plain::{Event, Kind};
use crate::said::Said;
use crate::scarce::{Scarce, stepped};
use concurrent_queue::call::QueueMark;
use concurrent_queue::cells::{Cells, QueueForm, Slot, Word};
use concurrent_queue::error::NoMemory;
use concurrent_queue::queue_call::QueueCall;
use std::cell::Cell;

/// A call that has made so many operations waits for what never comes. Then the others go on whether it gives way or not.
const ENDLESS: u32 = 400;

/// What such a call is told, so that it ends and is seen.
const LOST: u64 = 999;

/// More steps than a call alone has.
const ALL: u32 = 64;

/// A call that is made step by step between the operations of another one.
#[derive(Drop)]
struct Other {
    call: QueueCall<u64>,
    is_refused: bool,
    message: u64,
    steps: u32,
    said: Option<Said>,
}

impl Other {
    /// The call that asks this with this message, of which so many steps come between.
    fn new(kind: Kind, message: u64, steps: u32) -> Other {
        Other {
            call: QueueCall::new(kind.ask(message)),
            is_refused: kind.is_refused,
            message,
            steps,
            said: None,
        }
    }

    /// Makes up to so many steps, and notes what they did. Where it is to be refused, no block can be made meanwhile.
    fn go_on(&mut self, by: usize, steps: u32, cells: &mut Scarce, events: &mut Events) {
        let left = cells.left;
        cells.left = if self.is_refused { 0 } else { left };
        for _ in 0..steps {
            if self.said.is_some() {
                break;
            }
            self.said = stepped(&mut self.call, cells);
            events.note(self.call.last_mark(), self.message, by);
        }
        cells.left = left;
    }
}

/// What steps of others did to the list, in their order.
#[derive(Clone, Copy)]
struct Events {
    events: [Event; 6],
    count: usize,
}

impl Events {
    fn new() -> Events {
        Events {
            events: [Event {
                mark: QueueMark::Nothing,
                message: 0,
                by: 0,
            }; 6],
            count: 0,
        }
    }

    fn note(&mut self, mark: QueueMark, message: u64, by: usize) {
        let is_one = !matches!(mark, QueueMark::Nothing);
        if let Some(place) = self.events.get_mut(self.count) {
            *place = Event { mark, message, by };
            self.count = self.count.wrapping_add(usize::from(is_one));
        }
    }
}

/// The cells of one owner, on which two others step before the operation of this number. Then they go on where the call gives way, a step
/// each time: so one that waits for them and gives way to nobody waits for ever.
#[derive(Drop)]
struct Beside {
    form: QueueForm,
    is_refused: bool,
    cells: Scarce,
    made: u32,
    turn: u32,
    ways: Cell<u32>,
    first: Other,
    second: Other,
    events: Events,
    came_whole: bool,
}

impl Beside {
    ghost use Rattle.std.specs.Prelude.{◌≡◌};

    /// What comes before an operation.
    fn before(&mut self)
        ensures { self.new.form ≡ self.old.form }
    {
        self.made = self.made.wrapping_add(1);
        let (first, second) = self.steps_now();
        self.let_on(first, second);
        let is_whole = self.made == self.turn && self.first.said.is_some();
        self.came_whole = self.came_whole | is_whole;
    }

    /// How many steps each of the others makes before this operation.
    fn steps_now(&self) -> (u32, u32) {
        let ways = self.ways.replace(0);
        if self.made < self.turn {
            (0, 0)
        } else if self.made == self.turn {
            (self.first.steps, self.second.steps)
        } else if self.is_endless() {
            (1, 1)
        } else {
            (ways, ways)
        }
    }

    /// Lets the others make up to so many steps.
    fn let_on(&mut self, first: u32, second: u32)
        ensures { self.new.form ≡ self.old.form }
    {
        self.first
            .go_on(0, first, &mut self.cells, &mut self.events);
        self.second
            .go_on(1, second, &mut self.cells, &mut self.events);
    }

    /// Whether the call has waited for too long.
    fn is_endless(&self) -> bool {
        self.made > ENDLESS
    }
}

impl Cells<u64> for Beside {
    ghost use Rattle.std.specs.Prelude.{◌≡◌};
    ghost use Rattle.concurrent_queue.specs.Plain.{contents_of};

    ghost known = { ⊥ };

    ghost contents = { λ c. contents_of c.cells.cells };

    ghost form_of = { λ c. c.form };

    ghost did = { λ _ a b. b.form ≡ a.form };

    ghost may = { λ _ _. Unit {0} };

    ghost stands = { λ _ _. Unit {0} };

    ghost ready = { λ at s d r stands next. tt };

    ghost leads = { λ at s t d r stands done next. tt };

    ghost keeps_form = { λ _ a b kept. kept };

    ghost exact_form = { λ known. absurd known };

    ghost exact = { λ known. absurd known };

    fn form(&self) -> QueueForm {
        self.form
    }

    fn load(&mut self, at: Word) -> u64 {
        self.before();
        match at {
            Word::Written(_, _) | Word::Next(_) if self.is_endless() => 1,
            _ => self.cells.load(at),
        }
    }

    fn store(&mut self, at: Word, value: u64) {
        self.before();
        self.cells.store(at, value);
    }

    fn compare_exchange(&mut self, at: Word, expected: u64, next: u64) -> Result<u64, u64> {
        self.before();
        if self.is_endless() {
            return Ok(expected);
        }
        self.cells.compare_exchange(at, expected, next)
    }

    fn fetch_add(&mut self, at: Word, by: u64) -> u64 {
        self.before();
        self.cells.fetch_add(at, by)
    }

    fn fetch_or(&mut self, at: Word, bits: u64) -> u64 {
        self.before();
        self.cells.fetch_or(at, bits)
    }

    fn fetch_and(&mut self, at: Word, bits: u64) -> u64 {
        self.before();
        self.cells.fetch_and(at, bits)
    }

    fn put(&mut self, at: Slot, value: u64) -> Result<(), u64> {
        self.before();
        if self.is_endless() {
            return Ok(());
        }
        self.cells.put(at, value)
    }

    fn take(&mut self, at: Slot) -> Option<u64> {
        self.before();
        if self.is_endless() {
            return Some(LOST);
        }
        self.cells.take(at)
    }

    fn spare(&mut self) -> Result<u64, NoMemory> {
        self.before();
        if self.is_refused {
            return Err(NoMemory);
        }
        self.cells.spare()
    }

    fn retire(&mut self, block: u64) {
        self.before();
        self.cells.retire(block);
    }

    fn give_way(&self) {
        self.ways.set(self.ways.get().wrapping_add(1));
    }
}
