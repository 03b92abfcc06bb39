//! Events, lists of listeners and their records.

ghost use Rattle.std.specs.Prelude.{◌≡◌, ◌<◌};

use crate::checks::{expect_equal, expect_right, expect_seen, expect_true};
use crate::scarcity::{Attempt, Scarcity, Seen, Tried, made, refused};
use event_listener::calls::Registered;
use event_listener::error::{ListenError, NoMemory, NotifyError};
use event_listener::event::Event;
use event_listener::id::EventIds;
use event_listener::into_notification::IntoNotification;
use event_listener::key::Key;
use event_listener::list::List;
use event_listener::listener::{EventListener, Listener, WaitError};
use event_listener::recorded::{RecordedEvent, RegisterError};
use event_listener::stack::StackSlot;
use event_listener::wakes::Wakes;
use std::alloc::{AllocError, Global};
use std::marker::{Brand, Model};
use std::process::Abort;
use std::sync::Wait;
use std::sync::ledger::{Blank, Ledger, Share};
use std::time::{Clock, Duration};

/// How many listen.
const COUNT: usize = 40;

/// An event with an identity of its own.
fn new_event<T: Drop, A: Abort>(rt: &A, alloc: Global) -> Event<T> {
    let mut ids = EventIds::new();
    Event::with_tag(alloc, ids.next().expect(rt, "an identity"))
}

/// The next listener of an event.
#[derive(Drop)]
struct Listens<R: Wait + Copy> {
    rt: R,
    event: Event<()>,
    listeners: Vec<EventListener<(), R>>,
}

impl<R: Wait + Copy> Listens<R> {
    /// Whether nobody else listens, and nobody was told.
    fn is_as_before(&self) -> bool {
        self.event.total_listeners(&self.rt) == self.listeners.len()
            && !self.event.is_notified(&self.rt)
    }
}

impl<R: Wait + Copy> Attempt for Listens<R> {
    fn make(&mut self) -> Tried {
        match self.event.listen(&self.rt) {
            Ok(listener) => {
                let kept = self.listeners.push(listener).is_ok();
                made(kept && self.is_as_before())
            }
            Err(ListenError::NoMemory) => refused(self.is_as_before()),
            Err(_) => Tried::Wrong,
        }
    }
}

/// How many of these were told, each of which leaves.
fn count_told<R: Wait + Copy>(listeners: Vec<EventListener<(), R>>) -> usize {
    let mut told = 0usize;
    for listener in listeners {
        told = told.wrapping_add(usize::from(listener.discard()));
    }
    told
}

/// All listen; then how many a notice for ten told, by its answer and by the listeners.
fn listen_all<R: Wait + Copy>(rt: R, alloc: Global) -> Option<(Seen, [usize; 3])> {
    let mut listens = Listens {
        rt,
        event: Event::new(alloc, EventIds::new().next().ok()?),
        listeners: Vec::with_capacity(alloc, COUNT).ok()?,
    };
    let mut scarcity = Scarcity::new(alloc);
    for _ in 0..COUNT {
        scarcity.refuse_each(&mut listens);
    }
    let seen = scarcity.end();
    let listed = listens.event.total_listeners(&rt);
    let told = listens.event.notify(&rt, 10u8).unwrap_or(0);
    Some((seen, [listed, told, count_told(listens.listeners)]))
}

/// Each listener takes a cell of its own, so each is refused at least once.
#[test]
fn listening(rt: HostRuntime) {
    let (seen, counts) = listen_all(rt, rt.alloc()).expect(&rt, "memory");
    expect_seen(&rt, &seen, 40, 46);
    expect_equal(&rt, &counts, &[40, 10, 10]);
}

/// A told listener that waits, for no time at all or without an end. Where what it would sleep on is refused it comes back, told as
/// before.
#[derive(Drop)]
struct Waits<R: Wait + Clock + Copy> {
    rt: R,
    event: Event<()>,
    listener: Option<EventListener<(), R>>,
    is_timed: bool,
}

/// Whether a wait gave the tag.
fn wait<R: Wait + Clock + Copy>(
    rt: R,
    listener: EventListener<(), R>,
    is_timed: bool,
) -> Result<bool, WaitError<EventListener<(), R>>> {
    if is_timed {
        Ok(listener.wait_timeout(&rt, Duration::ZERO)?.is_some())
    } else {
        listener.wait()?;
        Ok(true)
    }
}

impl<R: Wait + Clock + Copy> Attempt for Waits<R> {
    fn make(&mut self) -> Tried {
        let Some(listener) = self.listener.take() else {
            return Tried::Wrong;
        };
        let left = usize::from(!self.is_timed);
        match wait(self.rt, listener, self.is_timed) {
            Ok(is_told) => made(is_told && self.event.total_listeners(&self.rt) == left),
            Err(WaitError::NoMemory(back)) => {
                self.listener = Some(back);
                refused(self.event.is_notified(&self.rt))
            }
            Err(_) => Tried::Wrong,
        }
    }
}

/// Two listeners are told, and wait, first one without an end, and then the other for no time.
fn wait_twice<R: Wait + Clock + Abort + Copy>(rt: R, alloc: Global) -> Seen {
    let mut waits = Waits {
        rt,
        event: new_event(&rt, alloc),
        listener: None,
        is_timed: false,
    };
    let first = waits.event.listen(&rt).expect(&rt, "memory");
    let second = waits.event.listen(&rt).expect(&rt, "memory");
    waits.event.notify_additional(&rt, 2);
    let mut scarcity = Scarcity::new(alloc);
    waits.listener = Some(first);
    scarcity.refuse_each(&mut waits);
    waits.listener = Some(second);
    waits.is_timed = true;
    scarcity.refuse_each(&mut waits);
    scarcity.end()
}

/// A refused wait hands its listener back.
#[test]
fn told_listeners_wait(rt: HostRuntime) {
    let seen = wait_twice(rt, rt.alloc());
    expect_seen(&rt, &seen, 2, 2);
}

/// A slot of an event that is made and listens.
#[derive(Drop)]
struct Slots<R: Wait + Copy> {
    rt: R,
    alloc: Global,
    event: Event<()>,
}

impl<R: Wait + Copy> Attempt for Slots<R> {
    fn make(&mut self) -> Tried {
        let Ok(mut slot) = StackSlot::new(self.rt, self.alloc, &self.event) else {
            return refused(self.event.total_listeners(&self.rt) == 0);
        };
        match slot.listen() {
            Ok(listener) => {
                let total = self.event.total_listeners(&self.rt);
                drop(listener);
                made(total == 1)
            }
            Err(ListenError::NoMemory) => refused(self.event.total_listeners(&self.rt) == 0),
            Err(_) => Tried::Wrong,
        }
    }
}

fn listen_in_a_slot<R: Wait + Copy>(rt: R, alloc: Global) -> Option<(Seen, usize)> {
    let mut slots = Slots {
        rt,
        alloc,
        event: Event::new(alloc, EventIds::new().next().ok()?),
    };
    let mut scarcity = Scarcity::new(alloc);
    scarcity.refuse_each(&mut slots);
    let seen = scarcity.end();
    Some((seen, slots.event.total_listeners(&rt)))
}

/// A slot that is refused, or refused a listener, leaves nobody on the event.
#[test]
fn slots_that_listen(rt: HostRuntime) {
    let (seen, left) = listen_in_a_slot(rt, rt.alloc()).expect(&rt, "memory");
    expect_seen(&rt, &seen, 1, 3);
    expect_true(&rt, left == 0);
}

/// A sink for tasks that nobody reads.
#[derive(Drop)]
struct Nowhere;

impl Wakes<u32> for Nowhere {
    ghost wakes = { λ s t u. Unit {0} };

    fn wake(&mut self, _task: u32) {}
}

/// The next listener of a list, with its task.
#[derive(Drop)]
struct Inserts {
    list: List<(), u32>,
    count: usize,
}

impl Attempt for Inserts {
    fn make(&mut self) -> Tried {
        match self.list.insert() {
            Ok(key) => {
                self.count = self.count.wrapping_add(1);
                let waits = matches!(self.list.register(key, 7), Ok(Registered::Waiting));
                made(waits && self.list.total() == self.count)
            }
            Err(ListenError::NoMemory) => refused(self.list.total() == self.count),
            Err(_) => Tried::Wrong,
        }
    }
}

/// Room for a hundred more.
#[derive(Drop)]
struct Reserves {
    inserts: Inserts,
}

impl Attempt for Reserves {
    fn make(&mut self) -> Tried {
        let is_made = self.inserts.list.reserve(100) == Ok(());
        let right = self.inserts.list.total() == self.inserts.count;
        if is_made { made(right) } else { refused(right) }
    }
}

/// Notices of plain counts for listeners of a list.
#[derive(Drop)]
struct Tellings {
    list: List<(), u32>,
}

impl Attempt for Tellings {
    fn make(&mut self) -> Tried {
        let five = self.list.notify(5usize.into_notification(), &mut Nowhere);
        let three = self.list.notify(3usize.additional(), &mut Nowhere);
        made(five == Ok(5) && three == Ok(3))
    }
}

/// So many are inserted, room for a hundred more is made, and a hundred are inserted and eight told with no memory at hand. Then how
/// many there are, and how many are told.
fn insert_all(alloc: Global) -> (Seen, [usize; 2]) {
    let mut inserts = Inserts {
        list: List::new(alloc),
        count: 0,
    };
    let mut scarcity = Scarcity::new(alloc);
    for _ in 0..COUNT {
        scarcity.refuse_each(&mut inserts);
    }
    let mut reserves = Reserves { inserts };
    scarcity.refuse_each(&mut reserves);
    let Reserves { mut inserts } = reserves;
    for _ in 0..100 {
        scarcity.refuse_none(&mut inserts);
    }
    let mut tellings = Tellings { list: inserts.list };
    scarcity.refuse_none(&mut tellings);
    let seen = scarcity.end();
    (seen, [tellings.list.total(), tellings.list.told()])
}

/// A list grows by doubling: some of the insertions are refused, and the making of room is.
#[test]
fn insertions(rt: HostRuntime) {
    let (seen, counts) = insert_all(rt.alloc());
    expect_seen(&rt, &seen, 6, 6);
    expect_equal(&rt, &counts, &[140, 8]);
}

/// Two events are made, each of an identity of its own, and get notices for nobody.
#[derive(Drop)]
struct Makes<R: Wait + Copy> {
    rt: R,
    alloc: Global,
    ids: EventIds,
}

impl<R: Wait + Copy> Attempt for Makes<R> {
    fn make(&mut self) -> Tried {
        let (Ok(first), Ok(second)) = (self.ids.next(), self.ids.next()) else {
            return Tried::Wrong;
        };
        let numbers = (first.number(), second.number()) == (0, 1);
        let plain = Event::new(self.alloc, first);
        let tagged: Event<u32> = Event::with_tag(self.alloc, second);
        let nobody = plain.notify(&self.rt, 5u8) == Ok(0)
            && tagged.notify(&self.rt, 5u8.tag(7)) == Ok(0);
        let asked = !plain.is_notified(&self.rt) && tagged.total_listeners(&self.rt) == 0;
        made(numbers && nobody && asked)
    }
}

/// Three listeners, which are told by notices of plain counts and leave.
#[derive(Drop)]
struct Tells<R: Wait + Copy> {
    rt: R,
    event: Event<()>,
    first: Option<EventListener<(), R>>,
    second: Option<EventListener<(), R>>,
    third: Option<EventListener<(), R>>,
}

impl<R: Wait + Copy> Attempt for Tells<R> {
    fn make(&mut self) -> Tried {
        let (first, second, third) = (self.first.take(), self.second.take(), self.third.take());
        let told = [
            self.event.notify(&self.rt, 1u8) == Ok(1),
            self.event.notify(&self.rt, 1i64) == Ok(0),
            self.event.notify_additional(&self.rt, 1) == 1,
            self.event.notify_relaxed(&self.rt, 3) == 1,
        ];
        let asked = self.event.is_notified(&self.rt) && self.event.total_listeners(&self.rt) == 3;
        let left = [leaves(first), leaves(second), leaves(third)];
        made(told == [true; 4] && asked && left == [true; 3])
    }
}

/// Whether a listener was there, was told and leaves.
fn leaves<R: Wait + Copy>(listener: Option<EventListener<(), R>>) -> bool {
    match listener {
        Some(listener) => listener.discard(),
        None => false,
    }
}

fn tell_all<R: Wait + Abort + Copy>(rt: R, alloc: Global) -> (Seen, usize) {
    let event = new_event(&rt, alloc);
    let first = event.listen(&rt).expect(&rt, "memory");
    let second = event.listen(&rt).expect(&rt, "memory");
    let third = event.listen(&rt).expect(&rt, "memory");
    let mut tells = Tells {
        rt,
        event,
        first: Some(first),
        second: Some(second),
        third: Some(third),
    };
    let mut makes = Makes {
        rt,
        alloc,
        ids: EventIds::new(),
    };
    let mut scarcity = Scarcity::new(alloc);
    scarcity.refuse_none(&mut makes);
    scarcity.refuse_none(&mut tells);
    (scarcity.end(), tells.event.total_listeners(&rt))
}

/// Identities and events are made, and notices of plain counts, questions and leaving are answered, where nothing is to be had.
#[test]
fn calls_of_events_that_take_no_memory(rt: HostRuntime) {
    let (seen, left) = tell_all(rt, rt.alloc());
    expect_right(&rt, &seen);
    expect_true(&rt, left == 0);
}

/// A tag whose copies take memory, and keep it.
#[derive(Debug, Drop)]
struct Costly {
    alloc: Global,
    number: Box<u32>,
}

impl Model for Costly {
    ghost use Rattle.std.specs.Prelude.{ℕ};

    ghost Value = { ℕ };

    ghost view = { λ tag. tag.number.value };
}

impl Clone for Costly {
    ghost is_clone = { λ x y. y ≡ x };

    fn clone(&self) -> Result<Costly, AllocError> {
        Ok(Costly {
            alloc: self.alloc,
            number: Box::new(self.alloc, *self.number)?,
        })
    }
}

/// A notice for three, whose tag is cloned for each but the last.
#[derive(Drop)]
struct Notices<R: Wait + Copy> {
    rt: R,
    event: Event<Costly>,
    /// The tags, one for each attempt, which lets it go.
    tags: Vec<Costly>,
    told: usize,
}

impl<R: Wait + Copy> Attempt for Notices<R> {
    fn make(&mut self) -> Tried {
        let Some(tag) = self.tags.pop() else {
            return Tried::Wrong;
        };
        match self.event.notify(&self.rt, 3u8.tag(tag)) {
            Ok(told) => made(self.told.wrapping_add(told) == 3),
            Err(NotifyError { told }) => {
                self.told = self.told.wrapping_add(told);
                if self.told < 3 {
                    Tried::Noted
                } else {
                    Tried::Wrong
                }
            }
        }
    }
}

/// Whether a listener was told with this tag.
fn has_tag<R: Wait + Copy>(listener: EventListener<Costly, R>) -> bool {
    match listener.wait() {
        Ok(tag) => *tag.number == 7,
        Err(_) => false,
    }
}

fn make_tags<A: Abort>(rt: &A, alloc: Global) -> Vec<Costly> {
    let mut tags = Vec::with_capacity(alloc, 100).expect(rt, "memory");
    for _ in 0..100 {
        let number = Box::new(alloc, 7u32).expect(rt, "memory");
        let _ = tags.push(Costly { alloc, number });
    }
    tags
}

/// Three listen, and are told. Then whether each has the tag.
fn notify_all<R: Wait + Abort + Copy>(rt: R, alloc: Global) -> (Seen, [bool; 3]) {
    let mut notices = Notices {
        rt,
        event: new_event(&rt, alloc),
        tags: make_tags(&rt, alloc),
        told: 0,
    };
    let first = notices.event.listen(&rt).expect(&rt, "memory");
    let second = notices.event.listen(&rt).expect(&rt, "memory");
    let third = notices.event.listen(&rt).expect(&rt, "memory");
    let mut scarcity = Scarcity::new(alloc);
    scarcity.refuse_each(&mut notices);
    let seen = scarcity.end();
    (seen, [has_tag(first), has_tag(second), has_tag(third)])
}

/// Who was told before a tag was refused stays told, and the next notice tells the others.
#[test]
fn notices_with_costly_tags(rt: HostRuntime) {
    let (seen, tagged) = notify_all(rt, rt.alloc());
    expect_seen(&rt, &seen, 1, 2);
    expect_equal(&rt, &tagged, &[true, true, true]);
}

/// What is done to a recorded event.
#[derive(Clone, Copy, PartialEq, Eq)]
enum Deed {
    Reserve,
    Insert,
    Register,
    Notify,
    Remove,
}

/// A recorded event, and what was done to it.
#[derive(Drop)]
struct Recorded<R: Wait + Copy, L: Ledger> {
    rt: R,
    event: RecordedEvent<u32, u32, L>,
    /// A part of its ledger.
    mine: Share<L>,
    deed: Deed,
    /// The last listener.
    key: Option<Key>,
    total: usize,
    told: usize,
}

impl<R: Wait + Copy, L: Ledger> Model for Recorded<R, L> {
    ghost use Rattle.std.specs.Prelude.{◌<◌};

    ghost Value = { Unit {0} };

    ghost view = { λ r. tt };

    ghost invariant = { λ r. 0 < r.mine.parts };
}

impl<R: Wait + Copy, L: Ledger> Recorded<R, L> {
    fn is_as_before(&self) -> bool {
        self.event.total(&self.rt) == self.total && self.event.told(&self.rt) == self.told
    }

    fn reserve(&self) -> Tried {
        match self.event.reserve(&self.rt, 8) {
            Ok(()) => made(self.is_as_before()),
            Err(NoMemory) => refused(self.is_as_before()),
        }
    }

    fn insert(&mut self) -> Tried {
        match self.event.insert(&self.rt, &mut self.mine) {
            Ok(key) => {
                self.key = Some(key);
                self.total = self.total.wrapping_add(1);
                made(self.is_as_before())
            }
            Err(ListenError::NoMemory) => refused(self.is_as_before()),
            Err(_) => Tried::Wrong,
        }
    }

    fn register(&mut self, key: Key) -> Tried {
        match self.event.register(&self.rt, &mut self.mine, key, 9) {
            Ok(Registered::Waiting) => made(self.is_as_before()),
            Err(RegisterError::NoMemory) => refused(self.is_as_before()),
            _ => Tried::Wrong,
        }
    }

    fn notify(&mut self) -> Tried {
        let notice = 1u8.tag(5u32).additional();
        match self
            .event
            .notify(&self.rt, &mut self.mine, notice, &mut Nowhere)
        {
            Ok(told) => {
                self.told = self.told.wrapping_add(told);
                made(told == 1 && self.is_as_before())
            }
            Err(NotifyError { told }) => refused(told == 0 && self.is_as_before()),
        }
    }

    /// Takes the last listener off, which was not told if this is made before it is.
    fn remove(&mut self, key: Key) -> Tried {
        match self
            .event
            .remove(&self.rt, &mut self.mine, key, true, &mut Nowhere)
        {
            Ok(was_told) => {
                self.total = self.total.wrapping_sub(1);
                self.told = self.told.wrapping_sub(usize::from(was_told));
                made(self.is_as_before())
            }
            Err(_) => Tried::Wrong,
        }
    }
}

impl<R: Wait + Copy, L: Ledger> Attempt for Recorded<R, L> {
    fn make(&mut self) -> Tried {
        match (self.deed, self.key) {
            (Deed::Reserve, _) => self.reserve(),
            (Deed::Insert, _) => self.insert(),
            (Deed::Notify, _) => self.notify(),
            (Deed::Register, Some(key)) => self.register(key),
            (Deed::Remove, Some(key)) => self.remove(key),
            _ => Tried::Wrong,
        }
    }
}

/// How often two listeners come, the first is told and the last leaves.
const ROUNDS: usize = 20;

fn record_all<L: Ledger, R: Wait + Copy>(rt: R, alloc: Global, blank: Blank) -> (Seen, [usize; 3])
    requires name { blank.name ≡ L.name }
    requires parts { (blank.parts ≡ L.parts) × (blank.parts ≡ 1) }
{
    let (book, mine) = blank.open::<L>();
    let mut recorded = Recorded {
        rt,
        event: RecordedEvent::<u32, u32, L>::new(alloc, book),
        mine,
        deed: Deed::Reserve,
        key: None,
        total: 0,
        told: 0,
    };
    let mut scarcity = Scarcity::new(alloc);
    scarcity.refuse_each(&mut recorded);
    for _ in 0..ROUNDS {
        for deed in [
            Deed::Insert,
            Deed::Register,
            Deed::Insert,
            Deed::Register,
            Deed::Notify,
        ] {
            recorded.deed = deed;
            scarcity.refuse_each(&mut recorded);
        }
        recorded.deed = Deed::Remove;
        scarcity.refuse_none(&mut recorded);
    }
    let seen = scarcity.end();
    let (list, calls, _) = recorded.event.into_parts();
    (seen, [list.total(), list.told(), calls.len()])
}

/// After a refusal the record has as many entries as calls changed something, and the end of a listener needs no memory.
#[test]
fn recorded_events(rt: HostRuntime) {
    let (seen, counts) = record_all::<Brand, HostRuntime>(rt, rt.alloc(), Blank::new(1));
    expect_seen(&rt, &seen, 27, 48);
    expect_equal(&rt, &counts, &[20, 20, 120]);
}
