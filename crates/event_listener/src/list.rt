//! Lists of listeners, with the calls that touch their fields.
//!
//! The told listeners are in one chain and the waiting ones in another, each in the order of listening. A notification tells the first ones
//! of the second chain, which move to the end of the first as one run. The list owns its nodes; it is reached by `&mut` alone, from behind
//! the lock of its event. The invariants: each node is in one of the two chains, by its state; `told_count` is the length of the first; and
//! serials are never given twice.
//!
//! # Extensions
//!
//! All of this module: in `event-listener` 5.4.2 the list is private to its event.
ghost use Rattle.std.specs.Prelude.{◌≡◌, ◌+◌, ◌-◌, ◌*◌, ◌^◌, ◌<◌, ◌≤◌, [], length, IsOk, IfOk, OnOk, OnErr, IfErr, Err};
ghost use Rattle.std.specs.Prelude.{◌≢◌, if◌then◌else◌, ◌∷◌, take, Option, Some, None, true, false};
ghost use Rattle.std.specs.Option.{option_to_list};
ghost use Rattle.event_listener.specs.Lists.{serial_of, kind_of, told_as, waits_as, listened, listened_with, without, with_task, notified, tasks_of, moved, told_by, IsListenRefusal};
ghost use Rattle.event_listener.specs.Order.{IsInOrder, HasLeft};
ghost use Rattle.event_listener.specs.Chain.{IsStateOf};
ghost use Rattle.event_listener.specs.Notices.{Notifies};
ghost use Rattle.event_listener.specs.declared.node.State.TheVariants.{Waiting};

use crate::error::{ListenError, NoMemory, NotifyError};
use crate::key::Key;
use crate::links::{link_last, move_run, restate, unlink};
use crate::node::{Ends, Nodes, State};
use crate::notify::Notification;
use crate::wakes::Wakes;
use std::alloc::Global;
use std::marker::Model;

/// The listeners of one event, each told or waiting, with tags of type `T` and tasks of type `W`.
///
/// To its callers it is two lists, both in the order of listening: the told listeners, each with the kind of its notification and its tag,
/// and the waiting ones, each perhaps with a task. It also has the number of serials that it gave, the room for listeners that takes no
/// more memory, the visits of its last call, and the looks of all its calls: every read and write of a node except the making of one, those
/// of a call's own listener too. What a call adds to them is bounded, and nothing takes from them; they are counted modulo 2^64, which
/// takes centuries to wrap.
pub struct List<T, W> {
    nodes: Nodes<T, W>,
    /// Of the chain of the told ones.
    told: Ends,
    /// Of the chain of the waiting ones.
    waiting: Ends,
    told_count: usize,
    serials: u64,
}

/// The task of a listener that waited.
fn task_of<T: Drop, W>(state: State<T, W>) -> Option<W>
    ensures { (task : Option W) → state ≡ Waiting task → result ≡ task }
{
    match state {
        State::Waiting(task) => task,
        State::Told { .. } => None,
    }
}

/// Written by hand, so that crates above prove nothing about the nodes when they drop a list.
impl<T: Drop, W: Drop> Drop for List<T, W> {
    fn drop(self) {
        let List {
            nodes,
            told: _,
            waiting: _,
            told_count: _,
            serials: _,
        } = self;
        drop(nodes);
    }
}

impl<T, W> Model for List<T, W> {
    ghost use Rattle.event_listener.specs.Lists.{ListView};

    ghost Value = { ListView T W };

    ghost use Rattle.event_listener.specs.Inside.{shown, IsSound};

    ghost view = { shown };

    ghost invariant = { IsSound };
}

impl<T: Drop, W: Drop> List<T, W> {
    /// An empty list. It takes no memory yet, and asks this allocator once it does.
    pub fn new(alloc: Global) -> Self
        ensures told { result.lists.told ≡ [] }
        ensures waiting { result.lists.waiting ≡ [] }
        ensures serials { result.serials ≡ 0 }
        ensures room { result.room ≡ 0 }
        ensures visits { result.visits ≡ 0 }
        ensures looks { result.looks ≡ 0 }
    {
        let nobody = Ends {
            first: None,
            last: None,
        };
        List {
            nodes: Nodes::new(alloc),
            told: nobody,
            waiting: nobody,
            told_count: 0,
            serials: 0,
        }
    }

    /// Whether the key is listed, and then whether it is told.
    pub(crate) fn kind(&mut self, key: Key) -> Option<bool>
        ensures answer { result ≡ kind_of self.old.lists key }
        ensures same { self.new ≡ record self.old { looks = self.new.looks } }
        ensures looks { self.new.looks ≤ self.old.looks + 1 }
    {
        self.nodes.find(key, false)
    }

    /// Begins a call whose visits are counted, with the same look.
    pub(crate) fn begin(&mut self, key: Key) -> Option<bool>
        ensures answer { result ≡ kind_of self.old.lists key }
        ensures lists { self.new.lists ≡ self.old.lists }
        ensures left { (k : Key) → HasLeft self.old k → HasLeft self.new k }
        ensures serials { self.new.serials ≡ self.old.serials }
        ensures room { self.new.room ≡ self.old.room }
        ensures visits { self.new.visits ≤ 1 }
        ensures looks { self.new.looks ≤ self.old.looks + 1 }
    {
        self.nodes.start();
        self.nodes.find(key, true)
    }

    /// Removes a listener, told or waiting as `told` says. A poll's visits aren't counted.
    ///
    /// It is out of line, so that a call which removes nobody is short.
    #[inline(never)]
    pub(crate) fn leave(&mut self, key: Key, told: bool, counted: bool) -> State<T, W>
        requires { kind_of self.old.lists key ≡ Some told }
        ensures lists { self.new.lists ≡ without key self.old.lists }
        ensures off { HasLeft self.new key }
        ensures left { (k : Key) → HasLeft self.old k → HasLeft self.new k }
        ensures state { IsStateOf result (told_as self.old.lists key) (waits_as self.old.lists key) }
        ensures serials { self.new.serials ≡ self.old.serials }
        ensures room { self.new.room ≡ self.old.room + 1 }
        ensures visits { self.new.visits ≤ self.old.visits + 3 }
        ensures looks { self.new.looks ≤ self.old.looks + 3 }
        ensures uncounted { counted ≡ false → self.new.visits ≡ self.old.visits }
    {
        if told {
            let state = unlink(&mut self.nodes, &mut self.told, key.slot, counted);
            // Keep the count in step with the chain: a notification that is not additional subtracts it from its number.
            self.told_count -= 1;
            state
        } else {
            unlink(&mut self.nodes, &mut self.waiting, key.slot, counted)
        }
    }

    /// Begins a registration: stores the task if the listener waits. It answers whether the key is listed, and then whether it is told.
    pub(crate) fn store(&mut self, key: Key, task: W) -> Option<bool>
        ensures answer { result ≡ kind_of self.old.lists key }
        ensures stored { result ≡ Some false → self.new.lists ≡ with_task key task self.old.lists }
        ensures kept { result ≢ Some false → self.new.lists ≡ self.old.lists }
        ensures left { (k : Key) → HasLeft self.old k → HasLeft self.new k }
        ensures serials { self.new.serials ≡ self.old.serials }
        ensures room { self.new.room ≡ self.old.room }
        ensures visits { self.new.visits ≤ 1 }
        ensures looks { self.new.looks ≤ self.old.looks + 3 }
        ensures looks_kept { result ≢ Some false → self.new.looks ≤ self.old.looks + 1 }
    {
        self.nodes.store(key, task)
    }

    /// Adds a listener, which waits behind all others and without a task.
    ///
    /// [`ListenError::NoMemory`] if there was no room and a growth was refused, which can't happen within the room that [`List::reserve`]
    /// made; [`ListenError::SerialsUsedUp`] once all 2^64 - 1 serials were given. After either the listeners are as before.
    pub fn insert(&mut self) -> Result<Key, ListenError>
        ensures lists { IfOk result (λ key. self.new.lists ≡ listened key self.old.lists) }
        ensures serial { IfOk result (λ key. serial_of key ≡ self.old.serials) }
        ensures serials { OnOk result (self.new.serials ≡ self.old.serials + 1) }
        ensures unknown { IfOk result (λ key. kind_of self.old.lists key ≡ None) }
        ensures room { OnOk result (self.old.room ≤ self.new.room + 1) }
        ensures visits { self.new.visits ≤ 5 }
        ensures looks { self.new.looks ≤ self.old.looks + 5 }
        ensures unchanged { OnErr result (self.new.lists ≡ self.old.lists) }
        ensures unchanged_serials { OnErr result (self.new.serials ≡ self.old.serials) }
        ensures kept_room { OnErr result (self.old.room ≤ self.new.room) }
        ensures why { IfErr result (λ e. IsListenRefusal self.old e) }
        ensures used_up { self.old.serials ≡ 2 ^ 64 - 1 → result ≡ Err ListenError.SerialsUsedUp }
        ensures left { (key : Key) → HasLeft self.old key → HasLeft self.new key }
    {
        self.insert_with(None)
    }

    /// [`List::insert`], with a task from the beginning if there is one. A refusal drops the task.
    #[inline(always)]
    pub(crate) fn insert_with(&mut self, task: Option<W>) -> Result<Key, ListenError>
        ensures lists { IfOk result (λ key. self.new.lists ≡ listened_with task key self.old.lists) }
        ensures serial { IfOk result (λ key. serial_of key ≡ self.old.serials) }
        ensures serials { OnOk result (self.new.serials ≡ self.old.serials + 1) }
        ensures unknown { IfOk result (λ key. kind_of self.old.lists key ≡ None) }
        ensures room { OnOk result (self.old.room ≤ self.new.room + 1) }
        ensures visits { self.new.visits ≤ 5 }
        ensures looks { self.new.looks ≤ self.old.looks + 5 }
        ensures unchanged { OnErr result (self.new.lists ≡ self.old.lists) }
        ensures unchanged_serials { OnErr result (self.new.serials ≡ self.old.serials) }
        ensures kept_room { OnErr result (self.old.room ≤ self.new.room) }
        ensures why { IfErr result (λ e. IsListenRefusal self.old e) }
        ensures used_up { self.old.serials ≡ 2 ^ 64 - 1 → result ≡ Err ListenError.SerialsUsedUp }
        ensures left { (key : Key) → HasLeft self.old key → HasLeft self.new key }
    {
        // Refuse before a node is made. A serial that was given twice would let the key of a listener that has left name another one.
        if self.serials == u64::MAX {
            self.nodes.start();
            return Err(ListenError::SerialsUsedUp);
        }
        let serial = self.serials;
        match link_last(&mut self.nodes, &mut self.waiting, serial, task) {
            Ok(slot) => {
                self.serials += 1;
                Ok(Key { slot, serial })
            }
            Err(_) => Err(ListenError::NoMemory),
        }
    }

    /// Tells the first waiting listener, and returns its task.
    #[inline(always)]
    pub(crate) fn tell_first(&mut self, additional: bool, tag: T) -> Option<W>
        requires waiting { 0 < length self.old.lists.waiting }
        ensures lists { self.new.lists ≡ notified additional (tag ∷ []) self.old.lists }
        ensures left { (k : Key) → HasLeft self.old k → HasLeft self.new k }
        ensures task { option_to_list result ≡ tasks_of (take 1 self.old.lists.waiting) }
        ensures serials { self.new.serials ≡ self.old.serials }
        ensures room { self.new.room ≡ self.old.room }
        ensures visits { self.new.visits ≤ self.old.visits + 5 }
        ensures looks { self.new.looks ≤ self.old.looks + 5 }
    {
        let Some(at) = self.waiting.first else {
            unreachable!()
        };
        let told = State::Told { additional, tag };
        let (was, next) = restate(&mut self.nodes, at, told, true);
        move_run(
            &mut self.nodes,
            &mut self.waiting,
            &mut self.told,
            Some(at),
            next,
        );
        // With the move: the count is the length of the told chain.
        self.told_count += 1;
        task_of(was)
    }

    /// Tells this many of the first waiting listeners, each with the next tag of the notification, and wakes their tasks in order.
    ///
    /// Each gets its new state where it is, and then they move as one run: all of them, or those before the first whose tag was refused.
    #[inline(always)]
    pub(crate) fn tell<N: Notification<Tag = T> + Drop, S: Wakes<W>>(
        &mut self,
        additional: bool,
        many: usize,
        mut notice: N,
        sink: &mut S,
    ) -> Result<usize, NotifyError>
        requires can_give { N.can_give notice }
        requires waiting { many ≤ length self.old.lists.waiting }
        ensures notified { Notifies N.gives additional many notice self.old.lists self.new.lists S.wakes sink.old sink.new result }
        ensures left { (key : Key) → HasLeft self.old key → HasLeft self.new key }
        ensures serials { self.new.serials ≡ self.old.serials }
        ensures room { self.new.room ≡ self.old.room }
        ensures visits { self.new.visits ≤ self.old.visits + 5 * told_by result }
        ensures looks { self.new.looks ≤ self.old.looks + 5 * told_by result }
    {
        let mut last = None;
        let mut next = self.waiting.first;
        for i in 0..many {
            let Some(at) = next else { unreachable!() };
            // Ask for the tag before the node is changed. If it is refused, the listeners before this one stay told, and this one waits on.
            let Ok(tag) = notice.next_tag() else {
                move_run(
                    &mut self.nodes,
                    &mut self.waiting,
                    &mut self.told,
                    last,
                    next,
                );
                self.told_count += i;
                return Err(NotifyError { told: i });
            };
            let told = State::Told { additional, tag };
            // Only the state changes here: one move after the loop takes all of them to the other chain with four links.
            let (was, after) = restate(&mut self.nodes, at, told, true);
            last = Some(at);
            next = after;
            if let Some(task) = task_of(was) {
                // Wake at once: keeping the tasks for later would take memory, which a plain notification must not need.
                sink.wake(task);
            }
        }
        move_run(
            &mut self.nodes,
            &mut self.waiting,
            &mut self.told,
            last,
            next,
        );
        self.told_count += many;
        Ok(many)
    }

    /// How many are told.
    ///
    /// They are the first ones in the order of listening: serials are given in that order, and those of the told and then of the waiting
    /// ones ascend. So no key is listed twice.
    pub fn told(&self) -> usize
        ensures count { result ≡ length self.now.lists.told }
        ensures in_order { IsInOrder self.now.lists self.now.serials }
    {
        self.told_count
    }

    /// How many are listed, told and waiting together.
    pub fn total(&self) -> usize
        ensures { result ≡ length self.now.lists.told + length self.now.lists.waiting }
    {
        self.nodes.len()
    }

    /// How many nodes the last insert, register, remove or notify read or wrote, except its own listener's; 0 before the first such call.
    ///
    /// Each read and each write of a node counts as one visit.
    pub fn last_visits(&self) -> u128
        ensures { result ≡ self.now.visits }
    {
        self.nodes.last() as u128
    }

    /// Makes room for this many more listeners in all; if there is as much already it isn't refused.
    ///
    /// [`NoMemory`] if a growth was refused; the listeners are as before.
    pub fn reserve(&mut self, extra: usize) -> Result<(), NoMemory>
        ensures room { OnOk result (extra ≤ self.new.room) }
        ensures kept_room { self.old.room ≤ self.new.room }
        ensures succeeds { extra ≤ self.old.room → IsOk result }
        ensures lists { self.new.lists ≡ self.old.lists }
        ensures left { (key : Key) → HasLeft self.old key → HasLeft self.new key }
        ensures serials { self.new.serials ≡ self.old.serials }
        ensures visits { self.new.visits ≡ self.old.visits }
        ensures looks { self.new.looks ≡ self.old.looks }
    {
        self.nodes.reserve(extra)
    }

    /// Begins a call that has no node of its own.
    pub(crate) fn start(&mut self)
        ensures { self.new ≡ record self.old { visits = 0 } }
    {
        self.nodes.start();
    }

    /// How many listeners a notification for this many moves.
    pub(crate) fn to_move(&self, additional: bool, count: usize) -> usize
        ensures value { result ≡ moved additional count self.now.lists }
        ensures within { result ≤ length self.now.lists.waiting }
    {
        let told = self.told();
        let waiting = self.total() - told;
        let less = if additional { 0 } else { told };
        count.saturating_sub(less).min(waiting)
    }
}
