//! Which names may be woken, and which were, in order. The invariant: each name has its place before it may be woken, so waking takes no
//! memory.

use crate::name_table::NameTable;
use crate::names::OnReturn;
use channel_calls::stage::WaitList;
use channel_world_model::call::Call;
use channel_world_model::name::Waiter;
use channel_world_model::plan::Plan;
use event_listener::key::Key;
use lru::LruCache;
use std::alloc::{AllocError, Global};
use std::marker::Model;

/// The names that may be woken, and which of them were, in the order of their waking.
///
/// It is the kit's list of recent use, with a mark at those that were woken: a name is found, moved, marked and removed without a walk past
/// the others.
#[derive(Drop)]
pub struct Order {
    places: LruCache<Waiter, bool>,
}

impl Model for Order {
    ghost use Rattle.std.specs.Prelude.{◌≡◌, ◌-◌, ◌^◌};
    ghost use Rattle.std.specs.Map.{keys_of};
    ghost use Rattle.channel_world_runs.specs.Order.{WakeOrder, marked_places};

    ghost Value = { WakeOrder };

    ghost view = { λ o. record { places = keys_of o.places.entries; woken = marked_places o.places.entries } };

    ghost invariant = { λ o. o.places.cap ≡ 2 ^ 64 - 1 };
}

impl Order {
    ghost use Rattle.std.specs.Prelude.{◌≡◌, IfOk, OnOk, OnErr, length};
    ghost use Rattle.channel_world_runs.specs.Order.{no_places, placed, rested, woken_last, without_place, order_begun, order_settled};
    ghost use Rattle.channel_world_runs.specs.Owed.{woken_on};

    /// Nobody has a place.
    pub(crate) fn new(alloc: Global) -> Result<Order, AllocError>
        ensures { IfOk result (λ o. o ≡ no_places) }
    {
        let places = LruCache::unbounded(alloc)?;
        Ok(Order { places })
    }

    /// Gives w a place, not woken. `Err` with nothing changed if memory was refused.
    pub(crate) fn place(&mut self, w: Waiter) -> Result<(), AllocError>
        ensures ok { OnOk result (self.new ≡ placed w self.old) }
        ensures err { OnErr result (self.new ≡ self.old) }
    {
        let _length = self.places.len();
        let Ok(_) = self.places.put(w, false) else {
            return Err(AllocError);
        };
        Ok(())
    }

    /// w keeps its place, if it has one, and is no longer woken.
    pub(crate) fn rest(&mut self, w: Waiter)
        ensures { self.new ≡ rested w self.old }
    {
        let _length = self.places.len();
        if self.places.contains(&w) {
            let Ok(_) = self.places.put(w, false) else {
                unreachable!();
            };
        }
    }

    /// Marks w as woken, after all that were woken before, if it has a place.
    pub(crate) fn wake(&mut self, w: Waiter)
        ensures { self.new ≡ woken_last w self.old }
    {
        let _length = self.places.len();
        if self.places.contains(&w) {
            let Ok(_) = self.places.put(w, true) else {
                unreachable!();
            };
            let _moved = self.places.demote(&w);
        }
    }

    /// Takes w's place away.
    pub(crate) fn leave(&mut self, w: Waiter)
        ensures { self.new ≡ without_place w self.old }
    {
        let _length = self.places.len();
        let _removed = self.places.pop(&w);
    }

    /// Those that were woken, in the order of their waking. It walks over all names that are polled or pending.
    pub fn woken(&self, alloc: Global) -> Result<Vec<Waiter>, AllocError>
        ensures { IfOk result (λ names. names.items ≡ self.now.woken) }
    {
        let mut names = Vec::new(alloc);
        let mut places = self.places.iter();
        while let Some((name, was_woken)) = places.next() {
            if *was_woken && names.push(*name).is_err() {
                return Err(AllocError);
            }
        }
        Ok(names)
    }

    /// How many were woken. It walks over all names that are polled or pending.
    pub fn count_woken(&self) -> usize
        ensures { result ≡ length self.now.woken }
    {
        let places = self.places.iter();
        places.filter(|(_, was_woken)| **was_woken).count()
    }

    /// How many of those that were woken belong to this wait queue. It walks over all names that are polled or pending.
    pub fn count_woken_on<T>(&self, name_table: &NameTable<T>, line: WaitList) -> usize
        ensures { result ≡ woken_on line name_table.now self.now.woken }
    {
        let places = self.places.iter();
        places
            .filter(|(name, was_woken)| **was_woken && name_table.is_on(line, **name))
            .count()
    }

    /// A call begins: a name that is polled gets a place and is no longer woken, one that is given up or dropped loses it. `Err` with
    /// nothing changed if memory was refused.
    pub(crate) fn begin<T>(&mut self, call: &Call<T>) -> Result<(), AllocError>
        ensures ok { OnOk result (self.new ≡ order_begun call.now self.old) }
        ensures err { OnErr result (self.new ≡ self.old) }
    {
        match Plan::of(call) {
            Plan::Polls(op) => self.place(Waiter::Op(op))?,
            Plan::Streams(receiver) => self.place(Waiter::Stream(receiver))?,
            Plan::GivesUp(op) => self.leave(Waiter::Op(op)),
            Plan::Drops(handle) => self.leave(Waiter::Stream(handle)),
            _ => {}
        }
        Ok(())
    }

    /// A call with this to write back has left this listener; or none, and then the name that it polled may not be woken any more.
    pub(crate) fn settle<T>(&mut self, on_return: &OnReturn<T>, key: Option<Key>)
        ensures { self.new ≡ order_settled on_return.now key self.old }
    {
        match (on_return, key) {
            (OnReturn::Poll(op), None) => self.leave(Waiter::Op(*op)),
            (OnReturn::PollNext(receiver), None) => self.leave(Waiter::Stream(*receiver)),
            _ => {}
        }
    }
}
