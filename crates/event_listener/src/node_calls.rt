//! The calls on nodes, each made of counted reads and writes. They reach a node by its index, and compare its serial number if they have a
//! key.
ghost use Rattle.std.specs.Prelude.{◌≡◌, ◌≢◌, ◌+◌, ◌≤◌, IfSome, None, Some, false, true, ℕ};
ghost use Rattle.slab.specs.Slab.{get, slab_len, with_value, ContainsKey};
ghost use Rattle.event_listener.specs.Nodes.{found, found_looks, found_visits, stored_looks, more, more_if, Stays};
ghost use Rattle.event_listener.specs.declared.node.State.TheVariants.{Waiting};

use crate::key::Key;
use crate::node::{Node, Nodes, State};
use std::mem;

impl<T: Drop, W: Drop> Nodes<T, W> {
    /// Whether the key's node is there, and then whether it is told: one read.
    ///
    /// The node at the key's index is the call's own, or that of another listener, and then the read may be a visit.
    #[inline(always)]
    pub(crate) fn find(&mut self, key: Key, counted: bool) -> Option<bool>
        ensures answer { result ≡ found (get self.old.slab key.slot) key.serial }
        ensures uncounted { counted ≡ false → self.new.last ≡ self.old.last }
        ensures most { self.new.last ≤ self.old.last + 1 }
        ensures most_looks { self.new.looks ≤ self.old.looks + 1 }
        ensures rest { self.new ≡ record self.old { last = found_visits counted (get self.old.slab key.slot) key.serial self.old.last; looks = found_looks (get self.old.slab key.slot) self.old.looks } }
    {
        let seen = self.read(key.slot, Some(key.serial), counted)?;
        // The serial, not the index: an index is used again, and the key of a listener that has left must not name another one.
        if seen.serial == key.serial {
            Some(seen.is_told)
        } else {
            None
        }
    }

    /// Begins a call that stores a task, and stores it if the key's node is there and waits: a read, and then a write.
    ///
    /// Answers as [`Nodes::find`] does. The older task is dropped.
    #[inline(always)]
    pub(crate) fn store(&mut self, key: Key, task: W) -> Option<bool>
        ensures answer { result ≡ found (get self.old.slab key.slot) key.serial }
        ensures stored { result ≡ Some false → IfSome (get self.old.slab key.slot) (λ node. self.new.slab ≡ with_value self.old.slab key.slot (record node { state = Waiting (Some task) })) }
        ensures kept { result ≢ Some false → self.new.slab ≡ self.old.slab }
        ensures len { slab_len self.new.slab ≡ slab_len self.old.slab }
        ensures capacity { self.new.slab.capacity ≡ self.old.slab.capacity }
        ensures last { self.new.last ≡ found_visits true (get self.old.slab key.slot) key.serial 0 }
        ensures looks { self.new.looks ≡ stored_looks (get self.old.slab key.slot) key.serial self.old.looks }
    {
        self.start();
        let is_told = self.find(key, true)?;
        if !is_told {
            let node = self.write(key.slot, false);
            node.state = State::Waiting(Some(task));
        }
        Some(is_told)
    }

    /// Makes a node be followed by another.
    #[inline(always)]
    pub(crate) fn set_after(&mut self, at: usize, to: Option<usize>, counted: bool)
        requires present { ContainsKey self.old.slab at }
        ensures node { IfSome (get self.old.slab at) (λ node. self.new.slab ≡ with_value self.old.slab at (record node { after = to })) }
        ensures last { self.new.last ≡ more_if counted self.old.last }
        ensures looks { self.new.looks ≡ more self.old.looks }
        ensures stays { Stays counted self.old self.new 1 }
    {
        let node = self.write(at, counted);
        node.after = to;
    }

    /// Makes a node be preceded by another.
    #[inline(always)]
    pub(crate) fn set_before(&mut self, at: usize, to: Option<usize>, counted: bool)
        requires present { ContainsKey self.old.slab at }
        ensures node { IfSome (get self.old.slab at) (λ node. self.new.slab ≡ with_value self.old.slab at (record node { before = to })) }
        ensures last { self.new.last ≡ more_if counted self.old.last }
        ensures looks { self.new.looks ≡ more self.old.looks }
        ensures stays { Stays counted self.old self.new 1 }
    {
        let node = self.write(at, counted);
        node.before = to;
    }

    /// Puts a node between these two, by one write.
    #[inline(always)]
    pub(crate) fn set_both(
        &mut self,
        at: usize,
        before: Option<usize>,
        after: Option<usize>,
        counted: bool,
    )
        requires present { ContainsKey self.old.slab at }
        ensures node { IfSome (get self.old.slab at) (λ node. self.new.slab ≡ with_value self.old.slab at (record node { before = before; after = after })) }
        ensures last { self.new.last ≡ more_if counted self.old.last }
        ensures looks { self.new.looks ≡ more self.old.looks }
        ensures stays { Stays counted self.old self.new 1 }
    {
        let node = self.write(at, counted);
        node.before = before;
        node.after = after;
    }

    /// Gives a node another state, and returns the old one and the node behind it: a read and a write.
    #[inline(always)]
    pub(crate) fn restate(
        &mut self,
        at: usize,
        state: State<T, W>,
        counted: bool,
    ) -> (State<T, W>, Option<usize>)
        requires present { ContainsKey self.old.slab at }
        ensures node { IfSome (get self.old.slab at) (λ node. self.new.slab ≡ with_value self.old.slab at (record node { state = state })) }
        ensures was { IfSome (get self.old.slab at) (λ node. result ≡ (node.state, node.after)) }
        ensures last { self.new.last ≡ more_if counted (more_if counted self.old.last) }
        ensures looks { self.new.looks ≡ more (more self.old.looks) }
    {
        let Some(seen) = self.read(at, None, counted) else {
            unreachable!()
        };
        let node = self.write(at, counted);
        (mem::replace(&mut node.state, state), seen.after)
    }
}
