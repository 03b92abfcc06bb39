//! The nodes of a list. `Nodes` owns them and counts each look at a node and each change of one: `read` and `write` are the only ways to a
//! node, so no walk over a list goes uncounted.
ghost use Rattle.std.specs.Prelude.{◌≡◌, ◌+◌, ◌^◌, ◌<◌, ◌≤◌, [], IsOk, IfOk, OnOk, OnErr, ◌≢◌, ℕ, None, Some};
ghost use Rattle.std.specs.Borrow.{sem};
ghost use Rattle.slab.specs.Slab.{get, slab_len, Updates, HasRoomFor, ContainsKey};
ghost use Rattle.event_listener.specs.Nodes.{seen, read_visits, found_looks, more, more_if};
ghost use Rattle.event_listener.specs.Writes.{lends_node};

use crate::error::NoMemory;
use slab::Slab;
use std::alloc::Global;

/// Whether a listener was told, and what came with it.
#[derive(Drop)]
pub(crate) enum State<T, W> {
    Waiting(Option<W>),
    Told { additional: bool, tag: T },
}

/// One listener, between its neighbours in its chain.
#[derive(Drop)]
pub(crate) struct Node<T, W> {
    pub(crate) serial: u64,
    pub(crate) before: Option<usize>,
    pub(crate) after: Option<usize>,
    pub(crate) state: State<T, W>,
}

/// What a read of a node gives.
#[derive(Clone, Copy)]
pub(crate) struct Seen {
    pub(crate) serial: u64,
    pub(crate) after: Option<usize>,
    pub(crate) is_told: bool,
}

/// The first and the last of a chain.
#[derive(Clone, Copy)]
pub(crate) struct Ends {
    pub(crate) first: Option<usize>,
    pub(crate) last: Option<usize>,
}

/// The nodes, and how often they were read or written.
///
/// A node is reached by [`Nodes::read`] and [`Nodes::write`] alone; all other calls on nodes are made of these in another module. Both
/// count in `looks`, whichever listener's the node is, and no call sets that back, so the bound on it holds of what was really looked at.
/// Counted accesses, which are a call's visits to nodes that are not its own, also count in `last`, which each such call resets. Making a
/// node isn't counted, and taking it out counts as a read. Both counts wrap modulo 2^64, so that counting is one addition in memory. The
/// two fields stand apart: side by side they are added to as a pair, and such a read waits for the writes of each.
#[derive(Drop)]
pub(crate) struct Nodes<T, W> {
    last: u64,
    // A `Slab` and no free list of our own: its contracts say exactly when memory is refused.
    slab: Slab<Node<T, W>>,
    looks: u64,
}

impl<T: Drop, W: Drop> Nodes<T, W> {
    pub(crate) fn new(alloc: Global) -> Self
        ensures slots { result.slab.slots ≡ [] }
        ensures capacity { result.slab.capacity ≡ 0 }
        ensures last { result.last ≡ 0 }
        ensures looks { result.looks ≡ 0 }
    {
        Nodes {
            last: 0,
            slab: Slab::new(alloc),
            looks: 0,
        }
    }

    /// Begins the number of a call.
    pub(crate) fn start(&mut self)
        ensures { self.new ≡ record self.old { last = 0 } }
    {
        self.last = 0;
    }

    /// The number of the last call.
    pub(crate) fn last(&self) -> u64
        ensures { result ≡ self.now.last }
    {
        self.last
    }

    /// Counts a look, which may be a visit of the call under way.
    #[inline(always)]
    fn count(&mut self, counted: bool)
        ensures { self.new ≡ record self.old { last = more_if counted self.old.last; looks = more self.old.looks } }
    {
        self.looks = self.looks.wrapping_add(1);
        if counted {
            self.last = self.last.wrapping_add(1);
        }
    }

    /// Reads the node at this index, if there is one.
    ///
    /// It is a visit if `counted` and the node is another's: its serial is not the call's own.
    #[inline(always)]
    pub(crate) fn read(&mut self, at: usize, own: Option<u64>, counted: bool) -> Option<Seen>
        ensures seen { result ≡ seen (get self.old.slab at) }
        ensures rest { self.new ≡ record self.old { last = read_visits counted own (get self.old.slab at) self.old.last; looks = found_looks (get self.old.slab at) self.old.looks } }
    {
        let node = self.slab.get(at)?;
        let seen = Seen {
            serial: node.serial,
            after: node.after,
            is_told: matches!(node.state, State::Told { .. }),
        };
        self.count(counted && own != Some(seen.serial));
        Some(seen)
    }

    /// Writes the node at this index, in any of its parts.
    #[inline(always)]
    pub(crate) fn write(&mut self, at: usize, counted: bool) -> &mut Node<T, W>
        requires present { ContainsKey self.old.slab at }
        ensures* lends { sem 𝓛 (lends_node T.row W.row self.entry at counted result) }
        ensures node { get self.old.slab at ≡ Some result.now }
    {
        self.count(counted);
        match self.slab.get_mut(at) {
            Some(node) => node,
            None => unreachable!(),
        }
    }

    /// Begins the number of a call that has a node made, and makes the node, which is the call's own.
    pub(crate) fn insert(&mut self, node: Node<T, W>) -> Result<usize, NoMemory>
        ensures absent { IfOk result (λ at. get self.old.slab at ≡ None) }
        ensures updates { IfOk result (λ at. Updates self.old.slab self.new.slab at (Some node)) }
        ensures len { OnOk result (slab_len self.new.slab ≡ slab_len self.old.slab + 1) }
        ensures last { self.new.last ≡ 0 }
        ensures looks { self.new.looks ≡ self.old.looks }
        ensures succeeds { HasRoomFor self.old.slab 1 → IsOk result }
        ensures room { HasRoomFor self.old.slab 1 → self.new.slab.capacity ≡ self.old.slab.capacity }
        ensures err { OnErr result (self.new.slab ≡ record self.old.slab { capacity = self.new.slab.capacity }) }
        ensures grows { self.old.slab.capacity ≤ self.new.slab.capacity }
        ensures within { slab_len self.new.slab ≤ self.new.slab.capacity }
        ensures fits { self.new.slab.capacity < 2 ^ 64 }
    {
        let made = self.slab.insert(node);
        let _capacity = self.slab.capacity();
        self.start();
        match made {
            Ok(at) => Ok(at),
            Err(_) => Err(NoMemory),
        }
    }

    /// Takes the call's own node out.
    #[inline(always)]
    pub(crate) fn take(&mut self, at: usize) -> Node<T, W>
        requires present { ContainsKey self.old.slab at }
        ensures node { get self.old.slab at ≡ Some result }
        ensures gone { get self.new.slab at ≡ None }
        ensures others { (k : ℕ) → k ≢ at → get self.new.slab k ≡ get self.old.slab k }
        ensures len { slab_len self.new.slab + 1 ≡ slab_len self.old.slab }
        ensures capacity { self.new.slab.capacity ≡ self.old.slab.capacity }
        ensures last { self.new.last ≡ self.old.last }
        ensures looks { self.new.looks ≡ more self.old.looks }
    {
        let _ = self.read(at, None, false);
        match self.slab.try_remove(at) {
            Some(node) => node,
            None => unreachable!(),
        }
    }

    pub(crate) fn len(&self) -> usize
        ensures { result ≡ slab_len self.now.slab }
    {
        self.slab.len()
    }

    /// Makes room for this many more nodes.
    pub(crate) fn reserve(&mut self, extra: usize) -> Result<(), NoMemory>
        ensures room { OnOk result (HasRoomFor self.new.slab extra) }
        ensures succeeds { HasRoomFor self.old.slab extra → IsOk result }
        ensures grows { self.old.slab.capacity ≤ self.new.slab.capacity }
        ensures fits { self.new.slab.capacity < 2 ^ 64 }
        ensures rest { self.new ≡ record self.old { slab = record self.old.slab { capacity = self.new.slab.capacity } } }
    {
        let made = self.slab.reserve(extra);
        let _capacity = self.slab.capacity();
        match made {
            Ok(()) => Ok(()),
            Err(_) => Err(NoMemory),
        }
    }
}
