//! The links between nodes. A link to nobody forwards ends a chain, one to nobody backwards begins it: then the chain's `Ends` are written
//! in place of a node. Only this module writes links, so a chain and its two ends are changed together.
ghost use Rattle.std.specs.Prelude.{◌≡◌, ◌≢◌, ℕ, ◌+◌, ◌^◌, ◌<◌, ◌≤◌, List, ◌++◌, Option, IfSome, Some, None, true, false, IsOk, IfOk, OnOk, OnErr};
ghost use Rattle.slab.specs.Slab.{slab_len, ContainsKey, HasRoomFor};
ghost use Rattle.event_listener.specs.Chain.{after_of, before_of, first_or, last_or, entry_at, fresh_entry, Unlinks, Links_last, ChainsOf, Beside};
ghost use Rattle.event_listener.specs.Nodes.{Stays};

use crate::error::NoMemory;
use crate::node::{Ends, Node, Nodes, State};

/// Makes this node, or the end of the chain, be followed by another.
#[inline(always)]
pub(crate) fn set_after<T: Drop, W: Drop>(
    nodes: &mut Nodes<T, W>,
    ends: &mut Ends,
    at: Option<usize>,
    to: Option<usize>,
    counted: bool,
)
    requires present { IfSome at (λ k. ContainsKey nodes.old.slab k) }
    ensures after { after_of ends.new nodes.new.slab at ≡ to }
    ensures others { (x : Option ℕ) → x ≢ at → after_of ends.new nodes.new.slab x ≡ after_of ends.old nodes.old.slab x }
    ensures before { (e : Ends) (x : Option ℕ) → before_of e nodes.new.slab x ≡ before_of e nodes.old.slab x }
    ensures entries { (k : ℕ) → entry_at nodes.new.slab k ≡ entry_at nodes.old.slab k }
    ensures last { ends.new.last ≡ ends.old.last }
    ensures stays { Stays counted nodes.old nodes.new 1 }
{
    match at {
        Some(k) => nodes.set_after(k, to, counted),
        None => ends.first = to,
    }
}

/// Makes this node, or the end of the chain, be preceded by another.
#[inline(always)]
pub(crate) fn set_before<T: Drop, W: Drop>(
    nodes: &mut Nodes<T, W>,
    ends: &mut Ends,
    at: Option<usize>,
    to: Option<usize>,
    counted: bool,
)
    requires present { IfSome at (λ k. ContainsKey nodes.old.slab k) }
    ensures before { before_of ends.new nodes.new.slab at ≡ to }
    ensures others { (x : Option ℕ) → x ≢ at → before_of ends.new nodes.new.slab x ≡ before_of ends.old nodes.old.slab x }
    ensures after { (e : Ends) (x : Option ℕ) → after_of e nodes.new.slab x ≡ after_of e nodes.old.slab x }
    ensures entries { (k : ℕ) → entry_at nodes.new.slab k ≡ entry_at nodes.old.slab k }
    ensures first { ends.new.first ≡ ends.old.first }
    ensures stays { Stays counted nodes.old nodes.new 1 }
{
    match at {
        Some(k) => nodes.set_before(k, to, counted),
        None => ends.last = to,
    }
}

/// Begins a call that has a node made, behind the last one of a chain.
#[inline(always)]
pub(crate) fn link_last<T: Drop, W: Drop>(
    nodes: &mut Nodes<T, W>,
    ends: &mut Ends,
    serial: u64,
    task: Option<W>,
) -> Result<usize, NoMemory>
    requires live { IfSome (before_of ends.old nodes.old.slab None) (λ k. ContainsKey nodes.old.slab k) }
    ensures absent { IfOk result (λ at. entry_at nodes.old.slab at ≡ None) }
    ensures links { IfOk result (Links_last (after_of ends.old nodes.old.slab) (before_of ends.old nodes.old.slab) (after_of ends.new nodes.new.slab) (before_of ends.new nodes.new.slab)) }
    ensures made { IfOk result (λ at. entry_at nodes.new.slab at ≡ Some (fresh_entry serial task)) }
    ensures others { IfOk result (λ at. (k : ℕ) → k ≢ at → entry_at nodes.new.slab k ≡ entry_at nodes.old.slab k) }
    ensures len { OnOk result (slab_len nodes.new.slab ≡ slab_len nodes.old.slab + 1) }
    ensures succeeds { HasRoomFor nodes.old.slab 1 → IsOk result }
    ensures room { HasRoomFor nodes.old.slab 1 → nodes.new.slab.capacity ≡ nodes.old.slab.capacity }
    ensures err { OnErr result (nodes.new.slab ≡ record nodes.old.slab { capacity = nodes.new.slab.capacity }) }
    ensures grows { nodes.old.slab.capacity ≤ nodes.new.slab.capacity }
    ensures within { slab_len nodes.new.slab ≤ nodes.new.slab.capacity }
    ensures fits { nodes.new.slab.capacity < 2 ^ 64 }
    ensures err_ends { OnErr result (ends.new ≡ ends.old) }
    ensures number { nodes.new.last ≤ 1 }
    ensures looks { nodes.new.looks ≤ nodes.old.looks + 1 }
{
    let last = ends.last;
    let node = Node {
        serial,
        before: last,
        after: None,
        state: State::Waiting(task),
    };
    // Make the node before anything is linked: if memory is refused the chain is unchanged.
    let at = nodes.insert(node)?;
    set_after(nodes, ends, last, Some(at), true);
    ends.last = Some(at);
    Ok(at)
}

/// Takes the node of the call's own listener out of its chain, and links its neighbours to each other.
#[inline(always)]
pub(crate) fn unlink<T: Drop, W: Drop>(
    nodes: &mut Nodes<T, W>,
    ends: &mut Ends,
    at: usize,
    counted: bool,
) -> State<T, W>
    requires present { ContainsKey nodes.old.slab at }
    requires beside { Beside (after_of ends.old nodes.old.slab) (before_of ends.old nodes.old.slab) (entry_at nodes.old.slab) at }
    ensures links { Unlinks (after_of ends.old nodes.old.slab) (before_of ends.old nodes.old.slab) (after_of ends.new nodes.new.slab) (before_of ends.new nodes.new.slab) at }
    ensures gone { entry_at nodes.new.slab at ≡ None }
    ensures others { (k : ℕ) → k ≢ at → entry_at nodes.new.slab k ≡ entry_at nodes.old.slab k }
    ensures state { IfSome (entry_at nodes.old.slab at) (λ e. result ≡ e.state) }
    ensures len { slab_len nodes.new.slab + 1 ≡ slab_len nodes.old.slab }
    ensures capacity { nodes.new.slab.capacity ≡ nodes.old.slab.capacity }
    ensures number { nodes.new.last ≤ nodes.old.last + 2 }
    ensures uncounted { counted ≡ false → nodes.new.last ≡ nodes.old.last }
    ensures looks { nodes.new.looks ≤ nodes.old.looks + 3 }
{
    let node = nodes.take(at);
    // Two writes wherever the node was: without a neighbour the end of the chain is written, so no list is walked.
    set_after(nodes, ends, node.before, node.after, counted);
    set_before(nodes, ends, node.after, node.before, counted);
    node.state
}

/// Gives a node another state, and returns the old one and the node behind it. No link changes.
#[inline(always)]
pub(crate) fn restate<T: Drop, W: Drop>(
    nodes: &mut Nodes<T, W>,
    at: usize,
    state: State<T, W>,
    counted: bool,
) -> (State<T, W>, Option<usize>)
    requires present { ContainsKey nodes.old.slab at }
    ensures after { (ends : Ends) (x : Option ℕ) → after_of ends nodes.new.slab x ≡ after_of ends nodes.old.slab x }
    ensures before { (ends : Ends) (x : Option ℕ) → before_of ends nodes.new.slab x ≡ before_of ends nodes.old.slab x }
    ensures entry { IfSome (entry_at nodes.old.slab at) (λ e. entry_at nodes.new.slab at ≡ Some (record e { state = state })) }
    ensures others { (k : ℕ) → k ≢ at → entry_at nodes.new.slab k ≡ entry_at nodes.old.slab k }
    ensures was { IfSome (entry_at nodes.old.slab at) (λ e. result.0 ≡ e.state) }
    ensures next { (ends : Ends) → result.1 ≡ after_of ends nodes.old.slab (Some at) }
    ensures stays { Stays counted nodes.old nodes.new 2 }
{
    nodes.restate(at, state, counted)
}

/// Puts a run between these two, from its first node to its last: by one write if it is one node.
#[inline(always)]
fn set_outer<T: Drop, W: Drop>(
    nodes: &mut Nodes<T, W>,
    first: usize,
    last: usize,
    before: Option<usize>,
    after: Option<usize>,
)
    requires first_present { ContainsKey nodes.old.slab first }
    requires last_present { ContainsKey nodes.old.slab last }
    ensures before { (e : Ends) → before_of e nodes.new.slab (Some first) ≡ before }
    ensures before_others { (e : Ends) (x : Option ℕ) → x ≢ Some first → before_of e nodes.new.slab x ≡ before_of e nodes.old.slab x }
    ensures after { (e : Ends) → after_of e nodes.new.slab (Some last) ≡ after }
    ensures after_others { (e : Ends) (x : Option ℕ) → x ≢ Some last → after_of e nodes.new.slab x ≡ after_of e nodes.old.slab x }
    ensures entries { (k : ℕ) → entry_at nodes.new.slab k ≡ entry_at nodes.old.slab k }
    ensures one { first ≡ last → Stays true nodes.old nodes.new 1 }
    ensures stays { Stays true nodes.old nodes.new 2 }
{
    if first == last {
        nodes.set_both(first, before, after, true);
    } else {
        nodes.set_before(first, before, true);
        nodes.set_after(last, after, true);
    }
}

/// Moves the first waiting nodes, up to `last`, which `next` follows, to the end of the told ones.
///
/// They are linked to one another already, so four links are written however many they are: from the next one to the run and back, and from
/// the last told one to the run and back.
#[inline(always)]
pub(crate) fn move_run<T: Drop, W: Drop>(
    nodes: &mut Nodes<T, W>,
    waiting: &mut Ends,
    told: &mut Ends,
    last: Option<usize>,
    next: Option<usize>,
)
    requires first_present { IfSome waiting.old.first (λ k. ContainsKey nodes.old.slab k) }
    requires last_present { IfSome last (λ k. ContainsKey nodes.old.slab k) }
    requires next_present { IfSome next (λ k. ContainsKey nodes.old.slab k) }
    requires told_present { IfSome told.old.last (λ k. ContainsKey nodes.old.slab k) }
    ensures chains { (ks front back : List ℕ) → last ≡ last_or None front → next ≡ first_or back None → ChainsOf nodes.old.slab told.old waiting.old ks (front ++ back) → ChainsOf nodes.new.slab told.new waiting.new (ks ++ front) back }
    ensures entries { (k : ℕ) → entry_at nodes.new.slab k ≡ entry_at nodes.old.slab k }
    ensures none { last ≡ None → nodes.new ≡ nodes.old }
    ensures one { waiting.old.first ≡ last → Stays true nodes.old nodes.new 3 }
    ensures stays { Stays true nodes.old nodes.new 4 }
{
    let (Some(first), Some(last)) = (waiting.first, last) else {
        return;
    };
    let end = told.last;
    // Nobody sees the chains between these writes: a list is reached by `&mut` alone, from behind its lock.
    set_before(nodes, waiting, next, None, true);
    waiting.first = next;
    set_after(nodes, told, end, Some(first), true);
    set_outer(nodes, first, last, end, None);
    told.last = Some(last);
}
