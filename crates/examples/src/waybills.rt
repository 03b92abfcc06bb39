//! Clients of waybills: what their threads receive was sent, once, and in order.

pub mod handles;
pub mod line;
pub mod ordered;
pub mod pool;
pub mod relay;
pub mod sums;

use crate::waybills::line::Kind;
use event_listener::id::EventIds;
use std::alloc::{AllocGlobal, Global};
use std::io;
use std::random::RandomSource;
use std::sync::Wait;
use std::thread::Threads;

/// What the two senders of a client send.
const FIRST: [u32; 6] = [3, 1, 4, 1, 5, 9];

const SECOND: [u32; 4] = [2, 6, 5, 3];

/// How many of ten messages came by way of each client that takes any line. Which of them came, and in what order, its contract says.
fn over_a_line<R: Threads + Wait + Copy + Send + Sync>(
    rt: R,
    alloc: Global,
    ids: &mut EventIds,
    kind: Kind,
) -> Option<(usize, usize, u128)> {
    let sole = ordered::sole(rt, alloc, ids, kind, &FIRST, &SECOND)?;
    let (one, other) = ordered::shared(rt, alloc, ids, kind, &FIRST, &SECOND)?;
    let (sums, sums_too) = sums::sums(rt, alloc, ids, kind, &FIRST, &SECOND)?;
    let shared = one.len().wrapping_add(other.len());
    Some((sole.len(), shared, sums.total.wrapping_add(sums_too.total)))
}

/// Runs the clients that take any line.
fn print_lines<R: Threads + Wait + Copy + Send + Sync + Print>(
    rt: R,
    alloc: Global,
    ids: &mut EventIds,
) -> io::Result<bool> {
    let kinds = [
        ("slot", Kind::Slot),
        ("ring", Kind::Ring),
        ("blocks", Kind::Blocks),
        ("handles", Kind::Handles),
    ];
    for (name, kind) in kinds {
        let Some((sole, shared, total)) = over_a_line(rt, alloc, ids, kind) else {
            return Ok(false);
        };
        println!(&rt; "waybills, {name}: one receiver {sole}, two {shared}, sum {total}")?;
    }
    Ok(true)
}

/// How many of ten messages came by way of each client that takes channels, and how many were received and taken back by handles.
#[derive(Clone, Copy)]
struct Came {
    relayed: usize,
    pooled: usize,
    received: u64,
    back: u64,
}

/// Runs the clients over channels and handles. `None` where there is no memory.
fn over_channels<R: Threads + Wait + Copy + Send + Sync + RandomSource + AllocGlobal>(
    rt: R,
    alloc: Global,
    ids: &mut EventIds,
) -> Option<Came> {
    let all = [3, 1, 4, 1, 5, 9, 2, 6, 5, 3];
    let relayed = relay::relay(rt, alloc, ids, 2, &all)?.len();
    let pooled = pool::pool(rt, alloc, ids, &all)?.len();
    let (received, back) = handles::each_way(rt, alloc, ids)?;
    Some(Came {
        relayed,
        pooled,
        received,
        back,
    })
}

/// Prints what came over channels and handles.
fn print_channels<R: Print>(rt: &R, came: Came) -> io::Result<()> {
    println!(rt; "waybills, relay: {}", came.relayed)?;
    println!(rt; "waybills, pool: {}", came.pooled)?;
    println!(rt; "waybills, each way, received: {}", came.received)?;
    println!(rt; "waybills, each way, taken back: {}", came.back)
}

/// Runs all clients, and prints what came. False where there was no memory.
pub fn show<R: Threads + Wait + Copy + Send + Sync + RandomSource + AllocGlobal + Print>(
    rt: R,
    alloc: Global,
    ids: &mut EventIds,
) -> io::Result<bool> {
    let Some(came) = over_channels(rt, alloc, ids) else {
        return Ok(false);
    };
    print_channels(&rt, came)?;
    print_lines(rt, alloc, ids)
}
