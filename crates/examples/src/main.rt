//! Small programs over the crates of this workspace, one a module. Each comes to a number, from what was received, which is the same
//! whatever the threads' schedule is, and has a line. They have one source of identities, so that no two channels or events are taken
//! for one.
#![tactic(auto)]

mod actor;
mod back_pressure;
mod calls;
mod cancel;
mod choose;
mod closing;
mod hub;
mod identities;
mod latest;
mod one_owner;
mod orders;
mod pool;
mod request;
mod semaphore;
mod several;
mod shared_queue;
mod stream;
mod three;
mod timeouts;
mod two_threads;
mod waiting;
pub mod waybills;
mod witnesses;

use async_channel::Runtime;
use event_listener::EventIds;
use std::alloc::Global;
use std::io;
use std::process::ExitCode;

/// What an example is called, and the number that it came to, if it came to one.
type Line = (&'static str, Option<u64>);

/// Queues, an event and a list of listeners.
fn below_channels<R: Runtime>(rt: R, alloc: Global, ids: &mut EventIds) -> [Line; 4] {
    [
        ("a queue between two threads", shared_queue::came(rt, alloc)),
        ("a queue of one owner", one_owner::first(1, alloc)),
        ("an event", waiting::taken(rt, alloc, ids)),
        ("a semaphore", semaphore::order(alloc)),
    ]
}

/// What programs of two and three threads do with channels.
fn patterns<R: Runtime>(rt: R, alloc: Global, ids: &mut EventIds) -> [Line; 7] {
    [
        ("two threads", two_threads::sum(rt, alloc, ids)),
        ("worker pool", pool::sum(rt, alloc, ids)),
        ("request and reply", request::sum(rt, alloc, ids)),
        ("latest value", latest::last(rt, alloc, ids)),
        ("actor", actor::sum(rt, alloc, ids)),
        ("two receivers", choose::sum(rt, alloc, ids)),
        ("orders", orders::portions(rt, alloc, ids)),
    ]
}

/// What one call or two are for.
fn single_tasks<R: Runtime>(rt: R, alloc: Global, ids: &mut EventIds) -> [Line; 6] {
    [
        ("one source of identities", identities::count(rt, alloc)),
        ("stream", stream::sum(rt, alloc, ids)),
        ("several at once", several::sum(rt, alloc, ids)),
        ("back-pressure", back_pressure::count(rt, alloc, ids)),
        ("closing", closing::told(rt, alloc, ids)),
        (
            "time limits",
            timeouts::refused_and_received(rt, alloc, ids),
        ),
    ]
}

/// Operations that are given up, a hub, the calls by name, and what witnesses show.
fn calls_and_witnesses<R: Runtime>(rt: R, alloc: Global, ids: &mut EventIds) -> [Line; 4] {
    [
        ("giving up", cancel::right(rt, alloc, ids)),
        ("hub", hub::reached(rt, alloc, ids)),
        ("single calls", calls::right(rt, alloc, ids)),
        ("witnesses", witnesses::came(rt, alloc, ids)),
    ]
}

/// Prints these. False where one came to no number.
fn print_all<R: Print>(rt: &R, lines: &[Line]) -> io::Result<bool> {
    for (name, number) in lines {
        let Some(number) = number else {
            return Ok(false);
        };
        println!(rt; "{name}: {number}")?;
    }
    Ok(true)
}

/// Makes and prints all examples, but for the clients of waybills. False where one came to no number. It may wait.
fn show<R: Runtime + Print>(rt: R, alloc: Global, ids: &mut EventIds) -> io::Result<bool> {
    Ok(
        print_all(&rt, &below_channels(rt, alloc, ids))?
            && print_all(&rt, &patterns(rt, alloc, ids))?
            && print_all(&rt, &single_tasks(rt, alloc, ids))?
            && print_all(&rt, &calls_and_witnesses(rt, alloc, ids))?,
    )
}

fn main(rt: HostRuntime) -> io::Result<ExitCode> {
    let mut ids = EventIds::new();
    let all = show(rt, rt.alloc(), &mut ids)? && waybills::show(rt, rt.alloc(), &mut ids)?;
    Ok(if all {
        ExitCode::SUCCESS
    } else {
        ExitCode::FAILURE
    })
}
