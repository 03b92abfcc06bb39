//! What runs of steps did, printed.

use crate::checks::expect_equal;
use crate::steps::write_steps;
use channel_world::call::Call;
use channel_world::name::{HandleId, OpId};
use channel_world::step::{PartyId, Step};
use channel_world::world::World;
use event_listener::id::EventIds;
use std::alloc::{AllocError, Global};
use std::collections::VecDeque;
use std::test::Fail;

/// A receive waits; a send brings a message and tells it; and the receive takes it.
const PRINTED: &str = "\
0 begins
0 nothing: ok
0 begins
0 nothing
0 nothing
0 nothing
0 nothing: pending
1 begins
1 append
1 nothing
1 nothing
1 nothing wakes 0
0 begins
0 take
0 nothing
0 nothing
0 nothing
0 nothing: ok 5
1 nothing: ok
";

/// A party begins a call and makes so many steps of it.
fn begin(
    steps: &mut VecDeque<Step<u64>>,
    party: u32,
    call: Call<u64>,
    count: usize,
) -> Result<(), AllocError> {
    let party = PartyId(party);
    steps.push_back(Step::Begin { party, call })?;
    for _ in 0..count {
        steps.push_back(Step::Step { party })?;
    }
    Ok(())
}

/// A receive is polled and waits; a send pushes, and tells the receive, which is polled once more before the send answers.
fn interleaving(alloc: Global) -> Result<VecDeque<Step<u64>>, AllocError> {
    let op = OpId(0);
    let receiver = HandleId(1);
    let sender = HandleId(0);
    let mut steps = VecDeque::new(alloc);
    begin(&mut steps, 0, Call::NewRecv { op, receiver }, 1)?;
    begin(&mut steps, 0, Call::Poll { op }, 4)?;
    begin(&mut steps, 1, Call::TrySend { sender, msg: 5 }, 4)?;
    begin(&mut steps, 0, Call::Poll { op }, 5)?;
    steps.push_back(Step::Step { party: PartyId(1) })?;
    Ok(steps)
}

#[test]
fn a_list_of_steps_is_printed(rt: HostRuntime) -> Result<(), Fail> {
    let mut ids = EventIds::new();
    let mut world: World<u64> = World::bounded(rt.alloc(), 1, &mut ids)?;
    let mut steps = interleaving(rt.alloc())?;
    let run = world.run_steps(&mut steps);
    let mut text = String::new(rt.alloc());
    write_steps(&interleaving(rt.alloc())?, run.trace.as_slice(), &mut text)?;
    expect_equal(&rt, &text.as_str(), &PRINTED);
    Ok(())
}
