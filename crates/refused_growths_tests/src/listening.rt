//! A receive that is refused its listener.

use crate::checks::{expect_equal, expect_seen};
use crate::scarcity::{Attempt, Scarcity, Seen, Tried, made, refused};
use crate::worlds::{Ask, NO_ROOM, Said, call, said_of};
use channel_world::call::Call;
use channel_world::world::World;
use event_listener::id::EventIds;
use std::alloc::Global;
use std::collections::VecDeque;

/// A world, and a list of calls with room for one.
#[derive(Drop)]
struct Listening {
    world: World<u64>,
    calls: VecDeque<Call<u64>>,
}

impl Listening {
    /// A world of one place; none where it was refused memory.
    fn open(alloc: Global) -> Option<Listening> {
        Some(Listening {
            world: World::bounded(alloc, 1, &mut EventIds::new()).ok()?,
            calls: VecDeque::with_capacity(alloc, 1).ok()?,
        })
    }

    /// What a call says and how many it wakes; nothing where its answer gets no room, and then the call stays.
    fn ask(&mut self, ask: Ask) -> Option<(Said, usize)> {
        let put = !self.calls.is_empty() || self.calls.push_back(call(ask)).is_ok();
        if !self.world.is_quiet() || !put {
            return Some((Said::Else, 0));
        }
        let run = self.world.run_calls(&mut self.calls);
        let said = said_of(&run);
        let stands = said.is_some() || run.stopped == NO_ROOM;
        drop(run);
        if stands { said } else { Some((Said::Else, 0)) }
    }
}

/// The receive is polled with more and more memory at hand, until there is room for an answer; but for its listener there is none.
impl Attempt for Listening {
    fn make(&mut self) -> Tried {
        match self.ask(Ask::Poll(0)) {
            Some(said) => made(said == (Said::NoMemory, 0) && self.world.pending() == 0),
            None => refused(self.world.pending() == 0 && self.calls.len() == 1),
        }
    }
}

/// A receive is made, and refused its listener; then, with memory again, a message is sent and received: what these answer.
fn refuse_listener(alloc: Global) -> Option<(Seen, [Option<(Said, usize)>; 3])> {
    let mut listening = Listening::open(alloc)?;
    let first = listening.ask(Ask::Recv(0));
    let mut scarcity = Scarcity::new(alloc);
    scarcity.refuse_each(&mut listening);
    let seen = scarcity.end();
    let sent = listening.ask(Ask::TrySend(5));
    let received = listening.ask(Ask::TryRecv);
    Some((seen, [first, sent, received]))
}

/// A receive that is refused its listener doesn't wait: a message wakes nobody and stays.
#[test]
fn a_receive_without_its_listener_does_not_wait(rt: HostRuntime) {
    let (seen, said) = refuse_listener(rt.alloc()).expect(&rt, "memory");
    expect_seen(&rt, &seen, 1, 0);
    let wanted = [
        Some((Said::Made, 0)),
        Some((Said::Sent, 0)),
        Some((Said::Got(5), 0)),
    ];
    expect_equal(&rt, &said, &wanted);
}
