//! Giving up at every place. In each of five interleavings, before any step, a party of its own gives up an operation; nothing of the
//! rest is begun, the calls under way run to their ends, and the channel is settled. Then nobody is pending who could go on, and each
//! message that was accepted was received once or is left.
//!
//! A line of an interleaving is what a party does next: `P CALL` begins a call, in the words of [`worlds`](crate::worlds); `P goes N` makes so many
//! steps of it, and `P ends` those that are left. A send's message is the number of its operation and two.

use crate::calls::call_of;
use crate::checks::expect_equal;
use channel_calls::mark::Mark;
use channel_calls::reply::Reply;
use channel_world::call::Call;
use channel_world::name::{HandleId, OpId, Waiter};
use channel_world::step::{PartyId, Step};
use channel_world::world::World;
use event_listener::id::EventIds;
use futures::task::Poll;
use std::alloc::{AllocError, Global};
use std::collections::VecDeque;
use worked_rows::{Player, Words, answers_of};

/// Two receives wait, a message comes and another is refused, the woken receive is given up, and the other is polled.
const TWO_RECEIVES: &str = "\
0 recv 0 r
0 ends
0 poll 0
0 ends
1 recv 1 r
1 ends
1 poll 1
1 ends
2 try_send s 10
2 ends
2 try_send s 20
2 ends
3 give_up 0
3 ends
1 poll 1
1 ends";

/// Two sends wait at a full channel, and each taking wakes one.
const TWO_SENDS: &str = "\
0 try_send s 1
0 ends
1 send 0 s 2
1 ends
1 poll 0
1 ends
2 send 1 s 3
2 ends
2 poll 1
2 ends
3 try_recv r
3 ends
1 poll 0
1 ends
3 try_recv r
3 ends
2 poll 1
2 ends
3 try_recv r
3 ends";

/// A receive finds nothing and listens, a send pushes, the receive tries again and ends, and the send tells nobody.
const A_PUSH_BETWEEN_TWO_TRIES: &str = "\
0 recv 0 r
0 ends
0 poll 0
0 goes 2
1 try_send s 5
1 goes 3
0 goes 5
1 ends";

/// A receive waits, and a send has pushed and not told yet.
const A_PUSH_THAT_IS_NOT_TOLD: &str = "\
0 recv 0 r
0 ends
0 poll 0
0 ends
1 try_send s 5
1 goes 3
1 ends";

/// Two sends wait, a receive has taken and not told yet, the first send is given up, and the second is woken.
const A_TAKING_THAT_IS_NOT_TOLD: &str = "\
0 try_send s 1
0 ends
1 send 0 s 2
1 ends
1 poll 0
1 ends
2 send 1 s 3
2 ends
2 poll 1
2 ends
3 try_recv r
3 goes 3
0 give_up 0
0 ends
3 ends
2 poll 1
2 ends";

/// Who gives up.
const LAST: PartyId = PartyId(4);

/// A channel of one place, and which messages came and left: each is a bit, and `doubled` says whether one came or left twice.
#[derive(Drop)]
struct Fixture {
    channel: World<u64>,
    steps: VecDeque<Step<u64>>,
    /// How many entries are made yet at most.
    left: usize,
    /// The message that the call of each party brings.
    brings: [u64; 5],
    accepted: u64,
    received: u64,
    doubled: bool,
}

/// The message of a send with this name.
fn message_of(op: OpId) -> u64 {
    u64::from(op.0).wrapping_add(2)
}

fn brought_by(call: &Call<u64>) -> u64 {
    match call {
        Call::Poll { op } => message_of(*op),
        Call::TrySend { msg, .. } => *msg,
        _ => 0,
    }
}

fn received_by(reply: &Reply<u64>) -> Option<u64> {
    match reply {
        Reply::TryRecv(Ok(message)) => Some(*message),
        Reply::RecvPoll(Poll::Ready(Ok(message))) => Some(*message),
        _ => None,
    }
}

impl Fixture {
    fn accept(&mut self, message: u64) {
        let bit = 1u64.wrapping_shl((message % 64) as u32);
        self.doubled = self.doubled || self.accepted & bit != 0;
        self.accepted |= bit;
    }

    fn receive(&mut self, message: u64) {
        let bit = 1u64.wrapping_shl((message % 64) as u32);
        self.doubled = self.doubled || self.received & bit != 0;
        self.received |= bit;
    }

    /// Notes what a reply says was received.
    fn note(&mut self, reply: &Reply<u64>) {
        if let Some(message) = received_by(reply) {
            self.receive(message);
        }
    }

    /// Makes one step, and notes what it brought in and what was received: whether its call ended. None where it was refused.
    fn step(&mut self, party: PartyId, step: Step<u64>) -> Option<bool> {
        let _ = self.steps.push_back(step);
        let mut run = self.channel.run_steps(&mut self.steps);
        self.steps.clear();
        let entry = run.trace.pop()?;
        self.left = self.left.saturating_sub(1);
        if entry.mark == Mark::Append {
            self.accept(self.brings[party.0 as usize % 5]);
        }
        match &entry.reply {
            Some(reply) => {
                self.note(reply);
                Some(true)
            }
            None => Some(false),
        }
    }

    /// A party makes so many steps of its call at most, up to its end.
    fn go_on(&mut self, party: PartyId, most: usize) {
        for _ in 0..most.min(self.left) {
            if self.step(party, Step::Step { party }) != Some(false) {
                return;
            }
        }
    }

    /// A party begins a call: whether it was not refused.
    fn begin_call(&mut self, party: PartyId, call: Call<u64>) -> bool {
        if self.left == 0 {
            return false;
        }
        self.brings[party.0 as usize % 5] = brought_by(&call);
        self.step(party, Step::Begin { party, call }).is_some()
    }

    /// The calls under way run to their ends, and whoever is woken then is polled.
    fn rest(&mut self) -> bool {
        for party in 0..5u32 {
            self.go_on(PartyId(party), 64);
        }
        self.settle()
    }

    /// Polls whoever is woken, and notes what that sends and receives.
    fn settle(&mut self) -> bool {
        if !self.channel.is_quiet() {
            return false;
        }
        let Ok(polls) = self.channel.settle() else {
            return false;
        };
        for k in 0..polls.len() {
            self.note(&polls[k].reply);
            if let (Waiter::Op(op), Reply::SendPoll(Poll::Ready(Ok(())))) = (
                polls[k].name,
                &polls[k].reply,
            ) {
                self.accept(message_of(op));
            }
        }
        self.channel.woken() == 0
    }

    /// Receives what is left, one message after another.
    fn drain(&mut self) -> bool {
        for _ in 0..8 {
            if self.channel.messages() == 0 {
                return true;
            }
            let before = self.received;
            let receiver = HandleId(1);
            self.begin_call(PartyId(0), Call::TryRecv { receiver });
            self.go_on(PartyId(0), 64);
            if !self.settle() || self.received == before {
                return false;
            }
        }
        false
    }
}

impl Player for Fixture {
    fn begin(&mut self) {}

    fn play(&mut self, words: &mut Words<'_>, _answer: &mut String) -> Result<(), AllocError> {
        let party = PartyId(words.small());
        match words.word() {
            "ends" => self.go_on(party, 64),
            "goes" => self.go_on(party, words.size()),
            verb => {
                if let Some(call) = call_of(verb, words) {
                    self.begin_call(party, call);
                }
            }
        }
        Ok(())
    }
}

/// Plays an interleaving, up to so many entries.
fn play(lines: &str, most: usize, alloc: Global) -> Option<Fixture> {
    let mut ids = EventIds::new();
    let mut all = Fixture {
        channel: World::bounded(alloc, 1, &mut ids).ok()?,
        steps: VecDeque::new(alloc),
        left: most,
        brings: [0; 5],
        accepted: 0,
        received: 0,
        doubled: false,
    };
    answers_of(alloc, lines, &mut all).ok()?;
    Some(all)
}

/// The operation is given up after so many entries: `None` where it can't be, else whether all is well then. Whoever waits may
/// wait where the channel holds so many messages.
fn gives_up(lines: &str, place: usize, op: u32, held: u64, alloc: Global) -> Option<bool> {
    let mut all = play(lines, place, alloc)?;
    all.left = usize::MAX;
    if !all.begin_call(LAST, Call::GiveUp { op: OpId(op) }) {
        return None;
    }
    let rested = all.rest();
    let waits = all.channel.pending() == 0 || all.channel.messages() == held;
    let drained = all.drain();
    Some(rested && waits && drained && !all.doubled && all.accepted == all.received)
}

/// How often one of two operations can be given up between two entries of the interleaving. `None` where something is amiss once.
fn places(lines: &str, held: u64, alloc: Global) -> Option<usize> {
    let entries = 1000usize.saturating_sub(play(lines, 1000, alloc)?.left);
    let mut count = 0usize;
    for place in 1..entries {
        for op in 0..2u32 {
            match gives_up(lines, place, op, held, alloc) {
                Some(true) => count = count.saturating_add(1),
                Some(false) => return None,
                None => {}
            }
        }
    }
    Some(count)
}

#[test]
fn giving_up_at_every_place(rt: HostRuntime) {
    for (lines, held, count) in [
        (TWO_RECEIVES, 0, 29),
        (TWO_SENDS, 1, 55),
        (A_PUSH_BETWEEN_TWO_TRIES, 0, 3),
        (A_PUSH_THAT_IS_NOT_TOLD, 0, 7),
        (A_TAKING_THAT_IS_NOT_TOLD, 1, 22),
    ] {
        expect_equal(&rt, &places(lines, held, rt.alloc()), &Some(count));
    }
}
