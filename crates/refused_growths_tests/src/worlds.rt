//! Calls of a world, one at a time.

use crate::checks::{expect_equal, expect_seen, expect_true};
use crate::scarcity::{Attempt, Scarcity, Seen, Tried, made, refused};
use channel_calls::error::{OpenError, Refused};
use channel_world::call::{Call, CallRun, Reply, Stopped, WorldRefusal};
use channel_world::name::{HandleId, OpId};
use channel_world::world::World;
use event_listener::error::ListenError;
use event_listener::id::EventIds;
use futures::task::Poll;
use std::alloc::Global;
use std::collections::VecDeque;

/// The opening of a world, with a bound or without.
#[derive(Drop)]
struct Openings {
    alloc: Global,
    ids: EventIds,
    is_bounded: bool,
}

impl Attempt for Openings {
    fn make(&mut self) -> Tried {
        let world: Result<World<u64>, OpenError> = if self.is_bounded {
            World::bounded(self.alloc, 100, &mut self.ids)
        } else {
            World::unbounded(self.alloc, &mut self.ids)
        };
        match world {
            Ok(world) => made(world.is_quiet() && world.messages() == 0),
            Err(OpenError::NoMemory) => Tried::Refused,
            Err(_) => Tried::Wrong,
        }
    }
}

/// Opens two worlds; then the number of the next identity.
fn open_all(alloc: Global) -> (Seen, u64) {
    let mut openings = Openings {
        alloc,
        ids: EventIds::new(),
        is_bounded: true,
    };
    let mut scarcity = Scarcity::new(alloc);
    scarcity.refuse_each(&mut openings);
    openings.is_bounded = false;
    scarcity.refuse_each(&mut openings);
    let seen = scarcity.end();
    let next = match openings.ids.next() {
        Ok(id) => id.number(),
        Err(_) => 0,
    };
    (seen, next)
}

/// An opening that is refused takes no identities: each of the two takes four.
#[test]
fn openings_of_worlds(rt: HostRuntime) {
    let (seen, next) = open_all(rt.alloc());
    expect_seen(&rt, &seen, 2, 26);
    expect_equal(&rt, &next, &8);
}

/// The first sender.
pub const S: HandleId = HandleId(0);

/// The first receiver.
pub const R: HandleId = HandleId(1);

/// A call that can be made again.
#[derive(Clone, Copy, PartialEq, Eq, Debug)]
pub enum Ask {
    Recv(u32),
    Send(u32, u64),
    Closed(u32),
    Poll(u32),
    /// A poll of the receiver of this number as a stream.
    Next(u32),
    GiveUp(u32),
    TrySend(u64),
    TryRecv,
    RecvMany(usize),
    Clone(u32),
    CloneReceiver(u32),
    Downgrade(u32),
    Close,
}

/// The call itself.
pub fn call(ask: Ask) -> Call<u64> {
    match ask {
        Ask::Recv(number) => Call::NewRecv {
            op: OpId(number),
            receiver: R,
        },
        Ask::Send(number, msg) => Call::NewSend {
            op: OpId(number),
            sender: S,
            msg,
        },
        Ask::Closed(number) => Call::NewClosed {
            op: OpId(number),
            sender: S,
        },
        Ask::Poll(number) => Call::Poll { op: OpId(number) },
        Ask::Next(number) => Call::PollNext {
            receiver: HandleId(number),
        },
        Ask::GiveUp(number) => Call::GiveUp { op: OpId(number) },
        Ask::TrySend(msg) => Call::TrySend { sender: S, msg },
        Ask::TryRecv => Call::TryRecv { receiver: R },
        Ask::RecvMany(limit) => Call::RecvMany { receiver: R, limit },
        Ask::Clone(new) => Call::TryClone {
            handle: S,
            new: HandleId(new),
        },
        Ask::CloneReceiver(new) => Call::TryClone {
            handle: R,
            new: HandleId(new),
        },
        Ask::Downgrade(new) => Call::Downgrade {
            handle: R,
            new: HandleId(new),
        },
        Ask::Close => Call::Close { handle: S },
    }
}

/// What a reply says, in short.
#[derive(Clone, Copy, PartialEq, Eq, Debug)]
pub enum Said {
    /// A handle or an operation was made.
    Made,
    /// The message was accepted.
    Sent,
    /// This message was received.
    Got(u64),
    /// So many messages were received, the numbers from this one on in order.
    GotFrom(u64, usize),
    /// The poll is pending.
    Pending,
    /// The channel was closed by this call.
    Shut,
    /// The operation was given up, and handed this back.
    GivenUp(Option<u64>),
    /// Memory was refused.
    NoMemory,
    /// Memory was refused, and this message comes back.
    Back(u64),
    /// Something else.
    Else,
}

/// Several messages that were received.
fn several_say(messages: &[u64]) -> Said {
    let Some(first) = messages.first() else {
        return Said::Else;
    };
    let mut in_order = true;
    for (place, message) in messages.iter().enumerate() {
        in_order = in_order & (*message == first.wrapping_add(place as u64));
    }
    if in_order {
        Said::GotFrom(*first, messages.len())
    } else {
        Said::Else
    }
}

fn poll_says(reply: &Reply<u64>) -> Said {
    match reply {
        Reply::SendPoll(Poll::Ready(Ok(()))) => Said::Sent,
        Reply::SendPoll(Poll::Ready(Err(Refused::NoMemory(())))) => Said::NoMemory,
        Reply::SendPoll(Poll::Pending) => Said::Pending,
        Reply::RecvPoll(Poll::Ready(Ok(msg))) => Said::Got(*msg),
        Reply::RecvPoll(Poll::Ready(Err(Refused::NoMemory(())))) => Said::NoMemory,
        Reply::RecvPoll(Poll::Pending) => Said::Pending,
        Reply::ClosedPoll(Poll::Ready(Err(ListenError::NoMemory))) => Said::NoMemory,
        Reply::ClosedPoll(Poll::Pending) => Said::Pending,
        Reply::Next(Poll::Ready(Some(Err(ListenError::NoMemory)))) => Said::NoMemory,
        Reply::Next(Poll::Pending) => Said::Pending,
        _ => Said::Else,
    }
}

/// What a reply says, without its parts that no scenario asks for.
pub fn says(reply: &Reply<u64>) -> Said {
    match reply {
        Reply::Made => Said::Made,
        Reply::Closed(true) => Said::Shut,
        Reply::GivenUp(msg) => Said::GivenUp(*msg),
        Reply::TrySend(Ok(())) => Said::Sent,
        Reply::TrySend(Err(Refused::NoMemory(msg))) => Said::Back(*msg),
        Reply::TryRecv(Ok(msg)) => Said::Got(*msg),
        Reply::RecvMany(Ok(messages)) => several_say(messages.as_slice()),
        Reply::RecvMany(Err(Refused::NoMemory(()))) => Said::NoMemory,
        reply => poll_says(reply),
    }
}

/// Whether this is the refusal of that call for memory.
pub fn is_refusal(ask: Ask, said: Said) -> bool {
    match ask {
        Ask::TrySend(msg) => said == Said::Back(msg),
        _ => said == Said::NoMemory,
    }
}

/// The numbers that a world says of itself: messages, calls under way, who is pending, and who of these was woken.
#[derive(Clone, Copy, PartialEq, Eq, Debug)]
pub struct Numbers {
    pub messages: u64,
    pub under_way: usize,
    pub pending: usize,
    pub woken: usize,
}

/// The numbers that a refusal has to leave as they are.
pub fn numbers_of(world: &World<u64>) -> Numbers {
    Numbers {
        messages: world.messages(),
        under_way: world.under_way(),
        pending: world.pending(),
        woken: world.woken(),
    }
}

/// How a list of one call or step stops whose answer gets no room.
pub const NO_ROOM: Option<Stopped> = Some(Stopped {
    place: 0,
    why: WorldRefusal::NoMemory,
});

/// A world, the list of calls, with room for one, the next call and what it is to say.
#[derive(Drop)]
pub struct Calls {
    pub world: World<u64>,
    calls: VecDeque<Call<u64>>,
    ask: Ask,
    said: Said,
    /// How often a call answered that it was refused memory, for which there was room then.
    pub named: u32,
}

/// What was said of the one call of a list, and how many it woke.
pub fn said_of(run: &CallRun<u64>) -> Option<(Said, usize)> {
    match run.done.first() {
        Some(done) => Some((says(&done.reply), done.woken.len())),
        None => None,
    }
}

impl Attempt for Calls {
    fn make(&mut self) -> Tried {
        if !self.world.is_quiet() {
            return Tried::Wrong;
        }
        let put = !self.calls.is_empty() || self.calls.push_back(call(self.ask)).is_ok();
        let before = numbers_of(&self.world);
        let run = self.world.run_calls(&mut self.calls);
        let stopped = run.stopped;
        let said = said_of(&run);
        drop(run);
        let is_as_before = numbers_of(&self.world) == before;
        match said {
            Some((said, _)) if said == self.said => made(put && self.calls.is_empty()),
            Some((said, woken)) => {
                self.named = self.named.wrapping_add(1);
                let named = is_refusal(self.ask, said) && woken == 0;
                refused(named && is_as_before && self.calls.is_empty())
            }
            None => refused(stopped == NO_ROOM && is_as_before && self.calls.len() == 1),
        }
    }
}

impl Calls {
    /// A world of one place, or without a bound, of which nothing has been asked yet; none where it was refused memory.
    pub fn open(alloc: Global, is_bounded: bool) -> Option<Calls> {
        let world: Result<World<u64>, OpenError> = if is_bounded {
            World::bounded(alloc, 1, &mut EventIds::new())
        } else {
            World::unbounded(alloc, &mut EventIds::new())
        };
        Some(Calls {
            world: world.ok()?,
            calls: VecDeque::with_capacity(alloc, 1).ok()?,
            ask: Ask::TryRecv,
            said: Said::Else,
            named: 0,
        })
    }

    /// Makes a call with what memory there is. Whether it was made.
    pub fn make_at_once(&mut self, ask: Ask, said: Said) -> bool {
        self.ask = ask;
        self.said = said;
        self.make() == Tried::Made
    }

    /// Makes a call until it isn't refused.
    pub fn make_call(&mut self, scarcity: &mut Scarcity, ask: Ask, said: Said) {
        self.ask = ask;
        self.said = said;
        scarcity.refuse_each(self);
    }
}

/// How many messages are held at once: more than two blocks of a channel without a bound have places for.
const MESSAGES: u32 = 70;

/// The first message of a channel without a bound, and then so many at once; how often a call answered that its block was refused.
fn send_all(alloc: Global) -> Option<(Seen, [u32; 2])> {
    let mut calls = Calls::open(alloc, false)?;
    let mut scarcity = Scarcity::new(alloc);
    calls.make_call(&mut scarcity, Ask::TrySend(5), Said::Sent);
    let first = calls.named;
    calls.make_call(&mut scarcity, Ask::TryRecv, Said::Got(5));
    for number in 0..MESSAGES {
        calls.make_call(&mut scarcity, Ask::TrySend(u64::from(number)), Said::Sent);
    }
    let others = calls.named.wrapping_sub(first);
    calls.make_call(&mut scarcity, Ask::RecvMany(100), Said::GotFrom(0, 70));
    Some((scarcity.end(), [first, others]))
}

/// A message whose block is refused comes back, and the channel holds what it held; sent again it is received in its turn.
#[test]
fn a_refused_block_hands_the_message_back(rt: HostRuntime) {
    let (seen, blocks) = send_all(rt.alloc()).expect(&rt, "memory");
    expect_seen(&rt, &seen, 73, 151);
    expect_true(&rt, blocks[0] > 0 && blocks[1] > 1);
}

/// A receive, a stream, a wait for the closing and, once a message fills the channel, a send: each waits, and the closing wakes those
/// whom the message has not.
const WAITS: [(Ask, Said); 12] = [
    (Ask::Recv(0), Said::Made),
    (Ask::Poll(0), Said::Pending),
    (Ask::CloneReceiver(2), Said::Made),
    (Ask::Next(2), Said::Pending),
    (Ask::Closed(1), Said::Made),
    (Ask::Poll(1), Said::Pending),
    (Ask::TrySend(7), Said::Sent),
    (Ask::Send(2, 8), Said::Made),
    (Ask::Poll(2), Said::Pending),
    (Ask::Close, Said::Shut),
    (Ask::Poll(0), Said::Got(7)),
    (Ask::GiveUp(2), Said::GivenUp(Some(8))),
];

/// Makes the calls of all who wait; then the numbers, and how often a call answered that it was refused.
fn wait_all(alloc: Global) -> Option<(Seen, Numbers, u32)> {
    let mut calls = Calls::open(alloc, true)?;
    let mut scarcity = Scarcity::new(alloc);
    for (ask, said) in WAITS {
        calls.make_call(&mut scarcity, ask, said);
    }
    let seen = scarcity.end();
    Some((seen, numbers_of(&calls.world), calls.named))
}

/// Each of the four is refused its listener, and waits when it is polled again; a send keeps its message.
#[test]
fn waits_of_each_kind(rt: HostRuntime) {
    let (seen, numbers, listeners) = wait_all(rt.alloc()).expect(&rt, "memory");
    expect_seen(&rt, &seen, 12, 46);
    expect_true(&rt, listeners > 3);
    let due = Numbers {
        messages: 0,
        under_way: 0,
        pending: 2,
        woken: 2,
    };
    expect_equal(&rt, &numbers, &due);
}

/// How many receives wait at once.
const COUNT: u32 = 12;

/// Receives wait, one after the other, and messages come for all of them.
fn fill(scarcity: &mut Scarcity, calls: &mut Calls) {
    for number in 0..COUNT {
        calls.make_call(scarcity, Ask::Recv(number), Said::Made);
        calls.make_call(scarcity, Ask::Poll(number), Said::Pending);
    }
    for number in 0..COUNT {
        calls.make_call(scarcity, Ask::TrySend(u64::from(number)), Said::Sent);
    }
    for number in 0..COUNT {
        calls.make_call(scarcity, Ask::Poll(number), Said::Got(u64::from(number)));
    }
}

/// Sends are made, finished and given up, and their messages received: the first three alone, and then the others at once.
fn empty(scarcity: &mut Scarcity, calls: &mut Calls) {
    for number in COUNT..2 * COUNT {
        calls.make_call(scarcity, Ask::Send(number, u64::from(number)), Said::Made);
        calls.make_call(scarcity, Ask::Poll(number), Said::Sent);
        calls.make_call(scarcity, Ask::GiveUp(number), Said::GivenUp(None));
        calls.make_call(scarcity, Ask::Clone(number), Said::Made);
        calls.make_call(
            scarcity,
            Ask::Downgrade(number.wrapping_add(COUNT)),
            Said::Made,
        );
    }
    for number in COUNT..COUNT + 3 {
        calls.make_call(scarcity, Ask::TryRecv, Said::Got(u64::from(number)));
    }
    calls.make_call(scarcity, Ask::RecvMany(100), Said::GotFrom(15, 9));
}

/// Makes all calls; then the numbers.
fn call_all(alloc: Global) -> Option<(Seen, Numbers)> {
    let mut calls = Calls::open(alloc, false)?;
    let mut scarcity = Scarcity::new(alloc);
    fill(&mut scarcity, &mut calls);
    empty(&mut scarcity, &mut calls);
    let seen = scarcity.end();
    Some((seen, numbers_of(&calls.world)))
}

/// Each call takes room for its answer, so each is refused at least once.
#[test]
fn calls_of_a_world(rt: HostRuntime) {
    let (seen, numbers) = call_all(rt.alloc()).expect(&rt, "memory");
    expect_seen(&rt, &seen, 112, 337);
    expect_equal(
        &rt,
        &numbers,
        &Numbers {
            messages: 0,
            under_way: 0,
            pending: 0,
            woken: 0,
        },
    );
}
