//! What a thread of a history over handles does.

use crate::crew::{Ended, Job};
use crate::gate::Gate;
use crate::leaving::{leave_receiving, leave_sending};
use crate::party::{Hands, Kept, Party};
use crate::place::{At, Place};
use crate::random::Random;
use history_checker::log::{Log, Stamps};
use std::sync::{Arc, Wait};

/// How many calls each thread makes before the rest.
pub const CALLS: u64 = 7;

/// How many moments all calls of a thread have at most: room for them is there from the start.
pub const MOMENTS: usize = 100;

/// How far apart the first messages of two threads are.
const MESSAGES: u64 = 1_000;

/// What the threads of a history share: where they begin together, and where they wait until the rest was seen.
#[derive(Drop)]
pub struct Shared {
    pub stamps: Stamps,
    pub begin: Gate,
    pub rest: Gate,
    pub ended: Ended,
    pub threads: u64,
    /// Whether calls may be refused memory.
    pub scarce: bool,
}

/// What a thread of a history is given.
#[derive(Drop)]
pub struct Work<R: Wait + Copy> {
    pub shared: Arc<Shared>,
    pub thread: usize,
    pub seed: u64,
    pub place: Arc<Place>,
    pub hands: Hands<R>,
    pub kept: Kept<R>,
    pub log: Log,
}

/// Whether the threads of a history of this seed may block: in every other one.
pub fn may_block(seed: u64) -> bool {
    seed % 2 == 0
}

/// The calls up to the rest, and after it the drops of what was cloned, and of the stream.
fn make_calls<R: Wait + Copy>(rt: &R, party: &mut Party<'_, R>, shared: &Shared, blocks: bool) {
    shared.begin.pass(rt, shared.threads);
    party.make_calls(CALLS, blocks);
    party.stand(At::Rest);
    shared.rest.pass(rt, shared.threads.wrapping_add(1));
    for _ in 0..CALLS {
        party.drop_sender();
        party.drop_receiver();
    }
    party.let_go_stream();
}

/// The number below the messages of this thread.
fn first_message(thread: usize) -> u64 {
    (thread as u64).wrapping_mul(MESSAGES)
}

/// The handles of a thread go.
fn leave<R: Wait + Copy>(
    shared: &Shared,
    hands: Hands<R>,
    sends_last: bool,
    message: u64,
    log: &mut Log,
) {
    let stamps = &shared.stamps;
    if sends_last {
        leave_sending(hands, message, shared.scarce, stamps, log);
    } else {
        leave_receiving(hands, stamps, log);
    }
}

/// The calls of a thread, up to the drops of its operations and of what it made; they are noted in the log.
fn run_party<R: Wait + Copy>(
    rt: R,
    shared: &Shared,
    hands: &Hands<R>,
    place: &Place,
    kept: Kept<R>,
    random: Random,
    seed: u64,
    message: u64,
    log: &mut Log,
) {
    let stamps = &shared.stamps;
    let mut party = Party::new(
        rt,
        hands,
        place,
        stamps,
        random,
        shared.scarce,
        message,
        kept,
        log,
    );
    make_calls(&rt, &mut party, shared, may_block(seed));
}

impl<R: Wait + Copy> Job<R> for Work<R> {
    type Done = Log;

    /// What one thread does: it drops its sender before its receiver, or after it.
    fn run(self, rt: R) -> Log {
        let Work {
            shared,
            thread,
            seed,
            place,
            hands,
            kept,
            mut log,
        } = self;
        let message = first_message(thread);
        let mut random = Random::new(seed, thread);
        let sends_last = random.once_in(2);
        run_party(
            rt, &shared, &hands, &place, kept, random, seed, message, &mut log,
        );
        leave(&shared, hands, sends_last, message, &mut log);
        shared.ended.note();
        log
    }
}
