//! A history over the handles of one channel.

use crate::crew::{Ended, Failure, Outcome, join_all, log_with_room, start};
use crate::form::Form;
use crate::gate::Gate;
use crate::job::{CALLS, MOMENTS, Shared, Work, may_block};
use crate::party::{Hands, Kept};
use crate::place::Place;
use crate::referee::Referee;
use async_channel::{Receiver, Runtime, Sender, bounded, unbounded};
use event_listener::id::EventIds;
use history_checker::history::History;
use history_checker::log::{Log, Stamps};
use history_checker::plain::Plain;
use std::alloc::{AllocGlobal, Global};
use std::random::RandomSource;
use std::sync::{Arc, Wait};
use std::thread::JoinHandle;

/// The two handles of a channel that was just opened.
type Ends<R> = (Sender<u64, R>, Receiver<u64, R>);

/// A channel of this form.
fn open<R: Wait + Copy>(rt: R, alloc: Global, form: Form) -> Option<Ends<R>> {
    let mut ids = EventIds::new();
    match form {
        Form::OneSlot => bounded(rt, alloc, 1, &mut ids).ok(),
        Form::RingOfThree => bounded(rt, alloc, 3, &mut ids).ok(),
        Form::Unbounded => unbounded(rt, alloc, &mut ids).ok(),
    }
}

/// The place of one thread more, which the referee sees.
fn new_place<R: RandomSource + AllocGlobal>(
    rt: &R,
    alloc: Global,
    places: &mut Vec<Arc<Place>>,
) -> Option<Arc<Place>> {
    let place = Arc::new(alloc, Place::new(rt).ok()?).ok()?;
    places.push(Arc::try_clone(&place).ok()?).ok()?;
    Some(place)
}

/// The job of one thread; the referee sees its place.
fn new_job<R>(
    rt: R,
    alloc: Global,
    shared: &Arc<Shared>,
    referee: &mut Referee<R>,
    seed: u64,
) -> Option<Work<R>>
where
    R: Wait + Copy + RandomSource + AllocGlobal,
{
    let thread = referee.places.len();
    let hands = Hands::of(&referee.sender, &referee.receiver)?;
    let stream = referee.receiver.try_clone().ok()?;
    let place = new_place(&rt, alloc, &mut referee.places)?;
    Some(Work {
        shared: Arc::try_clone(shared).ok()?,
        thread,
        seed,
        place,
        hands,
        kept: Kept::new(stream, alloc, CALLS)?,
        log: log_with_room(alloc, MOMENTS).ok()?,
    })
}

/// Starts so many threads. None of them makes a call before all have begun.
fn start_all<R>(
    rt: R,
    alloc: Global,
    shared: &Arc<Shared>,
    referee: &mut Referee<R>,
    seed: u64,
    started: &mut Vec<JoinHandle<Log>>,
) -> Result<(), Failure>
where
    R: Runtime + 'static,
{
    for _ in 0..shared.threads {
        let job = new_job(rt, alloc, shared, referee, seed).ok_or(Failure::Memory)?;
        start(rt, job, started)?;
    }
    Ok(())
}

/// What threads share that have not begun; none where memory was refused.
fn share(alloc: Global, threads: usize, scarce: bool) -> Option<Arc<Shared>> {
    let shared = Shared {
        stamps: Stamps::new(),
        begin: Gate::new(),
        rest: Gate::new(),
        ended: Ended::new(),
        threads: threads as u64,
        scarce,
    };
    Arc::new(alloc, shared).ok()
}

/// What comes of a history over the handles of a channel that was just opened: what its threads did, and what was seen of them.
fn run<R>(
    rt: R,
    alloc: Global,
    shared: &Arc<Shared>,
    (sender, receiver): Ends<R>,
    seed: u64,
    history: &mut History,
) -> Result<(), Failure>
where
    R: Runtime + 'static,
{
    let mut referee = Referee::new(sender, receiver, alloc);
    let mut started = Vec::new(alloc);
    start_all(rt, alloc, shared, &mut referee, seed, &mut started)?;
    let mut log = Log::new(alloc);
    let closes = may_block(seed);
    referee.watch(
        &rt,
        alloc,
        &shared.stamps,
        closes,
        &mut log,
        &mut history.rests,
    )?;
    referee.leave(rt, alloc, shared, &mut log)?;
    join_all(&rt, started, &mut history.logs)?;
    history.logs.push(log).ok().ok_or(Failure::Memory)
}

/// A history over the handles of a channel of this form. The referee has two handles, and is one thread more.
pub fn over_handles<R>(
    rt: R,
    alloc: Global,
    form: Form,
    threads: usize,
    seed: u64,
    scarce: bool,
) -> Outcome
where
    R: Runtime + 'static,
{
    let receivers = threads.wrapping_mul(2).wrapping_add(1);
    let mut history = History {
        plain: Plain::new(form.capacity(), threads.wrapping_add(1), receivers, alloc),
        logs: Vec::new(alloc),
        rests: Vec::new(alloc),
    };
    let shared = share(alloc, threads, scarce).ok_or(Failure::Memory)?;
    let ends = open(rt, alloc, form).ok_or(Failure::Memory)?;
    run(rt, alloc, &shared, ends, seed, &mut history)?;
    Ok(history)
}
