//! Runs of the calls of many parties over the cells of one owner: what `concurrent-queue` 2.5.0 does between threads, one atomic operation
//! a step.
//!
//! # Extensions
//!
//! All of this module.

ghost use Rattle.std.specs.Prelude.{◌≡◌, ℕ, ◌+◌, ◌<◌, ◌++◌, ◌∷◌, ◌⊎◌, [], Some, slice_get, MatchOption, MatchResult, IfOk, vec_len, vec_capacity};
ghost use Rattle.std.specs.VecDeque.{deque_len};
ghost use Rattle.std.specs.List.{remove};
ghost use Rattle.concurrent_queue.specs.Parties.{HasParty, NoneHas, IsAdmitted, IsRefused, Turns, TurnedOver, SteppedAt, IsMade, IsLeft};
ghost use Rattle.concurrent_queue.specs.Run.{RanTo, HasNoCells};
ghost use Rattle.concurrent_queue.specs.Made.{CanBeMade};
ghost use Rattle.concurrent_queue.specs.Plain.{contents_of};

use crate::call::{QueueAsk, QueueEntry, QueueMark};
use crate::cells::QueueForm;
use crate::plain::PlainCells;
use crate::queue_call::QueueCall;
use std::alloc::Global;
use std::collections::VecDeque;

/// A step of a run. A party begins a call by saying what it asks, so no call that was stepped elsewhere can begin.
#[derive(Debug, Drop, PartialEq, Eq)]
pub enum QueueStep<T> {
    /// The party begins a call that asks this.
    Begin {
        /// Whose call it is.
        party: u32,
        /// What it asks.
        call: QueueAsk<T>,
    },
    /// The party makes one step of the call that it has under way.
    Step {
        /// Whose call it is.
        party: u32,
    },
}

/// Why a run stopped.
#[derive(Clone, Copy, PartialEq, Eq, Debug)]
pub enum QueueRefusal {
    /// A party that has a call under way would begin one. Its number is 1.
    Busy,
    /// A party that has no call under way would make a step. Its number is 2.
    Idle,
    /// There was no memory for the cells, for another call under way, or for another entry. Its number is 3.
    NoMemory,
}

/// A party with its call under way.
#[derive(Drop)]
pub(crate) struct Party<T> {
    id: u32,
    call: QueueCall<T>,
}

/// Where a run stopped before its end, and why.
#[derive(Clone, Copy, PartialEq, Eq, Debug)]
pub struct Stopped {
    /// How many steps were made before it.
    pub place: usize,
    /// Why the next step was refused.
    pub why: QueueRefusal,
}

/// What a run did: an entry for each step that was made, and where it stopped.
#[derive(Debug, Drop, PartialEq, Eq)]
pub struct QueueRun<T> {
    /// The entries, in the order of the steps.
    pub trace: Vec<QueueEntry<T>>,
    /// `None` if all steps were made.
    pub stopped: Option<Stopped>,
}

fn find<T>(parties: &Vec<Party<T>>, id: u32) -> Option<usize>
    ensures { MatchOption result (NoneHas id parties.now.items) (λ k. HasParty id parties.now.items k) }
{
    for k in 0..parties.len() {
        if parties[k].id == id {
            return Some(k);
        }
    }
    None
}

/// Whether the first step may be made.
fn admit<T>(steps: &VecDeque<QueueStep<T>>, parties: &Vec<Party<T>>) -> Result<(), QueueRefusal>
    ensures { MatchResult result (λ _. IsAdmitted steps.now.items parties.now.items) (λ why. IsRefused steps.now.items parties.now.items why) }
{
    match steps.front() {
        None => Ok(()),
        Some(QueueStep::Begin { party, .. }) => match find(parties, *party) {
            None => Ok(()),
            Some(_) => Err(QueueRefusal::Busy),
        },
        Some(QueueStep::Step { party }) => match find(parties, *party) {
            None => Err(QueueRefusal::Idle),
            Some(_) => Ok(()),
        },
    }
}

/// Takes the k-th party out.
fn leave<T: Drop>(parties: &mut Vec<Party<T>>, k: usize)
    requires { k < vec_len parties.old }
    ensures { parties.new.items ≡ remove parties.old.items k }
{
    let _ = parties.remove(k);
}

/// One step of the k-th call under way.
fn step_at<T: Drop>(
    parties: &mut Vec<Party<T>>,
    k: usize,
    cells: &mut PlainCells<T>,
) -> QueueEntry<T>
    requires { k < vec_len parties.old }
    ensures { SteppedAt (contents_of cells.old) parties.old.items k result (contents_of cells.new) parties.new.items }
{
    let party = &mut parties[k];
    let reply = party.call.step(cells);
    let mark = party.call.last_mark();
    match &reply {
        Some(_) => leave(parties, k),
        None => {}
    }
    QueueEntry { mark, reply }
}

/// Makes a step that was admitted, within the room that was reserved.
fn make<T: Drop>(
    step: QueueStep<T>,
    cells: &mut PlainCells<T>,
    parties: &mut Vec<Party<T>>,
    trace: &mut Vec<QueueEntry<T>>,
)
    requires admitted { IsAdmitted (step ∷ []) parties.old.items }
    requires room { vec_len parties.old < vec_capacity parties.old }
    requires trace_room { vec_len trace.old < vec_capacity trace.old }
    ensures { IsMade step (contents_of cells.old) parties.old.items trace.old.items (contents_of cells.new) parties.new.items trace.new.items }
{
    match step {
        QueueStep::Begin { party, call } => {
            parties.push_reserved(Party {
                id: party,
                call: QueueCall::new(call),
            });
            trace.push_reserved(QueueEntry {
                mark: QueueMark::Nothing,
                reply: None,
            });
        }
        QueueStep::Step { party } => match find(parties, party) {
            Some(k) => {
                let entry = step_at(parties, k, cells);
                trace.push_reserved(entry);
            }
            None => unreachable!(),
        },
    }
}

/// Makes the first step, or refuses it and changes nothing.
fn turn<T: Drop>(
    cells: &mut PlainCells<T>,
    parties: &mut Vec<Party<T>>,
    trace: &mut Vec<QueueEntry<T>>,
    steps: &mut VecDeque<QueueStep<T>>,
) -> Result<(), QueueRefusal>
    requires { 0 < deque_len steps.old }
    ensures cases { MatchResult result
        (λ _. TurnedOver steps.old.items (contents_of cells.old) parties.old.items trace.old.items steps.new.items (contents_of cells.new) parties.new.items trace.new.items)
        (λ why. IsRefused steps.old.items parties.old.items why × IsLeft steps.old.items (contents_of cells.old) parties.old.items trace.old.items steps.new.items (contents_of cells.new) parties.new.items trace.new.items) }
    ensures shorter { IfOk result (λ _. deque_len steps.new < deque_len steps.old) }
{
    // Before memory is asked for: a busy or idle turn is reported as such, and never as a lack of memory.
    admit(steps, parties)?;
    if trace.reserve(1).is_err() || parties.reserve(1).is_err() {
        return Err(QueueRefusal::NoMemory);
    }
    match steps.pop_front() {
        Some(step) => {
            make(step, cells, parties, trace);
            Ok(())
        }
        None => unreachable!(),
    }
}

/// Runs steps of any parties over the cells of a new queue of this form. The run stops at a step that is refused, which stays in front: a
/// party that has a call under way can't begin another, one that has none can't make a step, and a lack of memory for the next entry or
/// call refuses a step too. If there is no memory for the cells the run stops at place 0.
pub fn run_queue_steps<T: Drop>(
    alloc: Global,
    form: QueueForm,
    steps: &mut VecDeque<QueueStep<T>>,
) -> QueueRun<T>
    requires form { CanBeMade form }
    ensures ran { HasNoCells steps.old.items steps.new.items result.trace.items result.stopped ⊎ RanTo form steps.old.items steps.new.items result.trace.items result.stopped }
{
    let mut trace = Vec::new(alloc);
    match PlainCells::new(alloc, form) {
        Ok(mut cells) => {
            let mut parties = Vec::new(alloc);
            while steps.len() > 0 {
                match turn(&mut cells, &mut parties, &mut trace, steps) {
                    Ok(()) => {}
                    Err(why) => {
                        let place = trace.len();
                        return QueueRun {
                            trace,
                            stopped: Some(Stopped { place, why }),
                        };
                    }
                }
            }
            QueueRun {
                trace,
                stopped: None,
            }
        }
        Err(_) => QueueRun {
            trace,
            stopped: Some(Stopped {
                place: 0,
                why: QueueRefusal::NoMemory,
            }),
        },
    }
}
