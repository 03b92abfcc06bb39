//! What a trial refuses whose plain count is wrong.

ghost use Rattle.std.specs.Prelude.{◌<◌};

use crate::book::Book;
use crate::differs::Differs;
use crate::named::remove;
use crate::plan::{Kind, Plan};
use crate::refusals::tally::Tally;
use crate::trial::Trial;
use crate::waiting::Came;
use channel_calls::mark::Mark;
use channel_calls::stage::WaitList;
use channel_world::name::{OpId, Waiter};
use channel_world::world::World;
use event_listener::id::EventIds;
use std::alloc::Global;

/// What is wrong in a plain count.
#[derive(Clone, Copy)]
enum Wrong {
    Nothing,
    MessageMore,
    SleeperMore,
    CallMore,
    HandleFewer,
    NameMore,
    AnotherMessage,
}

fn plan(kind: Kind, handle: u32) -> Plan {
    Plan {
        kind,
        handle,
        name: 2,
        message: 5,
        limit: 2,
    }
}

fn spoil(book: &mut Book, wrong: Wrong) {
    let _ = match wrong {
        Wrong::Nothing => Ok(()),
        Wrong::MessageMore => book.count.apply(Mark::Append, Some(5), false),
        Wrong::SleeperMore => {
            let came = Came { from: 0, to: 0 };
            book.waiting
                .add(Waiter::Op(OpId(0)), WaitList::Closings, came)
        }
        Wrong::CallMore => book.begin(7, plan(Kind::Len, 0)),
        Wrong::HandleFewer => {
            remove(&mut book.names.handles, 0);
            Ok(())
        }
        Wrong::NameMore => {
            book.names.next_handle = 3;
            Ok(())
        }
        Wrong::AnotherMessage => {
            book.calls.clear();
            book.begin(11, plan(Kind::ForceSend, 0))
        }
    };
}

/// A trial over a world of so many places; none for want of memory.
fn open(capacity: usize, alloc: Global) -> Option<Trial>
    requires { 0 < capacity }
{
    let book = Book::new(Some(capacity), alloc).ok()?;
    match World::bounded(alloc, capacity, &mut EventIds::new()) {
        Ok(world) => Some(Trial::new(world, book, 0, alloc)),
        Err(_) => None,
    }
}

/// A call that begins over a count that is spoilt before it or at once after it, and is made to its end: what differs.
static BEGUN: [(Wrong, Kind, Wrong, Option<Differs>); 9] = [
    (Wrong::Nothing, Kind::TrySend, Wrong::Nothing, None),
    (
        Wrong::MessageMore,
        Kind::TrySend,
        Wrong::Nothing,
        Some(Differs::Numbers),
    ),
    (
        Wrong::SleeperMore,
        Kind::TrySend,
        Wrong::Nothing,
        Some(Differs::Numbers),
    ),
    (
        Wrong::CallMore,
        Kind::TrySend,
        Wrong::Nothing,
        Some(Differs::Numbers),
    ),
    (
        Wrong::HandleFewer,
        Kind::TrySend,
        Wrong::Nothing,
        Some(Differs::Refusal),
    ),
    (
        Wrong::NameMore,
        Kind::TryClone,
        Wrong::Nothing,
        Some(Differs::Refusal),
    ),
    (
        Wrong::Nothing,
        Kind::TrySend,
        Wrong::MessageMore,
        Some(Differs::Mark),
    ),
    (
        Wrong::Nothing,
        Kind::Len,
        Wrong::MessageMore,
        Some(Differs::Numbers),
    ),
    (
        Wrong::Nothing,
        Kind::TrySend,
        Wrong::AnotherMessage,
        Some(Differs::Reply),
    ),
];

/// What such a row finds.
fn differs(trial: &mut Trial, before: Wrong, kind: Kind, after: Wrong) -> Result<(), Differs> {
    spoil(&mut trial.book, before);
    trial.advance(11, Some(plan(kind, 0)))?;
    spoil(&mut trial.book, after);
    trial.settle()
}

fn a_wrong_count_is_refused(tally: &mut Tally, alloc: Global) {
    tally.begin("a wrong count is refused");
    for (before, kind, after, want) in &BEGUN {
        if let Some(mut trial) = open(1, alloc) {
            let found = differs(&mut trial, *before, *kind, *after);
            tally.row(found.err() == *want);
        } else {
            tally.row(false);
        }
    }
}

/// A call made alone over a count that is spoilt, in a world with one message: what differs.
static ALONE: [(Wrong, Kind, Option<Differs>); 11] = [
    (Wrong::Nothing, Kind::TryRecv, None),
    (Wrong::Nothing, Kind::RecvMany, None),
    (Wrong::Nothing, Kind::Drop, None),
    (Wrong::MessageMore, Kind::TrySend, Some(Differs::Mark)),
    (Wrong::MessageMore, Kind::Len, Some(Differs::Reply)),
    (Wrong::MessageMore, Kind::TryRecv, Some(Differs::Numbers)),
    (Wrong::MessageMore, Kind::RecvMany, Some(Differs::Reply)),
    (Wrong::SleeperMore, Kind::TryRecv, Some(Differs::Numbers)),
    (Wrong::CallMore, Kind::Capacity, Some(Differs::Numbers)),
    (Wrong::HandleFewer, Kind::TrySend, Some(Differs::Refusal)),
    (Wrong::NameMore, Kind::TryClone, Some(Differs::Refusal)),
];

/// What such a row finds. None where a call under way keeps it from being made alone.
fn differs_alone(trial: &mut Trial, wrong: Wrong, kind: Kind) -> Option<Result<(), Differs>> {
    let sent = trial.call_alone(11, plan(Kind::TrySend, 0));
    spoil(&mut trial.book, wrong);
    let handle = match kind {
        Kind::TryRecv | Kind::RecvMany => 1,
        _ => 0,
    };
    match sent {
        Some(Ok(())) => trial.call_alone(11, plan(kind, handle)),
        _ => None,
    }
}

fn a_wrong_count_is_refused_of_a_call_made_alone(tally: &mut Tally, alloc: Global) {
    tally.begin("a wrong count is refused of a call made alone");
    for (wrong, kind, want) in &ALONE {
        if let Some(mut trial) = open(2, alloc) {
            match differs_alone(&mut trial, *wrong, *kind) {
                Some(found) => tally.row(found.err() == *want),
                None => tally.row(false),
            }
        }
    }
}

/// Plays all tables of this file.
pub fn play(tally: &mut Tally, alloc: Global) {
    a_wrong_count_is_refused(tally, alloc);
    a_wrong_count_is_refused_of_a_call_made_alone(tally, alloc);
}
