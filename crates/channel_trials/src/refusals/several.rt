//! What the plain count refuses of receives of several messages.

use crate::answer::Answer;
use crate::book::Book;
use crate::differs::Differs;
use crate::due::is_due;
use crate::owed::{is_nothing_owed, one_place_each_is_enough};
use crate::plan::{Kind, Plan, TOO_LARGE};
use crate::refusals::tally::Tally;
use crate::takings::Takings;
use crate::under_way::UnderWay;
use crate::waiting::Came;
use channel_calls::mark::Mark;
use channel_calls::stage::WaitList;
use channel_world::name::{OpId, Waiter};
use std::alloc::Global;

/// A receive of at most so many messages through the first receiver.
fn plan(limit: usize) -> Plan {
    Plan {
        kind: Kind::RecvMany,
        handle: 1,
        name: 0,
        message: 0,
        limit,
    }
}

/// A plain count of two places that hold 1 and 2.
fn full_book(alloc: Global) -> Option<Book> {
    let mut book = Book::new(Some(2), alloc).ok()?;
    let first = book.count.apply(Mark::Append, Some(1), false);
    let second = book.count.apply(Mark::Append, Some(2), false);
    (first.is_ok() && second.is_ok()).then_some(book)
}

/// The call of a party that began over this count and has made so many takings, with a moment after each.
fn after_takings(book: &mut Book, limit: usize, takings: usize) -> Result<UnderWay, Differs> {
    book.begin(3, plan(limit))?;
    book.see();
    for _ in 0..takings {
        book.step(3, Mark::Take)?;
        book.see();
    }
    match book.call_of(3) {
        Some(call) => Ok(call),
        None => Err(Differs::Refusal),
    }
}

/// Of a receive of at most so many, which took so many of two: an answer, and whether it may answer so.
static TAKEN: [(usize, usize, Answer, bool); 15] = [
    (2, 2, Answer::Several(2), true),
    (2, 2, Answer::Several(1), false),
    (1, 1, Answer::Several(1), true),
    (0, 0, Answer::Several(0), true),
    (1, 0, Answer::Several(0), false),
    (2, 1, Answer::Several(1), false),
    (3, 2, Answer::Several(2), true),
    (3, 1, Answer::Several(1), false),
    (2, 0, Answer::Empty, false),
    (0, 0, Answer::Empty, false),
    (2, 2, Answer::Empty, false),
    (2, 0, Answer::NoMemory, false),
    (TOO_LARGE, 0, Answer::NoMemory, true),
    (TOO_LARGE, 1, Answer::NoMemory, false),
    (TOO_LARGE, 2, Answer::Several(2), false),
];

/// Whether a receive that began over this count and took so many may answer so.
fn may_answer(book: &mut Book, limit: usize, takings: usize, answer: Answer) -> Option<bool> {
    let call = after_takings(book, limit, takings).ok()?;
    Some(is_due(&call, answer, &book.count))
}

fn several_are_as_many_as_were_taken(tally: &mut Tally, alloc: Global) {
    tally.begin("several are as many as were taken");
    for (limit, takings, answer, want) in &TAKEN {
        if let Some(mut book) = full_book(alloc) {
            let found = may_answer(&mut book, *limit, *takings, *answer);
            tally.row(found == Some(*want));
        } else {
            tally.row(false);
        }
    }
}

/// Of a receive of at most two of an empty channel, which is closed or not: an answer, and whether it may answer so.
static NONE: [(bool, Answer, bool); 6] = [
    (false, Answer::Empty, true),
    (false, Answer::ReceiveClosed, false),
    (false, Answer::Several(0), false),
    (true, Answer::Empty, false),
    (true, Answer::ReceiveClosed, true),
    (true, Answer::Several(0), false),
];

fn none_are_for_a_reason(tally: &mut Tally, alloc: Global) {
    tally.begin("none are for a reason");
    for (is_closed, answer, want) in &NONE {
        if let Ok(mut book) = Book::new(Some(2), alloc) {
            book.count.closed = *is_closed;
            let found = may_answer(&mut book, 2, 0, *answer);
            tally.row(found == Some(*want));
        } else {
            tally.row(false);
        }
    }
}

/// A mark of a receive of at most so many, and what comes of it.
static LIMITS: [(usize, Mark, Result<(), Differs>); 4] = [
    (1, Mark::Take, Ok(())),
    (0, Mark::Take, Err(Differs::Mark)),
    (1, Mark::Append, Err(Differs::Mark)),
    (1, Mark::Close, Err(Differs::Mark)),
];

fn none_is_taken_past_the_limit(tally: &mut Tally, alloc: Global) {
    tally.begin("none is taken past the limit");
    for (limit, mark, want) in &LIMITS {
        if let Some(mut book) = full_book(alloc) {
            let begun = after_takings(&mut book, *limit, 0);
            tally.row(begun.is_ok() && book.step(3, *mark) == *want);
        } else {
            tally.row(false);
        }
    }
}

/// Messages, and whether just these are the ones of the first of two parties who took some in turns.
static HANDED: [(&[u64], bool); 5] = [
    (&[1, 5], true),
    (&[5, 1], false),
    (&[1], false),
    (&[1, 2, 5], false),
    (&[], false),
];

fn messages_are_handed_out_in_order(tally: &mut Tally, alloc: Global) {
    tally.begin("messages are handed out in order");
    let mut takings = Takings::nothing(alloc);
    let mut all = true;
    for (party, message) in &[(3, 7), (3, 1), (4, 2), (3, 5)] {
        all = takings.add(*party, *message).is_ok() && all;
    }
    for (messages, want) in &HANDED {
        tally.row(all && takings.are(1, 3, messages) == *want);
    }
}

/// Of a receive of two, how many it has taken, and whether it has woken the first of two sends that sleep; whether nothing is owed to
/// these, and whether one place for each call were enough.
static PLACES: [(usize, bool, (bool, bool)); 5] = [
    (0, false, (true, true)),
    (1, false, (true, true)),
    (2, false, (true, false)),
    (1, true, (true, true)),
    (2, true, (false, true)),
];

/// Two sends come to sleep, the call takes so many, and wakes the first of them or not.
fn take_beside_two(book: &mut Book, takings: usize, wakes: bool) -> Result<(), Differs> {
    let came = Came { from: 0, to: 0 };
    book.waiting
        .add(Waiter::Op(OpId(0)), WaitList::Sends, came)?;
    book.waiting
        .add(Waiter::Op(OpId(1)), WaitList::Sends, came)?;
    let _ = after_takings(book, 2, takings)?;
    if wakes {
        book.wake_one(3, Waiter::Op(OpId(0)))?;
    }
    Ok(())
}

fn several_places_are_answered_for_until_they_are_told(tally: &mut Tally, alloc: Global) {
    tally.begin("several places are answered for until they are told");
    for (takings, wakes, want) in &PLACES {
        if let Some(mut book) = full_book(alloc) {
            let made = take_beside_two(&mut book, *takings, *wakes);
            let found = (is_nothing_owed(&book), one_place_each_is_enough(&book));
            tally.row(made.is_ok() && found == *want);
        } else {
            tally.row(false);
        }
    }
}

/// Plays all tables of this file.
pub fn play(tally: &mut Tally, alloc: Global) {
    several_are_as_many_as_were_taken(tally, alloc);
    none_are_for_a_reason(tally, alloc);
    none_is_taken_past_the_limit(tally, alloc);
    messages_are_handed_out_in_order(tally, alloc);
    several_places_are_answered_for_until_they_are_told(tally, alloc);
}
