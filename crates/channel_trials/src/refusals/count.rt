//! What the plain count refuses by itself.

use crate::answer::Answer;
use crate::book::Book;
use crate::count::Count;
use crate::differs::Differs;
use crate::due::is_due;
use crate::form::FORMS;
use crate::owed::is_nothing_owed;
use crate::plan::{Kind, Plan};
use crate::refusals::tally::Tally;
use crate::settling::settle;
use crate::under_way::{Subject, UnderWay};
use crate::waiting::{Came, Waiting};
use channel_calls::mark::Mark;
use channel_calls::stage::WaitList;
use channel_world::name::{OpId, Waiter};
use std::alloc::Global;

/// A call through the first sender or the first receiver that brings this message.
fn call_of(kind: Kind, handle: u32, message: Option<u64>) -> UnderWay {
    let plan = Plan {
        kind,
        handle,
        name: 0,
        message: 0,
        limit: 0,
    };
    let subject = Subject {
        line: WaitList::Closings,
        waiter: None,
        side: None,
        message,
        uses: Some(handle),
        uses_too: None,
    };
    UnderWay::new(0, plan, subject)
}

/// Marks one after the other on an empty channel of one place, the messages that they bring, and what comes of each.
static MARKS: [(Mark, Option<u64>, Result<(), Differs>); 12] = [
    (Mark::Take, None, Err(Differs::Mark)),
    (Mark::TakeDisplaced, None, Err(Differs::Mark)),
    (Mark::Append, None, Err(Differs::Mark)),
    (Mark::Append, Some(4), Ok(())),
    (Mark::Append, Some(5), Err(Differs::Mark)),
    (Mark::Replace, Some(6), Ok(())),
    (Mark::Close, None, Ok(())),
    (Mark::Close, None, Err(Differs::Mark)),
    (Mark::Take, None, Ok(())),
    (Mark::Append, Some(7), Err(Differs::Mark)),
    (Mark::SenderDown, None, Ok(())),
    (Mark::SenderUp, None, Err(Differs::Mark)),
];

fn a_mark_is_made_over_what_is_held(tally: &mut Tally, alloc: Global) {
    tally.begin("a mark is made over what is held");
    let mut count = Count::new(Some(1), alloc);
    for (mark, message, want) in &MARKS {
        tally.row(count.apply(*mark, *message, false) == *want);
    }
    tally.row(count.came_as(1, 6) && !count.came_as(0, 6));
}

/// Answers of a receive that doesn't wait, and whether each is due before it had a moment, after one of an empty channel, and after
/// it took the message 4.
static ANSWERS: [(Answer, [bool; 3]); 6] = [
    (Answer::Empty, [false, true, false]),
    (Answer::ReceiveClosed, [false, false, false]),
    (Answer::Received(4), [false, false, true]),
    (Answer::Received(5), [false, false, false]),
    (Answer::Sent, [false, false, false]),
    (Answer::NoMemory, [false, false, false]),
];

/// Compares which answers are due, at this place of their rows.
fn compare_answers(tally: &mut Tally, call: &UnderWay, count: &Count, place: usize) {
    for (answer, due) in &ANSWERS {
        tally.row(due.get(place) == Some(&is_due(call, *answer, count)));
    }
}

fn an_answer_needs_its_mark_or_its_moment(tally: &mut Tally, alloc: Global) {
    tally.begin("an answer needs its mark or its moment");
    let mut count = Count::new(Some(1), alloc);
    let mut call = call_of(Kind::TryRecv, 1, None);
    compare_answers(tally, &call, &count, 0);
    call.saw = call.saw.with(&count);
    compare_answers(tally, &call, &count, 1);
    tally.row(count.apply(Mark::Append, Some(4), false) == Ok(()));
    tally.row(call.step(Mark::Take, &mut count) == Ok(()));
    compare_answers(tally, &call, &count, 2);
}

/// Who sleeps on which line, beside a call under way of which kind, and whether nothing is owed to it: beside a message, on a channel
/// of two places, alone and then beside the call; and on a closed one.
static OWED: [(WaitList, Kind, [bool; 3]); 7] = [
    (WaitList::Sends, Kind::TrySend, [false, true, false]),
    (WaitList::Sends, Kind::TryRecv, [false, false, false]),
    (WaitList::Receives, Kind::TrySend, [false, true, false]),
    (WaitList::Streams, Kind::ForceSend, [false, true, false]),
    (WaitList::Streams, Kind::TryRecv, [false, false, false]),
    (WaitList::Receives, Kind::Close, [false, false, false]),
    (WaitList::Closings, Kind::Close, [true, true, false]),
];

/// What such a row finds.
fn owes(line: WaitList, kind: Kind, alloc: Global) -> Option<[bool; 3]> {
    let mut book = Book::new(Some(2), alloc).ok()?;
    let name = Waiter::Op(OpId(0));
    let sleeps = book.waiting.add(name, line, Came { from: 0, to: 0 });
    let is_in = book.count.apply(Mark::Append, Some(1), false);
    let alone = is_nothing_owed(&book);
    let begins = book.calls.push(call_of(kind, 0, None)).is_ok();
    let beside = is_nothing_owed(&book);
    let closes = book.count.apply(Mark::Close, None, false);
    let closed = is_nothing_owed(&book);
    let all = sleeps.is_ok() && is_in.is_ok() && begins && closes.is_ok();
    all.then_some([alone, beside, closed])
}

fn one_who_sleeps_is_owed(tally: &mut Tally, alloc: Global) {
    tally.begin("one who sleeps is owed");
    for (line, kind, want) in &OWED {
        tally.row(owes(*line, *kind, alloc) == Some(*want));
    }
}

/// Between which moments the second of two comes to a line, and whether it may be woken before the first one.
static SECONDS: [(u64, u64, Result<WaitList, Differs>); 3] = [
    (0, 1, Ok(WaitList::Sends)),
    (4, 6, Ok(WaitList::Sends)),
    (5, 6, Err(Differs::Woken)),
];

fn who_came_first_is_woken_first(tally: &mut Tally, alloc: Global) {
    tally.begin("who came first is woken first");
    let (first, second) = (Waiter::Op(OpId(0)), Waiter::Op(OpId(1)));
    for (from, to, want) in &SECONDS {
        let mut waiting = Waiting::nobody(alloc);
        let came = Came {
            from: *from,
            to: *to,
        };
        let one = waiting.add(first, WaitList::Sends, Came { from: 2, to: 4 });
        let two = waiting.add(second, WaitList::Sends, came);
        tally.row(one.is_ok() && two.is_ok() && waiting.wake(second) == *want);
    }
}

fn random_worlds_settle_as_plain_channels(tally: &mut Tally, alloc: Global) {
    tally.begin("random worlds settle as plain channels");
    for number in 0..75u64 {
        let form = FORMS[(number / 25) as usize];
        tally.row(settle(form, number % 25, alloc).is_ok());
    }
}

/// Plays all tables of this file.
pub fn play(tally: &mut Tally, alloc: Global) {
    a_mark_is_made_over_what_is_held(tally, alloc);
    an_answer_needs_its_mark_or_its_moment(tally, alloc);
    one_who_sleeps_is_owed(tally, alloc);
    who_came_first_is_woken_first(tally, alloc);
    random_worlds_settle_as_plain_channels(tally, alloc);
}
