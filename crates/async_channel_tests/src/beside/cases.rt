//! Each call of each form beside each other one, at each of its operations.

use crate::beside::cells::Beside;
use crate::beside::kind::{Called, How, Kind};
use crate::beside::made::said_by;
use crate::beside::outcome::Outcome;
use crate::beside::pairs::{CHANGES, ONE_SLOT, OTHERS, RING_OF_TWO, Starts, UNBOUNDED};
use crate::beside::start::{Begun, Start, WAITING, left_in};
use crate::beside::{ALL, Events, Other, is_owed};
use crate::checks::expect_none;
use crate::said::Said;
use crate::scarce::Scarce;
use crate::woken::{LINES, place_of, task_of};
use channel_calls::stage::{Side, WaitList};
use concurrent_queue::cells::QueueForm;
use std::alloc::{AllocError, Global};
use std::process::Abort;
use std::sync::Wait;

/// A call that blocks its thread tries some times before it listens, each time alike. The others come at its first operations and at
/// the last ones before that, so many each, and at each one from there on.
const FIRST: u32 = 6;

const BEFORE: u32 = 12;

/// What stands for the bound of a channel without one: more than these tests send.
const MANY: usize = 9;

/// More operations than a call makes.
const NEVER: u32 = 1_000_000;

/// What is made of a channel: the call, the others, which of those who wait the call is where it was polled before, the operation before
/// which the others come, and how many steps the first of them makes there.
#[derive(Clone, Copy)]
struct Case {
    kind: Kind,
    first: Kind,
    second: Kind,
    who: u32,
    turn: u32,
    steps: u32,
}

/// What no list explains: the calls, how many handles of each kind there were, which one of those who wait the call was, the operation and
/// the steps of the case, what they said, and whether nobody was left asleep and each list has those who wait there.
type Wrong = ([Kind; 3], usize, [u32; 3], [Said; 3], [bool; 2]);

impl Case {
    /// That this came of it is explained by no list.
    fn wrong(self, handles: usize, outcome: &Outcome) -> Wrong {
        let [first, second] = outcome.others;
        let waits = [!outcome.is_lost, outcome.is_counted];
        (
            [self.kind, self.first, self.second],
            handles,
            [self.who, self.turn, self.steps],
            [outcome.said, first, second],
            waits,
        )
    }

    /// Whether the call and the first other one both have a listener on one list.
    fn share_list(self) -> bool {
        self.kind.is_again() && self.first.is_again() && self.kind.line() == self.first.line()
    }

    /// Whether two handles of a kind are needed: one that is dropped is dropped once, and isn't cloned at that time.
    fn wants_two_handles(self) -> bool {
        let mut wants_two = false;
        for side in [Side::Senders, Side::Receivers] {
            let (call, other) = (self.kind.needs(side), self.first.needs(side));
            let drops = call.0 || other.0;
            wants_two = wants_two || (call.0 && other.0) || (drops && (call.1 || other.1));
        }
        wants_two
    }

    /// Whether the calls can be made in this channel: they have the handles, and the listeners, that they need.
    fn is_possible(self, start: Start) -> bool {
        let mut is_possible = start.handles > 1 || !self.wants_two_handles();
        for kind in [self.kind, self.first] {
            if let Some(line) = kind.line() {
                is_possible = is_possible && (!kind.is_again() || start.has_waiting(line));
            }
        }
        is_possible
    }

    /// The one who makes a call of this kind: one of those who wait in the start, or with this message, and a task of this number.
    fn caller(
        kind: Kind,
        who: u32,
        message: u64,
        fresh: u32,
        begun: &Begun,
        alloc: Global,
    ) -> Called {
        let line = kind.line().unwrap_or(WaitList::Closings);
        if !kind.is_again() {
            return Called::new(kind, message, task_of(line, fresh), alloc);
        }
        let place = place_of(line);
        let message = WAITING.saturating_add(who as u64);
        let mut called = Called::new(kind, message, task_of(line, who), alloc);
        if place < 4 {
            called.key = if who == 0 {
                begun.firsts[place]
            } else {
                begun.seconds[place]
            };
        }
        called
    }

    /// Those who call.
    fn callers(self, begun: &Begun, alloc: Global) -> [Called; 3] {
        let who = if self.share_list() && self.who == 0 {
            1
        } else {
            0
        };
        [
            Case::caller(self.kind, self.who, 7, 2, begun, alloc),
            Case::caller(self.first, who, 8, 3, begun, alloc),
            Case::caller(self.second, 0, 9, 4, begun, alloc),
        ]
    }
}

/// How many wait on this list in the end, of so many in the start, by what the calls said.
fn wanted(callers: [Called; 3], begun: [usize; 4], said: [Said; 3], line: WaitList) -> usize {
    let place = place_of(line);
    let mut waiting: usize = if place < 4 { begun[place] } else { 0 };
    for by in 0..3 {
        let kind = callers[by].kind;
        if kind.line() == Some(line) {
            if kind.is_again() {
                waiting = waiting.saturating_sub(1);
            }
            if said[by] == Said::Pending {
                waiting = waiting.saturating_add(1);
            }
        }
    }
    waiting
}

/// Whether somebody was left asleep beside what nobody answers for; and whether each list has so many, each woken who was told, and
/// the longest no more than those.
fn looked_after(
    callers: [Called; 3],
    begun: [usize; 4],
    said: [Said; 3],
    bound: usize,
    cells: &mut Scarce,
) -> (bool, bool) {
    let (mut is_lost, mut is_counted) = (false, true);
    let mut most: usize = 0;
    for by in 0..3 {
        if said[by] != Said::Pending {
            cells.woken.clear(callers[by].task);
        }
    }
    for line in LINES {
        let wanted = wanted(callers, begun, said, line);
        let found = cells
            .channel
            .waiting(line)
            .saturating_add(cells.woken.count(line));
        is_counted = is_counted && wanted == found;
        is_lost = is_lost || is_owed(line, bound, callers[0].alloc, cells);
        most = most.max(wanted);
    }
    (
        is_lost,
        is_counted && cells.channel.most_listeners() == most,
    )
}

/// The cells on which the others come as this case says.
fn laid<'a, R: Wait>(
    rt: &'a R,
    mut cells: Scarce,
    bound: usize,
    case: Case,
    callers: [Called; 3],
) -> Beside<'a, R> {
    cells.refused = case.kind.is_refused() as u32;
    Beside {
        rt,
        cells,
        bound,
        made: 0,
        turn: case.turn,
        steps: case.steps,
        first: Other::new(callers[1]),
        second: Other::new(callers[2]),
        events: Events::new(),
        came_whole: false,
        line: case.kind.line().unwrap_or(WaitList::Closings),
        task: callers[0].task,
        listened: 0,
        naps: 0,
        is_lost: false,
    }
}

/// Makes the calls.
fn make<R: Wait>(rt: &R, alloc: Global, start: Start, begun: Begun, case: Case) -> Outcome {
    let callers = case.callers(&begun, alloc);
    let waiting = begun.waiting;
    let mut beside = laid(rt, begun.cells, start.bound, case, callers);
    let said = said_by(rt, callers[0], &mut beside);
    let ended = beside.events.count;
    beside.let_on(ALL, ALL);
    let others = [
        beside.first.said.unwrap_or(Said::GoesOn),
        beside.second.said.unwrap_or(Said::GoesOn),
    ];
    let all = [said, others[0], others[1]];
    let (lost, is_counted) = looked_after(callers, waiting, all, start.bound, &mut beside.cells);
    Outcome {
        said,
        others,
        took: [beside.first.took, beside.second.took],
        events: beside.events,
        ended,
        left: left_in(alloc, &mut beside.cells, start.bound),
        is_lost: beside.is_lost || lost,
        is_counted,
        listened: beside.listened,
        came: beside.made >= case.turn,
        came_whole: beside.came_whole,
    }
}

/// What no list explains, of a call beside others that come before this operation of it: the first one with one step, with two,
/// and so on up to its end. `None` where each is explained; and whether the call had such an operation.
fn wrong_at<R: Wait>(
    rt: &R,
    alloc: Global,
    start: Start,
    mut case: Case,
) -> Result<(Option<Wrong>, bool), AllocError> {
    for steps in case.steps..ALL {
        case.steps = steps;
        let begun = start.begin(alloc)?;
        let (plain, message) = (begun.plain, case.callers(&begun, alloc)[0].message);
        let outcome = make(rt, alloc, start, begun, case);
        if !outcome.is_explained(case.kind, message, plain) {
            return Ok((Some(case.wrong(start.handles, &outcome)), true));
        }
        if !outcome.came {
            return Ok((None, false));
        }
        if outcome.came_whole {
            break;
        }
    }
    Ok((None, true))
}

/// The same at each of its operations, from so many steps of the first one on.
fn wrong_beside<R: Wait>(
    rt: &R,
    alloc: Global,
    start: Start,
    mut case: Case,
) -> Result<Option<Wrong>, AllocError> {
    if !case.is_possible(start) {
        return Ok(None);
    }
    case.turn = NEVER;
    let listened = make(rt, alloc, start, start.begin(alloc)?, case).listened;
    for turn in 1..NEVER {
        if turn > FIRST && turn.saturating_add(BEFORE) < listened {
            continue;
        }
        case.turn = turn;
        let (wrong, came) = wrong_at(rt, alloc, start, case)?;
        if wrong.is_some() {
            return Ok(wrong);
        }
        if !came {
            break;
        }
    }
    Ok(None)
}

/// The same of these calls, of which the call and the first other one may each be either of two on one list, and beside one handle of each
/// kind or, where handles are counted, two.
fn wrong_pair<R: Wait>(
    rt: &R,
    alloc: Global,
    mut start: Start,
    mut case: Case,
) -> Result<Option<Wrong>, AllocError> {
    let most = if case.kind.counts() || case.first.counts() {
        2
    } else {
        1
    };
    let listeners = if case.share_list() { 2 } else { 1 };
    for more in 0..most {
        start.handles = 1_usize.saturating_add(more);
        for who in 0..listeners {
            case.who = who;
            let wrong = wrong_beside(rt, alloc, start, case)?;
            if wrong.is_some() {
                return Ok(wrong);
            }
        }
    }
    Ok(None)
}

/// The same of this call beside each other one, and beside each two that come whole.
fn wrong_of<R: Wait>(
    rt: &R,
    alloc: Global,
    start: Start,
    kind: Kind,
) -> Result<Option<Wrong>, AllocError> {
    let mut case = Case {
        kind,
        first: kind,
        second: Kind::IsClosed,
        who: 0,
        turn: NEVER,
        steps: 1,
    };
    for first in OTHERS {
        case.first = first;
        let wrong = wrong_pair(rt, alloc, start, case)?;
        if wrong.is_some() {
            return Ok(wrong);
        }
    }
    case.steps = ALL - 1;
    for first in CHANGES {
        for second in CHANGES {
            (case.first, case.second) = (first, second);
            let wrong = wrong_pair(rt, alloc, start, case)?;
            if wrong.is_some() {
                return Ok(wrong);
            }
        }
    }
    Ok(None)
}

/// A channel: whether it has a bound, how many messages have passed and are in it, and whether it is closed and somebody waits.
type Place = (usize, [u64; 2], [bool; 2]);

/// The first of these channels and what no list explains of this call there.
fn wrong_in<R: Wait>(
    rt: &R,
    alloc: Global,
    form: QueueForm,
    starts: Starts,
    kind: Kind,
) -> Result<Option<(Place, Wrong)>, AllocError> {
    for (passed, messages, closed, waited) in starts {
        let start = Start {
            form,
            bound: match form {
                QueueForm::Bounded(bound) => bound,
                QueueForm::Unbounded => MANY,
            },
            passed,
            messages,
            closed,
            waited,
            handles: 1,
        };
        if let Some(wrong) = wrong_of(rt, alloc, start, kind)? {
            let place = (start.bound, [passed, messages], [closed, waited]);
            return Ok(Some((place, wrong)));
        }
    }
    Ok(None)
}

/// These calls, each on each channel of each form, beside others.
fn check<R: Wait + Abort>(rt: &R, alloc: Global, kinds: &[Kind]) {
    let forms = [
        (QueueForm::Bounded(1), ONE_SLOT),
        (QueueForm::Bounded(2), RING_OF_TWO),
        (QueueForm::Unbounded, UNBOUNDED),
    ];
    for (form, starts) in forms {
        for kind in kinds {
            let wrong = wrong_in(rt, alloc, form, starts, *kind).expect(rt, "memory");
            expect_none(rt, kind, &wrong);
        }
    }
}

/// Each poll on this list.
fn polls(line: WaitList) -> [Kind; 5] {
    [
        Kind::Poll(line, How::Anew),
        Kind::Poll(line, How::Unlisted),
        Kind::Poll(line, How::Again),
        Kind::Poll(line, How::Delisted),
        Kind::Poll(line, How::Unwoken),
    ]
}

#[test]
fn a_send_beside_others(rt: HostRuntime) {
    check(&rt, rt.alloc(), &[Kind::TrySend]);
}

#[test]
fn a_displacing_send_beside_others(rt: HostRuntime) {
    check(&rt, rt.alloc(), &[Kind::ForceSend]);
}

#[test]
fn a_receive_beside_others(rt: HostRuntime) {
    check(&rt, rt.alloc(), &[Kind::TryRecv]);
}

#[test]
fn a_receive_of_two_beside_others(rt: HostRuntime) {
    check(&rt, rt.alloc(), &[Kind::RecvMany, Kind::RecvManyInto]);
}

#[test]
fn a_walk_beside_others(rt: HostRuntime) {
    check(&rt, rt.alloc(), &[Kind::Walk(false), Kind::Walk(true)]);
}

#[test]
fn a_closing_beside_others(rt: HostRuntime) {
    let kinds = [Kind::Close, Kind::Poll(WaitList::Closings, How::Leaves)];
    check(&rt, rt.alloc(), &kinds);
    check(&rt, rt.alloc(), &polls(WaitList::Closings));
}

#[test]
fn a_polled_send_beside_others(rt: HostRuntime) {
    check(&rt, rt.alloc(), &polls(WaitList::Sends));
    check(&rt, rt.alloc(), &[Kind::Poll(WaitList::Sends, How::Leaves)]);
}

#[test]
fn a_polled_receive_beside_others(rt: HostRuntime) {
    check(&rt, rt.alloc(), &polls(WaitList::Receives));
    check(
        &rt,
        rt.alloc(),
        &[Kind::Poll(WaitList::Receives, How::Leaves)],
    );
}

#[test]
fn a_stream_beside_others(rt: HostRuntime) {
    // A stream isn't given up; its listener leaves when the receiver is dropped.
    check(&rt, rt.alloc(), &polls(WaitList::Streams));
}

#[test]
fn a_send_that_blocks_beside_others(rt: HostRuntime) {
    let kinds = [
        Kind::Blocks(WaitList::Sends, false),
        Kind::Blocks(WaitList::Sends, true),
    ];
    check(&rt, rt.alloc(), &kinds);
}

#[test]
fn a_receive_that_blocks_beside_others(rt: HostRuntime) {
    let kinds = [
        Kind::Blocks(WaitList::Receives, false),
        Kind::Blocks(WaitList::Receives, true),
    ];
    check(&rt, rt.alloc(), &kinds);
}

#[test]
fn handles_made_beside_others(rt: HostRuntime) {
    let kinds = [
        Kind::CloneHandle(Side::Senders),
        Kind::CloneHandle(Side::Receivers),
        Kind::Upgrade(Side::Senders),
        Kind::Upgrade(Side::Receivers),
    ];
    check(&rt, rt.alloc(), &kinds);
}

#[test]
fn handles_dropped_beside_others(rt: HostRuntime) {
    let kinds = [
        Kind::DropHandle(Side::Senders),
        Kind::DropHandle(Side::Receivers),
        Kind::DropStream,
    ];
    check(&rt, rt.alloc(), &kinds);
}

#[test]
fn questions_beside_others(rt: HostRuntime) {
    let kinds = [
        Kind::IsClosed,
        Kind::IsEmpty,
        Kind::IsFull,
        Kind::IsTerminated,
        Kind::Len,
        Kind::Capacity,
        Kind::HandleCount(Side::Senders),
        Kind::HandleCount(Side::Receivers),
    ];
    check(&rt, rt.alloc(), &kinds);
}
