//! Calls made step by step: over cells that refuse a listener, and what each entry says of its step. Rows of many parties' steps
//! are in `channel_world_tests`, by names.

use crate::checks::{expect_equal, expect_true};
use crate::names::Names;
use crate::said::{Said, answer_of};
use crate::scarce::Scarce;
use channel_calls::ask::{ChannelAsk, lent};
use channel_calls::cells::ChannelCells;
use channel_calls::mark::Mark;
use channel_steps::party::{Entry, Party, begin, step_at};
use channel_steps::start::{Opened, is_quiet, open_channel};
use concurrent_queue::cells::QueueForm;
use event_listener::error::ListenError;
use event_listener::key::Key;
use std::alloc::{AllocError, Global};
use std::test::Fail;

/// Cells with the parties at work on them, and those who were woken.
#[derive(Drop)]
struct Fixture<C> {
    cells: C,
    parties: Vec<Party<u64, u32>>,
    names: Names,
}

fn make_fixture<C>(cells: C, alloc: Global) -> Fixture<C> {
    Fixture {
        cells,
        parties: Vec::new(alloc),
        names: Names {
            woken: Vec::new(alloc),
        },
    }
}

fn one_slot(alloc: Global) -> Result<Opened<u64, u32>, AllocError> {
    open_channel(QueueForm::Bounded(1), alloc)
}

impl<C: ChannelCells<u64, u32> + Drop> Fixture<C> {
    ghost use Rattle.channel_calls.specs.Stands.{AllowsAll};

    /// The only party begins a call. None where there is no room for it.
    fn begin(&mut self, ask: ChannelAsk<u64, u32>) -> Option<Entry<u64>> {
        if self.parties.reserve(1).is_err() {
            return None;
        }
        Some(begin(&mut self.parties, 0, ask))
    }

    /// One step of the call under way. None where there is none.
    fn step(&mut self) -> Option<Entry<u64>>
        requires free { AllowsAll C.stands C.may }
    {
        if self.parties.is_empty() {
            return None;
        }
        Some(step_at(&mut self.parties, 0, &mut self.cells, &mut self.names))
    }

    /// A call that is begun and makes so many steps. What the last one did.
    fn call(&mut self, ask: ChannelAsk<u64, u32>, steps: usize) -> (Said, Option<Key>)
        requires free { AllowsAll C.stands C.may }
    {
        let mut last = self.begin(ask);
        for _ in 0..steps {
            last = self.step();
        }
        in_short(last)
    }
}

/// What an entry says, and the listener that its call leaves to its operation.
fn in_short(entry: Option<Entry<u64>>) -> (Said, Option<Key>) {
    match entry {
        None => (Said::Missing, None),
        Some(entry) => {
            let Entry {
                mark: _,
                reply,
                kept,
            } = entry;
            let key = kept.and_then(|kept| kept.key);
            match reply {
                None => (Said::GoesOn, key),
                Some(reply) => (answer_of(reply), key),
            }
        }
    }
}

#[test]
fn a_poll_that_may_not_listen_is_not_pending(rt: HostRuntime) -> Result<(), Fail> {
    let channel = one_slot(rt.alloc())?.cells;
    let mut cells = Scarce::new(channel, ListenError::NoMemory);
    cells.refused = 1;
    let mut all = make_fixture(cells, rt.alloc());
    let (refused, key) = all.call(ChannelAsk::PollRecv(lent(None), 7), 2);
    let sent = all.call(ChannelAsk::TrySend(5), 5).0;
    let woken = all.cells.woken.is_woken(7);
    let received = all.call(ChannelAsk::TryRecv, 4).0;
    drop(all);
    expect_equal(
        &rt,
        &[refused, sent, received],
        &[Said::Refused, Said::Sent(None), Said::Received(5)],
    );
    expect_true(&rt, key.is_none());
    expect_equal(&rt, &woken, &false);
    Ok(())
}

/// The mark of an entry, and what it says in short.
fn marked(entry: Option<Entry<u64>>) -> (Option<Mark>, Said) {
    let mark = match &entry {
        Some(entry) => Some(entry.mark),
        None => None,
    };
    (mark, in_short(entry).0)
}

/// What the begin of a send did that doesn't wait, and each of its steps: the first one brings the message in, the last one answers,
/// and the others tell whoever waits.
#[test]
fn entries_say_what_their_steps_did(rt: HostRuntime) -> Result<(), Fail> {
    let mut all = make_fixture(one_slot(rt.alloc())?.cells, rt.alloc());
    let begun = marked(all.begin(ChannelAsk::TrySend(5)));
    let first = marked(all.step());
    let told = [marked(all.step()), marked(all.step()), marked(all.step())];
    let going = is_quiet(&all.parties);
    let last = marked(all.step());
    let quiet = is_quiet(&all.parties);
    let over = marked(all.step());
    drop(all);
    let goes_on = (Some(Mark::Nothing), Said::GoesOn);
    expect_equal(&rt, &begun, &goes_on);
    expect_equal(&rt, &first, &(Some(Mark::Append), Said::GoesOn));
    expect_equal(&rt, &told, &[goes_on, goes_on, goes_on]);
    expect_equal(&rt, &last, &(Some(Mark::Nothing), Said::Sent(None)));
    expect_equal(&rt, &over, &(None, Said::Missing));
    expect_equal(&rt, &(going, quiet), &(false, true));
    Ok(())
}
