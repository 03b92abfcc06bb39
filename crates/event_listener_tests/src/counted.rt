//! What a client of a recorded event knows of its record by contract.
ghost use Rattle.std.specs.Prelude.{◌≡◌, ◌+◌, ◌<◌, ◌≤◌, length};

use crate::checks::expect_equal;
use crate::notices::Nobody;
use event_listener::key::Key;
use event_listener::recorded::{RecordedCall, RecordedEvent};
use std::alloc::AllocGlobal;
use std::marker::Brand;
use std::sync::Wait;
use std::sync::ledger::{Blank, Ledger, Share};

/// A listener gets a task, and leaves: how many of these calls were accepted.
fn register_and_leave<L: Ledger, R: Wait>(
    rt: &R,
    event: &RecordedEvent<u8, u8, L>,
    mine: &mut Share<L>,
    key: Key,
) -> usize
    requires { 0 < mine.old.parts }
    ensures counted { mine.new.amount ≡ mine.old.amount + result }
    ensures parts { mine.new.parts ≡ mine.old.parts }
    ensures most { result ≤ 2 }
{
    let registered = event.register(rt, mine, key, 7).is_ok();
    let left = event.remove(rt, mine, key, false, &mut Nobody).is_ok();
    usize::from(registered) + usize::from(left)
}

/// A listener comes, and leaves, and so once more by a key that names nobody. The record has as many entries as calls were
/// accepted: the client has all parts of the ledger, so its share's amount is the book's total.
fn come_and_leave<L: Ledger, R: Wait + AllocGlobal>(
    rt: &R,
    blank: Blank,
) -> (Vec<RecordedCall<u8, u8>>, usize)
    requires name { blank.name ≡ L.name }
    requires parts { (blank.parts ≡ L.parts) × (blank.parts ≡ 1) }
    ensures { length result.0.items ≡ result.1 }
{
    let (book, mut mine) = blank.open::<L>();
    let event = RecordedEvent::<u8, u8, L>::new(rt.alloc(), book);
    let mut accepted = 0;
    if let Ok(key) = event.insert(rt, &mut mine) {
        let first = register_and_leave(rt, &event, &mut mine, key);
        let second = register_and_leave(rt, &event, &mut mine, key);
        accepted = 1 + first + second;
    }
    let (_, calls, mut book) = event.into_parts();
    book.audit(&mut mine);
    (calls, accepted)
}

#[test]
fn a_record_is_as_long_as_its_share_counts(rt: HostRuntime) {
    let (calls, accepted) = come_and_leave::<Brand, HostRuntime>(&rt, Blank::new(1));
    expect_equal(&rt, &(calls.len(), accepted), &(3, 3));
}
