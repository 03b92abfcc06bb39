//! What recorded events do, row by row: the calls are those of [`Records`](crate::records::Records).

ghost use Rattle.std.specs.Prelude.{◌≡◌};

use crate::checks::expect_rows;
use crate::records::{Records, open};
use std::alloc::AllocGlobal;
use std::marker::Brand;
use std::process::Abort;
use std::sync::Wait;
use std::sync::ledger::{Blank, Ledger};

const ROWS: &str = "
# Three listened, three registered, two notices that told somebody, two polls that took a tag.
row recorded_row
reserve 3 = true
insert
insert
insert
register 0 1 = waits
register 1 2 = waits
register 2 3 = waits
notify_additional 1 10 = 1
notify 1 20 = 0
notify_additional 1 30 = 1
poll 0 = 10
poll 1 = 30
poll 2 = waits
total = 1
told = 0
leave 0 = unknown
woken = 1 2
record = listened listened listened registered registered registered notified 10 notified 30 polled 10 polled 30 told 0 of 1

# A told one leaves, another one is registered again, and a notice has fewer tags than it is for.
row what_was_done_is_recorded
insert
insert
insert
insert
register 0 1 = waits
register 1 2 = waits
register 2 3 = waits
register 3 4 = waits
notify_additional 1 10 = 1
notify 2 20 = 1
notify 2 30 = 0
leave 0 = told
poll 0 = unknown
leave 0 = unknown
register 0 9 = unknown
register 1 8 = 20
poll 2 = 10
poll 3 = waits
notify_scarce 0 = refused after 0
notify_scarce 1 = 1
woken = 1 2 3 4
record = listened listened listened listened registered registered registered registered notified 10 notified 20 told_left registered 20 polled 10 notified 0 told 1 of 1

row tags_come_in_turn
insert
insert
insert
notify_made 2 = 2
poll 0 = 1
poll 1 = 2
poll 2 = waits
record = listened listened listened notified 1 2 polled 1 polled 2 told 0 of 1
";

/// Plays the rows, whose events are counted by this ledger.
fn play<L: Ledger, R: Wait + Abort + AllocGlobal>(rt: &R, blank: Blank)
    requires name { blank.name ≡ L.name }
    requires parts { (blank.parts ≡ L.parts) × (blank.parts ≡ 1) }
{
    let mut records: Records<&R, L> = open(rt, rt.alloc(), blank);
    expect_rows(rt, ROWS, &mut records, 3);
}

#[test]
fn rows(rt: HostRuntime) {
    play::<Brand, HostRuntime>(&rt, Blank::new(1));
}
