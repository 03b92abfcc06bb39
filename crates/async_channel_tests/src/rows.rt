//! Plays the rows of [`handle_rows`](crate::handle_rows) and [`slot_rows`](crate::slot_rows).

use crate::checks::expect_rows;
use crate::handle_rows::{FIFTY, HANDLES, OF_A_THOUSAND_PLACES, OPERATIONS, WITHOUT_A_BOUND};
use crate::lent::{channels_of, play_on};
use crate::owned::Owned;
use crate::slot_rows::STEPS;
use crate::slots::Slots;

#[test]
fn operations(rt: HostRuntime) {
    let channels = channels_of(rt, rt.alloc(), OPERATIONS).expect(&rt, "memory");
    let mut lent = play_on(rt, rt.alloc(), &channels);
    expect_rows(&rt, OPERATIONS, &mut lent, 9);
}

#[test]
fn handles(rt: HostRuntime) {
    let mut owned = Owned::new(rt, rt.alloc());
    expect_rows(&rt, HANDLES, &mut owned, 27);
    expect_rows(&rt, WITHOUT_A_BOUND, &mut owned, 1);
    expect_rows(&rt, FIFTY, &mut owned, 0);
    expect_rows(&rt, OF_A_THOUSAND_PLACES, &mut owned, 1);
    for _ in 0..100 {
        expect_rows(&rt, FIFTY, &mut owned, 0);
    }
}

#[test]
fn steps(rt: HostRuntime) {
    expect_rows(&rt, STEPS, &mut Slots::new(rt.alloc()), 4);
}
