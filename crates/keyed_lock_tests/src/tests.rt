use crate::counters::{self, ROUNDS, THREADS};
use crate::drops::drops_of_three;
use crate::lists::Lists;
use std::test::*;

// Threads increment behind four locks, and hold them for long now and then, so that others sleep. No increment is lost.
#[test]
fn no_increment_is_lost(rt: HostRuntime) {
    let Ok(counts) = counters::increment_at_once(&rt, rt.alloc()) else {
        return;
    };
    let each = (ROUNDS * THREADS / 4) as u64;
    assert_eq!(rt; counts, [each; 4]);
}

// Who has the value of one lock takes that of another lock of the table.
#[test]
fn two_locks_of_a_table_are_held_at_once(rt: HostRuntime) {
    let Ok(numbers) = counters::counters(rt.alloc(), 7) else {
        return;
    };
    assert_eq!(rt; counters::add(&rt, &numbers, 1, 0), (7, 1));
    assert_eq!(rt; counters::counts_at_once(&rt, &numbers), (0, 1));
}

// A thread that sleeps until a value is given back is woken then.
#[test]
fn a_thread_that_sleeps_is_woken(rt: HostRuntime) {
    assert!(rt; counters::wakes(rt, rt.alloc()) != Some(false));
}

// A seat of another table lies in a lock beside its list, and both change together.
#[test]
fn lists_lie_beside_seats_of_another_table(rt: HostRuntime) {
    let Ok(lists) = Lists::new(rt.alloc()) else {
        return;
    };
    let is_pushed = lists.push(&rt, 1, 5).is_ok() && lists.push(&rt, 1, 6).is_ok();
    assert!(rt; !is_pushed || lists.look(&rt, 1) == (2, 2));
    assert_eq!(rt; lists.look(&rt, 0), (0, 0));
}

// Each value is dropped once, with its locks or because there is no memory for them.
#[test]
fn values_are_dropped_with_their_locks(rt: HostRuntime) {
    assert_eq!(rt; drops_of_three(rt.alloc()), 3);
}
