//! Plays the rows of [`call_rows`](crate::call_rows), [`many_rows`](crate::many_rows), [`step_rows`](crate::step_rows) and
//! [`history_rows`](crate::history_rows).

use crate::call_rows::{BOTH, RECEIVES, SENDS, SETTLINGS, TOLD, WAITS};
use crate::checks::{expect_differs, expect_rows};
use crate::histories::Histories;
use crate::many_rows::MANY;
use crate::step_rows::{ROWS, SEVERAL, WRONG_MARKS};
use crate::worlds::Worlds;
use crate::{call_rows, history_rows, step_rows};

#[test]
fn calls(rt: HostRuntime) {
    let mut worlds = Worlds::new(rt.alloc());
    for (text, rows) in [
        (SENDS, 7),
        (RECEIVES, 4),
        (WAITS, 6),
        (call_rows::REFUSED, 2),
        (BOTH, 3),
        (SETTLINGS, 3),
        (TOLD, 3),
        (MANY, 2),
    ] {
        expect_rows(&rt, text, &mut worlds, rows);
    }
}

#[test]
fn steps_by_names(rt: HostRuntime) {
    let mut worlds = Worlds::new(rt.alloc());
    for (text, rows) in [(ROWS, 9), (step_rows::REFUSED, 3), (SEVERAL, 1)] {
        expect_rows(&rt, text, &mut worlds, rows);
    }
}

/// A row fails whose marks are not those of its steps.
#[test]
fn wrong_marks_are_seen(rt: HostRuntime) {
    let mut worlds = Worlds::new(rt.alloc());
    for text in WRONG_MARKS {
        expect_differs(&rt, text, &mut worlds, "marked");
    }
}

#[test]
fn histories(rt: HostRuntime) {
    let mut histories = Histories::new(rt.alloc()).expect(&rt, "memory");
    for (text, rows) in [
        (history_rows::ORDERS, 10),
        (history_rows::SEVERAL, 5),
        (history_rows::RESTS, 2),
    ] {
        expect_rows(&rt, text, &mut histories, rows);
    }
}
