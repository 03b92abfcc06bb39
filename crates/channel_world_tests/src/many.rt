//! A world that has made a million steps, and has accepted many thousand messages, refuses nothing.

use crate::checks::expect_rows;
use crate::worlds::Worlds;
use std::alloc::AllocError;

/// How many messages go through the channel in one run.
const MESSAGES: u64 = 500;

/// How many runs there are.
const RUNS: u64 = 134;

/// The steps of a send on a ring with room, and of a receive that finds a message, each with its begin.
const STEPS: u64 = 8 + 7;

const _: () = prove!(1_000_000 <= RUNS * MESSAGES * STEPS);

/// What a list of as many sends and receives answers, one after another.
fn write_answers(text: &mut String) -> Result<(), AllocError> {
    for number in 0..MESSAGES {
        write!(text, " sent received {number}")?;
    }
    text.push('\n')
}

/// One run of steps, in which messages are sent and received, one after another.
fn write_steps(text: &mut String) -> Result<(), AllocError> {
    for number in 0..MESSAGES {
        write!(
            text,
            "then begin 0 7 try_send s {number}\nthen begin 0 6 try_recv r\n"
        )?;
    }
    text.push_str("run_steps =")?;
    write_answers(text)
}

/// As many calls, made alone.
fn write_calls(text: &mut String) -> Result<(), AllocError> {
    for number in 0..MESSAGES {
        write!(text, "later try_send s {number}\nlater try_recv r\n")?;
    }
    text.push_str("run_calls =")?;
    write_answers(text)
}

#[test]
fn a_million_steps_are_made(rt: HostRuntime) {
    let mut worlds = Worlds::new(rt.alloc());
    let mut steps = String::new(rt.alloc());
    write_steps(&mut steps).expect(&rt, "memory");
    expect_rows(
        &rt,
        "row a_million_steps_are_made\nbounded 2\n",
        &mut worlds,
        1,
    );
    for _ in 0..RUNS {
        expect_rows(&rt, steps.as_str(), &mut worlds, 0);
    }
    let mut calls = String::new(rt.alloc());
    write_calls(&mut calls).expect(&rt, "memory");
    expect_rows(&rt, "is_quiet = true\n", &mut worlds, 0);
    expect_rows(&rt, calls.as_str(), &mut worlds, 0);
}
