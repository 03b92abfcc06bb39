//! Rows in which many streams are pending, written by loops.

use crate::checks::expect_rows;
use crate::worlds::Worlds;
use std::alloc::AllocError;

/// Writes that the streams up to this number are pending, those of clones of the receiver.
fn write_pending(text: &mut String, to: u32) -> Result<(), AllocError> {
    for number in 2..to {
        write!(text, "clone r {number} = made\nnext {number} = pending\n")?;
    }
    Ok(())
}

/// Writes the names of the streams between these numbers, each with what stands behind it.
fn write_streams(text: &mut String, from: u32, to: u32, behind: &str) -> Result<(), AllocError> {
    for number in from..to {
        write!(text, " stream {number}{behind}")?;
    }
    Ok(())
}

/// A message wakes a thousand streams: the first of them has it, the others wait on, and each is polled once. Room is asked for two
/// polls of each, not for a poll of each by each.
fn write_message(text: &mut String) -> Result<(), AllocError> {
    text.push_str("row a_message_for_a_crowd_of_streams_is_settled\nunbounded\n")?;
    write_pending(text, 1002)?;
    text.push_str("try_send s 7 = sent wakes")?;
    write_streams(text, 2, 1002, "")?;
    text.push_str("\nnumbers = 1 1000 1000 0\nsettle = stream 2 next 7")?;
    write_streams(text, 3, 1002, " pending")?;
    text.push_str("\nnumbers = 0 999 0 0\n")
}

/// A closing wakes thirty thousand streams, each of which ends. Room is asked for as many polls and as many more, which is little; room
/// for a poll of each by each would be tens of gigabytes, which many machines refuse.
fn write_closing(text: &mut String) -> Result<(), AllocError> {
    text.push_str("row a_closing_for_a_crowd_of_streams_is_settled\nunbounded\n")?;
    write_pending(text, 30_002)?;
    text.push_str("close s = true wakes")?;
    write_streams(text, 2, 30_002, "")?;
    text.push_str("\nnumbers = 0 30000 30000 0\nsettle =")?;
    write_streams(text, 2, 30_002, " over")?;
    text.push_str("\nnumbers = 0 0 0 0\n")
}

#[test]
fn a_message_for_a_crowd_of_streams_is_settled(rt: HostRuntime) {
    let mut text = String::new(rt.alloc());
    write_message(&mut text).expect(&rt, "memory");
    expect_rows(&rt, text.as_str(), &mut Worlds::new(rt.alloc()), 1);
}

#[test]
fn a_closing_for_a_crowd_of_streams_is_settled(rt: HostRuntime) {
    let mut text = String::new(rt.alloc());
    write_closing(&mut text).expect(&rt, "memory");
    expect_rows(&rt, text.as_str(), &mut Worlds::new(rt.alloc()), 1);
}
