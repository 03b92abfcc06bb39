//! Steps of parties and what they did, as text.

use crate::replies::{OF_SCRIPTS, write_reply, write_woken};
use channel_calls::mark::Mark;
use channel_world::step::{Entry, Step};
use std::alloc::AllocError;
use std::collections::VecDeque;

/// The mark in small letters.
pub(crate) fn mark_word(mark: Mark) -> &'static str {
    match mark {
        Mark::Nothing => "nothing",
        Mark::Append => "append",
        Mark::Take => "take",
        Mark::TakeDisplaced => "take displaced",
        Mark::Replace => "replace",
        Mark::Close => "close",
        Mark::SenderUp => "sender up",
        Mark::SenderDown => "sender down",
        Mark::ReceiverUp => "receiver up",
        Mark::ReceiverDown => "receiver down",
    }
}

/// Who made a step, and what it did to the channel: `P begins` or `P MARK`.
fn write_head(step: &Step<u64>, mark: Mark, text: &mut String) -> Result<(), AllocError> {
    match step {
        Step::Begin { party, call: _ } => write!(text, "{} begins", party.0),
        Step::Step { party } => write!(text, "{} {}", party.0, mark_word(mark)),
    }
}

/// Writes a step with its entry, as a line of its own.
///
/// The party stands first. Behind it stands `begins`, or the step's mark in small letters: what it did to the channel. Where the
/// step ended its call, a colon follows and then the reply; and ` wakes`, where it woke somebody, with each name in order. Replies
/// are in the words of docs/SCRIPT.md. Operations and receivers have their numbers in place of names. A reply that refuses for
/// memory or serials is `want of memory`.
///
/// # Errors
///
/// Where memory is refused, part of the line may have been written.
pub fn write_step(
    step: &Step<u64>,
    entry: &Entry<u64>,
    text: &mut String,
) -> Result<(), AllocError> {
    write_head(step, entry.mark, text)?;
    if let Some(reply) = &entry.reply {
        text.push(':')?;
        write_reply(&OF_SCRIPTS, reply, text)?;
    }
    write_woken(&OF_SCRIPTS, entry.woken.as_slice(), text)?;
    text.push('\n')
}

/// Writes the steps of a list with the entries of its run, each as a line, as [`write_step`] does; the steps that have no entry,
/// since they were not made, are left out. A run takes the steps that it makes out of its list, so the list is built once more.
///
/// # Errors
///
/// Where memory is refused, a front of the text may have been written.
pub fn write_steps(
    steps: &VecDeque<Step<u64>>,
    trace: &[Entry<u64>],
    text: &mut String,
) -> Result<(), AllocError> {
    for (step, entry) in steps.iter().zip(trace.iter()) {
        write_step(step, entry, text)?;
    }
    Ok(())
}
