//! What can be seen of a script's text without a second account of the channel.

use crate::inputs::Fault;
use crate::inputs::mutate::{after_line, between};
use crate::inputs::pieces::{PieceReader, PieceWriter};
use crate::random::Random;
use channel_world::script::{ScriptEnd, run_script};
use std::alloc::Global;

/// The text of a script, and how it ended.
#[derive(Drop, PartialEq, Eq)]
struct Ran {
    text: Vec<u8>,
    end: ScriptEnd,
}

fn run(script: &[u8], alloc: Global) -> Ran {
    let mut text = Vec::new(alloc);
    let mut reader = script;
    let end = run_script(alloc, &mut reader, &mut text);
    Ran { text, end }
}

/// The same in pieces, up to so many bytes of text.
fn run_in_pieces(script: &[u8], seed: u64, limit: usize, alloc: Global) -> Ran {
    let mut reader = PieceReader {
        text: script,
        random: Random::new(seed, 3),
    };
    let mut writer = PieceWriter {
        held: Vec::new(alloc),
        limit,
        random: Random::new(seed, 4),
    };
    let end = run_script(alloc, &mut reader, &mut writer);
    Ran {
        text: writer.held,
        end,
    }
}

fn line_ends(text: &[u8]) -> usize {
    let mut ends = 0usize;
    for byte in text {
        if *byte == b'\n' {
            ends = ends.saturating_add(1);
        }
    }
    ends
}

/// How many lines a script has.
fn lines_of(script: &[u8]) -> usize {
    let ends = line_ends(script);
    if script.is_empty() || script.ends_with(b"\n") {
        ends
    } else {
        ends.saturating_add(1)
    }
}

/// Whether a line, with its end or without, says why a script ended early.
fn is_reason(whole: &[u8]) -> bool {
    let line = whole.strip_suffix(b"\n").unwrap_or(whole);
    line.starts_with(b"line ")
        || line == b"capacity must be positive".as_slice()
        || line == b"want of memory".as_slice()
        || line == b"read fault".as_slice()
}

/// How many lines say so.
fn reasons(text: &[u8]) -> usize {
    let (mut reasons, mut from) = (0usize, 0usize);
    for _ in 0..=line_ends(text) {
        let to = after_line(text, from);
        reasons = reasons.saturating_add(usize::from(is_reason(between(text, from, to))));
        from = to;
    }
    reasons
}

/// The line by which such an end is told. None of a read fault.
fn reason_of(end: ScriptEnd, alloc: Global) -> Option<String> {
    match end {
        ScriptEnd::Done => Some(String::new(alloc)),
        ScriptEnd::Unreadable { line } => { format!(in alloc; "line {line}: can't be read\n").ok() }
        ScriptEnd::Capacity => format!(in alloc; "capacity must be positive\n").ok(),
        ScriptEnd::Memory => format!(in alloc; "want of memory\n").ok(),
        ScriptEnd::Fault => None,
    }
}

/// Whether the text ends by the reason of the script's end, which stands in it once, or by none.
fn ends_by_its_reason(ran: &Ran, alloc: Global) -> bool {
    let text = ran.text.as_slice();
    let due = usize::from(ran.end != ScriptEnd::Done);
    match reason_of(ran.end, alloc) {
        Some(reason) => text.ends_with(reason.as_bytes()) && reasons(text) == due,
        None => false,
    }
}

/// Whether there is a line of text for each command that was read.
fn answers_each(ran: &Ran, commands: usize) -> bool {
    let text = ran.text.as_slice();
    let lines = line_ends(text);
    let is_whole = text.is_empty() || text.ends_with(b"\n");
    is_whole
        && match ran.end {
            ScriptEnd::Done => lines == commands,
            ScriptEnd::Unreadable { line } => lines == line as usize && lines <= commands,
            ScriptEnd::Capacity => lines == 1,
            ScriptEnd::Memory => lines <= commands,
            ScriptEnd::Fault => false,
        }
}

/// So many lines of a text.
fn first_lines(text: &[u8], count: usize) -> &[u8] {
    let mut to = 0usize;
    for _ in 0..count {
        to = after_line(text, to);
    }
    between(text, 0, to)
}

/// Whether a number of so many digits stands in a script.
fn has_number(script: &[u8], least: usize, most: usize) -> bool {
    let mut digits = 0usize;
    for byte in script {
        if byte.is_ascii_digit() {
            digits = digits.saturating_add(1);
        } else if least <= digits && digits <= most {
            return true;
        } else {
            digits = 0;
        }
    }
    least <= digits && digits <= most
}

/// Whether a front of the script's lines gives the front of the text.
fn agrees_in_front(script: &[u8], ran: &Ran, random: &mut Random, alloc: Global) -> bool {
    let to = after_line(script, random.below(script.len()));
    let front = between(script, 0, to);
    let text = first_lines(ran.text.as_slice(), lines_of(front));
    run(front, alloc).text.as_slice() == text
}

/// Whether a write that fails after some bytes leaves these.
fn leaves_a_front(script: &[u8], ran: &Ran, seed: u64, limit: usize, alloc: Global) -> bool {
    let held = run_in_pieces(script, seed, limit, alloc);
    let is_whole = limit >= ran.text.len();
    let end = if is_whole { ran.end } else { ScriptEnd::Fault };
    held.end == end && held.text.as_slice() == between(ran.text.as_slice(), 0, limit)
}

/// Runs a script, once more, in pieces, with a writer that fails, and its first lines alone; how many lines its text has. One that
/// asks for much memory, which some machine may have, isn't run; memory is wanted only where one asks for more than there is.
pub fn check_script(script: &[u8], seed: u64, alloc: Global) -> Result<u64, Fault> {
    if has_number(script, 6, 14) {
        return Ok(0);
    }
    let ran = run(script, alloc);
    let mut random = Random::new(seed, 5);
    let limit = random.below(ran.text.len());
    if !ends_by_its_reason(&ran, alloc) {
        Err("the text doesn't end by one reason")
    } else if ran.end == ScriptEnd::Memory && !has_number(script, 15, usize::MAX) {
        Err("want of memory")
    } else if !answers_each(&ran, lines_of(script)) {
        Err("the text hasn't a line for each command")
    } else if run(script, alloc) != ran {
        Err("the second run gives another text")
    } else if !leaves_a_front(script, &ran, seed, usize::MAX, alloc) {
        Err("reads and writes in pieces give another text")
    } else if !leaves_a_front(script, &ran, seed, limit, alloc) {
        Err("a failed write leaves no front of the text")
    } else if !agrees_in_front(script, &ran, &mut random, alloc) {
        Err("the first lines alone give another text")
    } else {
        Ok(line_ends(ran.text.as_slice()) as u64)
    }
}
