use crate::words::Words;
use std::alloc::{AllocError, Global};

/// What makes the calls of rows.
pub trait Player {
    /// Lets go what the row before left, and begins anew.
    fn begin(&mut self);

    /// Makes the call that these words name, and writes what it answers; nothing where that is `ok`.
    fn play(&mut self, words: &mut Words<'_>, answer: &mut String) -> Result<(), AllocError>;
}

/// A call that answered another thing than its row says.
#[derive(Debug, Drop)]
pub struct Differs<'a> {
    /// The name of the row.
    pub row: &'a str,
    /// The call.
    pub call: &'a str,
    /// What it is to answer.
    pub wanted: &'a str,
    /// What it answered.
    pub found: String,
}

/// What came of playing rows.
#[derive(Debug, Drop)]
pub struct Played<'a> {
    /// How many rows were begun.
    pub rows: u64,
    /// How many calls were made.
    pub calls: u64,
    /// The first call that answered another thing than its row says. None behind it was made.
    pub differs: Option<Differs<'a>>,
}

/// The parts of a line: the call, and what it is to answer.
fn parts(line: &str) -> (&str, &str) {
    match line.split_once(" = ") {
        Some((call, wanted)) => (call, wanted),
        None => (line, "ok"),
    }
}

/// Makes one call: what it answered.
fn answer_of<P: Player>(alloc: Global, player: &mut P, call: &str) -> Result<String, AllocError> {
    let mut words = Words::new(call);
    let mut found = String::new(alloc);
    player.play(&mut words, &mut found)?;
    if !words.is_read() {
        found.push_str(" can't be read")?;
    }
    if found.is_empty() {
        found.push_str("ok")?;
    }
    Ok(found)
}

/// Makes one call. What it answered, where that is another thing than it is to answer.
fn play_call<P: Player>(
    alloc: Global,
    player: &mut P,
    call: &str,
    wanted: &str,
) -> Result<Option<String>, AllocError> {
    let found = answer_of(alloc, player, call)?;
    Ok(if found.as_str() == wanted {
        None
    } else {
        Some(found)
    })
}

/// Makes the calls of these lines, and says what they answered, with commas between: for a row whose answers hang together.
pub fn answers_of<P: Player>(
    alloc: Global,
    lines: &str,
    player: &mut P,
) -> Result<String, AllocError> {
    let mut answers = String::new(alloc);
    player.begin();
    for line in lines.lines() {
        if !answers.is_empty() {
            answers.push_str(", ")?;
        }
        let answer = answer_of(alloc, player, line)?;
        answers.push_str(answer.as_str())?;
    }
    Ok(answers)
}

/// Plays all rows of a text, up to the first call that answers another thing than its row says.
pub fn play_rows<'a, P: Player>(
    alloc: Global,
    text: &'a str,
    player: &mut P,
) -> Result<Played<'a>, AllocError> {
    let mut played = Played {
        rows: 0,
        calls: 0,
        differs: None,
    };
    let mut row = "";
    for line in text.lines() {
        let line = line.trim();
        if let Some(name) = line.strip_prefix("row ") {
            row = name;
            played.rows = played.rows.wrapping_add(1);
            player.begin();
        } else if !line.is_empty() && !line.starts_with('#') {
            let (call, wanted) = parts(line);
            played.calls = played.calls.wrapping_add(1);
            if let Some(found) = play_call(alloc, player, call, wanted)? {
                played.differs = Some(Differs {
                    row,
                    call,
                    wanted,
                    found,
                });
                return Ok(played);
            }
        }
    }
    Ok(played)
}
