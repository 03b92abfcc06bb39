//! Plays the rows of [`script_rows`](crate::script_rows), from a slice of bytes to a list of bytes.
//!
//! | Line | What it says |
//! |---|---|
//! | `LINE = ANSWER` | a line of the script, and what it writes |
//! | `LINE` | a line that is not reached |
//! | `without its last line end` | the script ends before the end of its last line |
//! | `ends END, status N` | the script is run, writes just the answers, and ends so, with this exit status |

use crate::checks::expect_equal;
use crate::script_rows::{LINES, OTHERS, POLLS};
use channel_world::script::run_script;
use std::alloc::{AllocError, Global};

/// A script, and the text that it is to write.
#[derive(Drop)]
struct Script {
    script: String,
    text: String,
}

impl Script {
    fn clear(&mut self) {
        self.script.clear();
        self.text.clear();
    }

    /// Adds a line of the script, with what it is to write.
    fn add(&mut self, line: &str) -> Result<(), AllocError> {
        match line.split_once(" = ") {
            Some((line, answer)) => {
                write!(self.script, "{line}\n")?;
                write!(self.text, "{answer}\n")
            }
            None => write!(self.script, "{line}\n"),
        }
    }

    /// Runs the script. Adds a line to `wrong` where it writes another text, or ends otherwise.
    fn end(&self, alloc: Global, end: &str, wrong: &mut String) -> Result<(), AllocError> {
        let mut out = Vec::new(alloc);
        let ended = run_script(alloc, &mut self.script.as_bytes(), &mut out);
        let said = format!(in alloc; "{ended:?}, status {}", ended.status())?;
        if said.as_str() != end || out.as_slice() != self.text.as_bytes() {
            write!(wrong, "{}ends {said}\n", self.script)?;
        }
        Ok(())
    }
}

/// Plays all rows, up to the end of each: how many there are, behind those that are not so.
fn play(alloc: Global, text: &str) -> Result<String, AllocError> {
    let mut wrong = String::new(alloc);
    let mut script = Script {
        script: String::new(alloc),
        text: String::new(alloc),
    };
    let mut rows = 0u64;
    for line in text.lines() {
        if line.starts_with("row ") {
            rows = rows.wrapping_add(1);
            script.clear();
        } else if line == "without its last line end" {
            let _ = script.script.pop();
        } else if let Some(end) = line.strip_prefix("ends ") {
            script.end(alloc, end, &mut wrong)?;
        } else if !line.is_empty() && !line.starts_with('#') {
            script.add(line)?;
        }
    }
    write!(wrong, "{rows} rows")?;
    Ok(wrong)
}

#[test]
fn scripts(rt: HostRuntime) {
    for (text, rows) in [(LINES, "19 rows"), (POLLS, "17 rows"), (OTHERS, "18 rows")] {
        let played = play(rt.alloc(), text).expect(&rt, "memory");
        expect_equal(&rt, &played.as_str(), &rows);
    }
}
