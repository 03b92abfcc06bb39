//! Scripts.

use crate::checks::{expect_seen, expect_true};
use crate::scarcity::{Attempt, Scarcity, Seen, Tried, made, refused};
use channel_world::script::{ScriptEnd, run_script};
use std::alloc::Global;

/// A script, and its text.
type Lines = (&'static str, &'static str);

/// Operations and handles are made, messages wait, are settled and received at once.
const SCRIPT: &str = "\
unbounded
clone q r
downgrade w s
recv a r
recv b r
poll a
poll b
next q
send c s 1
poll c
settle
try_send s 3
try_send s 4
try_send s 5
recv_many r 9
close s
";

const TEXT: &str = "\
ok
ok
ok
ok
ok
pending
pending
pending
ok
ok wakes a q
polls 3: a ok 1, q pending, b pending
ok wakes b q
ok
ok
ok 3 4 5
true
";

const LONG: [Lines; 1] = [(SCRIPT, TEXT)];

/// How many scripts have one line behind the first.
const COUNT: usize = 22;

/// A line of each kind, alone behind the first one: no line before it has let go of memory that it could get.
const SHORT: [Lines; COUNT] = [
    ("unbounded\ntry_send s 3\n", "ok\nok\n"),
    ("bounded 2\ntry_send s 3\n", "ok\nok\n"),
    ("unbounded\nforce_send s 3\n", "ok\nok\n"),
    ("bounded 1\ntry_recv r\n", "ok\nempty\n"),
    ("unbounded\nrecv_many r 9\n", "ok\nempty\n"),
    ("unbounded\nsend c s 1\n", "ok\nok\n"),
    ("unbounded\nrecv a r\n", "ok\nok\n"),
    ("unbounded\nclosed e s\n", "ok\nok\n"),
    ("unbounded\nnext r\n", "ok\npending\n"),
    ("unbounded\npoll a\n", "ok\nrefused 3\n"),
    ("unbounded\ndrop s\n", "ok\nok\n"),
    ("unbounded\nclose s\n", "ok\ntrue\n"),
    ("unbounded\nclone q r\n", "ok\nok\n"),
    ("unbounded\ndowngrade w s\n", "ok\nok\n"),
    ("unbounded\nupgrade t s\n", "ok\nrefused 7\n"),
    ("bounded 2\nis_full s\n", "ok\nfalse\n"),
    ("unbounded\nsame_channel s s\n", "ok\ntrue\n"),
    ("unbounded\nis_terminated r\n", "ok\nfalse\n"),
    ("unbounded\nlen r\n", "ok\n0\n"),
    ("unbounded\nsender_count r\n", "ok\n1\n"),
    ("bounded 2\ncapacity r\n", "ok\n2\n"),
    ("unbounded\nsettle\n", "ok\npolls 0\n"),
];

/// The last line of a script to which memory was refused.
const LAST_LINE: &[u8] = b"want of memory\n";

/// A script, and what it writes into, with room for all of it.
#[derive(Drop)]
struct Script {
    alloc: Global,
    script: &'static str,
    text: &'static str,
    out: Vec<u8>,
    /// How many bytes stood before the last line when it was refused last.
    written: usize,
}

impl Script {
    /// Whether some lines of the text stand here, no fewer than at the last refusal, and then the last line.
    fn is_cut(&self) -> bool {
        let Some(lines) = self.out.strip_suffix(LAST_LINE) else {
            return false;
        };
        let is_whole = lines.is_empty() || lines.ends_with(b"\n");
        is_whole && self.text.as_bytes().starts_with(lines) && lines.len() >= self.written
    }
}

impl Attempt for Script {
    fn make(&mut self) -> Tried {
        self.out.clear();
        let end = run_script(self.alloc, &mut self.script.as_bytes(), &mut self.out);
        match end {
            ScriptEnd::Done => made(self.out.as_slice() == self.text.as_bytes()),
            ScriptEnd::Memory => {
                let is_cut = self.is_cut();
                self.written = self.out.len().saturating_sub(LAST_LINE.len());
                refused(is_cut)
            }
            _ => Tried::Wrong,
        }
    }
}

/// Runs each script until it isn't refused; then whether its last refusal left some lines of each.
fn run_until_done(alloc: Global, scripts: &[Lines]) -> Option<(Seen, bool)> {
    let mut script = Script {
        alloc,
        script: "",
        text: "",
        out: Vec::with_capacity(alloc, 1_000).ok()?,
        written: 0,
    };
    let mut some = true;
    let mut scarcity = Scarcity::new(alloc);
    for (lines, text) in scripts {
        script.script = lines;
        script.text = text;
        script.written = 0;
        scarcity.refuse_each(&mut script);
        some = some & (script.written > 0);
    }
    Some((scarcity.end(), some))
}

/// With more memory at hand a script comes as far or farther, and ends with the line that says what it wanted.
#[test]
fn scripts(rt: HostRuntime) {
    let (seen, some) = run_until_done(rt.alloc(), LONG.as_slice()).expect(&rt, "memory");
    expect_seen(&rt, &seen, 1, 84);
    expect_true(&rt, some);
}

/// The same of a line of each kind.
#[test]
fn lines_of_each_kind(rt: HostRuntime) {
    let (seen, some) = run_until_done(rt.alloc(), SHORT.as_slice()).expect(&rt, "memory");
    expect_seen(&rt, &seen, 22, 493);
    expect_true(&rt, some);
}
