//! Runs a script over one channel: reads it from standard input, and writes a reply line for each command to standard
//! output. Arguments are ignored, and nothing goes to standard error.
//!
//! A crate of the kit is a library or a program, never both, and nothing can stand on a program: so the work is done in `channel_world`.
#![tactic(auto)]

use channel_world::script::run_script;
use std::io;
use std::process::ExitCode;

fn main(rt: HostRuntime) -> ExitCode {
    let end = run_script(rt.alloc(), &mut rt.reader(), &mut io::writer(&rt));
    ExitCode::from(end.status())
}
