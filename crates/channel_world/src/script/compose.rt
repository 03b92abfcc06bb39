//! Scripts, from bytes to bytes: what a script writes and how it ends, without input or output.
ghost use Rattle.std.specs.Prelude.{◌≡◌, ◌≤◌, ◌<◌, ◌^◌, ◌++◌, ◌∷◌, [], Some, None, IfOk, OnOk, OnErr, OnSome, IfSome};
ghost use Rattle.std.specs.Option.{option_map};
ghost use Rattle.std.specs.Result.{result_unwrap_or};
ghost use Rattle.channel_world_model.specs.State.{start};
ghost use Rattle.channel_world_language.specs.Words.{lines_of};
ghost use Rattle.channel_world_language.specs.Language.{today};
ghost use Rattle.channel_world_language.specs.Said.{said_line};
ghost use Rattle.channel_world.specs.Script.{readable, ending, first_names, opened, script_of_lines};
ghost use Rattle.channel_world.specs.Added.{Extends};
ghost use Rattle.channel_world.specs.View.{at_rest, IsQuiet};

use super::end::ScriptEnd;
use super::scene::Scene;
use crate::world::World;
use channel_calls::error::OpenError;
use channel_world_language::command::{Line, Opening, parse_line, parse_opening};
use channel_world_language::table::{Sort, Table};
use channel_world_language::words::first_line;
use event_listener::id::EventIds;
use std::alloc::{AllocError, Global};

/// A script has at most this many lines.
const LINES_LIMIT: u32 = 1_000_000;

/// Adds a line and its end, or leaves the text as it was.
fn add_line(out: &mut Vec<u8>, line: &[u8]) -> Result<(), AllocError>
    ensures ok { OnOk result (out.new.items ≡ out.old.items ++ line.now ++ 10 ∷ []) }
    ensures err { OnErr result (out.new.items ≡ out.old.items) }
{
    out.reserve(line.len().checked_add(1).ok_or(AllocError)?)?;
    out.extend_from_slice(line)?;
    out.push_reserved(b'\n');
    Ok(())
}

/// What a line of this number says, if it can be read.
fn readable(number: u32, line: &[u8]) -> Option<Line<'_>>
    ensures command { option_map said_line result ≡ readable today number line.entry.now }
    ensures small { OnSome result (number ≤ LINES_LIMIT) }
{
    if number > LINES_LIMIT {
        return None;
    }
    parse_line(line)
}

/// Ends a script at a line that can't be read.
fn end_unreadable(alloc: Global, line: u32, out: &mut Vec<u8>) -> Result<ScriptEnd, AllocError>
    ensures { Extends (ending (ScriptEnd.Unreadable line)) (result_unwrap_or result ScriptEnd.Memory) out.old.items out.new.items }
{
    let text = format!(in alloc; "line {line}: can't be read")?;
    add_line(out, text.as_bytes())?;
    Ok(ScriptEnd::Unreadable { line })
}

/// Ends a script whose channel would hold nothing.
fn end_without_capacity(out: &mut Vec<u8>) -> Result<ScriptEnd, AllocError>
    ensures { Extends (ending ScriptEnd.Capacity) (result_unwrap_or result ScriptEnd.Memory) out.old.items out.new.items }
{
    add_line(out, b"capacity must be positive")?;
    Ok(ScriptEnd::Capacity)
}

/// The first names of a script.
fn first_names<'a>(alloc: Global) -> Result<Table<'a>, AllocError>
    ensures { IfOk result (λ table. table ≡ first_names) }
{
    let mut table = Table::new(alloc);
    table.give(b"s", Sort::Handle)?;
    table.give(b"r", Sort::Handle)?;
    Ok(table)
}

/// A channel of this capacity, or of any number of messages.
fn open(alloc: Global, capacity: Option<usize>) -> Result<World<u64>, OpenError>
    requires { IfSome capacity (λ c. 0 < c) }
    ensures world { IfOk result (λ world. at_rest world ≡ start capacity) }
    ensures quiet { IfOk result (λ world. IsQuiet world) }
    ensures fits { OnOk result (IfSome capacity (λ c. c ≤ 2 ^ 58)) }
{
    let mut ids = EventIds::new();
    match capacity {
        Some(capacity) => World::bounded(alloc, capacity, &mut ids),
        None => World::unbounded(alloc, &mut ids),
    }
}

/// Opens the channel of a script, runs the lines after the first, and adds the text of all.
fn run_opened(
    alloc: Global,
    capacity: Option<usize>,
    text: &[u8],
    out: &mut Vec<u8>,
) -> Result<ScriptEnd, AllocError>
    requires { IfSome capacity (λ c. 0 < c) }
    ensures { Extends (opened today capacity (lines_of text.now)) (result_unwrap_or result ScriptEnd.Memory) out.old.items out.new.items }
{
    let Ok(world) = open(alloc, capacity) else {
        return Err(AllocError);
    };
    let table = first_names(alloc)?;
    let mut scene = Scene { world, table };
    add_line(out, b"ok")?;
    let mut rest = text;
    let mut number = 2u32;
    let mut reply = Vec::new(alloc);
    while let Some((line, after)) = first_line(rest) {
        let Some(command) = readable(number, line) else {
            return end_unreadable(alloc, number, out);
        };
        scene.obey(&command, &mut reply)?;
        add_line(out, reply.as_slice())?;
        rest = after;
        number += 1;
    }
    Ok(ScriptEnd::Done)
}

/// Runs a script, and adds its text, except for the last line if memory was refused.
pub fn compose(alloc: Global, input: &[u8], out: &mut Vec<u8>) -> Result<ScriptEnd, AllocError>
    ensures { Extends (script_of_lines today (lines_of input.now)) (result_unwrap_or result ScriptEnd.Memory) out.old.items out.new.items }
{
    let Some((line, rest)) = first_line(input) else {
        return Ok(ScriptEnd::Done);
    };
    match parse_opening(line) {
        None => end_unreadable(alloc, 1, out),
        Some(Opening::Bounded { capacity: 0 }) => end_without_capacity(out),
        Some(Opening::Bounded { capacity }) => {
            run_opened(alloc, Some(capacity as usize), rest, out)
        }
        Some(Opening::Unbounded) => run_opened(alloc, None, rest, out),
    }
}
