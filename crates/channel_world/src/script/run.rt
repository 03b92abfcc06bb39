//! Reading a script, and writing its text. Only this module touches the reader and the writer.
ghost use Rattle.std.specs.Prelude.{◌≡◌, ◌≤◌, ◌++◌, ℕ, List, [], IfOk, IfErr, IfSome, vec_len};
ghost use Rattle.std.specs.Bool.{OnTrue};
ghost use Rattle.std.specs.Io.KnownBytes.{Appends};
ghost use Rattle.channel_world.specs.Output.{AppendsFront, IsReadEnd, IsText, late_line, WritesText, WritesScript};

use super::compose::compose;
use super::end::ScriptEnd;
use std::alloc::Global;
use std::io::{ErrorKind, Read, Write};

/// A script has at most this many bytes.
const INPUT_LIMIT: usize = 16_777_216;

/// A reader is asked at most this often.
const ASKS_LIMIT: u32 = 33_554_432;

/// How many bytes a reader is asked for at once.
const PIECE: usize = 16_384;

/// All that the reader gives; or how the script ends if reading failed or memory was refused. A reader that was interrupted is asked again.
fn read_input<R: Read>(alloc: Global, reader: &mut R) -> Result<Vec<u8>, ScriptEnd>
    ensures ok { IfOk result (λ input. IfSome (R.remaining reader.old) (λ known. input.items ≡ known)) }
    ensures short { IfOk result (λ input. vec_len input ≤ INPUT_LIMIT) }
    ensures err { IfErr result (λ end. IsReadEnd end) }
{
    let mut input = Vec::new(alloc);
    let mut piece = [0u8; PIECE];
    for _ in 0..ASKS_LIMIT {
        let count = match reader.read(&mut piece) {
            Ok(0) => return Ok(input),
            Ok(count) => count,
            Err(error) if error.kind() == ErrorKind::Interrupted => continue,
            Err(_) => return Err(ScriptEnd::Fault),
        };
        if INPUT_LIMIT - input.len() < count {
            return Err(ScriptEnd::Fault);
        }
        let added = input.extend_from_slice(&piece[..count]);
        added.map_err(|_| ScriptEnd::Memory)?;
    }
    Err(ScriptEnd::Fault)
}

/// Writes all of a text, or after a fault a prefix of it. A writer that takes no byte is a fault, and so is every error.
fn write_text<W: Write>(writer: &mut W, text: &[u8]) -> bool
    ensures all { OnTrue result (Appends (W.contents writer.old) (W.contents writer.new) text.now) }
    ensures front { AppendsFront (W.contents writer.old) (W.contents writer.new) text.now }
{
    let mut rest = text;
    while !rest.is_empty() {
        match writer.write(rest) {
            Ok(0) | Err(_) => return false,
            Ok(count) => rest = &rest[count..],
        }
    }
    true
}

/// The last line that is in no composed text: for refused memory, or for reading that failed.
fn last_line(end: ScriptEnd) -> &'static [u8]
    ensures { result.now ≡ late_line end }
{
    match end {
        ScriptEnd::Memory => b"want of memory\n",
        ScriptEnd::Fault => b"read fault\n",
        _ => b"",
    }
}

/// Reads a script and runs it: its text, except for a late last line, and how it ends.
fn read_and_compose<R: Read>(alloc: Global, reader: &mut R, out: &mut Vec<u8>) -> ScriptEnd
    requires { out.old.items ≡ [] }
    ensures { (input : List ℕ) × IfSome (R.remaining reader.old) (λ known. input ≡ known) × IsText input result (out.new.items ++ late_line result) }
{
    match read_input(alloc, reader) {
        Ok(input) => compose(alloc, input.as_slice(), out).unwrap_or(ScriptEnd::Memory),
        Err(end) => end,
    }
}

/// Writes a text and its late last line, and returns how the script ends then.
fn write_script<W: Write>(writer: &mut W, text: &[u8], end: ScriptEnd) -> ScriptEnd
    ensures { WritesText (text.now ++ late_line end) end result (W.contents writer.old) (W.contents writer.new) }
{
    if !write_text(writer, text) {
        return ScriptEnd::Fault;
    }
    if !write_text(writer, last_line(end)) {
        return ScriptEnd::Fault;
    }
    end
}

/// Reads a script to its end, runs it, writes its text, and says how it ended.
///
/// The script is UTF-8 or not: its bytes are read as they are, 16,777,216 at most, and the reader is asked 33,554,432 times at most; past
/// either it is a read fault. The text has a line for each command up to the one that ends the script. If reading fails it is `read fault`
/// alone. If memory or serials are refused it is some of the lines before, then `want of memory`. If writing fails, what went out is a
/// prefix of the text. It waits only as the reader and the writer do.
///
/// For a reader whose bytes no contract knows, such as standard input, it says that some bytes were read, and that what is written, and how
/// it ends, is what their script says.
pub fn run_script<R: Read, W: Write>(alloc: Global, reader: &mut R, writer: &mut W) -> ScriptEnd
    ensures read { (input : List ℕ) × WritesScript input result (W.contents writer.old) (W.contents writer.new) }
    ensures known { IfSome (R.remaining reader.old) (λ input. WritesScript input result (W.contents writer.old) (W.contents writer.new)) }
{
    let mut out = Vec::new(alloc);
    let end = read_and_compose(alloc, reader, &mut out);
    write_script(writer, out.as_slice(), end)
}
