//! The greatest scripts.

use crate::checks::expect_equal;
use channel_world::script::{ScriptEnd, run_script};
use std::alloc::{AllocError, AllocGlobal, Global};
use std::process::Abort;

/// First bytes, then the same ones so often, then last ones.
type Repeated = (&'static [u8], &'static [u8], usize, &'static [u8]);

/// A script, the text that it is to write, and how it is to end.
type Row = (Repeated, Repeated, ScriptEnd);

fn bytes(alloc: Global, repeated: &Repeated) -> Result<Vec<u8>, AllocError> {
    let (first, again, times, last) = *repeated;
    let mut bytes = Vec::new(alloc);
    bytes.extend_from_slice(first)?;
    for _ in 0..times {
        bytes.extend_from_slice(again)?;
    }
    bytes.extend_from_slice(last)?;
    Ok(bytes)
}

/// How the script of a row ends, where it writes what it is to write.
fn end_of(alloc: Global, row: &Row) -> Result<Option<ScriptEnd>, AllocError> {
    let script = bytes(alloc, &row.0)?;
    let text = bytes(alloc, &row.1)?;
    let mut out = Vec::new(alloc);
    let end = run_script(alloc, &mut script.as_slice(), &mut out);
    Ok((out.as_slice() == text.as_slice()).then_some(end))
}

/// Compares how the scripts of these rows end.
fn expect_ends<A: Abort + AllocGlobal>(rt: &A, rows: &[Row]) {
    for row in rows {
        let end = end_of(rt.alloc(), row).expect(rt, "memory");
        expect_equal(rt, &end, &Some(row.2));
    }
}

static LINES: [Row; 2] = [
    (
        (b"bounded 1\n", b"close s\n", 999_999, b""),
        (b"ok\ntrue\n", b"false\n", 999_998, b""),
        ScriptEnd::Done,
    ),
    (
        (b"bounded 1\n", b"close s\n", 1_000_000, b""),
        (
            b"ok\ntrue\n",
            b"false\n",
            999_998,
            b"line 1000001: can't be read\n",
        ),
        ScriptEnd::Unreadable { line: 1_000_001 },
    ),
];

#[test]
fn a_million_lines_can_be_read_and_no_more(rt: HostRuntime) {
    expect_ends(&rt, &LINES);
}

/// What is written where the second line can't be read.
const UNREADABLE: Repeated = (b"ok\n", b"", 0, b"line 2: can't be read\n");

static BYTES: [Row; 2] = [
    (
        (b"unbounded\n", b"a", 16_777_206, b""),
        UNREADABLE,
        ScriptEnd::Unreadable { line: 2 },
    ),
    (
        (b"unbounded\n", b"a", 16_777_207, b""),
        (b"", b"", 0, b"read fault\n"),
        ScriptEnd::Fault,
    ),
];

#[test]
fn the_greatest_script_is_read(rt: HostRuntime) {
    expect_ends(&rt, &BYTES);
}

static WITHIN_A_LINE: [Row; 3] = [
    (
        (b"unbounded\n", b"a", 200, b""),
        UNREADABLE,
        ScriptEnd::Unreadable { line: 2 },
    ),
    (
        (b"unbounded\n", b"a", 201, b""),
        UNREADABLE,
        ScriptEnd::Unreadable { line: 2 },
    ),
    (
        (b"unbounded\n", b"\xff", 1, b"\n"),
        UNREADABLE,
        ScriptEnd::Unreadable { line: 2 },
    ),
];

#[test]
fn a_line_has_200_bytes_of_ascii_at_most(rt: HostRuntime) {
    expect_ends(&rt, &WITHIN_A_LINE);
}
