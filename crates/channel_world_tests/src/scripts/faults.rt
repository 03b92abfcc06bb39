//! Readers and writers in memory that fail, at every place of a short script.

ghost use Rattle.std.specs.Counts.{IsPrefixLen};
ghost use Rattle.std.specs.Result.{IfOk};

use crate::checks::expect_equal;
use channel_world::script::{ScriptEnd, run_script};
use std::alloc::{AllocGlobal, Global};
use std::io;
use std::io::{ErrorKind, Read, Write};
use std::process::Abort;

const SCRIPT: &[u8] = b"bounded 1\nrecv a r\npoll a\ndrop r\ntry_recv x\nclose s\n";

const TEXT: &[u8] = b"ok\nok\npending\nrefused 6\nrefused 3\ntrue wakes a\n";

const READ_FAULT: &[u8] = b"read fault\n";

/// What a reader does once its text is given.
#[derive(Clone, Copy)]
enum AtEnd {
    Ends,
    Fails,
    IsInterrupted,
    /// It gives this byte for ever.
    Gives(u8),
}

/// A reader that gives a text byte by byte.
#[derive(Drop)]
struct Reader<'a> {
    text: &'a [u8],
    at_end: AtEnd,
    /// How often it is interrupted next.
    interrupted: u32,
    /// How often it is interrupted before each byte and before the end, behind the first of these.
    before_each: u32,
}

/// What a read gives once the text is given.
fn read_end(at_end: AtEnd, buf: &mut [u8]) -> io::Result<usize>
    ensures { IfOk result (λ n. IsPrefixLen n buf.new) }
{
    match at_end {
        AtEnd::Ends => Ok(0),
        AtEnd::Fails => Err(io::Error::from(ErrorKind::Other)),
        AtEnd::IsInterrupted => Err(io::Error::from(ErrorKind::Interrupted)),
        AtEnd::Gives(byte) => {
            buf.fill(byte);
            Ok(buf.len())
        }
    }
}

impl<'a> Read for Reader<'a> {
    fn read(&mut self, buf: &mut [u8]) -> io::Result<usize> {
        if let Some(left) = self.interrupted.checked_sub(1) {
            self.interrupted = left;
            return Err(io::Error::from(ErrorKind::Interrupted));
        }
        self.interrupted = self.before_each;
        let Some((byte, rest)) = self.text.split_first() else {
            return read_end(self.at_end, buf);
        };
        let Some(place) = buf.first_mut() else {
            return Ok(0);
        };
        *place = *byte;
        self.text = rest;
        Ok(1)
    }
}

/// A reader that is interrupted so often at first, and once before each byte and the end behind the first.
fn reading(text: &[u8], at_end: AtEnd, interrupted: u32) -> Reader<'_> {
    Reader {
        text,
        at_end,
        interrupted,
        before_each: interrupted.min(1),
    }
}

/// A writer that takes one byte at a time, up to its limit, and then fails by this error, or takes none.
#[derive(Drop)]
struct Limited {
    held: Vec<u8>,
    limit: usize,
    error: Option<ErrorKind>,
}

impl Write for Limited {
    fn write(&mut self, buf: &[u8]) -> io::Result<usize> {
        if self.held.len() >= self.limit {
            return match self.error {
                Some(kind) => Err(io::Error::from(kind)),
                None => Ok(0),
            };
        }
        let Some(byte) = buf.first() else {
            return Ok(0);
        };
        self.held.push(*byte)?;
        Ok(1)
    }

    fn flush(&mut self) -> io::Result<()> {
        Ok(())
    }
}

/// How a script ends that this reader gives, where it writes this text.
fn reads(alloc: Global, mut reader: Reader<'_>, text: &[u8]) -> Option<ScriptEnd> {
    let mut out = Vec::new(alloc);
    let end = run_script(alloc, &mut reader, &mut out);
    (out.as_slice() == text).then_some(end)
}

/// How a script ends whose writer takes so many bytes and fails by this error then, where it holds this text up to there.
fn writes(
    alloc: Global,
    mut reader: Reader<'_>,
    limit: usize,
    error: Option<ErrorKind>,
    text: &[u8],
) -> Option<ScriptEnd> {
    let mut out = Limited {
        held: Vec::new(alloc),
        limit,
        error,
    };
    let end = run_script(alloc, &mut reader, &mut out);
    let front = text.get(..limit).unwrap_or(text);
    (out.held.as_slice() == front).then_some(end)
}

/// Compares what scripts come to whose readers are these, interrupted so often.
fn expect_reads<A: Abort + AllocGlobal>(
    rt: &A,
    rows: &[(&'static [u8], AtEnd, u32, &'static [u8], ScriptEnd)],
) {
    for (script, at_end, interrupted, text, end) in rows {
        let found = reads(rt.alloc(), reading(script, *at_end, *interrupted), text);
        expect_equal(rt, &(*interrupted, found), &(*interrupted, Some(*end)));
    }
}

/// A script whose reading ends is run, however often the reader is interrupted: a body that always says that reading failed is
/// refused here, and one that writes nothing. A reader that fails, after any byte, or doesn't end leaves a text that says so alone.
#[test]
fn readers(rt: HostRuntime) {
    expect_reads(
        &rt,
        &[
            (SCRIPT, AtEnd::Ends, 1, TEXT, ScriptEnd::Done),
            (b"", AtEnd::Gives(b'\n'), 0, READ_FAULT, ScriptEnd::Fault),
            (b"", AtEnd::IsInterrupted, 0, READ_FAULT, ScriptEnd::Fault),
        ],
    );
    for given in 0..=SCRIPT.len() {
        let script = SCRIPT.get(..given).unwrap_or(SCRIPT);
        let found = reads(rt.alloc(), reading(script, AtEnd::Fails, 1), READ_FAULT);
        expect_equal(&rt, &(given, found), &(given, Some(ScriptEnd::Fault)));
    }
}

#[test]
fn a_reader_is_asked_33554432_times_at_most(rt: HostRuntime) {
    expect_reads(
        &rt,
        &[
            (b"", AtEnd::Ends, 33_554_431, b"", ScriptEnd::Done),
            (b"", AtEnd::Ends, 33_554_432, READ_FAULT, ScriptEnd::Fault),
        ],
    );
}

/// A writer that fails holds the front of the text. A write fault wins over an unreadable line, over a capacity of 0, over want of
/// memory and over a read fault; and a writer that takes every byte, one at a time, gets the whole text.
#[test]
fn writers(rt: HostRuntime) {
    let rows: [(&[u8], AtEnd, usize, &[u8], ScriptEnd); 5] = [
        (
            b"poll",
            AtEnd::Ends,
            3,
            b"line 1: can't be read\n",
            ScriptEnd::Fault,
        ),
        (
            b"bounded 0",
            AtEnd::Ends,
            3,
            b"capacity must be positive\n",
            ScriptEnd::Fault,
        ),
        (
            b"bounded 288230376151711745",
            AtEnd::Ends,
            3,
            b"want of memory\n",
            ScriptEnd::Fault,
        ),
        (b"", AtEnd::Fails, 3, READ_FAULT, ScriptEnd::Fault),
        (SCRIPT, AtEnd::Ends, usize::MAX, TEXT, ScriptEnd::Done),
    ];
    for (script, at_end, limit, text, end) in rows {
        let found = writes(rt.alloc(), reading(script, at_end, 1), limit, None, text);
        expect_equal(&rt, &(limit, found), &(limit, Some(end)));
    }
    for error in [None, Some(ErrorKind::Other), Some(ErrorKind::Interrupted)] {
        for limit in 0..TEXT.len() {
            let found = writes(
                rt.alloc(),
                reading(SCRIPT, AtEnd::Ends, 0),
                limit,
                error,
                TEXT,
            );
            expect_equal(&rt, &(limit, found), &(limit, Some(ScriptEnd::Fault)));
        }
    }
}
