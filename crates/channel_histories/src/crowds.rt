//! More threads than processors send and receive through channels of each form, all messages being counted when they are received and
//! when they are let go; ten thousand tasks wait; ten thousand handles are made and dropped. A run in which nothing moves any more is
//! ended, and says what was under way then.

mod clones;
pub mod crowd;
mod token;
mod waiting;
mod watch;
mod work;

use crate::crowds::crowd::{End, Kind, Size};
use std::alloc::{AllocGlobal, Global};
use std::io;
use std::random::RandomSource;
use std::rt::Clock;
use std::sync::Wait;
use std::thread::Threads;

/// How many messages each sender of a crowd has, and how many threads a crowd is made of, unless numbers are asked for.
const MESSAGES: u64 = 100;

const THREADS: u64 = 17;

/// The channels of a crowd: a name, and how many messages one holds at most, 0 for any number.
static CHANNELS: [(&str, usize); 3] = [("one slot", 1), ("ring of 3", 3), ("unbounded", 0)];

/// The kinds of crowds, each with what is found.
static KINDS: [(&str, Kind); 4] = [
    ("sleepers get each message once and in order", Kind::Sleeps),
    ("streams get each message once and in order", Kind::Streams),
    (
        "closed in the midst, it gives the rest and then the end",
        Kind::Closes,
    ),
    ("each message comes or is displaced", Kind::Displaces),
];

/// One crowd through one channel: whether all was right.
fn run_crowd<R>(
    rt: R,
    alloc: Global,
    channel: (&str, usize),
    kind: (&str, Kind),
    size: Size,
) -> io::Result<bool>
where
    R: Wait + Threads + Copy + RandomSource + AllocGlobal + Clock + Print + Send + Sync + 'static,
{
    let (name, capacity) = channel;
    let (found, kind) = kind;
    let end = crowd::run(rt, alloc, capacity, size, kind);
    match end {
        Some(End::Right) => println!(&rt; "{name}: {found}")?,
        Some(end) => println!(&rt; "{name}: not so that {found}: {end:?}")?,
        None => println!(&rt; "{name}: want of memory or of threads")?,
    }
    Ok(end == Some(End::Right))
}

/// Tasks that wait, and handles that are cloned: whether all was right.
fn run_others<R>(rt: R, alloc: Global) -> io::Result<bool>
where
    R: Wait + Threads + Copy + RandomSource + AllocGlobal + Print + Send + Sync,
{
    let woken = waiting::wakes_each_once(rt, alloc) == Some(true);
    println!(&rt;
        "of ten thousand that wait half leave, and the others are woken in order, each once: {woken}"
    )?;
    let counted = clones::end_with_one(rt, alloc) == Some(true);
    println!(&rt; "ten thousand handles on eight threads leave one of each kind: {counted}")?;
    Ok(woken && counted)
}

/// How long a send takes that wakes one of few tasks, and one of many.
pub fn print_times<R>(rt: R, alloc: Global) -> io::Result<()>
where
    R: Wait + Copy + RandomSource + AllocGlobal + Clock + Print,
{
    for waiting in [10, 100, 1_000, 10_000] {
        if let Some(taken) = waiting::time_of_wakes(rt, alloc, waiting) {
            println!(&rt; "{waiting} tasks wait: {taken} ns for a message that wakes one")?;
        }
    }
    Ok(())
}

/// All crowds, of this size, and the others: whether all was right.
pub fn hold<R>(rt: R, alloc: Global, size: Size) -> io::Result<bool>
where
    R: Wait + Threads + Copy + RandomSource + AllocGlobal + Clock + Print + Send + Sync + 'static,
{
    for kind in &KINDS {
        for channel in &CHANNELS {
            if !run_crowd(rt, alloc, *channel, *kind, size)? {
                return Ok(false);
            }
        }
    }
    run_others(rt, alloc)
}

/// The size of a crowd for which so many messages of each sender are asked for, and so many threads. These are two at least, of which no
/// more receive than send.
pub fn crowd_size(messages: Option<u64>, threads: Option<u64>) -> Size {
    let threads = threads.unwrap_or(THREADS).max(2) as usize;
    let receivers = threads / 2;
    Size {
        messages: messages.unwrap_or(MESSAGES),
        senders: threads.saturating_sub(receivers),
        receivers,
    }
}
