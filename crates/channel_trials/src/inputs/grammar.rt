//! Scripts that can be read: commands of the language, of names that were given and of some that weren't.

use crate::random::Random;
use crate::weights::fall_on;
use std::alloc::{AllocError, Global};

/// How many commands a script has at most.
const MOST: usize = 60;

/// A command, and what stands after it: a new name, an operation, a sender, a receiver, any handle or a number.
type Command = (&'static str, &'static [u8]);

/// How often each command is drawn.
static COMMANDS: [(Command, usize); 26] = [
    (("try_send", b"sm"), 9),
    (("force_send", b"sm"), 4),
    (("try_recv", b"r"), 7),
    (("recv_many", b"rm"), 4),
    (("send", b"nsm"), 8),
    (("recv", b"nr"), 8),
    (("closed", b"ns"), 2),
    (("poll", b"o"), 22),
    (("next", b"r"), 6),
    (("drop", b"o"), 4),
    (("drop", b"h"), 1),
    (("close", b"h"), 1),
    (("clone", b"nh"), 3),
    (("downgrade", b"nh"), 2),
    (("upgrade", b"no"), 3),
    (("is_closed", b"h"), 1),
    (("is_empty", b"h"), 1),
    (("is_full", b"h"), 1),
    (("same_channel", b"hh"), 1),
    (("is_terminated", b"o"), 1),
    (("is_terminated", b"r"), 1),
    (("len", b"h"), 1),
    (("sender_count", b"h"), 1),
    (("receiver_count", b"h"), 1),
    (("capacity", b"h"), 1),
    (("settle", b""), 6),
];

/// The sum of all weights.
const ALL: usize = 100;

/// The first lines.
static OPENINGS: [&str; 8] = [
    "bounded 1",
    "bounded 2",
    "bounded 3",
    "unbounded",
    "unbounded",
    "bounded 1",
    "bounded 0",
    "bounded 18446744073709551615",
];

/// A script that is being written: its text, and how many new names it gave.
#[derive(Drop)]
struct Draft {
    text: String,
    names: usize,
}

impl Draft {
    /// A name that was given, but now and then one that wasn't.
    fn add_given(&mut self, random: &mut Random) -> Result<(), AllocError> {
        let name = random.below(self.names.saturating_add(1));
        write!(self.text, " a{name}")
    }

    /// What stands after a command.
    fn add_word(&mut self, sort: u8, random: &mut Random) -> Result<(), AllocError> {
        let plain = !random.once_in(4);
        match sort {
            b'n' if !random.once_in(20) => {
                let name = self.names;
                self.names = name.saturating_add(1);
                write!(self.text, " a{name}")
            }
            b's' if plain => self.text.push_str(" s"),
            b'r' if plain => self.text.push_str(" r"),
            b'h' if plain && random.once_in(2) => self.text.push_str(" s"),
            b'h' if plain => self.text.push_str(" r"),
            b'm' => {
                let number = random.below(10);
                write!(self.text, " {number}")
            }
            _ => self.add_given(random),
        }
    }

    fn add_line(&mut self, random: &mut Random) -> Result<(), AllocError> {
        let drawn = fall_on(&COMMANDS, random.below(ALL));
        let (word, after) = drawn.unwrap_or(("settle", b""));
        self.text.push_str(word)?;
        for sort in after {
            self.add_word(*sort, random)?;
        }
        self.text.push_str("\n")
    }
}

/// A script that can be read.
pub fn draw_script(random: &mut Random, alloc: Global) -> Result<Vec<u8>, AllocError> {
    let mut draft = Draft {
        text: String::new(alloc),
        names: 0,
    };
    let bound = if random.once_in(20) { 8 } else { 6 };
    let opening = OPENINGS.get(random.below(bound));
    draft.text.push_str(opening.unwrap_or(&"unbounded"))?;
    draft.text.push_str("\n")?;
    for _ in 0..random.below(MOST) {
        draft.add_line(random)?;
    }
    Ok(draft.text.into_bytes())
}
