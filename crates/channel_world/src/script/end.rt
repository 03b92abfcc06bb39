//! How a script ends.

/// How a script ended.
#[derive(Clone, Copy, Debug, PartialEq, Eq)]
pub enum ScriptEnd {
    /// Every line was run.
    Done,
    /// The line of this number, counted from 1, can't be read.
    Unreadable { line: u32 },
    /// The channel would hold no message.
    Capacity,
    /// Memory or serials were refused.
    Memory,
    /// A read or a write failed, or the reader didn't end.
    Fault,
}

impl ScriptEnd {
    ghost use Rattle.std.specs.Prelude.{◌≡◌};
    ghost use Rattle.channel_world.specs.Output.{status_of};

    /// The exit status of a program that ran the script: 0, 2, 3, 4 or 5.
    pub fn status(self) -> u8
        ensures { result ≡ status_of self }
    {
        match self {
            ScriptEnd::Done => 0,
            ScriptEnd::Unreadable { .. } => 2,
            ScriptEnd::Capacity => 3,
            ScriptEnd::Memory => 4,
            ScriptEnd::Fault => 5,
        }
    }
}
