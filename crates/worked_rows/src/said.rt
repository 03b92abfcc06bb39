use std::alloc::AllocError;

/// An answer in short.
#[derive(Clone, Copy, PartialEq, Eq, Debug)]
pub enum Said {
    /// What there is no more to say of; it is written as nothing.
    Ok,
    /// This word.
    Word(&'static str),
    /// This number.
    Number(u64),
    /// This word, and a number behind it.
    Both(&'static str, u64),
    /// The line names a call that there is none of.
    NoSuchCall,
}

impl Said {
    /// `true` or `false`.
    pub fn flag(it: bool) -> Said {
        Said::Word(if it { "true" } else { "false" })
    }

    /// The number of a length.
    pub fn count(count: usize) -> Said {
        Said::Number(count as u64)
    }

    /// Writes it behind what the answer already says, with a space between.
    pub fn write(self, answer: &mut String) -> Result<(), AllocError> {
        if !answer.is_empty() {
            answer.push(' ')?;
        }
        match self {
            Said::Ok => Ok(()),
            Said::Word(word) => answer.push_str(word),
            Said::Number(number) => write!(answer, "{number}"),
            Said::Both(word, number) => write!(answer, "{word} {number}"),
            Said::NoSuchCall => answer.push_str("no such call"),
        }
    }
}
