use std::str::SplitWhitespace;

/// The words of a call, read one after another.
#[derive(Drop)]
pub struct Words<'a> {
    left: SplitWhitespace<'a>,
    is_wrong: bool,
}

impl<'a> Words<'a> {
    /// All words of a call.
    pub(crate) fn new(call: &'a str) -> Words<'a> {
        Words {
            left: call.split_whitespace(),
            is_wrong: false,
        }
    }

    /// The next word; an empty one where none is left, and then the call can't be read.
    pub fn word(&mut self) -> &'a str {
        match self.left.next() {
            Some(word) => word,
            None => {
                self.is_wrong = true;
                ""
            }
        }
    }

    /// The next word as a number; 0 where it is none, and then the call can't be read.
    pub fn number(&mut self) -> u64 {
        match self.word().parse::<u64>() {
            Ok(number) => number,
            Err(_) => {
                self.is_wrong = true;
                0
            }
        }
    }

    /// The next word as a number of this size; 0 where it is none, and then the call can't be read.
    pub fn size(&mut self) -> usize {
        match usize::try_from(self.number()) {
            Ok(size) => size,
            Err(_) => {
                self.is_wrong = true;
                0
            }
        }
    }

    /// The next word as a number of this size; 0 where it is none, and then the call can't be read.
    pub fn small(&mut self) -> u32 {
        match u32::try_from(self.number()) {
            Ok(small) => small,
            Err(_) => {
                self.is_wrong = true;
                0
            }
        }
    }

    /// The next word as its place among these, or as a number of this size where it is none of them.
    pub fn place(&mut self, names: &[&str]) -> u32 {
        let word = self.word();
        for (place, name) in names.iter().enumerate() {
            if *name == word {
                return u32::try_from(place).unwrap_or(u32::MAX);
            }
        }
        match word.parse::<u32>() {
            Ok(number) => number,
            Err(_) => {
                self.is_wrong = true;
                0
            }
        }
    }

    /// Whether all words were read, and no more than there are.
    pub(crate) fn is_read(&mut self) -> bool {
        self.left.next().is_none() && !self.is_wrong
    }
}
