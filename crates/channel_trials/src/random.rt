//! Random numbers, the same at each run.

use rand_core::utils::NextWord;
use rand_pcg::Pcg32;

/// A generator that was started from a seed and a stream of its own.
#[derive(Drop)]
pub struct Random {
    words: Pcg32,
}

impl Random {
    /// The generator of this seed and stream.
    pub fn new(seed: u64, stream: u64) -> Self {
        Random {
            words: Pcg32::new(seed, stream),
        }
    }

    /// A number below this one; 0 where this one is 0.
    pub fn below(&mut self, bound: usize) -> usize {
        let word = self.words.next_word() as usize;
        word.checked_rem(bound).unwrap_or(0)
    }

    /// The same, of names.
    pub fn name_below(&mut self, bound: u32) -> u32 {
        let word = self.words.next_word();
        word.checked_rem(bound).unwrap_or(0)
    }

    /// Any byte.
    pub fn byte(&mut self) -> u8 {
        self.words.next_word().to_le_bytes()[0]
    }

    /// True one time in so many.
    pub fn once_in(&mut self, times: usize) -> bool {
        self.below(times) == 0
    }
}
