//! What receives of several have taken.

use crate::differs::Differs;
use std::alloc::Global;

/// A message that a party's call took.
#[derive(Clone, Copy)]
struct Taken {
    party: u32,
    message: u64,
}

/// All of them, in the order in which they were taken.
#[derive(Drop)]
pub struct Takings {
    taken: Vec<Taken>,
}

impl Takings {
    /// Nothing.
    pub fn nothing(alloc: Global) -> Self {
        Takings {
            taken: Vec::new(alloc),
        }
    }

    /// How many there are.
    pub fn len(&self) -> usize {
        self.taken.len()
    }

    /// The party's call took this message.
    pub fn add(&mut self, party: u32, message: u64) -> Result<(), Differs> {
        match self.taken.push(Taken { party, message }) {
            Ok(()) => Ok(()),
            Err(_) => Err(Differs::NoMemory),
        }
    }

    /// Whether just these are the messages that the party took since there were so many, in this order.
    pub fn are(&self, since: usize, party: u32, messages: &[u64]) -> bool {
        let mut place = 0usize;
        for taken in self.taken.get(since..).unwrap_or(&[]) {
            if taken.party == party {
                if messages.get(place) != Some(&taken.message) {
                    return false;
                }
                place = place.wrapping_add(1);
            }
        }
        place == messages.len()
    }
}
