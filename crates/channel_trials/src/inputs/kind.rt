//! The kinds of inputs.

use crate::inputs::Fault;
use crate::inputs::grammar::draw_script;
use crate::inputs::mutate::{draw_bytes, mutate};
use crate::inputs::script::check_script;
use crate::inputs::steps::check_steps;
use crate::random::Random;
use std::alloc::{AllocError, Global};

/// How many bytes the steps of a world are at most, and the byte of its form.
const STEPS: usize = 802;

/// What is drawn.
#[derive(Clone, Copy, PartialEq, Eq)]
pub enum Kind {
    /// Bytes at random, as a script.
    Bytes,
    /// A script with up to three changes.
    Script,
    /// Steps of a world.
    Steps,
}

fn draw_steps(random: &mut Random, alloc: Global) -> Result<Vec<u8>, AllocError> {
    let mut bytes = Vec::new(alloc);
    for _ in 0..random.below(STEPS) {
        bytes.push(random.byte())?;
    }
    Ok(bytes)
}

impl Kind {
    /// What it is called, and what its inputs come to.
    pub fn names(self) -> (&'static str, &'static str) {
        match self {
            Kind::Bytes => ("random bytes", "lines of text"),
            Kind::Script => ("changed script", "lines of text"),
            Kind::Steps => ("world", "steps"),
        }
    }

    /// The input of this seed.
    pub fn draw(self, seed: u64, alloc: Global) -> Result<Vec<u8>, AllocError> {
        match self {
            Kind::Bytes => draw_bytes(&mut Random::new(seed, 0), alloc),
            Kind::Script => {
                let mut random = Random::new(seed, 1);
                let text = draw_script(&mut random, alloc)?;
                mutate(text, &mut random, alloc)
            }
            Kind::Steps => draw_steps(&mut Random::new(seed, 2), alloc),
        }
    }

    /// Runs an input, and looks for a fault. How many lines of text or steps it comes to.
    pub fn check(self, input: &[u8], seed: u64, alloc: Global) -> Result<u64, Fault> {
        match self {
            Kind::Steps => check_steps(input, alloc),
            _ => check_script(input, seed, alloc),
        }
    }
}
