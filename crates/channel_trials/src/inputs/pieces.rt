//! A reader and a writer in memory that take a text in pieces, and a writer that fails.

use crate::random::Random;
use std::io;
use std::io::{ErrorKind, Read, Write};

/// A reader that gives a text in pieces of random sizes, and is interrupted now and then.
#[derive(Drop)]
pub struct PieceReader<'a> {
    pub text: &'a [u8],
    pub random: Random,
}

impl<'a> Read for PieceReader<'a> {
    fn read(&mut self, buf: &mut [u8]) -> io::Result<usize> {
        if self.random.once_in(8) {
            return Err(io::Error::from(ErrorKind::Interrupted));
        }
        let size = self.random.below(40).saturating_add(1);
        let count = size.min(buf.len()).min(self.text.len());
        buf[..count].copy_from_slice(&self.text[..count]);
        self.text = &self.text[count..];
        Ok(count)
    }
}

/// A writer that takes pieces of random sizes, up to its limit. Then it fails, or takes nothing.
#[derive(Drop)]
pub struct PieceWriter {
    pub held: Vec<u8>,
    pub limit: usize,
    pub random: Random,
}

impl Write for PieceWriter {
    fn write(&mut self, buf: &[u8]) -> io::Result<usize> {
        let left = self.limit.saturating_sub(self.held.len());
        if left == 0 {
            return if self.random.once_in(2) {
                Ok(0)
            } else {
                Err(io::Error::from(ErrorKind::Other))
            };
        }
        let size = self.random.below(40).saturating_add(1);
        let count = size.min(buf.len()).min(left);
        self.held.extend_from_slice(&buf[..count])?;
        Ok(count)
    }

    fn flush(&mut self) -> io::Result<()> {
        Ok(())
    }
}
