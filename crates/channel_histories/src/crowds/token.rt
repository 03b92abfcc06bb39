//! Messages that are counted when they are let go.

use crate::crowds::watch::Watch;
use std::sync::Arc;

/// A message: which one, by which sender.
pub struct Token {
    pub number: u64,
    pub from: usize,
    watch: Arc<Watch>,
}

impl Token {
    /// A message, which is counted as made; `None` where the watch was refused one more owner.
    pub fn new(number: u64, from: usize, watch: &Arc<Watch>) -> Option<Token> {
        let watch = Arc::try_clone(watch).ok()?;
        watch.made.raise();
        Some(Token {
            number,
            from,
            watch,
        })
    }
}

impl Drop for Token {
    fn drop(self) {
        let Token {
            number: _,
            from: _,
            watch,
        } = self;
        watch.gone.raise();
        drop(watch);
    }
}
