//! How much was made.

/// What interleavings made, in numbers.
#[derive(Clone, Copy)]
pub struct Made {
    /// How many steps, of which each call's first one is its begin.
    pub steps: u64,
    /// How many calls began by a step.
    pub begun: u64,
    /// How many calls were made alone, each from its begin to its end.
    pub alone: u64,
    /// How many interleavings came to a moment at which a call had received more messages than it had told sends of, so that one
    /// free place for each call under way was not all of them.
    pub several_free: u64,
}

impl Made {
    /// Nothing yet.
    pub fn nothing() -> Self {
        Made {
            steps: 0,
            begun: 0,
            alone: 0,
            several_free: 0,
        }
    }

    /// These and those.
    pub fn with(self, more: Self) -> Self {
        Made {
            steps: self.steps.wrapping_add(more.steps),
            begun: self.begun.wrapping_add(more.begun),
            alone: self.alone.wrapping_add(more.alone),
            several_free: self.several_free.wrapping_add(more.several_free),
        }
    }
}
