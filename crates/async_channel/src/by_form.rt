//! The calls of a handle together with what proves that they were made.
//!
//! # Extensions
//!
//! All of this module.

ghost use Rattle.std.specs.Prelude.{◌≡◌};
ghost use Rattle.async_channel.specs.Handles.{handle_of};
ghost use Rattle.async_channel.specs.Forms.{AreCallsOf};

use crate::counted::Counted;
use crate::link::Link;
use crate::traced::Traced;
use crate::witnessed::Witnessed;
use channel_calls::kind::Kind;
use std::sync::Wait;

/// The calls of a sender or of a receiver, by the form of its channel.
#[derive(Drop)]
pub enum Calls<'a, T: Drop, R: Wait + Copy, K: Kind> {
    /// With a bound each call returns a witness.
    Witnessed(Witnessed<'a, T, R, K>),
    /// Without one each call takes a trace, and returns it.
    Traced(Traced<'a, T, R, K>),
}

impl<T: Drop, K: Kind> Counted<T, K> {
    /// The calls on its channel.
    #[inline(always)]
    pub(crate) fn calls<'a, R: Wait + Copy>(&'a self, rt: &'a R) -> Calls<'a, T, R, K>
        ensures { AreCallsOf (handle_of self.now.link) result }
    {
        match &self.link {
            Link::Bounded(channel) => Calls::Witnessed(Witnessed::new(channel, rt)),
            Link::Unbounded(shared) => Calls::Traced(Traced::new(shared, rt)),
        }
    }
}
