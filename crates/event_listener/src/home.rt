//! The list of an event, which it shares with its listeners. `Home` owns the list and its lock; it is reached only by rights to one
//! critical section.
//!
//! # Extensions
//!
//! All of this module.

ghost use Rattle.std.specs.Prelude.{◌≡◌};
ghost use Rattle.event_listener.specs.Homes.{seal_of};

use crate::event::OneCall;
use crate::section::Locked;
use crate::steps::Steps;
use crate::turn::{EventTurn, Turn};
use futures::task::Source;
use std::marker::PhantomData;

/// The right to one step on the list with this seal. It can't be copied, and a step uses it up.
#[derive(Drop)]
pub struct Step<'a> {
    seal: &'a Source,
}

/// A list behind its lock. Only [`Homes`](crate::homes::Homes) makes one.
///
/// Its seal takes no bytes and can't be copied, and nobody can show that a new one equals another, so a clause can say which list it means.
#[derive(Drop)]
pub struct Home<T, L> {
    seal: Source,
    list: Locked<L>,
    of: PhantomData<Locked<T>>,
}

impl<T, L: Steps<T>> Home<T, L> {
    /// A list that nobody has seen yet.
    pub(crate) fn new(list: L) -> Home<T, L>
        requires { L.begins list }
    {
        Home {
            seal: Source::new(),
            list: Locked::new(list),
            of: PhantomData,
        }
    }

    /// A listener's right to one critical section, with one step in it.
    #[inline(always)]
    pub(crate) fn turn(&self) -> Turn<'_, T, L>
        ensures { result.step.seal.now.id ≡ seal_of self.now }
    {
        Turn::new(Step { seal: &self.seal }, self.list.section())
    }

    /// The same right for a call of the event, in exchange for the one that the call was given.
    #[inline(always)]
    pub(crate) fn event_turn(&self, _call: OneCall) -> EventTurn<'_, T, L>
        ensures { result.step.seal.now.id ≡ seal_of self.now }
    {
        EventTurn::new(Step { seal: &self.seal }, self.list.section())
    }
}

impl<T, L> Home<T, L> {
    /// Its seal.
    #[inline(always)]
    pub(crate) fn seal(&self) -> &Source
        ensures { result.now.id ≡ seal_of self.now }
    {
        &self.seal
    }
}
