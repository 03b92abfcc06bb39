//! Where an event keeps its list, which the first `listen` makes, and the right of a call that has begun. The invariant: an event gets one
//! list, once, and keeps it.

ghost use Rattle.std.specs.Prelude.{◌≡◌, IfOk, OnErr, IfSome, IfNone};
ghost use Rattle.std.specs.Arc.{arc_value};
ghost use Rattle.event_listener.specs.Homes.{seal_of};

use crate::error::NoMemory;
use crate::event::OneCall;
use crate::home::Home;
use crate::steps::Steps;
use crate::turn::EventTurn;
use std::alloc::Global;
use std::sync::{Arc, OnceLock, OnceToken, Wait};

/// Where an event keeps its list.
#[derive(Drop)]
pub(crate) struct Homes<T, L> {
    alloc: Global,
    once: OnceLock<Arc<Home<T, L>>>,
}

/// The right of a call of an event that has begun: one look at where the event keeps its list, and one critical section on that list.
///
/// It can't be copied, and the look uses it up. What a call does with it is in modules that can't read its fields, so a body there that
/// makes a second section does not type-check.
#[derive(Drop)]
pub(crate) struct Begun<'a, T, L> {
    homes: &'a Homes<T, L>,
    call: OneCall,
}

impl<T, L> Homes<T, L> {
    /// Without a list. It takes no memory.
    pub(crate) fn new(alloc: Global) -> Homes<T, L> {
        Homes {
            alloc,
            once: OnceLock::new(),
        }
    }

    pub(crate) fn alloc(&self) -> Global {
        self.alloc
    }

    /// Begins this call.
    #[inline(always)]
    pub(crate) fn begin(&self, call: OneCall) -> Begun<'_, T, L>
        ensures { result.homes.now.once.id ≡ self.now.once.id }
    {
        Begun { homes: self, call }
    }
}

impl<T, L: Steps<T>> Homes<T, L> {
    /// Access to the list, which is made here if nobody has listened yet. If two threads make one, the first one's stays.
    fn shown<R: Wait>(&self, rt: &R) -> Result<OnceToken<'_, Arc<Home<T, L>>>, NoMemory>
        ensures of { IfOk result (λ token. token.of ≡ self.now.once.id) }
        ensures refused { OnErr result L.refused }
    {
        // Look first: once a list is there, this one load is all, and no memory is asked for.
        if let Some(token) = L::find(&self.once) {
            return Ok(token);
        }
        let made = L::share(self.alloc, Home::new(L::empty(self.alloc)))?;
        // Of two threads that made a list only one inserts it. The other drops its own and uses the first, so that all listeners are in one
        // list.
        match self.once.try_insert(rt, made) {
            Ok(token) => Ok(token),
            Err((token, late)) => {
                drop(late);
                Ok(token)
            }
        }
    }
}

impl<'a, T, L: Steps<T>> Begun<'a, T, L> {
    /// The right to one critical section on the list, if somebody has listened.
    #[inline(always)]
    pub(crate) fn turn(self) -> Option<EventTurn<'a, T, L>>
        ensures held { IfSome result (λ turn. L.holds self.entry.homes.now.once.id turn.step.seal.now.id) }
        ensures lacked { IfNone result (L.lacks self.entry.homes.now.once.id) }
    {
        let Begun { homes, call } = self;
        // One load. A call that finds no list is over: a thread that inserts one later also listens later.
        match L::find(&homes.once) {
            Some(token) => {
                L::see(&token);
                Some(homes.once.value(&token).event_turn(call))
            }
            None => None,
        }
    }

    /// The list, made if nobody has listened yet, and the right to one critical section on it.
    pub(crate) fn open<R: Wait>(
        self,
        rt: &R,
    ) -> Result<(Arc<Home<T, L>>, EventTurn<'a, T, L>), NoMemory>
        ensures held { IfOk result (λ opened. L.holds self.entry.homes.now.once.id (seal_of (arc_value opened.0))) }
        ensures same { IfOk result (λ opened. opened.1.step.seal.now.id ≡ seal_of (arc_value opened.0)) }
        ensures refused { OnErr result L.refused }
    {
        let Begun { homes, call } = self;
        let token = homes.shown(rt)?;
        L::see(&token);
        let home = homes.once.value(&token);
        let shared = L::share_again(home)?;
        Ok((shared, home.event_turn(call)))
    }
}
