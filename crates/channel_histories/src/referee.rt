//! Who watches the threads of a history over handles: it waits until all calls have ended but those that sleep, sees who sleeps,
//! closes where somebody may sleep for good, and lets the threads leave.

use crate::answers::closed;
use crate::crew::{Failure, LOOKS, pause};
use crate::job::Shared;
use crate::leaving::let_go;
use crate::place::{At, Place};
use async_channel::{Receiver, Sender};
use history_checker::log::{Log, Stamps};
use history_checker::point::Side;
use history_checker::rest::Rest;
use std::alloc::Global;
use std::rt::Clock;
use std::sync::{Arc, Wait};

/// The places of the threads, and a handle of each kind.
#[derive(Drop)]
pub struct Referee<R: Wait + Copy> {
    pub sender: Sender<u64, R>,
    pub receiver: Receiver<u64, R>,
    pub places: Vec<Arc<Place>>,
}

impl<R: Wait + Copy> Referee<R> {
    /// Of no thread.
    pub fn new(sender: Sender<u64, R>, receiver: Receiver<u64, R>, alloc: Global) -> Referee<R> {
        Referee {
            sender,
            receiver,
            places: Vec::new(alloc),
        }
    }

    /// What is seen of all threads; none where a call is under way that ends by itself, or one began or ended meanwhile.
    fn see(&self, rt: &R, stamps: &Stamps) -> Option<Rest> {
        let before = stamps.taken();
        let mut rest = Rest::unseen();
        for place in &self.places {
            rest = rest.with(place.look(rt, &self.sender)?);
        }
        (stamps.taken() == before).then_some(rest)
    }

    /// Waits for a rest at which nobody sleeps who must not. Where none comes it is what was seen last, if anything was.
    fn await_rest(&self, rt: &R, stamps: &Stamps) -> Option<Rest>
    where
        R: Clock,
    {
        let mut seen = None;
        for look in 0..LOOKS {
            seen = self.see(rt, stamps);
            if let Some(rest) = seen {
                if rest.is_right() {
                    return seen;
                }
            }
            pause(rt, look);
        }
        seen
    }

    /// Whether all threads are at the end of their calls.
    fn all_rest(&self, rt: &R) -> bool {
        for place in &self.places {
            if place.standing(rt).at != At::Rest {
                return false;
            }
        }
        true
    }

    /// How all threads stand that stand still.
    fn still(&self, rt: &R, alloc: Global) -> Failure {
        let mut standings = Vec::new(alloc);
        for place in &self.places {
            if standings.push(place.standing(rt)).is_err() {
                return Failure::Memory;
            }
        }
        Failure::Still(standings)
    }

    /// Waits for a rest, and notes it.
    fn note_rest(
        &self,
        rt: &R,
        alloc: Global,
        stamps: &Stamps,
        rests: &mut Vec<Rest>,
    ) -> Result<(), Failure>
    where
        R: Clock,
    {
        let Some(rest) = self.await_rest(rt, stamps) else {
            return Err(self.still(rt, alloc));
        };
        rests.push(rest).ok().ok_or(Failure::Memory)
    }

    /// Waits until no call goes on that ends by itself: a rest, which is noted. In a history whose threads may sleep for good it closes
    /// then, notes what that did, and waits once more.
    pub fn watch(
        &self,
        rt: &R,
        alloc: Global,
        stamps: &Stamps,
        closes: bool,
        log: &mut Log,
        rests: &mut Vec<Rest>,
    ) -> Result<(), Failure>
    where
        R: Clock,
    {
        self.note_rest(rt, alloc, stamps, rests)?;
        if closes {
            let begin = stamps.stamp();
            let answer = self.sender.close();
            log.note(begin, stamps.stamp(), closed(answer));
            self.note_rest(rt, alloc, stamps, rests)?;
        }
        if self.all_rest(rt) {
            Ok(())
        } else {
            Err(self.still(rt, alloc))
        }
    }

    /// Its handles go, and then the threads leave.
    pub fn leave(self, rt: R, alloc: Global, shared: &Shared, log: &mut Log) -> Result<(), Failure>
    where
        R: Clock,
    {
        let Referee {
            sender,
            receiver,
            places: _,
        } = self;
        let_go(sender, Side::Senders, &shared.stamps, log);
        let_go(receiver, Side::Receivers, &shared.stamps, log);
        shared.rest.pass(&rt, shared.threads.wrapping_add(1));
        if shared.ended.wait_for(&rt, shared.threads) {
            Ok(())
        } else {
            Err(Failure::Still(Vec::new(alloc)))
        }
    }
}
