//! The rights to one critical section on the list of an event: for a call of the event, and for a listener, which has a place there.
//!
//! Each method takes the lock, makes one step, and releases the lock; in between nobody else sees or changes the list. `steps` has the
//! reason for what a section does. `Listed` owns the listener's key until a section has removed the listener.
ghost use Rattle.std.specs.Prelude.{◌≡◌, ℕ, Some, None, Ok, Err, IfOk, IfErr, IfSome, IfNone, is_none, false, true};
ghost use Rattle.std.specs.Arc.{arc_value};
ghost use Rattle.futures.specs.Task.{IsArmed, Keeps};
ghost use Rattle.event_listener.specs.Listening.{Lapsed};
ghost use Rattle.event_listener.specs.Telling.{TellsIn};
ghost use Rattle.event_listener.specs.Sections.{OnSome, cell_of, parker_of, listens, polls, arms, parks, looks, leaves, removes, notifies, counts_told, counts_all};

use crate::error::{ListenError, NotifyError};
use crate::home::Step;
use crate::key::Key;
use crate::notify::Notification;
use crate::parker::Parker;
use crate::section::{Locked, Section};
use crate::steps::Steps;
use crate::waking::WakerCell;
use futures::task::{Context, Waker};
use std::marker::PhantomData;
use std::sync::{Arc, Wait};
use std::time::Duration;

/// A listener's right to one critical section on its list, with one step in it. It has no drop, and each call uses it up and has nothing
/// else of the list, so a body that makes two sections, or two steps in one, does not type-check.
///
/// Each step is one on a listener's own place, so nobody can add a listener or notify by this.
pub(crate) struct Turn<'a, T, L> {
    step: Step<'a>,
    section: Section<'a, L>,
    of: PhantomData<Locked<T>>,
}

/// The same right for a call of the event itself: it adds a listener, notifies, or asks a question. Only a call that has
/// [begun](crate::homes::Begun) has one.
pub(crate) struct EventTurn<'a, T, L> {
    step: Step<'a>,
    section: Section<'a, L>,
    of: PhantomData<Locked<T>>,
}

/// A listener's place on a list: its key, until a section has removed the listener.
///
/// Only a section makes one, and only a section changes it. It has no drop, so its owner has to remove the listener, once: a tag that was
/// taken can't be asked for again, and no removal is made twice.
pub(crate) struct Listed {
    key: Option<Key>,
}

impl Listed {
    /// Whether a section has removed the listener.
    #[inline(always)]
    pub(crate) fn is_off(&self) -> bool
        ensures { result ≡ is_none self.now.key }
    {
        self.key.is_none()
    }

    /// Its key.
    #[inline(always)]
    pub(crate) fn key(&self) -> Key
        requires { is_none self.now.key ≡ false }
        ensures { self.now.key ≡ Some result }
    {
        match self.key {
            Some(key) => key,
            None => unreachable!(),
        }
    }

    /// Drops the place of a listener that is off the list.
    #[inline(always)]
    pub(crate) fn end(self)
        requires { is_none self.key ≡ true }
    {
        let Listed { key: _ } = self;
    }

    // A listener that gave its tag is off the list.
    #[inline(always)]
    fn found<T>(&mut self, tag: &Option<T>)
        ensures taken { IfSome tag.now (λ _. self.new.key ≡ None) }
        ensures waits { IfNone tag.now (self.new ≡ self.old) }
    {
        if tag.is_some() {
            self.key = None;
        }
    }
}

impl<'a, T, L: Steps<T>> Turn<'a, T, L> {
    /// This step in this section.
    #[inline(always)]
    pub(crate) fn new(step: Step<'a>, section: Section<'a, L>) -> Self
        ensures { result.step.seal.now.id ≡ step.entry.seal.now.id }
    {
        Turn {
            step,
            section,
            of: PhantomData,
        }
    }

    /// Takes the tag of a told listener, or keeps the waker in its cell.
    #[inline(always)]
    pub(crate) fn poll<R: Wait>(
        self,
        rt: &R,
        listed: &mut Listed,
        cell: &WakerCell,
        waker: Waker,
    ) -> Option<T>
        requires listed { is_none listed.old.key ≡ false }
        ensures did { (key : Key) × (listed.old.key ≡ Some key) × OnSome L.did self.entry.step.seal.now.id (polls key (cell_of cell.now) waker result) }
        ensures taken { IfSome result (λ _. listed.new.key ≡ None) }
        ensures waits { IfNone result (listed.new ≡ listed.old) }
    {
        let Turn {
            step,
            section,
            of: _,
        } = self;
        let tag = section
            .enter(rt)
            .value()
            .poll(step, rt, listed.key(), cell, waker);
        listed.found(&tag);
        tag
    }

    /// The same with the waker of the task that is polled.
    #[inline(always)]
    pub(crate) fn poll_in<R: Wait>(
        self,
        rt: &R,
        listed: &mut Listed,
        cell: &WakerCell,
        cx: &mut Context<'_>,
    ) -> Option<T>
        requires listed { is_none listed.old.key ≡ false }
        ensures did { (key : Key) × (listed.old.key ≡ Some key) × OnSome L.did self.entry.step.seal.now.id (arms key (cell_of cell.now) result) }
        ensures taken { IfSome result (λ _. listed.new.key ≡ None) }
        ensures waits { IfNone result (listed.new ≡ listed.old) }
        ensures armed { result ≡ None → IsArmed cx.new }
        ensures kept { Keeps cx.old cx.new }
    {
        let Turn {
            step,
            section,
            of: _,
        } = self;
        let tag = section
            .enter(rt)
            .value()
            .poll_in(step, rt, listed.key(), cell, cx);
        listed.found(&tag);
        tag
    }

    /// Takes the tag of a told listener, or registers the thread of this parker, which a notification then wakes.
    #[inline(always)]
    pub(crate) fn park<R: Wait>(self, rt: &R, listed: &mut Listed, parker: Arc<Parker>) -> Option<T>
        requires listed { is_none listed.old.key ≡ false }
        ensures did { (key : Key) × (listed.old.key ≡ Some key) × OnSome L.did self.entry.step.seal.now.id (parks key (parker_of (arc_value parker)) result) }
        ensures taken { IfSome result (λ _. listed.new.key ≡ None) }
        ensures waits { IfNone result (listed.new ≡ listed.old) }
    {
        let Turn {
            step,
            section,
            of: _,
        } = self;
        let tag = section.enter(rt).value().park(step, listed.key(), parker);
        listed.found(&tag);
        tag
    }

    /// Takes the tag of a told listener, once the thread has slept.
    #[inline(always)]
    pub(crate) fn look<R: Wait>(self, rt: &R, listed: &mut Listed, parker: &Parker) -> Option<T>
        requires slept { L.slept (parker_of parker.now) None }
        requires listed { is_none listed.old.key ≡ false }
        ensures did { (key : Key) × (listed.old.key ≡ Some key) × OnSome L.did self.entry.step.seal.now.id (looks key (parker_of parker.now) result) }
        ensures taken { IfSome result (λ _. listed.new.key ≡ None) }
        ensures waits { IfNone result (listed.new ≡ listed.old) }
    {
        let Turn {
            step,
            section,
            of: _,
        } = self;
        let tag = section.enter(rt).value().look(step, listed.key(), parker);
        listed.found(&tag);
        tag
    }

    /// Removes a listener whose time is up, and takes the tag of a told one.
    #[inline(always)]
    pub(crate) fn leave<R: Wait>(
        self,
        rt: &R,
        listed: &mut Listed,
        parker: &Parker,
        timeout: Duration,
    ) -> Option<T>
        requires lapsed { Lapsed L.read L.read_again L.slept (parker_of parker.now) timeout }
        requires listed { is_none listed.old.key ≡ false }
        ensures did { (key : Key) × (listed.old.key ≡ Some key) × OnSome L.did self.entry.step.seal.now.id (leaves key timeout result) }
        ensures off { listed.new.key ≡ None }
    {
        let Turn {
            step,
            section,
            of: _,
        } = self;
        let tag = section
            .enter(rt)
            .value()
            .leave(step, listed.key(), parker, timeout);
        listed.key = None;
        tag
    }

    /// Removes a listener, and answers whether it was told. A told one may pass its notification on.
    #[inline(always)]
    pub(crate) fn remove<R: Wait>(self, rt: &R, listed: Listed, pass_on: bool) -> bool
        requires { is_none listed.key ≡ false }
        ensures { (key : Key) × (listed.key ≡ Some key) × OnSome L.did self.entry.step.seal.now.id (removes key pass_on result) }
    {
        let Turn {
            step,
            section,
            of: _,
        } = self;
        let key = listed.key();
        let Listed { key: _ } = listed;
        section.enter(rt).value().remove(step, rt, key, pass_on)
    }
}

impl<'a, T, L: Steps<T>> EventTurn<'a, T, L> {
    /// This step in this section.
    #[inline(always)]
    pub(crate) fn new(step: Step<'a>, section: Section<'a, L>) -> Self
        ensures { result.step.seal.now.id ≡ step.entry.seal.now.id }
    {
        EventTurn {
            step,
            section,
            of: PhantomData,
        }
    }

    /// Adds a listener with the task of this cell.
    #[inline(always)]
    pub(crate) fn listen<R: Wait>(self, rt: &R, cell: Arc<WakerCell>) -> Result<Listed, ListenError>
        ensures added { IfOk result (λ listed. (key : Key) × (listed.key ≡ Some key) × OnSome L.did self.entry.step.seal.now.id (listens (cell_of (arc_value cell)) (Ok key))) }
        ensures refused { IfErr result (λ error. OnSome L.did self.entry.step.seal.now.id (listens (cell_of (arc_value cell)) (Err error))) }
    {
        let EventTurn {
            step,
            section,
            of: _,
        } = self;
        let added = section.enter(rt).value().listen(step, cell);
        match added {
            Ok(key) => Ok(Listed { key: Some(key) }),
            Err(error) => Err(error),
        }
    }

    /// Tells listeners.
    #[inline(always)]
    pub(crate) fn notify<N: Notification<Tag = T> + Drop, R: Wait>(
        self,
        rt: &R,
        notice: N,
    ) -> Result<usize, NotifyError>
        requires { N.can_give notice }
        ensures { TellsIn N.size N.gives notice result (λ tags. OnSome L.did self.entry.step.seal.now.id (notifies (N.additional notice) (N.size notice) tags result)) }
    {
        let EventTurn {
            step,
            section,
            of: _,
        } = self;
        section.enter(rt).value().notify(step, rt, notice)
    }

    /// How many are told.
    #[inline(always)]
    pub(crate) fn told<R: Wait>(self, rt: &R) -> usize
        ensures { OnSome L.did self.entry.step.seal.now.id (counts_told result) }
    {
        let EventTurn {
            step,
            section,
            of: _,
        } = self;
        section.enter(rt).value().told(step)
    }

    /// How many there are.
    #[inline(always)]
    pub(crate) fn total<R: Wait>(self, rt: &R) -> usize
        ensures { OnSome L.did self.entry.step.seal.now.id (counts_all result) }
    {
        let EventTurn {
            step,
            section,
            of: _,
        } = self;
        section.enter(rt).value().total(step)
    }
}
