//! A value behind a lock, on which each call makes one critical section, by its type.
//!
//! A function that is to change the value is given a [`Section`], the right to take the lock once: it can't be copied, and taking the lock
//! uses it up. What it gets for that releases the lock when it ends. So a function with one right, and without the [`Locked`], makes one
//! section; a body with two does not type-check.
//!
//! # Extensions
//!
//! All of this module.

use std::sync::{Mutex, MutexGuard, Wait};

/// A value behind a lock.
#[derive(Drop)]
pub struct Locked<L> {
    value: Mutex<L>,
}

/// The right to one critical section. It has no drop, so a function that has it makes the section.
pub struct Section<'a, L> {
    value: &'a Mutex<L>,
}

/// A critical section that has begun: the lock is this thread's until this is dropped.
#[derive(Drop)]
pub struct Inside<'a, L> {
    guard: MutexGuard<'a, L>,
}

impl<L> Locked<L> {
    /// The value, behind a lock that is free.
    pub fn new(value: L) -> Locked<L> {
        Locked {
            value: Mutex::new(value),
        }
    }

    /// The right to one critical section. It never waits.
    #[inline(always)]
    pub fn section(&self) -> Section<'_, L> {
        Section { value: &self.value }
    }
}

impl<'a, L> Section<'a, L> {
    /// Takes the lock, which nothing else does. It may wait for the lock.
    #[inline(always)]
    pub fn enter<R: Wait>(self, rt: &R) -> Inside<'a, L> {
        let Section { value } = self;
        Inside {
            // This right is used up, so the function that has it can't lock twice; the guard unlocks when it is dropped.
            guard: value.lock(rt),
        }
    }
}

impl<'a, L> Inside<'a, L> {
    /// The value behind the lock.
    #[inline(always)]
    pub fn value(&mut self) -> &mut L {
        &mut self.guard
    }
}
