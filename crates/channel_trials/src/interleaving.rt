//! One random interleaving over a world of a form.

use crate::book::Book;
use crate::differs::Differs;
use crate::form::Form;
use crate::made::Made;
use crate::trial::Trial;
use std::alloc::Global;

fn trial_of(form: Form, seed: u64, alloc: Global) -> Result<Trial, Differs> {
    let book = Book::new(form.capacity(), alloc)?;
    match form.open(alloc) {
        Ok(world) => Ok(Trial::new(world, book, seed, alloc)),
        Err(_) => Err(Differs::NoMemory),
    }
}

/// What one interleaving shows: how much it made, and what differs.
#[derive(Clone, Copy)]
pub struct Shown {
    /// How much it made.
    pub made: Made,
    /// What differs from the plain count.
    pub differs: Option<Differs>,
}

/// The interleaving of this seed over a world of this form, up to its end or the first difference.
pub fn interleave(form: Form, seed: u64, alloc: Global) -> Shown {
    match trial_of(form, seed, alloc) {
        Ok(mut trial) => {
            let differs = trial.interleave().err();
            Shown {
                made: trial.made,
                differs,
            }
        }
        Err(differs) => Shown {
            made: Made::nothing(),
            differs: Some(differs),
        },
    }
}
