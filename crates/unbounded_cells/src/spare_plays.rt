//! What each step on the list of spare blocks tells the seat that has its lock. All are for the proofs alone: no value of these types is made.

use crate::rule::{BlockMachine, BlockView};
use growing_table::Play;
use std::marker::PhantomData;

/// The word of the first spare block is read.
pub struct ReadsTop;

impl<T, A> Play<Option<T>, BlockView<T, A>> for ReadsTop {
    ghost use Rattle.unbounded_cells.specs.SpareTold.{reads_top};

    ghost then = { reads_top };
}

/// A block's word of the next spare one is read.
pub struct ReadsLink;

impl<T, A> Play<Option<T>, BlockView<T, A>> for ReadsLink {
    ghost use Rattle.unbounded_cells.specs.SpareTold.{reads_link};

    ghost then = { reads_link };
}

/// It is written.
pub struct WritesLink;

impl<T, A> Play<Option<T>, BlockView<T, A>> for WritesLink {
    ghost use Rattle.unbounded_cells.specs.SpareTold.{writes_link};

    ghost then = { writes_link };
}

/// A word of the first spare block is cleared.
pub struct Clears;

impl<T, A> Play<Option<T>, BlockView<T, A>> for Clears {
    ghost use Rattle.unbounded_cells.specs.SpareTold.{clears};

    ghost then = { clears };
}

/// The first spare block is taken.
pub struct TakesSpare<P> {
    of: PhantomData<P>,
}

impl<T, A, P: BlockMachine<T, A>> Play<Option<T>, BlockView<T, A>> for TakesSpare<P> {
    ghost use Rattle.unbounded_cells.specs.SpareTold.{takes_spare};

    ghost then = { takes_spare P.moves };
}

/// A block is put on the list.
pub struct GivesBack<P> {
    of: PhantomData<P>,
}

impl<T, A, P: BlockMachine<T, A>> Play<Option<T>, BlockView<T, A>> for GivesBack<P> {
    ghost use Rattle.unbounded_cells.specs.SpareTold.{gives_back};

    ghost then = { gives_back P.moves };
}

/// No block is spare, and a new one is made.
pub struct MakesSpare<P> {
    of: PhantomData<P>,
}

impl<T, A, P: BlockMachine<T, A>> Play<Option<T>, BlockView<T, A>> for MakesSpare<P> {
    ghost use Rattle.unbounded_cells.specs.SpareTold.{makes_spare};

    ghost then = { makes_spare P.moves };
}

/// No block is spare, and there is no memory for a new one.
pub struct RefusesSpare<P> {
    of: PhantomData<P>,
}

impl<T, A, P: BlockMachine<T, A>> Play<Option<T>, BlockView<T, A>> for RefusesSpare<P> {
    ghost use Rattle.unbounded_cells.specs.SpareTold.{refuses_spare};

    ghost then = { refuses_spare P.moves };
}

/// The first spare block is looked for.
pub struct FindsSpare<P> {
    of: PhantomData<P>,
}

impl<T, A, P: BlockMachine<T, A>> Play<Option<T>, BlockView<T, A>> for FindsSpare<P> {
    ghost use Rattle.unbounded_cells.specs.SpareTold.{finds_spare};

    ghost then = { finds_spare P.moves };
}
