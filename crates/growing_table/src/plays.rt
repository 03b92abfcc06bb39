// The rule of the rows under a growing table, and what each step on them tells.
ghost use Rattle.std.specs.Prelude.{◌≡◌, [], true, false};

use crate::rule::{GrowingRule, Play};
use crate::sight::Sight;
use atomic_blocks::rows;
use atomic_blocks::rows::{Link, LinkPlay, RowRule};
use atomic_table::{Join, Split};
use std::marker::PhantomData;

// What the rows are told at the start.
#[derive(Clone, Copy)]
pub(crate) struct Shape<S, K> {
    pub(crate) words: usize,
    pub(crate) cells: usize,
    pub(crate) root: Link<S>,
    pub(crate) top: Link<S>,
    pub(crate) about: K,
}

pub(crate) struct Grows<P> {
    rule: PhantomData<P>,
}

impl<T, V, K, P: GrowingRule<T, V, K>> RowRule<Option<T>, Sight<V>, Shape<Option<T>, K>>
    for Grows<P> {
    ghost use Rattle.growing_table.specs.Laid.{Grown, maker};

    ghost holds = { λ key. Grown key.words key.cells key.root.ptr key.top.ptr (P.holds key.about) };

    ghost first = { λ key. maker key.cells [] 0 (P.first key.about) };
}

// A step on a word of the table's own.
pub(crate) struct OnOwn<M> {
    play: PhantomData<M>,
}

impl<S, V, M: Play<S, V>> rows::Play<S, Sight<V>> for OnOwn<M> {
    ghost use Rattle.growing_table.specs.Told.{on_own};

    ghost then = { on_own M.then };
}

// A step on a word of a block.
pub(crate) struct OnBlock<M> {
    play: PhantomData<M>,
}

impl<S, V, M: Play<S, V>> rows::Play<S, Sight<V>> for OnBlock<M> {
    ghost use Rattle.growing_table.specs.Told.{on_block};

    ghost then = { on_block M.then };
}

// The number of blocks is read.
pub(crate) struct OnCount<M> {
    play: PhantomData<M>,
}

impl<S, V, M: Play<S, V>> rows::Play<S, Sight<V>> for OnCount<M> {
    ghost use Rattle.growing_table.specs.Told.{on_count};

    ghost then = { on_count M.then };
}

// A new seat comes.
pub(crate) struct OnEntry<M> {
    play: PhantomData<M>,
}

impl<S, V, M: Play<S, V>> rows::Play<S, Sight<V>> for OnEntry<M> {
    ghost use Rattle.growing_table.specs.Told.{on_entry};

    ghost then = { on_entry M.then };
}

// A block joins.
pub(crate) struct OnMaking<M> {
    play: PhantomData<M>,
}

impl<S, V, M: Play<S, V>> rows::Play<S, Sight<V>> for OnMaking<M> {
    ghost use Rattle.growing_table.specs.Told.{on_making};

    ghost then = { on_making M.then };
}

// The link to a block is read.
pub(crate) struct SeesLink;

impl<S, V> LinkPlay<S, Sight<V>> for SeesLink {
    ghost use Rattle.growing_table.specs.Told.{saw_link};

    ghost then = { saw_link };
}

// The link to the block that will join next is entered.
pub(crate) struct WritesLink;

impl<S, V> LinkPlay<S, Sight<V>> for WritesLink {
    ghost use Rattle.growing_table.specs.Told.{wrote_link};

    ghost then = { wrote_link };
}

// The old seat keeps the right to make blocks.
pub(crate) struct Apart<M> {
    split: PhantomData<M>,
}

impl<V, M: Split<V>> Split<Sight<V>> for Apart<M> {
    ghost use Rattle.growing_table.specs.Told.{with_client, new_seat};

    ghost left = { λ v. with_client v v.maker (M.left v.client) };

    ghost right = { λ v. new_seat v false (M.right v.client) };
}

// The right to make blocks goes to the new seat.
pub(crate) struct Handed<M> {
    split: PhantomData<M>,
}

impl<V, M: Split<V>> Split<Sight<V>> for Handed<M> {
    ghost use Rattle.growing_table.specs.Told.{with_client, new_seat};

    ghost left = { λ v. with_client v false (M.left v.client) };

    ghost right = { λ v. new_seat v v.maker (M.right v.client) };
}

// The right to make blocks stays with whichever had it.
pub(crate) struct Both<M> {
    join: PhantomData<M>,
}

impl<V, M: Join<V>> Join<Sight<V>> for Both<M> {
    ghost use Rattle.growing_table.specs.Told.{joined, over};

    ghost both = { λ v w. joined v w (M.both v.client w.client) };

    ghost spent = { over M.spent };
}

// A step that tells that nothing changed.
pub(crate) struct Still;

impl<S, V> Play<S, V> for Still {
    ghost then = { λ _ m _ n. n ≡ m };
}
