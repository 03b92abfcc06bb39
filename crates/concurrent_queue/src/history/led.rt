//! A step that touches no cell and no count. The caller's proof says by a relation where it leads.

ghost use Rattle.std.specs.Prelude.{◌≡◌};

use crate::history::rule::{Machine, View};
use crate::history::table::{CallSeat, flag_index};
use atomic_table::Play;
use std::marker::{Brand, PhantomData};

/// Where a step leads. The proof of a call picks it where the call passes `Brand`.
pub trait LeadsTo<A> {
    ghost to: { A → A → Type 0 };
}

impl<A> LeadsTo<A> for Brand {
    ghost to = { λ _ _. ⊥ };
}

/// The party of a seat goes to a state to which the relation leads, and touches nothing.
pub struct Led<E> {
    of: PhantomData<E>,
}

impl<T, A, E: LeadsTo<A>> Play<Option<T>, View<T, A>> for Led<E> {
    ghost use Rattle.concurrent_queue.specs.history.Shared.{led_by};

    ghost then = { led_by E.to };
}

impl<'a, T, A, P: Machine<T, A>> CallSeat<'a, T, A, P> {
    /// Makes a step that touches no cell and no count, to a state to which the relation leads and which the caller's proof picks. It costs
    /// one load.
    #[inline(always)]
    pub fn turn_by<E: LeadsTo<A>, X, Y>(&mut self, _about: &X, _and: &Y)
        requires next { (a : A) × P.turns self.old.seat.me.0.form self.old.seat.me.0.state a × E.to self.old.seat.me.0.state a }
        ensures made { E.to self.old.seat.me.0.state self.new.seat.me.0.state }
        ensures same { (self.new.seat.table_id ≡ self.old.seat.table_id) × (self.new.seat.me.0.who ≡ self.old.seat.me.0.who) × (self.new.seat.me.0.form ≡ self.old.seat.me.0.form) × (self.new.seat.me.0.over ≡ self.old.seat.me.0.over) }
    {
        let at = flag_index(self.table);
        // A load whose answer nobody needs: only an atomic operation can change the view.
        self.table.shared.load::<Led<E>>(&mut self.seat, at);
    }
}
