//! What a user states of a growing table: its rule, and what a step tells.

/// The rule that every step keeps. A slot holds an `Option<T>`; `V` is what a seat knows, and `K` what the table is told once, at the start.
pub trait GrowingRule<T, V, K> {
    ghost use Rattle.std.specs.Prelude.{Option};
    ghost use Rattle.growing_table.specs.State.{State};

    /// A fact of the words, the blocks and the views, by what the table was told.
    ghost holds: { K → State (Option T) V → Type 0 };

    /// The view of the first seat.
    ghost first: { K → V };
}

/// What a step tells the seat that makes it.
pub trait Play<S, V> {
    ghost use Rattle.std.specs.Prelude.{ℕ};
    ghost use Rattle.growing_table.specs.State.{Step, Me};

    /// Of the step, the seat before, the number found (at a store, the number stored), and the seat after.
    ghost then: { Step → Me S V → ℕ → Me S V → Type 0 };
}
