//! Lists of names.

ghost use Rattle.std.specs.Prelude.{◌≡◌};

use crate::name::Waiter;
use std::marker::Model;

/// Names in order. Contracts see only the list, so two copies are equal whatever room they have.
#[derive(Drop)]
pub struct Names {
    items: Vec<Waiter>,
}

impl Model for Names {
    ghost use Rattle.std.specs.Prelude.{List};
    ghost use Rattle.channel_world_model.specs.declared.name.Waiter.{Waiter};

    ghost Value = { List Waiter };

    ghost view = { λ n. n.items.items };
}

impl Names {
    /// These names.
    pub fn new(items: Vec<Waiter>) -> Names
        ensures { result ≡ items.items }
    {
        Names { items }
    }

    /// The names in order.
    pub fn as_slice(&self) -> &[Waiter]
        ensures { result.now ≡ self.now }
    {
        self.items.as_slice()
    }
}

impl PartialEq for Names {
    ghost use Rattle.std.specs.Cmp.Lexicographic.{pointwise, lists_per};
    ghost use Rattle.channel_world_model.specs.Lines.{same_waiter};
    ghost use Rattle.std.specs.Cmp.{partial_equiv_from_equiv};
    ghost use Rattle.channel_world_model.proofs.WaiterLemmas.{same_equiv};

    ghost eq = { λ a b. pointwise same_waiter a b };

    ghost laws = { lists_per (partial_equiv_from_equiv same_equiv) };

    fn eq(&self, other: &Names) -> bool {
        self.items.as_slice() == other.items.as_slice()
    }
}

impl Eq for Names {
    ghost use Rattle.std.specs.Cmp.Lexicographic.{lists_equiv};
    ghost use Rattle.channel_world_model.proofs.WaiterLemmas.{same_equiv};

    ghost laws = { lists_equiv same_equiv };
}
