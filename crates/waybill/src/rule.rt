//! What a pass knows, and the rule over all passes and waybills. These types are for the proofs alone.
ghost use Rattle.std.specs.Prelude.{ℕ, List};
ghost use Rattle.atomic_table.specs.Seated.{TableId};

use atomic_table::{Join, Play, Split, TableRule};
use std::collections::LinkedList;
use std::marker::Brand;

/// Which office a waybill belongs to. A caller picks it at one call, by `Brand`.
pub trait Room {
    ghost use Rattle.atomic_table.specs.Seated.{TableId};

    ghost table: { TableId };
}

impl Room for Brand {
    ghost use Rattle.waybill.specs.Hands.{no_table};

    ghost table = { no_table };
}

/// The messages that a step names.
pub(crate) trait Items<T> {
    ghost items: { List T };
}

impl<T> Items<T> for Brand {
    ghost use Rattle.std.specs.Prelude.{[]};

    ghost items = { [] };
}

// What a pass has sent and received, with its parts of the right to know the whole; of a waybill, what it is for. No value of it is made.
pub(crate) struct Hand<T> {
    pub parts: u64,
    pub sent: LinkedList<T>,
    pub received: LinkedList<T>,
    pub returned: LinkedList<T>,
    pub carried: LinkedList<T>,
}

/// The rule: what was sent was received, was taken back or is in flight.
pub(crate) struct Fair;

impl<T> TableRule<(), Hand<T>, ()> for Fair {
    ghost use Rattle.waybill.specs.Accounts.{all_parts};
    ghost use Rattle.waybill.specs.Hands.{hand, Balanced};
    ghost use Rattle.std.specs.Prelude.{[]};

    ghost holds = { λ _ s. Balanced s.views };

    ghost first = { λ _. hand all_parts [] [] [] [] };
}

/// A pass sends messages: a new seat is for them.
pub(crate) struct Cuts<I> {
    of: std::marker::PhantomData<I>,
}

impl<T, I: Items<T>> Split<Hand<T>> for Cuts<I> {
    ghost use Rattle.waybill.specs.Hands.{with_sent, waybill};

    ghost left = { λ v. with_sent v I.items };

    ghost right = { λ v. waybill I.items };
}

/// A pass gives a part to a new one.
pub(crate) struct Halves;

impl<T> Split<Hand<T>> for Halves {
    ghost use Rattle.std.specs.Prelude.{◌-◌, []};
    ghost use Rattle.waybill.specs.Hands.{hand};

    ghost left = { λ v. hand (v.parts - 1) v.sent v.received v.returned v.carried };

    ghost right = { λ v. hand 1 [] [] [] [] };
}

/// What another seat knew is now known, and what it carried was received.
pub(crate) struct Receives;

impl<T> Join<Hand<T>> for Receives {
    ghost use Rattle.std.specs.Prelude.{[]};
    ghost use Rattle.waybill.specs.Hands.{hand, with_received};

    ghost both = { with_received };

    ghost spent = { hand 0 [] [] [] [] };
}

/// What another seat knew is now known, and what it carried was taken back.
pub(crate) struct Returns;

impl<T> Join<Hand<T>> for Returns {
    ghost use Rattle.std.specs.Prelude.{[]};
    ghost use Rattle.waybill.specs.Hands.{hand, with_returned};

    ghost both = { with_returned };

    ghost spent = { hand 0 [] [] [] [] };
}

/// The whole is learned by a pass that has every part.
pub(crate) struct Learns;

impl<T> Play<(), Hand<T>> for Learns {
    ghost use Rattle.waybill.specs.Hands.{learned};

    ghost then = { learned };
}
