//! How a waybill is written: a new seat is split off the pass, which so knows that it has sent.

ghost use Rattle.std.specs.Prelude.{◌≡◌, [], ◌∷◌};
ghost use Rattle.waybill.specs.Accounts.{after_sent};
ghost use Rattle.waybill.specs.Hands.{waybill};

use crate::rule::{Cuts, Hand, Items, Room};
use crate::tokens::{Office, Pass};
use atomic_table::Seat;

/// A waybill for this message, which from here on counts as sent by this pass.
#[inline(always)]
pub(crate) fn bill<T, B: Room, I: Items<T>>(
    office: &Office<T, B>,
    pass: &mut Pass<T, B>,
    value: &T,
) -> Seat<(), Hand<T>>
    requires names { I.items ≡ value.now ∷ [] }
    ensures same { pass.new ≡ after_sent pass.old value.now }
    ensures new { (result.table_id ≡ B.table) × (result.me ≡ (waybill (value.now ∷ []), [])) }
{
    // One atomic operation: a waybill exists exactly if the pass counts its message as sent.
    office.table.shared.split_seat::<Cuts<I>>(&mut pass.seat)
}
