//! Offices, passes and parcels: values that carry facts and, except for the office and the message, no bytes. No other module makes or
//! takes them apart.

ghost use Rattle.std.specs.Prelude.{◌≡◌, ◌<◌, [], ◌∷◌};
ghost use Rattle.atomic_table.specs.Seated.{TableId};
ghost use Rattle.waybill.specs.Accounts.{all_parts, Account, account};
ghost use Rattle.waybill.specs.Hands.{hand, waybill};

use crate::rule::{Fair, Hand, Room};
use atomic_table::{Seat, Table};
use std::alloc::Global;
use std::marker::{Model, PhantomData};

/// An office that is in no room yet, with its pass. Contracts see which office it is.
#[derive(Drop)]
pub struct Opened<T> {
    pub(crate) table: Table<(), Hand<T>, (), Fair, Global>,
    pub(crate) seat: Seat<(), Hand<T>>,
}

impl<T> Model for Opened<T> {
    ghost Value = { TableId };

    ghost view = { λ o. o.table.shared.table_id };

    ghost invariant = { λ o. (0 < o.table.shared.table_id.words) × (o.seat.table_id ≡ o.table.shared.table_id) × (o.seat.me ≡ (hand all_parts [] [] [] [], [])) };
}

/// Where passes and parcels of room `B` are made. It has one word of memory, which nothing writes.
#[derive(Drop)]
pub struct Office<T, B: Room> {
    pub(crate) table: Table<(), Hand<T>, (), Fair, Global>,
    pub(crate) room: PhantomData<B>,
}

impl<T, B: Room> Model for Office<T, B> {
    ghost Value = { Unit {0} };

    ghost view = { λ o. tt };

    ghost invariant = { λ o. (o.table.shared.table_id ≡ B.table) × (0 < o.table.shared.table_id.words) };
}

/// What one thread has sent, received and taken back. It has no bytes.
#[derive(Drop)]
pub struct Pass<T, B: Room> {
    pub(crate) seat: Seat<(), Hand<T>>,
    pub(crate) room: PhantomData<B>,
}

impl<T, B: Room> Model for Pass<T, B> {
    ghost Value = { Account T };

    ghost view = { λ p. account p.seat.me.0.parts p.seat.me.0.sent p.seat.me.0.received p.seat.me.0.returned };

    ghost invariant = { λ p. (p.seat.table_id ≡ B.table) × (p.seat.me.1 ≡ []) × (p.seat.me.0.carried ≡ []) × (0 < p.seat.me.0.parts) };
}

/// A message with its waybill, which has no bytes.
#[derive(Drop)]
pub struct Parcel<T, B: Room> {
    pub(crate) value: T,
    pub(crate) bill: Seat<(), Hand<T>>,
    pub(crate) room: PhantomData<B>,
}

impl<T, B: Room> Model for Parcel<T, B> {
    ghost Value = { T };

    ghost view = { λ p. p.value };

    ghost invariant = { λ p. (p.bill.table_id ≡ B.table) × (p.bill.me ≡ (waybill (p.value ∷ []), [])) };
}
