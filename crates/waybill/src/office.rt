//! What is done at an office: passes are made and absorbed, messages packed and unpacked, and the whole is learned. A fact goes from seat
//! to seat by a load of the office's word, which nothing writes, under the rule of `rule`.

ghost use Rattle.std.specs.Prelude.{◌≡◌, ◌<◌, [], ◌∷◌, ◌++◌, length, IsPermutation};
ghost use Rattle.waybill.specs.Accounts.{all_parts, fresh, parted, after_sent, after_received, after_returned, joined, IsPartOf, IsBalanced};

use crate::bill::bill;
use crate::rule::{Halves, Learns, Receives, Returns, Room};
use crate::tokens::{Office, Opened, Parcel, Pass};
use atomic_table::Table;
use std::alloc::{AllocError, Global};
use std::marker::{Brand, PhantomData};

impl<T> Opened<T> {
    /// An office with one pass, which has every part. `Err` if there is no memory for its one word.
    pub fn new(alloc: Global) -> Result<Opened<T>, AllocError> {
        let (table, seat) = Table::of_words(alloc, &[0], &())?;
        Ok(Opened { table, seat })
    }

    /// The office and its pass in a room: values of one room fit one another and no other's.
    pub fn enter<B: Room>(self) -> (Office<T, B>, Pass<T, B>)
        requires { self ≡ B.table }
        ensures { result.1 ≡ fresh all_parts }
    {
        let Opened { table, seat } = self;
        let office = Office {
            table,
            room: PhantomData,
        };
        let pass = Pass {
            seat,
            room: PhantomData,
        };
        (office, pass)
    }
}

impl<T, B: Room> Office<T, B> {
    /// A new pass, which gets one part of this one.
    #[inline(always)]
    pub fn another(&self, pass: &mut Pass<T, B>) -> Pass<T, B>
        requires { 1 < pass.old.parts }
        ensures same { pass.new ≡ parted pass.old }
        ensures new { result ≡ fresh 1 }
    {
        // One atomic operation changes both views, so no part of the right to know the whole is there twice.
        let seat = self.table.shared.split_seat::<Halves>(&mut pass.seat);
        Pass {
            seat,
            room: PhantomData,
        }
    }

    /// This pass knows what both knew.
    #[inline(always)]
    pub fn absorb(&self, pass: &mut Pass<T, B>, other: Pass<T, B>)
        ensures { pass.new ≡ joined pass.old other }
    {
        self.table
            .shared
            // One atomic operation changes both views, so no fact is lost or counted twice.
            .join_seat::<Receives>(&mut pass.seat, other.seat);
    }

    /// A message that may be sent. From here on it counts as sent by this pass.
    #[inline(always)]
    pub fn pack(&self, pass: &mut Pass<T, B>, value: T) -> Parcel<T, B>
        ensures sent { pass.new ≡ after_sent pass.old value }
        ensures message { result ≡ value }
    {
        let bill = bill::<T, B, Brand>(self, pass, &value);
        Parcel {
            value,
            bill,
            room: PhantomData,
        }
    }

    /// The message of a parcel, which now counts as received by this pass.
    #[inline(always)]
    pub fn unpack(&self, pass: &mut Pass<T, B>, parcel: Parcel<T, B>) -> T
        ensures received { pass.new ≡ after_received pass.old result }
        ensures message { result ≡ parcel }
    {
        let table = &self.table.shared;
        // The waybill is used up by the operation that counts the message as received, so it counts once.
        table.join_seat::<Receives>(&mut pass.seat, parcel.bill);
        parcel.value
    }

    /// The message of a parcel that came back: it was refused, displaced or given up. It now counts as taken back by this pass, which need
    /// not be the one that sent it.
    #[inline(always)]
    pub fn take_back(&self, pass: &mut Pass<T, B>, parcel: Parcel<T, B>) -> T
        ensures returned { pass.new ≡ after_returned pass.old result }
        ensures message { result ≡ parcel }
    {
        let table = &self.table.shared;
        // The waybill is used up, so a message is received or taken back, never both.
        table.join_seat::<Returns>(&mut pass.seat, parcel.bill);
        parcel.value
    }

    /// A pass that has every part learns that what was sent is what was received, what was taken back, and what never came: it is in flight
    /// or was dropped. So no message was received more often than it was sent; and if as many were received as were sent, they are the
    /// same, each as often.
    #[inline(always)]
    pub fn learn(&self, pass: &mut Pass<T, B>)
        requires { pass.old.parts ≡ all_parts }
        ensures same { pass.new ≡ pass.old }
        ensures balanced { IsBalanced pass.old.sent pass.old.received pass.old.returned }
        ensures most { IsPartOf pass.old.received pass.old.sent }
        ensures settled { length pass.old.received ≡ length pass.old.sent → IsPermutation pass.old.sent pass.old.received }
    {
        // A load whose answer nobody needs: a view changes only in an atomic operation.
        self.table.shared.load::<Learns>(&mut pass.seat, 0);
    }
}
