//! A receiver's side, which checks the places of what comes. The invariant: for each sender it keeps the place after the last that it
//! accepted.

ghost use Rattle.std.specs.Prelude.{◌≡◌, ◌⊎◌, ℕ, ◌<◌, ◌≤◌, true, false, [], length, slice_index, IfOk, IfErr};
ghost use Rattle.waybill.specs.Accounts.{fresh, account};
ghost use Rattle.waybill.specs.Order.{of_sender, place_after, IsRising, IsGapless};
ghost use Rattle.waybill.specs.Sides.{Takes, takes, with_unpacked, IsInTurn, IsOutOfTurn};

use crate::line::Line;
use crate::numbered::{Numbered, OutOfTurn, Stopped};
use crate::rule::Room;
use crate::tokens::{Office, Parcel, Pass};
use std::alloc::{AllocError, Global};
use std::marker::Model;
use std::sync::Wait;

/// One receiver. It compares the place of each message with those of its sender that came earlier, so a queue that reorders messages is
/// found out. Contracts see whether it is the only receiver, how many senders it knows, and what it received.
#[derive(Drop)]
pub struct Sink<T, B: Room> {
    pass: Pass<Numbered<T>, B>,
    places: Vec<u64>,
    sole: bool,
}

impl<T, B: Room> Model for Sink<T, B> {
    ghost Value = { Takes T };

    ghost view = { λ s. takes s.sole (length s.places.items) s.pass.received };

    ghost invariant = { λ s. (s.pass ≡ account 1 [] s.pass.received []) × ((k : ℕ) → k < length s.places.items → slice_index s.places.items k ≡ place_after 0 (of_sender k s.pass.received)) × IsRising s.pass.received × (s.sole ≡ true → IsGapless s.pass.received) };
}

/// Whether a message with this place may come where this one is awaited.
#[inline(always)]
fn is_in_turn(sole: bool, awaited: u64, number: u64) -> bool
    ensures yes { result ≡ true → (awaited ≤ number) × (sole ≡ true → number ≡ awaited) }
    ensures no { result ≡ false → (number < awaited) ⊎ ((sole ≡ true) × (awaited < number)) }
{
    if sole {
        number == awaited
    } else {
        awaited <= number
    }
}

impl<T, B: Room> Sink<T, B> {
    /// The only receiver, of so many senders with numbers from 0 on: of each it accepts the next message and no other. `Err` if there is no
    /// memory for a place of each.
    pub fn sole(
        alloc: Global,
        pass: Pass<Numbered<T>, B>,
        senders: usize,
    ) -> Result<Sink<T, B>, AllocError>
        requires { pass ≡ fresh 1 }
        ensures { IfOk result (λ s. s ≡ takes true senders []) }
    {
        let places = Vec::from_elem(alloc, 0, senders)?;
        Ok(Sink {
            pass,
            places,
            sole: true,
        })
    }

    /// One receiver of several: of each sender it accepts any message that is later than those it accepted before.
    pub fn shared(
        alloc: Global,
        pass: Pass<Numbered<T>, B>,
        senders: usize,
    ) -> Result<Sink<T, B>, AllocError>
        requires { pass ≡ fresh 1 }
        ensures { IfOk result (λ s. s ≡ takes false senders []) }
    {
        let places = Vec::from_elem(alloc, 0, senders)?;
        Ok(Sink {
            pass,
            places,
            sole: false,
        })
    }

    /// The message of a parcel, with its sender's number and its place. It now counts as received. `Err` returns the parcel if it came out
    /// of turn.
    #[inline(always)]
    pub fn unpack(
        &mut self,
        office: &Office<Numbered<T>, B>,
        parcel: Parcel<Numbered<T>, B>,
    ) -> Result<Numbered<T>, OutOfTurn<Parcel<Numbered<T>, B>>>
        ensures message { IfOk result (λ m. m ≡ parcel) }
        ensures received { IfOk result (λ m. self.new ≡ with_unpacked self.old m) }
        ensures in_turn { IfOk result (λ m. IsInTurn self.old m) }
        ensures back { IfErr result (λ e. e.parcel ≡ parcel) }
        ensures same { IfErr result (λ e. self.new ≡ self.old) }
        ensures refused { IfErr result (λ e. IsOutOfTurn self.old e.parcel) }
    {
        let sender = parcel.value.sender as usize;
        let number = parcel.value.number;
        if sender >= self.places.len() || number == u64::MAX {
            return Err(OutOfTurn { parcel });
        }
        if !is_in_turn(self.sole, self.places[sender], number) {
            return Err(OutOfTurn { parcel });
        }
        self.places[sender] = number + 1;
        Ok(office.unpack(&mut self.pass, parcel))
    }

    /// Takes each parcel out of a line until that is closed. `Err` if there is no memory, and with the parcel if one came out of turn. It
    /// waits where the line does.
    pub fn receive_all<L: Line<Parcel<Numbered<T>, B>>, R: Wait>(
        self,
        rt: &R,
        alloc: Global,
        office: &Office<Numbered<T>, B>,
        line: &L,
    ) -> Result<(Pass<Numbered<T>, B>, Vec<Numbered<T>>), Stopped<Parcel<Numbered<T>, B>>>
    where
        T: Drop,
        requires { self.received ≡ [] }
        ensures pass { IfOk result (λ r. r.0 ≡ account 1 [] r.1.items []) }
        ensures rising { IfOk result (λ r. IsRising r.1.items) }
        ensures gapless { IfOk result (λ r. self.sole ≡ true → IsGapless r.1.items) }
    {
        let mut sink = self;
        let mut got = Vec::new(alloc);
        for _ in rt.forever() {
            let Some(parcel) = line.next() else {
                break;
            };
            if got.reserve(1).is_err() {
                return Err(Stopped::NoMemory);
            }
            match sink.unpack(office, parcel) {
                Ok(message) => got.push_reserved(message),
                Err(late) => return Err(Stopped::OutOfTurn(late)),
            }
        }
        Ok((sink.into_pass(), got))
    }

    /// The pass, which knows what was received: of each sender the places rise, and if this was the only receiver none is left out.
    pub fn into_pass(self) -> Pass<Numbered<T>, B>
        ensures received { result ≡ account 1 [] self.received [] }
        ensures rising { IsRising self.received }
        ensures gapless { self.sole ≡ true → IsGapless self.received }
    {
        self.pass
    }
}
