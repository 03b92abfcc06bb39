//! Seats of a recorded channel. A seat owns one part of the ledger; the invariant is that its amount counts the seat's number and its
//! accepted calls.

use std::marker::Model;
use std::sync::ledger::{Ledger, Share};

/// The right to make calls on the recorded channel of the ledger `L`. A seat of another channel has another type.
///
/// Contracts see its number and how many of its calls were accepted.
#[derive(Drop)]
pub struct RecordSeat<L: Ledger> {
    pub(crate) number: u32,
    /// One part of the ledger, whose amount counts the seat's number and its accepted calls.
    pub(crate) mine: Share<L>,
}

impl<L: Ledger> Model for RecordSeat<L> {
    ghost use Rattle.std.specs.Prelude.{◌≡◌, ◌<◌, ◌^◌};
    ghost use Rattle.channel_world.specs.RecordSeat.{SeatView, amount_of, calls_of_amount};

    ghost Value = { SeatView };

    ghost view = { λ s. record { number = s.number; calls = calls_of_amount s.mine.amount } };

    ghost invariant = { λ s. (s.mine.parts ≡ 1) × (s.number < 2 ^ 32) × (s.mine.amount ≡ amount_of s.number (calls_of_amount s.mine.amount)) };
}

impl<L: Ledger> RecordSeat<L> {
    ghost use Rattle.std.specs.Prelude.{◌≡◌};

    /// Its number, from 0 in the order in which the channel's seats were made.
    pub fn number(&self) -> u32
        ensures { result ≡ self.now.number }
    {
        self.number
    }
}
