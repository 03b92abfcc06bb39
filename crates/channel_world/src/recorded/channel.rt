//! The recorded channel. Its lock owns the world, the record and the unused parts of the ledger; the invariant is that the record leads
//! from the opened channel to the channel as it is.

ghost use Rattle.std.specs.Prelude.{◌≡◌, ◌<◌, ◌≤◌, ◌+◌, ◌-◌, ◌^◌, Err, IsOk, IfOk, IfErr, OnOk, OnErr, length};
ghost use Rattle.channel_world_model.specs.State.{start};
ghost use Rattle.channel_world.specs.RecordReplay.{EndsHistory};
ghost use Rattle.channel_world.specs.RecordSeat.{calls_of, numbers_of, with_call_more, sum_below};
ghost use Rattle.channel_world.specs.Recording.{call_in};
ghost use Rattle.channel_world.specs.View.{at_rest, IsQuiet};

use super::error::{RecordError, SeatsUsedUp};
use super::receipt::Receipt;
use super::record::Record;
use super::recording::Recording;
use super::seat::RecordSeat;
use crate::call::Call;
use crate::world::World;
use channel_calls::error::OpenError;
use event_listener::id::EventIds;
use std::alloc::Global;
use std::marker::Model;
use std::sync::ledger::{Blank, Ledger};
use std::sync::{Mutex, Wait};

/// A channel between threads, its handles and operations called by their names, one call at a time under one lock, with the record of all
/// its calls.
///
/// It is used in a function over its ledger `L`, so that a seat of another channel has another type and can't be used here.
#[derive(Drop)]
pub struct RecordedChannel<T: Copy, L: Ledger> {
    inner: Mutex<Recording<T, L>>,
}

/// A recorded channel that nobody else calls, so that no seat is made of it meanwhile. Contracts see how many were made.
#[derive(Drop)]
pub struct HeldChannel<T: Copy, L: Ledger> {
    recording: Recording<T, L>,
}

impl<T: Copy, L: Ledger> Model for HeldChannel<T, L> {
    ghost use Rattle.channel_world.specs.RecordSeat.{HeldView};

    ghost Value = { HeldView };

    ghost view = { λ h. record { seats = h.recording.seats } };
}

impl<T: Copy, L: Ledger> HeldChannel<T, L> {
    /// How many seats were made of it.
    pub fn seats(&self) -> u64
        ensures { result ≡ self.now.seats }
    {
        self.recording.seats()
    }

    /// The channel, for calls of its seats and for more seats.
    pub fn share(self) -> RecordedChannel<T, L> {
        RecordedChannel {
            inner: Mutex::new(self.recording),
        }
    }
}

/// Not every seat was gathered: the channel and the seats are returned, and the channel can be used on.
#[derive(Drop)]
pub struct MissingSeat<T: Copy, L: Ledger> {
    /// The channel, with the number of seats that were made of it.
    pub channel: HeldChannel<T, L>,
    /// The seats that were gathered.
    pub seats: Vec<RecordSeat<L>>,
}

impl<T: Copy, L: Ledger> RecordedChannel<T, L> {
    /// An open channel of this capacity, without a message and with an empty record. The ledger is this channel's alone, and has so many
    /// parts: one for each seat, and one that stays with the channel.
    ///
    /// `Err` as of `World::bounded`, and then the blank is returned.
    pub fn bounded(
        alloc: Global,
        capacity: usize,
        ids: &mut EventIds,
        blank: Blank,
        parts: u64,
    ) -> Result<Self, (OpenError, Blank)>
        requires capacity { 0 < capacity }
        requires name { blank.name ≡ L.name }
        requires parts { (blank.parts ≡ L.parts) × (blank.parts ≡ parts) }
        ensures ids { OnOk result (ids.new ≡ ids.old + 4) }
        ensures unchanged { OnErr result (ids.new ≡ ids.old) }
        ensures back { IfErr result (λ e. e.1 ≡ blank) }
        ensures limit { 2 ^ 58 < capacity → result ≡ Err (OpenError.NoMemory, blank) }
        ensures used_up { IfErr result (λ e. e.0 ≡ OpenError.IdsUsedUp → 2 ^ 64 - 1 < ids.old + 4) }
    {
        match World::bounded(alloc, capacity, ids) {
            Ok(world) => Ok(Self::over(Some(capacity), world, blank, parts)),
            Err(why) => Err((why, blank)),
        }
    }

    /// An open channel for any number of messages, otherwise as `bounded`.
    pub fn unbounded(
        alloc: Global,
        ids: &mut EventIds,
        blank: Blank,
        parts: u64,
    ) -> Result<Self, (OpenError, Blank)>
        requires name { blank.name ≡ L.name }
        requires parts { (blank.parts ≡ L.parts) × (blank.parts ≡ parts) }
        ensures ids { OnOk result (ids.new ≡ ids.old + 4) }
        ensures unchanged { OnErr result (ids.new ≡ ids.old) }
        ensures back { IfErr result (λ e. e.1 ≡ blank) }
        ensures used_up { IfErr result (λ e. e.0 ≡ OpenError.IdsUsedUp → 2 ^ 64 - 1 < ids.old + 4) }
    {
        match World::unbounded(alloc, ids) {
            Ok(world) => Ok(Self::over(None, world, blank, parts)),
            Err(why) => Err((why, blank)),
        }
    }

    // A world that was just opened, under its lock.
    fn over(capacity: Option<usize>, world: World<T>, blank: Blank, parts: u64) -> Self
        requires opened { at_rest world ≡ start capacity }
        requires quiet { IsQuiet world }
        requires name { blank.name ≡ L.name }
        requires parts { (blank.parts ≡ L.parts) × (blank.parts ≡ parts) }
    {
        RecordedChannel {
            inner: Mutex::new(Recording::new(capacity, world, blank, parts)),
        }
    }

    /// One more seat, which has made no call. Seats are numbered from 0 in the order in which they are made.
    ///
    /// `Err` if no part of the ledger but the last is left, or if 2^32 seats were made. It may wait for the lock.
    pub fn seat<R: Wait>(&self, rt: &R) -> Result<RecordSeat<L>, SeatsUsedUp>
        ensures idle { IfOk result (λ s. s.calls ≡ 0) }
        ensures below { IfOk result (λ s. s.number + 1 < L.parts) }
    {
        Recording::seat_behind(&self.inner, rt)
    }

    /// Makes a call from its beginning to its end, with no other under way, and records it; the receipt is a copy of the entry. What it
    /// answers and wakes is the model's after the calls that come before it in the record, all of the seat's own among them.
    ///
    /// `Err` for want of room for the entry or the receipt, or as `World::run_calls` refuses it. Then nothing has changed, nothing is
    /// recorded and the call is returned. It may wait for the lock.
    pub fn call<R: Wait>(
        &self,
        rt: &R,
        seat: &mut RecordSeat<L>,
        call: Call<T>,
    ) -> Result<Receipt<T>, RecordError<T>>
        ensures asked { IfOk result (λ r. (r.call ≡ call) × (r.seat ≡ seat.old.number)) }
        ensures ends { IfOk result (λ r. EndsHistory r) }
        ensures behind { IfOk result (λ r. seat.old.calls ≤ r.place) }
        ensures counted { OnOk result (seat.new ≡ with_call_more seat.old) }
        ensures back { IfErr result (λ e. call_in e ≡ call) }
        ensures idle { OnErr result (seat.new ≡ seat.old) }
    {
        self.inner.lock(rt).call(seat, call)
    }

    /// The record, if all seats that were made are gathered: it has as many entries as they made accepted calls. The sum of their numbers
    /// is that of the numbers from 0 on, one for each seat. A channel of which no seat was made is finished with the empty list. If the
    /// seats have all parts of the ledger but the channel's own, none is missing.
    ///
    /// If fewer seats are gathered than were made the channel and the seats are returned.
    pub fn finish(self, seats: Vec<RecordSeat<L>>) -> Result<Record<T>, MissingSeat<T, L>>
        ensures counted { IfOk result (λ r. length r.entries ≡ calls_of seats.items) }
        ensures numbered { OnOk result (numbers_of seats.items ≡ sum_below (length seats.items)) }
        ensures gathered { L.parts ≤ length seats.items + 1 → IsOk result }
        ensures missing { IfErr result (λ m. length m.seats.items < m.channel.seats) }
        ensures back { IfErr result (λ m. m.seats.items ≡ seats.items) }
    {
        match self.inner.into_inner().finish(seats) {
            Ok(record) => Ok(record),
            Err((recording, seats)) => Err(MissingSeat {
                channel: HeldChannel { recording },
                seats,
            }),
        }
    }
}
