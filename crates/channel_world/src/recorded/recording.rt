//! What is behind the lock: a world with the record of its calls. Only a call that holds the lock changes either, and it changes both.

ghost use Rattle.std.specs.Prelude.{◌≡◌, ◌⊎◌, ◌<◌, ◌≤◌, ◌+◌, ◌^◌, ◌∷◌, ◌++◌, [], IfSome, IsOk, IfOk, IfErr, OnOk, OnErr, length, vec_len, vec_capacity};
ghost use Rattle.channel_world.specs.Listed.{listed, most_listed};
ghost use Rattle.channel_world.specs.World.{most_woken};
ghost use Rattle.channel_world.specs.View.{at_rest};

use super::copies::{copied_reply, filled, most_listed};
use super::error::{RecordError, SeatsUsedUp};
use super::names::Names;
use super::receipt::Receipt;
use super::record::Record;
use super::seat::RecordSeat;
use crate::call::{Call, WorldRefusal};
use crate::name::Waiter;
use crate::world::World;
use std::marker::Model;
use std::sync::ledger::{Blank, Book, Ledger, Share};
use std::sync::{Mutex, Wait};

/// How many seats there are at most, since a seat's number has 32 bits.
const MOST_SEATS: u64 = 1 << 32;

/// What a call counts for in the ledger: more than the numbers of so many seats add up to, so the total tells both.
const CALL_WEIGHT: u64 = u64::MAX;

/// A world with the record of its calls, the book of the ledger, and those of its parts that no seat has. The book counts the entries, and
/// the numbers of the seats that were made.
#[derive(Drop)]
pub(crate) struct Recording<T: Copy, L: Ledger> {
    /// The capacity with which the channel was opened.
    capacity: Option<usize>,
    world: World<T>,
    entries: Vec<Receipt<T>>,
    book: Book<L>,
    rest: Share<L>,
    /// How many parts no seat has, the channel's last one among them.
    left: u64,
    /// How many seats were made.
    made: u64,
}

impl<T: Copy, L: Ledger> Model for Recording<T, L> {
    ghost use Rattle.std.specs.Prelude.{◌≡◌, [], vec_len};
    ghost use Rattle.channel_world.specs.Recording.{RecordingView, IsRecording};
    ghost use Rattle.channel_world.specs.View.{at_rest, IsQuiet};

    ghost Value = { RecordingView T };

    ghost view = { λ r. record { capacity = r.capacity; state = at_rest r.world; entries = r.entries.items; seats = r.made; parts = r.left } };

    ghost invariant = { λ r. IsQuiet r.world × IsRecording (record { capacity = r.capacity; state = at_rest r.world; entries = r.entries.items; seats = r.made; parts = r.left }) (vec_len r.entries) r.book.total r.rest.parts r.rest.amount L.parts };
}

impl<T: Copy, L: Ledger> Recording<T, L> {
    ghost use Rattle.channel_world_model.specs.State.{start};
    ghost use Rattle.channel_world.specs.RecordReplay.{EndsHistory, MadeAsSaid};
    ghost use Rattle.channel_world.specs.RecordSeat.{calls_of, new_seat, numbers_of, with_call_more, sum_below};
    ghost use Rattle.channel_world.specs.Recording.{with_seat, call_in, MayRefuseRecorded};
    ghost use Rattle.channel_world.specs.View.{at_rest, IsQuiet};

    /// A world that was just opened, with an empty record and all parts of the ledger.
    pub(crate) fn new(capacity: Option<usize>, world: World<T>, blank: Blank, parts: u64) -> Self
        requires opened { at_rest world ≡ start capacity }
        requires quiet { IsQuiet world }
        requires name { blank.name ≡ L.name }
        requires parts { (blank.parts ≡ L.parts) × (blank.parts ≡ parts) }
        ensures { result ≡ record { capacity = capacity; state = at_rest world; entries = []; seats = 0; parts = parts } }
    {
        let (book, rest) = blank.open::<L>();
        Recording {
            capacity,
            entries: Vec::new(world.alloc()),
            world,
            book,
            rest,
            left: parts,
            made: 0,
        }
    }

    /// One more seat of the recording behind this lock. A seat is made only under the lock; finishing a channel never waits, so it makes
    /// none.
    pub(crate) fn seat_behind<R: Wait>(
        lock: &Mutex<Self>,
        rt: &R,
    ) -> Result<RecordSeat<L>, SeatsUsedUp>
        ensures idle { IfOk result (λ s. s.calls ≡ 0) }
        ensures below { IfOk result (λ s. s.number + 1 < L.parts) }
    {
        lock.lock(rt).seat()
    }

    /// One more seat, with one part of the ledger, in which its number is counted; the last part stays here.
    fn seat(&mut self) -> Result<RecordSeat<L>, SeatsUsedUp>
        ensures seat { IfOk result (λ s. s ≡ new_seat self.old.seats) }
        ensures below { IfOk result (λ s. s.number + 1 < L.parts) }
        ensures made { OnOk result (self.new ≡ with_seat self.old) }
        ensures used_up { OnErr result ((self.old.parts ≤ 1) ⊎ (self.old.seats ≡ 2 ^ 32)) }
        ensures unchanged { OnErr result (self.new ≡ self.old) }
    {
        if self.left <= 1 || self.made >= MOST_SEATS {
            return Err(SeatsUsedUp);
        }
        let number = self.made as u32;
        let mut mine = self.rest.split_off(1, 0);
        self.book.add(&mut mine, self.made);
        self.left -= 1;
        self.made += 1;
        Ok(RecordSeat { number, mine })
    }

    /// How many seats were made.
    pub(crate) fn seats(&self) -> u64
        ensures { result ≡ self.now.seats }
    {
        self.made
    }

    /// Makes a call for a seat and records it. Room for its entry and its receipt is reserved first.
    pub(crate) fn call(
        &mut self,
        seat: &mut RecordSeat<L>,
        call: Call<T>,
    ) -> Result<Receipt<T>, RecordError<T>>
        ensures asked { IfOk result (λ r. (r.call ≡ call) × (r.seat ≡ seat.old.number)) }
        ensures place { IfOk result (λ r. r.place ≡ length self.old.entries) }
        ensures made { IfOk result (λ r. MadeAsSaid self.old.state r self.new.state) }
        ensures ends { IfOk result (λ r. EndsHistory r) }
        ensures behind { IfOk result (λ r. seat.old.calls ≤ r.place) }
        ensures recorded { IfOk result (λ r. self.new ≡ record self.old { state = self.new.state; entries = self.old.entries ++ r ∷ [] }) }
        ensures counted { OnOk result (seat.new ≡ with_call_more seat.old) }
        ensures why { IfErr result (λ e. MayRefuseRecorded self.old.state e) }
        ensures back { IfErr result (λ e. call_in e ≡ call) }
        ensures unchanged { OnErr result (self.new ≡ self.old) }
        ensures idle { OnErr result (seat.new ≡ seat.old) }
    {
        let Some(lists) = room_for(&self.world, &mut self.entries, &call) else {
            return Err(RecordError::NoRoom { call });
        };
        if let Some(why) = self.world.refusal(&call) {
            return Err(RecordError::World { why, call });
        }
        let Ok(done) = self.world.answer(call) else {
            let why = WorldRefusal::NoMemory;
            return Err(RecordError::World { why, call });
        };
        self.book.audit(&mut seat.mine);
        let entry = Receipt {
            place: self.entries.len(),
            seat: seat.number,
            call,
            reply: done.reply,
            woken: Names::new(done.woken),
        };
        let receipt = copied_receipt(&entry, lists);
        self.entries.push_reserved(entry);
        self.book.add(&mut seat.mine, CALL_WEIGHT);
        Ok(receipt)
    }

    /// The record, if as many seats are gathered as were made. Otherwise all is returned.
    pub(crate) fn finish(
        self,
        mut seats: Vec<RecordSeat<L>>,
    ) -> Result<Record<T>, (Self, Vec<RecordSeat<L>>)>
        ensures all { OnOk result (length seats.items ≡ self.seats) }
        ensures record { IfOk result (λ r. r ≡ record { capacity = self.capacity; entries = self.entries }) }
        ensures counted { IfOk result (λ r. (numbers_of seats.items ≡ sum_below (length seats.items))
            × (length r.entries ≡ calls_of seats.items)) }
        ensures missing { OnErr result (length seats.items < self.seats) }
        ensures gathered { L.parts ≤ length seats.items + 1 → IsOk result }
        ensures back { IfErr result (λ b. (b.0 ≡ self) × (b.1.items ≡ seats.items)) }
    {
        if (seats.len() as u64) < self.made {
            return Err((self, seats));
        }
        let mut all = self.rest;
        while let Some(seat) = seats.pop() {
            all.merge(seat.mine);
        }
        let mut book = self.book;
        book.audit(&mut all);
        Ok(Record {
            capacity: self.capacity,
            entries: self.entries,
        })
    }
}

/// Room for the lists that a receipt holds.
#[derive(Drop)]
struct Lists<T> {
    names: Vec<Waiter>,
    messages: Vec<T>,
}

/// Room for the lists of a call's receipt, once there is room for its entry; `None` if room is refused.
fn room_for<T: Copy>(
    world: &World<T>,
    entries: &mut Vec<Receipt<T>>,
    call: &Call<T>,
) -> Option<Lists<T>>
    ensures names { IfSome result (λ lists. (lists.names.items ≡ []) × (most_woken call.now (at_rest world.now).waiting ≤ vec_capacity lists.names)) }
    ensures messages { IfSome result (λ lists. (lists.messages.items ≡ []) × (most_listed call.now ≤ vec_capacity lists.messages)) }
    ensures room { IfSome result (λ lists. vec_len entries.new < vec_capacity entries.new) }
    ensures entries { (entries.new.items ≡ entries.old.items) × (vec_len entries.new ≡ vec_len entries.old) }
{
    let most = world.room_for(call)?;
    let names = Vec::with_capacity(world.alloc(), most).ok()?;
    let messages = Vec::with_capacity(world.alloc(), most_listed(call)).ok()?;
    entries.reserve(1).ok()?;
    Some(Lists { names, messages })
}

/// The receipt of an entry: its copy, whose lists lie in the room that was reserved for them.
fn copied_receipt<T: Copy>(entry: &Receipt<T>, lists: Lists<T>) -> Receipt<T>
    requires empty { (lists.names.items ≡ []) × (lists.messages.items ≡ []) }
    requires names { length entry.now.woken ≤ vec_capacity lists.names }
    requires messages { length (listed entry.now.reply) ≤ vec_capacity lists.messages }
    ensures same { result ≡ entry.now }
{
    Receipt {
        reply: copied_reply(&entry.reply, lists.messages),
        woken: Names::new(filled(lists.names, entry.woken.as_slice())),
        ..*entry
    }
}
