//! Calls of a queue with a bound, with a witness of what they asked and what they were answered. Each call takes the witness and returns
//! it, and nothing else makes or changes one; so its view is what its party really did, in order.
//!
//! # Extensions
//!
//! All of this module.

ghost use Rattle.std.specs.Prelude.{◌≡◌, ◌∷◌, ◌++◌, [], true, None};
ghost use Rattle.concurrent_queue.specs.QueueTables.{form_of};
ghost use Rattle.concurrent_queue.specs.Replies.{AsksWords, MayAnswer};
ghost use Rattle.concurrent_queue.specs.history.Calls.{AsksCells};
ghost use Rattle.concurrent_queue.specs.history.Runs.{begun, fresh, IsRunWith};
ghost use Rattle.concurrent_queue.specs.history.Shared.{both_views};
ghost use Rattle.concurrent_queue.specs.declared.call.QueueAsk.TheVariants as ask;
ghost use Rattle.concurrent_queue.specs.declared.call.QueueReply.TheVariants as reply;

use crate::call::{QueueAsk, QueueReply};
use crate::error::{ForcePushError, PopError, PushError};
use crate::history::cells::HistoryCells;
use crate::history::party::{QueueCells, Witness};
use crate::queue_call::{QueueCall, whole};
use crate::shared::ruled::QueueTable;
use std::marker::Brand;
use std::sync::Wait;

/// Makes the calls of one party of a queue with a bound, and is the witness of what they asked and what they were answered. A party's calls
/// come one after another; threads may hand it on. At run time it is a reference to the queue; what it knows is in the proofs alone.
///
/// [`look`](Witnessed::look) says at any moment, whatever other threads do, that there is one history of all calls of this queue in which
/// these calls stand with these answers. Each call does what the queue's own call of that name does, and may wait as that does. The queue's
/// trace isn't shown these calls.
#[derive(Drop)]
pub struct Witnessed<'a, T: Drop> {
    table: &'a QueueTable<T>,
    witness: Witness<T>,
    ghost same: { witness.seat.table_id ≡ table.now.table.table.shared.table_id },
    ghost rests: { witness.seat.me.0.state.call ≡ None },
}

/// A witness of a new party that has made no call. It costs a load.
fn new_witness<T: Drop>(table: &QueueTable<T>) -> Witness<T>
    ensures fresh { result.seat.me.0.state ≡ fresh }
    ensures alone { result.seat.me.0.over ≡ [] }
    ensures same { result.seat.table_id ≡ table.now.table.table.shared.table_id }
{
    let seat = table.table.enter::<Brand, ()>(&());
    seat.rest()
}

/// The cells of the next call of the party of this witness, which asks this.
#[inline(always)]
fn next_cells<'a, T: Drop>(
    table: &'a QueueTable<T>,
    witness: Witness<T>,
    ask: &QueueAsk<T>,
) -> QueueCells<'a, T>
    requires same { witness.seat.table_id ≡ table.now.table.table.shared.table_id }
    requires rests { witness.seat.me.0.state.call ≡ None }
    ensures begun { result.seat.seat.me.0.state ≡ begun ask.now witness.seat.me.0.state }
    ensures form { result.seat.seat.me.0.form ≡ form_of table.now }
    ensures party { (result.seat.seat.table_id ≡ witness.seat.table_id) × (result.seat.seat.me.0.who ≡ witness.seat.me.0.who) × (result.seat.seat.me.0.over ≡ witness.seat.me.0.over) }
{
    let mut seat = table.table.go_on(witness);
    // From this step on the history has the call, and the seat can't rest before its machine has answered.
    seat.turn::<Brand, QueueAsk<T>>(ask);
    HistoryCells { seat }
}

/// A call that touches cells, as the next one of the party of this witness.
#[inline(always)]
fn make<T: Drop, R: Wait>(
    table: &QueueTable<T>,
    rt: &R,
    witness: Witness<T>,
    ask: QueueAsk<T>,
) -> (QueueReply<T>, Witness<T>)
    requires cells { AsksCells ask }
    requires same { witness.seat.table_id ≡ table.now.table.table.shared.table_id }
    requires rests { witness.seat.me.0.state.call ≡ None }
    ensures rests { result.1.seat.me.0.state.call ≡ None }
    ensures same { result.1.seat.table_id ≡ table.now.table.table.shared.table_id }
    ensures party { (result.1.seat.me.0.who ≡ witness.seat.me.0.who) × (result.1.seat.me.0.over ≡ witness.seat.me.0.over) }
    ensures asked { result.1.seat.me.0.state.asked ≡ witness.seat.me.0.state.asked ++ ask ∷ [] }
    ensures answered { result.1.seat.me.0.state.replies ≡ witness.seat.me.0.state.replies ++ result.0 ∷ [] }
    ensures answers { MayAnswer (form_of table.now) ask result.0 }
{
    let mut cells = next_cells(table, witness, &ask);
    let reply = whole::complete(rt, QueueCall::new(ask), &mut cells);
    let HistoryCells { seat } = cells;
    let after = seat.rest();
    (reply, after)
}

/// The same for a call that never waits.
#[inline(always)]
fn tell<T: Drop>(
    table: &QueueTable<T>,
    witness: Witness<T>,
    ask: QueueAsk<T>,
) -> (QueueReply<T>, Witness<T>)
    requires words { AsksWords ask }
    requires cells { AsksCells ask }
    requires same { witness.seat.table_id ≡ table.now.table.table.shared.table_id }
    requires rests { witness.seat.me.0.state.call ≡ None }
    ensures rests { result.1.seat.me.0.state.call ≡ None }
    ensures same { result.1.seat.table_id ≡ table.now.table.table.shared.table_id }
    ensures party { (result.1.seat.me.0.who ≡ witness.seat.me.0.who) × (result.1.seat.me.0.over ≡ witness.seat.me.0.over) }
    ensures asked { result.1.seat.me.0.state.asked ≡ witness.seat.me.0.state.asked ++ ask ∷ [] }
    ensures answered { result.1.seat.me.0.state.replies ≡ witness.seat.me.0.state.replies ++ result.0 ∷ [] }
    ensures answers { MayAnswer (form_of table.now) ask result.0 }
{
    let mut cells = next_cells(table, witness, &ask);
    let reply = whole::tell(ask, &mut cells);
    let HistoryCells { seat } = cells;
    (reply, seat.rest())
}

impl<'a, T: Drop> Witnessed<'a, T> {
    ghost use Rattle.std.specs.Prelude.{Some};
    ghost use Rattle.concurrent_queue.specs.Witnessed.{HasCalled, view_of, asked_in, replied_in, table_of};

    /// A witness of a party that has made no call yet.
    pub(crate) fn new(table: &'a QueueTable<T>) -> Witnessed<'a, T>
        ensures asked { asked_in result ≡ [] }
        ensures replied { replied_in result ≡ [] }
        ensures alone { (view_of result).over ≡ [] }
        ensures same { table_of result ≡ Some table.now.table.table.shared.table_id }
    {
        let witness = new_witness(table);
        Witnessed { table, witness }
    }

    /// Appends the message, as `push` of the queue does.
    pub fn push<R: Wait>(self, rt: &R, value: T) -> (Result<(), PushError<T>>, Witnessed<'a, T>)
        ensures called { HasCalled self.entry (ask.Push value) (reply.Push result.0) result.1 }
    {
        let Witnessed { table, witness } = self;
        let mut seat = table.table.go_on(witness);
        // The history has the call from here on, as in `next_cells`.
        seat.turn::<Brand, T>(&value);
        let (answer, cells) = whole::push(rt, value, HistoryCells { seat });
        let HistoryCells { seat } = cells;
        let witness = seat.rest();
        (answer, Witnessed { table, witness })
    }

    /// Appends the message, in the place of the oldest one if the queue is full, as `force_push` of the queue does.
    pub fn force_push<R: Wait>(
        self,
        rt: &R,
        value: T,
    ) -> (Result<Option<T>, ForcePushError<T>>, Witnessed<'a, T>)
        ensures called { HasCalled self.entry (ask.ForcePush value) (reply.Force result.0) result.1 }
    {
        let Witnessed { table, witness } = self;
        let (reply, witness) = make(table, rt, witness, QueueAsk::ForcePush(value));
        match reply {
            QueueReply::Force(answer) => (answer, Witnessed { table, witness }),
            _ => unreachable!(),
        }
    }

    /// Removes the oldest message, as `pop` of the queue does.
    pub fn pop<R: Wait>(self, rt: &R) -> (Result<T, PopError>, Witnessed<'a, T>)
        ensures called { HasCalled self.entry ask.Pop (reply.Pop result.0) result.1 }
    {
        let Witnessed { table, witness } = self;
        let mut seat = table.table.go_on(witness);
        // The history has the call from here on, as in `next_cells`.
        seat.turn::<Brand, ()>(&());
        let (answer, cells) = whole::pop(rt, HistoryCells { seat });
        let HistoryCells { seat } = cells;
        let witness = seat.rest();
        (answer, Witnessed { table, witness })
    }

    /// Closes the queue, as `close` of the queue does. It never waits.
    pub fn close(self) -> (bool, Witnessed<'a, T>)
        ensures called { HasCalled self.entry ask.Close (reply.Close result.0) result.1 }
    {
        let Witnessed { table, witness } = self;
        let (reply, witness) = tell(table, witness, QueueAsk::Close);
        match reply {
            QueueReply::Close(answer) => (answer, Witnessed { table, witness }),
            _ => unreachable!(),
        }
    }

    /// How many messages the queue held at a moment of the call, as `len` of the queue says.
    pub fn len<R: Wait>(self, rt: &R) -> (usize, Witnessed<'a, T>)
        ensures called { HasCalled self.entry ask.Len (reply.Count result.0) result.1 }
    {
        let Witnessed { table, witness } = self;
        let (reply, witness) = make(table, rt, witness, QueueAsk::Len);
        match reply {
            QueueReply::Count(answer) => (answer, Witnessed { table, witness }),
            _ => unreachable!(),
        }
    }

    /// Joins another witness of this queue, so that one look says of both that they are in one history. It costs one load.
    pub fn join(&mut self, other: Witnessed<'a, T>)
        requires same { table_of other ≡ table_of self.old }
        ensures joined { view_of self.new ≡ both_views (view_of self.old) (view_of other.entry) }
        ensures kept { table_of self.new ≡ table_of self.old }
    {
        let Witnessed { table: _, witness } = other;
        self.table.table.join(&mut self.witness, witness);
    }

    /// At any moment, whatever other threads are doing: what all calls of this queue have done so far is one run of a closable queue, in
    /// which these calls, and those of each joined witness, stand with their answers. `false`: a call was stepped from outside, and nothing
    /// is known. It costs one load.
    pub fn look(&mut self) -> bool
        ensures run { result ≡ true → IsRunWith (view_of self.old) }
        ensures kept { (view_of self.new ≡ view_of self.old) × (table_of self.new ≡ table_of self.old) }
    {
        self.table.table.run_so_far(&mut self.witness)
    }
}
