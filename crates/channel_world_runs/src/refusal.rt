//! Which calls are not begun, and why. A refusal only reads the names, so a refused call has changed nothing.

use crate::name_table::NameTable;
use crate::names::HandleEntry;
use channel_world_model::call::Call;
use channel_world_model::name::{HandleId, OpId, Operation};
use channel_world_model::plan::{Plan, Wanted};
use channel_world_model::refusal::WorldRefusal;

impl HandleEntry {
    ghost use Rattle.std.specs.Prelude.{◌≡◌, nat_lt, Some};
    ghost use Rattle.channel_world_model.specs.Refusal.{unfit_handle, borrowed_handle};
    ghost use Rattle.channel_world_runs.specs.NameTable.{is_polled};

    /// Why a call that needs this kind of handle doesn't go through it.
    fn unfit(self, wanted: Wanted) -> Option<WorldRefusal>
        ensures { result ≡ unfit_handle (is_polled self.poll_state) wanted (Some self.handle) }
    {
        if !wanted.fits(self.handle.kind) {
            return Some(WorldRefusal::WrongKind);
        }
        let is_polled = self.poll_state.is_polled();
        is_polled.then_some(WorldRefusal::OpUnderWay)
    }

    /// Why a call doesn't take it for good: an operation borrows it, or a call under way uses it.
    fn borrowed(self) -> Option<WorldRefusal>
        ensures { result ≡ borrowed_handle (nat_lt 0 self.users) (Some self.handle) }
    {
        let is_borrowed = 0 < self.handle.borrowers || 0 < self.users;
        is_borrowed.then_some(WorldRefusal::Borrowed)
    }
}

impl<T> NameTable<T> {
    ghost use Rattle.std.specs.Prelude.{◌≡◌, ◌||◌};
    ghost use Rattle.std.specs.Option.{option_or};
    ghost use Rattle.channel_world_model.specs.Refusal.{unfit_handle, unlike_handles, borrowed_handle, unfit_operation, unfit_send, planned_refusal};
    ghost use Rattle.channel_world_model.specs.declared.name.Waiter.TheVariants.{Op, Stream};
    ghost use Rattle.channel_world_runs.specs.NameTable.{names_of};
    ghost use Rattle.channel_world_runs.specs.Refusal.{under_way_in, handle_at, operation_at, begin_refusal};

    /// Why a call that needs this kind of handle doesn't go through this one.
    fn through_refusal(&self, wanted: Wanted, handle: HandleId) -> Option<WorldRefusal>
        ensures { let u = under_way_in self.now in result ≡ unfit_handle (u.polled (Stream handle)) wanted (handle_at handle self.now) }
    {
        match self.handles.get(handle.0) {
            Some(handle_entry) => (*handle_entry).unfit(wanted),
            None => Some(WorldRefusal::UnknownName),
        }
    }

    /// Why a call that needs this kind of handle doesn't take this one for good.
    fn taking_refusal(&self, wanted: Wanted, handle: HandleId) -> Option<WorldRefusal>
        ensures { let u = under_way_in self.now in
            result ≡ option_or (unfit_handle (u.polled (Stream handle)) wanted (handle_at handle self.now)) (borrowed_handle (u.used handle) (handle_at handle self.now)) }
    {
        match self.handles.get(handle.0) {
            Some(handle_entry) => (*handle_entry).unfit(wanted).or((*handle_entry).borrowed()),
            None => Some(WorldRefusal::UnknownName),
        }
    }

    /// Why a call doesn't go through these two, which have to be two senders or two receivers.
    fn unlike_handles(&self, a: HandleId, b: HandleId) -> Option<WorldRefusal>
        ensures { let u = under_way_in self.now in
            result ≡ unlike_handles (u.polled (Stream a) || u.polled (Stream b)) (handle_at a self.now) (handle_at b self.now) }
    {
        let (Some(a), Some(b)) = (self.handles.get(a.0), self.handles.get(b.0)) else {
            return Some(WorldRefusal::UnknownName);
        };
        if a.handle.kind != b.handle.kind || !Wanted::Strong.fits(a.handle.kind) {
            return Some(WorldRefusal::WrongKind);
        }
        let is_polled = a.poll_state.is_polled() || b.poll_state.is_polled();
        is_polled.then_some(WorldRefusal::OpUnderWay)
    }

    /// Why this operation is neither polled nor given up.
    fn unfit_operation(&self, op: OpId) -> Option<WorldRefusal>
        ensures { let u = under_way_in self.now in result ≡ unfit_operation (u.polled (Op op)) (operation_at op self.now) }
    {
        match self.operations.get(op.0) {
            Some(entry) if entry.poll_state.is_polled() => Some(WorldRefusal::OpUnderWay),
            Some(_) => None,
            None => Some(WorldRefusal::UnknownName),
        }
    }

    /// Why this operation is not asked whether it has finished, as a send is.
    fn unfit_send(&self, op: OpId) -> Option<WorldRefusal>
        ensures { result ≡ unfit_send (operation_at op self.now) }
    {
        match self.operations.get(op.0) {
            Some(entry) if matches!(entry.operation, Operation::Send { .. }) => None,
            Some(_) => Some(WorldRefusal::WrongKind),
            None => Some(WorldRefusal::UnknownName),
        }
    }

    /// Why a call of this plan is not begun.
    fn planned_refusal(&self, plan: Plan) -> Option<WorldRefusal>
        ensures { result ≡ planned_refusal (under_way_in self.now) (names_of self.now) plan }
    {
        match plan {
            Plan::Through(wanted, handle) => self.through_refusal(wanted, handle),
            Plan::ThroughBoth(a, b) => self.unlike_handles(a, b),
            Plan::Makes(wanted, handle, op, _) => {
                let taken = (self.operations.is_taken(op.0)).then_some(WorldRefusal::NameTaken);
                self.through_refusal(wanted, handle).or(taken)
            }
            Plan::Polls(op) | Plan::GivesUp(op) => self.unfit_operation(op),
            Plan::Asks(op) => self.unfit_send(op),
            Plan::Streams(receiver) => self.taking_refusal(Wanted::Receiver, receiver),
            Plan::Drops(handle) => self.taking_refusal(Wanted::Any, handle),
            Plan::Mints(wanted, from, new, _) => {
                let taken = (self.handles.is_taken(new.0)).then_some(WorldRefusal::NameTaken);
                self.through_refusal(wanted, from).or(taken)
            }
        }
    }

    /// Why the call is not begun, room and parties aside. It looks once at each handle or operation that the call names.
    pub fn refusal(&self, call: &Call<T>) -> Option<WorldRefusal>
        ensures { result ≡ begin_refusal self.now call.now }
    {
        self.planned_refusal(Plan::of(call))
    }
}
