//! What calls write back when they end, and which names they wake. Names change only here and when a call begins.

use crate::name_table::NameTable;
use crate::names::{HandleEntry, OnReturn, PollState};
use crate::world_state::WorldState;
use channel_calls::reply::Reply;
use channel_calls::stage::Returned;
use channel_world_model::name::{OpId, Waiter};

impl<T: Drop> NameTable<T> {
    ghost use Rattle.std.specs.Prelude.{◌≡◌, Option};
    ghost use Rattle.channel_world_runs.specs.Bookkeeping.{with_operation, restored, written_back};

    /// The operation gets back what its poll left to it.
    fn restore(&mut self, op: OpId, kept: Returned<T>)
        ensures { self.new ≡ with_operation (restored kept) op self.old }
    {
        if let Some(mut entry) = self.operations.take(op.0) {
            entry.operation = entry.operation.with_message(kept.message);
            entry.poll_state = PollState::with(kept.key);
            self.operations.set(op.0, entry);
        }
    }

    /// Writes back what a call has to that gave this reply and left this.
    pub(crate) fn settle(&mut self, on_return: OnReturn<T>, reply: &Reply<T>, kept: Returned<T>)
        ensures { self.new ≡ written_back on_return reply.now kept self.old }
    {
        match on_return {
            OnReturn::Nothing => {}
            OnReturn::Leave(handle) => self.give_back(handle),
            OnReturn::LeaveBoth(a, b) => {
                self.give_back(a);
                self.give_back(b);
            }
            OnReturn::Make(op, operation) => self.operations.set(op.0, operation),
            OnReturn::Poll(op) => self.restore(op, kept),
            OnReturn::PollNext(receiver) => {
                self.restand(receiver, PollState::with(kept.key));
                self.give_back(receiver);
            }
            OnReturn::New(from, new, kind) => {
                self.give_back(from);
                if let Reply::Made = reply {
                    self.handles.set(new.0, HandleEntry::unused(kind));
                }
            }
        }
    }
}

impl<T: Drop> WorldState<T> {
    ghost use Rattle.std.specs.Prelude.{◌≡◌, ◌<◌, vec_len, slice_get, Some, drop};
    ghost use Rattle.channel_steps.specs.Configuration.{left_by, unless_answered};
    ghost use Rattle.channel_world_runs.specs.Calls.{agent_of};
    ghost use Rattle.channel_world_runs.specs.Order.{all_woken};
    ghost use Rattle.channel_world_runs.specs.Run.{name_state_ended};
    ghost use Rattle.channel_world_runs.specs.WorldState.{name_state_of};
    ghost use Rattle.channel_world_runs.specs.declared.calls.CallUnderWay.{CallUnderWay};

    /// Wakes, in order, those names from this place on that are pending.
    pub(crate) fn wake_from(&mut self, names: &Vec<Waiter>, from: usize)
        ensures { self.new ≡ record self.old { order = all_woken self.old.name_table (drop from names.now.items) self.old.order } }
    {
        for k in from..names.len() {
            if self.name_table.is_pending(names[k]) {
                self.order.wake(names[k]);
            }
        }
    }

    /// If the k-th call has answered, writes back what it has to and removes it from those under way.
    pub(crate) fn write_back(&mut self, k: usize, reply: &Option<Reply<T>>)
        requires { k < vec_len self.old.calls }
        ensures calls { self.new.calls.items ≡ unless_answered k reply.now self.old.calls.items }
        ensures names { (c : CallUnderWay T) → slice_get self.old.calls.items k ≡ Some c
            → name_state_of self.new ≡ name_state_ended k (agent_of c) reply.now (left_by c.party reply.now) (name_state_of self.old) }
        ensures rest { self.new ≡ record self.old { name_table = self.new.name_table; order = self.new.order; calls = self.new.calls } }
    {
        if let Some(reply) = reply {
            let call = self.calls.remove(k);
            let kept = call.party.into_kept();
            self.order.settle(&call.on_return, kept.key);
            self.name_table.settle(call.on_return, reply, kept);
        }
    }
}
