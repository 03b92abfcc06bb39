//! Laws of what calls of handles report to traces. Each is the contract of a function that does nothing.

ghost use Rattle.event_listener.specs.declared.waking.Task.{Task as Waiter};
ghost use Rattle.handle_laws.specs.Events.{WalksAct, CallsAct, PollsAct, SendPollsAct, ClonesAct, UpgradesAct, SeveralAct, FillsAct, BlocksAct, RestedAct, StandsAct};

use async_channel::Trace;

/// What a public call of a handle or an operation reports to its channel's trace, or to a caller's, is what `merges_are_runs` of
/// `channel_steps` asks of its party: operations of the queue, on the wait queues and on the counts, that are the party's next events, with
/// the answer that came out. So if the events of many such calls come in one order in which each answer is what the channel then held, the
/// whole is a run, and the headline holds of it. Nothing is known of the trace but the trait. First of all the trace saw the call begin on
/// the handle's own channel, by its seal, and on no other.
///
/// A call that blocks its thread made whole calls one after another: some that don't wait, a first poll, and polls that ask their listener
/// first. Before a critical section on a wait queue it may have asked for a task and slept. Each of these calls has its events. If it was
/// refused its task before it ever slept, its first poll stays for ever where it was to register, and a poll that is refused its task is
/// made beside it, as by another party. A walk that waits for each message makes such a call for each item.
pub fn walks_of_handles_act<T, S: Trace<T>>()
    ensures walks { WalksAct {W = Waiter} S.did S.shown }
    ensures calls { CallsAct {W = Waiter} S.did S.shown S.entered }
    ensures polls { PollsAct {W = Waiter} S.did S.shown S.entered }
    ensures send_polls { SendPollsAct {W = Waiter} S.did S.shown S.entered }
    ensures clones { ClonesAct {W = Waiter} S.did S.shown S.entered }
    ensures upgrades { UpgradesAct {W = Waiter} S.did S.shown S.entered }
    ensures several { SeveralAct {W = Waiter} S.did S.shown S.entered }
    ensures fills { FillsAct {W = Waiter} S.did S.shown S.entered }
    ensures blocks { BlocksAct {W = Waiter} S.did S.shown S.parked S.slept S.entered }
    ensures rested { RestedAct {W = Waiter} S.did S.shown S.parked S.slept }
    ensures stands { StandsAct {W = Waiter} S.did S.shown S.parked S.slept }
{}
