//! Two numbers go through one place, from one thread to another: what the one sent stands in the history in its order, and what the other took
//! is the oldest that came in.

ghost use Rattle.std.specs.Prelude.{◌≡◌, [], ◌∷◌, IsSome};
ghost use Rattle.async_channel.specs.Witness.{IsOf, IsTold, MayCall};
ghost use Rattle.channel_cells.specs.Channel.{standing_of};
ghost use Rattle.examples.specs.Sends.{HasSentEach, SentNext};

use crate::witnesses::{calls_of_receiver, calls_of_sender};
use async_channel::{
    EventIds, OfSenders, Receiver, Refused, Runtime, SendError, Sender, Witness, Witnessed, bounded,
};
use std::alloc::Global;
use std::sync::Wait;
use std::thread;

/// What came of a number that was sent.
type Sent = Result<(), Refused<SendError<u64>, u64>>;

/// Sends a number: what came of it, and the witness.
fn send<R: Wait + Copy>(
    calls: &Witnessed<'_, u64, R, OfSenders>,
    witness: Witness<u64>,
    number: u64,
) -> (Sent, Witness<u64>)
    requires here { IsOf calls.now witness }
    requires rests { MayCall witness }
    ensures here { IsOf calls.now result.1 }
    ensures rests { MayCall result.1 }
    ensures sent { SentNext (standing_of witness) number result.0 (standing_of result.1) }
{
    calls.send_blocking(witness, number)
}

/// Sends two numbers, one after the other: what came of each, and the witness of both sends.
fn send_two<R: Wait + Copy>(channel: &Sender<u64, R>) -> (Sent, Sent, Witness<u64>)
    requires { IsSome channel.now.table }
    ensures channel { IsOf channel.now result.2 }
    ensures sent { HasSentEach ((1, result.0) ∷ (2, result.1) ∷ []) result.2 }
    ensures rests { MayCall result.2 }
{
    let calls = calls_of_sender(channel);
    let (first, witness) = send(&calls, calls.witness(), 1);
    let (second, witness) = send(&calls, witness, 2);
    (first, second, witness)
}

/// Receives two numbers, one after the other: their sum, and the witness of both receives.
fn receive_two<R: Wait + Copy>(channel: &Receiver<u64, R>) -> (u64, Witness<u64>)
    requires { IsSome channel.now.channel.table }
    ensures channel { IsOf channel.now.channel result.1 }
    ensures rests { MayCall result.1 }
{
    let calls = calls_of_receiver(channel);
    let (first, witness) = calls.recv_blocking(calls.witness());
    let (second, witness) = calls.recv_blocking(witness);
    (
        first.unwrap_or(0).wrapping_add(second.unwrap_or(0)),
        witness,
    )
}

/// What a relay comes to: what came of each number that was sent, and the sum of those that came. `told` is said of the witness of all four
/// calls.
fn relay<R: Runtime>(
    rt: &R,
    to: &Sender<u64, R>,
    from: &Receiver<u64, R>,
) -> (Sent, Sent, u64, Witness<u64>)
    requires bound { IsSome to.now.table }
    requires same { from.now.channel ≡ to.now }
    ensures told { IsTold result.3 }
    ensures sent { HasSentEach ((1, result.0) ∷ (2, result.1) ∷ []) result.3 }
{
    let ((first, second, mut witness), (sum, received)) = thread::join(
        rt,
        move || send_two(to),
        move || receive_two(from),
    );
    let calls = calls_of_sender(to);
    calls.join(&mut witness, received);
    calls.look(&mut witness);
    (first, second, sum, witness)
}

/// Two numbers go through one place: how many were accepted, and their sum, as one number.
pub(crate) fn sum<R: Runtime>(rt: R, alloc: Global, ids: &mut EventIds) -> Option<u64> {
    let (sender, receiver) = bounded(rt, alloc, 1, ids).ok()?;
    let (first, second, sum, _) = relay(&rt, &sender, &receiver);
    let sent = u64::from(first.is_ok()).wrapping_add(u64::from(second.is_ok()));
    Some(sent.wrapping_mul(10).wrapping_add(sum))
}
