//! A mailbox of one place, into which one thread puts each new reading in the place of the one before, while another takes what is there.

ghost use Rattle.std.specs.Prelude.{◌≡◌, [], ◌∷◌, IsSome};
ghost use Rattle.channel_calls.specs.declared.ask.ChannelAsk.TheVariants as ask;
ghost use Rattle.channel_calls.specs.declared.reply.Reply.TheVariants as reply;
ghost use Rattle.async_channel.specs.Witness.{HasMade, IsOf, IsTold, MayCall};

use crate::witnesses::{calls_of_receiver, calls_of_sender};
use async_channel::{
    EventIds, Receiver, Refused, Runtime, SendError, Sender, TryRecvError, Witness, bounded,
};
use std::alloc::Global;
use std::sync::Wait;
use std::thread;

/// What a reading took out of the mailbox.
type Displaced = Result<Option<u64>, Refused<SendError<u64>, u64>>;

/// What was in the mailbox.
type Found = Result<u64, TryRecvError>;

/// How many readings this one took out.
fn displaced_by(sent: &Displaced) -> u64 {
    match sent {
        Ok(Some(_)) => 1,
        _ => 0,
    }
}

/// Puts two readings in: what each took out, and the witness of both sends.
fn publish<R: Wait + Copy>(mailbox: &Sender<u64, R>) -> (Displaced, Displaced, Witness<u64>)
    requires { IsSome mailbox.now.table }
    ensures channel { IsOf mailbox.now result.2 }
    ensures made { HasMade ((ask.ForceSend 1, reply.ForceSend result.0) ∷ (ask.ForceSend 2, reply.ForceSend result.1) ∷ []) result.2 }
    ensures rests { MayCall result.2 }
{
    let calls = calls_of_sender(mailbox);
    let (first, witness) = calls.force_send(calls.witness(), 1);
    let (second, witness) = calls.force_send(witness, 2);
    (first, second, witness)
}

/// Takes what is there, twice, and the witness of both receives.
fn follow<R: Wait + Copy>(mailbox: &Receiver<u64, R>) -> (Found, Found, Witness<u64>)
    requires { IsSome mailbox.now.channel.table }
    ensures channel { IsOf mailbox.now.channel result.2 }
    ensures made { HasMade ((ask.TryRecv, reply.TryRecv result.0) ∷ (ask.TryRecv, reply.TryRecv result.1) ∷ []) result.2 }
    ensures rests { MayCall result.2 }
{
    let calls = calls_of_receiver(mailbox);
    let (first, witness) = calls.try_recv(calls.witness());
    let (second, witness) = calls.try_recv(witness);
    (first, second, witness)
}

/// What each of two readings took out, how many were taken by the other thread, and the witness of all four calls.
fn exchange<R: Runtime>(
    rt: &R,
    to: &Sender<u64, R>,
    from: &Receiver<u64, R>,
) -> (Displaced, Displaced, u64, Witness<u64>)
    requires bound { IsSome to.now.table }
    requires same { from.now.channel ≡ to.now }
    ensures told { IsTold result.3 }
    ensures sent { HasMade ((ask.ForceSend 1, reply.ForceSend result.0) ∷ (ask.ForceSend 2, reply.ForceSend result.1) ∷ []) result.3 }
{
    let ((first, second, mut witness), (one, other, received)) = thread::join(
        rt,
        move || publish(to),
        move || follow(from),
    );
    let calls = calls_of_sender(to);
    calls.join(&mut witness, received);
    calls.look(&mut witness);
    let taken = u64::from(one.is_ok()).wrapping_add(u64::from(other.is_ok()));
    (first, second, taken, witness)
}

/// How many of two readings came out of the mailbox or are in it.
pub(crate) fn readings<R: Runtime>(rt: R, alloc: Global, ids: &mut EventIds) -> Option<u64> {
    let (sender, receiver) = bounded(rt, alloc, 1, ids).ok()?;
    let (first, second, taken, _) = exchange(&rt, &sender, &receiver);
    let displaced = displaced_by(&first).wrapping_add(displaced_by(&second));
    Some(
        displaced
            .wrapping_add(taken)
            .wrapping_add(receiver.len() as u64),
    )
}
