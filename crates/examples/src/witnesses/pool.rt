//! A pool: two workers share the jobs of one channel, each job going to one of them.

ghost use Rattle.std.specs.Prelude.{◌≡◌, [], ◌∷◌, IsSome};
ghost use Rattle.channel_calls.specs.declared.ask.ChannelAsk.TheVariants as ask;
ghost use Rattle.channel_calls.specs.declared.reply.Reply.TheVariants as reply;
ghost use Rattle.async_channel.specs.Witness.{HasMade, IsOf, IsTold, MayCall};

use crate::witnesses::{calls_of_receiver, calls_of_sender};
use async_channel::{
    EventIds, OfSenders, Receiver, Refused, Runtime, Sender, TrySendError, Witness, Witnessed,
    bounded,
};
use std::alloc::Global;
use std::sync::Wait;
use std::thread;

/// What came of a job that was given.
type Given = Result<(), Refused<TrySendError<u64>, u64>>;

/// Gives two jobs: what came of each, and the witness of the sends.
fn give_two<R: Wait + Copy>(jobs: &Witnessed<'_, u64, R, OfSenders>) -> (Given, Given, Witness<u64>)
    ensures channel { IsOf jobs.now result.2 }
    ensures made { HasMade ((ask.TrySend 1, reply.TrySend result.0) ∷ (ask.TrySend 2, reply.TrySend result.1) ∷ []) result.2 }
    ensures rests { MayCall result.2 }
{
    let (first, witness) = jobs.try_send(jobs.witness(), 1);
    let (second, witness) = jobs.try_send(witness, 2);
    (first, second, witness)
}

/// Gives three jobs: what came of each, and the witness of the sends.
fn give<R: Wait + Copy>(jobs: &Sender<u64, R>) -> (Given, Given, Given, Witness<u64>)
    requires { IsSome jobs.now.table }
    ensures channel { IsOf jobs.now result.3 }
    ensures made { HasMade ((ask.TrySend 1, reply.TrySend result.0) ∷ (ask.TrySend 2, reply.TrySend result.1) ∷ (ask.TrySend 3, reply.TrySend result.2) ∷ []) result.3 }
    ensures rests { MayCall result.3 }
{
    let calls = calls_of_sender(jobs);
    let (first, second, witness) = give_two(&calls);
    let (third, witness) = calls.try_send(witness, 3);
    (first, second, third, witness)
}

/// A worker that does one job, which it waits for: how many it did, and the witness of its receive.
fn work<R: Wait + Copy>(jobs: &Receiver<u64, R>) -> (u64, Witness<u64>)
    requires { IsSome jobs.now.channel.table }
    ensures channel { IsOf jobs.now.channel result.1 }
    ensures rests { MayCall result.1 }
{
    let calls = calls_of_receiver(jobs);
    let (job, witness) = calls.recv_blocking(calls.witness());
    (u64::from(job.is_ok()), witness)
}

/// What came of each of three jobs, how many two workers did, and the witness of all that was asked.
fn run<R: Runtime>(
    rt: &R,
    to: &Sender<u64, R>,
    from: &Receiver<u64, R>,
) -> (Given, Given, Given, u64, Witness<u64>)
    requires bound { IsSome to.now.table }
    requires same { from.now.channel ≡ to.now }
    ensures told { IsTold result.4 }
    ensures sent { HasMade ((ask.TrySend 1, reply.TrySend result.0) ∷ (ask.TrySend 2, reply.TrySend result.1) ∷ (ask.TrySend 3, reply.TrySend result.2) ∷ []) result.4 }
{
    let (one, two, three, mut witness) = give(to);
    let ((done, first), (done_too, second)) = thread::join(
        rt,
        move || work(from),
        move || work(from),
    );
    let calls = calls_of_sender(to);
    calls.join(&mut witness, first);
    calls.join(&mut witness, second);
    calls.look(&mut witness);
    (one, two, three, done.wrapping_add(done_too), witness)
}

/// How many of three jobs were done by two workers of one job each.
pub(crate) fn done<R: Runtime>(rt: R, alloc: Global, ids: &mut EventIds) -> Option<u64> {
    let (sender, receiver) = bounded(rt, alloc, 3, ids).ok()?;
    let (_, _, _, done, _) = run(&rt, &sender, &receiver);
    Some(done)
}
