//! The calls that block their thread, over any cells on which it can sleep. Each makes rounds of polls of its machine: it tries, listens,
//! tries again and registers, sleeps, and registers once more each time that it wakes. Before its first poll it tries some times with short
//! pauses.
//!
//! The invariant: the thread sleeps only after a try that was refused behind its listing, with its parker registered, so whatever it waits
//! for wakes it. Whatever the cells hold, such a call does what `Blocks` of `specs/Blocks` says, and nothing else (clauses `deeds`).

ghost use Rattle.std.specs.Prelude.{◌≡◌, None, Some, Ok, Err, IfOk, IfErr, MatchResult, Option, is_some, ℕ};
ghost use Rattle.concurrent_queue.specs.declared.cells.QueueForm.{QueueForm};
ghost use Rattle.event_listener.specs.declared.key.Key.{Key as Name};
ghost use Rattle.futures.specs.declared.task.Poll.TheVariants as poll;
ghost use Rattle.channel_calls.specs.Asks.{first};
ghost use Rattle.channel_calls.specs.Blocks.{waiting_of, at_once, not_yet, poll_woken, still_waits, Asked, Slept, Looks, AnswersAtFirst, Listens, SleepsOn, Blocks};
ghost use Rattle.channel_calls.specs.Deeds.{Done};
ghost use Rattle.channel_calls.specs.Errors.{handed_back};
ghost use Rattle.channel_calls.specs.Listed.{pends};
ghost use Rattle.channel_calls.specs.Replies.{MayPoll, SendsBy};
ghost use Rattle.channel_calls.specs.Tried.{polled, sent_by, received_by, tried_turn, Comes, IsOver, sent_reply, sent_left};
ghost use Rattle.channel_calls.specs.Turns.{again, line_of, message_of, leaving, nothing_kept};
ghost use Rattle.channel_calls.specs.Walks.{WalkedFrom, WalkedTo};
ghost use Rattle.channel_calls.specs.declared.ask.ChannelAsk.TheVariants as ask;
ghost use Rattle.channel_calls.specs.declared.blocked.Blocked.{Blocked as Blocking};
ghost use Rattle.channel_calls.specs.declared.blocked.Blocked.TheVariants as blocking;
ghost use Rattle.channel_calls.specs.declared.reply.Reply.TheVariants as reply;

use crate::ask::ChannelAsk;
use crate::blocked::Blocked;
use crate::calls::{try_recv, try_send};
use crate::error::{RecvError, Refused, SendError, TryRecvError, TrySendError};
use crate::reply::Reply;
use crate::sleeps::Sleeps;
use crate::stage::Returned;
use crate::turn::refused_reply;
use crate::whole::{Completed, make};
use crossbeam_utils::Backoff;
use event_listener::key::Key;
use event_listener::wakes::Wakes;
use futures::task::Poll;
use std::sync::Wait;

/// A poll that is over: its answer, and the message that stays with it.
fn polled<T>(reply: Reply<T>, message: Option<T>) -> Completed<T>
    ensures { result ≡ polled reply message }
{
    let kept = Returned { key: None, message };
    Completed { reply, kept }
}

/// What a poll's try of a send comes to, by the answer of a send that doesn't wait.
#[inline(always)]
fn sent_by<T: Drop>(
    sent: Result<(), Refused<TrySendError<T>, T>>,
) -> Result<Completed<T>, Blocked<T>>
    ensures { result ≡ sent_by sent }
{
    let (answer, message) = match sent {
        Ok(()) => (Ok(()), None),
        Err(Refused::Plain(TrySendError::Full(back))) => return Err(Blocked::Send(back)),
        Err(Refused::Plain(TrySendError::Closed(back))) => {
            (Err(Refused::Plain(SendError(back))), None)
        }
        Err(Refused::NoMemory(back)) => (Err(Refused::NoMemory(())), Some(back)),
        Err(Refused::SerialsUsedUp(back)) => (Err(Refused::SerialsUsedUp(())), Some(back)),
    };
    Ok(polled(Reply::SendPoll(Poll::Ready(answer)), message))
}

/// What a poll's try of a receive comes to, by the answer of a receive that doesn't wait.
#[inline(always)]
fn received_by<T: Drop>(received: Result<T, TryRecvError>) -> Result<Completed<T>, Blocked<T>>
    ensures { result ≡ received_by received }
{
    let answer = match received {
        Ok(message) => Ok(message),
        Err(TryRecvError::Empty) => return Err(Blocked::Receive),
        Err(TryRecvError::Closed) => Err(Refused::Plain(RecvError)),
    };
    Ok(polled(Reply::RecvPoll(Poll::Ready(answer)), None))
}

/// The try of a poll that sends: it is over, or has to wait.
#[inline(always)]
fn tries_to_send<T: Drop, W: Drop, R: Wait, C: Sleeps<T, W>, S: Wakes<W>>(
    rt: &R,
    message: T,
    cells: &mut C,
    sink: &mut S,
) -> Result<Completed<T>, Blocked<T>>
    requires form { (f : QueueForm) × C.has_form cells.old f }
    ensures comes { (key : Option Name) (task : W) → Comes (Done C.did S.wakes) (again (waiting_of (blocking.Send message)) key task) (cells.old, sink.old) (tried_turn (line_of (waiting_of (blocking.Send message))) result key task) (cells.new, sink.new) }
    ensures looked { IfErr result (λ left. WalkedTo (Done C.did S.wakes) (first (at_once (blocking.Send message))) (cells.old, sink.old) (not_yet (blocking.Send message)) (cells.new, sink.new)) }
    ensures same { IfErr result (λ left. left ≡ blocking.Send message) }
    ensures over { IfOk result (λ given. IsOver (blocking.Send message) given) }
    ensures form { (f : QueueForm) → C.has_form cells.old f → C.has_form cells.new f }
{
    sent_by(try_send(rt, message, cells, sink))
}

/// The try of a poll that receives: it is over, or has to wait.
#[inline(always)]
fn tries_to_receive<T: Drop, W: Drop, R: Wait, C: Sleeps<T, W>, S: Wakes<W>>(
    rt: &R,
    cells: &mut C,
    sink: &mut S,
) -> Result<Completed<T>, Blocked<T>>
    requires form { (f : QueueForm) × C.has_form cells.old f }
    ensures comes { (key : Option Name) (task : W) → Comes (Done C.did S.wakes) (again (waiting_of {T = T} blocking.Receive) key task) (cells.old, sink.old) (tried_turn (line_of (waiting_of {T = T} blocking.Receive)) result key task) (cells.new, sink.new) }
    ensures looked { IfErr result (λ left. WalkedTo (Done C.did S.wakes) (first (at_once {T = T} blocking.Receive)) (cells.old, sink.old) (not_yet {T = T} blocking.Receive) (cells.new, sink.new)) }
    ensures same { IfErr result (λ left. left ≡ blocking.Receive) }
    ensures over { IfOk result (λ given. IsOver {T = T} blocking.Receive given) }
    ensures form { (f : QueueForm) → C.has_form cells.old f → C.has_form cells.new f }
{
    received_by(try_recv(rt, cells, sink))
}

/// The try of a poll: it is over, or has to wait.
fn tries<T: Drop, W: Drop, R: Wait, C: Sleeps<T, W>, S: Wakes<W>>(
    rt: &R,
    call: Blocked<T>,
    cells: &mut C,
    sink: &mut S,
) -> Result<Completed<T>, Blocked<T>>
    requires form { (f : QueueForm) × C.has_form cells.old f }
    ensures comes { (key : Option Name) (task : W) → Comes (Done C.did S.wakes) (again (waiting_of call) key task) (cells.old, sink.old) (tried_turn (line_of (waiting_of call)) result key task) (cells.new, sink.new) }
    ensures looked { IfErr result (λ left. WalkedTo (Done C.did S.wakes) (first (at_once call)) (cells.old, sink.old) (not_yet call) (cells.new, sink.new)) }
    ensures same { IfErr result (λ left. left ≡ call) }
    ensures over { IfOk result (λ given. IsOver call given) }
    ensures form { (f : QueueForm) → C.has_form cells.old f → C.has_form cells.new f }
{
    match call {
        Blocked::Send(message) => tries_to_send(rt, message, cells, sink),
        Blocked::Receive => tries_to_receive(rt, cells, sink),
    }
}

/// Tries some times more, with a pause before each, since what it waits for mostly comes sooner than a listener could be listed: the
/// answer, or the call, which has to wait.
fn looks<T: Drop, W: Drop, R: Wait, C: Sleeps<T, W>, S: Wakes<W>>(
    rt: &R,
    call: Blocked<T>,
    cells: &mut C,
    sink: &mut S,
) -> Result<Completed<T>, Blocked<T>>
    requires form { (f : QueueForm) × C.has_form cells.old f }
    ensures looks { (n : ℕ) × (x : C × S) × Looks (Done C.did S.wakes) n call (cells.old, sink.old) x
        × MatchResult result (λ given. AnswersAtFirst (Done C.did S.wakes) call x given.reply given.kept (cells.new, sink.new)) (λ left. (cells.new, sink.new) ≡ x) }
    ensures same { IfErr result (λ left. left ≡ call) }
    ensures over { IfOk result (λ given. IsOver call given) }
    ensures form { (f : QueueForm) → C.has_form cells.old f → C.has_form cells.new f }
{
    let mut call = call;
    let backoff = Backoff::new();
    for _ in rt.forever() {
        backoff.snooze();
        if backoff.is_completed() {
            return Err(call);
        }
        match tries(rt, call, cells, sink) {
            Ok(given) => return Ok(given),
            Err(left) => call = left,
        }
    }
    unreachable!()
}

/// A first poll up to its answer, or up to where it registers this listener next.
fn begins<T: Drop, W: Drop, R: Wait, C: Sleeps<T, W>, S: Wakes<W>>(
    rt: &R,
    call: Blocked<T>,
    cells: &mut C,
    sink: &mut S,
) -> Result<Completed<T>, (Blocked<T>, Key)>
    requires form { (f : QueueForm) × C.has_form cells.old f }
    ensures begins { MatchResult result (λ given. AnswersAtFirst (Done C.did S.wakes) call (cells.old, sink.old) given.reply given.kept (cells.new, sink.new))
        (λ left. Listens (Done C.did S.wakes) call (cells.old, sink.old) left.1 (cells.new, sink.new)) }
    ensures same { IfErr result (λ left. left.0 ≡ call) }
    ensures over { IfOk result (λ given. IsOver call given) }
    ensures form { (f : QueueForm) → C.has_form cells.old f → C.has_form cells.new f }
{
    let call = match tries(rt, call, cells, sink) {
        Ok(given) => return Ok(given),
        Err(left) => left,
    };
    let line = call.line();
    // List, then try again: what came free before this step notified nobody, and from here on it reaches the listener.
    let key = match cells.insert(line) {
        Ok(key) => key,
        Err(error) => {
            let message = call.waiting().message();
            return Ok(polled(refused_reply(line, error), message));
        }
    };
    let again = tries(rt, call, cells, sink);
    match again {
        Ok(given) => {
            // After the answer: a listener that was told meanwhile passes its notification on.
            cells.remove(line, key, sink);
            Ok(given)
        }
        Err(left) => Err((left, key)),
    }
}

/// The poll that is over, or what a pending poll left.
fn still<T: Drop>(given: Completed<T>) -> Result<Completed<T>, (Blocked<T>, Key)>
    ensures waits { (b : Blocking T) → MayPoll (waiting_of b) given.reply given.kept.message → is_some given.kept.key ≡ pends given.reply → MatchResult result (λ over. (over ≡ given) × IsOver b over) (λ left. (left.0 ≡ b) × (given ≡ still_waits b left.1)) }
{
    let Completed { reply, kept } = given;
    let Returned { key, message } = kept;
    match (reply, key, message) {
        (Reply::SendPoll(Poll::Pending), Some(key), Some(message)) => {
            Err((Blocked::Send(message), key))
        }
        (Reply::RecvPoll(Poll::Pending), Some(key), None) => Err((Blocked::Receive, key)),
        (reply, key, message) => {
            let kept = Returned { key, message };
            Ok(Completed { reply, kept })
        }
    }
}

/// A poll that registers this listener first, up to its answer: it is over, or waits with this listener.
fn registers<T: Drop, W: Drop, R: Wait, C: Sleeps<T, W>, S: Wakes<W>>(
    rt: &R,
    call: Blocked<T>,
    key: Key,
    task: W,
    cells: &mut C,
    sink: &mut S,
) -> Result<Completed<T>, (Blocked<T>, Key)>
    requires form { (f : QueueForm) × C.has_form cells.old f }
    ensures registers { MatchResult result (λ given. WalkedFrom (Done C.did S.wakes) (first (poll_woken call key task)) (cells.old, sink.old) given.reply given.kept (cells.new, sink.new))
        (λ left. let waits = still_waits call left.1 in WalkedFrom (Done C.did S.wakes) (first (poll_woken call key task)) (cells.old, sink.old) waits.reply waits.kept (cells.new, sink.new)) }
    ensures same { IfErr result (λ left. left.0 ≡ call) }
    ensures over { IfOk result (λ given. IsOver call given) }
    ensures form { (f : QueueForm) → C.has_form cells.old f → C.has_form cells.new f }
{
    still(make(rt, call.poll_woken(key, task), cells, sink))
}

/// Drops the listener and ends for want of a task, as a poll does that is refused the copy of its waker.
fn refused<T: Drop, W: Drop, R: Wait, C: Sleeps<T, W>, S: Wakes<W>>(
    rt: &R,
    call: Blocked<T>,
    key: Key,
    cells: &mut C,
    sink: &mut S,
) -> Completed<T>
    requires form { (f : QueueForm) × C.has_form cells.old f }
    ensures leaves { WalkedFrom (Done C.did S.wakes) (first (ask.RefusePoll (line_of (waiting_of call)) (message_of (waiting_of call)) (Some key))) (cells.old, sink.old) result.reply result.kept (cells.new, sink.new) }
    ensures over { IsOver call result }
    ensures form { (f : QueueForm) → C.has_form cells.old f → C.has_form cells.new f }
{
    let line = call.line();
    let message = call.waiting().message();
    make(
        rt,
        ChannelAsk::RefusePoll(line, message, Some(key)),
        cells,
        sink,
    )
}

/// Registers and sleeps, until a poll is over.
fn sleeps<T: Drop, W: Drop, R: Wait, C: Sleeps<T, W>, S: Wakes<W>>(
    rt: &R,
    call: Blocked<T>,
    key: Key,
    cells: &mut C,
    sink: &mut S,
) -> Completed<T>
    requires form { (f : QueueForm) × C.has_form cells.old f }
    ensures sleeps { SleepsOn (Done C.did S.wakes) (Asked C.parked) (Slept C.slept) call key (cells.old, sink.old) result.reply result.kept (cells.new, sink.new) }
    ensures over { IsOver call result }
    ensures form { (f : QueueForm) → C.has_form cells.old f → C.has_form cells.new f }
{
    let mut call = call;
    let mut key = key;
    for _ in rt.forever() {
        // The parker is asked for only here, before registering: a first poll has no task yet, and takes no memory for one.
        let Some(task) = cells.park() else {
            return refused(rt, call, key, cells, sink);
        };
        match registers(rt, call, key, task, cells, sink) {
            Ok(given) => return given,
            Err((left, next)) => {
                call = left;
                key = next;
            }
        }
        // After registering. The parker stays rung, so a notification since then ends this sleep at once.
        cells.sleep();
    }
    unreachable!()
}

/// Makes a call that blocks its thread up to its answer. It was tried once before, on its own, which mostly succeeds and needs nothing of
/// this.
fn blocks<T: Drop, W: Drop, R: Wait, C: Sleeps<T, W>, S: Wakes<W>>(
    rt: &R,
    call: Blocked<T>,
    cells: &mut C,
    sink: &mut S,
) -> Completed<T>
    requires form { (f : QueueForm) × C.has_form cells.old f }
    ensures deeds { Blocks (Done C.did S.wakes) (Asked C.parked) (Slept C.slept) call (cells.old, sink.old) result.reply result.kept (cells.new, sink.new) }
    ensures over { IsOver call result }
    ensures form { (f : QueueForm) → C.has_form cells.old f → C.has_form cells.new f }
{
    let call = match looks(rt, call, cells, sink) {
        Ok(given) => return given,
        Err(left) => left,
    };
    match begins(rt, call, cells, sink) {
        Ok(given) => given,
        Err((left, key)) => sleeps(rt, left, key, cells, sink),
    }
}

/// What a send that blocks answers, by its last poll: if memory or a serial was refused it returns the message that stayed with the send.
pub fn answered<T: Drop>(
    answer: Result<(), Refused<SendError<T>>>,
    message: Option<T>,
) -> Result<(), Refused<SendError<T>, T>>
    requires kept { (v : T) × SendsBy v (poll.Ready answer) message }
    ensures reply { sent_reply result ≡ reply.SendPoll (poll.Ready answer) }
    ensures left { sent_left result ≡ leaving None message }
    ensures back { (v : T) → SendsBy v (poll.Ready answer) message → IfErr result (λ e. handed_back e ≡ v) }
{
    match (answer, message) {
        (Ok(()), _) => Ok(()),
        (Err(Refused::Plain(error)), _) => Err(Refused::Plain(error)),
        (Err(Refused::NoMemory(())), Some(back)) => Err(Refused::NoMemory(back)),
        (Err(Refused::SerialsUsedUp(())), Some(back)) => Err(Refused::SerialsUsedUp(back)),
        _ => unreachable!(),
    }
}

/// What a send that blocks answers, by its last poll.
#[inline(always)]
fn sent<T: Drop>(given: Completed<T>) -> Result<(), Refused<SendError<T>, T>>
    requires over { (v : T) × IsOver (blocking.Send v) given }
    ensures reply { sent_reply result ≡ given.reply }
    ensures left { sent_left result ≡ given.kept }
    ensures back { (v : T) → IsOver (blocking.Send v) given → IfErr result (λ e. handed_back e ≡ v) }
{
    let Completed { reply, kept } = given;
    match reply {
        Reply::SendPoll(Poll::Ready(answer)) => answered(answer, kept.message),
        _ => unreachable!(),
    }
}

/// What a receive that blocks answers, by its last poll.
#[inline(always)]
fn taken<T: Drop>(given: Completed<T>) -> Result<T, Refused<RecvError>>
    requires over { IsOver blocking.Receive given }
    ensures reply { reply.RecvPoll (poll.Ready result) ≡ given.reply }
    ensures left { given.kept ≡ nothing_kept }
{
    let Completed { reply, kept } = given;
    drop(kept);
    match reply {
        Reply::RecvPoll(Poll::Ready(answer)) => answer,
        _ => unreachable!(),
    }
}

/// Sends, and sleeps while there is no place.
#[inline(always)]
pub fn send_blocking<T: Drop, W: Drop, R: Wait, C: Sleeps<T, W>, S: Wakes<W>>(
    rt: &R,
    message: T,
    cells: &mut C,
    sink: &mut S,
) -> Result<(), Refused<SendError<T>, T>>
    requires form { (f : QueueForm) × C.has_form cells.old f }
    ensures deeds { Blocks (Done C.did S.wakes) (Asked C.parked) (Slept C.slept) (blocking.Send message) (cells.old, sink.old) (sent_reply result) (sent_left result) (cells.new, sink.new) }
    ensures message { IfErr result (λ e. handed_back e ≡ message) }
    ensures form { (f : QueueForm) → C.has_form cells.old f → C.has_form cells.new f }
{
    match tries_to_send(rt, message, cells, sink) {
        Ok(given) => sent(given),
        Err(call) => sent(blocks(rt, call, cells, sink)),
    }
}

/// Receives, and sleeps while there is no message.
#[inline(always)]
pub fn recv_blocking<T: Drop, W: Drop, R: Wait, C: Sleeps<T, W>, S: Wakes<W>>(
    rt: &R,
    cells: &mut C,
    sink: &mut S,
) -> Result<T, Refused<RecvError>>
    requires form { (f : QueueForm) × C.has_form cells.old f }
    ensures deeds { Blocks (Done C.did S.wakes) (Asked C.parked) (Slept C.slept) blocking.Receive (cells.old, sink.old) (reply.RecvPoll (poll.Ready result)) nothing_kept (cells.new, sink.new) }
    ensures form { (f : QueueForm) → C.has_form cells.old f → C.has_form cells.new f }
{
    match tries_to_receive(rt, cells, sink) {
        Ok(given) => taken(given),
        Err(call) => taken(blocks(rt, call, cells, sink)),
    }
}
