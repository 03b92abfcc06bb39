//! A trace that writes down what a call did to its channel, which has no bound, and calls with it. By contract the lines that came are
//! those of the deeds of the call's machine up to this answer, whatever other threads do.

ghost use Rattle.std.specs.Prelude.{◌≡◌};
ghost use Rattle.channel_calls.specs.Asks.{first};
ghost use Rattle.channel_calls.specs.Blocks.{Blocks};
ghost use Rattle.channel_calls.specs.Turns.{nothing_kept};
ghost use Rattle.channel_calls.specs.Walks.{WalkedTo};
ghost use Rattle.channel_calls.specs.declared.ask.ChannelAsk.TheVariants as ask;
ghost use Rattle.channel_calls.specs.declared.blocked.Blocked.TheVariants as blocking;
ghost use Rattle.channel_calls.specs.declared.reply.Reply.TheVariants as reply;
ghost use Rattle.futures.specs.declared.task.Poll.TheVariants as poll;
ghost use Rattle.channel_test_helpers.specs.Logs.{Enters, Logs, Notes, Operated, Operates};
ghost use Rattle.async_channel.specs.Saw.{SeenOn};
ghost use Rattle.channel_test_helpers.specs.declared.log.Did.TheVariants as did;

use async_channel::{
    OfReceivers, OfSenders, RecvError, Refused, Shown, Side, Sight, Telling, Trace, Traced,
    TryRecvError, TrySendError, WaitList, Witness,
};
use concurrent_queue::cells::Slot;
use concurrent_queue::seen as queue;
use std::alloc::Global;
use std::sync::Wait;

/// One thing that a call did.
#[derive(Clone, Copy, PartialEq, Eq, Debug)]
pub enum Did {
    /// One operation was made on a cell of the queue, or several in a row.
    Operated,
    /// A listener was added, or refused.
    Inserted(WaitList),
    /// A listener was asked, and has its task or was told.
    Registered(WaitList),
    /// A listener was taken off.
    TakenOff(WaitList),
    /// These were told.
    Told(WaitList, Telling),
    /// A count was read.
    Counted(Side),
    /// A count was lowered.
    Lowered(Side),
    /// A count was raised, or was another one.
    Raised(Side, bool),
    /// A task of the thread's own was asked for.
    Parked,
    /// The thread slept.
    Slept,
}

/// What a call did, in order. Where there was no memory for a line, it says so.
#[derive(Drop)]
pub struct Log {
    /// Its lines.
    pub lines: Vec<Did>,
    /// Whether one is missing.
    pub is_short: bool,
}

impl Log {
    /// Without a line.
    pub fn new(alloc: Global) -> Log {
        Log {
            lines: Vec::new(alloc),
            is_short: false,
        }
    }

    /// Whether it has these lines, if it has them all.
    pub fn has(&self, lines: &[Did]) -> bool {
        self.is_short || self.lines.as_slice() == lines
    }

    fn note(&mut self, it: Did)
        ensures { Notes it self.old self.new }
    {
        if self.lines.push(it).is_err() {
            self.is_short = true;
        }
    }
}

impl Log {
    /// One line stands for several operations in a row.
    fn note_operation(&mut self)
        ensures { Operated self.old self.new }
    {
        if self.lines.last() != Some(&Did::Operated) {
            self.note(Did::Operated);
        }
    }
}

impl queue::Trace<u64> for Log {
    ghost did = { Operates };

    ghost brought = { λ _ _ a b. b ≡ a };

    fn operated(&mut self, _sight: &queue::Sight<Self>, _it: queue::Shown) {
        self.note_operation();
    }

    fn bring(&mut self, _sight: &queue::Sight<Self>, _at: Slot, _message: &u64) {}

    fn taken(&mut self, _sight: &queue::Sight<Self>, _at: Slot, _found: &Option<u64>) {
        self.note_operation();
    }
}

impl Trace<u64> for Log {
    ghost use Rattle.std.specs.Prelude.{◌≡◌};

    ghost entered = { Enters };

    ghost shown = { λ d a b. Logs d a b };

    ghost offering = { λ _ _ _ a b. b ≡ a };

    ghost parked = { λ _ a b. Notes did.Parked a b };

    ghost slept = { λ a b. Notes did.Slept a b };

    ghost called = { λ _. Unit {0} };

    fn saw(&mut self, _sight: &Sight<Self>, it: Shown<'_>) {
        match it {
            Shown::Enters(_) | Shown::Offers(..) => {}
            Shown::Inserted(line, _) => self.note(Did::Inserted(line)),
            Shown::Registered(line, ..) => self.note(Did::Registered(line)),
            Shown::TakenOff(line, _) => self.note(Did::TakenOff(line)),
            Shown::Told(line, telling) => self.note(Did::Told(line, telling)),
            Shown::Counted(side, _) => self.note(Did::Counted(side)),
            Shown::Lowered(side, _) => self.note(Did::Lowered(side)),
            Shown::Raised(side, _, done) => self.note(Did::Raised(side, done)),
            Shown::Parked(_) => self.note(Did::Parked),
            Shown::Slept => self.note(Did::Slept),
        }
    }

    fn heard(&self, _sight: &Sight<Self>, _call: Witness<u64>)
        ensures { Unit {0} }
    {}
}

/// A send that doesn't wait, written down.
pub fn try_send_logged<R: Wait + Copy>(
    channel: &Traced<'_, u64, R, OfSenders>,
    message: u64,
    log: Log,
) -> (Result<(), Refused<TrySendError<u64>, u64>>, Log)
    ensures { SeenOn Operates Logs Enters channel.now (λ saw. WalkedTo saw (first (ask.TrySend message))) log (reply.TrySend (result.0)) (result.1) }
{
    channel.try_send(message, log)
}

/// A receive that doesn't wait, written down.
pub fn try_recv_logged<R: Wait + Copy>(
    channel: &Traced<'_, u64, R, OfReceivers>,
    log: Log,
) -> (Result<u64, TryRecvError>, Log)
    ensures { SeenOn Operates Logs Enters channel.now (λ saw. WalkedTo saw (first ask.TryRecv)) log (reply.TryRecv (result.0)) (result.1) }
{
    channel.try_recv(log)
}

/// A closing, written down.
pub fn close_logged<R: Wait + Copy>(
    channel: &Traced<'_, u64, R, OfSenders>,
    log: Log,
) -> (bool, Log)
    ensures { SeenOn Operates Logs Enters channel.now (λ saw. WalkedTo saw (first ask.Close)) log (reply.Closed (result.0)) (result.1) }
{
    channel.close(log)
}

/// A receive that blocks its thread, written down.
pub fn recv_blocking_logged<R: Wait + Copy>(
    channel: &Traced<'_, u64, R, OfReceivers>,
    log: Log,
) -> (Result<u64, Refused<RecvError>>, Log)
    ensures { SeenOn Operates Logs Enters channel.now (λ saw begin r end. Blocks saw (λ _ a b. Notes did.Parked a b) (λ a b. Notes did.Slept a b) blocking.Receive begin r nothing_kept end) log (reply.RecvPoll (poll.Ready (result.0))) (result.1) }
{
    channel.recv_blocking(log)
}
