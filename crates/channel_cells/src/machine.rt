//! A channel's parties as a machine, whose history the rule of a queue's table keeps. No value of these types is made.

use channel_history::party::Standing;
use concurrent_queue::history::cells::QueueMachine;
use concurrent_queue::history::rule::Machine;

/// The machine of a channel's parties. It admits only calls of the channel, so there is always one history.
pub struct OfChannel;

impl<T, W> Machine<T, Standing<T, W>> for OfChannel {
    ghost use Rattle.channel_history.specs.Party.{fresh};
    ghost use Rattle.channel_history.specs.QueueCells.{moves};
    ghost use Rattle.channel_history.specs.Machine.{opened, enters, turns, counts, both, left, parts, rests, admits, history};
    ghost use Rattle.channel_history.proofs.Machine.{channel_keeps};

    ghost first = { fresh };

    ghost opened = { opened };

    ghost counted = { 1 };

    ghost moves = { moves };

    ghost enters = { enters };

    ghost turns = { turns };

    ghost counts = { counts };

    ghost both = { both };

    ghost left = { left };

    ghost parts = { parts };

    ghost rests = { rests };

    ghost admits = { admits };

    ghost history = { history };

    ghost keeps = { channel_keeps };
}

impl<T, W> QueueMachine<T, Standing<T, W>> for OfChannel {
    ghost use Rattle.channel_history.specs.QueueCells.{calls};
    ghost use Rattle.channel_history.proofs.QueueCells.{queue_calls_move};

    ghost calls = { calls };

    ghost may = { (queue_calls_move T W).may };

    ghost led = { (queue_calls_move T W).led };
}
