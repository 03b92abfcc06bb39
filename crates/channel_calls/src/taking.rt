//! The next message of a walk that waits for the messages of a channel, over any cells.
//!
//! Whatever the cells hold, while the walk has not ended its next item is what one receive answers, and after its end nothing is done
//! (clause `deeds`). The walk itself keeps whether it has ended, so nothing comes after its end.

ghost use Rattle.std.specs.Prelude.{◌≡◌, false};
ghost use Rattle.concurrent_queue.specs.declared.cells.QueueForm.{QueueForm};
ghost use Rattle.channel_calls.specs.Blocks.{Asked, Slept};
ghost use Rattle.channel_calls.specs.Deeds.{Done};
ghost use Rattle.channel_calls.specs.Taking.{waited_for, WaitsForNext, IsNext};

use crate::blocking::recv_blocking;
use crate::error::{RecvError, Refused};
use crate::sleeps::Sleeps;
use event_listener::error::ListenError;
use event_listener::wakes::Wakes;
use std::sync::Wait;

/// The next item of a walk that has not ended, by what a receive that blocks answered: only a closed and empty channel ends it.
#[inline(always)]
pub fn next_item<T>(
    received: Result<T, Refused<RecvError>>,
    ended: &mut bool,
) -> Option<Result<T, ListenError>>
    requires { ended.old ≡ false }
    ensures item { waited_for result ≡ received }
    ensures end { IsNext false result ended.new }
{
    match received {
        Ok(message) => Some(Ok(message)),
        Err(Refused::NoMemory(())) => Some(Err(ListenError::NoMemory)),
        Err(Refused::SerialsUsedUp(())) => Some(Err(ListenError::SerialsUsedUp)),
        Err(Refused::Plain(RecvError)) => {
            *ended = true; // for good
            None
        }
    }
}

/// The next message, for which the thread sleeps while there is none. `None` if the channel is closed and empty, which ends the walk. A
/// refusal for memory or for serials is an item, and doesn't end it.
#[inline(always)]
pub fn next_blocking<T: Drop, W: Drop, R: Wait, C: Sleeps<T, W>, S: Wakes<W>>(
    rt: &R,
    ended: &mut bool,
    cells: &mut C,
    sink: &mut S,
) -> Option<Result<T, ListenError>>
    requires form { (f : QueueForm) × C.has_form cells.old f }
    ensures deeds { WaitsForNext (Done C.did S.wakes) (Asked C.parked) (Slept C.slept) ended.old (cells.old, sink.old) result (cells.new, sink.new) }
    ensures end { IsNext ended.old result ended.new }
    ensures form { (f : QueueForm) → C.has_form cells.old f → C.has_form cells.new f }
{
    if *ended {
        return None;
    }
    next_item(recv_blocking(rt, cells, sink), ended)
}
