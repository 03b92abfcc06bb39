//! Counting handles up and down, over cells of any kind that a trace sees.

ghost use Rattle.std.specs.Prelude.{◌≡◌, IfErr};
ghost use Rattle.channel_calls.specs.declared.ask.ChannelAsk.TheVariants as ask;
ghost use Rattle.async_channel.specs.Counts.{Clones, Upgrades, Drops};
ghost use Rattle.async_channel.specs.Saw.{Saw};

use crate::cells::Places;
use crate::seen::{Seen, Trace};
use channel_calls::error::HandleError;
use channel_calls::kind::{Kind, OfReceivers, OfSenders};
use channel_calls::raised::{self, Raised};
use event_listener::key::Key;
use event_listener::waking::WakeNow;
use std::sync::Wait;

/// Counts one more strong handle of this kind. `Err` if too many live.
pub(crate) fn clone_handle<K: Kind, T: Drop, R: Wait, C: Places<T>, S: Trace<T>>(
    rt: &R,
    seen: Seen<C, S>,
) -> (Result<Raised<K>, HandleError>, S)
    ensures walked { Clones (Saw S.did S.shown (C.form_of seen.cells)) K.side seen.trace (result.0) (result.1) }
    ensures reason { IfErr (result.0) (λ e. e ≡ HandleError.TooMany) }
{
    let mut seen = seen;
    let counted = raised::clone_handle(rt, &mut seen, &mut WakeNow { rt });
    (counted, seen.into_trace())
}

/// The same if the channel is open and one lives; otherwise `None`.
pub(crate) fn upgrade<K: Kind, T: Drop, R: Wait, C: Places<T>, S: Trace<T>>(
    rt: &R,
    seen: Seen<C, S>,
) -> (Result<Option<Raised<K>>, HandleError>, S)
    ensures walked { Upgrades (Saw S.did S.shown (C.form_of seen.cells)) K.side seen.trace (result.0) (result.1) }
    ensures reason { IfErr (result.0) (λ e. e ≡ HandleError.TooMany) }
{
    let mut seen = seen;
    let counted = raised::upgrade(rt, &mut seen, &mut WakeNow { rt });
    (counted, seen.into_trace())
}

/// Drops a sender: its count is lowered, and the last one closes.
pub(crate) fn drop_sender<T: Drop, R: Wait, C: Places<T>, S: Trace<T>>(
    rt: &R,
    raised: Raised<OfSenders>,
    seen: Seen<C, S>,
) -> S
    ensures walked { Drops (Saw S.did S.shown (C.form_of seen.cells)) ask.DropSender seen.trace tt result }
{
    let mut seen = seen;
    raised::drop_sender(rt, raised, &mut seen, &mut WakeNow { rt });
    seen.into_trace()
}

/// Drops a receiver, which may have a listener as a stream: its count is lowered, and the last one closes.
pub(crate) fn drop_receiver<T: Drop, R: Wait, C: Places<T>, S: Trace<T>>(
    rt: &R,
    raised: Raised<OfReceivers>,
    key: Option<Key>,
    seen: Seen<C, S>,
) -> S
    ensures walked { Drops (Saw S.did S.shown (C.form_of seen.cells)) (ask.DropReceiver key) seen.trace tt result }
{
    let mut seen = seen;
    raised::drop_receiver(rt, raised, key, &mut seen, &mut WakeNow { rt });
    seen.into_trace()
}
