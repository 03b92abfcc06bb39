//! Cells of a channel with one owner that may refuse a listener, and note whom their steps wake.

ghost use Rattle.std.specs.Prelude.{◌≡◌};
ghost use Rattle.channel_calls.specs.Plain.{form_of, parts_of};

use crate::woken::Woken;
use channel_calls::cells::ChannelCells;
use channel_calls::plain::PlainChannel;
use channel_calls::stage::{Side, Telling, WaitList};
use concurrent_queue::call::QueueReply;
use concurrent_queue::queue_call::QueueCall;
use event_listener::error::ListenError;
use event_listener::key::Key;
use event_listener::wakes::Wakes;

/// Such cells. Whom a step wakes is noted here, and the sink of the call is given nobody: so it is known at each moment who sleeps,
/// whoever made the step.
#[derive(Drop)]
pub(crate) struct Scarce {
    pub(crate) channel: PlainChannel<u64, u32>,
    /// Who was woken and hasn't gone on since.
    pub(crate) woken: Woken,
    /// So many listeners more are refused, and for want of what.
    pub(crate) refused: u32,
    pub(crate) want: ListenError,
}

impl Scarce {
    /// This channel; it refuses nobody.
    pub(crate) fn new(channel: PlainChannel<u64, u32>, want: ListenError) -> Scarce
        ensures { form_of result.channel ≡ form_of channel }
    {
        Scarce {
            channel,
            woken: Woken::new(),
            refused: 0,
            want,
        }
    }
}

impl ChannelCells<u64, u32> for Scarce {
    ghost known = { ⊥ };

    ghost parts = { λ c. parts_of c.channel };

    ghost has_form = { λ c f. f ≡ form_of c.channel };

    ghost exact = { λ unknown. absurd unknown };

    ghost ready = { λ at next s d stands does. tt };

    ghost leads = { λ at next s t d stands done does. tt };

    ghost rests = { λ at next s stands idles. tt };

    fn step_queue(&mut self, call: &mut QueueCall<u64>) -> Option<QueueReply<u64>> {
        self.channel.step_queue(call)
    }

    fn insert(&mut self, line: WaitList) -> Result<Key, ListenError> {
        if self.refused > 0 {
            self.refused = self.refused.saturating_sub(1);
            return Err(self.want);
        }
        self.channel.insert(line)
    }

    fn register(&mut self, line: WaitList, key: Key, task: u32) -> Option<u32> {
        let back = self.channel.register(line, key, task);
        if back.is_some() {
            // It was told and goes on, so the waking is used up.
            self.woken.clear(task);
        }
        back
    }

    fn remove<S: Wakes<u32>>(&mut self, line: WaitList, key: Key, _: &mut S) {
        self.channel.remove(line, key, &mut self.woken)
    }

    fn tell<S: Wakes<u32>>(&mut self, line: WaitList, telling: Telling, _: &mut S) {
        self.channel.tell(line, telling, &mut self.woken)
    }

    fn count(&mut self, side: Side) -> usize {
        ChannelCells::count(&mut self.channel, side)
    }

    fn lower(&mut self, side: Side) -> usize {
        self.channel.lower(side)
    }

    fn raise(&mut self, side: Side, from: usize) -> bool {
        self.channel.raise(side, from)
    }
}
