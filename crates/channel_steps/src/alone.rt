//! A call of a channel that is stepped to its end, with no other call under way. It owns the channel meanwhile, so nothing comes between
//! its steps.

ghost use Rattle.std.specs.Prelude.{◌≡◌, false};
ghost use Rattle.channel_calls.specs.Plain.{parts_of};
ghost use Rattle.channel_steps.specs.solo.Ample.{lacks_memory, HasNode};
ghost use Rattle.channel_steps.specs.solo.Run.{IsAtRest, AnswersAlone};
ghost use Rattle.channel_steps.specs.solo.Configurations.{RunsInConfigurations};

use crate::count::counted;
use crate::fast_path::{receive_alone, send_alone};
use channel_calls::ask::ChannelAsk;
use channel_calls::call::ChannelCall;
use channel_calls::plain::PlainChannel;
use channel_calls::whole::Completed;
use event_listener::wakes::Wakes;

/// Makes a call of a channel of one owner from its beginning to its end, with no other call under way. It never waits. Tasks that it wakes
/// go to the sink in order. Want of memory is answered as the call's own refusal, with the message kept or returned. Given the number of
/// messages that the channel holds, it returns that number after the call.
///
/// A poll that holds a listener takes no memory: if that was told and there is still cause to wait, the node that it leaves serves the next
/// listener. What can still be refused is a serial number, once all 2^64 - 1 of its list were given.
///
/// Its steps lead from configuration to configuration, as those of one party with no other under way.
pub fn run_alone<T: Drop, W: Drop, S: Wakes<W>>(
    ask: ChannelAsk<T, W>,
    channel: &mut PlainChannel<T, W>,
    messages: &mut u64,
    sink: &mut S,
) -> Completed<T>
    requires at_rest { IsAtRest (parts_of channel.old) }
    ensures alone { AnswersAlone S.wakes ask (parts_of channel.old) sink.old result (parts_of channel.new) sink.new }
    ensures configurations { RunsInConfigurations S.wakes ask (parts_of channel.old) sink.old messages.old
        result (parts_of channel.new) sink.new messages.new }
    ensures ample { HasNode ask (parts_of channel.old) → lacks_memory result.reply ≡ false }
{
    let ask = match ask {
        ChannelAsk::TrySend(message) => return send_alone(message, channel, messages, sink),
        ChannelAsk::TryRecv => return receive_alone(channel, messages, sink),
        ask => ask,
    };
    let mut call = ChannelCall::new(ask);
    loop {
        let reply = call.step(channel, sink);
        *messages = counted(*messages, call.last_mark());
        if let Some(reply) = reply {
            let kept = call.into_kept();
            return Completed { reply, kept };
        }
    }
}
