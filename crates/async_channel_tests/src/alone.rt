//! Each kind of call once, alone over a channel of one slot, and one call over each other form.

ghost use Rattle.std.specs.Prelude.{IfOk};
ghost use Rattle.concurrent_queue.specs.Made.{CanBeMade};
ghost use Rattle.channel_calls.specs.Plain.{parts_of};
ghost use Rattle.channel_steps.specs.solo.Run.{IsAtRest, IsOneSlot};

use crate::checks::{expect_equal, expect_true};
use crate::names::{Names, no_names};
use crate::said::{Said, answer_of};
use channel_calls::ask::{ChannelAsk, lent, woken};
use channel_calls::plain::PlainChannel;
use channel_calls::stage::{Side, WaitList};
use channel_steps::alone::run_alone;
use concurrent_queue::cells::QueueForm;
use event_listener::key::Key;
use std::alloc::{AllocError, Global};
use std::test::Fail;

/// A channel of one slot, and those whom its calls woke.
#[derive(Drop)]
struct Alone {
    channel: PlainChannel<u64, u32>,
    names: Names,
}

fn make_alone(rt: &impl AllocGlobal) -> Result<Alone, AllocError>
    ensures { IfOk result (λ made. IsOneSlot (parts_of made.channel)) }
{
    let channel = PlainChannel::new(QueueForm::Bounded(1), rt.alloc())?;
    Ok(Alone {
        channel,
        names: no_names(rt),
    })
}

impl Alone {
    /// A call alone, which leaves the channel at rest: its answer in short, and the listener that it leaves to its operation.
    fn poll(&mut self, ask: ChannelAsk<u64, u32>) -> (Said, Option<Key>)
        requires { IsOneSlot (parts_of self.old.channel) }
        ensures { IsOneSlot (parts_of self.new.channel) }
    {
        let mut messages = 0;
        let done = run_alone(ask, &mut self.channel, &mut messages, &mut self.names);
        (answer_of(done.reply), done.kept.key)
    }

    fn call(&mut self, ask: ChannelAsk<u64, u32>) -> Said
        requires { IsOneSlot (parts_of self.old.channel) }
        ensures { IsOneSlot (parts_of self.new.channel) }
    {
        self.poll(ask).0
    }
}

#[test]
fn messages_go_in_and_out(rt: HostRuntime) -> Result<(), Fail> {
    let mut all = make_alone(&rt)?;
    let answers = [
        all.call(ChannelAsk::TrySend(10)),
        all.call(ChannelAsk::TrySend(20)),
        all.call(ChannelAsk::IsFull),
        all.call(ChannelAsk::Len),
        all.call(ChannelAsk::Capacity),
        all.call(ChannelAsk::ForceSend(30)),
        all.call(ChannelAsk::TryRecv),
        all.call(ChannelAsk::TryRecv),
        all.call(ChannelAsk::IsEmpty),
    ];
    let woken = all.names.woken.len();
    drop(all);
    expect_equal(
        &rt,
        &answers,
        &[
            Said::Sent(None),
            Said::Full(20),
            Said::Flag(true),
            Said::Count(1),
            Said::Cap(Some(1)),
            Said::Sent(Some(10)),
            Said::Received(30),
            Said::Empty,
            Said::Flag(true),
        ],
    );
    expect_equal(&rt, &woken, &0);
    Ok(())
}

#[test]
fn those_who_wait_are_told_in_order(rt: HostRuntime) -> Result<(), Fail> {
    let mut all = make_alone(&rt)?;
    let (first, first_key) = all.poll(ChannelAsk::PollRecv(lent(None), 1));
    let (second, second_key) = all.poll(ChannelAsk::PollRecv(lent(None), 2));
    let (stream, stream_key) = all.poll(ChannelAsk::PollNext(None, 3));
    let sent = all.call(ChannelAsk::TrySend(5));
    let by_the_send = all.names.woken.len();
    let refuse = ChannelAsk::RefusePoll(WaitList::Receives, None, first_key);
    let refused = all.call(refuse);
    let by_the_refusal = all.names.woken.len();
    let next = all.call(ChannelAsk::PollNext(stream_key, 3));
    let (last, last_key) = all.poll(ChannelAsk::PollRecv(lent(second_key), 2));
    let Alone { channel, names } = all;
    drop(channel);
    expect_equal(&rt, &names.woken.as_slice(), &[1, 3, 2].as_slice());
    drop(names);
    expect_equal(
        &rt,
        &[first, second, stream, sent],
        &[
            Said::Pending,
            Said::Pending,
            Said::Pending,
            Said::Sent(None),
        ],
    );
    expect_equal(
        &rt,
        &[refused, next, last],
        &[Said::Refused, Said::Received(5), Said::Pending],
    );
    expect_equal(&rt, &[by_the_send, by_the_refusal], &[2, 3]);
    expect_true(&rt, last_key.is_some());
    Ok(())
}

#[test]
fn a_woken_poll_asks_its_listener_first(rt: HostRuntime) -> Result<(), Fail> {
    let mut all = make_alone(&rt)?;
    let (_, first_key) = all.poll(ChannelAsk::PollRecv(lent(None), 1));
    let (_, second_key) = all.poll(ChannelAsk::PollRecv(lent(None), 2));
    let sent = all.call(ChannelAsk::TrySend(5));
    let (Some(told), Some(waits)) = (first_key, second_key) else {
        return Err(Fail::new(format_args!("a poll left no listener")));
    };
    let (beside, kept) = all.poll(ChannelAsk::PollRecv(woken(waits), 2));
    let (received, gone) = all.poll(ChannelAsk::PollRecv(woken(told), 1));
    drop(all);
    expect_equal(
        &rt,
        &[sent, beside, received],
        &[Said::Sent(None), Said::Pending, Said::Received(5)],
    );
    expect_equal(&rt, &[kept.is_some(), gone.is_some()], &[true, false]);
    Ok(())
}

#[test]
fn a_full_channel_keeps_the_message_of_a_send(rt: HostRuntime) -> Result<(), Fail> {
    let mut all = make_alone(&rt)?;
    let sent = all.call(ChannelAsk::PollSend(1, lent(None), 1));
    let (second, second_key) = all.poll(ChannelAsk::PollSend(2, lent(None), 2));
    let (third, third_key) = all.poll(ChannelAsk::PollSend(3, lent(None), 3));
    let received = all.call(ChannelAsk::TryRecv);
    let by_the_receive = all.names.woken.len();
    let give_up = ChannelAsk::GiveUp(WaitList::Sends, Some(2), second_key);
    let given_up = all.call(give_up);
    let last = all.call(ChannelAsk::PollSend(3, lent(third_key), 3));
    let Alone { channel, names } = all;
    drop(channel);
    expect_equal(&rt, &names.woken.as_slice(), &[2, 3].as_slice());
    drop(names);
    expect_equal(
        &rt,
        &[sent, second, third],
        &[Said::Sent(None), Said::Pending, Said::Pending],
    );
    expect_equal(
        &rt,
        &[received, given_up, last],
        &[Said::Received(1), Said::GivenUp(Some(2)), Said::Sent(None)],
    );
    expect_equal(&rt, &by_the_receive, &1);
    Ok(())
}

#[test]
fn a_closed_channel_refuses(rt: HostRuntime) -> Result<(), Fail> {
    let mut all = make_alone(&rt)?;
    let answers = [
        all.call(ChannelAsk::Close),
        all.call(ChannelAsk::Close),
        all.call(ChannelAsk::PollSend(3, lent(None), 3)),
        all.call(ChannelAsk::PollRecv(lent(None), 4)),
    ];
    drop(all);
    expect_equal(
        &rt,
        &answers,
        &[
            Said::Flag(true),
            Said::Flag(false),
            Said::Closed(Some(3)),
            Said::Closed(None),
        ],
    );
    Ok(())
}

#[test]
fn handles_are_counted(rt: HostRuntime) -> Result<(), Fail> {
    let mut all = make_alone(&rt)?;
    let answers = [
        all.call(ChannelAsk::CloneHandle(Side::Senders)),
        all.call(ChannelAsk::DropSender),
        all.call(ChannelAsk::Upgrade(Side::Senders)),
        all.call(ChannelAsk::HandleCount(Side::Senders)),
        all.call(ChannelAsk::IsClosed),
    ];
    drop(all);
    expect_equal(
        &rt,
        &answers,
        &[
            Said::Made(true),
            Said::Dropped,
            Said::Made(true),
            Said::Count(2),
            Said::Flag(false),
        ],
    );
    Ok(())
}

#[test]
fn the_last_receiver_closes_before_its_listener_leaves(rt: HostRuntime) -> Result<(), Fail> {
    let mut all = make_alone(&rt)?;
    let (closing, closing_key) = all.poll(ChannelAsk::PollClosed(None, 4));
    let (stream, stream_key) = all.poll(ChannelAsk::PollNext(None, 3));
    let dropped = all.call(ChannelAsk::DropReceiver(stream_key));
    let by_the_drop = all.names.woken.len();
    let upgraded = all.call(ChannelAsk::Upgrade(Side::Senders));
    let terminated = all.call(ChannelAsk::IsTerminated);
    let told = all.call(ChannelAsk::PollClosed(closing_key, 4));
    let Alone { channel, names } = all;
    drop(channel);
    expect_equal(&rt, &names.woken.as_slice(), &[3, 4].as_slice());
    drop(names);
    expect_equal(
        &rt,
        &[closing, stream, dropped],
        &[Said::Pending, Said::Pending, Said::Dropped],
    );
    expect_equal(
        &rt,
        &[upgraded, terminated, told],
        &[Said::Made(false), Said::Flag(true), Said::Ended],
    );
    expect_equal(&rt, &by_the_drop, &2);
    Ok(())
}

#[test]
fn calls_that_touch_nothing(rt: HostRuntime) -> Result<(), Fail> {
    let mut all = make_alone(&rt)?;
    let answers = [
        all.call(ChannelAsk::PollFinishedSend),
        all.call(ChannelAsk::SameChannel(true)),
        all.call(ChannelAsk::SendIsTerminated(false)),
        all.call(ChannelAsk::Make),
        all.call(ChannelAsk::DropWeak),
    ];
    let woken = all.names.woken.len();
    drop(all);
    expect_equal(
        &rt,
        &answers,
        &[
            Said::Pending,
            Said::Flag(true),
            Said::Flag(false),
            Said::Made(true),
            Said::Dropped,
        ],
    );
    expect_equal(&rt, &woken, &0);
    Ok(())
}

/// A channel of this form that was just made, with no call under way.
fn at_rest(form: QueueForm, alloc: Global) -> Result<PlainChannel<u64, u32>, AllocError>
    requires { CanBeMade form }
    ensures { IfOk result (λ channel. IsAtRest (parts_of channel)) }
{
    PlainChannel::new(form, alloc)
}

#[test]
fn a_ring_takes_a_message(rt: HostRuntime) -> Result<(), Fail> {
    let mut channel = at_rest(QueueForm::Bounded(3), rt.alloc())?;
    let mut names = no_names(&rt);
    let mut messages = 0;
    let ask = ChannelAsk::TrySend(10);
    let answer = answer_of(run_alone(ask, &mut channel, &mut messages, &mut names).reply);
    drop(channel);
    drop(names);
    expect_equal(&rt, &answer, &Said::Sent(None));
    expect_equal(&rt, &messages, &1);
    Ok(())
}

#[test]
fn an_unbounded_channel_keeps_a_listener(rt: HostRuntime) -> Result<(), Fail> {
    let mut channel = at_rest(QueueForm::Unbounded, rt.alloc())?;
    let mut names = no_names(&rt);
    let mut messages = 0;
    let ask = ChannelAsk::PollRecv(lent(None), 1);
    let done = run_alone(ask, &mut channel, &mut messages, &mut names);
    let (answer, key) = (answer_of(done.reply), done.kept.key);
    drop(channel);
    drop(names);
    expect_equal(&rt, &answer, &Said::Pending);
    expect_true(&rt, key.is_some());
    Ok(())
}
