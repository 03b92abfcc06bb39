//! Calls of a channel's handles that take no memory, row by row. Each row is played once for each of these calls in it: up to that call
//! memory is ample, and from it on the process has none, to the row's end, but for what takes some: the first poll of an operation, and a
//! send without a bound. Whatever is refused, the row answers as it always does.

use crate::checks::{expect_equal, expect_true};
use crate::scarcity::{Scarcity, Seen, is_out_of_memory};
use async_channel::{
    Closed, Receiver, Recv, RecvError, Refused, Send, SendError, Sender, TryRecvError, TrySendError,
};
use channel_test_helpers::{Said, closes, opened, receives, sends, streams};
use futures::test::MockTask;
use std::alloc::Global;
use std::mem;
use std::sync::Wait;

/// A call of a row.
#[derive(Clone, Copy, PartialEq, Eq, Debug)]
enum Deed {
    /// A send is made, polled once and let go.
    Send(u64),
    /// The send that waits is polled, and made before its first poll.
    PollSend(u64),
    PollFirst,
    PollSecond,
    PollStream,
    PollClosed,
    TrySend(u64),
    ForceSend(u64),
    TryRecv,
    /// A send that would block its thread.
    SendBlocking(u64),
    /// A receive that would block its thread.
    RecvBlocking,
    /// The questions that take no memory.
    Ask,
    Close,
    DropSender,
    DropFirst,
    DropStream,
    GiveUpFirst,
    GiveUpSecond,
    GiveUpSend,
    GiveUpClosed,
    /// Who was woken.
    Woken,
}

/// What a call answers.
#[derive(Clone, Copy, PartialEq, Eq, Debug)]
enum Answer {
    Pending,
    Done,
    Got(u64),
    Full(u64),
    Displaced(u64),
    /// This message comes back from a closed channel, or from a send that is given up.
    Back(u64),
    Empty,
    Over,
    /// Memory was refused, and this message comes back, or 0 where there was none.
    NoMemory(u64),
    Flag(bool),
    /// How many messages there are.
    Holds(usize),
    /// The names of those who were woken as the digits of a number: 1 and 2 for the receives, 3 for the stream, 4 for the wait for the
    /// closing, 5 for the send.
    Names(u32),
    /// Anything else.
    Else,
}

use Answer::{
    Back, Displaced, Done, Empty, Flag, Full, Got, Holds, Names, NoMemory, Over, Pending,
};

type Line = (Deed, Answer);

/// How often the rows are played, in all.
const PLAYS: u32 = 45;

/// A send, a send too many, a receive, and one too many.
const ONE_PLACE: [Line; 4] = [
    (Deed::Send(10), Done),
    (Deed::TrySend(20), Full(20)),
    (Deed::PollFirst, Got(10)),
    (Deed::TryRecv, Empty),
];

/// The second forced send displaces the oldest message.
const THREE_PLACES: [Line; 10] = [
    (Deed::Send(1), Done),
    (Deed::Send(2), Done),
    (Deed::ForceSend(3), Done),
    (Deed::TrySend(4), Full(4)),
    (Deed::Ask, Holds(3)),
    (Deed::ForceSend(4), Displaced(1)),
    (Deed::TryRecv, Got(2)),
    (Deed::TryRecv, Got(3)),
    (Deed::TryRecv, Got(4)),
    (Deed::TryRecv, Empty),
];

/// The last sender closes the channel.
const LAST_SENDER: [Line; 5] = [
    (Deed::TrySend(1), Done),
    (Deed::TryRecv, Got(1)),
    (Deed::TryRecv, Empty),
    (Deed::DropSender, Done),
    (Deed::TryRecv, Over),
];

/// A told receive that is dropped passes its notice on.
const PASSED_ON: [Line; 8] = [
    (Deed::PollFirst, Pending),
    (Deed::PollSecond, Pending),
    (Deed::TrySend(10), Done),
    (Deed::Woken, Names(1)),
    (Deed::TrySend(20), Full(20)),
    (Deed::DropFirst, Done),
    (Deed::Woken, Names(12)),
    (Deed::PollSecond, Got(10)),
];

/// The same of one that is given up; and the next message wakes nobody.
const GIVEN_UP: [Line; 8] = [
    (Deed::PollFirst, Pending),
    (Deed::PollSecond, Pending),
    (Deed::TrySend(10), Done),
    (Deed::GiveUpFirst, Done),
    (Deed::Woken, Names(12)),
    (Deed::GiveUpSecond, Done),
    (Deed::TryRecv, Got(10)),
    (Deed::TrySend(11), Done),
];

/// A closing wakes a receive, a stream and who waits for it.
const CLOSED: [Line; 10] = [
    (Deed::PollFirst, Pending),
    (Deed::PollStream, Pending),
    (Deed::PollClosed, Pending),
    (Deed::Close, Flag(true)),
    (Deed::Woken, Names(134)),
    (Deed::PollFirst, Over),
    (Deed::PollStream, Over),
    (Deed::PollClosed, Over),
    (Deed::Close, Flag(false)),
    (Deed::TryRecv, Over),
];

/// Who waits for the closing, and a stream, leave before it.
const LEFT_BEFORE: [Line; 6] = [
    (Deed::PollStream, Pending),
    (Deed::PollClosed, Pending),
    (Deed::GiveUpClosed, Done),
    (Deed::DropStream, Done),
    (Deed::Close, Flag(true)),
    (Deed::TrySend(1), Back(1)),
];

/// A send waits, and isn't woken by a message that displaces one; given up it hands its message back.
const SEND_GIVEN_UP: [Line; 6] = [
    (Deed::TrySend(1), Done),
    (Deed::PollSend(2), Pending),
    (Deed::ForceSend(3), Displaced(1)),
    (Deed::Woken, Names(0)),
    (Deed::GiveUpSend, Back(2)),
    (Deed::TryRecv, Got(3)),
];

/// A taking wakes a send, which is done then.
const SEND_WOKEN: [Line; 6] = [
    (Deed::TrySend(1), Done),
    (Deed::PollSend(2), Pending),
    (Deed::TryRecv, Got(1)),
    (Deed::Woken, Names(5)),
    (Deed::PollSend(2), Done),
    (Deed::TryRecv, Got(2)),
];

/// The list of receives has room for one more, so the receive that blocks is refused what it would sleep on. Its listener is gone: who
/// waits next has its place, and the next message wakes it. (The first task was woken when the waker that it gave was let go.)
const RECEIVE_BLOCKS: [Line; 7] = [
    (Deed::PollFirst, Pending),
    (Deed::GiveUpFirst, Done),
    (Deed::RecvBlocking, NoMemory(0)),
    (Deed::PollSecond, Pending),
    (Deed::TrySend(5), Done),
    (Deed::Woken, Names(12)),
    (Deed::RecvBlocking, Got(5)),
];

/// The same of a send, whose message comes back.
const SEND_BLOCKS: [Line; 9] = [
    (Deed::SendBlocking(1), Done),
    (Deed::PollSend(2), Pending),
    (Deed::GiveUpSend, Back(2)),
    (Deed::SendBlocking(3), NoMemory(3)),
    (Deed::TrySend(3), Full(3)),
    (Deed::PollSend(4), Pending),
    (Deed::TryRecv, Got(1)),
    (Deed::Woken, Names(5)),
    (Deed::PollSend(4), Done),
];

/// What a row is played from: a call that takes no memory, whatever was called before it, on a channel with so many places, or without a
/// bound where that is 0.
fn takes_none(deed: Deed, capacity: usize) -> bool {
    match deed {
        Deed::TrySend(_) | Deed::ForceSend(_) => capacity > 0,
        Deed::Woken | Deed::Send(_) => false,
        _ => task_of(deed).is_none(),
    }
}

/// The place of the task by which a call polls.
fn task_of(deed: Deed) -> Option<usize> {
    match deed {
        Deed::PollFirst => Some(0),
        Deed::PollSecond => Some(1),
        Deed::PollStream => Some(2),
        Deed::PollClosed => Some(3),
        Deed::PollSend(_) => Some(4),
        _ => None,
    }
}

/// Whether a call would block its thread.
fn blocks(deed: Deed) -> bool {
    matches!(deed, Deed::SendBlocking(_) | Deed::RecvBlocking)
}

/// The tasks that poll.
#[derive(Clone, Copy)]
struct Tasks<'t> {
    first: &'t MockTask,
    second: &'t MockTask,
    stream: &'t MockTask,
    closed: &'t MockTask,
    send: &'t MockTask,
}

/// The names of those who were woken, and behind them that of this task, if it was polled and woken.
fn names_with(names: u32, name: u32, task: &MockTask, is_polled: bool) -> u32 {
    if is_polled && task.is_woken() {
        names.wrapping_mul(10).wrapping_add(name)
    } else {
        names
    }
}

/// The handles and operations of a row.
#[derive(Drop)]
struct Calls<'t, 's, 'a, R: Wait + Copy> {
    tasks: Tasks<'t>,
    /// The sender that a row drops; operations borrow the other one, where there is one.
    own: Option<Sender<u64, R>>,
    lent: Option<&'s Sender<u64, R>>,
    receiver: &'a Receiver<u64, R>,
    stream: Option<Receiver<u64, R>>,
    first: Option<Recv<'a, u64, R>>,
    second: Option<Recv<'a, u64, R>>,
    closed: Option<Closed<'s, u64, R>>,
    send: Option<Send<'s, u64, R>>,
    /// Which operations were polled.
    polled: [bool; 5],
}

/// What a poll answers.
fn polled(said: Said) -> Answer {
    match said {
        Said::Pending => Answer::Pending,
        Said::Done => Answer::Done,
        Said::Got(message) => Answer::Got(message),
        Said::Back(message) => Answer::Back(message),
        Said::Over => Answer::Over,
        Said::Wanted => Answer::NoMemory(0),
    }
}

/// What a send answers that doesn't wait.
fn tried(sent: Result<(), Refused<TrySendError<u64>, u64>>) -> Answer {
    match sent {
        Ok(()) => Answer::Done,
        Err(Refused::Plain(TrySendError::Full(back))) => Answer::Full(back),
        Err(Refused::Plain(TrySendError::Closed(back))) => Answer::Back(back),
        Err(Refused::NoMemory(back)) => Answer::NoMemory(back),
        Err(Refused::SerialsUsedUp(_)) => Answer::Else,
    }
}

/// What a send answers that displaces the oldest message of a full channel.
fn forced(sent: Result<Option<u64>, Refused<SendError<u64>, u64>>) -> Answer {
    match sent {
        Ok(None) => Answer::Done,
        Ok(Some(oldest)) => Answer::Displaced(oldest),
        Err(Refused::Plain(SendError(back))) => Answer::Back(back),
        Err(Refused::NoMemory(back)) => Answer::NoMemory(back),
        Err(Refused::SerialsUsedUp(_)) => Answer::Else,
    }
}

/// What a send answers that blocks.
fn blocked(sent: Result<(), Refused<SendError<u64>, u64>>) -> Answer {
    match sent {
        Ok(()) => Answer::Done,
        Err(Refused::Plain(SendError(back))) => Answer::Back(back),
        Err(Refused::NoMemory(back)) => Answer::NoMemory(back),
        Err(Refused::SerialsUsedUp(_)) => Answer::Else,
    }
}

/// What a receive answers that blocks.
fn got(message: Result<u64, Refused<RecvError>>) -> Answer {
    match message {
        Ok(message) => Answer::Got(message),
        Err(Refused::Plain(RecvError)) => Answer::Over,
        Err(Refused::NoMemory(())) => Answer::NoMemory(0),
        Err(Refused::SerialsUsedUp(())) => Answer::Else,
    }
}

/// What a receive answers that doesn't wait.
fn received(message: Result<u64, TryRecvError>) -> Answer {
    match message {
        Ok(message) => Answer::Got(message),
        Err(TryRecvError::Empty) => Answer::Empty,
        Err(TryRecvError::Closed) => Answer::Over,
    }
}

/// What a send hands back that is given up.
fn back(message: Option<u64>) -> Answer {
    match message {
        Some(message) => Answer::Back(message),
        None => Answer::Else,
    }
}

/// Lets a handle or an operation go.
fn dropped<X: Drop>(it: Option<X>) -> Answer {
    let answer = if it.is_some() {
        Answer::Done
    } else {
        Answer::Else
    };
    drop(it);
    answer
}

/// Gives a receive up.
fn given_up<R: Wait + Copy>(recv: Option<Recv<'_, u64, R>>) -> Answer {
    match recv {
        Some(recv) => {
            recv.give_up();
            Answer::Done
        }
        None => Answer::Else,
    }
}

impl<'t, 's, 'a, R: Wait + Copy> Calls<'t, 's, 'a, R> {
    /// Makes a call: what it answers.
    fn make(&mut self, deed: Deed) -> Answer {
        match deed {
            Deed::TryRecv => received(self.receiver.try_recv()),
            Deed::RecvBlocking => got(self.receiver.recv_blocking()),
            Deed::Ask => self.ask(),
            Deed::Woken => self.woken(),
            Deed::PollFirst | Deed::PollSecond | Deed::PollStream => self.receive(deed),
            Deed::PollClosed => self.poll_closed(),
            Deed::Send(message) => self.send_once(message),
            Deed::PollSend(message) => self.poll_send(message),
            Deed::DropSender | Deed::DropFirst | Deed::DropStream => self.drop_one(deed),
            Deed::GiveUpFirst | Deed::GiveUpSecond => self.give_up(deed),
            Deed::GiveUpSend | Deed::GiveUpClosed => self.give_up(deed),
            _ => self.send(deed),
        }
    }

    /// Whether a call takes no memory: a poll of an operation that was polled before takes none either.
    fn takes_none(&self, deed: Deed, capacity: usize) -> bool {
        match task_of(deed) {
            Some(place) => self.polled.get(place) == Some(&true),
            None => deed == Deed::Woken || takes_none(deed, capacity),
        }
    }

    /// A call of the sender that waits for nobody, or blocks.
    fn send(&mut self, deed: Deed) -> Answer {
        let Some(sender) = &self.own else {
            return Answer::Else;
        };
        match deed {
            Deed::TrySend(message) => tried(sender.try_send(message)),
            Deed::ForceSend(message) => forced(sender.force_send(message)),
            Deed::SendBlocking(message) => blocked(sender.send_blocking(message)),
            Deed::Close => Answer::Flag(sender.close()),
            _ => Answer::Else,
        }
    }

    /// A poll of a receive or of the stream.
    fn receive(&mut self, deed: Deed) -> Answer {
        match deed {
            Deed::PollFirst => self.poll_first(),
            Deed::PollSecond => self.poll_second(),
            _ => self.poll_stream(),
        }
    }

    fn poll_first(&mut self) -> Answer {
        let task = self.tasks.first;
        self.polled[0] = true;
        match &mut self.first {
            Some(first) => polled(receives(task, first)),
            None => Answer::Else,
        }
    }

    fn poll_second(&mut self) -> Answer {
        let task = self.tasks.second;
        self.polled[1] = true;
        match &mut self.second {
            Some(second) => polled(receives(task, second)),
            None => Answer::Else,
        }
    }

    fn poll_stream(&mut self) -> Answer {
        let task = self.tasks.stream;
        self.polled[2] = true;
        match &mut self.stream {
            Some(stream) => polled(streams(task, stream)),
            None => Answer::Else,
        }
    }

    fn poll_closed(&mut self) -> Answer {
        let task = self.tasks.closed;
        self.polled[3] = true;
        match &mut self.closed {
            Some(closed) => polled(closes(task, closed)),
            None => Answer::Else,
        }
    }

    /// A poll of a send, which is made before its first poll.
    fn poll_send(&mut self, message: u64) -> Answer {
        let task = self.tasks.send;
        self.polled[4] = true;
        if self.send.is_none() {
            let made = match self.lent {
                Some(sender) => Some(sender.send(message)),
                None => None,
            };
            drop(mem::replace(&mut self.send, made));
        }
        match &mut self.send {
            Some(send) => polled(sends(task, send)),
            None => Answer::Else,
        }
    }

    /// A send that is polled once and let go.
    fn send_once(&mut self, message: u64) -> Answer {
        let task = self.tasks.send;
        match self.lent {
            Some(sender) => {
                let mut send = sender.send(message);
                polled(sends(task, &mut send))
            }
            None => Answer::Else,
        }
    }

    fn drop_one(&mut self, deed: Deed) -> Answer {
        match deed {
            Deed::DropSender => dropped(self.own.take()),
            Deed::DropFirst => dropped(self.first.take()),
            _ => dropped(self.stream.take()),
        }
    }

    fn give_up(&mut self, deed: Deed) -> Answer {
        match deed {
            Deed::GiveUpFirst => given_up(self.first.take()),
            Deed::GiveUpSecond => given_up(self.second.take()),
            Deed::GiveUpClosed => self.give_up_closed(),
            _ => self.give_up_send(),
        }
    }

    fn give_up_closed(&mut self) -> Answer {
        match self.closed.take() {
            Some(closed) => {
                closed.give_up();
                Answer::Done
            }
            None => Answer::Else,
        }
    }

    fn give_up_send(&mut self) -> Answer {
        self.polled[4] = false;
        match self.send.take() {
            Some(send) => back(send.give_up()),
            None => Answer::Else,
        }
    }

    /// How many messages there are, where all other questions answer so.
    fn ask(&self) -> Answer {
        let Some(sender) = &self.own else {
            return Answer::Else;
        };
        let r = self.receiver;
        let flags = [
            sender.is_full(),
            sender.is_empty(),
            sender.is_closed(),
            r.is_terminated(),
        ];
        let counts = (
            r.sender_count(),
            r.receiver_count(),
            sender.same_channel(sender),
        );
        if flags == [true, false, false, false] && counts == (2, 2, true) {
            Answer::Holds(sender.len())
        } else {
            Answer::Else
        }
    }

    /// The names of those who were polled and then woken.
    fn woken(&self) -> Answer {
        let tasks = self.tasks;
        let first = names_with(0, 1, tasks.first, self.polled[0]);
        let second = names_with(first, 2, tasks.second, self.polled[1]);
        let third = names_with(second, 3, tasks.stream, self.polled[2]);
        let fourth = names_with(third, 4, tasks.closed, self.polled[3]);
        Answer::Names(names_with(fourth, 5, tasks.send, self.polled[4]))
    }
}

/// A row, how many places its channel has, and from which call on memory is refused.
#[derive(Clone, Copy)]
struct Round<'r> {
    row: &'r [Line],
    capacity: usize,
    from: usize,
}

/// Where rows are played.
#[derive(Drop)]
struct Place<'t, R: Wait + Copy> {
    rt: R,
    alloc: Global,
    tasks: Tasks<'t>,
    scarcity: Scarcity,
    /// How often a row was played.
    plays: u32,
}

impl<'t, R: Wait + Copy> Place<'t, R> {
    /// Makes the calls of a row, those from one on, and each that would block, with no memory at hand. The place of the first one that
    /// answers another thing than stands there.
    fn make_all(&mut self, calls: &mut Calls<'t, '_, '_, R>, round: Round<'_>) -> Option<usize> {
        for (place, (deed, answer)) in round.row.iter().enumerate() {
            let takes_none = place >= round.from && calls.takes_none(*deed, round.capacity);
            let is_refused = takes_none || blocks(*deed);
            if is_refused {
                self.scarcity.leave(0);
            } else {
                self.scarcity.relent();
            }
            if is_refused && !is_out_of_memory(self.alloc) || calls.make(*deed) != *answer {
                return Some(place);
            }
        }
        None
    }

    /// Plays a row over a new channel.
    fn play(&mut self, round: Round<'_>) -> Option<usize> {
        self.scarcity.relent();
        let Some((sender, receiver)) = opened(self.rt, self.alloc, round.capacity) else {
            return Some(round.row.len());
        };
        let drops = round.row.contains(&(Deed::DropSender, Answer::Done));
        let lent = if drops { None } else { sender.try_clone().ok() };
        self.play_over(round, sender, lent.as_ref(), &receiver)
    }

    /// Plays a row over these handles, of which the first is the one that a row drops.
    fn play_over<'s, 'a>(
        &mut self,
        round: Round<'_>,
        own: Sender<u64, R>,
        lent: Option<&'s Sender<u64, R>>,
        receiver: &'a Receiver<u64, R>,
    ) -> Option<usize> {
        let closed = match lent {
            Some(sender) => Some(sender.closed()),
            None => None,
        };
        let mut calls = Calls {
            tasks: self.tasks,
            own: Some(own),
            lent,
            receiver,
            stream: receiver.try_clone().ok(),
            first: Some(receiver.recv()),
            second: Some(receiver.recv()),
            closed,
            send: None,
            polled: [false; 5],
        };
        self.make_all(&mut calls, round)
    }

    /// Plays a row once for each of its calls that takes no memory. The first call that answered another thing: from which call on
    /// memory was refused then, and the call's place.
    fn play_each(&mut self, row: &[Line], capacity: usize) -> Option<(usize, usize)> {
        for (from, (deed, _)) in row.iter().enumerate() {
            if takes_none(*deed, capacity) {
                self.plays = self.plays.wrapping_add(1);
                let round = Round {
                    row,
                    capacity,
                    from,
                };
                if let Some(place) = self.play(round) {
                    return Some((from, place));
                }
            }
        }
        None
    }
}

/// What came of all rows: how often one was played, what each row said that was played wrongly, and whether memory ran out.
#[derive(Clone, Copy, PartialEq, Eq, Debug)]
struct Came {
    plays: u32,
    differs: [Option<(usize, usize)>; 11],
    seen: Seen,
}

fn play_all<R: Wait + Copy>(rt: R, alloc: Global, tasks: Tasks<'_>) -> Came {
    let mut place = Place {
        rt,
        alloc,
        tasks,
        scarcity: Scarcity::new(alloc),
        plays: 0,
    };
    let differs = [
        place.play_each(ONE_PLACE.as_slice(), 1),
        place.play_each(THREE_PLACES.as_slice(), 3),
        place.play_each(LAST_SENDER.as_slice(), 0),
        place.play_each(PASSED_ON.as_slice(), 1),
        place.play_each(GIVEN_UP.as_slice(), 1),
        place.play_each(CLOSED.as_slice(), 0),
        place.play_each(LEFT_BEFORE.as_slice(), 1),
        place.play_each(SEND_GIVEN_UP.as_slice(), 1),
        place.play_each(SEND_WOKEN.as_slice(), 1),
        place.play_each(RECEIVE_BLOCKS.as_slice(), 1),
        place.play_each(SEND_BLOCKS.as_slice(), 1),
    ];
    Came {
        plays: place.plays,
        differs,
        seen: place.scarcity.end(),
    }
}

#[test]
fn calls_that_take_no_memory(rt: HostRuntime) {
    let (one, two, three) = (
        MockTask::new(&rt).expect(&rt, "memory"),
        MockTask::new(&rt).expect(&rt, "memory"),
        MockTask::new(&rt).expect(&rt, "memory"),
    );
    let (four, five) = (
        MockTask::new(&rt).expect(&rt, "memory"),
        MockTask::new(&rt).expect(&rt, "memory"),
    );
    let tasks = Tasks {
        first: &one,
        second: &two,
        stream: &three,
        closed: &four,
        send: &five,
    };
    let came = play_all(rt, rt.alloc(), tasks);
    expect_equal(&rt, &came.differs, &[None; 11]);
    expect_equal(&rt, &came.plays, &PLAYS);
    expect_true(&rt, came.seen.right);
}
