//! Each way to send and to receive, with a waybill: what the pass knows afterwards. A message that comes back is taken back by who
//! gets it, be it the one that was refused or an older one that was displaced.

ghost use Rattle.std.specs.Prelude.{◌≡◌, [], None, IfSome};
ghost use Rattle.waybill.specs.Accounts.{account, after_sent, after_received, after_returned};

use async_channel::{Receiver, Sender, bounded};
use channel_calls::error::Refused;
use concurrent_queue::ConcurrentQueue;
use event_listener::id::EventIds;
use futures::StreamExt;
use futures::executor::block_on;
use std::alloc::{AllocGlobal, Global};
use std::marker::Brand;
use std::random::RandomSource;
use std::sync::Wait;
use waybill::{Inbox, Office, Opened, Parcel, Pass, Room};

/// By the polled send, which waits for a place. What a closed channel hands back is answered.
pub fn send<B: Room, R: Wait + Copy + RandomSource + AllocGlobal>(
    rt: R,
    office: &Office<u32, B>,
    sender: &Sender<Parcel<u32, B>, R>,
    pass: &mut Pass<u32, B>,
    value: u32,
) -> Option<u32>
    ensures sent { result ≡ None → pass.new ≡ after_sent pass.old value }
    ensures back { IfSome result (λ back. pass.new ≡ after_returned (after_sent pass.old value) back) }
{
    match block_on(&rt, sender.send(office.pack(pass, value))) {
        Ok(Err(Refused::Plain(error))) => Some(office.take_back(pass, error.into_inner())),
        _ => None,
    }
}

/// By the send that waits for a place and keeps its thread. What a closed channel hands back is answered.
pub fn send_blocking<B: Room, R: Wait + Copy>(
    office: &Office<u32, B>,
    sender: &Sender<Parcel<u32, B>, R>,
    pass: &mut Pass<u32, B>,
    value: u32,
) -> Option<u32>
    ensures sent { result ≡ None → pass.new ≡ after_sent pass.old value }
    ensures back { IfSome result (λ back. pass.new ≡ after_returned (after_sent pass.old value) back) }
{
    match sender.send_blocking(office.pack(pass, value)) {
        Err(Refused::Plain(error)) => Some(office.take_back(pass, error.into_inner())),
        _ => None,
    }
}

/// By the send that doesn't wait. What was refused is answered.
pub fn try_send<B: Room, R: Wait + Copy>(
    office: &Office<u32, B>,
    sender: &Sender<Parcel<u32, B>, R>,
    pass: &mut Pass<u32, B>,
    value: u32,
) -> Option<u32>
    ensures sent { result ≡ None → pass.new ≡ after_sent pass.old value }
    ensures back { IfSome result (λ back. pass.new ≡ after_returned (after_sent pass.old value) back) }
{
    match sender.try_send(office.pack(pass, value)) {
        Ok(()) => None,
        Err(refused) => Some(office.take_back(pass, refused.into_inner())),
    }
}

/// By the send that displaces the oldest message of a full channel. What was displaced or refused is answered.
pub fn force_send<B: Room, R: Wait + Copy>(
    office: &Office<u32, B>,
    sender: &Sender<Parcel<u32, B>, R>,
    pass: &mut Pass<u32, B>,
    value: u32,
) -> Option<u32>
    ensures sent { result ≡ None → pass.new ≡ after_sent pass.old value }
    ensures back { IfSome result (λ back. pass.new ≡ after_returned (after_sent pass.old value) back) }
{
    match sender.force_send(office.pack(pass, value)) {
        Ok(None) => None,
        Ok(Some(displaced)) => Some(office.take_back(pass, displaced)),
        Err(refused) => Some(office.take_back(pass, refused.into_inner())),
    }
}

/// By the polled receive, which waits for a message.
pub fn recv<B: Room, R: Wait + Copy + RandomSource + AllocGlobal>(
    rt: R,
    office: &Office<u32, B>,
    receiver: &Receiver<Parcel<u32, B>, R>,
    pass: &mut Pass<u32, B>,
) -> Option<u32>
    ensures none { result ≡ None → pass.new ≡ pass.old }
    ensures came { IfSome result (λ value. pass.new ≡ after_received pass.old value) }
{
    match block_on(&rt, receiver.recv()) {
        Ok(Ok(parcel)) => Some(office.unpack(pass, parcel)),
        _ => None,
    }
}

/// By the receive that waits for a message and keeps its thread.
pub fn recv_blocking<B: Room, R: Wait + Copy>(
    office: &Office<u32, B>,
    receiver: &Receiver<Parcel<u32, B>, R>,
    pass: &mut Pass<u32, B>,
) -> Option<u32>
    ensures none { result ≡ None → pass.new ≡ pass.old }
    ensures came { IfSome result (λ value. pass.new ≡ after_received pass.old value) }
{
    match receiver.recv_blocking() {
        Ok(parcel) => Some(office.unpack(pass, parcel)),
        Err(_) => None,
    }
}

/// By the receive that doesn't wait for a message.
pub fn try_recv<B: Room, R: Wait + Copy>(
    office: &Office<u32, B>,
    receiver: &Receiver<Parcel<u32, B>, R>,
    pass: &mut Pass<u32, B>,
) -> Option<u32>
    ensures none { result ≡ None → pass.new ≡ pass.old }
    ensures came { IfSome result (λ value. pass.new ≡ after_received pass.old value) }
{
    match receiver.try_recv() {
        Ok(parcel) => Some(office.unpack(pass, parcel)),
        Err(_) => None,
    }
}

/// Several at once, into an inbox.
pub fn recv_many<B: Room, R: Wait + Copy>(
    office: &Office<u32, B>,
    receiver: &Receiver<Parcel<u32, B>, R>,
    limit: usize,
    mut inbox: Inbox<u32, B>,
) -> (Pass<u32, B>, Vec<u32>)
    ensures { result.0 ≡ account 1 [] result.1.items [] }
{
    let Ok(parcels) = receiver.recv_many(limit) else {
        return inbox.into_parts();
    };
    for parcel in parcels {
        if inbox.unpack(office, parcel).is_err() {
            break;
        }
    }
    inbox.into_parts()
}

/// By the stream.
pub fn next<B: Room, R: Wait + Copy + RandomSource + AllocGlobal>(
    rt: R,
    office: &Office<u32, B>,
    receiver: &mut Receiver<Parcel<u32, B>, R>,
    pass: &mut Pass<u32, B>,
) -> Option<u32>
    ensures none { result ≡ None → pass.new ≡ pass.old }
    ensures came { IfSome result (λ value. pass.new ≡ after_received pass.old value) }
{
    match block_on(&rt, receiver.next()) {
        Ok(Some(Ok(parcel))) => Some(office.unpack(pass, parcel)),
        _ => None,
    }
}

/// Into a queue. What was refused is answered.
pub fn push<B: Room, R: Wait>(
    rt: &R,
    office: &Office<u32, B>,
    queue: &ConcurrentQueue<Parcel<u32, B>>,
    pass: &mut Pass<u32, B>,
    value: u32,
) -> Option<u32>
    ensures sent { result ≡ None → pass.new ≡ after_sent pass.old value }
    ensures back { IfSome result (λ back. pass.new ≡ after_returned (after_sent pass.old value) back) }
{
    match queue.push(rt, office.pack(pass, value)) {
        Ok(()) => None,
        Err(error) => Some(office.take_back(pass, error.into_inner())),
    }
}

/// Out of a queue.
pub fn pop<B: Room, R: Wait>(
    rt: &R,
    office: &Office<u32, B>,
    queue: &ConcurrentQueue<Parcel<u32, B>>,
    pass: &mut Pass<u32, B>,
) -> Option<u32>
    ensures none { result ≡ None → pass.new ≡ pass.old }
    ensures came { IfSome result (λ value. pass.new ≡ after_received pass.old value) }
{
    match queue.pop(rt) {
        Ok(parcel) => Some(office.unpack(pass, parcel)),
        Err(_) => None,
    }
}

/// How many of these there are.
fn count(found: &[Option<u32>]) -> u64 {
    let mut count = 0u64;
    for one in found {
        if one.is_some() {
            count = count.wrapping_add(1);
        }
    }
    count
}

/// Sends that find two places of a channel and one of a queue: how many messages were taken back.
fn sends<B: Room, R: Wait + Copy + RandomSource + AllocGlobal>(
    rt: R,
    office: &Office<u32, B>,
    sender: &Sender<Parcel<u32, B>, R>,
    queue: &ConcurrentQueue<Parcel<u32, B>>,
    pass: &mut Pass<u32, B>,
) -> u64 {
    count(&[
        send::<B, R>(rt, office, sender, pass, 1),
        try_send::<B, R>(office, sender, pass, 2),
        try_send::<B, R>(office, sender, pass, 3),
        force_send::<B, R>(office, sender, pass, 4),
        push::<B, R>(&rt, office, queue, pass, 5),
        push::<B, R>(&rt, office, queue, pass, 6),
    ])
}

/// Receives of these: how many messages came.
fn receives<B: Room, R: Wait + Copy + RandomSource + AllocGlobal>(
    rt: R,
    office: &Office<u32, B>,
    receiver: &Receiver<Parcel<u32, B>, R>,
    queue: &ConcurrentQueue<Parcel<u32, B>>,
    pass: &mut Pass<u32, B>,
) -> u64 {
    count(&[
        recv::<B, R>(rt, office, receiver, pass),
        try_recv::<B, R>(office, receiver, pass),
        try_recv::<B, R>(office, receiver, pass),
        pop::<B, R>(&rt, office, queue, pass),
        pop::<B, R>(&rt, office, queue, pass),
    ])
}

/// By calls that block, and two messages more: how many were received, and how many taken back.
fn blocks<B: Room, R: Wait + Copy>(
    office: &Office<u32, B>,
    sender: &Sender<Parcel<u32, B>, R>,
    receiver: &Receiver<Parcel<u32, B>, R>,
    pass: &mut Pass<u32, B>,
) -> (u64, u64) {
    let seventh = send_blocking::<B, R>(office, sender, pass, 7);
    let came = recv_blocking::<B, R>(office, receiver, pass);
    let eighth = try_send::<B, R>(office, sender, pass, 8);
    let ninth = try_send::<B, R>(office, sender, pass, 9);
    (count(&[came]), count(&[seventh, eighth, ninth]))
}

fn each_way_in<B: Room, R: Wait + Copy + RandomSource + AllocGlobal>(
    rt: R,
    alloc: Global,
    ids: &mut EventIds,
    opened: Opened<u32>,
) -> Option<(u64, u64)>
    requires { opened ≡ B.table }
{
    let (sender, mut receiver) = bounded(rt, alloc, 2, ids).ok()?;
    let queue = ConcurrentQueue::bounded(alloc, 1).ok()?;
    let (office, mut pass) = opened.enter::<B>();
    let inbox = Inbox::new(alloc, office.another(&mut pass));
    let back = sends::<B, R>(rt, &office, &sender, &queue, &mut pass);
    let came = receives::<B, R>(rt, &office, &receiver, &queue, &mut pass);
    let (came_too, back_too) = blocks::<B, R>(&office, &sender, &receiver, &mut pass);
    let (_, many) = recv_many::<B, R>(&office, &receiver, 1, inbox);
    let last = count(&[next::<B, R>(rt, &office, &mut receiver, &mut pass)]);
    let received = came
        .wrapping_add(came_too)
        .wrapping_add(many.len() as u64)
        .wrapping_add(last);
    Some((received, back.wrapping_add(back_too)))
}

/// How many of nine messages were received, and how many were taken back, where they go each way once. `None` where there is no memory.
pub fn each_way<R: Wait + Copy + RandomSource + AllocGlobal>(
    rt: R,
    alloc: Global,
    ids: &mut EventIds,
) -> Option<(u64, u64)> {
    let opened = Opened::new(alloc).ok()?;
    each_way_in::<Brand, R>(rt, alloc, ids, opened)
}
