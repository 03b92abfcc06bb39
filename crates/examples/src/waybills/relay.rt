//! One thread sends, another receives until the channel is closed: what it received was sent, and each message came once.

ghost use Rattle.std.specs.Prelude.{◌≡◌, ◌<◌, [], IfSome};
ghost use Rattle.waybill.specs.Accounts.{fresh, account, IsPartOf};

use async_channel::{Receiver, Sender, bounded};
use event_listener::id::EventIds;
use std::alloc::Global;
use std::marker::Brand;
use std::sync::Wait;
use std::thread;
use std::thread::Threads;
use waybill::{Inbox, Office, Opened, Parcel, Pass, Room};

fn send_all<B: Room, R: Wait + Copy>(
    office: &Office<u32, B>,
    sender: Sender<Parcel<u32, B>, R>,
    mut pass: Pass<u32, B>,
    all: &[u32],
) -> Pass<u32, B>
    requires { pass ≡ fresh 1 }
    ensures { result ≡ account 1 all.now [] [] }
{
    for next in 0..all.len() {
        let _ = sender.send_blocking(office.pack(&mut pass, all[next]));
    }
    pass
}

fn receive_all<B: Room, R: Wait + Copy>(
    office: &Office<u32, B>,
    receiver: Receiver<Parcel<u32, B>, R>,
    mut inbox: Inbox<u32, B>,
) -> Inbox<u32, B> {
    for parcel in receiver.iter() {
        let Ok(parcel) = parcel else {
            break;
        };
        if inbox.unpack(office, parcel).is_err() {
            break;
        }
    }
    inbox
}

fn relay_in<B: Room + Send + Sync, R: Threads + Wait + Copy + Send + Sync>(
    rt: R,
    alloc: Global,
    ids: &mut EventIds,
    capacity: usize,
    opened: Opened<u32>,
    all: &[u32],
) -> Option<Vec<u32>>
    requires bound { 0 < capacity }
    requires room { opened ≡ B.table }
    ensures { IfSome result (λ got. IsPartOf got.items all.now) }
{
    let (office, mut whole) = opened.enter::<B>();
    let (sender, receiver) = bounded(rt, alloc, capacity, ids).ok()?;
    let writer = office.another(&mut whole);
    let inbox = Inbox::new(alloc, office.another(&mut whole));
    let here = &office;
    let (writer, inbox) = thread::join(
        &rt,
        move ||
            requires { writer ≡ fresh 1 }
            ensures { result ≡ account 1 all.entry.now [] [] }
        { send_all::<B, R>(here, sender, writer, all) },
        move || receive_all::<B, R>(here, receiver, inbox),
    );
    let (reader, got) = inbox.into_parts();
    office.absorb(&mut whole, writer);
    office.absorb(&mut whole, reader);
    office.learn(&mut whole);
    Some(got)
}

/// What one thread received through a channel, until it was closed, of what another sent: each message at most as often as it was
/// sent. `None` where there is no memory.
pub fn relay<R: Threads + Wait + Copy + Send + Sync>(
    rt: R,
    alloc: Global,
    ids: &mut EventIds,
    capacity: usize,
    all: &[u32],
) -> Option<Vec<u32>>
    requires { 0 < capacity }
    ensures { IfSome result (λ got. IsPartOf got.items all.now) }
{
    let opened = Opened::new(alloc).ok()?;
    relay_in::<Brand, R>(rt, alloc, ids, capacity, opened, all)
}
