//! What came is what was sent, as sums: two threads send, two receive and keep no message, only how many came and their sum.

ghost use Rattle.std.specs.Prelude.{◌≡◌, ◌+◌, ◌-◌, ◌++◌, [], length, sum, IfSome};
ghost use Rattle.waybill.specs.Accounts.{all_parts, fresh, account};

use crate::waybills::line::{Kind, Way};
use event_listener::id::EventIds;
use std::alloc::Global;
use std::marker::{Brand, Model};
use std::sync::Wait;
use std::thread;
use std::thread::Threads;
use waybill::{Line, Office, Opened, Parcel, Pass, Room};

/// How many messages came, and their sum.
#[derive(Clone, Copy)]
pub struct Totals {
    pub count: u64,
    pub total: u128,
}

/// A pass, with how many messages it received and their sum.
#[derive(Drop)]
struct Tally<B: Room> {
    pass: Pass<u32, B>,
    count: u64,
    total: u128,
}

impl<B: Room> Model for Tally<B> {
    ghost use Rattle.std.specs.Prelude.{◌≡◌, ◌≤◌, ◌*◌, ◌^◌, [], length, sum};
    ghost use Rattle.waybill.specs.Accounts.{account};

    ghost Value = { Unit {0} };

    ghost view = { λ t. tt };

    ghost invariant = { λ t. (t.pass ≡ account 1 [] t.pass.received []) × (t.count ≡ length t.pass.received) × (t.total ≡ sum t.pass.received) × (t.total ≤ t.count * 2 ^ 32) };
}

impl<B: Room> Tally<B> {
    /// Nothing received yet.
    fn new(pass: Pass<u32, B>) -> Tally<B>
        requires { pass ≡ fresh 1 }
    {
        Tally {
            pass,
            count: 0,
            total: 0,
        }
    }

    /// Receives one more. `Err` hands the parcel on where they can't be counted, after 2^64 - 1.
    fn add(
        &mut self,
        office: &Office<u32, B>,
        parcel: Parcel<u32, B>,
    ) -> Result<(), Parcel<u32, B>> {
        if self.count == u64::MAX {
            return Err(parcel);
        }
        let value = office.unpack(&mut self.pass, parcel);
        self.count += 1;
        self.total += value as u128;
        Ok(())
    }

    /// The pass, and what is said of its messages.
    fn into_parts(self) -> (Pass<u32, B>, Totals)
        ensures pass { result.0 ≡ account 1 [] result.0.received [] }
        ensures count { result.1.count ≡ length result.0.received }
        ensures total { result.1.total ≡ sum result.0.received }
    {
        (
            self.pass,
            Totals {
                count: self.count,
                total: self.total,
            },
        )
    }
}

/// Receives until the line is closed.
fn receive_all<B: Room, L: Line<Parcel<u32, B>>, R: Wait>(
    rt: &R,
    office: &Office<u32, B>,
    line: &L,
    mut tally: Tally<B>,
) -> Tally<B> {
    for _ in rt.forever() {
        let Some(parcel) = line.next() else {
            break;
        };
        if tally.add(office, parcel).is_err() {
            break;
        }
    }
    tally
}

/// Puts each parcel into the line.
fn put_all<B: Room, L: Line<Parcel<u32, B>>>(line: &L, parcels: Vec<Parcel<u32, B>>) {
    for parcel in parcels {
        line.put(parcel);
    }
}

/// Four threads: two put parcels into the line, which is closed then, and two take them out.
fn exchanged<
    B: Room + Send + Sync,
    L: Line<Parcel<u32, B>> + Sync,
    R: Threads + Wait + Copy + Send + Sync,
>(
    rt: R,
    office: &Office<u32, B>,
    line: &L,
    first: Vec<Parcel<u32, B>>,
    second: Vec<Parcel<u32, B>>,
    tallies: (Tally<B>, Tally<B>),
) -> (Tally<B>, Tally<B>) {
    let (one, other) = tallies;
    let ((), tallies) = thread::join(
        &rt,
        move || {
            thread::join(
                &rt,
                move || put_all::<B, L>(line, first),
                move || put_all::<B, L>(line, second),
            );
            line.close();
        },
        move || {
            thread::join(
                &rt,
                move || receive_all::<B, L, R>(&rt, office, line, one),
                move || receive_all::<B, L, R>(&rt, office, line, other),
            )
        },
    );
    tallies
}

/// Packs the messages of both senders and has them go through the line: what each receiver counted. `None` where there is no memory.
fn pass_on<
    B: Room + Send + Sync,
    L: Line<Parcel<u32, B>> + Sync,
    R: Threads + Wait + Copy + Send + Sync,
>(
    rt: R,
    alloc: Global,
    office: &Office<u32, B>,
    line: &L,
    whole: &mut Pass<u32, B>,
    first: &[u32],
    second: &[u32],
) -> Option<(Tally<B>, Tally<B>)>
    requires { whole.old ≡ fresh all_parts }
    ensures { IfSome result (λ r. whole.new ≡ account (all_parts - 2) (first.now ++ second.now) [] []) }
{
    let parcels = office.pack_each(alloc, whole, first).ok()?;
    let parcels_too = office.pack_each(alloc, whole, second).ok()?;
    let one = Tally::new(office.another(whole));
    let other = Tally::new(office.another(whole));
    Some(exchanged::<B, L, R>(rt, office, line, parcels, parcels_too, (one, other)))
}

/// The sums of both receivers, over a line.
fn sums_over<
    B: Room + Send + Sync,
    L: Line<Parcel<u32, B>> + Sync,
    R: Threads + Wait + Copy + Send + Sync,
>(
    rt: R,
    alloc: Global,
    line: &L,
    opened: Opened<u32>,
    first: &[u32],
    second: &[u32],
) -> Option<(Totals, Totals)>
    requires { opened ≡ B.table }
    ensures { IfSome result (λ r. r.0.count + r.1.count ≡ length first.now + length second.now → r.0.total + r.1.total ≡ sum first.now + sum second.now) }
{
    let (office, mut whole) = opened.enter::<B>();
    let (one, other) = pass_on::<B, L, R>(rt, alloc, &office, line, &mut whole, first, second)?;
    let (pass, sums) = one.into_parts();
    let (pass_too, sums_too) = other.into_parts();
    office.absorb(&mut whole, pass);
    office.absorb(&mut whole, pass_too);
    office.learn(&mut whole);
    Some((sums, sums_too))
}

fn sums_in<B: Room + Send + Sync, R: Threads + Wait + Copy + Send + Sync>(
    rt: R,
    alloc: Global,
    ids: &mut EventIds,
    kind: Kind,
    opened: Opened<u32>,
    first: &[u32],
    second: &[u32],
) -> Option<(Totals, Totals)>
    requires { opened ≡ B.table }
    ensures { IfSome result (λ r. r.0.count + r.1.count ≡ length first.now + length second.now → r.0.total + r.1.total ≡ sum first.now + sum second.now) }
{
    let line = Way::new(rt, alloc, ids, kind)?;
    sums_over::<B, _, R>(rt, alloc, &line, opened, first, second)
}

/// How many messages each of two receivers got of two senders, and their sums. Where as many came as were sent, the sum of what came
/// is the sum of what was sent. `None` where there is no memory.
pub fn sums<R: Threads + Wait + Copy + Send + Sync>(
    rt: R,
    alloc: Global,
    ids: &mut EventIds,
    kind: Kind,
    first: &[u32],
    second: &[u32],
) -> Option<(Totals, Totals)>
    ensures { IfSome result (λ r. r.0.count + r.1.count ≡ length first.now + length second.now → r.0.total + r.1.total ≡ sum first.now + sum second.now) }
{
    let opened = Opened::new(alloc).ok()?;
    sums_in::<Brand, R>(rt, alloc, ids, kind, opened, first, second)
}
