//! Numbered messages of two senders, through a queue or a channel of which nothing is believed, to one receiver and to two: what each
//! receiver got of a sender is in that sender's order, and the only one got a beginning of what that sender sent.

ghost use Rattle.std.specs.Prelude.{◌≡◌, ◌<◌, ◌-◌, [], ◌∷◌, true, IfOk, IfSome};
ghost use Rattle.waybill.specs.Accounts.{all_parts, fresh, account};
ghost use Rattle.waybill.specs.Order.{numbered, IsRising, IsGapless, AreBeginnings, AreInOrder};
ghost use Rattle.waybill.specs.Sides.{sends, takes};
ghost use Rattle.waybill.specs.declared.numbered.Numbered.{Numbered};

use crate::waybills::line::{Kind, Way};
use event_listener::id::EventIds;
use std::alloc::Global;
use std::marker::Brand;
use std::sync::Wait;
use std::thread;
use std::thread::Threads;
use waybill::{Line, Numbered, Office, Opened, Parcel, Pass, Room, Sink, Source, Stopped};

type Message<B> = Parcel<Numbered<u32>, B>;

/// Both senders at once, each with its number; then the line is closed.
fn send_both<
    B: Room + Send + Sync,
    L: Line<Message<B>> + Sync,
    R: Threads + Wait + Copy + Send + Sync,
>(
    rt: R,
    office: &Office<Numbered<u32>, B>,
    line: &L,
    passes: Passes<B>,
    all: (&[u32], &[u32]),
) -> Passes<B>
    requires { (passes.0 ≡ fresh 1) × (passes.1 ≡ fresh 1) }
    ensures first { result.0 ≡ account 1 (numbered 0 0 all.entry.0.now) [] [] }
    ensures second { result.1 ≡ account 1 (numbered 1 0 all.entry.1.now) [] [] }
{
    let (first, second) = all;
    let one = Source::new(passes.0, 0);
    let other = Source::new(passes.1, 1);
    let sent = thread::join(
        &rt,
        move ||
            requires { one ≡ sends 0 [] }
            ensures { result ≡ account 1 (numbered 0 0 first.entry.now) [] [] }
        { one.send_all(office, line, first) },
        move ||
            requires { other ≡ sends 1 [] }
            ensures { result ≡ account 1 (numbered 1 0 second.entry.now) [] [] }
        { other.send_all(office, line, second) },
    );
    line.close();
    sent
}

/// The passes of both senders.
type Passes<B> = (Pass<Numbered<u32>, B>, Pass<Numbered<u32>, B>);

/// A receiver's pass, and what it received.
type Account<B> = (Pass<Numbered<u32>, B>, Vec<Numbered<u32>>);

type Received<B> = Result<Account<B>, Stopped<Message<B>>>;

/// Two senders and the only receiver at once: the senders' passes, and what the receiver has.
fn exchange_sole<
    B: Room + Send + Sync,
    L: Line<Message<B>> + Sync,
    R: Threads + Wait + Copy + Send + Sync,
>(
    rt: R,
    alloc: Global,
    office: &Office<Numbered<u32>, B>,
    line: &L,
    sink: Sink<u32, B>,
    passes: Passes<B>,
    all: (&[u32], &[u32]),
) -> (Passes<B>, Received<B>)
    requires sink { sink ≡ takes true 2 [] }
    requires passes { (passes.0 ≡ fresh 1) × (passes.1 ≡ fresh 1) }
    ensures first { result.0.0 ≡ account 1 (numbered 0 0 all.entry.0.now) [] [] }
    ensures second { result.0.1 ≡ account 1 (numbered 1 0 all.entry.1.now) [] [] }
    ensures received { IfOk result.1 (λ r. (r.0 ≡ account 1 [] r.1.items []) × IsGapless r.1.items) }
{
    thread::join(
        &rt,
        move ||
            requires { (passes.0 ≡ fresh 1) × (passes.1 ≡ fresh 1) }
            ensures { (result.0 ≡ account 1 (numbered 0 0 all.entry.0.now) [] []) × (result.1 ≡ account 1 (numbered 1 0 all.entry.1.now) [] []) }
        { send_both::<B, L, R>(rt, office, line, passes, all) },
        move ||
            requires { sink ≡ takes true 2 [] }
            ensures { IfOk result (λ r. (r.0 ≡ account 1 [] r.1.items []) × IsGapless r.1.items) }
        { sink.receive_all(&rt, alloc, office, line) },
    )
}

/// What the only receiver got of two senders, over a line.
fn sole_over<
    B: Room + Send + Sync,
    L: Line<Message<B>> + Sync,
    R: Threads + Wait + Copy + Send + Sync,
>(
    rt: R,
    alloc: Global,
    line: &L,
    opened: Opened<Numbered<u32>>,
    all: (&[u32], &[u32]),
) -> Option<Vec<Numbered<u32>>>
    requires { opened ≡ B.table }
    ensures { IfSome result (λ got. AreBeginnings got.items (all.entry.0.now ∷ all.entry.1.now ∷ [])) }
{
    let (office, mut whole) = opened.enter::<B>();
    let sink = Sink::sole(alloc, office.another(&mut whole), 2).ok()?;
    let passes = (office.another(&mut whole), office.another(&mut whole));
    let ((one, other), received) = exchange_sole::<B, L, R>(
        rt, alloc, &office, line, sink, passes, all,
    );
    office.absorb(&mut whole, one);
    office.absorb(&mut whole, other);
    let (pass, got) = received.ok()?;
    office.absorb(&mut whole, pass);
    office.learn(&mut whole);
    Some(got)
}

fn sole_in<B: Room + Send + Sync, R: Threads + Wait + Copy + Send + Sync>(
    rt: R,
    alloc: Global,
    ids: &mut EventIds,
    kind: Kind,
    opened: Opened<Numbered<u32>>,
    first: &[u32],
    second: &[u32],
) -> Option<Vec<Numbered<u32>>>
    requires { opened ≡ B.table }
    ensures { IfSome result (λ got. AreBeginnings got.items (first.now ∷ second.now ∷ [])) }
{
    let line = Way::new(rt, alloc, ids, kind)?;
    sole_over::<B, _, R>(rt, alloc, &line, opened, (first, second))
}

/// What the only receiver got of two senders, who sent at once through a line of this kind: of each a beginning of what it sent.
/// `None` where there is no memory, or a message came out of turn.
pub fn sole<R: Threads + Wait + Copy + Send + Sync>(
    rt: R,
    alloc: Global,
    ids: &mut EventIds,
    kind: Kind,
    first: &[u32],
    second: &[u32],
) -> Option<Vec<Numbered<u32>>>
    ensures { IfSome result (λ got. AreBeginnings got.items (first.now ∷ second.now ∷ [])) }
{
    let opened = Opened::new(alloc).ok()?;
    sole_in::<Brand, R>(rt, alloc, ids, kind, opened, first, second)
}

/// Both receivers at once.
fn receive_both<
    B: Room + Send + Sync,
    L: Line<Message<B>> + Sync,
    R: Threads + Wait + Copy + Send + Sync,
>(
    rt: R,
    alloc: Global,
    office: &Office<Numbered<u32>, B>,
    line: &L,
    sinks: (Sink<u32, B>, Sink<u32, B>),
) -> (Received<B>, Received<B>)
    requires { (sinks.0.received ≡ []) × (sinks.1.received ≡ []) }
    ensures first { IfOk result.0 (λ r. (r.0 ≡ account 1 [] r.1.items []) × IsRising r.1.items) }
    ensures second { IfOk result.1 (λ r. (r.0 ≡ account 1 [] r.1.items []) × IsRising r.1.items) }
{
    let (one, other) = sinks;
    thread::join(
        &rt,
        move ||
            requires { one.received ≡ [] }
            ensures { IfOk result (λ r. (r.0 ≡ account 1 [] r.1.items []) × IsRising r.1.items) }
        { one.receive_all(&rt, alloc, office, line) },
        move ||
            requires { other.received ≡ [] }
            ensures { IfOk result (λ r. (r.0 ≡ account 1 [] r.1.items []) × IsRising r.1.items) }
        { other.receive_all(&rt, alloc, office, line) },
    )
}

/// Two senders and two receivers at once: the senders' passes, and what each receiver has.
fn exchange_shared<
    B: Room + Send + Sync,
    L: Line<Message<B>> + Sync,
    R: Threads + Wait + Copy + Send + Sync,
>(
    rt: R,
    alloc: Global,
    office: &Office<Numbered<u32>, B>,
    line: &L,
    sinks: (Sink<u32, B>, Sink<u32, B>),
    passes: Passes<B>,
    all: (&[u32], &[u32]),
) -> (Passes<B>, (Received<B>, Received<B>))
    requires sinks { (sinks.0.received ≡ []) × (sinks.1.received ≡ []) }
    requires passes { (passes.0 ≡ fresh 1) × (passes.1 ≡ fresh 1) }
    ensures first { result.0.0 ≡ account 1 (numbered 0 0 all.entry.0.now) [] [] }
    ensures second { result.0.1 ≡ account 1 (numbered 1 0 all.entry.1.now) [] [] }
    ensures one { IfOk result.1.0 (λ r. (r.0 ≡ account 1 [] r.1.items []) × IsRising r.1.items) }
    ensures other { IfOk result.1.1 (λ r. (r.0 ≡ account 1 [] r.1.items []) × IsRising r.1.items) }
{
    thread::join(
        &rt,
        move ||
            requires { (passes.0 ≡ fresh 1) × (passes.1 ≡ fresh 1) }
            ensures { (result.0 ≡ account 1 (numbered 0 0 all.entry.0.now) [] []) × (result.1 ≡ account 1 (numbered 1 0 all.entry.1.now) [] []) }
        { send_both::<B, L, R>(rt, office, line, passes, all) },
        move ||
            requires { (sinks.0.received ≡ []) × (sinks.1.received ≡ []) }
            ensures { IfOk result.0 (λ r. (r.0 ≡ account 1 [] r.1.items []) × IsRising r.1.items) × IfOk result.1 (λ r. (r.0 ≡ account 1 [] r.1.items []) × IsRising r.1.items) }
        { receive_both::<B, L, R>(rt, alloc, office, line, sinks) },
    )
}

/// The sides of two receivers, which have received nothing. `None` where there is no memory.
fn two_sinks<B: Room>(
    alloc: Global,
    office: &Office<Numbered<u32>, B>,
    whole: &mut Pass<Numbered<u32>, B>,
) -> Option<(Sink<u32, B>, Sink<u32, B>)>
    requires { whole.old ≡ fresh all_parts }
    ensures whole { IfSome result (λ r. whole.new ≡ fresh (all_parts - 2)) }
    ensures new { IfSome result (λ r. (r.0.received ≡ []) × (r.1.received ≡ [])) }
{
    let one = Sink::shared(alloc, office.another(whole), 2).ok()?;
    let other = Sink::shared(alloc, office.another(whole), 2).ok()?;
    Some((one, other))
}

/// What each of two receivers got of two senders, over a line.
fn shared_over<
    B: Room + Send + Sync,
    L: Line<Message<B>> + Sync,
    R: Threads + Wait + Copy + Send + Sync,
>(
    rt: R,
    alloc: Global,
    line: &L,
    opened: Opened<Numbered<u32>>,
    all: (&[u32], &[u32]),
) -> Option<(Vec<Numbered<u32>>, Vec<Numbered<u32>>)>
    requires { opened ≡ B.table }
    ensures one { IfSome result (λ got. AreInOrder got.0.items (all.entry.0.now ∷ all.entry.1.now ∷ [])) }
    ensures other { IfSome result (λ got. AreInOrder got.1.items (all.entry.0.now ∷ all.entry.1.now ∷ [])) }
{
    let (office, mut whole) = opened.enter::<B>();
    let sinks = two_sinks(alloc, &office, &mut whole)?;
    let passes = (office.another(&mut whole), office.another(&mut whole));
    let ((one, other), received) = exchange_shared::<B, L, R>(
        rt, alloc, &office, line, sinks, passes, all,
    );
    office.absorb(&mut whole, one);
    office.absorb(&mut whole, other);
    let (received, received_too) = received;
    let (pass, got) = received.ok()?;
    office.absorb(&mut whole, pass);
    let (pass_too, got_too) = received_too.ok()?;
    office.absorb(&mut whole, pass_too);
    office.learn(&mut whole);
    Some((got, got_too))
}

fn shared_in<B: Room + Send + Sync, R: Threads + Wait + Copy + Send + Sync>(
    rt: R,
    alloc: Global,
    ids: &mut EventIds,
    kind: Kind,
    opened: Opened<Numbered<u32>>,
    first: &[u32],
    second: &[u32],
) -> Option<(Vec<Numbered<u32>>, Vec<Numbered<u32>>)>
    requires { opened ≡ B.table }
    ensures one { IfSome result (λ got. AreInOrder got.0.items (first.now ∷ second.now ∷ [])) }
    ensures other { IfSome result (λ got. AreInOrder got.1.items (first.now ∷ second.now ∷ [])) }
{
    let line = Way::new(rt, alloc, ids, kind)?;
    shared_over::<B, _, R>(rt, alloc, &line, opened, (first, second))
}

/// What each of two receivers got of two senders, all four at once, through a line of this kind: of each sender its messages are in
/// that one's order. `None` where there is no memory, or a message came out of turn.
pub fn shared<R: Threads + Wait + Copy + Send + Sync>(
    rt: R,
    alloc: Global,
    ids: &mut EventIds,
    kind: Kind,
    first: &[u32],
    second: &[u32],
) -> Option<(Vec<Numbered<u32>>, Vec<Numbered<u32>>)>
    ensures one { IfSome result (λ got. AreInOrder got.0.items (first.now ∷ second.now ∷ [])) }
    ensures other { IfSome result (λ got. AreInOrder got.1.items (first.now ∷ second.now ∷ [])) }
{
    let opened = Opened::new(alloc).ok()?;
    shared_in::<Brand, R>(rt, alloc, ids, kind, opened, first, second)
}
