//! What threads do with the word of a lock: take its value, wait for it, return it. The invariant: only the thread that changed the word
//! from 0 touches the value's slot until it sets the word to 0 again; and while a thread sleeps on the word, the word is 2, or a thread
//! that was woken is about to set it to 2.

ghost use Rattle.std.specs.Prelude.{◌≡◌, None};
ghost use Rattle.keyed_lock.specs.Locked.{HasLock, Took, waits, holds};

use crate::rule::{Gives, Keeps, LockSeat, SharedLocks, Sits, Takes};
use std::sync::Wait;
use std::thread;

/// How many words one lock takes: 128 bytes, so that the words of two locks share no cache line, nor a pair of lines.
pub(crate) const STRIDE: usize = 16;

/// The word of a lock whose value is in its slot.
pub(crate) const FREE: u64 = 0;

/// The word of a lock whose value some thread has, which wakes nobody when it returns it. If threads sleep on the word nevertheless, one
/// that was woken is about to write 2.
const TAKEN: u64 = 1;

/// The word of a lock whose value some thread has, while another may sleep on the word: one is woken when the value is returned.
const SLEPT_ON: u64 = 2;

/// How often a thread looks, and yields, before it sleeps: most holders return the value sooner than a sleep would begin.
const LOOKS: usize = 16;

/// Waits until nobody has the value of this lock, and takes it.
pub(crate) fn wait<X, K, I: Keeps<X, K>, R: Wait>(
    rt: &R,
    locks: &SharedLocks<X, K, I>,
    which: usize,
) -> (X, LockSeat<X, K>)
    requires { HasLock locks.now.table_id which }
    ensures keeps { I.keeps locks.now.key which result.0 }
    ensures seat { (result.1.table_id ≡ locks.now.table_id) × (result.1.me ≡ holds locks.now.key which None) }
{
    // The seat costs a load, of the very word that the thread changes next. What it finds isn't used.
    let (_, mut seat) = locks.load_new_seat::<Sits>(STRIDE * which);
    if let Some(value) = try_take(locks, &mut seat, which) {
        return (value, seat);
    }
    match look(locks, &mut seat, which) {
        Some(value) => (value, seat),
        None => sleep(rt, locks, seat, which),
    }
}

/// Takes the value, if nobody has it.
#[inline(always)]
fn try_take<X, K, I: Keeps<X, K>>(
    locks: &SharedLocks<X, K, I>,
    seat: &mut LockSeat<X, K>,
    which: usize,
) -> Option<X>
    requires lock { HasLock locks.now.table_id which }
    requires seat { (seat.old.table_id ≡ locks.now.table_id) × (seat.old.me ≡ waits locks.now.key) }
    ensures table { seat.new.table_id ≡ locks.now.table_id }
    ensures took { Took I.keeps locks.now.key which result seat.new.me }
{
    // One atomic operation tests that the value is in its slot and says that it is taken: between a load and a store a second thread could
    // find it there too. If it fails it leaves the word as it is, so it doesn't hide that somebody sleeps.
    if locks.compare_exchange::<Takes<I>>(seat, STRIDE * which, FREE, TAKEN) == FREE {
        // Only the thread that took the lock touches the slot until the word is 0 again, so the value is there.
        return locks.exchange(seat, which, None);
    }
    None
}

/// Takes the value if nobody has it. Otherwise the holder will wake a thread that sleeps on the word.
#[inline(always)]
fn take_or_mark<X, K, I: Keeps<X, K>>(
    locks: &SharedLocks<X, K, I>,
    seat: &mut LockSeat<X, K>,
    which: usize,
) -> Option<X>
    requires lock { HasLock locks.now.table_id which }
    requires seat { (seat.old.table_id ≡ locks.now.table_id) × (seat.old.me ≡ waits locks.now.key) }
    ensures table { seat.new.table_id ≡ locks.now.table_id }
    ensures took { Took I.keeps locks.now.key which result seat.new.me }
{
    // A thread that slept can't know whether others sleep still, since only one is woken. So it writes 2 even if it takes the value: with 1
    // there, nobody would wake the others, and they would sleep for ever. Writing 2 when nobody sleeps costs one wake that finds nobody.
    if locks.swap::<Takes<I>>(seat, STRIDE * which, SLEPT_ON) == FREE {
        // As in `try_take`.
        return locks.exchange(seat, which, None);
    }
    None
}

/// Looks a few times whether nobody has the value, and takes it then. It yields in between.
fn look<X, K, I: Keeps<X, K>>(
    locks: &SharedLocks<X, K, I>,
    seat: &mut LockSeat<X, K>,
    which: usize,
) -> Option<X>
    requires lock { HasLock locks.now.table_id which }
    requires seat { (seat.old.table_id ≡ locks.now.table_id) × (seat.old.me ≡ waits locks.now.key) }
    ensures table { seat.new.table_id ≡ locks.now.table_id }
    ensures took { Took I.keeps locks.now.key which result seat.new.me }
{
    for _ in 0..LOOKS {
        thread::yield_now();
        // A plain load first: a compare_exchange that fails would still take the cache line from the holder.
        if locks.peek(STRIDE * which) == FREE {
            if let Some(value) = try_take(locks, seat, which) {
                return Some(value);
            }
        }
    }
    None
}

/// Sleeps until the value can be taken. The thread marks the word before it sleeps.
fn sleep<X, K, I: Keeps<X, K>, R: Wait>(
    rt: &R,
    locks: &SharedLocks<X, K, I>,
    mut seat: LockSeat<X, K>,
    which: usize,
) -> (X, LockSeat<X, K>)
    requires lock { HasLock locks.now.table_id which }
    requires seat { (seat.table_id ≡ locks.now.table_id) × (seat.me ≡ waits locks.now.key) }
    ensures keeps { I.keeps locks.now.key which result.0 }
    ensures seat { (result.1.table_id ≡ locks.now.table_id) × (result.1.me ≡ holds locks.now.key which None) }
{
    for _ in rt.forever() {
        if let Some(value) = take_or_mark(locks, &mut seat, which) {
            return (value, seat);
        }
        // The system checks once more that the word is 2, and sleeps only then. If the value was returned since the mark, the word is 0 or
        // 1 and this returns at once: a sleep that began in spite of that would miss its wake.
        locks.park(rt, STRIDE * which, SLEPT_ON as u32);
    }
    unreachable!()
}

/// Returns the value, and wakes a thread if one may sleep until the lock is free.
pub(crate) fn put_back<X, K, I: Keeps<X, K>>(
    locks: &SharedLocks<X, K, I>,
    seat: &mut LockSeat<X, K>,
    which: usize,
    value: X,
)
    requires lock { HasLock locks.now.table_id which }
    requires seat { (seat.old.table_id ≡ locks.now.table_id) × (seat.old.me ≡ holds locks.now.key which None) }
    requires keeps { I.keeps locks.now.key which value }
    ensures { seat.new.me ≡ waits locks.now.key }
{
    // The value is put in its slot before the word says so, while no other thread touches the slot.
    let before = locks.exchange(seat, which, Some(value));
    let None = before else { unreachable!() };
    // A swap, not a store: it says whether somebody may sleep, at the moment at which the lock becomes free. With a load before a store, a
    // thread could mark the word between the two and sleep, and nobody would wake it.
    if locks.swap::<Gives>(seat, STRIDE * which, FREE) == SLEPT_ON {
        // One is enough, since it marks the word again for the others.
        locks.wake_one(STRIDE * which);
    }
}
