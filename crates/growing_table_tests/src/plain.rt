//! A table of which its rule says nothing.

ghost use Rattle.std.specs.Prelude.{◌≡◌, ◌<◌, true, IfOk};
ghost use Rattle.growing_table.specs.Seats.{Sits, makes_blocks, Follows, Finds};

use growing_table::{GrowingRule, GrowingSeat, GrowingTable, Place, Play};
use std::alloc::{AllocError, Global};
use std::thread;
use std::thread::Threads;

/// Any table will do, and a step tells nothing.
pub struct Anything;

impl<S> GrowingRule<S, (), ()> for Anything {
    ghost holds = { λ _ _. Unit {0} };

    ghost first = { λ _. tt };
}

impl<S> Play<S, ()> for Anything {
    ghost then = { λ _ _ _ _. Unit {0} };
}

/// A table of numbers.
pub type Table = GrowingTable<u64, (), (), Anything, Global>;

/// A seat of it.
pub type Seat = GrowingSeat<u64, (), Global>;

/// A new table with four words of its own, whose blocks have so many cells.
pub fn open(alloc: Global, cells: usize) -> Result<(Table, Seat), AllocError>
    requires { 0 < cells }
    ensures { IfOk result (λ r. Sits (r.0) (r.1) × (makes_blocks (r.1) ≡ true) × (r.0.words ≡ 4) × (r.0.cells ≡ cells)) }
{
    GrowingTable::new(alloc, &[0, 5, 6, 7], cells, ())
}

/// Makes so many blocks, and writes a number of its own into each. How many were made before memory was refused.
pub fn make_blocks(table: &Table, seat: &mut Seat, count: u64) -> u64
    requires { Sits table.now seat.old × (makes_blocks seat.old ≡ true) × (1 < table.now.cells) }
    ensures { Sits table.now seat.new × (makes_blocks seat.new ≡ true) }
{
    let mut made = 0;
    'numbers: for number in 0..count {
        let Ok(place) = table.make::<Anything>(seat) else {
            return made;
        };
        table.store_in::<Anything>(seat, place, 0, number.wrapping_mul(7));
        // The other threads read it from here on.
        table.store::<Anything>(seat, 0, place.number().wrapping_add(1));
        made = number.wrapping_add(1);
    }
    made
}

/// What the first word of a block is, where there is such a block.
pub fn read(table: &Table, seat: &mut Seat, number: u64) -> Option<u64>
    requires { Sits table.now seat.old × (1 < table.now.cells) }
    ensures { Sits table.now seat.new × (makes_blocks seat.new ≡ makes_blocks seat.old) }
{
    let place = table.find::<Anything>(seat, number)?;
    Some(table.load_in::<Anything>(seat, place, 0))
}

/// Whether there are just so many blocks, each with its number.
pub fn has_blocks(table: &Table, seat: &mut Seat, count: u64) -> bool
    requires { Sits table.now seat.old × (1 < table.now.cells) }
    ensures { Sits table.now seat.new × (makes_blocks seat.new ≡ makes_blocks seat.old) }
{
    'numbers: for number in 0..count {
        if read(table, seat, number) != Some(number.wrapping_mul(7)) {
            return false;
        }
    }
    read(table, seat, count).is_none()
}

/// Each operation on a word of the table's own, then on one of a block, in one order: what each found.
pub fn each_operation(table: &Table, seat: &mut Seat) -> Option<[u64; 12]>
    requires { Sits table.now seat.old × (makes_blocks seat.old ≡ true) × (1 < table.now.cells) × (table.now.words ≡ 4) }
{
    let own = [
        table.fetch_or::<Anything>(seat, 1, 10),
        table.fetch_and::<Anything>(seat, 1, 11),
        table.fetch_add::<Anything>(seat, 1, 4),
        table.compare_exchange::<Anything>(seat, 1, 15, 20),
        table.compare_exchange::<Anything>(seat, 1, 15, 30),
        table.load::<Anything>(seat, 1),
    ];
    let place = table.make::<Anything>(seat).ok()?;
    table.store_in::<Anything>(seat, place, 1, 5);
    Some([
        own[0],
        own[1],
        own[2],
        own[3],
        own[4],
        own[5],
        table.fetch_or_in::<Anything>(seat, place, 1, 10),
        table.fetch_and_in::<Anything>(seat, place, 1, 11),
        table.fetch_add_in::<Anything>(seat, place, 1, 4),
        table.compare_exchange_in::<Anything>(seat, place, 1, 15, 20),
        table.compare_exchange_in::<Anything>(seat, place, 1, 15, 30),
        table.load_in::<Anything>(seat, place, 1),
    ])
}

/// Adds to the second word of the newest block, so many times. How often it did.
fn follow(table: &Table, rounds: u64) -> u64
    requires { (1 < table.now.cells) × (table.now.words ≡ 4) }
{
    let (_, mut seat) = table.load_new_seat::<Anything>(0);
    let mut added: u64 = 0;
    'rounds: for _ in 0..rounds {
        let known = table.load::<Anything>(&mut seat, 0);
        if let Some(place) = table.find::<Anything>(&mut seat, known.wrapping_sub(1)) {
            table.fetch_add_in::<Anything>(&mut seat, place, 1, 1);
            added = added.wrapping_add(1);
        }
    }
    added
}

/// Two threads do so.
fn follow_twice<R: Threads + Sync>(rt: &R, table: &Table, rounds: u64) -> (u64, u64)
    requires { (1 < table.now.cells) × (table.now.words ≡ 4) }
{
    thread::join(
        rt,
        move || follow(table, rounds),
        move || follow(table, rounds),
    )
}

/// One thread makes blocks, and two others add to them meanwhile. How many blocks there are, and how often the others added.
fn grow_and_follow<R: Threads + Sync>(
    rt: &R,
    table: &Table,
    seat: &mut Seat,
    count: u64,
    rounds: u64,
) -> (u64, (u64, u64))
    requires { Sits table.now seat.old × (makes_blocks seat.old ≡ true) × (1 < table.now.cells) × (table.now.words ≡ 4) }
{
    thread::join(
        rt,
        move || make_blocks(table, seat, count),
        move ||
            requires { (1 < table.now.cells) × (table.now.words ≡ 4) }
        { follow_twice(rt, table, rounds) },
    )
}

/// The sum of the second words of all blocks up to this one.
fn total(table: &Table, count: u64) -> u64
    requires { (1 < table.now.cells) × (table.now.words ≡ 4) }
{
    let (_, mut seat) = table.load_new_seat::<Anything>(0);
    let mut sum: u64 = 0;
    'numbers: for number in 0..count {
        if let Some(place) = table.find::<Anything>(&mut seat, number) {
            sum = sum.wrapping_add(table.load_in::<Anything>(&mut seat, place, 1));
        }
    }
    sum
}

/// One thread makes blocks, and two others add to them meanwhile. Whether all blocks were made, and no addition was lost.
pub fn nothing_is_lost<R: Threads + Sync>(
    rt: &R,
    alloc: Global,
    count: u64,
    rounds: u64,
) -> Result<bool, AllocError> {
    let (table, mut seat) = open(alloc, 2)?;
    let (made, (first, second)) = grow_and_follow(rt, &table, &mut seat, count, rounds);
    Ok(made == count && total(&table, count) == first.wrapping_add(second))
}
