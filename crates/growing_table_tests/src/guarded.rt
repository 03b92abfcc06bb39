//! A table in which the word of a slot is its guard.

ghost use Rattle.std.specs.Prelude.{◌≡◌, ◌<◌, true, None, IfOk};
ghost use Rattle.growing_table.specs.Seats.{me_of, Sits, makes_blocks, Finds};

use growing_table::{GrowingRule, GrowingSeat, GrowingTable, Place, Play};
use std::alloc::{AllocError, Global};
use std::thread;
use std::thread::Threads;

/// A slot whose guard is 0 is at home.
pub struct Guards;

impl<S> GrowingRule<S, (), ()> for Guards {
    ghost use Rattle.growing_table_tests.specs.Guarded.{Guarded};

    ghost holds = { λ _ s. Guarded s };

    ghost first = { λ _. tt };
}

/// A guard is set, and the slot taken.
pub struct Wins;

impl<S> Play<S, ()> for Wins {
    ghost use Rattle.growing_table_tests.specs.Guarded.{won};

    ghost then = { won };
}

/// A slot is given back.
pub struct Gives;

impl<S> Play<S, ()> for Gives {
    ghost use Rattle.growing_table_tests.specs.Guarded.{gave};

    ghost then = { gave };
}

/// Nothing is taken or given.
pub struct Looks;

impl<S> Play<S, ()> for Looks {
    ghost use Rattle.growing_table_tests.specs.Guarded.{looked};

    ghost then = { looked };
}

/// A table of numbers in guarded slots.
pub type Table = GrowingTable<u64, (), (), Guards, Global>;

/// A seat of it.
pub type Seat = GrowingSeat<u64, (), Global>;

/// Adds to the number in a slot of a block, from 0 where the slot is empty. The sum, where its guard was won.
fn add(table: &Table, seat: &mut Seat, place: Place<u64>, slot: usize, by: u64) -> Option<u64>
    requires { Sits table.now seat.old × Finds seat.old place × (slot < table.now.cells) × ((me_of seat.old).hand ≡ None) }
    ensures { Sits table.now seat.new × Finds seat.new place × ((me_of seat.new).hand ≡ None) × (makes_blocks seat.new ≡ makes_blocks seat.old) }
{
    if table.compare_exchange_in::<Wins>(seat, place, slot, 0, 1) != 0 {
        return None;
    }
    let old = table.exchange(seat, place, slot, None);
    let sum = old.unwrap_or(0).wrapping_add(by);
    table.exchange(seat, place, slot, Some(sum));
    table.store_in::<Gives>(seat, place, slot, 0);
    Some(sum)
}

/// A new table with one word of its own, whose blocks have two slots each.
fn open(alloc: Global) -> Result<(Table, Seat), AllocError>
    ensures { IfOk result (λ r. Sits (r.0) (r.1) × (makes_blocks (r.1) ≡ true) × ((me_of (r.1)).hand ≡ None) × (r.0.cells ≡ 2) × (r.0.words ≡ 1)) }
{
    GrowingTable::new(alloc, &[0], 2, ())
}

/// Makes so many blocks.
fn make_blocks(table: &Table, seat: &mut Seat, count: u64) -> bool
    requires { Sits table.now seat.old × (makes_blocks seat.old ≡ true) }
    ensures { Sits table.now seat.new }
{
    'numbers: for _ in 0..count {
        if table.make::<Looks>(seat).is_err() {
            return false;
        }
    }
    true
}

/// Adds to the second slot of each of so many blocks, once. How often its guard was won.
fn add_to_each(table: &Table, seat: &mut Seat, count: u64, by: u64) -> u64
    requires { Sits table.now seat.old × (table.now.cells ≡ 2) × ((me_of seat.old).hand ≡ None) }
    ensures { Sits table.now seat.new × ((me_of seat.new).hand ≡ None) }
{
    let mut won: u64 = 0;
    'numbers: for number in 0..count {
        let Some(place) = table.find::<Looks>(seat, number) else {
            return won;
        };
        if add(table, seat, place, 1, by).is_some() {
            won = won.wrapping_add(1);
        }
    }
    won
}

/// A new seat does so, for so many rounds.
fn add_often(table: &Table, count: u64, rounds: u64) -> u64
    requires { (table.now.cells ≡ 2) × (table.now.words ≡ 1) }
{
    let (_, mut seat) = table.load_new_seat::<Looks>(0);
    let mut won: u64 = 0;
    'rounds: for _ in 0..rounds {
        won = won.wrapping_add(add_to_each(table, &mut seat, count, 1));
    }
    won
}

/// Two threads do so.
fn add_at_once<R: Threads + Sync>(rt: &R, table: &Table, count: u64, rounds: u64) -> (u64, u64)
    requires { (table.now.cells ≡ 2) × (table.now.words ≡ 1) }
{
    thread::join(
        rt,
        move || add_often(table, count, rounds),
        move || add_often(table, count, rounds),
    )
}

/// The sum of what lies in the second slots of so many blocks.
fn total(table: &Table, seat: &mut Seat, count: u64) -> u64
    requires { Sits table.now seat.old × (table.now.cells ≡ 2) × ((me_of seat.old).hand ≡ None) }
{
    let mut sum: u64 = 0;
    'numbers: for number in 0..count {
        let Some(place) = table.find::<Looks>(seat, number) else {
            return sum;
        };
        sum = sum.wrapping_add(add(table, seat, place, 1, 0).unwrap_or(0));
    }
    sum
}

/// Two threads add to numbers in slots. Whether no addition was lost.
pub fn nothing_is_lost<R: Threads + Sync>(
    rt: &R,
    alloc: Global,
    count: u64,
    rounds: u64,
) -> Result<bool, AllocError> {
    let (table, mut seat) = open(alloc)?;
    let made = make_blocks(&table, &mut seat, count);
    drop(seat);
    let (first, second) = add_at_once(rt, &table, count, rounds);
    let (_, mut last) = table.load_new_seat::<Looks>(0);
    let sum = total(&table, &mut last, count);
    Ok(made && 0 < first && sum == first.wrapping_add(second))
}
