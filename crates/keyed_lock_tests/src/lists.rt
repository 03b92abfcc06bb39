//! Lists behind locks. Beside each lies a seat of a table that all of them share, which says how long the list is: a fact about a
//! table that is a value, and no parameter of a type.

ghost use Rattle.std.specs.Prelude.{◌≡◌, ◌<◌, ◌≤◌, [], length, IfOk};
ghost use Rattle.keyed_lock_tests.specs.Marks.{says};

use atomic_table::{Play, Seat, Shared, Table, TableRule};
use keyed_lock::{Keeps, KeyedLocks};
use std::alloc::{AllocError, Global};
use std::sync::Wait;

/// What a seat of the table says: which list lies beside it, and how long that is.
pub struct Says {
    pub list: usize,
    pub length: u64,
}

/// The word of each list is at least as large as the list is long.
pub struct Marks;

impl TableRule<(), Says, ()> for Marks {
    ghost use Rattle.keyed_lock_tests.specs.Marks.{AreMarks};

    ghost holds = { λ _ s. AreMarks s };

    ghost first = { λ _. says 0 0 };
}

struct Begins;

impl Play<(), Says> for Begins {
    ghost use Rattle.keyed_lock_tests.specs.Marks.{begins};

    ghost then = { begins };
}

struct Becomes;

impl Play<(), Says> for Becomes {
    ghost use Rattle.keyed_lock_tests.specs.Marks.{becomes};

    ghost then = { becomes };
}

struct Finds;

impl Play<(), Says> for Finds {
    ghost use Rattle.keyed_lock_tests.specs.Marks.{finds};

    ghost then = { finds };
}

/// A list, and the seat that says how long it is.
#[derive(Drop)]
struct Listed {
    items: Vec<u64>,
    seat: Seat<(), Says>,
}

/// The seat is of the table for which the locks were made, and speaks of this list.
struct BesideItsSeat;

impl Keeps<Listed, Shared<(), Says, (), Marks>> for BesideItsSeat {
    ghost keeps = { λ table i l. (l.seat.table_id ≡ table.table_id) × (l.seat.me ≡ (says i (length l.items.items), [])) };
}

/// Two lists that threads share.
#[derive(Drop)]
pub struct Lists {
    marks: Table<(), Says, (), Marks, Global>,
    locks: KeyedLocks<Listed, Shared<(), Says, (), Marks>, BesideItsSeat, 2>,
    ghost one_table: { locks ≡ marks.shared },
    ghost two: { marks.shared.table_id.words ≡ 2 },
}

/// A list with nothing in it.
fn empty(alloc: Global, marks: &Shared<(), Says, (), Marks>, which: usize) -> Listed
    requires { (which < 2) × (marks.now.table_id.words ≡ 2) }
    ensures { (result.seat.table_id ≡ marks.now.table_id) × (result.seat.me ≡ (says which 0, [])) × (result.items.items ≡ []) }
{
    let (_, seat) = marks.load_new_seat::<Begins>(which);
    Listed {
        items: Vec::new(alloc),
        seat,
    }
}

impl Lists {
    /// Two lists with nothing in them.
    pub fn new(alloc: Global) -> Result<Lists, AllocError> {
        let (marks, _first) = Table::of_words(alloc, &[0, 0], &())?;
        let lists = [
            empty(alloc, &marks.shared, 0),
            empty(alloc, &marks.shared, 1),
        ];
        let locks = KeyedLocks::new(alloc, lists, &marks.shared)?;
        Ok(Lists { marks, locks })
    }

    /// Puts a number at the end of a list. It may wait for the list. Err where there is no memory.
    pub fn push<R: Wait>(&self, rt: &R, which: usize, number: u64) -> Result<(), AllocError>
        requires { which < 2 }
    {
        let (mut listed, taken) = self.locks.take(rt, which);
        let pushed = push_to(&self.marks.shared, &mut listed, which, number);
        taken.give(listed);
        pushed
    }

    /// How long a list is, and what the table says, which is no less.
    pub fn look<R: Wait>(&self, rt: &R, which: usize) -> (usize, u64)
        requires { which < 2 }
        ensures { result.0 ≤ result.1 }
    {
        let (mut listed, taken) = self.locks.take(rt, which);
        let length = listed.items.len();
        let mark = self.marks.shared.load::<Finds>(&mut listed.seat, which);
        taken.give(listed);
        (length, mark)
    }
}

/// Puts a number at the end of a list, and raises the table's word.
fn push_to(
    marks: &Shared<(), Says, (), Marks>,
    listed: &mut Listed,
    which: usize,
    number: u64,
) -> Result<(), AllocError>
    requires table { (which < 2) × (marks.now.table_id.words ≡ 2) × (listed.old.seat.table_id ≡ marks.now.table_id) }
    requires seat { listed.old.seat.me ≡ (says which (length listed.old.items.items), []) }
    ensures table { listed.new.seat.table_id ≡ marks.now.table_id }
    ensures seat { listed.new.seat.me ≡ (says which (length listed.new.items.items), []) }
{
    if listed.items.push(number).is_err() {
        return Err(AllocError);
    }
    let length = listed.items.len() as u64;
    marks.fetch_max::<Becomes>(&mut listed.seat, which, length);
    Ok(())
}
