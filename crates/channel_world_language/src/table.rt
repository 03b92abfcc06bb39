//! The names of a script. The invariant: a look-up by name finds what a walk over all entries would find.

use channel_world_model::name::{HandleId, OpId, Waiter};
use std::alloc::{AllocError, Global};
use std::collections::HashMap;
use std::marker::Model;

/// What a name is given to.
#[derive(Clone, Copy, Debug, PartialEq, Eq)]
pub enum Sort {
    /// A handle.
    Handle,
    /// An operation.
    Op,
}

/// What a name names.
#[derive(Clone, Copy, Debug, PartialEq, Eq)]
pub enum Named {
    /// A handle, by its number.
    Handle(HandleId),
    /// An operation, by its number.
    Op(OpId),
}

/// A name that was given.
#[derive(Clone, Copy)]
struct Entry<'a> {
    name: &'a [u8],
    sort: Sort,
}

/// All names that were given, in order; the place of each is its number. They borrow the text of the script.
#[derive(Drop)]
pub struct Table<'a> {
    entries: Vec<Entry<'a>>,
    numbers: HashMap<&'a [u8], u32>,
}

impl<'a> Model for Table<'a> {
    ghost use Rattle.std.specs.Prelude.{◌≡◌, map};
    ghost use Rattle.std.specs.HashMap.{get_by};
    ghost use Rattle.std.specs.Str.{bytes_eq};
    ghost use Rattle.channel_world_language.specs.Words.{Name};
    ghost use Rattle.channel_world_language.specs.Table.{number_in};

    ghost Value = { Rattle.channel_world_language.specs.Table.Table };

    ghost view = { λ t. map (λ e. (e.name.now, e.sort)) t.entries.items };

    ghost invariant = { λ t. (name : Name) → get_by (λ k. bytes_eq name k.now) t.numbers ≡ number_in (map (λ e. (e.name.now, e.sort)) t.entries.items) name };
}

impl<'a> Table<'a> {
    ghost use Rattle.std.specs.Prelude.{◌≡◌, ◌<◌, ◌^◌, ◌++◌, ◌∷◌, [], length, None, is_some, OnOk};
    ghost use Rattle.channel_world_language.specs.Table.{number_in, named_in, waiter_name};

    /// No names.
    pub fn new(alloc: Global) -> Table<'a>
        ensures { result ≡ [] }
    {
        Table {
            entries: Vec::new(alloc),
            numbers: HashMap::new(alloc),
        }
    }

    /// What a name names; `None` if it was not given.
    pub fn get(&self, name: &[u8]) -> Option<Named>
        ensures { result ≡ named_in self.now name.now }
    {
        let number = self.numbers.get(name).copied()?;
        let entry = self.entries.get(number as usize)?;
        Some(match entry.sort {
            Sort::Handle => Named::Handle(HandleId(number)),
            Sort::Op => Named::Op(OpId(number)),
        })
    }

    /// Whether a name was given.
    pub fn has(&self, name: &[u8]) -> bool
        ensures { result ≡ is_some (number_in self.now name.now) }
    {
        self.numbers.contains_key(name)
    }

    /// The number of the next operation or handle.
    pub fn next(&self) -> u32
        requires { length self.now < 2 ^ 32 }
        ensures { result ≡ length self.now }
    {
        self.entries.len() as u32
    }

    /// Gives a new name. If memory is refused nothing is known of the table.
    pub fn give(&mut self, name: &'a [u8], sort: Sort) -> Result<(), AllocError>
        requires new { number_in self.old name.now ≡ None }
        requires few { length self.old < 2 ^ 32 }
        ensures { OnOk result (self.new ≡ self.old ++ (name.entry.now, sort) ∷ []) }
    {
        let number = self.entries.len() as u32;
        self.entries.reserve(1)?;
        self.numbers.insert(name, number)?;
        self.entries.push_reserved(Entry { name, sort });
        Ok(())
    }

    /// The name of a task that is woken.
    pub fn waiter_name(&self, waiter: Waiter) -> &[u8]
        ensures { result.now ≡ waiter_name self.now waiter }
    {
        let (Waiter::Op(OpId(number)) | Waiter::Stream(HandleId(number))) = waiter;
        match self.entries.get(number as usize) {
            Some(entry) => entry.name,
            None => b"",
        }
    }
}
