//! Tables of names. The invariant: a name that was ever taken stays taken, and no name stands twice.
use lru::{Iter, LruCache};
use std::alloc::{AllocError, Global};
use std::marker::Model;

/// The names of one sort that were ever taken, each with what lives under it, or with `None` if that lives no more.
///
/// It is the kit's list of recent use, in which nothing is ever used again: what lives under a name is found without a walk past the
/// others.
#[derive(Drop)]
pub struct Directory<X> {
    entries: LruCache<u32, Option<X>>,
}

impl<X> Model for Directory<X> {
    ghost use Rattle.std.specs.Prelude.{◌≡◌, List, ℕ, Option, ◌-◌, ◌^◌};

    ghost Value = { List (ℕ × Option X) };

    ghost view = { λ d. d.entries.entries };

    ghost invariant = { λ d. d.entries.cap ≡ 2 ^ 64 - 1 };
}

impl<X> Directory<X> {
    ghost use Rattle.std.specs.Prelude.{◌≡◌, ◌<◌, ◌^◌, ◌∷◌, [], length, nat_eq, false, option_copied, IfNone, IfOk, IfErr, OnOk, OnErr};
    ghost use Rattle.std.specs.List.{IsDistinct};
    ghost use Rattle.std.specs.Map.{keys_of};
    ghost use Rattle.channel_world_model.specs.Names.{at, is_taken, with_new, without_name};

    /// No name was taken.
    pub fn new(alloc: Global) -> Result<Directory<X>, AllocError>
        ensures { IfOk result (λ d. d ≡ []) }
    {
        let entries = LruCache::unbounded(alloc)?;
        Ok(Directory { entries })
    }

    /// What lives under the name.
    pub fn get(&self, name: u32) -> Option<&X>
        ensures { option_copied result ≡ at name self.now }
    {
        self.entries.peek(&name)?.as_ref()
    }

    /// Whether the name was ever taken.
    pub fn is_taken(&self, name: u32) -> bool
        ensures { result ≡ is_taken name self.now }
    {
        self.entries.contains(&name)
    }

    /// All names with what lives under them. None stands twice.
    pub fn iter(&self) -> Iter<'_, u32, Option<X>>
        ensures entries { result ≡ self.now }
        ensures few { length self.now < 2 ^ 63 }
        ensures apart { IsDistinct nat_eq (keys_of self.now) }
    {
        let _length = self.entries.len();
        self.entries.iter()
    }

    /// Takes a new name, with this under it, which is returned if memory was refused.
    fn put(&mut self, name: u32, x: Option<X>) -> Result<(), Option<X>>
        requires { is_taken name self.old ≡ false }
        ensures ok { OnOk result (self.new ≡ (name, x) ∷ self.old) }
        ensures err { OnErr result (self.new ≡ self.old) }
        ensures back { IfErr result (λ y. y ≡ x) }
    {
        let _length = self.entries.len();
        // The list is as long as memory allows, so nothing is ever pushed out of it.
        match self.entries.push(name, x) {
            Ok(None) => Ok(()),
            Ok(Some((_, x))) => Err(x),
            Err(failed) => Err(failed.value.1),
        }
    }

    /// Takes a new name, with what lives under it, which is returned if memory was refused.
    pub fn add(&mut self, name: u32, x: X) -> Result<(), X>
        requires { is_taken name self.old ≡ false }
        ensures ok { OnOk result (self.new ≡ with_new name x self.old) }
        ensures err { OnErr result (self.new ≡ self.old) }
        ensures back { IfErr result (λ y. y ≡ x) }
    {
        match self.put(name, Some(x)) {
            Ok(()) => Ok(()),
            Err(Some(x)) => Err(x),
            Err(None) => unreachable!(),
        }
    }

    /// Removes what lives under the name; the name stays taken.
    pub fn take(&mut self, name: u32) -> Option<X>
        ensures found { result ≡ at name self.old }
        ensures rest { self.new ≡ without_name name self.old }
        ensures none { IfNone result (self.new ≡ self.old) }
    {
        self.entries.peek_mut(&name)?.take()
    }
}

impl<X: Drop> Directory<X> {
    ghost use Rattle.std.specs.Prelude.{◌≡◌, List, ℕ, Option, false};
    ghost use Rattle.std.specs.Bool.{OnTrue, OnFalse};
    ghost use Rattle.channel_world_model.specs.Names.{is_taken, with_changed, with_spent, without_name};

    /// Takes a new name, under which nothing lives. False if memory was refused.
    pub fn spend(&mut self, name: u32) -> bool
        requires { is_taken name self.old ≡ false }
        ensures ok { OnTrue result (self.new ≡ with_spent name self.old) }
        ensures err { OnFalse result (self.new ≡ self.old) }
    {
        self.put(name, None).is_ok()
    }

    /// Sets what lives under a name that was taken. A name that was never taken stays so.
    pub fn set(&mut self, name: u32, x: X)
        ensures set { self.new ≡ with_changed name x self.old }
        ensures taken { (before : List (ℕ × Option X)) → self.old ≡ without_name name before → self.new ≡ with_changed name x before }
    {
        if let Some(place) = self.entries.peek_mut(&name) {
            *place = Some(x);
        }
    }
}
