//! What one thread receives, kept beside its pass. The invariant: the pass has received just these messages, and sent none.

ghost use Rattle.std.specs.Prelude.{◌≡◌, List, [], ◌∷◌, ◌++◌, IfOk, IfErr};
ghost use Rattle.waybill.specs.Accounts.{fresh, account};

use crate::rule::Room;
use crate::tokens::{Office, Parcel, Pass};
use std::alloc::Global;
use std::marker::Model;

/// A pass with the messages that it received. Contracts see these.
#[derive(Drop)]
pub struct Inbox<T: Drop, B: Room> {
    pass: Pass<T, B>,
    got: Vec<T>,
}

impl<T: Drop, B: Room> Model for Inbox<T, B> {
    ghost Value = { List T };

    ghost view = { λ i. i.got.items };

    ghost invariant = { λ i. i.pass ≡ account 1 [] i.got.items [] };
}

impl<T: Drop, B: Room> Inbox<T, B> {
    /// Nothing received yet, with a new pass.
    pub fn new(alloc: Global, pass: Pass<T, B>) -> Inbox<T, B>
        requires { pass ≡ fresh 1 }
        ensures { result ≡ [] }
    {
        Inbox {
            pass,
            got: Vec::new(alloc),
        }
    }

    /// Unpacks a parcel and keeps its message, which now counts as received. `Err` returns the parcel if there is no memory.
    pub fn unpack(
        &mut self,
        office: &Office<T, B>,
        parcel: Parcel<T, B>,
    ) -> Result<(), Parcel<T, B>>
        ensures received { IfOk result (λ u. self.new ≡ self.old ++ parcel ∷ []) }
        ensures same { IfErr result (λ e. self.new ≡ self.old) }
        ensures back { IfErr result (λ e. e ≡ parcel) }
    {
        if self.got.reserve(1).is_err() {
            return Err(parcel);
        }
        self.got
            .push_reserved(office.unpack(&mut self.pass, parcel));
        Ok(())
    }

    /// The pass and what was received, in the order in which it came.
    pub fn into_parts(self) -> (Pass<T, B>, Vec<T>)
        ensures pass { result.0 ≡ account 1 [] result.1.items [] }
        ensures got { result.1.items ≡ self }
    {
        (self.pass, self.got)
    }
}
