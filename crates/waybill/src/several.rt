//! Several messages packed at once, by one pass.

ghost use Rattle.std.specs.Prelude.{◌≡◌, IfOk, IfErr};
ghost use Rattle.waybill.specs.Accounts.{after_all_sent};

use crate::rule::Room;
use crate::tokens::{Office, Parcel, Pass};
use std::alloc::{AllocError, Global};

impl<T: Copy, B: Room> Office<T, B> {
    /// These messages, packed in their order. From here on they count as sent by this pass. `Err` if there is no memory.
    pub fn pack_each(
        &self,
        alloc: Global,
        pass: &mut Pass<T, B>,
        values: &[T],
    ) -> Result<Vec<Parcel<T, B>>, AllocError>
        ensures sent { IfOk result (λ parcels. pass.new ≡ after_all_sent pass.old values.now) }
        ensures parcels { IfOk result (λ parcels. parcels.items ≡ values.now) }
        ensures same { IfErr result (λ e. pass.new ≡ pass.old) }
    {
        let mut parcels = Vec::with_capacity(alloc, values.len())?;
        for next in 0..values.len() {
            parcels.push_reserved(self.pack(pass, values[next]));
        }
        Ok(parcels)
    }
}
