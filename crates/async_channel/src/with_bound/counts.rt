//! More handles of a channel with a bound. Each is counted by a call of a party of its own, of which the channel's watch is told.

ghost use Rattle.std.specs.Prelude.{◌≡◌, [], ◌∷◌, IfOk, IfSome};
ghost use Rattle.async_channel.specs.Called.{ClonedSo, HasAskedNothing, HasParted, UpgradedSo, WasTold};
ghost use Rattle.channel_cells.specs.Channel.{id_of, seat_table, standing_of};
ghost use Rattle.channel_history.specs.CallEnds.{Rests};

use crate::seen::{self, Trace};
use crate::with_bound::{Bounded, Witness};
use channel_calls::error::HandleError;
use channel_calls::kind::Kind;
use channel_calls::raised::Raised;
use event_listener::waking::WakeNow;
use std::sync::Wait;

impl<T: Drop> Bounded<T> {
    /// Where no tie was got: the party of the call has asked nothing.
    pub(crate) fn no_memory<S: Trace<T>>(&self, watch: &S) -> HandleError
        ensures told { WasTold S.called (HasAskedNothing (id_of self.now.table)) }
        ensures error { result ≡ HandleError.NoMemory }
    {
        seen::tell(watch, self.table.new_seat());
        HandleError::NoMemory
    }

    /// The handle that this call made gets a seat of its own.
    fn part_handle<K: Kind, S: Trace<T>>(&self, watch: &S, call: Witness<T>) -> Witness<T>
        requires here { seat_table call ≡ id_of self.now.table }
        requires handle { Rests (K.side ∷ []) [] (standing_of call) }
        ensures told { WasTold S.called (HasParted (id_of self.now.table) (standing_of call)) }
        ensures handle { (seat_table result ≡ id_of self.now.table) × Rests (K.side ∷ []) [] (standing_of result) }
    {
        let (call, handle) = self.table.part_handle::<K>(call);
        seen::tell(watch, call);
        handle
    }

    /// One more handle of this kind is counted: what is counted of it, and its seat. Refused where more than half of `usize::MAX` live.
    pub(crate) fn clone_handle<K: Kind, R: Wait, S: Trace<T>>(
        &self,
        rt: &R,
        watch: &S,
    ) -> Result<(Raised<K>, Witness<T>), HandleError>
        ensures cloned { ClonedSo S.called (id_of self.now.table) K.side result }
        ensures handle { IfOk result (λ made. (seat_table made.1 ≡ id_of self.now.table) × Rests (K.side ∷ []) [] (standing_of made.1)) }
    {
        let table = &self.table;
        let (made, call) = table.clone_handle(rt, table.new_seat(), &mut WakeNow { rt });
        match made {
            Ok(raised) => Ok((raised, self.part_handle::<K, S>(watch, call))),
            Err(error) => {
                seen::tell(watch, call);
                Err(error)
            }
        }
    }

    /// The same where the channel is open and one lives; `None` elsewhere.
    pub(crate) fn upgrade<K: Kind, R: Wait, S: Trace<T>>(
        &self,
        rt: &R,
        watch: &S,
    ) -> Result<Option<(Raised<K>, Witness<T>)>, HandleError>
        ensures upgraded { UpgradedSo S.called (id_of self.now.table) K.side result }
        ensures handle { IfOk result (λ made. IfSome made (λ m. (seat_table m.1 ≡ id_of self.now.table) × Rests (K.side ∷ []) [] (standing_of m.1))) }
    {
        let table = &self.table;
        let (made, call) = table.upgrade(rt, table.new_seat(), &mut WakeNow { rt });
        match made {
            Ok(Some(raised)) => Ok(Some((raised, self.part_handle::<K, S>(watch, call)))),
            Ok(None) => {
                seen::tell(watch, call);
                Ok(None)
            }
            Err(error) => {
                seen::tell(watch, call);
                Err(error)
            }
        }
    }
}
