//! Where runs start, and what is asked between them.

ghost use Rattle.std.specs.Prelude.{IfOk};
ghost use Rattle.concurrent_queue.specs.Capacity.{capacity_of};
ghost use Rattle.concurrent_queue.specs.Made.{CanBeMade};
ghost use Rattle.channel_calls.specs.Plain.{parts_of};
ghost use Rattle.channel_steps.specs.Configuration.{Represents};
ghost use Rattle.channel_steps.specs.Run.{new_configuration};
ghost use Rattle.channel_steps.specs.Start.{EachConfigurationTellsQuiet};

use crate::party::Party;
use channel_calls::plain::PlainChannel;
use concurrent_queue::cells::QueueForm;
use std::alloc::{AllocError, Global};

/// A channel of one owner with the parties that have a call under way.
#[derive(Drop)]
pub struct Opened<T, W> {
    /// The channel's queue, lists and counts.
    pub cells: PlainChannel<T, W>,
    /// The parties that have a call under way.
    pub parties: Vec<Party<T, W>>,
}

/// An open and empty channel over a queue of this form, with one sender, one receiver and no call under way. `Err` if there is no memory
/// for the queue.
pub fn open_channel<T: Drop, W: Drop>(
    form: QueueForm,
    alloc: Global,
) -> Result<Opened<T, W>, AllocError>
    requires form { CanBeMade form }
    ensures shown { IfOk result (λ o. Represents (parts_of o.cells) o.parties.items (new_configuration (capacity_of form))) }
{
    Ok(Opened {
        cells: PlainChannel::new(form, alloc)?,
        parties: Vec::new(alloc),
    })
}

/// Whether no call is under way.
pub fn is_quiet<T, W>(parties: &Vec<Party<T, W>>) -> bool
    ensures { EachConfigurationTellsQuiet parties.now.items result }
{
    parties.is_empty()
}
