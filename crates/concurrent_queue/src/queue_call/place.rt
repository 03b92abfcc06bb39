//! How far a call has come among the actions of its machine. Each step leads to a later action or goes back, so if the place after a step
//! is no later than before, the call has to repeat an action, and yields first.

use crate::bounded::RingAction;
use crate::queue_call::{CallState, QueueCall};
use crate::single::SingleAction;
use crate::unbounded::action::UnboundedAction;

/// The place of the next action, from 1.
fn single_place<T>(action: &SingleAction<T>) -> u8 {
    match action {
        SingleAction::PushPut(_) | SingleAction::ForceTake(_) | SingleAction::PopTake => 2,
        SingleAction::PushUnlock | SingleAction::ForcePut(_, _) | SingleAction::PopUnlock(_) => 3,
        SingleAction::ForceUnlock(_) | SingleAction::Finished => 4,
        _ => 1,
    }
}

/// The place of the next action, from 1.
fn ring_place<T>(action: &RingAction<T>) -> u8 {
    match action {
        RingAction::PushShut(_, _) | RingAction::PushStamp(_, _, _) | RingAction::PopStamp(_) => 2,
        RingAction::IsEmptyTail(_) | RingAction::IsFullHead(_) | RingAction::LenHead(_, _) => 2,
        RingAction::PushSwap(_, _, _) | RingAction::PushHead(_, _) => 3,
        RingAction::ForceHead(_, _) | RingAction::PopSwap(_) | RingAction::PopTail(_) => 3,
        RingAction::LenTail(_, _, _) => 3,
        RingAction::PushPut(_, _, _) | RingAction::ForceAdd(_, _) | RingAction::PopTake(_) => 4,
        RingAction::PushStore(_, _) | RingAction::ForceTake(_, _) | RingAction::PopStore(_, _) => 5,
        RingAction::ForcePut(_, _, _) => 6,
        RingAction::ForceStore(_, _) | RingAction::Finished => 7,
        _ => 1,
    }
}

/// The place of the next action, from 1.
fn blocks_place<T>(action: &UnboundedAction<T>) -> u8 {
    match action {
        UnboundedAction::PushShut(_, _) | UnboundedAction::PushLook(_, _, _) => 2,
        UnboundedAction::PopLook(_) | UnboundedAction::EmptyTail(_) => 2,
        UnboundedAction::LenHead(_) => 2,
        UnboundedAction::PushReturn(_, _) | UnboundedAction::PushMake(_, _) => 3,
        UnboundedAction::PopTail(_, _) | UnboundedAction::LenTail(_, _) => 3,
        UnboundedAction::PushFirst(_, _, _) | UnboundedAction::PopSwap(_, _) => 4,
        UnboundedAction::PushStart(_, _, _) | UnboundedAction::PopNext(_, _) => 5,
        UnboundedAction::PushMore(_, _, _) | UnboundedAction::PopBlock(_, _, _) => 6,
        UnboundedAction::PushSwap(_, _, _, _) | UnboundedAction::PopHead(_, _) => 7,
        UnboundedAction::PushTurn(_, _, _, _) | UnboundedAction::PopWait(_, _) => 8,
        UnboundedAction::PushAdd(_, _, _, _) | UnboundedAction::PopTake(_, _) => 9,
        UnboundedAction::PushLink(_, _, _, _) | UnboundedAction::PopCount(_, _, _) => 10,
        UnboundedAction::PushPut(_, _, _, _) | UnboundedAction::PopRetire(_, _, _) => 11,
        UnboundedAction::PushStore(_, _, _) => 12,
        UnboundedAction::PushGive(_) | UnboundedAction::Finished => 13,
        _ => 1,
    }
}

impl<T: Drop> QueueCall<T> {
    /// Whether it stands at an action of its machine.
    pub(crate) fn has_begun(&self) -> bool {
        !matches!(&self.state, CallState::Asked(_))
    }

    /// The place of its next action; a call that has made no step stands at its first.
    pub(crate) fn place(&self) -> u8 {
        match &self.state {
            CallState::Asked(_) => 1,
            CallState::Single(action) => single_place(action),
            CallState::Ring(action) => ring_place(action),
            CallState::Blocks(call) => blocks_place(&call.action),
            CallState::Finished => 14,
        }
    }
}
