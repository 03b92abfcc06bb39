//! One history of the cells of a channel that threads share, as the views of their seats tell it: what all parties did, in one order, which
//! part of it each party has made, and which seat has which wait queue, handle and listener. It is what the rule of a bounded channel's
//! table says.
//!
//! Laws say that what a party does next keeps such a history; that at every moment it is a run of the channel, of which the whole headline
//! holds; that its counts are the numbers of handles; and that every pending operation has a listener on a wait queue. Others say that
//! cells that go by the view of a call's seat keep what `ChannelCells` requires, that each of their operations is the next act of the
//! party, and that a call that was made over them has ended in its party's view with the answer that it gave.
#![tactic(auto)]

pub mod laws;
pub mod party;
