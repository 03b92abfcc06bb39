//! Events, their listeners, and the lists of listeners inside them, as `event-listener` 5.4.2 has them.
//!
//! An [`Event`] is a list of listeners behind a lock, with an identity from [`EventIds`]. An [`EventListener`] has a place in it, which it
//! gives up when it is dropped; it is polled, or a thread waits on it. A [`StackSlot`] and its [`StackListener`], which
//! [`listener!`](crate::listener) writes, do the same. A notification is a number, perhaps with a tag for each listener that it tells
//! ([`IntoNotification`]).
//!
//! A [`List`] is such a list by itself: its listeners in the order of listening, of which each is told or waiting, the told ones first. A
//! notification tells the first ones that wait, gives each a tag, and passes their tasks to a sink ([`Wakes`]). Every call is one operation
//! on two lists, told and waiting, and its contract names that operation.
//!
//! [`Locked`] is a value behind a lock. A call is given the right to take the lock once ([`Section`]), so by its type it makes one critical
//! section. Events and their listeners are written over any type of lists with [`Steps`], by whose contracts a call says which critical
//! sections it made; an ordinary event has a [`List`].
//!
//! # Extensions
//!
//! The Rust crate has events, listeners, stack listeners and notifications. Extensions are [`List`], [`Key`] and their runs;
//! [`RecordedEvent`], which keeps a record of its calls; [`EventId`] and [`EventIds`], where the crate tells events apart by address;
//! [`Wakes`], [`WakerCell`], [`Task`], [`WakeNow`] and [`Parker`]; [`Locked`] and [`Steps`]; [`laws`]; and the answers for want of memory
//! and serials.
#![tactic(auto)]

pub mod calls;
mod counted;
pub mod error;
pub mod event;
mod home;
mod homes;
pub mod id;
mod integers;
pub mod into_notification;
pub mod key;
pub mod laws;
mod links;
pub mod list;
pub mod listener;
mod node;
mod node_calls;
pub mod notify;
pub mod parker;
mod place;
pub mod prelude;
pub mod recorded;
mod recording;
pub mod records;
pub mod relaxed;
pub mod run;
pub mod section;
pub mod stack;
pub mod steps;
pub mod tagged;
pub mod tagged_with;
mod turn;
pub mod wakes;
pub mod waking;

pub use calls::Registered;
pub use error::{ListenError, NoMemory, NotifyError, UnknownListener};
pub use event::Event;
pub use home::{Home, Step};
pub use id::{EventId, EventIds, IdsUsedUp};
pub use into_notification::IntoNotification;
pub use key::Key;
pub use list::List;
pub use listener::{EventListener, Listener, PollFault, WaitError};
pub use notify::{Additional, Notification, Notify};
pub use parker::Parker;
pub use recorded::{RecordedCall, RecordedEvent, RegisterError};
pub use records::Records;
pub use relaxed::Relaxed;
pub use run::{ListCall, ListReply, ListRun, Target};
pub use section::{Inside, Locked, Section};
pub use stack::{StackListener, StackSlot};
pub use steps::Steps;
pub use tagged::Tag;
pub use tagged_with::TagWith;
pub use wakes::Wakes;
pub use waking::{Task, WakeNow, WakerCell};
