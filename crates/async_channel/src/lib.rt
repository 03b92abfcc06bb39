//! Channels between threads and tasks, as `async-channel` 2.5.0 has them.
//!
//! [`bounded`] and [`unbounded`] open a channel: a [`Sender`] and a [`Receiver`], which can be cloned. Each message is received once, in
//! the order of sending. A send that finds the channel full waits until a message is received, and a receive that finds it empty until one
//! is sent. A task waits by polling ([`Send`], [`Recv`], [`Closed`], a receiver as a stream), a thread by `send_blocking` and
//! `recv_blocking`; the `try_` calls don't wait for that.
//!
//! The channel is closed by [`close`](Sender::close), by the drop of the last sender, or by that of the last receiver. What was sent before
//! can still be received. [`WeakSender`] and [`WeakReceiver`] don't keep it open.
//!
//! A call of a handle is a [`ChannelCall`] of `channel_calls`: the function that makes a step is the one for which `channel_world` proves
//! every interleaving, over cells of one owner.
//!
//! **With a bound** the cells are those of `channel_cells`: a table of words and slots, with the two counts of handles among the words, and
//! four wait queues behind a lock each, under the rule that there is one history of all that was done to the channel, by whatever threads.
//! Each operation of a call is proved to be the next of its machine. So the headline holds of running threads: each message comes once and
//! in order, each answer is that of its call at moments of it, each count is the number of handles, and no pending waiter sleeps beside a
//! message, a free place or a closing unless a notified waiter or a call in flight is responsible. [`Witnessed::look`] proves this at any
//! moment, as long as the queue's positions last. Each call leaves a [`Witness`], whose view says what its party asked and was answered:
//! [`Sender::calls`] and [`Receiver::calls`] return it, and a plain call passes it to the channel's trace. A call that blocks tries some
//! times, each time as a call of its own, and then polls; its contract speaks of its last call.
//!
//! **Without a bound** the cells are a queue, four wait queues behind a lock each, and two counts. Each call has one body for whatever
//! trace of the caller's ([`Trace`]); it is proved that between the trace before and the trace after are the operations that the call's
//! machine makes up to the very answer that came out, and no others. That threads together do what such steps do one after another is no
//! contract here: a law of `handle_laws` ties it to one of `channel_steps`.
//!
//! A channel may be opened with a trace ([`bounded_watched`], [`unbounded_watched`]): each call of its handles takes a copy of it.
//! Otherwise it has [`NoTrace`], which keeps nothing. The code is the same for both, and so is what a call's contract says of its answer.
//! Tested, not proved: that a handle's method makes its call once.
//!
//! Calls that may wait (for a lock, for a place, for a message) take the runtime, which each handle keeps; the others are made of functions
//! that don't take it.
//!
//! # Extensions
//!
//! `recv_many`, `recv_many_into`, `iter`, `try_iter`, `into_iter`; `give_up` of an operation, `is_terminated` of a send; traces,
//! [`Witnessed`] and [`Traced`] calls; [`Runtime`]; and the answers for want of memory, serials, identities or counts ([`Refused`],
//! [`OpenError`], [`HandleError`]).
#![tactic(auto)]

mod bed;
mod by_form;
mod calls;
mod cells;
mod counted;
mod handles;
mod link;
mod listeners;
mod open;
mod polls;
mod runtime;
mod seen;
mod shared;
mod traced;
mod waiters;
mod with_bound;
mod witnessed;

pub use by_form::Calls;
pub use channel_calls::ask::ChannelAsk;
pub use channel_calls::call::ChannelCall;
pub use channel_calls::cells::ChannelCells;
pub use channel_calls::error::{
    HandleError, OpenError, RecvError, Refused, SendError, TryRecvError, TrySendError,
};
pub use channel_calls::kind::{Kind, OfReceivers, OfSenders};
pub use channel_calls::mark::Mark;
pub use channel_calls::plain::PlainChannel;
pub use channel_calls::reply::Reply;
pub use channel_calls::several::{Limit, Messages};
pub use channel_calls::stage::{Returned, Side, Telling, WaitList};
pub use concurrent_queue::call::QueueReply;
pub use concurrent_queue::queue_call::QueueCall;
pub use event_listener::error::ListenError;
pub use event_listener::id::EventIds;
pub use event_listener::key::Key;
pub use event_listener::waking::Task;
pub use handles::closed::Closed;
pub use handles::iter::{IntoIter, Iter, TryIter};
pub use handles::receiver::Receiver;
pub use handles::recv::Recv;
pub use handles::send::Send;
pub use handles::sender::Sender;
pub use handles::weak::{WeakReceiver, WeakSender};
pub use open::no_trace::NoTrace;
pub use open::{bounded, bounded_watched, unbounded, unbounded_watched};
pub use runtime::Runtime;
pub use seen::{Shown, Sight, Trace};
pub use traced::Traced;
pub use with_bound::Witness;
pub use witnessed::Witnessed;
