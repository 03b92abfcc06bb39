//! Steps of parties, and what runs of them did.

use channel_calls::mark::Mark;
use channel_calls::reply::Reply;
use channel_world_model::call::Call;
use channel_world_model::name::Waiter;
use channel_world_model::run::Stopped;

/// A party by number: it makes calls, one after another.
#[derive(Clone, Copy, Debug, PartialEq, Eq, Hash)]
pub struct PartyId(pub u32);

/// A step of a run: a party begins a call, or makes one step of the call that it has under way.
#[derive(Drop, PartialEq, Eq)]
pub enum Step<T> {
    /// Begins a call. The channel isn't touched.
    Begin {
        /// Whose call it is.
        party: PartyId,
        /// What is called.
        call: Call<T>,
    },
    /// One step.
    Step {
        /// Whose call makes it.
        party: PartyId,
    },
}

/// What one step did.
#[derive(Debug, Drop, PartialEq, Eq)]
pub struct Entry<T> {
    /// What was done to the channel.
    pub mark: Mark,
    /// The names that it woke, in order.
    pub woken: Vec<Waiter>,
    /// What the call answers if this was its last step.
    pub reply: Option<Reply<T>>,
}

/// What a run did.
#[derive(Debug, Drop, PartialEq, Eq)]
pub struct Run<T> {
    /// An entry for each step that was made.
    pub trace: Vec<Entry<T>>,
    /// Where the run stopped and why, if a step was refused.
    pub stopped: Option<Stopped>,
}
