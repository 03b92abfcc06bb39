//! Messages with their places, and what becomes of one that cannot have or take its place.

/// A message with its sender's number and its place, from 0, among what that one sent.
#[derive(Clone, Copy, Drop)]
pub struct Numbered<T> {
    pub sender: u32,
    pub number: u64,
    pub value: T,
}

/// The message that a source returned: it has sent 2^64 - 1 messages and has no number left.
#[derive(Drop)]
pub struct NumbersUsedUp<T> {
    pub value: T,
}

/// A parcel that came out of turn, or from a sender that the sink does not know. It is passed on as it came.
#[derive(Drop)]
pub struct OutOfTurn<P> {
    pub parcel: P,
}

/// Why a receiver ended before its line did.
#[derive(Drop)]
pub enum Stopped<P> {
    /// There is no memory for one more message.
    NoMemory,
    /// A parcel came out of turn.
    OutOfTurn(OutOfTurn<P>),
}
