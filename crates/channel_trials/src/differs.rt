//! Where a run and the plain count differ.

use std::fmt;

/// What differs.
#[derive(Clone, Copy, PartialEq, Eq)]
pub enum Differs {
    /// A mark that its call may not make, or not over what is held.
    Mark,
    /// A reply whose condition wasn't met, or whose call made other marks.
    Reply,
    /// A beginning that did something.
    Begin,
    /// One was woken who didn't wait, was woken before, or came to its line after one who waits there unwoken.
    Woken,
    /// A message, a free place or a closing for which nobody answers, beside one who waits unwoken.
    Owed,
    /// The number of messages, of those who wait, of those woken among them or of the calls under way.
    Numbers,
    /// A step was refused that is to be made, or the other way round, or for another reason.
    Refusal,
    /// A call doesn't end.
    Endless,
    /// What left isn't what came, in order.
    Accounts,
    /// Nothing differs: there was no memory to go on.
    NoMemory,
}

impl fmt::Display for Differs {
    fn fmt<W: fmt::Write>(&self, f: &mut fmt::Formatter<W>) -> fmt::Result {
        let text = match self {
            Differs::Mark => "a mark differs",
            Differs::Reply => "a reply differs",
            Differs::Begin => "a beginning did something",
            Differs::Woken => "the names of those woken differ",
            Differs::Owed => "a wake-up is owed",
            Differs::Numbers => "a number differs",
            Differs::Refusal => "a refusal differs",
            Differs::Endless => "a call doesn't end",
            Differs::Accounts => "what left isn't what came",
            Differs::NoMemory => "want of memory",
        };
        f.write_str(text)
    }
}
