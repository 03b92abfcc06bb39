//! The two kinds of strong handles as types.

ghost use Rattle.std.specs.Prelude.{◌≡◌};
ghost use Rattle.channel_calls.specs.declared.stage.Side.{Side as Kinds};
ghost use Rattle.channel_calls.specs.declared.stage.Side.TheVariants as side;

use crate::stage::Side;

/// A kind of strong handles as a type: what is counted of one kind is not taken for the other.
pub trait Kind {
    /// The kind.
    ghost side: { Kinds };

    /// The kind.
    fn side() -> Side
        ensures { result ≡ side };
}

/// Of senders.
pub enum OfSenders {}

/// Of receivers.
pub enum OfReceivers {}

impl Kind for OfSenders {
    ghost side = { side.Senders };

    fn side() -> Side {
        Side::Senders
    }
}

impl Kind for OfReceivers {
    ghost side = { side.Receivers };

    fn side() -> Side {
        Side::Receivers
    }
}
